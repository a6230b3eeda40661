//! How old an upload is, and how old it has to be.

ghost use Rattle.std.specs.Prelude.{◌≡◌, ◌≤◌, option_copied};
ghost use Rattle.testing_rules_model.specs.Excuses as rules;
ghost use Rattle.testing_rules_excuses.specs.steps.LentUploads.{uploads_lent};

use crate::reasons::is_named;
use deb_version::Version;
use jiff_core::civil::Date;
use testing_rules_facts::{is_above, urgency_rank};
use testing_rules_items::{Hint, Urgency};
use testing_rules_model::{Delays, DelaysIn, HintIn, UploadIn};

/// The days from the upload to the run, at least 0.
pub fn age_of(date: Date, upload: &UploadIn) -> u32
    ensures { result ≡ rules.age_of date upload.now }
{
    let day = date.to_unix_epoch_day();
    let uploaded = upload.day.to_unix_epoch_day();
    if day < uploaded {
        return 0;
    }
    (day - uploaded) as u32
}

/// The version is above testing's, or testing has none.
pub fn is_news(testing: Option<&Version>, version: &Version) -> bool
    ensures { result ≡ rules.is_news (option_copied testing.entry) version.now }
{
    match testing {
        Some(testing) => is_above(version, testing),
        None => true,
    }
}

fn more_urgent(urgency: Urgency, other: Urgency) -> Urgency
    ensures { result ≡ rules.more_urgent urgency other }
{
    if urgency_rank(urgency) < urgency_rank(other) {
        other
    } else {
        urgency
    }
}

fn days_of(delays: Delays, urgency: Urgency) -> u32
    ensures { result ≡ rules.days_of delays urgency }
{
    match urgency {
        Urgency::Low => delays.low,
        Urgency::Medium => delays.medium,
        Urgency::High => delays.high,
        Urgency::Emergency | Urgency::Critical => delays.critical,
    }
}

/// The delays of the last message on them, or else the usual ones.
pub fn delays_in_force(last: Option<DelaysIn>) -> Delays
    ensures { result ≡ rules.delays_in_force last }
{
    match last {
        Some(last) => last.delays,
        None => Delays {
            low: 10,
            medium: 5,
            high: 2,
            critical: 0,
        },
    }
}

/// The upload's urgency counts: it is the source's, and above testing's version.
fn counts(testing: Option<&Version>, name: &str, upload: &UploadIn) -> bool
    ensures { result ≡ rules.counts (option_copied testing.entry) name.now upload.now }
{
    upload.source.as_str() == name && is_news(testing, &upload.version)
}

/// The greatest urgency among the uploads that count.
fn most_urgent(uploads: &[&UploadIn], testing: Option<&Version>, name: &str) -> Urgency
    ensures { result ≡ rules.most_urgent (uploads_lent uploads.now) (option_copied testing.entry) name.now }
{
    let mut urgency = Urgency::Low;
    for upload in uploads {
        if counts(testing, name, upload) {
            urgency = more_urgent(urgency, upload.urgency);
        }
    }
    urgency
}

/// The days that a hint asks for the source at the version.
pub fn asked_days(name: &str, version: &Version, hint: &Hint) -> Option<u32>
    ensures { result ≡ rules.asked_days name.now version.now hint.now }
{
    match hint {
        Hint::AgeDays(days, items) => {
            if is_named(items.as_slice(), name, version) {
                Some(*days)
            } else {
                None
            }
        }
        Hint::Block(_) | Hint::BlockAll | Hint::Unblock(_) | Hint::Easy(_) | Hint::Remove(_) =>
            None,
    }
}

/// The days asked by the last hint that asks any.
fn hinted_days(hints: &[HintIn], upload: &UploadIn) -> Option<u32>
    ensures { result ≡ rules.hinted_days hints.now upload.now }
{
    let mut days = None;
    for hint in hints {
        if let Some(asked) = asked_days(upload.source.as_str(), &upload.version, &hint.hint) {
            days = Some(asked);
        }
    }
    days
}

/// The days that an unstable source needs.
pub fn days_needed(
    delays: Delays,
    hints: &[HintIn],
    uploads: &[&UploadIn],
    testing: Option<&Version>,
    upload: &UploadIn,
) -> u32
    ensures { result ≡ rules.days_needed delays hints.now (uploads_lent uploads.now) (option_copied testing.entry) upload.now }
{
    match hinted_days(hints, upload) {
        Some(days) => days,
        None => days_of(
            delays,
            most_urgent(uploads, testing, upload.source.as_str()),
        ),
    }
}
