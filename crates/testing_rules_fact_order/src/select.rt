//! Which of two uploads, rows and other facts counts.

ghost use Rattle.std.specs.Prelude.{◌≡◌, ◌&&◌, not};
ghost use Rattle.std.specs.Str.{bytes_eq};
ghost use Rattle.testing_rules_model.specs.JudgedRows.{row_of};
ghost use Rattle.testing_rules_fact_order.specs.Uploads as uploads;
ghost use Rattle.testing_rules_items.specs.Words as words;
ghost use Rattle.testing_rules_model.specs.Excuses as rules;
ghost use Rattle.testing_rules_model.specs.Unstable as unstable;
ghost use Rattle.testing_rules_model.specs.WithMessage as taken;

use deb_version::Version;
use std::cmp::Ordering;
use testing_rules_items::Urgency;
use testing_rules_model::{BugIn, BuildIn, DelaysIn, DropIn, HintIn, LentRow, UnhintIn, UploadIn};

/// The first version is above the second.
pub fn is_above(version: &Version, other: &Version) -> bool
    ensures { result ≡ words.is_above version.now other.now }
{
    version.order(other).is_gt()
}

/// The two are the same version.
pub fn is_same_version(version: &Version, other: &Version) -> bool
    ensures { result ≡ words.is_same_version version.now other.now }
{
    version.order(other).is_eq()
}

/// The order of uploads: the greatest version first, then by sender and number.
pub fn upload_order(upload: &UploadIn, other: &UploadIn) -> Ordering
    ensures { result ≡ unstable.upload_order upload.now other.now }
{
    let numbers = upload.number.cmp(&other.number);
    let senders = upload.sender.cmp(&other.sender).then(numbers);
    other.version.order(&upload.version).then(senders)
}

/// The rank of an urgency, from the least urgent.
pub fn urgency_rank(urgency: Urgency) -> u32
    ensures { result ≡ rules.urgency_rank urgency }
{
    match urgency {
        Urgency::Low => 0,
        Urgency::Medium => 1,
        Urgency::High => 2,
        Urgency::Emergency => 3,
        Urgency::Critical => 4,
    }
}

/// By content: source, text of the version, urgency and day.
fn said_order(upload: &UploadIn, other: &UploadIn) -> Ordering
    ensures { result ≡ uploads.said_order upload.now other.now }
{
    let day = upload.day.to_unix_epoch_day();
    let days = day.cmp(&other.day.to_unix_epoch_day());
    let urgencies = urgency_rank(upload.urgency).cmp(&urgency_rank(other.urgency));
    let versions = upload.version.text().cmp(other.version.text());
    let sources = upload.source.as_str().cmp(other.source.as_str());
    sources.then(versions.then(urgencies.then(days)))
}

/// By sender and number, then by content.
pub fn message_order(upload: &UploadIn, other: &UploadIn) -> Ordering
    ensures { result ≡ uploads.message_order upload.now other.now }
{
    match upload.sender.cmp(&other.sender) {
        Ordering::Equal => {}
        apart => return apart,
    }
    match upload.number.cmp(&other.number) {
        Ordering::Equal => said_order(upload, other),
        apart => apart,
    }
}

/// The order of builds: the greatest version first, then by sender, number and place.
pub fn build_order(build: &BuildIn, other: &BuildIn) -> Ordering
    ensures { result ≡ unstable.build_order build.now other.now }
{
    let places = build.place.cmp(&other.place);
    let numbers = build.number.cmp(&other.number).then(places);
    let senders = build.sender.cmp(&other.sender).then(numbers);
    other
        .binary
        .version
        .order(&build.binary.version)
        .then(senders)
}

/// The order of drops: the greatest version first, then by sender and number.
pub fn drop_order(drop: &DropIn, other: &DropIn) -> Ordering
    ensures { result ≡ unstable.drop_order drop.now other.now }
{
    let numbers = drop.number.cmp(&other.number);
    let senders = drop.sender.cmp(&other.sender).then(numbers);
    other.version.order(&drop.version).then(senders)
}

/// The order of messages on bugs: the greatest number first, then by sender.
pub fn bug_order(bug: &BugIn, other: &BugIn) -> Ordering
    ensures { result ≡ unstable.bug_order bug.now other.now }
{
    let senders = bug.sender.cmp(&other.sender);
    other.number.cmp(&bug.number).then(senders)
}

/// The order of messages on delays: the greatest number first, then by sender.
pub fn delays_order(delays: &DelaysIn, other: &DelaysIn) -> Ordering
    ensures { result ≡ unstable.delays_order delays.now other.now }
{
    let senders = delays.sender.cmp(&other.sender);
    other.number.cmp(&delays.number).then(senders)
}

/// The order of hints: by number, then by sender.
pub fn hint_order(hint: &HintIn, other: &HintIn) -> Ordering
    ensures { result ≡ unstable.hint_order hint.now other.now }
{
    let senders = hint.sender.cmp(&other.sender);
    hint.number.cmp(&other.number).then(senders)
}

/// The order of unhints: by number, then by sender.
pub fn unhint_order(unhint: &UnhintIn, other: &UnhintIn) -> Ordering
    ensures { result ≡ unstable.unhint_order unhint.now other.now }
{
    let senders = unhint.sender.cmp(&other.sender);
    unhint.number.cmp(&other.number).then(senders)
}

/// The row names the source of the upload.
pub fn is_of_source(upload: &UploadIn, row: &LentRow) -> bool
    ensures { result ≡ unstable.is_of_source upload.now (row_of row.now) }
{
    row.binary.source.as_str() == upload.source.as_str()
}

/// The row names the source of the upload, and was built from its version.
pub fn is_current(upload: &UploadIn, row: &LentRow) -> bool
    ensures { result ≡ unstable.is_current upload.now (row_of row.now) }
{
    is_of_source(upload, row) && is_same_version(&row.binary.source_version, &upload.version)
}

/// The build has another architecture or name than the drop, or a greater version.
pub fn outlives(drop: &DropIn, build: &BuildIn) -> bool
    ensures { result ≡ taken.outlives drop.now build.now }
{
    !(drop.arch.as_str() == build.binary.architecture.as_str()
        && drop.name.as_str() == build.binary.name.as_str())
        || is_above(&build.binary.version, &drop.version)
}

/// Both builds have the same other architecture.
pub fn are_both_elsewhere(first: &BuildIn, last: &BuildIn, arch: &str) -> bool
    ensures { result ≡ (bytes_eq first.now.binary.architecture last.now.binary.architecture && not (bytes_eq first.now.binary.architecture arch.now)) }
{
    let (lowest, highest) = (&first.binary.architecture, &last.binary.architecture);
    lowest.as_str() == highest.as_str() && lowest.as_str() != arch
}

/// The last message on delays, with one more message.
pub fn later_delays(last: Option<DelaysIn>, delays: DelaysIn) -> Option<DelaysIn>
    ensures { result ≡ taken.with_delays delays last }
{
    match last {
        Some(last) => {
            if delays_order(&last, &delays).is_lt() {
                Some(last)
            } else {
                Some(delays)
            }
        }
        None => Some(delays),
    }
}
