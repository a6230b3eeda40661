//! The input of a run about each source that is news, found by the source's name.

ghost use Rattle.std.specs.Prelude.{◌≡◌, [], Some, None, if◌then◌else◌, filter, OnOk, IfOk, IsTrue};
ghost use Rattle.std.specs.Str.{bytes_eq};
ghost use Rattle.testing_rules_excuses.specs.steps.BySource.{slot_at, joined_by, group_at, ground_at, is_among};
ghost use Rattle.testing_rules_excuses.specs.steps.LentUploads.{uploads_lent};
ghost use Rattle.testing_rules_model.specs.Boxed.{unboxed};
ghost use Rattle.testing_rules_model.specs.JudgedRows.{lent};
ghost use Rattle.testing_rules_items.specs.Words.{Text};

use deb_version::{NoMemory, Version};
use jiff_core::civil::Date;
use std::alloc::Global;
use std::collections::HashMap;
use std::marker::Model;
use testing_rules_model::{BugIn, Delays, HintIn, LentRow, UploadIn};

/// The input of a source's excuse apart from testing.
#[derive(Drop)]
pub struct SourceEvidence<'g, 'a> {
    pub rows: &'g [LentRow<'a>],
    pub bugs: &'g [BugIn],
    pub hints: &'g [HintIn],
    pub uploads: &'g [&'a UploadIn],
    pub delays: Delays,
    pub date: Date,
}

impl<'g, 'a> Model for SourceEvidence<'g, 'a> {
    ghost use Rattle.testing_rules_model.specs.steps.Grounds.{Ground};
    ghost use Rattle.testing_rules_model.specs.JudgedRows.{lent};
    ghost use Rattle.testing_rules_excuses.specs.steps.LentUploads.{uploads_lent};

    ghost Value = { Ground };

    ghost view = { λ f. record {
      rows = lent f.rows.now;
      bugs = f.bugs.now;
      hints = f.hints.now;
      uploads = uploads_lent f.uploads.now;
      delays = f.delays;
      date = f.date;
    } };
}

/// An unstable source that isn't in testing or is above testing's version, with testing's version of it.
#[derive(Clone, Copy)]
pub struct News<'a> {
    pub upload: &'a UploadIn,
    pub testing: Option<&'a Version>,
}

/// The input of a run's excuses apart from testing: the rows, the bugs, the hints and the uploads of each source that
/// is news.
#[derive(Drop)]
pub struct Grouped<'a> {
    pub rows: HashMap<&'a str, Vec<LentRow<'a>>>,
    pub bugs: HashMap<&'a str, Vec<BugIn>>,
    pub hints: HashMap<&'a str, Vec<HintIn>>,
    pub uploads: HashMap<&'a str, Vec<&'a UploadIn>>,
    pub delays: Delays,
    pub date: Date,
}

/// Makes sure that a source has a group: its own, or a new empty one.
fn open<'a, T: Drop>(groups: &mut HashMap<&'a str, Vec<T>>, name: &'a str) -> Result<(), NoMemory>
    ensures { OnOk result ((q : Text) → slot_at groups.new q ≡ (if bytes_eq q name.now then Some (group_at groups.old q) else slot_at groups.old q)) }
{
    let _ = groups.entry(name)?.or_default();
    Ok(())
}

/// An empty group for each source that is news.
fn groups_for<'a, T: Drop>(
    alloc: Global,
    news: &[News<'a>],
) -> Result<HashMap<&'a str, Vec<T>>, NoMemory>
    ensures { IfOk result (λ groups. (q : Text) → slot_at groups q ≡ (if is_among news.now q then Some [] else None)) }
{
    let mut groups = HashMap::new(alloc);
    for source in news {
        open(&mut groups, source.upload.source.as_str())?;
    }
    Ok(groups)
}

/// Adds a row to its source's group, if there is one.
fn join_row<'a>(
    groups: &mut HashMap<&'a str, Vec<LentRow<'a>>>,
    row: LentRow<'a>,
) -> Result<(), NoMemory>
    ensures { OnOk result ((q : Text) → slot_at groups.new q ≡ joined_by (bytes_eq q row.entry.binary.now.source) row.entry (slot_at groups.old q)) }
{
    if let Some(group) = groups.get_mut(row.binary.source.as_str()) {
        group.push(row)?;
    }
    Ok(())
}

/// Adds a bug to its source's group, if there is one.
fn join_bug(
    alloc: Global,
    groups: &mut HashMap<&str, Vec<BugIn>>,
    bug: &BugIn,
) -> Result<(), NoMemory>
    ensures { OnOk result ((q : Text) → slot_at groups.new q ≡ joined_by (bytes_eq q bug.now.source) bug.now (slot_at groups.old q)) }
{
    if let Some(group) = groups.get_mut(bug.source.as_str()) {
        group.push(bug.copy(alloc)?)?;
    }
    Ok(())
}

/// Adds an upload to its source's group, if there is one.
fn join_upload<'a>(
    groups: &mut HashMap<&'a str, Vec<&'a UploadIn>>,
    upload: &'a UploadIn,
) -> Result<(), NoMemory>
    ensures { OnOk result ((q : Text) → slot_at groups.new q ≡ joined_by (bytes_eq q upload.entry.now.source) upload.entry (slot_at groups.old q)) }
{
    if let Some(group) = groups.get_mut(upload.source.as_str()) {
        group.push(upload)?;
    }
    Ok(())
}

/// The rows of each source that is news.
pub fn rows_by_source<'a>(
    alloc: Global,
    news: &[News<'a>],
    rows: &[LentRow<'a>],
) -> Result<HashMap<&'a str, Vec<LentRow<'a>>>, NoMemory>
    ensures { IfOk result (λ groups. (q : Text) → IsTrue (is_among news.now q) → lent (group_at groups q) ≡ filter (λ r. bytes_eq q r.binary.source) (lent rows.now)) }
{
    let mut groups = groups_for(alloc, news)?;
    for row in rows {
        join_row(&mut groups, *row)?;
    }
    Ok(groups)
}

/// The bugs of each source that is news. If there are no bugs, no source has a group.
pub fn bugs_by_source<'a>(
    alloc: Global,
    news: &[News<'a>],
    bugs: &[Box<BugIn>],
) -> Result<HashMap<&'a str, Vec<BugIn>>, NoMemory>
    ensures { IfOk result (λ groups. (q : Text) → IsTrue (is_among news.now q) → group_at groups q ≡ filter (λ b. bytes_eq q b.source) (unboxed bugs.now)) }
{
    if bugs.is_empty() {
        return Ok(HashMap::new(alloc));
    }
    let mut groups = groups_for(alloc, news)?;
    for bug in bugs {
        join_bug(alloc, &mut groups, bug)?;
    }
    Ok(groups)
}

/// The uploads of each source that is news.
pub fn uploads_by_source<'a>(
    alloc: Global,
    news: &[News<'a>],
    uploads: &'a [UploadIn],
) -> Result<HashMap<&'a str, Vec<&'a UploadIn>>, NoMemory>
    ensures { IfOk result (λ groups. (q : Text) → IsTrue (is_among news.now q) → uploads_lent (group_at groups q) ≡ filter (λ u. bytes_eq q u.source) uploads.now) }
{
    let mut groups = groups_for(alloc, news)?;
    for upload in uploads {
        join_upload(&mut groups, upload)?;
    }
    Ok(groups)
}

/// The map's items of a source.
fn group<'g, T: Drop>(groups: &'g HashMap<&str, Vec<T>>, name: &str) -> &'g [T]
    ensures { result.now ≡ group_at groups.now name.now }
{
    match groups.get(name) {
        Some(group) => group.as_slice(),
        None => &[],
    }
}

/// What is known about a source.
pub fn found_of<'g, 'a>(grouped: &'g Grouped<'a>, name: &str) -> SourceEvidence<'g, 'a>
    ensures { result ≡ ground_at grouped.now name.now }
{
    SourceEvidence {
        rows: group(&grouped.rows, name),
        bugs: group(&grouped.bugs, name),
        hints: group(&grouped.hints, name),
        uploads: group(&grouped.uploads, name),
        delays: grouped.delays,
        date: grouped.date,
    }
}
