//! What a change takes out of testing and brings in.

ghost use Rattle.std.specs.Prelude.{◌≡◌, [], IfOk, filter, not};
ghost use Rattle.std.specs.Option.{option_map_or};
ghost use Rattle.testing_rules_model.specs.Boxed.{unboxed};
ghost use Rattle.testing_rules_model.specs.FactOrder.{AreBySource};
ghost use Rattle.testing_rules_model.specs.InOrder.{AreByKey};
ghost use Rattle.testing_rules_model.specs.JudgedRows.{lent};
ghost use Rattle.testing_rules_model.specs.Moves as moves;
ghost use Rattle.office_core_breaks.specs.Breaks as rules;

use crate::asked::Change;
use deb_control::{NoMemory, Text};
use std::alloc::{AllocError, Global};
use testing_rules_facts::{Unstable, is_same_version, source_in};
use testing_rules_items::HintItem;
use testing_rules_live::{is_row_of, moved_rows};
use testing_rules_model::{LentRow, UploadIn};
use testing_rules_refusals::is_in_testing;
use testing_rules_suites::Testing;

/// Unstable has the source at the item's version.
pub(crate) fn is_offered(sources: &[Box<UploadIn>], item: &HintItem) -> bool
    requires { AreBySource (unboxed sources.now) }
    ensures { result ≡ rules.is_offered (unboxed sources.now) item.now }
{
    match source_in(sources, item.name.as_str()) {
        Some(upload) => is_same_version(&upload.version, &item.version),
        None => false,
    }
}

/// Testing has the source at the item's version.
pub(crate) fn is_there(testing: &Testing, item: &HintItem) -> bool
    ensures { result ≡ rules.is_there testing.now item.now }
{
    is_in_testing(testing, item.name.as_str(), &item.version)
}

/// The source, unless testing has it at this version.
fn unless_there(alloc: Global, testing: &Testing, upload: &UploadIn) -> Result<Vec<Text>, NoMemory>
    ensures { IfOk result (λ group. group.items ≡ rules.unless_there testing.now upload.now) }
{
    let mut group = Vec::new(alloc);
    if is_in_testing(testing, upload.source.as_str(), &upload.version) {
        return Ok(group);
    }
    group.push(upload.source.copy(alloc)?)?;
    Ok(group)
}

/// The source of a name that comes in if it moves, none where unstable doesn't have it or testing has it already.
fn source_coming(
    alloc: Global,
    sources: &[Box<UploadIn>],
    testing: &Testing,
    name: &Text,
) -> Result<Vec<Text>, NoMemory>
    requires { AreBySource (unboxed sources.now) }
    ensures { IfOk result (λ group. group.items ≡ option_map_or (rules.unless_there testing.now) (moves.source_in (unboxed sources.now) name.now) []) }
{
    match source_in(sources, name.as_str()) {
        Some(upload) => unless_there(alloc, testing, upload),
        None => Ok(Vec::new(alloc)),
    }
}

/// The sources of items that would move.
fn group_coming(
    alloc: Global,
    sources: &[Box<UploadIn>],
    testing: &Testing,
    items: &[HintItem],
) -> Result<Vec<Text>, NoMemory>
    requires { AreBySource (unboxed sources.now) }
    ensures { IfOk result (λ group. group.items ≡ rules.names_where (rules.moves (unboxed sources.now) testing.now) items.now) }
{
    let mut group = Vec::new(alloc);
    for item in items {
        if is_offered(sources, item) && !is_there(testing, item) {
            group.push(item.name.copy(alloc)?)?;
        }
    }
    Ok(group)
}

/// The sources of items that would leave.
fn group_leaving(
    alloc: Global,
    testing: &Testing,
    items: &[HintItem],
) -> Result<Vec<Text>, NoMemory>
    ensures { IfOk result (λ group. group.items ≡ rules.names_where (rules.is_there testing.now) items.now) }
{
    let mut group = Vec::new(alloc);
    for item in items {
        if is_there(testing, item) {
            group.push(item.name.copy(alloc)?)?;
        }
    }
    Ok(group)
}

/// The sources that come in by a change.
pub(crate) fn coming(
    alloc: Global,
    sources: &[Box<UploadIn>],
    testing: &Testing,
    change: &Change,
) -> Result<Vec<Text>, NoMemory>
    requires { AreBySource (unboxed sources.now) }
    ensures { IfOk result (λ group. group.items ≡ rules.coming (unboxed sources.now) testing.now change.now) }
{
    match change {
        Change::Source(name) => source_coming(alloc, sources, testing, name),
        Change::Group(items) => group_coming(alloc, sources, testing, items.as_slice()),
        Change::Removal(_) => Ok(Vec::new(alloc)),
    }
}

/// The sources that leave by a change.
fn leaving(alloc: Global, testing: &Testing, change: &Change) -> Result<Vec<Text>, NoMemory>
    ensures { IfOk result (λ group. group.items ≡ rules.leaving testing.now change.now) }
{
    match change {
        Change::Removal(items) => group_leaving(alloc, testing, items.as_slice()),
        Change::Source(_) | Change::Group(_) => Ok(Vec::new(alloc)),
    }
}

/// The rows that name none of the sources.
fn rows_without<'a>(
    alloc: Global,
    rows: &[LentRow<'a>],
    group: &[Text],
) -> Result<Vec<LentRow<'a>>, AllocError>
    ensures { IfOk result (λ left. lent left.items ≡ filter (λ r. not (moves.is_row_of group.now r)) (lent rows.now)) }
{
    let mut left = Vec::new(alloc);
    for row in rows {
        if !is_row_of(group, row) {
            left.push(*row)?;
        }
    }
    Ok(left)
}

/// Testing's rows after a change by which this group comes in.
pub(crate) fn rows_after<'a>(
    alloc: Global,
    unstable: Unstable<'_, 'a>,
    testing: &Testing,
    rows: &[LentRow<'a>],
    group: &[Text],
    change: &Change,
) -> Result<Vec<LentRow<'a>>, NoMemory>
    requires sources { AreBySource (unboxed unstable.sources.now) }
    requires order { AreByKey (lent rows.now) }
    ensures { IfOk result (λ new. lent rows.now ≡ testing.now.rows → group.now ≡ rules.coming (unboxed unstable.entry.sources.now) testing.now change.now
        → lent new.items ≡ rules.rows_after (unboxed unstable.entry.sources.now) (lent unstable.entry.rows.now) testing.now change.now) }
{
    let moved = moved_rows(alloc, rows, unstable, group)?;
    let leaving = leaving(alloc, testing, change)?;
    Ok(rows_without(alloc, &moved, &leaving)?)
}
