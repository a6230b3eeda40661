//! Borrowed rows, in the order of testing: a change moves places and copies no row.

ghost use Rattle.std.specs.Prelude.{◌≡◌, ◌<◌, not, filter, OnOk, IfOk};
ghost use Rattle.testing_rules_model.specs.Boxed.{unboxed};
ghost use Rattle.testing_rules_suites.specs.steps.AfterMoves.{with_rows, moved_rows, rows_without};
ghost use Rattle.testing_rules_model.specs.FactOrder.{AreBySource};
ghost use Rattle.testing_rules_model.specs.InOrder.{AreByKey};
ghost use Rattle.testing_rules_model.specs.JudgedRows.{lent};
ghost use Rattle.testing_rules_model.specs.Moves as rules;
ghost use Rattle.testing_rules_model.specs.Unstable as unstable_words;

use crate::is_row_of;
use deb_control::Text;
use deb_version::NoMemory;
use std::alloc::Global;
use std::slice;
use testing_rules_facts::{Unstable, is_current, source_in};
use testing_rules_model::{LentRow, UploadIn};
use testing_rules_suites::put_row;

/// Puts in the current rows of a source, each at its key.
fn put_current<'a>(
    rows: &mut Vec<LentRow<'a>>,
    built: &[LentRow<'a>],
    upload: &UploadIn,
) -> Result<(), NoMemory>
    requires { AreByKey (lent rows.old.items) }
    ensures ok { OnOk result (lent rows.new.items ≡ with_rows (filter (unstable_words.is_current upload.now) (lent built.now)) (lent rows.old.items)) }
    ensures ordered { AreByKey (lent rows.new.items) }
{
    for row in built {
        if is_current(upload, row) {
            put_row(rows, row)?;
        }
    }
    Ok(())
}

/// The rows that name no source of the group.
fn other_rows<'a>(
    alloc: Global,
    rows: &[LentRow<'a>],
    group: &[Text],
) -> Result<Vec<LentRow<'a>>, NoMemory>
    ensures { IfOk result (λ kept. lent kept.items ≡ filter (λ r. not (rules.is_row_of group.now r)) (lent rows.now)) }
{
    let mut kept = Vec::new(alloc);
    for row in rows {
        if !is_row_of(group, row) {
            kept.push(*row)?;
        }
    }
    Ok(kept)
}

/// Testing's rows after a group has moved: the rows of its sources leave, and their current ones come.
pub fn moved_rows<'a>(
    alloc: Global,
    rows: &[LentRow<'a>],
    unstable: Unstable<'_, 'a>,
    group: &[Text],
) -> Result<Vec<LentRow<'a>>, NoMemory>
    requires sources { AreBySource (unboxed unstable.sources.now) }
    requires order { AreByKey (lent rows.now) }
    ensures rows { IfOk result (λ new. lent new.items ≡ moved_rows (unboxed unstable.entry.sources.now) (lent unstable.entry.rows.now) group.now (lent rows.now)) }
    ensures ordered { IfOk result (λ new. AreByKey (lent new.items)) }
{
    let mut moved = other_rows(alloc, rows, group)?;
    for name in group {
        if let Some(upload) = source_in(unstable.sources, name.as_str()) {
            put_current(&mut moved, unstable.rows, upload)?;
        }
    }
    Ok(moved)
}

/// The rows of other sources.
pub fn rows_without<'a>(
    alloc: Global,
    rows: &[LentRow<'a>],
    name: &Text,
) -> Result<Vec<LentRow<'a>>, NoMemory>
    ensures { IfOk result (λ kept. lent kept.items ≡ rows_without name.now (lent rows.now)) }
{
    other_rows(alloc, rows, slice::from_ref(name))
}
