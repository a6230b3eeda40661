//! What a change of testing would break.

ghost use Rattle.std.specs.Prelude.{◌≡◌, IfOk, ◌==◌, map};
ghost use Rattle.testing_rules_model.specs.Moves as moves;
ghost use Rattle.testing_rules_model.specs.Moves.{judged_on};
ghost use Rattle.testing_rules_suites.specs.steps.JudgedRows.{answers};
ghost use Rattle.testing_rules_model.specs.JudgedRows.{lent, row_of};
ghost use Rattle.testing_rules_items.specs.steps.Words.{first_of_two};
ghost use Rattle.testing_install.specs.Rows.{binaries};
ghost use Rattle.std.specs.Option.{option_copied};

use crate::{is_row_of, is_same_key};
use deb_control::Text;
use deb_version::NoMemory;
use std::alloc::{AllocError, Global};
use testing_install::{Row, installable};
use testing_rules_items::Archs;
use testing_rules_model::{LentRow, Offender};
use testing_rules_suites::{RowAnswer, first_of_two, is_row_on, is_watched_on};

/// The row of this architecture and name was installable.
fn was_installable(before: &[RowAnswer], row: &LentRow) -> bool
    ensures { result ≡ moves.was_installable (answers before.now) (row_of row.now) }
{
    for judged in before {
        if judged.is_installable && is_same_key(&judged.row, row) {
            return true;
        }
    }
    false
}

/// The row fails: it isn't installable, and came with the group or was installable before.
pub fn fails_on(arch: u32, group: &[Text], before: &[RowAnswer], judged: RowAnswer) -> bool
    ensures { result ≡ moves.fails_on arch group.now (answers before.now) (record { row = row_of judged.entry.row; is_installable = judged.entry.is_installable }) }
{
    is_watched_on(arch, &judged.row)
        && !judged.is_installable
        && (is_row_of(group, &judged.row) || was_installable(before, &judged.row))
}

/// The first name in byte order of a row that fails.
pub fn first_failing<'a>(
    arch: u32,
    group: &[Text],
    before: &[RowAnswer],
    after: &[RowAnswer<'a>],
) -> Option<&'a str>
    ensures { option_copied result ≡ moves.first_failing arch group.now (answers before.now) (answers after.now) }
{
    let mut first = None;
    for judged in after {
        if fails_on(arch, group, before, *judged) {
            first = Some(first_of_two(first, judged.row.binary.name.as_str()));
        }
    }
    first
}

/// The rows on an architecture.
pub fn rows_on<'a>(
    alloc: Global,
    arch: u32,
    rows: &[LentRow<'a>],
) -> Result<Vec<LentRow<'a>>, AllocError>
    ensures { IfOk result (λ there. lent there.items ≡ moves.rows_on arch (lent rows.now)) }
{
    let mut there = Vec::new(alloc);
    for row in rows {
        if is_row_on(arch, row) {
            there.push(*row)?;
        }
    }
    Ok(there)
}

/// Their packages.
fn packages<'a>(alloc: Global, rows: &[LentRow<'a>]) -> Result<Vec<Row<'a>>, AllocError>
    ensures { IfOk result (λ packages. binaries packages.items ≡ map (λ r. r.binary) (lent rows.now)) }
{
    let mut packages = Vec::new(alloc);
    for row in rows {
        packages.push(Row { binary: row.binary })?;
    }
    Ok(packages)
}

/// Each row with its answer.
pub fn with_answers<'a>(
    alloc: Global,
    rows: &[LentRow<'a>],
    marks: &[bool],
) -> Result<Vec<RowAnswer<'a>>, AllocError>
    ensures { IfOk result (λ judged. answers judged.items ≡ moves.with_answers (lent rows.now) marks.now) }
{
    let mut judged = Vec::new(alloc);
    for k in 0..rows.len().min(marks.len()) {
        judged.push(RowAnswer {
            row: rows[k],
            is_installable: marks[k],
        })?;
    }
    Ok(judged)
}

/// Each row on the architecture, and whether it is installable there.
fn judge<'a>(alloc: Global, arch: u32, rows: &[LentRow<'a>]) -> Result<Vec<RowAnswer<'a>>, NoMemory>
    ensures { IfOk result (λ judged. answers judged.items ≡ judged_on arch (lent rows.now)) }
{
    let there = rows_on(alloc, arch, rows)?;
    let packages = packages(alloc, &there)?;
    let marks = installable(alloc, &packages)?;
    Ok(with_answers(alloc, &there, &marks)?)
}

/// The first row that a change from the old rows to the new ones breaks, for a moving group.
pub fn offender_of(
    alloc: Global,
    archs: &Archs,
    old: &[LentRow],
    new: &[LentRow],
    group: &[Text],
) -> Result<Option<Offender>, NoMemory>
    ensures { IfOk result (λ o. o ≡ moves.offender_of archs.now (lent old.now) (lent new.now) group.now) }
{
    for arch in 0..archs.len() {
        let before = judge(alloc, arch, old)?;
        let after = judge(alloc, arch, new)?;
        if let Some(name) = first_failing(arch, group, &before, &after) {
            let package = Text::from_str(alloc, name)?;
            return Ok(Some(Offender { arch, package }));
        }
    }
    Ok(None)
}
