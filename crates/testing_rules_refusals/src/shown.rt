//! The proof that an offender's row isn't installable, found without judging the other rows.

ghost use Rattle.std.specs.Prelude.{◌≡◌, true, false, length, IfOk, IfSome};
ghost use Rattle.std.specs.Str.{bytes_eq};
ghost use Rattle.testing_install.specs.Rows.{binaries};
ghost use Rattle.testing_rules_model.specs.JudgedRows.{lent, row_of};
ghost use Rattle.testing_rules_refusals.specs.Needs.{packages};
ghost use Rattle.testing_rules_refusals.specs.steps.Shown.{AreOnlyAt, IsOf, IsOnlyOf, IsShownOf};
ghost use Rattle.testing_install_why.specs.Certificate.{IsShownBy, everywhere};

use crate::judged::suite_of;
use crate::reach::{reached_from, rows_at, steps_among};
use crate::refusal::Refusal;
use deb_version::NoMemory;
use std::alloc::{AllocError, Global};
use testing_install::Row;
use testing_install_why::{Step, certificate, is_shown};
use testing_rules_live::rows_on;
use testing_rules_model::{LentRow, Offender};

/// The row has the name.
fn is_of_name(row: &LentRow, name: &str) -> bool
    ensures { result ≡ bytes_eq (row_of row.now).binary.name name.now }
{
    row.binary.name.as_str() == name
}

/// The first place of a row with the name.
fn place_of(rows: &[LentRow], name: &str) -> Option<usize>
    ensures { IfSome result (λ place. IsOf (lent rows.now) name.now place) }
{
    for place in 0..rows.len() {
        if is_of_name(&rows[place], name) {
            return Some(place);
        }
    }
    None
}

/// The row is at another place than this one, and has the name.
fn is_another(row: &LentRow, name: &str, place: usize, only: usize) -> bool
    ensures { result ≡ false → (row_of row.now).binary.name ≡ name.now → place ≡ only }
{
    if place == only {
        return false;
    }
    is_of_name(row, name)
}

/// No row at another place has the name.
fn is_only(rows: &[LentRow], name: &str, only: usize) -> bool
    ensures { result ≡ true → AreOnlyAt (lent rows.now) name.now only (length rows.now) }
{
    for place in 0..rows.len() {
        if is_another(&rows[place], name, place, only) {
            return false;
        }
    }
    true
}

/// The place of the only row with the name. There is none if no row or several rows have it.
fn only_place(rows: &[LentRow], name: &str) -> Option<usize>
    ensures { IfSome result (λ place. IsOnlyOf (lent rows.now) name.now place) }
{
    let Some(place) = place_of(rows, name) else {
        return None;
    };
    if !is_only(rows, name, place) {
        return None;
    }
    Some(place)
}

/// The packages of the rows.
fn packages_of<'a>(alloc: Global, rows: &[LentRow<'a>]) -> Result<Vec<Row<'a>>, AllocError>
    ensures { IfOk result (λ list. binaries list.items ≡ packages (lent rows.now)) }
{
    let mut list = Vec::new(alloc);
    for row in rows {
        list.push(Row { binary: row.binary })?;
    }
    Ok(list)
}

/// Steps that may show that the row at the place isn't installable, over the rows that clauses reach from it, with all
/// of these present. The rows keep their order, so the steps are those that a suite of all rows would give.
fn steps_to(
    alloc: Global,
    rows: &[LentRow],
    list: &[Row<'_>],
    place: usize,
) -> Result<Vec<Step>, NoMemory> {
    let mut places = reached_from(alloc, list, place)?;
    places.sort()?;
    let Ok(own) = places.binary_search(&place) else {
        return Ok(Vec::new(alloc));
    };
    let there = rows_at(alloc, rows, &places)?;
    let suite = suite_of(alloc, &there)?;
    match certificate(alloc, &suite, own)? {
        Some(steps) => steps_among(alloc, &steps, &places),
        None => Ok(Vec::new(alloc)),
    }
}

/// The steps that show that the row at the place isn't installable among these present rows, if they are found.
pub(crate) fn steps_for(
    alloc: Global,
    rows: &[LentRow],
    place: usize,
) -> Result<Option<Vec<Step>>, NoMemory>
    ensures { IfOk result (λ found. IfSome found (λ steps. IsShownBy (packages (lent rows.now)) everywhere place steps.items)) }
{
    let list = packages_of(alloc, rows)?;
    let steps = steps_to(alloc, rows, &list, place)?;
    if !is_shown(alloc, &list, &steps, place)? {
        return Ok(None);
    }
    Ok(Some(steps))
}

/// The proof that an offender's row isn't installable after a change, if no other row on its architecture has its name
/// and if steps are found. It costs a few passes over the rows there and the steps, a look at each step that has a name
/// of a row, and the cost of the rows that clauses reach from it. The only error is running out of memory.
pub fn shown_of<'a>(
    alloc: Global,
    new: &[LentRow<'a>],
    offender: Offender,
) -> Result<Option<Refusal<'a>>, NoMemory>
    ensures { IfOk result (λ found. IfSome found (λ r. IsShownOf (lent new.now) offender r.offender (lent r.rows.items) r.steps.items)) }
{
    let rows = rows_on(alloc, offender.arch, new)?;
    let Some(place) = only_place(&rows, offender.package.as_str()) else {
        return Ok(None);
    };
    let Some(steps) = steps_for(alloc, &rows, place)? else {
        return Ok(None);
    };
    Ok(Some(Refusal {
        offender,
        rows,
        steps,
    }))
}
