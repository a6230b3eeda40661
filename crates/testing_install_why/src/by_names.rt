//! Whether steps show that a row isn't installable among rows that are all present. The check reads only rows and
//! steps, whatever their origin. Steps are noted by the names in their clauses, so a row is compared only with steps
//! whose clause has a name that it provides.

ghost use Rattle.std.specs.Prelude.{◌≡◌, true, length, IfOk, IfSome};
ghost use Rattle.std.specs.List.{All};
ghost use Rattle.deb_control.specs.declared.relation.Provision.{Provision};
ghost use Rattle.testing_install.specs.Index.{places_at};
ghost use Rattle.testing_install.specs.Rows.{binaries};
ghost use Rattle.testing_install_why.specs.Certificate.{IsShownBy, everywhere};
ghost use Rattle.testing_install_why.specs.steps.Checking.{ArePast, IsClauseIndex, IsPast, IsPlaced, IsRowPlaced};
ghost use Rattle.testing_install_why.specs.Order.{IsNamed};

use crate::Step;
use crate::checks::{are_steps, clause_at, ends_at};
use deb_control::Binary;
use deb_version::NoMemory;
use std::alloc::Global;
use testing_install::{NameIndex, Row, meets, note_clause};

// The numbers of the steps at each name that their clauses have, if each step has a clause.
fn noted_clauses(
    alloc: Global,
    rows: &[Row<'_>],
    steps: &[Step],
) -> Result<Option<NameIndex>, NoMemory>
    ensures { IfOk result (λ found. IfSome found (λ noted. IsClauseIndex (binaries rows.now) steps.now noted)) }
{
    let mut noted = NameIndex::new(alloc);
    for number in 0..steps.len() {
        let Some(clause) = clause_at(rows, steps[number]) else {
            return Ok(None);
        };
        note_clause(alloc, &mut noted, clause, number)?;
    }
    Ok(Some(noted))
}

// For each row, the number of the first step that has it. It has no contract; its result is checked where it is used.
fn first_steps(alloc: Global, rows: usize, steps: &[Step]) -> Result<Vec<usize>, NoMemory> {
    let mut firsts = vec![in alloc; steps.len(); rows]?;
    for number in 0..steps.len() {
        let place = steps[number].place;
        if place < firsts.len() && firsts[place] > number {
            firsts[place] = number;
        }
    }
    Ok(firsts)
}

// The step with the number is one of the first, and has the row at the place.
fn is_named_at(steps: &[Step], number: usize, end: usize, place: usize) -> bool
    ensures { result ≡ true → IsNamed steps.now end place }
{
    match steps.get(number) {
        Some(step) => number < end && step.place == place,
        None => false,
    }
}

// One of the first steps has the row at the place, by the number that is noted for it.
fn is_named_by(steps: &[Step], firsts: &[usize], end: usize, place: usize) -> bool
    ensures { result ≡ true → IsNamed steps.now end place }
{
    match firsts.get(place) {
        Some(number) => is_named_at(steps, *number, end, place),
        None => false,
    }
}

// The step has a clause, and one of those before it has the row at the place, if that row meets the clause.
fn is_past_by(
    rows: &[Row<'_>],
    steps: &[Step],
    firsts: &[usize],
    binary: &Binary,
    place: usize,
    number: usize,
) -> bool
    ensures { result ≡ true → IsPast (binaries rows.now) steps.now binary.now place number }
{
    match steps.get(number) {
        Some(step) => match clause_at(rows, *step) {
            Some(clause) => !meets(binary, clause) || is_named_by(steps, firsts, number, place),
            None => false,
        },
        None => false,
    }
}

// This is true of each of the steps with these numbers, for one row.
fn are_past_among(
    rows: &[Row<'_>],
    steps: &[Step],
    firsts: &[usize],
    numbers: &[usize],
    binary: &Binary,
    place: usize,
) -> bool
    ensures { result ≡ true → All (IsPast (binaries rows.now) steps.now binary.now place) numbers.now }
{
    for number in numbers {
        if !is_past_by(rows, steps, firsts, binary, place, *number) {
            return false;
        }
    }
    true
}

// This is true of each of the steps at the names that the row provides.
fn are_past_provided(
    rows: &[Row<'_>],
    steps: &[Step],
    noted: &NameIndex,
    firsts: &[usize],
    binary: &Binary,
    place: usize,
) -> bool
    ensures { result ≡ true → All (λ (p : Provision). All (IsPast (binaries rows.now) steps.now binary.now place) (places_at noted.now p.name)) binary.now.provides }
{
    for provision in binary.provides.as_slice() {
        let numbers = noted.places(provision.name.as_str());
        if !are_past_among(rows, steps, firsts, numbers, binary, place) {
            return false;
        }
    }
    true
}

// This is true of each step, for one row: a clause that the row meets has a name that it provides.
fn are_past_by(
    rows: &[Row<'_>],
    steps: &[Step],
    noted: &NameIndex,
    firsts: &[usize],
    binary: &Binary,
    place: usize,
) -> bool
    requires { IsClauseIndex (binaries rows.now) steps.now noted.now }
    ensures { result ≡ true → ArePast (binaries rows.now) steps.now binary.now place (length steps.now) }
{
    let numbers = noted.places(binary.name.as_str());
    if !are_past_among(rows, steps, firsts, numbers, binary, place) {
        return false;
    }
    are_past_provided(rows, steps, noted, firsts, binary, place)
}

// This is true of each step and the row at the place.
fn is_row_placed_by(
    rows: &[Row<'_>],
    steps: &[Step],
    noted: &NameIndex,
    firsts: &[usize],
    place: usize,
) -> bool
    requires { IsClauseIndex (binaries rows.now) steps.now noted.now }
    ensures { result ≡ true → IsRowPlaced (binaries rows.now) steps.now place }
{
    match rows.get(place) {
        Some(row) => are_past_by(rows, steps, noted, firsts, row.binary, place),
        None => false,
    }
}

// This is true of each row.
fn is_placed_by(rows: &[Row<'_>], steps: &[Step], noted: &NameIndex, firsts: &[usize]) -> bool
    requires { IsClauseIndex (binaries rows.now) steps.now noted.now }
    ensures { result ≡ true → IsPlaced (binaries rows.now) steps.now (length rows.now) }
{
    for place in 0..rows.len() {
        if !is_row_placed_by(rows, steps, noted, firsts, place) {
            return false;
        }
    }
    true
}

/// Whether the steps show that the row at the place isn't installable among these present rows: that row is last, and
/// each row that meets a step's clause is in an earlier step. It costs a pass over the rows and the steps, and a look
/// at each step that has a name of a row. The only error is running out of memory.
pub fn is_shown(
    alloc: Global,
    rows: &[Row<'_>],
    steps: &[Step],
    place: usize,
) -> Result<bool, NoMemory>
    ensures { IfOk result (λ shown. shown ≡ true → IsShownBy (binaries rows.now) everywhere place steps.now) }
{
    if !are_steps(rows, steps) {
        return Ok(false);
    }
    let Some(noted) = noted_clauses(alloc, rows, steps)? else {
        return Ok(false);
    };
    let firsts = first_steps(alloc, rows.len(), steps)?;
    if !is_placed_by(rows, steps, &noted, &firsts) {
        return Ok(false);
    }
    Ok(ends_at(steps, place))
}
