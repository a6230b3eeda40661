//! The lines whose rows meet a clause. The numbers of the lines are noted by the names that their rows provide, so that
//! only those at the names of a clause's alternatives are checked.

ghost use Rattle.std.specs.Prelude.{◌≡◌, filter, IfOk};
ghost use Rattle.std.specs.List.Sorted.{IsStrictlyIncreasing};
ghost use Rattle.testing_rules_model.specs.JudgedRows.{lent};
ghost use Rattle.testing_rules_model.specs.SameMessages.{SameElements};
ghost use Rattle.testing_rules_refusals.specs.steps.LineNumbers.{IsLineIndex, numbers_named};
ghost use Rattle.testing_rules_refusals.specs.Needs as rules;

use crate::needs::need_at;
use deb_control::Clause;
use deb_version::NoMemory;
use std::alloc::{AllocError, Global};
use testing_install::{NameIndex, meets, note_row};
use testing_install_why::Step;
use testing_rules_model::LentRow;

/// The numbers of the lines at each name that their rows provide.
pub fn noted_lines(alloc: Global, rows: &[LentRow], steps: &[Step]) -> Result<NameIndex, NoMemory>
    ensures { IfOk result (λ noted. IsLineIndex (lent rows.now) steps.now noted) }
{
    let mut noted = NameIndex::new(alloc);
    for before in 0..steps.len() {
        if let Some(need) = need_at(rows, steps, before + 1) {
            note_row(alloc, &mut noted, need.row.binary, before + 1)?;
        }
    }
    Ok(noted)
}

/// The numbers at the names of the clause's alternatives, alternative by alternative.
fn numbers_named(
    alloc: Global,
    noted: &NameIndex,
    clause: &Clause,
) -> Result<Vec<usize>, AllocError>
    ensures { IfOk result (λ numbers. numbers.items ≡ numbers_named noted.now clause.now) }
{
    let mut numbers = Vec::new(alloc);
    for alternative in clause.as_slice() {
        numbers.extend_from_slice(noted.places(alternative.name.as_str()))?;
    }
    Ok(numbers)
}

/// The numbers in ascending order, each once.
fn in_order(numbers: Vec<usize>) -> Vec<usize>
    ensures order { IsStrictlyIncreasing result.items }
    ensures same { SameElements numbers.items result.items }
{
    let mut ordered = numbers;
    ordered.sort_unstable();
    ordered.dedup();
    ordered
}

/// The row of the line with the number meets the clause.
fn is_provider(rows: &[LentRow], steps: &[Step], clause: &Clause, number: usize) -> bool
    ensures { result ≡ rules.is_provider (lent rows.now) steps.now clause.now number }
{
    match need_at(rows, steps, number) {
        Some(need) => meets(need.row.binary, clause),
        None => false,
    }
}

/// Of these numbers, those of lines whose rows meet the clause.
fn providers_among(
    alloc: Global,
    rows: &[LentRow],
    steps: &[Step],
    clause: &Clause,
    numbers: &[usize],
) -> Result<Vec<usize>, AllocError>
    ensures { IfOk result (λ providers. providers.items ≡ filter (rules.is_provider (lent rows.now) steps.now clause.now) numbers.now) }
{
    let mut providers = Vec::new(alloc);
    for number in numbers {
        if is_provider(rows, steps, clause, *number) {
            providers.push(*number)?;
        }
    }
    Ok(providers)
}

/// The numbers of the lines whose rows meet the clause, ascending.
pub fn providers(
    alloc: Global,
    rows: &[LentRow],
    steps: &[Step],
    noted: &NameIndex,
    clause: &Clause,
) -> Result<Vec<usize>, AllocError>
    requires { IsLineIndex (lent rows.now) steps.now noted.now }
    ensures { IfOk result (λ numbers. numbers.items ≡ rules.providers (lent rows.now) steps.now clause.now) }
{
    let named = in_order(numbers_named(alloc, noted, clause)?);
    providers_among(alloc, rows, steps, clause, &named)
}
