//! The kept facts as a list of rows, in any order.
ghost use Rattle.std.specs.Prelude.{◌≡◌, ◌++◌, ◌∷◌, [], length, IfOk, OnOk};
ghost use Rattle.std.specs.List.Sorted.{IsBinarySearchResult, IsSearchInRange, IsSorted};
ghost use Rattle.testing_rules_model.specs.FactRows.{row_order};
ghost use Rattle.testing_rules_model.specs.declared.fact_row.FactRow.{FactRow as ARow};
ghost use Rattle.office_store_keeper.specs.FactSet.{facts_after, rows_in, set_of_rows};
ghost use Rattle.office_store_keeper.specs.steps.FactSet.{is_among};
ghost use Rattle.office_store_keeper.specs.steps.MemoryState.{rows_left};

use deb_control::NoMemory;
use std::alloc::Global;
use std::cmp::Ordering;
use testing_rules_items::search_near;
use testing_rules_model::{FactChanges, FactRow, FactRows};

/// These rows in order.
fn sorted(alloc: Global, rows: &[FactRow]) -> Result<Vec<FactRow>, NoMemory>
    ensures order { IfOk result (λ sorted. IsSorted row_order sorted.items) }
    ensures same { IfOk result (λ sorted. (r : ARow) → is_among r sorted.items ≡ is_among r rows.now) }
{
    let mut sorted = Vec::from_slice(alloc, rows)?;
    sorted.sort_unstable();
    Ok(sorted)
}

/// These rows by kind, sender, number and place, each once.
pub fn rows_in_order(alloc: Global, rows: &[FactRow]) -> Result<FactRows, NoMemory>
    ensures { IfOk result (λ given. given ≡ rows_in (set_of_rows rows.now)) }
{
    let mut once = sorted(alloc, rows)?;
    once.dedup();
    Ok(FactRows::of(once))
}

/// How a row compares with another.
fn order_of(row: &FactRow, other: &FactRow) -> Ordering
    ensures { result ≡ row_order row.now other.now }
{
    row.cmp(other)
}

/// The place of a row among those that are gone, or where it belongs. The guessed place is tried first.
fn place_near(gone: &[FactRow], row: &FactRow, guess: usize) -> Result<usize, usize>
    ensures bound { IsSearchInRange result (length gone.now) }
    ensures position { IsBinarySearchResult (λ y. row_order y row.now) gone.now result }
{
    search_near(
        gone,
        guess,
        |other: &FactRow| -> Ordering
            ensures { result ≡ row_order other.now row.entry.now }
        { order_of(other, row) },
    )
}

/// Adds a row to the remaining ones, unless it is gone. Returns the likely place of the next row among those that are
/// gone. The guessed place is tried first.
fn put_if_left(
    left: &mut Vec<FactRow>,
    gone: &[FactRow],
    row: &FactRow,
    guess: usize,
) -> Result<usize, NoMemory>
    requires { IsSorted row_order gone.now }
    ensures { OnOk result (left.new.items ≡ left.old.items ++ rows_left gone.now (row.now ∷ [])) }
{
    match place_near(gone, row, guess) {
        Ok(place) => Ok(place + 1),
        Err(place) => {
            left.push(*row)?;
            Ok(place)
        }
    }
}

/// Adds the rows that aren't gone to the remaining ones.
fn put_remaining(
    left: &mut Vec<FactRow>,
    rows: &[FactRow],
    gone: &[FactRow],
) -> Result<(), NoMemory>
    requires { IsSorted row_order gone.now }
    ensures { OnOk result (left.new.items ≡ left.old.items ++ rows_left gone.now rows.now) }
{
    if gone.is_empty() {
        left.extend_from_slice(rows)?;
        return Ok(());
    }
    let mut guess = 0;
    'rows: for row in rows {
        guess = put_if_left(left, gone, row, guess)?;
    }
    Ok(())
}

/// The rows without those that are gone, followed by those that are put.
pub fn rows_after(
    alloc: Global,
    rows: &[FactRow],
    changes: &FactChanges,
) -> Result<Vec<FactRow>, NoMemory>
    ensures { IfOk result (λ new. set_of_rows new.items ≡ facts_after changes.now (set_of_rows rows.now)) }
{
    let gone = sorted(alloc, changes.gone.as_slice())?;
    let put = changes.put.as_slice();
    let mut new = Vec::with_capacity(alloc, rows.len().saturating_add(put.len()))?;
    put_remaining(&mut new, rows, &gone)?;
    new.extend_from_slice(put)?;
    Ok(new)
}
