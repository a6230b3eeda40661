//! How the rows of facts changed: those that came and those that left, without those that did both.

ghost use Rattle.std.specs.Prelude.{◌≡◌, ◌<◌, ◌⊎◌, [], length, IfOk, OnOk};
ghost use Rattle.std.specs.List.Sorted.{IsSorted};
ghost use Rattle.testing_rules_model.specs.FactDifference.{IsDifference};
ghost use Rattle.testing_rules_model.specs.FactRows.{times, row_order};
ghost use Rattle.testing_rules_model.specs.declared.fact_row.FactRow.{FactRow as ARow};
ghost use Rattle.testing_rules_fact_order.specs.steps.Net.{IsTurn};

use deb_version::NoMemory;
use std::alloc::Global;
use std::cmp::Ordering;
use testing_rules_model::{FactChanges, FactRow, FactRows};

/// Which of two lists has the next row, or both.
#[derive(Clone, Copy)]
pub enum Side {
    Came,
    Left,
    Both,
}

/// The order of rows.
fn order_of(row: &FactRow, other: &FactRow) -> Ordering
    ensures { result ≡ row_order row.now other.now }
{
    row.cmp(other)
}

/// Whose turn it is.
fn turn(came: &[FactRow], left: &[FactRow], i: usize, j: usize) -> Side
    requires { (i < length came.now) ⊎ (j < length left.now) }
    ensures { IsTurn came.now left.now i j result }
{
    if i >= came.len() {
        return Side::Left;
    }
    if j >= left.len() {
        return Side::Came;
    }
    match order_of(&came[i], &left[j]) {
        Ordering::Less => Side::Came,
        Ordering::Equal => Side::Both,
        Ordering::Greater => Side::Left,
    }
}

/// The rows that came but didn't leave, and the other way round, from ordered lists.
fn merge(
    came: &[FactRow],
    left: &[FactRow],
    put: &mut Vec<FactRow>,
    gone: &mut Vec<FactRow>,
) -> Result<(), NoMemory>
    requires came { IsSorted row_order came.now }
    requires left { IsSorted row_order left.now }
    requires put { put.old.items ≡ [] }
    requires gone { gone.old.items ≡ [] }
    ensures { OnOk result (IsDifference came.now left.now put.new.items gone.new.items) }
{
    let mut i = 0;
    let mut j = 0;
    'turns: while i < came.len() || j < left.len() {
        match turn(came, left, i, j) {
            Side::Came => {
                put.push(came[i])?;
                i += 1;
            }
            Side::Left => {
                gone.push(left[j])?;
                j += 1;
            }
            Side::Both => {
                i += 1;
                j += 1;
            }
        }
    }
    Ok(())
}

/// The rows in order.
fn sorted(alloc: Global, rows: &[FactRow]) -> Result<Vec<FactRow>, NoMemory>
    ensures sorted { IfOk result (λ sorted. IsSorted row_order sorted.items) }
    ensures same { IfOk result (λ sorted. (r : ARow) → times r sorted.items ≡ times r rows.now) }
{
    let mut sorted = Vec::from_slice(alloc, rows)?;
    sorted.sort_unstable();
    Ok(sorted)
}

/// Rows to put and rows that are gone, in the order of pushing.
#[derive(Drop)]
struct Difference {
    put: Vec<FactRow>,
    gone: Vec<FactRow>,
}

/// The rows that came but didn't leave, and the other way round.
fn net(alloc: Global, came: &[FactRow], left: &[FactRow]) -> Result<Difference, NoMemory>
    ensures { IfOk result (λ c. IsDifference came.now left.now c.put.items c.gone.items) }
{
    let came = sorted(alloc, came)?;
    let left = sorted(alloc, left)?;
    let mut put = Vec::new(alloc);
    let mut gone = Vec::new(alloc);
    merge(&came, &left, &mut put, &mut gone)?;
    Ok(Difference { put, gone })
}

/// Rows that came but didn't leave are put; rows that left but didn't come are gone.
pub fn changes(alloc: Global, came: &[FactRow], left: &[FactRow]) -> Result<FactChanges, NoMemory>
    ensures { IfOk result (λ c. IsDifference came.now left.now c.put c.gone) }
{
    let net = net(alloc, came, left)?;
    Ok(FactChanges {
        put: FactRows::of(net.put),
        gone: FactRows::of(net.gone),
    })
}
