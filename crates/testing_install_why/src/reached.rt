//! The rows that affect one row: those that its clauses reach, through rows that aren't installable.

ghost use Rattle.std.specs.Prelude.{◌≡◌, ℕ, ◌<◌, ◌⊎◌, true, length, IfOk, OnOk, Contains};
ghost use Rattle.std.specs.List.{All};
ghost use Rattle.testing_install.specs.Among.{IsInstallableAmong};
ghost use Rattle.testing_install.specs.Closed.{marked};
ghost use Rattle.testing_install_why.specs.steps.Order.{IsReaching};
ghost use Rattle.testing_install_why.specs.steps.Reaching.{IsGrown, IsUnreached, IsShutAt, IsShutFor};

use crate::order::named_by;
use deb_control::{Binary, Clause};
use deb_version::NoMemory;
use std::alloc::Global;
use testing_install::{Suite, meets};

// For each row, whether it may be reached: it is present and isn't installable.
fn unreached_rows(alloc: Global, suite: &Suite) -> Result<Vec<bool>, NoMemory>
    ensures { IfOk result (λ unreached. IsUnreached suite.now.rows (marked suite.now.there) unreached.items (length suite.now.rows)) }
{
    let mut unreached = Vec::new(alloc);
    for place in 0..suite.len() {
        unreached.push(suite.is_there(place) && !suite.is_installable(place))?;
    }
    Ok(unreached)
}

// Reaches the rows at the places that meet the clause and may still be reached.
fn reach_among(
    suite: &Suite,
    clause: &Clause,
    places: &[usize],
    unreached: &mut [bool],
    reached: &mut Vec<usize>,
) -> Result<(), NoMemory>
    requires unreached { length unreached.old ≡ length suite.now.rows }
    requires places { All (λ k. k < length suite.now.rows) places.now }
    ensures grown { OnOk result (IsGrown unreached.old unreached.new reached.old.items reached.new.items) }
    ensures shut { OnOk result (All (IsShutAt suite.now.rows clause.now unreached.new) places.now) }
{
    for place in places {
        if unreached[*place] && meets(suite.binary(*place), clause) {
            reached.push(*place)?;
            unreached[*place] = false;
        }
    }
    Ok(())
}

// Reaches the rows that meet the clause and may still be reached.
fn reach_by(
    alloc: Global,
    suite: &Suite,
    clause: &Clause,
    unreached: &mut [bool],
    reached: &mut Vec<usize>,
) -> Result<(), NoMemory>
    requires unreached { length unreached.old ≡ length suite.now.rows }
    ensures grown { OnOk result (IsGrown unreached.old unreached.new reached.old.items reached.new.items) }
    ensures shut { OnOk result (IsShutFor suite.now.rows unreached.new clause.now) }
{
    let places = named_by(alloc, suite, clause)?;
    reach_among(suite, clause, &places, unreached, reached)?;
    Ok(())
}

// Reaches the rows that meet a clause of the package and may still be reached.
fn reach_from(
    alloc: Global,
    suite: &Suite,
    binary: &Binary,
    unreached: &mut [bool],
    reached: &mut Vec<usize>,
) -> Result<(), NoMemory>
    requires unreached { length unreached.old ≡ length suite.now.rows }
    ensures grown { OnOk result (IsGrown unreached.old unreached.new reached.old.items reached.new.items) }
    ensures shut { OnOk result (All (IsShutFor suite.now.rows unreached.new) binary.now.clauses) }
{
    for clause in binary.clauses.as_slice() {
        reach_by(alloc, suite, clause, unreached, reached)?;
    }
    Ok(())
}

/// The place, and those of all rows that clauses reach from its row. These are present, aren't installable, and meet a
/// clause of a reached row. The only error is running out of memory.
pub fn reached_from(alloc: Global, suite: &Suite, place: usize) -> Result<Vec<usize>, NoMemory>
    requires { place < length suite.now.rows }
    ensures within { IfOk result (λ reached. All (λ k. k < length suite.now.rows) reached.items) }
    ensures first { IfOk result (λ reached. Contains reached.items place) }
    ensures reaching { IfOk result (λ reached. IsReaching suite.now.rows (marked suite.now.there) reached.items) }
{
    let mut unreached = unreached_rows(alloc, suite)?;
    let mut reached = Vec::new(alloc);
    reached.push(place)?;
    unreached[place] = false;
    let mut next = 0;
    'turns: while next < reached.len() {
        reach_from(
            alloc,
            suite,
            suite.binary(reached[next]),
            &mut unreached,
            &mut reached,
        )?;
        next += 1;
    }
    Ok(reached)
}
