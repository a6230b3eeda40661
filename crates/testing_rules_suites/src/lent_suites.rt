//! Suites that get other present rows: those of a testing before a run that changed its suites.

ghost use Rattle.std.specs.Prelude.{◌≡◌, ℕ, ◌<◌, ◌≤◌, ◌-◌, ◌++◌, ◌∷◌, [], true, false, List, filter, length, replicate, Some, OnOk, IfOk, IfSome};
ghost use Rattle.std.specs.List.{All, range_with_len, slice_get};
ghost use Rattle.testing_install.specs.Closed.{marked};
ghost use Rattle.testing_rules_model.specs.InOrder.{AreByKey};
ghost use Rattle.testing_rules_model.specs.JudgedRows.{lent};
ghost use Rattle.testing_rules_model.specs.declared.suite.RowIn.{RowIn as ARow};
ghost use Rattle.testing_rules_suites.specs.Present.{IsShown};
ghost use Rattle.testing_rules_suites.specs.steps.Standing.{AreWanted, is_alone};

use crate::carried_suites::CarriedSuites;
use crate::lent_rows::order_rows;
use crate::{Change, Pool};
use deb_version::NoMemory;
use smallvec::SmallVec;
use std::alloc::Global;
use testing_rules_model::{LentRow, RowIn, is_row};

/// Where a row was found in a pool, if it was, and the place from which to search for the next row.
#[derive(Clone, Copy)]
struct PoolMatch {
    place: Option<usize>,
    next: usize,
}

/// Searches for a row at places of the pool, from one of them on. If the places are in the order of their rows' keys,
/// and later searches are for higher keys, every row of the pool is found.
fn look_for(pool: &Pool, places: &[usize], from: usize, row: &RowIn) -> PoolMatch
    requires { All (λ k. k < length pool.now) places.now }
    ensures { IfSome result.place (λ k. slice_get pool.now k ≡ Some row.now) }
{
    let wanted = row.lend();
    for next in from..places.len() {
        let place = places[next];
        let other = pool.row(place);
        if is_row(&other, row) {
            return PoolMatch {
                place: Some(place),
                next: next + 1,
            };
        }
        if order_rows(&wanted, &other).is_lt() {
            return PoolMatch { place: None, next };
        }
    }
    PoolMatch {
        place: None,
        next: places.len(),
    }
}

/// One more wanted row: its flag is set at its place in the pool, or else it is noted as missing there.
fn want<'a>(
    flags: &mut Vec<bool>,
    lacking: &mut Vec<LentRow<'a>>,
    place: Option<usize>,
    row: &'a RowIn,
) -> Result<(), NoMemory>
    requires { IfSome place (λ k. k < length flags.old.items) }
    ensures { OnOk result ((pool rows : List ARow) → IfSome place (λ k. slice_get pool k ≡ Some row.now) → AreWanted pool rows flags.old.items (lent lacking.old.items)
        → AreWanted pool (rows ++ row.now ∷ []) flags.new.items (lent lacking.new.items)) }
{
    match place {
        Some(place) => {
            flags[place] = true;
            Ok(())
        }
        None => Ok(lacking.push(row.lend())?),
    }
}

/// Sets the flags of a pool's wanted rows, and returns those that the pool hasn't.
fn wanted<'a>(
    alloc: Global,
    pool: &Pool,
    rows: &'a [RowIn],
    flags: &mut Vec<bool>,
) -> Result<Vec<LentRow<'a>>, NoMemory>
    requires { AreWanted pool.now [] flags.old.items [] }
    ensures { IfOk result (λ lacking. AreWanted pool.now rows.now flags.new.items (lent lacking.items)) }
{
    let places = pool.order();
    let mut lacking = Vec::new(alloc);
    let mut next = 0;
    for row in rows {
        let found = look_for(pool, places, next, row);
        next = found.next;
        want(flags, &mut lacking, found.place, row)?;
    }
    Ok(lacking)
}

/// This many flags, none set.
fn no_flags(alloc: Global, count: usize) -> Result<Vec<bool>, NoMemory>
    ensures { IfOk result (λ flags. flags.items ≡ replicate count false) }
{
    let mut flags = Vec::new(alloc);
    flags.resize(count, false)?;
    Ok(flags)
}

/// Adds set flags after the others, up to this many.
fn raise_more(flags: &mut Vec<bool>, count: usize) -> Result<(), NoMemory>
    requires { length flags.old.items ≤ count }
    ensures { OnOk result (flags.new.items ≡ flags.old.items ++ replicate (count - length flags.old.items) true) }
{
    flags.resize(count, true)?;
    Ok(())
}

/// The flag of the first ones is set at the place, and that of the others isn't.
fn is_alone(flags: &[bool], others: &[bool], place: usize) -> bool
    requires first { place < length flags.now }
    requires other { place < length others.now }
    ensures { result ≡ is_alone flags.now others.now place }
{
    flags[place] && !others[place]
}

/// The places whose flag is set in the first list, and not in the second.
fn set_alone(alloc: Global, flags: &[bool], others: &[bool]) -> Result<SmallVec<usize, 4>, NoMemory>
    requires { length flags.now ≡ length others.now }
    ensures { IfOk result (λ places. places.items ≡ filter (is_alone flags.now others.now) (range_with_len 0 (length flags.now))) }
{
    let mut places = SmallVec::new(alloc);
    for place in 0..flags.len() {
        if is_alone(flags, others, place) {
            places.push(place)?;
        }
    }
    Ok(places)
}

/// The suites after exactly the rows with their flags set are present.
fn with_flags(
    alloc: Global,
    suites: CarriedSuites,
    flags: &[bool],
) -> Result<CarriedSuites, NoMemory>
    requires { length flags.now ≡ length suites.rows }
    ensures { IfOk result (λ s. (s.rows ≡ suites.rows) × ((k : ℕ) → marked s.stands k ≡ marked flags.now k)) }
{
    let leaving = set_alone(alloc, suites.stands(), flags)?;
    let coming = set_alone(alloc, flags, suites.stands())?;
    let change = Change { leaving, coming };
    suites.after(alloc, &change)
}

/// Suites with exactly these rows present, from suites with others: apart from a look at each row, the time depends on
/// what differs. The pool keeps its rows; missing ones are added at the end.
pub fn over_rows(
    alloc: Global,
    suites: CarriedSuites,
    rows: &[RowIn],
) -> Result<CarriedSuites, NoMemory>
    requires { AreByKey rows.now }
    ensures { IfOk result (λ s. IsShown s.rows (marked s.stands) rows.now) }
{
    let mut flags = no_flags(alloc, suites.len())?;
    let lacking = wanted(alloc, suites.pool(), rows, &mut flags)?;
    let suites = suites.with_rows(alloc, &lacking)?;
    raise_more(&mut flags, suites.len())?;
    with_flags(alloc, suites, &flags)
}
