//! Who rests on whom: a candidate rests on another one whose rows are needed before it may move. If each candidate
//! moves after those on which it rests, or with them, each clause of each present row is met at every moment.

use crate::agreement::Agreement;
use crate::flags::is_set;
use crate::scope::{ArchRows, Scope};
use deb_control::{Clause, NoMemory};
use std::alloc::Global;
use testing_install::{NameIndex, note_row};
use testing_rules_model::LentRow;
use testing_rules_suites::is_row_on;

/// An architecture in a search for rests: which rows of testing work now, and which work after all candidates moved.
#[derive(Clone, Copy)]
struct Moment<'m> {
    agreement: &'m Agreement,
    arch: u32,
    up: &'m [bool],
    after: &'m [bool],
}

/// The rows that meet a clause: in `now` the working rows of testing, in `later` the candidates that bring a row that
/// works after the move.
#[derive(Drop)]
struct Providers {
    now: Vec<usize>,
    later: Vec<usize>,
}

/// A candidate rests on another one.
fn add_rest(rests: &mut Vec<Vec<usize>>, from: usize, to: usize) -> Result<(), NoMemory> {
    if from < rests.len() {
        rests[from].push(to)?;
    }
    Ok(())
}

/// The number is among these.
fn has(numbers: &[usize], number: usize) -> bool {
    for other in numbers {
        if *other == number {
            return true;
        }
    }
    false
}

/// The two lists have a number in common.
fn have_common(numbers: &[usize], others: &[usize]) -> bool {
    for number in numbers {
        if has(others, *number) {
            return true;
        }
    }
    false
}

/// The candidate already rests on one of these, or is one of them.
fn is_settled(rests: &[Vec<usize>], number: usize, others: &[usize]) -> bool {
    match rests.get(number) {
        Some(rests) => has(others, number) || have_common(rests, others),
        None => true,
    }
}

/// The first by name.
fn first_of(numbers: &[usize]) -> Option<usize> {
    let mut first = None;
    for number in numbers {
        first = match first {
            Some(other) if other <= *number => Some(other),
            _ => Some(*number),
        };
    }
    first
}

/// The candidate rests on the first of these, unless it already rests on one of them or is one of them.
fn rest_on_one(
    rests: &mut Vec<Vec<usize>>,
    number: usize,
    others: &[usize],
) -> Result<(), NoMemory> {
    if !is_settled(rests, number, others) {
        if let Some(first) = first_of(others) {
            add_rest(rests, number, first)?;
        }
    }
    Ok(())
}

/// The rows that meet a clause.
fn providers_of(
    alloc: Global,
    scope: &Scope,
    moment: Moment,
    clause: &Clause,
) -> Result<Providers, NoMemory> {
    let mut now = Vec::new(alloc);
    let mut later = Vec::new(alloc);
    for place in &scope.providers(alloc, moment.arch, clause)? {
        if *place < scope.first {
            if is_set(moment.up, *place) {
                now.push(*place)?;
            }
        } else if is_set(moment.after, *place) {
            if let Some(owner) = scope.owner(*place) {
                later.push(owner)?;
            }
        }
    }
    Ok(Providers { now, later })
}

/// One of these is a row of testing that works now and after all candidates moved.
fn is_any_lasting(moment: Moment, places: &[usize]) -> bool {
    for place in places {
        if is_set(moment.after, *place) {
            return true;
        }
    }
    false
}

/// Each candidate that takes the row away brings one that meets the clause.
fn is_handed_on_at(
    alloc: Global,
    scope: &Scope,
    moment: Moment,
    place: usize,
    later: &[usize],
) -> Result<bool, NoMemory> {
    for taker in &scope.takers(alloc, &moment.agreement.moving, place)? {
        if !has(later, *taker) {
            return Ok(false);
        }
    }
    Ok(true)
}

/// The clause is handed on: each candidate that takes away a row meeting it now brings one that does.
fn is_handed_on(
    alloc: Global,
    scope: &Scope,
    moment: Moment,
    providers: &Providers,
) -> Result<bool, NoMemory> {
    for place in &providers.now {
        if is_handed_on_at(alloc, scope, moment, *place, &providers.later)? {
            return Ok(true);
        }
    }
    Ok(false)
}

/// The clause is met at each moment, whoever moves first.
fn is_always_met(
    alloc: Global,
    scope: &Scope,
    moment: Moment,
    providers: &Providers,
) -> Result<bool, NoMemory> {
    if is_any_lasting(moment, &providers.now) {
        return Ok(true);
    }
    is_handed_on(alloc, scope, moment, providers)
}

/// A candidate rests, for a row that it brings, on candidates that meet the row's clauses.
fn rest_row(
    alloc: Global,
    scope: &Scope,
    moment: Moment,
    rests: &mut Vec<Vec<usize>>,
    row: &LentRow,
    number: usize,
) -> Result<(), NoMemory> {
    for clause in row.binary.clauses.as_slice() {
        let providers = providers_of(alloc, scope, moment, clause)?;
        if !is_always_met(alloc, scope, moment, &providers)? {
            rest_on_one(rests, number, &providers.later)?;
        }
    }
    Ok(())
}

/// The candidates rest on others for their own rows.
fn rest_coming(
    alloc: Global,
    scope: &Scope,
    moment: Moment,
    rests: &mut Vec<Vec<usize>>,
) -> Result<(), NoMemory> {
    for place in scope.first..scope.pool.len() {
        let row = scope.pool.row(place);
        if is_row_on(moment.arch, &row) && scope.is_brought_by(&moment.agreement.moving, place) {
            if let Some(number) = scope.owner(place) {
                rest_row(alloc, scope, moment, rests, &row, number)?;
            }
        }
    }
    Ok(())
}

/// A candidate that takes away one of the rows meeting a clause of a row of testing rests on one that brings another;
/// without such, on the one with which the row itself leaves.
fn rest_takers(
    alloc: Global,
    scope: &Scope,
    moment: Moment,
    rests: &mut Vec<Vec<usize>>,
    providers: &Providers,
    leaver: Option<usize>,
) -> Result<(), NoMemory> {
    for place in &providers.now {
        for taker in &scope.takers(alloc, &moment.agreement.moving, *place)? {
            if providers.later.is_empty() {
                if let Some(leaver) = leaver {
                    rest_on_one(rests, *taker, &[leaver])?;
                }
            } else {
                rest_on_one(rests, *taker, &providers.later)?;
            }
        }
    }
    Ok(())
}

/// One of the places has a row that meets the clause now and stays.
fn is_any_staying(moment: Moment, places: &[usize]) -> bool {
    for place in places {
        if !is_set(&moment.agreement.leaving, *place) {
            return true;
        }
    }
    false
}

/// A clause of a row of testing whose providers all leave: the candidates that take them away rest on others.
fn rest_for_clause(
    alloc: Global,
    scope: &Scope,
    moment: Moment,
    rests: &mut Vec<Vec<usize>>,
    clause: &Clause,
    place: usize,
) -> Result<(), NoMemory> {
    let providers = providers_of(alloc, scope, moment, clause)?;
    if is_any_staying(moment, &providers.now) || is_handed_on(alloc, scope, moment, &providers)? {
        return Ok(());
    }
    let leavers = scope.takers(alloc, &moment.agreement.moving, place)?;
    rest_takers(
        alloc,
        scope,
        moment,
        rests,
        &providers,
        leavers.first().copied(),
    )
}

/// The clause names a package that a leaving row provides.
fn is_touched(leaving: &NameIndex, clause: &Clause) -> bool {
    for alternative in clause.as_slice() {
        if !leaving.places(alternative.name.as_str()).is_empty() {
            return true;
        }
    }
    false
}

/// A working row of testing: candidates that take away what meets its clauses rest on others.
fn rest_for_row(
    alloc: Global,
    scope: &Scope,
    moment: Moment,
    rests: &mut Vec<Vec<usize>>,
    leaving: &NameIndex,
    place: usize,
) -> Result<(), NoMemory> {
    if let Some(row) = scope.row(place) {
        if is_row_on(moment.arch, &row) {
            for clause in row.binary.clauses.as_slice() {
                if is_touched(leaving, clause) {
                    rest_for_clause(alloc, scope, moment, rests, clause, place)?;
                }
            }
        }
    }
    Ok(())
}

/// The candidates rest on others for the present rows of testing.
fn rest_standing(
    alloc: Global,
    scope: &Scope,
    moment: Moment,
    rests: &mut Vec<Vec<usize>>,
    leaving: &NameIndex,
) -> Result<(), NoMemory> {
    for place in 0..scope.first {
        if is_set(moment.up, place) {
            rest_for_row(alloc, scope, moment, rests, leaving, place)?;
        }
    }
    Ok(())
}

/// The names that leaving rows of testing provide.
fn leaving_names(
    alloc: Global,
    scope: &Scope,
    agreement: &Agreement,
) -> Result<NameIndex, NoMemory> {
    let mut names = NameIndex::new(alloc);
    for place in 0..scope.first {
        if is_set(&agreement.leaving, place) {
            if let Some(row) = scope.row(place) {
                note_row(alloc, &mut names, row.binary, place)?;
            }
        }
    }
    Ok(names)
}

/// Nobody rests on another one.
fn no_rests(alloc: Global, count: usize) -> Result<Vec<Vec<usize>>, NoMemory> {
    let mut rests = Vec::with_capacity(alloc, count)?;
    for _number in 0..count {
        rests.push(Vec::new(alloc))?;
    }
    Ok(rests)
}

/// For each candidate, those on which it rests.
pub fn rests_of(
    alloc: Global,
    scope: &Scope,
    rows: &[ArchRows],
    agreement: &Agreement,
) -> Result<Vec<Vec<usize>>, NoMemory> {
    let leaving = leaving_names(alloc, scope, agreement)?;
    let mut rests = no_rests(alloc, scope.candidates.len())?;
    let mut arch = 0u32;
    for (rows, after) in rows.iter().zip(agreement.after.iter()) {
        let moment = Moment {
            agreement,
            arch,
            up: &rows.up,
            after,
        };
        rest_coming(alloc, scope, moment, &mut rests)?;
        rest_standing(alloc, scope, moment, &mut rests, &leaving)?;
        arch = arch.saturating_add(1);
    }
    Ok(rests)
}
