//! The candidates that no group frees. Whatever groups and single moves follow, the rows present once a candidate has
//! moved are among those of testing that don't leave with it and those that living candidates bring. Its own rows leave,
//! and those whose keys its new rows take. The candidate is dead if a row that it brings, or one of testing that stays
//! whatever moves, isn't installable among these; then its rows can't be used by any other.

use crate::flags::{copy_flags, flags_of, is_set, is_set_for, set};
use crate::found::DeadSource;
use crate::scope::{ArchRows, Scope, brought_places};
use deb_control::NoMemory;
use std::alloc::Global;
use testing_rules_model::{Excuse, LentRow};
use testing_rules_suites::is_watched_on;

/// The most rounds of looking for more dead candidates.
const ROUNDS: u32 = 64;

/// A candidate found dead, and the row that isn't installable on an architecture.
#[derive(Clone, Copy)]
struct Fall {
    number: usize,
    arch: u32,
    place: usize,
}

/// Which candidates live, as flags, and the dead ones.
#[derive(Drop)]
pub struct Living {
    pub flags: Vec<bool>,
    pub dead: Vec<DeadSource>,
}

/// A dead candidate, for the result.
fn dead_source(
    alloc: Global,
    candidate: &Excuse,
    arch: u32,
    row: &LentRow,
    rank: u32,
) -> Result<DeadSource, NoMemory> {
    let name = candidate.source.copy(alloc)?;
    let package = row.binary.name.copy(alloc)?;
    Ok(DeadSource {
        name,
        arch,
        package,
        rank,
    })
}

/// Kills a candidate, unless it is already dead.
fn kill(
    alloc: Global,
    scope: &Scope,
    living: &mut Living,
    killed: &mut Vec<usize>,
    fall: Fall,
    rank: u32,
) -> Result<(), NoMemory> {
    if !is_set(&living.flags, fall.number) {
        return Ok(());
    }
    if let Some(candidate) = scope.candidates.get(fall.number) {
        if let Some(row) = scope.row(fall.place) {
            let dead = dead_source(alloc, candidate, fall.arch, &row, rank)?;
            living.dead.push(dead)?;
            killed.push(fall.number)?;
            set(&mut living.flags, fall.number, false);
        }
    }
    Ok(())
}

/// Kills candidates.
fn kill_all(
    alloc: Global,
    scope: &Scope,
    living: &mut Living,
    falls: &[Fall],
    rank: u32,
) -> Result<Vec<usize>, NoMemory> {
    let mut killed = Vec::new(alloc);
    for fall in falls {
        kill(alloc, scope, living, &mut killed, *fall, rank)?;
    }
    Ok(killed)
}

/// The candidate that brings the row, if it is watched.
fn bringer(scope: &Scope, arch: u32, place: usize) -> Option<usize> {
    match scope.row(place) {
        Some(row) if place >= scope.first && is_watched_on(arch, &row) => scope.owner(place),
        _ => None,
    }
}

/// Adds the falls of the candidates that bring one of the lost rows, if it is watched.
fn push_falls(
    falls: &mut Vec<Fall>,
    scope: &Scope,
    arch: u32,
    lost: &[usize],
) -> Result<(), NoMemory> {
    for place in lost {
        if let Some(number) = bringer(scope, arch, *place) {
            falls.push(Fall {
                number,
                arch,
                place: *place,
            })?;
        }
    }
    Ok(())
}

/// The rows of all candidates come. Candidates with a row that doesn't work fall.
fn falls_of_all(
    alloc: Global,
    scope: &Scope,
    rows: &mut Vec<ArchRows>,
) -> Result<Vec<Fall>, NoMemory> {
    let coming = brought_places(alloc, scope)?;
    let mut falls = Vec::new(alloc);
    let mut arch = 0;
    for rows in rows.iter_mut() {
        let lost = rows.add(alloc, &coming)?;
        push_falls(&mut falls, scope, arch, &lost)?;
        arch = next_arch(arch);
    }
    Ok(falls)
}

/// The next architecture.
fn next_arch(arch: u32) -> u32 {
    arch.saturating_add(1)
}

/// The rows of some candidates leave for good. Candidates with a row that stops working fall.
fn falls_without(
    alloc: Global,
    scope: &Scope,
    rows: &mut Vec<ArchRows>,
    killed: &[usize],
) -> Result<Vec<Fall>, NoMemory> {
    let leaving = rows_brought(alloc, scope, killed)?;
    let mut falls = Vec::new(alloc);
    let mut arch = 0;
    for rows in rows.iter_mut() {
        let lost = rows.remove(alloc, &leaving)?;
        push_falls(&mut falls, scope, arch, &lost)?;
        arch = next_arch(arch);
    }
    Ok(falls)
}

/// The places of the rows that these candidates bring.
fn rows_brought(alloc: Global, scope: &Scope, numbers: &[usize]) -> Result<Vec<usize>, NoMemory> {
    let mut flags = flags_of(alloc, scope.candidates.len(), false)?;
    crate::flags::set_all(&mut flags, numbers, true);
    let mut places = Vec::new(alloc);
    for place in scope.first..scope.pool.len() {
        if scope.is_brought_by(&flags, place) {
            places.push(place)?;
        }
    }
    Ok(places)
}

/// A living candidate brings a row with this row's key.
fn is_replaced(
    alloc: Global,
    scope: &Scope,
    living: &[bool],
    row: &LentRow,
) -> Result<bool, NoMemory> {
    for place in &scope.rivals(alloc, row)? {
        if scope.is_brought_by(living, *place) {
            return Ok(true);
        }
    }
    Ok(false)
}

/// A working row of testing stays whatever moves: its source isn't living, and no living candidate brings a row with
/// its key.
fn stays(
    alloc: Global,
    scope: &Scope,
    living: &[bool],
    up: &[bool],
    place: usize,
) -> Result<bool, NoMemory> {
    if !is_set(up, place) || is_set_for(living, scope.owner(place)) {
        return Ok(false);
    }
    match scope.row(place) {
        Some(row) => Ok(!is_replaced(alloc, scope, living, &row)?),
        None => Ok(false),
    }
}

/// A candidate falls by the loss of a watched row: it brings the row, or the row is one of testing's that stays.
fn falls_by(
    alloc: Global,
    scope: &Scope,
    living: &[bool],
    up: &[bool],
    fall: Fall,
) -> Result<bool, NoMemory> {
    match scope.row(fall.place) {
        Some(row) if is_watched_on(fall.arch, &row) => {
            if fall.place >= scope.first {
                Ok(scope.owner(fall.place) == Some(fall.number))
            } else {
                stays(alloc, scope, living, up, fall.place)
            }
        }
        _ => Ok(false),
    }
}

/// The row of an architecture whose loss makes a candidate fall once the rows that its move takes away have left.
fn fall_on(
    alloc: Global,
    scope: &Scope,
    living: &[bool],
    rows: &mut ArchRows,
    arch: u32,
    number: usize,
) -> Result<Option<Fall>, NoMemory> {
    let leaving = scope.leaving_rows(alloc, number)?;
    if leaving.is_empty() {
        return Ok(None);
    }
    let lost = rows.lost_without(alloc, &leaving)?;
    for place in &lost {
        let fall = Fall {
            number,
            arch,
            place: *place,
        };
        if falls_by(alloc, scope, living, &rows.up, fall)? {
            return Ok(Some(fall));
        }
    }
    Ok(None)
}

/// The row whose loss makes a candidate fall once the rows that its move takes away have left.
fn fall_of(
    alloc: Global,
    scope: &Scope,
    living: &[bool],
    rows: &mut Vec<ArchRows>,
    number: usize,
) -> Result<Option<Fall>, NoMemory> {
    let mut arch = 0;
    for rows in rows.iter_mut() {
        let fall = fall_on(alloc, scope, living, rows, arch, number)?;
        if fall.is_some() {
            return Ok(fall);
        }
        arch = next_arch(arch);
    }
    Ok(None)
}

/// The living candidates that fall once the rows that their moves take away have left.
fn falls_by_leaving(
    alloc: Global,
    scope: &Scope,
    living: &[bool],
    rows: &mut Vec<ArchRows>,
) -> Result<Vec<Fall>, NoMemory> {
    let mut falls = Vec::new(alloc);
    for (number, lives) in living.iter().enumerate() {
        if *lives {
            if let Some(fall) = fall_of(alloc, scope, living, rows, number)? {
                falls.push(fall)?;
            }
        }
    }
    Ok(falls)
}

/// Kills the candidates that fall once the rows that their moves take away have left.
fn kill_leaving(
    alloc: Global,
    scope: &Scope,
    rows: &mut Vec<ArchRows>,
    living: &mut Living,
    rank: u32,
) -> Result<Vec<usize>, NoMemory> {
    let before = copy_flags(alloc, &living.flags)?;
    let falls = falls_by_leaving(alloc, scope, &before, rows)?;
    kill_all(alloc, scope, living, &falls, rank)
}

/// The living candidates and the dead ones. Afterwards the rows of testing and those brought by living candidates are
/// present.
pub fn find_living(
    alloc: Global,
    scope: &Scope,
    rows: &mut Vec<ArchRows>,
) -> Result<Living, NoMemory> {
    let mut living = Living {
        flags: flags_of(alloc, scope.candidates.len(), true)?,
        dead: Vec::new(alloc),
    };
    let falls = falls_of_all(alloc, scope, rows)?;
    let mut killed = kill_all(alloc, scope, &mut living, &falls, 1)?;
    for round in 1..ROUNDS {
        if killed.is_empty() {
            killed = kill_leaving(alloc, scope, rows, &mut living, 2 * round)?;
        }
        if killed.is_empty() {
            return Ok(living);
        }
        let falls = falls_without(alloc, scope, rows, &killed)?;
        killed = kill_all(alloc, scope, &mut living, &falls, 2 * round + 1)?;
    }
    Ok(living)
}
