//! Living candidates that may all move together.

use crate::flags::{copy_flags, flags_of, is_set, is_set_for, set_all, set_places};
use crate::scope::{ArchRows, Scope};
use deb_control::{Clause, NoMemory};
use std::alloc::Global;
use testing_rules_suites::is_watched_on;

/// The most rounds of leaving candidates out.
const ROUNDS: u32 = 64;

/// The candidates that move, the places of the rows that leave with them, both as flags, and which rows work after
/// their move on each architecture.
#[derive(Drop)]
pub struct Agreement {
    pub moving: Vec<bool>,
    pub leaving: Vec<bool>,
    pub after: Vec<Vec<bool>>,
}

/// The candidates to leave out because a row of testing would be lost, and because one of their own would be.
#[derive(Drop)]
struct Objections {
    staying: Vec<usize>,
    coming: Vec<usize>,
}

/// The rows that leave once some candidates have moved: rows of testing taken away by one of them, and the rows that
/// the other candidates bring.
fn leaving_flags(alloc: Global, scope: &Scope, moving: &[bool]) -> Result<Vec<bool>, NoMemory> {
    let mut flags = Vec::with_capacity(alloc, scope.pool.len())?;
    for place in 0..scope.pool.len() {
        let moves = is_set_for(moving, scope.owner(place));
        flags.push(moves == (place < scope.first))?;
    }
    for place in scope.first..scope.pool.len() {
        if scope.is_brought_by(moving, place) {
            leave_rivals(alloc, scope, &mut flags, place)?;
        }
    }
    Ok(flags)
}

/// The rows of testing with the key of this one leave.
fn leave_rivals(
    alloc: Global,
    scope: &Scope,
    flags: &mut Vec<bool>,
    place: usize,
) -> Result<(), NoMemory> {
    if let Some(row) = scope.row(place) {
        for rival in &scope.rivals(alloc, &row)? {
            if *rival < scope.first {
                crate::flags::set(flags, *rival, true);
            }
        }
    }
    Ok(())
}

/// The rows that work once the flagged ones have left and those at the places are lost.
fn flags_after(
    alloc: Global,
    up: &[bool],
    leaving: &[bool],
    lost: &[usize],
) -> Result<Vec<bool>, NoMemory> {
    let mut after = Vec::with_capacity(alloc, up.len())?;
    for (place, up) in up.iter().enumerate() {
        after.push(*up && !is_set(leaving, place))?;
    }
    set_all(&mut after, lost, false);
    Ok(after)
}

/// The later of two candidates in the order of leaving out: an unwanted one, and of two such the last.
fn later(wanted: &[bool], first: Option<usize>, second: usize) -> usize {
    match first {
        Some(first) => {
            let rank = (!is_set(wanted, first), first);
            if rank < (!is_set(wanted, second), second) {
                second
            } else {
                first
            }
        }
        None => second,
    }
}

/// The last candidate that takes one of the rows away.
fn last_taker(
    alloc: Global,
    scope: &Scope,
    agreement: &Agreement,
    wanted: &[bool],
    providers: &[usize],
) -> Result<Option<usize>, NoMemory> {
    let mut last = None;
    for place in providers {
        if *place < scope.first && is_set(&agreement.leaving, *place) {
            for taker in &scope.takers(alloc, &agreement.moving, *place)? {
                last = Some(later(wanted, last, *taker));
            }
        }
    }
    Ok(last)
}

/// One of the rows works.
fn is_any_set(flags: &[bool], places: &[usize]) -> bool {
    for place in places {
        if is_set(flags, *place) {
            return true;
        }
    }
    false
}

/// The candidate to leave out for a clause of a lost row of testing: none if a row still meets it.
fn objection_to(
    alloc: Global,
    scope: &Scope,
    agreement: &Agreement,
    wanted: &[bool],
    arch: u32,
    clause: &Clause,
) -> Result<Option<usize>, NoMemory> {
    let providers = scope.providers(alloc, arch, clause)?;
    match agreement.after.get(arch as usize) {
        Some(after) if !is_any_set(after, &providers) => {
            last_taker(alloc, scope, agreement, wanted, &providers)
        }
        _ => Ok(None),
    }
}

/// The candidate to leave out for a lost row of testing.
fn object_for_row(
    alloc: Global,
    scope: &Scope,
    agreement: &Agreement,
    wanted: &[bool],
    arch: u32,
    place: usize,
) -> Result<Option<usize>, NoMemory> {
    if let Some(row) = scope.row(place) {
        for clause in row.binary.clauses.as_slice() {
            let objection = objection_to(alloc, scope, agreement, wanted, arch, clause)?;
            if objection.is_some() {
                return Ok(objection);
            }
        }
    }
    Ok(None)
}

/// The candidates to leave out for the rows that an architecture loses.
fn object(
    alloc: Global,
    scope: &Scope,
    agreement: &Agreement,
    wanted: &[bool],
    objections: &mut Objections,
    lost: &[Lost],
) -> Result<(), NoMemory> {
    for lost in lost {
        if lost.place >= scope.first {
            if let Some(owner) = scope.owner(lost.place) {
                objections.coming.push(owner)?;
            }
        } else if let Some(number) = object_for_row(
            alloc, scope, agreement, wanted, lost.arch, lost.place,
        )? {
            objections.staying.push(number)?;
        }
    }
    Ok(())
}

/// A watched row lost on an architecture.
#[derive(Clone, Copy)]
struct Lost {
    arch: u32,
    place: usize,
}

/// Adds the rows that are watched, and worked so far or come.
fn push_lost(
    lost: &mut Vec<Lost>,
    scope: &Scope,
    up: &[bool],
    arch: u32,
    places: &[usize],
) -> Result<(), NoMemory> {
    for place in places {
        if let Some(row) = scope.row(*place) {
            if is_watched_on(arch, &row) && is_set(up, *place) {
                lost.push(Lost {
                    arch,
                    place: *place,
                })?;
            }
        }
    }
    Ok(())
}

/// The watched rows lost once some candidates have moved, and what works then.
fn moved(
    alloc: Global,
    scope: &Scope,
    rows: &mut Vec<ArchRows>,
    moving: Vec<bool>,
) -> Result<(Agreement, Vec<Lost>), NoMemory> {
    let leaving = leaving_flags(alloc, scope, &moving)?;
    let places = set_places(alloc, &leaving)?;
    let mut after = Vec::new(alloc);
    let mut lost = Vec::new(alloc);
    let mut arch = 0u32;
    for rows in rows.iter_mut() {
        let fallen = rows.lost_without(alloc, &places)?;
        push_lost(&mut lost, scope, &rows.up, arch, &fallen)?;
        after.push(flags_after(alloc, &rows.up, &leaving, &fallen)?)?;
        arch = arch.saturating_add(1);
    }
    let agreement = Agreement {
        moving,
        leaving,
        after,
    };
    Ok((agreement, lost))
}

/// All living candidates move, and every row that comes or stays works on that works while all rows are there.
pub fn all_moving(
    alloc: Global,
    scope: &Scope,
    rows: &[ArchRows],
    living: &[bool],
) -> Result<Agreement, NoMemory> {
    let leaving = leaving_flags(alloc, scope, living)?;
    let mut after = Vec::new(alloc);
    for rows in rows {
        after.push(flags_after(alloc, &rows.up, &leaving, &[])?)?;
    }
    Ok(Agreement {
        moving: copy_flags(alloc, living)?,
        leaving,
        after,
    })
}

/// The candidates to leave out: those whose move loses a row of testing, or if there are none, those whose own rows
/// don't work.
fn left_out(
    alloc: Global,
    scope: &Scope,
    agreement: &Agreement,
    wanted: &[bool],
    lost: &[Lost],
) -> Result<Vec<usize>, NoMemory> {
    let mut objections = Objections {
        staying: Vec::new(alloc),
        coming: Vec::new(alloc),
    };
    object(alloc, scope, agreement, wanted, &mut objections, lost)?;
    let Objections { staying, coming } = objections;
    if staying.is_empty() {
        Ok(coming)
    } else {
        Ok(staying)
    }
}

/// Living candidates that may all move together. If none are found after this many rounds, nobody moves.
pub fn agree(
    alloc: Global,
    scope: &Scope,
    rows: &mut Vec<ArchRows>,
    living: &[bool],
    wanted: &[bool],
) -> Result<Agreement, NoMemory> {
    let mut moving = copy_flags(alloc, living)?;
    for _round in 0..ROUNDS {
        let (agreement, lost) = moved(alloc, scope, rows, copy_flags(alloc, &moving)?)?;
        let out = left_out(alloc, scope, &agreement, wanted, &lost)?;
        if out.is_empty() {
            return Ok(agreement);
        }
        set_all(&mut moving, &out, false);
    }
    let nobody = flags_of(alloc, living.len(), false)?;
    let (agreement, _) = moved(alloc, scope, rows, nobody)?;
    Ok(agreement)
}
