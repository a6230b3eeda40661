//! The search for groups. It works top down: it leaves out the dead, lets all others move together, and only then asks
//! who rests on whom.

use crate::agreement::{Agreement, agree, all_moving};
use crate::candidates::{brought_rows, current_rows, named, number_of, remaining};
use crate::dead::{Living, find_living};
use crate::dependence::rests_of;
use crate::flags::{copy_flags, is_one_more, is_set};
use crate::found::Found;
use crate::groups::{push_groups, reached};
use crate::scope::{ArchRows, Scope, arch_rows};
use crate::testing_after::standing_moves;
use deb_control::{NoMemory, Text};
use std::alloc::Global;
use testing_rules_facts::{Facts, built_rows};
use testing_rules_items::Archs;
use testing_rules_model::{Decision, Excuse, Excuses, LentRow};
use testing_rules_suites::{Testing, lend_rows};

/// The most rounds of a search: a left-out candidate may find a group once others have moved.
const ROUNDS: u32 = 3;

/// The most wanted sources for which it searches once more.
const MORE: usize = 24;

/// The state of a search: the rows of testing, the candidates that haven't moved, the wanted ones of them that the last
/// round left out, whether no round was made yet, and whether another one would find the same.
#[derive(Drop)]
struct Stage<'a> {
    rows: Vec<LentRow<'a>>,
    candidates: Vec<&'a Excuse>,
    missed: Vec<&'a Excuse>,
    is_first: bool,
    is_last: bool,
}

/// What a round looks for: groups for the wanted sources, or all if none is wanted. It leaves these out last, or these
/// and all on which they rest.
#[derive(Clone, Copy)]
struct Aim<'w> {
    wanted: &'w [Text],
    keeps_rests: bool,
}

/// Where a search begins: the facts, the excuses and the testing of a run, and its decisions by today's hints, or none
/// if no such hint moves or removes anything.
#[derive(Clone, Copy)]
pub struct Start<'s> {
    pub archs: &'s Archs,
    pub facts: &'s Facts,
    pub excuses: &'s Excuses,
    pub testing: &'s Testing,
    pub decisions: &'s [Decision],
}

/// The rows of testing once some candidates have moved.
fn rows_after<'a>(
    alloc: Global,
    scope: &Scope,
    moved: &[bool],
    rows: &[LentRow<'a>],
    brought: &[LentRow<'a>],
) -> Result<Vec<LentRow<'a>>, NoMemory> {
    let mut after = Vec::new(alloc);
    for (place, row) in rows.iter().enumerate() {
        if scope.takers(alloc, moved, place)?.is_empty() {
            after.push(*row)?;
        }
    }
    for (number, row) in brought.iter().enumerate() {
        if scope.is_brought_by(moved, scope.first.saturating_add(number)) {
            after.push(*row)?;
        }
    }
    Ok(after)
}

/// The living candidates that haven't moved.
fn left_over<'a>(
    alloc: Global,
    candidates: &[&'a Excuse],
    living: &[bool],
    moved: &[bool],
) -> Result<Vec<&'a Excuse>, NoMemory> {
    let mut left = Vec::new(alloc);
    for (number, candidate) in candidates.iter().enumerate() {
        if is_set(living, number) && !is_set(moved, number) {
            left.push(*candidate)?;
        }
    }
    Ok(left)
}

/// The groups of candidates that agree, with flags of those that moved.
fn groups_of(
    alloc: Global,
    scope: &Scope,
    rows: &[ArchRows],
    agreement: &Agreement,
    wanted: Option<&[bool]>,
    found: &mut Found,
) -> Result<Vec<bool>, NoMemory> {
    let rests = rests_of(alloc, scope, rows, agreement)?;
    push_groups(
        alloc,
        found,
        &scope.candidates,
        &rests,
        &agreement.moving,
        wanted,
    )
}

/// The wanted candidates, by flags, unless all are.
fn wanted_of<'f>(names: &[Text], flags: &'f [bool]) -> Option<&'f [bool]> {
    if names.is_empty() { None } else { Some(flags) }
}

/// The candidates to leave out last, by flags: the wanted ones, or these and all on which they rest where every living
/// one moves.
fn kept_flags(
    alloc: Global,
    scope: &Scope,
    rows: &[ArchRows],
    living: &[bool],
    wanted: &[bool],
    keeps_rests: bool,
) -> Result<Vec<bool>, NoMemory> {
    if !keeps_rests {
        return copy_flags(alloc, wanted);
    }
    let all = all_moving(alloc, scope, rows, living)?;
    let rests = rests_of(alloc, scope, rows, &all)?;
    reached(alloc, &rests, wanted)
}

/// The wanted candidates that live and don't move.
fn missed_of<'a>(
    alloc: Global,
    candidates: &[&'a Excuse],
    wanted: &[bool],
    living: &[bool],
    moving: &[bool],
) -> Result<Vec<&'a Excuse>, NoMemory> {
    let mut missed = Vec::new(alloc);
    for (number, candidate) in candidates.iter().enumerate() {
        if is_set(wanted, number) && is_set(living, number) && !is_set(moving, number) {
            missed.push(*candidate)?;
        }
    }
    Ok(missed)
}

/// One round of a search. Only the first round reports dead candidates: later rounds assume that earlier groups moved.
fn search_once<'a>(
    alloc: Global,
    archs: u32,
    stage: Stage<'a>,
    current: &[LentRow<'a>],
    aim: Aim<'_>,
    found: &mut Found,
) -> Result<Stage<'a>, NoMemory> {
    let Stage {
        rows,
        candidates,
        missed: _,
        is_first,
        is_last: _,
    } = stage;
    let flags = named(alloc, &candidates, aim.wanted)?;
    let brought = brought_rows(alloc, &candidates, current)?;
    let scope = Scope::new(alloc, archs, candidates, &rows, &brought)?;
    let mut suites = arch_rows(alloc, &scope)?;
    let Living {
        flags: living,
        dead,
    } = find_living(alloc, &scope, &mut suites)?;
    let kept = kept_flags(alloc, &scope, &suites, &living, &flags, aim.keeps_rests)?;
    let agreement = agree(alloc, &scope, &mut suites, &living, &kept)?;
    let moved = groups_of(
        alloc,
        &scope,
        &suites,
        &agreement,
        wanted_of(aim.wanted, &flags),
        found,
    )?;
    let moving = &agreement.moving;
    let is_last = !is_one_more(&living, moving) || !is_one_more(&moved, &[]);
    let after = rows_after(alloc, &scope, &moved, &rows, &brought)?;
    let left = left_over(alloc, &scope.candidates, &living, &moved)?;
    let missed = missed_of(alloc, &scope.candidates, &flags, &living, moving)?;
    if is_first {
        found.dead = dead;
    }
    Ok(Stage {
        rows: after,
        candidates: left,
        missed,
        is_first: false,
        is_last,
    })
}

/// The start of a search: after the removals and groups of a run by today's hints.
fn first_stage<'a>(
    alloc: Global,
    excuses: &'a Excuses,
    testing: &'a Testing,
    current: &[LentRow<'a>],
    decisions: &[Decision],
) -> Result<Stage<'a>, NoMemory> {
    let standing = standing_moves(alloc, decisions)?;
    let rows = lend_rows(alloc, testing.rows())?;
    let rows = standing.rows_behind(alloc, &rows, current)?;
    let candidates = remaining(alloc, excuses.as_slice(), &standing)?;
    Ok(Stage {
        rows,
        candidates,
        missed: Vec::new(alloc),
        is_first: true,
        is_last: false,
    })
}

/// One round for a source, behind the groups found so far, which leaves out last all on which that one rests.
fn search_for<'a>(
    alloc: Global,
    archs: u32,
    stage: Stage<'a>,
    current: &[LentRow<'a>],
    source: &Excuse,
    found: &mut Found,
) -> Result<Stage<'a>, NoMemory> {
    if number_of(&stage.candidates, source.source.as_str()).is_none() {
        return Ok(stage);
    }
    let mut wanted = Vec::new(alloc);
    wanted.push(source.source.copy(alloc)?)?;
    let aim = Aim {
        wanted: &wanted,
        keeps_rests: true,
    };
    search_once(alloc, archs, stage, current, aim, found)
}

/// One round more for each wanted source that the last one left out.
fn search_more<'a>(
    alloc: Global,
    archs: u32,
    stage: Stage<'a>,
    current: &[LentRow<'a>],
    found: &mut Found,
) -> Result<(), NoMemory> {
    let mut missed = Vec::new(alloc);
    missed.extend_from_slice(&stage.missed)?;
    let mut stage = stage;
    for source in missed.iter().take(MORE) {
        stage = search_for(alloc, archs, stage, current, source, found)?;
    }
    Ok(())
}

/// Groups of candidates that may move one after another once today's hints are done: those of the knots on which the
/// wanted sources rest, or all if none is wanted. Where candidates can't all move, the wanted ones are left out last; and
/// if one is left out still, the search leaves out last all on which it rests.
pub fn find_groups(alloc: Global, start: Start<'_>, wanted: &[Text]) -> Result<Found, NoMemory> {
    let Start {
        archs,
        facts,
        excuses,
        testing,
        decisions,
    } = start;
    let built = built_rows(alloc, archs, facts.rows())?;
    let current = current_rows(alloc, facts, &built)?;
    let mut stage = first_stage(alloc, excuses, testing, &current, decisions)?;
    let mut found = Found {
        hints: Vec::new(alloc),
        long: Vec::new(alloc),
        waiting: stage.candidates.len(),
        dead: Vec::new(alloc),
    };
    let aim = Aim {
        wanted,
        keeps_rests: false,
    };
    for _round in 0..ROUNDS {
        if !stage.is_last {
            stage = search_once(alloc, archs.len(), stage, &current, aim, &mut found)?;
        }
    }
    search_more(alloc, archs.len(), stage, &current, &mut found)?;
    Ok(found)
}
