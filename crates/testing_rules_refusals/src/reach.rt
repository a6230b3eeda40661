//! Rows that clauses reach from one of them, and steps by their places among all rows. Nothing here has a contract:
//! results are checked where they are used.

use deb_control::{Binary, Clause};
use deb_version::NoMemory;
use std::alloc::Global;
use std::collections::HashSet;
use testing_install::{NameIndex, Row, meets};
use testing_install_why::Step;
use testing_rules_model::LentRow;

/// Notes the place of a row at each name that it provides.
fn note_row(
    alloc: Global,
    providers: &mut NameIndex,
    binary: &Binary,
    place: usize,
) -> Result<(), NoMemory> {
    providers.note(alloc, binary.name.as_str(), place)?;
    for provision in binary.provides.as_slice() {
        providers.note(alloc, provision.name.as_str(), place)?;
    }
    Ok(())
}

/// The places of the rows at each name that they provide.
fn providers_of(alloc: Global, rows: &[Row<'_>]) -> Result<NameIndex, NoMemory> {
    let mut providers = NameIndex::new(alloc);
    for place in 0..rows.len() {
        note_row(alloc, &mut providers, rows[place].binary, place)?;
    }
    Ok(providers)
}

/// Adds the places that weren't seen before and whose rows meet the clause.
fn reach_among(
    rows: &[Row<'_>],
    clause: &Clause,
    places: &[usize],
    seen: &mut HashSet<usize>,
    reached: &mut Vec<usize>,
) -> Result<(), NoMemory> {
    for place in places {
        if let Some(row) = rows.get(*place) {
            if meets(row.binary, clause) && seen.insert(*place)? {
                reached.push(*place)?;
            }
        }
    }
    Ok(())
}

/// Adds the places of the rows that meet the clause.
fn reach_by(
    rows: &[Row<'_>],
    providers: &NameIndex,
    clause: &Clause,
    seen: &mut HashSet<usize>,
    reached: &mut Vec<usize>,
) -> Result<(), NoMemory> {
    for alternative in clause.as_slice() {
        let places = providers.places(alternative.name.as_str());
        reach_among(rows, clause, places, seen, reached)?;
    }
    Ok(())
}

/// Adds the places of the rows that meet a clause of the package.
fn reach_from(
    rows: &[Row<'_>],
    providers: &NameIndex,
    binary: &Binary,
    seen: &mut HashSet<usize>,
    reached: &mut Vec<usize>,
) -> Result<(), NoMemory> {
    for clause in binary.clauses.as_slice() {
        reach_by(rows, providers, clause, seen, reached)?;
    }
    Ok(())
}

/// The row of a turn: the one at the place reached then.
fn row_at<'a>(rows: &[Row<'a>], reached: &[usize], turn: usize) -> Option<Row<'a>> {
    match reached.get(turn) {
        Some(place) => rows.get(*place).copied(),
        None => None,
    }
}

/// The place, followed by those of all rows that clauses reach from its row.
pub fn reached_from(alloc: Global, rows: &[Row<'_>], place: usize) -> Result<Vec<usize>, NoMemory> {
    let providers = providers_of(alloc, rows)?;
    let mut seen = HashSet::new(alloc);
    let mut reached = Vec::new(alloc);
    seen.insert(place)?;
    reached.push(place)?;
    for turn in 0..rows.len() {
        let Some(row) = row_at(rows, &reached, turn) else {
            return Ok(reached);
        };
        reach_from(rows, &providers, row.binary, &mut seen, &mut reached)?;
    }
    Ok(reached)
}

/// The rows at the places.
pub fn rows_at<'a>(
    alloc: Global,
    rows: &[LentRow<'a>],
    places: &[usize],
) -> Result<Vec<LentRow<'a>>, NoMemory> {
    let mut there = Vec::new(alloc);
    for place in places {
        if let Some(row) = rows.get(*place) {
            there.push(*row)?;
        }
    }
    Ok(there)
}

/// Steps over the rows at the places, as steps over all rows.
pub fn steps_among(alloc: Global, steps: &[Step], places: &[usize]) -> Result<Vec<Step>, NoMemory> {
    let mut among = Vec::new(alloc);
    for step in steps {
        if let Some(place) = places.get(step.place) {
            among.push(Step {
                place: *place,
                need: step.need,
            })?;
        }
    }
    Ok(among)
}
