//! Testing after the removals and the groups of a run by today's hints.

use crate::scope::is_same_key;
use deb_control::NoMemory;
use std::alloc::Global;
use std::collections::HashSet;
use testing_install::{NameIndex, hash_of, note_row};
use testing_rules_facts::set_of;
use testing_rules_model::{Decision, LentRow, Moved};

/// The sources that a run's hints removed or moved, and those that they moved, by the hashes of their names.
#[derive(Drop)]
pub struct StandingMoves {
    left: HashSet<u64>,
    moved: HashSet<u64>,
}

/// The hashes of the names of sources that moved together.
fn push_hashes(hashes: &mut Vec<u64>, items: &[Moved]) -> Result<(), NoMemory> {
    for item in items {
        hashes.push(hash_of(item.name.as_str()))?;
    }
    Ok(())
}

/// The sources that a decision by a hint removed or moved, and those that it moved.
fn push_decision(
    left: &mut Vec<u64>,
    moved: &mut Vec<u64>,
    decision: &Decision,
) -> Result<(), NoMemory> {
    match decision {
        Decision::RemoveDone { name, .. } => Ok(left.push(hash_of(name.as_str()))?),
        Decision::EasyDone { items, .. } => {
            push_hashes(left, items.as_slice())?;
            push_hashes(moved, items.as_slice())
        }
        _ => Ok(()),
    }
}

/// The sources that a run's hints removed or moved.
pub fn standing_moves(alloc: Global, decisions: &[Decision]) -> Result<StandingMoves, NoMemory> {
    let mut left = Vec::new(alloc);
    let mut moved = Vec::new(alloc);
    for decision in decisions {
        push_decision(&mut left, &mut moved, decision)?;
    }
    Ok(StandingMoves {
        left: set_of(alloc, &left)?,
        moved: set_of(alloc, &moved)?,
    })
}

impl StandingMoves {
    /// The hints moved the source of this name.
    pub fn has_moved(&self, name: &str) -> bool {
        self.moved.contains(&hash_of(name))
    }

    /// The current rows of the sources that the hints moved.
    fn arrivals<'a>(
        &self,
        alloc: Global,
        current: &[LentRow<'a>],
    ) -> Result<Vec<LentRow<'a>>, NoMemory> {
        let mut arrivals = Vec::new(alloc);
        for row in current {
            if self.moved.contains(&row.binary.source_hash()) {
                arrivals.push(*row)?;
            }
        }
        Ok(arrivals)
    }

    /// The rows of testing after the removals and groups, with these current rows of unstable.
    pub fn rows_behind<'a>(
        &self,
        alloc: Global,
        rows: &[LentRow<'a>],
        current: &[LentRow<'a>],
    ) -> Result<Vec<LentRow<'a>>, NoMemory> {
        let arrivals = self.arrivals(alloc, current)?;
        let names = names_of(alloc, &arrivals)?;
        let mut behind = Vec::with_capacity(alloc, rows.len())?;
        for row in rows {
            let has_left = self.left.contains(&row.binary.source_hash());
            if !has_left && !is_replaced(&names, &arrivals, row) {
                behind.push(*row)?;
            }
        }
        behind.extend_from_slice(&arrivals)?;
        Ok(behind)
    }
}

/// The places of rows by the names that they provide.
fn names_of(alloc: Global, rows: &[LentRow]) -> Result<NameIndex, NoMemory> {
    let mut names = NameIndex::new(alloc);
    for (place, row) in rows.iter().enumerate() {
        note_row(alloc, &mut names, row.binary, place)?;
    }
    Ok(names)
}

/// One of the rows, found by their names, has this row's key.
fn is_replaced(names: &NameIndex, rows: &[LentRow], row: &LentRow) -> bool {
    for place in names.places(row.binary.name.as_str()) {
        if let Some(other) = rows.get(*place) {
            if is_same_key(other, row) {
                return true;
            }
        }
    }
    false
}
