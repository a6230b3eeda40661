//! The candidates that haven't moved, and the rows that they bring.

ghost use Rattle.std.specs.Prelude.{◌≡◌};
ghost use Rattle.testing_rules_items.specs.Words.{byte_cmp};

use crate::flags::{flags_of, set};
use crate::testing_after::StandingMoves;
use deb_control::{NoMemory, Text};
use std::alloc::Global;
use std::cmp::Ordering;
use testing_rules_facts::{Facts, is_current, source_in};
use testing_rules_model::{Excuse, LentRow};

/// The candidates that the hints didn't move, by name.
pub fn remaining<'a>(
    alloc: Global,
    excuses: &'a [Excuse],
    standing: &StandingMoves,
) -> Result<Vec<&'a Excuse>, NoMemory> {
    let mut candidates = Vec::new(alloc);
    for excuse in excuses {
        let name = excuse.source.as_str();
        if excuse.reasons.as_slice().is_empty() && !standing.has_moved(name) {
            candidates.push(excuse)?;
        }
    }
    Ok(candidates)
}

/// The number of the candidate with a name: its place.
pub fn number_of(candidates: &[&Excuse], name: &str) -> Option<usize> {
    candidates
        .binary_search_by(
            |candidate: &&Excuse| -> Ordering
                ensures { result ≡ byte_cmp candidate.now.now.source name.entry.now }
            { candidate.source.as_str().cmp(name) },
        )
        .ok()
}

/// The row is a current one of its source.
fn is_up_to_date(facts: &Facts, row: &LentRow) -> bool {
    match source_in(facts.sources(), row.binary.source.as_str()) {
        Some(upload) => is_current(upload, row),
        None => false,
    }
}

/// Unstable's current rows.
pub fn current_rows<'a>(
    alloc: Global,
    facts: &Facts,
    rows: &[LentRow<'a>],
) -> Result<Vec<LentRow<'a>>, NoMemory> {
    let mut current = Vec::new(alloc);
    for row in rows {
        if is_up_to_date(facts, row) {
            current.push(*row)?;
        }
    }
    Ok(current)
}

/// Unstable's current rows that the candidates bring.
pub fn brought_rows<'a>(
    alloc: Global,
    candidates: &[&Excuse],
    current: &[LentRow<'a>],
) -> Result<Vec<LentRow<'a>>, NoMemory> {
    let mut brought = Vec::new(alloc);
    for row in current {
        if number_of(candidates, row.binary.source.as_str()).is_some() {
            brought.push(*row)?;
        }
    }
    Ok(brought)
}

/// The candidates among these names, by flags.
pub fn named(alloc: Global, candidates: &[&Excuse], names: &[Text]) -> Result<Vec<bool>, NoMemory> {
    let mut flags = flags_of(alloc, candidates.len(), false)?;
    for name in names {
        if let Some(number) = number_of(candidates, name.as_str()) {
            set(&mut flags, number, true);
        }
    }
    Ok(flags)
}
