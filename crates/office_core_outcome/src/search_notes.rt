//! Notes on a proposal.

use crate::asked::Asked;
use crate::proposal::{AskedSource, SearchNotes, SourceEnd};
use deb_control::{NoMemory, Text};
use std::alloc::Global;
use testing_rules_groups::{DeadSource, Found};
use testing_rules_model::{Decision, Moved};

/// The groups that the search found, without their hints.
#[derive(Drop)]
pub(crate) struct FoundBeside {
    pub waiting: usize,
    pub dead: Vec<DeadSource>,
    pub long: Vec<testing_rules_groups::LongGroup>,
    pub groups: usize,
}

/// The hints that the search found, and the notes on them.
pub(crate) fn parts_of(found: Found) -> (Vec<Text>, FoundBeside) {
    let Found {
        hints,
        long,
        waiting,
        dead,
    } = found;
    let groups = hints.len();
    let beside = FoundBeside {
        waiting,
        dead,
        long,
        groups,
    };
    (hints, beside)
}

/// How many candidates the decision moves, if it is on a single one, or on a hint whose number is above this one.
fn moved_by(decision: &Decision, number: u32) -> usize {
    match decision {
        Decision::EasyDone { hint, items } if *hint > number => items.as_slice().len(),
        Decision::Accept { .. } => 1,
        _ => 0,
    }
}

/// How many candidates move alone, or by a hint whose number is above this one.
fn count_moved(decisions: &[Decision], number: u32) -> usize {
    let mut count = 0usize;
    for decision in decisions {
        count = count.saturating_add(moved_by(decision, number));
    }
    count
}

/// The source is one of those that moved together.
fn is_among(source: &str, items: &[Moved]) -> bool {
    items.iter().any(|item| item.name.as_str() == source)
}

/// How the decision moves the source, if it does. The numbers of proposed hints are above this one.
fn end_by(decision: &Decision, source: &str, number: u32) -> Option<SourceEnd> {
    match decision {
        Decision::EasyDone { hint, items } if is_among(source, items.as_slice()) => {
            if *hint > number {
                Some(SourceEnd::Grouped)
            } else {
                Some(SourceEnd::Alone)
            }
        }
        Decision::Accept { name, version: _ } if name.as_str() == source => Some(SourceEnd::Alone),
        _ => None,
    }
}

/// How the search ended for a source that the decisions don't move.
fn end_unmoved(is_answered: bool) -> SourceEnd {
    if is_answered {
        SourceEnd::Answered
    } else {
        SourceEnd::Open
    }
}

/// How the decisions move a source, if they do. The numbers of proposed hints are above this one.
fn end_moved(decisions: &[Decision], source: &str, number: u32) -> Option<SourceEnd> {
    for decision in decisions {
        if let Some(end) = end_by(decision, source, number) {
            return Some(end);
        }
    }
    None
}

/// How the search ended for each of the sources, given what is told of them.
fn asked_sources(
    alloc: Global,
    decisions: &[Decision],
    asked: &Asked<'_>,
    answers: &[Option<Text>],
) -> Result<Vec<AskedSource>, NoMemory> {
    let mut ends = Vec::new(alloc);
    for (source, answer) in asked.sources.iter().zip(answers.iter()) {
        let end = match end_moved(decisions, source.as_str(), asked.number) {
            Some(end) => end,
            None => end_unmoved(answer.is_some()),
        };
        let name = source.copy(alloc)?;
        ends.push(AskedSource { name, end })?;
    }
    Ok(ends)
}

/// The notes on n hints, from the decisions of the run with them and from what is told of the sources.
pub(crate) fn notes_on(
    alloc: Global,
    beside: FoundBeside,
    decisions: &[Decision],
    asked: &Asked<'_>,
    answers: &[Option<Text>],
    hints: usize,
) -> Result<SearchNotes, NoMemory> {
    let number = asked.number;
    let asked = asked_sources(alloc, decisions, asked, answers)?;
    let FoundBeside {
        waiting,
        dead,
        long,
        groups,
    } = beside;
    Ok(SearchNotes {
        waiting,
        moved: count_moved(decisions, number),
        dead,
        long,
        refused: groups.saturating_sub(hints),
        asked,
    })
}
