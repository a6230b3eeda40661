//! Groups: each knot with everything on which it rests, except what earlier groups have.

use crate::flags::{flags_of, is_set, set_places};
use crate::found::{Found, LongGroup};
use crate::knots::{Knot, Visit, Walk, knots_of, most_turns};
use deb_control::{NoMemory, Text};
use std::alloc::Global;
use testing_rules_model::Excuse;

/// The most bytes of a hint. A message has at most 65,536, and the rest of it is under a hundred.
const MOST_BYTES: usize = 65_400;

/// The hint that moves these candidates.
fn hint_line(alloc: Global, candidates: &[&Excuse], numbers: &[usize]) -> Result<String, NoMemory> {
    let mut line = String::new(alloc);
    line.push_str("easy")?;
    for number in numbers {
        if let Some(candidate) = candidates.get(*number) {
            line.push_str(" ")?;
            line.push_str(candidate.source.as_str())?;
            line.push_str("/")?;
            line.push_str(candidate.unstable.text())?;
        }
    }
    Ok(line)
}

/// The name of the first of these candidates.
fn first_name(alloc: Global, candidates: &[&Excuse], numbers: &[usize]) -> Result<Text, NoMemory> {
    if let Some(number) = numbers.first() {
        if let Some(candidate) = candidates.get(*number) {
            return Ok(candidate.source.copy(alloc)?);
        }
    }
    Ok(Text::from_str(alloc, "")?)
}

/// The bytes of a candidate in a hint.
fn bytes_of(candidates: &[&Excuse], number: usize) -> usize {
    match candidates.get(number) {
        Some(candidate) => {
            let name = candidate.source.as_str().len();
            let version = candidate.unstable.text().len();
            name.saturating_add(version).saturating_add(2)
        }
        None => 0,
    }
}

/// The bytes of the hint that moves these candidates.
fn line_bytes(candidates: &[&Excuse], numbers: &[usize]) -> usize {
    let mut bytes = 4usize;
    for number in numbers {
        bytes = bytes.saturating_add(bytes_of(candidates, *number));
    }
    bytes
}

/// Adds a hint that moves these candidates; or, if it would be too long, a group without one.
fn push_hint(
    alloc: Global,
    found: &mut Found,
    candidates: &[&Excuse],
    numbers: &[usize],
) -> Result<(), NoMemory> {
    let bytes = line_bytes(candidates, numbers);
    if bytes > MOST_BYTES {
        let first = first_name(alloc, candidates, numbers)?;
        found.long.push(LongGroup {
            first,
            sources: numbers.len(),
            bytes,
        })?;
    } else {
        let line = hint_line(alloc, candidates, numbers)?;
        found.hints.push(Text::from_string(line))?;
    }
    Ok(())
}

/// Adds hints that move these candidates, one after another, each with as many as it may have.
fn push_in_parts(
    alloc: Global,
    found: &mut Found,
    candidates: &[&Excuse],
    numbers: &[usize],
) -> Result<(), NoMemory> {
    let mut part = Vec::new(alloc);
    let mut bytes = 4usize;
    for number in numbers {
        let more = bytes_of(candidates, *number);
        if bytes.saturating_add(more) > MOST_BYTES {
            part.sort_unstable();
            push_hint(alloc, found, candidates, &part)?;
            part.clear();
            bytes = 4;
        }
        part.push(*number)?;
        bytes = bytes.saturating_add(more);
    }
    if !part.is_empty() {
        part.sort_unstable();
        push_hint(alloc, found, candidates, &part)?;
    }
    Ok(())
}

/// The visited nodes, in that order.
fn nodes_of(alloc: Global, visits: &[Visit]) -> Result<Vec<usize>, NoMemory> {
    let mut nodes = Vec::with_capacity(alloc, visits.len())?;
    for visit in visits {
        nodes.push(visit.node)?;
    }
    Ok(nodes)
}

/// The nodes that aren't in the knot.
fn beside(alloc: Global, nodes: &[usize], knot: &[usize]) -> Result<Vec<usize>, NoMemory> {
    let mut beside = Vec::new(alloc);
    for node in nodes {
        if knot.binary_search(node).is_err() {
            beside.push(*node)?;
        }
    }
    Ok(beside)
}

/// Adds the group of a knot and of those on which it rests. If its hint would be too long, the others get their own
/// hints before it: they rest on nothing in the knot.
fn push_group(
    alloc: Global,
    found: &mut Found,
    candidates: &[&Excuse],
    nodes: Vec<usize>,
    knot: &[usize],
) -> Result<(), NoMemory> {
    if line_bytes(candidates, &nodes) > MOST_BYTES {
        let beside = beside(alloc, &nodes, knot)?;
        push_in_parts(alloc, found, candidates, &beside)?;
        return push_hint(alloc, found, candidates, knot);
    }
    let mut nodes = nodes;
    nodes.sort_unstable();
    push_hint(alloc, found, candidates, &nodes)
}

/// Visits everything that these nodes reach and that wasn't seen.
fn visit_all(
    alloc: Global,
    walk: &mut Walk,
    rests: &[Vec<usize>],
    roots: &[usize],
) -> Result<(), NoMemory> {
    let turns = most_turns(rests);
    for root in roots {
        walk.visit(alloc, rests, turns, *root)?;
    }
    Ok(())
}

/// The group of a knot: everything that it reaches, except what earlier groups have.
fn group_of(
    alloc: Global,
    found: &mut Found,
    candidates: &[&Excuse],
    rests: &[Vec<usize>],
    moved: Vec<bool>,
    knot: &[usize],
) -> Result<Vec<bool>, NoMemory> {
    let mut walk = Walk::new(alloc, moved);
    visit_all(alloc, &mut walk, rests, knot)?;
    let Walk { seen, visits } = walk;
    let nodes = nodes_of(alloc, &visits)?;
    push_group(alloc, found, candidates, nodes, knot)?;
    Ok(seen)
}

/// The flagged nodes and all that they reach.
pub fn reached(
    alloc: Global,
    rests: &[Vec<usize>],
    wanted: &[bool],
) -> Result<Vec<bool>, NoMemory> {
    let roots = set_places(alloc, wanted)?;
    let mut walk = Walk::new(alloc, flags_of(alloc, rests.len(), false)?);
    visit_all(alloc, &mut walk, rests, &roots)?;
    let Walk { seen, visits: _ } = walk;
    Ok(seen)
}

/// The nodes of a knot, by number, if it has some and they are to move.
fn knot_nodes(
    alloc: Global,
    knot: &Knot,
    moving: &[bool],
    reached: &[bool],
) -> Result<Option<Vec<usize>>, NoMemory> {
    match knot.nodes.first() {
        Some(first) if knot.nodes.len() > 1 && is_set(moving, *first) && is_set(reached, *first) =>
            {
                let mut nodes = Vec::with_capacity(alloc, knot.nodes.len())?;
                nodes.extend_from_slice(&knot.nodes)?;
                nodes.sort_unstable();
                Ok(Some(nodes))
            }
        _ => Ok(None),
    }
}

/// Adds the groups of the knots reached from the wanted candidates, or of all if none is wanted. Returns flags of what
/// they move.
pub fn push_groups(
    alloc: Global,
    found: &mut Found,
    candidates: &[&Excuse],
    rests: &[Vec<usize>],
    moving: &[bool],
    wanted: Option<&[bool]>,
) -> Result<Vec<bool>, NoMemory> {
    let reached = match wanted {
        Some(wanted) => reached(alloc, rests, wanted)?,
        None => flags_of(alloc, rests.len(), true)?,
    };
    let mut moved = flags_of(alloc, rests.len(), false)?;
    for knot in &knots_of(alloc, rests)? {
        if let Some(nodes) = knot_nodes(alloc, knot, moving, &reached)? {
            moved = group_of(alloc, found, candidates, rests, moved, &nodes)?;
        }
    }
    Ok(moved)
}
