//! Knots: candidates that rest on each other, and the order in which the others are finished.

use crate::flags::{flags_of, is_set, set};
use deb_control::NoMemory;
use std::alloc::Global;

/// A finished node, and the one from which it was reached.
#[derive(Clone, Copy)]
pub struct Visit {
    pub node: usize,
    pub root: usize,
}

/// A node on the way, and the number of the next edge to follow.
#[derive(Clone, Copy)]
struct Stop {
    node: usize,
    edge: usize,
}

/// A walk over the edges: the nodes seen, and those finished, in that order.
#[derive(Drop)]
pub struct Walk {
    pub seen: Vec<bool>,
    pub visits: Vec<Visit>,
}

/// The node at the end of an edge, if there is such an edge.
fn end_of(edges: &[Vec<usize>], stop: Stop) -> Option<usize> {
    match edges.get(stop.node) {
        Some(ends) => ends.get(stop.edge).copied(),
        None => None,
    }
}

/// The number of edges.
fn count_edges(edges: &[Vec<usize>]) -> usize {
    let mut count = 0usize;
    for ends in edges {
        count = count.saturating_add(ends.len());
    }
    count
}

/// The most turns of a walk: one for each node begun, one for each node finished, and one for each edge.
pub fn most_turns(edges: &[Vec<usize>]) -> usize {
    let nodes = edges.len();
    nodes
        .saturating_add(nodes)
        .saturating_add(count_edges(edges))
        .saturating_add(1)
}

impl Walk {
    /// Nothing is seen yet, except for these flags.
    pub fn new(alloc: Global, seen: Vec<bool>) -> Walk {
        Walk {
            seen,
            visits: Vec::new(alloc),
        }
    }

    /// Begins a node, unless it was seen.
    fn begin(&mut self, way: &mut Vec<Stop>, node: usize) -> Result<(), NoMemory> {
        if node < self.seen.len() && !is_set(&self.seen, node) {
            set(&mut self.seen, node, true);
            way.push(Stop { node, edge: 0 })?;
        }
        Ok(())
    }

    /// One step on the way: follows an edge, or finishes the last node.
    fn step(
        &mut self,
        edges: &[Vec<usize>],
        way: &mut Vec<Stop>,
        stop: Stop,
        root: usize,
    ) -> Result<(), NoMemory> {
        match end_of(edges, stop) {
            Some(end) => {
                way.push(Stop {
                    node: stop.node,
                    edge: stop.edge.saturating_add(1),
                })?;
                self.begin(way, end)
            }
            None => Ok(
                self.visits.push(Visit {
                    node: stop.node,
                    root,
                })?,
            ),
        }
    }

    /// Finishes everything that a node reaches, except what was seen before, each after what it reaches.
    pub fn visit(
        &mut self,
        alloc: Global,
        edges: &[Vec<usize>],
        turns: usize,
        root: usize,
    ) -> Result<(), NoMemory> {
        let mut way = Vec::new(alloc);
        self.begin(&mut way, root)?;
        for _turn in 0..turns {
            match way.pop() {
                Some(stop) => self.step(edges, &mut way, stop, root)?,
                None => return Ok(()),
            }
        }
        Ok(())
    }
}

/// The nodes in the order in which a walk from these finishes them, each after what it reaches.
fn finish(alloc: Global, edges: &[Vec<usize>], order: &[usize]) -> Result<Vec<Visit>, NoMemory> {
    let turns = most_turns(edges);
    let mut walk = Walk::new(alloc, flags_of(alloc, edges.len(), false)?);
    for root in order {
        walk.visit(alloc, edges, turns, *root)?;
    }
    let Walk { seen: _, visits } = walk;
    Ok(visits)
}

/// The edges reversed.
fn reversed(alloc: Global, edges: &[Vec<usize>]) -> Result<Vec<Vec<usize>>, NoMemory> {
    let mut back = Vec::with_capacity(alloc, edges.len())?;
    for _node in 0..edges.len() {
        back.push(Vec::new(alloc))?;
    }
    for (node, ends) in edges.iter().enumerate() {
        push_back(&mut back, ends, node)?;
    }
    Ok(back)
}

/// An edge from each of these nodes to another one.
fn push_back(back: &mut Vec<Vec<usize>>, nodes: &[usize], end: usize) -> Result<(), NoMemory> {
    for node in nodes {
        if *node < back.len() {
            back[*node].push(end)?;
        }
    }
    Ok(())
}

/// The first numbers.
fn first_numbers(alloc: Global, count: usize) -> Result<Vec<usize>, NoMemory> {
    let mut numbers = Vec::with_capacity(alloc, count)?;
    for number in 0..count {
        numbers.push(number)?;
    }
    Ok(numbers)
}

/// The nodes in reverse order.
fn nodes_from_last(alloc: Global, visits: &[Visit]) -> Result<Vec<usize>, NoMemory> {
    let mut nodes = Vec::with_capacity(alloc, visits.len())?;
    for visit in visits {
        nodes.push(visit.node)?;
    }
    nodes.reverse();
    Ok(nodes)
}

/// The nodes of a knot.
#[derive(Drop)]
pub struct Knot {
    pub nodes: Vec<usize>,
}

/// Adds a node to the last knot if it has the same root, else to a new one.
fn push_node(
    alloc: Global,
    knots: &mut Vec<Knot>,
    last: Option<usize>,
    visit: Visit,
) -> Result<(), NoMemory> {
    let count = knots.len();
    if last == Some(visit.root) && count > 0 {
        knots[count - 1].nodes.push(visit.node)?;
        return Ok(());
    }
    let mut nodes = Vec::new(alloc);
    nodes.push(visit.node)?;
    knots.push(Knot { nodes })?;
    Ok(())
}

/// The nodes in knots: those of one knot reach each other. A knot comes after those that it reaches.
pub fn knots_of(alloc: Global, edges: &[Vec<usize>]) -> Result<Vec<Knot>, NoMemory> {
    let back = reversed(alloc, edges)?;
    let all = first_numbers(alloc, edges.len())?;
    let first = finish(alloc, &back, &all)?;
    let order = nodes_from_last(alloc, &first)?;
    let mut knots = Vec::new(alloc);
    let mut last = None;
    for visit in &finish(alloc, edges, &order)? {
        push_node(alloc, &mut knots, last, *visit)?;
        last = Some(visit.root);
    }
    Ok(knots)
}
