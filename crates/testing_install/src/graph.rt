//! Shared rows, by what they provide and by what they need.

ghost use Rattle.std.specs.Prelude.{◌≡◌, ℕ, ◌<◌, true, false, List, [], ◌++◌, length, OnOk, IfOk};
ghost use Rattle.std.specs.List.{All};
ghost use Rattle.deb_control.specs.declared.binary.Binary.{Binary};
ghost use Rattle.testing_install.specs.Closed.{IsMet, marked};
ghost use Rattle.testing_install.specs.steps.Ground.{Misses, IsHit};
ghost use Rattle.testing_install.specs.steps.Dependents.{IsGraph};
ghost use Rattle.testing_install.specs.Rows.{shared};

use crate::dependents::note_needs;
use crate::index::{NameIndex, note_row};
use crate::satisfies::satisfies;
use deb_control::{Alternative, Binary, Clause};
use deb_version::NoMemory;
use std::alloc::Global;
use std::rc::Rc;

/// Rows, and the providers and dependents of each name.
#[derive(Drop)]
pub struct Graph {
    pub rows: Vec<Rc<Binary>>,
    pub providers: NameIndex,
    pub dependents: NameIndex,
}

/// A graph of no rows.
pub fn empty_graph(alloc: Global) -> Graph
    ensures rows { result.rows.items ≡ [] }
    ensures graph { IsGraph [] result.providers result.dependents }
{
    Graph {
        rows: Vec::new(alloc),
        providers: NameIndex::new(alloc),
        dependents: NameIndex::new(alloc),
    }
}

// Notes what the rows from a place on provide and need; those before it are already noted.
fn note_rows(
    alloc: Global,
    rows: &[Rc<Binary>],
    first: usize,
    providers: &mut NameIndex,
    dependents: &mut NameIndex,
) -> Result<(), NoMemory>
    ensures { OnOk result ((old more : List Binary) → shared rows.now ≡ old ++ more → length old ≡ first
        → IsGraph old providers.old dependents.old → IsGraph (shared rows.now) providers.new dependents.new) }
{
    for place in first..rows.len() {
        let row = rows[place].as_ref();
        note_row(alloc, providers, row, place)?;
        note_needs(alloc, dependents, row, place)?;
    }
    Ok(())
}

/// The graph with more rows after its own.
pub fn with_rows(alloc: Global, graph: Graph, rows: Vec<Rc<Binary>>) -> Result<Graph, NoMemory>
    ensures rows { IfOk result (λ g. shared g.rows.items ≡ shared graph.rows.items ++ shared rows.items) }
    ensures graph { IfOk result (λ g. IsGraph (shared graph.rows.items) graph.providers graph.dependents → IsGraph (shared g.rows.items) g.providers g.dependents) }
{
    let Graph {
        rows: mut all,
        mut providers,
        mut dependents,
    } = graph;
    let mut more = rows;
    let first = all.len();
    providers.reserve(more.len())?;
    all.append(&mut more)?;
    note_rows(alloc, &all, first, &mut providers, &mut dependents)?;
    Ok(Graph {
        rows: all,
        providers,
        dependents,
    })
}

// Some marked row among the places satisfies the alternative.
fn is_satisfied(graph: &Graph, marks: &[bool], places: &[usize], alternative: &Alternative) -> bool
    requires marks { length marks.now ≡ length graph.now.rows.items }
    requires places { All (λ k. k < length graph.now.rows.items) places.now }
    ensures yes { result ≡ true → (k : ℕ) × IsHit (shared graph.now.rows.items) (marked marks.now) alternative.now k }
    ensures no { result ≡ false → Misses (shared graph.now.rows.items) (marked marks.now) alternative.now places.now }
{
    for place in places {
        if marks[*place] && satisfies(graph.rows[*place].as_ref(), alternative) {
            return true;
        }
    }
    false
}

/// Some marked row meets the clause.
pub fn is_met(graph: &Graph, marks: &[bool], clause: &Clause) -> bool
    requires graph { IsGraph (shared graph.now.rows.items) graph.now.providers graph.now.dependents }
    requires marks { length marks.now ≡ length graph.now.rows.items }
    ensures yes { result ≡ true → IsMet (shared graph.now.rows.items) (marked marks.now) clause.now }
    ensures no { result ≡ false → IsMet (shared graph.now.rows.items) (marked marks.now) clause.now → ⊥ }
{
    for alternative in clause.as_slice() {
        let named = graph.providers.places(alternative.name.as_str());
        if is_satisfied(graph, marks, named, alternative) {
            return true;
        }
    }
    false
}
