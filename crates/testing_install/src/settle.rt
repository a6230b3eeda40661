//! The greatest closed set of the present rows, computed from marks that contain it.

ghost use Rattle.std.specs.Prelude.{◌≡◌, ℕ, ◌+◌, ◌<◌, Bool, true, false, List, [], ◌∷◌, ◌++◌, length, Option, None, Some, OnOk, slice_set};
ghost use Rattle.std.specs.List.{All, count_by};
ghost use Rattle.std.specs.Option.{option_copied};
ghost use Rattle.testing_install.specs.Closed.{IsMet, marked};
ghost use Rattle.testing_install.specs.steps.Dependents.{IsGraph, places_for};
ghost use Rattle.testing_install.specs.Rows.{shared};
ghost use Rattle.testing_install.specs.steps.Settling.{suspects, IsSized, IsSettling};

use crate::graph::{Graph, is_met};
use crate::marks::Marks;
use crate::satisfies::meets;
use deb_control::{Binary, Clause};
use deb_version::NoMemory;
use smallvec::SmallVec;

/// Rows that lost their mark. They are usually few, and are kept in the value itself.
#[derive(Drop)]
pub struct Falls {
    /// The rows that wait for their turn.
    pub waiting: SmallVec<usize, 4>,
    /// The rows that lost their mark in a look.
    pub fallen: SmallVec<usize, 4>,
}

// The clause needs a look if the lost row met it, or if no lost row is given.
fn is_suspect(lost: Option<&Binary>, clause: &Clause) -> bool
    ensures { result ≡ suspects (option_copied lost.entry) clause.now }
{
    match lost {
        None => true,
        Some(row) => meets(row, clause),
    }
}

// The clause isn't suspect, or is met.
fn is_sure(graph: &Graph, marks: &[bool], clause: &Clause, lost: Option<&Binary>) -> bool
    requires graph { IsGraph (shared graph.now.rows.items) graph.now.providers graph.now.dependents }
    requires marks { length marks.now ≡ length graph.now.rows.items }
    ensures yes { result ≡ true → suspects (option_copied lost.entry) clause.now ≡ true → IsMet (shared graph.now.rows.items) (marked marks.now) clause.now }
    ensures no { result ≡ false → IsMet (shared graph.now.rows.items) (marked marks.now) clause.now → ⊥ }
{
    if !is_suspect(lost, clause) {
        return true;
    }
    is_met(graph, marks, clause)
}

// Each suspect clause of the package is met.
fn is_upheld(graph: &Graph, marks: &[bool], binary: &Binary, lost: Option<&Binary>) -> bool
    requires graph { IsGraph (shared graph.now.rows.items) graph.now.providers graph.now.dependents }
    requires marks { length marks.now ≡ length graph.now.rows.items }
    ensures yes { result ≡ true → All (λ clause. suspects (option_copied lost.entry) clause ≡ true → IsMet (shared graph.now.rows.items) (marked marks.now) clause) binary.now.clauses }
    ensures no { result ≡ false → All (IsMet (shared graph.now.rows.items) (marked marks.now)) binary.now.clauses → ⊥ }
{
    for clause in binary.clauses.as_slice() {
        if !is_sure(graph, marks, clause, lost) {
            return false;
        }
    }
    true
}

// The row at the place loses its mark, and waits for its turn.
fn fall(marks: &mut Marks, falls: &mut Falls, place: usize) -> Result<(), NoMemory>
    requires { place < length marks.old.current }
    ensures kept { marks.new.kept ≡ marks.old.kept }
    ensures marks { OnOk result (marks.new.current ≡ slice_set marks.old.current place false) }
    ensures waiting { OnOk result (falls.new.waiting.items ≡ falls.old.waiting.items ++ place ∷ []) }
    ensures fallen { OnOk result (falls.new.fallen.items ≡ falls.old.fallen.items ++ place ∷ []) }
{
    marks.set(place, false)?;
    falls.waiting.push(place)?;
    falls.fallen.push(place)?;
    Ok(())
}

// Looks at the suspect clauses of the row at the place: it loses its mark if one isn't met.
fn look(
    graph: &Graph,
    marks: &mut Marks,
    falls: &mut Falls,
    place: usize,
    lost: Option<&Binary>,
) -> Result<(), NoMemory>
    requires graph { IsGraph (shared graph.now.rows.items) graph.now.providers graph.now.dependents }
    requires place { place < length graph.now.rows.items }
    requires sized { IsSized (shared graph.now.rows.items) marks.old.current falls.old.waiting.items }
    ensures kept { marks.new.kept ≡ marks.old.kept }
    ensures sized { OnOk result (IsSized (shared graph.now.rows.items) marks.new.current falls.new.waiting.items) }
    ensures measure { OnOk result (length falls.new.waiting.items + count_by (λ b. b) marks.new.current
        ≡ length falls.old.waiting.items + count_by (λ b. b) marks.old.current) }
    ensures step { OnOk result ((there : ℕ → Bool) (first : List Bool) (todo : List ℕ)
        → IsSettling (shared graph.now.rows.items) there first marks.old.current falls.old.waiting.items falls.old.fallen.items (place ∷ todo) (option_copied lost.entry)
        → IsSettling (shared graph.now.rows.items) there first marks.new.current falls.new.waiting.items falls.new.fallen.items todo (option_copied lost.entry)) }
{
    if !marks.current()[place] {
        return Ok(());
    }
    if is_upheld(graph, marks.current(), graph.rows[place].as_ref(), lost) {
        return Ok(());
    }
    fall(marks, falls, place)?;
    Ok(())
}

/// Looks at the suspect clauses of the rows at the places.
pub fn check_clauses(
    graph: &Graph,
    marks: &mut Marks,
    falls: &mut Falls,
    places: &[usize],
    lost: Option<&Binary>,
) -> Result<(), NoMemory>
    requires graph { IsGraph (shared graph.now.rows.items) graph.now.providers graph.now.dependents }
    requires places { All (λ k. k < length graph.now.rows.items) places.now }
    requires sized { IsSized (shared graph.now.rows.items) marks.old.current falls.old.waiting.items }
    ensures kept { marks.new.kept ≡ marks.old.kept }
    ensures sized { OnOk result (IsSized (shared graph.now.rows.items) marks.new.current falls.new.waiting.items) }
    ensures measure { OnOk result (length falls.new.waiting.items + count_by (λ b. b) marks.new.current
        ≡ length falls.old.waiting.items + count_by (λ b. b) marks.old.current) }
    ensures step { OnOk result ((there : ℕ → Bool) (first : List Bool) (more : List ℕ)
        → IsSettling (shared graph.now.rows.items) there first marks.old.current falls.old.waiting.items falls.old.fallen.items (places.now ++ more) (option_copied lost.entry)
        → IsSettling (shared graph.now.rows.items) there first marks.new.current falls.new.waiting.items falls.new.fallen.items more (option_copied lost.entry)) }
{
    for place in places {
        look(graph, marks, falls, *place, lost)?;
    }
    Ok(())
}

// Looks at the suspect clauses of the rows with a clause that has a name of the lost row's.
fn look_at_dependents(
    graph: &Graph,
    marks: &mut Marks,
    falls: &mut Falls,
    lost: &Binary,
) -> Result<(), NoMemory>
    requires graph { IsGraph (shared graph.now.rows.items) graph.now.providers graph.now.dependents }
    requires sized { IsSized (shared graph.now.rows.items) marks.old.current falls.old.waiting.items }
    ensures kept { marks.new.kept ≡ marks.old.kept }
    ensures sized { OnOk result (IsSized (shared graph.now.rows.items) marks.new.current falls.new.waiting.items) }
    ensures measure { OnOk result (length falls.new.waiting.items + count_by (λ b. b) marks.new.current
        ≡ length falls.old.waiting.items + count_by (λ b. b) marks.old.current) }
    ensures step { OnOk result ((there : ℕ → Bool) (first : List Bool)
        → IsSettling (shared graph.now.rows.items) there first marks.old.current falls.old.waiting.items falls.old.fallen.items (places_for graph.now.dependents lost.now) (Some lost.now)
        → IsSettling (shared graph.now.rows.items) there first marks.new.current falls.new.waiting.items falls.new.fallen.items [] (Some lost.now)) }
{
    let named = graph.dependents.places(lost.name.as_str());
    check_clauses(graph, marks, falls, named, Some(lost))?;
    for provision in lost.provides.as_slice() {
        let given = graph.dependents.places(provision.name.as_str());
        check_clauses(graph, marks, falls, given, Some(lost))?;
    }
    Ok(())
}

/// Gives each waiting row its turn, until none waits, and looks at the rows that may have needed it.
pub fn propagate(graph: &Graph, marks: &mut Marks, falls: &mut Falls) -> Result<(), NoMemory>
    requires graph { IsGraph (shared graph.now.rows.items) graph.now.providers graph.now.dependents }
    requires sized { IsSized (shared graph.now.rows.items) marks.old.current falls.old.waiting.items }
    ensures kept { marks.new.kept ≡ marks.old.kept }
    ensures empty { OnOk result (falls.new.waiting.items ≡ []) }
    ensures sized { OnOk result (IsSized (shared graph.now.rows.items) marks.new.current falls.new.waiting.items) }
    ensures step { OnOk result ((there : ℕ → Bool) (first : List Bool)
        → IsSettling (shared graph.now.rows.items) there first marks.old.current falls.old.waiting.items falls.old.fallen.items [] None
        → IsSettling (shared graph.now.rows.items) there first marks.new.current falls.new.waiting.items falls.new.fallen.items [] None) }
{
    while let Some(place) = falls.waiting.pop() {
        let row = graph.rows[place].as_ref();
        look_at_dependents(graph, marks, falls, row)?;
    }
    Ok(())
}
