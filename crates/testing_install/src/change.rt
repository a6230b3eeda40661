//! A change of the present rows.

ghost use Rattle.std.specs.Prelude.{◌≡◌, ℕ, ◌+◌, ◌<◌, Bool, true, false, not, List, [], ◌∷◌, ◌++◌, length, slice_set, OnOk, IfOk, Contains, ◌||◌, ◌↔◌, filter};
ghost use Rattle.std.specs.List.{All, count_by};
ghost use Rattle.testing_install.specs.Among.{IsLost, after_change};
ghost use Rattle.testing_install.specs.Closed.{marked};
ghost use Rattle.testing_install.specs.Index.{places_at};
ghost use Rattle.testing_install.specs.steps.Dependents.{IsGraph, places_for};
ghost use Rattle.testing_install.specs.Rows.{shared};
ghost use Rattle.testing_install.specs.steps.Settling.{IsReviving, IsRevived};
ghost use Rattle.testing_install.specs.steps.Suite.{IsRight, IsChanged};

use crate::graph::Graph;
use crate::index::NameIndex;
use crate::marks::{Marks, set_all};
use crate::settle::{Falls, check_clauses, propagate};
use deb_control::Binary;
use deb_version::NoMemory;
use smallvec::SmallVec;
use std::alloc::Global;

// Marks the row at the place, a fresh one.
fn mark(marks: &mut Marks, fresh: &mut SmallVec<usize, 4>, place: usize) -> Result<(), NoMemory>
    requires { place < length marks.old.current }
    ensures kept { marks.new.kept ≡ marks.old.kept }
    ensures marks { OnOk result (marks.new.current ≡ slice_set marks.old.current place true) }
    ensures fresh { OnOk result (fresh.new.items ≡ fresh.old.items ++ place ∷ []) }
{
    marks.set(place, true)?;
    fresh.push(place)?;
    Ok(())
}

// Marks the row at the place if it is present and has no mark.
fn revive_one(
    there: &[bool],
    marks: &mut Marks,
    fresh: &mut SmallVec<usize, 4>,
    place: usize,
) -> Result<(), NoMemory>
    requires there { length there.now ≡ length marks.old.current }
    requires place { place < length there.now }
    ensures kept { marks.new.kept ≡ marks.old.kept }
    ensures long { OnOk result (length marks.new.current ≡ length there.now) }
    ensures measure { OnOk result (length fresh.new.items + count_by (λ b. b) marks.old.current
        ≡ length fresh.old.items + count_by (λ b. b) marks.new.current) }
    ensures revived { OnOk result (IsRevived (marked there.now) marks.old.current marks.new.current fresh.old.items fresh.new.items (place ∷ []) 1) }
{
    if !there[place] {
        return Ok(());
    }
    if marks.is_marked(place) {
        return Ok(());
    }
    mark(marks, fresh, place)?;
    Ok(())
}

// Marks the present rows at the places that have no mark.
fn revive_among(
    there: &[bool],
    marks: &mut Marks,
    fresh: &mut SmallVec<usize, 4>,
    places: &[usize],
) -> Result<(), NoMemory>
    requires there { length there.now ≡ length marks.old.current }
    requires places { All (λ k. k < length there.now) places.now }
    ensures kept { marks.new.kept ≡ marks.old.kept }
    ensures long { OnOk result (length marks.new.current ≡ length there.now) }
    ensures measure { OnOk result (length fresh.new.items + count_by (λ b. b) marks.old.current
        ≡ length fresh.old.items + count_by (λ b. b) marks.new.current) }
    ensures revived { OnOk result (IsRevived (marked there.now) marks.old.current marks.new.current fresh.old.items fresh.new.items places.now (length places.now)) }
{
    for place in places {
        revive_one(there, marks, fresh, *place)?;
    }
    Ok(())
}

// Marks the present, unmarked rows with a clause that has a name of this row's.
fn revive_dependents(
    dependents: &NameIndex,
    there: &[bool],
    marks: &mut Marks,
    fresh: &mut SmallVec<usize, 4>,
    row: &Binary,
) -> Result<(), NoMemory>
    requires there { length there.now ≡ length marks.old.current }
    requires dependents { (name : List ℕ) → All (λ k. k < length there.now) (places_at dependents.now name) }
    ensures kept { marks.new.kept ≡ marks.old.kept }
    ensures long { OnOk result (length marks.new.current ≡ length there.now) }
    ensures measure { OnOk result (length fresh.new.items + count_by (λ b. b) marks.old.current
        ≡ length fresh.old.items + count_by (λ b. b) marks.new.current) }
    ensures revived { OnOk result (IsRevived (marked there.now) marks.old.current marks.new.current fresh.old.items fresh.new.items
        (places_for dependents.now row.now) (length (places_for dependents.now row.now))) }
{
    let named = dependents.places(row.name.as_str());
    revive_among(there, marks, fresh, named)?;
    for provision in row.provides.as_slice() {
        let given = dependents.places(provision.name.as_str());
        revive_among(there, marks, fresh, given)?;
    }
    Ok(())
}

// Marks the rows that may be installable again because of the fresh ones, then because of these, and so on.
fn revive(
    graph: &Graph,
    there: &[bool],
    marks: &mut Marks,
    fresh: &mut SmallVec<usize, 4>,
) -> Result<(), NoMemory>
    requires graph { IsGraph (shared graph.now.rows.items) graph.now.providers graph.now.dependents }
    requires there { length there.now ≡ length graph.now.rows.items }
    requires marks { length marks.old.current ≡ length graph.now.rows.items }
    requires fresh { All (λ k. k < length graph.now.rows.items) fresh.old.items }
    ensures kept { marks.new.kept ≡ marks.old.kept }
    ensures long { OnOk result (length marks.new.current ≡ length graph.now.rows.items) }
    ensures fresh { OnOk result (All (λ k. k < length graph.now.rows.items) fresh.new.items) }
    ensures revived { OnOk result ((old : ℕ → Bool) → IsReviving (shared graph.now.rows.items) (marked there.now) old marks.old.current marks.old.current fresh.old.items 0
        → IsReviving (shared graph.now.rows.items) (marked there.now) old marks.old.current marks.new.current fresh.new.items (length fresh.new.items)) }
{
    let mut next = 0;
    'revivals: while next < fresh.len() {
        let row = graph.rows[fresh[next]].as_ref();
        revive_dependents(&graph.dependents, there, marks, fresh, row)?;
        next += 1;
    }
    Ok(())
}

/// Some rows leave, and then some come.
pub fn change(
    alloc: Global,
    graph: &Graph,
    there: &mut Marks,
    marks: &mut Marks,
    leaving: &[usize],
    coming: &[usize],
) -> Result<SmallVec<usize, 4>, NoMemory>
    requires graph { IsGraph (shared graph.now.rows.items) graph.now.providers graph.now.dependents }
    requires right { IsRight (shared graph.now.rows.items) there.old.current marks.old.current }
    requires leaving { All (λ k. k < length graph.now.rows.items) leaving.now }
    requires coming { All (λ k. k < length graph.now.rows.items) coming.now }
    ensures there_kept { there.new.kept ≡ there.old.kept }
    ensures marks_kept { marks.new.kept ≡ marks.old.kept }
    ensures there { OnOk result (there.new.current ≡ after_change leaving.now coming.now there.old.current) }
    ensures changed { IfOk result (λ lost. IsChanged (shared graph.now.rows.items) there.old.current marks.old.current there.new.current marks.new.current lost.items) }
{
    set_all(there, leaving, false)?;
    set_all(marks, leaving, false)?;
    set_all(there, coming, true)?;
    set_all(marks, coming, true)?;
    let mut fresh = SmallVec::from_slice(alloc, coming)?;
    revive(graph, there.current(), marks, &mut fresh)?;
    let mut falls = Falls {
        waiting: SmallVec::from_slice(alloc, leaving)?,
        fallen: SmallVec::new(alloc),
    };
    check_clauses(graph, marks, &mut falls, &fresh, None)?;
    propagate(graph, marks, &mut falls)?;
    Ok(falls.fallen)
}

// The row at the place was absent when the marks were last kept, or was installable then.
fn was_right(there: &Marks, marks: &Marks, place: usize) -> bool
    ensures { result ≡ (marked marks.now.kept place || not (marked there.now.kept place)) }
{
    marks.was_marked(place) || !there.was_marked(place)
}

// The rows at the places that were absent when the marks were last kept, or were installable then.
fn newly_lost(
    alloc: Global,
    there: &Marks,
    marks: &Marks,
    fallen: &[usize],
) -> Result<Vec<usize>, NoMemory>
    ensures { IfOk result (λ lost. lost.items ≡ filter (λ k. marked marks.now.kept k || not (marked there.now.kept k)) fallen.now) }
{
    let mut lost = Vec::new(alloc);
    for place in fallen {
        if was_right(there, marks, *place) {
            lost.push(*place)?;
        }
    }
    Ok(lost)
}

/// The rows that a change loses, if the marks before it are kept.
pub fn lost_by(
    alloc: Global,
    graph: &Graph,
    there: &mut Marks,
    marks: &mut Marks,
    leaving: &[usize],
    coming: &[usize],
) -> Result<Vec<usize>, NoMemory>
    requires graph { IsGraph (shared graph.now.rows.items) graph.now.providers graph.now.dependents }
    requires right { IsRight (shared graph.now.rows.items) there.old.current marks.old.current }
    requires there { there.old.kept ≡ there.old.current }
    requires marks { marks.old.kept ≡ marks.old.current }
    requires leaving { All (λ k. k < length graph.now.rows.items) leaving.now }
    requires coming { All (λ k. k < length graph.now.rows.items) coming.now }
    ensures there_kept { there.new.kept ≡ there.old.kept }
    ensures marks_kept { marks.new.kept ≡ marks.old.kept }
    ensures right { OnOk result (IsRight (shared graph.now.rows.items) (after_change leaving.now coming.now there.old.current) marks.new.current) }
    ensures lost { IfOk result (λ lost. (k : ℕ) → Contains lost.items k
        ↔ IsLost (shared graph.now.rows.items) (marked there.old.current) (marked (after_change leaving.now coming.now there.old.current)) k) }
{
    let fallen = change(alloc, graph, there, marks, leaving, coming)?;
    let lost = newly_lost(alloc, there, marks, &fallen)?;
    Ok(lost)
}
