//! The result of a trial, so that a change of the same rows needn't compute it again.

ghost use Rattle.std.specs.Prelude.{◌≡◌, ℕ, ◌<◌, Bool, true, List, [], length, OnOk, IfOk, Contains, ◌↔◌};
ghost use Rattle.std.specs.List.{All};
ghost use Rattle.deb_control.specs.declared.binary.Binary.{Binary as TheBinary};
ghost use Rattle.testing_install.specs.Among.{IsLost, after_change};
ghost use Rattle.testing_install.specs.Closed.{marked};
ghost use Rattle.testing_install.specs.steps.Dependents.{IsGraph};
ghost use Rattle.testing_install.specs.Rows.{shared};
ghost use Rattle.testing_install.specs.steps.Suite.{IsRight};
ghost use Rattle.testing_install.specs.steps.Trials.{IsDifference, IsTried};

use crate::change::{change, lost_by};
use crate::graph::Graph;
use crate::marks::{Marks, set_all};
use deb_version::NoMemory;
use smallvec::SmallVec;
use std::alloc::Global;

/// A tried change: which rows leave and come, and which lose or get a mark. They are usually few, and are kept in the
/// value itself.
#[derive(Drop)]
pub struct LastTrial {
    pub leaving: SmallVec<usize, 4>,
    pub coming: SmallVec<usize, 4>,
    pub falling: SmallVec<usize, 4>,
    pub rising: SmallVec<usize, 4>,
}

/// A change of the present rows, by their places: some leave, and then some come.
#[derive(Clone, Copy)]
pub struct Exchange<'c> {
    pub leaving: &'c [usize],
    pub coming: &'c [usize],
}

/// The change of no rows, which needs no trial.
pub fn nothing_tried(alloc: Global) -> LastTrial
    ensures leaving { result.leaving.items ≡ [] }
    ensures coming { result.coming.items ≡ [] }
    ensures falling { result.falling.items ≡ [] }
    ensures rising { result.rising.items ≡ [] }
{
    LastTrial {
        leaving: SmallVec::new(alloc),
        coming: SmallVec::new(alloc),
        falling: SmallVec::new(alloc),
        rising: SmallVec::new(alloc),
    }
}

// The new marks of the change being tried, before they are undone.
fn noted(
    alloc: Global,
    marks: &Marks,
    leaving: &[usize],
    coming: &[usize],
) -> Result<LastTrial, NoMemory>
    ensures leaving { IfOk result (λ t. t.leaving.items ≡ leaving.now) }
    ensures coming { IfOk result (λ t. t.coming.items ≡ coming.now) }
    ensures falling { IfOk result (λ t. IsDifference marks.now.kept marks.now.current t.falling.items) }
    ensures rising { IfOk result (λ t. IsDifference marks.now.current marks.now.kept t.rising.items) }
{
    let leaving = SmallVec::from_slice(alloc, leaving)?;
    let coming = SmallVec::from_slice(alloc, coming)?;
    let falling = marks.falling(alloc)?;
    let rising = marks.rising(alloc)?;
    Ok(LastTrial {
        leaving,
        coming,
        falling,
        rising,
    })
}

// Remembers the change being tried, if there is memory for it.
fn remember(
    alloc: Global,
    marks: &Marks,
    tried: &mut LastTrial,
    leaving: &[usize],
    coming: &[usize],
)
    ensures { (rows : List TheBinary) (there : List Bool) → length marks.now.kept ≡ length rows
        → IsRight rows (after_change leaving.now coming.now there) marks.now.current
        → IsTried rows there marks.now.kept tried.old → IsTried rows there marks.now.kept tried.new }
{
    if let Ok(next) = noted(alloc, marks, leaving, coming) {
        *tried = next;
    }
}

// No row leaves, and none comes.
fn is_idle(leaving: &[usize], coming: &[usize]) -> bool
    ensures leaving { result ≡ true → length leaving.now ≡ 0 }
    ensures coming { result ≡ true → length coming.now ≡ 0 }
{
    leaving.is_empty() && coming.is_empty()
}

/// The rows that a change loses, if the marks before it are kept. If it loses none, it is remembered. The change of no
/// rows costs no work.
pub fn try_change(
    alloc: Global,
    graph: &Graph,
    there: &mut Marks,
    marks: &mut Marks,
    tried: &mut LastTrial,
    exchange: Exchange<'_>,
) -> Result<Vec<usize>, NoMemory>
    requires graph { IsGraph (shared graph.now.rows.items) graph.now.providers graph.now.dependents }
    requires right { IsRight (shared graph.now.rows.items) there.old.current marks.old.current }
    requires there { there.old.kept ≡ there.old.current }
    requires marks { marks.old.kept ≡ marks.old.current }
    requires tried { IsTried (shared graph.now.rows.items) there.old.current marks.old.current tried.old }
    requires leaving { All (λ k. k < length graph.now.rows.items) exchange.leaving.now }
    requires coming { All (λ k. k < length graph.now.rows.items) exchange.coming.now }
    ensures there_kept { there.new.kept ≡ there.old.kept }
    ensures marks_kept { marks.new.kept ≡ marks.old.kept }
    ensures tried { IsTried (shared graph.now.rows.items) there.old.current marks.old.current tried.new }
    ensures lost { IfOk result (λ lost. (k : ℕ) → Contains lost.items k
        ↔ IsLost (shared graph.now.rows.items) (marked there.old.current)
        (marked (after_change exchange.entry.leaving.now exchange.entry.coming.now there.old.current)) k) }
{
    let Exchange { leaving, coming } = exchange;
    if is_idle(leaving, coming) {
        return Ok(Vec::new(alloc));
    }
    let lost = lost_by(alloc, graph, there, marks, leaving, coming)?;
    if lost.is_empty() {
        remember(alloc, marks, tried, leaving, coming);
    }
    Ok(lost)
}

// Removes the marks of some rows, then marks others.
fn set_both(marks: &mut Marks, leaving: &[usize], coming: &[usize]) -> Result<(), NoMemory>
    requires leaving { All (λ k. k < length marks.old.current) leaving.now }
    requires coming { All (λ k. k < length marks.old.current) coming.now }
    ensures kept { marks.new.kept ≡ marks.old.kept }
    ensures set { OnOk result (marks.new.current ≡ after_change leaving.now coming.now marks.old.current) }
{
    set_all(marks, leaving, false)?;
    set_all(marks, coming, true)?;
    Ok(())
}

// Whether the tried change had these leaving and coming rows.
fn is_of(tried: &LastTrial, leaving: &[usize], coming: &[usize]) -> bool
    ensures leaving { result ≡ true → tried.now.leaving.items ≡ leaving.now }
    ensures coming { result ≡ true → tried.now.coming.items ≡ coming.now }
{
    tried.leaving.as_slice() == leaving && tried.coming.as_slice() == coming
}

/// Some rows leave, and then some come. If this is the tried change, its result is used.
pub fn make_change(
    alloc: Global,
    graph: &Graph,
    there: &mut Marks,
    marks: &mut Marks,
    tried: &LastTrial,
    exchange: Exchange<'_>,
) -> Result<(), NoMemory>
    requires graph { IsGraph (shared graph.now.rows.items) graph.now.providers graph.now.dependents }
    requires right { IsRight (shared graph.now.rows.items) there.old.current marks.old.current }
    requires tried { IsTried (shared graph.now.rows.items) there.old.current marks.old.current tried.now }
    requires leaving { All (λ k. k < length graph.now.rows.items) exchange.leaving.now }
    requires coming { All (λ k. k < length graph.now.rows.items) exchange.coming.now }
    ensures there_kept { there.new.kept ≡ there.old.kept }
    ensures marks_kept { marks.new.kept ≡ marks.old.kept }
    ensures there { OnOk result (there.new.current
        ≡ after_change exchange.entry.leaving.now exchange.entry.coming.now there.old.current) }
    ensures right { OnOk result (IsRight (shared graph.now.rows.items) there.new.current marks.new.current) }
{
    let Exchange { leaving, coming } = exchange;
    if is_of(tried, leaving, coming) {
        set_both(there, leaving, coming)?;
        set_both(marks, &tried.falling, &tried.rising)?;
        return Ok(());
    }
    let lost = change(alloc, graph, there, marks, leaving, coming)?;
    drop(lost);
    Ok(())
}
