//! The rows that come and leave when a group moves.

ghost use Rattle.std.specs.Prelude.{◌≡◌, ◌++◌, ◌<◌, length, filter, OnOk, IfOk};
ghost use Rattle.std.specs.List.{All};
ghost use Rattle.testing_rules_model.specs.Boxed.{unboxed};
ghost use Rattle.testing_rules_suites.specs.steps.Changes.{comes_at, stands_of, stands_for, gives_way_to, AreThose};
ghost use Rattle.testing_rules_model.specs.FactOrder.{AreBySource};
ghost use Rattle.testing_rules_model.specs.JudgedRows.{row_of};
ghost use Rattle.testing_rules_model.specs.Moves.{group_sources};

use crate::row_tests::{is_of, is_same_key};
use deb_control::Text;
use deb_version::NoMemory;
use smallvec::SmallVec;
use std::alloc::Global;
use testing_rules_facts::{is_current, source_near};
use testing_rules_model::{LentRow, UploadIn};
use testing_rules_suites::Pool;

/// The row at the place is one of unstable's, and current for the upload.
fn comes_at(pool: &Pool, first: usize, upload: &UploadIn, place: usize) -> bool
    requires { place < length pool.now }
    ensures { result ≡ comes_at pool.now first upload.now place }
{
    first <= place && is_current(upload, &pool.row(place))
}

/// The row at the place is present and names the source.
fn stands_of(pool: &Pool, stands: &[bool], name: &str, place: usize) -> bool
    requires places { place < length pool.now }
    requires flags { length stands.now ≡ length pool.now }
    ensures { result ≡ stands_of pool.now stands.now name.now place }
{
    stands[place] && is_of(&pool.row(place), name)
}

/// The row at the place is present and has the other's key.
fn stands_for(pool: &Pool, stands: &[bool], other: &LentRow, place: usize) -> bool
    requires places { place < length pool.now }
    requires flags { length stands.now ≡ length pool.now }
    ensures { result ≡ stands_for pool.now stands.now (row_of other.now) place }
{
    stands[place] && is_same_key(other, &pool.row(place))
}

/// Adds the places whose rows come for the upload.
fn push_coming(
    coming: &mut SmallVec<usize, 4>,
    pool: &Pool,
    first: usize,
    upload: &UploadIn,
    places: &[usize],
) -> Result<(), NoMemory>
    requires { All (λ k. k < length pool.now) places.now }
    ensures { OnOk result (coming.new.items ≡ coming.old.items ++ filter (comes_at pool.now first upload.now) places.now) }
{
    for place in places {
        if comes_at(pool, first, upload, *place) {
            coming.push(*place)?;
        }
    }
    Ok(())
}

/// The places of the coming rows: unstable's rows, from the first place on, that are current for a source of the group.
/// A source is first looked for near the guessed place.
pub fn coming_of(
    alloc: Global,
    pool: &Pool,
    first: usize,
    sources: &[Box<UploadIn>],
    near: usize,
    group: &[Text],
) -> Result<SmallVec<usize, 4>, NoMemory>
    requires { AreBySource (unboxed sources.now) }
    ensures { IfOk result (λ coming. AreThose (comes_at pool.now first) (group_sources (unboxed sources.now) group.now) coming.items) }
{
    let mut coming = SmallVec::new(alloc);
    for name in group {
        if let Some(upload) = source_near(sources, name.as_str(), near) {
            let places = pool.of_source(upload.source.as_str());
            push_coming(&mut coming, pool, first, upload, places)?;
        }
    }
    Ok(coming)
}

/// Adds the places whose rows are present and name the source.
pub fn push_standing(
    leaving: &mut SmallVec<usize, 4>,
    pool: &Pool,
    stands: &[bool],
    name: &str,
    places: &[usize],
) -> Result<(), NoMemory>
    requires places { All (λ k. k < length pool.now) places.now }
    requires flags { length stands.now ≡ length pool.now }
    ensures { OnOk result (leaving.new.items ≡ leaving.old.items ++ filter (stands_of pool.now stands.now name.now) places.now) }
{
    for place in places {
        if stands_of(pool, stands, name, *place) {
            leaving.push(*place)?;
        }
    }
    Ok(())
}

/// The places of the present rows of the group's sources.
pub fn standing_of_group(
    alloc: Global,
    pool: &Pool,
    stands: &[bool],
    group: &[Text],
) -> Result<SmallVec<usize, 4>, NoMemory>
    requires { length stands.now ≡ length pool.now }
    ensures { IfOk result (λ leaving. AreThose (stands_of pool.now stands.now) group.now leaving.items) }
{
    let mut leaving = SmallVec::new(alloc);
    for name in group {
        let places = pool.of_source(name.as_str());
        push_standing(&mut leaving, pool, stands, name.as_str(), places)?;
    }
    Ok(leaving)
}

/// Adds the places whose rows are present and have the other's key.
fn push_giving_way(
    leaving: &mut SmallVec<usize, 4>,
    pool: &Pool,
    stands: &[bool],
    other: &LentRow,
    places: &[usize],
) -> Result<(), NoMemory>
    requires places { All (λ k. k < length pool.now) places.now }
    requires flags { length stands.now ≡ length pool.now }
    ensures { OnOk result (leaving.new.items ≡ leaving.old.items ++ filter (stands_for pool.now stands.now (row_of other.now)) places.now) }
{
    for place in places {
        if stands_for(pool, stands, other, *place) {
            leaving.push(*place)?;
        }
    }
    Ok(())
}

/// The places of the present rows that give way to coming ones with the same key.
pub fn giving_way(
    alloc: Global,
    pool: &Pool,
    stands: &[bool],
    coming: &[usize],
) -> Result<SmallVec<usize, 4>, NoMemory>
    requires places { All (λ k. k < length pool.now) coming.now }
    requires flags { length stands.now ≡ length pool.now }
    ensures { IfOk result (λ leaving. AreThose (gives_way_to pool.now stands.now) coming.now leaving.items) }
{
    let mut leaving = SmallVec::new(alloc);
    for place in coming {
        let row = pool.row(*place);
        let places = pool.of_name(row.binary.name.as_str());
        push_giving_way(&mut leaving, pool, stands, &row, places)?;
    }
    Ok(leaving)
}
