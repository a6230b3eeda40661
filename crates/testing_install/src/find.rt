ghost use Rattle.std.specs.Prelude.{◌≡◌, ℕ, ◌<◌, length, drop, Some, None, is_some, if◌then◌else◌, IfSome, IfNone};
ghost use Rattle.std.specs.List.{All};
ghost use Rattle.testing_install.specs.Closed.{IsMet, marked};
ghost use Rattle.testing_install.specs.steps.Ground.{Misses, IsHit, MeetsAt};
ghost use Rattle.testing_install.specs.steps.Index.{IsIndex};
ghost use Rattle.testing_install.specs.Rows.{binaries};
ghost use Rattle.testing_install.specs.Satisfies.{satisfies};

use crate::Row;
use crate::index::NameIndex;
use crate::satisfies::satisfies;
use deb_control::{Alternative, Binary, Clause};

// The first of the places with a marked row that satisfies the alternative.
fn find_among(
    rows: &[Row],
    marks: &[bool],
    places: &[usize],
    alternative: &Alternative,
) -> Option<usize>
    requires marks { length marks.now ≡ length rows.now }
    requires places { All (λ k. k < length rows.now) places.now }
    ensures some { IfSome result (λ k. IsHit (binaries rows.now) (marked marks.now) alternative.now k) }
    ensures none { IfNone result (Misses (binaries rows.now) (marked marks.now) alternative.now places.now) }
{
    for place in places {
        if marks[*place] && satisfies(rows[*place].binary, alternative) {
            return Some(*place);
        }
    }
    None
}

// The places from this one on; they are in order.
fn places_from(places: &[usize], start: usize) -> &[usize]
    ensures { (n : ℕ) × (result.now ≡ drop n places.now) }
{
    let (_, rest) = places.split_at(places.partition_point(|place| *place < start));
    rest
}

// Where to begin at the next alternative: from the lost row at the first one that it satisfies, then from 0.
fn next_start(
    start: Option<usize>,
    lost: usize,
    row: &Binary,
    alternative: &Alternative,
) -> Option<usize>
    ensures { result ≡ (if is_some start then Some 0 else if satisfies row.now alternative.now then Some lost else None) }
{
    if start.is_some() {
        Some(0)
    } else if satisfies(row, alternative) {
        Some(lost)
    } else {
        None
    }
}

// A marked row that meets the clause, after the lost row on which the clause rested: earlier rows have been tried.
fn find_behind(
    rows: &[Row],
    marks: &[bool],
    providers: &NameIndex,
    clause: &Clause,
    lost: Option<usize>,
) -> Option<usize>
    requires marks { length marks.now ≡ length rows.now }
    requires index { IsIndex (binaries rows.now) providers.now }
    ensures { IfSome result (λ k. MeetsAt (binaries rows.now) (marked marks.now) clause.now k) }
{
    let lost = lost?;
    let row = rows.get(lost)?;
    let mut start = None;
    for alternative in clause.as_slice() {
        start = next_start(start, lost, row.binary, alternative);
        if let Some(start) = start {
            let left = places_from(providers.places(alternative.name.as_str()), start);
            if let Some(place) = find_among(rows, marks, left, alternative) {
                return Some(place);
            }
        }
    }
    None
}

// The first marked row that meets the clause, in the order of its alternatives.
fn find_first(rows: &[Row], marks: &[bool], providers: &NameIndex, clause: &Clause) -> Option<usize>
    requires marks { length marks.now ≡ length rows.now }
    requires index { IsIndex (binaries rows.now) providers.now }
    ensures some { IfSome result (λ k. MeetsAt (binaries rows.now) (marked marks.now) clause.now k) }
    ensures none { IfNone result (IsMet (binaries rows.now) (marked marks.now) clause.now → ⊥) }
{
    for alternative in clause.as_slice() {
        let named = providers.places(alternative.name.as_str());
        if let Some(place) = find_among(rows, marks, named, alternative) {
            return Some(place);
        }
    }
    None
}

/// A marked row that meets the clause, if there is one. If the clause rested on a lost row, the search begins there, so
/// that it doesn't revisit earlier rows each time.
pub fn find(
    rows: &[Row],
    marks: &[bool],
    providers: &NameIndex,
    clause: &Clause,
    lost: Option<usize>,
) -> Option<usize>
    requires marks { length marks.now ≡ length rows.now }
    requires index { IsIndex (binaries rows.now) providers.now }
    ensures some { IfSome result (λ k. MeetsAt (binaries rows.now) (marked marks.now) clause.now k) }
    ensures none { IfNone result (IsMet (binaries rows.now) (marked marks.now) clause.now → ⊥) }
{
    if let Some(place) = find_behind(rows, marks, providers, clause, lost) {
        return Some(place);
    }
    find_first(rows, marks, providers, clause)
}
