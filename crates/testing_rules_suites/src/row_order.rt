//! A pool's places in the order of their rows' keys. The order is only a hint that saves sorting testing's rows: every
//! place is guaranteed to be included, and whoever lists rows tests their order.

ghost use Rattle.std.specs.Prelude.{◌≡◌, ◌≤◌, length, IfOk};
ghost use Rattle.testing_rules_suites.specs.steps.Pools.{HasPlaces};
ghost use Rattle.testing_rules_model.specs.Moves as moves;

use deb_version::NoMemory;
use std::alloc::Global;
use std::cmp::Ordering;
use testing_rules_model::RowIn;

/// The order of rows, by architecture and name.
pub fn order_rows(row: &RowIn, other: &RowIn) -> Ordering
    ensures { result ≡ moves.row_cmp (moves.row_key row.now) (moves.row_key other.now) }
{
    let names = row.binary.name.as_str().cmp(other.binary.name.as_str());
    row.arch.cmp(&other.arch).then(names)
}

/// How many of the places come before the row, if they are in order.
fn places_before(rows: &[RowIn], places: &[usize], row: &RowIn) -> usize
    ensures { result ≤ length places.now }
{
    let found = places.binary_search_by(|place: &usize| -> Ordering {
        match rows.get(*place) {
            Some(other) => order_rows(other, row),
            None => Ordering::Less,
        }
    });
    match found {
        Ok(place) => place,
        Err(place) => place,
    }
}

/// The places with those of more rows, each put where it belongs.
pub fn merged(
    alloc: Global,
    rows: &[RowIn],
    places: &[usize],
    from: usize,
) -> Result<Vec<usize>, NoMemory>
    requires from { from ≤ length rows.now }
    requires places { HasPlaces from places.now }
    ensures { IfOk result (λ merged. HasPlaces (length rows.now) merged.items) }
{
    let mut merged = Vec::with_capacity(alloc, rows.len())?;
    let mut rest = places;
    for place in from..rows.len() {
        let (before, behind) = rest.split_at(places_before(rows, rest, &rows[place]));
        merged.extend_from_slice(before)?;
        merged.push(place)?;
        rest = behind;
    }
    merged.extend_from_slice(rest)?;
    Ok(merged)
}
