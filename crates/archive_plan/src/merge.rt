//! Which items of a list stand in a relation to one of another list, in one pass over both.

ghost use Rattle.std.specs.Prelude.{◌≡◌, true, IfOk};
ghost use Rattle.archive_plan.specs.Items.{AreInOrder, meets, picked_from};
ghost use Rattle.archive_plan.specs.steps.Merge.{IsPlaceFor, ArePassed};

use crate::items::{Item, Relation, is_fit, key_order};
use deb_version::NoMemory;
use std::alloc::Global;
use std::cmp::Ordering;

/// Whether items are in the order of their keys, and each key stands once.
pub fn is_in_order(items: &[Item]) -> bool
    ensures { result ≡ true → AreInOrder items.now }
{
    let mut place = 1;
    while place < items.len() {
        if key_order(&items[place - 1], &items[place]) != Ordering::Less {
            return false;
        }
        place += 1;
    }
    true
}

/// The first place from this one on whose item hasn't a lower key than this item.
fn place_from(items: &[Item], from: usize, x: &Item) -> usize
    requires passed { ArePassed items.now from x.now }
    ensures { IsPlaceFor items.now result x.now }
{
    let mut place = from;
    while place < items.len() && key_order(&items[place], x) == Ordering::Less {
        place += 1;
    }
    place
}

/// Whether an item stands so to one of a list, by the place of its key.
fn meets_at(relation: Relation, items: &[Item], place: usize, x: &Item) -> bool
    requires sorted { AreInOrder items.now }
    requires place { IsPlaceFor items.now place x.now }
    ensures { result ≡ meets relation items.now x.now }
{
    if place < items.len() {
        let y = &items[place];
        if key_order(x, y) == Ordering::Equal {
            is_fit(relation, x, y)
        } else {
            false
        }
    } else {
        false
    }
}

/// Copies of the items that stand so to one of another list (`wanted`), or of those that don't. One pass over both.
pub fn picked(
    alloc: Global,
    relation: Relation,
    wanted: bool,
    xs: &[Item],
    ys: &[Item],
) -> Result<Vec<Item>, NoMemory>
    requires xs { AreInOrder xs.now }
    requires ys { AreInOrder ys.now }
    ensures { IfOk result (λ items. items.items ≡ picked_from relation wanted xs.now ys.now) }
{
    let mut items = Vec::new(alloc);
    let mut place = 0;
    'xs: for x in xs {
        place = place_from(ys, place, x);
        if meets_at(relation, ys, place, x) == wanted {
            items.push(x.copy(alloc)?)?;
        }
    }
    Ok(items)
}
