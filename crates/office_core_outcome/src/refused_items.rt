//! What a hint asks for, and how much of it is left to do.

ghost use Rattle.std.specs.Prelude.{◌≡◌, IfOk, option_copied};
ghost use Rattle.office_core_outcome.specs.WhyRefused as refused;

use deb_control::{NoMemory, Text};
use deb_version::Version;
use std::alloc::Global;
use testing_rules_facts::is_same_version;
use testing_rules_items::{Hint, HintItem};
use testing_rules_model::HintIn;
use testing_rules_refusals::is_in_testing;
use testing_rules_suites::Testing;

/// The sources of items that testing doesn't have at their versions yet.
pub(crate) fn group_left(
    alloc: Global,
    testing: &Testing,
    items: &[HintItem],
) -> Result<Vec<Text>, NoMemory>
    ensures { IfOk result (λ group. group.items ≡ refused.group_left testing.now items.now) }
{
    let mut group = Vec::new(alloc);
    for item in items {
        if !is_in_testing(testing, item.name.as_str(), &item.version) {
            group.push(item.name.copy(alloc)?)?;
        }
    }
    Ok(group)
}

/// Whether the item is this version of this source.
fn is_item(name: &str, version: &Version, item: &HintItem) -> bool
    ensures { result ≡ refused.is_item name.now version.now item.now }
{
    item.name.as_str() == name && is_same_version(version, &item.version)
}

/// The items before this version of this source.
pub(crate) fn items_before(
    alloc: Global,
    name: &str,
    version: &Version,
    items: &[HintItem],
) -> Result<Vec<HintItem>, NoMemory>
    ensures { IfOk result (λ earlier. earlier.items ≡ refused.items_until (refused.is_item name.now version.now) items.now) }
{
    let mut earlier = Vec::new(alloc);
    'items: for item in items {
        if is_item(name, version, item) {
            return Ok(earlier);
        }
        earlier.push(item.copy(alloc)?)?;
    }
    Ok(earlier)
}

/// The first of the hints with this number.
pub(crate) fn hint_at(hints: &[HintIn], number: u32) -> Option<&HintIn>
    ensures { option_copied result ≡ refused.hint_at hints.now number }
{
    for hint in hints {
        if hint.number == number {
            return Some(hint);
        }
    }
    None
}

/// The items of a hint that are to move as one.
fn grouped_items(hint: &Hint) -> &[HintItem]
    ensures { result.now ≡ refused.grouped_items hint.now }
{
    match hint {
        Hint::Easy(items) => items.as_slice(),
        Hint::Block(_) | Hint::Unblock(_) | Hint::AgeDays(_, _) => &[],
        Hint::Remove(_) | Hint::BlockAll => &[],
    }
}

/// The items of a hint that are to be removed.
fn removed_items(hint: &Hint) -> &[HintItem]
    ensures { result.now ≡ refused.removed_items hint.now }
{
    match hint {
        Hint::Remove(items) => items.as_slice(),
        Hint::Block(_) | Hint::Unblock(_) | Hint::AgeDays(_, _) => &[],
        Hint::Easy(_) | Hint::BlockAll => &[],
    }
}

/// The items that are to move as one by the hint with this number.
pub(crate) fn grouped_at(hints: &[HintIn], number: u32) -> &[HintItem]
    ensures { result.now ≡ refused.items_at refused.grouped_items hints.now number }
{
    match hint_at(hints, number) {
        Some(hint) => grouped_items(&hint.hint),
        None => &[],
    }
}

/// The items that are to be removed by the hint with this number.
pub(crate) fn removed_at(hints: &[HintIn], number: u32) -> &[HintItem]
    ensures { result.now ≡ refused.items_at refused.removed_items hints.now number }
{
    match hint_at(hints, number) {
        Some(hint) => removed_items(&hint.hint),
        None => &[],
    }
}
