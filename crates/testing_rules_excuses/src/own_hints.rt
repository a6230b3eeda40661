//! What the hints ask for each source that is news, found by the source's name. So a source is judged only by the hints
//! that name it.

ghost use Rattle.std.specs.Prelude.{◌≡◌, ◌∷◌, [], IfOk, IsTrue, OnOk, Some, if◌then◌else◌, unwrap_or};
ghost use Rattle.std.specs.List.{list_any};
ghost use Rattle.std.specs.Str.{bytes_eq};
ghost use Rattle.testing_rules_excuses.specs.steps.BySource.{slot_at, joined_by, group_at, is_among};
ghost use Rattle.testing_rules_excuses.specs.steps.OwnHints.{wished, is_for_all, started, named_part, named_parts, item_part, item_parts, parts_of, own_hints, joined_with};
ghost use Rattle.testing_rules_items.specs.Words.{Text as Word};

use crate::by_source::News;
use deb_control::Text;
use deb_version::NoMemory;
use std::alloc::Global;
use std::collections::HashMap;
use testing_rules_items::{Hint, HintItem, HintItems, Names};
use testing_rules_model::HintIn;

/// What a hint asks for each version that it names.
#[derive(Clone, Copy)]
pub enum Wish {
    LetIn,
    Days(u32),
    Leave,
}

/// Only one item.
fn one_item(alloc: Global, item: &HintItem) -> Result<HintItems, NoMemory>
    ensures { IfOk result (λ items. items ≡ item.now ∷ []) }
{
    let mut items = Vec::with_capacity(alloc, 1)?;
    items.push(item.copy(alloc)?)?;
    Ok(HintItems::of(items))
}

/// Only one name.
fn one_name(alloc: Global, name: &Text) -> Result<Names, NoMemory>
    ensures { IfOk result (λ names. names ≡ name.now ∷ []) }
{
    let mut names = Vec::with_capacity(alloc, 1)?;
    names.push(name.copy(alloc)?)?;
    Ok(Names::of(names))
}

/// A hint that asks this for the items.
fn wish_for(wish: Wish, items: HintItems) -> Hint
    ensures { result ≡ wished wish items }
{
    match wish {
        Wish::LetIn => Hint::Unblock(items),
        Wish::Days(days) => Hint::AgeDays(days, items),
        Wish::Leave => Hint::Remove(items),
    }
}

/// What a hint asks for one of its items.
fn part_on_item(
    alloc: Global,
    hint: &HintIn,
    wish: Wish,
    item: &HintItem,
) -> Result<HintIn, NoMemory>
    ensures { IfOk result (λ part. part ≡ item_part hint.now wish item.now) }
{
    let items = one_item(alloc, item)?;
    Ok(HintIn {
        hint: wish_for(wish, items),
        sender: hint.sender,
        number: hint.number,
    })
}

/// A block of one of the sources that a hint blocks.
fn part_on_name(alloc: Global, hint: &HintIn, name: &Text) -> Result<HintIn, NoMemory>
    ensures { IfOk result (λ part. part ≡ named_part hint.now name.now) }
{
    let names = one_name(alloc, name)?;
    Ok(HintIn {
        hint: Hint::Block(names),
        sender: hint.sender,
        number: hint.number,
    })
}

/// Adds the part of a hint for an item to the group of the item's source, if there is one.
fn join_item(
    alloc: Global,
    groups: &mut HashMap<&str, Vec<HintIn>>,
    hint: &HintIn,
    wish: Wish,
    item: &HintItem,
) -> Result<(), NoMemory>
    ensures { OnOk result ((q : Word) → slot_at groups.new q ≡ joined_by (bytes_eq q item.now.name) (item_part hint.now wish item.now) (slot_at groups.old q)) }
{
    if let Some(group) = groups.get_mut(item.name.as_str()) {
        group.push(part_on_item(alloc, hint, wish, item)?)?;
    }
    Ok(())
}

/// Adds the block of a source to the source's group, if there is one.
fn join_name(
    alloc: Global,
    groups: &mut HashMap<&str, Vec<HintIn>>,
    hint: &HintIn,
    name: &Text,
) -> Result<(), NoMemory>
    ensures { OnOk result ((q : Word) → slot_at groups.new q ≡ joined_by (bytes_eq q name.now) (named_part hint.now name.now) (slot_at groups.old q)) }
{
    if let Some(group) = groups.get_mut(name.as_str()) {
        group.push(part_on_name(alloc, hint, name)?)?;
    }
    Ok(())
}

/// Adds the parts of a hint for each of its items to the groups of their sources.
fn join_items(
    alloc: Global,
    groups: &mut HashMap<&str, Vec<HintIn>>,
    hint: &HintIn,
    wish: Wish,
    items: &[HintItem],
) -> Result<(), NoMemory>
    ensures { OnOk result ((q : Word) → slot_at groups.new q ≡ joined_with (item_parts q hint.now wish items.now) (slot_at groups.old q)) }
{
    for item in items {
        join_item(alloc, groups, hint, wish, item)?;
    }
    Ok(())
}

/// Adds the blocks of the sources to their groups.
fn join_names(
    alloc: Global,
    groups: &mut HashMap<&str, Vec<HintIn>>,
    hint: &HintIn,
    names: &[Text],
) -> Result<(), NoMemory>
    ensures { OnOk result ((q : Word) → slot_at groups.new q ≡ joined_with (named_parts q hint.now names.now) (slot_at groups.old q)) }
{
    for name in names {
        join_name(alloc, groups, hint, name)?;
    }
    Ok(())
}

/// Adds what a hint asks for each source that it names to the source's group.
fn join_hint(
    alloc: Global,
    groups: &mut HashMap<&str, Vec<HintIn>>,
    hint: &HintIn,
) -> Result<(), NoMemory>
    ensures { OnOk result ((q : Word) → slot_at groups.new q ≡ joined_with (parts_of q hint.now) (slot_at groups.old q)) }
{
    match &hint.hint {
        Hint::Block(names) => join_names(alloc, groups, hint, names.as_slice()),
        Hint::Unblock(items) => join_items(alloc, groups, hint, Wish::LetIn, items.as_slice()),
        Hint::AgeDays(days, items) => {
            join_items(alloc, groups, hint, Wish::Days(*days), items.as_slice())
        }
        Hint::Remove(items) => join_items(alloc, groups, hint, Wish::Leave, items.as_slice()),
        Hint::BlockAll | Hint::Easy(_) => Ok(()),
    }
}

/// The hint keeps all sources out.
fn keeps_all_out(hint: &Hint) -> bool
    ensures { result ≡ is_for_all hint.now }
{
    match hint {
        Hint::BlockAll => true,
        Hint::Block(_) | Hint::Unblock(_) | Hint::Easy(_) | Hint::AgeDays(_, _) | Hint::Remove(_) =>
            false,
    }
}

/// Some hint keeps all sources out.
fn are_all_out(hints: &[HintIn]) -> bool
    ensures { result ≡ list_any (λ h. is_for_all h.hint) hints.now }
{
    hints.iter().any(|hint| keeps_all_out(&hint.hint))
}

/// The beginning of a group: one hint that keeps all sources out, if there is any.
fn start(alloc: Global, all_out: bool) -> Result<Vec<HintIn>, NoMemory>
    ensures { IfOk result (λ first. first.items ≡ started all_out) }
{
    let mut first = Vec::new(alloc);
    if all_out {
        first.push(HintIn {
            hint: Hint::BlockAll,
            sender: 0,
            number: 0,
        })?;
    }
    Ok(first)
}

/// Makes sure that a source has a group: its own, or a new one.
fn begin<'a>(
    alloc: Global,
    groups: &mut HashMap<&'a str, Vec<HintIn>>,
    name: &'a str,
    all_out: bool,
) -> Result<(), NoMemory>
    ensures { OnOk result ((q : Word) → slot_at groups.new q ≡ (if bytes_eq q name.now then Some (unwrap_or (slot_at groups.old q) (started all_out)) else slot_at groups.old q)) }
{
    let first = start(alloc, all_out)?;
    let _ = groups.entry(name)?.or_insert(first);
    Ok(())
}

/// A new group for each source that is news.
fn begun_for<'a>(
    alloc: Global,
    news: &[News<'a>],
    all_out: bool,
) -> Result<HashMap<&'a str, Vec<HintIn>>, NoMemory>
    ensures { IfOk result (λ groups. (q : Word) → slot_at groups q ≡ (if is_among news.now q then Some (started all_out) else None)) }
{
    let mut groups = HashMap::new(alloc);
    for source in news {
        begin(alloc, &mut groups, source.upload.source.as_str(), all_out)?;
    }
    Ok(groups)
}

/// What the hints ask for each source that is news. The time is the number of sources plus that of names in hints, not
/// their product. Without hints no source has a group. NoMemory if memory runs out.
pub fn hints_by_source<'a>(
    alloc: Global,
    news: &[News<'a>],
    hints: &[HintIn],
) -> Result<HashMap<&'a str, Vec<HintIn>>, NoMemory>
    ensures { IfOk result (λ groups. (q : Word) → IsTrue (is_among news.now q) → group_at groups q ≡ own_hints q hints.now) }
{
    if hints.is_empty() {
        return Ok(HashMap::new(alloc));
    }
    let mut groups = begun_for(alloc, news, are_all_out(hints))?;
    for hint in hints {
        join_hint(alloc, &mut groups, hint)?;
    }
    Ok(groups)
}
