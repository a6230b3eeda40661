//! Facts put back from their rows in the store, each with the message that it names.
#![tactic(auto, using(office_core_store::proofs::LastFacts::lasting))]

ghost use Rattle.std.specs.Prelude.{◌≡◌, ◌+◌, ◌<◌, ◌≤◌, ℕ, Some, IsTrue, IfOk, IfSome, OnOk, Contains, length, take, slice_index_or};
ghost use Rattle.testing_rules_items.specs.declared.item.Item.TheVariants.{Nothing};
ghost use Rattle.testing_rules_model.specs.FactLists.{FactLists, no_facts};
ghost use Rattle.testing_rules_model.specs.Covered.{Covered};
ghost use Rattle.testing_rules_model.specs.declared.fact_row.FactRow.{FactRow as ARow};
ghost use Rattle.office_mail.specs.Kept.{Kept, Place};
ghost use Rattle.office_core_facts.specs.Known.{said_all};
ghost use Rattle.office_core_facts.specs.Outcome.{item_at, item_in_body};
ghost use Rattle.office_core_store.specs.ReadsStore.{ReadsStore};
ghost use Rattle.office_core_facts.specs.steps.Taking.{AreLettersOf, AreNear, HavePutBack, IsItemAt, IsNear, IsSaidItem};

use deb_control::NoMemory;
use office_core_store::stored::BLOCK;
use office_core_store::{StoreFault, stored};
use office_mail::{Body, MailFault, Message, Setup, read_message};
use office_store_keeper::{Keeper, Letter};
use std::alloc::Global;
use testing_rules_facts::Facts;
use testing_rules_items::Item;
use testing_rules_model::FactRow;

/// The rows of a list from one place up to another.
#[derive(Clone, Copy)]
struct RowBlock<'a> {
    rows: &'a [FactRow],
    start: usize,
    end: usize,
}

/// The facts of these rows, each put back with the message that it names. A row puts nothing back if it names no kept
/// message, or one that doesn't give it.
pub fn put_back<K: Keeper>(
    alloc: Global,
    setup: &Setup,
    keeper: &mut K,
    rows: &[FactRow],
) -> Result<Facts, StoreFault>
    ensures back { K.is_trusted keeper.new → IfOk result (λ facts. HavePutBack (said_all setup.now (K.content keeper.old).kept) rows.now no_facts facts) }
    ensures looks { ReadsStore K.Keeper keeper.old keeper.new result }
{
    let mut facts = Facts::new(alloc);
    match put_rows(alloc, setup, keeper, &mut facts, rows) {
        Ok(()) => Ok(facts),
        Err(fault) => {
            drop(facts);
            Err(fault)
        }
    }
}

/// Puts rows back, block by block.
fn put_rows<K: Keeper>(
    alloc: Global,
    setup: &Setup,
    keeper: &mut K,
    facts: &mut Facts,
    rows: &[FactRow],
) -> Result<(), StoreFault>
    ensures back { K.is_trusted keeper.new → OnOk result (HavePutBack (said_all setup.now (K.content keeper.old).kept) rows.now facts.old facts.new) }
    ensures looks { ReadsStore K.Keeper keeper.old keeper.new result }
{
    let mut start = 0;
    'loads: while start < rows.len() {
        let end = rows_end(rows, start, rows.len(), BLOCK);
        put_block(alloc, setup, keeper, facts, RowBlock { rows, start, end })?;
        start = end;
    }
    Ok(())
}

/// The place after the rows from a place on that are near the first of them: of its kind and sender, and of numbers
/// less than `span` above its own.
fn rows_end(rows: &[FactRow], start: usize, end: usize, span: u32) -> usize
    requires some { start < end }
    requires within { end ≤ length rows.now }
    requires span { 0 < span }
    ensures on { start < result }
    ensures within { result ≤ end }
    ensures near { (d : ARow) → AreNear span (slice_index_or rows.now start d) rows.now start result }
{
    let first = rows[start];
    let mut place = start + 1;
    'rows: while place < end && is_near(first, rows[place], span) {
        place += 1;
    }
    place
}

/// Whether a row is of the kind and sender of another, and its number is less than `span` above the other's.
fn is_near(first: FactRow, row: FactRow, span: u32) -> bool
    ensures { IsTrue result → IsNear span first row }
{
    row.kind == first.kind
        && row.sender == first.sender
        && row.number >= first.number
        && row.number - first.number < span
}

/// The last number that is loaded for rows of these numbers: at most a block from the first on.
fn last_loaded(first: u32, last: u32) -> u32
    ensures { result < first + 256 }
{
    if last >= first && last - first < BLOCK {
        last
    } else {
        first
    }
}

/// Puts back the rows of a block, which are near the first of them.
fn put_block<K: Keeper>(
    alloc: Global,
    setup: &Setup,
    keeper: &mut K,
    facts: &mut Facts,
    block: RowBlock<'_>,
) -> Result<(), StoreFault>
    requires some { block.start < block.end }
    requires within { block.end ≤ length block.rows.now }
    requires near { (d : ARow) → AreNear 256 (slice_index_or block.rows.now block.start d) block.rows.now block.start block.end }
    ensures back { K.is_trusted keeper.new → OnOk result ((first : FactLists) → let s : Covered = said_all setup.now (K.content keeper.old).kept in
        HavePutBack s (take block.entry.start block.entry.rows.now) first facts.old → HavePutBack s (take block.entry.end block.entry.rows.now) first facts.new) }
    ensures looks { ReadsStore K.Keeper keeper.old keeper.new result }
{
    let row = block.rows[block.start];
    let last = last_loaded(row.number, block.rows[block.end - 1].number);
    let letters = stored::load(keeper, row.sender, row.number, last)?;
    put_letters(alloc, setup, facts, &letters, block)?;
    Ok(())
}

/// Puts back the rows of a block, given their letters.
fn put_letters(
    alloc: Global,
    setup: &Setup,
    facts: &mut Facts,
    letters: &[Letter],
    block: RowBlock<'_>,
) -> Result<(), NoMemory>
    requires some { block.start < block.end }
    requires within { block.end ≤ length block.rows.now }
    requires near { (d : ARow) → AreNear 256 (slice_index_or block.rows.now block.start d) block.rows.now block.start block.end }
    ensures { OnOk result ((kept : Kept) (d : ARow) (first : FactLists) → AreLettersOf kept (slice_index_or block.entry.rows.now block.entry.start d).sender letters.now
        → HavePutBack (said_all setup.now kept) (take block.entry.start block.entry.rows.now) first facts.old
        → HavePutBack (said_all setup.now kept) (take block.entry.end block.entry.rows.now) first facts.new) }
{
    let mut place = block.start;
    'messages: while place < block.end {
        let next = rows_end(block.rows, place, block.end, 1);
        let item = item_under(alloc, setup, letters, block.rows[place].number)?;
        put_item(facts, item, block.rows, place, next)?;
        place = next;
    }
    Ok(())
}

/// What the letter of a number says to the rules; nothing if there is none.
fn item_under(
    alloc: Global,
    setup: &Setup,
    letters: &[Letter],
    number: u32,
) -> Result<Item, NoMemory>
    ensures { IfOk result (λ item. (kept : Kept) (sender : ℕ) → AreLettersOf kept sender letters.now → IsItemAt (said_all setup.now kept) sender number item) }
{
    match letter_of(letters, number) {
        Some(letter) => item_in(alloc, setup, letter.text.as_slice()),
        None => Ok(Item::Nothing),
    }
}

/// The letter of a number, searched by halves.
fn letter_of(letters: &[Letter], number: u32) -> Option<&Letter>
    ensures { IfSome result (λ letter. Contains letters.now letter.now × (letter.now.number ≡ number)) }
{
    let place = letters.partition_point(|letter| letter.number < number);
    let letter = letters.get(place)?;
    if letter.number == number {
        Some(letter)
    } else {
        None
    }
}

/// What a text says to the rules; nothing if it is refused.
pub fn item_in(alloc: Global, setup: &Setup, text: &[u8]) -> Result<Item, NoMemory>
    ensures { IfOk result (λ item. (p : Place) → IsSaidItem (item_at setup.now (p, text.now)) p.0 p.1 item) }
{
    match read_message(alloc, setup, text) {
        Ok(message) => Ok(item_of(message)),
        Err(fault) => no_item(fault),
    }
}

/// What a message says to the rules; a run order says nothing.
fn item_of(message: Message) -> Item
    ensures { (p : Place) → IsSaidItem (item_in_body p message.body) p.0 p.1 result }
{
    match message.body {
        Body::Item(item) => item,
        Body::Run(_) => Item::Nothing,
    }
}

/// A refused text says nothing, unless memory ran out.
fn no_item(fault: MailFault) -> Result<Item, NoMemory>
    ensures { IfOk result (λ item. (item ≡ Nothing) × (fault ≡ MailFault.NoMemory → ⊥)) }
{
    match fault {
        MailFault::NoMemory => Err(NoMemory),
        _ => Ok(Item::Nothing),
    }
}

/// Puts back the rows from one place to another, which all name the message of this item.
fn put_item(
    facts: &mut Facts,
    item: Item,
    rows: &[FactRow],
    start: usize,
    end: usize,
) -> Result<(), NoMemory>
    requires some { start < end }
    requires within { end ≤ length rows.now }
    ensures back { OnOk result ((s : Covered) (first : FactLists)
        → ((k : ℕ) (d : ARow) → start ≤ k → k < end → IsItemAt s (slice_index_or rows.now k d).sender (slice_index_or rows.now k d).number item)
        → HavePutBack s (take start rows.now) first facts.old → HavePutBack s (take end rows.now) first facts.new) }
{
    let done = put_facts(facts, &item, rows, start, end);
    drop(item);
    done
}

/// Puts back the rows from one place to another, which all name the message of this borrowed item.
fn put_facts(
    facts: &mut Facts,
    item: &Item,
    rows: &[FactRow],
    start: usize,
    end: usize,
) -> Result<(), NoMemory>
    requires some { start < end }
    requires within { end ≤ length rows.now }
    ensures back { OnOk result ((s : Covered) (first : FactLists)
        → ((k : ℕ) (d : ARow) → start ≤ k → k < end → IsItemAt s (slice_index_or rows.now k d).sender (slice_index_or rows.now k d).number item.now)
        → HavePutBack s (take start rows.now) first facts.old → HavePutBack s (take end rows.now) first facts.new) }
{
    'rows: for place in start..end {
        facts.restore(rows[place], item)?;
    }
    Ok(())
}
