//! Run orders in the kept mail, and what they wait for.
#![tactic(auto, using(office_core_store::proofs::LastFacts::lasting))]

ghost use Rattle.std.specs.Prelude.{◌≡◌, ◌≢◌, ℕ, ◌+◌, ◌<◌, ◌≤◌, ◌↔◌, IsTrue, IfOk, OnOk, None, length, slice_index};
ghost use Rattle.std.specs.FinMap.{get};
ghost use Rattle.office_mail.specs.Kept.{Kept};
ghost use Rattle.office_mail.specs.Runs.{order_at, order_in, order_in_body};
ghost use Rattle.office_store_keeper.specs.Content.{letters_within};
ghost use Rattle.office_core_store.specs.ReadsStore.{ReadsStore};
ghost use Rattle.office_core_orders.specs.Ready.{HasNumbers, HasEach, HasPlaces};
ghost use Rattle.office_core_orders.specs.steps.Ready.{FirstOrders, GoesOn, IsReached};

use deb_control::NoMemory;
use office_core_store::stored::{BLOCK, block_end};
use office_core_store::{StoreFault, stored};
use office_mail::{Body, MailFault, Message, RunOrder, Setup, read_message, ready};
use office_store_keeper::{Keeper, Letter};
use std::alloc::Global;

/// The run order in a kept text, or none. It fails only if memory runs out.
fn read_order(alloc: Global, setup: &Setup, text: &[u8]) -> Result<Option<RunOrder>, NoMemory>
    ensures { IfOk result (λ order. order ≡ order_in setup.now text.now) }
{
    match read_message(alloc, setup, text) {
        Ok(message) => Ok(order_in(message)),
        Err(fault) => no_order(fault),
    }
}

/// What a refused text is: no order, unless memory ran out.
fn no_order(fault: MailFault) -> Result<Option<RunOrder>, NoMemory>
    ensures { IfOk result (λ order. (order ≡ None) × (fault ≡ MailFault.NoMemory → ⊥)) }
{
    match fault {
        MailFault::NoMemory => Err(NoMemory),
        _ => Ok(None),
    }
}

/// The run order in a message, or none.
fn order_in(message: Message) -> Option<RunOrder>
    ensures { result ≡ order_in_body message.body }
{
    match message.body {
        Body::Run(order) => Some(order),
        Body::Item(item) => {
            drop(item);
            None
        }
    }
}

/// The run order of a number, none if it isn't kept.
pub(crate) fn order<K: Keeper>(
    alloc: Global,
    setup: &Setup,
    keeper: &mut K,
    number: u32,
) -> Result<Option<RunOrder>, StoreFault>
    ensures order { K.is_trusted keeper.new → IfOk result (λ order. order ≡ order_at setup.now (K.content keeper.old).kept number) }
    ensures looks { ReadsStore K.Keeper keeper.old keeper.new result }
{
    match stored::find(keeper, setup.runs(), number)? {
        Some(text) => Ok(read_order(alloc, setup, text.as_slice())?),
        None => Ok(None),
    }
}

/// Reads the orders on up to that of a run, as far as they are kept.
pub fn read_orders<K: Keeper>(
    alloc: Global,
    setup: &Setup,
    keeper: &mut K,
    orders: &mut Vec<RunOrder>,
    run: u32,
) -> Result<(), StoreFault>
    requires first { K.is_trusted keeper.old → FirstOrders setup.now (K.content keeper.old).kept orders.old.items }
    ensures first { K.is_trusted keeper.new → FirstOrders setup.now (K.content keeper.old).kept orders.new.items }
    ensures next { length orders.old.items ≤ run → length orders.new.items ≤ run }
    ensures none { K.is_trusted keeper.new → OnOk result (length orders.new.items < run → order_at setup.now (K.content keeper.old).kept (length orders.new.items + 1) ≡ None) }
    ensures looks { ReadsStore K.Keeper keeper.old keeper.new result }
{
    'orders: while orders.len() < run as usize {
        let number = orders.len() as u32 + 1;
        let Some(order) = order(alloc, setup, keeper, number)? else {
            return Ok(());
        };
        orders.push(order)?;
    }
    Ok(())
}

/// Whether no number that an order states is above these, 0 for a sender without an entry.
fn is_within(order: &RunOrder, counts: &[u32]) -> bool
    ensures { IsTrue result ↔ ((sender : ℕ) → slice_index order.now.covers sender ≤ slice_index counts.now sender) }
{
    ready(std::slice::from_ref(order), counts) == 1
}

/// The number up to which letters continue without a gap after another number, at most up to an end.
fn last_in_line(number: u32, end: u32, letters: &[Letter]) -> u32
    requires on { number ≤ end }
    ensures within { result ≤ end }
    ensures goes_on { (kept : Kept) (sender : ℕ) → letters.now ≡ letters_within kept sender (number + 1) end → GoesOn kept sender number result end }
{
    let mut last = number;
    'letters: for letter in letters {
        if last >= end || letter.number != last + 1 {
            return last;
        }
        last += 1;
    }
    last
}

/// The number up to which a sender's numbers continue without a gap after another, at most up to the end of a block.
fn count_block<K: Keeper>(
    keeper: &mut K,
    sender: u32,
    number: u32,
    end: u32,
) -> Result<u32, StoreFault>
    requires on { number < end }
    requires block { end ≤ number + 256 }
    ensures within { IfOk result (λ last. last ≤ end) }
    ensures goes_on { K.is_trusted keeper.new → IfOk result (λ last. GoesOn (K.content keeper.old).kept sender number last end) }
    ensures looks { ReadsStore K.Keeper keeper.old keeper.new result }
{
    let letters = stored::load(keeper, sender, number + 1, end)?;
    Ok(last_in_line(number, end, &letters))
}

/// The size of the next block: twice that of the last one, up to the greatest. So few more texts are loaded than are
/// counted.
fn next_size(size: u32) -> u32
    requires some { 0 < size }
    ensures some { 0 < result }
    ensures room { result ≤ 256 }
{
    if size < BLOCK / 2 { 2 * size } else { BLOCK }
}

/// The number up to which a sender's numbers continue without a gap after another, at most up to a cover.
pub fn count_up<K: Keeper>(
    keeper: &mut K,
    sender: u32,
    known: u32,
    cover: u32,
) -> Result<u32, StoreFault>
    ensures goes_on { K.is_trusted keeper.new → IfOk result (λ count. GoesOn (K.content keeper.old).kept sender known count cover) }
    ensures looks { ReadsStore K.Keeper keeper.old keeper.new result }
{
    let mut count = known;
    let mut size = 1;
    'loads: while count < cover {
        let end = block_end(count, size, cover);
        let last = count_block(keeper, sender, count, end)?;
        if last < end {
            return Ok(last);
        }
        count = end;
        size = next_size(size);
    }
    Ok(count)
}

/// Counts a sender's numbers on from those known to be kept, up to a number: it stops before one that isn't.
pub fn count_on<K: Keeper>(
    keeper: &mut K,
    sender: u32,
    known: u32,
    cover: u32,
) -> Result<u32, StoreFault>
    requires known { K.is_trusted keeper.old → HasNumbers (K.content keeper.old).kept sender known }
    ensures each { K.is_trusted keeper.new → IfOk result (λ count. HasNumbers (K.content keeper.old).kept sender count) }
    ensures gap { K.is_trusted keeper.new → IfOk result (λ count. count < cover → get (K.content keeper.old).kept (sender, count + 1) ≡ None) }
    ensures looks { ReadsStore K.Keeper keeper.old keeper.new result }
{
    count_up(keeper, sender, known, cover)
}

/// Makes room for a sender's count, 0 at first. It fails only if memory runs out; no count changes.
pub fn make_room(counts: &mut Vec<u32>, sender: u32) -> Result<(), NoMemory>
    ensures same { (s : ℕ) → slice_index counts.new.items s ≡ slice_index counts.old.items s }
    ensures room { OnOk result (sender < length counts.new.items) }
{
    let room = sender as usize + 1;
    if counts.len() < room {
        counts.resize(room, 0)?;
    }
    Ok(())
}

/// Counts one sender's numbers on, as far as a cover needs them.
fn reach<K: Keeper>(
    keeper: &mut K,
    counts: &mut Vec<u32>,
    sender: u32,
    cover: u32,
) -> Result<(), StoreFault>
    requires each { K.is_trusted keeper.old → HasEach (K.content keeper.old).kept counts.old.items }
    ensures each { K.is_trusted keeper.new → HasEach (K.content keeper.old).kept counts.new.items }
    ensures gap { K.is_trusted keeper.new → OnOk result (slice_index counts.new.items sender < cover → get (K.content keeper.old).kept (sender, slice_index counts.new.items sender + 1) ≡ None) }
    ensures others { (s : ℕ) → s ≢ sender → slice_index counts.new.items s ≡ slice_index counts.old.items s }
    ensures looks { ReadsStore K.Keeper keeper.old keeper.new result }
{
    make_room(counts, sender)?;
    let place = sender as usize;
    let count = count_on(keeper, sender, counts[place], cover)?;
    counts[place] = count;
    Ok(())
}

/// Counts each sender's numbers on, as far as an order needs them.
pub(crate) fn reach_all<K: Keeper>(
    setup: &Setup,
    keeper: &mut K,
    order: &RunOrder,
    counts: &mut Vec<u32>,
) -> Result<(), StoreFault>
    requires each { K.is_trusted keeper.old → HasEach (K.content keeper.old).kept counts.old.items }
    ensures each { K.is_trusted keeper.new → HasEach (K.content keeper.old).kept counts.new.items }
    ensures reached { K.is_trusted keeper.new → OnOk result ((s : ℕ) → s < length setup.now.senders → IsReached (K.content keeper.old).kept order.now.covers counts.new.items s) }
    ensures looks { ReadsStore K.Keeper keeper.old keeper.new result }
{
    'senders: for sender in 0..setup.senders().len() {
        let cover = stated_for(order, sender);
        reach(keeper, counts, sender as u32, cover)?;
    }
    Ok(())
}

/// Whether each number that an order states is kept, with the numbers before it.
pub(crate) fn is_there<K: Keeper>(
    setup: &Setup,
    keeper: &mut K,
    order: &RunOrder,
    counts: &mut Vec<u32>,
) -> Result<bool, StoreFault>
    requires each { K.is_trusted keeper.old → HasEach (K.content keeper.old).kept counts.old.items }
    ensures each { K.is_trusted keeper.new → HasEach (K.content keeper.old).kept counts.new.items }
    ensures there { K.is_trusted keeper.new → HasPlaces setup.now (K.content keeper.old).kept → IfOk result (λ there. IsTrue there ↔ HasEach (K.content keeper.old).kept order.now.covers) }
    ensures looks { ReadsStore K.Keeper keeper.old keeper.new result }
{
    reach_all(setup, keeper, order, counts)?;
    Ok(is_within(order, counts))
}

/// The number that an order states for a sender, 0 if it has none.
pub fn stated_for(order: &RunOrder, sender: usize) -> u32
    ensures { result ≡ slice_index order.now.covers sender }
{
    order.covers.as_slice().get(sender).copied().unwrap_or(0)
}
