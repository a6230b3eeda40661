//! The facts of the finished runs: put back from the store, and taken on as far as covers reach.
#![tactic(auto, using(office_core_store::proofs::LastFacts::lasting))]

ghost use Rattle.std.specs.Prelude.{◌≡◌, ◌≤◌, ◌<◌, ℕ, IsTrue, IfOk, IfSome, OnOk, length, slice_index};
ghost use Rattle.testing_rules_model.specs.FactLists.{no_facts};
ghost use Rattle.testing_rules_model.specs.StandsFor.{StandsFor};
ghost use Rattle.testing_rules_model.specs.Suite.{Suite};
ghost use Rattle.office_mail.specs.Runs.{cover_of, orders_to};
ghost use Rattle.office_store_keeper.specs.FactSet.{rows_in};
ghost use Rattle.office_core_store.specs.ReadsStore.{ReadsStore};
ghost use Rattle.office_core_orders.specs.Ready.{HasEach};
ghost use Rattle.office_core_orders.specs.steps.Ready.{FirstOrders};
ghost use Rattle.office_core_facts.specs.Known.{AreKnown, said_all};
ghost use Rattle.office_core_facts.specs.State.{IsOffice};
ghost use Rattle.office_core_facts.specs.steps.Taking.{HavePutBack};
ghost use Rattle.office_core_facts.specs.steps.Walk.{said_within};
ghost use Rattle.office_core_facts.specs.steps.Stands.{OfFinished, StandUpTo};

use crate::covered::{KnownFacts, finished_facts, has_all, known_at, take_on};
use crate::restored::put_back;
use office_core_orders::orders::{count_on, read_orders};
use office_core_store::{StoreFault, stored};
use office_mail::{RunOrder, Setup};
use office_store_keeper::Keeper;
use std::alloc::Global;
use testing_rules_facts::Facts;
use testing_rules_model::FactRow;

/// The orders of the finished runs.
pub fn finished_orders<K: Keeper>(
    alloc: Global,
    setup: &Setup,
    keeper: &mut K,
    finished: u32,
) -> Result<Vec<RunOrder>, StoreFault>
    ensures first { K.is_trusted keeper.new → IfOk result (λ orders. FirstOrders setup.now (K.content keeper.old).kept orders.items) }
    ensures orders { K.is_trusted keeper.new → IsOffice setup.now (K.content keeper.old) → finished ≡ length (K.content keeper.old).reports
        → IfOk result (λ orders. orders.items ≡ orders_to setup.now (K.content keeper.old).kept (length (K.content keeper.old).reports)) }
    ensures all { K.is_trusted keeper.new → IsOffice setup.now (K.content keeper.old) → finished ≡ length (K.content keeper.old).reports
        → IfOk result (λ orders. length orders.items ≡ length (K.content keeper.old).reports) }
    ensures looks { ReadsStore K.Keeper keeper.old keeper.new result }
{
    let mut orders = Vec::new(alloc);
    read_orders(alloc, setup, keeper, &mut orders, finished)?;
    Ok(orders)
}

/// The number up to which a sender is covered, 0 if it has no cover.
pub fn cover_at(covers: &[u32], sender: usize) -> u32
    ensures { result ≡ slice_index covers.now sender }
{
    covers.get(sender).copied().unwrap_or(0)
}

/// Adds to what is known each sender's messages up to its cover.
pub(crate) fn take_to<K: Keeper>(
    alloc: Global,
    setup: &Setup,
    keeper: &mut K,
    known: &mut KnownFacts,
    covers: &[u32],
) -> Result<(), StoreFault>
    requires within { (s : ℕ) → s < length setup.now.senders → slice_index known.old.taken.items s ≤ slice_index covers.now s }
    ensures stand { K.is_trusted keeper.new → OnOk result ((t : Suite) → let kept = (K.content keeper.old).kept in let n = length setup.now.senders in
        StandsFor known.old.facts (said_within setup.now kept (slice_index known.old.taken.items) n) t → StandsFor known.new.facts (said_within setup.now kept (slice_index covers.now) n) t) }
    ensures looks { ReadsStore K.Keeper keeper.old keeper.new result }
{
    'senders: for sender in 0..setup.senders().len() {
        let cover = cover_at(covers, sender);
        take_on(alloc, setup, keeper, known, sender as u32, cover)?;
    }
    Ok(())
}

/// What the store keeps of the finished runs, given their orders, taken up to these covers, which aren't below theirs.
pub(crate) fn facts_within<K: Keeper>(
    alloc: Global,
    setup: &Setup,
    keeper: &mut K,
    orders: &[RunOrder],
    covers: &[u32],
) -> Result<KnownFacts, StoreFault>
    requires ahead { (s : ℕ) → s < length setup.now.senders → cover_of orders.now s ≤ slice_index covers.now s }
    ensures stand { K.is_trusted keeper.new → OfFinished setup.now (K.content keeper.old) orders.now
        (IfOk result (λ known. StandUpTo setup.now (K.content keeper.old) (slice_index covers.now) known.facts)) }
    ensures looks { ReadsStore K.Keeper keeper.old keeper.new result }
{
    let mut known = finished_facts(alloc, setup, keeper, orders)?;
    take_to(alloc, setup, keeper, &mut known, covers)?;
    Ok(known)
}

/// Whether there are no more numbers than senders.
fn are_few(setup: &Setup, numbers: &[u32]) -> bool
    ensures { IsTrue result → length numbers.now ≤ length setup.now.senders }
{
    numbers.len() <= setup.senders().len()
}

/// Whether each sender's numbers from 1 up to its own in this list are kept.
fn are_kept<K: Keeper>(setup: &Setup, keeper: &mut K, numbers: &[u32]) -> Result<bool, StoreFault>
    ensures each { K.is_trusted keeper.new → IfOk result (λ kept. IsTrue kept → HasEach (K.content keeper.old).kept numbers.now) }
    ensures looks { ReadsStore K.Keeper keeper.old keeper.new result }
{
    if !are_few(setup, numbers) {
        return Ok(false);
    }
    'senders: for sender in 0..setup.senders().len() {
        let number = cover_at(numbers, sender);
        let last = count_on(keeper, sender as u32, 0, number)?;
        if last < number {
            return Ok(false);
        }
    }
    Ok(true)
}

/// What is known, if each number taken is kept.
fn if_kept<K: Keeper>(
    setup: &Setup,
    keeper: &mut K,
    known: KnownFacts,
) -> Result<Option<KnownFacts>, StoreFault>
    ensures same { IfOk result (λ found. IfSome found (λ left. left ≡ known)) }
    ensures each { K.is_trusted keeper.new → IfOk result (λ found. IfSome found (λ left. HasEach (K.content keeper.old).kept left.taken.items)) }
    ensures looks { ReadsStore K.Keeper keeper.old keeper.new result }
{
    match are_kept(setup, keeper, &known.taken) {
        Ok(true) => Ok(Some(known)),
        Ok(false) => {
            drop(known);
            Ok(None)
        }
        Err(fault) => {
            drop(known);
            Err(fault)
        }
    }
}

/// What is known from rows of facts that were put back; none if the facts don't have all of these rows, or if a covered
/// number isn't kept.
fn recalled<K: Keeper>(
    alloc: Global,
    setup: &Setup,
    keeper: &mut K,
    orders: &[RunOrder],
    rows: &[FactRow],
    facts: Facts,
) -> Result<Option<KnownFacts>, StoreFault>
    ensures known { K.is_trusted keeper.new → rows.now ≡ rows_in (K.content keeper.old).facts → HavePutBack (said_all setup.now (K.content keeper.old).kept) rows.now no_facts facts
        → FirstOrders setup.now (K.content keeper.old).kept orders.now → length orders.now ≡ length (K.content keeper.old).reports
        → IfOk result (λ found. IfSome found (λ known. AreKnown setup.now (K.content keeper.old) known)) }
    ensures looks { ReadsStore K.Keeper keeper.old keeper.new result }
{
    if !has_all(&facts, rows) {
        drop(facts);
        return Ok(None);
    }
    let known = known_at(alloc, setup, orders, facts)?;
    if_kept(setup, keeper, known)
}

/// What is known of the finished runs, given their orders, from the rows of facts in the store. There is none if these
/// aren't what kept mail says, or if a covered number isn't kept: no office leaves that.
pub fn recall<K: Keeper>(
    alloc: Global,
    setup: &Setup,
    keeper: &mut K,
    orders: &[RunOrder],
) -> Result<Option<KnownFacts>, StoreFault>
    ensures known { K.is_trusted keeper.new → FirstOrders setup.now (K.content keeper.old).kept orders.now → length orders.now ≡ length (K.content keeper.old).reports
        → IfOk result (λ found. IfSome found (λ known. AreKnown setup.now (K.content keeper.old) known)) }
    ensures looks { ReadsStore K.Keeper keeper.old keeper.new result }
{
    let rows = stored::facts(keeper)?;
    let facts = put_back(alloc, setup, keeper, rows.as_slice())?;
    recalled(alloc, setup, keeper, orders, rows.as_slice(), facts)
}

/// Whether these are the orders of that many runs.
fn are_all(orders: &[RunOrder], run: u32) -> bool
    ensures { IsTrue result → length orders.now ≡ run }
{
    orders.len() == run as usize
}

/// Recalls what is known of the finished runs, given their orders, if nothing is known yet.
pub fn remember<K: Keeper>(
    alloc: Global,
    setup: &Setup,
    keeper: &mut K,
    known: &mut Option<KnownFacts>,
    orders: &[RunOrder],
    run: u32,
) -> Result<(), StoreFault>
    ensures known { K.is_trusted keeper.new → FirstOrders setup.now (K.content keeper.old).kept orders.now → run ≡ length (K.content keeper.old).reports
        → IfSome known.old (λ known. AreKnown setup.now (K.content keeper.old) known) → IfSome known.new (λ known. AreKnown setup.now (K.content keeper.old) known) }
    ensures looks { ReadsStore K.Keeper keeper.old keeper.new result }
{
    if known.is_some() {
        return Ok(());
    }
    if !are_all(orders, run) {
        return Ok(());
    }
    *known = recall(alloc, setup, keeper, orders)?;
    Ok(())
}
