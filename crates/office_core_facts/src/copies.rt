//! A copy of what is known of the finished runs, taken on as far as covers reach: the original stays as it is.
#![tactic(auto, using(office_core_store::proofs::LastFacts::lasting))]

ghost use Rattle.std.specs.Prelude.{◌≡◌, ◌≤◌, ◌<◌, ℕ, IfOk, IfSome, length, slice_index};
ghost use Rattle.office_mail.specs.Runs.{cover_of};
ghost use Rattle.office_core_store.specs.ReadsStore.{ReadsStore};
ghost use Rattle.office_core_facts.specs.Known.{AreKnown};
ghost use Rattle.office_core_facts.specs.steps.Stands.{OfFinished, StandUpTo};

use crate::covered::{KnownFacts, is_covered};
use crate::finished::{facts_within, take_to};
use deb_control::NoMemory;
use office_core_store::StoreFault;
use office_mail::{RunOrder, Setup};
use office_store_keeper::Keeper;
use std::alloc::Global;

/// A copy of what is known.
fn copy_known(alloc: Global, known: &KnownFacts) -> Result<KnownFacts, NoMemory>
    ensures facts { IfOk result (λ copy. copy.facts ≡ known.now.facts) }
    ensures taken { IfOk result (λ copy. copy.taken.items ≡ known.now.taken.items) }
{
    let mut taken = Vec::new(alloc);
    taken.extend_from_slice(&known.taken)?;
    let facts = known.facts.copy()?;
    Ok(KnownFacts { facts, taken })
}

/// A copy of what is known of the finished runs, taken on up to these covers. If what is known goes further than these
/// orders cover, the store's facts are taken on instead.
fn copied_to<K: Keeper>(
    alloc: Global,
    setup: &Setup,
    keeper: &mut K,
    known: &KnownFacts,
    orders: &[RunOrder],
    covers: &[u32],
) -> Result<KnownFacts, StoreFault>
    requires ahead { (s : ℕ) → s < length setup.now.senders → cover_of orders.now s ≤ slice_index covers.now s }
    ensures stand { K.is_trusted keeper.new → OfFinished setup.now (K.content keeper.old) orders.now (AreKnown setup.now (K.content keeper.old) known.now
        → IfOk result (λ left. StandUpTo setup.now (K.content keeper.old) (slice_index covers.now) left.facts)) }
    ensures looks { ReadsStore K.Keeper keeper.old keeper.new result }
{
    if !is_covered(&known.taken, orders) {
        return facts_within(alloc, setup, keeper, orders, covers);
    }
    let mut copy = copy_known(alloc, known)?;
    take_to(alloc, setup, keeper, &mut copy, covers)?;
    Ok(copy)
}

/// The facts up to these covers, given the orders of the finished runs, which cover no more. They begin with a copy of
/// what is known of these runs, or else with what the store keeps.
///
/// It fails only if memory runs out or the store fails.
pub fn known_to<K: Keeper>(
    alloc: Global,
    setup: &Setup,
    keeper: &mut K,
    known: &Option<KnownFacts>,
    orders: &[RunOrder],
    covers: &[u32],
) -> Result<KnownFacts, StoreFault>
    requires ahead { (s : ℕ) → s < length setup.now.senders → cover_of orders.now s ≤ slice_index covers.now s }
    ensures stand { K.is_trusted keeper.new → OfFinished setup.now (K.content keeper.old) orders.now (IfSome known.now (λ known. AreKnown setup.now (K.content keeper.old) known)
        → IfOk result (λ left. StandUpTo setup.now (K.content keeper.old) (slice_index covers.now) left.facts)) }
    ensures looks { ReadsStore K.Keeper keeper.old keeper.new result }
{
    match known {
        Some(known) => copied_to(alloc, setup, keeper, known, orders, covers),
        None => facts_within(alloc, setup, keeper, orders, covers),
    }
}
