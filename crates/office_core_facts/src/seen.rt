//! What a run would see if its order covered all mail that is kept without a gap.
#![tactic(auto, using(office_core_store::proofs::LastFacts::lasting))]

ghost use Rattle.std.specs.Prelude.{◌≡◌, ◌≤◌, ◌<◌, ℕ, IfOk, IfSome, length, slice_index};
ghost use Rattle.testing_rules_model.specs.Covered.{Covered};
ghost use Rattle.testing_rules_model.specs.StandsFor.{StandsFor};
ghost use Rattle.office_mail.specs.Lists.{Lists};
ghost use Rattle.office_mail.specs.Runs.{cover_of};
ghost use Rattle.office_core_store.specs.ReadsStore.{ReadsStore};
ghost use Rattle.office_core_facts.specs.Known.{AreKnown};
ghost use Rattle.office_core_facts.specs.Seen.{IsSeen, IsUnbroken};
ghost use Rattle.office_core_facts.specs.steps.Stands.{OfFinished};

use crate::copies::known_to;
use crate::counts::count_on;
use crate::covered::KnownFacts;
use crate::taken::cover_of;
use office_core_store::StoreFault;
use office_mail::{RunOrder, Setup};
use office_store_keeper::Keeper;
use std::alloc::Global;

/// The number up to which a sender's mail continues without a gap, given the orders of the finished runs: it does so up
/// to what they cover.
fn seen_cover<K: Keeper>(
    keeper: &mut K,
    orders: &[RunOrder],
    sender: u32,
) -> Result<u32, StoreFault>
    ensures unbroken { (setup : Lists) → K.is_trusted keeper.new → OfFinished setup (K.content keeper.old) orders.now
        (IfOk result (IsUnbroken (K.content keeper.old).kept sender)) }
    ensures ahead { IfOk result (λ cover. cover_of orders.now sender ≤ cover) }
    ensures looks { ReadsStore K.Keeper keeper.old keeper.new result }
{
    let known = cover_of(orders, sender as usize);
    count_on(keeper, sender, known)
}

/// How far each sender's mail continues without a gap, given the orders of the finished runs.
fn seen_covers<K: Keeper>(
    alloc: Global,
    setup: &Setup,
    keeper: &mut K,
    orders: &[RunOrder],
) -> Result<Vec<u32>, StoreFault>
    ensures unbroken { K.is_trusted keeper.new → OfFinished setup.now (K.content keeper.old) orders.now
        (IfOk result (λ covers. (s : ℕ) → s < length setup.now.senders → IsUnbroken (K.content keeper.old).kept s (slice_index covers.items s))) }
    ensures ahead { IfOk result (λ covers. (s : ℕ) → s < length setup.now.senders → cover_of orders.now s ≤ slice_index covers.items s) }
    ensures looks { ReadsStore K.Keeper keeper.old keeper.new result }
{
    let mut covers = Vec::new(alloc);
    'senders: for sender in 0..setup.senders().len() {
        covers.push(seen_cover(keeper, orders, sender as u32)?)?;
    }
    Ok(covers)
}

/// The facts of all mail that is kept without a gap, given the orders of the finished runs. They begin with a copy of
/// what is known of these runs, or else with what the store keeps.
///
/// It fails only if memory runs out or the store fails.
pub fn seen_facts<K: Keeper>(
    alloc: Global,
    setup: &Setup,
    keeper: &mut K,
    known: &Option<KnownFacts>,
    orders: &[RunOrder],
) -> Result<KnownFacts, StoreFault>
    ensures stand { K.is_trusted keeper.new → OfFinished setup.now (K.content keeper.old) orders.now (IfSome known.now (λ known. AreKnown setup.now (K.content keeper.old) known)
        → IfOk result (λ left. (seen : Covered) × IsSeen setup.now (K.content keeper.old).kept seen × StandsFor left.facts seen (K.content keeper.old).testing)) }
    ensures looks { ReadsStore K.Keeper keeper.old keeper.new result }
{
    let covers = seen_covers(alloc, setup, keeper, orders)?;
    known_to(alloc, setup, keeper, known, orders, &covers)
}
