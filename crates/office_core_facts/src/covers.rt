//! How far a trial covers each sender.
#![tactic(auto, using(office_core_store::proofs::LastFacts::lasting))]

ghost use Rattle.std.specs.Prelude.{◌≡◌, ◌≤◌, ◌<◌, ℕ, IfOk, length, slice_index};
ghost use Rattle.office_mail.specs.Runs.{cover_of};
ghost use Rattle.office_core_store.specs.ReadsStore.{ReadsStore};
ghost use Rattle.office_core_facts.specs.Seen.{covers_all, IsTrialCover};
ghost use Rattle.office_core_facts.specs.steps.Stands.{OfFinished};

use crate::counts::count_on;
use crate::release::release_place;
use crate::taken::cover_of;
use office_core_store::StoreFault;
use office_mail::{RunOrder, Setup};
use office_store_keeper::Keeper;
use std::alloc::Global;

/// Whether a trial covers all of a sender's mail that is kept without a gap.
fn covers_all(setup: &Setup, all: bool, sender: u32) -> bool
    ensures { result ≡ covers_all setup.now all sender }
{
    (all || sender == release_place(setup)) && sender != setup.runs()
}

/// How far a trial covers a sender, by the orders of the finished runs.
fn trial_cover<K: Keeper>(
    setup: &Setup,
    keeper: &mut K,
    orders: &[RunOrder],
    all: bool,
    sender: u32,
) -> Result<u32, StoreFault>
    ensures cover { K.is_trusted keeper.new → OfFinished setup.now (K.content keeper.old) orders.now
        (IfOk result (λ cover. IsTrialCover setup.now (K.content keeper.old).kept (length (K.content keeper.old).reports) all sender cover)) }
    ensures ahead { IfOk result (λ cover. cover_of orders.now sender ≤ cover) }
    ensures looks { ReadsStore K.Keeper keeper.old keeper.new result }
{
    let known = cover_of(orders, sender as usize);
    if covers_all(setup, all, sender) {
        count_on(keeper, sender, known)
    } else {
        Ok(known)
    }
}

/// How far a trial covers each sender, by the orders of the finished runs.
pub fn trial_covers<K: Keeper>(
    alloc: Global,
    setup: &Setup,
    keeper: &mut K,
    orders: &[RunOrder],
    all: bool,
) -> Result<Vec<u32>, StoreFault>
    ensures covers { K.is_trusted keeper.new → OfFinished setup.now (K.content keeper.old) orders.now
        (IfOk result (λ covers. (s : ℕ) → s < length setup.now.senders → IsTrialCover setup.now (K.content keeper.old).kept (length (K.content keeper.old).reports) all s (slice_index covers.items s))) }
    ensures few { K.is_trusted keeper.new → OfFinished setup.now (K.content keeper.old) orders.now
        (IfOk result (λ covers. (s : ℕ) → slice_index covers.items s ≤ 999_999_999)) }
    ensures ahead { IfOk result (λ covers. (s : ℕ) → s < length setup.now.senders → cover_of orders.now s ≤ slice_index covers.items s) }
    ensures looks { ReadsStore K.Keeper keeper.old keeper.new result }
{
    let mut covers = Vec::new(alloc);
    'senders: for sender in 0..setup.senders().len() {
        covers.push(trial_cover(setup, keeper, orders, all, sender as u32)?)?;
    }
    Ok(covers)
}
