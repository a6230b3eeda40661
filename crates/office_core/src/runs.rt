//! Ready runs, and how they are finished.
#![tactic(auto, using(office_core_store::proofs::LastFacts::lasting))]

ghost use Rattle.std.specs.Prelude.{is_ok, ◌≡◌, ℕ, ◌+◌, ◌<◌, ◌≤◌, ◌↔◌, Some, IsTrue, IfOk, IfSome, OnErr, length, slice_index, if◌then◌else◌};
ghost use Rattle.testing_rules_model.specs.declared.facts.DelaysIn.{DelaysIn as SomeDelays};
ghost use Rattle.office_mail_setup.specs.declared.setup.Role.TheVariants.{Release as TheRelease};
ghost use Rattle.office_mail.specs.Runs.{IsReady, IsReadyCount};
ghost use Rattle.office_mail.specs.Setup.{place_of_role};
ghost use Rattle.office_core_store.specs.Counted.{Counted};
ghost use Rattle.office_core_facts.specs.Known.{AreKnown};
ghost use Rattle.office_core_store.specs.StaysTrusted.{StaysTrusted};
ghost use Rattle.office_core_orders.specs.steps.Ready.{IsCounted};
ghost use Rattle.office_core.specs.steps.StaysOffice.{StaysOffice};
ghost use Rattle.office_core_facts.specs.State.{IsOffice};

use crate::results::next_outcome;
use office_core_facts::covered::KnownFacts;
use office_core_facts::release::release_place;
use office_core_orders::ready::next_is_ready;
use office_core_store::{StoreFault, stored};
use office_mail::{RunOrder, Setup};
use office_store_keeper::Keeper;
use std::alloc::Global;
use testing_rules_model::DelaysIn;

/// Whether these delays, if any, come from the release team, as they do if each text is kept under its own place.
fn are_of_release(setup: &Setup, delays: Option<DelaysIn>) -> bool
    ensures { IsTrue result → (d : SomeDelays) → delays ≡ Some d → d.sender ≡ place_of_role TheRelease setup.now.senders }
{
    match delays {
        Some(delays) => delays.sender == release_place(setup),
        None => true,
    }
}

/// What is known, if a trusted store keeps it so: every number taken is counted, like all that a ready run covers, and
/// the delays are the release team's.
fn counted(setup: &Setup, known: KnownFacts, counts: &[u32]) -> Option<KnownFacts>
    ensures same { IfSome result (λ left. left ≡ known) }
    ensures within { IfSome result (λ left. (s : ℕ) → slice_index left.taken.items s ≤ slice_index counts.now s) }
    ensures release { IfSome result (λ left. (d : SomeDelays) → left.facts.delays ≡ Some d → d.sender ≡ place_of_role TheRelease setup.now.senders) }
{
    if are_counted(&known.taken, counts) && are_of_release(setup, known.facts.delays()) {
        Some(known)
    } else {
        drop(known);
        None
    }
}

/// Whether none of these numbers is greater than its sender's count.
fn are_counted(numbers: &[u32], counts: &[u32]) -> bool
    ensures { IsTrue result → (s : ℕ) → slice_index numbers.now s ≤ slice_index counts.now s }
{
    'senders: for sender in 0..numbers.len() {
        if numbers[sender] > counts.get(sender).copied().unwrap_or(0) {
            return false;
        }
    }
    true
}

/// The next run: the allocator that gives it memory, the setup of its office, and the number of finished runs.
#[derive(Clone, Copy)]
struct NextRun<'a> {
    alloc: Global,
    setup: &'a Setup,
    finished: u32,
}

/// Finishes the next run if it is ready, and returns whether it was.
fn finish_next<K: Keeper>(
    next: &NextRun<'_>,
    keeper: &mut K,
    counts: &mut Vec<u32>,
    orders: &mut Vec<RunOrder>,
    known: &mut Option<KnownFacts>,
) -> Result<bool, StoreFault>
    requires lists { K.setup keeper.old ≡ next.now.setup.now }
    requires known { K.is_trusted keeper.old → IsCounted next.now.setup.now (K.content keeper.old) counts.old.items orders.old.items }
    requires facts { K.is_trusted keeper.old → IfSome known.old (λ known. AreKnown next.now.setup.now (K.content keeper.old) known) }
    requires finished { K.is_trusted keeper.old → next.now.finished ≡ length (K.content keeper.old).reports }
    ensures known { K.is_trusted keeper.new → IsCounted next.now.setup.now (K.content keeper.new) counts.new.items orders.new.items }
    ensures facts { K.is_trusted keeper.new → IfSome known.new (λ known. AreKnown next.now.setup.now (K.content keeper.new) known) }
    ensures ready { K.is_trusted keeper.new → IsOffice next.now.setup.now (K.content keeper.old) → IfOk result (λ ready. IsTrue ready ↔ IsReady next.now.setup.now (K.content keeper.old).kept (next.now.finished + 1)) }
    ensures below { IfOk result (λ ready. IsTrue ready → next.now.finished < 999_999_999) }
    ensures kept { K.is_trusted keeper.new → (K.content keeper.new).kept ≡ (K.content keeper.old).kept }
    ensures reports { K.is_trusted keeper.new → IfOk result (λ ready. length (K.content keeper.new).reports ≡ (if ready then next.now.finished + 1 else next.now.finished)) }
    ensures err { K.is_trusted keeper.new → OnErr result (K.content keeper.new ≡ K.content keeper.old) }
    ensures office { StaysOffice K.Keeper next.now.setup.now keeper.old keeper.new }
    ensures setup { K.setup keeper.new ≡ K.setup keeper.old }
    ensures before { K.is_trusted keeper.new → K.is_trusted keeper.old }
    ensures legible { K.is_trusted keeper.new → K.is_legible keeper.old → IsOffice next.now.setup.now (K.content keeper.old) → K.is_legible keeper.new }
    ensures lasts { StaysTrusted K.Keeper keeper.old keeper.new (is_ok result) }
    ensures counted { Counted (K.refusals keeper.old) (K.refusals keeper.new) result }
{
    let (alloc, setup, finished) = (next.alloc, next.setup, next.finished);
    if !next_is_ready(alloc, setup, keeper, counts, orders, finished)? {
        return Ok(false);
    }
    let before = known.take();
    let (done, mut left) = next_outcome(alloc, setup, keeper, before, orders, finished + 1)?;
    match stored::finish(keeper, finished + 1, done) {
        Ok(()) => {
            left.facts.keep();
            *known = counted(setup, left, counts);
            Ok(true)
        }
        Err(fault) => {
            drop(left);
            Err(fault)
        }
    }
}

/// Finishes the ready runs in order, and returns the number of finished runs.
pub fn settle<K: Keeper>(
    alloc: Global,
    setup: &Setup,
    keeper: &mut K,
    counts: &mut Vec<u32>,
    orders: &mut Vec<RunOrder>,
    known: &mut Option<KnownFacts>,
) -> Result<u32, StoreFault>
    requires lists { K.setup keeper.old ≡ setup.now }
    requires known { K.is_trusted keeper.old → IsCounted setup.now (K.content keeper.old) counts.old.items orders.old.items }
    requires facts { K.is_trusted keeper.old → IfSome known.old (λ known. AreKnown setup.now (K.content keeper.old) known) }
    ensures known { K.is_trusted keeper.new → IsCounted setup.now (K.content keeper.new) counts.new.items orders.new.items }
    ensures facts { K.is_trusted keeper.new → IfSome known.new (λ known. AreKnown setup.now (K.content keeper.new) known) }
    ensures ready { K.is_trusted keeper.new → K.is_legible keeper.old → IsOffice setup.now (K.content keeper.old) → IfOk result (λ n. IsReadyCount setup.now (K.content keeper.old).kept n) }
    ensures finished { K.is_trusted keeper.new → IfOk result (λ n. length (K.content keeper.new).reports ≡ n) }
    ensures grows { K.is_trusted keeper.new → length (K.content keeper.old).reports ≤ length (K.content keeper.new).reports }
    ensures kept { K.is_trusted keeper.new → (K.content keeper.new).kept ≡ (K.content keeper.old).kept }
    ensures office { StaysOffice K.Keeper setup.now keeper.old keeper.new }
    ensures setup { K.setup keeper.new ≡ K.setup keeper.old }
    ensures before { K.is_trusted keeper.new → K.is_trusted keeper.old }
    ensures legible { K.is_trusted keeper.new → K.is_legible keeper.old → IsOffice setup.now (K.content keeper.old) → K.is_legible keeper.new }
    ensures lasts { StaysTrusted K.Keeper keeper.old keeper.new (is_ok result) }
    ensures counted { Counted (K.refusals keeper.old) (K.refusals keeper.new) result }
{
    let mut finished = stored::finished(keeper)?;
    'runs: while finish_next(
        &NextRun {
            alloc,
            setup,
            finished,
        },
        keeper,
        counts,
        orders,
        known,
    )? {
        finished += 1;
    }
    Ok(finished)
}
