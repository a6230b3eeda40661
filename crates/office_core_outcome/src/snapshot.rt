//! A snapshot of the next run: what is read from the store before a question about that run is answered.
#![tactic(auto, using(office_core_store::proofs::LastFacts::lasting))]

ghost use Rattle.std.specs.Prelude.{◌≡◌, ◌+◌, ◌≤◌, ◌<◌, ℕ, Some, IfOk, IfSome, is_none, length, slice_index};
ghost use Rattle.office_mail.specs.Runs.{cover_of, latest_day, order_at};
ghost use Rattle.office_core_store.specs.ReadsStore.{ReadsStore};
ghost use Rattle.office_core_facts.specs.Known.{AreKnown};
ghost use Rattle.office_core_facts.specs.State.{IsOffice};
ghost use Rattle.office_core_facts.specs.steps.Last.{OfRuns};
ghost use Rattle.office_core_facts.specs.steps.Stands.{OfNext};
ghost use Rattle.office_core_outcome.specs.Trial.{trial_date};
ghost use Rattle.office_core_outcome.specs.steps.Snapshot.{HasTesting, IsFoundSnapshot, IsOrderedSnapshot, IsSnapshot};

use crate::TrialOptions;
use jiff_core::civil::Date;
use office_core_facts::copies::known_to;
use office_core_facts::covered::{KnownFacts, facts};
use office_core_facts::covers::trial_covers;
use office_core_facts::finished::cover_at;
use office_core_facts::last_run::{FinishedRuns, finished_runs};
use office_core_facts::release::release_place;
use office_core_facts::taken::cover_of;
use office_core_orders::orders::read_orders;
use office_core_store::{StoreFault, stored};
use office_mail::{RunOrder, Setup, latest_day};
use office_store_keeper::Keeper;
use std::alloc::Global;
use testing_rules_facts::Facts;
use testing_rules_suites::Testing;

/// The next run: its number and date, the number up to which it covers the release team, the facts of all that it
/// covers, and the testing before it, with what speeds it.
#[derive(Drop)]
pub(crate) struct Snapshot {
    pub run: u32,
    pub date: Date,
    pub behind: u32,
    pub facts: Facts,
    pub testing: Testing,
}

/// The run after the finished ones: its date, and what it covers of each sender.
#[derive(Clone, Copy)]
struct NextRun<'a> {
    date: Date,
    covers: &'a [u32],
}

/// A run whose order has come, given that and those before it.
#[derive(Clone, Copy)]
struct OrderedRun<'a> {
    run: u32,
    date: Date,
    orders: &'a [RunOrder],
}

/// The date of a trial: the later of the last run's date and a given day.
fn trial_date(last: Option<Date>, day: Option<Date>) -> Option<Date>
    ensures { result ≡ trial_date last day }
{
    match (last, day) {
        (None, day) => day,
        (Some(last), None) => Some(last),
        (Some(last), Some(day)) => { if last < day { Some(day) } else { Some(last) } }
    }
}

/// The testing before the run of a snapshot.
pub(crate) fn testing_before(snapshot: Snapshot) -> Testing
    ensures { result ≡ snapshot.testing }
{
    let Snapshot {
        run: _,
        date: _,
        behind: _,
        facts,
        testing,
    } = snapshot;
    drop(facts);
    testing
}

/// The next run over these covers. Its facts begin with a copy of what is known.
fn snapshot_over<K: Keeper>(
    alloc: Global,
    setup: &Setup,
    keeper: &mut K,
    known: &Option<KnownFacts>,
    finished: &FinishedRuns,
    next: &NextRun<'_>,
) -> Result<Snapshot, StoreFault>
    requires ahead { (s : ℕ) → s < length setup.now.senders → cover_of finished.now.orders.items s ≤ slice_index next.now.covers.now s }
    ensures kept { K.is_trusted keeper.new → K.is_legible keeper.new → IfOk result (λ o. o.testing ≡ (K.content keeper.old).testing) }
    ensures is { K.is_trusted keeper.new → K.is_legible keeper.new → OfRuns setup.now (K.content keeper.old) finished.now known.now
        (IfOk result (IsSnapshot setup.now (K.content keeper.old).kept (length (K.content keeper.old).reports) (slice_index next.now.covers.now))) }
    ensures date { IfOk result (λ o. o.date ≡ next.now.date) }
    ensures looks { ReadsStore K.Keeper keeper.old keeper.new result }
{
    let left = known_to(alloc, setup, keeper, known, &finished.orders, next.covers)?;
    let testing = stored::next_testing(keeper)?;
    let KnownFacts { facts, taken } = left;
    drop(taken);
    let run = finished.count.saturating_add(1);
    let behind = cover_at(next.covers, release_place(setup) as usize);
    Ok(Snapshot {
        run,
        date: next.date,
        behind,
        facts,
        testing,
    })
}

/// The run of a trial after these finished runs, unless it has no date.
fn snapshot_after<K: Keeper>(
    alloc: Global,
    setup: &Setup,
    keeper: &mut K,
    known: &Option<KnownFacts>,
    finished: &FinishedRuns,
    terms: TrialOptions,
) -> Result<Option<Snapshot>, StoreFault>
    ensures kept { K.is_trusted keeper.new → K.is_legible keeper.new → IfOk result (HasTesting (K.content keeper.old)) }
    ensures found { K.is_trusted keeper.new → OfRuns setup.now (K.content keeper.old) finished.now known.now (IfOk result (IsFoundSnapshot setup.now (K.content keeper.old) (K.is_legible keeper.new) terms)) }
    ensures looks { ReadsStore K.Keeper keeper.old keeper.new result }
{
    let orders: &[RunOrder] = &finished.orders;
    let covers = trial_covers(alloc, setup, keeper, orders, terms.all)?;
    match trial_date(latest_day(orders), terms.day) {
        Some(date) => {
            let next = NextRun {
                date,
                covers: &covers,
            };
            let snapshot = snapshot_over(alloc, setup, keeper, known, finished, &next)?;
            Ok(Some(snapshot))
        }
        None => Ok(None),
    }
}

/// The run of a trial on these terms, unless it has no date. What is known of the mail is used, or else recalled from
/// the store and known from then on. Its testing is to be given back to the store.
pub(crate) fn trial_snapshot<K: Keeper>(
    alloc: Global,
    setup: &Setup,
    keeper: &mut K,
    known: &mut Option<KnownFacts>,
    terms: TrialOptions,
) -> Result<Option<Snapshot>, StoreFault>
    requires known { K.is_trusted keeper.old → IfSome known.old (λ known. AreKnown setup.now (K.content keeper.old) known) }
    ensures kept { K.is_trusted keeper.new → K.is_legible keeper.new → IfOk result (HasTesting (K.content keeper.old)) }
    ensures found { K.is_trusted keeper.new → IsOffice setup.now (K.content keeper.old) → IfOk result (IsFoundSnapshot setup.now (K.content keeper.old) (K.is_legible keeper.new) terms) }
    ensures known { K.is_trusted keeper.new → IfSome known.new (λ known. AreKnown setup.now (K.content keeper.new) known) }
    ensures looks { ReadsStore K.Keeper keeper.old keeper.new result }
{
    let finished = finished_runs(alloc, setup, keeper, known)?;
    snapshot_after(alloc, setup, keeper, known, &finished, terms)
}

/// The next run as its order has it, given that and those of the finished runs.
fn ordered_over<K: Keeper>(
    alloc: Global,
    setup: &Setup,
    keeper: &mut K,
    before: Option<KnownFacts>,
    next: &OrderedRun<'_>,
) -> Result<Snapshot, StoreFault>
    requires known { K.is_trusted keeper.old → IfSome before (λ known. AreKnown setup.now (K.content keeper.old) known) }
    ensures kept { K.is_trusted keeper.new → K.is_legible keeper.new → IfOk result (λ o. o.testing ≡ (K.content keeper.old).testing) }
    ensures is { K.is_trusted keeper.new → K.is_legible keeper.new → OfNext setup.now (K.content keeper.old) next.now.orders.now
        (next.now.run ≡ length next.now.orders.now → latest_day next.now.orders.now ≡ Some next.now.date → IfOk result (IsOrderedSnapshot setup.now (K.content keeper.old).kept (length (K.content keeper.old).reports))) }
    ensures looks { ReadsStore K.Keeper keeper.old keeper.new result }
{
    let left = facts(alloc, setup, keeper, before, next.orders)?;
    let testing = stored::next_testing(keeper)?;
    let KnownFacts { facts, taken } = left;
    drop(taken);
    let behind = cover_of(next.orders, release_place(setup) as usize);
    Ok(Snapshot {
        run: next.run,
        date: next.date,
        behind,
        facts,
        testing,
    })
}

/// The next run as its order has it, unless that hasn't come. What is known of the mail is used. Its testing is to be
/// given back to the store.
pub(crate) fn ordered_snapshot<K: Keeper>(
    alloc: Global,
    setup: &Setup,
    keeper: &mut K,
    before: Option<KnownFacts>,
) -> Result<Option<Snapshot>, StoreFault>
    requires known { K.is_trusted keeper.old → IfSome before (λ known. AreKnown setup.now (K.content keeper.old) known) }
    ensures kept { K.is_trusted keeper.new → K.is_legible keeper.new → IfOk result (HasTesting (K.content keeper.old)) }
    ensures is { K.is_trusted keeper.new → K.is_legible keeper.new → IsOffice setup.now (K.content keeper.old)
        → IfOk result (λ found. IfSome found (IsOrderedSnapshot setup.now (K.content keeper.old).kept (length (K.content keeper.old).reports))) }
    ensures ordered { K.is_trusted keeper.new → IsOffice setup.now (K.content keeper.old)
        → IfOk result (λ found. is_none found ≡ is_none (order_at setup.now (K.content keeper.old).kept (length (K.content keeper.old).reports + 1))) }
    ensures looks { ReadsStore K.Keeper keeper.old keeper.new result }
{
    let finished = stored::finished(keeper)?;
    let run = finished.saturating_add(1);
    let mut orders = Vec::new(alloc);
    read_orders(alloc, setup, keeper, &mut orders, run)?;
    if orders.len() != run as usize {
        return Ok(None);
    }
    let Some(date) = latest_day(&orders) else {
        return Ok(None);
    };
    let next = OrderedRun {
        run,
        date,
        orders: &orders,
    };
    let snapshot = ordered_over(alloc, setup, keeper, before, &next)?;
    Ok(Some(snapshot))
}
