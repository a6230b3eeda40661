//! The last finished run, loaded from the store before anything is decided by it.
#![tactic(auto, using(office_core_store::proofs::LastFacts::lasting))]

ghost use Rattle.std.specs.Prelude.{◌≡◌, IfOk, IfSome, length};
ghost use Rattle.testing_rules_model.specs.StandsFor.{StandsFor};
ghost use Rattle.office_core_store.specs.ReadsStore.{ReadsStore};
ghost use Rattle.office_core_facts.specs.Known.{AreKnown};
ghost use Rattle.office_core_facts.specs.Outcome.{covered_items};
ghost use Rattle.office_core_facts.specs.steps.Last.{AreFinished, IsLastRun, OfRuns, ReadsWell, facts_in};
ghost use Rattle.office_core_facts.specs.steps.Stands.{OfFinished};

use crate::covered::{KnownFacts, covers};
use crate::finished::{facts_within, finished_orders, remember};
use jiff_core::civil::Date;
use office_core_store::{StoreFault, stored};
use office_mail::{RunOrder, Setup, latest_day};
use office_store_keeper::Keeper;
use std::alloc::Global;
use testing_rules_facts::Facts;
use testing_rules_suites::Testing;

/// How many runs are finished, and their orders.
#[derive(Drop)]
pub struct FinishedRuns {
    pub count: u32,
    pub orders: Vec<RunOrder>,
}

/// The facts of the mail that the finished runs cover: lent by what is known, or else taken from the store and owned.
#[derive(Drop)]
pub enum RunFacts<'k> {
    Known(&'k KnownFacts),
    Taken(KnownFacts),
}

/// The last finished run: its number and date, the facts of the mail that it covers, and the testing that it left.
#[derive(Drop)]
pub struct LastRun<'k> {
    pub number: u32,
    pub date: Date,
    pub facts: RunFacts<'k>,
    pub testing: Testing,
}

/// How many runs are finished, and their orders. If nothing is known of their mail yet, `known` gets what the store keeps
/// of it, and stays empty if that isn't whole.
///
/// It fails only if memory runs out or the store fails.
pub fn finished_runs<K: Keeper>(
    alloc: Global,
    setup: &Setup,
    keeper: &mut K,
    known: &mut Option<KnownFacts>,
) -> Result<FinishedRuns, StoreFault>
    requires known { K.is_trusted keeper.old → IfSome known.old (λ known. AreKnown setup.now (K.content keeper.old) known) }
    ensures finished { K.is_trusted keeper.new → IfOk result (AreFinished setup.now (K.content keeper.old)) }
    ensures known { K.is_trusted keeper.new → IfSome known.new (λ known. AreKnown setup.now (K.content keeper.new) known) }
    ensures looks { ReadsStore K.Keeper keeper.old keeper.new result }
{
    let count = stored::finished(keeper)?;
    let orders = finished_orders(alloc, setup, keeper, count)?;
    remember(alloc, setup, keeper, known, &orders, count)?;
    Ok(FinishedRuns { count, orders })
}

/// The facts of the mail that the finished runs cover, given their orders, taken from the store.
fn taken_facts<'k, K: Keeper>(
    alloc: Global,
    setup: &Setup,
    keeper: &mut K,
    orders: &[RunOrder],
) -> Result<RunFacts<'k>, StoreFault>
    ensures stand { K.is_trusted keeper.new → OfFinished setup.now (K.content keeper.old) orders.now
        (IfOk result (λ facts. StandsFor (facts_in facts) (covered_items setup.now (K.content keeper.old).kept (length (K.content keeper.old).reports)) (K.content keeper.old).testing)) }
    ensures looks { ReadsStore K.Keeper keeper.old keeper.new result }
{
    let covers = covers(alloc, setup, orders)?;
    let known = facts_within(alloc, setup, keeper, orders, &covers)?;
    Ok(RunFacts::Taken(known))
}

/// The facts of the mail that the finished runs cover, given their orders: the known ones, or else the store's.
fn run_facts<'k, K: Keeper>(
    alloc: Global,
    setup: &Setup,
    keeper: &mut K,
    known: &'k Option<KnownFacts>,
    orders: &[RunOrder],
) -> Result<RunFacts<'k>, StoreFault>
    ensures stand { K.is_trusted keeper.new → OfFinished setup.now (K.content keeper.old) orders.now (IfSome known.now (λ known. AreKnown setup.now (K.content keeper.old) known)
        → IfOk result (λ facts. StandsFor (facts_in facts) (covered_items setup.now (K.content keeper.old).kept (length (K.content keeper.old).reports)) (K.content keeper.old).testing)) }
    ensures looks { ReadsStore K.Keeper keeper.old keeper.new result }
{
    match known {
        Some(known) => Ok(RunFacts::Known(known)),
        None => taken_facts(alloc, setup, keeper, orders),
    }
}

/// Loads the last one of the finished runs; none if no run is finished. Its facts are the known ones, which are lent, or
/// else taken from the store. Its testing comes with what speeds the next run, and should be given back.
///
/// It fails only if memory runs out or the store fails.
pub fn load_last_run<'k, K: Keeper>(
    alloc: Global,
    setup: &Setup,
    keeper: &mut K,
    known: &'k Option<KnownFacts>,
    finished: &FinishedRuns,
) -> Result<Option<LastRun<'k>>, StoreFault>
    ensures last { K.is_trusted keeper.new → K.is_legible keeper.old → OfRuns setup.now (K.content keeper.old) finished.now known.now
        (IfOk result (IsLastRun setup.now (K.content keeper.old).kept (length (K.content keeper.old).reports))) }
    ensures testing { K.is_trusted keeper.new → K.is_legible keeper.new → IfOk result (λ found. IfSome found (λ last. last.testing ≡ (K.content keeper.new).testing)) }
    ensures looks { ReadsStore K.Keeper keeper.old keeper.new result }
{
    let Some(date) = latest_day(&finished.orders) else {
        return Ok(None);
    };
    let facts = run_facts(alloc, setup, keeper, known, &finished.orders)?;
    match stored::next_testing(keeper) {
        Ok(testing) => Ok(Some(LastRun {
            number: finished.count,
            date,
            facts,
            testing,
        })),
        Err(fault) => {
            drop(facts);
            Err(fault)
        }
    }
}

/// The facts of a loaded run.
pub fn facts_of<'a>(facts: &'a RunFacts<'_>) -> &'a Facts
    ensures { result.now ≡ facts_in facts.now }
{
    match facts {
        RunFacts::Known(known) => &known.facts,
        RunFacts::Taken(known) => &known.facts,
    }
}

/// The testing of a loaded run; what else was loaded is dropped.
pub fn testing_of(last: LastRun<'_>) -> Testing
    ensures { result ≡ last.entry.testing }
{
    let LastRun {
        number: _,
        date: _,
        facts,
        testing,
    } = last;
    drop(facts);
    testing
}

/// Gives a testing back to its store, with what speeds the next run.
pub fn give_back<K: Keeper>(keeper: &mut K, testing: Testing)
    requires same { K.is_trusted keeper.old → K.is_legible keeper.old → testing ≡ (K.content keeper.old).testing }
    ensures { ReadsWell K.Keeper keeper.old keeper.new }
{
    keeper.give_back(testing);
}
