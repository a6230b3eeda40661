//! What a run leaves.
#![tactic(auto, using(office_core_store::proofs::LastFacts::lasting))]

ghost use Rattle.std.specs.Prelude.{◌≡◌, ℕ, ◌+◌, ◌<◌, IfOk, IfSome, OnOk, length, slice_index};
ghost use Rattle.testing_rules_model.specs.Covered.{Covered};
ghost use Rattle.testing_rules_model.specs.FactDifference.{IsDifference};
ghost use Rattle.testing_rules_model.specs.KeptFacts.{KeptFacts};
ghost use Rattle.testing_rules_model.specs.StandsFor.{StandsFor};
ghost use Rattle.testing_rules_model.specs.Watched.{AllWatchedWork};
ghost use Rattle.office_mail.specs.Runs.{cover_of};
ghost use Rattle.office_store_keeper.specs.FactSet.{AreHoldable, facts_after};
ghost use Rattle.office_store_keeper.specs.Provenance.{AreOwnTexts, IsGiven, KnowsArchs};
ghost use Rattle.office_core_facts.specs.Known.{AreKnown, AreUnderWay};
ghost use Rattle.office_core_store.specs.ReadsStore.{ReadsStore};
ghost use Rattle.office_core_facts.specs.Outcome.{outcome, outcome_of};
ghost use Rattle.office_core_facts.specs.steps.Outcome.{outcome_in};
ghost use Rattle.office_core_orders.specs.steps.Ready.{FirstOrders};
ghost use Rattle.office_core_facts.specs.State.{IsOffice};
ghost use Rattle.office_core_facts.specs.steps.Walk.{said_within};

use jiff_core::civil::Date;
use office_core_facts::covered::{KnownFacts, facts};
use office_core_facts::retaken::follow_testing;
use office_core_outcome::run_beside;
use office_core_store::{StoreFault, stored};
use office_mail::{RunOrder, Setup, latest_day};
use office_store_keeper::{Finished, Keeper};
use std::alloc::Global;

/// What a run leaves, given its order and those before it; and what is known for the next one.
pub fn next_outcome<K: Keeper>(
    alloc: Global,
    setup: &Setup,
    keeper: &mut K,
    before: Option<KnownFacts>,
    orders: &[RunOrder],
    run: u32,
) -> Result<(Finished, KnownFacts), StoreFault>
    requires known { K.is_trusted keeper.old → IfSome before (λ known. AreKnown setup.now (K.content keeper.old) known) }
    requires some { 0 < length orders.now }
    requires lists { K.setup keeper.old ≡ setup.now }
    ensures outcome { K.is_trusted keeper.new → K.is_legible keeper.old → IsOffice setup.now (K.content keeper.old) → FirstOrders setup.now (K.content keeper.old).kept orders.now → length orders.now ≡ length (K.content keeper.old).reports + 1 → run ≡ length (K.content keeper.old).reports + 1
        → IfOk result (λ left. outcome_in left.0 ≡ outcome_of setup.now (K.content keeper.old).kept run) }
    ensures watched { K.is_trusted keeper.new → K.is_legible keeper.old → AllWatchedWork setup.now.archs (K.content keeper.old).testing.rows → IfOk result (λ left. AllWatchedWork setup.now.archs left.0.testing.rows) }
    ensures known { K.is_trusted keeper.new → IfOk result (λ left. KnowsArchs setup.now.archs left.0.testing.rows) }
    ensures given { K.is_trusted keeper.new → K.is_legible keeper.old → AreOwnTexts setup.now (K.content keeper.old).kept → IfOk result (λ left. IsGiven setup.now (K.content keeper.old) left.0.testing) }
    // The facts that go with the new testing. Trust alone determines only their rows and how these changed.
    ensures kept { K.is_trusted keeper.new → K.is_legible keeper.old → IsOffice setup.now (K.content keeper.old) → FirstOrders setup.now (K.content keeper.old).kept orders.now → length orders.now ≡ length (K.content keeper.old).reports + 1
        → IfOk result (λ left. KeptFacts left.1.facts (said_within setup.now (K.content keeper.old).kept (cover_of orders.now) (length setup.now.senders)) left.0.testing) }
    ensures way { K.is_trusted keeper.new → IfOk result (λ left. AreUnderWay setup.now (K.content keeper.old) left.1.facts) }
    ensures held { K.is_trusted keeper.new → AreOwnTexts setup.now (K.content keeper.old).kept → IfOk result (λ left. AreHoldable setup.now (facts_after left.0.facts (K.content keeper.old).facts)) }
    ensures difference { IfOk result (λ left. IsDifference left.1.facts.came left.1.facts.left left.0.facts.put left.0.facts.gone) }
    ensures taken { IfOk result (λ left. (s : ℕ) → s < length setup.now.senders → slice_index left.1.taken.items s ≡ cover_of orders.now s) }
    ensures looks { ReadsStore K.Keeper keeper.old keeper.new result }
{
    let Some(date) = latest_day(orders) else {
        unreachable!()
    };
    let mut known = facts(alloc, setup, keeper, before, orders)?;
    match decide_run(alloc, setup, keeper, &mut known, run, date) {
        Ok(done) => Ok((done, known)),
        Err(fault) => {
            drop(known);
            Err(fault)
        }
    }
}

/// Decides a run of a date from what is known. The facts known behind it go with the testing that it leaves.
fn decide_run<K: Keeper>(
    alloc: Global,
    setup: &Setup,
    keeper: &mut K,
    known: &mut KnownFacts,
    run: u32,
    date: Date,
) -> Result<Finished, StoreFault>
    requires lists { K.setup keeper.old ≡ setup.now }
    ensures outcome { K.is_trusted keeper.new → K.is_legible keeper.old → IfOk result (λ done. (s : Covered) → StandsFor known.old.facts s (K.content keeper.old).testing → outcome_in done ≡ outcome setup.now run date s (K.content keeper.old).testing) }
    ensures watched { K.is_trusted keeper.new → K.is_legible keeper.old → AllWatchedWork setup.now.archs (K.content keeper.old).testing.rows → IfOk result (λ done. AllWatchedWork setup.now.archs done.testing.rows) }
    ensures known { K.is_trusted keeper.new → AreUnderWay setup.now (K.content keeper.old) known.old.facts → IfOk result (λ done. KnowsArchs setup.now.archs done.testing.rows) }
    ensures given { K.is_trusted keeper.new → K.is_legible keeper.old → AreUnderWay setup.now (K.content keeper.old) known.old.facts → AreOwnTexts setup.now (K.content keeper.old).kept → IfOk result (λ done. IsGiven setup.now (K.content keeper.old) done.testing) }
    ensures kept { K.is_trusted keeper.new → K.is_legible keeper.old → StandsFor known.old.facts (said_within setup.now (K.content keeper.old).kept (slice_index known.old.taken.items) (length setup.now.senders)) (K.content keeper.old).testing
        → IfOk result (λ done. KeptFacts known.new.facts (said_within setup.now (K.content keeper.old).kept (slice_index known.old.taken.items) (length setup.now.senders)) done.testing) }
    ensures way { K.is_trusted keeper.new → AreUnderWay setup.now (K.content keeper.old) known.old.facts → OnOk result (AreUnderWay setup.now (K.content keeper.old) known.new.facts) }
    ensures held { K.is_trusted keeper.new → AreUnderWay setup.now (K.content keeper.old) known.old.facts → AreOwnTexts setup.now (K.content keeper.old).kept → IfOk result (λ done. AreHoldable setup.now (facts_after done.facts (K.content keeper.old).facts)) }
    ensures difference { IfOk result (λ done. IsDifference known.new.facts.came known.new.facts.left done.facts.put done.facts.gone) }
    ensures taken { known.new.taken.items ≡ known.old.taken.items }
    ensures looks { ReadsStore K.Keeper keeper.old keeper.new result }
{
    let testing = stored::next_testing(keeper)?;
    let (earlier, left) = run_beside(alloc, setup, run, date, &known.facts, testing)?;
    match follow_testing(alloc, setup, keeper, known, &earlier, &left.testing) {
        Ok(changes) => {
            drop(earlier);
            Ok(Finished {
                testing: left.testing,
                excuses: left.excuses,
                updates: left.updates,
                facts: changes,
            })
        }
        Err(fault) => {
            drop(earlier);
            drop(left);
            Err(fault)
        }
    }
}
