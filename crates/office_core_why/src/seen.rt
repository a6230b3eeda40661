//! The texts over all mail that an office keeps without a gap.
#![tactic(auto, using(office_core_store::proofs::LastFacts::lasting))]

ghost use Rattle.std.specs.Prelude.{◌≡◌, IfOk, IfSome, length};
ghost use Rattle.testing_rules_model.specs.Covered.{Covered};
ghost use Rattle.testing_rules_model.specs.StandsFor.{StandsFor};
ghost use Rattle.office_mail.specs.Runs.{cover_of};
ghost use Rattle.office_core_store.specs.ReadsStore.{ReadsStore};
ghost use Rattle.office_core_facts.specs.Known.{AreKnown};
ghost use Rattle.office_core_facts.specs.State.{IsOffice};
ghost use Rattle.office_core_facts.specs.steps.Last.{OfRuns};
ghost use Rattle.office_core_why.specs.Hints.{IsHintsText, hints_text};
ghost use Rattle.office_core_why.specs.UnstableText.{IsUnstableText};

use crate::hints::hints_over;
use crate::unstable::unstable_over;
use deb_control::Text;
use office_core_facts::covered::KnownFacts;
use office_core_facts::last_run::{FinishedRuns, finished_runs, give_back};
use office_core_facts::seen::seen_facts;
use office_core_store::{StoreFault, stored};
use office_mail::Setup;
use office_store_keeper::Keeper;
use std::alloc::Global;
use testing_rules_facts::Facts;

/// The hints as the facts give them, behind the finished runs and beside the testing that they left.
fn hints_by<K: Keeper>(
    alloc: Global,
    setup: &Setup,
    keeper: &mut K,
    finished: &FinishedRuns,
    facts: &Facts,
) -> Result<Text, StoreFault>
    ensures text { K.is_trusted keeper.new → K.is_legible keeper.old → IfOk result (λ text. (s : Covered) → StandsFor facts.now s (K.content keeper.old).testing
        → text ≡ hints_text setup.now finished.now.count (cover_of finished.now.orders.items) s (K.content keeper.old).testing) }
    ensures looks { ReadsStore K.Keeper keeper.old keeper.new result }
{
    let testing = stored::next_testing(keeper)?;
    let orders = &finished.orders;
    let told = hints_over(alloc, setup, orders, facts, &testing, finished.count);
    give_back(keeper, testing);
    Ok(told?)
}

/// The hints over all mail without a gap, behind the finished runs.
fn hints_seen<K: Keeper>(
    alloc: Global,
    setup: &Setup,
    keeper: &mut K,
    known: &Option<KnownFacts>,
    finished: &FinishedRuns,
) -> Result<Text, StoreFault>
    ensures text { K.is_trusted keeper.new → K.is_legible keeper.old → OfRuns setup.now (K.content keeper.old) finished.now known.now
        (IfOk result (IsHintsText setup.now (K.content keeper.old).kept (length (K.content keeper.old).reports))) }
    ensures looks { ReadsStore K.Keeper keeper.old keeper.new result }
{
    let seen = seen_facts(alloc, setup, keeper, known, &finished.orders)?;
    let told = hints_by(alloc, setup, keeper, finished, &seen.facts);
    drop(seen);
    told
}

/// Unstable over all mail without a gap, behind the finished runs.
fn unstable_seen<K: Keeper>(
    alloc: Global,
    setup: &Setup,
    keeper: &mut K,
    known: &Option<KnownFacts>,
    finished: &FinishedRuns,
) -> Result<Text, StoreFault>
    ensures text { K.is_trusted keeper.new → OfRuns setup.now (K.content keeper.old) finished.now known.now
        (IfOk result (IsUnstableText setup.now (K.content keeper.old).kept (length (K.content keeper.old).reports))) }
    ensures looks { ReadsStore K.Keeper keeper.old keeper.new result }
{
    let seen = seen_facts(alloc, setup, keeper, known, &finished.orders)?;
    let told = unstable_over(alloc, setup.archs(), &seen.facts, finished.count);
    drop(seen);
    Ok(told?)
}

/// The hints in force of an office with this store, over all mail without a gap. Each item of a hint has a line, with
/// the number of the hint's message, whether a finished run covers it, and the state of the item. Nothing is kept. What
/// is known of the mail is used, or else recalled from the store and known from then on.
///
/// It fails only if memory runs out or the store fails.
pub fn hints_text<K: Keeper>(
    alloc: Global,
    setup: &Setup,
    keeper: &mut K,
    known: &mut Option<KnownFacts>,
) -> Result<Text, StoreFault>
    requires known { K.is_trusted keeper.old → IfSome known.old (λ known. AreKnown setup.now (K.content keeper.old) known) }
    ensures text { K.is_trusted keeper.new → K.is_legible keeper.old → IsOffice setup.now (K.content keeper.old) → IfOk result (IsHintsText setup.now (K.content keeper.old).kept (length (K.content keeper.old).reports)) }
    ensures known { K.is_trusted keeper.new → IfSome known.new (λ known. AreKnown setup.now (K.content keeper.new) known) }
    ensures looks { ReadsStore K.Keeper keeper.old keeper.new result }
{
    let finished = finished_runs(alloc, setup, keeper, known)?;
    hints_seen(alloc, setup, keeper, known, &finished)
}

/// Unstable of an office with this store, over all mail without a gap: sources and rows, in the lines of the text of
/// testing. Nothing is kept. What is known of the mail is used, or else recalled from the store and known from then on.
///
/// It fails only if memory runs out or the store fails.
pub fn unstable_text<K: Keeper>(
    alloc: Global,
    setup: &Setup,
    keeper: &mut K,
    known: &mut Option<KnownFacts>,
) -> Result<Text, StoreFault>
    requires known { K.is_trusted keeper.old → IfSome known.old (λ known. AreKnown setup.now (K.content keeper.old) known) }
    ensures text { K.is_trusted keeper.new → K.is_legible keeper.old → IsOffice setup.now (K.content keeper.old) → IfOk result (IsUnstableText setup.now (K.content keeper.old).kept (length (K.content keeper.old).reports)) }
    ensures known { K.is_trusted keeper.new → IfSome known.new (λ known. AreKnown setup.now (K.content keeper.new) known) }
    ensures looks { ReadsStore K.Keeper keeper.old keeper.new result }
{
    let finished = finished_runs(alloc, setup, keeper, known)?;
    unstable_seen(alloc, setup, keeper, known, &finished)
}
