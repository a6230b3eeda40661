//! Why a source is where the last finished run of an office left it.
#![tactic(auto, using(office_core_store::proofs::LastFacts::lasting))]

ghost use Rattle.std.specs.Prelude.{◌≡◌, ℕ, IfOk, IfSome, length};
ghost use Rattle.office_mail.specs.Kept.{Kept};
ghost use Rattle.office_core_store.specs.ReadsStore.{ReadsStore};
ghost use Rattle.office_core_facts.specs.Known.{AreKnown};
ghost use Rattle.office_core_facts.specs.Outcome.{reports_of};
ghost use Rattle.office_core_facts.specs.State.{IsOffice};
ghost use Rattle.office_core_facts.specs.steps.Last.{IsLoaded, OfRuns};
ghost use Rattle.office_core_why.specs.Why.{IsWhy, IsWhyAfter};

use crate::WhyText;
use crate::told::{AskedSource, lines_from_run};
use deb_control::NoMemory;
use office_core_facts::covered::KnownFacts;
use office_core_facts::last_run::{
    FinishedRuns, LastRun, facts_of, finished_runs, give_back, load_last_run, testing_of,
};
use office_core_store::{StoreFault, stored};
use office_mail::Setup;
use office_store_keeper::{Keeper, Reports};
use std::alloc::Global;

/// Why a source is where the loaded run left it, by the run's reports.
fn why_by(
    alloc: Global,
    setup: &Setup,
    last: &mut LastRun<'_>,
    reports: &Reports,
    source: &str,
) -> Result<WhyText, NoMemory>
    ensures why { (kept : Kept) (k : ℕ) → IsLoaded setup.now kept k last.old → reports.now ≡ reports_of setup.now kept k → IfOk result (IsWhyAfter setup.now kept k source.now) }
    ensures same { last.new.testing ≡ last.old.testing }
{
    let asked = AskedSource {
        run: last.number,
        date: last.date,
        source,
    };
    let facts = facts_of(&last.facts);
    lines_from_run(alloc, setup, facts, &mut last.testing, &asked, reports)
}

/// Why a source is where the last one of the finished runs left it; none if no run is finished.
fn why_after<K: Keeper>(
    alloc: Global,
    setup: &Setup,
    keeper: &mut K,
    known: &Option<KnownFacts>,
    finished: &FinishedRuns,
    source: &str,
) -> Result<Option<WhyText>, StoreFault>
    ensures why { K.is_trusted keeper.new → K.is_legible keeper.old → OfRuns setup.now (K.content keeper.old) finished.now known.now
        (IfOk result (IsWhy setup.now (K.content keeper.old).kept (length (K.content keeper.old).reports) source.now)) }
    ensures looks { ReadsStore K.Keeper keeper.old keeper.new result }
{
    let Some(reports) = stored::reports(keeper, finished.count)? else {
        return Ok(None);
    };
    let Some(mut last) = load_last_run(alloc, setup, keeper, known, finished)? else {
        return Ok(None);
    };
    let told = why_by(alloc, setup, &mut last, &reports, source);
    give_back(keeper, testing_of(last));
    Ok(Some(told?))
}

/// Why a source is where the last finished run of an office with this store left it, none if no run is finished. The
/// text has the source's lines in the run's reports; its state, if it has nothing to move; the origin of the reasons
/// that keep it out. For a source that waits, it also proves that it can't move alone. What is known of the mail is
/// used, or else recalled from the store and known from then on.
///
/// It fails only if memory runs out or the store fails.
pub fn why_text<K: Keeper>(
    alloc: Global,
    setup: &Setup,
    keeper: &mut K,
    known: &mut Option<KnownFacts>,
    source: &str,
) -> Result<Option<WhyText>, StoreFault>
    requires known { K.is_trusted keeper.old → IfSome known.old (λ known. AreKnown setup.now (K.content keeper.old) known) }
    ensures why { K.is_trusted keeper.new → K.is_legible keeper.old → IsOffice setup.now (K.content keeper.old) → IfOk result (IsWhy setup.now (K.content keeper.old).kept (length (K.content keeper.old).reports) source.now) }
    ensures known { K.is_trusted keeper.new → IfSome known.new (λ known. AreKnown setup.now (K.content keeper.new) known) }
    ensures looks { ReadsStore K.Keeper keeper.old keeper.new result }
{
    let finished = finished_runs(alloc, setup, keeper, known)?;
    why_after(alloc, setup, keeper, known, &finished, source)
}
