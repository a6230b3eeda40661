//! Which rows a change would break beside the testing that the last finished run of an office left.
#![tactic(auto, using(office_core_store::proofs::LastFacts::lasting))]

ghost use Rattle.std.specs.Prelude.{◌≡◌, ℕ, IfOk, IfSome, length};
ghost use Rattle.office_mail.specs.Kept.{Kept};
ghost use Rattle.office_core_store.specs.ReadsStore.{ReadsStore};
ghost use Rattle.office_core_facts.specs.Known.{AreKnown};
ghost use Rattle.office_core_facts.specs.State.{IsOffice};
ghost use Rattle.office_core_facts.specs.steps.Last.{IsLoaded, OfRuns};
ghost use Rattle.office_core_breaks.specs.Told.{IsBreaks, IsBreaksAfter};

use crate::BreaksText;
use crate::asked::Question;
use crate::told::{AskedQuestion, told_after};
use deb_control::NoMemory;
use office_core_facts::covered::KnownFacts;
use office_core_facts::last_run::{
    FinishedRuns, LastRun, facts_of, finished_runs, give_back, load_last_run, testing_of,
};
use office_core_store::StoreFault;
use office_mail::Setup;
use office_store_keeper::Keeper;
use std::alloc::Global;

/// What is told of a question beside the testing of the loaded run.
fn breaks_by(
    alloc: Global,
    setup: &Setup,
    last: &mut LastRun<'_>,
    question: &Question,
) -> Result<BreaksText, NoMemory>
    ensures breaks { (kept : Kept) (k : ℕ) → IsLoaded setup.now kept k last.old → IfOk result (IsBreaksAfter setup.now kept k question.now) }
    ensures same { last.new.testing ≡ last.old.testing }
{
    let asked = AskedQuestion {
        run: last.number,
        date: last.date,
        question,
    };
    let archs = setup.archs();
    let facts = facts_of(&last.facts);
    told_after(alloc, archs, facts, &mut last.testing, &asked)
}

/// What is told of a question behind the last one of the finished runs; none where no run is finished.
fn breaks_after<K: Keeper>(
    alloc: Global,
    setup: &Setup,
    keeper: &mut K,
    known: &Option<KnownFacts>,
    finished: &FinishedRuns,
    question: &Question,
) -> Result<Option<BreaksText>, StoreFault>
    ensures breaks { K.is_trusted keeper.new → K.is_legible keeper.old → OfRuns setup.now (K.content keeper.old) finished.now known.now
        (IfOk result (IsBreaks setup.now (K.content keeper.old).kept (length (K.content keeper.old).reports) question.now)) }
    ensures looks { ReadsStore K.Keeper keeper.old keeper.new result }
{
    let Some(mut last) = load_last_run(alloc, setup, keeper, known, finished)? else {
        return Ok(None);
    };
    let told = breaks_by(alloc, setup, &mut last, question);
    give_back(keeper, testing_of(last));
    Ok(Some(told?))
}

/// Which rows a change would break beside the testing that the last finished run of an office with this store left;
/// none if no run is finished. By architecture the text has the number of these rows and the first hundred of them,
/// each with how it stands with unstable's row of its name. Before them it tells what can't change, and after them, if
/// sources come in, why the first of the rows isn't installable then. What is known of the mail is used, or else
/// recalled from the store and known from then on. Each architecture's rows are judged twice.
///
/// It fails only if memory runs out or the store fails.
pub fn breaks_text<K: Keeper>(
    alloc: Global,
    setup: &Setup,
    keeper: &mut K,
    known: &mut Option<KnownFacts>,
    question: &Question,
) -> Result<Option<BreaksText>, StoreFault>
    requires known { K.is_trusted keeper.old → IfSome known.old (λ known. AreKnown setup.now (K.content keeper.old) known) }
    ensures breaks { K.is_trusted keeper.new → K.is_legible keeper.old → IsOffice setup.now (K.content keeper.old) → IfOk result (IsBreaks setup.now (K.content keeper.old).kept (length (K.content keeper.old).reports) question.now) }
    ensures known { K.is_trusted keeper.new → IfSome known.new (λ known. AreKnown setup.now (K.content keeper.new) known) }
    ensures looks { ReadsStore K.Keeper keeper.old keeper.new result }
{
    let finished = finished_runs(alloc, setup, keeper, known)?;
    breaks_after(alloc, setup, keeper, known, &finished, question)
}
