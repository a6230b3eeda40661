//! The search for hints that the next run does.
#![tactic(auto, using(office_core_store::proofs::LastFacts::lasting))]

ghost use Rattle.std.specs.Prelude.{◌≡◌, ℕ, IfOk, IfSome, is_none, length};
ghost use Rattle.office_mail.specs.Kept.{Kept};
ghost use Rattle.office_mail.specs.Runs.{latest_day, orders_to};
ghost use Rattle.office_core_store.specs.ReadsStore.{ReadsStore};
ghost use Rattle.office_core_facts.specs.Known.{AreKnown};
ghost use Rattle.office_core_facts.specs.State.{IsOffice};
ghost use Rattle.office_core_outcome.specs.declared.TrialOptions.{TrialOptions};
ghost use Rattle.office_core_outcome.specs.Proposal.{IsProposed, freed_by};
ghost use Rattle.office_core_outcome.specs.steps.Settled.{AreAnswersFor, IsSettledFor, KeepsMovesFor};
ghost use Rattle.office_core_outcome.specs.steps.Snapshot.{IsTrialSnapshot};
ghost use Rattle.office_core_outcome.specs.Trial.{trial_date};

use crate::TrialOptions;
use crate::asked::Asked;
use crate::hint_trials::{decisions_beside, freed_by, settle};
use crate::proposal::{Proposal, SearchNotes};
use crate::search_notes::{notes_on, parts_of};
use crate::snapshot::{Snapshot, trial_snapshot};
use crate::stuck::stuck_texts;
use deb_control::{NoMemory, Text};
use office_core_facts::covered::KnownFacts;
use office_core_facts::last_run::give_back;
use office_core_store::StoreFault;
use office_mail::Setup;
use office_store_keeper::Keeper;
use std::alloc::Global;
use testing_rules_excuses::excuses;
use testing_rules_groups::{Found, Start, find_groups};
use testing_rules_model::{Decision, Update};
use testing_rules_suites::Testing;

/// Hints that the run does, each of them, its decisions then, what is told of the sources, and notes.
#[derive(Drop)]
struct SettledHints {
    hints: Vec<Text>,
    freed: Vec<Text>,
    answers: Vec<Option<Text>>,
    update: Update,
    notes: SearchNotes,
}

/// The groups that a search over the facts and testing finds, behind the hints that stand, by what the run decides with
/// these alone.
fn groups_found(
    alloc: Global,
    asked: &Asked<'_>,
    testing: &Testing,
    decisions: &[Decision],
) -> Result<Found, NoMemory> {
    let (archs, facts) = (asked.setup.archs(), asked.facts);
    let excuses = excuses(alloc, archs, facts, testing, asked.date)?;
    let start = Start {
        archs,
        facts,
        excuses: &excuses,
        testing,
        decisions,
    };
    let found = find_groups(alloc, start, asked.sources)?;
    drop(excuses);
    Ok(found)
}

/// Hints whose numbers go on behind the one asked for, and of which the run does each and moves all that moves without
/// them; and what is told of the sources. Testing and the facts stay.
fn settled_hints(
    alloc: Global,
    asked: &Asked<'_>,
    testing: &mut Testing,
) -> Result<SettledHints, NoMemory>
    ensures same { testing.new ≡ testing.old }
    ensures settled { IfOk result (λ o. IsSettledFor asked.now testing.old o.hints.items o.update) }
    ensures keeps { IfOk result (λ o. KeepsMovesFor asked.now testing.old o.update) }
    ensures freed { IfOk result (λ o. o.freed.items ≡ freed_by o.update asked.now.sources.now) }
    ensures answers { IfOk result (λ o. AreAnswersFor asked.now testing.old o.update o.answers.items) }
{
    let (setup, date, facts) = (asked.setup, asked.date, asked.facts);
    let base = decisions_beside(alloc, setup, date, facts, testing)?;
    let found = groups_found(alloc, asked, testing, base.as_slice())?;
    let (groups, beside) = parts_of(found);
    let (hints, update) = settle(alloc, asked, testing, base, groups)?;
    let decisions = update.as_slice();
    let freed = freed_by(alloc, decisions, asked.sources)?;
    let answers = stuck_texts(alloc, asked, testing, &beside.dead, decisions)?;
    let notes = notes_on(alloc, beside, decisions, asked, &answers, hints.len())?;
    Ok(SettledHints {
        hints,
        freed,
        answers,
        update,
        notes,
    })
}

/// What is proposed for a run. Also the testing before it, with what speeds it.
fn proposal_of(
    alloc: Global,
    setup: &Setup,
    snapshot: Snapshot,
    sources: &[Text],
) -> Result<(Testing, Proposal), NoMemory>
    ensures before { IfOk result (λ o. o.0 ≡ snapshot.testing) }
    ensures proposed { IfOk result (λ o. (kept : Kept) (k : ℕ) (terms : TrialOptions) → IsTrialSnapshot setup.now kept k terms snapshot → IsProposed setup.now kept k terms sources.now o.1) }
{
    let Snapshot {
        run,
        date,
        behind,
        facts,
        testing,
    } = snapshot;
    let mut before = testing;
    let asked = Asked {
        setup,
        date,
        facts: &facts,
        number: behind,
        sources,
    };
    let settled = settled_hints(alloc, &asked, &mut before)?;
    drop(facts);
    let first = behind.saturating_add(1);
    let SettledHints {
        hints,
        freed,
        answers,
        update,
        notes,
    } = settled;
    drop(update);
    let proposal = Proposal {
        run,
        date,
        first,
        hints,
        freed,
        answers,
        notes,
    };
    Ok((before, proposal))
}

/// `easy` hints that the next run of an office with this store would do if they were covered too. They free these
/// sources, or are all that the search finds if no source is named. The run covers what a trial's does, and has its
/// date; without a date there is no proposal. Nothing is kept. What is known of the mail is used, or else recalled from
/// the store and known from then on. The search may miss hints: an empty list is a proposal too.
///
/// It fails only if memory runs out or the store fails.
pub fn propose<K: Keeper>(
    alloc: Global,
    setup: &Setup,
    keeper: &mut K,
    known: &mut Option<KnownFacts>,
    terms: TrialOptions,
    sources: &[Text],
) -> Result<Option<Proposal>, StoreFault>
    requires known { K.is_trusted keeper.old → IfSome known.old (λ known. AreKnown setup.now (K.content keeper.old) known) }
    ensures proposed { K.is_trusted keeper.new → K.is_legible keeper.old → IsOffice setup.now (K.content keeper.old)
        → IfOk result (λ proposal. IfSome proposal (IsProposed setup.now (K.content keeper.old).kept (length (K.content keeper.old).reports) terms sources.now)) }
    ensures dated { K.is_trusted keeper.new → IsOffice setup.now (K.content keeper.old)
        → IfOk result (λ proposal. is_none proposal ≡ is_none (trial_date (latest_day (orders_to setup.now (K.content keeper.old).kept (length (K.content keeper.old).reports))) terms.day)) }
    ensures known { K.is_trusted keeper.new → IfSome known.new (λ known. AreKnown setup.now (K.content keeper.new) known) }
    ensures looks { ReadsStore K.Keeper keeper.old keeper.new result }
{
    let found = trial_snapshot(alloc, setup, keeper, known, terms)?;
    let Some(snapshot) = found else {
        return Ok(None);
    };
    let (before, proposal) = proposal_of(alloc, setup, snapshot, sources)?;
    give_back(keeper, before);
    Ok(Some(proposal))
}
