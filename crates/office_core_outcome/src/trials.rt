//! The trial of hints.
#![tactic(auto, using(office_core_store::proofs::LastFacts::lasting))]

ghost use Rattle.std.specs.Prelude.{◌≡◌, ◌≤◌, ℕ, List, IfOk, IfSome, length};
ghost use Rattle.office_mail.specs.Kept.{Kept};
ghost use Rattle.office_core_store.specs.ReadsStore.{ReadsStore};
ghost use Rattle.office_core_facts.specs.Known.{AreKnown};
ghost use Rattle.office_core_facts.specs.Seen.{release};
ghost use Rattle.office_core_facts.specs.State.{IsOffice};
ghost use Rattle.office_core_outcome.specs.declared.TrialOptions.{TrialOptions};
ghost use Rattle.office_core_outcome.specs.Hints.{hint_letters};
ghost use Rattle.office_core_outcome.specs.Trial.{IsTrial, trial_text};
ghost use Rattle.office_core_outcome.specs.steps.Snapshot.{IsSnapshot, IsTrialSnapshot};
ghost use Rattle.office_core_outcome.specs.steps.TrialSteps.{IsTried};

use crate::decisions::{ToldRun, TriedRun, decide_both};
use crate::hints::take_hints;
use crate::snapshot::{Snapshot, testing_before, trial_snapshot};
use crate::{Trial, TrialOptions};
use deb_control::{NoMemory, Text};
use office_core_facts::covered::KnownFacts;
use office_core_facts::last_run::give_back;
use office_core_store::StoreFault;
use office_mail::Setup;
use office_store_keeper::{Keeper, Letter};
use std::alloc::Global;
use testing_rules_reports::{TrialReport, tried_text};
use testing_rules_suites::Testing;

/// The text of a trial: what hints of a sender would change, and then why some of them are refused.
pub fn trial_text(
    alloc: Global,
    sender: &str,
    hints: &[Text],
    report: &TrialReport,
    reasons: &Text,
) -> Result<Text, NoMemory>
    ensures { IfOk result (λ text. text ≡ trial_text sender.now hints.now report.now reasons.now) }
{
    let changes = tried_text(alloc, sender, hints, report)?;
    let text = format!(in alloc; "{}{}", changes.as_str(), reasons.as_str())?;
    Ok(Text::from_string(text))
}

/// What these letters of the release team would change in a run, and why it refuses hints in them. Also the testing
/// before the run, with what speeds it.
fn trial_of_letters(
    alloc: Global,
    setup: &Setup,
    snapshot: Snapshot,
    letters: &[Letter],
) -> Result<(Testing, TrialReport, Text), NoMemory>
    ensures before { IfOk result (λ o. o.0 ≡ snapshot.testing) }
    ensures tried { IfOk result (λ o. (kept : Kept) (k : ℕ) (covers : ℕ → ℕ) (hints : List (List ℕ)) → IsSnapshot setup.now kept k covers snapshot → covers (release setup.now) ≤ 999_999_999
        → letters.now ≡ hint_letters setup.now (covers (release setup.now)) hints → IsTried setup.now kept k snapshot.date covers hints o.1 o.2) }
{
    let Snapshot {
        run,
        date,
        behind,
        facts,
        testing,
    } = snapshot;
    let (mut facts, mut before) = (facts, testing);
    let first = behind.saturating_add(1);
    let tried = TriedRun {
        run,
        date,
        behind,
        letters,
    };
    let (without, told) = decide_both(alloc, setup, &mut facts, &tried, &mut before)?;
    drop(facts);
    let ToldRun {
        decided: with,
        reasons,
    } = told;
    let report = TrialReport {
        run,
        date,
        first,
        without,
        with,
    };
    Ok((before, report, reasons))
}

/// What hints would change in a run, unless one is refused. Also the testing before the run, with what speeds it.
fn trial_of(
    alloc: Global,
    setup: &Setup,
    snapshot: Snapshot,
    hints: &[Text],
) -> Result<(Testing, Trial), NoMemory>
    ensures before { IfOk result (λ o. o.0 ≡ snapshot.testing) }
    ensures tried { IfOk result (λ o. (kept : Kept) (k : ℕ) (terms : TrialOptions) → IsTrialSnapshot setup.now kept k terms snapshot → IsTrial setup.now kept k terms hints.now o.1) }
{
    let mut letters = Vec::new(alloc);
    let number = snapshot.behind;
    if let Some(refused) = take_hints(alloc, setup, &mut letters, number, hints)? {
        return Ok((testing_before(snapshot), Trial::Refused(refused)));
    }
    let (before, report, reasons) = trial_of_letters(alloc, setup, snapshot, &letters)?;
    Ok((before, Trial::Told(report, reasons)))
}

/// What the next run of an office with this store would decide if these hints were covered too, and what it would
/// decide without them. It covers all that the finished runs cover, and the gapless mail of the release team, or of
/// every sender. Its date is that of the last run, or a later given day. If the run refuses a hint for what it would
/// break, lines say why. Nothing is kept. What is known of the mail is used, or else recalled from the store and known
/// from then on.
///
/// It fails only if memory runs out or the store fails.
pub fn try_hints<K: Keeper>(
    alloc: Global,
    setup: &Setup,
    keeper: &mut K,
    known: &mut Option<KnownFacts>,
    hints: &[Text],
    terms: TrialOptions,
) -> Result<Trial, StoreFault>
    requires known { K.is_trusted keeper.old → IfSome known.old (λ known. AreKnown setup.now (K.content keeper.old) known) }
    ensures tried { K.is_trusted keeper.new → K.is_legible keeper.old → IsOffice setup.now (K.content keeper.old) → IfOk result (IsTrial setup.now (K.content keeper.old).kept (length (K.content keeper.old).reports) terms hints.now) }
    ensures known { K.is_trusted keeper.new → IfSome known.new (λ known. AreKnown setup.now (K.content keeper.new) known) }
    ensures looks { ReadsStore K.Keeper keeper.old keeper.new result }
{
    let found = trial_snapshot(alloc, setup, keeper, known, terms)?;
    let Some(snapshot) = found else {
        return Ok(Trial::NoDate);
    };
    let (before, trial) = trial_of(alloc, setup, snapshot, hints)?;
    give_back(keeper, before);
    Ok(trial)
}
