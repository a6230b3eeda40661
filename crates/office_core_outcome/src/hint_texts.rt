//! What a run makes of one hint, in lines.
#![tactic(auto, using(office_core_store::proofs::LastFacts::lasting))]

ghost use Rattle.std.specs.Prelude.{is_none, ◌≡◌, ◌+◌, ◌++◌, ℕ, [], IfOk, IfSome, OnOk, filter, length, option_copied, string_bytes};
ghost use Rattle.std.specs.List.{flat_map};
ghost use Rattle.testing_rules_model.specs.Covered.{Covered};
ghost use Rattle.testing_rules_model.specs.StandsFor.{StandsFor};
ghost use Rattle.testing_rules_model.specs.Suite.{Suite};
ghost use Rattle.testing_rules_reports.specs.Changes.{behind};
ghost use Rattle.testing_rules_reports.specs.steps.LentLines.{lent_lines};
ghost use Rattle.office_mail.specs.Kept.{Kept};
ghost use Rattle.office_mail.specs.Runs.{order_at};
ghost use Rattle.office_core_store.specs.ReadsStore.{ReadsStore};
ghost use Rattle.office_core_facts.specs.Known.{AreKnown};
ghost use Rattle.office_core_facts.specs.State.{IsOffice};
ghost use Rattle.office_core_outcome.specs.HintTold.{IsHintText, IsHintTold, begins_with_either, front, hint_text, lines_on_hint, lines_or_standing, standing_of};
ghost use Rattle.office_core_outcome.specs.steps.RuleSteps.{IsRuled};
ghost use Rattle.office_core_outcome.specs.steps.Snapshot.{IsOrderedSnapshot};

use crate::HintText;
use crate::hint_trials::keep_suites;
use crate::proposal::push_line;
use crate::refused_hints::{Judging, told_of_hint};
use crate::refused_items::hint_at;
use crate::rules::{Ruled, judge_run};
use crate::snapshot::{Snapshot, ordered_snapshot};
use deb_control::{NoMemory, Text};
use jiff_core::civil::Date;
use office_core_facts::covered::KnownFacts;
use office_core_facts::last_run::give_back;
use office_core_facts::release::release_place;
use office_core_replies::name_at;
use office_core_store::StoreFault;
use office_mail::Setup;
use office_store_keeper::Keeper;
use std::alloc::{AllocError, Global};
use testing_rules_facts::{Facts, Unhints, is_in_force};
use testing_rules_model::HintIn;
use testing_rules_reports::{lines_of, update_text};
use testing_rules_suites::Testing;

/// A hint that is asked about, for a run of this number and date.
#[derive(Clone, Copy)]
struct AskedHint {
    run: u32,
    date: Date,
    number: u32,
}

/// The beginning of the lines of an update on a hint, after this word.
fn front(alloc: Global, word: &str, number: u32) -> Result<String, AllocError>
    ensures { IfOk result (λ text. string_bytes text ≡ front word.now number) }
{
    format!(in alloc; "{word} {number} ")
}

/// Whether a line begins with one of two texts.
fn begins_with_either(line: &str, easy: &str, remove: &str) -> bool
    ensures { result ≡ begins_with_either easy.now remove.now line.now }
{
    let line = line.as_bytes();
    line.starts_with(easy.as_bytes()) || line.starts_with(remove.as_bytes())
}

/// Adds those of the lines that begin with one of two texts.
fn push_begun(text: &mut String, found: &[&str], easy: &str, remove: &str) -> Result<(), AllocError>
    ensures { OnOk result (string_bytes text.new ≡ string_bytes text.old ++ flat_map (behind []) (filter (begins_with_either easy.now remove.now) (lent_lines found.now))) }
{
    for line in found {
        if begins_with_either(line, easy, remove) {
            push_line(text, line)?;
        }
    }
    Ok(())
}

/// The lines of an update on the hint with this number.
fn lines_on_hint(alloc: Global, update: &str, number: u32) -> Result<String, AllocError>
    ensures { IfOk result (λ text. string_bytes text ≡ lines_on_hint number update.now) }
{
    let easy = front(alloc, "easy", number)?;
    let remove = front(alloc, "remove", number)?;
    let mut text = String::new(alloc);
    push_begun(&mut text, &lines_of(alloc, update)?, &easy, &remove)?;
    Ok(text)
}

/// The state of a hint on which a run decides nothing: the run doesn't cover its number, an unhint took it back, or
/// nothing was to be decided.
fn standing_of(
    alloc: Global,
    facts: &Facts,
    hint: Option<&HintIn>,
) -> Result<&'static str, NoMemory>
    ensures { IfOk result (λ words. words.now ≡ standing_of facts.now.unhints (option_copied hint.entry)) }
{
    match hint {
        Some(hint) => {
            let unhints = Unhints::of(alloc, facts.unhints())?;
            Ok(if is_in_force(&unhints, hint) {
                "nothing decided"
            } else {
                "cancelled"
            })
        }
        None => Ok("unknown"),
    }
}

/// The lines of an update on the hint with this number, or a line on its state if there is none.
fn lines_or_standing(
    alloc: Global,
    update: &str,
    number: u32,
    standing: &str,
) -> Result<String, AllocError>
    ensures { IfOk result (λ text. string_bytes text ≡ lines_or_standing (lines_on_hint number update.now) standing.now) }
{
    let lines = lines_on_hint(alloc, update, number)?;
    if lines.is_empty() {
        let line = format!(in alloc; "{standing}\n")?;
        Ok(line)
    } else {
        Ok(lines)
    }
}

/// The text on a hint of this sender: the lines of the update on it, or its state, and then why it is refused.
fn hint_text(
    alloc: Global,
    sender: &str,
    asked: AskedHint,
    update: &str,
    standing: &str,
    reasons: &str,
) -> Result<Text, NoMemory>
    ensures { IfOk result (λ text. text ≡ hint_text sender.now asked.run asked.number update.now standing.now reasons.now) }
{
    let (run, number) = (asked.run, asked.number);
    let lines = lines_or_standing(alloc, update, number, standing)?;
    let text = format!(in alloc; "why {run} {sender} {number}\n{lines}{reasons}")?;
    Ok(Text::from_string(text))
}

/// What a run made of a hint, from its decisions over these facts and the testing before it.
fn told_by(
    alloc: Global,
    setup: &Setup,
    facts: &Facts,
    asked: AskedHint,
    testing: &Testing,
    ruled: &Ruled,
) -> Result<HintText, NoMemory>
    ensures { IfOk result (λ told. (s : Covered) (new : Suite) → StandsFor facts.now s testing.now → IsRuled setup.now asked.date s testing.now ruled.now new
        → IsHintText setup.now asked.run asked.date s testing.now asked.number told) }
{
    let sender = name_at(setup, release_place(setup));
    let archs = setup.archs();
    let excuses = ruled.excuses.as_slice();
    let judging = Judging {
        sender,
        behind: 0,
        archs,
        facts,
        excuses,
        testing,
    };
    let decisions = ruled.update.as_slice();
    let reasons = told_of_hint(alloc, &judging, asked.number, decisions)?;
    let hint = hint_at(facts.hints(), asked.number);
    let standing = standing_of(alloc, facts, hint)?;
    let update = update_text(alloc, archs, asked.run, asked.date, &ruled.update)?;
    let text = hint_text(alloc, sender, asked, &update, standing, reasons.as_str())?;
    Ok(HintText {
        text,
        is_known: hint.is_some(),
    })
}

/// The same for a run made from this testing, which stays and keeps the suites.
fn told_over(
    alloc: Global,
    setup: &Setup,
    facts: &Facts,
    asked: AskedHint,
    testing: &mut Testing,
) -> Result<HintText, NoMemory>
    ensures same { testing.new ≡ testing.old }
    ensures told { IfOk result (λ told. (s : Covered) → StandsFor facts.now s testing.old → IsHintText setup.now asked.run asked.date s testing.old asked.number told) }
{
    let mut after = testing.share()?;
    let ruled = judge_run(alloc, setup, asked.date, facts, &mut after)?;
    keep_suites(testing, after)?;
    told_by(alloc, setup, facts, asked, testing, &ruled)
}

/// What a run makes of the hint with this number. Also the testing before the run, with what speeds it.
fn told_of(
    alloc: Global,
    setup: &Setup,
    snapshot: Snapshot,
    number: u32,
) -> Result<(Testing, HintText), NoMemory>
    ensures before { IfOk result (λ o. o.0 ≡ snapshot.testing) }
    ensures told { IfOk result (λ o. (kept : Kept) (k : ℕ) → IsOrderedSnapshot setup.now kept k snapshot → IsHintTold setup.now kept k number o.1) }
{
    let Snapshot {
        run,
        date,
        behind: _,
        facts,
        testing,
    } = snapshot;
    let mut before = testing;
    let asked = AskedHint { run, date, number };
    let told = told_over(alloc, setup, &facts, asked, &mut before)?;
    drop(facts);
    Ok((before, told))
}

/// What the next run of an office with this store makes of the hint of this number, over all kept mail that the run
/// covers. The text has the lines of its update on the hint, or the hint's state, and the lines on why it is refused.
/// The result is none exactly if the run's order hasn't come. It uses what is known of the mail.
///
/// It fails only if memory runs out or the store fails.
pub fn hint_told<K: Keeper>(
    alloc: Global,
    setup: &Setup,
    keeper: &mut K,
    before: Option<KnownFacts>,
    number: u32,
) -> Result<Option<HintText>, StoreFault>
    requires known { K.is_trusted keeper.old → IfSome before (λ known. AreKnown setup.now (K.content keeper.old) known) }
    ensures told { K.is_trusted keeper.new → K.is_legible keeper.old → IsOffice setup.now (K.content keeper.old)
        → IfOk result (λ found. IfSome found (IsHintTold setup.now (K.content keeper.old).kept (length (K.content keeper.old).reports) number)) }
    ensures ordered { K.is_trusted keeper.new → IsOffice setup.now (K.content keeper.old)
        → IfOk result (λ found. is_none found ≡ is_none (order_at setup.now (K.content keeper.old).kept (length (K.content keeper.old).reports + 1))) }
    ensures looks { ReadsStore K.Keeper keeper.old keeper.new result }
{
    let found = ordered_snapshot(alloc, setup, keeper, before)?;
    let Some(snapshot) = found else {
        return Ok(None);
    };
    let (testing, told) = told_of(alloc, setup, snapshot, number)?;
    give_back(keeper, testing);
    Ok(Some(told))
}
