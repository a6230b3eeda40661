//! What a run decides without hints, and with them.

ghost use Rattle.std.specs.Prelude.{◌≡◌, IfOk, OnOk};
ghost use Rattle.testing_rules_model.specs.Covered.{Covered};
ghost use Rattle.testing_rules_model.specs.StandsFor.{StandsFor};
ghost use Rattle.testing_rules_model.specs.Suite.{Suite};
ghost use Rattle.office_core_facts.specs.Outcome.{outcome, testing_text};
ghost use Rattle.jiff_core.specs.declared.civil.date.Date.{Date};
ghost use Rattle.office_core_outcome.specs.steps.RuleSteps.{IsRuled, IsToldRun};
ghost use Rattle.office_core_facts.specs.Seen.{release};
ghost use Rattle.office_core_outcome.specs.Hints.{with_letters};
ghost use Rattle.office_core_outcome.specs.Trial.{decided, judged_by};
ghost use Rattle.office_core_outcome.specs.WhyRefused.{AreReasons};

use crate::hint_trials::keep_suites;
use crate::refused_hints::{Judging, told_of_first};
use crate::rules::{Ruled, judge_run, reports};
use deb_control::{NoMemory, Text};
use jiff_core::civil::Date;
use office_core_facts::choice::Choice;
use office_core_facts::release::release_place;
use office_core_facts::walk::take_letters;
use office_core_replies::name_at;
use office_mail::Setup;
use office_store_keeper::Letter;
use std::alloc::Global;
use testing_rules_facts::Facts;
use testing_rules_reports::Decided;
use testing_rules_suites::Testing;

/// A run that tries messages of the release team: its number and date, the number after which theirs continue, and
/// these messages.
#[derive(Clone, Copy)]
pub(crate) struct TriedRun<'a> {
    pub run: u32,
    pub date: Date,
    pub behind: u32,
    pub letters: &'a [Letter],
}

/// What a run decides, as texts, and lines on why it refuses hints.
#[derive(Drop)]
pub(crate) struct ToldRun {
    pub decided: Decided,
    pub reasons: Text,
}

/// The text of testing after a run.
#[tactic(auto, unfolding(office_core_facts::specs::Outcome::testing_text))]
pub fn testing_text(
    alloc: Global,
    setup: &Setup,
    run: u32,
    testing: &Testing,
) -> Result<Text, NoMemory>
    ensures { IfOk result (λ text. text ≡ testing_text setup.now run testing.now) }
{
    let text = testing_rules_reports::testing_text(alloc, setup.archs(), run, testing)?;
    Ok(Text::from_string(text))
}

/// Adds what messages of the release team say to the facts.
pub(crate) fn take_all(
    alloc: Global,
    setup: &Setup,
    facts: &mut Facts,
    letters: &[Letter],
) -> Result<(), NoMemory>
    ensures { OnOk result ((s : Covered) (t : Suite) → StandsFor facts.old s t → StandsFor facts.new (with_letters setup.now (release setup.now) letters.now s) t) }
{
    let place = release_place(setup);
    take_letters(alloc, setup, facts, place, letters, Choice::All)
}

/// Why a run refuses hints: from what it decides, over the facts and the testing before it.
fn reasons_of(
    alloc: Global,
    setup: &Setup,
    facts: &Facts,
    behind: u32,
    testing: &Testing,
    ruled: &Ruled,
) -> Result<Text, NoMemory>
    ensures { IfOk result (λ text. (s : Covered) (date : Date) (new : Suite) → StandsFor facts.now s testing.now → IsRuled setup.now date s testing.now ruled.now new
        → AreReasons (judged_by setup.now behind date s testing.now) text) }
{
    let sender = name_at(setup, release_place(setup));
    let archs = setup.archs();
    let excuses = ruled.excuses.as_slice();
    let judging = Judging {
        sender,
        behind,
        archs,
        facts,
        excuses,
        testing,
    };
    let decisions = ruled.update.as_slice();
    told_of_first(alloc, &judging, decisions)
}

/// What a run decides, as texts, given the testing that it leaves.
fn decided_by(
    alloc: Global,
    setup: &Setup,
    run: u32,
    date: Date,
    ruled: &Ruled,
    after: &Testing,
) -> Result<Decided, NoMemory>
    ensures { IfOk result (λ d. (s : Covered) (t : Suite) → IsRuled setup.now date s t ruled.now after.now → d ≡ decided setup.now run (outcome setup.now run date s t)) }
{
    let archs = setup.archs();
    let testing = testing_text(alloc, setup, run, after)?;
    match reports(alloc, archs, run, date, &ruled.excuses, &ruled.update) {
        Ok(reports) => Ok(Decided {
            excuses: reports.excuses,
            updates: reports.updates,
            testing,
        }),
        Err(fault) => {
            drop(testing);
            Err(fault)
        }
    }
}

/// What a run decides over the messages that the facts represent. Testing stays, with what speeds the next run.
fn decide(
    alloc: Global,
    setup: &Setup,
    run: u32,
    date: Date,
    facts: &Facts,
    testing: &mut Testing,
) -> Result<Decided, NoMemory>
    ensures same { testing.new ≡ testing.old }
    ensures ok { IfOk result (λ d. (s : Covered) → StandsFor facts.now s testing.old → d ≡ decided setup.now run (outcome setup.now run date s testing.old)) }
{
    let mut left = testing.share()?;
    let ruled = judge_run(alloc, setup, date, facts, &mut left)?;
    let decided = decided_by(alloc, setup, run, date, &ruled, &left)?;
    drop(ruled);
    keep_suites(testing, left)?;
    Ok(decided)
}

/// What a run decides over the messages that the facts represent, and why it refuses hints. Testing stays, with what
/// speeds the next run.
fn tell_run(
    alloc: Global,
    setup: &Setup,
    facts: &Facts,
    tried: &TriedRun<'_>,
    testing: &mut Testing,
) -> Result<ToldRun, NoMemory>
    ensures same { testing.new ≡ testing.old }
    ensures ok { IfOk result (λ o. (s : Covered) → StandsFor facts.now s testing.old → IsToldRun setup.now tried.now.run tried.now.date tried.now.behind s testing.old o) }
{
    let mut after = testing.share()?;
    let ruled = judge_run(alloc, setup, tried.date, facts, &mut after)?;
    let decided = decided_by(alloc, setup, tried.run, tried.date, &ruled, &after)?;
    keep_suites(testing, after)?;
    let reasons = reasons_of(alloc, setup, facts, tried.behind, testing, &ruled)?;
    Ok(ToldRun { decided, reasons })
}

/// What a run decides once the facts have what messages of the release team say, and why it refuses hints. Testing
/// stays, with what speeds the next run.
fn decide_with(
    alloc: Global,
    setup: &Setup,
    facts: &mut Facts,
    tried: &TriedRun<'_>,
    testing: &mut Testing,
) -> Result<ToldRun, NoMemory>
    ensures same { testing.new ≡ testing.old }
    ensures ok { IfOk result (λ o. (s : Covered) → StandsFor facts.old s testing.old → IsToldRun setup.now tried.now.run tried.now.date tried.now.behind (with_letters setup.now (release setup.now) tried.now.letters.now s) testing.old o) }
{
    take_all(alloc, setup, facts, tried.letters)?;
    tell_run(alloc, setup, facts, tried, testing)
}

/// What a run decides without these messages of the release team, and with them. Testing stays, with what speeds the
/// next run.
pub(crate) fn decide_both(
    alloc: Global,
    setup: &Setup,
    facts: &mut Facts,
    tried: &TriedRun<'_>,
    testing: &mut Testing,
) -> Result<(Decided, ToldRun), NoMemory>
    ensures same { testing.new ≡ testing.old }
    ensures without { IfOk result (λ o. (s : Covered) → StandsFor facts.old s testing.old → o.0 ≡ decided setup.now tried.now.run (outcome setup.now tried.now.run tried.now.date s testing.old)) }
    ensures with_them { IfOk result (λ o. (s : Covered) → StandsFor facts.old s testing.old → IsToldRun setup.now tried.now.run tried.now.date tried.now.behind (with_letters setup.now (release setup.now) tried.now.letters.now s) testing.old o.1) }
{
    let without = decide(alloc, setup, tried.run, tried.date, facts, testing)?;
    match decide_with(alloc, setup, facts, tried, testing) {
        Ok(with) => Ok((without, with)),
        Err(fault) => {
            drop(without);
            Err(fault)
        }
    }
}
