//! What a run writes and leaves.
ghost use Rattle.std.specs.Prelude.{◌≡◌, IfOk};
ghost use Rattle.office_core_facts.specs.Outcome.{Outcome, outcome};
ghost use Rattle.office_core_outcome.specs.Proposal.{decisions_by};
ghost use Rattle.office_core_outcome.specs.steps.RuleSteps.{IsRuled, outcome_left};
ghost use Rattle.testing_rules_model.specs.Covered.{Covered};
ghost use Rattle.testing_rules_reports.specs.Reports.{excuses_text, update_text};
ghost use Rattle.testing_rules_model.specs.StandsFor.{StandsFor};
ghost use Rattle.testing_rules_model.specs.Tells.{AreSaidBy};
ghost use Rattle.testing_rules_model.specs.Watched.{AllWatchedWork};
ghost use Rattle.testing_rules_model.specs.Provenance.{IsGivenBy};

use deb_control::{NoMemory, Text};
use jiff_core::civil::Date;
use office_mail::Setup;
use office_store_keeper::Reports;
use std::alloc::Global;
use testing_rules_excuses::excuses;
use testing_rules_facts::Facts;
use testing_rules_items::Archs;
use testing_rules_model::{Excuses, Update};
use testing_rules_moves::migrate;
use testing_rules_reports::{excuses_text, update_text};
use testing_rules_suites::Testing;

/// What a run decides: testing after it, and the two reports.
#[derive(Drop)]
pub struct RunOutcome {
    pub testing: Testing,
    pub excuses: Text,
    pub updates: Text,
}

/// What a run decides, and by which excuses, before it is written as texts.
#[derive(Drop)]
pub(crate) struct Ruled {
    pub excuses: Excuses,
    pub update: Update,
}

/// A run by the rules from this testing, over the messages that the facts represent. Any messages that say the facts
/// give what it brings into testing.
fn run_rules(
    alloc: Global,
    setup: &Setup,
    run: u32,
    date: Date,
    facts: &Facts,
    testing: Testing,
) -> Result<RunOutcome, NoMemory>
    ensures ok { IfOk result (λ o. (s : Covered) → StandsFor facts.now s testing → outcome_left o ≡ outcome setup.now run date s testing) }
    ensures given { IfOk result (λ o. (s : Covered) → AreSaidBy facts.now s → IsGivenBy setup.now.archs s testing o.testing) }
    ensures watched { IfOk result (λ o. AllWatchedWork setup.now.archs testing.rows → AllWatchedWork setup.now.archs o.testing.rows) }
{
    let mut after = testing;
    match run_over(alloc, setup, run, date, facts, &mut after) {
        Ok(reports) => Ok(RunOutcome {
            testing: after,
            excuses: reports.excuses,
            updates: reports.updates,
        }),
        Err(fault) => {
            drop(after);
            Err(fault)
        }
    }
}

/// A run by the rules from this testing, and a copy of the testing before it.
pub fn run_beside(
    alloc: Global,
    setup: &Setup,
    run: u32,
    date: Date,
    facts: &Facts,
    testing: Testing,
) -> Result<(Testing, RunOutcome), NoMemory>
    ensures before { IfOk result (λ o. o.0 ≡ testing) }
    ensures ok { IfOk result (λ o. (s : Covered) → StandsFor facts.now s testing → outcome_left o.1 ≡ outcome setup.now run date s testing) }
    ensures given { IfOk result (λ o. (s : Covered) → AreSaidBy facts.now s → IsGivenBy setup.now.archs s testing o.1.testing) }
    ensures watched { IfOk result (λ o. AllWatchedWork setup.now.archs testing.rows → AllWatchedWork setup.now.archs o.1.testing.rows) }
{
    let before = testing.copy()?;
    match run_rules(alloc, setup, run, date, facts, testing) {
        Ok(left) => Ok((before, left)),
        Err(fault) => {
            drop(before);
            Err(fault)
        }
    }
}

/// A run over a borrowed testing: its two reports.
fn run_over(
    alloc: Global,
    setup: &Setup,
    run: u32,
    date: Date,
    facts: &Facts,
    testing: &mut Testing,
) -> Result<Reports, NoMemory>
    ensures ok { IfOk result (λ r. (s : Covered) → StandsFor facts.now s testing.old → let o : Outcome = record { testing = testing.new; excuses = r.excuses; updates = r.updates } in
        o ≡ outcome setup.now run date s testing.old) }
    ensures given { IfOk result (λ r. (s : Covered) → AreSaidBy facts.now s → IsGivenBy setup.now.archs s testing.old testing.new) }
    ensures watched { IfOk result (λ r. AllWatchedWork setup.now.archs testing.old.rows → AllWatchedWork setup.now.archs testing.new.rows) }
{
    let archs = setup.archs();
    let excuses = excuses(alloc, archs, facts, testing, date)?;
    let update = migrate(alloc, archs, facts, &excuses, testing)?;
    let reports = reports(alloc, archs, run, date, &excuses, &update);
    drop(update);
    drop(excuses);
    reports
}

/// What a run over a borrowed testing decides, and by which excuses, before it is written as texts.
pub(crate) fn judge_run(
    alloc: Global,
    setup: &Setup,
    date: Date,
    facts: &Facts,
    testing: &mut Testing,
) -> Result<Ruled, NoMemory>
    ensures { IfOk result (λ r. (s : Covered) → StandsFor facts.now s testing.old → IsRuled setup.now date s testing.old r testing.new) }
{
    let archs = setup.archs();
    let excuses = excuses(alloc, archs, facts, testing, date)?;
    match migrate(alloc, archs, facts, &excuses, testing) {
        Ok(update) => Ok(Ruled { excuses, update }),
        Err(fault) => {
            drop(excuses);
            Err(fault)
        }
    }
}

/// The two reports of a run.
pub(crate) fn reports(
    alloc: Global,
    archs: &Archs,
    run: u32,
    date: Date,
    excuses: &Excuses,
    update: &Update,
) -> Result<Reports, NoMemory>
    ensures excuses { IfOk result (λ r. r.excuses ≡ excuses_text archs.now run date excuses.now) }
    ensures updates { IfOk result (λ r. r.updates ≡ update_text archs.now run date update.now) }
{
    let excuses = excuses_text(alloc, archs, run, date, excuses)?;
    let updates = update_text(alloc, archs, run, date, update)?;
    Ok(Reports {
        excuses: Text::from_string(excuses),
        updates: Text::from_string(updates),
    })
}

/// What a run over a borrowed testing decides, before it is written as texts.
pub fn decisions_over(
    alloc: Global,
    setup: &Setup,
    date: Date,
    facts: &Facts,
    testing: &mut Testing,
) -> Result<Update, NoMemory>
    ensures { IfOk result (λ u. (s : Covered) → StandsFor facts.now s testing.old → u ≡ decisions_by setup.now date s testing.old) }
{
    let archs = setup.archs();
    let excuses = excuses(alloc, archs, facts, testing, date)?;
    let update = migrate(alloc, archs, facts, &excuses, testing)?;
    drop(excuses);
    Ok(update)
}
