//! The calls that take a date. Callers give a civil date of jiff; the rules below use jiff_core's, which it contains.

ghost use Rattle.std.specs.Prelude.{◌≡◌, IfOk, string_bytes};
ghost use Rattle.testing_rules_model.specs.Covered.{Covered};
ghost use Rattle.testing_rules_model.specs.Excuses.{excuses_of};
ghost use Rattle.testing_rules_model.specs.StandsFor.{StandsFor};
ghost use Rattle.testing_rules_reports.specs.Reports as texts;

use deb_version::NoMemory;
use jiff::civil::Date;
use std::alloc::Global;
use testing_rules_facts::Facts;
use testing_rules_items::Archs;
use testing_rules_model::{Excuses, Update};
use testing_rules_suites::Testing;

/// The excuses of a run on the given date, over the messages that the facts stand for.
pub fn excuses(
    alloc: Global,
    archs: &Archs,
    facts: &Facts,
    testing: &Testing,
    date: Date,
) -> Result<Excuses, NoMemory>
    ensures { IfOk result (λ es. (s : Covered) → StandsFor facts.now s testing.now → es ≡ excuses_of archs.now s testing.now date) }
{
    testing_rules_excuses::excuses(alloc, archs, facts, testing, date.to_plain())
}

/// The report on a run's excuses.
pub fn excuses_text(
    alloc: Global,
    archs: &Archs,
    run: u32,
    date: Date,
    excuses: &Excuses,
) -> Result<String, NoMemory>
    ensures { IfOk result (λ t. string_bytes t ≡ texts.excuses_text archs.now run date excuses.now) }
{
    testing_rules_reports::excuses_text(alloc, archs, run, date.to_plain(), excuses)
}

/// The report on a run's decisions.
pub fn update_text(
    alloc: Global,
    archs: &Archs,
    run: u32,
    date: Date,
    update: &Update,
) -> Result<String, NoMemory>
    ensures { IfOk result (λ t. string_bytes t ≡ texts.update_text archs.now run date update.now) }
{
    testing_rules_reports::update_text(alloc, archs, run, date.to_plain(), update)
}
