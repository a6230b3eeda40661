//! The text on a source, from the facts and the testing that a run left.

ghost use Rattle.std.specs.Prelude.{◌≡◌, ◌++◌, [], Some, IfOk, option_copied};
ghost use Rattle.testing_rules_model.specs.Covered.{Covered};
ghost use Rattle.testing_rules_model.specs.Moves as moves;
ghost use Rattle.testing_rules_model.specs.StandsFor.{StandsFor};
ghost use Rattle.testing_rules_excuses.specs.Lines.{IsOriginText};
ghost use Rattle.testing_rules_excuses.specs.States as states;
ghost use Rattle.testing_rules_reports.specs.Sources as lines;
ghost use Rattle.office_core_why.specs.steps.Telling.{unstable_of};
ghost use Rattle.office_core_why.specs.Why.{AreOrigins, IsRefused, IsRefusedWhere, IsTold, IsToldBy, IsToldOf, said_in, sender_names};

use crate::WhyText;
use crate::idle::standing_lines;
use deb_control::{NoMemory, Text};
use jiff_core::civil::Date;
use office_mail::Setup;
use office_store_keeper::Reports;
use std::alloc::Global;
use testing_rules_excuses::{excuse_of, excuses, origin_lines, said_of};
use testing_rules_facts::{Facts, source_in};
use testing_rules_items::Archs;
use testing_rules_model::{Excuse, UploadIn};
use testing_rules_refusals::why_waits;
use testing_rules_reports::{source_text, waits_in};
use testing_rules_suites::Testing;

/// A source that is asked about, for a run of this number and date.
#[derive(Clone, Copy)]
pub(crate) struct AskedSource<'a> {
    pub run: u32,
    pub date: Date,
    pub source: &'a str,
}

/// The basis of lines on a source: the names of the senders, the architectures, and the facts of a run.
#[derive(Clone, Copy)]
pub(crate) struct AnswerInput<'g> {
    pub senders: &'g [Text],
    pub archs: &'g Archs,
    pub facts: &'g Facts,
}

/// The names of the senders.
fn sender_names(alloc: Global, setup: &Setup) -> Result<Vec<Text>, NoMemory>
    ensures { IfOk result (λ names. names.items ≡ sender_names setup.now) }
{
    let senders = setup.senders();
    let mut names = Vec::new(alloc);
    for sender in senders {
        names.push(sender.name.copy(alloc)?)?;
    }
    Ok(names)
}

/// A text without a line.
pub(crate) fn no_lines(alloc: Global) -> Text
    ensures { result ≡ [] }
{
    Text::from_string(String::new(alloc))
}

/// The origin of the reasons that keep a source of unstable out.
fn origins_of(
    alloc: Global,
    input: &AnswerInput<'_>,
    testing: &Testing,
    upload: &UploadIn,
    excuse: Option<&Excuse>,
) -> Result<Text, NoMemory>
    ensures { IfOk result (λ text. IsOriginText input.now.senders.now input.now.archs.now (said_in (unstable_of input.now.archs.now input.now.facts.now) testing.now upload.now) upload.now (option_copied excuse.entry) text) }
{
    let said = said_of(alloc, input.archs, input.facts, testing, upload)?;
    origin_lines(alloc, input.senders, input.archs, &said, upload, excuse)
}

/// The origin of the reasons that keep a source out; no line if unstable doesn't have it.
fn origins_in(
    alloc: Global,
    input: &AnswerInput<'_>,
    testing: &Testing,
    excuses: &[Excuse],
    source: &str,
) -> Result<Text, NoMemory>
    ensures { IfOk result (λ text. AreOrigins input.now.senders.now input.now.archs.now (unstable_of input.now.archs.now input.now.facts.now) testing.now (states.excuse_of excuses.now source.now) (moves.source_in input.now.facts.now.sources source.now) text) }
{
    let excuse = excuse_of(excuses, source);
    match source_in(input.facts.sources(), source) {
        Some(upload) => origins_of(alloc, input, testing, upload, excuse),
        None => Ok(no_lines(alloc)),
    }
}

/// Why the source of an excuse can't move alone; no line if the move breaks nothing.
fn refusal_of(
    alloc: Global,
    archs: &Archs,
    facts: &Facts,
    testing: &mut Testing,
    excuses: &[Excuse],
    excuse: &Excuse,
) -> Result<Text, NoMemory>
    ensures told { IfOk result (λ text. IsRefused archs.now (unstable_of archs.now facts.now) testing.old excuses.now (Some excuse.now) text) }
    ensures same { testing.new ≡ testing.old }
{
    match why_waits(alloc, archs, facts, excuses, excuse, testing)? {
        Some(text) => Ok(text),
        None => Ok(no_lines(alloc)),
    }
}

/// Why a source can't move alone; no line if it has no excuse.
fn refusal_in(
    alloc: Global,
    archs: &Archs,
    facts: &Facts,
    testing: &mut Testing,
    excuses: &[Excuse],
    source: &str,
) -> Result<Text, NoMemory>
    ensures told { IfOk result (λ text. IsRefused archs.now (unstable_of archs.now facts.now) testing.old excuses.now (states.excuse_of excuses.now source.now) text) }
    ensures same { testing.new ≡ testing.old }
{
    match excuse_of(excuses, source) {
        Some(excuse) => refusal_of(alloc, archs, facts, testing, excuses, excuse),
        None => Ok(no_lines(alloc)),
    }
}

/// Why a source that waits by an update can't move alone; no line on any other.
fn refusal_by(
    alloc: Global,
    input: &AnswerInput<'_>,
    testing: &mut Testing,
    excuses: &[Excuse],
    update: &str,
    source: &str,
) -> Result<Text, NoMemory>
    ensures told { IfOk result (λ text. IsRefusedWhere (lines.waits_in source.now update.now) input.now.archs.now (unstable_of input.now.archs.now input.now.facts.now) testing.old excuses.now (states.excuse_of excuses.now source.now) text) }
    ensures same { testing.new ≡ testing.old }
{
    let waits = waits_in(alloc, source, update)?;
    if waits {
        refusal_in(alloc, input.archs, input.facts, testing, excuses, source)
    } else {
        Ok(no_lines(alloc))
    }
}

/// A text followed by another.
fn joined(alloc: Global, first: &Text, second: &Text) -> Result<Text, NoMemory>
    ensures { IfOk result (λ text. text ≡ first.now ++ second.now) }
{
    let text = format!(in alloc; "{}{}", first.as_str(), second.as_str())?;
    Ok(Text::from_string(text))
}

/// What the reports of the run say of the source asked about, with the lines on its state and on the origin of the
/// reasons.
fn with_origins(
    alloc: Global,
    asked: &AskedSource<'_>,
    reports: &Reports,
    standing: &Text,
    origins: &Text,
) -> Result<Text, NoMemory>
    ensures { IfOk result (λ text. text ≡ lines.source_text asked.now.run asked.now.source.now reports.now.excuses reports.now.updates (standing.now ++ origins.now)) }
{
    let (excuses, update) = (reports.excuses.as_str(), reports.updates.as_str());
    let inner = joined(alloc, standing, origins)?;
    source_text(
        alloc,
        asked.run,
        asked.source,
        excuses,
        update,
        inner.as_str(),
    )
}

/// What the reports of the run say of the source asked about, with the lines on why it can't move alone.
fn with_reasons(
    alloc: Global,
    asked: &AskedSource<'_>,
    reports: &Reports,
    standing: &Text,
    origins: &Text,
    refusal: &Text,
) -> Result<Text, NoMemory>
    ensures { IfOk result (λ text. text ≡ lines.source_text asked.now.run asked.now.source.now reports.now.excuses reports.now.updates (standing.now ++ origins.now) ++ refusal.now) }
{
    let said = with_origins(alloc, asked, reports, standing, origins)?;
    joined(alloc, &said, refusal)
}

/// The text on the source asked about, from the excuses that the run left.
fn lines_from_excuses(
    alloc: Global,
    input: &AnswerInput<'_>,
    testing: &mut Testing,
    excuses: &[Excuse],
    asked: &AskedSource<'_>,
    reports: &Reports,
) -> Result<WhyText, NoMemory>
    ensures told { IfOk result (λ told. IsToldBy input.now.senders.now input.now.archs.now (unstable_of input.now.archs.now input.now.facts.now) testing.old excuses.now asked.now.run reports.now asked.now.source.now told) }
    ensures same { testing.new ≡ testing.old }
{
    let source = asked.source;
    let update = reports.updates.as_str();
    let upload = source_in(input.facts.sources(), source);
    let standing = standing_lines(alloc, input, testing, source, upload)?;
    let origins = origins_in(alloc, input, testing, excuses, source)?;
    let refusal = refusal_by(alloc, input, testing, excuses, update, source)?;
    let text = with_reasons(alloc, asked, reports, &standing, &origins, &refusal)?;
    Ok(WhyText {
        text,
        is_known: upload.is_some(),
    })
}

/// The text after the run on the source asked about, over the messages that the facts represent.
fn lines_after_run(
    alloc: Global,
    input: &AnswerInput<'_>,
    testing: &mut Testing,
    asked: &AskedSource<'_>,
    reports: &Reports,
) -> Result<WhyText, NoMemory>
    ensures told { IfOk result (λ told. (s : Covered) → StandsFor input.now.facts.now s testing.old → IsToldOf input.now.senders.now input.now.archs.now s testing.old asked.now.run asked.now.date reports.now asked.now.source.now told) }
    ensures same { testing.new ≡ testing.old }
{
    let excuses = excuses(alloc, input.archs, input.facts, testing, asked.date)?;
    lines_from_excuses(alloc, input, testing, excuses.as_slice(), asked, reports)
}

/// The text after the run on the source asked about, from the run's reports and testing, over the messages that the
/// facts represent.
pub(crate) fn lines_from_run(
    alloc: Global,
    setup: &Setup,
    facts: &Facts,
    testing: &mut Testing,
    asked: &AskedSource<'_>,
    reports: &Reports,
) -> Result<WhyText, NoMemory>
    ensures told { IfOk result (λ told. (s : Covered) → StandsFor facts.now s testing.old → IsTold setup.now s testing.old asked.now.run asked.now.date reports.now asked.now.source.now told) }
    ensures same { testing.new ≡ testing.old }
{
    let senders = sender_names(alloc, setup)?;
    let archs = setup.archs();
    let input = AnswerInput {
        senders: &senders,
        archs,
        facts,
    };
    lines_after_run(alloc, &input, testing, asked, reports)
}
