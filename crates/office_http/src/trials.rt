//! Hints that a request tries before they are mailed.
ghost use Rattle.std.specs.Prelude.{◌≡◌, ◌∷◌, [], IfErr, IfOk, slice_index_or};
ghost use Rattle.std.specs.List.{count_by};
ghost use Rattle.office_core_facts.specs.State.{state_of};
ghost use Rattle.office_http.specs.steps.Calls.{AsksPlaced};
ghost use Rattle.office_http.specs.steps.ServeSteps.{TellsTrial};
ghost use Rattle.office_http.specs.Trials.{begins_easy, has_many_hints, hints_in, is_mark, is_one_group, refused_hint, refused_line, request_terms, terms_on, trial_answer};
ghost use Rattle.office_core_replies.specs.Replies.{name_at};
ghost use Rattle.office_http_requests.specs.steps.Reply.{HasPlace};
ghost use Rattle.office_core.specs.Preserves.{Holds};
ghost use Rattle.office_core_facts.specs.Seen.{release};
ghost use Rattle.testing_rules_reports.specs.steps.LentLines.{lent_lines};
ghost use Rattle.office_core_outcome.specs.Trial.{trial_text};

use crate::short_texts::{line_count, short_text};
use deb_control::{NoMemory, Text};
use jiff_core::civil::Date;
use office_core::Office;
use office_core_outcome::{
    RefusedHint, Trial, TrialOptions, TrialReport, release_place, trial_text,
};
use office_core_replies::{DeliverFault, fault_words, name_at};
use office_core_store::StoreFault;
use office_http_requests::{Answer, Refusal};
use office_mail::{MailFault, Setup};
use office_store_keeper::Keeper;
use std::alloc::{AllocError, Global};
use testing_rules_reports::lines_of;

/// How many line ends and items a body of hints may have.
const MOST_MARKS: usize = 12;

/// What a trial takes that covers the mail of the release team alone, and has no day of its own.
pub(crate) fn request_terms() -> TrialOptions
    ensures { result ≡ request_terms }
{
    TrialOptions {
        day: None,
        all: false,
    }
}

/// The terms of a trial that covers all mail without a gap, on this day or later.
pub(crate) fn terms_on(day: Date) -> TrialOptions
    ensures { result ≡ terms_on day }
{
    TrialOptions {
        day: Some(day),
        all: true,
    }
}

/// Copies of texts.
fn copies(alloc: Global, texts: &[&str]) -> Result<Vec<Text>, AllocError>
    ensures { IfOk result (λ all. all.items ≡ lent_lines texts.now) }
{
    let mut all = Vec::new(alloc);
    'texts: for text in texts {
        all.push(Text::from_str(alloc, text)?)?;
    }
    Ok(all)
}

/// One empty line.
fn empty_line<'a>(alloc: Global) -> Result<Vec<&'a str>, AllocError>
    ensures { IfOk result (λ found. lent_lines found.items ≡ [] ∷ []) }
{
    let mut found = Vec::new(alloc);
    found.push("")?;
    Ok(found)
}

/// The lines of a text; an empty text has an empty one.
fn lines_in<'a>(alloc: Global, text: &'a str) -> Result<Vec<&'a str>, AllocError>
    ensures { IfOk result (λ found. lent_lines found.items ≡ hints_in text.now) }
{
    if text.is_empty() {
        return empty_line(alloc);
    }
    lines_of(alloc, text)
}

/// The hints of a body.
pub(crate) fn hints_in(alloc: Global, body: &str) -> Result<Vec<Text>, AllocError>
    ensures { IfOk result (λ hints. hints.items ≡ hints_in body.now) }
{
    let found = lines_in(alloc, body)?;
    copies(alloc, &found)
}

/// The hint at a place, empty if there is none.
pub(crate) fn hint_at(hints: &[Text], place: usize) -> &str
    ensures { result.now ≡ slice_index_or hints.now place [] }
{
    match hints.get(place) {
        Some(hint) => hint.as_str(),
        None => "",
    }
}

/// The line on a hint that is refused for this fault.
pub(crate) fn refused_hint(alloc: Global, hint: &str, fault: MailFault) -> Result<Text, NoMemory>
    ensures { IfOk result (λ line. line ≡ refused_hint hint.now fault) }
{
    let (cause, field) = fault_words(DeliverFault::Mail(fault));
    let line = format!(in alloc; "'{hint}': refused {cause}{field}\n")?;
    Ok(Text::from_string(line))
}

/// The line on a refused hint of these.
fn refused_line(alloc: Global, hints: &[Text], refused: RefusedHint) -> Result<Text, NoMemory>
    ensures { IfOk result (λ line. line ≡ refused_line hints.now refused) }
{
    refused_hint(alloc, hint_at(hints, refused.place), refused.fault)
}

/// The text of a trial of hints of the release team.
fn release_text(
    alloc: Global,
    setup: &Setup,
    hints: &[Text],
    report: &TrialReport,
    reasons: &Text,
) -> Result<Text, NoMemory>
    ensures { IfOk result (λ text. text ≡ trial_text (name_at setup.now (release setup.now)) hints.now report.now reasons.now) }
{
    let sender = name_at(setup, release_place(setup));
    trial_text(alloc, sender, hints, report, reasons)
}

/// The answer to hints, given the report of their trial.
fn trial_answer(
    alloc: Global,
    setup: &Setup,
    hints: &[Text],
    trial: &Trial,
) -> Result<Answer, NoMemory>
    ensures answer { IfOk result (λ answer. answer ≡ trial_answer setup.now hints.now trial.now) }
    ensures place { IfOk result (λ answer. HasPlace setup.now answer) }
{
    match trial {
        Trial::Told(report, reasons) => {
            let text = release_text(alloc, setup, hints, report, reasons)?;
            Ok(Answer::Told(short_text(alloc, text)?))
        }
        Trial::NoDate => Ok(Answer::Refused(Refusal::NoRun)),
        Trial::Refused(refused) => Ok(Answer::BadHint(refused_line(alloc, hints, *refused)?)),
    }
}

/// The answer to hints, given the report of their trial, which is dropped. It fails only if memory runs out.
fn answer_told(
    alloc: Global,
    setup: &Setup,
    hints: &[Text],
    trial: Trial,
) -> Result<Answer, StoreFault>
    ensures answer { IfOk result (λ answer. answer ≡ trial_answer setup.now hints.now trial) }
    ensures place { IfOk result (λ answer. HasPlace setup.now answer) }
    ensures no_store { IfErr result (λ fault. fault ≡ StoreFault.NoMemory) }
{
    let answer = trial_answer(alloc, setup, hints, &trial);
    drop(trial);
    Ok(answer?)
}

/// Whether a byte ends a line, or stands in an item.
fn is_mark(byte: u8) -> bool
    ensures { result ≡ is_mark byte }
{
    byte == b'\n' || byte == b'/'
}

/// How many bytes end a line or stand in an item.
fn mark_count(bytes: &[u8]) -> usize
    ensures { result ≡ count_by is_mark bytes.now }
{
    let mut count = 0;
    for byte in bytes {
        if is_mark(*byte) {
            count += 1;
        }
    }
    count
}

/// Whether a body begins as an `easy` hint does.
fn begins_easy(body: &[u8]) -> bool
    ensures { result ≡ begins_easy body.now }
{
    matches!(body, [b'e', ..])
}

/// Whether a body is one `easy` hint, without a line end.
fn is_one_group(body: &[u8]) -> bool
    ensures { result ≡ is_one_group body.now }
{
    begins_easy(body) && line_count(body) == 0
}

/// Whether a body has more hints and items than one request may try.
pub(crate) fn has_many_hints(body: &[u8]) -> bool
    ensures { result ≡ has_many_hints body.now }
{
    !is_one_group(body) && mark_count(body) > MOST_MARKS
}

/// The answer to hints that are tried over the office on these terms.
fn try_hints<K: Keeper>(
    office: &mut Office<K>,
    terms: TrialOptions,
    hints: &[Text],
) -> Result<Answer, StoreFault>
    ensures asks { AsksPlaced K.Keeper office.old office.new result }
    ensures tells { Holds K.Keeper office.old office.new → IfOk result (λ answer. TellsTrial (state_of K.Keeper office.old) terms hints.now answer) }
{
    let trial = office.try_hints(hints, terms)?;
    answer_told(office.alloc(), office.setup(), hints, trial)
}

/// The answer to the hints of a body that are tried over the office on these terms.
pub(crate) fn try_body<K: Keeper>(
    office: &mut Office<K>,
    terms: TrialOptions,
    body: &str,
) -> Result<Answer, StoreFault>
    ensures asks { AsksPlaced K.Keeper office.old office.new result }
    ensures tells { Holds K.Keeper office.old office.new → IfOk result (λ answer. TellsTrial (state_of K.Keeper office.old) terms (hints_in body.now) answer) }
{
    let hints = hints_in(office.alloc(), body)?;
    let answer = try_hints(office, terms, &hints);
    drop(hints);
    answer
}
