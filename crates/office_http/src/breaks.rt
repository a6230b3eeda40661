//! What a request asks that a change would break.
ghost use Rattle.std.specs.Prelude.{◌≡◌, IfOk};
ghost use Rattle.office_core.specs.Preserves.{Holds};
ghost use Rattle.office_core_facts.specs.State.{state_of};
ghost use Rattle.office_http.specs.steps.Calls.{AsksPlaced};
ghost use Rattle.office_http.specs.steps.ServeSteps.{TellsBreaks, TellsChanges, TellsQuestion, told_answer};
ghost use Rattle.office_http.specs.Trials.{hints_in};

use crate::short_texts::short_answer;
use crate::trials::{hint_at, hints_in, refused_hint};
use deb_control::Text;
use office_core::Office;
use office_core_breaks::{BreaksText, Question, question_in};
use office_core_store::StoreFault;
use office_http_requests::{Answer, Refusal};
use office_mail::MailFault;
use office_store_keeper::Keeper;

/// The answer to what is told of a question.
fn told_answer(told: Option<BreaksText>) -> Answer
    ensures { result ≡ told_answer told }
{
    match told {
        Some(BreaksText { text, is_known: _ }) => Answer::Told(text),
        None => Answer::Refused(Refusal::NoRun),
    }
}

/// The answer to a question on what a change breaks.
fn answer_question<K: Keeper>(
    office: &mut Office<K>,
    question: Question,
) -> Result<Answer, StoreFault>
    ensures asks { AsksPlaced K.Keeper office.old office.new result }
    ensures tells { Holds K.Keeper office.old office.new → IfOk result (λ answer. TellsQuestion (state_of K.Keeper office.old) question answer) }
{
    let told = office.breaks_text(&question);
    drop(question);
    Ok(told_answer(told?))
}

/// The answer to words that ask what a change breaks.
fn breaks_by<K: Keeper>(office: &mut Office<K>, words: &str) -> Result<Answer, StoreFault>
    ensures asks { AsksPlaced K.Keeper office.old office.new result }
    ensures tells { Holds K.Keeper office.old office.new → IfOk result (λ answer. TellsBreaks (state_of K.Keeper office.old) words.now answer) }
{
    match question_in(office.alloc(), office.setup(), words) {
        Ok(question) => answer_question(office, question),
        Err(MailFault::NoMemory) => Err(StoreFault::NoMemory),
        Err(fault) => Ok(Answer::BadHint(refused_hint(office.alloc(), words, fault)?)),
    }
}

/// The answer to a request for what the move of a source breaks.
pub(crate) fn breaks_of<K: Keeper>(
    office: &mut Office<K>,
    source: Text,
) -> Result<Answer, StoreFault>
    ensures asks { AsksPlaced K.Keeper office.old office.new result }
    ensures tells { Holds K.Keeper office.old office.new → IfOk result (λ answer. TellsBreaks (state_of K.Keeper office.old) source answer) }
{
    let answer = breaks_by(office, source.as_str());
    drop(source);
    answer
}

/// The answer to changes: one request asks about one.
fn answer_changes<K: Keeper>(office: &mut Office<K>, changes: &[Text]) -> Result<Answer, StoreFault>
    ensures asks { AsksPlaced K.Keeper office.old office.new result }
    ensures tells { Holds K.Keeper office.old office.new → IfOk result (λ answer. TellsChanges (state_of K.Keeper office.old) changes.now answer) }
{
    if changes.len() > 1 {
        return Ok(Answer::Refused(Refusal::TooManyHints));
    }
    let answer = breaks_by(office, hint_at(changes, 0))?;
    short_answer(office.alloc(), answer)
}

/// The answer to a body that asks what a change breaks.
pub(crate) fn breaks_body<K: Keeper>(
    office: &mut Office<K>,
    body: &str,
) -> Result<Answer, StoreFault>
    ensures asks { AsksPlaced K.Keeper office.old office.new result }
    ensures tells { Holds K.Keeper office.old office.new → IfOk result (λ answer. TellsChanges (state_of K.Keeper office.old) (hints_in body.now) answer) }
{
    let changes = hints_in(office.alloc(), body)?;
    let answer = answer_changes(office, &changes);
    drop(changes);
    answer
}
