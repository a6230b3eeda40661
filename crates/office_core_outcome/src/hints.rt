//! Hints as messages of the release team.

ghost use Rattle.std.specs.Prelude.{◌≡◌, ◌≤◌, ◌+◌, ◌++◌, ◌∷◌, [], None, Some, IfOk};
ghost use Rattle.office_mail.specs.Read.{read};
ghost use Rattle.office_core_facts.specs.Seen.{release};
ghost use Rattle.office_core_outcome.specs.Hints.{hint_text, hint_letter, hint_letters, refusal_in, hint_refusal, first_refused};

use crate::RefusedHint;
use deb_control::{NoMemory, Text};
use office_core_facts::release::release_place;
use office_core_replies::name_at;
use office_mail::{MAX_NUMBER, MailFault, Setup, read_message};
use office_store_keeper::{Letter, MailText};
use std::alloc::{AllocError, Global};

/// The message of a hint.
#[tactic(auto, unfolding(crate::specs::Hints::hint_text))]
fn hint_letter(alloc: Global, setup: &Setup, number: u32, hint: &str) -> Result<Letter, AllocError>
    ensures { IfOk result (λ letter. letter ≡ hint_letter setup.now number hint.now) }
{
    let name = name_at(setup, release_place(setup));
    let text = format!(in alloc; "From: {name}\nNumber: {number}\nKind: hint\nHint: {hint}\n")?;
    Ok(Letter {
        number,
        text: MailText::of(text.into_bytes()),
    })
}

/// Why a text is refused, if it is.
fn refusal_in(alloc: Global, setup: &Setup, text: &[u8]) -> Result<Option<MailFault>, NoMemory>
    ensures { IfOk result (λ refusal. refusal ≡ refusal_in (read setup.now text.now)) }
{
    match read_message(alloc, setup, text) {
        Ok(message) => {
            drop(message);
            Ok(None)
        }
        Err(fault) => refused_for(fault),
    }
}

/// A refusal, unless memory ran out.
fn refused_for(fault: MailFault) -> Result<Option<MailFault>, NoMemory>
    ensures { IfOk result (λ refusal. (refusal ≡ Some fault) × (fault ≡ MailFault.NoMemory → ⊥)) }
{
    match fault {
        MailFault::NoMemory => Err(NoMemory),
        _ => Ok(Some(fault)),
    }
}

/// Adds the message of a hint under the number after this one, or returns why it is refused.
#[tactic(auto, unfolding(crate::specs::Hints::hint_refusal))]
fn take_hint(
    alloc: Global,
    setup: &Setup,
    letters: &mut Vec<Letter>,
    number: u32,
    hint: &str,
) -> Result<Option<MailFault>, NoMemory>
    ensures refusal { IfOk result (λ refusal. refusal ≡ hint_refusal setup.now (number + 1) hint.now) }
    ensures few { IfOk result (λ refusal. refusal ≡ None → number + 1 ≤ 999_999_999) }
    ensures letters { IfOk result (λ refusal. refusal ≡ None → letters.new.items ≡ letters.old.items ++ hint_letters setup.now number (hint.now ∷ [])) }
{
    if number >= MAX_NUMBER {
        return Ok(Some(MailFault::BadNumber));
    }
    let letter = hint_letter(alloc, setup, number + 1, hint)?;
    let refusal = refusal_in(alloc, setup, letter.text.as_slice())?;
    letters.push(letter)?;
    Ok(refusal)
}

/// Adds the messages of hints, numbered from the one after this number, up to the first refused one.
pub(crate) fn take_hints(
    alloc: Global,
    setup: &Setup,
    letters: &mut Vec<Letter>,
    number: u32,
    hints: &[Text],
) -> Result<Option<RefusedHint>, NoMemory>
    ensures refused { IfOk result (λ refused. refused ≡ first_refused setup.now number 0 hints.now) }
    ensures letters { IfOk result (λ refused. refused ≡ None → letters.new.items ≡ letters.old.items ++ hint_letters setup.now number hints.now) }
{
    let mut last = number;
    let mut place = 0;
    'hints: for hint in hints {
        if let Some(fault) = take_hint(alloc, setup, letters, last, hint.as_str())? {
            return Ok(Some(RefusedHint { place, fault }));
        }
        last += 1;
        place += 1;
    }
    Ok(None)
}
