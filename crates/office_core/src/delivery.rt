//! One delivery: at a message's place there is nothing, its own text, or another.
#![tactic(auto, using(office_core_store::proofs::LastFacts::lasting))]

ghost use Rattle.std.specs.Prelude.{◌≡◌, ◌<◌, ◌∷◌, ◌⊎◌, [], Ok, Err, IfOk, IfErr, OnOk, bytes_eq, length, if◌then◌else◌};
ghost use Rattle.std.specs.FinMap.{get};
ghost use Rattle.office_mail.specs.Kept.{kept_from, place_of, IsPlace, Within};
ghost use Rattle.office_mail.specs.Read.{read};
ghost use Rattle.office_core_replies.specs.Answered.{CountedDelivery};
ghost use Rattle.office_core.specs.steps.StaysOffice.{StaysOffice};
ghost use Rattle.office_core_facts.specs.State.{AnswersDelivery, answer_at, answer_to};
ghost use Rattle.office_core.specs.steps.OnlyTakesMail.{OnlyTakesMail};

use office_core_replies::{DeliverFault, Held};
use office_core_store::stored;
use office_mail::{MailFault, Message, Setup, read_message};
use office_store_keeper::{Keeper, MailText};
use std::alloc::Global;

/// The answer if a text is kept already.
pub fn compare(held: Held, kept: &MailText, text: &[u8]) -> Result<Held, DeliverFault>
    ensures { result ≡ (if bytes_eq kept.now text.now then Ok held else Err DeliverFault.OtherText) }
{
    if kept.as_slice() == text {
        Ok(held)
    } else {
        Err(DeliverFault::OtherText)
    }
}

/// Keeps a message under its sender and number if they are free, or else compares its text with the kept one.
fn keep_or_compare<K: Keeper>(
    setup: &Setup,
    keeper: &mut K,
    message: &Message,
    text: &MailText,
) -> Result<Held, DeliverFault>
    requires read { read setup.now text.now ≡ Ok message.now }
    requires place { IsPlace setup.now (place_of message.now) }
    ensures answer { K.is_trusted keeper.new → AnswersDelivery result (answer_at text.now message.now (get (K.content keeper.old).kept (place_of message.now))) }
    ensures kept { K.is_trusted keeper.new → OnOk result ((K.content keeper.new).kept ≡ kept_from setup.now (K.content keeper.old).kept (text.now ∷ [])) }
    ensures within { K.is_trusted keeper.new → Within (K.content keeper.old).kept (K.content keeper.new).kept }
    ensures office { StaysOffice K.Keeper setup.now keeper.old keeper.new }
    ensures held { IfOk result (λ held. held.sender ≡ message.now.sender) }
    ensures runs { OnlyTakesMail K.Keeper keeper.old keeper.new result }
    ensures counted { CountedDelivery (K.refusals keeper.old) (K.refusals keeper.new) result }
{
    let held = Held {
        sender: message.sender,
        number: message.number,
    };
    match stored::find(keeper, held.sender, held.number)? {
        Some(kept) => compare(held, &kept, text.as_slice()),
        None => {
            stored::keep(keeper, held.sender, held.number, text)?;
            Ok(held)
        }
    }
}

/// Reads the message in a text, and makes a copy of the text for others to share.
fn read_shared(alloc: Global, setup: &Setup, text: &[u8]) -> Result<(Message, MailText), MailFault>
    ensures message { IfOk result (λ it. read setup.now text.now ≡ Ok it.0) }
    ensures text { IfOk result (λ it. it.1 ≡ text.now) }
    ensures place { IfOk result (λ it. IsPlace setup.now (place_of it.0)) }
    ensures fault { IfErr result (λ fault. (read setup.now text.now ≡ Err fault) ⊎ (fault ≡ MailFault.NoMemory)) }
{
    let message = read_message(alloc, setup, text)?;
    match MailText::shared(alloc, text) {
        Ok(text) => Ok((message, text)),
        Err(_) => {
            drop(message);
            Err(MailFault::NoMemory)
        }
    }
}

/// Takes a text, and keeps it if it is a message with a free number.
pub fn deliver_text<K: Keeper>(
    alloc: Global,
    setup: &Setup,
    keeper: &mut K,
    text: &[u8],
) -> Result<Held, DeliverFault>
    ensures answer { K.is_trusted keeper.new → AnswersDelivery result (answer_to setup.now (K.content keeper.old).kept text.now) }
    ensures kept { K.is_trusted keeper.new → OnOk result ((K.content keeper.new).kept ≡ kept_from setup.now (K.content keeper.old).kept (text.now ∷ [])) }
    ensures within { K.is_trusted keeper.new → Within (K.content keeper.old).kept (K.content keeper.new).kept }
    ensures office { StaysOffice K.Keeper setup.now keeper.old keeper.new }
    ensures place { IfOk result (λ held. held.sender < length setup.now.senders) }
    ensures runs { OnlyTakesMail K.Keeper keeper.old keeper.new result }
    ensures counted { CountedDelivery (K.refusals keeper.old) (K.refusals keeper.new) result }
{
    match read_shared(alloc, setup, text) {
        Ok((message, text)) => {
            let answer = keep_or_compare(setup, keeper, &message, &text);
            drop(message);
            drop(text);
            answer
        }
        Err(fault) => Err(DeliverFault::Mail(fault)),
    }
}
