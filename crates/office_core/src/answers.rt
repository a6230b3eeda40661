//! What a delivery would be answered.
#![tactic(auto, using(office_core_store::proofs::LastFacts::lasting))]

ghost use Rattle.std.specs.Prelude.{◌≡◌, ◌<◌, Ok, IfOk, length};
ghost use Rattle.std.specs.FinMap.{get};
ghost use Rattle.office_mail.specs.Kept.{place_of};
ghost use Rattle.office_core_facts.specs.State.{AnswersDelivery, answer_at, answer_to};
ghost use Rattle.office_core.specs.steps.ChangesStore.{KeepsNothing};

use crate::delivery::compare;
use office_core_replies::{DeliverFault, Held};
use office_core_store::stored;
use office_mail::{Message, Setup, read_message};
use office_store_keeper::Keeper;
use std::alloc::Global;

/// The answer to a message, given the text kept under its sender and number.
fn answer_message<K: Keeper>(
    keeper: &mut K,
    message: &Message,
    text: &[u8],
) -> Result<Held, DeliverFault>
    ensures answer { K.is_trusted keeper.new → AnswersDelivery result (answer_at text.now message.now (get (K.content keeper.old).kept (place_of message.now))) }
    ensures held { IfOk result (λ held. held.sender ≡ message.now.sender) }
    ensures keeps { KeepsNothing K.Keeper keeper.old keeper.new result }
{
    let held = Held {
        sender: message.sender,
        number: message.number,
    };
    match stored::find(keeper, held.sender, held.number)? {
        Some(kept) => compare(held, &kept, text),
        None => Ok(held),
    }
}

/// The answer to a text. Nothing is kept.
pub fn answer<K: Keeper>(
    alloc: Global,
    setup: &Setup,
    keeper: &mut K,
    text: &[u8],
) -> Result<Held, DeliverFault>
    ensures answer { K.is_trusted keeper.new → AnswersDelivery result (answer_to setup.now (K.content keeper.old).kept text.now) }
    ensures place { IfOk result (λ held. held.sender < length setup.now.senders) }
    ensures keeps { KeepsNothing K.Keeper keeper.old keeper.new result }
{
    match read_message(alloc, setup, text) {
        Ok(message) => {
            let answer = answer_message(keeper, &message, text);
            drop(message);
            answer
        }
        Err(fault) => Err(DeliverFault::Mail(fault)),
    }
}
