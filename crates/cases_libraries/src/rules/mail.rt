//! Messages, and how facts take them.

use crate::rules::fault::Fault;
use deb_version::NoMemory;
use office_mail::{Body, MailFault, Message, Setup, read_message};
use std::alloc::Global;
use testing_rules::{Facts, Item};

/// Appends the messages of these lines, which a line `--` separates.
pub fn read_mail(
    alloc: Global,
    setup: &Setup,
    mail: &mut Vec<Message>,
    text: &str,
) -> Result<(), Fault> {
    for text in text.split("\n--\n") {
        mail.push(message_of(alloc, setup, text)?)?;
    }
    Ok(())
}

/// The message of these lines.
fn message_of(alloc: Global, setup: &Setup, text: &str) -> Result<Message, Fault> {
    match read_message(alloc, setup, text.as_bytes()) {
        Ok(message) => Ok(message),
        Err(MailFault::NoMemory) => Err(Fault::NoMemory),
        Err(_) => Err(Fault::Wrong("a text that is no message")),
    }
}

/// What a message says, unless it is an order to run.
fn item_in(message: &Message) -> Option<&Item> {
    match &message.body {
        Body::Item(item) => Some(item),
        Body::Run(_) => None,
    }
}

/// What the message of a sender and a number says.
pub fn item_of(mail: &[Message], sender: u32, number: u32) -> Option<&Item> {
    for message in mail {
        if message.sender == sender && message.number == number {
            return item_in(message);
        }
    }
    None
}

/// The facts take a message.
pub fn take(facts: &mut Facts, message: &Message) -> Result<(), NoMemory> {
    match item_in(message) {
        Some(item) => facts.take(message.sender, message.number, item),
        None => Ok(()),
    }
}

/// The facts take these messages, the first one first.
pub fn take_on(facts: &mut Facts, mail: &[Message]) -> Result<(), NoMemory> {
    for message in mail {
        take(facts, message)?;
    }
    Ok(())
}

/// The facts take these messages, the last one first.
pub fn take_back(facts: &mut Facts, mail: &[Message]) -> Result<(), NoMemory> {
    for message in mail.iter().rev() {
        take(facts, message)?;
    }
    Ok(())
}
