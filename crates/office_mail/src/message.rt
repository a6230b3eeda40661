//! Messages: the content of a text, or why it isn't a message.
ghost use Rattle.std.specs.Prelude.{◌≡◌};
ghost use Rattle.office_mail.specs.declared.message.MailFault.TheVariants as fault;

use crate::covers::Numbers;
use jiff_core::civil::Date;
use office_mail_setup::Field;
use std::alloc::{AllocError, AllocFailed};
use testing_rules_items::Item;
use thiserror::Error;

/// The greatest number of a message, and so of a run.
pub const MAX_NUMBER: u32 = 999_999_999;

/// Why a text isn't a message. The first fault that applies is reported.
#[derive(Clone, Copy, Debug, PartialEq, Eq, Error)]
pub enum MailFault {
    #[error("the text is too long")]
    TooLong,
    #[error("a paragraph can't be read")]
    BadParagraph,
    #[error("the field {0:?} is missing")]
    MissingField(Field),
    #[error("no such sender")]
    UnknownSender,
    #[error("a bad number")]
    BadNumber,
    #[error("no such kind of message")]
    UnknownKind,
    #[error("the sender has another role")]
    WrongRole,
    #[error("too many paragraphs")]
    TooManyParagraphs,
    #[error("no such architecture")]
    UnknownArchitecture,
    #[error("a bad value of {0:?}")]
    BadValue(Field),
    #[error("out of memory")]
    NoMemory,
}

impl From<AllocError> for MailFault {
    ghost from_gives = { λ _ e. e ≡ fault.NoMemory };

    fn from(_e: AllocError) -> MailFault {
        MailFault::NoMemory
    }
}

impl<T: Drop> From<AllocFailed<T>> for MailFault {
    ghost from_gives = { λ _ e. e ≡ fault.NoMemory };

    fn from(_e: AllocFailed<T>) -> MailFault {
        MailFault::NoMemory
    }
}

/// An order to run: its day, and for each sender the last number that it covers.
#[derive(Drop)]
pub struct RunOrder {
    pub day: Date,
    pub covers: Numbers,
}

/// The content of a message.
#[derive(Drop)]
pub enum Body {
    /// Something about packages, bugs or hints, or nothing.
    Item(Item),

    /// An order to run.
    Run(RunOrder),
}

/// A message, with its sender's place in the setup and its number.
#[derive(Drop)]
pub struct Message {
    pub sender: u32,
    pub number: u32,
    pub body: Body,
}
