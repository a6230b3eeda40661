//! The lines that answer deliveries, and how they are written.
ghost use Rattle.std.specs.Prelude.{◌≡◌, ◌++◌, ◌<◌, IfOk, length};
ghost use Rattle.office_core_replies.specs.Replies.{reply_line, fault_words, name_at, is_lost};
ghost use Rattle.office_mail.specs.Written.{Writes};

use crate::faults::{DeliverFault, Held};
use office_mail::{Digits, MailFault, Setup, Sink, WriteFault, write_parts};
use office_store_keeper::MailText;

/// What became of a delivery.
#[derive(Clone, Copy, Debug, PartialEq, Eq)]
pub enum Mark {
    Taken,
    LostForMemory,
    LostForStore,
}

impl Mark {
    /// Whether memory or the store lost the delivery.
    pub fn is_lost(self) -> bool
        ensures { result ≡ is_lost self }
    {
        !matches!(self, Mark::Taken)
    }
}

/// A delivery, seen by contracts alone.
#[derive(Drop)]
pub struct Delivery {
    pub text: MailText,
    pub mark: Mark,
}

/// The words of a refusal, in two parts.
pub fn fault_words(fault: DeliverFault) -> (&'static str, &'static str)
    ensures words { result.0.now ++ result.1.now ≡ fault_words fault }
    ensures short { length result.0.now < 20 }
{
    match fault {
        DeliverFault::Mail(MailFault::TooLong) => ("TooLong", ""),
        DeliverFault::Mail(MailFault::BadParagraph) => ("BadParagraph", ""),
        DeliverFault::Mail(MailFault::MissingField(field)) => ("MissingField ", field.name()),
        DeliverFault::Mail(MailFault::UnknownSender) => ("UnknownSender", ""),
        DeliverFault::Mail(MailFault::BadNumber) => ("BadNumber", ""),
        DeliverFault::Mail(MailFault::UnknownKind) => ("UnknownKind", ""),
        DeliverFault::Mail(MailFault::WrongRole) => ("WrongRole", ""),
        DeliverFault::Mail(MailFault::TooManyParagraphs) => ("TooManyParagraphs", ""),
        DeliverFault::Mail(MailFault::UnknownArchitecture) => ("UnknownArchitecture", ""),
        DeliverFault::Mail(MailFault::BadValue(field)) => ("BadValue ", field.name()),
        DeliverFault::Mail(MailFault::NoMemory) => ("NoMemory", ""),
        DeliverFault::OtherText => ("OtherText", ""),
        DeliverFault::Store => ("Store", ""),
    }
}

/// Writes the line that answers a delivery, or a prefix of it. It allocates nothing.
#[tactic(auto, unfolding(crate::specs::Replies::reply_line))]
pub fn write_reply<W: Sink>(
    setup: &Setup,
    reply: &Result<Held, DeliverFault>,
    writer: &mut W,
) -> Result<(), WriteFault>
    requires { IfOk reply.now (λ held. held.sender < length setup.now.senders) }
    ensures { Writes W.Sink writer.old writer.new (reply_line setup.now reply.now) result }
{
    match reply {
        Ok(held) => {
            let digits = Digits::of(u64::from(held.number));
            let name = setup.senders()[held.sender as usize]
                .name
                .as_str()
                .as_bytes();
            let parts = [
                b"held ".as_slice(),
                name,
                b" ".as_slice(),
                digits.as_slice(),
                b"\n".as_slice(),
            ];
            write_parts(writer, &parts)
        }
        Err(fault) => {
            let (word, field) = fault_words(*fault);
            let parts = [
                b"refused ".as_slice(),
                word.as_bytes(),
                field.as_bytes(),
                b"\n".as_slice(),
            ];
            write_parts(writer, &parts)
        }
    }
}

/// The name of the sender at a place, empty if there is none.
pub fn name_at(setup: &Setup, place: u32) -> &str
    ensures { result.now ≡ name_at setup.now place }
{
    match setup.senders().get(place as usize) {
        Some(sender) => sender.name.as_str(),
        None => "",
    }
}
