//! Why a delivery was refused, and where a text is held.
use office_core_store::StoreFault;
use office_mail::MailFault;
use thiserror::Error;

/// Why a delivery was refused.
#[derive(Clone, Copy, Debug, PartialEq, Eq, Error)]
pub enum DeliverFault {
    #[error("the text is no message")]
    Mail(MailFault),
    #[error("another text is kept under this number")]
    OtherText,
    #[error("the store failed")]
    Store,
}

impl From<StoreFault> for DeliverFault {
    ghost use Rattle.std.specs.Prelude.{◌≡◌};
    ghost use Rattle.office_core_replies.specs.Answered.{told_sender};

    ghost from_gives = { λ f e. e ≡ told_sender f };

    fn from(fault: StoreFault) -> DeliverFault {
        match fault {
            StoreFault::NoMemory => DeliverFault::Mail(MailFault::NoMemory),
            StoreFault::Store => DeliverFault::Store,
        }
    }
}

/// The sender and the number of a text that is kept.
#[derive(Clone, Copy, Debug, PartialEq, Eq)]
pub struct Held {
    pub sender: u32,
    pub number: u32,
}
