//! Mail of a migration office: its bags, its setup, its messages, and when a run is ready.
#![tactic(auto)]

mod bag;
mod bodies;
mod covers;
mod feed;
mod fields;
mod hints;
pub mod laws;
mod message;
mod read;
mod readiness;
mod writer;

pub use bag::{Bag, BagFault, reads_one_way};
pub use covers::Numbers;
pub use feed::{Feed, FromRead, ReadFailed, Sink, ToWrite, WriteFailed};
pub use message::{Body, MAX_NUMBER, MailFault, Message, RunOrder};
pub use office_mail_setup::{Field, Kind, Role, Sender, Setup, SetupFault, SetupField};
pub use read::read_message;
pub use readiness::{latest_day, ready};
pub use writer::{Digits, WriteFault, write_all, write_parts};
