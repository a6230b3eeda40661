//! Who sends mail to an office: setups, roles, the kinds of messages with their fields, and the values of fields.
#![tactic(auto)]

mod field;
mod kind;
mod paragraphs;
mod setup;
mod setup_read;
pub mod values;

pub use field::Field;
pub use kind::Kind;
pub use paragraphs::all_paragraphs;
pub use setup::{Role, Sender, Setup, SetupFault, SetupField};
