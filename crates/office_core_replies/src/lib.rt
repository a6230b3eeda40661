//! The answers to deliveries: what is held, why one is refused, and the lines that say so.
#![tactic(auto)]

mod faults;
mod replies;

pub use faults::{DeliverFault, Held};
pub use replies::{Delivery, Mark, fault_words, name_at, write_reply};
