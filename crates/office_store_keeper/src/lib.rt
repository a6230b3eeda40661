//! The store of the office as one trait that says what each call does, and the store in memory.
#![tactic(auto)]

mod fact_rows;
mod faults;
mod keeper;
mod memory;
mod values;

pub use fact_rows::rows_in_order;
pub use faults::{Cause, KeepFault};
pub use keeper::Keeper;
pub use memory::Plain;
pub use values::{Finished, Letter, MailText, NewLetter, Reports};
