//! Calls of a store, with its faults in the office's words.
#![tactic(auto)]

mod faults;
pub mod stored;

pub use faults::StoreFault;
