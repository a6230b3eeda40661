//! The run orders in a store's mail: which run is ready, and what the next one waits for.
#![tactic(auto)]

pub mod orders;
pub mod ready;
mod wait_lines;
pub mod waits;

pub use wait_lines::{Awaited, Lack, Progress, Waiting, waiting_text};
