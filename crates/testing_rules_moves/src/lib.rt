//! The moves decided by a run, each against testing at its turn.
#![tactic(auto)]

mod beside;
mod breaks;
mod groups;
mod hint_turns;
mod live;
mod migration;
mod refusals;
mod singles;
mod turns;

pub use beside::{broken_by_group, broken_by_removal};
pub use hint_turns::{at_group, at_removal, hinted};
pub use migration::migrate;
pub use turns::Basis;
