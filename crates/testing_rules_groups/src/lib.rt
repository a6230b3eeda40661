//! Groups of candidates that may move together, in order, and the candidates that no group frees. The search promises
//! nothing about its result: whoever prints its groups lets a run try them first.
#![tactic(auto)]

mod agreement;
mod candidates;
mod dead;
mod dependence;
mod flags;
mod found;
mod groups;
mod knots;
mod scope;
mod search;
mod testing_after;

pub use found::{DeadSource, Found, LongGroup};
pub use search::{Start, find_groups};
