//! Why a row of a suite isn't installable.
//!
//! A groundless list names present rows, each with one of its clauses, and all present rows that meet the clause are
//! earlier in the list. So no row of it is installable: nothing meets the first clause, and only refuted rows meet a
//! later one. It can be checked line by line, with no other knowledge.
#![tactic(auto)]

mod by_names;
mod chain;
mod checks;
pub mod laws;
mod needed;
mod order;
mod providers;
mod reached;
mod shown;
mod wakes;

pub use by_names::is_shown;
pub use chain::chain_from;
pub use needed::certificate_of;
pub use order::order_over;
pub use providers::{clause_of, row_of};
pub use shown::certificate;

/// A row, by its place, and one of its clauses, by its number.
#[derive(Clone, Copy, Debug, PartialEq, Eq)]
pub struct Step {
    pub place: usize,
    pub need: usize,
}
