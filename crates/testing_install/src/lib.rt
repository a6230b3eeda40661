//! Which rows of one architecture are installable: those that some closed set of rows contains.
//!
//! `installable` answers for each row, and `installable_counted` also counts its steps. Each clause rests on one row of
//! the set that meets it, and is checked again only if that row is removed.
//!
//! A `Suite` has rows, some of them present, and tries changes of these. The cost of a trial depends on what the change
//! touches, not on the size of the suite. Adding rows costs only the work for the new rows.
#![tactic(auto)]

mod change;
mod claims;
mod counted;
mod dependents;
mod find;
mod graph;
mod index;
pub mod laws;
mod marks;
mod satisfies;
mod settle;
mod state;
mod suite;
mod trials;
mod work;

pub use counted::{Counted, installable, installable_counted};
use deb_control::Binary;
pub use dependents::note_clause;
pub use index::{NameIndex, hash_of, note_row};
pub use satisfies::meets;
pub use suite::Suite;

/// A row of testing: a binary package on an architecture.
#[derive(Clone, Copy)]
pub struct Row<'a> {
    pub binary: &'a Binary,
}
