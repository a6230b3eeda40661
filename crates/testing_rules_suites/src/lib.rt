//! Testing, the pool of rows that may be in it, and the suites of the architectures over that pool, which try changes.
#![tactic(auto)]

mod arch_suite;
mod carried_suites;
mod change;
mod lent_rows;
mod lent_suites;
mod offender;
mod pool;
mod row_order;
mod suite;
mod trial;
mod watched;

pub use arch_suite::ArchSuite;
pub use carried_suites::CarriedSuites;
pub use change::Change;
pub use lent_rows::{copy_lent, lend_rows, put_row};
pub use offender::{RowAnswer, is_row_on};
pub use pool::Pool;
pub use row_order::order_rows;
pub use suite::{Testing, place_of_name};
pub use trial::lost_anywhere;
pub use watched::{first_of_two, is_watched_on};
