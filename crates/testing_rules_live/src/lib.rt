//! Testing's rows and sources while a run changes them: what a move or a removal takes out and brings in, and the first
//! row that a change breaks, judged from scratch.
#![tactic(auto)]

mod change;
mod lack;
mod lent_rows;
mod live_rows;
mod live_sources;
mod offender;
mod pool_suites;
mod row_tests;

pub use lent_rows::{moved_rows, rows_without};
pub use live_rows::LiveRows;
pub use live_sources::LiveSources;
pub use offender::{fails_on, first_failing, offender_of, rows_on, with_answers};
pub use pool_suites::PoolSuites;
pub use row_tests::{is_of, is_row_of, is_same_key};
