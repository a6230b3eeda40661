//! The tables of an office in sqlite: how they are made and recognised, the text of their setup, and the calls that
//! read and change them.
#![tactic(auto)]

pub mod checks;
pub mod fact_changes;
pub mod finished_runs;
pub mod layout;
pub mod mail;
pub mod runs;
pub mod schema;
pub mod setup_text;

pub use office_store_testing_tables::{entries, fact_rows, said};
