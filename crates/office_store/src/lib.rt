//! The office's store in tables of sqlite, which are made, opened as they were left, or migrated from schema 1. It has
//! the kept mail, the reports of the finished runs and the testing suite. Also the files of the setup and of the store.
#![tactic(auto)]

mod among;
mod conf;
mod in_memory;
pub mod laws;
mod migration;
mod on_sqlite;
mod opened_tables;
mod openings;
mod store;

pub use conf::{ConfFault, conf_status, read_setup, setup_status};
pub use office_store_keeper::{
    Cause, Finished, KeepFault, Keeper, Letter, MailText, Plain, Reports,
};
pub use on_sqlite::Tables;
pub use openings::OpenFault;
pub use store::{FileFault, close_store, open_store, open_tables, store_status};
