//! What the office's program does with an office. It replays bags of mail from standard input, and serves mail and
//! reports over HTTP on loopback. Over a store in memory or in a file it prints earlier reports and what a run waits
//! for. Of a store in a file it answers questions about the runs and the mail, and checks it. It prints why sources are
//! where a run left them, tries hints and proposes some, and prints which messages of a bag are refused.
#![tactic(auto)]

mod answers;
mod arrived;
mod checks;
mod client;
mod clients;
mod journal;
mod noted;
mod printer;
mod proposals;
mod questions;
mod reasons;
mod service;
mod setups;
mod status;
mod tasks;
mod trials;

pub use clients::serve_clients;
pub use office_store::{
    ConfFault, FileFault, close_store, conf_status, open_store, open_tables, read_setup,
    setup_status, store_status,
};
pub use service::{ServiceFault, listen, serve, service_status};
pub use tasks::run_command;
