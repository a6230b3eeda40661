//! Reports on an office's kept mail: the mail as a bag or in parts of it, a list of it, how much it is, and the order
//! to cover it. Also a line for each finished run.
#![tactic(auto)]

pub mod backup_laws;
mod covers;
mod faults;
mod hints;
mod list;
mod mail;
mod mail_export;
mod message_line;
mod next_order;
mod numbers;
mod parts;
mod run_lines;
mod walk;

pub use faults::AskFault;
pub use list::write_list;
pub use mail::{MailCount, mail_counts, mail_text};
pub use mail_export::export;
pub use next_order::order_text;
pub use parts::bag_part;
pub use run_lines::runs_text;
