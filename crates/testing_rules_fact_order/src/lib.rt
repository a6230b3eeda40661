//! Which of two facts counts, the orders of kept facts, what one message gives to them, and their rows as they come and
//! go.
#![tactic(auto)]

mod entry;
mod halves;
mod log;
mod restored;
mod row_changes;
mod rows;
mod select;
mod trims;
mod uploads;

pub use entry::{Builds, FactUpdate, Sent, entry_of};
pub use halves::move_upper_half;
pub use log::{Log, Shifted};
pub use restored::{
    said_bug, said_build, said_delays, said_drop, said_hint, said_unhint, said_upload,
};
pub use row_changes::changes;
pub use rows::{
    bug_row, build_row, delays_row, drop_row, hint_row, source_row, unhint_row, upload_row,
};
pub use select::{
    are_both_elsewhere, bug_order, build_order, delays_order, drop_order, hint_order, is_above,
    is_current, is_of_source, is_same_version, later_delays, message_order, outlives, unhint_order,
    upload_order, urgency_rank,
};
pub use trims::trim_uploads;
pub use uploads::place_of_kept;
