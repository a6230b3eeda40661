//! Plans over texts: lists of what suites have, as dak's `control-suite` reads them, the lines of a plan, and the lines
//! of what is due to the office.
#![tactic(auto)]

mod lines;
mod list;
mod lists;
mod plan;
mod sync;

pub use lines::fault_lines;
pub use list::{ListFault, read_list};
pub use lists::{Listed, ListedFault, Lists, read_lists};
pub use plan::{plan_lines, plan_of_lists};
pub use sync::{due_lines, sync_of_lists};
