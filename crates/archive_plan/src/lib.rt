//! What to copy into a published suite and what to remove, so that it is what testing is; and what to tell the office,
//! so that its unstable is what an archive has.
#![tactic(auto)]

mod items;
mod laws;
mod merge;
mod plan;
mod sync;

pub use items::{Item, Relation, key_order};
pub use laws::{
    crowd_is_a_reason, fault_is_a_reason, nothing_is_due, second_has_no_lines, second_is_empty,
};
pub use merge::{is_in_order, picked};
pub use plan::{Plan, PlanFault, plan_of};
pub use sync::{Due, sync_of};
