//! The facts of the covered messages: how messages are taken one by one, the lists of facts, unstable's rows in blocks,
//! and the part that a run may use.
#![tactic(auto)]

mod build_blocks;
mod built;
mod copies;
mod facts;
mod hints_in_force;
mod moves;
mod shared_clauses;
mod shifts;
mod source_filter;
mod taken;

pub use built::{built_rows, rows_passing};
pub use facts::Facts;
pub use hints_in_force::{Unhints, is_in_force};
pub use moves::{Unstable, as_source, place_of_group, source_in, source_near};
pub use source_filter::{Hashes, SourceFilter, candidates, hashes_pass, passing_rows, set_of};
pub use taken::place_of_bug;
pub use testing_rules_fact_order::{
    is_above, is_current, is_of_source, is_same_version, urgency_rank,
};
