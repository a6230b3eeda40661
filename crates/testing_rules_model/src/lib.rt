//! The promotion rules as definitions, the records that they use, and whether two of these are the same.
#![tactic(auto)]

mod excuse;
mod fact_row;
mod facts;
mod has_sources;
mod shared_binary;
mod suite;
mod update;
mod values;

pub use excuse::{Excuse, Excuses, Reason, Reasons};
pub use fact_row::{FactChanges, FactKind, FactRow, FactRows};
pub use facts::{BugIn, BuildIn, Delays, DelaysIn, DropIn, HintIn, UnhintIn, UploadIn};
pub use has_sources::HasSources;
pub use shared_binary::SharedBinary;
pub use suite::{LentRow, RowIn, SourceIn, source_place_near};
pub use update::{Decision, Moved, MovedItems, Offender, Update};
pub use values::{Same, are_same, is_row};
