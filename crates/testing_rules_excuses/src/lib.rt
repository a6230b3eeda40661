//! Why a source may move to testing or may not yet, the origins of the reasons that keep it out, and the state of a row
//! of unstable.
#![tactic(auto)]

mod bug_search;
mod by_source;
mod days;
mod fallen_sources;
pub mod laws;
mod messages;
mod near;
mod own_hints;
mod readiness;
mod reason_lines;
mod reasons;
mod run_excuses;
mod source_facts;
mod source_filter;
mod states;

pub use fallen_sources::fallen;
pub use messages::{Origin, age_hint, origins};
pub use near::source_near;
pub use reason_lines::origin_lines;
pub use run_excuses::excuses;
pub use source_facts::{SourceFacts, said_of};
pub use states::{State, excuse_of, state_of};
