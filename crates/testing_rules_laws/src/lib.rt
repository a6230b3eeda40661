//! What the promotion rules guarantee over whole runs and about facts kept as rows: laws, and no code.
#![tactic(auto)]

pub mod kept_laws;
pub mod laws;
