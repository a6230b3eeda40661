//! The facts of a run's mail: taken from the kept mail, put back from kept rows, and taken again.
#![tactic(auto)]

pub mod choice;
pub mod copies;
mod counts;
pub mod covered;
pub mod covers;
pub mod finished;
pub mod last_run;
pub mod release;
pub mod restored;
pub mod retaken;
pub mod seen;
pub mod taken;
pub mod walk;
