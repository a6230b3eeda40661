//! The tables of testing and of facts: the content of their rows, and how they are read with the kept mail and changed.
#![tactic(auto)]

pub mod differences;
pub mod entries;
pub mod fact_changes;
pub mod fact_rows;
pub mod faults;
pub mod loaded;
pub mod mail;
mod nearby;
pub mod rowids;
pub mod said;
pub mod shown;
pub mod testing;
