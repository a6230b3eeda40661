//! The programs over an archive's lists: their words, the files that they read, what they print, and their statuses.
#![tactic(auto)]

mod pages;
mod programs;
mod words;

pub use pages::Program;
pub use programs::run_program;
