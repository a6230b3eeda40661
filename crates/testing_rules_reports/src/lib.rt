//! The texts of a run: excuses, decisions, testing; and their lines: those of one source, and how two reports differ.
#![tactic(auto)]

mod hint_lines;
mod lines;
mod report;
mod sources;

pub use hint_lines::{Decided, TrialReport, has_changes, tried_text};
pub use lines::lines_of;
pub use report::{excuses_text, push_reason_words, testing_text, update_text};
pub use sources::{source_text, waits_in};
