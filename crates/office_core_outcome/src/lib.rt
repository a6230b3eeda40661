//! A run by the rules over facts: testing after it, and its two reports. Also what the next run would decide if some
//! hints were covered too, which hints it would do, and proofs that none frees a source. Nothing is kept.
#![tactic(auto)]

mod asked;
mod decisions;
mod grouped;
mod hint_texts;
mod hint_trials;
mod hints;
mod kept_moves;
pub mod laws;
mod no_candidate;
mod proposal;
mod proposal_search;
mod refused_hints;
mod refused_items;
mod rules;
mod search_notes;
mod snapshot;
mod stuck;
mod trials;

use deb_control::Text;
pub use decisions::testing_text;
pub use hint_texts::hint_told;
use jiff_core::civil::Date;
pub use office_core_facts::release::release_place;
use office_mail::MailFault;
pub use proposal::{AskedSource, Proposal, SearchNotes, SourceEnd, proposal_text};
pub use proposal_search::propose;
pub use rules::{RunOutcome, run_beside};
pub use testing_rules_groups::{DeadSource, LongGroup};
pub use testing_rules_reports::{Decided, TrialReport, has_changes};
pub use trials::{trial_text, try_hints};

/// The terms of a trial: a day, if one is given, and whether it covers all mail of all senders that is kept without a
/// gap.
#[derive(Clone, Copy, Debug, PartialEq, Eq)]
pub struct TrialOptions {
    pub day: Option<Date>,
    pub all: bool,
}

/// A refused hint, by its place among the hints, and why.
#[derive(Clone, Copy, Debug, PartialEq, Eq)]
pub struct RefusedHint {
    pub place: usize,
    pub fault: MailFault,
}

/// What a trial of hints reports.
#[derive(Drop)]
pub enum Trial {
    /// What the next run would decide, and lines on why it refuses some of the hints.
    Told(TrialReport, Text),
    /// No run is finished, and no day is given.
    NoDate,
    /// A hint is refused.
    Refused(RefusedHint),
}

/// The text on a hint for a run, and whether the run covers it.
#[derive(Drop)]
pub struct HintText {
    pub text: Text,
    pub is_known: bool,
}
