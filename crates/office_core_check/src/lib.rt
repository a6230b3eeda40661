//! Whether a store's tables hold what an office leaves, and no row more: all its runs are made anew from the mail that
//! it keeps, and what it holds of them is compared. And an office in memory as an earlier run of a store left it, which
//! is made of the same mail; and what an office tells of a source for a run.
#![tactic(auto)]

mod comparison;
mod earlier;
mod letters;
mod memory;
mod rebuilt;
mod report;
mod store_check;
mod unread;

pub use earlier::{office_after, office_before, told_after_run, why_of_run};
pub use memory::Bounded;
pub use report::{check_status, checked_text};
pub use store_check::check;

/// The first difference of a store from an office that took the same mail.
#[derive(Clone, Copy, Debug, PartialEq, Eq)]
pub enum Difference {
    /// The text kept there isn't a message of that sender and number.
    Mail { sender: u32, number: u32 },
    /// The run is finished, but it isn't ready: mail that it covers isn't kept.
    RunMail { run: u32 },
    /// The excuses of the run differ.
    Excuses { run: u32 },
    /// The update of the run differs.
    Update { run: u32 },
    /// Testing differs.
    Testing,
    /// The rows of facts differ.
    Facts,
    /// All this is the same, but the store also keeps what no office leaves, or it doesn't read as an office writes it.
    Tables,
}

/// A part of a store.
#[derive(Clone, Copy, Debug, PartialEq, Eq)]
pub enum Part {
    /// The office's own row.
    Office,
    /// The mail of a sender.
    Mail { sender: u32 },
    /// The reports of a run.
    Run { run: u32 },
    Testing,
    Facts,
}

/// What a check of a store found.
#[derive(Clone, Copy, Debug, PartialEq, Eq)]
pub enum Checked {
    /// It holds what an office with that many finished runs leaves.
    Whole { runs: u32 },
    /// It doesn't.
    Differs(Difference),
    /// A row of this part doesn't read as an office writes it, or names mail that isn't kept or doesn't give it.
    Unread { part: Part },
}
