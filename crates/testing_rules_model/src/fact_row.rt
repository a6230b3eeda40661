//! The rows in which facts are kept.

ghost use Rattle.std.specs.Prelude.{◌≡◌};
ghost use Rattle.testing_rules_model.specs.FactRows.{number_of, kind_of};

use testing_rules_items::Items;

/// The kind of a fact: an unstable source, an upload above testing's version, an unstable row, a greatest drop of its
/// pair, a bug's last message, a hint, an unhint, or the last delays. Rows are ordered by kind in this order.
#[derive(Clone, Copy, Debug, PartialEq, Eq, PartialOrd, Ord)]
pub enum FactKind {
    Source = 1,
    Upload,
    Build,
    Drop,
    Bug,
    Hint,
    Unhint,
    Delays,
}

impl FactKind {
    /// The number of the kind in tables.
    pub fn number(self) -> u32
        ensures { result ≡ number_of self }
    {
        self as u32
    }

    /// The kind with a number, if there is one.
    pub fn of_number(number: u32) -> Option<FactKind>
        ensures { result ≡ kind_of number }
    {
        match number {
            1 => Some(FactKind::Source),
            2 => Some(FactKind::Upload),
            3 => Some(FactKind::Build),
            4 => Some(FactKind::Drop),
            5 => Some(FactKind::Bug),
            6 => Some(FactKind::Hint),
            7 => Some(FactKind::Unhint),
            8 => Some(FactKind::Delays),
            _ => None,
        }
    }
}

/// The message that gives a fact, and the fact's kind. `sender` is the sender's place in the setup, from 0. `place` is
/// that of the paragraph, from 1, for an unstable row, else 0.
#[derive(Clone, Copy, Debug, PartialEq, Eq, PartialOrd, Ord)]
pub struct FactRow {
    pub kind: FactKind,
    pub sender: u32,
    pub number: u32,
    pub place: u32,
}

/// Rows of facts, in a list.
pub type FactRows = Items<FactRow>;

/// The changes of the rows of facts: rows to add to the kept ones, and rows to remove from them.
#[derive(Drop)]
pub struct FactChanges {
    pub put: FactRows,
    pub gone: FactRows,
}
