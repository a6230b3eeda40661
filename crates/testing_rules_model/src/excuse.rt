//! Excuses: why a source may or may not move.

use deb_control::Text;
use deb_version::Version;
use testing_rules_items::Items;

/// What keeps a source out. An architecture is its place in the setup, or 16 for `all`.
#[derive(Clone, Copy, Debug, PartialEq, Eq)]
pub enum Reason {
    TooYoung,
    NewBug(u32),
    NoBinaries,
    MissingOn(u32),
    Blocked,
    RemovalAsked,
}

/// What keeps a source out, in the report's order; empty if it may move.
pub type Reasons = Items<Reason>;

/// A source that isn't in testing, or whose unstable version is above testing's.
#[derive(Drop)]
pub struct Excuse {
    pub source: Text,
    pub testing: Option<Version>,
    pub unstable: Version,
    pub age: u32,
    pub needed: u32,
    pub reasons: Reasons,
}

/// The excuses of a run, by name.
pub type Excuses = Items<Excuse>;
