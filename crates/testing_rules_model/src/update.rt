//! Decisions: what a run did to testing.

use deb_control::Text;
use deb_version::Version;
use testing_rules_items::Items;

/// The first row that a change would break: its architecture and package.
#[derive(Drop)]
pub struct Offender {
    pub arch: u32,
    pub package: Text,
}

/// A source that moved, at its unstable version.
#[derive(Drop)]
pub struct Moved {
    pub name: Text,
    pub version: Version,
}

/// The sources that moved together, in the order of the hint.
pub type MovedItems = Items<Moved>;

/// One decision. `hint` is the number of the hint's message.
#[derive(Drop)]
pub enum Decision {
    RemoveDone {
        hint: u32,
        name: Text,
        version: Version,
    },
    RemoveRefused {
        hint: u32,
        name: Text,
        version: Version,
        offender: Offender,
    },
    EasyDone {
        hint: u32,
        items: MovedItems,
    },
    EasyNotCandidate {
        hint: u32,
        name: Text,
        version: Version,
    },
    EasyRefused {
        hint: u32,
        offender: Offender,
    },
    Accept {
        name: Text,
        version: Version,
    },
    Wait {
        name: Text,
        version: Version,
        offender: Offender,
    },
}

/// The decisions of a run, in their order.
pub type Update = Items<Decision>;
