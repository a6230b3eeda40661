//! The result of the search.

use deb_control::Text;

/// A candidate that no group frees: the package isn't installable on an architecture among all rows that may be present
/// once the candidate has moved. Of two, the one with the lower rank was found first, without the other.
#[derive(Drop)]
pub struct DeadSource {
    pub name: Text,
    pub arch: u32,
    pub package: Text,
    pub rank: u32,
}

/// A group whose hint would be too long for a message: its first source, its number of sources, and the bytes of the
/// hint.
#[derive(Drop)]
pub struct LongGroup {
    pub first: Text,
    pub sources: usize,
    pub bytes: usize,
}

/// The result of the search: an `easy` hint for each group, in the order in which the groups may move, and the groups
/// that are too long for a hint; the number of candidates that haven't moved after today's hints, and the dead ones of
/// them.
#[derive(Drop)]
pub struct Found {
    pub hints: Vec<Text>,
    pub long: Vec<LongGroup>,
    pub waiting: usize,
    pub dead: Vec<DeadSource>,
}
