//! The content of the office's messages as values: architectures, uploads, builds, bugs and wishes.
#![tactic(auto)]

mod arch_names;
mod archs;
mod distinct;
mod guessed;
mod item;
mod items;

pub use arch_names::are_archs;
pub use archs::{ALL, Archs, ArchsFault};
pub use distinct::are_distinct;
pub use guessed::{next_place, search_near};
pub use item::{Binaries, Hint, HintItem, HintItems, Item, Names, Severity, Urgency, copy_version};
pub use items::Items;
