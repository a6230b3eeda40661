//! Why a source is where the last finished run of an office left it, in lines; and over all mail without a gap the
//! hints in force and unstable.
#![tactic(auto)]

mod hints;
mod idle;
mod later;
pub mod laws;
mod seen;
mod told;
mod unstable;
mod why;

use deb_control::Text;
pub use seen::{hints_text, unstable_text};
pub use why::why_text;

/// The text on a source, and whether unstable has it.
#[derive(Drop)]
pub struct WhyText {
    pub text: Text,
    pub is_known: bool,
}
