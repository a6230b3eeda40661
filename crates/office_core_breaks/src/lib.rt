//! Which rows of testing would break if a source moved, if a group moved as one, or if versions left testing: all of
//! them, by architecture, beside the testing that the last finished run of an office left.
#![tactic(auto)]

mod asked;
mod breaks;
mod broken;
mod change;
pub mod laws;
mod lines;
mod offers;
mod told;

pub use asked::{Change, Question, question_in};
pub use breaks::breaks_text;
use deb_control::Text;

/// What is told of a question, and whether all that it names can change.
#[derive(Drop)]
pub struct BreaksText {
    pub text: Text,
    pub is_known: bool,
}
