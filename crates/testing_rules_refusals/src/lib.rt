//! Why a change of testing is refused: the first row that it would break, with a line by line proof that this row isn't
//! installable after it. And why no group at all frees a source, in blocks of such lines.
#![tactic(auto)]

mod changes;
mod failures;
mod judged;
pub mod laws;
mod lines;
mod living;
mod needs;
mod proof_text;
mod providers;
mod reach;
mod refusal;
mod shown;
mod stuck;
mod told;

pub use changes::{group_refusal, removal_refusal, why_waits};
pub use lines::{push_clause, push_leaving, push_need, push_package};
pub use living::{is_in_testing, version_in};
pub use needs::{Need, meeting, need_at};
pub use proof_text::{Telling, push_reasons, refusal_text};
pub use refusal::{Refusal, refused};
pub use stuck::{BehindHints, Suspect, stuck_text};
pub use told::{Told, refusal_lines};
