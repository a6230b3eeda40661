//! The office: it keeps mail on the sources of unstable, and finishes runs of the migration to testing (Debian
//! Developer's Reference 5.13) once their mail has come.
#![tactic(auto)]

mod answers;
mod asked;
mod batch;
mod counts;
mod delivery;
pub mod laws;
mod office;
mod results;
pub mod runs;
mod texts;
mod unbroken;

pub use batch::Reply;
pub use office::Office;
