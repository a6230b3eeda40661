//! Replays a bag of mail in an office: delivers its messages, finishes what is ready, and writes the results.
#![tactic(auto)]

mod blocks;
mod end;
pub mod replay_laws;
mod replays;
mod watcher;

pub use replays::{Replayed, replay, replay_status, replay_watched, settle_behind};
pub use watcher::{Unwatched, Watcher};
