//! The office, its replay and its service over HTTP.
#![tactic(auto)]

mod breaks;
mod hosts;
pub mod laws;
mod proposals;
mod serve;
pub mod service_laws;
mod short_texts;
mod trials;

pub use hosts::serve_as_hosts;
pub use office_core::Office;
pub use office_core_orders::{Awaited, Lack, Progress, Waiting, waiting_text};
pub use office_core_replay::{Replayed, Unwatched, Watcher, replay, replay_status, replay_watched};
pub use office_core_replies::{DeliverFault, Delivery, Held, Mark};
pub use office_core_store::StoreFault;
pub use office_http_requests::routes::{Routes, routes};
pub use office_mail::WriteFault;
pub use serve::{ServeFault, Served, serve_one, serve_with_routes};
