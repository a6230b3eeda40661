//! What a request of the service asks for, and the bytes of its reply (RFC 9110, RFC 9112).
#![tactic(auto)]

mod days;
mod head;
mod hosts;
pub mod laws;
mod letters;
mod reply;
mod request;
pub mod routes;
mod sources;

pub use head::{BodyRead, FIELD_ROOM, HeadRead, read_head, read_up_to};
pub use hosts::method_for_other;
pub use reply::{Answer, Refusal, write_answer, write_continue};
pub use request::{Action, Asked, Page, Posted, asked_of, is_head_method};
