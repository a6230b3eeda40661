//! What is true of the runs of an office, in words that no call needs: what they move was there, the order that is told
//! is taken, and what is shown to be stuck stays.
#![tactic(auto)]

pub mod laws;
