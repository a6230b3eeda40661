//! The worked rows of the office: mail and requests, and their results. A row is run in an office in memory, and once
//! more over tables of sqlite; both must print the same.
#![tactic(auto)]

mod bytes;
mod chains;
mod checks;
mod failures;
mod noted_mail;
mod office_over;
mod questions;
mod replays;
mod sessions;
mod steps;

use noted_mail::{put_noted_in_memory, put_noted_in_tables};
use office_over::{put_in_memory, put_in_tables};
use sessions::tells_asked;
use std::alloc::{AllocError, Global};

/// Adds what a row prints to an empty text: its result in memory, and its result over tables, if that differs. A row may
/// ask for which mail each store was asked for, too.
pub fn put_row(alloc: Global, row: &str, came: &mut String) -> Result<(), AllocError> {
    let mut told = String::new(alloc);
    if tells_asked(row) {
        put_noted_in_memory(alloc, row, came)?;
        put_noted_in_tables(alloc, row, &mut told)?;
    } else {
        put_in_memory(alloc, row, came)?;
        put_in_tables(alloc, row, &mut told)?;
    }
    add_difference(&told, came)
}

/// Adds what came over tables to what came in memory, if it differs. Notes that differ follow the first.
fn add_difference(told: &String, came: &mut String) -> Result<(), AllocError> {
    if told.as_str() == came.as_str() {
        return Ok(());
    }
    came.push_str("over tables:\n")?;
    came.push_str(told.as_str())
}
