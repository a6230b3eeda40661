//! The rows that are read, and the result of each.

use cases_office::put_row;
use std::{fs, io};

/// The file of the random rows.
const RANDOM_ROWS: &str = "random_rows";

/// Runs a row, whose first line says what it is about, and prints the result.
fn show(rt: &HostRuntime, row: &str) -> io::Result<()> {
    let about = row.lines().next().unwrap_or("");
    let mut came = String::new(rt.alloc());
    match put_row(rt.alloc(), row, &mut came) {
        Ok(()) => print!(rt; "=== {about}\n{came}"),
        Err(_) => Err(io::ErrorKind::OutOfMemory.into()),
    }
}

/// Runs each row of a text.
fn show_all(rt: &HostRuntime, text: &str) -> io::Result<()> {
    let text = text.strip_suffix('\n').unwrap_or(text);
    let text = text.strip_prefix("=== ").unwrap_or(text);
    for row in text.split("\n=== ") {
        show(rt, row)?;
    }
    Ok(())
}

/// Runs the rows of standard input, and then the random ones.
pub fn show_rows(rt: &HostRuntime) -> io::Result<()> {
    let text = io::read_to_string(rt.alloc(), rt.stdin())?;
    show_all(rt, text.as_str())?;
    drop(text);
    let text = fs::read_to_string(rt, RANDOM_ROWS)?;
    show_all(rt, text.as_str())
}
