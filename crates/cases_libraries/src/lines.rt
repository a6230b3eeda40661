//! Steps whose lines are answered one by one.

use crate::plain::plain_bytes;
use crate::relations::{put_clauses_of, put_holds, put_provisions_of};
use crate::setups::put_archs;
use crate::versions::{put_order, put_status, put_told, put_version};
use crate::words::{put_args_fault, put_words};
use std::alloc::AllocError;
use std::str;

/// Takes a step whose lines are answered one by one.
pub fn take_lines(
    rt: &HostRuntime,
    what: &str,
    text: &str,
    came: &mut String,
) -> Result<(), AllocError> {
    for line in text.split('\n') {
        take_line(rt, what, line, came)?;
        came.push_str("\n")?;
    }
    Ok(())
}

/// Adds a line as it is written, and the answer to its meaning.
fn take_line(
    rt: &HostRuntime,
    what: &str,
    line: &str,
    came: &mut String,
) -> Result<(), AllocError> {
    write!(came, "{line}:")?;
    let bytes = plain_bytes(rt.alloc(), line)?;
    answer(rt, what, str::from_utf8(&bytes).unwrap_or(""), came)
}

/// Adds the answer to a text about versions, or to another one. It begins with a space.
fn answer(rt: &HostRuntime, what: &str, text: &str, came: &mut String) -> Result<(), AllocError> {
    match what {
        "version" => put_version(rt.alloc(), text, came),
        "order" => put_order(text, came),
        "compare" => put_status(text, came),
        "tell" => put_told(rt, text, came),
        _ => other_answer(rt, what, text, came),
    }
}

/// Adds the answer to a text about relations, architectures or words.
fn other_answer(
    rt: &HostRuntime,
    what: &str,
    text: &str,
    came: &mut String,
) -> Result<(), AllocError> {
    match what {
        "relations" => put_clauses_of(rt.alloc(), text, came),
        "provisions" => put_provisions_of(rt.alloc(), text, came),
        "holds" => put_holds(rt.alloc(), text, came),
        "archs" => put_archs(rt.alloc(), text, came),
        "words" => put_words(rt.alloc(), text, came),
        "arguments" => put_args_fault(text, came),
        _ => came.push_str(" no such step"),
    }
}
