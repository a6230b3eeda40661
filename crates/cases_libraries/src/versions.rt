//! Versions, their order, and the statuses of comparisons.

use deb_version::{Version, compare_texts};
use office_cli_words::{compare, compare_status};
use std::alloc::{AllocError, Global};

/// Adds the version that a text states, or why it states none.
pub fn put_version(alloc: Global, text: &str, came: &mut String) -> Result<(), AllocError> {
    match Version::parse(alloc, text) {
        Ok(version) => put_copy(alloc, &version, came),
        Err(fault) => write!(came, " refused, {fault}"),
    }
}

/// Adds the copy of a version, and how it compares with the version.
fn put_copy(alloc: Global, version: &Version, came: &mut String) -> Result<(), AllocError> {
    match version.copy(alloc) {
        Ok(copy) => write!(came, " copy {}, {:?}", copy.text(), copy.order(version)),
        Err(_) => Err(AllocError),
    }
}

/// Adds the order of two versions, or why one is refused.
pub fn put_order(text: &str, came: &mut String) -> Result<(), AllocError> {
    let (first, second) = text.split_once(' ').unwrap_or((text, ""));
    match compare_texts(first, second) {
        Ok(order) => write!(came, " {order:?}"),
        Err(fault) => write!(came, " refused, {fault}"),
    }
}

/// The two versions of a comparison, and what they are compared by.
fn parts_of(text: &str) -> (&str, &str, &str) {
    let (first, rest) = text.split_once(' ').unwrap_or((text, ""));
    let (by, second) = rest.split_once(' ').unwrap_or((rest, ""));
    (first, by, second)
}

/// Adds the status of a comparison.
pub fn put_status(text: &str, came: &mut String) -> Result<(), AllocError> {
    let (first, by, second) = parts_of(text);
    write!(came, " {}", compare_status(first, by, second))
}

/// Adds the status of a comparison whose refusal goes to standard error.
pub fn put_told(rt: &HostRuntime, text: &str, came: &mut String) -> Result<(), AllocError> {
    let (first, by, second) = parts_of(text);
    write!(came, " {}", compare(rt, first, by, second))
}
