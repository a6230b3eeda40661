//! Bags of a source whose packages form a chain.

use crate::bytes::put_message;
use std::alloc::{AllocError, Global};

/// How many packages a build of a chain has.
const PACKAGES: u32 = 50;

/// The upload of a chain.
const UPLOAD: &str =
    "From: ftp\nNumber: 1\nKind: upload\nSource: chain\nVersion: 1\nUrgency: critical\nDay: 2025-03-01";

/// Adds the bag of a chain of this many builds, given the name that the last package depends on: an upload, its builds
/// and a run that covers them. Each other package depends on the next one.
pub fn put_chain(alloc: Global, what: &str, bag: &mut String) -> Result<(), AllocError> {
    let (builds, last) = what.split_once(' ').unwrap_or((what, ""));
    let builds: u32 = builds.parse().unwrap_or(0);
    put_message(UPLOAD, bag)?;
    for before in 0..builds {
        put_build(alloc, before, builds, last, bag)?;
    }
    put_order(alloc, builds, bag)
}

/// Adds the build of a chain that follows this many of its builds.
fn put_build(
    alloc: Global,
    before: u32,
    builds: u32,
    last: &str,
    bag: &mut String,
) -> Result<(), AllocError> {
    let mut build = String::new(alloc);
    put_packages(before, builds, last, &mut build)?;
    put_message(build.as_str(), bag)
}

/// Adds the text of a build that follows this many builds of its chain.
fn put_packages(
    before: u32,
    builds: u32,
    last: &str,
    build: &mut String,
) -> Result<(), AllocError> {
    write!(
        build,
        "From: bd\nNumber: {}\nKind: build",
        before.saturating_add(1)
    )?;
    let start = before.saturating_mul(PACKAGES);
    for step in 1..51_u32 {
        let next = start.saturating_add(step);
        let is_last = next == builds.saturating_mul(PACKAGES);
        put_package(next, if is_last { Some(last) } else { None }, build)?;
    }
    Ok(())
}

/// Adds the package before this one, which depends on it, or on another name.
fn put_package(next: u32, other: Option<&str>, build: &mut String) -> Result<(), AllocError> {
    write!(
        build,
        "\n\nPackage: c{}\nVersion: 1\nArchitecture: amd64\nSource: chain\n",
        next.saturating_sub(1)
    )?;
    match other {
        Some(other) => write!(build, "Depends: {other}"),
        None => write!(build, "Depends: c{next}"),
    }
}

/// Adds the order of the run that covers a chain of this many builds.
fn put_order(alloc: Global, builds: u32, bag: &mut String) -> Result<(), AllocError> {
    let order = format!(in alloc;
        "From: clock\nNumber: 1\nKind: run\nDay: 2025-03-01\nCovers: ftp 1, bd {builds}"
    )?;
    put_message(order.as_str(), bag)
}
