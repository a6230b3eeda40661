//! Messages to an office with the worked setup.

use crate::controls::put_binary;
use deb_control::Binary;
use deb_version::Version;
use office_mail::{Body, Message, RunOrder, Setup, read_message};
use std::alloc::{AllocError, Global};
use testing_rules_items::{Hint, HintItem, Item, Urgency};

/// The setup by which messages are read.
const SETUP: &str = "Architectures: amd64 arm64

Sender: ftp
Role: upload

Sender: bd
Role: build

Sender: bts
Role: bugs

Sender: rt
Role: release

Sender: clock
Role: runs
";

/// Adds what a text says, or why it says nothing.
pub fn put_message(alloc: Global, bytes: &[u8], came: &mut String) -> Result<(), AllocError> {
    match Setup::parse(alloc, SETUP.as_bytes()) {
        Ok(setup) => put_read(alloc, &setup, bytes, came),
        Err(fault) => write!(came, "setup refused, {fault}\n"),
    }
}

/// Adds what a text says to an office with this setup, or why it says nothing.
fn put_read(
    alloc: Global,
    setup: &Setup,
    bytes: &[u8],
    came: &mut String,
) -> Result<(), AllocError> {
    match read_message(alloc, setup, bytes) {
        Ok(message) => put_said(&message, came),
        Err(fault) => write!(came, "refused, {fault}\n"),
    }
}

/// Adds the place of a message's sender, its number and what it says.
fn put_said(message: &Message, came: &mut String) -> Result<(), AllocError> {
    write!(came, "{} {}: ", message.sender, message.number)?;
    put_body(&message.body, came)
}

/// Adds what a message says.
fn put_body(body: &Body, came: &mut String) -> Result<(), AllocError> {
    match body {
        Body::Item(item) => put_item(item, came),
        Body::Run(order) => put_run(order, came),
    }
}

/// Adds what a run covers.
fn put_run(order: &RunOrder, came: &mut String) -> Result<(), AllocError> {
    came.push_str("run, covers")?;
    for number in order.covers.as_slice() {
        write!(came, " {number}")?;
    }
    came.push_str("\n")
}

/// Adds what a message says, apart from orders of runs: of some kinds the values, of others only the kind.
fn put_item(item: &Item, came: &mut String) -> Result<(), AllocError> {
    match item {
        Item::Upload {
            version,
            urgency,
            ..
        } => put_upload(version, *urgency, came),
        Item::Build(binaries) => put_binaries(binaries.as_slice(), came),
        Item::Hint(Hint::Easy(items)) => put_group(items.as_slice(), came),
        Item::Delays {
            low,
            medium,
            high,
            critical,
        } => write!(came, "delays {low} {medium} {high} {critical}\n"),
        Item::Dropped { .. } => came.push_str("drop\n"),
        Item::Bug { .. } => came.push_str("bug\n"),
        Item::Hint(_) => came.push_str("hint\n"),
        Item::Unhint(_) => came.push_str("unhint\n"),
        Item::Nothing => came.push_str("nothing\n"),
    }
}

/// Adds an upload.
fn put_upload(version: &Version, urgency: Urgency, came: &mut String) -> Result<(), AllocError> {
    write!(came, "upload {} {urgency:?}\n", version.text())
}

/// Adds the binaries of a build.
fn put_binaries(binaries: &[Binary], came: &mut String) -> Result<(), AllocError> {
    came.push_str("build\n")?;
    for binary in binaries {
        put_binary(binary, came)?;
    }
    Ok(())
}

/// Adds the sources of a group, at their versions.
fn put_group(items: &[HintItem], came: &mut String) -> Result<(), AllocError> {
    came.push_str("group")?;
    for item in items {
        write!(came, " {}/{}", item.name.as_str(), item.version.text())?;
    }
    came.push_str("\n")
}
