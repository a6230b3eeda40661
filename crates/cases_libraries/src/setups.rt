//! Setups, and the architectures of names.

use crate::words::words_of;
use office_mail::{Sender, Setup};
use std::alloc::{AllocError, Global};
use testing_rules_items::{ALL, Archs};

/// Adds how many architectures the words of a text give, or why they give none.
pub fn put_archs(alloc: Global, text: &str, came: &mut String) -> Result<(), AllocError> {
    let names = words_of(alloc, text)?;
    put_named(alloc, &names, came)
}

/// Adds how many architectures names give, or why they give none.
fn put_named(alloc: Global, names: &[&str], came: &mut String) -> Result<(), AllocError> {
    match Archs::parse(alloc, names) {
        Ok(archs) => write!(came, " {}", archs.as_slice().len()),
        Err(fault) => write!(came, " refused, {fault}"),
    }
}

/// Adds the name of each architecture, and the one that means all.
fn put_names(archs: &Archs, came: &mut String) -> Result<(), AllocError> {
    for place in 0..archs.len() {
        write!(came, "architecture {}\n", archs.name(place))?;
    }
    write!(came, "or {}\n", archs.name(ALL))
}

/// Adds the name of each sender, and its role.
fn put_senders(senders: &[Sender], came: &mut String) -> Result<(), AllocError> {
    for sender in senders {
        write!(came, "sender {} {:?}\n", sender.name.as_str(), sender.role)?;
    }
    Ok(())
}

/// Adds a setup: its architectures, its senders and the place of the sender of runs.
fn put_whole(setup: &Setup, came: &mut String) -> Result<(), AllocError> {
    put_names(setup.archs(), came)?;
    put_senders(setup.senders(), came)?;
    write!(came, "runs by {}\n", setup.runs())
}

/// Adds the copy of a setup.
fn put_copy(alloc: Global, setup: &Setup, came: &mut String) -> Result<(), AllocError> {
    match setup.copy(alloc) {
        Ok(copy) => put_whole(&copy, came),
        Err(_) => Err(AllocError),
    }
}

/// Adds the setup that a text is, or why it is none.
pub fn put_setup(alloc: Global, bytes: &[u8], came: &mut String) -> Result<(), AllocError> {
    match Setup::parse(alloc, bytes) {
        Ok(setup) => put_copy(alloc, &setup, came),
        Err(fault) => write!(came, "refused, {fault}\n"),
    }
}
