//! A testing built row by row.

use crate::rules::fault::Fault;
use crate::rules::mail::item_of;
use deb_control::Binary;
use deb_version::NoMemory;
use office_mail::{Message, Setup};
use std::alloc::Global;
use testing_rules::{ALL, Archs, Item, RowIn, SharedBinary, SourceIn, Testing};

/// A binary of a build: the sender's place, the message's number, and the binary's place in the message, from 1.
#[derive(Clone, Copy)]
struct Named {
    sender: u32,
    number: u32,
    place: u32,
}

/// Puts the rows of these lines into testing, each with its source.
pub fn put_given(
    alloc: Global,
    setup: &Setup,
    mail: &[Message],
    testing: &mut Testing,
    text: &str,
) -> Result<(), Fault> {
    for line in text.lines() {
        let named = named_in(setup, line).ok_or(Fault::Wrong("a line that names no row"))?;
        let binary = binary_of(mail, named).ok_or(Fault::Wrong("a row that didn't come"))?;
        put(alloc, setup.archs(), testing, named, binary)?;
    }
    Ok(())
}

/// The binary that a line names by its sender, its message's number and its place there.
fn named_in(setup: &Setup, line: &str) -> Option<Named> {
    let (sender, rest) = line.split_once(' ')?;
    let (number, place) = rest.split_once(' ')?;
    Some(Named {
        sender: place_of(setup, sender)?,
        number: number.parse().ok()?,
        place: place.parse().ok()?,
    })
}

/// The place of a sender.
fn place_of(setup: &Setup, name: &str) -> Option<u32> {
    let mut place = 0;
    for sender in setup.senders() {
        if sender.name.as_str() == name {
            return Some(place);
        }
        place = u32::saturating_add(place, 1);
    }
    None
}

/// The binaries of an item: none if it is no build.
fn binaries_in(item: &Item) -> &[Binary] {
    match item {
        Item::Build(binaries) => binaries.as_slice(),
        _ => &[],
    }
}

/// The binary that is named.
fn binary_of(mail: &[Message], named: Named) -> Option<&Binary> {
    let item = item_of(mail, named.sender, named.number)?;
    binaries_in(item).get((named.place as usize).wrapping_sub(1))
}

/// The place of an architecture.
fn arch_of(archs: &Archs, name: &str) -> u32 {
    for place in 0..archs.len() {
        if archs.name(place) == name {
            return place;
        }
    }
    ALL
}

/// The row of a binary.
fn row_of(alloc: Global, archs: &Archs, named: Named, binary: &Binary) -> Result<RowIn, NoMemory> {
    Ok(RowIn {
        arch: arch_of(archs, binary.architecture.as_str()),
        binary: SharedBinary::copy_of(alloc, binary)?,
        sender: named.sender,
        number: named.number,
        place: named.place,
    })
}

/// The source of a binary, at the version that it was built from.
fn source_of(alloc: Global, named: Named, binary: &Binary) -> Result<SourceIn, NoMemory> {
    let version = binary.source_version.copy(alloc)?;
    Ok(SourceIn {
        name: binary.source.copy(alloc)?,
        version,
        sender: named.sender,
        number: named.number,
    })
}

/// Puts a row into testing, and its source.
fn put(
    alloc: Global,
    archs: &Archs,
    testing: &mut Testing,
    named: Named,
    binary: &Binary,
) -> Result<(), NoMemory> {
    testing.set_row(row_of(alloc, archs, named, binary)?)?;
    testing.set_source(source_of(alloc, named, binary)?)
}
