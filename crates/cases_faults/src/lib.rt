//! Calls of the office with one failure: of memory, a read, a write, or a file for good. Each part makes its calls with
//! each failure in turn and judges the result: it is right, or something is wrong. Whoever runs the program refuses
//! memory: a part is right with ample memory, and so it is if any one growth is refused.
#![tactic(auto)]

mod deeds;
mod failed_reads;
mod failed_writes;
mod failures;
mod faults;
mod given;
mod memory;
mod offices;
mod reopened;
mod stops;
mod verdicts;

use deeds::{Deed, Over, try_deed};
pub use faults::{Met, due};
use given::{CONTINUE, EXPECT};
pub use given::{GROUP_TESTING, GROUP_UPDATE, Letter, TESTING, letters_of};
pub use offices::{close, new_office, setup_of};
use reopened::Way;
use std::alloc::Global;

/// A part, by what fails in it.
#[derive(Clone, Copy)]
pub enum Part {
    /// Memory, while a setup is read.
    Setup,
    /// Memory, while a binary paragraph is read.
    Binary,
    /// Memory, while the longest message is posted.
    Post,
    /// Memory, while that many letters are replayed in an office.
    Letters(Over, usize),
    /// A read of a bag.
    ReplayReads(Over),
    /// A read of a post with this header, whose client gets this before the reply.
    PostReads(&'static str, &'static str),
    /// No read of a bag that doesn't end.
    Endless,
    /// A write of what a replay prints.
    ReplayWrites(Over),
    /// A write of the reply to a post with this header, whose client gets this before it.
    PostWrites(&'static str, &'static str),
    /// The log of an office's store, for good.
    Log(Way),
    /// The database of an office's store, for good.
    Database(Way),
}

/// The parts, in turn.
static PARTS: [(&str, Part); 23] = [
    ("memory, a setup", Part::Setup),
    ("memory, a binary", Part::Binary),
    ("memory, the longest post", Part::Post),
    ("memory, one run", Part::Letters(Over::Memory, 3)),
    ("memory, one run in tables", Part::Letters(Over::Tables, 3)),
    ("memory, two runs", Part::Letters(Over::Memory, 7)),
    ("memory, two runs in tables", Part::Letters(Over::Tables, 7)),
    ("memory, a group", Part::Letters(Over::Memory, 6)),
    ("reads, a replay", Part::ReplayReads(Over::Memory)),
    ("reads, a replay in tables", Part::ReplayReads(Over::Tables)),
    ("reads, a post", Part::PostReads("", "")),
    (
        "reads, a post that waits",
        Part::PostReads(EXPECT, CONTINUE),
    ),
    ("reads, a bag without an end", Part::Endless),
    ("writes, a replay", Part::ReplayWrites(Over::Memory)),
    (
        "writes, a replay in tables",
        Part::ReplayWrites(Over::Tables),
    ),
    ("writes, a post", Part::PostWrites("", "")),
    (
        "writes, a post that waits",
        Part::PostWrites(EXPECT, CONTINUE),
    ),
    ("stops, the log", Part::Log(Way::Letters)),
    ("stops, the database", Part::Database(Way::Letters)),
    ("stops, the log of a replay", Part::Log(Way::Bag)),
    ("stops, the database of a replay", Part::Database(Way::Bag)),
    ("stops, the log of an old store", Part::Log(Way::OldStore)),
    (
        "stops, the database of an old store",
        Part::Database(Way::OldStore),
    ),
];

/// The parts, in turn: the name of each.
pub fn parts() -> &'static [(&'static str, Part)] {
    &PARTS
}

/// Tries a part whose failures are this crate's own.
fn try_failures(alloc: Global, part: Part) -> Result<(), Met> {
    match part {
        Part::ReplayReads(over) => failed_reads::try_replay_reads(alloc, over),
        Part::PostReads(more, front) => failed_reads::try_post_reads(alloc, more, front),
        Part::Endless => failed_reads::try_endless(alloc),
        Part::ReplayWrites(over) => failed_writes::try_replay_writes(alloc, over),
        Part::PostWrites(more, front) => failed_writes::try_post_writes(alloc, more, front),
        Part::Log(way) => stops::try_file(alloc, way, true),
        Part::Database(way) => stops::try_file(alloc, way, false),
        _ => Err(Met::Wrong("nothing is tried")),
    }
}

/// Tries a part.
fn try_part(alloc: Global, part: Part) -> Result<(), Met> {
    match part {
        Part::Setup => memory::try_setup(alloc),
        Part::Binary => memory::try_binary(alloc),
        Part::Post => memory::try_post(alloc),
        Part::Letters(over, count) => {
            try_deed(alloc, over, Deed::Letters(letters_of(count))).map(|_met| ())
        }
        _ => try_failures(alloc, part),
    }
}

/// The result of a part. If it was refused memory in what it needs itself, it is tried once more: only one growth is
/// refused.
pub fn said_of(alloc: Global, part: Part) -> &'static str {
    let tried = match try_part(alloc, part) {
        Err(Met::NoMemory) => try_part(alloc, part),
        tried => tried,
    };
    match tried {
        Ok(()) => "right",
        Err(Met::Wrong(what)) => what,
        Err(Met::NoMemory) => "refused memory twice",
    }
}
