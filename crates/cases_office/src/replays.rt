//! Replays: of a bag, and of one with a failing read or write.

use crate::bytes::text_in;
use crate::failures::{Broken, Halting, whole_reader, whole_writer};
use office_http::{Office, replay, replay_status};
use office_mail::{Bag, FromRead, ToWrite};
use office_store::Keeper;
use std::alloc::{AllocError, Global};

/// Replays the bag that a reader gives, to a writer. Returns the exit status.
fn replay_by<K: Keeper>(
    alloc: Global,
    office: &mut Office<K>,
    reader: &mut Broken,
    writer: &mut Halting,
) -> u8 {
    let mut bag = Bag::new(alloc, FromRead::new(reader));
    let replayed = replay(office, &mut bag, &mut ToWrite::new(writer));
    replay_status(&replayed)
}

/// Replays the bag that a reader gives, and adds all that is printed, and the exit status.
fn replay_from<K: Keeper>(
    alloc: Global,
    office: &mut Office<K>,
    reader: &mut Broken,
    came: &mut String,
) -> Result<(), AllocError> {
    let mut writer = whole_writer(alloc);
    let status = replay_by(alloc, office, reader, &mut writer);
    put_output(&writer.taken, status, came)
}

/// Replays a bag, and adds all that is printed, and the exit status.
pub fn replay_in<K: Keeper>(
    alloc: Global,
    office: &mut Office<K>,
    bytes: &[u8],
    came: &mut String,
) -> Result<(), AllocError> {
    replay_from(alloc, office, &mut whole_reader(bytes), came)
}

/// Replays a bag from a reader that gives a byte a call, and fails at one of the calls. It adds all that is printed,
/// and the exit status.
pub fn replay_broken<K: Keeper>(
    alloc: Global,
    office: &mut Office<K>,
    fails_at: u32,
    bytes: &[u8],
    came: &mut String,
) -> Result<(), AllocError> {
    let mut reader = Broken {
        bytes,
        most: 1,
        calls: 0,
        fails_at,
    };
    replay_from(alloc, office, &mut reader, came)
}

/// Replays a bag to a writer that takes a byte a call, and fails at one of the calls. It adds how many bytes were
/// printed, what they are, and the exit status.
pub fn replay_halting<K: Keeper>(
    alloc: Global,
    office: &mut Office<K>,
    fails_at: u32,
    bytes: &[u8],
    came: &mut String,
) -> Result<(), AllocError> {
    let mut writer = Halting {
        taken: Vec::new(alloc),
        most: 1,
        calls: 0,
        fails_at,
    };
    let status = replay_by(alloc, office, &mut whole_reader(bytes), &mut writer);
    put_halted(&writer.taken, status, came)
}

/// Adds what is printed, and the exit status.
fn put_output(taken: &[u8], status: u8, came: &mut String) -> Result<(), AllocError> {
    write!(came, "{}status {status}\n", text_in(taken))
}

/// Adds how many bytes are printed, these, and the exit status.
fn put_halted(taken: &[u8], status: u8, came: &mut String) -> Result<(), AllocError> {
    write!(
        came,
        "output of {} bytes\n{}\nstatus {status}\n",
        taken.len(),
        text_in(taken)
    )
}
