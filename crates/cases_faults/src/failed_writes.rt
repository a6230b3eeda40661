//! One write that fails, or takes no byte, at each place in turn.

use crate::deeds::{Deed, Over, try_deed};
use crate::failures::{Failure, Writer, reader_of};
use crate::faults::{Met, due};
use crate::given::{OUTPUT, REPLY, TESTING, first_letters};
use crate::offices::{bag_of, is_free, longest_post, new_office, replay_by, replayed, serve_by};
use office_http::{Office, ServeFault, Served};
use office_store::Keeper;
use std::alloc::Global;

/// More writes than any call below makes.
const MOST: u32 = 400;

/// A writer of one of the kinds that are tried.
#[derive(Clone, Copy)]
pub struct Kind {
    /// How many bytes it takes a write.
    most: usize,
    failure: Failure,
}

/// The kinds: each takes all bytes of a write or one, and at one write fails or takes none.
static KINDS: [Kind; 4] = [
    Kind {
        most: usize::MAX,
        failure: Failure::Fails,
    },
    Kind {
        most: usize::MAX,
        failure: Failure::TakesNone,
    },
    Kind {
        most: 1,
        failure: Failure::Fails,
    },
    Kind {
        most: 1,
        failure: Failure::TakesNone,
    },
];

/// A writer of a kind, and the write at which it fails.
fn writer_of(alloc: Global, kind: Kind, fails_at: u32) -> Writer {
    Writer {
        taken: Vec::new(alloc),
        most: kind.most,
        calls: 0,
        fails_at,
        failure: kind.failure,
    }
}

/// Whether what was taken until a write failed is a proper prefix of what is due.
fn is_front(taken: &[u8], whole: &[u8]) -> bool {
    whole.starts_with(taken) && taken.len() < whole.len()
}

/// Whether the number of writes that failed in turn fits the kind of writer: one for each byte if it takes one.
fn is_count(kind: Kind, failed: u32, bytes: usize) -> bool {
    let places = failed as usize;
    if kind.most == 1 {
        places == bytes
    } else {
        places > 0 && places < bytes
    }
}

/// The whole bag again in an office ends in the testing that is due.
fn judge_again<K: Keeper>(alloc: Global, office: &mut Office<K>, bag: &[u8]) -> Result<(), Met> {
    let (again, status) = replayed(alloc, office, bag)?;
    due(status == 0, "the bag again is refused")?;
    due(again.ends_with(TESTING[1].as_bytes()), "another testing")
}

/// A replay in a new office, to a writer that fails at one of its writes, and whether it did: what was written is a
/// prefix of the output, and the same bag again in that office ends in the testing that is due.
pub fn judge_replay<K: Keeper>(
    alloc: Global,
    office: &mut Office<K>,
    bag: &[u8],
    kind: Kind,
    fails_at: u32,
) -> Result<bool, Met> {
    let mut writer = writer_of(alloc, kind, fails_at);
    let told = replay_by(alloc, office, &mut reader_of(bag), &mut writer);
    judge_again(alloc, office, bag)?;
    if writer.calls < writer.fails_at {
        due(
            writer.taken.as_slice() == OUTPUT.as_bytes(),
            "another output",
        )?;
        return Ok(false);
    }
    due(told.is_err(), "a failed write that isn't told")?;
    due(
        writer.calls == writer.fails_at,
        "a write behind one that failed",
    )?;
    due(
        is_front(&writer.taken, OUTPUT.as_bytes()),
        "no front of the output",
    )?;
    Ok(true)
}

/// A replay whose nth write fails, for each n.
fn try_replays(alloc: Global, over: Over, bag: &[u8], kind: Kind) -> Result<(), Met> {
    let mut failed = 0u32;
    for fails_at in 1..MOST {
        if !try_deed(alloc, over, Deed::Write(bag, kind, fails_at))? {
            break;
        }
        failed = failed.saturating_add(1);
    }
    due(
        is_count(kind, failed, OUTPUT.len()),
        "another count of writes",
    )
}

/// A replay whose nth write fails, for each n and for each kind of writer.
pub fn try_replay_writes(alloc: Global, over: Over) -> Result<(), Met> {
    let bag = bag_of(alloc, first_letters(3))?;
    for kind in &KINDS {
        try_replays(alloc, over, &bag, *kind)?;
    }
    Ok(())
}

/// A post to a writer that fails at one of its writes, and whether it did: what was written is a prefix of the reply,
/// and the message is delivered unless the lines that ask the client to continue weren't taken whole.
fn post_written(
    alloc: Global,
    request: &[u8],
    front: usize,
    reply: &[u8],
    writer: &mut Writer,
) -> Result<bool, Met> {
    let mut office = new_office(alloc)?;
    let judged = judge_post(&mut office, request, front, reply, writer);
    drop(office);
    judged
}

/// A post to a writer that fails, in a new office.
fn judge_post<K: Keeper>(
    office: &mut Office<K>,
    request: &[u8],
    front: usize,
    reply: &[u8],
    writer: &mut Writer,
) -> Result<bool, Met> {
    let served = serve_by(office, &mut reader_of(request), writer);
    if writer.calls < writer.fails_at {
        due(
            served == Ok(Served { code: Some(200) }),
            "a post that isn't held",
        )?;
        due(writer.taken.as_slice() == reply, "another reply")?;
        due(!is_free(office), "a post that isn't kept")?;
        return Ok(false);
    }
    due(
        served == Err(ServeFault::Write),
        "a failed write that isn't told",
    )?;
    due(
        writer.calls == writer.fails_at,
        "a write behind one that failed",
    )?;
    due(is_front(&writer.taken, reply), "no front of the reply")?;
    let is_asked = writer.taken.len() >= front;
    due(
        is_free(office) != is_asked,
        "a post that is kept where it isn't due",
    )?;
    Ok(true)
}

/// A post whose nth write fails, for each n.
fn try_posts(
    alloc: Global,
    request: &[u8],
    front: usize,
    reply: &[u8],
    kind: Kind,
) -> Result<(), Met> {
    let mut failed = 0u32;
    for fails_at in 1..MOST {
        let mut writer = writer_of(alloc, kind, fails_at);
        if !post_written(alloc, request, front, reply, &mut writer)? {
            break;
        }
        failed = failed.saturating_add(1);
    }
    due(
        is_count(kind, failed, reply.len()),
        "another count of writes",
    )
}

/// A post of the longest message, with this header, whose nth write fails, for each n and for each kind of writer. The
/// client gets this beginning before.
pub fn try_post_writes(alloc: Global, more: &str, front: &str) -> Result<(), Met> {
    let request = longest_post(alloc, more)?;
    let reply = format!(in alloc; "{front}{REPLY}")?;
    for kind in &KINDS {
        try_posts(alloc, &request, front.len(), reply.as_bytes(), *kind)?;
    }
    Ok(())
}
