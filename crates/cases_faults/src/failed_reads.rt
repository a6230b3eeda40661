//! One read that fails, at each place in turn.

use crate::deeds::{Deed, Over, try_deed};
use crate::failures::{Reader, Writer, whole_writer};
use crate::faults::{Met, due};
use crate::given::{BROKEN, ENDS, OUTPUT, first_letters};
use crate::offices::{bag_of, is_free, longest_post, new_office, replay_by, serve_by};
use deb_version::NoMemory;
use office_http::{Office, Replayed, ServeFault, Served};
use office_mail::BagFault;
use office_store::Keeper;
use std::alloc::Global;

/// More reads than any call below makes.
const MOST: u32 = 400;

/// How many bytes a read of a post gives.
const BYTES_A_READ: usize = 1_000;

/// How many bytes the longest message has, which is the body of a post.
const BODY: usize = 65_536;

/// What a replay prints if its reader fails after that many bytes of the bag.
fn broken_output(bytes: usize) -> &'static str {
    let mut whole = 0usize;
    for end in &ENDS {
        if *end <= bytes {
            whole = whole.saturating_add(1);
        }
    }
    BROKEN.get(whole).copied().unwrap_or("")
}

/// A replay in a new office, to a writer that doesn't fail, from a reader that gives a byte a read and fails at one of
/// the reads; and whether it did.
pub fn judge_replay<K: Keeper>(
    alloc: Global,
    office: &mut Office<K>,
    bag: &[u8],
    fails_at: u32,
) -> Result<bool, Met> {
    let mut writer = whole_writer(alloc);
    let mut reader = Reader {
        bytes: bag,
        most: 1,
        calls: 0,
        fails_at,
    };
    let replayed = replay_by(alloc, office, &mut reader, &mut writer);
    let output = writer.taken.as_slice();
    if reader.calls < fails_at {
        due(output == OUTPUT.as_bytes(), "another output")?;
        return Ok(false);
    }
    let refused = Replayed {
        bag: Some(BagFault::ReadFault),
        lost: false,
    };
    let given = bag.len().saturating_sub(reader.bytes.len());
    due(replayed == Ok(refused), "a failed read that isn't told")?;
    due(reader.calls == fails_at, "a read behind one that failed")?;
    due(
        output == broken_output(given).as_bytes(),
        "another output behind a failed read",
    )?;
    Ok(true)
}

/// A bag whose nth read fails, for each n: what came whole before it is delivered, and the output says so.
pub fn try_replay_reads(alloc: Global, over: Over) -> Result<(), Met> {
    let bag = bag_of(alloc, first_letters(3))?;
    let mut failed = 0usize;
    for fails_at in 1..MOST {
        if !try_deed(alloc, over, Deed::Read(&bag, fails_at))? {
            break;
        }
        failed = failed.saturating_add(1);
    }
    // Each byte is read on its own, and the end by one more read.
    due(
        failed == bag.len().saturating_add(1),
        "another count of reads",
    )
}

/// A post whose reader fails at one of its reads, and whether it did: nothing is delivered. After the head only the
/// lines are written that ask the client to continue.
fn post_read(alloc: Global, request: &[u8], front: &str, fails_at: u32) -> Result<bool, Met> {
    let mut office = new_office(alloc)?;
    let mut writer = whole_writer(alloc);
    let judged = judge_post(&mut office, request, front, fails_at, &mut writer);
    drop(office);
    judged
}

/// A post whose reader fails, in a new office, to a writer that doesn't fail.
fn judge_post<K: Keeper>(
    office: &mut Office<K>,
    request: &[u8],
    front: &str,
    fails_at: u32,
    writer: &mut Writer,
) -> Result<bool, Met> {
    let mut reader = Reader {
        bytes: request,
        most: BYTES_A_READ,
        calls: 0,
        fails_at,
    };
    let served = serve_by(office, &mut reader, writer);
    let output = writer.taken.as_slice();
    if reader.calls < fails_at {
        due(
            served == Ok(Served { code: Some(200) }),
            "a post that isn't held",
        )?;
        due(!is_free(office), "a post that isn't kept")?;
        return Ok(false);
    }
    due(
        served == Err(ServeFault::Read),
        "a failed read that isn't told",
    )?;
    due(reader.calls == fails_at, "a read behind one that failed")?;
    let given = request.len().saturating_sub(reader.bytes.len());
    let head = request.len().saturating_sub(BODY);
    let told = if given < head { "" } else { front };
    due(
        output == told.as_bytes(),
        "a reply behind a failed read, or a client that isn't told to go on",
    )?;
    due(is_free(office), "half a post is kept")?;
    Ok(true)
}

/// A post of the longest message with this header, whose nth read fails, for each n. The client may get the beginning
/// of the reply before.
pub fn try_post_reads(alloc: Global, more: &str, front: &str) -> Result<(), Met> {
    let request = longest_post(alloc, more)?;
    let mut failed = 0u32;
    for fails_at in 1..MOST {
        if !post_read(alloc, &request, front, fails_at)? {
            break;
        }
        failed = failed.saturating_add(1);
    }
    // The request has 65,591 bytes, or 65,613 with the header, and a read gives 1,000 of them at most.
    due(failed == 66, "another count of reads")
}

/// A reader that gives a byte a read, and more of them than are ever read: the bag is given up after 1,000,000 reads.
pub fn try_endless(alloc: Global) -> Result<(), Met> {
    let bytes = endless_bag(alloc)?;
    let mut office = new_office(alloc)?;
    let mut writer = whole_writer(alloc);
    let judged = judge_endless(alloc, &mut office, &bytes, &mut writer);
    drop(office);
    judged
}

/// The beginning of a bag whose only message is longer than 1,000,000 reads of a byte.
fn endless_bag(alloc: Global) -> Result<Vec<u8>, NoMemory> {
    let mut bytes = Vec::new(alloc);
    bytes.extend_from_slice(b"mail 999999999\n")?;
    bytes.resize(1_000_100, b'x')?;
    Ok(bytes)
}

/// A replay of a bag without an end, in a new office, to a writer that doesn't fail.
fn judge_endless<K: Keeper>(
    alloc: Global,
    office: &mut Office<K>,
    bytes: &[u8],
    writer: &mut Writer,
) -> Result<(), Met> {
    let mut reader = Reader {
        bytes,
        most: 1,
        calls: 0,
        fails_at: 0,
    };
    let replayed = replay_by(alloc, office, &mut reader, writer);
    let refused = Replayed {
        bag: Some(BagFault::ReadFault),
        lost: false,
    };
    due(
        replayed == Ok(refused),
        "a bag without an end that isn't refused",
    )?;
    due(reader.calls == 1_000_000, "another count of reads")?;
    due(
        writer.taken.as_slice() == BROKEN[0].as_bytes(),
        "another output",
    )
}
