//! Offices, bags and requests of the parts, and the calls that use them.

ghost use Rattle.std.specs.Prelude.{◌≡◌, IfOk};

use crate::failures::{Reader, Writer, reader_of, whole_writer};
use crate::faults::Met;
use crate::given::{Letter, SETUP};
use deb_version::NoMemory;
use office_http::{
    Office, Replayed, ServeFault, Served, WriteFault, replay, replay_status, serve_one,
};
use office_mail::{Bag, FromRead, Setup, SetupFault, ToWrite};
use office_store::{Keeper, OpenFault, Plain, Tables};
use sqlite::{Alter, Connection};
use std::alloc::Global;

/// More than any of the outputs has.
const ROOM: usize = 4096;

/// The setup of the parts.
pub fn setup_of(alloc: Global) -> Result<Setup, Met> {
    match Setup::parse(alloc, SETUP.as_bytes()) {
        Ok(setup) => Ok(setup),
        Err(SetupFault::NoMemory) => Err(Met::NoMemory),
        Err(_) => Err(Met::Wrong("the setup is refused")),
    }
}

/// An office over a store in memory.
pub fn new_office(alloc: Global) -> Result<Office<Plain>, Met> {
    let setup = setup_of(alloc)?;
    match Plain::new(alloc, &setup) {
        Ok(plain) => Ok(Office::new(alloc, setup, plain)),
        Err(_) => {
            drop(setup);
            Err(Met::NoMemory)
        }
    }
}

/// The office's tables in a new database, or in one that an office of this setup left.
pub fn opened<S: Alter>(
    alloc: Global,
    conn: Connection<S>,
    setup: &Setup,
) -> Result<Tables<S>, (Met, Connection<S>)>
    ensures { IfOk result (λ tables. tables.setup ≡ setup.now) }
{
    match Tables::open(alloc, conn, setup) {
        Ok(tables) => Ok(tables),
        Err((fault, conn)) => Err((refused_opening(fault), conn)),
    }
}

/// The result if tables can't be opened.
fn refused_opening(fault: OpenFault) -> Met {
    match fault {
        OpenFault::NoMemory => Met::NoMemory,
        _ => Met::Wrong("the tables aren't opened"),
    }
}

/// Drops an office over a store in memory.
pub fn close(office: Office<Plain>) {
    drop(office);
}

/// The bag of these letters.
pub fn bag_of(alloc: Global, letters: &[Letter]) -> Result<Vec<u8>, NoMemory> {
    let mut bag = Vec::new(alloc);
    for letter in letters {
        put_letter(alloc, letter, &mut bag)?;
    }
    Ok(bag)
}

/// Adds a letter to a bag.
fn put_letter(alloc: Global, letter: &Letter, bag: &mut Vec<u8>) -> Result<(), NoMemory> {
    let message = format!(in alloc; "mail {}\n{}", letter.text.len(), letter.text)?;
    bag.extend_from_slice(message.as_bytes())?;
    Ok(())
}

/// A post of the longest message, which says nothing in 65,536 bytes. `more` is a header or none.
pub fn longest_post(alloc: Global, more: &str) -> Result<Vec<u8>, NoMemory> {
    let mut request = Vec::with_capacity(alloc, 70_000)?;
    put_post(more, &mut request)?;
    Ok(request)
}

/// Adds that post.
fn put_post(more: &str, request: &mut Vec<u8>) -> Result<(), NoMemory> {
    request.extend_from_slice(b"POST /mail HTTP/1.1\r\nHost: x\r\n")?;
    request.extend_from_slice(more.as_bytes())?;
    request.extend_from_slice(
        b"Content-Length: 65536\r\n\r\nFrom: ftp\nNumber: 1\nKind: none\nNote: ",
    )?;
    request.resize(request.len().saturating_add(65_498), b'x')?;
    request.extend_from_slice(b"\n")?;
    Ok(())
}

/// Replays the bag that a reader gives, to a writer.
pub fn replay_by<K: Keeper>(
    alloc: Global,
    office: &mut Office<K>,
    reader: &mut Reader,
    writer: &mut Writer,
) -> Result<Replayed, WriteFault> {
    let mut bag = Bag::new(alloc, FromRead::new(reader));
    replay(office, &mut bag, &mut ToWrite::new(writer))
}

/// Serves the request that a reader gives, to a writer.
pub fn serve_by<K: Keeper>(
    office: &mut Office<K>,
    reader: &mut Reader,
    writer: &mut Writer,
) -> Result<Served, ServeFault> {
    serve_one(
        office,
        &mut FromRead::new(reader),
        &mut ToWrite::new(writer),
    )
}

/// Replays a bag without a failing read or write: what it prints, and its status.
pub fn replayed<K: Keeper>(
    alloc: Global,
    office: &mut Office<K>,
    bag: &[u8],
) -> Result<(Vec<u8>, u8), NoMemory> {
    let mut writer = whole_writer(alloc);
    writer.taken = Vec::with_capacity(alloc, ROOM)?;
    let replayed = replay_by(alloc, office, &mut reader_of(bag), &mut writer);
    Ok((writer.taken, replay_status(&replayed)))
}

/// Whether an office holds no text under the number of the longest post yet: another text is held then.
pub fn is_free<K: Keeper>(office: &mut Office<K>) -> bool {
    office
        .deliver(b"From: ftp\nNumber: 1\nKind: none\n")
        .is_ok()
}
