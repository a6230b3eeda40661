//! Calls that may be refused memory: a refusal shows where it is due, and the same call with memory gives what is due.

use crate::failures::{Writer, reader_of, whole_writer};
use crate::faults::{Met, due};
use crate::given::{EXCUSES, GROUP_TESTING, GROUP_UPDATE, Letter, TESTING, UPDATES};
use crate::offices::{bag_of, longest_post, new_office, replayed, serve_by, setup_of};
use crate::verdicts::is_right;
use deb_control::{Binary, BinaryFault, Paragraph, ParagraphFault, Paragraphs};
use office_http::{Office, Served};
use office_store::Keeper;
use std::alloc::Global;

/// A setup is read whole, or memory ran out.
pub fn try_setup(alloc: Global) -> Result<(), Met> {
    let setup = setup_of(alloc)?;
    let is_read = setup.senders().len() == 5 && setup.archs().len() == 2;
    drop(setup);
    due(is_read, "another setup")
}

/// A binary paragraph with each of its fields.
const BINARY: &[u8] =
    b"Package: foo\nVersion: 1.0-1+b1\nArchitecture: amd64\nSource: bar (1.0-1)\nPre-Depends: aa (>= 1)\nDepends: bb | cc (<< 2:3-1), dd:any\nProvides: virt (= 1), other\n";

/// A binary is read whole, or memory ran out.
pub fn try_binary(alloc: Global) -> Result<(), Met> {
    let mut reader = Paragraphs::new(alloc, BINARY);
    match reader.next() {
        Ok(Some(paragraph)) => try_paragraph(alloc, &paragraph),
        Ok(None) => Err(Met::Wrong("no paragraph")),
        Err(ParagraphFault::NoMemory) => Err(Met::NoMemory),
        Err(_) => Err(Met::Wrong("another fault of a paragraph")),
    }
}

/// A binary is read whole from its paragraph, or memory ran out.
fn try_paragraph(alloc: Global, paragraph: &Paragraph<'_>) -> Result<(), Met> {
    match Binary::parse(alloc, paragraph) {
        Ok(binary) => {
            let is_read = binary.name.as_str() == "foo" && binary.source.as_str() == "bar";
            drop(binary);
            due(is_read, "another binary")
        }
        Err(BinaryFault::NoMemory) => Err(Met::NoMemory),
        Err(_) => Err(Met::Wrong("another fault of a binary")),
    }
}

/// Another text under the number of the longest post.
const OTHER: &[u8] =
    b"POST /mail HTTP/1.1\r\nHost: x\r\nContent-Length: 31\r\n\r\nFrom: ftp\nNumber: 1\nKind: none\n";

/// Whether a reply begins and ends so.
fn is_reply(output: &[u8], head: &[u8], body: &[u8]) -> bool {
    output.starts_with(head) && output.ends_with(body)
}

/// A post is held, or a 503 says that nothing was added: then another text under its number is held.
pub fn try_post(alloc: Global) -> Result<(), Met> {
    let request = longest_post(alloc, "")?;
    let mut writer = whole_writer(alloc);
    writer.taken = Vec::with_capacity(alloc, 1024)?;
    let mut office = new_office(alloc)?;
    let judged = judge_post(&mut office, &request, &mut writer);
    drop(office);
    judged
}

/// Serves the longest post, and judges its reply.
fn judge_post<K: Keeper>(
    office: &mut Office<K>,
    request: &[u8],
    writer: &mut Writer,
) -> Result<(), Met> {
    let served = serve_by(office, &mut reader_of(request), writer);
    if served == Ok(Served { code: Some(200) }) {
        let is_held = is_reply(
            &writer.taken,
            b"HTTP/1.1 200 OK\r\n",
            b"\r\n\r\nheld ftp 1\n",
        );
        return due(is_held, "another reply");
    }
    due(served == Ok(Served { code: Some(503) }), "another code")?;
    judge_refusal(office, writer)
}

/// After a 503 another text under the number of the longest post is held.
fn judge_refusal<K: Keeper>(office: &mut Office<K>, writer: &mut Writer) -> Result<(), Met> {
    let is_refused = is_reply(
        &writer.taken,
        b"HTTP/1.1 503 ",
        b"\r\n\r\nrefused NoMemory\n",
    );
    due(is_refused, "another 503")?;
    writer.taken.clear();
    let served = serve_by(office, &mut reader_of(OTHER), writer);
    due(
        served == Ok(Served { code: Some(200) }),
        "a 503 that added the message",
    )
}

/// What a run's reports are, by the count of the letters: those of the group, of the first run, or of both.
fn due_reports(letters: usize) -> (&'static [&'static str], &'static [&'static str]) {
    match letters {
        6 => (&[], &[GROUP_UPDATE]),
        3 => (&[EXCUSES[0]], &[UPDATES[0]]),
        _ => (&EXCUSES, &UPDATES),
    }
}

/// Testing after that many letters.
fn due_testing(letters: usize) -> &'static str {
    match letters {
        6 => GROUP_TESTING,
        3 => TESTING[1],
        _ => TESTING[2],
    }
}

/// The excuses of an office's runs are these.
fn tells_excuses<K: Keeper>(office: &mut Office<K>, texts: &[&str]) -> Result<(), Met> {
    let mut run = 1u32;
    for text in texts {
        match office.excuses_text(run) {
            Ok(Some(told)) => due(told.as_str() == *text, "other excuses")?,
            Ok(None) => return Err(Met::Wrong("no excuses")),
            Err(_) => return Err(Met::NoMemory),
        }
        run = run.saturating_add(1);
    }
    Ok(())
}

/// The updates of an office's runs are these.
fn tells_updates<K: Keeper>(office: &mut Office<K>, texts: &[&str]) -> Result<(), Met> {
    let mut run = 1u32;
    for text in texts {
        match office.update_text(run) {
            Ok(Some(told)) => due(told.as_str() == *text, "another update")?,
            Ok(None) => return Err(Met::Wrong("no update")),
            Err(_) => return Err(Met::NoMemory),
        }
        run = run.saturating_add(1);
    }
    Ok(())
}

/// A replay of these letters in a new office is right for the refusal that it shows, and the same replay again leaves
/// the testing and the reports that are due.
pub fn try_replay<K: Keeper>(
    alloc: Global,
    office: &mut Office<K>,
    letters: &[Letter],
) -> Result<(), Met> {
    let bag = bag_of(alloc, letters)?;
    let (output, status) = replayed(alloc, office, &bag)?;
    due(
        is_right(alloc, letters, &output, status)?,
        "an output that isn't due",
    )?;
    let (again, status) = replayed(alloc, office, &bag)?;
    if status != 0 {
        return Err(Met::NoMemory);
    }
    due(
        again.ends_with(due_testing(letters.len()).as_bytes()),
        "another testing",
    )?;
    let (excuses, updates) = due_reports(letters.len());
    tells_excuses(office, excuses)?;
    tells_updates(office, updates)
}
