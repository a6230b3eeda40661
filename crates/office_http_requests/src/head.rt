//! The head of a request, as it comes (RFC 9112, sections 2 to 5).
ghost use Rattle.std.specs.Prelude.{◌≡◌, ◌⊎◌, ◌≤◌, ◌<◌, ◌+◌, ◌-◌, [], List, ℕ, length, Option, None, IfOk, IfSome, OnErr};
ghost use Rattle.httparse.specs.Grammar.{HasNoRequest};
ghost use Rattle.std.specs.Io.KnownBytes.{IsAtEnd, Keeps};
ghost use Rattle.httparse.specs.declared.spans.HeaderSpan.{HeaderSpan};
ghost use Rattle.office_http_requests.specs.Request.{head_room, field_room};
ghost use Rattle.office_http_requests.specs.steps.RequestSteps.{IsEnd, Came, Draws, Heads, Fills};
ghost use Rattle.office_mail.specs.Counts.{CountsFailure};

use httparse::Status;
use httparse::spans::{HeaderSpan, RequestSpans, parse_request};
use office_mail::{Feed, ReadFailed};
use std::cmp::min;

/// The most bytes of a head.
pub const HEAD_ROOM: usize = 8192;

/// The most fields of a head.
pub const FIELD_ROOM: usize = 64;

/// The most bytes of one read.
const CHUNK: usize = 4096;

/// The result of one more read.
#[derive(Clone, Copy, Debug, PartialEq, Eq)]
pub enum ChunkRead {
    Bytes,
    End,
    /// Memory ran out for what came.
    NoMemory,
}

/// Reads once, and adds what came to the bytes seen, up to a total number of bytes.
fn read_more<R: Feed>(
    reader: &mut R,
    seen: &mut Vec<u8>,
    most: usize,
) -> Result<ChunkRead, ReadFailed>
    requires { length seen.old.items < most }
    ensures drawn { IfOk result (λ drawn. Draws (R.left reader.old) (R.left reader.new) seen.old.items seen.new.items most drawn) }
    ensures failed { OnErr result (Keeps (R.left reader.old) (R.left reader.new)) }
    ensures calls { R.calls reader.new ≤ R.calls reader.old + 1 }
    ensures failures { CountsFailure (R.failures reader.old) (R.failures reader.new) result }
{
    let mut chunk = [0u8; CHUNK];
    let room = min(most - seen.len(), CHUNK);
    let count = reader.read(&mut chunk[..room])?;
    if count == 0 {
        return Ok(ChunkRead::End);
    }
    if seen.extend_from_slice(&chunk[..count]).is_err() {
        return Ok(ChunkRead::NoMemory);
    }
    Ok(ChunkRead::Bytes)
}

/// How the reading of a head ended.
#[derive(Clone, Copy, Debug, PartialEq, Eq)]
pub enum HeadRead {
    /// No byte came.
    Nothing,
    /// A head came, with its parts at these places.
    Head(RequestSpans),
    HeadTooLarge,
    BadRequest,
    NoMemory,
}

/// Looks for the head of a request, and returns how the bytes seen so far end the reading, if they do.
fn scan_head(seen: &[u8], headers: &mut [HeaderSpan]) -> Option<HeadRead>
    requires room { length headers.old ≡ field_room }
    requires short { length seen.now ≤ head_room }
    ensures ends { IfSome result (λ ended. (left : Option (List ℕ)) → IsEnd left seen.now seen.now headers.new ended) }
    ensures goes_on { result ≡ None → HasNoRequest seen.now }
{
    match parse_request(seen, headers) {
        Ok(Status::Complete(head)) => Some(HeadRead::Head(head)),
        Ok(Status::Partial) => None,
        Err(httparse::Error::TooManyHeaders) => Some(HeadRead::HeadTooLarge),
        Err(_) => Some(HeadRead::BadRequest),
    }
}

/// What the end of the input means after the bytes seen.
fn at_end(seen: &[u8]) -> HeadRead
    requires { (seen.now ≡ []) ⊎ HasNoRequest seen.now }
    ensures { (left : Option (List ℕ)) (headers : List HeaderSpan) → IsAtEnd left → IsEnd left seen.now seen.now headers result }
{
    if seen.is_empty() {
        HeadRead::Nothing
    } else {
        HeadRead::BadRequest
    }
}

/// Reads until the head has come, or can't come.
pub fn read_head<R: Feed>(
    reader: &mut R,
    seen: &mut Vec<u8>,
    headers: &mut [HeaderSpan],
) -> Result<HeadRead, ReadFailed>
    requires room { length headers.old ≡ field_room }
    requires first { seen.old.items ≡ [] }
    ensures ended { IfOk result (λ ended. Heads (R.left reader.old) (R.left reader.new) seen.new.items headers.new ended) }
    ensures failed { OnErr result (Came (R.left reader.old) (R.left reader.new) head_room) }
    // Each read but the last gives a byte.
    ensures calls { R.calls reader.new ≤ R.calls reader.old + head_room }
    ensures failures { CountsFailure (R.failures reader.old) (R.failures reader.new) result }
{
    'reads: while seen.len() < HEAD_ROOM {
        match read_more(reader, seen, HEAD_ROOM)? {
            ChunkRead::Bytes => {}
            ChunkRead::End => return Ok(at_end(seen.as_slice())),
            ChunkRead::NoMemory => return Ok(HeadRead::NoMemory),
        }
        if let Some(ended) = scan_head(seen.as_slice(), headers) {
            return Ok(ended);
        }
    }
    Ok(HeadRead::HeadTooLarge)
}

/// How the reading of a body ended.
#[derive(Clone, Copy, Debug, PartialEq, Eq)]
pub enum BodyRead {
    Whole,
    /// The input ended within the body.
    BrokenOff,
    NoMemory,
}

/// Reads until that many bytes were seen, or no more come.
pub fn read_up_to<R: Feed>(
    reader: &mut R,
    seen: &mut Vec<u8>,
    end: usize,
) -> Result<BodyRead, ReadFailed>
    ensures filled { IfOk result (λ filled. Fills (R.left reader.old) (R.left reader.new) seen.old.items seen.new.items end filled) }
    ensures failed { OnErr result (Came (R.left reader.old) (R.left reader.new) (end - length seen.old.items)) }
    ensures calls { R.calls reader.new ≤ R.calls reader.old + (end - length seen.old.items) }
    ensures failures { CountsFailure (R.failures reader.old) (R.failures reader.new) result }
{
    'reads: while seen.len() < end {
        match read_more(reader, seen, end)? {
            ChunkRead::Bytes => {}
            ChunkRead::End => return Ok(BodyRead::BrokenOff),
            ChunkRead::NoMemory => return Ok(BodyRead::NoMemory),
        }
    }
    Ok(BodyRead::Whole)
}
