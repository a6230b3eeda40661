//! Bags over a reader that gives a few bytes a call, and may fail at one of the calls.

use crate::failing_pipe::Halting;
use office_mail::{Bag, Feed, FromRead, Sink, ToWrite};
use std::alloc::{AllocError, Global};
use std::str;

/// How many bytes of a message are shown.
const SHOWN: usize = 20;

/// Adds the answers of five calls of `next`.
fn put_five<R: Feed>(bag: &mut Bag<R>, came: &mut String) -> Result<(), AllocError> {
    for _ in 0..5 {
        put_next(bag, came)?;
    }
    Ok(())
}

/// Adds the answer of one call of `next`.
fn put_next<R: Feed>(bag: &mut Bag<R>, came: &mut String) -> Result<(), AllocError> {
    match bag.next() {
        Ok(Some(message)) => put_message(&message, came),
        Ok(None) => came.push_str("end\n"),
        Err(fault) => write!(came, "refused, {fault}\n"),
    }
}

/// Adds how long a message is, and its first bytes.
fn put_message(message: &[u8], came: &mut String) -> Result<(), AllocError> {
    let shown = message.get(..SHOWN).unwrap_or(message);
    let text = str::from_utf8(shown).unwrap_or("");
    write!(came, "message of {} bytes: {text:?}\n", message.len())
}

/// Adds what a bag gives over a reader.
fn put_given(alloc: Global, reader: &mut Halting<'_>, came: &mut String) -> Result<(), AllocError> {
    let mut bag = Bag::new(alloc, FromRead::new(reader));
    put_five(&mut bag, came)
}

/// Adds what a bag gives over a reader of four bytes a call.
pub fn put_bag(alloc: Global, bytes: &[u8], came: &mut String) -> Result<(), AllocError> {
    put_given(alloc, &mut Halting::new(bytes, 4, 0), came)
}

/// Adds what a bag gives over a reader of one byte a call that may fail at one of them, and how often it was called.
pub fn put_reads(
    alloc: Global,
    fails_at: u32,
    bytes: &[u8],
    came: &mut String,
) -> Result<(), AllocError> {
    let mut reader = Halting::new(bytes, 1, fails_at);
    put_given(alloc, &mut reader, came)?;
    write!(came, "{} reads\n", reader.calls)
}

/// Adds what two reads of up to two bytes give over such a reader.
pub fn put_feed(fails_at: u32, bytes: &[u8], came: &mut String) -> Result<(), AllocError> {
    let mut feed = FromRead::new(Halting::new(bytes, 1, fails_at));
    put_read(&mut feed, came)?;
    put_read(&mut feed, came)
}

/// Adds what one read of up to two bytes gives.
fn put_read<R: Feed>(feed: &mut R, came: &mut String) -> Result<(), AllocError> {
    let mut buf = [0u8; 2];
    match feed.read(&mut buf) {
        Ok(count) => write!(came, "{count} bytes\n"),
        Err(fault) => write!(came, "refused, {fault}\n"),
    }
}

/// Adds what two writes give.
fn put_writes(writer: &mut Halting<'_>, bytes: &[u8], came: &mut String) -> Result<(), AllocError> {
    let mut sink = ToWrite::new(writer);
    put_write(&mut sink, bytes, came)?;
    put_write(&mut sink, bytes, came)
}

/// Adds what two writes give to a writer that takes no byte and may fail at one of them, and how often it was called.
pub fn put_sink(fails_at: u32, bytes: &[u8], came: &mut String) -> Result<(), AllocError> {
    let mut writer = Halting::new(b"", 0, fails_at);
    put_writes(&mut writer, bytes, came)?;
    write!(came, "{} writes\n", writer.calls)
}

/// Adds what one write gives.
fn put_write<W: Sink>(sink: &mut W, bytes: &[u8], came: &mut String) -> Result<(), AllocError> {
    match sink.write(bytes) {
        Ok(count) => write!(came, "{count} bytes\n"),
        Err(fault) => write!(came, "refused, {fault}\n"),
    }
}
