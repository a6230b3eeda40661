//! A reader and a writer that fail at one of their calls.

use std::alloc::Global;
use std::io;
use std::io::{Read, Write};

/// Gives at most that many bytes a read, and fails at one of the reads, if that read is made.
#[derive(Drop)]
pub struct Reader<'a> {
    pub bytes: &'a [u8],
    pub most: usize,
    pub calls: u32,
    pub fails_at: u32,
}

/// A reader that doesn't fail.
pub fn reader_of(bytes: &[u8]) -> Reader<'_> {
    Reader {
        bytes,
        most: usize::MAX,
        calls: 0,
        fails_at: 0,
    }
}

impl Read for Reader<'_> {
    fn read(&mut self, buf: &mut [u8]) -> io::Result<usize> {
        self.calls = self.calls.saturating_add(1);
        if self.calls == self.fails_at {
            return Err(io::ErrorKind::Other.into());
        }
        let count = self.bytes.len().min(self.most).min(buf.len());
        let (given, later) = self.bytes.split_at(count);
        buf[..count].copy_from_slice(given);
        self.bytes = later;
        Ok(count)
    }
}

/// What a writer does at one of its writes.
#[derive(Clone, Copy)]
pub enum Failure {
    /// It fails.
    Fails,
    /// It takes no byte.
    TakesNone,
}

/// Takes at most that many bytes a write, and fails at one of the writes, if that write is made.
#[derive(Drop)]
pub struct Writer {
    pub taken: Vec<u8>,
    pub most: usize,
    pub calls: u32,
    pub fails_at: u32,
    pub failure: Failure,
}

/// A writer that doesn't fail.
pub fn whole_writer(alloc: Global) -> Writer {
    Writer {
        taken: Vec::new(alloc),
        most: usize::MAX,
        calls: 0,
        fails_at: 0,
        failure: Failure::Fails,
    }
}

impl Write for Writer {
    fn write(&mut self, bytes: &[u8]) -> io::Result<usize> {
        self.calls = self.calls.saturating_add(1);
        if self.calls == self.fails_at {
            return match self.failure {
                Failure::Fails => Err(io::ErrorKind::Other.into()),
                Failure::TakesNone => Ok(0),
            };
        }
        let count = bytes.len().min(self.most);
        if self.taken.extend_from_slice(&bytes[..count]).is_err() {
            return Err(io::ErrorKind::OutOfMemory.into());
        }
        Ok(count)
    }

    fn flush(&mut self) -> io::Result<()> {
        Ok(())
    }
}
