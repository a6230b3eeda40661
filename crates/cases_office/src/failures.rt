//! A reader and a writer that give or take a few bytes a call, and fail at one of the calls, if that call is made.

use std::alloc::Global;
use std::io;
use std::io::{Read, Write};

/// Gives at most that many bytes a call, and fails at one of the calls.
#[derive(Drop)]
pub struct Broken<'a> {
    pub bytes: &'a [u8],
    pub most: usize,
    pub calls: u32,
    pub fails_at: u32,
}

/// A reader that doesn't fail.
pub fn whole_reader(bytes: &[u8]) -> Broken<'_> {
    Broken {
        bytes,
        most: usize::MAX,
        calls: 0,
        fails_at: 0,
    }
}

impl Read for Broken<'_> {
    fn read(&mut self, buf: &mut [u8]) -> io::Result<usize> {
        self.calls = self.calls.saturating_add(1);
        if self.calls == self.fails_at {
            return Err(io::ErrorKind::Other.into());
        }
        let count = self.bytes.len().min(self.most).min(buf.len());
        let (given, later) = self.bytes.split_at(count);
        buf[..count].copy_from_slice(given);
        self.bytes = later;
        Ok(count)
    }
}

/// Takes at most that many bytes a call, and fails at one of the calls.
#[derive(Drop)]
pub struct Halting {
    pub taken: Vec<u8>,
    pub most: usize,
    pub calls: u32,
    pub fails_at: u32,
}

/// A writer that doesn't fail.
pub fn whole_writer(alloc: Global) -> Halting {
    Halting {
        taken: Vec::new(alloc),
        most: usize::MAX,
        calls: 0,
        fails_at: 0,
    }
}

impl Write for Halting {
    fn write(&mut self, bytes: &[u8]) -> io::Result<usize> {
        self.calls = self.calls.saturating_add(1);
        if self.calls == self.fails_at {
            return Err(io::ErrorKind::Other.into());
        }
        let count = bytes.len().min(self.most);
        if self.taken.extend_from_slice(&bytes[..count]).is_err() {
            return Err(io::ErrorKind::OutOfMemory.into());
        }
        Ok(count)
    }

    fn flush(&mut self) -> io::Result<()> {
        Ok(())
    }
}
