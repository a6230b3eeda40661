//! A reader and writer in one, which gives or takes a few bytes a call, and fails at one of the calls.

use std::io;
use std::io::{Read, Write};

/// Gives or takes a few bytes a call, and fails at one of the calls.
#[derive(Drop)]
pub struct Halting<'a> {
    pub bytes: &'a [u8],
    pub most: usize,
    pub calls: u32,
    pub fails_at: u32,
}

impl<'a> Halting<'a> {
    pub fn new(bytes: &'a [u8], most: usize, fails_at: u32) -> Halting<'a> {
        Halting {
            bytes,
            most,
            calls: 0,
            fails_at,
        }
    }
}

impl<'a> Read for Halting<'a> {
    fn read(&mut self, buf: &mut [u8]) -> io::Result<usize> {
        self.calls = self.calls.saturating_add(1);
        if self.calls == self.fails_at {
            return Err(io::ErrorKind::Other.into());
        }
        let count = self.bytes.len().min(self.most).min(buf.len());
        let (given, later) = self.bytes.split_at(count);
        buf[..count].copy_from_slice(given);
        self.bytes = later;
        Ok(count)
    }
}

impl<'a> Write for Halting<'a> {
    fn write(&mut self, bytes: &[u8]) -> io::Result<usize> {
        self.calls = self.calls.saturating_add(1);
        if self.calls == self.fails_at {
            return Err(io::ErrorKind::Other.into());
        }
        Ok(bytes.len().min(self.most))
    }

    fn flush(&mut self) -> io::Result<()> {
        Ok(())
    }
}
