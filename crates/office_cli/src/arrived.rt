//! A reader of the bytes that have come so far.

use std::io;
use std::io::{ErrorKind, Read};

/// The bytes of a request that have come. A read after them fails, unless the client sends no more.
#[derive(Drop)]
pub struct ArrivedReader<'a> {
    bytes: &'a [u8],
    is_ended: bool,
}

impl<'a> ArrivedReader<'a> {
    pub fn new(bytes: &'a [u8], is_ended: bool) -> ArrivedReader<'a> {
        ArrivedReader { bytes, is_ended }
    }
}

impl Read for ArrivedReader<'_> {
    fn read(&mut self, buf: &mut [u8]) -> io::Result<usize> {
        if self.bytes.is_empty() && !self.is_ended {
            return Err(ErrorKind::WouldBlock.into());
        }
        self.bytes.read(buf)
    }
}
