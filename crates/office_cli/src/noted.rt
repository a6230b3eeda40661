//! A reader that keeps why a read failed.

use std::io;
use std::io::Read;

/// A reader, and the system's refusal of the last read that failed.
#[derive(Drop)]
pub struct FaultKeepingReader<R> {
    reader: R,
    fault: Option<io::Error>,
}

impl<R> FaultKeepingReader<R> {
    /// No read has failed.
    pub fn new(reader: R) -> FaultKeepingReader<R> {
        FaultKeepingReader {
            reader,
            fault: None,
        }
    }

    /// Why the last failed read failed.
    pub fn fault(&self) -> Option<io::Error> {
        self.fault
    }
}

impl<R: Read> Read for FaultKeepingReader<R> {
    ghost remaining = { λ n. R.remaining n.reader };

    fn read(&mut self, buf: &mut [u8]) -> io::Result<usize> {
        let got = self.reader.read(buf);
        if let Err(fault) = &got {
            self.fault = Some(*fault);
        }
        got
    }
}
