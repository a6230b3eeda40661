//! Bytes and decimal digits, written whole.
ghost use Rattle.std.specs.Prelude.{◌≡◌, ◌≤◌, length, decimal};
ghost use Rattle.office_mail.specs.Written.{Writes, joined};

use crate::feed::Sink;
use std::marker::Model;
use thiserror::Error;

/// A write failed or took no byte.
#[derive(Clone, Copy, Debug, PartialEq, Eq, Error)]
#[error("the output can't be written")]
pub struct WriteFault;

/// Writes all of the bytes, or a prefix of them.
pub fn write_all<W: Sink>(writer: &mut W, bytes: &[u8]) -> Result<(), WriteFault>
    ensures { Writes W.Sink writer.old writer.new bytes.now result }
{
    let mut at = 0;
    while at < bytes.len() {
        match writer.write(&bytes[at..]) {
            Ok(0) => return Err(WriteFault),
            Ok(n) => at += n,
            Err(_) => return Err(WriteFault),
        }
    }
    Ok(())
}

/// Writes parts, one after another, or a prefix of them.
pub fn write_parts<W: Sink>(writer: &mut W, parts: &[&[u8]]) -> Result<(), WriteFault>
    ensures { Writes W.Sink writer.old writer.new (joined parts.now) result }
{
    for part in parts {
        write_all(writer, part)?;
    }
    Ok(())
}

/// The decimal digits of a number.
#[derive(Drop)]
pub struct Digits {
    bytes: [u8; 20],
    start: usize,
}

impl Model for Digits {
    ghost use Rattle.std.specs.Prelude.{◌≡◌, ◌≤◌, List, ℕ, drop, length};

    ghost Value = { List ℕ };

    ghost view = { λ d. drop d.start d.bytes };

    ghost invariant = { λ d. (d.start ≤ 20) × (length d.bytes ≡ 20) };
}

impl Digits {
    /// The decimal digits of a number, with no leading zero.
    pub fn of(number: u64) -> Digits
        ensures { result ≡ decimal number }
    {
        let mut bytes = [0u8; 20];
        let mut start = 19;
        let mut rest = number;
        while rest >= 10 {
            bytes[start] = b'0' + (rest % 10) as u8;
            rest /= 10;
            start -= 1;
        }
        bytes[start] = b'0' + (rest % 10) as u8;
        Digits { bytes, start }
    }

    /// The digits, as ASCII.
    pub fn as_slice(&self) -> &[u8]
        ensures { result.now ≡ self.now }
    {
        &self.bytes[self.start..]
    }

    /// How many they are.
    pub fn len(&self) -> usize
        ensures same { result ≡ length self.now }
        ensures few { result ≤ 20 }
    {
        20 - self.start
    }
}
