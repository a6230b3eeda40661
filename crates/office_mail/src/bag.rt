//! Bags: messages one after another, each after a line with its length.
ghost use Rattle.std.specs.Prelude.{◌≡◌, ℕ, ◌+◌, ◌<◌, ◌≤◌, ◌⊎◌, nat_lt, List, [], ◌∷◌, ◌++◌, IsTrue, ◌↔◌, Some, None, Ok, Err, IsSome, IfSome, OnOk, OnErr, IfOk, IfErr, true, false, IsErrOf, vec_len, length, take, drop};
ghost use Rattle.std.specs.Io.KnownBytes.{Consumes, IsAtEnd, Keeps};
ghost use Rattle.office_mail.specs.Counts.{HasRisen};
ghost use Rattle.office_mail.specs.Bag.{header, handed, ReadsOneWay};
ghost use Rattle.office_mail.specs.steps.Line.{IsLine};
ghost use Rattle.office_mail.specs.BagSteps.{TakesMessage, Stops, ReadFails, CountsEach};
ghost use Rattle.office_mail.specs.steps.BagReads.{TakesBody, GoesOn, Waits, BreaksOff};

use crate::feed::Feed;
use std::alloc::{AllocFailed, Global};
use std::marker::Model;
use thiserror::Error;

/// The greatest number of reads for one bag.
pub const READS: u32 = 1_000_000;

/// The greatest length of a message.
pub const LONGEST: usize = 65_536;

/// Why a bag ended before its end.
#[derive(Clone, Copy, Debug, PartialEq, Eq, Error)]
pub enum BagFault {
    #[error("a byte that no header line has there")]
    BadHeader,
    #[error("the input ends within a header line or a message")]
    Truncated,
    #[error("a read failed, or 1,000,000 reads didn't reach the end")]
    ReadFault,
    #[error("out of memory")]
    NoMemory,
}

impl<T: Drop> From<AllocFailed<T>> for BagFault {
    ghost use Rattle.office_mail.specs.declared.bag.BagFault.TheVariants.{NoMemory};

    ghost from_gives = { λ _ e. e ≡ NoMemory };

    fn from(_e: AllocFailed<T>) -> BagFault {
        BagFault::NoMemory
    }
}

/// A reader of messages, each after a line `mail N` with its length N in bytes.
#[derive(Drop)]
pub struct Bag<R: Feed> {
    alloc: Global,
    reader: R,
    pending: Vec<u8>,
    at: usize,
    reads: u32,
    met_end: bool,
    ended: bool,
}

impl<R: Feed> Model for Bag<R> {
    ghost use Rattle.std.specs.Prelude.{◌≡◌, ◌+◌, ◌-◌, ◌*◌, ◌≤◌, drop, true, vec_len};
    ghost use Rattle.std.specs.Io.KnownBytes.{prepend_known, IsAtEnd};
    ghost use Rattle.office_mail.specs.Reading.{Reading};

    ghost Value = { Reading };

    ghost view = { λ b. record {
      left = prepend_known (drop b.at b.pending.items) (R.left b.reader);
      unread = R.left b.reader;
      calls = R.calls b.reader;
      failures = R.failures b.reader;
      reads = b.reads;
      met_end = b.met_end;
      room = (1_000_000 - b.reads) * 8192 + (vec_len b.pending - b.at);
      ended = b.ended;
    } };

    ghost invariant = { λ b. (b.at ≤ vec_len b.pending) × (b.reads ≤ 1_000_000)
        × (b.met_end ≡ true → IsAtEnd (R.left b.reader)) };
}

impl<R: Feed> Bag<R> {
    /// A reader that has read nothing and allocates nothing.
    pub fn new(alloc: Global, reader: R) -> Bag<R>
        ensures left { result.left ≡ R.left reader }
        ensures unread { result.unread ≡ R.left reader }
        ensures calls { result.calls ≡ R.calls reader }
        ensures failures { result.failures ≡ R.failures reader }
        ensures reads { result.reads ≡ 0 }
        ensures met_end { result.met_end ≡ false }
        ensures open { result.ended ≡ false }
    {
        Bag {
            alloc,
            reader,
            pending: Vec::new(alloc),
            at: 0,
            reads: 0,
            met_end: false,
            ended: false,
        }
    }

    /// The next message. After a refusal, and after the end, the answer is `Ok(None)`.
    ///
    /// A message of more than 65,536 bytes is cut: its first 65,537 are returned. At most 1,000,000 reads are made for
    /// a bag, each of at most 8,192 bytes; a failed read isn't repeated.
    pub fn next(&mut self) -> Result<Option<Vec<u8>>, BagFault>
        ensures message { IfOk result (λ next. IfSome next (λ message. TakesMessage self.old self.new message.items)) }
        ensures plain { result ≡ Ok None → self.old.ended ≡ false → Stops self.old self.new None }
        ensures fault { IfErr result (λ fault. Stops self.old self.new (Some fault)) }

        // A read fails exactly if the answer is ReadFault, except for the last of the reads.
        ensures cause { IsErrOf result BagFault.ReadFault → ReadFails self.old self.new }
        ensures clean { IsErrOf result BagFault.ReadFault ⊎ (self.new.failures ≡ self.old.failures) }

        ensures ended { self.old.ended ≡ true → (result ≡ Ok None) × (self.new ≡ self.old) }
        ensures ends { IsTrue self.new.ended ↔ (IfOk result (λ next. next ≡ None)) }

        ensures failures { self.old.failures ≤ self.new.failures }
        ensures reads { self.new.reads ≤ 1_000_000 }
        // Each call of the reader is counted as a read, and each counted read is a call of the reader that gives at
        // most 8,192 bytes.
        ensures calls { self.new.calls + self.old.reads ≤ self.old.calls + self.new.reads }
        ensures counts { CountsEach self.old self.new }

        ensures room { IfOk result (λ next. IsSome next → self.new.room < self.old.room) }
    {
        if self.ended {
            return Ok(None);
        }
        let answer = self.message();
        if !matches!(&answer, Ok(Some(_))) {
            self.ended = true;
        }
        answer
    }

    fn message(&mut self) -> Result<Option<Vec<u8>>, BagFault>
        ensures message { IfOk result (λ next. IfSome next (λ message. TakesMessage self.old self.new message.items)) }
        ensures plain { result ≡ Ok None → Stops self.old self.new None }
        ensures fault { IfErr result (λ fault. Stops self.old self.new (Some fault)) }
        ensures cause { IsErrOf result BagFault.ReadFault → ReadFails self.old self.new }
        ensures clean { IsErrOf result BagFault.ReadFault ⊎ (self.new.failures ≡ self.old.failures) }
        ensures goes_on { GoesOn self.old self.new }
        ensures room { IfOk result (λ next. IsSome next → self.new.room < self.old.room) }
    {
        let Some(length) = self.header()? else {
            return Ok(None);
        };
        Ok(Some(self.body(length)?))
    }

    /// The length that the next line announces, or none at the end.
    fn header(&mut self) -> Result<Option<u32>, BagFault>
        ensures line { IfOk result (λ length. IfSome length (λ n. (n ≤ 999_999_999) × Consumes self.old.left self.new.left (header n))) }
        ensures plain { result ≡ Ok None → Stops self.old self.new None }
        ensures fault { IfErr result (λ fault. Stops self.old self.new (Some fault)) }
        ensures cause { IsErrOf result BagFault.ReadFault → ReadFails self.old self.new }
        ensures clean { IsErrOf result BagFault.ReadFault ⊎ (self.new.failures ≡ self.old.failures) }
        ensures goes_on { GoesOn self.old self.new }
        ensures room { IfOk result (λ length. IsSome length → self.new.room < self.old.room) }
    {
        let mut line = Line::new();
        loop {
            match self.next_byte()? {
                Some(byte) => match line.with(byte) {
                    LineStep::More(longer) => line = longer,
                    LineStep::Whole(length) => return Ok(Some(length)),
                    LineStep::Bad => return Err(BagFault::BadHeader),
                },
                None if line.place == 0 => return Ok(None),
                None => return Err(BagFault::Truncated),
            }
        }
    }

    /// A message of that length. If all of its bytes have arrived, they are copied at once.
    fn body(&mut self, length: u32) -> Result<Vec<u8>, BagFault>
        ensures whole { IfOk result (λ message. TakesBody self.old self.new length message.items) }
        ensures fault { IfErr result (λ fault. BreaksOff self.old self.new length fault) }
        ensures cause { IsErrOf result BagFault.ReadFault → ReadFails self.old self.new }
        ensures clean { IsErrOf result BagFault.ReadFault ⊎ (self.new.failures ≡ self.old.failures) }
        ensures goes_on { GoesOn self.old self.new }
    {
        if has_come(&self.pending, self.at, length) {
            let message = copied(self.alloc, &self.pending, self.at, length)?;
            self.at += length as usize;
            return Ok(message);
        }
        self.body_by_bytes(length)
    }

    /// A message of that length, byte by byte.
    fn body_by_bytes(&mut self, length: u32) -> Result<Vec<u8>, BagFault>
        ensures whole { IfOk result (λ message. TakesBody self.old self.new length message.items) }
        ensures fault { IfErr result (λ fault. BreaksOff self.old self.new length fault) }
        ensures cause { IsErrOf result BagFault.ReadFault → ReadFails self.old self.new }
        ensures clean { IsErrOf result BagFault.ReadFault ⊎ (self.new.failures ≡ self.old.failures) }
        ensures goes_on { GoesOn self.old self.new }
    {
        let mut message = Vec::new(self.alloc);
        for _i in 0..length {
            let Some(byte) = self.next_byte()? else {
                return Err(BagFault::Truncated);
            };
            push_within_limit(&mut message, byte)?;
        }
        Ok(message)
    }

    /// The next byte, or none at the end. Once the end is met, no more reads are made.
    fn next_byte(&mut self) -> Result<Option<u8>, BagFault>
        ensures byte { IfOk result (λ byte. IfSome byte (λ b. Consumes self.old.left self.new.left (b ∷ []))) }
        ensures waits { OnOk result (Waits self.new) }
        ensures end { result ≡ Ok None → BreaksOff self.old self.new 1 BagFault.Truncated }
        ensures fault { IfErr result (λ fault. BreaksOff self.old self.new 1 fault) }
        ensures untruncated { IsErrOf result BagFault.Truncated → ⊥ }
        ensures cause { IsErrOf result BagFault.ReadFault → ReadFails self.old self.new }
        ensures clean { IsErrOf result BagFault.ReadFault ⊎ (self.new.failures ≡ self.old.failures) }
        ensures goes_on { GoesOn self.old self.new }
        ensures room { IfOk result (λ byte. IsSome byte → self.new.room < self.old.room) }
    {
        if self.at == self.pending.len() {
            if self.met_end {
                return Ok(None);
            }
            if self.reads == READS {
                return Err(BagFault::ReadFault);
            }
            self.reads += 1;
            self.at = 0;
            if !refill(&mut self.reader, &mut self.pending)? {
                self.met_end = true;
                return Ok(None);
            }
        }
        let byte = self.pending[self.at];
        self.at += 1;
        Ok(Some(byte))
    }
}

/// The input is one list of messages, wherever the bag ended: a refusal hides none of them.
pub fn reads_one_way()
    ensures { ReadsOneWay }
{}

/// The part of a header line that has arrived.
#[derive(Drop)]
struct Line {
    place: usize,
    value: u32,
    ghost line: { IsLine place value },
}

/// The effect of one more byte on a line.
#[derive(Drop)]
enum LineStep {
    More(Line),
    Whole(u32),
    Bad,
}

const WORD: [u8; 5] = *b"mail ";

impl Line {
    ghost use Rattle.office_mail.specs.steps.Step.{StepsTo};

    fn new() -> Line
        ensures place { result.place ≡ 0 }
    {
        Line { place: 0, value: 0 }
    }

    /// The effect of one more byte on the line.
    fn with(&self, byte: u8) -> LineStep
        ensures { StepsTo self.now.place self.now.value byte result }
    {
        if self.place < 5 {
            return self.word(byte);
        }
        if self.place == 5 {
            return self.first_digit(byte);
        }
        self.more_digits(byte)
    }

    fn word(&self, byte: u8) -> LineStep
        requires { self.now.place < 5 }
        ensures { StepsTo self.now.place self.now.value byte result }
    {
        if byte != WORD[self.place] {
            return LineStep::Bad;
        }
        LineStep::More(Line {
            place: self.place + 1,
            value: 0,
        })
    }

    fn first_digit(&self, byte: u8) -> LineStep
        requires { self.now.place ≡ 5 }
        ensures { StepsTo self.now.place self.now.value byte result }
    {
        if byte < b'0' || byte > b'9' {
            return LineStep::Bad;
        }
        LineStep::More(Line {
            place: 6,
            value: u32::from(byte - b'0'),
        })
    }

    fn more_digits(&self, byte: u8) -> LineStep
        requires { 5 < self.now.place }
        ensures { StepsTo self.now.place self.now.value byte result }
    {
        if byte == b'\n' {
            return LineStep::Whole(self.value);
        }
        if byte < b'0' || byte > b'9' {
            return LineStep::Bad;
        }
        if self.value == 0 || self.value > 99_999_999 {
            return LineStep::Bad;
        }
        LineStep::More(Line {
            place: self.place + 1,
            value: self.value * 10 + u32::from(byte - b'0'),
        })
    }
}

/// A message with this many bytes has arrived completely, from a place on, without surplus.
fn has_come(pending: &[u8], at: usize, count: u32) -> bool
    requires { at ≤ length pending.now }
    ensures whole { result ≡ true → at + count ≤ length pending.now }
    ensures short { result ≡ true → count ≤ 65_536 }
{
    let count = count as usize;
    count <= LONGEST && count <= pending.len() - at
}

/// This many of the bytes, from a place on.
fn copied(alloc: Global, pending: &[u8], at: usize, count: u32) -> Result<Vec<u8>, BagFault>
    requires { at + count ≤ length pending.now }
    ensures bytes { IfOk result (λ message. message.items ≡ take count (drop at pending.now)) }
    ensures fault { IfErr result (λ fault. fault ≡ BagFault.NoMemory) }
{
    let end = at + count as usize;
    match pending[at..end].to_vec(alloc) {
        Ok(message) => Ok(message),
        Err(_) => Err(BagFault::NoMemory),
    }
}

/// Adds a byte to the returned part of a message, unless it is surplus.
fn push_within_limit(message: &mut Vec<u8>, byte: u8) -> Result<(), BagFault>
    ensures handed { OnOk result ((whole : List ℕ) → message.old.items ≡ handed whole → message.new.items ≡ handed (whole ++ byte ∷ [])) }
    ensures fault { IfErr result (λ fault. fault ≡ BagFault.NoMemory) }
{
    if message.len() <= LONGEST {
        message.push(byte)?;
    }
    Ok(())
}

/// Replaces the bytes with those of one read. False at the end.
fn refill<R: Feed>(reader: &mut R, pending: &mut Vec<u8>) -> Result<bool, BagFault>
    ensures more { OnOk result (Consumes (R.left reader.old) (R.left reader.new) pending.new.items) }
    ensures some { IsErrOf result BagFault.NoMemory ⊎ IsErrOf result BagFault.ReadFault ⊎ (result ≡ Ok (nat_lt 0 (vec_len pending.new))) }
    ensures end { result ≡ Ok false → IsAtEnd (R.left reader.new) }
    ensures few { vec_len pending.new ≤ 8192 }

    ensures fault { OnErr result (pending.new.items ≡ []) }
    ensures kept { IsErrOf result BagFault.ReadFault → Keeps (R.left reader.old) (R.left reader.new) }
    ensures piece { (bytes : List ℕ) × Consumes (R.left reader.old) (R.left reader.new) bytes × (length bytes ≤ 8192) }
    ensures cause { IsErrOf result BagFault.ReadFault → HasRisen (R.failures reader.old) (R.failures reader.new) }
    ensures clean { IsErrOf result BagFault.ReadFault ⊎ (R.failures reader.new ≡ R.failures reader.old) }
    ensures failures { R.failures reader.old ≤ R.failures reader.new }
    ensures calls { R.calls reader.new ≤ R.calls reader.old + 1 }
    ensures counts { HasRisen (R.calls reader.old) (R.calls reader.new) }
{
    pending.clear();
    let mut piece = [0u8; 8192];
    let Ok(count) = reader.read(&mut piece) else {
        return Err(BagFault::ReadFault);
    };
    let Ok(()) = pending.extend_from_slice(&piece[..count]) else {
        return Err(BagFault::NoMemory);
    };
    Ok(count > 0)
}
