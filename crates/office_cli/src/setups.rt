//! Where in its file the fault of a setup is, and which role has too few or too many senders.

use office_mail::{Setup, SetupFault};
use std::alloc::Global;
use std::cmp::min;
use std::fs;
use std::io::Read;

/// The most bytes of a setup that are read.
const ENOUGH: u64 = 65_537;

/// How many paragraphs are read. A setup has 17 at most.
const PARAGRAPHS: u32 = 32;

/// The words for roles, and how many senders have them: one or more of the first two, one of each other.
const ROLES: [&str; 5] = ["upload", "build", "bugs", "release", "runs"];

/// What more is said of a fault.
#[derive(Clone, Copy)]
pub enum Detail {
    /// The line at which its paragraph begins, or the line itself.
    Line(usize),
    /// The place of a role among the words for them, and how many senders have it.
    Role(usize, u32),
}

/// What more is said of the fault that the setup in a file is refused for.
pub fn detail_of(rt: &HostRuntime, path: &str, fault: SetupFault) -> Option<Detail> {
    let file = fs::open(rt, path).ok()?;
    let mut text = Vec::new(rt.alloc());
    file.take(ENOUGH).read_to_end(&mut text).ok()?;
    match fault {
        SetupFault::TooMany | SetupFault::NoMemory => None,
        SetupFault::BadRoles => role_in(text.as_slice()),
        _ => line_in(rt.alloc(), text.as_slice(), fault).map(Detail::Line),
    }
}

/// The word for the role at a place, and how many senders are due.
pub fn role_words(place: usize) -> (&'static str, &'static str) {
    let due = if place < 2 { "at least 1" } else { "1" };
    (ROLES.get(place).copied().unwrap_or(""), due)
}

/// The line of the first role that is none, or else the first role that has too few or too many senders.
fn role_in(text: &[u8]) -> Option<Detail> {
    let mut counts = [0u32; 5];
    let mut line = 0usize;
    for part in text.split(|byte| *byte == b'\n') {
        line = line.saturating_add(1);
        let (name, value) = part.split_at(min(part.len(), 5));
        if name.eq_ignore_ascii_case(b"role:") {
            let word = value.trim_ascii();
            let place = ROLES.iter().position(|role| role.as_bytes() == word);
            let Some(count) = place.and_then(|place| counts.get_mut(place)) else {
                return Some(Detail::Line(line));
            };
            *count = count.saturating_add(1);
        }
    }
    miscounted(&counts)
}

/// The first role that has too few or too many senders.
fn miscounted(counts: &[u32]) -> Option<Detail> {
    for place in 0..counts.len() {
        let count = counts[place];
        if count == 0 || (place > 1 && count > 1) {
            return Some(Detail::Role(place, count));
        }
    }
    None
}

/// The first line of the first paragraph for which the text up to its end is refused with this fault. If there is no
/// such paragraph before, it is the last one.
fn line_in(alloc: Global, text: &[u8], fault: SetupFault) -> Option<usize> {
    let mut line = 0usize;
    let mut end = 0usize;
    let mut looks = 0u32;
    let mut start: Option<usize> = None;
    for part in text.split(|byte| *byte == b'\n') {
        line = line.saturating_add(1);
        end = min(end.saturating_add(part.len()).saturating_add(1), text.len());
        if !part.trim_ascii().is_empty() {
            start = start.or(Some(line));
            continue;
        }
        let so_far = text.get(..end).unwrap_or(text);
        let is_so = match Setup::parse(alloc, so_far) {
            Ok(_) => false,
            Err(found) => found == fault,
        };
        if start.is_some() && is_so {
            return start;
        }
        looks = looks.saturating_add(1);
        if looks > PARAGRAPHS {
            return None;
        }
        start = None;
    }
    start
}
