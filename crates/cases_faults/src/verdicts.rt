//! Whether what a replay printed is right for the refusals that it shows.

use crate::faults::Met;
use crate::given::Letter;
use crate::offices::{bag_of, new_office, replayed};
use deb_version::NoMemory;
use std::alloc::Global;

/// A line in the place of a delivery, of the status or of a text.
const REFUSED: &[u8] = b"refused NoMemory\n";

/// The same if the store failed.
const STORE_REFUSED: &[u8] = b"refused Store\n";

/// What follows the line of a refusal, if that comes first.
pub fn without_refusal(output: &[u8]) -> Option<&[u8]> {
    output
        .strip_prefix(REFUSED)
        .or(output.strip_prefix(STORE_REFUSED))
}

/// The line of a bag that ended because memory ran out.
const BAG_REFUSED: &[u8] = b"bag refused NoMemory\n";

/// What is printed if only these letters are replayed, in a new office and with no refusal, and the status.
fn clean_output(alloc: Global, letters: &[Letter]) -> Result<(Vec<u8>, u8), Met> {
    let bag = bag_of(alloc, letters)?;
    let mut office = new_office(alloc)?;
    let output = replayed(alloc, &mut office, &bag);
    drop(office);
    Ok(output?)
}

/// What follows the answers of these letters.
fn end_behind<'a>(letters: &[Letter], output: &'a [u8]) -> Option<&'a [u8]> {
    let mut end = output;
    for letter in letters {
        end = end.strip_prefix(letter.reply.as_bytes())?;
    }
    Some(end)
}

/// Whether a text begins here, or the output ends.
fn begins_text(bytes: &[u8]) -> bool {
    bytes.is_empty()
        || bytes.starts_with(b"ready ")
        || bytes.starts_with(b"excuses ")
        || bytes.starts_with(b"update ")
        || bytes.starts_with(b"testing ")
}

/// Whether an end is the due one, except for a line in the place of one text or more, from this place on.
fn shows_refused_at(due: &[u8], end: &[u8], place: usize) -> bool {
    let (Some(front), Some(behind)) = (due.get(..place), due.get(place..)) else {
        return false;
    };
    let later = end
        .strip_prefix(front)
        .and_then(|rest| rest.strip_prefix(REFUSED));
    match later {
        Some(later) => {
            behind.len() > later.len()
                && behind.ends_with(later)
                && begins_text(behind)
                && begins_text(later)
        }
        None => false,
    }
}

/// Whether an end is the due one, except for a line in the place of one text or more, from some place on.
fn shows_one_refused(due: &[u8], end: &[u8]) -> bool {
    let mut shows = false;
    for place in 0..due.len() {
        if shows_refused_at(due, end, place) {
            shows = true;
        }
    }
    shows
}

/// Whether an output says that a letter was lost, and what follows the answers.
#[derive(Clone, Copy)]
struct Answered<'a> {
    lost: bool,
    rest: &'a [u8],
}

/// What an output says of these letters. Held letters go into a list.
fn answers_in<'a>(
    letters: &[Letter],
    output: &'a [u8],
    held: &mut Vec<Letter>,
) -> Result<Answered<'a>, NoMemory> {
    let mut rest = output;
    let mut lost = false;
    for letter in letters {
        if let Some(later) = rest.strip_prefix(letter.reply.as_bytes()) {
            rest = later;
            held.push(*letter)?;
        } else if let Some(later) = rest.strip_prefix(REFUSED) {
            rest = later;
            lost = true;
        } else {
            break;
        }
    }
    if let Some(later) = rest.strip_prefix(BAG_REFUSED) {
        rest = later;
        lost = true;
    }
    Ok(Answered { lost, rest })
}

/// Whether what a replay of these letters printed is right for what it shows: each letter is answered by its line or by
/// a refusal, a bag may end because memory ran out, and the end is that of the held letters, or one of its texts is
/// refused. The status shows each loss. This is about a replay that met at most one refusal.
pub fn is_right(alloc: Global, letters: &[Letter], output: &[u8], status: u8) -> Result<bool, Met> {
    if output == REFUSED {
        return Ok(status == 4);
    }
    let mut held = Vec::new(alloc);
    let told = answers_in(letters, output, &mut held)?;
    is_end_of(alloc, &held, told, status)
}

/// Whether an end is that of the held letters, or one of its texts is refused.
fn is_end_of(alloc: Global, held: &[Letter], told: Answered<'_>, status: u8) -> Result<bool, Met> {
    let (output, clean) = clean_output(alloc, held)?;
    if clean != 0 {
        return Err(Met::NoMemory);
    }
    match end_behind(held, &output) {
        Some(due) => Ok(is_end(due, told, status)),
        None => Err(Met::Wrong("an answer that isn't due")),
    }
}

/// Whether an end is the due one, or one of its texts is refused.
fn is_end(due: &[u8], told: Answered<'_>, status: u8) -> bool {
    if told.rest == due {
        return status == 4 || (status == 0 && !told.lost);
    }
    status == 4 && !told.lost && shows_one_refused(due, told.rest)
}
