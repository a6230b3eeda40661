//! Each of a store's two files stops after each of its calls.

use crate::faults::{Met, due};
use crate::reopened::{Left, Start, Stop, Way, start_of, stops};
use std::alloc::Global;

/// More calls than a run makes of a file.
const MOST: u64 = 400;

/// What the log and the database have, when the machine comes back, of the writes that weren't synced.
static LOSSES: [(Left, Left); 4] = [
    (Left::Nothing, Left::Nothing),
    (Left::Nothing, Left::Everything),
    (Left::Everything, Left::Nothing),
    (Left::Everything, Left::Everything),
];

/// A stop of the log, or of the database, after that many calls.
fn stop_after(way: Way, is_log: bool, calls: u64, left: (Left, Left)) -> Stop {
    let (left_of_log, left_of_db) = left;
    let (log_calls, db_calls) = if is_log {
        (calls, u64::MAX)
    } else {
        (u64::MAX, calls)
    };
    Stop {
        way,
        log_calls,
        db_calls,
        left_of_log,
        left_of_db,
    }
}

/// How many stops of a file are met at least. A migration is one transaction, so it asks little of the database.
fn fewest(way: Way, is_log: bool) -> u64 {
    if is_log {
        return 11;
    }
    match way {
        Way::Letters | Way::Bag => 11,
        Way::OldStore => 9,
    }
}

/// One file, the log or the database, stops after each number of its calls, until a run meets no stop.
fn try_loss(
    alloc: Global,
    start: &Start,
    way: Way,
    is_log: bool,
    left: (Left, Left),
) -> Result<(), Met> {
    let mut met = 0u64;
    for calls in 0..MOST {
        if !stops(alloc, start, stop_after(way, is_log, calls, left))? {
            break;
        }
        met = met.saturating_add(1);
    }
    due(
        met >= fewest(way, is_log) && met < MOST,
        "another count of stops",
    )
}

/// The log or the database stops while this is done, with each loss.
pub fn try_file(alloc: Global, way: Way, is_log: bool) -> Result<(), Met> {
    let start = start_of(alloc, way)?;
    for left in &LOSSES {
        try_loss(alloc, &start, way, is_log, *left)?;
    }
    Ok(())
}
