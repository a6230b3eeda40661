//! Texts of mail loaded together. Entries of testing, read in the order of their messages, usually name messages that
//! are adjacent in the mail.
ghost use Rattle.office_store_testing_tables.specs.steps.Faults.{IsBad};
ghost use Rattle.office_store_testing_tables.specs.steps.TableSteps.{IsCrowded};
ghost use Rattle.office_store_testing_tables.specs.steps.Reads.{LeavesStore, BeginsOurs, Finds, HoldsOfTables};
ghost use Rattle.office_store_testing_tables.specs.steps.Loaded.{AreLoaded};

use crate::loaded::{LoadedLetters, loaded_text};
use crate::mail;
use crate::shown::number_in;
use office_store_keeper::KeepFault;
use sqlite::{Alter, Connection, Row};
use std::alloc::Global;

/// The most numbers of a sender that are loaded at once.
const BLOCK: u32 = 256;

/// The columns of a shown row with the place of its message.
#[derive(Clone, Copy)]
pub struct Columns {
    pub sender: usize,
    pub number: usize,
}

/// Shown rows in the order of the messages that they name.
#[derive(Clone, Copy)]
pub struct Listed<'a> {
    pub rows: &'a [Row],
    pub columns: Columns,
}

/// The place of the message named by a shown row, with 0 for an unreadable number.
pub fn message_place(row: &Row, columns: Columns) -> (u32, u32) {
    (
        number_in(row, columns.sender).unwrap_or(0),
        number_in(row, columns.number).unwrap_or(0),
    )
}

/// The last number to load together with this one: the last of a block named by the rows, if they name at least a
/// quarter of the numbers up to it. Nothing depends on it.
fn last_wanted(listed: Listed<'_>, sender: u32, number: u32) -> u32 {
    let from = (sender, number);
    let to = (sender, number.saturating_add(BLOCK));
    let rows = listed.rows;
    let start = rows.partition_point(|row| message_place(row, listed.columns) < from);
    let end = rows.partition_point(|row| message_place(row, listed.columns) < to);
    let last = match rows.get(end.saturating_sub(1)) {
        Some(row) => message_place(row, listed.columns).1,
        None => number,
    };
    let span = last.saturating_sub(number);
    if span < BLOCK && span as usize / 4 <= end.saturating_sub(start) {
        number.max(last)
    } else {
        number
    }
}

/// Loads the text at a place, with those near it named by the rows, unless it is loaded.
pub fn bring<S: Alter>(
    alloc: Global,
    conn: &mut Connection<S>,
    block: &mut LoadedLetters,
    listed: Listed<'_>,
    sender: u32,
    number: u32,
) -> Result<(), KeepFault>
    requires ours { BeginsOurs S.Store conn.old }
    requires block { HoldsOfTables S.Store conn.old (λ db. AreLoaded db block.old) }
    ensures reads { LeavesStore S.Store conn.old conn.new result }
    ensures block { Finds S.Store conn.new result (λ db _. AreLoaded db block.new) }
    ensures bad { HoldsOfTables S.Store conn.new (λ db. IsBad result → IsCrowded (db 1)) }
{
    if loaded_text(block, sender, number).is_some() {
        return Ok(());
    }
    let last = last_wanted(listed, sender, number);
    let letters = mail::load(alloc, conn, sender, number, last)?;
    *block = LoadedLetters { sender, letters };
    Ok(())
}
