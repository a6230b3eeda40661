//! How a finished run changes a table of testing: its shown rows are compared with the wanted entries, and only the
//! rows that differ are written.
ghost use Rattle.std.specs.Prelude.{◌≡◌, ◌≤◌, ◌<◌, ◌⊎◌, IsTrue, Option, Some, length, map, IfOk};
ghost use Rattle.std.specs.List.Sorted.{IsPermutation};
ghost use Rattle.sqlite.specs.Held.{state};
ghost use Rattle.sqlite.specs.Order.{Row as ARow, column};
ghost use Rattle.sqlite.specs.Tree.{Trees};
ghost use Rattle.office_store_testing_tables.specs.Tables.{IsTrusted};
ghost use Rattle.office_store_testing_tables.specs.declared.rowids.ChangedTable.{ChangedTable as ATable};
ghost use Rattle.office_store_testing_tables.specs.steps.Faults.{NeverBad};
ghost use Rattle.office_store_testing_tables.specs.steps.StepsWithin.{BeginsInside, Performs, PerformsNeverBad, Looks};
ghost use Rattle.office_store_testing_tables.specs.steps.ChangedTables.{place_of, Adds, AddsAll};
ghost use Rattle.office_store_testing_tables.specs.steps.Differences.{Agrees, GoesOn, TableCompared, HasAlone};

use crate::rowids::{ChangedTable, id_in, take_one};
use crate::shown::{name_in, number_in};
use office_store_keeper::KeepFault;
use sqlite::{Alter, Error, Row, Transaction};
use std::cmp::Ordering;

/// An entry of a table of testing, and how the table is read and written.
pub trait Entry: Sized {
    // The content of a row.
    ghost Content: { Type 0 };

    // The table.
    ghost TABLE: { ATable };

    // The shown part of a row.
    ghost columns: { ARow → ARow };

    // The content of a row, if it is readable.
    ghost says: { ARow → Option Content };

    // The content of an entry's row.
    ghost entry: { Self → Content };

    /// The table.
    const TABLE: ChangedTable;

    /// The rows of the table, in any order.
    fn listed<S: Alter>(tx: &mut Transaction<'_, S>) -> Result<Vec<Row>, Error>
        requires { BeginsInside S.Store tx.old.conn }
        ensures { Looks S.Store tx.old.conn tx.new.conn result (λ db rows. IsPermutation (map columns (db (place_of TABLE))) rows.items) };

    /// Which of two shown rows comes first. Nothing depends on it.
    fn order(row: &Row, other: &Row) -> Ordering;

    /// Whether a shown row says this entry.
    fn is_said_by(&self, row: &Row) -> bool
        ensures { IsTrue result → says row.now ≡ Some (entry self.now) };

    /// Whether a shown row comes after this entry's. Nothing depends on it.
    fn is_before(&self, row: &Row) -> bool;

    /// Adds this entry.
    fn add<S: Alter>(&self, tx: &mut Transaction<'_, S>) -> Result<usize, Error>
        requires { BeginsInside S.Store tx.old.conn }
        ensures { Performs S.Store tx.old.conn tx.new.conn result (λ db next _. Adds TABLE says db next (entry self.now)) };

    /// Adds eight entries with one statement.
    fn add_eight<S: Alter>(tx: &mut Transaction<'_, S>, entries: &[Self]) -> Result<usize, Error>
        requires inside { BeginsInside S.Store tx.old.conn }
        requires eight { length entries.now ≡ 8 }
        ensures { Performs S.Store tx.old.conn tx.new.conn result (λ db next _. AddsAll TABLE says db next (map entry entries.now)) };

    // The shown part says what the row says.
    ghost says_shown: { (row : ARow) → says (columns row) ≡ says row };

    // The shown part begins with the rowid.
    ghost shows_rowid: { (row : ARow) → column (columns row) 0 ≡ column row 0 };
}

/// The number of shown rows of a table, and of new entries, compared so far.
#[derive(Clone, Copy)]
struct Compared {
    shown: usize,
    entries: usize,
}

/// The next change of a table.
#[derive(Clone, Copy)]
pub enum Change {
    /// The next row says the next entry.
    Stays,
    /// The next row, with this rowid, is gone.
    Leaves(i64),
    /// The next entry is new.
    Comes,
}

/// The name in a column of a shown row, or none.
pub fn name_or_none(row: &Row, at: usize) -> &[u8] {
    match name_in(row, at) {
        Ok(name) => name,
        Err(_) => &[],
    }
}

/// The number in a column of a shown row, or 0.
pub fn number_or_none(row: &Row, at: usize) -> u32 {
    number_in(row, at).unwrap_or(0)
}

/// These shown rows in the order of their table. Nothing depends on it.
fn in_order<E: Entry>(rows: Vec<Row>) -> Vec<Row>
    ensures { IsPermutation rows.items result.items }
{
    let mut sorted = rows;
    sorted.sort_unstable_by(|row, other| E::order(row, other));
    sorted
}

/// The next change of the table. A row that is gone is removed before another with its key is added, since both lists
/// are in order. Nothing else depends on their order.
fn next_change<E: Entry>(shown: &[Row], entries: &[E], at: Compared) -> Result<Change, KeepFault>
    requires left { (at.shown < length shown.now) ⊎ (at.entries < length entries.now) }
    ensures next { IfOk result (λ change. Agrees E.says E.entry shown.now entries.now at.shown at.entries change) }
    ensures bad { NeverBad result }
{
    if at.shown >= shown.len() {
        return Ok(Change::Comes);
    }
    let next = &shown[at.shown];
    if at.entries >= entries.len() {
        let id = id_in(next)?;
        return Ok(Change::Leaves(id));
    }
    let entry = &entries[at.entries];
    if entry.is_said_by(next) {
        return Ok(Change::Stays);
    }
    if entry.is_before(next) {
        return Ok(Change::Comes);
    }
    let id = id_in(next)?;
    Ok(Change::Leaves(id))
}

/// Makes the next change of the table.
fn make_change<S: Alter, E: Entry>(
    tx: &mut Transaction<'_, S>,
    shown: &[Row],
    entries: &[E],
    at: Compared,
) -> Result<Compared, KeepFault>
    requires inside { BeginsInside S.Store tx.old.conn }
    requires within { (at.shown ≤ length shown.now) × (at.entries ≤ length entries.now) }
    requires left { (at.shown < length shown.now) ⊎ (at.entries < length entries.now) }
    ensures does { PerformsNeverBad S.Store tx.old.conn tx.new.conn result (λ db next to. (first : Trees) → TableCompared E.TABLE E.columns E.says E.entry first db shown.now entries.now at.shown at.entries → TableCompared E.TABLE E.columns E.says E.entry first next shown.now entries.now to.shown to.entries) }
    ensures further { IfOk result (λ to. GoesOn (length shown.now) (length entries.now) at.shown at.entries to.shown to.entries) }
{
    match next_change(shown, entries, at)? {
        Change::Stays => Ok(Compared {
            shown: at.shown + 1,
            entries: at.entries + 1,
        }),
        Change::Leaves(id) => {
            take_one(tx, E::TABLE, id)?;
            Ok(Compared {
                shown: at.shown + 1,
                entries: at.entries,
            })
        }
        Change::Comes => {
            let place = at.entries;
            let entry = &entries[place];
            entry.add(tx)?;
            Ok(Compared {
                shown: at.shown,
                entries: at.entries + 1,
            })
        }
    }
}

/// Makes the next change of the table. Once no shown row is left, eight entries are added with one statement.
fn make_change_or_more<S: Alter, E: Entry>(
    tx: &mut Transaction<'_, S>,
    shown: &[Row],
    entries: &[E],
    at: Compared,
) -> Result<Compared, KeepFault>
    requires inside { BeginsInside S.Store tx.old.conn }
    requires within { (at.shown ≤ length shown.now) × (at.entries ≤ length entries.now) }
    requires left { (at.shown < length shown.now) ⊎ (at.entries < length entries.now) }
    ensures does { PerformsNeverBad S.Store tx.old.conn tx.new.conn result (λ db next to. (first : Trees) → TableCompared E.TABLE E.columns E.says E.entry first db shown.now entries.now at.shown at.entries → TableCompared E.TABLE E.columns E.says E.entry first next shown.now entries.now to.shown to.entries) }
    ensures further { IfOk result (λ to. GoesOn (length shown.now) (length entries.now) at.shown at.entries to.shown to.entries) }
{
    if at.shown < shown.len() || entries.len() - at.entries < 8 {
        return make_change(tx, shown, entries, at);
    }
    let to = at.entries + 8;
    E::add_eight(tx, &entries[at.entries..to])?;
    Ok(Compared {
        shown: at.shown,
        entries: to,
    })
}

/// Changes the table, all of whose rows are shown, until it has exactly these entries.
fn change_all<S: Alter, E: Entry>(
    tx: &mut Transaction<'_, S>,
    shown: &[Row],
    entries: &[E],
) -> Result<(), KeepFault>
    requires inside { BeginsInside S.Store tx.old.conn }
    requires shown { IsTrusted (state S.Store tx.old.conn.now) → IsPermutation (map E.columns ((state S.Store tx.old.conn.now).now.trees (place_of E.TABLE))) shown.now }
    ensures { PerformsNeverBad S.Store tx.old.conn tx.new.conn result (λ db next _. HasAlone E.TABLE E.columns E.says E.entry db next entries.now) }
{
    let mut at = Compared {
        shown: 0,
        entries: 0,
    };
    'changes: while at.shown < shown.len() || at.entries < entries.len() {
        at = make_change_or_more(tx, shown, entries, at)?;
    }
    Ok(())
}

/// Replaces the old entries with these: those that are gone are removed, new ones are added.
pub fn set_entries<S: Alter, E: Entry>(
    tx: &mut Transaction<'_, S>,
    entries: &[E],
) -> Result<(), KeepFault>
    requires { BeginsInside S.Store tx.old.conn }
    ensures { PerformsNeverBad S.Store tx.old.conn tx.new.conn result (λ db next _. HasAlone E.TABLE E.columns E.says E.entry db next entries.now) }
{
    let listed = E::listed(tx)?;
    let shown = in_order::<E>(listed);
    change_all(tx, shown.as_slice(), entries)?;
    Ok(())
}
