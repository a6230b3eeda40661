//! Borrowed rows, in the order of testing: a change moves places and copies no row.

ghost use Rattle.std.specs.Prelude.{◌≡◌, ◌<◌, true, length, [], Err, OnOk, OnErr, IfOk, IfSome};
ghost use Rattle.std.specs.List.{All};
ghost use Rattle.std.specs.List.Sorted.{IsBinarySearchResult, IsSearchInRange};
ghost use Rattle.testing_rules_suites.specs.steps.AfterMoves.{with_rows, rows_at};
ghost use Rattle.testing_rules_model.specs.InOrder.{AreByKey};
ghost use Rattle.testing_rules_model.specs.JudgedRows.{lent, row_of};
ghost use Rattle.testing_rules_model.specs.Moves as rules;
ghost use Rattle.testing_rules_model.specs.SameMessages.{SameElements};

use crate::Pool;
use deb_version::NoMemory;
use std::alloc::Global;
use std::cmp::Ordering;
use testing_rules_model::{LentRow, RowIn};

/// The order of rows, by architecture and name.
pub fn order_rows(row: &LentRow, other: &LentRow) -> Ordering
    ensures { result ≡ rules.row_cmp (rules.row_key (row_of row.now)) (rules.row_key (row_of other.now)) }
{
    let names = row.binary.name.as_str().cmp(other.binary.name.as_str());
    row.arch.cmp(&other.arch).then(names)
}

/// The row's key is above that of the last row.
fn is_behind(rows: &[LentRow], row: &LentRow) -> bool
    ensures { result ≡ true → IsBinarySearchResult (λ r. rules.row_cmp (rules.row_key r) (rules.row_key (row_of row.now))) (lent rows.now) (Err (length (lent rows.now))) }
{
    match rows.last() {
        Some(last) => order_rows(last, row).is_lt(),
        None => true,
    }
}

/// The place of the row's key among the rows, or where it belongs. A row that belongs after all of them needs no
/// search.
fn place_of_key(rows: &[LentRow], row: &LentRow) -> Result<usize, usize>
    ensures bound { IsSearchInRange result (length (lent rows.now)) }
    ensures found { IsBinarySearchResult (λ r. rules.row_cmp (rules.row_key r) (rules.row_key (row_of row.now))) (lent rows.now) result }
{
    if is_behind(rows, row) {
        return Err(rows.len());
    }
    rows.binary_search_by(
        |other: &LentRow| -> Ordering
            ensures { result ≡ rules.row_cmp (rules.row_key (row_of other.now)) (rules.row_key (row_of row.entry.now)) }
        { order_rows(other, row) },
    )
}

/// Puts a row at its key.
pub fn put_row<'a>(rows: &mut Vec<LentRow<'a>>, row: &LentRow<'a>) -> Result<(), NoMemory>
    requires { AreByKey (lent rows.old.items) }
    ensures ok { OnOk result (lent rows.new.items ≡ rules.put_row (row_of row.now) (lent rows.old.items)) }
    ensures err { OnErr result (rows.new.items ≡ rows.old.items) }
    ensures ordered { AreByKey (lent rows.new.items) }
{
    match place_of_key(rows, row) {
        Ok(place) => rows[place] = *row,
        Err(place) => rows.insert(place, *row)?,
    }
    Ok(())
}

/// Puts in the rows of a pool at some places, each at its key.
fn put_rows<'a>(
    rows: &mut Vec<LentRow<'a>>,
    pool: &'a Pool,
    places: &[usize],
) -> Result<(), NoMemory>
    requires order { AreByKey (lent rows.old.items) }
    requires places { All (λ k. k < length pool.now) places.now }
    ensures ok { OnOk result (lent rows.new.items ≡ with_rows (rows_at pool.now places.now) (lent rows.old.items)) }
    ensures ordered { AreByKey (lent rows.new.items) }
{
    for place in places {
        let row = pool.row(*place);
        put_row(rows, &row)?;
    }
    Ok(())
}

/// The rows of a pool at some places, in the order of the places.
fn rows_at<'a>(
    alloc: Global,
    pool: &'a Pool,
    places: &[usize],
) -> Result<Vec<LentRow<'a>>, NoMemory>
    requires { All (λ k. k < length pool.now) places.now }
    ensures { IfOk result (λ rows. lent rows.items ≡ rows_at pool.now places.now) }
{
    let mut rows = Vec::with_capacity(alloc, places.len())?;
    for place in places {
        let row = pool.row(*place);
        rows.push(row)?;
    }
    Ok(rows)
}

/// The row's key is above that of the last of the others.
fn is_above_last(rows: &[RowIn], row: &LentRow) -> bool
    ensures { result ≡ true → IsBinarySearchResult (λ r. rules.row_cmp (rules.row_key r) (rules.row_key (row_of row.now))) rows.now (Err (length rows.now)) }
{
    match rows.last() {
        Some(last) => order_rows(&last.lend(), row).is_lt(),
        None => true,
    }
}

/// Copies of the rows of a pool at some places, in the order of the places, if each key is above the one before it.
pub fn copies_by_key(
    alloc: Global,
    pool: &Pool,
    places: &[usize],
) -> Result<Option<Vec<RowIn>>, NoMemory>
    requires { All (λ k. k < length pool.now) places.now }
    ensures copies { IfOk result (λ found. IfSome found (λ copies. copies.items ≡ rows_at pool.now places.now)) }
    ensures ordered { IfOk result (λ found. IfSome found (λ copies. AreByKey copies.items)) }
{
    let mut copies = Vec::with_capacity(alloc, places.len())?;
    for place in places {
        let row = pool.row(*place);
        if !is_above_last(&copies, &row) {
            return Ok(None);
        }
        copies.push(row.copy()?)?;
    }
    Ok(Some(copies))
}

/// Equal rows.
pub fn copy_lent(alloc: Global, rows: &[LentRow]) -> Result<Vec<RowIn>, NoMemory>
    ensures { IfOk result (λ copies. copies.items ≡ lent rows.now) }
{
    let mut copies = Vec::with_capacity(alloc, rows.len())?;
    for row in rows {
        copies.push(row.copy()?)?;
    }
    Ok(copies)
}

/// Orders rows by key. Stretches that are already in order are kept and merged.
fn sort_rows(rows: &mut Vec<LentRow>) -> Result<(), NoMemory>
    ensures { SameElements (lent rows.old.items) (lent rows.new.items) }
{
    rows.sort_by(
        |row: &LentRow, other: &LentRow| -> Ordering
            ensures { result ≡ rules.row_cmp (rules.row_key (row_of row.now)) (rules.row_key (row_of other.now)) }
        { order_rows(row, other) },
    )?;
    Ok(())
}

/// Each row's key is above that of the row before it.
fn are_by_key(rows: &[LentRow]) -> bool
    ensures { result ≡ true → AreByKey (lent rows.now) }
{
    for place in 0..rows.len() {
        let (before, _) = rows.split_at(place);
        if !is_behind(before, &rows[place]) {
            return false;
        }
    }
    true
}

/// The rows of a pool at some places, each put at its key: of those with the same key the last. Rows with different
/// keys are sorted; only if two have the same key are they put in one by one. The only error is running out of memory.
pub fn rows_in_order<'a>(
    alloc: Global,
    pool: &'a Pool,
    places: &[usize],
) -> Result<Vec<LentRow<'a>>, NoMemory>
    requires { All (λ k. k < length pool.now) places.now }
    ensures { IfOk result (λ rows. lent rows.items ≡ with_rows (rows_at pool.now places.now) []) }
{
    let mut rows = rows_at(alloc, pool, places)?;
    sort_rows(&mut rows)?;
    if are_by_key(&rows) {
        return Ok(rows);
    }
    rows.clear();
    put_rows(&mut rows, pool, places)?;
    Ok(rows)
}

/// The rows, borrowed.
pub fn lend_rows(alloc: Global, rows: &[RowIn]) -> Result<Vec<LentRow<'_>>, NoMemory>
    ensures { IfOk result (λ loans. lent loans.items ≡ rows.now) }
{
    let mut loans = Vec::with_capacity(alloc, rows.len())?;
    for row in rows {
        loans.push(row.lend())?;
    }
    Ok(loans)
}
