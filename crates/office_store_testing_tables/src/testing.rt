//! The tables of testing: a finished run writes only the rows that changed.
ghost use Rattle.std.specs.Prelude.{◌≡◌, ℕ, List, IsTrue, Some, map, length, refl};
ghost use Rattle.std.specs.List.{AllByRecursion};
ghost use Rattle.sqlite.specs.Values.{bound};
ghost use Rattle.testing_rules_model.specs.InOrder.{AreByName, AreByKey};
ghost use Rattle.office_mail.specs.Kept.{Place};
ghost use Rattle.office_store_testing_tables.specs.Entries.{source_in, entry_in};
ghost use Rattle.office_store_testing_tables.specs.declared.rowids.ChangedTable.TheVariants as changed;
ghost use Rattle.office_store_testing_tables.specs.steps.StepsWithin.{BeginsInside, PerformsNeverBad};
ghost use Rattle.office_store_testing_tables.specs.steps.EntrySteps.{source_columns, source_shown, source_entry as entry_of_source, source_parameters, FitsSource, SetsSources, entry_columns, row_shown, row_entry as entry_of_row, row_parameters, FitsRow, SetsRows};

use crate::differences::{Entry, name_or_none, number_or_none, set_entries};
use crate::rowids::ChangedTable;
use crate::shown::{row_entry, source_entry};
use office_store_keeper::KeepFault;
use sqlite::types::{ToSql, ValueRef};
use sqlite::{Alter, Error, Row, Transaction};
use std::cmp::Ordering;
use testing_rules_model::{RowIn, SourceIn};

/// Whether a shown row says a source.
fn says_source(shown: &Row, source: &SourceIn) -> bool
    ensures { IsTrue result → source_in shown.now ≡ Some (entry_of_source source.now) }
{
    match source_entry(shown) {
        Ok((name, sender, number)) => {
            name == source.name.as_str().as_bytes()
                && sender == source.sender
                && number == source.number
        }
        Err(_) => false,
    }
}

/// The values of a source's columns.
fn values_of_source(source: &SourceIn) -> [ValueRef<'_>; 3]
    ensures is { bound result ≡ source_parameters source.now.name source.now.sender source.now.number }
    ensures fits { FitsSource source.now.sender source.now.number }
{
    let name = source.name.as_str();
    [
        name.to_sql(),
        source.sender.to_sql(),
        source.number.to_sql(),
    ]
}

/// The values of eight sources' columns, source by source.
fn eight_source_values(sources: &[SourceIn]) -> [[ValueRef<'_>; 3]; 8]
    requires eight { length sources.now ≡ 8 }
    ensures is { map bound result ≡ map (λ s. source_parameters s.name s.sender s.number) sources.now }
    ensures fits { AllByRecursion (λ s. FitsSource s.sender s.number) sources.now }
{
    match sources {
        [first, second, third, fourth, fifth, sixth, seventh, eighth] => [
            values_of_source(first),
            values_of_source(second),
            values_of_source(third),
            values_of_source(fourth),
            values_of_source(fifth),
            values_of_source(sixth),
            values_of_source(seventh),
            values_of_source(eighth),
        ],
        _ => unreachable!(),
    }
}

impl Entry for SourceIn {
    ghost Content = { List ℕ × Place };

    ghost TABLE = { changed.Sources };

    ghost columns = { source_columns };

    ghost says = { source_in };

    ghost entry = { entry_of_source };

    ghost says_shown = { source_shown };

    ghost shows_rowid = { λ row. refl };

    const TABLE: ChangedTable = ChangedTable::Sources;

    fn listed<S: Alter>(tx: &mut Transaction<'_, S>) -> Result<Vec<Row>, Error> {
        tx.query_all(
            "SELECT rowid, name, sender, number FROM testing_source",
            &[],
        )
    }

    fn order(row: &Row, other: &Row) -> Ordering {
        name_or_none(row, 1).cmp(name_or_none(other, 1))
    }

    fn is_said_by(&self, row: &Row) -> bool {
        says_source(row, self)
    }

    fn is_before(&self, row: &Row) -> bool {
        name_or_none(row, 1)
            .cmp(self.name.as_str().as_bytes())
            .is_gt()
    }

    fn add<S: Alter>(&self, tx: &mut Transaction<'_, S>) -> Result<usize, Error> {
        let values = values_of_source(self);
        tx.execute(
            "INSERT INTO testing_source (name, sender, number) VALUES (?1, ?2, ?3)",
            &values,
        )
    }

    fn add_eight<S: Alter>(tx: &mut Transaction<'_, S>, entries: &[Self]) -> Result<usize, Error> {
        let values = eight_source_values(entries);
        tx.execute(
            "INSERT INTO testing_source (name, sender, number) VALUES (?1, ?2, ?3), (?4, ?5, ?6), (?7, ?8, ?9), (?10, ?11, ?12), (?13, ?14, ?15), (?16, ?17, ?18), (?19, ?20, ?21), (?22, ?23, ?24)",
            values.as_flattened(),
        )
    }
}

/// Replaces the old sources with these: those that are gone are removed, new ones are added.
pub fn set_sources<S: Alter>(
    tx: &mut Transaction<'_, S>,
    sources: &[SourceIn],
) -> Result<(), KeepFault>
    requires inside { BeginsInside S.Store tx.old.conn }
    requires ordered { AreByName sources.now }
    ensures { PerformsNeverBad S.Store tx.old.conn tx.new.conn result (λ db next _. SetsSources db next sources.now) }
{
    set_entries(tx, sources)
}

/// Whether a shown row says a row of testing.
fn says_row(shown: &Row, row: &RowIn) -> bool
    ensures { IsTrue result → entry_in shown.now ≡ Some (entry_of_row row.now) }
{
    let name = row.binary.name.as_str().as_bytes();
    match row_entry(shown) {
        Ok(entry) => {
            entry.arch == row.arch
                && entry.name == name
                && entry.sender == row.sender
                && entry.number == row.number
                && entry.place == row.place
        }
        Err(_) => false,
    }
}

/// The values of a row's columns.
fn values_of_row(row: &RowIn) -> [ValueRef<'_>; 5]
    ensures is { bound result ≡ row_parameters row.now.arch row.now.binary.name row.now.sender row.now.number row.now.place }
    ensures fits { FitsRow row.now.arch row.now.sender row.now.number row.now.place }
{
    let name = row.binary.name.as_str();
    [
        row.arch.to_sql(),
        name.to_sql(),
        row.sender.to_sql(),
        row.number.to_sql(),
        row.place.to_sql(),
    ]
}

/// The values of eight rows' columns, row by row.
fn eight_row_values(rows: &[RowIn]) -> [[ValueRef<'_>; 5]; 8]
    requires eight { length rows.now ≡ 8 }
    ensures is { map bound result ≡ map (λ r. row_parameters r.arch r.binary.name r.sender r.number r.place) rows.now }
    ensures fits { AllByRecursion (λ r. FitsRow r.arch r.sender r.number r.place) rows.now }
{
    match rows {
        [first, second, third, fourth, fifth, sixth, seventh, eighth] => [
            values_of_row(first),
            values_of_row(second),
            values_of_row(third),
            values_of_row(fourth),
            values_of_row(fifth),
            values_of_row(sixth),
            values_of_row(seventh),
            values_of_row(eighth),
        ],
        _ => unreachable!(),
    }
}

impl Entry for RowIn {
    ghost Content = { (ℕ × List ℕ) × (Place × ℕ) };

    ghost TABLE = { changed.Rows };

    ghost columns = { entry_columns };

    ghost says = { entry_in };

    ghost entry = { entry_of_row };

    ghost says_shown = { row_shown };

    ghost shows_rowid = { λ row. refl };

    const TABLE: ChangedTable = ChangedTable::Rows;

    fn listed<S: Alter>(tx: &mut Transaction<'_, S>) -> Result<Vec<Row>, Error> {
        tx.query_all(
            "SELECT rowid, arch, name, sender, number, place FROM testing_row",
            &[],
        )
    }

    fn order(row: &Row, other: &Row) -> Ordering {
        let archs = number_or_none(row, 1).cmp(&number_or_none(other, 1));
        archs.then(name_or_none(row, 2).cmp(name_or_none(other, 2)))
    }

    fn is_said_by(&self, row: &Row) -> bool {
        says_row(row, self)
    }

    fn is_before(&self, row: &Row) -> bool {
        let name = self.binary.name.as_str().as_bytes();
        let names = name_or_none(row, 2).cmp(name);
        number_or_none(row, 1).cmp(&self.arch).then(names).is_gt()
    }

    fn add<S: Alter>(&self, tx: &mut Transaction<'_, S>) -> Result<usize, Error> {
        let values = values_of_row(self);
        tx.execute(
            "INSERT INTO testing_row (arch, name, sender, number, place) VALUES (?1, ?2, ?3, ?4, ?5)",
            &values,
        )
    }

    fn add_eight<S: Alter>(tx: &mut Transaction<'_, S>, entries: &[Self]) -> Result<usize, Error> {
        let values = eight_row_values(entries);
        tx.execute(
            "INSERT INTO testing_row (arch, name, sender, number, place) VALUES (?1, ?2, ?3, ?4, ?5), (?6, ?7, ?8, ?9, ?10), (?11, ?12, ?13, ?14, ?15), (?16, ?17, ?18, ?19, ?20), (?21, ?22, ?23, ?24, ?25), (?26, ?27, ?28, ?29, ?30), (?31, ?32, ?33, ?34, ?35), (?36, ?37, ?38, ?39, ?40)",
            values.as_flattened(),
        )
    }
}

/// Replaces the old rows with these: those that are gone are removed, new ones are added.
pub fn set_rows<S: Alter>(tx: &mut Transaction<'_, S>, rows: &[RowIn]) -> Result<(), KeepFault>
    requires inside { BeginsInside S.Store tx.old.conn }
    requires ordered { AreByKey rows.now }
    ensures { PerformsNeverBad S.Store tx.old.conn tx.new.conn result (λ db next _. SetsRows db next rows.now) }
{
    set_entries(tx, rows)
}
