//! Rows found and removed by their rowids.
ghost use Rattle.std.specs.Prelude.{◌≡◌, ◌≢◌, IfOk, OnOk};
ghost use Rattle.sqlite.specs.Order.{column};
ghost use Rattle.sqlite.specs.declared.types.Value.TheVariants.{Int};
ghost use Rattle.office_store_testing_tables.specs.steps.Faults.{NeverBad};
ghost use Rattle.office_store_testing_tables.specs.steps.FactSteps.{IsOnlyId};
ghost use Rattle.office_store_testing_tables.specs.steps.StepsWithin.{BeginsInside, Performs, PerformsNeverBad};
ghost use Rattle.office_store_testing_tables.specs.steps.ChangedTables.{take_text, Takes};

use office_store_keeper::{Cause, KeepFault};
use sqlite::{Alter, Constraint, Error, ErrorCode, Row, Transaction, params};

/// A table that a finished run changes row by row.
#[derive(Clone, Copy)]
pub enum ChangedTable {
    /// Testing's sources.
    Sources,
    /// Testing's rows.
    Rows,
    /// The facts but for the last delays.
    Facts,
    /// The last delays.
    Delays,
}

/// The fault of the store for a repeated key. SQLite allows none.
fn stands_twice(constraint: Constraint) -> KeepFault
    ensures { result ≢ KeepFault.Store Cause.BadRow }
{
    KeepFault::from(Error::SqliteFailure(ErrorCode::ConstraintViolation(constraint)))
}

/// The shown rowid.
pub fn id_in(row: &Row) -> Result<i64, KeepFault>
    ensures ok { IfOk result (λ id. column row.now 0 ≡ Int id) }
    ensures bad { NeverBad result }
{
    Ok(row.get(0)?)
}

/// The only rowid, if there is one.
pub fn only_id(rows: &[Row]) -> Result<Option<i64>, KeepFault>
    ensures ok { IfOk result (λ id. IsOnlyId id rows.now) }
    ensures bad { NeverBad result }
{
    match rows {
        [] => Ok(None),
        [row] => Ok(Some(id_in(row)?)),
        _ => Err(stands_twice(Constraint::Unique)),
    }
}

/// Exactly one row was removed.
pub fn alone(count: usize) -> Result<(), KeepFault>
    ensures ok { OnOk result (count ≡ 1) }
    ensures bad { NeverBad result }
{
    if count == 1 {
        Ok(())
    } else {
        Err(stands_twice(Constraint::PrimaryKey))
    }
}

/// The statement that removes the rows with a rowid.
fn taking(table: ChangedTable) -> &'static str
    ensures { result.now ≡ take_text table }
{
    match table {
        ChangedTable::Sources => "DELETE FROM testing_source WHERE rowid = ?1",
        ChangedTable::Rows => "DELETE FROM testing_row WHERE rowid = ?1",
        ChangedTable::Facts => "DELETE FROM fact WHERE rowid = ?1",
        ChangedTable::Delays => "DELETE FROM fact_delays WHERE id = ?1",
    }
}

/// Removes the rows with a rowid from a table, and counts them.
fn take<S: Alter>(tx: &mut Transaction<'_, S>, table: ChangedTable, id: i64) -> Result<usize, Error>
    requires { BeginsInside S.Store tx.old.conn }
    ensures { Performs S.Store tx.old.conn tx.new.conn result (λ db next count. Takes table db next id count) }
{
    tx.execute(taking(table), params![id])
}

/// Removes the one row with a rowid from a table.
pub fn take_one<S: Alter>(
    tx: &mut Transaction<'_, S>,
    table: ChangedTable,
    id: i64,
) -> Result<(), KeepFault>
    requires { BeginsInside S.Store tx.old.conn }
    ensures { PerformsNeverBad S.Store tx.old.conn tx.new.conn result (λ db next _. Takes table db next id 1) }
{
    let count = take(tx, table, id)?;
    alone(count)?;
    Ok(())
}
