//! The tables of the office and of its finished runs.
ghost use Rattle.std.specs.Prelude.{◌≡◌, ◌≢◌, ◌<◌, ◌≤◌, ◌↔◌, ℕ, ◌∷◌, [], Some, pos, map, filter, length, IsTrue, IfOk, IfSome};
ghost use Rattle.std.specs.List.Sorted.{IsPermutation};
ghost use Rattle.std.specs.FinMap.{get};
ghost use Rattle.std.specs.Str.{IsUtf8};
ghost use Rattle.office_store_testing_tables.specs.Legible.{SaysOnce, AreReported};
ghost use Rattle.office_store_keeper.specs.Content.{item_from_one};
ghost use Rattle.office_store_testing_tables.specs.TableContent.{reports_to, count_said};
ghost use Rattle.office_store_testing_tables.specs.declared.said.Said.{Said as SaidNow};
ghost use Rattle.office_store_keeper.specs.declared.values.Reports.{Reports as ReportsNow};
ghost use Rattle.sqlite.specs.Order.{column};
ghost use Rattle.sqlite.specs.declared.types.Value.TheVariants.{Int, Text as Words};
ghost use Rattle.office_store_testing_tables.specs.Tables.{said_in as said_rows, run_map};
ghost use Rattle.office_store_testing_tables.specs.steps.Faults.{IsBad, NeverBad};
ghost use Rattle.office_store_testing_tables.specs.steps.TableSteps.{IsOnlyOffice, IsOnlyRun, AddsRun, Silences, SaysMore, RecordsRun, office_columns, is_run, run_columns, rowid_column};
ghost use Rattle.office_store_tables.specs.steps.Reading.{IsRecorded};
ghost use Rattle.office_store_testing_tables.specs.steps.Reads.{LeavesStore, BeginsOurs, Finds, Reads, HoldsOfTables};
ghost use Rattle.office_store_testing_tables.specs.steps.StepsWithin.{BeginsInside, Performs};

use deb_control::Text;
use office_store_keeper::{Cause, KeepFault, Reports};
use office_store_testing_tables::faults::unread;
use office_store_testing_tables::said::Said;
use office_store_testing_tables::shown::number_in;
use sqlite::{Alter, Connection, Error, Row, Transaction, params};

/// The content of the office's row with the id 1.
fn said_in(row: &Row) -> Result<Said, KeepFault>
    ensures bad { IsBad result → (said : SaidNow) → said.schema < 4_294_967_296 → said.finished < 4_294_967_296 → IsUtf8 said.setup → row.now ≢ Int (pos 1) ∷ Int (pos said.schema) ∷ Words said.setup ∷ Int (pos said.finished) ∷ [] }
    ensures ok { IfOk result (λ said. (column row.now 0 ≡ Int (pos 1)) × (column row.now 1 ≡ Int (pos said.schema)) × (column row.now 2 ≡ Words said.setup) × (column row.now 3 ≡ Int (pos said.finished))) }
    ensures fits { IfOk result (λ said. (said.schema < 4_294_967_296) × (said.finished < 4_294_967_296) × IsUtf8 said.setup) }
{
    let id = number_in(row, 0)?;
    if id != 1 {
        return Err(KeepFault::Store(Cause::BadRow));
    }
    let schema = number_in(row, 1)?;
    let finished = number_in(row, 3)?;
    let setup: String = row.get(2).map_err(unread)?;
    Ok(Said {
        schema,
        setup: Text::from_string(setup),
        finished,
    })
}

/// The content of the only row.
fn only_said(rows: &[Row]) -> Result<Said, KeepFault>
    ensures ok { IfOk result (λ said. IsOnlyOffice said rows.now) }
    ensures fits { IfOk result (λ said. (said.schema < 4_294_967_296) × (said.finished < 4_294_967_296) × IsUtf8 said.setup) }
    ensures bad { IsBad result → (said : SaidNow) → said.schema < 4_294_967_296 → said.finished < 4_294_967_296 → IsUtf8 said.setup → rows.now ≢ (Int (pos 1) ∷ Int (pos said.schema) ∷ Words said.setup ∷ Int (pos said.finished) ∷ []) ∷ [] }
{
    match rows {
        [row] => said_in(row),
        _ => Err(KeepFault::Store(Cause::BadRow)),
    }
}

/// The rows of the office, in any order.
pub fn office_rows<S: Alter>(conn: &mut Connection<S>) -> Result<Vec<Row>, Error>
    requires { BeginsOurs S.Store conn.old }
    ensures { Reads S.Store conn.old conn.new result (λ db rows. IsPermutation (map office_columns (db 0)) rows.items) }
{
    conn.query_all("SELECT id, schema, setup, finished FROM office", &[])
}

/// The content of the office's row.
pub(crate) fn said<S: Alter>(conn: &mut Connection<S>) -> Result<Said, KeepFault>
    requires ours { BeginsOurs S.Store conn.old }
    ensures reads { LeavesStore S.Store conn.old conn.new result }
    ensures value { Finds S.Store conn.new result (λ db said. said_rows (db 0) ≡ Some said) }
    ensures once { Finds S.Store conn.new result (λ db said. (once : SaysOnce (db 0)) × (once.said ≡ said)) }
    ensures bad { HoldsOfTables S.Store conn.new (λ db. SaysOnce (db 0) → NeverBad result) }
{
    let rows = office_rows(conn)?;
    only_said(rows.as_slice())
}

/// The number of finished runs.
pub fn finished<S: Alter>(conn: &mut Connection<S>) -> Result<u32, KeepFault>
    requires ours { BeginsOurs S.Store conn.old }
    ensures reads { LeavesStore S.Store conn.old conn.new result }
    ensures value { Finds S.Store conn.new result (λ db n. n ≡ count_said (said_rows (db 0))) }
    ensures bad { HoldsOfTables S.Store conn.new (λ db. SaysOnce (db 0) → NeverBad result) }
{
    let said = said(conn)?;
    Ok(said.finished)
}

/// The reports in the row of a run.
fn reports_in(row: &Row, run: u32) -> Result<Reports, KeepFault>
    ensures bad { IsBad result → (reports : ReportsNow) → IsUtf8 reports.excuses → IsUtf8 reports.updates → row.now ≢ Int (pos run) ∷ Words reports.excuses ∷ Words reports.updates ∷ [] }
    ensures texts { IfOk result (λ r. IsUtf8 r.excuses × IsUtf8 r.updates) }
    ensures ok { IfOk result (λ r. (column row.now 0 ≡ Int (pos run)) × (column row.now 1 ≡ Words r.excuses) × (column row.now 2 ≡ Words r.updates)) }
{
    let number = number_in(row, 0)?;
    if number != run {
        return Err(KeepFault::Store(Cause::BadRow));
    }
    let excuses: String = row.get(1).map_err(unread)?;
    let updates: String = row.get(2).map_err(unread)?;
    Ok(Reports {
        excuses: Text::from_string(excuses),
        updates: Text::from_string(updates),
    })
}

/// The reports of the only row, if there is one.
fn only_reports(rows: &[Row], run: u32) -> Result<Option<Reports>, KeepFault>
    ensures ok { IfOk result (λ reports. IsOnlyRun run reports rows.now) }
    ensures texts { IfOk result (λ reports. IfSome reports (λ r. IsUtf8 r.excuses × IsUtf8 r.updates)) }
    ensures none { IsBad result → rows.now ≢ [] }
    ensures one { IsBad result → (reports : ReportsNow) → IsUtf8 reports.excuses → IsUtf8 reports.updates → rows.now ≢ (Int (pos run) ∷ Words reports.excuses ∷ Words reports.updates ∷ []) ∷ [] }
{
    match rows {
        [] => Ok(None),
        [row] => Ok(Some(reports_in(row, run)?)),
        _ => Err(KeepFault::Store(Cause::BadRow)),
    }
}

/// The rows of this run, in any order.
fn run_rows<S: Alter>(conn: &mut Connection<S>, run: u32) -> Result<Vec<Row>, Error>
    requires { BeginsOurs S.Store conn.old }
    ensures { Reads S.Store conn.old conn.new result (λ db rows. IsPermutation (map run_columns (filter (is_run run) (db 3))) rows.items) }
{
    conn.query_all(
        "SELECT number, excuses, updates FROM run WHERE number = ?1",
        params![run],
    )
}

/// The reports under a run's number, or none.
fn recorded<S: Alter>(conn: &mut Connection<S>, run: u32) -> Result<Option<Reports>, KeepFault>
    requires ours { BeginsOurs S.Store conn.old }
    ensures reads { LeavesStore S.Store conn.old conn.new result }
    ensures value { Finds S.Store conn.new result (λ db reports. reports ≡ get (run_map (db 3)) run) }
    ensures texts { IfOk result (λ reports. IfSome reports (λ r. IsUtf8 r.excuses × IsUtf8 r.updates)) }
    ensures bad { HoldsOfTables S.Store conn.new (λ db. (finished : ℕ) → AreReported (db 3) finished → NeverBad result) }
{
    let rows = run_rows(conn, run)?;
    only_reports(rows.as_slice(), run)
}

/// The two reports of a finished run, or none for another run.
pub fn reports<S: Alter>(conn: &mut Connection<S>, run: u32) -> Result<Option<Reports>, KeepFault>
    requires ours { BeginsOurs S.Store conn.old }
    ensures reads { LeavesStore S.Store conn.old conn.new result }
    ensures bad { HoldsOfTables S.Store conn.new (λ db. (once : SaysOnce (db 0)) → AreReported (db 3) once.said.finished → NeverBad result) }
    ensures value { Finds S.Store conn.new result (λ db reports. reports ≡ item_from_one run (reports_to (run_map (db 3)) (count_said (said_rows (db 0))))) }
{
    if run == 0 {
        return Ok(None);
    }
    let finished = finished(conn)?;
    if finished < run {
        return Ok(None);
    }
    match recorded(conn, run)? {
        Some(reports) => Ok(Some(reports)),
        None => Err(KeepFault::Store(Cause::BadRow)),
    }
}

/// Whether a run has its reports.
fn is_recorded<S: Alter>(conn: &mut Connection<S>, run: u32) -> Result<bool, KeepFault>
    requires ours { BeginsOurs S.Store conn.old }
    ensures reads { LeavesStore S.Store conn.old conn.new result }
    ensures own { Finds S.Store conn.new result (λ db own. IsTrue own ↔ IsRecorded (db 3) run) }
    ensures bad { HoldsOfTables S.Store conn.new (λ db. (finished : ℕ) → AreReported (db 3) finished → NeverBad result) }
{
    let reports = recorded(conn, run)?;
    Ok(reports.is_some())
}

/// Whether each run up to a number has its reports.
fn are_recorded<S: Alter>(conn: &mut Connection<S>, runs: u32) -> Result<bool, KeepFault>
    requires ours { BeginsOurs S.Store conn.old }
    ensures reads { LeavesStore S.Store conn.old conn.new result }
    ensures own { Finds S.Store conn.new result (λ db own. IsTrue own ↔ ((run : ℕ) → 1 ≤ run → run ≤ runs → IsRecorded (db 3) run)) }
    ensures bad { HoldsOfTables S.Store conn.new (λ db. (finished : ℕ) → AreReported (db 3) finished → NeverBad result) }
{
    let mut done = 0;
    'runs: while done < runs {
        let own = is_recorded(conn, done + 1)?;
        if !own {
            return Ok(false);
        }
        done += 1;
    }
    Ok(true)
}

/// The numbers of the runs with a row, in any order.
fn numbers<S: Alter>(conn: &mut Connection<S>) -> Result<Vec<Row>, Error>
    requires { BeginsOurs S.Store conn.old }
    ensures { Reads S.Store conn.old conn.new result (λ db rows. IsPermutation (map rowid_column (db 3)) rows.items) }
{
    conn.query_all("SELECT number FROM run", &[])
}

/// Whether the table has this many rows.
fn has_rows<S: Alter>(conn: &mut Connection<S>, runs: u32) -> Result<bool, KeepFault>
    requires ours { BeginsOurs S.Store conn.old }
    ensures reads { LeavesStore S.Store conn.old conn.new result }
    ensures own { Finds S.Store conn.new result (λ db own. IsTrue own ↔ (length (db 3) ≡ runs)) }
    ensures bad { NeverBad result }
{
    let rows = numbers(conn)?;
    Ok(rows.len() == runs as usize)
}

/// Whether the table has the reports of exactly the runs up to a number.
pub(crate) fn are_reported<S: Alter>(conn: &mut Connection<S>, runs: u32) -> Result<bool, KeepFault>
    requires ours { BeginsOurs S.Store conn.old }
    ensures reads { LeavesStore S.Store conn.old conn.new result }
    ensures own { Finds S.Store conn.new result (λ db own. IsTrue own ↔ AreReported (db 3) runs) }
    ensures bad { HoldsOfTables S.Store conn.new (λ db. (finished : ℕ) → AreReported (db 3) finished → NeverBad result) }
{
    let own = has_rows(conn, runs)?;
    if !own {
        return Ok(false);
    }
    are_recorded(conn, runs)
}

/// Adds the reports of a run.
fn add_run<S: Alter>(
    tx: &mut Transaction<'_, S>,
    number: u32,
    excuses: &str,
    updates: &str,
) -> Result<usize, Error>
    requires { BeginsInside S.Store tx.old.conn }
    ensures { Performs S.Store tx.old.conn tx.new.conn result (λ db next _. AddsRun db next number (record { excuses = excuses.now; updates = updates.now })) }
{
    tx.execute(
        "INSERT INTO run (number, excuses, updates) VALUES (?1, ?2, ?3)",
        params![number, excuses, updates],
    )
}

/// Removes the office's row.
pub fn clear_office<S: Alter>(tx: &mut Transaction<'_, S>) -> Result<usize, Error>
    requires { BeginsInside S.Store tx.old.conn }
    ensures { Performs S.Store tx.old.conn tx.new.conn result (λ db next _. Silences db next) }
{
    tx.execute("DELETE FROM office", &[])
}

/// Adds the office's row.
pub fn add_office<S: Alter>(
    tx: &mut Transaction<'_, S>,
    schema: u32,
    setup: &str,
    finished: u32,
) -> Result<usize, Error>
    requires { BeginsInside S.Store tx.old.conn }
    ensures { Performs S.Store tx.old.conn tx.new.conn result (λ db next _. SaysMore db next (record { schema = schema; setup = setup.now; finished = finished })) }
{
    tx.execute(
        "INSERT INTO office (id, schema, setup, finished) VALUES (1, ?1, ?2, ?3)",
        params![schema, setup, finished],
    )
}

/// Adds a run to the tables of runs and of the office.
pub(crate) fn record_run<S: Alter>(
    tx: &mut Transaction<'_, S>,
    number: u32,
    excuses: &str,
    updates: &str,
    schema: u32,
    setup: &str,
) -> Result<usize, Error>
    requires { BeginsInside S.Store tx.old.conn }
    ensures { Performs S.Store tx.old.conn tx.new.conn result (λ db next _. RecordsRun db next number (record { excuses = excuses.now; updates = updates.now }) (record { schema = schema; setup = setup.now; finished = number })) }
{
    let _reports = add_run(tx, number, excuses, updates)?;
    let _old = clear_office(tx)?;
    let added = add_office(tx, schema, setup, number)?;
    Ok(added)
}
