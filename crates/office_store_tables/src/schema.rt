//! The office's tables in a new database.
ghost use Rattle.std.specs.Prelude.{◌≡◌, OnOk, OnErr};
ghost use Rattle.sqlite.specs.Held.{state};
ghost use Rattle.sqlite.specs.State.{HasCleanDisk};
ghost use Rattle.office_store_tables.specs.Layout.{no_schema, office, mail, run, testing_source, testing_row, fact, fact_delays};
ghost use Rattle.office_store_tables.specs.Tables.{IsTrusted, IsOurs};
ghost use Rattle.office_store_tables.specs.steps.Tables.{Lasts};
ghost use Rattle.office_store_tables.specs.StepsWithin.{Performs};
ghost use Rattle.office_store_tables.specs.Faults.{NeverBad};
ghost use Rattle.office_store_tables.specs.Unchanged.{IsAsItWas};
ghost use Rattle.office_store_tables.specs.Creating.{IsBlank};
ghost use Rattle.office_store_tables.specs.steps.CreatingSteps.{Creates, IsBuilding, Makes, MakesAll, schema_of_one, schema_of_two, schema_of_three, schema_of_four, schema_of_five, schema_of_six};

use crate::runs::add_office;
use office_store_keeper::{Cause, KeepFault};
use sqlite::{Alter, Connection, Error, Transaction};

/// Makes the table of the office.
fn create_office<S: Alter>(tx: &mut Transaction<'_, S>) -> Result<usize, Error>
    requires building { IsTrusted (state S.Store tx.old.conn.now) → IsBuilding no_schema (state S.Store tx.old.conn.now) }
    ensures { Creates S.Store tx.old.conn tx.new.conn result (Makes no_schema office) }
{
    tx.execute(
        "CREATE TABLE office (id INTEGER PRIMARY KEY, schema INTEGER NOT NULL, setup TEXT NOT NULL, finished INTEGER NOT NULL) STRICT",
        &[],
    )
}

/// Makes the table of mail.
fn create_mail<S: Alter>(tx: &mut Transaction<'_, S>) -> Result<usize, Error>
    requires building { IsTrusted (state S.Store tx.old.conn.now) → IsBuilding schema_of_one (state S.Store tx.old.conn.now) }
    ensures { Creates S.Store tx.old.conn tx.new.conn result (Makes schema_of_one mail) }
{
    tx.execute(
        "CREATE TABLE mail (sender INTEGER NOT NULL, number INTEGER NOT NULL, body BLOB NOT NULL, PRIMARY KEY (sender, number)) STRICT",
        &[],
    )
}

/// Makes the table of finished runs.
fn create_run<S: Alter>(tx: &mut Transaction<'_, S>) -> Result<usize, Error>
    requires building { IsTrusted (state S.Store tx.old.conn.now) → IsBuilding schema_of_two (state S.Store tx.old.conn.now) }
    ensures { Creates S.Store tx.old.conn tx.new.conn result (Makes schema_of_two run) }
{
    tx.execute(
        "CREATE TABLE run (number INTEGER PRIMARY KEY, excuses TEXT NOT NULL, updates TEXT NOT NULL) STRICT",
        &[],
    )
}

/// Makes the table of testing's sources.
fn create_testing_source<S: Alter>(tx: &mut Transaction<'_, S>) -> Result<usize, Error>
    requires building { IsTrusted (state S.Store tx.old.conn.now) → IsBuilding schema_of_three (state S.Store tx.old.conn.now) }
    ensures { Creates S.Store tx.old.conn tx.new.conn result (Makes schema_of_three testing_source) }
{
    tx.execute(
        "CREATE TABLE testing_source (name TEXT NOT NULL PRIMARY KEY, sender INTEGER NOT NULL, number INTEGER NOT NULL, FOREIGN KEY (sender, number) REFERENCES mail (sender, number)) STRICT",
        &[],
    )
}

/// Makes the table of testing's rows.
fn create_testing_row<S: Alter>(tx: &mut Transaction<'_, S>) -> Result<usize, Error>
    requires building { IsTrusted (state S.Store tx.old.conn.now) → IsBuilding schema_of_four (state S.Store tx.old.conn.now) }
    ensures { Creates S.Store tx.old.conn tx.new.conn result (Makes schema_of_four testing_row) }
{
    tx.execute(
        "CREATE TABLE testing_row (arch INTEGER NOT NULL, name TEXT NOT NULL, sender INTEGER NOT NULL, number INTEGER NOT NULL, place INTEGER NOT NULL, PRIMARY KEY (arch, name), FOREIGN KEY (sender, number) REFERENCES mail (sender, number)) STRICT",
        &[],
    )
}

/// Makes the table of facts.
fn create_fact<S: Alter>(tx: &mut Transaction<'_, S>) -> Result<usize, Error>
    requires building { IsTrusted (state S.Store tx.old.conn.now) → IsBuilding schema_of_five (state S.Store tx.old.conn.now) }
    ensures { Creates S.Store tx.old.conn tx.new.conn result (Makes schema_of_five fact) }
{
    tx.execute(
        "CREATE TABLE fact (kind INTEGER NOT NULL, sender INTEGER NOT NULL, number INTEGER NOT NULL, place INTEGER NOT NULL, PRIMARY KEY (kind, sender, number, place), FOREIGN KEY (sender, number) REFERENCES mail (sender, number)) STRICT",
        &[],
    )
}

/// Makes the table of the number of the last delays.
pub fn create_fact_delays<S: Alter>(tx: &mut Transaction<'_, S>) -> Result<usize, Error>
    requires building { IsTrusted (state S.Store tx.old.conn.now) → IsBuilding schema_of_six (state S.Store tx.old.conn.now) }
    ensures { Creates S.Store tx.old.conn tx.new.conn result (Makes schema_of_six fact_delays) }
{
    tx.execute(
        "CREATE TABLE fact_delays (id INTEGER PRIMARY KEY, number INTEGER NOT NULL) STRICT",
        &[],
    )
}

/// Makes the seven tables.
fn create_all<S: Alter>(tx: &mut Transaction<'_, S>) -> Result<usize, Error>
    requires building { IsTrusted (state S.Store tx.old.conn.now) → IsBuilding no_schema (state S.Store tx.old.conn.now) }
    ensures { Creates S.Store tx.old.conn tx.new.conn result MakesAll }
{
    let _office = create_office(tx)?;
    let _mail = create_mail(tx)?;
    let _runs = create_run(tx)?;
    let _sources = create_testing_source(tx)?;
    let _rows = create_testing_row(tx)?;
    let _facts = create_fact(tx)?;
    let made = create_fact_delays(tx)?;
    Ok(made)
}

/// Makes the seven tables, and adds the office's row: schema number 2, the setup's text, and no finished runs.
fn write_office<S: Alter>(tx: &mut Transaction<'_, S>, setup: &str) -> Result<usize, Error>
    requires building { IsTrusted (state S.Store tx.old.conn.now) → IsBuilding no_schema (state S.Store tx.old.conn.now) }
    ensures { Performs S.Store tx.old.conn tx.new.conn result (λ _ next _. IsBlank next (record { schema = 2; setup = setup.now; finished = 0 })) }
{
    let _made = create_all(tx)?;
    let added = add_office(tx, 2, setup, 0)?;
    Ok(added)
}

/// Makes the office's tables in a database that has none of them, all or none. A connection in a transaction is
/// refused.
pub fn create<S: Alter>(conn: &mut Connection<S>, setup: &str) -> Result<(), KeepFault>
    requires fresh { IsTrusted (state S.Store conn.old) → (state S.Store conn.old).now.schema ≡ no_schema }
    ensures before { IsTrusted (state S.Store conn.new) → IsTrusted (state S.Store conn.old) }
    ensures lasts { Lasts (state S.Store conn.old) (state S.Store conn.new) }
    ensures open { HasCleanDisk (state S.Store conn.new) → IsTrusted (state S.Store conn.old) → OnOk result (IsTrusted (state S.Store conn.new)) }
    ensures ours { IsTrusted (state S.Store conn.new) → OnOk result (IsOurs (state S.Store conn.new)) }
    ensures blank { IsTrusted (state S.Store conn.new) → OnOk result (IsBlank (state S.Store conn.new).now.trees (record { schema = 2; setup = setup.now; finished = 0 })) }
    ensures err { IsTrusted (state S.Store conn.new) → OnErr result (IsAsItWas (state S.Store conn.old) (state S.Store conn.new)) }
    ensures bad { NeverBad result }
{
    if !conn.is_autocommit() {
        return Err(KeepFault::Store(Cause::Sqlite(Error::InvalidQuery)));
    }
    let mut tx = conn.transaction();
    let _written = write_office(&mut tx, setup)?;
    tx.commit()?;
    Ok(())
}
