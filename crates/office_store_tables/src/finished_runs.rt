//! Finishes a run in one transaction over the tables.
ghost use Rattle.std.specs.Prelude.{◌≡◌, OnOk, OnErr};
ghost use Rattle.std.specs.Str.{IsUtf8};
ghost use Rattle.sqlite.specs.Held.{state};
ghost use Rattle.sqlite.specs.State.{HasCleanDisk};
ghost use Rattle.office_store_testing_tables.specs.Tables.{IsTrusted, IsOurs};
ghost use Rattle.office_store_testing_tables.specs.steps.Reads.{BeginsOurs};
ghost use Rattle.office_store_testing_tables.specs.steps.Faults.{NeverBad};
ghost use Rattle.office_store_testing_tables.specs.steps.Tables.{Lasts};
ghost use Rattle.office_store_testing_tables.specs.steps.StepsWithin.{BeginsInside, PerformsNeverBad};
ghost use Rattle.office_store_testing_tables.specs.Legible.{SaysOnce};
ghost use Rattle.testing_rules_model.specs.steps.InOrder.{IsInOrder};
ghost use Rattle.office_store_testing_tables.specs.TableContent.{release_place};
ghost use Rattle.office_store_tables.specs.steps.Finishing.{WritesRun, FinishesRun, with_count};

use crate::fact_changes::change_facts;
use crate::runs::{record_run, said};
use office_mail::Setup;
use office_store_keeper::{Cause, Finished, KeepFault};
use office_store_testing_tables::fact_rows::release_place;
use office_store_testing_tables::said::Said;
use office_store_testing_tables::testing::{set_rows, set_sources};
use sqlite::{Alter, Connection, Error, Transaction};

/// The steps that finish a run, table by table.
fn write_run<S: Alter>(
    tx: &mut Transaction<'_, S>,
    release: u32,
    run: u32,
    done: &Finished,
    said: &Said,
) -> Result<usize, KeepFault>
    requires { BeginsInside S.Store tx.old.conn }
    ensures does { PerformsNeverBad S.Store tx.old.conn tx.new.conn result (λ db next _. WritesRun release db next run done.now (with_count run said.now)) }
    ensures ordered { OnOk result (IsInOrder done.now.testing.sources done.now.testing.rows) }
    ensures texts { OnOk result (IsUtf8 done.now.excuses × IsUtf8 done.now.updates) }
{
    set_sources(tx, done.testing.sources())?;
    set_rows(tx, done.testing.rows())?;
    change_facts(tx, release, &done.facts)?;
    let excuses = done.excuses.as_str();
    let updates = done.updates.as_str();
    let setup = said.setup.as_str();
    let added = record_run(tx, run, excuses, updates, said.schema, setup)?;
    Ok(added)
}

/// The steps as one transaction.
fn commit_run<S: Alter>(
    conn: &mut Connection<S>,
    release: u32,
    run: u32,
    done: &Finished,
    said: &Said,
) -> Result<(), KeepFault>
    requires ours { BeginsOurs S.Store conn.old }
    ensures before { IsTrusted (state S.Store conn.new) → IsTrusted (state S.Store conn.old) }
    ensures lasts { Lasts (state S.Store conn.old) (state S.Store conn.new) }
    ensures open { HasCleanDisk (state S.Store conn.new) → IsTrusted (state S.Store conn.old) → OnOk result (IsTrusted (state S.Store conn.new)) }
    ensures ours { IsTrusted (state S.Store conn.new) → IsOurs (state S.Store conn.new) }
    ensures bad { NeverBad result }
    ensures ordered { OnOk result (IsInOrder done.now.testing.sources done.now.testing.rows) }
    ensures texts { OnOk result (IsUtf8 done.now.excuses × IsUtf8 done.now.updates) }
    ensures done { IsTrusted (state S.Store conn.new) → OnOk result (WritesRun release (state S.Store conn.old).now.trees (state S.Store conn.new).now.trees run done.now (with_count run said.now)) }
    ensures err { IsTrusted (state S.Store conn.new) → OnErr result ((state S.Store conn.new).now ≡ (state S.Store conn.old).now) }
{
    if !conn.is_autocommit() {
        return Err(KeepFault::Store(Cause::Sqlite(Error::InvalidQuery)));
    }
    let mut tx = conn.transaction();
    let _written = write_run(&mut tx, release, run, done, said)?;
    tx.commit()?;
    Ok(())
}

/// Finishes a run: in all its tables, or in none.
pub fn finish<S: Alter>(
    conn: &mut Connection<S>,
    setup: &Setup,
    run: u32,
    done: &Finished,
) -> Result<(), KeepFault>
    requires ours { BeginsOurs S.Store conn.old }
    ensures before { IsTrusted (state S.Store conn.new) → IsTrusted (state S.Store conn.old) }
    ensures lasts { Lasts (state S.Store conn.old) (state S.Store conn.new) }
    ensures open { HasCleanDisk (state S.Store conn.new) → IsTrusted (state S.Store conn.old) → OnOk result (IsTrusted (state S.Store conn.new)) }
    ensures ours { IsTrusted (state S.Store conn.new) → IsOurs (state S.Store conn.new) }
    ensures bad { IsTrusted (state S.Store conn.new) → SaysOnce ((state S.Store conn.old).now.trees 0) → NeverBad result }
    ensures ordered { OnOk result (IsInOrder done.now.testing.sources done.now.testing.rows) }
    ensures texts { OnOk result (IsUtf8 done.now.excuses × IsUtf8 done.now.updates) }
    ensures done { IsTrusted (state S.Store conn.new) → OnOk result (FinishesRun (release_place setup.now) (state S.Store conn.old).now.trees (state S.Store conn.new).now.trees run done.now) }
    ensures err { IsTrusted (state S.Store conn.new) → OnErr result ((state S.Store conn.new).now ≡ (state S.Store conn.old).now) }
{
    let said = said(conn)?;
    commit_run(conn, release_place(setup), run, done, &said)
}
