//! The testing that a keeper over tables keeps in memory for the next run, besides the tables' content.
ghost use Rattle.std.specs.Prelude.{◌≡◌, ◌⊎◌, Some, None, IfOk, IfSome, OnOk, OnErr};
ghost use Rattle.std.specs.List.{list_all};
ghost use Rattle.std.specs.Str.{IsUtf8};
ghost use Rattle.sqlite.specs.Held.{state};
ghost use Rattle.sqlite.specs.State.{HasCleanDisk};
ghost use Rattle.office_store_tables.specs.Faults.{NeverBad};
ghost use Rattle.testing_rules_model.specs.steps.InOrder.{IsInOrder};
ghost use Rattle.office_store_keeper.specs.Provenance.{KnowsArchs};
ghost use Rattle.office_store_tables.specs.Entries.{source_map, entry_map};
ghost use Rattle.office_store_tables.specs.steps.Finishing.{FinishesRun};
ghost use Rattle.office_store_tables.specs.Legible.{IsWhole, AreNamed, SaysOnce};
ghost use Rattle.office_store_tables.specs.TableContent.{is_arch_place, release_place, suite_in};
ghost use Rattle.office_store_tables.specs.Reads.{LeavesStore, BeginsOurs, Finds, HoldsOfTables};
ghost use Rattle.office_store_tables.specs.Tables.{IsTrusted, IsOurs, kept_rows};
ghost use Rattle.office_store_tables.specs.steps.Tables.{Lasts};

use deb_control::NoMemory;
use office_mail::Setup;
use office_store_keeper::{Finished, KeepFault};
use office_store_tables::{entries, finished_runs};
use sqlite::{Alter, Connection};
use std::alloc::Global;
use testing_rules_items::{ALL, Archs};
use testing_rules_model::RowIn;
use testing_rules_suites::Testing;

/// Whether a row has a listed architecture or `all`.
fn is_listed(archs: &Archs, row: &RowIn) -> bool
    ensures { result ≡ is_arch_place archs.now row.now.arch }
{
    row.arch < archs.len() || row.arch == ALL
}

/// Whether each row has a listed architecture or `all`.
fn are_listed(archs: &Archs, rows: &[RowIn]) -> bool
    ensures { result ≡ list_all (λ row. is_arch_place archs.now row.arch) rows.now }
{
    for row in rows {
        if !is_listed(archs, row) {
            return false;
        }
    }
    true
}

/// Equal testing with its suites, or none if a row has an architecture other than the listed ones and `all`.
fn share_listed(archs: &Archs, testing: &mut Testing) -> Result<Option<Testing>, NoMemory>
    ensures same { testing.new ≡ testing.old }
    ensures shared { IfOk result (λ given. IfSome given (λ t. t ≡ testing.old)) }
    ensures known { IfOk result (λ given. IfSome given (λ t. KnowsArchs archs.now t.rows)) }
{
    if !are_listed(archs, testing.rows()) {
        return Ok(None);
    }
    Ok(Some(testing.share()?))
}

/// Equal testing with its suites, from the testing in memory, if there is one.
fn share(setup: &Setup, in_memory: &mut Option<Testing>) -> Result<Option<Testing>, NoMemory>
    ensures same { in_memory.new ≡ in_memory.old }
    ensures shared { IfOk result (λ given. IfSome given (λ t. in_memory.old ≡ Some t)) }
    ensures known { IfOk result (λ given. IfSome given (λ t. KnowsArchs setup.now.archs t.rows)) }
{
    match in_memory {
        Some(testing) => share_listed(setup.archs(), testing),
        None => Ok(None),
    }
}

/// Testing for the next run: the one in memory with its suites, or else the one in the tables.
pub(crate) fn next_testing<S: Alter>(
    alloc: Global,
    conn: &mut Connection<S>,
    setup: &Setup,
    in_memory: &mut Option<Testing>,
) -> Result<Testing, KeepFault>
    requires ours { BeginsOurs S.Store conn.old }
    ensures reads { LeavesStore S.Store conn.old conn.new result }
    ensures stays { in_memory.new ≡ in_memory.old }
    ensures bad { HoldsOfTables S.Store conn.new (λ db. IsWhole (kept_rows (db 1)) (db 1) → AreNamed setup.now db → NeverBad result) }
    ensures known { IfOk result (λ testing. KnowsArchs setup.now.archs testing.rows) }
    ensures value { Finds S.Store conn.new result (λ db testing. (in_memory.old ≡ Some testing) ⊎ (testing ≡ suite_in setup.now (kept_rows (db 1)) (source_map (db 4)) (entry_map (db 6)))) }
{
    match share(setup, in_memory)? {
        Some(testing) => Ok(testing),
        None => entries::testing(alloc, conn, setup),
    }
}

/// The testing after a run, without the rest. It allocates nothing.
fn testing_left(done: Finished) -> Testing
    ensures { result ≡ done.testing }
{
    let Finished {
        testing,
        excuses: _,
        updates: _,
        facts: _,
    } = done;
    testing
}

/// Finishes a run in all of the tables or none, and then keeps the testing after it in memory. If the tables refuse it,
/// none is kept in memory.
pub(crate) fn finish<S: Alter>(
    conn: &mut Connection<S>,
    setup: &Setup,
    in_memory: &mut Option<Testing>,
    run: u32,
    done: Finished,
) -> Result<(), KeepFault>
    requires ours { BeginsOurs S.Store conn.old }
    ensures before { IsTrusted (state S.Store conn.new) → IsTrusted (state S.Store conn.old) }
    ensures lasts { Lasts (state S.Store conn.old) (state S.Store conn.new) }
    ensures open { HasCleanDisk (state S.Store conn.new) → IsTrusted (state S.Store conn.old) → OnOk result (IsTrusted (state S.Store conn.new)) }
    ensures ours { IsTrusted (state S.Store conn.new) → IsOurs (state S.Store conn.new) }
    ensures bad { IsTrusted (state S.Store conn.new) → SaysOnce ((state S.Store conn.old).now.trees 0) → NeverBad result }
    ensures ordered { OnOk result (IsInOrder done.testing.sources done.testing.rows) }
    ensures texts { OnOk result (IsUtf8 done.excuses × IsUtf8 done.updates) }
    ensures done { IsTrusted (state S.Store conn.new) → OnOk result (FinishesRun (release_place setup.now) (state S.Store conn.old).now.trees (state S.Store conn.new).now.trees run done) }
    ensures err { IsTrusted (state S.Store conn.new) → OnErr result ((state S.Store conn.new).now ≡ (state S.Store conn.old).now) }
    ensures left { OnOk result (in_memory.new ≡ Some done.testing) }
    ensures none { OnErr result (in_memory.new ≡ None) }
{
    *in_memory = None;
    match finished_runs::finish(conn, setup, run, &done) {
        Ok(()) => {
            *in_memory = Some(testing_left(done));
            Ok(())
        }
        Err(fault) => {
            drop(done);
            Err(fault)
        }
    }
}
