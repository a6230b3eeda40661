//! Whether the tables are what an office writes.
ghost use Rattle.std.specs.Prelude.{◌≡◌, ◌≤◌, ◌↔◌, Ok, IsTrue, IfOk};
ghost use Rattle.std.specs.FinMap.{len};
ghost use Rattle.office_mail.specs.Setup.{setup_in};
ghost use Rattle.office_store_testing_tables.specs.Legible.{SaysOnce, AreNamed, AreRead, IsLegible, IsWhole};
ghost use Rattle.office_store_testing_tables.specs.steps.Faults.{NeverBad};
ghost use Rattle.office_store_testing_tables.specs.steps.Reads.{LeavesStore, BeginsOurs, Finds, HoldsOfTables};
ghost use Rattle.office_store_testing_tables.specs.TableContent.{release_place};
ghost use Rattle.office_store_testing_tables.specs.Tables.{kept_rows};
ghost use Rattle.office_store_tables.specs.steps.Reading.{IsSaidFor, IsOwnCount, ReadRest};

use crate::mail::count;
use crate::runs::{are_reported, said};
use crate::setup_text::same_setup;
use office_mail::{Setup, SetupFault};
use office_store_keeper::KeepFault;
use office_store_testing_tables::entries::testing;
use office_store_testing_tables::fact_rows::facts;
use office_store_testing_tables::said::Said;
use sqlite::{Alter, Connection};
use std::alloc::Global;

/// Whether a text is this setup.
fn is_setup(alloc: Global, text: &str, setup: &Setup) -> Result<bool, KeepFault>
    ensures own { IfOk result (λ own. IsTrue own ↔ (setup_in text.now ≡ Ok setup.now)) }
    ensures bad { NeverBad result }
{
    match Setup::parse(alloc, text.as_bytes()) {
        Ok(kept) => Ok(same_setup(alloc, &kept, setup)?),
        Err(SetupFault::NoMemory) => Err(KeepFault::NoMemory),
        Err(_) => Ok(false),
    }
}

/// The number of finished runs that an office of schema number 2 and of this setup states, or none for another.
fn count_said(alloc: Global, said: &Said, setup: &Setup) -> Result<Option<u32>, KeepFault>
    ensures own { IfOk result (λ count. IsSaidFor setup.now said.now count) }
    ensures bad { NeverBad result }
{
    let own = is_setup(alloc, said.setup.as_str(), setup)?;
    if own && said.schema == 2 {
        Ok(Some(said.finished))
    } else {
        Ok(None)
    }
}

/// The number of finished runs in the office's only row, if it has schema number 2 and this setup.
fn own_count<S: Alter>(
    alloc: Global,
    conn: &mut Connection<S>,
    setup: &Setup,
) -> Result<Option<u32>, KeepFault>
    requires ours { BeginsOurs S.Store conn.old }
    ensures reads { LeavesStore S.Store conn.old conn.new result }
    ensures own { Finds S.Store conn.new result (λ db count. IsOwnCount setup.now (db 0) count) }
    ensures bad { HoldsOfTables S.Store conn.new (λ db. SaysOnce (db 0) → NeverBad result) }
{
    let said = said(conn)?;
    count_said(alloc, &said, setup)
}

/// Reads the tables of testing and of facts.
fn read_entries<S: Alter>(
    alloc: Global,
    conn: &mut Connection<S>,
    setup: &Setup,
) -> Result<(), KeepFault>
    requires ours { BeginsOurs S.Store conn.old }
    ensures reads { LeavesStore S.Store conn.old conn.new result }
    ensures legible { Finds S.Store conn.new result (λ db _. AreNamed setup.now db × AreRead (release_place setup.now) (db 8) (db 10)) }
    ensures bad { HoldsOfTables S.Store conn.new (λ db. IsWhole (kept_rows (db 1)) (db 1) → AreNamed setup.now db → AreRead (release_place setup.now) (db 8) (db 10) → NeverBad result) }
{
    let suite = testing(alloc, conn, setup)?;
    drop(suite);
    let rows = facts(alloc, conn, setup)?;
    drop(rows);
    Ok(())
}

/// Whether the tables besides the office's are what an office writes with this many finished runs and kept texts.
fn is_rest_whole<S: Alter>(
    alloc: Global,
    conn: &mut Connection<S>,
    setup: &Setup,
    finished: u32,
    texts: u64,
) -> Result<bool, KeepFault>
    requires ours { BeginsOurs S.Store conn.old }
    ensures reads { LeavesStore S.Store conn.old conn.new result }
    ensures whole { Finds S.Store conn.new result (λ db whole. texts ≤ len (kept_rows (db 1)) → (IsTrue whole ↔ ReadRest setup.now db finished texts)) }
    ensures bad { HoldsOfTables S.Store conn.new (λ db. IsLegible setup.now db → NeverBad result) }
{
    let rows = count(conn)?;
    if rows != texts {
        return Ok(false);
    }
    let own = are_reported(conn, finished)?;
    if !own {
        return Ok(false);
    }
    read_entries(alloc, conn, setup)?;
    Ok(true)
}

/// Whether the tables are what an office with this setup writes, with this many kept texts. If more are named than are
/// kept, the answer means nothing.
pub fn is_whole<S: Alter>(
    alloc: Global,
    conn: &mut Connection<S>,
    setup: &Setup,
    texts: u64,
) -> Result<bool, KeepFault>
    requires ours { BeginsOurs S.Store conn.old }
    ensures reads { LeavesStore S.Store conn.old conn.new result }
    ensures whole { Finds S.Store conn.new result (λ db whole. texts ≤ len (kept_rows (db 1)) → (IsTrue whole ↔ (IsLegible setup.now db × (len (kept_rows (db 1)) ≡ texts)))) }
    ensures bad { HoldsOfTables S.Store conn.new (λ db. IsLegible setup.now db → NeverBad result) }
{
    let own = own_count(alloc, conn, setup)?;
    match own {
        Some(finished) => is_rest_whole(alloc, conn, setup, finished, texts),
        None => Ok(false),
    }
}
