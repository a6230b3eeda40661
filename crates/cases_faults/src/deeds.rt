//! What is tried in a new office, over a store in memory or over tables.

ghost use Rattle.std.specs.Prelude.{◌≡◌};

use crate::failed_reads::judge_replay as judge_read;
use crate::failed_writes::{Kind, judge_replay as judge_written};
use crate::faults::Met;
use crate::given::Letter;
use crate::memory::try_replay;
use crate::offices::{new_office, opened, setup_of};
use office_http::Office;
use office_mail::Setup;
use office_store::Keeper;
use sqlite::{Alter, Connection};
use std::alloc::Global;

/// What a new office is over.
#[derive(Clone, Copy)]
pub enum Over {
    /// A store in memory, which keeps texts one by one.
    Memory,
    /// Tables in memory, which keep the texts of a bag together.
    Tables,
}

/// What is tried in a new office.
#[derive(Clone, Copy)]
pub enum Deed<'a> {
    /// A replay of these letters, which may be refused memory.
    Letters(&'a [Letter]),
    /// A replay of a bag whose nth read fails.
    Read(&'a [u8], u32),
    /// A replay of a bag whose nth write fails.
    Write(&'a [u8], Kind, u32),
}

/// Tries this in a new office, and returns whether a failure was met.
fn try_in<K: Keeper>(alloc: Global, office: &mut Office<K>, deed: Deed<'_>) -> Result<bool, Met> {
    match deed {
        Deed::Letters(letters) => {
            try_replay(alloc, office, letters)?;
            Ok(false)
        }
        Deed::Read(bag, fails_at) => judge_read(alloc, office, bag, fails_at),
        Deed::Write(bag, kind, fails_at) => judge_written(alloc, office, bag, kind, fails_at),
    }
}

/// Tries this in an office over a store, which is returned.
fn try_over<K: Keeper>(
    alloc: Global,
    setup: Setup,
    keeper: K,
    deed: Deed<'_>,
) -> (K, Result<bool, Met>)
    requires { K.setup keeper ≡ setup }
{
    let mut office = Office::new(alloc, setup, keeper);
    let tried = try_in(alloc, &mut office, deed);
    (office.into_keeper(), tried)
}

/// Tries this in an office over tables that are opened in this connection.
fn try_connected<S: Alter + Drop>(
    alloc: Global,
    setup: Setup,
    conn: Connection<S>,
    deed: Deed<'_>,
) -> Result<bool, Met> {
    match opened(alloc, conn, &setup) {
        Ok(tables) => {
            let (tables, tried) = try_over(alloc, setup, tables, deed);
            drop(tables.into_connection());
            tried
        }
        Err((met, conn)) => {
            drop(conn);
            drop(setup);
            Err(met)
        }
    }
}

/// Tries this in an office over tables in memory.
fn try_in_tables(alloc: Global, deed: Deed<'_>) -> Result<bool, Met> {
    let setup = setup_of(alloc)?;
    match Connection::open_in_memory(alloc) {
        Ok(conn) => try_connected(alloc, setup, conn, deed),
        Err(_) => {
            drop(setup);
            Err(Met::NoMemory)
        }
    }
}

/// Tries this in an office over a store in memory.
fn try_in_memory(alloc: Global, deed: Deed<'_>) -> Result<bool, Met> {
    let mut office = new_office(alloc)?;
    let tried = try_in(alloc, &mut office, deed);
    drop(office);
    tried
}

/// Tries this in a new office, and returns whether a failure was met.
pub fn try_deed(alloc: Global, over: Over, deed: Deed<'_>) -> Result<bool, Met> {
    match over {
        Over::Memory => try_in_memory(alloc, deed),
        Over::Tables => try_in_tables(alloc, deed),
    }
}
