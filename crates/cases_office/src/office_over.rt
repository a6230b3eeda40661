//! Offices for rows, over each store.
ghost use Rattle.std.specs.Prelude.{◌≡◌};

use crate::checks::check_in;
use crate::sessions::{setup_in, take_session, tells_check, tells_facts};
use crate::steps::facts_in;
use office_http::Office;
use office_mail::{Setup, SetupFault};
use office_store::{Keeper, OpenFault, Plain, Tables};
use sqlite::{Alter, Connection, Error};
use std::alloc::{AllocError, Global};

/// Separates the sessions of a row.
pub const REOPEN: &str = "\n> reopen";

/// Begins a statement of SQL that changes tables before they are opened.
const STATEMENT: &str = "\n> sql ";

/// Adds the result of a row in one office in memory, which lasts from its first step to its last.
pub fn put_in_memory(alloc: Global, row: &str, came: &mut String) -> Result<(), AllocError> {
    let first = row.split(REOPEN).next().unwrap_or(row);
    match Setup::parse(alloc, setup_in(first).as_bytes()) {
        Ok(setup) => put_over_plain(alloc, setup, row, came),
        Err(fault) => put_refused(fault, came),
    }
}

/// Adds the result of a row in one office in memory with this setup.
fn put_over_plain(
    alloc: Global,
    setup: Setup,
    row: &str,
    came: &mut String,
) -> Result<(), AllocError> {
    match Plain::new(alloc, &setup) {
        Ok(plain) => {
            let (plain, taken) = take_in_store(alloc, setup, plain, row, came);
            drop(plain);
            taken
        }
        Err(_) => {
            drop(setup);
            Err(AllocError)
        }
    }
}

/// Takes the steps of each session in an office over a store, which is returned.
fn take_in_store<K: Keeper>(
    alloc: Global,
    setup: Setup,
    keeper: K,
    sessions: &str,
    came: &mut String,
) -> (K, Result<(), AllocError>)
    requires { K.setup keeper ≡ setup }
{
    let mut office = Office::new(alloc, setup, keeper);
    let taken = take_sessions(alloc, &mut office, sessions, came);
    let (keeper, told) = told_over(alloc, office, sessions, came);
    (keeper, taken.and(told))
}

/// Takes the steps of each session in an office.
fn take_sessions<K: Keeper>(
    alloc: Global,
    office: &mut Office<K>,
    sessions: &str,
    came: &mut String,
) -> Result<(), AllocError> {
    for session in sessions.split(REOPEN) {
        take_session(alloc, office, session, came)?;
    }
    Ok(())
}

/// Adds the result of a row over tables, which each session opens again.
pub fn put_in_tables(alloc: Global, row: &str, came: &mut String) -> Result<(), AllocError> {
    match Connection::open_in_memory(alloc) {
        Ok(conn) => put_over_tables(alloc, conn, row, came),
        Err(_) => Err(AllocError),
    }
}

/// Adds the result of a row over tables in this connection, which each session opens again.
fn put_over_tables<S: Alter + Drop>(
    alloc: Global,
    conn: Connection<S>,
    row: &str,
    came: &mut String,
) -> Result<(), AllocError> {
    let mut conn = conn;
    let mut all = Ok(());
    for session in row.split(REOPEN) {
        let changed = change_all(&mut conn, session, came);
        let (left, taken) = take_in_tables(alloc, conn, session, came);
        conn = left;
        all = all.and(changed).and(taken);
    }
    drop(conn);
    all
}

/// Takes a session's statements.
fn change_all<S: Alter>(
    conn: &mut Connection<S>,
    session: &str,
    came: &mut String,
) -> Result<(), AllocError> {
    let mut parts = session.split(STATEMENT);
    let _before = parts.next();
    for part in parts {
        change(conn, part.lines().next().unwrap_or(""), came)?;
    }
    Ok(())
}

/// Takes a statement. One that fails is reported.
fn change<S: Alter>(
    conn: &mut Connection<S>,
    statement: &str,
    came: &mut String,
) -> Result<(), AllocError> {
    match conn.execute(statement, &[]) {
        Ok(_) => Ok(()),
        Err(error) => put_failed(error, came),
    }
}

/// Takes a session's steps over tables, which are closed afterwards.
fn take_in_tables<S: Alter + Drop>(
    alloc: Global,
    conn: Connection<S>,
    session: &str,
    came: &mut String,
) -> (Connection<S>, Result<(), AllocError>) {
    match Setup::parse(alloc, setup_in(session).as_bytes()) {
        Ok(setup) => take_with_setup(alloc, setup, conn, session, came),
        Err(fault) => (conn, put_refused(fault, came)),
    }
}

/// Takes a session's steps over tables with this setup, which are closed afterwards.
fn take_with_setup<S: Alter + Drop>(
    alloc: Global,
    setup: Setup,
    conn: Connection<S>,
    session: &str,
    came: &mut String,
) -> (Connection<S>, Result<(), AllocError>) {
    match Tables::open(alloc, conn, &setup) {
        Ok(tables) => {
            let (tables, taken) = take_in_store(alloc, setup, tables, session, came);
            (tables.into_connection(), taken)
        }
        Err((fault, conn)) => {
            drop(setup);
            (conn, put_unopened(fault, came))
        }
    }
}

/// The store of an office, once the reports after its steps are added.
fn told_over<K: Keeper>(
    alloc: Global,
    office: Office<K>,
    steps: &str,
    came: &mut String,
) -> (K, Result<(), AllocError>) {
    let copied = office.setup().copy(alloc);
    let mut keeper = office.into_keeper();
    let told = match copied {
        Ok(setup) => told_in(alloc, &setup, &mut keeper, steps, came),
        Err(_) => Err(AllocError),
    };
    (keeper, told)
}

/// Adds the report after these steps: what a check of the store finds, or the facts that it keeps.
fn told_in<K: Keeper>(
    alloc: Global,
    setup: &Setup,
    keeper: &mut K,
    steps: &str,
    came: &mut String,
) -> Result<(), AllocError>
    requires { K.setup keeper.old ≡ setup.now }
{
    if tells_check(steps) {
        check_in(alloc, setup, keeper, came)
    } else if tells_facts(steps) {
        facts_in(keeper, came)
    } else {
        Ok(())
    }
}

/// Adds why a statement failed.
fn put_failed(error: Error, came: &mut String) -> Result<(), AllocError> {
    write!(came, "statement failed: {error:?}\n")
}

/// Adds why a setup is refused.
fn put_refused(fault: SetupFault, came: &mut String) -> Result<(), AllocError> {
    write!(came, "setup refused: {fault:?}\n")
}

/// Adds why tables aren't opened.
fn put_unopened(fault: OpenFault, came: &mut String) -> Result<(), AllocError> {
    write!(came, "store refused: {fault:?}\n")
}
