//! The store in a file: opening and closing its tables.

ghost use Rattle.std.specs.Prelude.{◌≡◌, None, IfOk, OnOk};
ghost use Rattle.sqlite.specs.Files as files;
ghost use Rattle.sqlite.specs.Files.{file_state};
ghost use Rattle.sqlite.specs.Held.{state, IsNew};
ghost use Rattle.sqlite.specs.Start.{FindsIn};
ghost use Rattle.sqlite.specs.State.{HasCleanDisk};
ghost use Rattle.sqlite.specs.WalFiles.{image_at};
ghost use Rattle.office_store.specs.Opening.{IsOpened, IsAlone, IsTakeable};
ghost use Rattle.office_store.specs.Tables.{IsTrusted, Endures};
ghost use Rattle.office_store.specs.Store.{FindsStore, OpensStore, status_of_store};
ghost use Rattle.office_store.specs.steps.Store.{file_fault};

use crate::{Cause, OpenFault, Tables};
use office_mail::Setup;
use sqlite::{Alter, Connection, ErrorCode, FileFrom, FileStore, Start};
use sqlite_disk::Disk;
use std::alloc::Global;
use thiserror::Error;

/// Why a file has no store, or why a store wasn't closed.
#[derive(Clone, Copy, Debug, PartialEq, Eq, Error)]
pub enum FileFault {
    #[error("the store can't be opened: out of memory: give the program more memory")]
    NoMemory,
    /// The file is missing and can't be made, is in use, or isn't a sound database.
    #[error("the store can't be opened: {0}: {remedy}", remedy = remedy(.0))]
    Unopened(sqlite::Error),
    #[error("the store was made for another setup: name that setup, or another file")]
    OtherSetup,
    #[error("the file has other tables than a store that this program reads: name another file")]
    UnknownSchema,
    /// A store of an earlier version that can't be migrated.
    #[error("the store is of an earlier version, and lacks an order, or has a text among its orders and its release mail that is no message of its own: put a copy in its place")]
    Unreadable,
    /// The database was opened, and then refused to make or to read the tables.
    #[error("the store failed: {0}: {remedy}", remedy = remedy(.0))]
    Failed(sqlite::Error),
    /// The content is in the log next to the file.
    #[error("the store's log wasn't copied into its file: {0}: {remedy}: what was kept stands, so leave the log beside it", remedy = remedy(.0))]
    Unclosed(sqlite::Error),
}

/// What to do about a refusal of sqlite.
fn remedy(error: &sqlite::Error) -> &'static str {
    let sqlite::Error::SqliteFailure(code) = error else {
        return "name another file, or put a copy in its place";
    };
    match code {
        ErrorCode::CannotOpen =>
            "see that it is a plain file, and that the program may read and write it and its folder",
        ErrorCode::DatabaseBusy =>
            "end the program that has it open, or ask a service with office-ask",
        ErrorCode::DiskFull => "make room on the disk, and start again",
        ErrorCode::SystemIoFailure | ErrorCode::Closed => "see to the disk, and start again",
        ErrorCode::OutOfMemory => "give the program more memory",
        _ => "name another file, or put a copy in its place",
    }
}

/// The exit status for a fault of the store: 4.
pub fn store_status(fault: &FileFault) -> u8
    ensures { result ≡ status_of_store fault.now }
{
    match fault {
        FileFault::NoMemory
        | FileFault::Unopened(_)
        | FileFault::OtherSetup
        | FileFault::UnknownSchema
        | FileFault::Unreadable
        | FileFault::Failed(_)
        | FileFault::Unclosed(_) => 4,
    }
}

/// The file's fault for a fault in opening tables.
fn file_fault(fault: OpenFault) -> FileFault
    ensures { result ≡ file_fault fault }
{
    match fault {
        OpenFault::NoMemory => FileFault::NoMemory,
        OpenFault::OtherSetup => FileFault::OtherSetup,
        OpenFault::UnknownSchema => FileFault::UnknownSchema,
        OpenFault::Store(Cause::BadRow) => FileFault::Unreadable,
        OpenFault::Store(Cause::Sqlite(error)) => FileFault::Failed(error),
    }
}

/// The office's tables over a connection. A refused connection is dropped, with its database unchanged.
pub fn open_tables<S: Alter + Drop>(
    alloc: Global,
    conn: Connection<S>,
    setup: &Setup,
) -> Result<Tables<S>, FileFault>
    ensures opened { IfOk result (λ tables. IsTrusted (state S.Store tables.conn) → IsOpened setup.now (state S.Store conn).now (state S.Store tables.conn).now) }
    ensures before { IfOk result (λ tables. IsTrusted (state S.Store tables.conn) → IsTrusted (state S.Store conn)) }
    ensures stays { IfOk result (λ tables. HasCleanDisk (state S.Store tables.conn) → IsTrusted (state S.Store conn) → IsAlone (state S.Store conn).now → IsTrusted (state S.Store tables.conn)) }
    ensures lasts { IfOk result (λ tables. Endures (state S.Store conn) (state S.Store tables.conn)) }
    ensures takes { OnOk result (IsTakeable (state S.Store conn).now.schema) }
    ensures setup { IfOk result (λ tables. tables.setup ≡ setup.now) }
    ensures memory { IfOk result (λ tables. tables.in_memory ≡ None) }
{
    match Tables::open(alloc, conn, setup) {
        Ok(tables) => Ok(tables),
        Err((fault, _conn)) => Err(file_fault(fault)),
    }
}

/// The database in a file, made if it doesn't exist. `S` says what the file and its log contain.
fn open_database<S: Start>(
    rt: &HostRuntime,
    path: &str,
    start: S,
) -> Result<Connection<FileStore<FileFrom<S>>>, FileFault>
    ensures opened { IfOk result (λ conn. HasCleanDisk (file_state conn) → files.IsOpened conn) }
    ensures found { IfOk result (λ conn. HasCleanDisk (file_state conn) → FindsIn (image_at S.Start) (file_state conn)) }
    ensures fresh { IfOk result IsNew }
{
    match Connection::open_from(rt, path, false, start) {
        Ok(conn) => Ok(conn),
        Err((error, _left)) => Err(FileFault::Unopened(error)),
    }
}

/// The store in a file, made if it doesn't exist. `S` says what the file and its log contain.
pub fn open_store<S: Start>(
    rt: &HostRuntime,
    path: &str,
    start: S,
    setup: &Setup,
) -> Result<Tables<FileStore<FileFrom<S>>>, FileFault>
    ensures opens { IfOk result (λ tables. HasCleanDisk (file_state tables.conn) → OpensStore (image_at S.Start) tables.conn) }
    ensures finds { IfOk result (λ tables. IsTrusted (file_state tables.conn) → FindsStore (image_at S.Start) setup.now tables.conn) }
    ensures setup { IfOk result (λ tables. tables.setup ≡ setup.now) }
    ensures memory { IfOk result (λ tables. tables.in_memory ≡ None) }
{
    let conn = open_database(rt, path, start)?;
    let tables = open_tables(rt.alloc(), conn, setup)?;
    Ok(tables)
}

/// Copies what a store in a file has in its log into the file, and closes both.
pub fn close_store<D: Disk + Drop>(tables: Tables<FileStore<D>>) -> Result<(), FileFault> {
    tables
        .into_connection()
        .close()
        .map_err(FileFault::Unclosed)
}
