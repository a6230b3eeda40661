//! The sentences of faults: of a store, and of a setup's file that is missing. All end with status 4.

use cases_faults::{Met, due};
use office_cli::{FileFault, conf_status, read_setup, store_status};
use sqlite::{Error, ErrorCode};
use std::alloc::Global;

/// A fault of a store prints this sentence, and ends with status 4.
fn tells(alloc: Global, fault: FileFault, sentence: &str) -> Result<(), Met> {
    let status = store_status(&fault);
    match format!(in alloc; "{fault}") {
        Ok(text) => due(
            text.as_str() == sentence && status == 4,
            "another sentence of a store, or another status",
        ),
        Err(_) => Err(Met::NoMemory),
    }
}

/// Each fault of a store as a sentence.
pub fn try_store_faults(alloc: Global) -> Result<(), Met> {
    tells(
        alloc,
        FileFault::Unopened(Error::SqliteFailure(ErrorCode::DatabaseBusy)),
        "the store can't be opened: database is locked: end the program that has it open, or ask a service with office-ask",
    )?;
    tells(
        alloc,
        FileFault::OtherSetup,
        "the store was made for another setup: name that setup, or another file",
    )?;
    tells(
        alloc,
        FileFault::Unreadable,
        "the store is of an earlier version, and lacks an order, or has a text among its orders and its release mail that is no message of its own: put a copy in its place",
    )?;
    tells(
        alloc,
        FileFault::Failed(Error::SqliteFailure(ErrorCode::DiskFull)),
        "the store failed: database or disk is full: make room on the disk, and start again",
    )
}

/// A missing setup's file is reported in the system's words.
pub fn try_missing_setup(rt: &HostRuntime) -> Result<(), Met> {
    let Err(fault) = read_setup(rt, "no_such_folder/setup.conf") else {
        return Err(Met::Wrong("a setup that isn't there is read"));
    };
    let status = conf_status(&fault);
    match format!(in rt.alloc(); "{fault}") {
        Ok(text) => due(
            text.as_str() == "the file can't be read: No such file or directory (os error 2)"
                && status == 4,
            "another sentence of a setup, or another status",
        ),
        Err(_) => Err(Met::NoMemory),
    }
}
