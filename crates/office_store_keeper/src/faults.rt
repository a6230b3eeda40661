//! Why calls of a store give up.
ghost use Rattle.std.specs.Prelude.{◌≡◌, ◌≢◌};
ghost use Rattle.office_store_keeper.specs.declared.faults.KeepFault.TheVariants as fault;
ghost use Rattle.office_store_keeper.specs.declared.faults.Cause.TheVariants.{BadRow};

use deb_control::NoMemory;
use sqlite::{Error, ErrorCode};
use std::alloc::{AllocError, AllocFailed};

/// Why the store refused.
#[derive(Clone, Copy, Debug, PartialEq, Eq)]
pub enum Cause {
    /// A refusal by SQLite.
    Sqlite(Error),
    /// A row that no office writes, or a kept text that isn't a message with its sender and number.
    BadRow,
}

/// Why a call of a keeper gave up.
#[derive(Clone, Copy, Debug, PartialEq, Eq)]
pub enum KeepFault {
    NoMemory,
    Store(Cause),
}

impl From<AllocError> for KeepFault {
    ghost from_gives = { λ _ e. e ≡ fault.NoMemory };

    fn from(_e: AllocError) -> KeepFault {
        KeepFault::NoMemory
    }
}

impl<T: Drop> From<AllocFailed<T>> for KeepFault {
    ghost from_gives = { λ _ e. e ≡ fault.NoMemory };

    fn from(_e: AllocFailed<T>) -> KeepFault {
        KeepFault::NoMemory
    }
}

impl From<NoMemory> for KeepFault {
    ghost from_gives = { λ _ e. e ≡ fault.NoMemory };

    fn from(_e: NoMemory) -> KeepFault {
        KeepFault::NoMemory
    }
}

impl From<Error> for KeepFault {
    ghost from_gives = { λ _ e. e ≢ fault.Store BadRow };

    fn from(error: Error) -> KeepFault {
        match error {
            Error::SqliteFailure(ErrorCode::OutOfMemory) => KeepFault::NoMemory,
            _ => KeepFault::Store(Cause::Sqlite(error)),
        }
    }
}
