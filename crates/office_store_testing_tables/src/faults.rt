//! The store's fault for an unreadable column.
ghost use Rattle.std.specs.Prelude.{◌≡◌, ◌≢◌};

use office_store_keeper::{Cause, KeepFault};
use sqlite::{Error, ErrorCode};

/// The store's fault for an unreadable column.
pub fn unread(error: Error) -> KeepFault
    ensures { result ≡ KeepFault.Store Cause.BadRow → error ≢ Error.SqliteFailure ErrorCode.OutOfMemory }
{
    match error {
        Error::SqliteFailure(ErrorCode::OutOfMemory) => KeepFault::NoMemory,
        _ => KeepFault::Store(Cause::BadRow),
    }
}
