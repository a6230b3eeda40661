// Why a text isn't a version, and running out of memory.
ghost use Rattle.deb_version.specs.declared.faults.VersionFault.TheVariants.{NoMemory as OutOfMemory};

use std::alloc::{AllocError, AllocFailed};

/// Out of memory: the only refusal of a call that copies a valid value.
#[derive(Clone, Copy, Debug, PartialEq, Eq, thiserror::Error)]
#[error("out of memory")]
pub struct NoMemory;

impl From<AllocError> for NoMemory {
    fn from(_error: AllocError) -> NoMemory {
        NoMemory
    }
}

impl<T: Drop> From<AllocFailed<T>> for NoMemory {
    fn from(_error: AllocFailed<T>) -> NoMemory {
        NoMemory
    }
}

/// Why a text isn't a version (Debian Policy 5.6.12), or out of memory. Of several faults the first in this order is
/// reported.
#[derive(Clone, Copy, Debug, PartialEq, Eq, thiserror::Error)]
pub enum VersionFault {
    #[error("the version is empty")]
    Empty,
    #[error("the version has more than 256 bytes")]
    TooLong,
    #[error("the epoch is not a number up to 2147483647")]
    BadEpoch,
    #[error("the upstream version is empty")]
    EmptyUpstream,
    #[error("the revision is empty")]
    EmptyRevision,
    #[error("the version has a character that may not stand there")]
    BadCharacter,
    #[error("out of memory")]
    NoMemory,
}

/// Which of two compared texts isn't a version, and why. If neither is, the first is reported.
#[derive(Clone, Copy, Debug, PartialEq, Eq, thiserror::Error)]
pub enum CompareFault {
    #[error("the first version is refused: {0}")]
    First(VersionFault),
    #[error("the second version is refused: {0}")]
    Second(VersionFault),
}
