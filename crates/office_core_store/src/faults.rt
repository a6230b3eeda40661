//! Why a call that asks the store failed.
use deb_control::NoMemory;
use office_store_keeper::KeepFault;
use std::alloc::{AllocError, AllocFailed};
use thiserror::Error;

/// Why a call that asks the store failed.
#[derive(Clone, Copy, Debug, PartialEq, Eq, Error)]
pub enum StoreFault {
    #[error("out of memory")]
    NoMemory,
    #[error("the store failed")]
    Store,
}

impl From<AllocError> for StoreFault {
    ghost use Rattle.std.specs.Prelude.{◌≡◌};
    ghost use Rattle.office_core_store.specs.declared.faults.StoreFault.TheVariants.{NoMemory};

    ghost from_gives = { λ _ e. e ≡ NoMemory };

    fn from(_e: AllocError) -> StoreFault {
        StoreFault::NoMemory
    }
}

impl<T: Drop> From<AllocFailed<T>> for StoreFault {
    ghost use Rattle.std.specs.Prelude.{◌≡◌};
    ghost use Rattle.office_core_store.specs.declared.faults.StoreFault.TheVariants.{NoMemory};

    ghost from_gives = { λ _ e. e ≡ NoMemory };

    fn from(_e: AllocFailed<T>) -> StoreFault {
        StoreFault::NoMemory
    }
}

impl From<NoMemory> for StoreFault {
    ghost use Rattle.std.specs.Prelude.{◌≡◌};
    ghost use Rattle.office_core_store.specs.declared.faults.StoreFault.TheVariants as fault;

    ghost from_gives = { λ _ e. e ≡ fault.NoMemory };

    fn from(_e: NoMemory) -> StoreFault {
        StoreFault::NoMemory
    }
}

impl From<KeepFault> for StoreFault {
    ghost use Rattle.std.specs.Prelude.{◌≡◌};
    ghost use Rattle.office_core_store.specs.Counted.{told};

    ghost from_gives = { λ k e. e ≡ told k };

    fn from(fault: KeepFault) -> StoreFault {
        match fault {
            KeepFault::NoMemory => StoreFault::NoMemory,
            KeepFault::Store(_) => StoreFault::Store,
        }
    }
}
