//! Why a question couldn't be answered.
ghost use Rattle.std.specs.Prelude.{◌≡◌};
ghost use Rattle.office_core_queries.specs.Asking.{told};
ghost use Rattle.office_core_queries.specs.declared.faults.AskFault.TheVariants as fault;

use deb_control::NoMemory;
use office_core_store::StoreFault;
use office_mail::WriteFault;
use std::alloc::AllocError;
use thiserror::Error;

/// Why a question whose answer is written couldn't be answered.
#[derive(Clone, Copy, Debug, PartialEq, Eq, Error)]
pub enum AskFault {
    #[error("out of memory")]
    NoMemory,
    #[error("the store failed")]
    Store,
    #[error("the output can't be written")]
    Write,
}

impl From<AllocError> for AskFault {
    ghost from_gives = { λ _ e. e ≡ fault.NoMemory };

    fn from(_e: AllocError) -> AskFault {
        AskFault::NoMemory
    }
}

impl From<NoMemory> for AskFault {
    ghost from_gives = { λ _ e. e ≡ fault.NoMemory };

    fn from(_e: NoMemory) -> AskFault {
        AskFault::NoMemory
    }
}

impl From<WriteFault> for AskFault {
    ghost from_gives = { λ _ e. e ≡ fault.Write };

    fn from(_e: WriteFault) -> AskFault {
        AskFault::Write
    }
}

impl From<StoreFault> for AskFault {
    ghost from_gives = { λ f e. e ≡ told f };

    fn from(fault: StoreFault) -> AskFault {
        match fault {
            StoreFault::NoMemory => AskFault::NoMemory,
            StoreFault::Store => AskFault::Store,
        }
    }
}
