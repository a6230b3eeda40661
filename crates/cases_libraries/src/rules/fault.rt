//! Why a row says nothing.

use deb_version::NoMemory;
use std::alloc::{AllocError, AllocFailed};

/// Why a row says nothing.
#[derive(Clone, Copy)]
pub enum Fault {
    NoMemory,
    Wrong(&'static str),
}

impl From<AllocError> for Fault {
    fn from(_error: AllocError) -> Fault {
        Fault::NoMemory
    }
}

impl<T: Drop> From<AllocFailed<T>> for Fault {
    fn from(_error: AllocFailed<T>) -> Fault {
        Fault::NoMemory
    }
}

impl From<NoMemory> for Fault {
    fn from(_error: NoMemory) -> Fault {
        Fault::NoMemory
    }
}
