//! What a part meets that isn't due, or that keeps it from its end.

use deb_version::NoMemory;
use std::alloc::AllocError;

/// Why a part isn't right: memory was refused in what it needs itself, or the result isn't due.
#[derive(Clone, Copy)]
pub enum Met {
    NoMemory,
    Wrong(&'static str),
}

impl From<AllocError> for Met {
    fn from(_error: AllocError) -> Met {
        Met::NoMemory
    }
}

impl From<NoMemory> for Met {
    fn from(_error: NoMemory) -> Met {
        Met::NoMemory
    }
}

/// What is wrong if this doesn't hold.
pub fn due(holds: bool, what: &'static str) -> Result<(), Met> {
    if holds { Ok(()) } else { Err(Met::Wrong(what)) }
}
