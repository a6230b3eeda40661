//! Flags by place. Flags past the end aren't set.

use deb_control::NoMemory;
use std::alloc::Global;

/// This many flags.
pub fn flags_of(alloc: Global, count: usize, flag: bool) -> Result<Vec<bool>, NoMemory> {
    let mut flags = Vec::new(alloc);
    flags.resize(count, flag)?;
    Ok(flags)
}

/// The same flags.
pub fn copy_flags(alloc: Global, flags: &[bool]) -> Result<Vec<bool>, NoMemory> {
    let mut copy = Vec::with_capacity(alloc, flags.len())?;
    copy.extend_from_slice(flags)?;
    Ok(copy)
}

/// The flag at the place is set.
pub fn is_set(flags: &[bool], place: usize) -> bool {
    match flags.get(place) {
        Some(flag) => *flag,
        None => false,
    }
}

/// The flag of the owner is set, if there is one.
pub fn is_set_for(flags: &[bool], owner: Option<usize>) -> bool {
    match owner {
        Some(owner) => is_set(flags, owner),
        None => false,
    }
}

/// Puts this flag at the place.
pub fn set(flags: &mut Vec<bool>, place: usize, flag: bool) {
    if place < flags.len() {
        flags[place] = flag;
    }
}

/// Puts this flag at the places.
pub fn set_all(flags: &mut Vec<bool>, places: &[usize], flag: bool) {
    for place in places {
        set(flags, *place, flag);
    }
}

/// The places whose flags are set.
pub fn set_places(alloc: Global, flags: &[bool]) -> Result<Vec<usize>, NoMemory> {
    let mut places = Vec::new(alloc);
    for (place, flag) in flags.iter().enumerate() {
        if *flag {
            places.push(place)?;
        }
    }
    Ok(places)
}

/// Some flag is set in the first list, and not in the second.
pub fn is_one_more(flags: &[bool], others: &[bool]) -> bool {
    for (place, flag) in flags.iter().enumerate() {
        if *flag && !is_set(others, place) {
            return true;
        }
    }
    false
}
