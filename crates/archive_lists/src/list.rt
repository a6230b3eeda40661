//! Lists of what a suite has: a line `NAME VERSION ARCHITECTURE` for each binary package and each source.

ghost use Rattle.std.specs.Prelude.{◌≡◌, ◌∷◌, ◌++◌, ◌<◌, IfOk, IfSome, IsPermutation};
ghost use Rattle.archive_lists.specs.List.{IsListOf, line_of, listed};

use archive_plan::{Item, is_in_order, key_order};
use deb_control::{index_of, split_around};
use deb_version::{NoMemory, SmallString, Version, VersionFault};
use std::alloc::{AllocError, AllocFailed, Global};
use thiserror::Error;

/// Why a text is no list.
#[derive(Clone, Copy, Debug, PartialEq, Eq, Error)]
pub enum ListFault {
    /// The line of this number, from 1 on, isn't a name, a version and an architecture, each followed by one character.
    #[error("line {0}: it isn't NAME VERSION ARCHITECTURE")]
    BadLine(usize),
    /// The version in the line of this number is none.
    #[error("line {0}: {1}")]
    BadVersion(usize, VersionFault),
    /// Two lines have one name and one architecture.
    #[error("a package is listed twice on one architecture, or a source twice")]
    Twice,
    #[error("out of memory")]
    NoMemory,
}

impl From<AllocError> for ListFault {
    fn from(_error: AllocError) -> ListFault {
        ListFault::NoMemory
    }
}

impl<T: Drop> From<AllocFailed<T>> for ListFault {
    fn from(_error: AllocFailed<T>) -> ListFault {
        ListFault::NoMemory
    }
}

impl From<NoMemory> for ListFault {
    fn from(_fault: NoMemory) -> ListFault {
        ListFault::NoMemory
    }
}

/// What stands before and after the first of an ASCII character, if it is there.
fn cut(text: &str, separator: u8) -> Option<(&str, &str)>
    requires ascii { separator < 128 }
    ensures { IfSome result (λ parts. text.now ≡ parts.0.now ++ (separator ∷ parts.1.now)) }
{
    let at = index_of(text.as_bytes(), separator);
    if at == text.len() {
        return None;
    }
    Some(split_around(text, at))
}

/// The item of a line of this number.
fn item_of(alloc: Global, number: usize, line: &str) -> Result<Item, ListFault>
    ensures { IfOk result (λ item. line_of item ≡ line.now) }
{
    let Some((name, rest)) = cut(line, b' ') else {
        return Err(ListFault::BadLine(number));
    };
    let Some((version, architecture)) = cut(rest, b' ') else {
        return Err(ListFault::BadLine(number));
    };
    if name.is_empty() || architecture.is_empty() || architecture.contains(' ') {
        return Err(ListFault::BadLine(number));
    }
    let version = match Version::parse(alloc, version) {
        Ok(version) => version,
        Err(VersionFault::NoMemory) => return Err(ListFault::NoMemory),
        Err(fault) => return Err(ListFault::BadVersion(number, fault)),
    };
    let name = SmallString::from_str(alloc, name)?;
    let architecture = SmallString::from_str(alloc, architecture)?;
    Ok(Item {
        architecture,
        name,
        version,
    })
}

/// The items of a text, in the order of its lines.
fn items_of(alloc: Global, text: &str) -> Result<Vec<Item>, ListFault>
    ensures { IfOk result (λ items. listed items.items ≡ text.now) }
{
    let mut items = Vec::new(alloc);
    let mut rest = text;
    'lines: while !rest.is_empty() {
        let number = items.len().saturating_add(1);
        let Some((line, more)) = cut(rest, b'\n') else {
            return Err(ListFault::BadLine(number));
        };
        items.push(item_of(alloc, number, line)?)?;
        rest = more;
    }
    Ok(items)
}

/// The same items, by their keys.
fn by_key(items: Vec<Item>) -> Vec<Item>
    ensures { IsPermutation items.items result.items }
{
    let mut sorted = items;
    sorted.sort_unstable_by(|item, other| key_order(item, other));
    sorted
}

/// The items that a text lists, in the order of their keys. Each line is `NAME VERSION ARCHITECTURE` with one space
/// between them and a line feed at its end, in any order; the architecture of a source is `source`.
pub fn read_list(alloc: Global, text: &str) -> Result<Vec<Item>, ListFault>
    ensures { IfOk result (λ items. IsListOf text.now items.items) }
{
    let items = by_key(items_of(alloc, text)?);
    if is_in_order(&items) {
        Ok(items)
    } else {
        Err(ListFault::Twice)
    }
}
