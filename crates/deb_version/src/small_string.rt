//! Strings that keep short texts inline.

ghost use Rattle.std.specs.Prelude.{◌≡◌, ◌≤◌, length, IfOk, IsOk};
ghost use Rattle.std.specs.String.{string_bytes};
ghost use Rattle.deb_version.specs.SmallString.{bytes_of};
ghost use Rattle.deb_version.specs.steps.SmallString.{IsText};

use std::alloc::{AllocError, Global};
use std::marker::Model;
use std::str;

/// The most inline bytes.
const ROOM: usize = 30;

/// Where a string keeps its bytes.
#[derive(Debug, Drop)]
enum Data {
    /// In the value itself, with unused room after them.
    Inline { len: u8, bytes: [u8; ROOM] },

    Heap(String),
}

/// A string that keeps up to 30 bytes inline, so that nearly all names and versions allocate nothing. It has a size of
/// 32 bytes. Contracts see its bytes.
#[derive(Debug, Drop)]
pub struct SmallString {
    data: Data,
}

impl Model for SmallString {
    ghost use Rattle.std.specs.Prelude.{List, ℕ};
    ghost use Rattle.deb_version.specs.SmallString.{bytes_of};
    ghost use Rattle.deb_version.specs.steps.SmallString.{IsText};

    ghost Value = { List ℕ };

    ghost view = { λ s. bytes_of s.data };

    ghost invariant = { λ s. IsText s.data };
}

/// A short text, inline.
fn inline(text: &str) -> Data
    requires { length text.now ≤ 30 }
    ensures bytes { bytes_of result ≡ text.now }
    ensures text { IsText result }
{
    let mut bytes = [0; ROOM];
    bytes[..text.len()].copy_from_slice(text.as_bytes());
    Data::Inline {
        len: text.len() as u8,
        bytes,
    }
}

impl SmallString {
    /// A string with these bytes. Up to 30 bytes allocate nothing.
    pub fn from_str(alloc: Global, text: &str) -> Result<SmallString, AllocError>
        ensures ok { IfOk result (λ s. s ≡ text.now) }
        ensures short { length text.now ≤ 30 → IsOk result }
    {
        let data = if text.len() <= ROOM {
            inline(text)
        } else {
            Data::Heap(String::from_str(alloc, text)?)
        };
        Ok(SmallString { data })
    }

    /// A string of these bytes. It allocates nothing.
    pub fn from_string(text: String) -> SmallString
        ensures { result ≡ string_bytes text }
    {
        SmallString {
            data: Data::Heap(text),
        }
    }

    /// The string as a slice.
    #[tactic(auto, unfolding(crate::specs::steps::SmallString::IsText))]
    pub fn as_str(&self) -> &str
        ensures { result.now ≡ self.now }
    {
        match &self.data {
            Data::Inline { len, bytes } => unsafe {
                str::from_utf8_unchecked(&bytes[..*len as usize])
            },
            Data::Heap(text) => text.as_str(),
        }
    }

    /// An equal string. Up to 30 inline bytes allocate nothing.
    pub fn copy(&self, alloc: Global) -> Result<SmallString, AllocError>
        ensures { IfOk result (λ s. s ≡ self.now) }
    {
        let data = match &self.data {
            Data::Inline { len, bytes } => Data::Inline {
                len: *len,
                bytes: *bytes,
            },
            Data::Heap(text) => Data::Heap(String::from_str(alloc, text.as_str())?),
        };
        Ok(SmallString { data })
    }
}
