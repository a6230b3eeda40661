//! Why control data could not be read.

ghost use Rattle.std.specs.Prelude.{◌≡◌};
ghost use Rattle.deb_control.specs.declared.fault.ParagraphFault.TheVariants as paragraph;
ghost use Rattle.deb_control.specs.declared.fault.RelationFault.TheVariants as relation;
ghost use Rattle.deb_control.specs.declared.fault.BinaryFault.TheVariants as binary;

use std::alloc::{AllocError, AllocFailed};
use thiserror::Error;

/// Why a text isn't paragraphs of fields (Debian Policy 5.1). Each fault but the first and the last is about the first
/// bad line, and is the first in this order that applies to it.
#[derive(Clone, Copy, Debug, PartialEq, Eq, Error)]
pub enum ParagraphFault {
    /// The text as a whole is not UTF-8.
    #[error("the text is not UTF-8")]
    NotUtf8,

    /// A line that continues no field has no colon.
    #[error("a line has no colon")]
    NoColon,

    /// The text before a line's first colon isn't a valid field name.
    #[error("a field has a bad name")]
    BadName,

    /// The first line of a paragraph begins with a space or a tab.
    #[error("the first line of a paragraph continues nothing")]
    FirstLineContinues,

    /// A field of that name, in any case of letters, precedes it in its paragraph.
    #[error("a field stands twice in a paragraph")]
    RepeatedField,

    /// An allocation failed.
    #[error("out of memory")]
    NoMemory,
}

impl From<AllocError> for ParagraphFault {
    ghost from_gives = { λ _ e. e ≡ paragraph.NoMemory };

    fn from(_e: AllocError) -> ParagraphFault {
        ParagraphFault::NoMemory
    }
}

impl<T: Drop> From<AllocFailed<T>> for ParagraphFault {
    ghost from_gives = { λ _ e. e ≡ paragraph.NoMemory };

    fn from(_e: AllocFailed<T>) -> ParagraphFault {
        ParagraphFault::NoMemory
    }
}

/// Why a text isn't a list of clauses or provisions: its first fault from the left (Debian Policy 7.1, 7.5).
#[derive(Clone, Copy, Debug, PartialEq, Eq, Error)]
pub enum RelationFault {
    /// An alternative doesn't begin with a package name.
    #[error("a bad package name")]
    BadName,

    /// The word in the place of a version isn't one.
    #[error("a bad version")]
    BadVersion,

    /// Anything else, like an architecture list, a build profile or a missing parenthesis.
    #[error("a bad relation")]
    BadRelation,

    /// An allocation failed.
    #[error("out of memory")]
    NoMemory,
}

impl From<AllocError> for RelationFault {
    ghost from_gives = { λ _ e. e ≡ relation.NoMemory };

    fn from(_e: AllocError) -> RelationFault {
        RelationFault::NoMemory
    }
}

impl<T: Drop> From<AllocFailed<T>> for RelationFault {
    ghost from_gives = { λ _ e. e ≡ relation.NoMemory };

    fn from(_e: AllocFailed<T>) -> RelationFault {
        RelationFault::NoMemory
    }
}

/// A field of a binary package's paragraph that is read (Debian Policy 5.3, 5.6, 7.2, 7.5).
#[derive(Clone, Copy, Debug, PartialEq, Eq)]
pub enum BinaryField {
    Package,
    Version,
    Architecture,
    Source,
    PreDepends,
    Depends,
    Provides,
}

/// Why a paragraph isn't a binary package: a missing field, or else the first bad one in the order of `BinaryField`.
#[derive(Clone, Copy, Debug, PartialEq, Eq, Error)]
pub enum BinaryFault {
    /// The first missing field of Package, Version and Architecture.
    #[error("the field {0:?} is missing")]
    MissingField(BinaryField),

    /// The word in the place of a name or an architecture isn't one.
    #[error("a bad name in {0:?}")]
    BadName(BinaryField),

    /// The word in the place of a version isn't one.
    #[error("a bad version in {0:?}")]
    BadVersion(BinaryField),

    /// The text after a good name isn't allowed there.
    #[error("a bad relation in {0:?}")]
    BadRelation(BinaryField),

    /// An allocation failed.
    #[error("out of memory")]
    NoMemory,
}

impl From<AllocError> for BinaryFault {
    ghost from_gives = { λ _ e. e ≡ binary.NoMemory };

    fn from(_e: AllocError) -> BinaryFault {
        BinaryFault::NoMemory
    }
}
