//! The testing suite.

ghost use Rattle.std.specs.Prelude.{◌≡◌, length, IfOk};
ghost use Rattle.std.specs.List.Sorted.{IsBinarySearchResult, IsSearchInRange};
ghost use Rattle.testing_rules_items.specs.Words.{byte_cmp};
ghost use Rattle.testing_rules_model.specs.JudgedRows.{row_of};

use crate::shared_binary::SharedBinary;
use deb_control::Text;
use deb_version::{NoMemory, Version};
use std::alloc::Global;
use std::cmp::Ordering;
use testing_rules_items::search_near;

/// A source in testing, and the message that gave it.
#[derive(Drop)]
pub struct SourceIn {
    pub name: Text,
    pub version: Version,
    pub sender: u32,
    pub number: u32,
}

/// A binary in testing or unstable, and the paragraph that gave it. `arch` is the place of its
/// architecture in the setup, or 16 for `all`; the first binary of a build has the place 1.
#[derive(Drop)]
pub struct RowIn {
    pub binary: SharedBinary,
    pub arch: u32,
    pub sender: u32,
    pub number: u32,
    pub place: u32,
}

/// A borrowed row: its binary is in testing or among the builds of unstable.
#[derive(Clone, Copy)]
pub struct LentRow<'a> {
    pub binary: &'a SharedBinary,
    pub arch: u32,
    pub sender: u32,
    pub number: u32,
    pub place: u32,
}

/// The place of the name among the sources, or where it belongs. The guessed place is tried first, then the next one.
pub fn source_place_near(sources: &[SourceIn], name: &str, guess: usize) -> Result<usize, usize>
    ensures bound { IsSearchInRange result (length sources.now) }
    ensures found { IsBinarySearchResult (λ s. byte_cmp s.name name.now) sources.now result }
{
    search_near(
        sources,
        guess,
        |source: &SourceIn| -> Ordering
            ensures { result ≡ byte_cmp source.now.name name.entry.now }
        { source.name.as_str().cmp(name) },
    )
}

impl SourceIn {
    /// An equal value.
    pub fn copy(&self, alloc: Global) -> Result<SourceIn, NoMemory>
        ensures { IfOk result (λ s. s ≡ self.now) }
    {
        let name = self.name.copy(alloc)?;
        let version = self.version.copy(alloc)?;
        Ok(SourceIn {
            name,
            version,
            sender: self.sender,
            number: self.number,
        })
    }
}

impl RowIn {
    /// The row, borrowed.
    pub fn lend(&self) -> LentRow<'_>
        ensures { row_of result ≡ self.now }
    {
        LentRow {
            arch: self.arch,
            binary: &self.binary,
            sender: self.sender,
            number: self.number,
            place: self.place,
        }
    }

    /// An equal value, which shares the binary.
    pub fn copy(&self) -> Result<RowIn, NoMemory>
        ensures { IfOk result (λ r. r ≡ self.now) }
    {
        self.lend().copy()
    }
}

impl LentRow<'_> {
    /// An equal row, which shares the binary.
    pub fn copy(&self) -> Result<RowIn, NoMemory>
        ensures { IfOk result (λ r. r ≡ row_of self.now) }
    {
        let binary = self.binary.share()?;
        Ok(RowIn {
            arch: self.arch,
            binary,
            sender: self.sender,
            number: self.number,
            place: self.place,
        })
    }
}
