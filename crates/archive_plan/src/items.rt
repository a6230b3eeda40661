//! Items of a suite, and how two of them stand to each other.

ghost use Rattle.std.specs.Prelude.{◌≡◌, IfOk};
ghost use Rattle.archive_plan.specs.Items.{key_cmp, fits};

use deb_version::{NoMemory, SmallString, Version};
use std::alloc::Global;
use std::cmp::Ordering;

/// What a suite has at a version: a binary package of an architecture, or a source.
#[derive(Drop)]
pub struct Item {
    /// The architecture, or `source` for a source, as in the lists of dak's `control-suite`.
    pub architecture: SmallString,

    /// The name of the package or of the source.
    pub name: SmallString,

    /// Its version, byte for byte.
    pub version: Version,
}

/// How two items of one architecture and name stand to each other.
#[derive(Clone, Copy)]
pub enum Relation {
    /// In any way.
    Key,

    /// They are the same, byte for byte.
    Whole,

    /// The first has the lower version (Debian Policy 5.6.12).
    Lower,

    /// The first has no higher version (Debian Policy 5.6.12).
    AtMost,
}

impl Item {
    /// An equal item.
    pub fn copy(&self, alloc: Global) -> Result<Item, NoMemory>
        ensures { IfOk result (λ item. item ≡ self.now) }
    {
        let architecture = self.architecture.copy(alloc)?;
        let name = self.name.copy(alloc)?;
        let version = self.version.copy(alloc)?;
        Ok(Item {
            architecture,
            name,
            version,
        })
    }
}

/// The order of two items by their keys: first by architecture, and then by name.
pub fn key_order(x: &Item, y: &Item) -> Ordering
    ensures { result ≡ key_cmp x.now y.now }
{
    match x.architecture.as_str().cmp(y.architecture.as_str()) {
        Ordering::Equal => x.name.as_str().cmp(y.name.as_str()),
        Ordering::Less => Ordering::Less,
        Ordering::Greater => Ordering::Greater,
    }
}

/// Whether two items of one key stand so to each other.
pub fn is_fit(relation: Relation, x: &Item, y: &Item) -> bool
    ensures { result ≡ fits relation x.now y.now }
{
    match relation {
        Relation::Key => true,
        Relation::Whole => x.version.text() == y.version.text(),
        Relation::Lower => x.version.order(&y.version) == Ordering::Less,
        Relation::AtMost => x.version.order(&y.version) != Ordering::Greater,
    }
}
