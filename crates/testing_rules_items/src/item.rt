//! The content of messages.

ghost use Rattle.std.specs.Prelude.{◌≡◌, IfOk, option_copied};
ghost use Rattle.testing_rules_items.specs.declared.item.Item.TheVariants.{Upload, Dropped, Bug};

use crate::items::Items;
use deb_control::{Binary, NoMemory, Text};
use deb_version::Version;
use jiff_core::civil::Date;
use std::alloc::Global;

/// How urgent an upload is (Debian Policy 5.6.17). Emergency equals critical.
#[derive(Clone, Copy, Debug, PartialEq, Eq)]
pub enum Urgency {
    Low,
    Medium,
    High,
    Emergency,
    Critical,
}

/// How severe a bug is. The first three are release-critical.
#[derive(Clone, Copy, Debug, PartialEq, Eq)]
pub enum Severity {
    Critical,
    Grave,
    Serious,
    Important,
    Normal,
    Minor,
    Wishlist,
}

/// Names of sources.
pub type Names = Items<Text>;

impl Names {
    /// Equal names.
    pub fn copy(&self, alloc: Global) -> Result<Names, NoMemory>
        ensures { IfOk result (λ names. names ≡ self.now) }
    {
        Ok(Names::of(copy_texts(alloc, self.as_slice())?))
    }
}

/// Equal texts, in order.
pub fn copy_texts(alloc: Global, texts: &[Text]) -> Result<Vec<Text>, NoMemory>
    ensures { IfOk result (λ copies. copies.items ≡ texts.now) }
{
    let mut copies = Vec::new(alloc);
    'each: for text in texts {
        copies.push(text.copy(alloc)?)?;
    }
    Ok(copies)
}

/// An equal version, if there is one.
pub fn copy_version(alloc: Global, version: Option<&Version>) -> Result<Option<Version>, NoMemory>
    ensures { IfOk result (λ v. v ≡ option_copied version.entry) }
{
    match version {
        Some(version) => Ok(Some(version.copy(alloc)?)),
        None => Ok(None),
    }
}

/// A source at a version, as a hint names it.
#[derive(Drop)]
pub struct HintItem {
    pub name: Text,
    pub version: Version,
}

impl HintItem {
    /// An equal item.
    pub fn copy(&self, alloc: Global) -> Result<HintItem, NoMemory>
        ensures { IfOk result (λ i. i ≡ self.now) }
    {
        Ok(HintItem {
            name: self.name.copy(alloc)?,
            version: self.version.copy(alloc)?,
        })
    }
}

/// Items of one hint, in order.
pub type HintItems = Items<HintItem>;

impl HintItems {
    /// Equal items.
    pub fn copy(&self, alloc: Global) -> Result<HintItems, NoMemory>
        ensures { IfOk result (λ items. items ≡ self.now) }
    {
        let items = self.as_slice();
        let mut copies = Vec::new(alloc);
        'each: for item in items {
            copies.push(item.copy(alloc)?)?;
        }
        Ok(HintItems::of(copies))
    }
}

/// A wish of the release team.
#[derive(Drop)]
pub enum Hint {
    /// Keeps these sources out.
    Block(Names),

    /// Lifts every block for these versions.
    Unblock(HintItems),

    /// Moves all items as one.
    Easy(HintItems),

    /// These versions need this many days.
    AgeDays(u32, HintItems),

    /// Asks that these versions go out of testing.
    Remove(HintItems),

    /// Keeps all sources out.
    BlockAll,
}

impl Hint {
    /// An equal hint.
    pub fn copy(&self, alloc: Global) -> Result<Hint, NoMemory>
        ensures { IfOk result (λ h. h ≡ self.now) }
    {
        match self {
            Hint::Block(names) => Ok(Hint::Block(names.copy(alloc)?)),
            Hint::BlockAll => Ok(Hint::BlockAll),
            Hint::Unblock(items) => Ok(Hint::Unblock(items.copy(alloc)?)),
            Hint::Easy(items) => Ok(Hint::Easy(items.copy(alloc)?)),
            Hint::AgeDays(days, items) => Ok(Hint::AgeDays(*days, items.copy(alloc)?)),
            Hint::Remove(items) => Ok(Hint::Remove(items.copy(alloc)?)),
        }
    }
}

/// The binary packages of one build, in the order of their paragraphs.
pub type Binaries = Items<Binary>;

impl Binaries {
    /// Equal binaries.
    pub fn copy(&self, alloc: Global) -> Result<Binaries, NoMemory>
        ensures { IfOk result (λ binaries. binaries ≡ self.now) }
    {
        let binaries = self.as_slice();
        let mut copies = Vec::with_capacity(alloc, binaries.len())?;
        'each: for binary in binaries {
            copies.push(binary.copy(alloc)?)?;
        }
        Ok(Binaries::of(copies))
    }
}

/// The content of a message, apart from run orders.
#[derive(Drop)]
pub enum Item {
    /// A version of a source came to unstable.
    Upload {
        source: Text,
        version: Version,
        urgency: Urgency,
        day: Date,
    },

    /// A binary package left unstable, up to a version, on an architecture or on `all`.
    Dropped {
        name: Text,
        arch: Text,
        version: Version,
    },

    /// What was built.
    Build(Binaries),

    /// The state of a bug, with the versions where it was found and fixed, if known.
    Bug {
        bug: u32,
        source: Text,
        severity: Severity,
        found: Option<Version>,
        fixed: Option<Version>,
    },

    /// A wish.
    Hint(Hint),

    /// The hint with this number no longer holds.
    Unhint(u32),

    /// The days that an upload of each urgency waits, from 0 to 9,999. Emergency equals critical.
    Delays {
        low: u32,
        medium: u32,
        high: u32,
        critical: u32,
    },

    /// Nothing: the message only uses its number.
    Nothing,
}

impl Item {
    /// An equal item.
    pub fn copy(&self, alloc: Global) -> Result<Item, NoMemory>
        ensures { IfOk result (λ item. item ≡ self.now) }
    {
        match self {
            Item::Upload {
                source,
                version,
                urgency,
                day,
            } => copy_upload(alloc, source, version, *urgency, *day),
            Item::Dropped {
                name,
                arch,
                version,
            } => copy_drop(alloc, name, arch, version),
            Item::Build(binaries) => Ok(Item::Build(binaries.copy(alloc)?)),
            Item::Bug {
                bug,
                source,
                severity,
                found,
                fixed,
            } => copy_bug(
                alloc,
                *bug,
                source,
                *severity,
                found.as_ref(),
                fixed.as_ref(),
            ),
            Item::Hint(hint) => Ok(Item::Hint(hint.copy(alloc)?)),
            Item::Unhint(cancels) => Ok(Item::Unhint(*cancels)),
            Item::Delays {
                low,
                medium,
                high,
                critical,
            } => Ok(Item::Delays {
                low: *low,
                medium: *medium,
                high: *high,
                critical: *critical,
            }),
            Item::Nothing => Ok(Item::Nothing),
        }
    }
}

/// An upload of equal texts.
fn copy_upload(
    alloc: Global,
    source: &Text,
    version: &Version,
    urgency: Urgency,
    day: Date,
) -> Result<Item, NoMemory>
    ensures { IfOk result (λ item. item ≡ Upload source.now version.now urgency day) }
{
    Ok(Item::Upload {
        source: source.copy(alloc)?,
        version: version.copy(alloc)?,
        urgency,
        day,
    })
}

/// A drop of equal texts.
fn copy_drop(alloc: Global, name: &Text, arch: &Text, version: &Version) -> Result<Item, NoMemory>
    ensures { IfOk result (λ item. item ≡ Dropped name.now arch.now version.now) }
{
    Ok(Item::Dropped {
        name: name.copy(alloc)?,
        arch: arch.copy(alloc)?,
        version: version.copy(alloc)?,
    })
}

/// The state of a bug, in equal texts.
fn copy_bug(
    alloc: Global,
    bug: u32,
    source: &Text,
    severity: Severity,
    found: Option<&Version>,
    fixed: Option<&Version>,
) -> Result<Item, NoMemory>
    ensures { IfOk result (λ item. item ≡ Bug bug source.now severity (option_copied found.entry) (option_copied fixed.entry)) }
{
    Ok(Item::Bug {
        bug,
        source: source.copy(alloc)?,
        severity,
        found: copy_version(alloc, found)?,
        fixed: copy_version(alloc, fixed)?,
    })
}
