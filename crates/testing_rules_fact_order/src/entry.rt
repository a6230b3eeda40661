//! What one message gives to the facts.

ghost use Rattle.std.specs.Prelude.{◌≡◌, ◌+◌, IfOk};
ghost use Rattle.testing_rules_model.specs.Covered.{CoveredItem, placed_from};
ghost use Rattle.testing_rules_fact_order.specs.steps.Entries as entries;

use deb_control::{Binary, Text};
use deb_version::{NoMemory, Version};
use jiff_core::civil::Date;
use std::alloc::Global;
use testing_rules_items::{Binaries, Hint, Item, Items, Severity, Urgency};
use testing_rules_model::{
    BugIn, BuildIn, Delays, DelaysIn, DropIn, HintIn, SharedBinary, UnhintIn, UploadIn,
};

/// The builds of one message, in order.
pub type Builds = Items<BuildIn>;

/// A message in the form that the facts keep.
#[derive(Drop)]
pub enum FactUpdate {
    Upload(UploadIn),
    Dropped(DropIn),
    Build(Builds),
    Bug(BugIn),
    Hint(HintIn),
    Unhint(UnhintIn),
    Delays(DelaysIn),
    Nothing,
}

/// The place after this one, or an error after the greatest number.
fn next_place(place: u32) -> Result<u32, NoMemory>
    ensures { IfOk result (λ next. next ≡ place + 1) }
{
    match place.checked_add(1) {
        Some(next) => Ok(next),
        None => Err(NoMemory),
    }
}

/// The binaries of a build with their places, from 1.
fn placed(
    alloc: Global,
    sender: u32,
    number: u32,
    binaries: Vec<Binary>,
) -> Result<Vec<BuildIn>, NoMemory>
    ensures { IfOk result (λ builds. builds.items ≡ placed_from 1 sender number binaries.items) }
{
    let mut builds = Vec::with_capacity(alloc, binaries.len())?;
    let mut place = 1;
    'binaries: for binary in binaries {
        builds.push(BuildIn {
            binary: SharedBinary::of(alloc, binary)?,
            sender,
            number,
            place,
        })?;
        place = next_place(place)?;
    }
    Ok(builds)
}

/// The sender and the number of a message, and the place of its kept part.
#[derive(Clone, Copy)]
pub struct Sent {
    pub alloc: Global,
    pub sender: u32,
    pub number: u32,
}

impl Sent {
    /// An upload.
    pub fn upload(self, source: Text, version: Version, urgency: Urgency, day: Date) -> UploadIn
        ensures { result ≡ record { source = source; version = version; urgency = urgency; day = day; sender = self.sender; number = self.number } }
    {
        UploadIn {
            source,
            version,
            urgency,
            day,
            sender: self.sender,
            number: self.number,
        }
    }

    /// A drop.
    pub fn dropped(self, name: Text, arch: Text, version: Version) -> DropIn
        ensures { result ≡ record { name = name; arch = arch; version = version; sender = self.sender; number = self.number } }
    {
        DropIn {
            name,
            arch,
            version,
            sender: self.sender,
            number: self.number,
        }
    }

    /// A message on a bug.
    pub fn bug(
        self,
        bug: u32,
        source: Text,
        severity: Severity,
        found: Option<Version>,
        fixed: Option<Version>,
    ) -> BugIn
        ensures { result ≡ record { bug = bug; source = source; severity = severity; found = found; fixed = fixed; sender = self.sender; number = self.number } }
    {
        BugIn {
            bug,
            source,
            severity,
            found,
            fixed,
            sender: self.sender,
            number: self.number,
        }
    }

    /// A hint.
    pub fn hint(self, hint: Hint) -> HintIn
        ensures { result ≡ record { hint = hint; sender = self.sender; number = self.number } }
    {
        HintIn {
            hint,
            sender: self.sender,
            number: self.number,
        }
    }

    /// The builds, which take over the binaries.
    fn builds(self, binaries: Binaries) -> Result<Builds, NoMemory>
        ensures { IfOk result (λ builds. builds ≡ placed_from 1 self.sender self.number binaries) }
    {
        let builds = placed(self.alloc, self.sender, self.number, binaries.into_vec())?;
        Ok(Builds::of(builds))
    }

    /// An unhint.
    pub fn unhint(self, cancels: u32) -> UnhintIn
        ensures { result ≡ record { cancels = cancels; sender = self.sender; number = self.number } }
    {
        UnhintIn {
            cancels,
            sender: self.sender,
            number: self.number,
        }
    }

    /// A message on delays.
    pub fn delays(self, low: u32, medium: u32, high: u32, critical: u32) -> DelaysIn
        ensures { result ≡ record { delays = record { low = low; medium = medium; high = high; critical = critical }; sender = self.sender; number = self.number } }
    {
        DelaysIn {
            delays: Delays {
                low,
                medium,
                high,
                critical,
            },
            sender: self.sender,
            number: self.number,
        }
    }
}

/// What the message gives. It takes the item by value, so that no text is copied.
pub fn entry_of(sent: Sent, item: Item) -> Result<FactUpdate, NoMemory>
    ensures { IfOk result (λ e. let m : CoveredItem = record { sender = sent.sender; number = sent.number; item = item } in e ≡ entries.entry_of m) }
{
    match item {
        Item::Upload {
            source,
            version,
            urgency,
            day,
        } => Ok(FactUpdate::Upload(sent.upload(source, version, urgency, day))),
        Item::Dropped {
            name,
            arch,
            version,
        } => Ok(FactUpdate::Dropped(sent.dropped(name, arch, version))),
        Item::Build(binaries) => Ok(FactUpdate::Build(sent.builds(binaries)?)),
        Item::Bug {
            bug,
            source,
            severity,
            found,
            fixed,
        } => Ok(FactUpdate::Bug(sent.bug(bug, source, severity, found, fixed))),
        Item::Hint(hint) => Ok(FactUpdate::Hint(sent.hint(hint))),
        Item::Unhint(cancels) => Ok(FactUpdate::Unhint(sent.unhint(cancels))),
        Item::Delays {
            low,
            medium,
            high,
            critical,
        } => Ok(FactUpdate::Delays(sent.delays(low, medium, high, critical))),
        Item::Nothing => Ok(FactUpdate::Nothing),
    }
}
