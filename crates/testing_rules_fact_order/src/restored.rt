//! The content of a message, for one kind only: the restored fact of a kept row.

ghost use Rattle.std.specs.Prelude.{◌≡◌, ◌==◌, ℕ, IfOk, find, option_copied, option_map};
ghost use Rattle.testing_rules_fact_order.specs.steps.Entries.{placed_at};
ghost use Rattle.testing_rules_model.specs.Covered as covered;
ghost use Rattle.testing_rules_model.specs.Covered.{CoveredItem, placed_from};

use crate::entry::Sent;
use deb_control::Binary;
use deb_version::NoMemory;
use testing_rules_items::{Item, copy_version};
use testing_rules_model::{
    BugIn, BuildIn, DelaysIn, DropIn, HintIn, SharedBinary, UnhintIn, UploadIn,
};

/// The upload, if the message is one.
pub fn said_upload(sent: Sent, item: &Item) -> Result<Option<UploadIn>, NoMemory>
    ensures { IfOk result (λ said. let m : CoveredItem = record { sender = sent.sender; number = sent.number; item = item.now } in said ≡ covered.upload_of m) }
{
    match item {
        Item::Upload {
            source,
            version,
            urgency,
            day,
        } => {
            let source = source.copy(sent.alloc)?;
            let version = version.copy(sent.alloc)?;
            Ok(Some(sent.upload(source, version, *urgency, *day)))
        }
        _ => Ok(None),
    }
}

/// The drop, if the message is one.
pub fn said_drop(sent: Sent, item: &Item) -> Result<Option<DropIn>, NoMemory>
    ensures { IfOk result (λ said. let m : CoveredItem = record { sender = sent.sender; number = sent.number; item = item.now } in said ≡ covered.drop_of m) }
{
    match item {
        Item::Dropped {
            name,
            arch,
            version,
        } => {
            let name = name.copy(sent.alloc)?;
            let arch = arch.copy(sent.alloc)?;
            let version = version.copy(sent.alloc)?;
            Ok(Some(sent.dropped(name, arch, version)))
        }
        _ => Ok(None),
    }
}

/// What the message says about a bug, if it does.
pub fn said_bug(sent: Sent, item: &Item) -> Result<Option<BugIn>, NoMemory>
    ensures { IfOk result (λ said. let m : CoveredItem = record { sender = sent.sender; number = sent.number; item = item.now } in said ≡ covered.bug_of m) }
{
    match item {
        Item::Bug {
            bug,
            source,
            severity,
            found,
            fixed,
        } => {
            let source = source.copy(sent.alloc)?;
            let found = copy_version(sent.alloc, found.as_ref())?;
            let fixed = copy_version(sent.alloc, fixed.as_ref())?;
            Ok(Some(sent.bug(*bug, source, *severity, found, fixed)))
        }
        _ => Ok(None),
    }
}

/// The hint, if the message is one.
pub fn said_hint(sent: Sent, item: &Item) -> Result<Option<HintIn>, NoMemory>
    ensures { IfOk result (λ said. let m : CoveredItem = record { sender = sent.sender; number = sent.number; item = item.now } in said ≡ covered.hint_of m) }
{
    match item {
        Item::Hint(hint) => Ok(Some(sent.hint(hint.copy(sent.alloc)?))),
        _ => Ok(None),
    }
}

/// The unhint, if the message is one.
pub fn said_unhint(sent: Sent, item: &Item) -> Option<UnhintIn>
    ensures { let m : CoveredItem = record { sender = sent.sender; number = sent.number; item = item.now } in result ≡ covered.unhint_of m }
{
    match item {
        Item::Unhint(cancels) => Some(sent.unhint(*cancels)),
        _ => None,
    }
}

/// The delays, if the message sets them.
pub fn said_delays(sent: Sent, item: &Item) -> Option<DelaysIn>
    ensures { let m : CoveredItem = record { sender = sent.sender; number = sent.number; item = item.now } in result ≡ covered.delays_of m }
{
    match item {
        Item::Delays {
            low,
            medium,
            high,
            critical,
        } => Some(sent.delays(*low, *medium, *high, *critical)),
        _ => None,
    }
}

/// The binary of the paragraph at a place, counted from 1.
fn binary_at(binaries: &[Binary], place: u32) -> Option<&Binary>
    ensures { (sender number : ℕ) → option_map (λ b. placed_at sender number b place) (option_copied result) ≡ find (λ b. b.place == place) (placed_from 1 sender number binaries.now) }
{
    match place.checked_sub(1) {
        Some(before) => binaries.get(before as usize),
        None => None,
    }
}

/// The build of the paragraph at a place, if there is one. Only its binary is copied.
fn build_at(sent: Sent, binaries: &[Binary], place: u32) -> Result<Option<BuildIn>, NoMemory>
    ensures { IfOk result (λ said. said ≡ find (λ b. b.place == place) (placed_from 1 sent.sender sent.number binaries.now)) }
{
    match binary_at(binaries, place) {
        Some(binary) => Ok(Some(BuildIn {
            binary: SharedBinary::copy_of(sent.alloc, binary)?,
            sender: sent.sender,
            number: sent.number,
            place,
        })),
        None => Ok(None),
    }
}

/// The build of the paragraph at a place, if the message has one.
pub fn said_build(sent: Sent, item: &Item, place: u32) -> Result<Option<BuildIn>, NoMemory>
    ensures { IfOk result (λ said. let m : CoveredItem = record { sender = sent.sender; number = sent.number; item = item.now } in said ≡ find (λ b. b.place == place) (covered.builds_of m)) }
{
    match item {
        Item::Build(binaries) => build_at(sent, binaries.as_slice(), place),
        _ => Ok(None),
    }
}
