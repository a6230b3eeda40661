//! Facts: what a run needs to know about the covered messages.

ghost use Rattle.std.specs.Prelude.{◌≡◌, IfOk};

use crate::shared_binary::SharedBinary;
use deb_control::Text;
use deb_version::{NoMemory, Version};
use jiff_core::civil::Date;
use std::alloc::Global;
use testing_rules_items::{Hint, Severity, Urgency, copy_version};

/// An upload, and its message.
#[derive(Drop)]
pub struct UploadIn {
    pub source: Text,
    pub version: Version,
    pub urgency: Urgency,
    pub day: Date,
    pub sender: u32,
    pub number: u32,
}

/// A build's binary, and its paragraph.
#[derive(Drop)]
pub struct BuildIn {
    pub binary: SharedBinary,
    pub sender: u32,
    pub number: u32,
    pub place: u32,
}

/// A drop, and its message.
#[derive(Drop)]
pub struct DropIn {
    pub name: Text,
    pub arch: Text,
    pub version: Version,
    pub sender: u32,
    pub number: u32,
}

/// A bug's state, and its message.
#[derive(Drop)]
pub struct BugIn {
    pub bug: u32,
    pub source: Text,
    pub severity: Severity,
    pub found: Option<Version>,
    pub fixed: Option<Version>,
    pub sender: u32,
    pub number: u32,
}

/// A hint, and its message.
#[derive(Drop)]
pub struct HintIn {
    pub hint: Hint,
    pub sender: u32,
    pub number: u32,
}

/// An unhint, and its message.
#[derive(Clone, Copy, Debug, PartialEq, Eq)]
pub struct UnhintIn {
    pub cancels: u32,
    pub sender: u32,
    pub number: u32,
}

/// The days that an upload waits, by its urgency. Emergency equals critical.
#[derive(Clone, Copy, Debug, PartialEq, Eq)]
pub struct Delays {
    pub low: u32,
    pub medium: u32,
    pub high: u32,
    pub critical: u32,
}

/// Delays, and their message.
#[derive(Clone, Copy, Debug, PartialEq, Eq)]
pub struct DelaysIn {
    pub delays: Delays,
    pub sender: u32,
    pub number: u32,
}

impl DropIn {
    /// An equal drop.
    pub fn copy(&self, alloc: Global) -> Result<DropIn, NoMemory>
        ensures { IfOk result (λ d. d ≡ self.now) }
    {
        Ok(DropIn {
            name: self.name.copy(alloc)?,
            arch: self.arch.copy(alloc)?,
            version: self.version.copy(alloc)?,
            sender: self.sender,
            number: self.number,
        })
    }
}

impl HintIn {
    /// An equal hint.
    pub fn copy(&self, alloc: Global) -> Result<HintIn, NoMemory>
        ensures { IfOk result (λ h. h ≡ self.now) }
    {
        Ok(HintIn {
            hint: self.hint.copy(alloc)?,
            sender: self.sender,
            number: self.number,
        })
    }
}

impl BugIn {
    /// An equal message on a bug.
    pub fn copy(&self, alloc: Global) -> Result<BugIn, NoMemory>
        ensures { IfOk result (λ b. b ≡ self.now) }
    {
        Ok(BugIn {
            bug: self.bug,
            source: self.source.copy(alloc)?,
            severity: self.severity,
            found: copy_version(alloc, self.found.as_ref())?,
            fixed: copy_version(alloc, self.fixed.as_ref())?,
            sender: self.sender,
            number: self.number,
        })
    }
}

impl UploadIn {
    /// An equal upload.
    pub fn copy(&self, alloc: Global) -> Result<UploadIn, NoMemory>
        ensures { IfOk result (λ u. u ≡ self.now) }
    {
        Ok(UploadIn {
            source: Text::from_str(alloc, self.source.as_str())?,
            version: self.version.copy(alloc)?,
            urgency: self.urgency,
            day: self.day,
            sender: self.sender,
            number: self.number,
        })
    }
}
