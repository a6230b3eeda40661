//! Equal lists of the facts, in their own memory.

ghost use Rattle.std.specs.Prelude.{◌≡◌, ◌+◌, ◌≤◌, IfOk, vec_len, vec_capacity};
ghost use Rattle.testing_rules_model.specs.Boxed.{unboxed};

use deb_version::NoMemory;
use std::alloc::Global;
use testing_rules_fact_order::Log;
use testing_rules_model::{BugIn, DropIn, HintIn, UnhintIn, UploadIn};

/// Everything said except about unstable.
#[derive(Drop)]
pub struct CopiedLists {
    pub drops: Vec<Box<DropIn>>,
    pub bugs: Vec<Box<BugIn>>,
    pub hints: Vec<HintIn>,
    pub unhints: Vec<UnhintIn>,
}

/// A value that can be copied into its own memory.
pub trait Copied: Drop {
    /// An equal value. NoMemory if memory runs out.
    fn copied(&self, alloc: Global) -> Result<Self, NoMemory>
        ensures { IfOk result (λ copy. copy ≡ self.now) };
}

impl Copied for UploadIn {
    fn copied(&self, alloc: Global) -> Result<UploadIn, NoMemory> {
        self.copy(alloc)
    }
}

impl Copied for DropIn {
    fn copied(&self, alloc: Global) -> Result<DropIn, NoMemory> {
        self.copy(alloc)
    }
}

impl Copied for BugIn {
    fn copied(&self, alloc: Global) -> Result<BugIn, NoMemory> {
        self.copy(alloc)
    }
}

impl Copied for HintIn {
    fn copied(&self, alloc: Global) -> Result<HintIn, NoMemory> {
        self.copy(alloc)
    }
}

/// Equal values.
pub fn copy_all<T: Copied>(alloc: Global, values: &[T]) -> Result<Vec<T>, NoMemory>
    ensures { IfOk result (λ copies. copies.items ≡ values.now) }
{
    let mut copies = Vec::with_capacity(alloc, values.len())?;
    for value in values {
        copies.push(value.copied(alloc)?)?;
    }
    Ok(copies)
}

/// Equal values in their own boxes.
pub fn copy_boxed<T: Copied>(alloc: Global, values: &[Box<T>]) -> Result<Vec<Box<T>>, NoMemory>
    ensures { IfOk result (λ copies. unboxed copies.items ≡ unboxed values.now) }
{
    let mut copies = Vec::with_capacity(alloc, values.len())?;
    for value in values {
        let copy = value.copied(alloc)?;
        copies.push(Box::new(alloc, copy)?)?;
    }
    Ok(copies)
}

/// Equal lists of everything said except about unstable.
pub fn copy_said(
    alloc: Global,
    drops: &[Box<DropIn>],
    bugs: &[Box<BugIn>],
    hints: &[HintIn],
    unhints: &[UnhintIn],
) -> Result<CopiedLists, NoMemory>
    ensures drops { IfOk result (λ said. unboxed said.drops.items ≡ unboxed drops.now) }
    ensures bugs { IfOk result (λ said. unboxed said.bugs.items ≡ unboxed bugs.now) }
    ensures hints { IfOk result (λ said. said.hints.items ≡ hints.now) }
    ensures unhints { IfOk result (λ said. said.unhints.items ≡ unhints.now) }
{
    let mut copies = Vec::new(alloc);
    copies.extend_from_slice(unhints)?;
    let drops = copy_boxed(alloc, drops)?;
    let bugs = copy_boxed(alloc, bugs)?;
    let hints = copy_all(alloc, hints)?;
    Ok(CopiedLists {
        drops,
        bugs,
        hints,
        unhints: copies,
    })
}

/// An equal log, with room for the rows of this many uploads among those that left.
pub fn copy_log(alloc: Global, log: &Log, uploads: usize) -> Result<Log, NoMemory>
    ensures came { IfOk result (λ copy. copy.came.items ≡ log.now.came.items) }
    ensures left { IfOk result (λ copy. copy.left.items ≡ log.now.left.items) }
    ensures room { IfOk result (λ copy. vec_len copy.left + uploads ≤ vec_capacity copy.left) }
{
    let mut copy = Log::new(alloc);
    copy.came.extend_from_slice(&log.came)?;
    copy.left.extend_from_slice(&log.left)?;
    copy.reserve(uploads, 0)?;
    Ok(copy)
}
