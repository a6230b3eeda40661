//! The messages that gave a reason to keep a source out.

ghost use Rattle.std.specs.Prelude.{◌≡◌, ◌==◌, ◌&&◌, ◌++◌, true, IfOk, OnOk, map, option_copied};
ghost use Rattle.testing_rules_model.specs.Boxed.{unboxed};
ghost use Rattle.testing_rules_model.specs.steps.FactOrder.{AreByNumber};
ghost use Rattle.testing_rules_model.specs.JudgedRows.{lent, row_of};
ghost use Rattle.testing_rules_excuses.specs.Origins as rules;
ghost use Rattle.testing_rules_excuses.specs.steps.Origins.{origin_of};
ghost use Rattle.testing_rules_excuses.specs.steps.Said.{said_lists};

use crate::bug_search::bug_at;
use crate::days::asked_days;
use crate::reasons::{blocks, removes};
use crate::source_facts::SourceFacts;
use deb_version::{NoMemory, Version};
use std::alloc::{AllocError, Global};
use testing_rules_facts::is_of_source;
use testing_rules_model::{BugIn, HintIn, LentRow, Reason, UploadIn};

/// A message that gave a reason.
#[derive(Clone, Copy)]
pub enum Origin<'g, 'a> {
    /// The last message on a bug.
    Bug(&'a BugIn),

    /// A row that isn't current, and the message that gave it.
    Row(LentRow<'a>),

    /// A hint in force that keeps the source out.
    Block(&'g HintIn),

    /// A hint in force that asks to remove it.
    Removal(&'g HintIn),
}

/// Adds the one bug with the number. It is searched, since a source may have a reason for each of thousands of bugs.
fn push_bug<'a>(
    origins: &mut Vec<Origin<'_, 'a>>,
    bugs: &'a [Box<BugIn>],
    number: u32,
) -> Result<(), AllocError>
    requires { AreByNumber (unboxed bugs.now) }
    ensures { OnOk result (map origin_of origins.new.items ≡ map origin_of origins.old.items ++ rules.from_bugs number (unboxed bugs.now)) }
{
    if let Some(bug) = bug_at(bugs, number) {
        origins.push(Origin::Bug(bug))?;
    }
    Ok(())
}

fn push_bugs<'a>(
    origins: &mut Vec<Origin<'_, 'a>>,
    bugs: &'a [Box<BugIn>],
    number: u32,
) -> Result<(), AllocError>
    ensures { OnOk result (map origin_of origins.new.items ≡ map origin_of origins.old.items ++ rules.from_bugs number (unboxed bugs.now)) }
{
    for boxed in bugs {
        let bug: &BugIn = boxed;
        if bug.bug == number {
            origins.push(Origin::Bug(bug))?;
        }
    }
    Ok(())
}

/// Adds the bugs with the number. If the input says that they are ordered, they are.
fn push_by_number<'a>(
    origins: &mut Vec<Origin<'_, 'a>>,
    bugs: &'a [Box<BugIn>],
    ordered: bool,
    number: u32,
) -> Result<(), AllocError>
    requires { ordered ≡ true → AreByNumber (unboxed bugs.now) }
    ensures { OnOk result (map origin_of origins.new.items ≡ map origin_of origins.old.items ++ rules.from_bugs number (unboxed bugs.now)) }
{
    if ordered {
        push_bug(origins, bugs, number)
    } else {
        push_bugs(origins, bugs, number)
    }
}

/// The row is of the architecture and names the source.
fn is_row_of(upload: &UploadIn, arch: u32, row: &LentRow) -> bool
    ensures { result ≡ rules.is_row_of upload.now arch (row_of row.now) }
{
    row.arch == arch && is_of_source(upload, row)
}

fn push_rows<'a>(
    origins: &mut Vec<Origin<'_, 'a>>,
    rows: &[LentRow<'a>],
    upload: &UploadIn,
    arch: u32,
) -> Result<(), AllocError>
    ensures { OnOk result (map origin_of origins.new.items ≡ map origin_of origins.old.items ++ rules.from_rows upload.now arch (lent rows.now)) }
{
    for row in rows {
        if is_row_of(upload, arch, row) {
            origins.push(Origin::Row(*row))?;
        }
    }
    Ok(())
}

fn push_blocks<'g>(
    origins: &mut Vec<Origin<'g, '_>>,
    hints: &'g [HintIn],
    upload: &UploadIn,
) -> Result<(), AllocError>
    ensures { OnOk result (map origin_of origins.new.items ≡ map origin_of origins.old.items ++ rules.from_blocks upload.now hints.now) }
{
    for hint in hints {
        if blocks(upload.source.as_str(), &hint.hint) {
            origins.push(Origin::Block(hint))?;
        }
    }
    Ok(())
}

/// The hint asks to remove the source, at its unstable version or at testing's.
fn asks_removal(upload: &UploadIn, testing: Option<&Version>, hint: &HintIn) -> bool
    ensures { result ≡ rules.asks_removal upload.now (option_copied testing.entry) hint.now }
{
    let name = upload.source.as_str();
    removes(name, &upload.version, &hint.hint)
        || match testing {
            Some(version) => removes(name, version, &hint.hint),
            None => false,
        }
}

fn push_removals<'g>(
    origins: &mut Vec<Origin<'g, '_>>,
    hints: &'g [HintIn],
    upload: &UploadIn,
    testing: Option<&Version>,
) -> Result<(), AllocError>
    ensures { OnOk result (map origin_of origins.new.items ≡ map origin_of origins.old.items ++ rules.from_removals upload.now (option_copied testing.entry) hints.now) }
{
    for hint in hints {
        if asks_removal(upload, testing, hint) {
            origins.push(Origin::Removal(hint))?;
        }
    }
    Ok(())
}

fn push_origins<'g, 'a>(
    origins: &mut Vec<Origin<'g, 'a>>,
    said: &'g SourceFacts<'a>,
    ordered: bool,
    upload: &UploadIn,
    reason: Reason,
) -> Result<(), AllocError>
    requires { ordered ≡ true → AreByNumber (unboxed said.now.bugs.now) }
    ensures { OnOk result (map origin_of origins.new.items ≡ map origin_of origins.old.items ++ rules.origins_of (said_lists said.now) upload.now reason) }
{
    match reason {
        Reason::NewBug(number) => push_by_number(origins, said.bugs, ordered, number),
        Reason::MissingOn(arch) => push_rows(origins, &said.rows, upload, arch),
        Reason::Blocked => push_blocks(origins, &said.hints, upload),
        Reason::RemovalAsked => push_removals(origins, &said.hints, upload, said.testing),
        Reason::TooYoung | Reason::NoBinaries => Ok(()),
    }
}

/// The messages that gave the reason, in the order of the facts. If the bugs are known to be ordered by number, one is
/// found by binary search. The only error is running out of memory.
pub fn origins_by<'g, 'a>(
    alloc: Global,
    said: &'g SourceFacts<'a>,
    ordered: bool,
    upload: &UploadIn,
    reason: Reason,
) -> Result<Vec<Origin<'g, 'a>>, NoMemory>
    requires { ordered ≡ true → AreByNumber (unboxed said.now.bugs.now) }
    ensures { IfOk result (λ origins. map origin_of origins.items ≡ rules.origins_of (said_lists said.now) upload.now reason) }
{
    let mut origins = Vec::new(alloc);
    push_origins(&mut origins, said, ordered, upload, reason)?;
    Ok(origins)
}

/// The messages that gave the reason, in the order of the facts. No message gives `TooYoung` and `NoBinaries`. The only
/// error is running out of memory.
pub fn origins<'g, 'a>(
    alloc: Global,
    said: &'g SourceFacts<'a>,
    upload: &UploadIn,
    reason: Reason,
) -> Result<Vec<Origin<'g, 'a>>, NoMemory>
    ensures { IfOk result (λ origins. map origin_of origins.items ≡ rules.origins_of (said_lists said.now) upload.now reason) }
{
    origins_by(alloc, said, false, upload, reason)
}

/// The hint asks for days for the source at its unstable version.
fn asks_days(upload: &UploadIn, hint: &HintIn) -> bool
    ensures { result ≡ rules.asks_days upload.now hint.now }
{
    asked_days(upload.source.as_str(), &upload.version, &hint.hint).is_some()
}

/// The last hint that asks for days for the source at its unstable version.
pub fn age_hint<'a>(hints: &'a [HintIn], upload: &UploadIn) -> Option<&'a HintIn>
    ensures { option_copied result ≡ rules.age_hint hints.now upload.now }
{
    let mut last = None;
    for hint in hints {
        if asks_days(upload, hint) {
            last = Some(hint);
        }
    }
    last
}
