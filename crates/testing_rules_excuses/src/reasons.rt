//! What keeps a source out.

ghost use Rattle.std.specs.Prelude.{◌≡◌, ◌==◌, ◌&&◌, ◌++◌, OnOk, IfOk, filter, option_copied, length, map};
ghost use Rattle.testing_rules_model.specs.Unstable as unstable;
ghost use Rattle.testing_rules_model.specs.Unstable.{place_numbers};
ghost use Rattle.std.specs.List.{list_any};
ghost use Rattle.std.specs.Str.{bytes_eq};
ghost use Rattle.testing_rules_model.specs.Excuses as rules;
ghost use Rattle.testing_rules_model.specs.steps.Excuses as rules_steps;
ghost use Rattle.testing_rules_model.specs.JudgedRows.{row_of, lent};
ghost use Rattle.testing_rules_items.specs.Words.{only_if};
ghost use Rattle.testing_rules_model.specs.declared.excuse.Reason.TheVariants.{TooYoung, NewBug, NoBinaries, MissingOn, Blocked, RemovalAsked};

use deb_control::Text;
use deb_version::{NoMemory, Version};
use std::alloc::{AllocError, Global};
use testing_rules_facts::{is_above, is_current, is_of_source, is_same_version};
use testing_rules_items::{ALL, Archs, Hint, HintItem, Severity};
use testing_rules_model::{BugIn, HintIn, LentRow, Reason, Reasons, UploadIn};

/// An item names the source at the version.
pub fn is_named(items: &[HintItem], name: &str, version: &Version) -> bool
    ensures { result ≡ rules.is_named items.now name.now version.now }
{
    items.iter().any(|item| item.name.as_str() == name && is_same_version(&item.version, version))
}

fn has_name(names: &[Text], name: &str) -> bool
    ensures { result ≡ list_any (bytes_eq name.now) names.now }
{
    names.iter().any(|other| name == other.as_str())
}

/// The hint keeps the source out.
pub fn blocks(name: &str, hint: &Hint) -> bool
    ensures { result ≡ rules.blocks name.now hint.now }
{
    match hint {
        Hint::Block(names) => has_name(names.as_slice(), name),
        Hint::BlockAll => true,
        Hint::Unblock(_) | Hint::Easy(_) | Hint::AgeDays(_, _) | Hint::Remove(_) => false,
    }
}

fn unblocks(name: &str, version: &Version, hint: &Hint) -> bool
    ensures { result ≡ rules.unblocks name.now version.now hint.now }
{
    match hint {
        Hint::Unblock(items) => is_named(items.as_slice(), name, version),
        Hint::Block(_) | Hint::BlockAll | Hint::Easy(_) | Hint::AgeDays(_, _) | Hint::Remove(_) =>
            false,
    }
}

/// The hint asks to remove the source at the version.
pub fn removes(name: &str, version: &Version, hint: &Hint) -> bool
    ensures { result ≡ rules.removes name.now version.now hint.now }
{
    match hint {
        Hint::Remove(items) => is_named(items.as_slice(), name, version),
        Hint::Block(_) | Hint::BlockAll | Hint::Unblock(_) | Hint::Easy(_) | Hint::AgeDays(_, _) =>
            false,
    }
}

fn asks_block(hints: &[HintIn], name: &str) -> bool
    ensures { result ≡ rules_steps.asks_block hints.now name.now }
{
    hints.iter().any(|hint| blocks(name, &hint.hint))
}

fn lifts_block(hints: &[HintIn], name: &str, version: &Version) -> bool
    ensures { result ≡ rules_steps.lifts_block hints.now name.now version.now }
{
    hints.iter().any(|hint| unblocks(name, version, &hint.hint))
}

fn is_blocked(hints: &[HintIn], upload: &UploadIn) -> bool
    ensures { result ≡ rules.is_blocked hints.now upload.now }
{
    let name = upload.source.as_str();
    asks_block(hints, name) && !lifts_block(hints, name, &upload.version)
}

fn asks_removal(hints: &[HintIn], name: &str, version: &Version) -> bool
    ensures { result ≡ rules.asks_removal hints.now name.now version.now }
{
    hints.iter().any(|hint| removes(name, version, &hint.hint))
}

fn is_removal_asked(hints: &[HintIn], testing: Option<&Version>, upload: &UploadIn) -> bool
    ensures { result ≡ rules.is_removal_asked hints.now (option_copied testing.entry) upload.now }
{
    let name = upload.source.as_str();
    asks_removal(hints, name, &upload.version)
        || match testing {
            Some(version) => asks_removal(hints, name, version),
            None => false,
        }
}

fn is_release_critical(severity: Severity) -> bool
    ensures { result ≡ unstable.is_release_critical severity }
{
    match severity {
        Severity::Critical | Severity::Grave | Severity::Serious => true,
        Severity::Important | Severity::Normal | Severity::Minor | Severity::Wishlist => false,
    }
}

/// The bug affects the version.
fn affects(bug: &BugIn, version: &Version) -> bool
    ensures { result ≡ unstable.affects bug.now version.now }
{
    let is_found = match &bug.found {
        Some(found) => !is_above(found, version),
        None => true,
    };
    let is_unfixed = match &bug.fixed {
        Some(fixed) => is_above(fixed, version),
        None => true,
    };
    is_found && is_unfixed
}

fn is_new_bug(testing: Option<&Version>, upload: &UploadIn, bug: &BugIn) -> bool
    ensures { result ≡ rules.is_new_bug (option_copied testing.entry) upload.now bug.now }
{
    bug.source.as_str() == upload.source.as_str()
        && is_release_critical(bug.severity)
        && affects(bug, &upload.version)
        && match testing {
            Some(version) => !affects(bug, version),
            None => true,
        }
}

/// One of the rows is of the architecture and names the source.
fn one_on(rows: &[LentRow], upload: &UploadIn, arch: u32) -> bool
    ensures { result ≡ list_any (λ r. (r.arch == arch) && unstable.is_of_source upload.now (row_of r)) rows.now }
{
    rows.iter()
        .any(|row| row.arch == arch && is_of_source(upload, row))
}

/// One of the rows is of the architecture and current.
fn one_current_on(rows: &[LentRow], upload: &UploadIn, arch: u32) -> bool
    ensures { result ≡ list_any (λ r. (r.arch == arch) && unstable.is_current upload.now (row_of r)) rows.now }
{
    rows.iter()
        .any(|row| row.arch == arch && is_current(upload, row))
}

/// One of the rows is current.
fn one_current(rows: &[LentRow], upload: &UploadIn) -> bool
    ensures { result ≡ list_any (λ r. unstable.is_current upload.now (row_of r)) rows.now }
{
    rows.iter().any(|row| is_current(upload, row))
}

/// The source has a row of the architecture.
fn has_row_on(rows: &[LentRow], upload: &UploadIn, arch: u32) -> bool
    ensures { result ≡ rules_steps.has_row_on (lent rows.now) upload.now arch }
{
    one_on(rows, upload, arch)
}

/// The source has a current row of the architecture.
fn has_current_on(rows: &[LentRow], upload: &UploadIn, arch: u32) -> bool
    ensures { result ≡ rules_steps.has_current_on (lent rows.now) upload.now arch }
{
    one_current_on(rows, upload, arch)
}

/// The source has rows of the architecture, and none of them is current.
fn is_missing_on(rows: &[LentRow], upload: &UploadIn, arch: u32) -> bool
    ensures { result ≡ rules.is_missing_on (lent rows.now) upload.now arch }
{
    has_row_on(rows, upload, arch) && !has_current_on(rows, upload, arch)
}

/// Some row of the source is current.
fn has_current(rows: &[LentRow], upload: &UploadIn) -> bool
    ensures { result ≡ rules.has_current (lent rows.now) upload.now }
{
    one_current(rows, upload)
}

fn push_if(reasons: &mut Vec<Reason>, holds: bool, reason: Reason) -> Result<(), AllocError>
    ensures { OnOk result (reasons.new.items ≡ reasons.old.items ++ only_if holds reason) }
{
    if holds {
        reasons.push(reason)?;
    }
    Ok(())
}

fn push_bugs(
    reasons: &mut Vec<Reason>,
    bugs: &[BugIn],
    testing: Option<&Version>,
    upload: &UploadIn,
) -> Result<(), AllocError>
    ensures { OnOk result (reasons.new.items ≡ reasons.old.items ++ map (λ b. NewBug b.bug) (filter (rules.is_new_bug (option_copied testing.entry) upload.now) bugs.now)) }
{
    for bug in bugs {
        if is_new_bug(testing, upload, bug) {
            reasons.push(Reason::NewBug(bug.bug))?;
        }
    }
    Ok(())
}

/// Adds the listed architectures, from a place on, where the source is missing.
fn push_missing(
    reasons: &mut Vec<Reason>,
    archs: &Archs,
    rows: &[LentRow],
    upload: &UploadIn,
) -> Result<(), AllocError>
    ensures { OnOk result (reasons.new.items ≡ reasons.old.items ++ map (λ a. MissingOn a) (filter (rules.is_missing_on (lent rows.now) upload.now) (place_numbers archs.now))) }
{
    for arch in 0..archs.len() {
        push_if(
            reasons,
            is_missing_on(rows, upload, arch),
            Reason::MissingOn(arch),
        )?;
    }
    push_if(
        reasons,
        is_missing_on(rows, upload, ALL),
        Reason::MissingOn(ALL),
    )
}

/// What a run knows about one source besides its unstable upload.
#[derive(Clone, Copy)]
pub struct Known<'g, 'a> {
    pub rows: &'g [LentRow<'a>],
    pub bugs: &'g [BugIn],
    pub hints: &'g [HintIn],
    pub testing: Option<&'g Version>,
}

/// What keeps an unstable source out.
pub fn reasons_of(
    alloc: Global,
    archs: &Archs,
    known: &Known,
    is_young: bool,
    upload: &UploadIn,
) -> Result<Reasons, NoMemory>
    ensures { IfOk result (λ r. r ≡ rules.reasons_of (place_numbers archs.now) (lent known.now.rows.now) known.now.bugs.now known.now.hints.now (option_copied known.now.testing) is_young upload.now) }
{
    let mut reasons = Vec::new(alloc);
    push_if(&mut reasons, is_young, Reason::TooYoung)?;
    push_bugs(&mut reasons, known.bugs, known.testing, upload)?;
    push_if(
        &mut reasons,
        !has_current(known.rows, upload),
        Reason::NoBinaries,
    )?;
    push_missing(&mut reasons, archs, known.rows, upload)?;
    push_if(
        &mut reasons,
        is_blocked(known.hints, upload),
        Reason::Blocked,
    )?;
    let asked = is_removal_asked(known.hints, known.testing, upload);
    push_if(&mut reasons, asked, Reason::RemovalAsked)?;
    Ok(Reasons::of(reasons))
}
