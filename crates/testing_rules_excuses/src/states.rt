//! The states of the rows of unstable.

ghost use Rattle.std.specs.Prelude.{◌≡◌, IfOk, option_copied};
ghost use Rattle.std.specs.Str.{bytes_eq};
ghost use Rattle.testing_rules_items.specs.Words.{is_empty};
ghost use Rattle.testing_rules_model.specs.Boxed.{unboxed};
ghost use Rattle.testing_rules_model.specs.FactOrder.{AreBySource};
ghost use Rattle.testing_rules_model.specs.JudgedRows.{row_of};
ghost use Rattle.testing_rules_excuses.specs.States as rules;

use deb_version::NoMemory;
use std::alloc::{AllocError, Global};
use testing_rules_facts::{is_current, source_in};
use testing_rules_model::{Excuse, LentRow, Reason, Reasons, UploadIn};

/// The state of a row of unstable, after a run that left a source waiting.
#[derive(Drop)]
pub enum State {
    /// Its source is a candidate, and hasn't moved.
    Waits,

    /// Its source is kept out, for these reasons.
    NotCandidate(Reasons),

    /// It wasn't built from its source's unstable version.
    NotCurrent,

    /// It comes with the source in question.
    ComesToo,

    /// Testing has its source's unstable version, or one above it.
    InTesting,
}

/// The excuse is the source's.
fn is_of(excuse: &Excuse, name: &str) -> bool
    ensures { result ≡ bytes_eq excuse.now.source name.now }
{
    excuse.source.as_str() == name
}

/// The excuse of a source, among the excuses of a run.
pub fn excuse_of<'a>(excuses: &'a [Excuse], name: &str) -> Option<&'a Excuse>
    ensures { option_copied result ≡ rules.excuse_of excuses.now name.now }
{
    for excuse in excuses {
        if is_of(excuse, name) {
            return Some(excuse);
        }
    }
    None
}

/// No reason keeps the source out.
fn has_no_reason(excuse: &Excuse) -> bool
    ensures { result ≡ is_empty excuse.now.reasons }
{
    excuse.reasons.as_slice().is_empty()
}

/// Equal reasons.
fn copy_reasons(alloc: Global, reasons: &[Reason]) -> Result<Reasons, AllocError>
    ensures { IfOk result (λ copy. copy ≡ reasons.now) }
{
    let copy = Vec::from_slice(alloc, reasons)?;
    Ok(Reasons::of(copy))
}

/// The state of a source with an excuse.
fn excused(alloc: Global, excuse: &Excuse) -> Result<State, AllocError>
    ensures { IfOk result (λ state. state ≡ rules.excused excuse.now) }
{
    if has_no_reason(excuse) {
        Ok(State::Waits)
    } else {
        Ok(State::NotCandidate(copy_reasons(alloc, excuse.reasons.as_slice())?))
    }
}

/// The state of a current row of the source.
fn current_state(
    alloc: Global,
    excuses: &[Excuse],
    moving: &str,
    name: &str,
) -> Result<State, AllocError>
    ensures { IfOk result (λ state. state ≡ rules.current_state excuses.now moving.now name.now) }
{
    if name == moving {
        return Ok(State::ComesToo);
    }
    match excuse_of(excuses, name) {
        Some(excuse) => excused(alloc, excuse),
        None => Ok(State::InTesting),
    }
}

/// The row was built from its source's unstable version.
fn is_current_in(sources: &[Box<UploadIn>], row: &LentRow) -> bool
    requires { AreBySource (unboxed sources.now) }
    ensures { result ≡ rules.is_current_in (unboxed sources.now) (row_of row.now) }
{
    match source_in(sources, row.binary.source.as_str()) {
        Some(upload) => is_current(upload, row),
        None => false,
    }
}

/// The state of a row of unstable, given unstable's sources, the excuses of those that testing doesn't have yet, and
/// the source in question. The only error is running out of memory.
pub fn state_of(
    alloc: Global,
    sources: &[Box<UploadIn>],
    excuses: &[Excuse],
    moving: &str,
    row: &LentRow,
) -> Result<State, NoMemory>
    requires { AreBySource (unboxed sources.now) }
    ensures { IfOk result (λ state. state ≡ rules.state_of (unboxed sources.now) excuses.now moving.now (row_of row.now)) }
{
    if !is_current_in(sources, row) {
        return Ok(State::NotCurrent);
    }
    Ok(current_state(alloc, excuses, moving, row.binary.source.as_str())?)
}
