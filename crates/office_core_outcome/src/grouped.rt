//! Which hints move the groups that they name.

ghost use Rattle.std.specs.Prelude.{◌≡◌, ◌++◌, ◌∷◌, true, IfOk, OnOk, string_bytes};
ghost use Rattle.std.specs.List.{list_any};
ghost use Rattle.std.specs.Str.{bytes_eq};
ghost use Rattle.office_core_outcome.specs.Proposal.{are_done, easy_text, is_done};

use deb_control::{NoMemory, Text};
use office_mail::MAX_NUMBER;
use std::alloc::{AllocError, Global};
use testing_rules_model::{Decision, Moved};

/// Adds a source at its version.
fn push_moved(text: &mut String, moved: &Moved) -> Result<(), AllocError>
    ensures { OnOk result (string_bytes text.new ≡ string_bytes text.old ++ (32 ∷ moved.now.name ++ 47 ∷ moved.now.version)) }
{
    write!(text, " {}/{}", moved.name.as_str(), moved.version.text())
}

/// The hint for a group.
fn easy_text(alloc: Global, group: &[Moved]) -> Result<Text, NoMemory>
    ensures { IfOk result (λ text. text ≡ easy_text group.now) }
{
    let mut text = String::new(alloc);
    text.push_str("easy")?;
    for moved in group {
        push_moved(&mut text, moved)?;
    }
    Ok(Text::from_string(text))
}

/// The hint is that for the group.
fn is_hint_for(alloc: Global, group: &[Moved], hint: &str) -> Result<bool, NoMemory>
    ensures { IfOk result (λ is. is ≡ bytes_eq (easy_text group.now) hint.now) }
{
    let text = easy_text(alloc, group)?;
    Ok(text.as_str() == hint)
}

/// By this number a group moved, and this is its hint.
fn is_done(alloc: Global, number: u32, hint: &str, decision: &Decision) -> Result<bool, NoMemory>
    ensures { IfOk result (λ done. done ≡ is_done number hint.now decision.now) }
{
    match decision {
        Decision::EasyDone { hint: by, items } => {
            if *by == number {
                is_hint_for(alloc, items.as_slice(), hint)
            } else {
                Ok(false)
            }
        }
        Decision::EasyRefused { .. } => Ok(false),
        Decision::RemoveDone { .. }
        | Decision::RemoveRefused { .. }
        | Decision::EasyNotCandidate { .. }
        | Decision::Accept { .. }
        | Decision::Wait { .. } => Ok(false),
    }
}

/// The same by one of the decisions.
pub(crate) fn is_any_done(
    alloc: Global,
    number: u32,
    hint: &str,
    decisions: &[Decision],
) -> Result<bool, NoMemory>
    ensures { IfOk result (λ done. done ≡ list_any (is_done number hint.now) decisions.now) }
{
    for decision in decisions {
        let done = is_done(alloc, number, hint, decision)?;
        if done {
            return Ok(true);
        }
    }
    Ok(false)
}

/// Each of the hints, whose numbers go on behind this one, is that of a group that moved by its number.
pub(crate) fn are_done(
    alloc: Global,
    number: u32,
    hints: &[Text],
    decisions: &[Decision],
) -> Result<bool, NoMemory>
    ensures { IfOk result (λ done. done ≡ true → are_done number hints.now decisions.now ≡ true) }
{
    let mut last = number;
    for hint in hints {
        if last >= MAX_NUMBER {
            return Ok(false);
        }
        last += 1;
        let done = is_any_done(alloc, last, hint.as_str(), decisions)?;
        if !done {
            return Ok(false);
        }
    }
    Ok(true)
}
