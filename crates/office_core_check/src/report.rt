//! What a check of a store found, in words.
ghost use Rattle.std.specs.Prelude.{◌≡◌, ◌++◌, IfOk, codes, string_bytes};
ghost use Rattle.office_core_check.specs.Telling.{checked_text, checked_words, difference_words, part_words, status_of_check};

use crate::{Checked, Difference, Part};
use deb_control::{NoMemory, Text};
use office_core_replies::name_at;
use office_mail::Setup;
use std::alloc::{AllocError, Global};

/// A difference in words.
fn difference_words(
    alloc: Global,
    setup: &Setup,
    difference: Difference,
) -> Result<String, AllocError>
    ensures { IfOk result (λ text. string_bytes text ≡ difference_words setup.now difference) }
{
    match difference {
        Difference::Mail { sender, number } => {
            let sender = name_at(setup, sender);
            format!(in alloc; "mail {sender} {number}")
        }
        Difference::RunMail { run } => format!(in alloc; "run {run} mail"),
        Difference::Excuses { run } => format!(in alloc; "run {run} excuses"),
        Difference::Update { run } => format!(in alloc; "run {run} update"),
        Difference::Testing => String::from_str(alloc, "testing"),
        Difference::Facts => String::from_str(alloc, "facts"),
        Difference::Tables => String::from_str(alloc, "tables"),
    }
}

/// A part of a store in words.
fn part_words(alloc: Global, setup: &Setup, part: Part) -> Result<String, AllocError>
    ensures { IfOk result (λ text. string_bytes text ≡ part_words setup.now part) }
{
    match part {
        Part::Office => String::from_str(alloc, "office"),
        Part::Mail { sender } => {
            let sender = name_at(setup, sender);
            format!(in alloc; "mail {sender}")
        }
        Part::Run { run } => format!(in alloc; "run {run}"),
        Part::Testing => String::from_str(alloc, "testing"),
        Part::Facts => String::from_str(alloc, "facts"),
    }
}

/// That a row of a part doesn't read, in words.
fn unread_words(alloc: Global, setup: &Setup, part: Part) -> Result<String, AllocError>
    ensures { IfOk result (λ text. string_bytes text ≡ codes "unread " ++ part_words setup.now part) }
{
    let words = part_words(alloc, setup, part)?;
    format!(in alloc; "unread {words}")
}

/// What was found, in words.
fn checked_words(alloc: Global, setup: &Setup, checked: Checked) -> Result<String, AllocError>
    ensures { IfOk result (λ text. string_bytes text ≡ checked_words setup.now checked) }
{
    match checked {
        Checked::Whole { runs } => format!(in alloc; "whole {runs} runs"),
        Checked::Differs(difference) => difference_words(alloc, setup, difference),
        Checked::Unread { part } => unread_words(alloc, setup, part),
    }
}

/// The line that tells what a check found: `whole N runs`, or else the difference as `mail SENDER NUMBER`, `run K
/// mail`, `run K excuses`, `run K update`, `testing`, `facts` or `tables`; or `unread` and the part of which a row
/// doesn't read, as `office`, `mail SENDER`, `run K`, `testing` or `facts`.
#[tactic(auto, unfolding(crate::specs::Telling::checked_text))]
pub fn checked_text(alloc: Global, setup: &Setup, checked: Checked) -> Result<Text, NoMemory>
    ensures { IfOk result (λ text. text ≡ checked_text setup.now checked) }
{
    let mut text = checked_words(alloc, setup, checked)?;
    text.push('\n')?;
    Ok(Text::from_string(text))
}

/// The exit status of a check: 0 if the store is whole, 1 if it isn't.
pub fn check_status(checked: Checked) -> u8
    ensures { result ≡ status_of_check checked }
{
    match checked {
        Checked::Whole { .. } => 0,
        Checked::Differs(_) | Checked::Unread { .. } => 1,
    }
}
