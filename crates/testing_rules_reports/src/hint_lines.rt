//! The text that says what hints would change.

ghost use Rattle.std.specs.Prelude.{◌≡◌, ◌++◌, IfOk, OnOk, string_bytes};
ghost use Rattle.testing_rules_reports.specs.Tried.{changes_text, try_line, try_lines, tried_text};
ghost use Rattle.testing_rules_reports.specs.steps.Tried.{has_changes};

use crate::lines::{push_excuse_changes, push_testing_changes, push_update_changes};
use deb_control::{NoMemory, Text};
use jiff::civil;
use jiff_core::civil::Date;
use std::alloc::{AllocError, Global};

/// The decisions of a run, in texts: the two reports, and testing after it.
#[derive(Drop)]
pub struct Decided {
    pub excuses: Text,
    pub updates: Text,
    pub testing: Text,
}

/// What the next run would decide without some hints, and with them. The hints are numbered from `first` on.
#[derive(Drop)]
pub struct TrialReport {
    pub run: u32,
    pub date: Date,
    pub first: u32,
    pub without: Decided,
    pub with: Decided,
}

/// The text that says what a sender's hints would change: a line for each hint, then for each report the lines only in
/// the run without the hints, and those only in the run with them.
pub fn tried_text(
    alloc: Global,
    sender: &str,
    hints: &[Text],
    tried: &TrialReport,
) -> Result<Text, NoMemory>
    ensures { IfOk result (λ text. text ≡ tried_text sender.now hints.now tried.now) }
{
    let mut text = String::new(alloc);
    push_tries(&mut text, sender, hints, tried)?;
    push_all_changes(alloc, &mut text, &tried.without, &tried.with)?;
    Ok(Text::from_string(text))
}

/// Whether the hints change anything: whether one of the two runs has a line that the other hasn't.
pub fn has_changes(alloc: Global, tried: &TrialReport) -> Result<bool, NoMemory>
    ensures { IfOk result (λ has. has ≡ has_changes tried.now) }
{
    let mut text = String::new(alloc);
    push_all_changes(alloc, &mut text, &tried.without, &tried.with)?;
    Ok(!text.is_empty())
}

/// A line for each hint.
fn push_tries(
    text: &mut String,
    sender: &str,
    hints: &[Text],
    tried: &TrialReport,
) -> Result<(), AllocError>
    ensures { OnOk result (string_bytes text.new ≡ string_bytes text.old ++ try_lines tried.now.run tried.now.date sender.now tried.now.first hints.now) }
{
    let mut number = u64::from(tried.first);
    'hints: for hint in hints {
        push_try(text, tried.run, tried.date, sender, number, hint.as_str())?;
        number += 1;
    }
    Ok(())
}

/// The line on a hint.
fn push_try(
    text: &mut String,
    run: u32,
    date: Date,
    sender: &str,
    number: u64,
    hint: &str,
) -> Result<(), AllocError>
    ensures { OnOk result (string_bytes text.new ≡ string_bytes text.old ++ try_line run date sender.now number hint.now) }
{
    let day = civil::Date::from_plain(date);
    writeln!(text, "try {run} {day} {sender} {number} {hint}")
}

/// The changes of all reports.
fn push_all_changes(
    alloc: Global,
    text: &mut String,
    without: &Decided,
    with: &Decided,
) -> Result<(), AllocError>
    ensures { OnOk result (string_bytes text.new ≡ string_bytes text.old ++ changes_text without.now with.now) }
{
    push_excuse_changes(alloc, text, without.excuses.as_str(), with.excuses.as_str())?;
    push_update_changes(alloc, text, without.updates.as_str(), with.updates.as_str())?;
    push_testing_changes(alloc, text, without.testing.as_str(), with.testing.as_str())
}
