//! Why a run refuses hints, in lines.

ghost use Rattle.std.specs.Prelude.{◌≡◌, ◌≤◌, ◌<◌, ◌++◌, [], IfOk, drop, filter, length, nat_lt, take};
ghost use Rattle.std.specs.List.{count_by};
ghost use Rattle.office_core_outcome.specs.HintTold.{is_of_hint};
ghost use Rattle.office_core_outcome.specs.steps.RefusalSteps.{IsToldWhere, judged_in};
ghost use Rattle.office_core_outcome.specs.WhyRefused.{AreFirstTold, AreGroupLines, AreRemovalLines, AreToldOf, IsRefusalWhere, IsToldOf, group_at, is_reported, more_line, refused_line, turn_of_group, turn_of_item};

use crate::refused_items::{group_left, grouped_at, items_before, removed_at};
use deb_control::{NoMemory, Text};
use deb_version::Version;
use std::alloc::Global;
use testing_rules_facts::Facts;
use testing_rules_items::Archs;
use testing_rules_model::{Decision, Excuse, Offender};
use testing_rules_moves::{at_group, at_removal};
use testing_rules_refusals::{group_refusal, removal_refusal};
use testing_rules_suites::Testing;

/// How many refusals are explained.
const MOST_EXPLAINED: usize = 3;

/// A run whose hints are judged: its facts, its excuses, and the testing before it. It reports on the hints of the
/// sender of this name, after this number.
#[derive(Clone, Copy)]
pub(crate) struct Judging<'a> {
    pub sender: &'a str,
    pub behind: u32,
    pub archs: &'a Archs,
    pub facts: &'a Facts,
    pub excuses: &'a [Excuse],
    pub testing: &'a Testing,
}

/// No line.
fn no_lines(alloc: Global) -> Text
    ensures { result ≡ [] }
{
    Text::from_string(String::new(alloc))
}

/// The lines on why a group can't move as one over a testing, none if that breaks nothing. Testing is dropped.
fn group_lines_over(
    alloc: Global,
    judging: &Judging<'_>,
    turn: Testing,
    group: &[Text],
) -> Result<Text, NoMemory>
    ensures { IfOk result (AreGroupLines (judged_in judging.now) turn group.now) }
{
    let mut turn = turn;
    let (archs, facts, excuses) = (judging.archs, judging.facts, judging.excuses);
    let told = group_refusal(alloc, archs, facts, excuses, group, &mut turn);
    drop(turn);
    match told? {
        Some(text) => Ok(text),
        None => Ok(no_lines(alloc)),
    }
}

/// The lines on why the group of the hint with this number is refused at its turn.
fn group_lines(alloc: Global, judging: &Judging<'_>, number: u32) -> Result<Text, NoMemory>
    ensures { IfOk result (AreGroupLines (judged_in judging.now) (turn_of_group (judged_in judging.now) number) (group_at (judged_in judging.now) number)) }
{
    let (archs, facts, excuses) = (judging.archs, judging.facts, judging.excuses);
    let items = grouped_at(facts.hints(), number);
    let turn = at_group(alloc, archs, facts, excuses, number, judging.testing)?;
    match group_left(alloc, &turn, items) {
        Ok(group) => group_lines_over(alloc, judging, turn, &group),
        Err(fault) => {
            drop(turn);
            Err(fault)
        }
    }
}

/// The lines on why a source can't be removed from a testing, none if that breaks nothing. Testing is dropped.
fn removal_lines_over(
    alloc: Global,
    judging: &Judging<'_>,
    turn: Testing,
    name: &Text,
) -> Result<Text, NoMemory>
    ensures { IfOk result (AreRemovalLines (judged_in judging.now) turn name.now) }
{
    let mut turn = turn;
    let (archs, facts, excuses) = (judging.archs, judging.facts, judging.excuses);
    let told = removal_refusal(alloc, archs, facts, excuses, name, &mut turn);
    drop(turn);
    match told? {
        Some(text) => Ok(text),
        None => Ok(no_lines(alloc)),
    }
}

/// Testing at the turn of a removal by the hint with this number.
fn turn_of_item(
    alloc: Global,
    judging: &Judging<'_>,
    number: u32,
    name: &Text,
    version: &Version,
) -> Result<Testing, NoMemory>
    ensures { IfOk result (λ turn. turn ≡ turn_of_item (judged_in judging.now) number name.now version.now) }
{
    let facts = judging.facts;
    let items = removed_at(facts.hints(), number);
    let earlier = items_before(alloc, name.as_str(), version, items)?;
    at_removal(
        alloc,
        judging.archs,
        facts,
        number,
        &earlier,
        judging.testing,
    )
}

/// The lines on why a removal by the hint with this number is refused at its turn.
fn removal_lines(
    alloc: Global,
    judging: &Judging<'_>,
    number: u32,
    name: &Text,
    version: &Version,
) -> Result<Text, NoMemory>
    ensures { IfOk result (AreRemovalLines (judged_in judging.now) (turn_of_item (judged_in judging.now) number name.now version.now) name.now) }
{
    let turn = turn_of_item(alloc, judging, number, name, version)?;
    removal_lines_over(alloc, judging, turn, name)
}

/// The line on a refused hint, and then the lines on why.
fn refusal_text(
    alloc: Global,
    judging: &Judging<'_>,
    number: u32,
    offender: &Offender,
    lines: &Text,
) -> Result<Text, NoMemory>
    ensures { IfOk result (λ text. text ≡ refused_line (judged_in judging.now) number offender.now ++ lines.now) }
{
    let (sender, arch) = (judging.sender, judging.archs.name(offender.arch));
    let package = offender.package.as_str();
    let text = format!(in alloc;
        "refused {sender} {number} uninstallable {arch} {package}\n{}",
        lines.as_str()
    )?;
    Ok(Text::from_string(text))
}

/// Why the group of a hint is refused; an empty text if its number isn't above the known one.
fn told_of_group(
    alloc: Global,
    judging: &Judging<'_>,
    number: u32,
    offender: &Offender,
) -> Result<Text, NoMemory>
    ensures { IfOk result (IsRefusalWhere (nat_lt judging.now.behind number) (judged_in judging.now) number offender.now (AreGroupLines (judged_in judging.now) (turn_of_group (judged_in judging.now) number) (group_at (judged_in judging.now) number))) }
{
    if judging.behind < number {
        let lines = group_lines(alloc, judging, number)?;
        refusal_text(alloc, judging, number, offender, &lines)
    } else {
        Ok(no_lines(alloc))
    }
}

/// Why a removal is refused; an empty text if its hint's number isn't above the known one.
fn told_of_removal(
    alloc: Global,
    judging: &Judging<'_>,
    number: u32,
    name: &Text,
    version: &Version,
    offender: &Offender,
) -> Result<Text, NoMemory>
    ensures { IfOk result (IsRefusalWhere (nat_lt judging.now.behind number) (judged_in judging.now) number offender.now (AreRemovalLines (judged_in judging.now) (turn_of_item (judged_in judging.now) number name.now version.now) name.now)) }
{
    if number > judging.behind {
        let lines = removal_lines(alloc, judging, number, name, version)?;
        refusal_text(alloc, judging, number, offender, &lines)
    } else {
        Ok(no_lines(alloc))
    }
}

/// The text on a decision: on a group or a removal that is refused for what it would break.
fn told_of(alloc: Global, judging: &Judging<'_>, decision: &Decision) -> Result<Text, NoMemory>
    ensures { IfOk result (IsToldOf (judged_in judging.now) decision.now) }
{
    match decision {
        Decision::RemoveRefused {
            hint,
            name,
            version,
            offender,
        } => told_of_removal(alloc, judging, *hint, name, version, offender),
        Decision::EasyRefused { hint, offender } => told_of_group(alloc, judging, *hint, offender),
        Decision::RemoveDone { .. }
        | Decision::EasyDone { .. }
        | Decision::EasyNotCandidate { .. }
        | Decision::Accept { .. }
        | Decision::Wait { .. } => Ok(no_lines(alloc)),
    }
}

/// The text on decisions, one after another.
fn told_of_all(
    alloc: Global,
    judging: &Judging<'_>,
    decisions: &[Decision],
) -> Result<Text, NoMemory>
    ensures { IfOk result (AreToldOf (judged_in judging.now) decisions.now) }
{
    let mut text = String::new(alloc);
    'decisions: for decision in decisions {
        let told = told_of(alloc, judging, decision)?;
        text.push_str(told.as_str())?;
    }
    Ok(Text::from_string(text))
}

/// Whether a decision is reported on: a group or a removal is refused, by a hint after the known number.
fn is_reported(behind: u32, decision: &Decision) -> bool
    ensures { result ≡ is_reported behind decision.now }
{
    match decision {
        Decision::RemoveRefused { hint, .. } | Decision::EasyRefused { hint, .. } => behind < *hint,
        Decision::RemoveDone { .. }
        | Decision::EasyDone { .. }
        | Decision::EasyNotCandidate { .. }
        | Decision::Accept { .. }
        | Decision::Wait { .. } => false,
    }
}

/// The place after the third decision that is reported on, or the end if there are fewer.
fn explained_end(behind: u32, decisions: &[Decision]) -> usize
    ensures within { result ≤ length decisions.now }
    ensures few { count_by (is_reported behind) (take result decisions.now) ≤ 3 }
    ensures all { count_by (is_reported behind) (take result decisions.now) < 3 → result ≡ length decisions.now }
{
    let mut count = 0;
    let mut end = 0;
    'decisions: for decision in decisions {
        if count == MOST_EXPLAINED {
            return end;
        }
        if is_reported(behind, decision) {
            count += 1;
        }
        end += 1;
    }
    end
}

/// How many decisions are reported on.
fn reported_count(behind: u32, decisions: &[Decision]) -> usize
    ensures { result ≡ count_by (is_reported behind) decisions.now }
{
    let mut count = 0;
    'decisions: for decision in decisions {
        if is_reported(behind, decision) {
            count += 1;
        }
    }
    count
}

/// Lines, and then how many more are refused, if there are any.
fn with_more(alloc: Global, lines: Text, more: usize) -> Result<Text, NoMemory>
    ensures { IfOk result (λ text. text ≡ lines ++ more_line more) }
{
    if more == 0 {
        return Ok(lines);
    }
    let text = format!(in alloc; "{}and {more} more are refused\n", lines.as_str());
    drop(lines);
    Ok(Text::from_string(text?))
}

/// The text on decisions up to the third that is reported on, and then how many more there are.
pub(crate) fn told_of_first(
    alloc: Global,
    judging: &Judging<'_>,
    decisions: &[Decision],
) -> Result<Text, NoMemory>
    ensures { IfOk result (AreFirstTold (judged_in judging.now) decisions.now) }
{
    let end = explained_end(judging.behind, decisions);
    let lines = told_of_all(alloc, judging, &decisions[..end])?;
    with_more(
        alloc,
        lines,
        reported_count(judging.behind, &decisions[end..]),
    )
}

/// The decision is on the hint with this number.
fn is_of_hint(number: u32, decision: &Decision) -> bool
    ensures { result ≡ is_of_hint number decision.now }
{
    match decision {
        Decision::RemoveDone { hint, .. }
        | Decision::RemoveRefused { hint, .. }
        | Decision::EasyDone { hint, .. }
        | Decision::EasyNotCandidate { hint, .. }
        | Decision::EasyRefused { hint, .. } => *hint == number,
        Decision::Accept { .. } | Decision::Wait { .. } => false,
    }
}

/// The text on a decision, if it is on the hint with this number.
fn told_where(
    alloc: Global,
    judging: &Judging<'_>,
    number: u32,
    decision: &Decision,
) -> Result<Text, NoMemory>
    ensures { IfOk result (IsToldWhere (is_of_hint number decision.now) (judged_in judging.now) decision.now) }
{
    if is_of_hint(number, decision) {
        told_of(alloc, judging, decision)
    } else {
        Ok(no_lines(alloc))
    }
}

/// The text on the decisions on the hint with this number.
pub(crate) fn told_of_hint(
    alloc: Global,
    judging: &Judging<'_>,
    number: u32,
    decisions: &[Decision],
) -> Result<Text, NoMemory>
    ensures { IfOk result (AreToldOf (judged_in judging.now) (filter (is_of_hint number) decisions.now)) }
{
    let mut text = String::new(alloc);
    'decisions: for decision in decisions {
        let told = told_where(alloc, judging, number, decision)?;
        text.push_str(told.as_str())?;
    }
    Ok(Text::from_string(text))
}
