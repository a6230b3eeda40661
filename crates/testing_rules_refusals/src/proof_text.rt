//! The text of a proof that a row isn't installable if sources moved or one was removed.

ghost use Rattle.std.specs.Prelude.{◌≡◌, ◌++◌, ◌∷◌, [], IfOk, OnOk, codes, if◌then◌else◌, map, string_bytes};
ghost use Rattle.std.specs.List.{flat_map};
ghost use Rattle.testing_rules_excuses.specs.States as states;
ghost use Rattle.testing_rules_model.specs.Boxed.{unboxed};
ghost use Rattle.testing_rules_model.specs.FactOrder.{AreBySource};
ghost use Rattle.testing_rules_model.specs.JudgedRows.{lent, row_of};
ghost use Rattle.testing_rules_refusals.specs.Lines.{package_text};
ghost use Rattle.testing_rules_refusals.specs.Texts as texts;
ghost use Rattle.testing_rules_refusals.specs.Texts.{known_of};
ghost use Rattle.testing_rules_refusals.specs.Told.{told_of};

use crate::lines::{push_leaving, push_need, push_package};
use crate::living::is_absent;
use crate::told::Told;
use deb_control::Text;
use deb_version::NoMemory;
use std::alloc::{AllocError, Global};
use testing_rules_excuses::{State, state_of};
use testing_rules_facts::{Unstable, is_current, source_in};
use testing_rules_items::Archs;
use testing_rules_live::is_row_of;
use testing_rules_model::{Excuse, LentRow, Reason, UploadIn};
use testing_rules_reports::push_reason_words;
use testing_rules_suites::Testing;

/// What the lines need to know: the architectures, unstable, the excuses of the run, testing at the turn in question,
/// the sources that come, and those that no group frees.
#[derive(Clone, Copy)]
pub struct Telling<'g, 'a> {
    pub archs: &'g Archs,
    pub unstable: Unstable<'g, 'a>,
    pub excuses: &'g [Excuse],
    pub testing: &'g Testing,
    pub coming: &'g [Text],
    pub stuck: &'g [Text],
}

fn push_other_reasons(
    text: &mut String,
    archs: &Archs,
    reasons: &[Reason],
) -> Result<(), AllocError>
    ensures { OnOk result (string_bytes text.new ≡ string_bytes text.old ++ flat_map (texts.other_reason archs.now) reasons.now) }
{
    for reason in reasons {
        text.push_str(", ")?;
        push_reason_words(text, archs, *reason)?;
    }
    Ok(())
}

/// Adds the reasons that keep a source out, with a comma between two.
pub fn push_reasons(text: &mut String, archs: &Archs, reasons: &[Reason]) -> Result<(), AllocError>
    ensures { OnOk result (string_bytes text.new ≡ string_bytes text.old ++ texts.reasons_text archs.now reasons.now) }
{
    match reasons.split_first() {
        Some((first, others)) => {
            push_reason_words(text, archs, *first)?;
            push_other_reasons(text, archs, others)
        }
        None => Ok(()),
    }
}

fn push_state(text: &mut String, archs: &Archs, state: &State) -> Result<(), AllocError>
    ensures { OnOk result (string_bytes text.new ≡ string_bytes text.old ++ texts.state_text archs.now state.now) }
{
    match state {
        State::Waits => text.push_str("waits"),
        State::NotCandidate(reasons) => {
            text.push_str("isn't a candidate: ")?;
            push_reasons(text, archs, reasons.as_slice())
        }
        State::NotCurrent => text.push_str("isn't current"),
        State::ComesToo => text.push_str("comes too"),
        State::InTesting => text.push_str("is in testing"),
    }
}

fn push_unstable(text: &mut String, row: &LentRow) -> Result<(), AllocError>
    ensures { OnOk result (string_bytes text.new ≡ string_bytes text.old ++ (codes "unstable " ++ package_text (row_of row.now) ++ 32 ∷ [])) }
{
    text.push_str("unstable ")?;
    push_package(text, row)?;
    text.push_str(" ")
}

/// The row was built from its source's unstable version.
pub(crate) fn is_current_in(sources: &[Box<UploadIn>], row: &LentRow) -> bool
    requires { AreBySource (unboxed sources.now) }
    ensures { result ≡ states.is_current_in (unboxed sources.now) (row_of row.now) }
{
    match source_in(sources, row.binary.source.as_str()) {
        Some(upload) => is_current(upload, row),
        None => false,
    }
}

/// The row is current and belongs to one of the sources.
pub(crate) fn comes_with(sources: &[Box<UploadIn>], group: &[Text], row: &LentRow) -> bool
    requires { AreBySource (unboxed sources.now) }
    ensures { result ≡ texts.comes_with (unboxed sources.now) group.now (row_of row.now) }
{
    is_row_of(group, row) && is_current_in(sources, row)
}

/// The row's source if it is in the group, else no name.
fn moving_with<'a>(group: &[Text], row: &LentRow<'a>) -> &'a str
    ensures { result.now ≡ texts.moving_with group.now (row_of row.now) }
{
    if is_row_of(group, row) {
        row.binary.source.as_str()
    } else {
        ""
    }
}

/// The run removed the source: it had nothing to move, and testing doesn't have it.
fn was_removed(testing: &Testing, name: &str, state: &State) -> bool
    ensures { result ≡ texts.was_removed testing.now name.now state.now }
{
    match state {
        State::InTesting => is_absent(testing, name),
        State::Waits | State::NotCandidate(_) | State::NotCurrent | State::ComesToo => false,
    }
}

fn push_state_within(
    text: &mut String,
    removed: bool,
    archs: &Archs,
    state: &State,
) -> Result<(), AllocError>
    ensures { OnOk result (string_bytes text.new ≡ string_bytes text.old ++ texts.state_within removed archs.now state.now) }
{
    if removed {
        text.push_str("isn't a candidate: removal asked")
    } else {
        push_state(text, archs, state)
    }
}

fn push_offer_state(
    alloc: Global,
    text: &mut String,
    telling: &Telling,
    row: &LentRow,
) -> Result<(), NoMemory>
    requires { AreBySource (unboxed telling.now.unstable.sources.now) }
    ensures { OnOk result (let state = states.state_of (unboxed telling.now.unstable.sources.now) telling.now.excuses.now (texts.moving_with telling.now.coming.now (row_of row.now)) (row_of row.now) in
        string_bytes text.new ≡ string_bytes text.old ++ texts.state_within (texts.was_removed telling.now.testing.now (row_of row.now).binary.source state) telling.now.archs.now state) }
{
    let moving = moving_with(telling.coming, row);
    let state = state_of(
        alloc,
        telling.unstable.sources,
        telling.excuses,
        moving,
        row,
    )?;
    let removed = was_removed(telling.testing, row.binary.source.as_str(), &state);
    Ok(push_state_within(text, removed, telling.archs, &state)?)
}

/// Adds the state of a row of unstable.
fn push_offer_words(
    alloc: Global,
    text: &mut String,
    telling: &Telling,
    row: &LentRow,
) -> Result<(), NoMemory>
    requires { AreBySource (unboxed telling.now.unstable.sources.now) }
    ensures { OnOk result (string_bytes text.new ≡ string_bytes text.old ++ texts.words_within telling.now.testing.now (known_of telling.now) (row_of row.now)) }
{
    if comes_with(telling.unstable.sources, telling.stuck, row) {
        return Ok(text.push_str("is stuck")?);
    }
    push_offer_state(alloc, text, telling, row)
}

fn push_offer(
    alloc: Global,
    text: &mut String,
    telling: &Telling,
    row: &LentRow,
) -> Result<(), NoMemory>
    requires { AreBySource (unboxed telling.now.unstable.sources.now) }
    ensures { OnOk result (string_bytes text.new ≡ string_bytes text.old ++ texts.line_within telling.now.testing.now (known_of telling.now) (row_of row.now)) }
{
    push_unstable(text, row)?;
    push_offer_words(alloc, text, telling, row)?;
    Ok(text.push_str("\n")?)
}

fn push_each_offer(
    alloc: Global,
    text: &mut String,
    telling: &Telling,
    rows: &[LentRow],
) -> Result<(), NoMemory>
    requires { AreBySource (unboxed telling.now.unstable.sources.now) }
    ensures { OnOk result (string_bytes text.new ≡ string_bytes text.old
        ++ flat_map (texts.line_within telling.now.testing.now (known_of telling.now)) (lent rows.now)) }
{
    for row in rows {
        push_offer(alloc, text, telling, row)?;
    }
    Ok(())
}

/// Adds the lines of the rows of unstable that would meet a clause, or that there are none.
#[tactic(auto, using(crate::proofs::Helping::none_within, crate::proofs::Helping::some_within))]
fn push_offers(
    alloc: Global,
    text: &mut String,
    telling: &Telling,
    rows: &[LentRow],
) -> Result<(), NoMemory>
    requires { AreBySource (unboxed telling.now.unstable.sources.now) }
    ensures { OnOk result (string_bytes text.new ≡ string_bytes text.old
        ++ texts.offers_within telling.now.testing.now (known_of telling.now) (lent rows.now)) }
{
    if rows.is_empty() {
        text.push_str("unstable nothing\n")?;
        return Ok(());
    }
    push_each_offer(alloc, text, telling, rows)
}

/// Adds the lines after one with an unmet clause.
fn push_help(
    alloc: Global,
    text: &mut String,
    telling: &Telling,
    line: &Told,
) -> Result<(), NoMemory>
    requires { AreBySource (unboxed telling.now.unstable.sources.now) }
    ensures { OnOk result (string_bytes text.new ≡ string_bytes text.old
        ++ texts.help_text telling.now.testing.now (known_of telling.now) (told_of line.now)) }
{
    push_leaving(text, &line.leaving)?;
    push_offers(alloc, text, telling, &line.offers)
}

/// Adds a line and its help.
#[tactic(auto, using(crate::proofs::Helping::helped, crate::proofs::Helping::unhelped))]
fn push_told(
    alloc: Global,
    text: &mut String,
    telling: &Telling,
    line: &Told,
) -> Result<(), NoMemory>
    requires { AreBySource (unboxed telling.now.unstable.sources.now) }
    ensures { OnOk result (string_bytes text.new ≡ string_bytes text.old
        ++ texts.told_text telling.now.testing.now (known_of telling.now) (told_of line.now)) }
{
    let comes = comes_with(telling.unstable.sources, telling.coming, &line.need.row);
    push_need(text, comes, line.number, &line.need, &line.met_by)?;
    if line.met_by.is_empty() {
        return push_help(alloc, text, telling, line);
    }
    Ok(())
}

fn push_each_told(
    alloc: Global,
    text: &mut String,
    telling: &Telling,
    told: &[Told],
) -> Result<(), NoMemory>
    requires { AreBySource (unboxed telling.now.unstable.sources.now) }
    ensures { OnOk result (string_bytes text.new ≡ string_bytes text.old
        ++ flat_map (texts.told_text telling.now.testing.now (known_of telling.now)) (map told_of told.now)) }
{
    for line in told {
        push_told(alloc, text, telling, line)?;
    }
    Ok(())
}

/// The text of a proof that a row isn't installable: its lines, in order. After a line with an unmet clause it has the
/// leaving rows of testing that met the clause before, and the state of each row of unstable that would meet it. The
/// only error is running out of memory.
pub fn refusal_text(alloc: Global, telling: &Telling, told: &[Told]) -> Result<Text, NoMemory>
    requires { AreBySource (unboxed telling.now.unstable.sources.now) }
    ensures { IfOk result (λ text. text ≡ texts.refusal_text telling.now.testing.now (known_of telling.now) (map told_of told.now)) }
{
    let mut text = String::new(alloc);
    push_each_told(alloc, &mut text, telling, told)?;
    Ok(Text::from_string(text))
}
