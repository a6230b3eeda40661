//! How it stands with rows of unstable, beside a change that isn't made.

ghost use Rattle.std.specs.Prelude.{◌≡◌, ◌++◌, ◌∷◌, [], OnOk, codes, string_bytes};
ghost use Rattle.std.specs.List.{flat_map};
ghost use Rattle.testing_rules_model.specs.Boxed.{unboxed};
ghost use Rattle.testing_rules_model.specs.FactOrder.{AreBySource};
ghost use Rattle.testing_rules_model.specs.JudgedRows.{lent, row_of};
ghost use Rattle.testing_rules_refusals.specs.Lines.{package_text};
ghost use Rattle.testing_rules_refusals.specs.Texts as texts;
ghost use Rattle.office_core_breaks.specs.steps.Grounds.{known_on};

use deb_control::Text;
use deb_version::NoMemory;
use std::alloc::{AllocError, Global};
use testing_rules_excuses::{State, state_of};
use testing_rules_facts::Unstable;
use testing_rules_items::Archs;
use testing_rules_live::is_row_of;
use testing_rules_model::{Excuse, LentRow, Reason};
use testing_rules_refusals::push_package;
use testing_rules_reports::push_reason_words;

/// What is known where a change is told of: the architectures, unstable, the excuses of the run, and the sources that
/// come in.
#[derive(Clone, Copy)]
pub(crate) struct OfferInput<'g, 'a> {
    pub archs: &'g Archs,
    pub unstable: Unstable<'g, 'a>,
    pub excuses: &'g [Excuse],
    pub coming: &'g [Text],
}

fn push_other_reasons(
    text: &mut String,
    archs: &Archs,
    reasons: &[Reason],
) -> Result<(), AllocError>
    ensures { OnOk result (string_bytes text.new ≡ string_bytes text.old ++ flat_map (texts.other_reason archs.now) reasons.now) }
{
    for reason in reasons {
        text.push_str(", ")?;
        push_reason_words(text, archs, *reason)?;
    }
    Ok(())
}

fn push_reasons(text: &mut String, archs: &Archs, reasons: &[Reason]) -> Result<(), AllocError>
    ensures { OnOk result (string_bytes text.new ≡ string_bytes text.old ++ texts.reasons_text archs.now reasons.now) }
{
    match reasons.split_first() {
        Some((first, others)) => {
            push_reason_words(text, archs, *first)?;
            push_other_reasons(text, archs, others)
        }
        None => Ok(()),
    }
}

fn push_state(text: &mut String, archs: &Archs, state: &State) -> Result<(), AllocError>
    ensures { OnOk result (string_bytes text.new ≡ string_bytes text.old ++ texts.state_text archs.now state.now) }
{
    match state {
        State::Waits => text.push_str("waits"),
        State::NotCandidate(reasons) => {
            text.push_str("isn't a candidate: ")?;
            push_reasons(text, archs, reasons.as_slice())
        }
        State::NotCurrent => text.push_str("isn't current"),
        State::ComesToo => text.push_str("comes too"),
        State::InTesting => text.push_str("is in testing"),
    }
}

fn push_unstable(text: &mut String, row: &LentRow) -> Result<(), AllocError>
    ensures { OnOk result (string_bytes text.new ≡ string_bytes text.old ++ (codes "unstable " ++ package_text (row_of row.now) ++ 32 ∷ [])) }
{
    text.push_str("unstable ")?;
    push_package(text, row)?;
    text.push_str(" ")
}

/// The row's source, if it is one of the group, and else no name.
fn moving_with<'a>(group: &[Text], row: &LentRow<'a>) -> &'a str
    ensures { result.now ≡ texts.moving_with group.now (row_of row.now) }
{
    if is_row_of(group, row) {
        row.binary.source.as_str()
    } else {
        ""
    }
}

/// How it stands with a row of unstable.
fn push_offer_words(
    alloc: Global,
    text: &mut String,
    input: &OfferInput,
    row: &LentRow,
) -> Result<(), NoMemory>
    requires { AreBySource (unboxed input.now.unstable.sources.now) }
    ensures { OnOk result (string_bytes text.new ≡ string_bytes text.old ++ texts.offer_words (known_on input.now) (row_of row.now)) }
{
    let moving = moving_with(input.coming, row);
    let sources = input.unstable.sources;
    let state = state_of(alloc, sources, input.excuses, moving, row)?;
    Ok(push_state(text, input.archs, &state)?)
}

fn push_offer(
    alloc: Global,
    text: &mut String,
    input: &OfferInput,
    row: &LentRow,
) -> Result<(), NoMemory>
    requires { AreBySource (unboxed input.now.unstable.sources.now) }
    ensures { OnOk result (string_bytes text.new ≡ string_bytes text.old ++ texts.offer_line (known_on input.now) (row_of row.now)) }
{
    push_unstable(text, row)?;
    push_offer_words(alloc, text, input, row)?;
    Ok(text.push_str("\n")?)
}

fn push_each_offer(
    alloc: Global,
    text: &mut String,
    input: &OfferInput,
    rows: &[LentRow],
) -> Result<(), NoMemory>
    requires { AreBySource (unboxed input.now.unstable.sources.now) }
    ensures { OnOk result (string_bytes text.new ≡ string_bytes text.old ++ flat_map (texts.offer_line (known_on input.now)) (lent rows.now)) }
{
    for row in rows {
        push_offer(alloc, text, input, row)?;
    }
    Ok(())
}

/// The lines of rows of unstable, or that there is none.
#[tactic(auto, using(testing_rules_refusals::proofs::Helping::none_offered, testing_rules_refusals::proofs::Helping::some_offered))]
pub(crate) fn push_offers(
    alloc: Global,
    text: &mut String,
    input: &OfferInput,
    rows: &[LentRow],
) -> Result<(), NoMemory>
    requires { AreBySource (unboxed input.now.unstable.sources.now) }
    ensures { OnOk result (string_bytes text.new ≡ string_bytes text.old ++ texts.offers_text (known_on input.now) (lent rows.now)) }
{
    if rows.is_empty() {
        text.push_str("unstable nothing\n")?;
        return Ok(());
    }
    push_each_offer(alloc, text, input, rows)
}
