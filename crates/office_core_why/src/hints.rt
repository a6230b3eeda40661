//! The hints in force, in lines.

ghost use Rattle.std.specs.Prelude.{◌≡◌, ◌++◌, Bool, false, if◌then◌else◌, nat_le, codes, Some, IfOk, OnOk, option_copied, string_bytes};
ghost use Rattle.std.specs.List.{filter, flat_map};
ghost use Rattle.testing_rules_model.specs.Covered.{Covered};
ghost use Rattle.testing_rules_model.specs.StandsFor.{StandsFor};
ghost use Rattle.testing_rules_model.specs.Unstable as unstable;
ghost use Rattle.office_mail.specs.Runs.{cover_of};
ghost use Rattle.office_core_why.specs.Hints.{asked_words, hint_front, hint_lines, hints_text, item_line, name_line, named_lines, state_words};

use deb_control::{NoMemory, Text};
use deb_version::Version;
use office_core_facts::taken::cover_of;
use office_core_replies::name_at;
use office_mail::{RunOrder, Setup};
use std::alloc::{AllocError, Global};
use testing_rules_facts::{Facts, Unhints, is_in_force, is_same_version, source_in};
use testing_rules_items::{Hint, HintItem};
use testing_rules_model::{HintIn, UploadIn};
use testing_rules_refusals::is_in_testing;
use testing_rules_suites::Testing;

/// What hints are told by: the setup, the orders of the finished runs, the facts, and the testing that the runs left.
#[derive(Clone, Copy)]
struct HintContext<'a> {
    setup: &'a Setup,
    orders: &'a [RunOrder],
    facts: &'a Facts,
    testing: &'a Testing,
}

/// The state of an unmoved version that a hint names, by unstable's source of the name.
fn push_state_of(text: &mut String, version: &Version, source: &UploadIn) -> Result<(), AllocError>
    ensures { (removes : Bool) → OnOk result (string_bytes text.new ≡ string_bytes text.old ++ state_words removes false version.now (Some source.now)) }
{
    if is_same_version(version, &source.version) {
        text.push_str("in force")
    } else {
        write!(text, "unstable {}", source.version.text())
    }
}

/// The state of a version that a hint names, by whether testing has it, and by unstable's source of the name.
fn push_state(
    text: &mut String,
    removes: bool,
    moved: bool,
    version: &Version,
    source: Option<&UploadIn>,
) -> Result<(), AllocError>
    ensures { OnOk result (string_bytes text.new ≡ string_bytes text.old ++ state_words removes moved version.now (option_copied source.entry)) }
{
    match source {
        None => text.push_str("no source"),
        Some(source) => {
            if !moved {
                push_state_of(text, version, source)
            } else if removes {
                text.push_str("in force")
            } else {
                text.push_str("moved")
            }
        }
    }
}

/// The line on a source at a version.
fn push_item(
    text: &mut String,
    front: &str,
    facts: &Facts,
    testing: &Testing,
    removes: bool,
    item: &HintItem,
) -> Result<(), AllocError>
    ensures { OnOk result (string_bytes text.new ≡ string_bytes text.old ++ item_line front.now facts.now.sources testing.now removes item.now) }
{
    let (name, version) = (item.name.as_str(), &item.version);
    let moved = is_in_testing(testing, name, version);
    let source = source_in(facts.sources(), name);
    write!(text, "{front}{name}/{}: ", version.text())?;
    push_state(text, removes, moved, version, source)?;
    text.push('\n')
}

fn push_items(
    text: &mut String,
    front: &str,
    facts: &Facts,
    testing: &Testing,
    removes: bool,
    items: &[HintItem],
) -> Result<(), AllocError>
    ensures { OnOk result (string_bytes text.new ≡ string_bytes text.old ++ flat_map (item_line front.now facts.now.sources testing.now removes) items.now) }
{
    for item in items {
        push_item(text, front, facts, testing, removes, item)?;
    }
    Ok(())
}

/// The line on a source that `block` names.
fn push_name(text: &mut String, front: &str, facts: &Facts, name: &str) -> Result<(), AllocError>
    ensures { OnOk result (string_bytes text.new ≡ string_bytes text.old ++ name_line front.now facts.now.sources name.now) }
{
    let state = match source_in(facts.sources(), name) {
        Some(_) => "in force",
        None => "no source",
    };
    writeln!(text, "{front}{name}: {state}")
}

fn push_names(
    text: &mut String,
    front: &str,
    facts: &Facts,
    names: &[Text],
) -> Result<(), AllocError>
    ensures { OnOk result (string_bytes text.new ≡ string_bytes text.old ++ flat_map (name_line front.now facts.now.sources) names.now) }
{
    for name in names {
        push_name(text, front, facts, name.as_str())?;
    }
    Ok(())
}

/// A line on each item that a hint names.
fn push_named(
    text: &mut String,
    front: &str,
    facts: &Facts,
    testing: &Testing,
    hint: &Hint,
) -> Result<(), AllocError>
    ensures { OnOk result (string_bytes text.new ≡ string_bytes text.old ++ named_lines front.now facts.now.sources testing.now hint.now) }
{
    match hint {
        Hint::Block(names) => push_names(text, front, facts, names.as_slice()),
        Hint::Unblock(items) => push_items(text, front, facts, testing, false, items.as_slice()),
        Hint::Easy(items) => push_items(text, front, facts, testing, false, items.as_slice()),
        Hint::AgeDays(_, items) => push_items(text, front, facts, testing, false, items.as_slice()),
        Hint::Remove(items) => push_items(text, front, facts, testing, true, items.as_slice()),
        Hint::BlockAll => writeln!(text, "{front}source: in force"),
    }
}

/// What a hint asks, in the words of its message.
fn push_asked(text: &mut String, hint: &Hint) -> Result<(), AllocError>
    ensures { OnOk result (string_bytes text.new ≡ string_bytes text.old ++ asked_words hint.now) }
{
    match hint {
        Hint::Block(_) => text.push_str("block"),
        Hint::Unblock(_) => text.push_str("unblock"),
        Hint::Easy(_) => text.push_str("easy"),
        Hint::AgeDays(days, _) => write!(text, "age-days {days}"),
        Hint::Remove(_) => text.push_str("remove"),
        Hint::BlockAll => text.push_str("block-all"),
    }
}

/// Whether these orders cover a message, in words.
fn covered_words(orders: &[RunOrder], hint: &HintIn) -> &'static str
    ensures { result.now ≡ (if nat_le hint.now.number (cover_of orders.now hint.now.sender) then codes " covered " else codes " new ") }
{
    if hint.number <= cover_of(orders, hint.sender as usize) {
        " covered "
    } else {
        " new "
    }
}

/// The beginning of the lines on a hint.
fn hint_front(
    alloc: Global,
    setup: &Setup,
    orders: &[RunOrder],
    hint: &HintIn,
) -> Result<String, AllocError>
    ensures { IfOk result (λ front. string_bytes front ≡ hint_front setup.now (cover_of orders.now) hint.now) }
{
    let (sender, number) = (name_at(setup, hint.sender), hint.number);
    let covered = covered_words(orders, hint);
    let mut front = format!(in alloc; "{sender} {number}{covered}")?;
    push_asked(&mut front, &hint.hint)?;
    front.push(' ')?;
    Ok(front)
}

/// The lines on a hint.
fn push_hint(
    alloc: Global,
    text: &mut String,
    context: &HintContext<'_>,
    hint: &HintIn,
) -> Result<(), AllocError>
    ensures { OnOk result (string_bytes text.new ≡ string_bytes text.old ++ hint_lines context.now.setup.now (cover_of context.now.orders.now) context.now.facts.now.sources context.now.testing.now hint.now) }
{
    let (facts, testing) = (context.facts, context.testing);
    let front = hint_front(alloc, context.setup, context.orders, hint)?;
    push_named(text, front.as_str(), facts, testing, &hint.hint)
}

/// The lines on the hints that no unhint names.
fn push_hints(alloc: Global, text: &mut String, context: &HintContext<'_>) -> Result<(), NoMemory>
    ensures { OnOk result (string_bytes text.new ≡ string_bytes text.old ++ flat_map (hint_lines context.now.setup.now (cover_of context.now.orders.now) context.now.facts.now.sources context.now.testing.now) (filter (unstable.is_in_force context.now.facts.now.unhints) context.now.facts.now.hints)) }
{
    let facts = context.facts;
    let unhints = Unhints::of(alloc, facts.unhints())?;
    let hints = facts.hints();
    for hint in hints {
        if is_in_force(&unhints, hint) {
            push_hint(alloc, text, context, hint)?;
        }
    }
    Ok(())
}

/// The hints in force as the facts give them, given a testing and the orders of that many finished runs.
#[tactic(auto, unfolding(crate::specs::Hints::hints_text))]
pub(crate) fn hints_over(
    alloc: Global,
    setup: &Setup,
    orders: &[RunOrder],
    facts: &Facts,
    testing: &Testing,
    finished: u32,
) -> Result<Text, NoMemory>
    ensures { IfOk result (λ text. (s : Covered) → StandsFor facts.now s testing.now → text ≡ hints_text setup.now finished (cover_of orders.now) s testing.now) }
{
    let mut text = format!(in alloc; "hints {finished}\n")?;
    let context = HintContext {
        setup,
        orders,
        facts,
        testing,
    };
    push_hints(alloc, &mut text, &context)?;
    Ok(Text::from_string(text))
}
