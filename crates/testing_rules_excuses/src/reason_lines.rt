//! The origins of the reasons, in lines.

ghost use Rattle.std.specs.Prelude.{◌≡◌, ◌++◌, IfOk, OnOk, map, option_copied, string_bytes};
ghost use Rattle.std.specs.List.{flat_map};
ghost use Rattle.testing_rules_model.specs.JudgedRows.{row_of};
ghost use Rattle.testing_rules_excuses.specs.Lines as lines;
ghost use Rattle.testing_rules_excuses.specs.Lines.{IsOriginText};
ghost use Rattle.testing_rules_excuses.specs.Origins as rules;
ghost use Rattle.testing_rules_excuses.specs.steps.Origins.{origin_of};
ghost use Rattle.testing_rules_excuses.specs.steps.Said.{said_lists};
ghost use Rattle.testing_rules_excuses.specs.steps.Telling as told;
ghost use Rattle.testing_rules_excuses.specs.steps.Telling.{IsOrderKnown};

use crate::bug_search::are_by_number;
use crate::messages::{Origin, age_hint, origins_by};
use crate::readiness::ready_day;
use crate::source_facts::SourceFacts;
use deb_control::Text;
use deb_version::NoMemory;
use jiff::civil;
use jiff_core::civil::Date;
use std::alloc::{AllocError, Global};
use testing_rules_items::Archs;
use testing_rules_model::{BugIn, Excuse, HintIn, LentRow, Reason, UploadIn};

/// A source, what is said about it, the day on which it is old enough, and the names for its lines. The bugs may be
/// known to be ordered by number.
#[derive(Clone, Copy)]
struct LineInput<'t, 'a> {
    senders: &'t [Text],
    archs: &'t Archs,
    said: &'t SourceFacts<'a>,
    ordered: bool,
    upload: &'t UploadIn,
    ready: Option<Date>,
}

/// The name of the sender at a place, or empty without one.
fn sender_name(senders: &[Text], place: u32) -> &str
    ensures { result.now ≡ lines.sender_name senders.now place }
{
    match senders.get(place as usize) {
        Some(name) => name.as_str(),
        None => "",
    }
}

/// The line on the message of the unstable source.
fn push_upload(text: &mut String, senders: &[Text], upload: &UploadIn) -> Result<(), AllocError>
    ensures { OnOk result (string_bytes text.new ≡ string_bytes text.old ++ lines.upload_line senders.now upload.now) }
{
    let (sender, number, day) = (
        sender_name(senders, upload.sender),
        upload.number,
        civil::Date::from_plain(upload.day),
    );
    writeln!(text, "upload {sender} {number} {day}")
}

/// The end of a line: the message that is its origin.
fn push_message(
    text: &mut String,
    senders: &[Text],
    sender: u32,
    number: u32,
) -> Result<(), AllocError>
    ensures { OnOk result (string_bytes text.new ≡ string_bytes text.old ++ lines.by_message senders.now sender number) }
{
    let name = sender_name(senders, sender);
    writeln!(text, " by {name} {number}")
}

fn push_day(text: &mut String, ready: Option<Date>) -> Result<(), AllocError>
    ensures { OnOk result (string_bytes text.new ≡ string_bytes text.old ++ lines.day_words ready) }
{
    match ready {
        Some(day) => {
            let day = civil::Date::from_plain(day);
            write!(text, " on {day}")
        }
        None => Ok(()),
    }
}

/// The end of a line: what sets the needed days.
fn push_setter(text: &mut String, senders: &[Text], hint: Option<&HintIn>) -> Result<(), AllocError>
    ensures { OnOk result (string_bytes text.new ≡ string_bytes text.old ++ lines.setter_words senders.now (option_copied hint.entry)) }
{
    match hint {
        Some(hint) => push_message(text, senders, hint.sender, hint.number),
        None => text.push_str(" by urgency\n"),
    }
}

/// The line on the day on which the source is old enough.
fn push_old_enough(
    text: &mut String,
    senders: &[Text],
    hint: Option<&HintIn>,
    ready: Option<Date>,
) -> Result<(), AllocError>
    ensures { OnOk result (string_bytes text.new ≡ string_bytes text.old ++ lines.old_enough_line senders.now (option_copied hint.entry) ready) }
{
    text.push_str("old enough")?;
    push_day(text, ready)?;
    push_setter(text, senders, hint)
}

fn push_bug(text: &mut String, senders: &[Text], bug: &BugIn) -> Result<(), AllocError>
    ensures { OnOk result (string_bytes text.new ≡ string_bytes text.old ++ lines.bug_line senders.now bug.now) }
{
    write!(text, "new bug {}", bug.bug)?;
    push_message(text, senders, bug.sender, bug.number)
}

/// A binary's name and version, and the version of its source.
fn push_binary(text: &mut String, row: &LentRow) -> Result<(), AllocError>
    ensures { OnOk result (string_bytes text.new ≡ string_bytes text.old ++ lines.binary_words (row_of row.now)) }
{
    let (name, version) = (row.binary.name.as_str(), row.binary.version.text());
    write!(
        text,
        "{name} {version} of {}",
        row.binary.source_version.text()
    )
}

/// The line on a row that isn't current.
fn push_row(
    text: &mut String,
    senders: &[Text],
    archs: &Archs,
    row: &LentRow,
) -> Result<(), AllocError>
    ensures { OnOk result (string_bytes text.new ≡ string_bytes text.old ++ lines.row_line senders.now archs.now (row_of row.now)) }
{
    write!(text, "missing on {} ", archs.name(row.arch))?;
    push_binary(text, row)?;
    push_message(text, senders, row.sender, row.number)
}

fn push_hint(
    text: &mut String,
    senders: &[Text],
    words: &str,
    hint: &HintIn,
) -> Result<(), AllocError>
    ensures { OnOk result (string_bytes text.new ≡ string_bytes text.old ++ lines.hint_line senders.now words.now hint.now) }
{
    text.push_str(words)?;
    push_message(text, senders, hint.sender, hint.number)
}

/// The line on a message that gave a reason.
fn push_origin(
    text: &mut String,
    senders: &[Text],
    archs: &Archs,
    origin: Origin,
) -> Result<(), AllocError>
    ensures { OnOk result (string_bytes text.new ≡ string_bytes text.old ++ lines.origin_line senders.now archs.now (origin_of origin.entry)) }
{
    match origin {
        Origin::Bug(bug) => push_bug(text, senders, bug),
        Origin::Row(row) => push_row(text, senders, archs, &row),
        Origin::Block(hint) => push_hint(text, senders, "blocked", hint),
        Origin::Removal(hint) => push_hint(text, senders, "removal asked", hint),
    }
}

fn push_origins(
    text: &mut String,
    senders: &[Text],
    archs: &Archs,
    origins: &[Origin],
) -> Result<(), AllocError>
    ensures { OnOk result (string_bytes text.new ≡ string_bytes text.old ++ flat_map (lines.origin_line senders.now archs.now) (map origin_of origins.now)) }
{
    for origin in origins {
        push_origin(text, senders, archs, *origin)?;
    }
    Ok(())
}

/// The lines on the messages that gave a reason.
fn push_messages(
    alloc: Global,
    text: &mut String,
    asked: &LineInput,
    reason: Reason,
) -> Result<(), NoMemory>
    requires { IsOrderKnown asked.now }
    ensures { OnOk result (string_bytes text.new ≡ string_bytes text.old
        ++ flat_map (lines.origin_line asked.now.senders.now asked.now.archs.now) (rules.origins_of (said_lists asked.now.said.now) asked.now.upload.now reason)) }
{
    let given = origins_by(alloc, asked.said, asked.ordered, asked.upload, reason)?;
    Ok(push_origins(text, asked.senders, asked.archs, &given)?)
}

/// The upload still has to wait.
fn is_too_young(reason: Reason) -> bool
    ensures { result ≡ lines.is_too_young reason }
{
    matches!(reason, Reason::TooYoung)
}

/// The lines on a reason.
fn push_reason(
    alloc: Global,
    text: &mut String,
    asked: &LineInput,
    reason: Reason,
) -> Result<(), NoMemory>
    requires { IsOrderKnown asked.now }
    ensures { OnOk result (string_bytes text.new ≡ string_bytes text.old ++ told.reason_told asked.now reason) }
{
    if is_too_young(reason) {
        let hint = age_hint(&asked.said.hints, asked.upload);
        Ok(push_old_enough(text, asked.senders, hint, asked.ready)?)
    } else {
        push_messages(alloc, text, asked, reason)
    }
}

fn push_reasons(
    alloc: Global,
    text: &mut String,
    asked: &LineInput,
    reasons: &[Reason],
) -> Result<(), NoMemory>
    requires { IsOrderKnown asked.now }
    ensures { OnOk result (string_bytes text.new ≡ string_bytes text.old ++ flat_map (told.reason_told asked.now) reasons.now) }
{
    for reason in reasons {
        push_reason(alloc, text, asked, *reason)?;
    }
    Ok(())
}

/// The lines on the reasons of the source's excuse.
fn push_excuse(
    alloc: Global,
    text: &mut String,
    asked: &LineInput,
    excuse: Option<&Excuse>,
) -> Result<(), NoMemory>
    requires { IsOrderKnown asked.now }
    ensures { OnOk result (string_bytes text.new ≡ string_bytes text.old ++ told.excuse_told asked.now (option_copied excuse.entry)) }
{
    match excuse {
        Some(excuse) => push_reasons(alloc, text, asked, excuse.reasons.as_slice()),
        None => Ok(()),
    }
}

/// All lines of the source.
fn source_lines(alloc: Global, asked: &LineInput, excuse: Option<&Excuse>) -> Result<Text, NoMemory>
    requires { IsOrderKnown asked.now }
    ensures { IfOk result (λ text. text ≡ told.source_told asked.now (option_copied excuse.entry)) }
{
    let mut text = String::new(alloc);
    push_upload(&mut text, asked.senders, asked.upload)?;
    push_excuse(alloc, &mut text, asked, excuse)?;
    Ok(Text::from_string(text))
}

/// The origins of an unstable source's reasons, in lines: the message of its upload, then for each reason of its excuse
/// the day on which it is old enough or the messages that gave the reason. The senders' names are in the order of their
/// places. The only error is running out of memory.
pub fn origin_lines(
    alloc: Global,
    senders: &[Text],
    archs: &Archs,
    said: &SourceFacts,
    upload: &UploadIn,
    excuse: Option<&Excuse>,
) -> Result<Text, NoMemory>
    ensures { IfOk result (λ text. IsOriginText senders.now archs.now (said_lists said.now) upload.now (option_copied excuse.entry) text) }
{
    let ready = ready_day(upload, excuse);
    let ordered = are_by_number(said.bugs);
    let asked = LineInput {
        senders,
        archs,
        said,
        ordered,
        upload,
        ready,
    };
    let text = source_lines(alloc, &asked, excuse)?;
    Ok(text)
}
