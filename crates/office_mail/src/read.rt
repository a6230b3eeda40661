//! Reads messages.
ghost use Rattle.std.specs.Prelude.{◌≡◌, ◌⊎◌, ◌<◌, ◌≤◌, ℕ, IfOk, IfSome, Err, Some, None, MatchResult, IsSome, length, true, false};
ghost use Rattle.std.specs.List.{list_all, list_any};
ghost use Rattle.std.specs.Str.{bytes_eq};
ghost use Rattle.std.specs.Option.{option_map};
ghost use Rattle.deb_control.specs.Paragraphs.{reading};
ghost use Rattle.office_mail.specs.declared.message.MailFault.TheVariants as fault;
ghost use Rattle.office_mail.specs.steps.Answers.{Gives, GivesBy};
ghost use Rattle.office_mail.specs.Kept.{IsPlace, place_of};
ghost use Rattle.office_mail_setup.specs.Kinds.{binary_fields_needed};
ghost use Rattle.office_mail.specs.Read.{read, all_have, has_binaries, has_fields_of, sender_from, sender_named, most_paragraphs, is_arch, knows_arch, knows_archs, message_of, paragraphs_say};
ghost use Rattle.office_mail.specs.Fields.{has_fields};
ghost use Rattle.office_mail_setup.specs.WholeText.{each_of, whole, needs};

use crate::bodies::body_of;
use crate::fields::{has_fields, required};
use crate::message::{MAX_NUMBER, MailFault, Message};
use deb_control::{Paragraph, ParagraphFault, Text};
use office_mail_setup::values::number_in;
use office_mail_setup::{Field, Kind, Role, Setup, all_paragraphs};
use std::alloc::Global;

/// The message in a text: its sender's place in the setup, its number, and its content. The first fault that applies is
/// reported, in the listed order; memory may run out at any point.
pub fn read_message(alloc: Global, setup: &Setup, text: &[u8]) -> Result<Message, MailFault>
    ensures exact { (result ≡ read setup.now text.now) ⊎ (result ≡ Err MailFault.NoMemory) }
    ensures place { IfOk result (λ message. IsPlace setup.now (place_of message)) }
{
    read_text(alloc, setup, text)
}

#[tactic(auto, unfolding(crate::specs::Read::read))]
fn read_text(alloc: Global, setup: &Setup, text: &[u8]) -> Result<Message, MailFault>
    ensures exact { Gives result (read setup.now text.now) }
    ensures place { IfOk result (λ message. IsPlace setup.now (place_of message)) }
{
    if text.len() > 65_536 {
        return Err(MailFault::TooLong);
    }
    let paragraphs = paragraphs_in(alloc, text)?;
    match paragraphs.as_slice() {
        [first, rest @ ..] => paragraphs_say(alloc, setup, first, rest),
        [] => Err(MailFault::MissingField(Field::From)),
    }
}

fn paragraphs_in<'a>(alloc: Global, text: &'a [u8]) -> Result<Vec<Paragraph<'a>>, MailFault>
    ensures { GivesBy (λ v. v.items) result (whole (reading text.now) fault.BadParagraph) }
{
    match all_paragraphs(alloc, text) {
        Ok(paragraphs) => Ok(paragraphs),
        Err(ParagraphFault::NoMemory) => Err(MailFault::NoMemory),
        Err(_) => Err(MailFault::BadParagraph),
    }
}

#[tactic(auto, unfolding(crate::specs::Read::paragraphs_say))]
fn paragraphs_say(
    alloc: Global,
    setup: &Setup,
    first: &Paragraph<'_>,
    rest: &[Paragraph<'_>],
) -> Result<Message, MailFault>
    ensures exact { Gives result (paragraphs_say setup.now first.now rest.now) }
    ensures place { IfOk result (λ message. IsPlace setup.now (place_of message)) }
{
    let from = required(first, Field::From)?;
    let number = required(first, Field::Number)?;
    let kind = Kind::named(required(first, Field::Kind)?);
    has_fields_of(kind, first, rest)?;
    message_of(alloc, setup, Head { from, number, kind }, first, rest)
}

/// Checks the fields of the kind.
#[tactic(auto, unfolding(crate::specs::Read::has_fields_of))]
fn has_fields_of(
    kind: Option<Kind>,
    first: &Paragraph<'_>,
    rest: &[Paragraph<'_>],
) -> Result<bool, MailFault>
    ensures { Gives result (has_fields_of kind first.now rest.now) }
{
    match kind {
        None => Ok(true),
        Some(Kind::Build) => has_binaries(rest),
        Some(kind) => has_fields(first, kind.fields_needed()),
    }
}

fn has_binaries(rest: &[Paragraph<'_>]) -> Result<bool, MailFault>
    ensures { Gives result (has_binaries rest.now) }
{
    if rest.is_empty() {
        return Err(MailFault::MissingField(Field::Package));
    }
    all_have(&[Field::Package, Field::Version, Field::Architecture], rest)
}

fn all_have(fields: &[Field], paragraphs: &[Paragraph<'_>]) -> Result<bool, MailFault>
    ensures { Gives result (all_have fields.now paragraphs.now) }
{
    'paragraphs: for paragraph in paragraphs {
        has_fields(paragraph, fields)?;
    }
    Ok(true)
}

/// What the first paragraph of a message states: its sender, its number, and its kind, if it names one.
#[derive(Clone, Copy)]
struct Head<'a> {
    from: &'a str,
    number: &'a str,
    kind: Option<Kind>,
}

#[tactic(auto, unfolding(crate::specs::Read::message_of))]
fn message_of(
    alloc: Global,
    setup: &Setup,
    head: Head<'_>,
    first: &Paragraph<'_>,
    rest: &[Paragraph<'_>],
) -> Result<Message, MailFault>
    ensures exact { Gives result (message_of setup.now head.entry.from.now head.entry.number.now head.entry.kind first.now rest.now) }
    ensures place { IfOk result (λ message. IsPlace setup.now (place_of message)) }
{
    let Some((sender, role)) = sender_named(setup, head.from) else {
        return Err(MailFault::UnknownSender);
    };
    let Some(number) = number_in(1, MAX_NUMBER, head.number) else {
        return Err(MailFault::BadNumber);
    };
    let Some(kind) = head.kind else {
        return Err(MailFault::UnknownKind);
    };
    if !role.may_send(kind) {
        return Err(MailFault::WrongRole);
    }
    if rest.len() > most_paragraphs(kind) {
        return Err(MailFault::TooManyParagraphs);
    }
    if !knows_archs(setup, kind, first, rest) {
        return Err(MailFault::UnknownArchitecture);
    }
    let body = body_of(alloc, setup, kind, first, rest)?;
    Ok(Message {
        sender,
        number,
        body,
    })
}

/// The place and the role of the sender with a name.
#[tactic(auto, unfolding(crate::specs::Read::sender_named))]
fn sender_named(setup: &Setup, name: &str) -> Option<(u32, Role)>
    ensures found { result ≡ sender_named setup.now name.now }
    ensures place { IfSome result (λ sender. sender.0 < length setup.now.senders) }
{
    let mut place = 0;
    'senders: for sender in setup.senders() {
        if sender.name.as_str() == name {
            return Some((place, sender.role));
        }
        place += 1;
    }
    None
}

/// The most paragraphs after the first.
fn most_paragraphs(kind: Kind) -> usize
    ensures { result ≡ most_paragraphs kind }
{
    match kind {
        Kind::Build => 63,
        _ => 0,
    }
}

#[tactic(auto, unfolding(crate::specs::Read::knows_archs))]
fn knows_archs(setup: &Setup, kind: Kind, first: &Paragraph<'_>, rest: &[Paragraph<'_>]) -> bool
    ensures { result ≡ knows_archs setup.now kind first.now rest.now }
{
    match kind {
        Kind::Drop => knows_arch(setup, first),
        Kind::Build => knows_each_arch(setup, rest),
        _ => true,
    }
}

fn knows_each_arch(setup: &Setup, paragraphs: &[Paragraph<'_>]) -> bool
    ensures { result ≡ list_all (knows_arch setup.now) paragraphs.now }
{
    'paragraphs: for paragraph in paragraphs {
        if !knows_arch(setup, paragraph) {
            return false;
        }
    }
    true
}

#[tactic(auto, unfolding(crate::specs::Read::knows_arch))]
fn knows_arch(setup: &Setup, paragraph: &Paragraph<'_>) -> bool
    ensures { result ≡ knows_arch setup.now paragraph.now }
{
    match paragraph.field(Field::Architecture.name()) {
        Some(name) => is_arch(setup, name),
        None => true,
    }
}

/// A listed architecture, or `all`.
fn is_arch(setup: &Setup, name: &str) -> bool
    ensures { result ≡ is_arch setup.now.archs name.now }
{
    name == "all" || is_listed(setup.archs().as_slice(), name)
}

fn is_listed(archs: &[Text], name: &str) -> bool
    ensures { result ≡ list_any (bytes_eq name.now) archs.now }
{
    'archs: for arch in archs {
        if name == arch.as_str() {
            return true;
        }
    }
    false
}
