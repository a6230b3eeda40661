//! Reads setups.
ghost use Rattle.std.specs.Prelude.{◌≡◌, ◌∷◌, List, ℕ, map, IfOk};
ghost use Rattle.std.specs.List.{list_all};
ghost use Rattle.deb_control.specs.Paragraphs.{reading};
ghost use Rattle.deb_control.specs.Relations.{is_qualifier_char};
ghost use Rattle.office_mail_setup.specs.declared.setup.SetupFault.TheVariants as fault;
ghost use Rattle.office_mail_setup.specs.SetupAnswers.{SetupGives, SetupGivesBy};
ghost use Rattle.office_mail_setup.specs.Setup.{setup_in, setup_of, setup_by, stated, sender_texts, are_senders, is_sender_name, sender_in, are_roles, same_role, count_of};
ghost use Rattle.office_mail_setup.specs.WholeText.{each_of, whole};

use crate::paragraphs::all_paragraphs;
use crate::setup::{Role, Sender, Setup, SetupFault, SetupField};
use crate::values::words;
use deb_control::{Paragraph, ParagraphFault, Text, is_qualifier_char};
use std::alloc::{AllocError, Global};
use testing_rules_items::{Archs, are_archs, are_distinct};

/// The content of a sender's paragraph.
#[derive(Clone, Copy)]
struct SenderLine<'a> {
    name: &'a str,
    role: &'a str,
}

/// The setup in a text, or its first fault.
#[tactic(auto, unfolding(crate::specs::Setup::setup_in))]
pub fn setup_in(alloc: Global, text: &[u8]) -> Result<Setup, SetupFault>
    ensures { SetupGives result (setup_in text.now) }
{
    let paragraphs = paragraphs_in(alloc, text)?;
    match paragraphs.as_slice() {
        [first, rest @ ..] => setup_of(alloc, text.len(), first, rest),
        [] => Err(SetupFault::MissingField(SetupField::Architectures)),
    }
}

fn paragraphs_in<'a>(alloc: Global, text: &'a [u8]) -> Result<Vec<Paragraph<'a>>, SetupFault>
    ensures { SetupGivesBy (λ v. v.items) result (whole (reading text.now) fault.BadParagraph) }
{
    match all_paragraphs(alloc, text) {
        Ok(paragraphs) => Ok(paragraphs),
        Err(ParagraphFault::NoMemory) => Err(SetupFault::NoMemory),
        Err(_) => Err(SetupFault::BadParagraph),
    }
}

#[tactic(auto, unfolding(crate::specs::Setup::setup_of))]
fn setup_of(
    alloc: Global,
    size: usize,
    first: &Paragraph<'_>,
    rest: &[Paragraph<'_>],
) -> Result<Setup, SetupFault>
    ensures { SetupGives result (setup_of size (first.now ∷ rest.now)) }
{
    let archs = stated(first, SetupField::Architectures)?;
    let senders = each_sender(alloc, rest)?;
    let archs = words(alloc, archs)?;
    setup_by(alloc, size, &archs, &senders)
}

#[tactic(auto, unfolding(crate::specs::Setup::stated))]
fn stated<'a>(paragraph: &Paragraph<'a>, field: SetupField) -> Result<&'a str, SetupFault>
    ensures { SetupGivesBy (λ text. text.now) result (stated paragraph.now field) }
{
    match paragraph.field(field.name()) {
        Some(text) => Ok(text),
        None => Err(SetupFault::MissingField(field)),
    }
}

#[tactic(auto, unfolding(crate::specs::Setup::sender_texts))]
fn sender_texts<'a>(paragraph: &Paragraph<'a>) -> Result<SenderLine<'a>, SetupFault>
    ensures { SetupGivesBy (λ s. (s.name.now, s.role.now)) result (sender_texts paragraph.now) }
{
    let name = stated(paragraph, SetupField::Sender)?;
    let role = stated(paragraph, SetupField::Role)?;
    Ok(SenderLine { name, role })
}

fn each_sender<'a>(
    alloc: Global,
    paragraphs: &[Paragraph<'a>],
) -> Result<Vec<SenderLine<'a>>, SetupFault>
    ensures { SetupGivesBy (λ v. map (λ s. (s.name.now, s.role.now)) v.items) result (each_of sender_texts paragraphs.now) }
{
    let mut senders = Vec::new(alloc);
    'paragraphs: for paragraph in paragraphs {
        senders.push(sender_texts(paragraph)?)?;
    }
    Ok(senders)
}

#[tactic(auto, unfolding(crate::specs::Setup::setup_by))]
fn setup_by(
    alloc: Global,
    size: usize,
    archs: &[&str],
    senders: &[SenderLine<'_>],
) -> Result<Setup, SetupFault>
    ensures { SetupGives result (setup_by size (map (λ a. a.now) archs.now) (map (λ s. (s.name.now, s.role.now)) senders.now)) }
{
    if !are_archs(archs) {
        return Err(SetupFault::BadArchitecture);
    }
    let names = names_of(alloc, senders)?;
    if !are_senders(&names) {
        return Err(SetupFault::BadSender);
    }
    let senders = each_sender_in(alloc, senders)?;
    if !are_roles(&senders) {
        return Err(SetupFault::BadRoles);
    }
    if archs.len() > 16 || senders.len() > 16 || size > 65_536 {
        return Err(SetupFault::TooMany);
    }
    let archs = texts(alloc, archs)?;
    Ok(Setup::of(Archs::of(archs), senders))
}

fn are_name_chars(chars: &[u8]) -> bool
    ensures { result ≡ list_all is_qualifier_char chars.now }
{
    chars.iter().all(|c| is_qualifier_char(*c))
}

#[tactic(auto, unfolding(crate::specs::Setup::are_senders))]
fn are_senders(names: &[&str]) -> bool
    ensures { result ≡ are_senders (map (λ n. n.now) names.now) }
{
    are_sender_names(names) && are_distinct(names)
}

fn are_sender_names(names: &[&str]) -> bool
    ensures { result ≡ list_all is_sender_name (map (λ n. n.now) names.now) }
{
    'names: for name in names {
        if !is_sender_name(name.as_bytes()) {
            return false;
        }
    }
    true
}

#[tactic(auto, unfolding(crate::specs::Setup::is_sender_name))]
fn is_sender_name(name: &[u8]) -> bool
    ensures { result ≡ is_sender_name name.now }
{
    match name {
        [first, rest @ ..] => {
            b'a' <= *first && *first <= b'z' && are_name_chars(rest) && rest.len() <= 31
        }
        [] => false,
    }
}

fn names_of<'a>(alloc: Global, senders: &[SenderLine<'a>]) -> Result<Vec<&'a str>, AllocError>
    ensures { IfOk result (λ v. map (λ x. x.now) v.items ≡ map (λ (s : List ℕ × List ℕ). s.0) (map (λ s. (s.name.now, s.role.now)) senders.now)) }
{
    let mut names = Vec::new(alloc);
    'senders: for sender in senders {
        names.push(sender.name)?;
    }
    Ok(names)
}

fn each_sender_in(alloc: Global, lines: &[SenderLine<'_>]) -> Result<Vec<Sender>, SetupFault>
    ensures { SetupGivesBy (λ v. v.items) result (each_of sender_in (map (λ s. (s.name.now, s.role.now)) lines.now)) }
{
    let mut senders = Vec::new(alloc);
    'lines: for line in lines {
        senders.push(sender_in(alloc, line.name, line.role)?)?;
    }
    Ok(senders)
}

#[tactic(auto, unfolding(crate::specs::Setup::sender_in))]
fn sender_in(alloc: Global, name: &str, role: &str) -> Result<Sender, SetupFault>
    ensures { SetupGives result (sender_in (name.now, role.now)) }
{
    let Some(role) = Role::named(role) else {
        return Err(SetupFault::BadRoles);
    };
    let name = Text::from_str(alloc, name)?;
    Ok(Sender { name, role })
}

#[tactic(auto, unfolding(crate::specs::Setup::are_roles))]
fn are_roles(senders: &[Sender]) -> bool
    ensures { result ≡ are_roles senders.now }
{
    count_of(Role::Upload, senders) >= 1
        && count_of(Role::Build, senders) >= 1
        && count_of(Role::Bugs, senders) == 1
        && count_of(Role::Release, senders) == 1
        && count_of(Role::Runs, senders) == 1
}

fn count_of(role: Role, senders: &[Sender]) -> usize
    ensures { result ≡ count_of role senders.now }
{
    let mut count = 0;
    'senders: for sender in senders {
        if same_role(role, sender.role) {
            count += 1;
        }
    }
    count
}

fn same_role(a: Role, b: Role) -> bool
    ensures { result ≡ same_role a b }
{
    match a {
        Role::Upload => matches!(b, Role::Upload),
        Role::Build => matches!(b, Role::Build),
        Role::Bugs => matches!(b, Role::Bugs),
        Role::Release => matches!(b, Role::Release),
        Role::Runs => matches!(b, Role::Runs),
    }
}

fn texts(alloc: Global, names: &[&str]) -> Result<Vec<Text>, AllocError>
    ensures { IfOk result (λ v. v.items ≡ map (λ n. n.now) names.now) }
{
    let mut texts = Vec::new(alloc);
    'names: for name in names {
        texts.push(Text::from_str(alloc, name)?)?;
    }
    Ok(texts)
}
