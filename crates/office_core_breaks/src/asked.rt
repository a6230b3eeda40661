//! What is asked about: that a source moves, that a group moves as one, or that versions leave.

ghost use Rattle.std.specs.Prelude.{◌≡◌, ◌⊎◌, Err, IfOk};
ghost use Rattle.office_mail.specs.steps.Answers.{Gives};
ghost use Rattle.office_mail.specs.Read.{read};
ghost use Rattle.office_mail.specs.declared.message.Body.TheVariants as bodies;
ghost use Rattle.testing_rules_items.specs.declared.item.Item.TheVariants as items;
ghost use Rattle.office_core_breaks.specs.Asked as rules;

use deb_control::{Text, is_package_name};
use office_core_facts::release::release_place;
use office_core_replies::name_at;
use office_mail::{Body, MailFault, Message, Setup, read_message};
use office_mail_setup::Field;
use std::alloc::{AllocError, Global};
use testing_rules_items::{Hint, HintItems, Item};

/// A change of testing that isn't made.
#[derive(Drop)]
pub enum Change {
    /// This source moves to its unstable version.
    Source(Text),
    /// The sources of these items move as one.
    Group(HintItems),
    /// These versions leave testing.
    Removal(HintItems),
}

/// A change, and the words that asked about it.
#[derive(Drop)]
pub struct Question {
    pub words: Text,
    pub change: Change,
}

/// The message of a hint.
#[tactic(auto, unfolding(crate::specs::Asked::hint_text))]
fn hint_text(alloc: Global, setup: &Setup, hint: &str) -> Result<Text, AllocError>
    ensures { IfOk result (λ text. text ≡ rules.hint_text setup.now hint.now) }
{
    let name = name_at(setup, release_place(setup));
    let text = format!(in alloc; "From: {name}\nNumber: 1\nKind: hint\nHint: {hint}\n")?;
    Ok(Text::from_string(text))
}

/// What a hint asks to change.
fn change_by(hint: Hint) -> Result<Change, MailFault>
    ensures { result ≡ rules.change_in_body (bodies.Item (items.Hint hint)) }
{
    match hint {
        Hint::Easy(items) => Ok(Change::Group(items)),
        Hint::Remove(items) => Ok(Change::Removal(items)),
        Hint::Block(_) | Hint::Unblock(_) | Hint::AgeDays(_, _) => {
            Err(MailFault::BadValue(Field::Hint))
        }
        Hint::BlockAll => Err(MailFault::BadValue(Field::Hint)),
    }
}

/// What an item asks to change by its hint.
fn change_in_item(item: Item) -> Result<Change, MailFault>
    ensures { result ≡ rules.change_in_body (bodies.Item item) }
{
    match item {
        Item::Hint(hint) => change_by(hint),
        Item::Upload { .. } | Item::Dropped { .. } | Item::Build(_) | Item::Bug { .. } => {
            Err(MailFault::BadValue(Field::Hint))
        }
        Item::Unhint(_) | Item::Delays { .. } | Item::Nothing => {
            Err(MailFault::BadValue(Field::Hint))
        }
    }
}

/// What a message asks to change by its hint.
fn change_in(message: Message) -> Result<Change, MailFault>
    ensures { result ≡ rules.change_in_body message.body }
{
    match message.body {
        Body::Item(item) => change_in_item(item),
        Body::Run(_) => Err(MailFault::BadValue(Field::Hint)),
    }
}

/// What the text of a message asks to change by its hint.
fn change_by_text(alloc: Global, setup: &Setup, text: &[u8]) -> Result<Change, MailFault>
    ensures { Gives result (rules.change_in (read setup.now text.now)) }
{
    match read_message(alloc, setup, text) {
        Ok(message) => change_in(message),
        Err(fault) => Err(fault),
    }
}

/// What some words ask to change.
#[tactic(auto, unfolding(crate::specs::Asked::change_of))]
fn change_of(alloc: Global, setup: &Setup, words: &str) -> Result<Change, MailFault>
    ensures { Gives result (rules.change_of setup.now words.now) }
{
    if is_package_name(words.as_bytes()) {
        return Ok(Change::Source(Text::from_str(alloc, words)?));
    }
    let text = hint_text(alloc, setup, words)?;
    change_by_text(alloc, setup, text.as_str().as_bytes())
}

/// What some words ask.
fn question_of(alloc: Global, setup: &Setup, words: &str) -> Result<Question, MailFault>
    ensures { Gives result (rules.question_in setup.now words.now) }
{
    let change = change_of(alloc, setup, words)?;
    let words = Text::from_str(alloc, words)?;
    Ok(Question { words, change })
}

/// What some words ask: the name of a source asks about its move, and a hint `easy` or `remove` about what it asks for.
/// Others are refused as a message of such a hint would be. `NoMemory` may come at any place.
pub fn question_in(alloc: Global, setup: &Setup, words: &str) -> Result<Question, MailFault>
    ensures { (result ≡ rules.question_in setup.now words.now) ⊎ (result ≡ Err MailFault.NoMemory) }
{
    question_of(alloc, setup, words)
}
