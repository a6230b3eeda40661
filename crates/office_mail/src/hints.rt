//! Reads hints of the release team.
ghost use Rattle.std.specs.Prelude.{◌≡◌, map, true, false, IfOk, IfNone, IfSome};
ghost use Rattle.std.specs.List.{list_any, before_first, after_first};
ghost use Rattle.office_mail.specs.steps.Answers.{Gives, GivesBy};
ghost use Rattle.testing_rules_items.specs.Distinct.{is_distinct};
ghost use Rattle.office_mail.specs.Hints.{name_in, item_in, names_in, items_in, group_in, aged_in, all_in, hint_of, hint_in, is_slash};
ghost use Rattle.office_mail_setup.specs.WholeText.{each_of};
ghost use Rattle.testing_rules_items.specs.declared.item.HintItem.{HintItem as HintItemValue};

use crate::fields::version_from;
use crate::message::MailFault;
use deb_control::{Text, index_of, is_package_name, split_around};
use office_mail_setup::Field;
use office_mail_setup::values::{days_in, words};
use std::alloc::{AllocError, Global};
use testing_rules_items::{Hint, HintItem, HintItems, Names, are_distinct};

const BAD_HINT: MailFault = MailFault::BadValue(Field::Hint);

/// The hint in a text.
#[tactic(auto, unfolding(crate::specs::Hints::hint_in))]
pub fn hint_in(alloc: Global, text: &str) -> Result<Hint, MailFault>
    ensures { Gives result (hint_in text.now) }
{
    let words = words(alloc, text)?;
    match words.as_slice() {
        [word, rest @ ..] => hint_of(alloc, word, rest),
        [] => Err(BAD_HINT),
    }
}

/// The hint with this word and the words after it.
#[tactic(auto, unfolding(crate::specs::Hints::hint_of))]
fn hint_of(alloc: Global, word: &str, rest: &[&str]) -> Result<Hint, MailFault>
    ensures { Gives result (hint_of word.now (map (λ w. w.now) rest.now)) }
{
    match word {
        "block" => Ok(Hint::Block(names_in(alloc, rest)?)),
        "unblock" => Ok(Hint::Unblock(items_in(alloc, rest)?)),
        "easy" => Ok(Hint::Easy(group_in(alloc, rest)?)),
        "age-days" => aged_in(alloc, rest),
        "remove" => Ok(Hint::Remove(items_in(alloc, rest)?)),
        "block-all" => all_in(rest),
        _ => Err(BAD_HINT),
    }
}

/// A number of days, and then items.
#[tactic(auto, unfolding(crate::specs::Hints::aged_in))]
fn aged_in(alloc: Global, words: &[&str]) -> Result<Hint, MailFault>
    ensures { Gives result (aged_in (map (λ w. w.now) words.now)) }
{
    let [days, rest @ ..] = words else {
        return Err(BAD_HINT);
    };
    let Some(days) = days_in(days) else {
        return Err(BAD_HINT);
    };
    let items = items_in(alloc, rest)?;
    Ok(Hint::AgeDays(days, items))
}

/// Only one thing can be blocked as a whole: `source`.
#[tactic(auto, unfolding(crate::specs::Hints::all_in))]
fn all_in(words: &[&str]) -> Result<Hint, MailFault>
    ensures { Gives result (all_in (map (λ w. w.now) words.now)) }
{
    let [what] = words else {
        return Err(BAD_HINT);
    };
    if *what == "source" {
        Ok(Hint::BlockAll)
    } else {
        Err(BAD_HINT)
    }
}

/// Names of sources, at least one.
#[tactic(auto, unfolding(crate::specs::Hints::names_in))]
fn names_in(alloc: Global, words: &[&str]) -> Result<Names, MailFault>
    ensures { Gives result (names_in (map (λ w. w.now) words.now)) }
{
    if words.is_empty() {
        return Err(BAD_HINT);
    }
    let names = each_name(alloc, words)?;
    Ok(Names::of(names))
}

fn each_name(alloc: Global, words: &[&str]) -> Result<Vec<Text>, MailFault>
    ensures { GivesBy (λ v. v.items) result (each_of name_in (map (λ w. w.now) words.now)) }
{
    let mut names = Vec::new(alloc);
    'words: for word in words {
        names.push(name_in(alloc, word)?)?;
    }
    Ok(names)
}

#[tactic(auto, unfolding(crate::specs::Hints::name_in))]
fn name_in(alloc: Global, word: &str) -> Result<Text, MailFault>
    ensures { Gives result (name_in word.now) }
{
    if !is_package_name(word.as_bytes()) {
        return Err(BAD_HINT);
    }
    Ok(Text::from_str(alloc, word)?)
}

/// Items, at least one.
#[tactic(auto, unfolding(crate::specs::Hints::items_in))]
fn items_in(alloc: Global, words: &[&str]) -> Result<HintItems, MailFault>
    ensures { Gives result (items_in (map (λ w. w.now) words.now)) }
{
    if words.is_empty() {
        return Err(BAD_HINT);
    }
    let items = each_item(alloc, words)?;
    Ok(HintItems::of(items))
}

fn each_item(alloc: Global, words: &[&str]) -> Result<Vec<HintItem>, MailFault>
    ensures { GivesBy (λ v. v.items) result (each_of item_in (map (λ w. w.now) words.now)) }
{
    let mut items = Vec::new(alloc);
    'words: for word in words {
        items.push(item_in(alloc, word)?)?;
    }
    Ok(items)
}

/// A source at a version, with the first `/` between them.
#[tactic(auto, unfolding(crate::specs::Hints::item_in, deb_control::specs::Relations::is_version))]
fn item_in(alloc: Global, word: &str) -> Result<HintItem, MailFault>
    ensures { Gives result (item_in word.now) }
{
    let Some((name, version)) = split_item(word) else {
        return Err(BAD_HINT);
    };
    if !is_package_name(name.as_bytes()) {
        return Err(BAD_HINT);
    }
    let version = version_from(alloc, Field::Hint, version)?;
    let name = Text::from_str(alloc, name)?;
    Ok(HintItem { name, version })
}

/// The text before and after the first `/`.
fn split_item(word: &str) -> Option<(&str, &str)>
    ensures none { IfNone result (list_any is_slash word.now ≡ false) }
    ensures some { IfSome result (λ parts. (list_any is_slash word.now ≡ true) × (parts.0.now ≡ before_first is_slash word.now) × (parts.1.now ≡ after_first is_slash word.now)) }
{
    let slash = index_of(word.as_bytes(), b'/');
    if slash == word.len() {
        return None;
    }
    Some(split_around(word, slash))
}

/// Items that all name different sources.
#[tactic(auto, unfolding(crate::specs::Hints::group_in))]
fn group_in(alloc: Global, words: &[&str]) -> Result<HintItems, MailFault>
    ensures { Gives result (group_in (map (λ w. w.now) words.now)) }
{
    let items = items_in(alloc, words)?;
    if !name_each_once(alloc, items.as_slice())? {
        return Err(BAD_HINT);
    }
    Ok(items)
}

fn name_each_once(alloc: Global, items: &[HintItem]) -> Result<bool, AllocError>
    ensures { IfOk result (λ once. once ≡ is_distinct (map (λ (i : HintItemValue). i.name) items.now)) }
{
    let names = names_of(alloc, items)?;
    Ok(are_distinct(&names))
}

fn names_of<'a>(alloc: Global, items: &'a [HintItem]) -> Result<Vec<&'a str>, AllocError>
    ensures { IfOk result (λ v. map (λ w. w.now) v.items ≡ map (λ (i : HintItemValue). i.name) items.now) }
{
    let mut names = Vec::new(alloc);
    'items: for item in items {
        names.push(item.name.as_str())?;
    }
    Ok(names)
}
