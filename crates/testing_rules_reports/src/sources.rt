//! What the reports of a run say about one source.

ghost use Rattle.std.specs.Prelude.{◌≡◌, ◌++◌, [], false, IfOk, OnOk, drop, filter, nat_eq, string_bytes};
ghost use Rattle.std.specs.List.{position};
ghost use Rattle.std.specs.List.{before_first, flat_map, list_any, starts_with};
ghost use Rattle.std.specs.Str.Lines.{lines};
ghost use Rattle.testing_rules_reports.specs.Changes.{behind};
ghost use Rattle.testing_rules_reports.specs.steps.LentLines.{lent_lines};
ghost use Rattle.testing_rules_reports.specs.Sources.{excuse_of, is_own, is_space, names, own_lines, source_text, update_on, waits_in};

use crate::lines::{is_inner, lines_of, push_behind};
use deb_control::{NoMemory, Text};
use std::alloc::{AllocError, Global};

/// The place of the first space of a line.
fn space_at(line: &str) -> Option<usize>
    ensures { result ≡ position is_space line.now }
{
    line.as_bytes().iter().position(|c| *c == b' ')
}

/// The first word of a line.
fn first_word(line: &str) -> &str
    ensures { result.now ≡ before_first is_space line.now }
{
    match space_at(line) {
        Some(end) => line.split_at(end).0,
        None => line,
    }
}

/// Whether a name is among the words of a line after its first one.
fn names(line: &str, name: &str) -> bool
    ensures { result ≡ names name.now line.now }
{
    line.split(' ').skip(1).any(|word| name == word)
}

/// Whether a line of excuses is about a source, given whether the line before it is.
fn is_own(name: &str, before: bool, line: &str) -> bool
    ensures { result ≡ is_own name.now before line.now }
{
    if is_inner(line) {
        before
    } else {
        first_word(line) == name
    }
}

/// Adds the lines of excuses about a source.
fn push_own(text: &mut String, name: &str, found: &[&str]) -> Result<(), AllocError>
    ensures { OnOk result (string_bytes text.new ≡ string_bytes text.old ++ flat_map (behind []) (own_lines name.now false (lent_lines found.now))) }
{
    let mut own = false;
    'lines: for line in found {
        own = is_own(name, own, line);
        if own {
            push_behind(text, "", line)?;
        }
    }
    Ok(())
}

/// The lines of an update that name a source.
fn push_named(text: &mut String, name: &str, found: &[&str]) -> Result<(), AllocError>
    ensures { OnOk result (string_bytes text.new ≡ string_bytes text.old ++ flat_map (behind []) (filter (names name.now) (lent_lines found.now))) }
{
    for line in found {
        if names(line, name) {
            push_behind(text, "", line)?;
        }
    }
    Ok(())
}

/// The lines after the first one.
fn behind_heading<'a, 'b>(found: &'b [&'a str]) -> &'b [&'a str]
    ensures { result.now ≡ drop 1 found.now }
{
    match found {
        [_, rest @ ..] => rest,
        [] => found,
    }
}

/// A source's excuse.
fn push_excuse(
    alloc: Global,
    text: &mut String,
    name: &str,
    excuses: &str,
) -> Result<(), AllocError>
    ensures { OnOk result (string_bytes text.new ≡ string_bytes text.old ++ flat_map (behind []) (excuse_of name.now excuses.now)) }
{
    let excuses = lines_of(alloc, excuses)?;
    push_own(text, name, behind_heading(&excuses))
}

/// The lines of an update that name a source.
fn push_update(alloc: Global, text: &mut String, name: &str, update: &str) -> Result<(), AllocError>
    ensures { OnOk result (string_bytes text.new ≡ string_bytes text.old ++ flat_map (behind []) (update_on name.now update.now)) }
{
    let update = lines_of(alloc, update)?;
    push_named(text, name, behind_heading(&update))
}

/// What the reports of a run say about a source: a line on the run and the source, the source's excuse, then a text,
/// then each line of the update that names it.
pub fn source_text(
    alloc: Global,
    run: u32,
    name: &str,
    excuses: &str,
    update: &str,
    origins: &str,
) -> Result<Text, NoMemory>
    ensures { IfOk result (λ text. text ≡ source_text run name.now excuses.now update.now origins.now) }
{
    let mut text = format!(in alloc; "why {run} {name}\n")?;
    push_excuse(alloc, &mut text, name, excuses)?;
    text.push_str(origins)?;
    push_update(alloc, &mut text, name, update)?;
    Ok(Text::from_string(text))
}

/// Whether a line begins with a text.
fn begins(line: &str, front: &str) -> bool
    ensures { result ≡ starts_with nat_eq line.now front.now }
{
    line.as_bytes().starts_with(front.as_bytes())
}

/// Whether one of these lines begins with a text.
fn one_begins(found: &[&str], front: &str) -> bool
    ensures { result ≡ list_any (λ line. starts_with nat_eq line front.now) (lent_lines found.now) }
{
    for line in found {
        if begins(line, front) {
            return true;
        }
    }
    false
}

/// Whether a source waits in an update: some line begins with `wait`, a space, the source's name and a space.
pub fn waits_in(alloc: Global, name: &str, update: &str) -> Result<bool, NoMemory>
    ensures { IfOk result (λ waits. waits ≡ waits_in name.now update.now) }
{
    let front = format!(in alloc; "wait {name} ")?;
    let update = lines_of(alloc, update)?;
    Ok(one_begins(behind_heading(&update), front.as_str()))
}
