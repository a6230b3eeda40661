//! The lines of two reports, and those that only one of them has.

ghost use Rattle.std.specs.Prelude.{◌≡◌, ◌++◌, ℕ, List, [], codes, IfOk, OnOk, filter, not, string_bytes};
ghost use Rattle.std.specs.List.{flat_map, list_any};
ghost use Rattle.std.specs.Str.{bytes_eq};
ghost use Rattle.std.specs.Str.Lines.{lines};
ghost use Rattle.testing_rules_reports.specs.Changes.{behind, changes, excuse_lines, fronted, is_inner, lacked};
ghost use Rattle.testing_rules_reports.specs.steps.LentLines.{has_line, lent_lines};

use deb_control::Text;
use std::alloc::{AllocError, Global};
use std::collections::HashSet;

/// Lines looked up by their hash.
pub(crate) type LineSet<'a> = HashSet<&'a str>;

/// The lines of a text.
pub fn lines_of<'a>(alloc: Global, text: &'a str) -> Result<Vec<&'a str>, AllocError>
    ensures { IfOk result (λ found. lent_lines found.items ≡ lines text.now) }
{
    let found = text.lines().collect(alloc)?;
    Ok(found)
}

/// Whether a line begins with a space.
pub(crate) fn is_inner(line: &str) -> bool
    ensures { result ≡ is_inner line.now }
{
    line.starts_with(" ")
}

/// Lines of excuses, each readable alone: an inner one is preceded by the first line of its excuse.
fn fronted(alloc: Global, found: &[&str]) -> Result<Vec<Text>, AllocError>
    ensures { IfOk result (λ all. all.items ≡ fronted [] (lent_lines found.now)) }
{
    let mut all = Vec::new(alloc);
    let mut front = "";
    'lines: for line in found {
        if is_inner(line) {
            all.push(joined(alloc, front, line)?)?;
        } else {
            front = line;
            all.push(joined(alloc, "", line)?)?;
        }
    }
    Ok(all)
}

/// A line after a front.
fn joined(alloc: Global, front: &str, line: &str) -> Result<Text, AllocError>
    ensures { IfOk result (λ text. text ≡ front.now ++ line.now) }
{
    Ok(Text::from_string(format!(in alloc; "{front}{line}")?))
}

/// The lines of a text of excuses, each readable alone.
fn excuse_lines(alloc: Global, text: &str) -> Result<Vec<Text>, AllocError>
    ensures { IfOk result (λ all. all.items ≡ excuse_lines text.now) }
{
    let found = lines_of(alloc, text)?;
    fronted(alloc, &found)
}

/// A list of texts, borrowed.
fn lent_from<'a>(alloc: Global, all: &'a [Text]) -> Result<Vec<&'a str>, AllocError>
    ensures { IfOk result (λ found. lent_lines found.items ≡ all.now) }
{
    let mut found = Vec::new(alloc);
    for line in all {
        found.push(line.as_str())?;
    }
    Ok(found)
}

/// The lines as a set.
fn set_of<'a>(alloc: Global, found: &[&'a str]) -> Result<LineSet<'a>, AllocError>
    ensures { IfOk result (λ set. (line : List ℕ) → has_line set.keys line ≡ list_any (bytes_eq line) (lent_lines found.now)) }
{
    let set = found.iter().copied().collect(alloc)?;
    Ok(set)
}

/// Whether the set has a line.
fn has_line(set: &LineSet, line: &str) -> bool
    ensures { result ≡ has_line set.now.keys line.now }
{
    set.contains(line)
}

/// Adds a line after a word to the text.
pub(crate) fn push_behind(text: &mut String, word: &str, line: &str) -> Result<(), AllocError>
    ensures { OnOk result (string_bytes text.new ≡ string_bytes text.old ++ behind word.now line.now) }
{
    writeln!(text, "{word}{line}")
}

/// Adds the lines that the set doesn't have, each after a word, in order.
fn push_without(
    text: &mut String,
    word: &str,
    found: &[&str],
    set: &LineSet,
) -> Result<(), AllocError>
    ensures { OnOk result (string_bytes text.new ≡ string_bytes text.old ++ flat_map (behind word.now) (filter (λ line. not (has_line set.now.keys line)) (lent_lines found.now))) }
{
    for line in found {
        if !has_line(set, line) {
            push_behind(text, word, line)?;
        }
    }
    Ok(())
}

/// Adds the lines missing from others, each after a word, in order.
fn push_lacked(
    alloc: Global,
    text: &mut String,
    word: &str,
    found: &[&str],
    others: &[&str],
) -> Result<(), AllocError>
    ensures { OnOk result (string_bytes text.new ≡ string_bytes text.old ++ flat_map (behind word.now) (lacked (lent_lines found.now) (lent_lines others.now))) }
{
    let set = set_of(alloc, others)?;
    push_without(text, word, found, &set)
}

/// Adds the lines only in the first report, and those only in the second, each after a word.
fn push_both(
    alloc: Global,
    text: &mut String,
    gone: &str,
    come: &str,
    first: &[&str],
    second: &[&str],
) -> Result<(), AllocError>
    ensures { OnOk result (string_bytes text.new ≡ string_bytes text.old ++ changes gone.now come.now (lent_lines first.now) (lent_lines second.now)) }
{
    push_lacked(alloc, text, gone, first, second)?;
    push_lacked(alloc, text, come, second, first)
}

/// The changes of a report on decisions.
pub(crate) fn push_update_changes(
    alloc: Global,
    text: &mut String,
    first: &str,
    second: &str,
) -> Result<(), AllocError>
    ensures { OnOk result (string_bytes text.new ≡ string_bytes text.old ++ changes (codes "-update ") (codes "+update ") (lines first.now) (lines second.now)) }
{
    let these = lines_of(alloc, first)?;
    let those = lines_of(alloc, second)?;
    push_both(alloc, text, "-update ", "+update ", &these, &those)
}

/// The changes of testing.
pub(crate) fn push_testing_changes(
    alloc: Global,
    text: &mut String,
    first: &str,
    second: &str,
) -> Result<(), AllocError>
    ensures { OnOk result (string_bytes text.new ≡ string_bytes text.old ++ changes (codes "-testing ") (codes "+testing ") (lines first.now) (lines second.now)) }
{
    let these = lines_of(alloc, first)?;
    let those = lines_of(alloc, second)?;
    push_both(alloc, text, "-testing ", "+testing ", &these, &those)
}

/// The changes of a report on excuses.
pub(crate) fn push_excuse_changes(
    alloc: Global,
    text: &mut String,
    first: &str,
    second: &str,
) -> Result<(), AllocError>
    ensures { OnOk result (string_bytes text.new ≡ string_bytes text.old ++ changes (codes "-excuse ") (codes "+excuse ") (excuse_lines first.now) (excuse_lines second.now)) }
{
    let these = excuse_lines(alloc, first)?;
    let those = excuse_lines(alloc, second)?;
    let (these, those) = (lent_from(alloc, &these)?, lent_from(alloc, &those)?);
    push_both(alloc, text, "-excuse ", "+excuse ", &these, &those)
}
