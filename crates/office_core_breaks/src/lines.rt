//! The lines of what a change breaks.

ghost use Rattle.std.specs.Prelude.{◌≡◌, ◌++◌, ◌∷◌, ◌≤◌, [], IfOk, OnOk, codes, drop, filter, length, not, string_bytes, take};
ghost use Rattle.std.specs.List.{flat_map};
ghost use Rattle.testing_rules_model.specs.Boxed.{unboxed};
ghost use Rattle.testing_rules_model.specs.FactOrder.{AreBySource};
ghost use Rattle.testing_rules_model.specs.JudgedRows.{lent, row_of};
ghost use Rattle.testing_rules_model.specs.Moves as moves;
ghost use Rattle.office_core_breaks.specs.Breaks as rules;
ghost use Rattle.office_core_breaks.specs.steps.Grounds.{known_on};
ghost use Rattle.office_core_breaks.specs.Texts as texts;

use crate::asked::Change;
use crate::broken::broken_on;
use crate::change::{is_offered, is_there};
use crate::offers::{OfferInput, push_offers};
use deb_control::Text;
use deb_version::NoMemory;
use std::alloc::{AllocError, Global};
use testing_rules_facts::source_in;
use testing_rules_items::HintItem;
use testing_rules_live::is_same_key;
use testing_rules_model::{LentRow, UploadIn};
use testing_rules_refusals::push_package;
use testing_rules_suites::Testing;

/// How many of the broken rows of an architecture have lines.
const TOLD: usize = 100;

/// Those of the rows that have the row's architecture and name.
fn same_rows<'a>(
    alloc: Global,
    row: &LentRow,
    rows: &[LentRow<'a>],
) -> Result<Vec<LentRow<'a>>, AllocError>
    ensures { IfOk result (λ same. lent same.items ≡ filter (moves.is_same_key (row_of row.now)) (lent rows.now)) }
{
    let mut same = Vec::new(alloc);
    for other in rows {
        if is_same_key(row, other) {
            same.push(*other)?;
        }
    }
    Ok(same)
}

/// The words before a broken row.
fn push_uninstallable(text: &mut String, name: &str) -> Result<(), AllocError>
    ensures { OnOk result (string_bytes text.new ≡ string_bytes text.old ++ (codes "uninstallable " ++ name.now ++ 32 ∷ [])) }
{
    write!(text, "uninstallable {name} ")
}

/// The line of a broken row.
fn push_broken_row(text: &mut String, name: &str, row: &LentRow) -> Result<(), AllocError>
    ensures { OnOk result (string_bytes text.new ≡ string_bytes text.old ++ texts.broken_line name.now (row_of row.now)) }
{
    push_uninstallable(text, name)?;
    push_package(text, row)?;
    text.push_str("\n")
}

/// A broken row, and how it stands with what unstable has in its place.
#[tactic(auto, unfolding(crate::specs::Texts::row_text))]
fn push_broken(
    alloc: Global,
    text: &mut String,
    input: &OfferInput,
    arch: u32,
    row: &LentRow,
) -> Result<(), NoMemory>
    requires { AreBySource (unboxed input.now.unstable.sources.now) }
    ensures { OnOk result (string_bytes text.new ≡ string_bytes text.old ++ texts.row_text (known_on input.now) (lent input.now.unstable.rows.now) arch (row_of row.now)) }
{
    let same = same_rows(alloc, row, input.unstable.rows)?;
    push_broken_row(text, input.archs.name(arch), row)?;
    push_offers(alloc, text, input, &same)
}

fn push_each_broken(
    alloc: Global,
    text: &mut String,
    input: &OfferInput,
    arch: u32,
    rows: &[LentRow],
) -> Result<(), NoMemory>
    requires { AreBySource (unboxed input.now.unstable.sources.now) }
    ensures { OnOk result (string_bytes text.new ≡ string_bytes text.old ++ flat_map (texts.row_text (known_on input.now) (lent input.now.unstable.rows.now) arch) (lent rows.now)) }
{
    for row in rows {
        push_broken(alloc, text, input, arch, row)?;
    }
    Ok(())
}

/// How many broken rows of an architecture there are.
fn push_count(text: &mut String, name: &str, count: usize) -> Result<(), AllocError>
    ensures { OnOk result (string_bytes text.new ≡ string_bytes text.old ++ texts.count_line name.now count) }
{
    writeln!(text, "broken {name} {count}")
}

/// How many of the rows have lines.
fn told_count(rows: &[LentRow]) -> usize
    ensures within { result ≤ length rows.now }
    ensures told { take result rows.now ≡ take 100 rows.now }
    ensures untold { drop result rows.now ≡ drop 100 rows.now }
{
    let count = rows.len();
    if count <= TOLD {
        return count;
    }
    TOLD
}

/// How many rows have no lines, if there are any.
#[tactic(auto, using(crate::proofs::Untold::none_untold, crate::proofs::Untold::some_untold))]
fn push_untold(text: &mut String, rows: &[LentRow]) -> Result<(), AllocError>
    ensures { OnOk result (string_bytes text.new ≡ string_bytes text.old ++ texts.untold_text (lent rows.now)) }
{
    if rows.is_empty() {
        return Ok(());
    }
    writeln!(text, "and {} more", rows.len())
}

/// The first hundred of the broken rows of an architecture, and how many more there are.
fn push_first(
    alloc: Global,
    text: &mut String,
    input: &OfferInput,
    arch: u32,
    rows: &[LentRow],
) -> Result<(), NoMemory>
    requires { AreBySource (unboxed input.now.unstable.sources.now) }
    ensures { OnOk result (string_bytes text.new ≡ string_bytes text.old ++ texts.first_text (known_on input.now) (lent input.now.unstable.rows.now) arch (lent rows.now)) }
{
    let (told, untold) = rows.split_at(told_count(rows));
    push_each_broken(alloc, text, input, arch, told)?;
    Ok(push_untold(text, untold)?)
}

/// The rows that a change from the old rows to the new ones breaks on an architecture.
fn push_arch(
    alloc: Global,
    text: &mut String,
    input: &OfferInput,
    old: &[LentRow],
    new: &[LentRow],
    arch: u32,
) -> Result<(), NoMemory>
    requires { AreBySource (unboxed input.now.unstable.sources.now) }
    ensures { OnOk result (string_bytes text.new ≡ string_bytes text.old ++ texts.broken_text (known_on input.now) (lent input.now.unstable.rows.now) (lent old.now) (lent new.now) arch) }
{
    let broken = broken_on(alloc, arch, input.coming, old, new)?;
    push_count(text, input.archs.name(arch), broken.len())?;
    push_first(alloc, text, input, arch, &broken)
}

/// The rows that a change from the old rows to the new ones breaks, by architecture.
pub(crate) fn push_all(
    alloc: Global,
    text: &mut String,
    input: &OfferInput,
    old: &[LentRow],
    new: &[LentRow],
) -> Result<(), NoMemory>
    requires { AreBySource (unboxed input.now.unstable.sources.now) }
    ensures { OnOk result (string_bytes text.new ≡ string_bytes text.old ++ texts.all_text (known_on input.now) (lent input.now.unstable.rows.now) (lent old.now) (lent new.now)) }
{
    for arch in 0..input.archs.len() {
        push_arch(alloc, text, input, old, new, arch)?;
    }
    Ok(())
}

/// The first line: the run, and what was asked.
pub(crate) fn push_head(text: &mut String, run: u32, words: &str) -> Result<(), AllocError>
    ensures { OnOk result (string_bytes text.new ≡ string_bytes text.old ++ texts.head_line run words.now) }
{
    writeln!(text, "breaks {run} {words}")
}

/// The line of an item that names another version than there is.
fn push_item(text: &mut String, item: &HintItem) -> Result<(), AllocError>
    ensures { OnOk result (string_bytes text.new ≡ string_bytes text.old ++ texts.item_line item.now) }
{
    let (name, version) = (item.name.as_str(), item.version.text());
    writeln!(text, "unknown {name}/{version}")
}

/// The lines of items whose versions unstable doesn't have.
fn push_unoffered(
    text: &mut String,
    sources: &[Box<UploadIn>],
    items: &[HintItem],
) -> Result<(), AllocError>
    requires { AreBySource (unboxed sources.now) }
    ensures { OnOk result (string_bytes text.new ≡ string_bytes text.old ++ flat_map texts.item_line (filter (λ i. not (rules.is_offered (unboxed sources.now) i)) items.now)) }
{
    for item in items {
        if !is_offered(sources, item) {
            push_item(text, item)?;
        }
    }
    Ok(())
}

/// The lines of items whose versions testing doesn't have.
fn push_absent(text: &mut String, testing: &Testing, items: &[HintItem]) -> Result<(), AllocError>
    ensures { OnOk result (string_bytes text.new ≡ string_bytes text.old ++ flat_map texts.item_line (filter (λ i. not (rules.is_there testing.now i)) items.now)) }
{
    for item in items {
        if !is_there(testing, item) {
            push_item(text, item)?;
        }
    }
    Ok(())
}

/// The line of a source that unstable doesn't have.
fn push_source(text: &mut String, sources: &[Box<UploadIn>], name: &str) -> Result<(), AllocError>
    requires { AreBySource (unboxed sources.now) }
    ensures { OnOk result (string_bytes text.new ≡ string_bytes text.old ++ texts.source_line name.now (moves.source_in (unboxed sources.now) name.now)) }
{
    match source_in(sources, name) {
        Some(_) => Ok(()),
        None => writeln!(text, "unknown {name}"),
    }
}

/// The lines of what can't change.
pub(crate) fn push_unknown(
    text: &mut String,
    sources: &[Box<UploadIn>],
    testing: &Testing,
    change: &Change,
) -> Result<(), AllocError>
    requires { AreBySource (unboxed sources.now) }
    ensures { OnOk result (string_bytes text.new ≡ string_bytes text.old ++ texts.unknown_text (unboxed sources.now) testing.now change.now) }
{
    match change {
        Change::Source(name) => push_source(text, sources, name.as_str()),
        Change::Group(items) => push_unoffered(text, sources, items.as_slice()),
        Change::Removal(items) => push_absent(text, testing, items.as_slice()),
    }
}
