//! The lines that show why a row isn't installable.

ghost use Rattle.std.specs.Prelude.{◌≡◌, ◌++◌, ◌∷◌, OnOk, codes, decimal, string_bytes};
ghost use Rattle.std.specs.List.{flat_map};
ghost use Rattle.testing_rules_model.specs.JudgedRows.{lent, row_of};
ghost use Rattle.testing_rules_refusals.specs.Lines as lines;
ghost use Rattle.testing_rules_refusals.specs.Needs.{need_of};

use crate::needs::Need;
use deb_control::{Alternative, Clause, Op};
use std::alloc::AllocError;
use testing_rules_model::LentRow;

fn sign(op: Op) -> &'static str
    ensures { result.now ≡ lines.sign op }
{
    match op {
        Op::Below => "<<",
        Op::AtMost => "<=",
        Op::Equal => "=",
        Op::AtLeast => ">=",
        Op::Above => ">>",
    }
}

fn push_alternative(text: &mut String, alternative: &Alternative) -> Result<(), AllocError>
    ensures { OnOk result (string_bytes text.new ≡ string_bytes text.old ++ lines.alternative_text alternative.now) }
{
    match &alternative.relation {
        Some(relation) => {
            let (name, version) = (alternative.name.as_str(), relation.version.text());
            write!(text, "{name} ({} {version})", sign(relation.op))
        }
        None => text.push_str(alternative.name.as_str()),
    }
}

fn push_others(text: &mut String, alternatives: &[Alternative]) -> Result<(), AllocError>
    ensures { OnOk result (string_bytes text.new ≡ string_bytes text.old ++ flat_map lines.other_text alternatives.now) }
{
    for alternative in alternatives {
        text.push_str(" | ")?;
        push_alternative(text, alternative)?;
    }
    Ok(())
}

/// Adds a clause in the form of control data.
pub fn push_clause(text: &mut String, clause: &Clause) -> Result<(), AllocError>
    ensures { OnOk result (string_bytes text.new ≡ string_bytes text.old ++ lines.clause_text clause.now) }
{
    match clause.as_slice().split_first() {
        Some((first, others)) => {
            push_alternative(text, first)?;
            push_others(text, others)
        }
        None => Ok(()),
    }
}

fn push_more_numbers(text: &mut String, numbers: &[usize]) -> Result<(), AllocError>
    ensures { OnOk result (string_bytes text.new ≡ string_bytes text.old ++ flat_map lines.more_text numbers.now) }
{
    for number in numbers {
        write!(text, " and {number}")?;
    }
    Ok(())
}

/// Adds numbers one after another, or a word if there are none.
fn push_joined(text: &mut String, numbers: &[usize]) -> Result<(), AllocError>
    ensures { OnOk result (string_bytes text.new ≡ string_bytes text.old ++ lines.joined_text numbers.now) }
{
    match numbers.split_first() {
        Some((first, others)) => {
            write!(text, "{first}")?;
            push_more_numbers(text, others)
        }
        None => text.push_str("nothing"),
    }
}

/// Adds the first twelve numbers, and how many more exist.
fn push_numbers(text: &mut String, numbers: &[usize]) -> Result<(), AllocError>
    ensures { OnOk result (string_bytes text.new ≡ string_bytes text.old ++ lines.numbers_text numbers.now) }
{
    if numbers.len() <= 12 {
        return push_joined(text, numbers);
    }
    let (told, untold) = numbers.split_at(12);
    push_joined(text, told)?;
    write!(text, " and {} more", untold.len())
}

/// A package, its version and its source.
pub fn push_package(text: &mut String, row: &LentRow) -> Result<(), AllocError>
    ensures { OnOk result (string_bytes text.new ≡ string_bytes text.old ++ lines.package_text (row_of row.now)) }
{
    let (name, version) = (row.binary.name.as_str(), row.binary.version.text());
    write!(text, "{name} {version} of {}", row.binary.source.as_str())
}

fn push_place(text: &mut String, comes: bool) -> Result<(), AllocError>
    ensures { OnOk result (string_bytes text.new ≡ string_bytes text.old ++ lines.place_text comes) }
{
    if comes {
        text.push_str(" comes in, needs ")
    } else {
        text.push_str(" in testing, needs ")
    }
}

fn push_row(text: &mut String, comes: bool, number: usize, row: &LentRow) -> Result<(), AllocError>
    ensures { OnOk result (string_bytes text.new ≡ string_bytes text.old ++ (decimal number ++ 32 ∷ lines.package_text (row_of row.now) ++ lines.place_text comes)) }
{
    write!(text, "{number} ")?;
    push_package(text, row)?;
    push_place(text, comes)
}

fn push_met(text: &mut String, clause: &Clause, numbers: &[usize]) -> Result<(), AllocError>
    ensures { OnOk result (string_bytes text.new ≡ string_bytes text.old ++ (lines.clause_text clause.now ++ codes ": " ++ lines.numbers_text numbers.now)) }
{
    push_clause(text, clause)?;
    text.push_str(": ")?;
    push_numbers(text, numbers)
}

/// Adds the line with this number: a row, coming or not, and its clause, with the numbers of the lines whose rows meet
/// it.
pub fn push_need(
    text: &mut String,
    comes: bool,
    number: usize,
    need: &Need,
    numbers: &[usize],
) -> Result<(), AllocError>
    ensures { OnOk result (string_bytes text.new ≡ string_bytes text.old ++ lines.need_line comes number (need_of need.now) numbers.now) }
{
    push_row(text, comes, number, &need.row)?;
    push_met(text, need.clause, numbers)?;
    text.push_str("\n")
}

/// The lines of rows that leave.
pub fn push_leaving(text: &mut String, rows: &[LentRow]) -> Result<(), AllocError>
    ensures { OnOk result (string_bytes text.new ≡ string_bytes text.old ++ flat_map lines.leaves_line (lent rows.now)) }
{
    for row in rows {
        let (name, version) = (row.binary.name.as_str(), row.binary.version.text());
        writeln!(text, "leaves {name} {version}")?;
    }
    Ok(())
}
