//! The rows of unstable that came after their source's move to testing, in lines.

ghost use Rattle.std.specs.Prelude.{◌≡◌, ◌++◌, length, OnOk, option_copied, string_bytes};
ghost use Rattle.std.specs.List.Sorted.{IsBinarySearchResult, IsSearchInRange};
ghost use Rattle.testing_rules_excuses.specs.Lines as lines;
ghost use Rattle.testing_rules_model.specs.JudgedRows.{lent, row_of};
ghost use Rattle.testing_rules_model.specs.Moves.{row_cmp, row_key};
ghost use Rattle.office_core_why.specs.Later as rules;

use crate::told::AnswerInput;
use deb_control::Text;
use std::alloc::AllocError;
use std::cmp::Ordering;
use testing_rules_facts::{is_current, is_same_version};
use testing_rules_model::{LentRow, RowIn, UploadIn};
use testing_rules_suites::Testing;

/// The order of rows, by architecture and name.
fn order_rows(row: &RowIn, other: &LentRow) -> Ordering
    ensures { result ≡ row_cmp (row_key row.now) (row_key (row_of other.now)) }
{
    let names = row.binary.name.as_str().cmp(other.binary.name.as_str());
    row.arch.cmp(&other.arch).then(names)
}

/// The place of the row's architecture and name among the rows, or where it belongs.
fn place_of_row(rows: &[RowIn], row: &LentRow) -> Result<usize, usize>
    ensures bound { IsSearchInRange result (length rows.now) }
    ensures found { IsBinarySearchResult (λ r. row_cmp (row_key r) (row_key (row_of row.now))) rows.now result }
{
    rows.binary_search_by(
        |other: &RowIn| -> Ordering
            ensures { result ≡ row_cmp (row_key other.now) (row_key (row_of row.entry.now)) }
        { order_rows(other, row) },
    )
}

/// Testing's row of the row's architecture and name.
fn row_there<'t>(testing: &'t Testing, row: &LentRow) -> Option<&'t RowIn>
    ensures { option_copied result ≡ rules.row_there testing.now (row_of row.now) }
{
    let rows = testing.rows();
    match place_of_row(rows, row) {
        Ok(place) => Some(&rows[place]),
        Err(_) => None,
    }
}

/// The name of the sender at a place, or empty without one.
fn sender_name(senders: &[Text], place: u32) -> &str
    ensures { result.now ≡ lines.sender_name senders.now place }
{
    match senders.get(place as usize) {
        Some(name) => name.as_str(),
        None => "",
    }
}

/// The line on a row, which begins so.
fn push_words(
    text: &mut String,
    input: &AnswerInput<'_>,
    front: &str,
    row: &LentRow,
) -> Result<(), AllocError>
    ensures { OnOk result (string_bytes text.new ≡ string_bytes text.old ++ rules.later_words input.now.senders.now input.now.archs.now front.now (row_of row.now)) }
{
    let (arch, name) = (input.archs.name(row.arch), row.binary.name.as_str());
    write!(text, "{front} {arch} {name} {}", row.binary.version.text())?;
    let (sender, number) = (sender_name(input.senders, row.sender), row.number);
    writeln!(text, " by {sender} {number}")
}

/// The line on a row, by testing's row of its architecture and name.
fn push_line(
    text: &mut String,
    input: &AnswerInput<'_>,
    row: &LentRow,
    there: Option<&RowIn>,
) -> Result<(), AllocError>
    ensures { OnOk result (string_bytes text.new ≡ string_bytes text.old ++ rules.later_line input.now.senders.now input.now.archs.now (row_of row.now) (option_copied there.entry)) }
{
    match there {
        Some(old) => {
            if is_same_version(&old.binary.version, &row.binary.version) {
                Ok(())
            } else {
                push_words(text, input, "rebuilt", row)
            }
        }
        None => push_words(text, input, "not in testing", row),
    }
}

/// The lines on those of the rows that are current for the source and that testing doesn't have.
pub(crate) fn push_later(
    text: &mut String,
    input: &AnswerInput<'_>,
    testing: &Testing,
    rows: &[LentRow],
    upload: &UploadIn,
) -> Result<(), AllocError>
    ensures { OnOk result (string_bytes text.new ≡ string_bytes text.old ++ rules.later_lines input.now.senders.now input.now.archs.now testing.now (lent rows.now) upload.now) }
{
    for row in rows {
        if is_current(upload, row) {
            push_line(text, input, row, row_there(testing, row))?;
        }
    }
    Ok(())
}
