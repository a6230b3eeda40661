//! Unstable in lines.

ghost use Rattle.std.specs.Prelude.{◌≡◌, ◌++◌, ◌∷◌, [], IfOk, OnOk, string_bytes};
ghost use Rattle.std.specs.List.{flat_map};
ghost use Rattle.testing_rules_model.specs.Boxed.{unboxed};
ghost use Rattle.testing_rules_model.specs.Covered.{Covered};
ghost use Rattle.testing_rules_model.specs.JudgedRows.{lent, row_of};
ghost use Rattle.testing_rules_model.specs.Moves.{as_source};
ghost use Rattle.testing_rules_model.specs.StandsFor.{StandsFor};
ghost use Rattle.testing_rules_model.specs.Suite.{Suite};
ghost use Rattle.testing_rules_reports.specs.Reports.{row_line, source_line};
ghost use Rattle.office_core_why.specs.UnstableText.{unstable_text};

use deb_control::{NoMemory, Text};
use std::alloc::{AllocError, Global};
use testing_rules_facts::{Facts, built_rows};
use testing_rules_items::Archs;
use testing_rules_model::{LentRow, UploadIn};

/// Appends a word to a text, and a space after it.
fn push_word(text: &mut String, word: &str) -> Result<(), AllocError>
    ensures { OnOk result (string_bytes text.new ≡ string_bytes text.old ++ word.now ++ 32 ∷ []) }
{
    text.push_str(word)?;
    text.push_str(" ")
}

fn push_source(text: &mut String, source: &UploadIn) -> Result<(), AllocError>
    ensures { OnOk result (string_bytes text.new ≡ string_bytes text.old ++ source_line (as_source source.now)) }
{
    text.push_str("source ")?;
    push_word(text, source.source.as_str())?;
    text.push_str(source.version.text())?;
    text.push_str("\n")
}

fn push_sources(text: &mut String, sources: &[Box<UploadIn>]) -> Result<(), AllocError>
    ensures { OnOk result (string_bytes text.new ≡ string_bytes text.old ++ flat_map (λ u. source_line (as_source u)) (unboxed sources.now)) }
{
    for boxed in sources {
        let source: &UploadIn = boxed;
        push_source(text, source)?;
    }
    Ok(())
}

fn push_row(text: &mut String, archs: &Archs, row: &LentRow) -> Result<(), AllocError>
    ensures { OnOk result (string_bytes text.new ≡ string_bytes text.old ++ row_line archs.now (row_of row.now)) }
{
    let binary = row.binary;
    text.push_str("binary ")?;
    push_word(text, archs.name(row.arch))?;
    push_word(text, binary.name.as_str())?;
    push_word(text, binary.version.text())?;
    text.push_str(binary.source.as_str())?;
    text.push_str("\n")
}

fn push_rows(text: &mut String, archs: &Archs, rows: &[LentRow]) -> Result<(), AllocError>
    ensures { OnOk result (string_bytes text.new ≡ string_bytes text.old ++ flat_map (row_line archs.now) (lent rows.now)) }
{
    for row in rows {
        push_row(text, archs, row)?;
    }
    Ok(())
}

/// Unstable as the facts give it, after that many finished runs.
#[tactic(auto, unfolding(crate::specs::UnstableText::unstable_text))]
pub(crate) fn unstable_over(
    alloc: Global,
    archs: &Archs,
    facts: &Facts,
    finished: u32,
) -> Result<Text, NoMemory>
    ensures { IfOk result (λ text. (s : Covered) (t : Suite) → StandsFor facts.now s t → text ≡ unstable_text archs.now finished s) }
{
    let mut text = format!(in alloc; "unstable {finished}\n")?;
    push_sources(&mut text, facts.sources())?;
    let rows = built_rows(alloc, archs, facts.rows())?;
    push_rows(&mut text, archs, &rows)?;
    Ok(Text::from_string(text))
}
