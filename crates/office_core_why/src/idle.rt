//! The state of a source that has nothing to move.

ghost use Rattle.std.specs.Prelude.{◌≡◌, ◌++◌, ◌∷◌, [], codes, IfOk, Some, option_copied};
ghost use Rattle.testing_rules_model.specs.Unstable.{built_rows};
ghost use Rattle.testing_rules_reports.specs.Reports.{line};
ghost use Rattle.office_core_why.specs.Later.{later_lines};
ghost use Rattle.office_core_why.specs.Why.{standing_lines};

use crate::later::push_later;
use crate::told::{AnswerInput, no_lines};
use deb_control::{NoMemory, Text};
use std::alloc::Global;
use testing_rules_facts::built_rows;
use testing_rules_model::UploadIn;
use testing_rules_refusals::is_in_testing;
use testing_rules_suites::Testing;

/// The lines on a source that testing has at its version in unstable.
fn lines_in_testing(
    alloc: Global,
    input: &AnswerInput<'_>,
    testing: &Testing,
    upload: &UploadIn,
) -> Result<Text, NoMemory>
    ensures { IfOk result (λ text. text ≡ line (codes "in testing" ∷ upload.now.version ∷ []) ++ later_lines input.now.senders.now input.now.archs.now testing.now (built_rows input.now.archs.now input.now.facts.now.rows) upload.now) }
{
    let mut text = format!(in alloc; "in testing {}\n", upload.version.text())?;
    let rows = built_rows(alloc, input.archs, input.facts.rows())?;
    push_later(&mut text, input, testing, &rows, upload)?;
    Ok(Text::from_string(text))
}

/// The lines on a source of unstable, if testing has it at the same version.
fn lines_if_in_testing(
    alloc: Global,
    input: &AnswerInput<'_>,
    testing: &Testing,
    source: &str,
    upload: &UploadIn,
) -> Result<Text, NoMemory>
    ensures { IfOk result (λ text. text ≡ standing_lines input.now.senders.now input.now.archs.now (built_rows input.now.archs.now input.now.facts.now.rows) testing.now source.now (Some upload.now)) }
{
    if is_in_testing(testing, source, &upload.version) {
        lines_in_testing(alloc, input, testing, upload)
    } else {
        Ok(no_lines(alloc))
    }
}

/// The lines on a source missing in unstable, or with unstable's version in testing; no line on any other.
pub(crate) fn standing_lines(
    alloc: Global,
    input: &AnswerInput<'_>,
    testing: &Testing,
    source: &str,
    upload: Option<&UploadIn>,
) -> Result<Text, NoMemory>
    ensures { IfOk result (λ text. text ≡ standing_lines input.now.senders.now input.now.archs.now (built_rows input.now.archs.now input.now.facts.now.rows) testing.now source.now (option_copied upload.entry)) }
{
    match upload {
        Some(upload) => lines_if_in_testing(alloc, input, testing, source, upload),
        None => {
            let line = format!(in alloc; "unknown {source}\n")?;
            Ok(Text::from_string(line))
        }
    }
}
