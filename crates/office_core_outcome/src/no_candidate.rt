//! A source that isn't a candidate of a run, in a line.

ghost use Rattle.std.specs.Prelude.{◌≡◌, ◌++◌, ◌∷◌, [], IfOk, OnOk, Some, codes, option_copied, string_bytes};
ghost use Rattle.office_core_outcome.specs.NoCandidate as lines;
ghost use Rattle.testing_rules_refusals.specs.Texts as texts;
ghost use Rattle.testing_rules_reports.specs.Reports.{line};

use deb_control::Text;
use deb_version::{NoMemory, Version};
use std::alloc::{AllocError, Global};
use testing_rules_excuses::excuse_of;
use testing_rules_facts::{Facts, source_in};
use testing_rules_items::Archs;
use testing_rules_model::{Excuse, UploadIn};
use testing_rules_refusals::{push_reasons, version_in};
use testing_rules_suites::Testing;

/// Adds an unstable version of a source.
fn push_version(text: &mut String, name: &str, version: &Version) -> Result<(), AllocError>
    ensures { OnOk result (string_bytes text.new ≡ string_bytes text.old ++ (codes "source " ++ name.now ++ 32 ∷ version.now)) }
{
    write!(text, "source {name} {}", version.text())
}

/// Adds the words before the reasons that keep a source out.
#[tactic(auto, unfolding(crate::specs::NoCandidate::words_before))]
fn push_words_before(text: &mut String) -> Result<(), AllocError>
    ensures { OnOk result (string_bytes text.new ≡ string_bytes text.old ++ lines.words_before) }
{
    text.push_str(" isn't a candidate: ")
}

/// Adds the line on an unstable version that the reasons of its excuse keep out.
fn push_kept_out(
    text: &mut String,
    archs: &Archs,
    name: &str,
    excuse: &Excuse,
) -> Result<(), AllocError>
    ensures { OnOk result (string_bytes text.new ≡ string_bytes text.old ++ lines.kept_out_line name.now excuse.now.unstable (texts.reasons_text archs.now excuse.now.reasons)) }
{
    push_version(text, name, &excuse.unstable)?;
    push_words_before(text)?;
    push_reasons(text, archs, excuse.reasons.as_slice())?;
    text.push('\n')
}

/// The line on an unstable version that the reasons of its excuse keep out.
fn kept_out_line(
    alloc: Global,
    archs: &Archs,
    name: &str,
    excuse: &Excuse,
) -> Result<Text, NoMemory>
    ensures { IfOk result (λ text. text ≡ lines.kept_out_line name.now excuse.now.unstable (texts.reasons_text archs.now excuse.now.reasons)) }
{
    let mut text = String::new(alloc);
    push_kept_out(&mut text, archs, name, excuse)?;
    Ok(Text::from_string(text))
}

/// The line on a source with an excuse: none if it is a candidate.
fn excused_line(
    alloc: Global,
    archs: &Archs,
    name: &str,
    excuse: &Excuse,
) -> Result<Option<Text>, NoMemory>
    ensures { IfOk result (λ text. text ≡ lines.excused_line archs.now name.now excuse.now) }
{
    if excuse.reasons.as_slice().is_empty() {
        return Ok(None);
    }
    Ok(Some(kept_out_line(alloc, archs, name, excuse)?))
}

/// Adds the line on a source that testing has at this version.
fn push_there(text: &mut String, name: &str, version: &Version) -> Result<(), AllocError>
    ensures { OnOk result (string_bytes text.new ≡ string_bytes text.old ++ line (codes "in testing" ∷ name.now ∷ version.now ∷ [])) }
{
    writeln!(text, "in testing {name} {}", version.text())
}

/// Adds the line on an unstable version that is kept out for this reason.
fn push_kept_out_by(
    text: &mut String,
    name: &str,
    version: &Version,
    reason: &str,
) -> Result<(), AllocError>
    ensures { OnOk result (string_bytes text.new ≡ string_bytes text.old ++ lines.kept_out_line name.now version.now reason.now) }
{
    push_version(text, name, version)?;
    push_words_before(text)?;
    text.push_str(reason)?;
    text.push('\n')
}

/// Adds the line on a source with nothing to move, by its version in testing. A removal of the run has taken one without
/// a version there out of testing.
fn push_standing(
    text: &mut String,
    name: &str,
    upload: &UploadIn,
    version: Option<&Version>,
) -> Result<(), AllocError>
    ensures { OnOk result (string_bytes text.new ≡ string_bytes text.old ++ lines.standing_line name.now upload.now (option_copied version.entry)) }
{
    match version {
        Some(version) => push_there(text, name, version),
        None => push_kept_out_by(text, name, &upload.version, "removal asked"),
    }
}

/// The line on a source with nothing to move, by its version in testing.
fn standing_line(
    alloc: Global,
    name: &str,
    upload: &UploadIn,
    version: Option<&Version>,
) -> Result<Text, NoMemory>
    ensures { IfOk result (λ text. text ≡ lines.standing_line name.now upload.now (option_copied version.entry)) }
{
    let mut text = String::new(alloc);
    push_standing(&mut text, name, upload, version)?;
    Ok(Text::from_string(text))
}

/// The line on a source of unstable.
fn unstable_line(
    alloc: Global,
    archs: &Archs,
    excuses: &[Excuse],
    testing: &Testing,
    name: &str,
    upload: &UploadIn,
) -> Result<Option<Text>, NoMemory>
    ensures { IfOk result (λ text. text ≡ lines.source_line archs.now excuses.now testing.now name.now (Some upload.now)) }
{
    match excuse_of(excuses, name) {
        Some(excuse) => excused_line(alloc, archs, name, excuse),
        None => {
            let version = version_in(testing, name);
            Ok(Some(standing_line(alloc, name, upload, version)?))
        }
    }
}

/// The line on a source that isn't a candidate of a run, given the run's facts and excuses, and testing as the hints in
/// force leave it there; none for a candidate. It costs two look-ups and a look at the excuses before the source's. The
/// only error is running out of memory.
pub(crate) fn no_candidate_line(
    alloc: Global,
    archs: &Archs,
    facts: &Facts,
    excuses: &[Excuse],
    testing: &Testing,
    name: &str,
) -> Result<Option<Text>, NoMemory>
    ensures { IfOk result (λ text. text ≡ lines.no_candidate_line archs.now facts.now.sources excuses.now testing.now name.now) }
{
    match source_in(facts.sources(), name) {
        Some(upload) => unstable_line(alloc, archs, excuses, testing, name, upload),
        None => {
            let line = format!(in alloc; "unknown {name}\n")?;
            Ok(Some(Text::from_string(line)))
        }
    }
}
