//! The texts of the reports.

ghost use Rattle.std.specs.Prelude.{◌≡◌, ◌++◌, ◌∷◌, [], IfOk, OnOk, string_bytes};
ghost use Rattle.std.specs.List.{flat_map};
ghost use Rattle.testing_rules_reports.specs.Reports as texts;
ghost use Rattle.testing_rules_reports.specs.Reports.{words, line, inner_line, reason_words, source_words, age_words, verdict, excuse_text, heading, decision_line, offender_text, moved_text, source_line, row_line};

use deb_version::NoMemory;
use jiff::civil;
use jiff_core::civil::Date;
use std::alloc::{AllocError, Global};
use testing_rules_items::Archs;
use testing_rules_model::{
    Decision, Excuse, Excuses, Moved, Offender, Reason, RowIn, SourceIn, Update,
};
use testing_rules_suites::Testing;

/// The report on a run's excuses.
pub fn excuses_text(
    alloc: Global,
    archs: &Archs,
    run: u32,
    date: Date,
    excuses: &Excuses,
) -> Result<String, NoMemory>
    ensures { IfOk result (λ t. string_bytes t ≡ texts.excuses_text archs.now run date excuses.now) }
{
    let day = civil::Date::from_plain(date);
    let mut text = format!(in alloc; "excuses {run} {day}\n")?;
    push_excuses(&mut text, archs, excuses.as_slice())?;
    Ok(text)
}

/// The report on a run's decisions.
pub fn update_text(
    alloc: Global,
    archs: &Archs,
    run: u32,
    date: Date,
    update: &Update,
) -> Result<String, NoMemory>
    ensures { IfOk result (λ t. string_bytes t ≡ texts.update_text archs.now run date update.now) }
{
    let day = civil::Date::from_plain(date);
    let mut text = format!(in alloc; "update {run} {day}\n")?;
    push_decisions(&mut text, archs, update.as_slice())?;
    Ok(text)
}

/// Testing, with the number of finished runs.
pub fn testing_text(
    alloc: Global,
    archs: &Archs,
    finished: u32,
    testing: &Testing,
) -> Result<String, NoMemory>
    ensures { IfOk result (λ t. string_bytes t ≡ texts.testing_text archs.now finished testing.now) }
{
    let mut text = format!(in alloc; "testing {finished}\n")?;
    push_sources(&mut text, testing.sources())?;
    push_rows(&mut text, archs, testing.rows())?;
    Ok(text)
}

fn push_sources(text: &mut String, sources: &[SourceIn]) -> Result<(), AllocError>
    ensures { OnOk result (string_bytes text.new ≡ string_bytes text.old ++ flat_map source_line sources.now) }
{
    for source in sources {
        push_source(text, source)?;
    }
    Ok(())
}

fn push_rows(text: &mut String, archs: &Archs, rows: &[RowIn]) -> Result<(), AllocError>
    ensures { OnOk result (string_bytes text.new ≡ string_bytes text.old ++ flat_map (row_line archs.now) rows.now) }
{
    for row in rows {
        push_row(text, archs, row)?;
    }
    Ok(())
}

fn push_excuses(text: &mut String, archs: &Archs, excuses: &[Excuse]) -> Result<(), AllocError>
    ensures { OnOk result (string_bytes text.new ≡ string_bytes text.old ++ flat_map (excuse_text archs.now) excuses.now) }
{
    for excuse in excuses {
        push_excuse(text, archs, excuse)?;
    }
    Ok(())
}

fn push_decisions(
    text: &mut String,
    archs: &Archs,
    decisions: &[Decision],
) -> Result<(), AllocError>
    ensures { OnOk result (string_bytes text.new ≡ string_bytes text.old ++ flat_map (decision_line archs.now) decisions.now) }
{
    for decision in decisions {
        push_decision(text, archs, decision)?;
    }
    Ok(())
}

/// Adds a word and a space after it.
fn push_word(text: &mut String, word: &str) -> Result<(), AllocError>
    ensures { OnOk result (string_bytes text.new ≡ string_bytes text.old ++ word.now ++ 32 ∷ []) }
{
    text.push_str(word)?;
    text.push_str(" ")
}

fn push_source(text: &mut String, source: &SourceIn) -> Result<(), AllocError>
    ensures { OnOk result (string_bytes text.new ≡ string_bytes text.old ++ source_line source.now) }
{
    text.push_str("source ")?;
    push_word(text, source.name.as_str())?;
    text.push_str(source.version.text())?;
    text.push_str("\n")
}

fn push_row(text: &mut String, archs: &Archs, row: &RowIn) -> Result<(), AllocError>
    ensures { OnOk result (string_bytes text.new ≡ string_bytes text.old ++ row_line archs.now row.now) }
{
    let binary = &row.binary;
    text.push_str("binary ")?;
    push_word(text, archs.name(row.arch))?;
    push_word(text, binary.name.as_str())?;
    push_word(text, binary.version.text())?;
    text.push_str(binary.source.as_str())?;
    text.push_str("\n")
}

fn push_excuse(text: &mut String, archs: &Archs, excuse: &Excuse) -> Result<(), AllocError>
    ensures { OnOk result (string_bytes text.new ≡ string_bytes text.old ++ excuse_text archs.now excuse.now) }
{
    push_versions(text, excuse)?;
    let (age, needed) = (excuse.age, excuse.needed);
    writeln!(text, " age {age} of {needed}")?;
    push_reasons(text, archs, excuse.reasons.as_slice())?;
    push_verdict(text, excuse)
}

fn push_versions(text: &mut String, excuse: &Excuse) -> Result<(), AllocError>
    ensures { OnOk result (string_bytes text.new ≡ string_bytes text.old ++ line (source_words excuse.now)) }
{
    let testing = match &excuse.testing {
        Some(version) => version.text(),
        None => "-",
    };
    let unstable = excuse.unstable.text();
    writeln!(text, "{} {testing} {unstable}", excuse.source.as_str())
}

fn push_reasons(text: &mut String, archs: &Archs, reasons: &[Reason]) -> Result<(), AllocError>
    ensures { OnOk result (string_bytes text.new ≡ string_bytes text.old ++ flat_map (λ r. inner_line (reason_words archs.now r)) reasons.now) }
{
    for reason in reasons {
        push_reason(text, archs, *reason)?;
    }
    Ok(())
}

fn push_reason(text: &mut String, archs: &Archs, reason: Reason) -> Result<(), AllocError>
    ensures { OnOk result (string_bytes text.new ≡ string_bytes text.old ++ inner_line (reason_words archs.now reason)) }
{
    text.push_str(" ")?;
    push_reason_words(text, archs, reason)?;
    text.push_str("\n")
}

/// Adds a reason in the words of the report on excuses.
pub fn push_reason_words(text: &mut String, archs: &Archs, reason: Reason) -> Result<(), AllocError>
    ensures { OnOk result (string_bytes text.new ≡ string_bytes text.old ++ words (reason_words archs.now reason)) }
{
    match reason {
        Reason::TooYoung => text.push_str("too young"),
        Reason::NewBug(bug) => write!(text, "new bug {bug}"),
        Reason::NoBinaries => text.push_str("no binaries"),
        Reason::MissingOn(arch) => write!(text, "missing on {}", archs.name(arch)),
        Reason::Blocked => text.push_str("blocked"),
        Reason::RemovalAsked => text.push_str("removal asked"),
    }
}

fn push_verdict(text: &mut String, excuse: &Excuse) -> Result<(), AllocError>
    ensures { OnOk result (string_bytes text.new ≡ string_bytes text.old ++ inner_line (verdict excuse.now ∷ [])) }
{
    if excuse.reasons.as_slice().is_empty() {
        text.push_str(" candidate\n")
    } else {
        text.push_str(" not a candidate\n")
    }
}

fn push_decision(text: &mut String, archs: &Archs, decision: &Decision) -> Result<(), AllocError>
    ensures { OnOk result (string_bytes text.new ≡ string_bytes text.old ++ decision_line archs.now decision.now) }
{
    match decision {
        Decision::RemoveDone {
            hint,
            name,
            version,
        } => {
            writeln!(
                text,
                "remove {hint} accept {} {}",
                name.as_str(),
                version.text()
            )
        }
        Decision::RemoveRefused {
            hint,
            name,
            version,
            offender,
        } => {
            write!(
                text,
                "remove {hint} refuse {} {}",
                name.as_str(),
                version.text()
            )?;
            push_offender(text, archs, offender)
        }
        Decision::EasyDone { hint, items } => {
            write!(text, "easy {hint} accept")?;
            push_moved(text, items.as_slice())
        }
        Decision::EasyNotCandidate {
            hint,
            name,
            version,
        } => {
            let (name, version) = (name.as_str(), version.text());
            writeln!(text, "easy {hint} refuse {name}/{version} not a candidate")
        }
        Decision::EasyRefused { hint, offender } => {
            write!(text, "easy {hint} refuse")?;
            push_offender(text, archs, offender)
        }
        Decision::Accept { name, version } => {
            writeln!(text, "accept {} {}", name.as_str(), version.text())
        }
        Decision::Wait {
            name,
            version,
            offender,
        } => {
            write!(text, "wait {} {}", name.as_str(), version.text())?;
            push_offender(text, archs, offender)
        }
    }
}

/// The rest of a line: what a change would break.
fn push_offender(text: &mut String, archs: &Archs, offender: &Offender) -> Result<(), AllocError>
    ensures { OnOk result (string_bytes text.new ≡ string_bytes text.old ++ offender_text archs.now offender.now ++ 10 ∷ []) }
{
    let (arch, package) = (archs.name(offender.arch), offender.package.as_str());
    writeln!(text, " uninstallable {arch} {package}")
}

/// The rest of a line: the items of a group.
fn push_moved(text: &mut String, items: &[Moved]) -> Result<(), AllocError>
    ensures { OnOk result (string_bytes text.new ≡ string_bytes text.old ++ moved_text items.now ++ 10 ∷ []) }
{
    for item in items {
        write!(text, " {} {}", item.name.as_str(), item.version.text())?;
    }
    text.push('\n')
}
