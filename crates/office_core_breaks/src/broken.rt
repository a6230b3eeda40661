//! Which rows a change of testing's rows breaks.

ghost use Rattle.std.specs.Prelude.{◌≡◌, ℕ, List, IfOk, filter, map};
ghost use Rattle.std.specs.List.{list_any};
ghost use Rattle.std.specs.Str.{bytes_eq};
ghost use Rattle.testing_install.specs.Installable.{are_installable};
ghost use Rattle.testing_rules_model.specs.JudgedRows.{lent, row_of};
ghost use Rattle.testing_rules_model.specs.Moves as moves;
ghost use Rattle.testing_rules_reports.specs.steps.LentLines.{has_line, lent_lines};
ghost use Rattle.testing_rules_suites.specs.steps.JudgedRows.{answer, answers};
ghost use Rattle.office_core_breaks.specs.Breaks as rules;
ghost use Rattle.office_core_breaks.specs.steps.Worked.{fails_by, working_names, worked_by};

use deb_control::Text;
use deb_version::NoMemory;
use std::alloc::{AllocError, Global};
use std::collections::HashSet;
use testing_install::{Row, installable};
use testing_rules_items::ALL;
use testing_rules_live::{is_row_of, rows_on, with_answers};
use testing_rules_model::LentRow;
use testing_rules_suites::{RowAnswer, is_watched_on};

/// Names that are looked up by their hash.
type NameSet<'a> = HashSet<&'a str>;

/// For each of the rows whether it is installable among them.
fn marks_of(alloc: Global, rows: &[LentRow]) -> Result<Vec<bool>, NoMemory>
    ensures { IfOk result (λ marks. marks.items ≡ are_installable (map (λ r. r.binary) (lent rows.now))) }
{
    let mut packages = Vec::new(alloc);
    for row in rows {
        packages.push(Row { binary: row.binary })?;
    }
    installable(alloc, &packages)
}

/// Each row on the architecture, and whether it is installable there.
fn judged_on<'a>(
    alloc: Global,
    arch: u32,
    rows: &[LentRow<'a>],
) -> Result<Vec<RowAnswer<'a>>, NoMemory>
    ensures { IfOk result (λ judged. answers judged.items ≡ moves.judged_on arch (lent rows.now)) }
{
    let there = rows_on(alloc, arch, rows)?;
    let marks = marks_of(alloc, &there)?;
    Ok(with_answers(alloc, &there, &marks)?)
}

/// The names of those of the rows of a place that are installable.
fn working_names<'a>(
    alloc: Global,
    place: u32,
    before: &[RowAnswer<'a>],
) -> Result<Vec<&'a str>, AllocError>
    ensures { IfOk result (λ names. lent_lines names.items ≡ working_names place (answers before.now)) }
{
    let mut names = Vec::new(alloc);
    for judged in before {
        if judged.is_installable && judged.row.arch == place {
            names.push(judged.row.binary.name.as_str())?;
        }
    }
    Ok(names)
}

/// The names as a set.
fn set_of<'a>(alloc: Global, names: &[&'a str]) -> Result<NameSet<'a>, AllocError>
    ensures { IfOk result (λ set. (name : List ℕ) → has_line set.keys name ≡ list_any (bytes_eq name) (lent_lines names.now)) }
{
    let set = names.iter().copied().collect(alloc)?;
    Ok(set)
}

/// The same names as a set.
fn working_set<'a>(
    alloc: Global,
    place: u32,
    before: &[RowAnswer<'a>],
) -> Result<NameSet<'a>, AllocError>
    ensures { IfOk result (λ set. (name : List ℕ) → has_line set.keys name ≡ list_any (bytes_eq name) (working_names place (answers before.now))) }
{
    let names = working_names(alloc, place, before)?;
    set_of(alloc, &names)
}

/// Whether the set has the name.
fn is_in_set(set: &NameSet, name: &str) -> bool
    ensures { result ≡ has_line set.now.keys name.now }
{
    set.contains(name)
}

/// Whether the row was installable, by the names of the architecture's own rows that were, and of those of `all`.
fn worked_by(arch: u32, own: &NameSet, all: &NameSet, row: &LentRow) -> bool
    ensures { result ≡ worked_by arch own.now.keys all.now.keys (row_of row.now) }
{
    let name = row.binary.name.as_str();
    if row.arch == arch {
        is_in_set(own, name)
    } else {
        is_in_set(all, name)
    }
}

/// Whether the row fails, by these names.
fn fails_by(arch: u32, group: &[Text], own: &NameSet, all: &NameSet, judged: RowAnswer) -> bool
    ensures { result ≡ fails_by arch group.now own.now.keys all.now.keys (answer judged.entry) }
{
    is_watched_on(arch, &judged.row)
        && !judged.is_installable
        && (is_row_of(group, &judged.row) || worked_by(arch, own, all, &judged.row))
}

/// Those of the rows that fail, by these names.
fn failing<'a>(
    alloc: Global,
    arch: u32,
    group: &[Text],
    own: &NameSet,
    all: &NameSet,
    after: &[RowAnswer<'a>],
) -> Result<Vec<LentRow<'a>>, AllocError>
    ensures { IfOk result (λ rows. lent rows.items ≡ map (λ j. j.row) (filter (fails_by arch group.now own.now.keys all.now.keys) (answers after.now))) }
{
    let mut rows = Vec::new(alloc);
    for judged in after {
        if fails_by(arch, group, own, all, *judged) {
            rows.push(judged.row)?;
        }
    }
    Ok(rows)
}

/// The rows that a change from the old rows to the new ones breaks on the architecture, where a group came in. It costs
/// two judgements of the architecture's rows. The only error is running out of memory.
pub(crate) fn broken_on<'a>(
    alloc: Global,
    arch: u32,
    group: &[Text],
    old: &[LentRow],
    new: &[LentRow<'a>],
) -> Result<Vec<LentRow<'a>>, NoMemory>
    ensures { IfOk result (λ rows. lent rows.items ≡ rules.broken_on arch group.now (lent old.now) (lent new.now)) }
{
    let before = judged_on(alloc, arch, old)?;
    let own = working_set(alloc, arch, &before)?;
    let all = working_set(alloc, ALL, &before)?;
    let after = judged_on(alloc, arch, new)?;
    let rows = failing(alloc, arch, group, &own, &all, &after)?;
    Ok(rows)
}
