//! Which candidates live, and which rows may be present, whichever of them have moved.

ghost use Rattle.std.specs.Prelude.{◌≡◌, ◌++◌, ℕ, List, IfOk, filter, is_none, map, not, option_copied};
ghost use Rattle.std.specs.List.{list_any};
ghost use Rattle.std.specs.Str.{bytes_eq};
ghost use Rattle.testing_rules_excuses.specs.States as states;
ghost use Rattle.testing_rules_model.specs.Boxed.{unboxed};
ghost use Rattle.testing_rules_model.specs.Excuses as rules;
ghost use Rattle.testing_rules_model.specs.FactOrder.{AreBySource};
ghost use Rattle.testing_rules_model.specs.InOrder.{AreByKey};
ghost use Rattle.testing_rules_model.specs.JudgedRows.{lent, row_of};
ghost use Rattle.testing_rules_model.specs.Moves as moves;
ghost use Rattle.testing_rules_model.specs.Updates as updates;
ghost use Rattle.testing_rules_refusals.specs.steps.Arrivals.{IsArrival};
ghost use Rattle.testing_rules_refusals.specs.steps.Standing.{comes_by, lives_beside};
ghost use Rattle.testing_rules_refusals.specs.Stuck as stuck;
ghost use Rattle.testing_rules_reports.specs.steps.LentLines.{has_line, lent_lines};

use crate::proof_text::is_current_in;
use deb_control::Text;
use deb_version::{NoMemory, Version};
use std::alloc::{AllocError, Global};
use std::collections::HashSet;
use testing_rules_facts::{Unstable, is_same_version};
use testing_rules_live::{is_of, is_same_key, rows_on};
use testing_rules_model::{Excuse, LentRow};
use testing_rules_suites::{Testing, place_of_name};

/// Names looked up by their hash.
type NameSet<'a> = HashSet<&'a str>;

/// The names, borrowed.
fn lent_names<'a>(alloc: Global, names: &'a [Text]) -> Result<Vec<&'a str>, AllocError>
    ensures { IfOk result (λ found. lent_lines found.items ≡ names.now) }
{
    let mut found = Vec::new(alloc);
    for name in names {
        found.push(name.as_str())?;
    }
    Ok(found)
}

/// The names as a set.
fn set_of<'a>(alloc: Global, names: &[&'a str]) -> Result<NameSet<'a>, AllocError>
    ensures { IfOk result (λ set. (name : List ℕ) → has_line set.keys name ≡ list_any (bytes_eq name) (lent_lines names.now)) }
{
    let set = names.iter().copied().collect(alloc)?;
    Ok(set)
}

/// The names as a set.
fn name_set<'a>(alloc: Global, names: &'a [Text]) -> Result<NameSet<'a>, AllocError>
    ensures { IfOk result (λ set. (name : List ℕ) → has_line set.keys name ≡ list_any (bytes_eq name) names.now) }
{
    let found = lent_names(alloc, names)?;
    set_of(alloc, &found)
}

/// Whether the set has the name.
fn is_in_set(set: &NameSet, name: &str) -> bool
    ensures { result ≡ has_line set.now.keys name.now }
{
    set.contains(name)
}

/// The source's version in testing. It costs one look-up among testing's sources.
pub fn version_in<'a>(testing: &'a Testing, name: &str) -> Option<&'a Version>
    ensures { option_copied result ≡ rules.testing_version testing.now name.now }
{
    let sources = testing.sources();
    match place_of_name(sources, name) {
        Ok(place) => Some(&sources[place].version),
        Err(_) => None,
    }
}

/// Testing doesn't have the source. It costs one look-up among testing's sources.
pub(crate) fn is_absent(testing: &Testing, name: &str) -> bool
    ensures { result ≡ is_none (rules.testing_version testing.now name.now) }
{
    match version_in(testing, name) {
        Some(_) => false,
        None => true,
    }
}

/// Whether testing has the source at this version. It costs one look-up among testing's sources.
pub fn is_in_testing(testing: &Testing, name: &str, version: &Version) -> bool
    ensures { result ≡ updates.is_in_testing testing.now name.now version.now }
{
    match version_in(testing, name) {
        Some(there) => is_same_version(version, there),
        None => false,
    }
}

/// The excuse's source is a candidate that hasn't moved.
fn is_remaining(testing: &Testing, excuse: &Excuse) -> bool
    ensures { result ≡ updates.is_remaining testing.now excuse.now }
{
    excuse.reasons.as_slice().is_empty()
        && !is_in_testing(testing, excuse.source.as_str(), &excuse.unstable)
}

/// The excuse's source is a candidate that hasn't moved, and its name isn't in the set.
fn lives_beside(testing: &Testing, dead: &NameSet, excuse: &Excuse) -> bool
    ensures { result ≡ lives_beside testing.now dead.now.keys excuse.now }
{
    is_remaining(testing, excuse) && !is_in_set(dead, excuse.source.as_str())
}

/// The candidates that haven't moved, except those in the set.
fn living_beside(
    alloc: Global,
    excuses: &[Excuse],
    testing: &Testing,
    dead: &NameSet,
) -> Result<Vec<Text>, NoMemory>
    ensures { IfOk result (λ names. names.items ≡ map (λ e. e.source) (filter (lives_beside testing.now dead.now.keys) excuses.now)) }
{
    let mut names = Vec::new(alloc);
    for excuse in excuses {
        if lives_beside(testing, dead, excuse) {
            names.push(excuse.source.copy(alloc)?)?;
        }
    }
    Ok(names)
}

/// The candidates that haven't moved, except the dead ones.
pub(crate) fn living(
    alloc: Global,
    excuses: &[Excuse],
    testing: &Testing,
    dead: &[Text],
) -> Result<Vec<Text>, NoMemory>
    ensures { IfOk result (λ names. names.items ≡ stuck.living excuses.now testing.now dead.now) }
{
    let dead = name_set(alloc, dead)?;
    living_beside(alloc, excuses, testing, &dead)
}

/// The current rows of unstable whose source is in the set.
fn coming_by<'a>(
    alloc: Global,
    unstable: Unstable<'_, 'a>,
    live: &NameSet,
) -> Result<Vec<LentRow<'a>>, NoMemory>
    requires { AreBySource (unboxed unstable.sources.now) }
    ensures { IfOk result (λ rows. lent rows.items ≡ filter (comes_by (unboxed unstable.entry.sources.now) live.now.keys) (lent unstable.entry.rows.now)) }
{
    let mut coming = Vec::new(alloc);
    for row in unstable.rows {
        if is_in_set(live, row.binary.source.as_str()) && is_current_in(unstable.sources, row) {
            coming.push(*row)?;
        }
    }
    Ok(coming)
}

/// The rows of unstable that come with the sources.
pub(crate) fn coming_rows<'a>(
    alloc: Global,
    unstable: Unstable<'_, 'a>,
    live: &[Text],
) -> Result<Vec<LentRow<'a>>, NoMemory>
    requires { AreBySource (unboxed unstable.sources.now) }
    ensures { IfOk result (λ rows. lent rows.items ≡ stuck.coming_rows (unboxed unstable.entry.sources.now) (lent unstable.entry.rows.now) live.now) }
{
    let live = name_set(alloc, live)?;
    coming_by(alloc, unstable, &live)
}

/// Testing has one row of a key, in order.
pub(crate) fn in_key_order(testing: &Testing)
    ensures { AreByKey testing.now.rows }
{
    let _ = testing.rows();
}

/// Some of the rows has the row's key.
pub(crate) fn has_key_of(rows: &[LentRow], row: &LentRow) -> bool
    ensures { result ≡ list_any (moves.is_same_key (row_of row.now)) (lent rows.now) }
{
    for other in rows {
        if is_same_key(row, other) {
            return true;
        }
    }
    false
}

/// The rows of a source that moves, and the names of their packages as a set.
#[derive(Clone, Copy)]
struct Arrival<'m, 'a> {
    name: &'m str,
    rows: &'m [LentRow<'a>],
    packages: &'m NameSet<'a>,
}

/// The source's rows among these.
fn rows_of<'a>(
    alloc: Global,
    rows: &[LentRow<'a>],
    name: &str,
) -> Result<Vec<LentRow<'a>>, NoMemory>
    ensures { IfOk result (λ own. lent own.items ≡ filter (λ r. bytes_eq r.binary.source name.now) (lent rows.now)) }
{
    let mut own = Vec::new(alloc);
    for row in rows {
        if is_of(row, name) {
            own.push(*row)?;
        }
    }
    Ok(own)
}

/// The names of the rows' packages.
fn package_names<'a>(alloc: Global, rows: &[LentRow<'a>]) -> Result<Vec<&'a str>, AllocError>
    ensures { IfOk result (λ found. lent_lines found.items ≡ map (λ r. r.binary.name) (lent rows.now)) }
{
    let mut found = Vec::new(alloc);
    for row in rows {
        found.push(row.binary.name.as_str())?;
    }
    Ok(found)
}

/// Some row that arrives has the row's key. Few rows have a name that arrives, so the set is asked first.
fn is_replaced(row: &LentRow, arrival: &Arrival) -> bool
    requires { IsArrival arrival.now }
    ensures { result ≡ list_any (moves.is_same_key (row_of row.now)) (lent arrival.now.rows.now) }
{
    is_in_set(arrival.packages, row.binary.name.as_str()) && has_key_of(arrival.rows, row)
}

/// The row leaves once the source has moved: it is the source's, or one that arrives has its key.
fn gives_way(row: &LentRow, arrival: &Arrival) -> bool
    requires { IsArrival arrival.now }
    ensures { result ≡ stuck.gives_way (lent arrival.now.rows.now) arrival.now.name.now (row_of row.now) }
{
    is_of(row, arrival.name) || is_replaced(row, arrival)
}

/// The rows that don't leave once the source has moved.
fn rows_left<'a>(
    alloc: Global,
    rows: &[LentRow<'a>],
    arrival: &Arrival,
) -> Result<Vec<LentRow<'a>>, NoMemory>
    requires { IsArrival arrival.now }
    ensures { IfOk result (λ left. lent left.items ≡ filter (λ r. not (stuck.gives_way (lent arrival.now.rows.now) arrival.now.name.now r)) (lent rows.now)) }
{
    let mut left = Vec::new(alloc);
    for row in rows {
        if !gives_way(row, arrival) {
            left.push(*row)?;
        }
    }
    Ok(left)
}

/// The rows that don't leave once the source has moved, which has these rows.
fn rows_beside<'a>(
    alloc: Global,
    rows: &[LentRow<'a>],
    own: &[LentRow<'a>],
    name: &str,
) -> Result<Vec<LentRow<'a>>, NoMemory>
    ensures { IfOk result (λ left. lent left.items ≡ filter (λ r. not (stuck.gives_way (lent own.now) name.now r)) (lent rows.now)) }
{
    let names = package_names(alloc, own)?;
    let packages = set_of(alloc, &names)?;
    let arrival = Arrival {
        name,
        rows: own,
        packages: &packages,
    };
    rows_left(alloc, rows, &arrival)
}

/// The rows on the architecture that may be present once the source has moved: those of testing that don't leave then,
/// and the rows that may come, its own among them.
pub(crate) fn rows_that_may_stand<'a>(
    alloc: Global,
    arch: u32,
    rows: &[LentRow<'a>],
    coming: &[LentRow<'a>],
    name: &Text,
) -> Result<Vec<LentRow<'a>>, NoMemory>
    ensures { IfOk result (λ there. lent there.items ≡ filter (λ r. not (stuck.gives_way (filter (λ q. bytes_eq q.binary.source name.now) (lent coming.now)) name.now r)) (moves.rows_on arch (lent rows.now))
        ++ moves.rows_on arch (lent coming.now)) }
{
    let own = rows_of(alloc, coming, name.as_str())?;
    let there = rows_on(alloc, arch, rows)?;
    let more = rows_on(alloc, arch, coming)?;
    let mut all = rows_beside(alloc, &there, &own, name.as_str())?;
    all.extend_from_slice(&more)?;
    Ok(all)
}
