//! Moves that the coming rows alone refuse: one of them has a clause that no present or coming row meets. No trial is
//! needed to see this.

ghost use Rattle.std.specs.Prelude.{◌≡◌, ℕ, ◌<◌, false, true, IfSome, Contains, Some, length};
ghost use Rattle.std.specs.List.{All, list_any, slice_get};
ghost use Rattle.testing_install.specs.Index.{provides_name};
ghost use Rattle.testing_rules_live.specs.steps.Lacks.{meets_on, stands_for_it, IsUnmet, IsLack};
ghost use Rattle.testing_rules_model.specs.declared.suite.RowIn.{RowIn as ARow};
ghost use Rattle.testing_rules_model.specs.JudgedRows.{row_of};
ghost use Rattle.testing_rules_model.specs.Moves as moves;

use deb_control::{Binary, Clause};
use testing_install::meets;
use testing_rules_items::ALL;
use testing_rules_model::LentRow;
use testing_rules_suites::{CarriedSuites, Pool, is_row_on};

/// The row at the place is on the architecture and meets the clause.
fn is_met_on(arch: u32, pool: &Pool, clause: &Clause, place: usize) -> bool
    ensures { result ≡ meets_on arch pool.now clause.now place }
{
    if place >= pool.len() {
        return false;
    }
    let row = pool.row(place);
    is_row_on(arch, &row) && meets(row.binary, clause)
}

/// The row at the place is present, on the architecture and meets the clause.
fn is_met_at(arch: u32, suites: &CarriedSuites, clause: &Clause, place: usize) -> bool
    ensures { result ≡ stands_for_it arch suites.now.rows suites.now.stands clause.now place }
{
    place < suites.stands().len()
        && suites.stands()[place]
        && is_met_on(arch, suites.pool(), clause, place)
}

/// A row at one of the places is present, on the architecture and meets the clause.
fn is_met_among(arch: u32, suites: &CarriedSuites, clause: &Clause, places: &[usize]) -> bool
    ensures { result ≡ list_any (stands_for_it arch suites.now.rows suites.now.stands clause.now) places.now }
{
    places
        .iter()
        .any(|place| is_met_at(arch, suites, clause, *place))
}

/// A row that provides the name is present, on the architecture and meets the clause.
fn is_met_under(arch: u32, suites: &CarriedSuites, clause: &Clause, name: &str) -> bool
    ensures { result ≡ false → (k : ℕ) (r : ARow) → slice_get suites.now.rows k ≡ Some r → provides_name r.binary name.now ≡ true
        → stands_for_it arch suites.now.rows suites.now.stands clause.now k ≡ false }
{
    is_met_among(arch, suites, clause, suites.pool().of_name(name))
}

/// A row is present, on the architecture and meets the clause.
fn is_met(arch: u32, suites: &CarriedSuites, clause: &Clause) -> bool
    ensures { result ≡ false → (k : ℕ) → stands_for_it arch suites.now.rows suites.now.stands clause.now k ≡ false }
{
    for alternative in clause.as_slice() {
        if is_met_under(arch, suites, clause, alternative.name.as_str()) {
            return true;
        }
    }
    false
}

/// A row at one of the places is on the architecture and meets the clause.
fn is_met_by(arch: u32, pool: &Pool, clause: &Clause, places: &[usize]) -> bool
    ensures { result ≡ list_any (meets_on arch pool.now clause.now) places.now }
{
    places
        .iter()
        .any(|place| is_met_on(arch, pool, clause, *place))
}

/// No present or coming row on the architecture meets the clause.
fn is_unmet(arch: u32, suites: &CarriedSuites, coming: &[usize], clause: &Clause) -> bool
    ensures { result ≡ true → IsUnmet arch suites.now.rows suites.now.stands coming.now clause.now }
{
    !is_met(arch, suites, clause) && !is_met_by(arch, suites.pool(), clause, coming)
}

/// The package's first clause that no present or coming row on the architecture meets.
fn unmet_clause<'a>(
    arch: u32,
    suites: &CarriedSuites,
    coming: &[usize],
    binary: &'a Binary,
) -> Option<&'a Clause>
    ensures has { IfSome result (λ clause. Contains binary.now.clauses clause.now) }
    ensures unmet { IfSome result (λ clause. IsUnmet arch suites.now.rows suites.now.stands coming.now clause.now) }
{
    for clause in binary.clauses.as_slice() {
        if is_unmet(arch, suites, coming, clause) {
            return Some(clause);
        }
    }
    None
}

/// The architecture on which the row is watched.
fn watching(row: &LentRow) -> u32
    ensures { moves.is_watched_on result (row_of row.now) ≡ true }
{
    if row.arch == ALL { 0 } else { row.arch }
}

/// A clause of the coming row at a place that no present or coming row on its architecture meets.
fn lack_at<'a>(suites: &'a CarriedSuites, coming: &[usize], place: usize) -> Option<&'a Clause>
    requires place { place < length suites.now.rows }
    requires comes { Contains coming.now place }
    ensures { IfSome result (λ clause. IsLack suites.now.archs suites.now.rows suites.now.stands coming.now clause.now) }
{
    let row = suites.pool().row(place);
    let arch = watching(&row);
    if arch >= suites.archs() {
        return None;
    }
    unmet_clause(arch, suites, coming, row.binary)
}

/// A clause of a coming row that no present or coming row on its architecture meets. Without one the change may still
/// lose a row.
pub fn lack_among<'a>(suites: &'a CarriedSuites, coming: &[usize]) -> Option<&'a Clause>
    requires coming { All (λ k. k < length suites.now.rows) coming.now }
    ensures { IfSome result (λ clause. IsLack suites.now.archs suites.now.rows suites.now.stands coming.now clause.now) }
{
    for place in coming {
        if let Some(clause) = lack_at(suites, coming, *place) {
            return Some(clause);
        }
    }
    None
}
