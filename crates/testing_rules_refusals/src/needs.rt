//! The lines of a proof, each a row and one of its clauses, and the rows that meet a clause.

ghost use Rattle.std.specs.Prelude.{◌≡◌, IfOk, option_map};
ghost use Rattle.testing_rules_model.specs.JudgedRows.{lent, row_of};
ghost use Rattle.testing_rules_refusals.specs.Needs as rules;
ghost use Rattle.testing_rules_refusals.specs.Needs.{need_of};

use deb_control::Clause;
use deb_version::NoMemory;
use std::alloc::{AllocError, Global};
use testing_install::meets;
use testing_install_why::Step;
use testing_rules_model::LentRow;

/// A row, and a clause of it.
#[derive(Clone, Copy)]
pub struct Need<'a> {
    pub row: LentRow<'a>,
    pub clause: &'a Clause,
}

/// The step with the number, counted from the last one as 1.
fn step_at(steps: &[Step], number: usize) -> Option<Step>
    ensures { result ≡ rules.step_at steps.now number }
{
    steps.get(steps.len().saturating_sub(number)).copied()
}

/// The clause of a row with this number.
fn need_of<'a>(row: LentRow<'a>, need: usize) -> Option<Need<'a>>
    ensures { option_map need_of result ≡ rules.need_in need (row_of row.entry) }
{
    match row.binary.clauses.as_slice().get(need) {
        Some(clause) => Some(Need { row, clause }),
        None => None,
    }
}

/// The row and the clause of a step.
fn need_by<'a>(rows: &[LentRow<'a>], step: Step) -> Option<Need<'a>>
    ensures { option_map need_of result ≡ rules.need_by (lent rows.now) step }
{
    match rows.get(step.place) {
        Some(row) => need_of(*row, step.need),
        None => None,
    }
}

/// The row and the clause of the line with the number. The last step is line 1.
pub fn need_at<'a>(rows: &[LentRow<'a>], steps: &[Step], number: usize) -> Option<Need<'a>>
    ensures { option_map need_of result ≡ rules.need_at (lent rows.now) steps.now number }
{
    match step_at(steps, number) {
        Some(step) => need_by(rows, step),
        None => None,
    }
}

/// The given rows that meet the clause.
pub fn meeting<'a>(
    alloc: Global,
    rows: &[LentRow<'a>],
    clause: &Clause,
) -> Result<Vec<LentRow<'a>>, AllocError>
    ensures { IfOk result (λ met. lent met.items ≡ rules.meeting clause.now (lent rows.now)) }
{
    let mut met = Vec::new(alloc);
    for row in rows {
        if meets(row.binary, clause) {
            met.push(*row)?;
        }
    }
    Ok(met)
}
