//! The proof that a row isn't installable, line by line, and who could meet an unmet clause.

ghost use Rattle.std.specs.Prelude.{◌≡◌, IfOk, map};
ghost use Rattle.testing_rules_model.specs.JudgedRows.{lent};
ghost use Rattle.testing_rules_model.specs.Moves as moves;
ghost use Rattle.testing_rules_refusals.specs.steps.LineNumbers.{IsLineIndex};
ghost use Rattle.testing_rules_refusals.specs.Needs.{need_of};
ghost use Rattle.testing_rules_refusals.specs.Told as rules;
ghost use Rattle.testing_rules_refusals.specs.Told.{told_of};

use crate::needs::{Need, meeting, need_at};
use crate::providers::{noted_lines, providers};
use crate::refusal::Refusal;
use deb_control::Clause;
use deb_version::NoMemory;
use std::alloc::{AllocError, Global};
use testing_install::NameIndex;
use testing_install_why::Step;
use testing_rules_live::rows_on;
use testing_rules_model::LentRow;

/// A line: its number, a row and a clause of it, and the numbers of the lines whose rows meet the clause. If there are
/// none, also the leaving rows of testing that met it before, and the rows of unstable that would meet it.
#[derive(Drop)]
pub struct Told<'a> {
    pub number: usize,
    pub need: Need<'a>,
    pub met_by: Vec<usize>,
    pub leaving: Vec<LentRow<'a>>,
    pub offers: Vec<LentRow<'a>>,
}

/// The rows that meet the clause, if nothing else does.
fn met_where<'a>(
    alloc: Global,
    is_unmet: bool,
    rows: &[LentRow<'a>],
    clause: &Clause,
) -> Result<Vec<LentRow<'a>>, AllocError>
    ensures { IfOk result (λ met. lent met.items ≡ rules.met_where is_unmet clause.now (lent rows.now)) }
{
    if is_unmet {
        meeting(alloc, rows, clause)
    } else {
        Ok(Vec::new(alloc))
    }
}

/// The line of a row and its clause.
fn line_of_need<'a>(
    alloc: Global,
    shown: &Shown<'_, 'a>,
    number: usize,
    need: Need<'a>,
) -> Result<Told<'a>, AllocError>
    requires { IsLineIndex (lent shown.now.rows.now) shown.now.steps.now shown.now.noted.now }
    ensures { IfOk result (λ told. told_of told ≡ rules.line_of_need (lent shown.now.rows.now) shown.now.steps.now (lent shown.now.before.now) (lent shown.now.unstable.now) number (need_of need.entry)) }
{
    let met_by = providers(alloc, shown.rows, shown.steps, shown.noted, need.clause)?;
    let is_unmet = met_by.is_empty();
    let leaving = met_where(alloc, is_unmet, shown.before, need.clause)?;
    let offers = met_where(alloc, is_unmet, shown.unstable, need.clause)?;
    Ok(Told {
        number,
        need,
        met_by,
        leaving,
        offers,
    })
}

/// The rows on an architecture after a change and before it, those of unstable, and the steps over the first, with the
/// numbers of their lines at each name that the lines' rows provide.
#[derive(Clone, Copy)]
struct Shown<'g, 'a> {
    rows: &'g [LentRow<'a>],
    steps: &'g [Step],
    noted: &'g NameIndex,
    before: &'g [LentRow<'a>],
    unstable: &'g [LentRow<'a>],
}

/// The lines of the steps, the last step first.
fn lines_of<'a>(alloc: Global, shown: &Shown<'_, 'a>) -> Result<Vec<Told<'a>>, AllocError>
    requires { IsLineIndex (lent shown.now.rows.now) shown.now.steps.now shown.now.noted.now }
    ensures { IfOk result (λ lines. map told_of lines.items ≡ rules.lines_of (lent shown.now.rows.now) shown.now.steps.now (lent shown.now.before.now) (lent shown.now.unstable.now)) }
{
    let mut lines = Vec::new(alloc);
    for before in 0..shown.steps.len() {
        if let Some(need) = need_at(shown.rows, shown.steps, before + 1) {
            lines.push(line_of_need(alloc, shown, before + 1, need)?)?;
        }
    }
    Ok(lines)
}

/// The proof of a refusal, line by line, with the offender first, given testing's rows before the change and
/// unstable's. The only error is running out of memory.
pub fn refusal_lines<'a>(
    alloc: Global,
    refusal: &Refusal<'a>,
    old: &[LentRow<'a>],
    unstable: &[LentRow<'a>],
) -> Result<Vec<Told<'a>>, NoMemory>
    ensures { IfOk result (λ lines. map told_of lines.items ≡ rules.lines_of (lent refusal.now.rows.items) refusal.now.steps.items
        (moves.rows_on refusal.now.offender.arch (lent old.now)) (moves.rows_on refusal.now.offender.arch (lent unstable.now))) }
{
    let before = rows_on(alloc, refusal.offender.arch, old)?;
    let unstable = rows_on(alloc, refusal.offender.arch, unstable)?;
    let rows: &[LentRow<'a>] = &refusal.rows;
    let steps: &[Step] = &refusal.steps;
    let noted = noted_lines(alloc, rows, steps)?;
    let shown = Shown {
        rows,
        steps,
        noted: &noted,
        before: &before,
        unstable: &unstable,
    };
    Ok(lines_of(alloc, &shown)?)
}
