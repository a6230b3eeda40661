//! Checks on rows and steps, whatever their origin: whether each step has its row and its clause, and where the steps
//! end.

ghost use Rattle.std.specs.Prelude.{◌≡◌, true, IfSome};
ghost use Rattle.testing_install.specs.Rows.{binaries};
ghost use Rattle.testing_install_why.specs.steps.Checking.{EndsAt};
ghost use Rattle.testing_install_why.specs.Order.{IsStep};
ghost use Rattle.testing_install_why.specs.steps.Steps.{AreSteps, IsClauseOf};

use crate::Step;
use deb_control::Clause;
use testing_install::Row;

// The clause of a step, if there is one.
pub(crate) fn clause_at<'a>(rows: &[Row<'a>], step: Step) -> Option<&'a Clause>
    ensures clause { IfSome result (λ clause. IsClauseOf (binaries rows.now) step clause.now) }
    ensures step { IfSome result (λ clause. IsStep (binaries rows.now) step) }
{
    match rows.get(step.place) {
        Some(row) => row.binary.clauses.as_slice().get(step.need),
        None => None,
    }
}

// The step has its row and its clause.
fn is_step(rows: &[Row<'_>], step: Step) -> bool
    ensures { result ≡ true → IsStep (binaries rows.now) step }
{
    match clause_at(rows, step) {
        Some(_clause) => true,
        None => false,
    }
}

// Each step has its row and its clause.
pub(crate) fn are_steps(rows: &[Row<'_>], steps: &[Step]) -> bool
    ensures { result ≡ true → AreSteps (binaries rows.now) steps.now }
{
    for number in 0..steps.len() {
        if !is_step(rows, steps[number]) {
            return false;
        }
    }
    true
}

// The last step has the row at the place.
pub(crate) fn ends_at(steps: &[Step], place: usize) -> bool
    ensures { result ≡ true → EndsAt steps.now place }
{
    match steps.last() {
        Some(step) => step.place == place,
        None => false,
    }
}
