//! The rows and clauses of steps, and the steps at the names that their rows provide.

ghost use Rattle.std.specs.Prelude.{◌≡◌, ◌<◌, true, false, length, Some, IfOk};
ghost use Rattle.std.specs.List.{slice_get};
ghost use Rattle.testing_install_why.specs.steps.Providers.{IsProvider};
ghost use Rattle.testing_install_why.specs.steps.Needed.{IsStepIndex};
ghost use Rattle.testing_install_why.specs.Order.{IsStep};
ghost use Rattle.testing_install_why.specs.steps.Steps.{AreSteps, IsClauseOf};

use crate::Step;
use deb_control::{Binary, Clause};
use deb_version::NoMemory;
use std::alloc::Global;
use testing_install::{NameIndex, Suite, meets, note_row};

/// The package of a step.
pub fn row_of<'a>(suite: &'a Suite, step: Step) -> &'a Binary
    requires { IsStep suite.now.rows step }
    ensures { slice_get suite.now.rows step.place ≡ Some result.now }
{
    suite.binary(step.place)
}

/// The clause of a step.
pub fn clause_of<'a>(suite: &'a Suite, step: Step) -> &'a Clause
    requires { IsStep suite.now.rows step }
    ensures { IsClauseOf suite.now.rows step result.now }
{
    let binary = row_of(suite, step);
    &binary.clauses.as_slice()[step.need]
}

/// The numbers of the steps at each name that their rows provide.
pub fn noted_steps(alloc: Global, suite: &Suite, order: &[Step]) -> Result<NameIndex, NoMemory>
    requires { AreSteps suite.now.rows order.now }
    ensures { IfOk result (λ noted. IsStepIndex suite.now.rows order.now noted) }
{
    let mut noted = NameIndex::new(alloc);
    for number in 0..order.len() {
        let step = order[number];
        note_row(alloc, &mut noted, row_of(suite, step), number)?;
    }
    Ok(noted)
}

/// The step with the first number precedes the one with the second, and its row meets the clause.
pub fn is_provider(
    suite: &Suite,
    order: &[Step],
    clause: &Clause,
    earlier: usize,
    number: usize,
) -> bool
    requires number { number < length order.now }
    requires steps { AreSteps suite.now.rows order.now }
    ensures provides_name { result ≡ true → IsProvider suite.now.rows order.now number clause.now earlier }
    ensures misses { result ≡ false → IsProvider suite.now.rows order.now number clause.now earlier → ⊥ }
{
    if earlier >= number {
        return false;
    }
    let step = order[earlier];
    meets(row_of(suite, step), clause)
}
