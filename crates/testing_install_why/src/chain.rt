ghost use Rattle.std.specs.Prelude.{◌≡◌, ℕ, ◌<◌, ◌≤◌, Bool, length, Some, IfOk, IfSome, IfNone, Contains};
ghost use Rattle.std.specs.List.{slice_get};
ghost use Rattle.testing_install_why.specs.steps.Providers.{IsProvider, IsLast, IsLeast, IsNext};
ghost use Rattle.testing_install_why.specs.steps.Chain.{IsChain};
ghost use Rattle.testing_install_why.specs.steps.Needed.{IsStepIndex};
ghost use Rattle.testing_install_why.specs.Order.{IsGroundless};
ghost use Rattle.testing_install_why.specs.steps.Steps.{AreSteps};
ghost use Rattle.testing_install_why.specs.declared.Step.{Step as TheStep};

use crate::Step;
use crate::providers::{clause_of, is_provider, noted_steps};
use deb_control::Clause;
use deb_version::NoMemory;
use std::alloc::Global;
use testing_install::{NameIndex, Suite};

// The least of these numbers below the end with a step whose row meets the clause, or the end if there is none.
fn least_among(
    suite: &Suite,
    order: &[Step],
    clause: &Clause,
    numbers: &[usize],
    end: usize,
) -> usize
    requires end { end < length order.now }
    requires steps { AreSteps suite.now.rows order.now }
    ensures { IsLeast suite.now.rows order.now end clause.now result (λ m. Contains numbers.now m) }
{
    let mut least = end;
    for number in numbers {
        if is_provider(suite, order, clause, *number, least) {
            least = *number;
        }
    }
    least
}

// The number of the first step below the end whose row meets the clause, or the end if there is none.
fn first_provider(
    suite: &Suite,
    order: &[Step],
    noted: &NameIndex,
    clause: &Clause,
    end: usize,
) -> usize
    requires end { end < length order.now }
    requires steps { AreSteps suite.now.rows order.now }
    requires noted { IsStepIndex suite.now.rows order.now noted.now }
    ensures { IsLeast suite.now.rows order.now end clause.now result (λ m. IsProvider suite.now.rows order.now end clause.now m) }
{
    let mut least = end;
    for alternative in clause.as_slice() {
        let numbers = noted.places(alternative.name.as_str());
        least = least_among(suite, order, clause, numbers, least);
    }
    least
}

// The number of the first step before this one whose row meets its clause.
fn next_of(suite: &Suite, order: &[Step], noted: &NameIndex, last: usize) -> Option<usize>
    requires last { last < length order.now }
    requires steps { AreSteps suite.now.rows order.now }
    requires noted { IsStepIndex suite.now.rows order.now noted.now }
    ensures some { IfSome result (λ n. IsNext suite.now.rows order.now last n) }
    ensures none { IfNone result (IsLast suite.now.rows order.now last) }
{
    let clause = clause_of(suite, order[last]);
    let first = first_provider(suite, order, noted, clause, last);
    if first < last { Some(first) } else { None }
}

/// The rest of the chain that begins at a step of an order: each next row is present and meets the clause before it,
/// and no present row meets the last clause. Each is the first such row of the order, so the chain is short. The only
/// error is running out of memory.
pub fn chain_from(
    alloc: Global,
    suite: &Suite,
    order: &[Step],
    first: usize,
) -> Result<Vec<Step>, NoMemory>
    requires first { first < length order.now }
    requires steps { AreSteps suite.now.rows order.now }
    ensures { IfOk result (λ rest. (there : ℕ → Bool) → IsGroundless suite.now.rows there order.now
        → (step : TheStep) → slice_get order.now first ≡ Some step → IsChain suite.now.rows there order.now step rest.items) }
{
    let noted = noted_steps(alloc, suite, order)?;
    let mut rest = Vec::new(alloc);
    let mut last = first;
    while let Some(next) = next_of(suite, order, &noted, last) {
        let step = order[next];
        rest.push(step)?;
        last = next;
    }
    Ok(rest)
}
