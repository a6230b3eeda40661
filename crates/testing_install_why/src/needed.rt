ghost use Rattle.std.specs.Prelude.{◌≡◌, ◌<◌, List, length, Some, IfOk, Contains};
ghost use Rattle.std.specs.List.{slice_get};
ghost use Rattle.deb_control.specs.declared.binary.Binary.{Binary};
ghost use Rattle.testing_install_why.specs.steps.Certificate.{IsCertificate};
ghost use Rattle.testing_install_why.specs.steps.Needed.{IsMarkedFor, IsMarkedWhere, IsNeeded, IsStepIndex};
ghost use Rattle.testing_install_why.specs.steps.Steps.{AreSteps};
ghost use Rattle.testing_install_why.specs.declared.Step.{Step as TheStep};

use crate::Step;
use crate::providers::{clause_of, is_provider, noted_steps};
use deb_control::Clause;
use deb_version::NoMemory;
use std::alloc::Global;
use testing_install::{NameIndex, Suite};

// Marks the steps with these numbers that precede this one and whose rows meet the clause.
fn mark_among(
    suite: &Suite,
    order: &[Step],
    clause: &Clause,
    numbers: &[usize],
    needed: &mut [bool],
    number: usize,
)
    requires number { number < length order.now }
    requires steps { AreSteps suite.now.rows order.now }
    requires long { length needed.old ≡ length order.now }
    ensures { IsMarkedWhere suite.now.rows order.now needed.old needed.new number clause.now (λ m. Contains numbers.now m) }
{
    for earlier in numbers {
        if is_provider(suite, order, clause, *earlier, number) {
            needed[*earlier] = true;
        }
    }
}

// Marks the steps before this one with rows that meet its clause, found at the names of its alternatives.
fn mark_providers(
    suite: &Suite,
    order: &[Step],
    noted: &NameIndex,
    needed: &mut [bool],
    number: usize,
)
    requires number { number < length order.now }
    requires steps { AreSteps suite.now.rows order.now }
    requires noted { IsStepIndex suite.now.rows order.now noted.now }
    requires long { length needed.old ≡ length order.now }
    ensures { IsMarkedFor suite.now.rows order.now needed.old needed.new number }
{
    let clause = clause_of(suite, order[number]);
    for alternative in clause.as_slice() {
        let numbers = noted.places(alternative.name.as_str());
        mark_among(suite, order, clause, numbers, needed, number);
    }
}

// Which steps this one needs, including itself.
fn needed_by(
    alloc: Global,
    suite: &Suite,
    order: &[Step],
    last: usize,
) -> Result<Vec<bool>, NoMemory>
    requires last { last < length order.now }
    requires steps { AreSteps suite.now.rows order.now }
    ensures { IfOk result (λ needed. IsNeeded suite.now.rows order.now needed.items last 0) }
{
    let noted = noted_steps(alloc, suite, order)?;
    let mut needed = vec![in alloc; false; order.len()]?;
    needed[last] = true;
    let mut number = last + 1;
    while number > 0 {
        number -= 1;
        if needed[number] {
            mark_providers(suite, order, &noted, &mut needed, number);
        }
    }
    Ok(needed)
}

// The needed steps up to the last, in the order's order.
fn picked(
    alloc: Global,
    order: &[Step],
    needed: &[bool],
    last: usize,
) -> Result<Vec<Step>, NoMemory>
    requires last { last < length order.now }
    requires long { length needed.now ≡ length order.now }
    ensures { IfOk result (λ steps. (rows : List Binary) → IsNeeded rows order.now needed.now last 0
        → (step : TheStep) → slice_get order.now last ≡ Some step → IsCertificate rows order.now step steps.items) }
{
    let mut steps = Vec::new(alloc);
    for number in 0..last {
        if needed[number] {
            let step = order[number];
            steps.push(step)?;
        }
    }
    let step = order[last];
    steps.push(step)?;
    Ok(steps)
}

/// The part of an order that shows that the row of one step isn't installable: that step is last, and each present row
/// that meets a step's clause is in an earlier step. The only error is running out of memory.
pub fn certificate_of(
    alloc: Global,
    suite: &Suite,
    order: &[Step],
    last: usize,
) -> Result<Vec<Step>, NoMemory>
    requires last { last < length order.now }
    requires steps { AreSteps suite.now.rows order.now }
    ensures { IfOk result (λ steps. (step : TheStep) → slice_get order.now last ≡ Some step
        → IsCertificate suite.now.rows order.now step steps.items) }
{
    let needed = needed_by(alloc, suite, order, last)?;
    picked(alloc, order, &needed, last)
}
