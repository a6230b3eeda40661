//! Why one row of a suite isn't installable.

ghost use Rattle.std.specs.Prelude.{◌≡◌, ◌<◌, true, length, IfOk, IfSome, IfNone, Contains};
ghost use Rattle.std.specs.List.{All};
ghost use Rattle.testing_install.specs.Among.{IsInstallableAmong};
ghost use Rattle.testing_install.specs.Closed.{marked};
ghost use Rattle.testing_install_why.specs.Order.{IsNamed};
ghost use Rattle.testing_install_why.specs.steps.Order.{IsReaching};
ghost use Rattle.testing_install_why.specs.Certificate.{IsShownBy};
ghost use Rattle.testing_install_why.specs.steps.Providers.{IsStepOf};

use crate::Step;
use crate::needed::certificate_of;
use crate::order::order_over;
use crate::reached::reached_from;
use deb_version::NoMemory;
use std::alloc::Global;
use testing_install::Suite;

// The number of the first step with the row at the place.
fn number_of(steps: &[Step], place: usize) -> Option<usize>
    ensures some { IfSome result (λ n. IsStepOf steps.now n place) }
    ensures none { IfNone result (IsNamed steps.now (length steps.now) place → ⊥) }
{
    for number in 0..steps.len() {
        let step = steps[number];
        if step.place == place {
            return Some(number);
        }
    }
    None
}

// A proof that the row at the place isn't installable, from the rows at these places.
fn certificate_over(
    alloc: Global,
    suite: &Suite,
    places: &[usize],
    place: usize,
) -> Result<Option<Vec<Step>>, NoMemory>
    requires { All (λ k. k < length suite.now.rows) places.now }
    ensures some { IfOk result (λ found. IfSome found (λ steps. IsShownBy suite.now.rows (marked suite.now.there) place steps.items)) }
    ensures none { IfOk result (λ found. IfNone found (IsReaching suite.now.rows (marked suite.now.there) places.now → Contains places.now place
        → marked suite.now.there place ≡ true → (IsInstallableAmong suite.now.rows (marked suite.now.there) place → ⊥) → ⊥)) }
{
    let order = order_over(alloc, suite, places)?;
    let Some(last) = number_of(&order, place) else {
        return Ok(None);
    };
    let steps = certificate_of(alloc, suite, &order, last)?;
    Ok(Some(steps))
}

/// The steps that show why the row at the place isn't installable, with that row last. There are none if the row is
/// installable or absent. The cost is a pass over the suite's marks, and over what the rows reached from this one
/// touch. The only error is running out of memory.
pub fn certificate(
    alloc: Global,
    suite: &Suite,
    place: usize,
) -> Result<Option<Vec<Step>>, NoMemory>
    // Each present row that meets a step's clause is in an earlier step.
    ensures some { IfOk result (λ found. IfSome found (λ steps. IsShownBy suite.now.rows (marked suite.now.there) place steps.items)) }
    ensures none { IfOk result (λ found. IfNone found (place < length suite.now.rows → marked suite.now.there place ≡ true
        → IsInstallableAmong suite.now.rows (marked suite.now.there) place)) }
{
    if place >= suite.len() || !suite.is_there(place) || suite.is_installable(place) {
        return Ok(None);
    }
    let places = reached_from(alloc, suite, place)?;
    certificate_over(alloc, suite, &places, place)
}
