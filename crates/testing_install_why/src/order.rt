//! A groundless list over some rows of a suite.

ghost use Rattle.std.specs.Prelude.{◌≡◌, ℕ, ◌<◌, Bool, true, false, List, [], ◌∷◌, ◌++◌, Some, length, IfOk, OnOk, IfSome, IfNone, Contains};
ghost use Rattle.std.specs.List.{All, count_by, slice_get};
ghost use Rattle.deb_control.specs.declared.binary.Binary.{Binary as TheBinary};
ghost use Rattle.testing_install.specs.Closed.{IsMet, marked};
ghost use Rattle.testing_install.specs.Satisfies.{meets as does_meet};
ghost use Rattle.testing_install_why.specs.Order.{IsGroundless};
ghost use Rattle.testing_install_why.specs.steps.Order.{IsReaching, Refutes};
ghost use Rattle.testing_install_why.specs.steps.Steps.{AreSteps};
ghost use Rattle.testing_install_why.specs.steps.Taking.{FailsAt, FailsBy, IsHeldAt, IsLooked, IsOrder};

use crate::Step;
use crate::wakes::wake_dependents;
use deb_control::{Binary, Clause};
use deb_version::NoMemory;
use std::alloc::Global;
use testing_install::{Suite, meets};

/// The places of the rows that provide a name in the clause, including each row that meets it.
pub fn named_by(alloc: Global, suite: &Suite, clause: &Clause) -> Result<Vec<usize>, NoMemory>
    ensures within { IfOk result (λ places. All (λ k. k < length suite.now.rows) places.items) }
    ensures complete { IfOk result (λ places. (k : ℕ) (row : TheBinary) → slice_get suite.now.rows k ≡ Some row
        → does_meet row clause.now ≡ true → Contains places.items k) }
{
    let mut places = Vec::new(alloc);
    for alternative in clause.as_slice() {
        places.extend_from_slice(suite.providers(alternative.name.as_str()))?;
    }
    Ok(places)
}

// One of the remaining rows at the places meets the clause.
fn is_met_at(suite: &Suite, left: &[bool], places: &[usize], clause: &Clause) -> bool
    requires left { length left.now ≡ length suite.now.rows }
    requires places { All (λ k. k < length suite.now.rows) places.now }
    ensures yes { result ≡ true → IsMet suite.now.rows (marked left.now) clause.now }
    ensures no { result ≡ false → (k : ℕ) (row : TheBinary) → Contains places.now k → slice_get suite.now.rows k ≡ Some row
        → marked left.now k ≡ true → does_meet row clause.now ≡ true → ⊥ }
{
    for place in places {
        if left[*place] && meets(suite.binary(*place), clause) {
            return true;
        }
    }
    false
}

// Some remaining row meets the clause.
fn is_met(alloc: Global, suite: &Suite, left: &[bool], clause: &Clause) -> Result<bool, NoMemory>
    requires { length left.now ≡ length suite.now.rows }
    ensures yes { IfOk result (λ met. met ≡ true → IsMet suite.now.rows (marked left.now) clause.now) }
    ensures no { IfOk result (λ met. met ≡ false → IsMet suite.now.rows (marked left.now) clause.now → ⊥) }
{
    let places = named_by(alloc, suite, clause)?;
    let met = is_met_at(suite, left, &places, clause);
    Ok(met)
}

// The number of the package's first clause that no remaining row meets.
fn unmet(
    alloc: Global,
    suite: &Suite,
    left: &[bool],
    binary: &Binary,
) -> Result<Option<usize>, NoMemory>
    requires { length left.now ≡ length suite.now.rows }
    ensures some { IfOk result (λ found. IfSome found (λ need. FailsAt suite.now.rows (marked left.now) binary.now.clauses need)) }
    ensures none { IfOk result (λ found. IfNone found (All (IsMet suite.now.rows (marked left.now)) binary.now.clauses)) }
{
    for (need, clause) in binary.clauses.as_slice().iter().enumerate() {
        if !is_met(alloc, suite, left, clause)? {
            return Ok(Some(need));
        }
    }
    Ok(None)
}

// Looks at the waiting rows, from the last one, until one has such a clause. The other remaining rows are held.
fn next_out(
    alloc: Global,
    suite: &Suite,
    left: &[bool],
    held: &mut [bool],
    waiting: &mut Vec<usize>,
) -> Result<Option<Step>, NoMemory>
    requires left { length left.now ≡ length suite.now.rows }
    requires held { length held.old ≡ length suite.now.rows }
    requires waiting { All (λ k. k < length suite.now.rows) waiting.old.items }
    ensures some { IfOk result (λ found. IfSome found (λ step. FailsBy suite.now.rows (marked left.now) step)) }
    ensures looked { IfOk result (λ found. IfSome found (λ step. (places : List ℕ) → IsLooked suite.now.rows places left.now held.old waiting.old.items
        → IsLooked suite.now.rows places left.now held.new (waiting.new.items ++ step.place ∷ []))) }
    ensures none { IfOk result (λ found. IfNone found ((places : List ℕ) → IsLooked suite.now.rows places left.now held.old waiting.old.items
        → All (IsHeldAt suite.now.rows (marked left.now)) places)) }
{
    while let Some(place) = waiting.pop() {
        if left[place] {
            if let Some(need) = unmet(alloc, suite, left, suite.binary(place))? {
                return Ok(Some(Step { place, need }));
            }
            held[place] = true;
        }
    }
    Ok(None)
}

// Removes the next such row, and says whether there was one. The held rows that may have needed it wait again.
fn take_next(
    alloc: Global,
    suite: &Suite,
    left: &mut [bool],
    held: &mut [bool],
    waiting: &mut Vec<usize>,
    steps: &mut Vec<Step>,
) -> Result<bool, NoMemory>
    requires left { length left.old ≡ length suite.now.rows }
    requires held { length held.old ≡ length suite.now.rows }
    requires waiting { All (λ k. k < length suite.now.rows) waiting.old.items }
    ensures looked { IfOk result (λ took. took ≡ true → (places : List ℕ) → IsLooked suite.now.rows places left.old held.old waiting.old.items
        → IsLooked suite.now.rows places left.new held.new waiting.new.items) }
    ensures held { IfOk result (λ took. took ≡ false → (places : List ℕ) → IsLooked suite.now.rows places left.old held.old waiting.old.items
        → All (IsHeldAt suite.now.rows (marked left.new)) places) }
    ensures fewer { IfOk result (λ took. took ≡ true → count_by (λ b. b) left.new < count_by (λ b. b) left.old) }
    ensures order { OnOk result ((there : ℕ → Bool) → IsOrder suite.now.rows there left.old steps.old.items
        → IsOrder suite.now.rows there left.new steps.new.items) }
{
    let Some(step) = next_out(alloc, suite, left, held, waiting)? else {
        return Ok(false);
    };
    steps.push(step)?;
    left[step.place] = false;
    wake_dependents(suite, suite.binary(step.place), held, waiting)?;
    Ok(true)
}

// Removes rows until no row at the places has such a clause.
fn take_out(
    alloc: Global,
    suite: &Suite,
    places: &[usize],
    left: &mut [bool],
    steps: &mut Vec<Step>,
) -> Result<(), NoMemory>
    requires left { length left.old ≡ length suite.now.rows }
    requires places { All (λ k. k < length suite.now.rows) places.now }
    ensures held { OnOk result (All (IsHeldAt suite.now.rows (marked left.new)) places.now) }
    ensures order { OnOk result ((there : ℕ → Bool) → IsOrder suite.now.rows there left.old steps.old.items
        → IsOrder suite.now.rows there left.new steps.new.items) }
{
    let mut waiting = Vec::from_slice(alloc, places)?;
    let mut held = vec![in alloc; false; suite.len()]?;
    while take_next(alloc, suite, left, &mut held, &mut waiting, steps)? {}
    Ok(())
}

/// A groundless list of rows at the places. Rows with a clause that no remaining row meets are removed, one after
/// another. If each row that affects them is at one of the places or installable, the list has each present row at
/// them that isn't installable. A row is checked once, and again after each removed row that provides a name in its
/// clauses. The only error is running out of memory.
pub fn order_over(alloc: Global, suite: &Suite, places: &[usize]) -> Result<Vec<Step>, NoMemory>
    requires { All (λ k. k < length suite.now.rows) places.now }
    ensures groundless { IfOk result (λ steps. IsGroundless suite.now.rows (marked suite.now.there) steps.items) }
    ensures complete { IfOk result (λ steps. IsReaching suite.now.rows (marked suite.now.there) places.now
        → All (Refutes suite.now.rows (marked suite.now.there) steps.items) places.now) }
    ensures steps { IfOk result (λ steps. AreSteps suite.now.rows steps.items) }
{
    let mut left = Vec::from_slice(alloc, suite.there())?;
    let mut steps = Vec::new(alloc);
    take_out(alloc, suite, places, &mut left, &mut steps)?;
    Ok(steps)
}
