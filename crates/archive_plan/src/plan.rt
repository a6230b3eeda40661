//! What to copy into a suite and what to remove from it, so that it has what testing has.

ghost use Rattle.std.specs.Prelude.{◌≡◌, ◌≤◌, [], false, length, IfOk, IfErr};
ghost use Rattle.archive_plan.specs.Items.{AreInOrder, lacking};
ghost use Rattle.archive_plan.specs.Plan.{IsPlan, IsFault, IsLack, IsStep, IsCrowd, lower, leaving};
ghost use Rattle.archive_plan.specs.declared.plan.PlanFault.TheVariants.{NoMemory as OutOfMemory};

use crate::items::{Item, Relation};
use crate::merge::picked;
use deb_version::NoMemory;
use std::alloc::Global;

/// What is to be done to a suite, in this order.
#[derive(Drop)]
pub struct Plan {
    /// What to copy into it, in the order of the keys.
    pub copies: Vec<Item>,

    /// What to remove from it after that, in the order of the keys.
    pub removals: Vec<Item>,
}

/// Why there is no plan.
#[derive(Drop)]
pub enum PlanFault {
    /// These items are nowhere to copy from.
    Lacks(Vec<Item>),

    /// These items of testing have a lower version than the suite has.
    Backward(Vec<Item>),

    /// So many items would leave the suite, which is more than may.
    TooMany(usize),

    /// The allocator refused memory.
    NoMemory,
}

impl From<NoMemory> for PlanFault {
    ghost from_gives = { λ _ e. e ≡ OutOfMemory };

    fn from(_fault: NoMemory) -> PlanFault {
        PlanFault::NoMemory
    }
}

/// Refuses copies of what can't be copied.
fn check_there(alloc: Global, copies: &[Item], from: &[Item]) -> Result<(), PlanFault>
    requires copies { AreInOrder copies.now }
    requires from { AreInOrder from.now }
    ensures there { IfOk result (λ _. lacking copies.now from.now ≡ []) }
    ensures fault { IfErr result (λ fault. IsLack copies.now from.now fault) }
{
    let lacks = picked(alloc, Relation::Whole, false, copies, from)?;
    if lacks.is_empty() {
        Ok(())
    } else {
        Err(PlanFault::Lacks(lacks))
    }
}

/// Refuses copies at a lower version, unless they are allowed.
fn check_back(alloc: Global, copies: &[Item], suite: &[Item], back: bool) -> Result<(), PlanFault>
    requires copies { AreInOrder copies.now }
    requires suite { AreInOrder suite.now }
    ensures back { back ≡ false → IfOk result (λ _. lower copies.now suite.now ≡ []) }
    ensures fault { IfErr result (λ fault. IsStep copies.now suite.now back fault) }
{
    if back {
        return Ok(());
    }
    let backward = picked(alloc, Relation::Lower, true, copies, suite)?;
    if backward.is_empty() {
        Ok(())
    } else {
        Err(PlanFault::Backward(backward))
    }
}

/// Refuses that more items leave than may.
pub fn check_few(leave: &[Item], gone: usize) -> Result<(), PlanFault>
    ensures few { IfOk result (λ _. length leave.now ≤ gone) }
    ensures fault { IfErr result (λ fault. IsCrowd (length leave.now) gone fault) }
{
    let count = leave.len();
    if count <= gone {
        Ok(())
    } else {
        Err(PlanFault::TooMany(count))
    }
}

/// Refuses that more items leave the suite than may.
fn check_gone(alloc: Global, testing: &[Item], suite: &[Item], gone: usize) -> Result<(), PlanFault>
    requires testing { AreInOrder testing.now }
    requires suite { AreInOrder suite.now }
    ensures gone { IfOk result (λ _. length (leaving testing.now suite.now) ≤ gone) }
    ensures fault { IfErr result (λ fault. IsCrowd (length (leaving testing.now suite.now)) gone fault) }
{
    let leave = picked(alloc, Relation::Key, false, suite, testing)?;
    check_few(&leave, gone)
}

/// What is to be done to the published `suite`, so that it has exactly what `testing` has. Copies are made of what `from`
/// has. At most `gone` items leave the suite for good, and none goes to a lower version unless `back`. The fault is the
/// first that applies, in the order of `PlanFault`, and names all items of its kind.
pub fn plan_of(
    alloc: Global,
    testing: &[Item],
    suite: &[Item],
    from: &[Item],
    gone: usize,
    back: bool,
) -> Result<Plan, PlanFault>
    requires testing { AreInOrder testing.now }
    requires suite { AreInOrder suite.now }
    requires from { AreInOrder from.now }
    ensures plan { IfOk result (λ plan. IsPlan testing.now suite.now from.now gone back plan) }
    ensures fault { IfErr result (λ fault. IsFault testing.now suite.now from.now gone back fault) }
{
    let copies = picked(alloc, Relation::Whole, false, testing, suite)?;
    check_there(alloc, &copies, from)?;
    check_back(alloc, &copies, suite, back)?;
    check_gone(alloc, testing, suite, gone)?;
    let removals = picked(alloc, Relation::Whole, false, suite, testing)?;
    Ok(Plan { copies, removals })
}
