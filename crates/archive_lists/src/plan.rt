//! The plan of three lists, and its lines.

ghost use Rattle.std.specs.Prelude.{◌≡◌, IfOk};
ghost use Rattle.std.specs.String.{string_bytes};
ghost use Rattle.archive_lists.specs.List.{IsPlanOfLists, plan_text};

use crate::lines::push_items;
use crate::lists::{ListedFault, Lists, read_lists};
use archive_plan::{Plan, plan_of};
use std::alloc::{AllocError, Global};

/// What is to be done to the suite of these lists: of what testing has, what the suite has, and what can be copied. At
/// most `gone` items leave it for good, and none goes to a lower version unless `back`.
pub fn plan_of_lists(
    alloc: Global,
    lists: Lists<'_>,
    gone: usize,
    back: bool,
) -> Result<Plan, ListedFault>
    ensures { IfOk result (λ plan. IsPlanOfLists lists.entry.first.now lists.entry.second.now lists.entry.third.now gone back plan) }
{
    let listed = read_lists(alloc, lists)?;
    Ok(plan_of(
        alloc,
        &listed.first,
        &listed.second,
        &listed.third,
        gone,
        back,
    )?)
}

/// The lines of a plan: `copy NAME VERSION ARCHITECTURE` for each copy, and then `remove ..` for each removal.
pub fn plan_lines(alloc: Global, plan: &Plan) -> Result<String, AllocError>
    ensures { IfOk result (λ text. string_bytes text ≡ plan_text plan.now) }
{
    let mut text = String::new(alloc);
    push_items(&mut text, "copy", &plan.copies)?;
    push_items(&mut text, "remove", &plan.removals)?;
    Ok(text)
}
