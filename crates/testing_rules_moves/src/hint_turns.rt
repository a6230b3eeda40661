//! Testing at the turn of a hint, outside of any run.

ghost use Rattle.std.specs.Prelude.{◌≡◌, IfOk, OnOk, map};
ghost use Rattle.testing_rules_model.specs.InOrder.{AreByKey};
ghost use Rattle.testing_rules_model.specs.JudgedRows.{lent};
ghost use Rattle.testing_rules_model.specs.Unstable.{built_rows as rows_built};
ghost use Rattle.testing_rules_model.specs.Updates as rules;
ghost use Rattle.testing_rules_model.specs.Updates.{in_turn};
ghost use Rattle.testing_rules_moves.specs.steps.Runs.{run_after_groups, run_after_removals};
ghost use Rattle.testing_rules_moves.specs.steps.Turns as turns_words;
ghost use Rattle.testing_rules_moves.specs.steps.Turns.{after_groups, after_removals, behind_hints, turn_of_easy, turn_of_removal};

use crate::turns::{Basis, Turns};
use deb_version::NoMemory;
use std::alloc::Global;
use testing_rules_facts::{Facts, Unhints, built_rows};
use testing_rules_items::{Archs, HintItem};
use testing_rules_model::{Excuse, HintIn, UnhintIn};
use testing_rules_suites::Testing;

/// The hints with smaller numbers.
fn hints_before(alloc: Global, hints: &[HintIn], number: u32) -> Result<Vec<HintIn>, NoMemory>
    ensures { IfOk result (λ earlier. earlier.items ≡ turns_words.hints_before number hints.now) }
{
    let mut earlier = Vec::new(alloc);
    for hint in hints {
        if hint.number < number {
            earlier.push(hint.copy(alloc)?)?;
        }
    }
    Ok(earlier)
}

/// The turns of the removals asked by hints, and then of the groups asked by some.
fn take_groups(
    alloc: Global,
    turns: &mut Turns<'_, '_>,
    excuses: &[Excuse],
    hints: &[HintIn],
    grouped: &[HintIn],
    unhints: &[UnhintIn],
) -> Result<(), NoMemory>
    ensures { OnOk result (turns.new ≡ run_after_groups excuses.now hints.now grouped.now unhints.now turns.old) }
{
    let unhints = Unhints::of(alloc, unhints)?;
    turns.removals(alloc, hints, &unhints)?;
    turns.groups(alloc, excuses, grouped, &unhints)?;
    Ok(())
}

/// Testing after all removals of the hints in force, and then the groups of these hints.
fn groups_over<'a>(
    alloc: Global,
    basis: &Basis<'_, 'a>,
    grouped: &[HintIn],
    testing: &'a Testing,
) -> Result<Testing, NoMemory>
    requires { AreByKey (lent basis.now.rows.now) }
    ensures { IfOk result (λ turn. turn ≡ after_groups basis.now.archs.now basis.now.facts.now.sources (lent basis.now.rows.now) basis.now.excuses.now grouped.now basis.now.facts.now.unhints
        (after_removals basis.now.archs.now basis.now.facts.now.hints basis.now.facts.now.unhints testing.now)) }
{
    let mut turns = Turns::over(alloc, basis, testing, None)?;
    let (hints, unhints) = (basis.facts.hints(), basis.facts.unhints());
    take_groups(alloc, &mut turns, basis.excuses, hints, grouped, unhints)?;
    let parts = turns.into_parts(alloc)?;
    Ok(parts.1)
}

/// Testing after all removals and all groups of the hints in force, before any source moves alone, by the facts and the
/// excuses of a run. The only error is running out of memory.
pub fn hinted(
    alloc: Global,
    archs: &Archs,
    facts: &Facts,
    excuses: &[Excuse],
    testing: &Testing,
) -> Result<Testing, NoMemory>
    ensures { IfOk result (λ turn. turn ≡ behind_hints archs.now facts.now.sources (rows_built archs.now facts.now.rows) excuses.now facts.now.hints facts.now.unhints testing.now) }
{
    let rows = built_rows(alloc, archs, facts.rows())?;
    let basis = Basis {
        archs,
        facts,
        rows: &rows,
        excuses,
    };
    groups_over(alloc, &basis, facts.hints(), testing)
}

/// Testing at the turn of the group of the hint with the number: after all removals, and the groups of the hints in
/// force with smaller numbers, by the facts and the excuses of a run. The only error is running out of memory.
pub fn at_group(
    alloc: Global,
    archs: &Archs,
    facts: &Facts,
    excuses: &[Excuse],
    number: u32,
    testing: &Testing,
) -> Result<Testing, NoMemory>
    ensures { IfOk result (λ turn. turn ≡ turn_of_easy archs.now facts.now.sources (rows_built archs.now facts.now.rows) excuses.now facts.now.hints facts.now.unhints number testing.now) }
{
    let rows = built_rows(alloc, archs, facts.rows())?;
    let earlier = hints_before(alloc, facts.hints(), number)?;
    let basis = Basis {
        archs,
        facts,
        rows: &rows,
        excuses,
    };
    groups_over(alloc, &basis, &earlier, testing)
}

/// The removals before a turn: those asked by some hints, and then some items of the hint with the number.
#[derive(Clone, Copy)]
struct Removals<'g> {
    hints: &'g [HintIn],
    number: u32,
    items: &'g [HintItem],
}

/// The turns of these removals.
fn take_removals(
    alloc: Global,
    turns: &mut Turns<'_, '_>,
    removals: &Removals<'_>,
    unhints: &[UnhintIn],
) -> Result<(), NoMemory>
    ensures { OnOk result (turns.new ≡ run_after_removals removals.now.hints.now removals.now.number removals.now.items.now unhints.now turns.old) }
{
    let unhints = Unhints::of(alloc, unhints)?;
    turns.removals(alloc, removals.hints, &unhints)?;
    turns.remove_items(alloc, removals.number, removals.items)?;
    Ok(())
}

/// Testing after these removals.
fn removals_over<'a>(
    alloc: Global,
    archs: &Archs,
    facts: &'a Facts,
    removals: &Removals<'_>,
    testing: &'a Testing,
) -> Result<Testing, NoMemory>
    ensures { IfOk result (λ turn. turn ≡ (in_turn (rules.remove_item archs.now) (map (λ i. (removals.now.number, i)) removals.now.items.now) (after_removals archs.now removals.now.hints.now facts.now.unhints testing.now)).suite) }
{
    // Unstable's rows and the excuses don't matter to a removal.
    let basis = Basis {
        archs,
        facts,
        rows: &[],
        excuses: &[],
    };
    let mut turns = Turns::over(alloc, &basis, testing, None)?;
    take_removals(alloc, &mut turns, removals, facts.unhints())?;
    let parts = turns.into_parts(alloc)?;
    Ok(parts.1)
}

/// Testing at the turn of a removal of the hint with the number: after the removals of the hints in force with smaller
/// numbers, and the earlier items of its own hint, by the facts of a run. The only error is running out of memory.
pub fn at_removal(
    alloc: Global,
    archs: &Archs,
    facts: &Facts,
    number: u32,
    earlier: &[HintItem],
    testing: &Testing,
) -> Result<Testing, NoMemory>
    ensures { IfOk result (λ turn. turn ≡ turn_of_removal archs.now facts.now.hints facts.now.unhints number earlier.now testing.now) }
{
    let hints = hints_before(alloc, facts.hints(), number)?;
    let removals = Removals {
        hints: &hints,
        number,
        items: earlier,
    };
    removals_over(alloc, archs, facts, &removals, testing)
}
