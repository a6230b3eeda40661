//! What a change of testing during a run would break, judged by the suites of the architectures.

ghost use Rattle.std.specs.Prelude.{◌≡◌, [], ◌<◌, IfOk, IfSome, List, length};
ghost use Rattle.std.specs.List.{All};
ghost use Rattle.testing_install.specs.Closed.{marked};
ghost use Rattle.testing_rules_model.specs.Boxed.{unboxed};
ghost use Rattle.testing_rules_suites.specs.steps.AfterMoves.{moved_rows, rows_at, rows_without};
ghost use Rattle.testing_rules_model.specs.FactOrder.{AreBySource};
ghost use Rattle.testing_rules_model.specs.steps.FactOrder.{IsUnstableOrder};
ghost use Rattle.testing_rules_items.specs.Words.{Text as Word};
ghost use Rattle.testing_rules_live.specs.steps.Held.{held, AreLive, IsPoolMove, IsChangeBy};
ghost use Rattle.testing_rules_live.specs.steps.Lacks.{arriving, Lacks};
ghost use Rattle.testing_rules_model.specs.InOrder.{AreByKey};
ghost use Rattle.testing_rules_model.specs.JudgedRows.{lent};
ghost use Rattle.testing_rules_model.specs.Moves as rules;
ghost use Rattle.testing_rules_moves.specs.steps.Refusals.{AreWoken, IsWithinRows};
ghost use Rattle.testing_rules_suites.specs.Present.{IsShown};
ghost use Rattle.testing_rules_suites.specs.steps.PresentSteps.{IsLive, present_rows};
ghost use Rattle.testing_rules_model.specs.declared.facts.UploadIn.{UploadIn as AnUpload};
ghost use Rattle.testing_rules_model.specs.declared.suite.RowIn.{RowIn as ARow};

use crate::refusals::Refusals;
use deb_control::{Clause, Text};
use deb_version::NoMemory;
use std::alloc::Global;
use testing_rules_facts::Unstable;
use testing_rules_items::Archs;
use testing_rules_live::{LiveRows, PoolSuites, moved_rows, offender_of, rows_without};
use testing_rules_model::{LentRow, Offender};
use testing_rules_suites::{Change, Pool};

/// What the move of a group would break, judged from scratch.
fn broken_by_move_anew<'a>(
    alloc: Global,
    archs: &Archs,
    unstable: Unstable<'_, 'a>,
    group: &[Text],
    rows: &[LentRow<'a>],
) -> Result<Option<Offender>, NoMemory>
    requires sources { AreBySource (unboxed unstable.sources.now) }
    requires order { AreByKey (lent rows.now) }
    ensures { IfOk result (λ o. o ≡ rules.offender_of archs.now (lent rows.now)
        (moved_rows (unboxed unstable.entry.sources.now) (lent unstable.entry.rows.now) group.now (lent rows.now)) group.now) }
{
    let moved = moved_rows(alloc, rows, unstable, group)?;
    offender_of(alloc, archs, rows, &moved, group)
}

/// What the removal of a source would break, judged from scratch.
fn broken_by_removal_anew(
    alloc: Global,
    archs: &Archs,
    name: &Text,
    rows: &[LentRow],
) -> Result<Option<Offender>, NoMemory>
    ensures { IfOk result (λ o. o ≡ rules.offender_of archs.now (lent rows.now) (rows_without name.now (lent rows.now)) []) }
{
    let left = rows_without(alloc, rows, name)?;
    offender_of(alloc, archs, rows, &left, &[])
}

/// What the move of a group breaks, judged from scratch over the present rows.
fn broken_by_move_of_standing(
    alloc: Global,
    suites: &PoolSuites,
    archs: &Archs,
    unstable: Unstable<'_, '_>,
    group: &[Text],
) -> Result<Option<Offender>, NoMemory>
    requires { AreBySource (unboxed unstable.sources.now) }
    ensures { IfOk result (λ o. o ≡ rules.offender_of archs.now (present_rows suites.now)
        (moved_rows (unboxed unstable.entry.sources.now) (lent unstable.entry.rows.now) group.now (present_rows suites.now)) group.now) }
{
    let rows = suites.rows(alloc)?;
    broken_by_move_anew(alloc, archs, unstable, group, &rows)
}

/// What the change of a group's move breaks, judged by the suites. They can't judge it if a coming row is
/// already present, that is, if a source moves again: then the move is judged from scratch.
fn broken_by_change(
    alloc: Global,
    suites: &mut PoolSuites,
    archs: &Archs,
    unstable: Unstable<'_, '_>,
    group: &[Text],
    change: &Change,
) -> Result<Option<Offender>, NoMemory>
    requires order { IsUnstableOrder (unboxed unstable.sources.now) (lent unstable.rows.now) }
    requires live { IsLive suites.old archs.now (lent unstable.rows.now) (present_rows suites.old) }
    requires change { IsPoolMove suites.old (unboxed unstable.sources.now) group.now change.now }
    ensures same { suites.new ≡ suites.old }
    ensures offender { IfOk result (λ o. o ≡ rules.offender_of archs.now (present_rows suites.old)
        (moved_rows (unboxed unstable.entry.sources.now) (lent unstable.entry.rows.now) group.now (present_rows suites.old)) group.now) }
{
    if !suites.kept().is_fresh(change) {
        return broken_by_move_of_standing(alloc, suites, archs, unstable, group);
    }
    suites.first_lost(alloc, change)
}

/// What the move of a group breaks, judged by the suites, and the tried change. If the suites don't
/// include the rows of one of its sources, there is none, and the move is judged from scratch. A source is first looked
/// for near the guessed place.
fn broken_in_suites_by_move(
    alloc: Global,
    suites: &mut PoolSuites,
    archs: &Archs,
    unstable: Unstable<'_, '_>,
    near: usize,
    group: &[Text],
) -> Result<(Option<Offender>, Option<Change>), NoMemory>
    requires order { IsUnstableOrder (unboxed unstable.sources.now) (lent unstable.rows.now) }
    requires live { IsLive suites.old archs.now (lent unstable.rows.now) (present_rows suites.old) }
    ensures same { suites.new ≡ suites.old }
    ensures offender { IfOk result (λ told. told.0 ≡ rules.offender_of archs.now (present_rows suites.old)
        (moved_rows (unboxed unstable.entry.sources.now) (lent unstable.entry.rows.now) group.now (present_rows suites.old)) group.now) }
    ensures change { IfOk result (λ told. IfSome told.1 (IsPoolMove suites.old (unboxed unstable.entry.sources.now) group.now)) }
{
    if !suites.offers(group) {
        let offender = broken_by_move_of_standing(alloc, suites, archs, unstable, group)?;
        return Ok((offender, None));
    }
    let change = suites.change_by_move(alloc, unstable.sources, near, group)?;
    let offender = broken_by_change(alloc, suites, archs, unstable, group, &change)?;
    Ok((offender, Some(change)))
}

/// What the removal of a source breaks, judged by the suites.
fn broken_in_suites_by_removal(
    alloc: Global,
    suites: &mut PoolSuites,
    archs: &Archs,
    name: &Text,
) -> Result<Option<Offender>, NoMemory>
    requires count { suites.old.archs ≡ length archs.now }
    requires shown { IsShown suites.old.rows (marked suites.old.stands) (present_rows suites.old) }
    ensures same { suites.new ≡ suites.old }
    ensures offender { IfOk result (λ o. o ≡ rules.offender_of archs.now (present_rows suites.old) (rows_without name.now (present_rows suites.old)) []) }
{
    let change = suites.change_by_removal(alloc, name.as_str())?;
    suites.first_lost(alloc, &change)
}

/// What the move of a group breaks, judged from scratch over the rows.
fn broken_by_move_of_held(
    alloc: Global,
    rows: &LiveRows,
    archs: &Archs,
    unstable: Unstable<'_, '_>,
    group: &[Text],
) -> Result<Option<Offender>, NoMemory>
    requires sources { AreBySource (unboxed unstable.sources.now) }
    requires by_key { AreByKey (held rows.now) }
    ensures { IfOk result (λ o. o ≡ rules.offender_of archs.now (held rows.now)
        (moved_rows (unboxed unstable.entry.sources.now) (lent unstable.entry.rows.now) group.now (held rows.now)) group.now) }
{
    let list = rows.list(alloc)?;
    broken_by_move_anew(alloc, archs, unstable, group, &list)
}

/// What the move of a group would break, judged by the suites if there are any, else from scratch; and
/// the tried change, if one was tried. A source is first looked for near the guessed place.
pub fn broken_by_move(
    alloc: Global,
    rows: &mut LiveRows,
    archs: &Archs,
    unstable: Unstable<'_, '_>,
    near: usize,
    group: &[Text],
) -> Result<(Option<Offender>, Option<Change>), NoMemory>
    requires order { IsUnstableOrder (unboxed unstable.sources.now) (lent unstable.rows.now) }
    requires by_key { AreByKey (held rows.old) }
    requires live { AreLive rows.old archs.now (lent unstable.rows.now) }
    ensures same { rows.new ≡ rows.old }
    ensures offender { IfOk result (λ told. told.0 ≡ rules.offender_of archs.now (held rows.old)
        (moved_rows (unboxed unstable.entry.sources.now) (lent unstable.entry.rows.now) group.now (held rows.old)) group.now) }
    ensures change { IfOk result (λ told. IfSome told.1 (IsChangeBy rows.old (unboxed unstable.entry.sources.now) group.now)) }
{
    if let LiveRows::Pooled(suites) = rows {
        return broken_in_suites_by_move(alloc, suites, archs, unstable, near, group);
    }
    let offender = broken_by_move_of_held(alloc, rows, archs, unstable, group)?;
    Ok((offender, None))
}

/// A clause of a row coming with the group that no present or coming row on its architecture meets. The suites find
/// none if they don't include the rows of one of its sources. A source is first looked for near the guessed place.
fn lack_told<'r>(
    alloc: Global,
    suites: &'r PoolSuites,
    unstable: Unstable<'_, '_>,
    near: usize,
    group: &[Text],
) -> Result<Option<&'r Clause>, NoMemory>
    requires { AreBySource (unboxed unstable.sources.now) }
    ensures { IfOk result (λ found. IfSome found (λ clause. (archs : List Word) → IsLive suites.now archs (lent unstable.entry.rows.now) (present_rows suites.now)
        → Lacks archs (unboxed unstable.entry.sources.now) (lent unstable.entry.rows.now) group.now (present_rows suites.now) clause.now)) }
{
    if suites.offers(group) {
        suites.lack_by_move(alloc, unstable.sources, near, group)
    } else {
        Ok(None)
    }
}

/// A clause of a row coming with the group that no present or coming row on its architecture meets: then the move is
/// refused. Only suites are searched for it. A source is first looked for near the guessed place.
pub fn lack_by_move<'r>(
    alloc: Global,
    rows: &'r LiveRows,
    unstable: Unstable<'_, '_>,
    near: usize,
    group: &[Text],
) -> Result<Option<&'r Clause>, NoMemory>
    requires { AreBySource (unboxed unstable.sources.now) }
    ensures { IfOk result (λ found. IfSome found (λ clause. (archs : List Word) → AreLive rows.now archs (lent unstable.entry.rows.now)
        → Lacks archs (unboxed unstable.entry.sources.now) (lent unstable.entry.rows.now) group.now (held rows.now) clause.now)) }
{
    if let LiveRows::Pooled(suites) = rows {
        return lack_told(alloc, suites, unstable, near, group);
    }
    Ok(None)
}

/// The rows at the places came in: candidates refused because one of them was missing are to be tried again.
fn wake_among(pool: &Pool, coming: &[usize], refusals: &mut Refusals)
    requires { All (λ k. k < length pool.now) coming.now }
    ensures { AreWoken (rows_at pool.now coming.now) refusals.old refusals.new }
{
    for place in coming {
        refusals.wake(pool.row(*place).binary);
    }
}

/// A group is about to move by the change: candidates refused because one of the coming rows was missing are to be
/// tried again. Without a tried change these are all candidates.
pub fn wake_by_change(rows: &LiveRows, change: &Option<Change>, refusals: &mut Refusals)
    requires { IfSome change.now (IsWithinRows rows.now) }
    ensures { (archs : List Word) (sources : List AnUpload) (unstable : List ARow) (group : List Word) → AreLive rows.now archs unstable
        → IfSome change.now (IsChangeBy rows.now sources group) → AreWoken (arriving sources unstable group) refusals.old refusals.new }
{
    if let LiveRows::Pooled(suites) = rows {
        if let Some(change) = change {
            return wake_among(suites.kept().pool(), &change.coming, refusals);
        }
    }
    refusals.forget();
}

/// What the removal of a source would break, judged by the suites if there are any, else from scratch.
pub fn broken_by_removal(
    alloc: Global,
    rows: &mut LiveRows,
    archs: &Archs,
    unstable: Unstable<'_, '_>,
    name: &Text,
) -> Result<Option<Offender>, NoMemory>
    requires { AreLive rows.old archs.now (lent unstable.rows.now) }
    ensures same { rows.new ≡ rows.old }
    ensures offender { IfOk result (λ o. o ≡ rules.offender_of archs.now (held rows.old) (rows_without name.now (held rows.old)) []) }
{
    if let LiveRows::Pooled(suites) = rows {
        return broken_in_suites_by_removal(alloc, suites, archs, name);
    }
    let list = rows.list(alloc)?;
    broken_by_removal_anew(alloc, archs, name, &list)
}
