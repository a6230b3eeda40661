//! Why a change of testing is refused: the move of a group as one (a source alone is a group), or a removal.

ghost use Rattle.std.specs.Prelude.{◌≡◌, [], Some, None, IfOk, IfSome, IfNone};
ghost use Rattle.testing_rules_model.specs.Boxed.{unboxed};
ghost use Rattle.testing_rules_model.specs.FactOrder.{AreBySource};
ghost use Rattle.testing_rules_model.specs.InOrder.{AreByKey};
ghost use Rattle.testing_rules_model.specs.JudgedRows.{lent};
ghost use Rattle.testing_rules_model.specs.Moves as moves;
ghost use Rattle.testing_rules_model.specs.Unstable.{built_rows};
ghost use Rattle.testing_rules_model.specs.Updates.{offender_alone};
ghost use Rattle.testing_rules_refusals.specs.Alone.{IsToldAlone};
ghost use Rattle.testing_rules_refusals.specs.Refusals.{IsRefusal};
ghost use Rattle.testing_rules_refusals.specs.Texts as texts;
ghost use Rattle.testing_rules_refusals.specs.Texts.{known_of};
ghost use Rattle.testing_rules_refusals.specs.Told.{lines_of};
ghost use Rattle.testing_rules_refusals.specs.ToldChange.{IsToldChange, IsToldMove, IsToldRemoval};
ghost use Rattle.testing_rules_suites.specs.steps.AfterMoves as after;

use crate::proof_text::{Telling, refusal_text};
use crate::refusal::{Refusal, refused};
use crate::shown::shown_of;
use crate::told::refusal_lines;
use deb_control::Text;
use deb_version::NoMemory;
use std::alloc::Global;
use std::slice;
use testing_rules_facts::{Facts, Unstable, built_rows};
use testing_rules_items::Archs;
use testing_rules_live::{moved_rows, rows_without};
use testing_rules_model::{Excuse, LentRow, Offender};
use testing_rules_moves::{Basis, broken_by_group, broken_by_removal};
use testing_rules_suites::{Testing, lend_rows};

/// The text of a refusal, given testing's rows before the change.
pub(crate) fn text_of<'a>(
    alloc: Global,
    telling: &Telling<'_, 'a>,
    old: &[LentRow<'a>],
    refusal: &Refusal<'a>,
) -> Result<Text, NoMemory>
    requires { AreBySource (unboxed telling.now.unstable.sources.now) }
    ensures { IfOk result (λ text. text ≡ texts.refusal_text telling.now.testing.now (known_of telling.now)
        (lines_of (lent refusal.now.rows.items) refusal.now.steps.items (moves.rows_on refusal.now.offender.arch (lent old.now))
        (moves.rows_on refusal.now.offender.arch (lent telling.now.unstable.rows.now)))) }
{
    let told = refusal_lines(alloc, refusal, old, telling.unstable.rows)?;
    refusal_text(alloc, telling, &told)
}

/// Why a change from the old rows of testing to the new ones is refused, given which sources come. If the broken row is
/// known, the rows are judged only if no steps are found without that.
fn refusal_of<'a>(
    alloc: Global,
    telling: &Telling<'_, 'a>,
    old: &[LentRow<'a>],
    new: &[LentRow<'a>],
    known: Option<Offender>,
) -> Result<Option<Refusal<'a>>, NoMemory>
    requires { IfSome known (λ offender. moves.offender_of telling.now.archs.now (lent old.now) (lent new.now) telling.now.coming.now ≡ Some offender) }
    ensures some { IfOk result (λ found. IfSome found (λ r. IsRefusal telling.now.archs.now (lent old.now) (lent new.now) telling.now.coming.now r.offender (lent r.rows.items) r.steps.items)) }
    ensures none { IfOk result (λ found. IfNone found (moves.offender_of telling.now.archs.now (lent old.now) (lent new.now) telling.now.coming.now ≡ None)) }
{
    if let Some(offender) = known {
        if let Some(refusal) = shown_of(alloc, new, offender)? {
            return Ok(Some(refusal));
        }
    }
    refused(alloc, telling.archs, old, new, telling.coming)
}

/// Why a change from the old rows of testing to the new ones is refused, in lines, given which sources come. The broken
/// row may be known.
fn refusal_of_change<'a>(
    alloc: Global,
    telling: &Telling<'_, 'a>,
    old: &[LentRow<'a>],
    new: &[LentRow<'a>],
    known: Option<Offender>,
) -> Result<Option<Text>, NoMemory>
    requires sources { AreBySource (unboxed telling.now.unstable.sources.now) }
    requires breaks { IfSome known (λ offender. moves.offender_of telling.now.archs.now (lent old.now) (lent new.now) telling.now.coming.now ≡ Some offender) }
    ensures some { IfOk result (λ told. IfSome told (λ text. IsToldChange telling.now.testing.now (known_of telling.now) (lent telling.now.unstable.rows.now) (lent old.now) (lent new.now) text)) }
    ensures none { IfOk result (λ told. IfNone told (moves.offender_of telling.now.archs.now (lent old.now) (lent new.now) telling.now.coming.now ≡ None)) }
{
    let Some(refusal) = refusal_of(alloc, telling, old, new, known)? else {
        return Ok(None);
    };
    let text = text_of(alloc, telling, old, &refusal)?;
    Ok(Some(text))
}

/// Why the sources can't move as one, given testing's rows. The broken row may be known.
fn refusal_of_move<'a>(
    alloc: Global,
    telling: &Telling<'_, 'a>,
    old: &[LentRow<'a>],
    known: Option<Offender>,
) -> Result<Option<Text>, NoMemory>
    requires sources { AreBySource (unboxed telling.now.unstable.sources.now) }
    requires order { AreByKey (lent old.now) }
    requires breaks { IfSome known (λ offender. moves.offender_of telling.now.archs.now (lent old.now)
        (after.moved_rows (unboxed telling.now.unstable.sources.now) (lent telling.now.unstable.rows.now) telling.now.coming.now (lent old.now)) telling.now.coming.now ≡ Some offender) }
    ensures some { IfOk result (λ told. IfSome told (λ text. IsToldChange telling.now.testing.now (known_of telling.now) (lent telling.now.unstable.rows.now) (lent old.now)
        (after.moved_rows (unboxed telling.now.unstable.sources.now) (lent telling.now.unstable.rows.now) telling.now.coming.now (lent old.now)) text)) }
    ensures none { IfOk result (λ told. IfNone told (moves.offender_of telling.now.archs.now (lent old.now)
        (after.moved_rows (unboxed telling.now.unstable.sources.now) (lent telling.now.unstable.rows.now) telling.now.coming.now (lent old.now)) telling.now.coming.now ≡ None)) }
{
    let new = moved_rows(alloc, old, telling.unstable, telling.coming)?;
    refusal_of_change(alloc, telling, old, &new, known)
}

/// Why the source can't be removed, given testing's rows and the offender whose row that breaks.
fn refusal_without<'a>(
    alloc: Global,
    telling: &Telling<'_, 'a>,
    old: &[LentRow<'a>],
    name: &Text,
    known: Option<Offender>,
) -> Result<Option<Text>, NoMemory>
    requires sources { AreBySource (unboxed telling.now.unstable.sources.now) }
    requires breaks { IfSome known (λ offender. moves.offender_of telling.now.archs.now (lent old.now) (after.rows_without name.now (lent old.now)) telling.now.coming.now ≡ Some offender) }
    ensures some { IfOk result (λ told. IfSome told (λ text. IsToldChange telling.now.testing.now (known_of telling.now) (lent telling.now.unstable.rows.now) (lent old.now) (after.rows_without name.now (lent old.now)) text)) }
    ensures none { IfOk result (λ told. IfNone told (moves.offender_of telling.now.archs.now (lent old.now) (after.rows_without name.now (lent old.now)) telling.now.coming.now ≡ None)) }
{
    let new = rows_without(alloc, old, name)?;
    refusal_of_change(alloc, telling, old, &new, known)
}

/// Why the sources can't move as one over testing. The broken row may be known.
fn move_if_known<'a>(
    alloc: Global,
    telling: &Telling<'_, 'a>,
    testing: &'a Testing,
    known: Option<Offender>,
) -> Result<Option<Text>, NoMemory>
    requires sources { AreBySource (unboxed telling.now.unstable.sources.now) }
    requires breaks { IfSome known (λ offender. moves.offender_of telling.now.archs.now testing.now.rows
        (moves.move_group (unboxed telling.now.unstable.sources.now) (lent telling.now.unstable.rows.now) telling.now.coming.now testing.now).rows telling.now.coming.now ≡ Some offender) }
    ensures some { IfOk result (λ told. IfSome told (λ text. IsToldChange telling.now.testing.now (known_of telling.now) (lent telling.now.unstable.rows.now) testing.now.rows
        (moves.move_group (unboxed telling.now.unstable.sources.now) (lent telling.now.unstable.rows.now) telling.now.coming.now testing.now).rows text)) }
    ensures none { IfOk result (λ told. IfNone told (moves.offender_of telling.now.archs.now testing.now.rows
        (moves.move_group (unboxed telling.now.unstable.sources.now) (lent telling.now.unstable.rows.now) telling.now.coming.now testing.now).rows telling.now.coming.now ≡ None)) }
{
    let old = lend_rows(alloc, testing.rows())?;
    refusal_of_move(alloc, telling, &old, known)
}

/// Why the source can't be removed from testing. The broken row may be known.
fn removal_if_known<'a>(
    alloc: Global,
    telling: &Telling<'_, 'a>,
    testing: &'a Testing,
    name: &Text,
    known: Option<Offender>,
) -> Result<Option<Text>, NoMemory>
    requires sources { AreBySource (unboxed telling.now.unstable.sources.now) }
    requires breaks { IfSome known (λ offender. moves.offender_of telling.now.archs.now testing.now.rows (moves.remove_source name.now testing.now).rows telling.now.coming.now ≡ Some offender) }
    ensures some { IfOk result (λ told. IfSome told (λ text. IsToldChange telling.now.testing.now (known_of telling.now) (lent telling.now.unstable.rows.now) testing.now.rows
        (moves.remove_source name.now testing.now).rows text)) }
    ensures none { IfOk result (λ told. IfNone told (moves.offender_of telling.now.archs.now testing.now.rows (moves.remove_source name.now testing.now).rows telling.now.coming.now ≡ None)) }
{
    let old = lend_rows(alloc, testing.rows())?;
    refusal_without(alloc, telling, &old, name, known)
}

/// Why the group can't move as one over testing, given the offender whose row that breaks.
fn group_over_rows(
    alloc: Global,
    basis: &Basis<'_, '_>,
    group: &[Text],
    testing: &Testing,
    offender: Offender,
) -> Result<Option<Text>, NoMemory>
    requires { moves.offender_of basis.now.archs.now testing.now.rows (moves.move_group basis.now.facts.now.sources (lent basis.now.rows.now) group.now testing.now).rows group.now ≡ Some offender }
    ensures some { IfOk result (λ told. IfSome told (λ text. IsToldMove basis.now.archs.now basis.now.facts.now.sources (lent basis.now.rows.now) basis.now.excuses.now testing.now group.now text)) }
    ensures none { IfOk result (λ told. IfNone told (moves.offender_of basis.now.archs.now testing.now.rows (moves.move_group basis.now.facts.now.sources (lent basis.now.rows.now) group.now testing.now).rows group.now ≡ None)) }
{
    let unstable = Unstable {
        sources: basis.facts.sources(),
        rows: basis.rows,
    };
    let telling = Telling {
        archs: basis.archs,
        unstable,
        excuses: basis.excuses,
        testing,
        coming: group,
        stuck: &[],
    };
    move_if_known(alloc, &telling, testing, Some(offender))
}

/// Why the source can't be removed from testing, given the offender whose row that breaks.
fn removal_over_rows(
    alloc: Global,
    basis: &Basis<'_, '_>,
    name: &Text,
    testing: &Testing,
    offender: Offender,
) -> Result<Option<Text>, NoMemory>
    requires { moves.offender_of basis.now.archs.now testing.now.rows (moves.remove_source name.now testing.now).rows [] ≡ Some offender }
    ensures some { IfOk result (λ told. IfSome told (λ text. IsToldRemoval basis.now.archs.now basis.now.facts.now.sources (lent basis.now.rows.now) basis.now.excuses.now testing.now name.now text)) }
    ensures none { IfOk result (λ told. IfNone told (moves.offender_of basis.now.archs.now testing.now.rows (moves.remove_source name.now testing.now).rows [] ≡ None)) }
{
    let unstable = Unstable {
        sources: basis.facts.sources(),
        rows: basis.rows,
    };
    let telling = Telling {
        archs: basis.archs,
        unstable,
        excuses: basis.excuses,
        testing,
        coming: &[],
        stuck: &[],
    };
    removal_if_known(alloc, &telling, testing, name, Some(offender))
}

/// What moving the group over testing would break.
fn group_broken(
    alloc: Global,
    basis: &Basis<'_, '_>,
    group: &[Text],
    testing: &mut Testing,
) -> Result<Option<Offender>, NoMemory>
    requires { AreByKey (lent basis.now.rows.now) }
    ensures same { testing.new ≡ testing.old }
    ensures offender { IfOk result (λ o. o ≡ moves.offender_of basis.now.archs.now testing.old.rows (moves.move_group basis.now.facts.now.sources (lent basis.now.rows.now) group.now testing.old).rows group.now) }
{
    let unstable = Unstable {
        sources: basis.facts.sources(),
        rows: basis.rows,
    };
    broken_by_group(alloc, basis.archs, unstable, group, testing)
}

/// What removing the source from testing would break.
fn removal_broken(
    alloc: Global,
    basis: &Basis<'_, '_>,
    name: &Text,
    testing: &mut Testing,
) -> Result<Option<Offender>, NoMemory>
    requires { AreByKey (lent basis.now.rows.now) }
    ensures same { testing.new ≡ testing.old }
    ensures offender { IfOk result (λ o. o ≡ moves.offender_of basis.now.archs.now testing.old.rows (moves.remove_source name.now testing.old).rows []) }
{
    let unstable = Unstable {
        sources: basis.facts.sources(),
        rows: basis.rows,
    };
    broken_by_removal(alloc, basis.archs, unstable, name, testing)
}

/// Why the group can't move as one over testing.
fn group_by_suites(
    alloc: Global,
    basis: &Basis<'_, '_>,
    group: &[Text],
    testing: &mut Testing,
) -> Result<Option<Text>, NoMemory>
    requires { AreByKey (lent basis.now.rows.now) }
    ensures same { testing.new ≡ testing.old }
    ensures some { IfOk result (λ told. IfSome told (λ text. IsToldMove basis.now.archs.now basis.now.facts.now.sources (lent basis.now.rows.now) basis.now.excuses.now testing.old group.now text)) }
    ensures none { IfOk result (λ told. IfNone told (moves.offender_of basis.now.archs.now testing.old.rows (moves.move_group basis.now.facts.now.sources (lent basis.now.rows.now) group.now testing.old).rows group.now ≡ None)) }
{
    let Some(offender) = group_broken(alloc, basis, group, testing)? else {
        return Ok(None);
    };
    group_over_rows(alloc, basis, group, testing, offender)
}

/// Why the source can't be removed from testing.
fn removal_by_suites(
    alloc: Global,
    basis: &Basis<'_, '_>,
    name: &Text,
    testing: &mut Testing,
) -> Result<Option<Text>, NoMemory>
    requires { AreByKey (lent basis.now.rows.now) }
    ensures same { testing.new ≡ testing.old }
    ensures some { IfOk result (λ told. IfSome told (λ text. IsToldRemoval basis.now.archs.now basis.now.facts.now.sources (lent basis.now.rows.now) basis.now.excuses.now testing.old name.now text)) }
    ensures none { IfOk result (λ told. IfNone told (moves.offender_of basis.now.archs.now testing.old.rows (moves.remove_source name.now testing.old).rows [] ≡ None)) }
{
    let Some(offender) = removal_broken(alloc, basis, name, testing)? else {
        return Ok(None);
    };
    removal_over_rows(alloc, basis, name, testing, offender)
}

/// Why the group can't move as one over testing, in lines, by the facts and the excuses of a run. There is no answer
/// exactly if that breaks nothing. Over the testing at the turn of the group's hint, the offender is that of the run's
/// line on the hint. Testing is unchanged, and keeps the suites for the next call or run. If it has them, the cost is a
/// few looks at each row of testing and of unstable, and what the move and the offender's clauses touch; else also one
/// judgement of all rows. If two rows with the offender's name are on its architecture, that architecture and each one
/// before it are judged from scratch. The only error is running out of memory.
pub fn group_refusal(
    alloc: Global,
    archs: &Archs,
    facts: &Facts,
    excuses: &[Excuse],
    group: &[Text],
    testing: &mut Testing,
) -> Result<Option<Text>, NoMemory>
    ensures same { testing.new ≡ testing.old }
    ensures some { IfOk result (λ told. IfSome told (λ text. IsToldMove archs.now facts.now.sources (built_rows archs.now facts.now.rows) excuses.now testing.old group.now text)) }
    ensures none { IfOk result (λ told. IfNone told (moves.offender_of archs.now testing.old.rows
        (moves.move_group facts.now.sources (built_rows archs.now facts.now.rows) group.now testing.old).rows group.now ≡ None)) }
{
    let rows = built_rows(alloc, archs, facts.rows())?;
    let basis = Basis {
        archs,
        facts,
        rows: &rows,
        excuses,
    };
    group_by_suites(alloc, &basis, group, testing)
}

/// Why the source can't be removed from testing, in lines, by the facts and the excuses of a run. There is no answer
/// exactly if that breaks nothing. Over the testing at the removal's turn, the offender is that of the run's line on
/// it. Testing is unchanged, and the cost is that of `group_refusal`. The only error is running out of memory.
pub fn removal_refusal(
    alloc: Global,
    archs: &Archs,
    facts: &Facts,
    excuses: &[Excuse],
    name: &Text,
    testing: &mut Testing,
) -> Result<Option<Text>, NoMemory>
    ensures same { testing.new ≡ testing.old }
    ensures some { IfOk result (λ told. IfSome told (λ text. IsToldRemoval archs.now facts.now.sources (built_rows archs.now facts.now.rows) excuses.now testing.old name.now text)) }
    ensures none { IfOk result (λ told. IfNone told (moves.offender_of archs.now testing.old.rows (moves.remove_source name.now testing.old).rows [] ≡ None)) }
{
    let rows = built_rows(alloc, archs, facts.rows())?;
    let basis = Basis {
        archs,
        facts,
        rows: &rows,
        excuses,
    };
    removal_by_suites(alloc, &basis, name, testing)
}

/// Why the source of an excuse waits, in lines: what moving it alone over testing would break, by the facts and the
/// excuses of a run. There is no answer exactly if that breaks nothing. Over the testing that the run left, the
/// offender is that of the run's line on a waiting source. It is `group_refusal` of that source alone, and costs the
/// same.
pub fn why_waits(
    alloc: Global,
    archs: &Archs,
    facts: &Facts,
    excuses: &[Excuse],
    excuse: &Excuse,
    testing: &mut Testing,
) -> Result<Option<Text>, NoMemory>
    ensures same { testing.new ≡ testing.old }
    ensures some { IfOk result (λ told. IfSome told (λ text. IsToldAlone archs.now facts.now.sources (built_rows archs.now facts.now.rows) excuses.now testing.old excuse.now text)) }
    ensures none { IfOk result (λ told. IfNone told (offender_alone archs.now facts.now.sources (built_rows archs.now facts.now.rows) testing.old excuse.now ≡ None)) }
{
    let group = slice::from_ref(&excuse.source);
    group_refusal(alloc, archs, facts, excuses, group, testing)
}
