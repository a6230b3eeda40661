//! Why a change of testing is refused.

ghost use Rattle.std.specs.Prelude.{◌≡◌, None, IfOk, IfSome, IfNone};
ghost use Rattle.testing_install.specs.Installable.{are_installable};
ghost use Rattle.testing_rules_model.specs.JudgedRows.{lent};
ghost use Rattle.testing_rules_model.specs.Moves as moves;
ghost use Rattle.testing_rules_model.specs.Moves.{judged_on};
ghost use Rattle.testing_rules_refusals.specs.Needs.{packages};
ghost use Rattle.testing_rules_refusals.specs.Refusals.{IsRefusal};
ghost use Rattle.testing_rules_refusals.specs.steps.Refusals.{AreAllThere, IsFirstFailing, IsRefusalOn};
ghost use Rattle.testing_rules_suites.specs.steps.JudgedRows.{answers};

use crate::failures::place_of_first;
use crate::judged::{judged, judged_by, suite_of};
use deb_control::Text;
use deb_version::NoMemory;
use std::alloc::Global;
use testing_install::Suite;
use testing_install_why::{Step, certificate};
use testing_rules_items::Archs;
use testing_rules_live::rows_on;
use testing_rules_model::{LentRow, Offender};
use testing_rules_suites::RowAnswer;

/// The first row that a change breaks, the rows on its architecture after the change, and the steps that prove that it
/// isn't installable among these. The last step is the offender's.
#[derive(Drop)]
pub struct Refusal<'a> {
    pub offender: Offender,
    pub rows: Vec<LentRow<'a>>,
    pub steps: Vec<Step>,
}

/// Each row on the architecture, and whether it is installable there.
pub(crate) fn judged_rows<'a>(
    alloc: Global,
    arch: u32,
    rows: &[LentRow<'a>],
) -> Result<Vec<RowAnswer<'a>>, NoMemory>
    ensures { IfOk result (λ judged. answers judged.items ≡ judged_on arch (lent rows.now)) }
{
    let there = rows_on(alloc, arch, rows)?;
    judged(alloc, &there)
}

/// The place of the first row that fails, among the rows on the architecture after the change.
fn failing_place(
    alloc: Global,
    arch: u32,
    old: &[LentRow],
    group: &[Text],
    rows: &[LentRow],
    suite: &Suite,
) -> Result<Option<usize>, NoMemory>
    requires { AreAllThere (packages (lent rows.now)) suite.now }
    ensures some { IfOk result (λ found. IfSome found (λ place. IsFirstFailing arch group.now (judged_on arch (lent old.now))
        (moves.with_answers (lent rows.now) (are_installable (packages (lent rows.now)))) place)) }
    ensures none { IfOk result (λ found. IfNone found (moves.first_failing arch group.now (judged_on arch (lent old.now))
        (moves.with_answers (lent rows.now) (are_installable (packages (lent rows.now)))) ≡ None)) }
{
    let before = judged_rows(alloc, arch, old)?;
    let after = judged_by(alloc, suite, rows)?;
    Ok(place_of_first(arch, group, &before, &after))
}

/// The first row that the change breaks on the architecture, and why.
fn refusal_on<'a>(
    alloc: Global,
    arch: u32,
    old: &[LentRow],
    new: &[LentRow<'a>],
    group: &[Text],
) -> Result<Option<Refusal<'a>>, NoMemory>
    ensures some { IfOk result (λ found. IfSome found (λ r. IsRefusalOn arch (lent old.now) (lent new.now) group.now r.offender (lent r.rows.items) r.steps.items)) }
    ensures none { IfOk result (λ found. IfNone found (moves.offender_on (lent old.now) (lent new.now) group.now arch ≡ None)) }
{
    let rows = rows_on(alloc, arch, new)?;
    let suite = suite_of(alloc, &rows)?;
    let Some(place) = failing_place(alloc, arch, old, group, &rows, &suite)? else {
        return Ok(None);
    };
    let Some(steps) = certificate(alloc, &suite, place)? else {
        return Ok(None);
    };
    let package = Text::from_str(alloc, rows[place].binary.name.as_str())?;
    Ok(Some(Refusal {
        offender: Offender { arch, package },
        rows,
        steps,
    }))
}

/// The first row that a change from the old rows to the new ones breaks, for a moving group, with the proof that it
/// isn't installable then. There is none exactly if the change breaks nothing. It costs two judgements of the
/// offender's architecture and of each one before it, and what clauses reach from the offender. The only error is
/// running out of memory.
pub fn refused<'a>(
    alloc: Global,
    archs: &Archs,
    old: &[LentRow],
    new: &[LentRow<'a>],
    group: &[Text],
) -> Result<Option<Refusal<'a>>, NoMemory>
    ensures some { IfOk result (λ found. IfSome found (λ r. IsRefusal archs.now (lent old.now) (lent new.now) group.now r.offender (lent r.rows.items) r.steps.items)) }
    ensures none { IfOk result (λ found. IfNone found (moves.offender_of archs.now (lent old.now) (lent new.now) group.now ≡ None)) }
{
    for arch in 0..archs.len() {
        if let Some(found) = refusal_on(alloc, arch, old, new, group)? {
            return Ok(Some(found));
        }
    }
    Ok(None)
}
