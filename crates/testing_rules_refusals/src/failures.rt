//! The place of the first row that fails on an architecture.

ghost use Rattle.std.specs.Prelude.{◌≡◌, IfSome, IfNone, None};
ghost use Rattle.testing_rules_model.specs.Moves as moves;
ghost use Rattle.testing_rules_model.specs.JudgedRows.{row_of};
ghost use Rattle.testing_rules_refusals.specs.steps.Refusals.{HasFailing, IsFailing, IsFirstFailing, is_failing};
ghost use Rattle.testing_rules_suites.specs.steps.JudgedRows.{answers};

use deb_control::Text;
use testing_rules_live::{fails_on, first_failing};
use testing_rules_suites::RowAnswer;

/// The row has the name and fails.
fn is_failing(
    arch: u32,
    group: &[Text],
    before: &[RowAnswer],
    judged: RowAnswer,
    name: &str,
) -> bool
    ensures { result ≡ is_failing arch group.now (answers before.now) name.now (record { row = row_of judged.entry.row; is_installable = judged.entry.is_installable }) }
{
    judged.row.binary.name.as_str() == name && fails_on(arch, group, before, judged)
}

/// The first place of a failing row with the name.
fn place_of(
    arch: u32,
    group: &[Text],
    before: &[RowAnswer],
    after: &[RowAnswer],
    name: &str,
) -> Option<usize>
    ensures some { IfSome result (λ place. IsFailing arch group.now (answers before.now) (answers after.now) name.now place) }
    ensures none { IfNone result (HasFailing arch group.now (answers before.now) (answers after.now) name.now → ⊥) }
{
    for place in 0..after.len() {
        if is_failing(arch, group, before, after[place], name) {
            return Some(place);
        }
    }
    None
}

/// The place of the failing row with the first name.
pub fn place_of_first(
    arch: u32,
    group: &[Text],
    before: &[RowAnswer],
    after: &[RowAnswer],
) -> Option<usize>
    ensures some { IfSome result (λ place. IsFirstFailing arch group.now (answers before.now) (answers after.now) place) }
    ensures none { IfNone result (moves.first_failing arch group.now (answers before.now) (answers after.now) ≡ None) }
{
    match first_failing(arch, group, before, after) {
        Some(name) => place_of(arch, group, before, after, name),
        None => None,
    }
}
