//! What a change of testing would break, outside of any run.

ghost use Rattle.std.specs.Prelude.{◌≡◌, [], IfOk};
ghost use Rattle.testing_rules_model.specs.Boxed.{unboxed};
ghost use Rattle.testing_rules_model.specs.FactOrder.{AreBySource};
ghost use Rattle.testing_rules_model.specs.InOrder.{AreByKey};
ghost use Rattle.testing_rules_model.specs.JudgedRows.{lent};
ghost use Rattle.testing_rules_model.specs.Moves.{move_group, offender_of, remove_source};
ghost use Rattle.testing_rules_suites.specs.CarriedOver.{AreCarriedOver};

use crate::live::LiveTesting;
use deb_control::Text;
use deb_version::NoMemory;
use std::alloc::Global;
use testing_install::hash_of;
use testing_rules_facts::{Hashes, Unstable, set_of};
use testing_rules_items::Archs;
use testing_rules_model::Offender;
use testing_rules_suites::{CarriedSuites, Testing};

/// The hashes of the group's names.
fn hashes_of_group(alloc: Global, group: &[Text]) -> Result<Hashes, NoMemory> {
    let mut hashes = Vec::with_capacity(alloc, group.len())?;
    for name in group {
        hashes.push(hash_of(name.as_str()))?;
    }
    set_of(alloc, &hashes)
}

/// What moving the group would break, and testing with the suites that judged it.
fn group_breaks<'a>(
    alloc: Global,
    archs: &Archs,
    unstable: Unstable<'_, 'a>,
    group: &[Text],
    testing: &'a Testing,
    kept: Option<CarriedSuites>,
) -> Result<(Option<Offender>, Testing), NoMemory>
    requires kept { AreCarriedOver kept testing.now.rows }
    requires sources { AreBySource (unboxed unstable.sources.now) }
    requires rows { AreByKey (lent unstable.rows.now) }
    ensures offender { IfOk result (λ o. o.0 ≡ offender_of archs.now testing.now.rows
        (move_group (unboxed unstable.entry.sources.now) (lent unstable.entry.rows.now) group.now testing.now).rows group.now) }
    ensures same { IfOk result (λ o. o.1 ≡ testing.now) }
{
    let candidates = hashes_of_group(alloc, group)?;
    let mut live = LiveTesting::new(alloc, archs, unstable, testing, candidates, kept)?;
    let offender = live.broken_by_move(alloc, group)?;
    let same = live.into_testing(alloc)?;
    Ok((offender, same))
}

/// What moving the group as one over testing would break, if any. Testing is unchanged, and keeps the suites for the
/// next call or run. If it has them, the cost is a copy of testing and what the move touches; else also one judgement
/// of all its rows. The only error is running out of memory.
pub fn broken_by_group(
    alloc: Global,
    archs: &Archs,
    unstable: Unstable<'_, '_>,
    group: &[Text],
    testing: &mut Testing,
) -> Result<Option<Offender>, NoMemory>
    requires sources { AreBySource (unboxed unstable.sources.now) }
    requires rows { AreByKey (lent unstable.rows.now) }
    ensures same { testing.new ≡ testing.old }
    ensures offender { IfOk result (λ o. o ≡ offender_of archs.now testing.old.rows
        (move_group (unboxed unstable.entry.sources.now) (lent unstable.entry.rows.now) group.now testing.old).rows group.now) }
{
    let kept = testing.take_kept();
    let (offender, same) = group_breaks(alloc, archs, unstable, group, testing, kept)?;
    *testing = same;
    Ok(offender)
}

/// What removing the source would break, and testing with the suites that judged it.
fn removal_breaks<'a>(
    alloc: Global,
    archs: &Archs,
    unstable: Unstable<'_, 'a>,
    name: &Text,
    testing: &'a Testing,
    kept: Option<CarriedSuites>,
) -> Result<(Option<Offender>, Testing), NoMemory>
    requires kept { AreCarriedOver kept testing.now.rows }
    requires sources { AreBySource (unboxed unstable.sources.now) }
    requires rows { AreByKey (lent unstable.rows.now) }
    ensures offender { IfOk result (λ o. o.0 ≡ offender_of archs.now testing.now.rows (remove_source name.now testing.now).rows []) }
    ensures same { IfOk result (λ o. o.1 ≡ testing.now) }
{
    let candidates = hashes_of_group(alloc, &[])?;
    let mut live = LiveTesting::new(alloc, archs, unstable, testing, candidates, kept)?;
    let offender = live.broken_by_removal(alloc, name)?;
    let same = live.into_testing(alloc)?;
    Ok((offender, same))
}

/// What removing the source from testing would break, if any. Testing is unchanged, and keeps the suites for the next
/// call or run. It costs as much as `broken_by_group`. The only error is running out of memory.
pub fn broken_by_removal(
    alloc: Global,
    archs: &Archs,
    unstable: Unstable<'_, '_>,
    name: &Text,
    testing: &mut Testing,
) -> Result<Option<Offender>, NoMemory>
    requires sources { AreBySource (unboxed unstable.sources.now) }
    requires rows { AreByKey (lent unstable.rows.now) }
    ensures same { testing.new ≡ testing.old }
    ensures offender { IfOk result (λ o. o ≡ offender_of archs.now testing.old.rows (remove_source name.now testing.old).rows []) }
{
    let kept = testing.take_kept();
    let (offender, same) = removal_breaks(alloc, archs, unstable, name, testing, kept)?;
    *testing = same;
    Ok(offender)
}
