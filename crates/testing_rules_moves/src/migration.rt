//! A run's moves: removals, groups, single moves, and the waiting candidates.

ghost use Rattle.std.specs.Prelude.{◌≡◌, IfOk, OnErr, OnOk};
ghost use Rattle.testing_rules_model.specs.Covered.{Covered};
ghost use Rattle.testing_rules_model.specs.Excuses.{excuses_of};
ghost use Rattle.testing_rules_model.specs.InOrder.{AreByKey};
ghost use Rattle.testing_rules_model.specs.JudgedRows.{lent};
ghost use Rattle.testing_rules_suites.specs.CarriedOver.{AreCarriedOver};
ghost use Rattle.testing_rules_model.specs.StandsFor.{StandsFor};
ghost use Rattle.testing_rules_model.specs.Unstable as unstable_words;
ghost use Rattle.testing_rules_model.specs.Updates.{IsUpdate, update_by};
ghost use Rattle.testing_rules_model.specs.Watched.{AllWatchedWork};
ghost use Rattle.testing_rules_moves.specs.steps.Runs.{after_turns};

use crate::turns::{Basis, Turns};
use deb_version::NoMemory;
use jiff_core::civil::Date;
use std::alloc::Global;
use testing_rules_facts::{Facts, Unhints, built_rows};
use testing_rules_items::Archs;
use testing_rules_model::{Decision, Excuse, Excuses, HintIn, UnhintIn, Update};
use testing_rules_suites::{CarriedSuites, Testing};

/// The turns of a run, one kind after the other.
fn take_turns(
    alloc: Global,
    turns: &mut Turns<'_, '_>,
    excuses: &[Excuse],
    hints: &[HintIn],
    unhints: &[UnhintIn],
) -> Result<(), NoMemory>
    ensures { OnOk result (turns.new ≡ after_turns excuses.now hints.now unhints.now turns.old) }
{
    let unhints = Unhints::of(alloc, unhints)?;
    turns.removals(alloc, hints, &unhints)?;
    turns.groups(alloc, excuses, hints, &unhints)?;
    turns.move_singles(alloc, excuses)?;
    turns.waits(alloc, excuses)?;
    Ok(())
}

/// The decisions of a run, and the resulting testing.
fn turns_over<'a>(
    alloc: Global,
    basis: &Basis<'_, 'a>,
    testing: &'a Testing,
    kept: Option<CarriedSuites>,
) -> Result<(Vec<Decision>, Testing), NoMemory>
    requires kept { AreCarriedOver kept testing.now.rows }
    requires rows { AreByKey (lent basis.now.rows.now) }
    ensures { IfOk result (λ o. record { decisions = o.0.items; suite = o.1 } ≡ update_by basis.now.archs.now basis.now.facts.now.sources (lent basis.now.rows.now) basis.now.facts.now.hints basis.now.facts.now.unhints basis.now.excuses.now testing.now) }
{
    let mut turns = Turns::over(alloc, basis, testing, kept)?;
    let (hints, unhints) = (basis.facts.hints(), basis.facts.unhints());
    take_turns(alloc, &mut turns, basis.excuses, hints, unhints)?;
    let parts = turns.into_parts(alloc)?;
    Ok(parts)
}

/// The decisions of a run over unstable, and the resulting testing.
fn all_turns<'a>(
    alloc: Global,
    archs: &Archs,
    facts: &'a Facts,
    excuses: &[Excuse],
    testing: &'a Testing,
    kept: Option<CarriedSuites>,
) -> Result<(Vec<Decision>, Testing), NoMemory>
    requires { AreCarriedOver kept testing.now.rows }
    ensures { IfOk result (λ o. record { decisions = o.0.items; suite = o.1 } ≡ update_by archs.now facts.now.sources (unstable_words.built_rows archs.now facts.now.rows) facts.now.hints facts.now.unhints excuses.now testing.now) }
{
    let rows = built_rows(alloc, archs, facts.rows())?;
    let basis = Basis {
        archs,
        facts,
        rows: &rows,
        excuses,
    };
    turns_over(alloc, &basis, testing, kept)
}

/// The decisions of a run by these excuses: removals, groups, single moves, and the waiting candidates. Testing becomes
/// their result, and is unchanged if memory ran out. If every watched row is installable before, it is so afterwards.
pub fn migrate(
    alloc: Global,
    archs: &Archs,
    facts: &Facts,
    excuses: &Excuses,
    testing: &mut Testing,
) -> Result<Update, NoMemory>
    ensures ok { IfOk result (λ u. (s : Covered) (date : Date) → StandsFor facts.now s testing.old
        → excuses.now ≡ excuses_of archs.now s testing.old date → IsUpdate archs.now s excuses.now testing.old u testing.new) }
    // Whatever the facts stand for, the run uses their lists.
    ensures by_lists { IfOk result (λ u. record { decisions = u; suite = testing.new } ≡ update_by archs.now facts.now.sources (unstable_words.built_rows archs.now facts.now.rows) facts.now.hints facts.now.unhints excuses.now testing.old) }
    ensures watched { AllWatchedWork archs.now testing.old.rows → AllWatchedWork archs.now testing.new.rows }
    ensures err { OnErr result (testing.new ≡ testing.old) }
{
    let kept = testing.take_kept();
    let (decisions, after) = all_turns(alloc, archs, facts, excuses.as_slice(), testing, kept)?;
    *testing = after;
    Ok(Update::of(decisions))
}
