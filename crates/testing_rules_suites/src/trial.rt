//! Tried changes: the first watched row that a change would lose.

ghost use Rattle.std.specs.Prelude.{◌≡◌, ◌<◌, ℕ, Bool, List, Option, Some, length, IfOk, option_copied};
ghost use Rattle.std.specs.List.{All, slice_get};
ghost use Rattle.testing_install.specs.Closed.{marked};
ghost use Rattle.testing_rules_suites.specs.steps.ArchRows.{ArchRows};
ghost use Rattle.testing_rules_suites.specs.steps.PresentSteps.{IsOn, IsSuiteOn, AreOver, AreSuites};
ghost use Rattle.testing_rules_suites.specs.steps.Trials.{names_at, IsFirstLost};
ghost use Rattle.testing_rules_suites.specs.steps.Tried.{first_told, Tells};
ghost use Rattle.testing_rules_items.specs.Words.{Text as Word, byte_cmp, least};

use crate::watched::{first_of_two, is_watched_on};
use crate::{ArchSuite, Change, Pool};
use deb_control::Text;
use deb_version::NoMemory;
use std::alloc::Global;
use testing_rules_model::Offender;

/// The name of the first watched row at one of the places, in byte order.
fn first_watched<'a>(arch: u32, pool: &'a Pool, places: &[usize]) -> Option<&'a str>
    requires { All (λ k. k < length pool.now) places.now }
    ensures { option_copied result ≡ least byte_cmp (names_at arch pool.now places.now) }
{
    let mut first = None;
    for place in places {
        let row = pool.row(*place);
        if is_watched_on(arch, &row) {
            first = Some(first_of_two(first, row.binary.name.as_str()));
        }
    }
    first
}

/// The first name in byte order of a watched row that the architecture would lose by the change.
fn lost_on<'a>(
    alloc: Global,
    arch: u32,
    pool: &'a Pool,
    suites: &mut Vec<ArchSuite>,
    change: &Change,
) -> Result<Option<&'a str>, NoMemory>
    requires arch { arch < length suites.old.items }
    requires over { AreOver pool.now suites.old.items }
    ensures same { suites.new.items ≡ suites.old.items }
    ensures first { IfOk result (λ name. (suite : ArchRows) → slice_get suites.old.items arch ≡ Some suite
        → (stands there : List Bool) → IsSuiteOn arch pool.now stands suite → length there ≡ length pool.now → IsOn arch pool.now (marked stands) (marked there)
        → IsFirstLost arch pool.now there change.now.leaving.items change.now.coming.items (option_copied name)) }
{
    let suite = &mut suites[arch as usize];
    let lost = suite.trial(alloc, &change.leaving, &change.coming)?;
    Ok(first_watched(arch, pool, &lost))
}

/// The first row that the change would lose, by architecture in listed order and then by name.
pub fn lost_anywhere(
    alloc: Global,
    archs: u32,
    pool: &Pool,
    suites: &mut Vec<ArchSuite>,
    change: &Change,
) -> Result<Option<Offender>, NoMemory>
    requires archs { archs ≡ length suites.old.items }
    requires over { AreOver pool.now suites.old.items }
    ensures same { suites.new.items ≡ suites.old.items }
    ensures first { IfOk result (λ o. (stands : List Bool) (tells : ℕ → Option Word) → AreSuites pool.now stands suites.old.items
        → Tells pool.now stands change.now.leaving.items change.now.coming.items tells → o ≡ first_told archs tells) }
{
    for arch in 0..archs {
        if let Some(name) = lost_on(alloc, arch, pool, suites, change)? {
            let package = Text::from_str(alloc, name)?;
            return Ok(Some(Offender { arch, package }));
        }
    }
    Ok(None)
}
