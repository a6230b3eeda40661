//! Sources by name, for names looked up in order.

ghost use Rattle.std.specs.Prelude.{◌≡◌, option_copied};
ghost use Rattle.testing_rules_model.specs.Excuses as rules;
ghost use Rattle.testing_rules_model.specs.steps.Excuses as rules_steps;
ghost use Rattle.testing_rules_model.specs.InOrder.{AreByName};

use deb_version::Version;
use testing_rules_model::{SourceIn, source_place_near};
use testing_rules_suites::Testing;

/// The source of a name, and the place to try for the next name. The given place is tried first: names in order need no
/// search.
pub fn source_near<'a>(
    sources: &'a [SourceIn],
    name: &str,
    place: usize,
) -> (Option<&'a SourceIn>, usize)
    requires { AreByName sources.now }
    ensures { option_copied result.0 ≡ rules_steps.entry_of sources.now name.now }
{
    match source_place_near(sources, name, place) {
        Ok(place) => (Some(&sources[place]), place + 1),
        Err(place) => (None, place),
    }
}

/// The source's version in testing, and the place to try for the next name. The given place is tried first.
pub fn testing_version_near<'a>(
    testing: &'a Testing,
    name: &str,
    place: usize,
) -> (Option<&'a Version>, usize)
    ensures { option_copied result.0 ≡ rules.testing_version testing.now name.now }
{
    match source_near(testing.sources(), name, place) {
        (Some(source), next) => (Some(&source.version), next),
        (None, next) => (None, next),
    }
}
