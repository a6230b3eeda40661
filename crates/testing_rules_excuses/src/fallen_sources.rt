//! The sources that testing lost, or has in a lower version than before.

ghost use Rattle.std.specs.Prelude.{◌≡◌, IfOk, option_copied, option_map};
ghost use Rattle.testing_rules_excuses.specs.Fallen.{fallen_names};
ghost use Rattle.testing_rules_model.specs.Excuses as rules;

use crate::near::source_near;
use deb_control::Text;
use deb_version::{NoMemory, Version};
use std::alloc::Global;
use testing_rules_model::SourceIn;
use testing_rules_suites::Testing;

/// Whether the version is above the source's, or there is no source.
fn is_above(version: &Version, source: Option<&SourceIn>) -> bool
    ensures { result ≡ rules.is_news (option_map (λ s. s.version) (option_copied source.entry)) version.now }
{
    match source {
        Some(source) => version.order(&source.version).is_gt(),
        None => true,
    }
}

/// The names of the sources that testing lost, or has in a lower version now, in the order of the earlier testing. Each
/// source costs a look-up by name and one comparison of versions.
///
/// # Errors
///
/// `NoMemory` if the names can't be allocated.
pub fn fallen(alloc: Global, before: &Testing, after: &Testing) -> Result<Vec<Text>, NoMemory>
    ensures { IfOk result (λ names. names.items ≡ fallen_names before.now after.now) }
{
    let mut names = Vec::new(alloc);
    let mut place = 0;
    'sources: for source in before.sources() {
        let (now, next) = source_near(after.sources(), source.name.as_str(), place);
        if is_above(&source.version, now) {
            names.push(source.name.copy(alloc)?)?;
        }
        place = next;
    }
    Ok(names)
}
