//! A few of all sources, by the hashes of their names.

ghost use Rattle.std.specs.Prelude.{◌≡◌, IfOk};
ghost use Rattle.testing_rules_model.specs.steps.SourceFilter as rules;
ghost use Rattle.testing_rules_facts.specs.steps.SourceFilter as facts_rules;
ghost use Rattle.testing_rules_excuses.specs.steps.SourceFilter as excuses_rules;
ghost use Rattle.testing_rules_items.specs.Words.{Text as Word};

use crate::by_source::News;
use deb_version::NoMemory;
use std::alloc::Global;
use testing_install::hash_of;
use testing_rules_facts::{SourceFilter, set_of};

/// The hashes of the names of the sources that are news.
fn hashes_of_news(alloc: Global, news: &[News]) -> Result<Vec<u64>, NoMemory>
    ensures { IfOk result (λ hashes. hashes.items ≡ excuses_rules.newer_hashes news.now) }
{
    let mut hashes = Vec::new(alloc);
    for source in news {
        hashes.push(hash_of(source.upload.source.as_str()))?;
    }
    Ok(hashes)
}

/// The sources that are news, perhaps with others.
pub fn sources_of_news(alloc: Global, news: &[News]) -> Result<SourceFilter, NoMemory>
    ensures { IfOk result (λ passing. (name : Word) → facts_rules.filter_passes passing name ≡ rules.hash_passes (excuses_rules.newer_hashes news.now) name) }
{
    let hashes = hashes_of_news(alloc, news)?;
    let set = set_of(alloc, &hashes)?;
    Ok(SourceFilter::Those(set))
}
