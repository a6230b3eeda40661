//! A few of all sources, by the hashes of their names.

ghost use Rattle.std.specs.Prelude.{◌≡◌, ℕ, IfOk};
ghost use Rattle.std.specs.List.{list_all};
ghost use Rattle.testing_rules_model.specs.JudgedRows.{lent};
ghost use Rattle.testing_rules_model.specs.steps.SourceFilter as rules;
ghost use Rattle.testing_rules_facts.specs.steps.SourceFilter as facts_rules;

use deb_control::Text;
use deb_version::NoMemory;
use std::alloc::Global;
use std::collections::HashSet;
use testing_install::hash_of;
use testing_rules_model::{Excuse, LentRow, SharedBinary};

/// Hashes of sources' names. Two names with the same hash can't be told apart, so the set only shows which sources
/// certainly don't pass.
pub type Hashes = HashSet<u64>;

/// The sources that pass: all, or those with these hashes.
#[derive(Drop)]
pub enum SourceFilter {
    Every,
    Those(Hashes),
}

/// The hashes of the names of the sources with an excuse.
fn hashes_of_excused(alloc: Global, excuses: &[Excuse]) -> Result<Vec<u64>, NoMemory>
    ensures { IfOk result (λ hashes. hashes.items ≡ rules.excused excuses.now) }
{
    let mut hashes = Vec::with_capacity(alloc, excuses.len())?;
    for excuse in excuses {
        hashes.push(hash_of(excuse.source.as_str()))?;
    }
    Ok(hashes)
}

/// The hashes as a set.
pub fn set_of(alloc: Global, hashes: &[u64]) -> Result<Hashes, NoMemory>
    ensures { IfOk result (λ set. (hash : ℕ) → rules.is_one_of set.keys hash ≡ rules.is_one_of hashes.now hash) }
{
    let set = hashes.iter().copied().collect(alloc)?;
    Ok(set)
}

/// The sources that may move: those with an excuse.
pub fn candidates(alloc: Global, excuses: &[Excuse]) -> Result<Hashes, NoMemory>
    ensures { IfOk result (λ set. (hash : ℕ) → rules.is_one_of set.keys hash ≡ rules.is_one_of (rules.excused excuses.now) hash) }
{
    let hashes = hashes_of_excused(alloc, excuses)?;
    let set = set_of(alloc, &hashes)?;
    Ok(set)
}

/// The hash is one of these.
fn is_one_of(hashes: &Hashes, hash: u64) -> bool
    ensures { result ≡ rules.is_one_of hashes.now.keys hash }
{
    hashes.contains(&hash)
}

/// The package's source passes.
pub fn filter_passes(passing: &SourceFilter, binary: &SharedBinary) -> bool
    ensures { result ≡ facts_rules.filter_passes passing.now binary.now.source }
{
    match passing {
        SourceFilter::Every => true,
        SourceFilter::Those(hashes) => is_one_of(hashes, binary.source_hash()),
    }
}

/// Each of the sources is one of these.
pub fn hashes_pass(hashes: &Hashes, group: &[Text]) -> bool
    ensures { result ≡ list_all (rules.hash_passes hashes.now.keys) group.now }
{
    'group: for name in group {
        if !is_one_of(hashes, hash_of(name.as_str())) {
            return false;
        }
    }
    true
}

/// The rows of those sources.
pub fn passing_rows<'a>(
    alloc: Global,
    hashes: &Hashes,
    rows: &[LentRow<'a>],
) -> Result<Vec<LentRow<'a>>, NoMemory>
    ensures { IfOk result (λ wanted. lent wanted.items ≡ rules.passing_rows hashes.now.keys (lent rows.now)) }
{
    let mut wanted = Vec::with_capacity(alloc, rows.len())?;
    for row in rows {
        if is_one_of(hashes, row.binary.source_hash()) {
            wanted.push(*row)?;
        }
    }
    Ok(wanted)
}
