//! Builds as rows of a suite.

ghost use Rattle.std.specs.Prelude.{◌≡◌, ◌++◌, ◌&&◌, true, not, map, OnOk, IfOk};
ghost use Rattle.std.specs.List.{list_all};
ghost use Rattle.std.specs.Str.{bytes_eq};
ghost use Rattle.testing_rules_facts.specs.Blocks.{joined};
ghost use Rattle.testing_rules_model.specs.FactOrder.{AreByPair};
ghost use Rattle.testing_rules_model.specs.InOrder.{AreByKey};
ghost use Rattle.testing_rules_model.specs.JudgedRows.{row_of, lent};
ghost use Rattle.testing_rules_model.specs.Unstable as unstable;
ghost use Rattle.testing_rules_model.specs.steps.Unstable as unstable_steps;
ghost use Rattle.testing_rules_facts.specs.steps.SourceFilter.{filter_passes, passing_builds};

use crate::build_blocks::{BuildBlock, BuildBlocks};
use crate::source_filter::{SourceFilter, filter_passes};
use deb_version::NoMemory;
use std::alloc::Global;
use testing_rules_fact_order::are_both_elsewhere;
use testing_rules_items::{ALL, Archs};
use testing_rules_model::{BuildIn, LentRow};

/// A build, borrowed as a row of the architecture at this place.
fn row_at(arch: u32, build: &BuildIn) -> LentRow<'_>
    ensures { row_of result ≡ unstable.row_at arch build.now }
{
    LentRow {
        arch,
        binary: &build.binary,
        sender: build.sender,
        number: build.number,
        place: build.place,
    }
}

/// The build has the architecture, and its source passes. The source is checked first: its hash is nearer in memory.
fn comes_in(passing: &SourceFilter, build: &BuildIn, arch: &str) -> bool
    ensures { result ≡ (filter_passes passing.now build.now.binary.source && bytes_eq build.now.binary.architecture arch.now) }
{
    filter_passes(passing, &build.binary) && build.binary.architecture.as_str() == arch
}

/// Adds the builds of an architecture with passing sources as its rows, at its place.
fn push_built<'a>(
    rows: &mut Vec<LentRow<'a>>,
    builds: &'a [BuildIn],
    passing: &SourceFilter,
    place: u32,
    arch: &str,
) -> Result<(), NoMemory>
    ensures { OnOk result (lent rows.new.items ≡ lent rows.old.items ++ unstable_steps.built_on (passing_builds passing.now builds.now) (place, arch.now)) }
{
    for build in builds {
        if comes_in(passing, build, arch) {
            rows.push(row_at(place, build))?;
        }
    }
    Ok(())
}

/// The ordered builds all have the same other architecture: the first and the last do.
fn are_elsewhere(builds: &[BuildIn], arch: &str) -> bool
    requires { AreByPair builds.now }
    ensures { result ≡ true → list_all (λ b. not (bytes_eq b.binary.architecture arch.now)) builds.now ≡ true }
{
    match builds.first() {
        Some(first) => match builds.last() {
            Some(last) => are_both_elsewhere(first, last, arch),
            None => false,
        },
        None => false,
    }
}

/// Both builds are of the architecture.
fn are_both_on(first: &BuildIn, last: &BuildIn, arch: &str) -> bool
    ensures { result ≡ (bytes_eq first.now.binary.architecture arch.now && bytes_eq last.now.binary.architecture arch.now) }
{
    let (lowest, highest) = (&first.binary.architecture, &last.binary.architecture);
    lowest.as_str() == arch && highest.as_str() == arch
}

/// The ordered builds all have the architecture: the first and the last do.
fn are_there(builds: &[BuildIn], arch: &str) -> bool
    requires { AreByPair builds.now }
    ensures { result ≡ true → list_all (λ b. bytes_eq b.binary.architecture arch.now) builds.now ≡ true }
{
    match builds.first() {
        Some(first) => match builds.last() {
            Some(last) => are_both_on(first, last, arch),
            None => false,
        },
        None => false,
    }
}

/// Adds the builds with passing sources as rows, at the place.
fn push_passing<'a>(
    rows: &mut Vec<LentRow<'a>>,
    builds: &'a [BuildIn],
    passing: &SourceFilter,
    place: u32,
) -> Result<(), NoMemory>
    ensures { OnOk result (lent rows.new.items ≡ lent rows.old.items ++ map (unstable.row_at place) (passing_builds passing.now builds.now)) }
{
    for build in builds {
        if filter_passes(passing, &build.binary) {
            rows.push(row_at(place, build))?;
        }
    }
    Ok(())
}

/// Adds the ordered builds with passing sources as rows, at the place. If all builds have another architecture, none is
/// read; if all have this one, no architecture is read.
fn push_ordered<'a>(
    rows: &mut Vec<LentRow<'a>>,
    builds: &'a [BuildIn],
    passing: &SourceFilter,
    place: u32,
    arch: &str,
) -> Result<(), NoMemory>
    requires { AreByPair builds.now }
    ensures { OnOk result (lent rows.new.items ≡ lent rows.old.items ++ unstable_steps.built_on (passing_builds passing.now builds.now) (place, arch.now)) }
{
    if are_elsewhere(builds, arch) {
        return Ok(());
    }
    if are_there(builds, arch) {
        return push_passing(rows, builds, passing, place);
    }
    push_built(rows, builds, passing, place, arch)
}

/// Adds the builds of an architecture with passing sources as its rows, at its place.
fn push_built_on<'a>(
    rows: &mut Vec<LentRow<'a>>,
    blocks: &'a [BuildBlock],
    passing: &SourceFilter,
    place: u32,
    arch: &str,
) -> Result<(), NoMemory>
    requires { AreByPair (joined blocks.now) }
    ensures { OnOk result (lent rows.new.items ≡ lent rows.old.items ++ unstable_steps.built_on (passing_builds passing.now (joined blocks.now)) (place, arch.now)) }
{
    for block in blocks {
        push_ordered(rows, block.rows(), passing, place, arch)?;
    }
    Ok(())
}

/// Room for this many rows, unless they are more than memory can hold.
fn room_for(count: u128) -> usize {
    if count < 0x1_0000_0000 {
        count as usize
    } else {
        0
    }
}

/// The builds with passing sources, borrowed as rows, by the place of the architecture.
pub fn rows_passing<'a>(
    alloc: Global,
    archs: &Archs,
    builds: &'a BuildBlocks,
    passing: &SourceFilter,
) -> Result<Vec<LentRow<'a>>, NoMemory>
    requires { AreByPair builds.now }
    ensures rows { IfOk result (λ rows. lent rows.items ≡ unstable.built_rows archs.now (passing_builds passing.now builds.now)) }
    ensures ordered { IfOk result (λ rows. AreByPair (passing_builds passing.now builds.now) → AreByKey (lent rows.items)) }
{
    let blocks = builds.blocks();
    let mut rows = Vec::with_capacity(alloc, room_for(builds.count()))?;
    for place in 0..archs.len() {
        push_built_on(&mut rows, blocks, passing, place, archs.name(place))?;
    }
    push_built_on(&mut rows, blocks, passing, ALL, "all")?;
    Ok(rows)
}

/// Builds, borrowed as rows, by the place of the architecture.
pub fn built_rows<'a>(
    alloc: Global,
    archs: &Archs,
    builds: &'a BuildBlocks,
) -> Result<Vec<LentRow<'a>>, NoMemory>
    requires { AreByPair builds.now }
    ensures rows { IfOk result (λ rows. lent rows.items ≡ unstable.built_rows archs.now builds.now) }
    ensures ordered { IfOk result (λ rows. AreByPair builds.now → AreByKey (lent rows.items)) }
{
    rows_passing(alloc, archs, builds, &SourceFilter::Every)
}
