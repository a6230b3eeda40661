//! What to tell the office, so that its unstable is what an archive's index has.

ghost use Rattle.std.specs.Prelude.{◌≡◌, false, filter, length, IfOk, IfErr};
ghost use Rattle.archive_plan.specs.Items.{AreInOrder, lacking, picked_from};
ghost use Rattle.archive_plan.specs.Plan.{IsCrowd};
ghost use Rattle.archive_plan.specs.Sync.{IsSync, is_package as is_binary, leaving_unstable};
ghost use Rattle.archive_plan.specs.declared.items.Relation.TheVariants.{Key, AtMost};

use crate::items::{Item, Relation};
use crate::merge::picked;
use crate::plan::{PlanFault, check_few};
use deb_version::NoMemory;
use std::alloc::Global;

/// What is due to the office.
#[derive(Drop)]
pub struct Due {
    /// The builds and uploads that are due, in the order of the keys.
    pub tells: Vec<Item>,

    /// The packages that are to be dropped, each up to its version, in the order of the keys.
    pub drops: Vec<Item>,

    /// What the index has and can't be told, in the order of the keys.
    pub left: Vec<Item>,
}

/// Whether an item is a binary package.
fn is_package(item: &Item) -> bool
    ensures { result ≡ is_binary item.now }
{
    item.architecture.as_str() != "source"
}

/// Copies of the binary packages.
fn packages(alloc: Global, items: &[Item]) -> Result<Vec<Item>, NoMemory>
    ensures { IfOk result (λ found. found.items ≡ filter is_binary items.now) }
{
    let mut found = Vec::new(alloc);
    for item in items {
        if is_package(item) {
            found.push(item.copy(alloc)?)?;
        }
    }
    Ok(found)
}

/// Copies of the items that are above all that was told and dropped.
fn above_all(
    alloc: Global,
    items: &[Item],
    told: &[Item],
    dropped: &[Item],
) -> Result<Vec<Item>, NoMemory>
    requires items { AreInOrder items.now }
    requires told { AreInOrder told.now }
    requires dropped { AreInOrder dropped.now }
    ensures { IfOk result (λ found. found.items ≡ picked_from AtMost false (picked_from AtMost false items.now told.now) dropped.now) }
{
    let above = picked(alloc, Relation::AtMost, false, items, told)?;
    picked(alloc, Relation::AtMost, false, &above, dropped)
}

/// Copies of the packages that the index hasn't, without those of which another version is told.
fn leaving(
    alloc: Global,
    living: &[Item],
    index: &[Item],
    tells: &[Item],
) -> Result<Vec<Item>, NoMemory>
    requires living { AreInOrder living.now }
    requires index { AreInOrder index.now }
    requires tells { AreInOrder tells.now }
    ensures { IfOk result (λ found. found.items ≡ picked_from Key false (filter is_binary (lacking living.now index.now)) tells.now) }
{
    let lost = picked(alloc, Relation::Whole, false, living, index)?;
    let own = packages(alloc, &lost)?;
    picked(alloc, Relation::Key, false, &own, tells)
}

/// What is due to an office that was `told` these items, the rows of its unstable, and up to which version each of
/// `dropped` was dropped, so that its unstable is what the `index` has. At most `gone` packages leave unstable.
pub fn sync_of(
    alloc: Global,
    told: &[Item],
    index: &[Item],
    dropped: &[Item],
    gone: usize,
) -> Result<Due, PlanFault>
    requires told { AreInOrder told.now }
    requires index { AreInOrder index.now }
    requires dropped { AreInOrder dropped.now }
    ensures due { IfOk result (λ due. IsSync told.now index.now dropped.now gone due) }
    ensures fault { IfErr result (λ fault. IsCrowd (length (leaving_unstable told.now index.now dropped.now)) gone fault) }
{
    let living = picked(alloc, Relation::AtMost, false, told, dropped)?;
    let lacks = picked(alloc, Relation::Whole, false, index, &living)?;
    let tells = above_all(alloc, &lacks, told, dropped)?;
    let drops = leaving(alloc, &living, index, &tells)?;
    check_few(&drops, gone)?;
    let left = picked(alloc, Relation::Whole, false, &lacks, &tells)?;
    Ok(Due { tells, drops, left })
}
