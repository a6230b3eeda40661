//! How far each sender's mail is kept without a gap.
#![tactic(auto, using(office_core_store::proofs::LastFacts::lasting))]

ghost use Rattle.std.specs.Prelude.{IfOk, slice_index};
ghost use Rattle.office_mail.specs.Lists.{Lists};
ghost use Rattle.office_core_facts.specs.Seen.{IsUnbroken};
ghost use Rattle.office_core_store.specs.ReadsStore.{ReadsStore};
ghost use Rattle.office_core_orders.specs.Ready.{HasEach, HasPlaces};
ghost use Rattle.office_core.specs.Unbroken.{AreUnbroken};

use office_core_orders::orders::{count_on, make_room};
use office_core_store::StoreFault;
use office_mail::{MAX_NUMBER, Setup};
use office_store_keeper::Keeper;
use std::alloc::Global;

/// Counts one sender's numbers on up to the first that isn't kept.
fn count_sender<K: Keeper>(
    keeper: &mut K,
    counts: &mut Vec<u32>,
    sender: u32,
) -> Result<u32, StoreFault>
    requires each { K.is_trusted keeper.old → HasEach (K.content keeper.old).kept counts.old.items }
    ensures each { K.is_trusted keeper.new → HasEach (K.content keeper.old).kept counts.new.items }
    ensures unbroken { (setup : Lists) → K.is_trusted keeper.new → HasPlaces setup (K.content keeper.old).kept → IfOk result (IsUnbroken (K.content keeper.old).kept sender) }
    ensures looks { ReadsStore K.Keeper keeper.old keeper.new result }
{
    make_room(counts, sender)?;
    let place = sender as usize;
    let count = count_on(keeper, sender, counts[place], MAX_NUMBER)?;
    counts[place] = count;
    Ok(count)
}

/// The number up to which each sender's mail is kept without a gap, in the setup's order. It counts on from what is
/// counted so far.
pub fn unbroken_counts<K: Keeper>(
    alloc: Global,
    setup: &Setup,
    keeper: &mut K,
    counts: &mut Vec<u32>,
) -> Result<Vec<u32>, StoreFault>
    requires each { K.is_trusted keeper.old → HasEach (K.content keeper.old).kept counts.old.items }
    ensures each { K.is_trusted keeper.new → HasEach (K.content keeper.old).kept counts.new.items }
    ensures unbroken { K.is_trusted keeper.new → HasPlaces setup.now (K.content keeper.old).kept → IfOk result (λ unbroken. AreUnbroken (K.content keeper.old).kept (slice_index unbroken.items)) }
    ensures looks { ReadsStore K.Keeper keeper.old keeper.new result }
{
    let mut unbroken = Vec::new(alloc);
    'senders: for sender in 0..setup.senders().len() {
        unbroken.push(count_sender(keeper, counts, sender as u32)?)?;
    }
    Ok(unbroken)
}
