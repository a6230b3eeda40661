//! What the first run that isn't ready waits for.
#![tactic(auto, using(office_core_store::proofs::LastFacts::lasting))]

ghost use Rattle.std.specs.Prelude.{◌≡◌, ℕ, ◌+◌, ◌<◌, IfOk, length, slice_index};
ghost use Rattle.office_mail.specs.Kept.{Kept};
ghost use Rattle.office_mail.specs.Runs.{IsReady, IsReadyCount};
ghost use Rattle.office_core_store.specs.ReadsStore.{ReadsStore};
ghost use Rattle.office_core_orders.specs.Ready.{HasEach, HasPlaces};
ghost use Rattle.office_core_orders.specs.steps.Ready.{IsReached};
ghost use Rattle.office_core_orders.specs.Waiting.{AreLacks, Awaits, AwaitsSome};

use crate::orders::{order, reach_all, stated_for};
use crate::ready::ready_count;
use crate::wait_lines::{Awaited, Lack, Progress, Waiting};
use office_core_store::{StoreFault, stored};
use office_mail::{RunOrder, Setup};
use office_store_keeper::Keeper;
use std::alloc::{AllocError, Global};

/// How many numbers of a sender are counted, 0 if it has no count.
fn count_of(counts: &[u32], sender: usize) -> u32
    ensures { result ≡ slice_index counts.now sender }
{
    counts.get(sender).copied().unwrap_or(0)
}

/// Each sender's gap by an order, from counts that reach what the order states or stop before a gap.
fn lacks_behind(
    alloc: Global,
    setup: &Setup,
    order: &RunOrder,
    counts: &[u32],
) -> Result<Vec<Lack>, AllocError>
    ensures { (kept : Kept) → HasEach kept counts.now → ((s : ℕ) → s < length setup.now.senders → IsReached kept order.now.covers counts.now s)
        → IfOk result (λ lacks. AreLacks kept order.now (length setup.now.senders) lacks.items) }
{
    let mut lacks = Vec::new(alloc);
    'senders: for sender in 0..setup.senders().len() {
        let count = count_of(counts, sender);
        let cover = stated_for(order, sender);
        if count < cover {
            lacks.push(Lack {
                sender: sender as u32,
                number: count + 1,
                cover,
            })?;
        }
    }
    Ok(lacks)
}

/// Each sender's gap by an order.
fn lacks_by<K: Keeper>(
    alloc: Global,
    setup: &Setup,
    keeper: &mut K,
    counts: &mut Vec<u32>,
    order: &RunOrder,
) -> Result<Vec<Lack>, StoreFault>
    requires each { K.is_trusted keeper.old → HasEach (K.content keeper.old).kept counts.old.items }
    ensures each { K.is_trusted keeper.new → HasEach (K.content keeper.old).kept counts.new.items }
    ensures lacks { K.is_trusted keeper.new → IfOk result (λ lacks. AreLacks (K.content keeper.old).kept order.now (length setup.now.senders) lacks.items) }
    ensures looks { ReadsStore K.Keeper keeper.old keeper.new result }
{
    reach_all(setup, keeper, order, counts)?;
    Ok(lacks_behind(alloc, setup, order, counts)?)
}

/// What the run after a ready one waits for.
fn awaited_behind<K: Keeper>(
    alloc: Global,
    setup: &Setup,
    keeper: &mut K,
    counts: &mut Vec<u32>,
    ready: u32,
) -> Result<Awaited, StoreFault>
    requires each { K.is_trusted keeper.old → HasEach (K.content keeper.old).kept counts.old.items }
    ensures each { K.is_trusted keeper.new → HasEach (K.content keeper.old).kept counts.new.items }
    ensures awaited { K.is_trusted keeper.new → HasPlaces setup.now (K.content keeper.old).kept → IsReady setup.now (K.content keeper.old).kept ready → IfOk result (λ awaited. Awaits setup.now (K.content keeper.old).kept (ready + 1) awaited) }
    ensures looks { ReadsStore K.Keeper keeper.old keeper.new result }
{
    // No run after 999,999,999 is ready, so the sum is exact.
    match order(alloc, setup, keeper, ready.saturating_add(1))? {
        Some(order) => {
            let lacks = lacks_by(alloc, setup, keeper, counts, &order)?;
            Ok(Awaited::Mail(lacks))
        }
        None => Ok(Awaited::Order),
    }
}

/// How many runs are ready and finished, and what the first run that isn't ready waits for.
pub fn waiting<K: Keeper>(
    alloc: Global,
    setup: &Setup,
    keeper: &mut K,
    counts: &mut Vec<u32>,
) -> Result<Waiting, StoreFault>
    requires each { K.is_trusted keeper.old → HasEach (K.content keeper.old).kept counts.old.items }
    ensures each { K.is_trusted keeper.new → HasEach (K.content keeper.old).kept counts.new.items }
    ensures ready { K.is_trusted keeper.new → HasPlaces setup.now (K.content keeper.old).kept → IsReady setup.now (K.content keeper.old).kept (length (K.content keeper.old).reports) → IfOk result (λ waiting. IsReadyCount setup.now (K.content keeper.old).kept waiting.progress.ready) }
    ensures finished { K.is_trusted keeper.new → IfOk result (λ waiting. waiting.progress.finished ≡ length (K.content keeper.old).reports) }
    ensures awaited { K.is_trusted keeper.new → HasPlaces setup.now (K.content keeper.old).kept → IsReady setup.now (K.content keeper.old).kept (length (K.content keeper.old).reports) → IfOk result (λ waiting. Awaits setup.now (K.content keeper.old).kept (waiting.progress.ready + 1) waiting.awaited) }
    ensures some { K.is_trusted keeper.new → HasPlaces setup.now (K.content keeper.old).kept → IsReady setup.now (K.content keeper.old).kept (length (K.content keeper.old).reports) → IfOk result (λ waiting. AwaitsSome waiting.awaited) }
    ensures looks { ReadsStore K.Keeper keeper.old keeper.new result }
{
    let finished = stored::finished(keeper)?;
    let ready = ready_count(alloc, setup, keeper, counts, finished)?;
    let awaited = awaited_behind(alloc, setup, keeper, counts, ready)?;
    Ok(Waiting {
        progress: Progress { ready, finished },
        awaited,
    })
}
