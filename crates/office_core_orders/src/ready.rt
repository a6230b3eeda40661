//! Which runs are ready.
#![tactic(auto, using(office_core_store::proofs::LastFacts::lasting))]

ghost use Rattle.std.specs.Prelude.{false, ◌≡◌, ◌+◌, ◌<◌, ◌≤◌, ◌↔◌, IsTrue, IfOk, length};
ghost use Rattle.office_mail.specs.Runs.{IsReady, IsReadyCount};
ghost use Rattle.office_core_store.specs.ReadsStore.{ReadsStore};
ghost use Rattle.office_core_orders.specs.Ready.{HasEach, HasPlaces};
ghost use Rattle.office_core_orders.specs.steps.Ready.{IsCounted};

use crate::orders::{is_there, order, read_orders};
use office_core_store::StoreFault;
use office_mail::{MAX_NUMBER, RunOrder, Setup};
use office_store_keeper::Keeper;
use std::alloc::Global;

/// Whether a run has the greatest number, so that none can come after it.
fn is_last(run: u32) -> bool
    ensures last { IsTrue result → 999_999_999 ≤ run }
    ensures more { result ≡ false → run < 999_999_999 }
{
    run >= MAX_NUMBER
}

/// Whether the run after a ready one is ready too.
fn follows<K: Keeper>(
    alloc: Global,
    setup: &Setup,
    keeper: &mut K,
    counts: &mut Vec<u32>,
    run: u32,
) -> Result<bool, StoreFault>
    requires each { K.is_trusted keeper.old → HasEach (K.content keeper.old).kept counts.old.items }
    ensures each { K.is_trusted keeper.new → HasEach (K.content keeper.old).kept counts.new.items }
    ensures ready { K.is_trusted keeper.new → HasPlaces setup.now (K.content keeper.old).kept → IsReady setup.now (K.content keeper.old).kept run → IfOk result (λ ready. IsTrue ready ↔ IsReady setup.now (K.content keeper.old).kept (run + 1)) }
    ensures below { IfOk result (λ ready. IsTrue ready → run < 999_999_999) }
    ensures looks { ReadsStore K.Keeper keeper.old keeper.new result }
{
    if is_last(run) {
        return Ok(false);
    }
    match order(alloc, setup, keeper, run + 1)? {
        Some(order) => is_there(setup, keeper, &order, counts),
        None => Ok(false),
    }
}

/// The greatest ready run, or 0: from the last finished one on, each order is read.
pub fn ready_count<K: Keeper>(
    alloc: Global,
    setup: &Setup,
    keeper: &mut K,
    counts: &mut Vec<u32>,
    finished: u32,
) -> Result<u32, StoreFault>
    requires each { K.is_trusted keeper.old → HasEach (K.content keeper.old).kept counts.old.items }
    ensures each { K.is_trusted keeper.new → HasEach (K.content keeper.old).kept counts.new.items }
    ensures ready { K.is_trusted keeper.new → HasPlaces setup.now (K.content keeper.old).kept → IsReady setup.now (K.content keeper.old).kept finished → IfOk result (λ count. IsReadyCount setup.now (K.content keeper.old).kept count) }
    ensures looks { ReadsStore K.Keeper keeper.old keeper.new result }
{
    let mut count = finished;
    'runs: while follows(alloc, setup, keeper, counts, count)? {
        count += 1;
    }
    Ok(count)
}

/// Whether the next run is ready. Its order is read and kept.
pub fn next_is_ready<K: Keeper>(
    alloc: Global,
    setup: &Setup,
    keeper: &mut K,
    counts: &mut Vec<u32>,
    orders: &mut Vec<RunOrder>,
    finished: u32,
) -> Result<bool, StoreFault>
    requires known { K.is_trusted keeper.old → IsCounted setup.now (K.content keeper.old) counts.old.items orders.old.items }
    requires finished { K.is_trusted keeper.old → finished ≡ length (K.content keeper.old).reports }
    ensures known { K.is_trusted keeper.new → IsCounted setup.now (K.content keeper.old) counts.new.items orders.new.items }
    ensures ready { K.is_trusted keeper.new → HasPlaces setup.now (K.content keeper.old).kept → IsReady setup.now (K.content keeper.old).kept (length (K.content keeper.old).reports) → IfOk result (λ ready. IsTrue ready ↔ IsReady setup.now (K.content keeper.old).kept (finished + 1)) }
    ensures below { IfOk result (λ ready. IsTrue ready → finished < 999_999_999) }
    ensures there { IfOk result (λ ready. IsTrue ready → finished < length orders.new.items) }
    ensures looks { ReadsStore K.Keeper keeper.old keeper.new result }
{
    if is_last(finished) {
        return Ok(false);
    }
    read_orders(alloc, setup, keeper, orders, finished + 1)?;
    match orders.get(finished as usize) {
        Some(order) => is_there(setup, keeper, order, counts),
        None => Ok(false),
    }
}
