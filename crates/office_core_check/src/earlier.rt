//! An office in memory as an earlier run of a store left it, and what offices report on a run.
#![tactic(auto, using(office_core_store::proofs::LastFacts::lasting))]

ghost use Rattle.std.specs.Prelude.{◌≡◌, ◌↔◌, ◌≤◌, ℕ, List, Option, Some, IsTrue, is_ok, IfOk, IfErr, OnOk, length};
ghost use Rattle.office_mail.specs.Lists.{Lists};
ghost use Rattle.office_store_keeper.specs.Content.{Content};
ghost use Rattle.office_store_keeper.specs.MemoryState.{content_of};
ghost use Rattle.office_core_store.specs.Counted.{Counted};
ghost use Rattle.office_core_store.specs.declared.faults.StoreFault.TheVariants as fault;
ghost use Rattle.office_core_store.specs.ReadsStore.{ReadsStore};
ghost use Rattle.office_core_store.specs.StaysTrusted.{StaysTrusted};
ghost use Rattle.office_core.specs.Preserves.{AsksOffice, Holds};
ghost use Rattle.office_core_facts.specs.State.{state_of};
ghost use Rattle.office_core_why.specs.declared.WhyText.{WhyText};
ghost use Rattle.office_core_check.specs.steps.Comparing.{IsAnew, IsMadeAfter, IsMadeUpTo};
ghost use Rattle.office_core_check.specs.Earlier.{IsAfter, IsBefore, IsToldAfter, IsToldOfRun};
ghost use Rattle.office_core_check.specs.steps.Reading.{IsFront};
ghost use Rattle.office_core_check.specs.Whole.{AreOfSenders};
ghost use Rattle.office_core_check.specs.declared.memory.Bounded.{Bounded};

use crate::memory::Bounded;
use crate::rebuilt::{make_anew, new_office};
use office_core::Office;
use office_core_store::StoreFault;
use office_core_why::WhyText;
use office_mail::Setup;
use office_store_keeper::Keeper;
use std::alloc::Global;

/// Whether a run is one of that many finished ones.
fn is_finished(run: u32, finished: u32) -> bool
    ensures { IsTrue result ↔ ((1 ≤ run) × (run ≤ finished)) }
{
    1 <= run && run <= finished
}

/// Checks that a rebuilt office has finished that many runs. If it hasn't, memory ran out.
fn has_finished(office: &mut Office<Bounded>, runs: u32) -> Result<(), StoreFault>
    ensures all { IsAnew office.old → OnOk result (length (content_of office.new.plain).reports ≡ runs) }
    ensures same { content_of office.new.plain ≡ content_of office.old.plain }
    ensures setup { office.new.plain.setup ≡ office.old.plain.setup }
    ensures fault { IfErr result (λ f. f ≡ fault.NoMemory) }
{
    match office.finished() {
        Ok(finished) if finished == runs => Ok(()),
        _ => Err(StoreFault::NoMemory),
    }
}

/// Delivers the kept mail of a store to a rebuilt office, which finishes its first runs up to this one, and returns
/// whether an office can. If fewer are finished, memory ran out.
fn make_after<K: Keeper>(
    keeper: &mut K,
    office: &mut Office<Bounded>,
    run: u32,
) -> Result<bool, StoreFault>
    ensures made { K.is_trusted keeper.new → IsAnew office.old → IsFront (K.content keeper.old).kept 0 0 (content_of office.old.plain).kept → run ≤ length (K.content keeper.old).reports →
        AreOfSenders office.old.plain.setup (K.content keeper.old).kept → IfOk result (IsMadeAfter office.old.plain.setup (K.content keeper.old) run office.new) }
    ensures looks { ReadsStore K.Keeper keeper.old keeper.new result }
{
    let difference = make_anew(keeper, office, run)?;
    if difference.is_some() {
        return Ok(false);
    }
    has_finished(office, run)?;
    Ok(true)
}

/// A rebuilt office after it took the kept mail of a store and finished its first runs up to this one; none if no
/// office does that.
fn made_after<K: Keeper>(
    keeper: &mut K,
    office: Office<Bounded>,
    run: u32,
) -> Result<Option<Office<Bounded>>, StoreFault>
    ensures after { K.is_trusted keeper.new → IsAnew office → IsFront (K.content keeper.old).kept 0 0 (content_of office.plain).kept → run ≤ length (K.content keeper.old).reports →
        AreOfSenders office.plain.setup (K.content keeper.old).kept → IfOk result (IsMadeUpTo office.plain.setup (K.content keeper.old) run) }
    ensures looks { ReadsStore K.Keeper keeper.old keeper.new result }
{
    let mut office = office;
    if make_after(keeper, &mut office, run)? {
        Ok(Some(office))
    } else {
        Ok(None)
    }
}

/// An office in memory with this setup after it took the kept mail of a store and finished its first runs up to this
/// one; none if no office does so.
fn made_up_to<K: Keeper>(
    alloc: Global,
    setup: &Setup,
    keeper: &mut K,
    run: u32,
) -> Result<Option<Office<Bounded>>, StoreFault>
    ensures made { K.is_trusted keeper.new → run ≤ length (K.content keeper.old).reports → AreOfSenders setup.now (K.content keeper.old).kept → IfOk result (IsMadeUpTo setup.now (K.content keeper.old) run) }
    ensures looks { ReadsStore K.Keeper keeper.old keeper.new result }
{
    let office = new_office(alloc, setup, run)?;
    made_after(keeper, office, run)
}

/// An office in memory as a finished run of a store left it. With the same setup, it took all mail that the store
/// keeps, and finished exactly the runs up to this one. There is none if the run isn't finished, nor if the store isn't
/// what an office with its mail leaves and no office can take that mail and finish that many runs. The store stays.
///
/// It fails only if memory runs out or the store fails.
pub fn office_after<K: Keeper>(
    alloc: Global,
    setup: &Setup,
    keeper: &mut K,
    run: u32,
) -> Result<Option<Office<Bounded>>, StoreFault>
    // An office keeps only mail of senders of its setup.
    ensures after { K.is_trusted keeper.new → AreOfSenders setup.now (K.content keeper.old).kept → IfOk result (IsAfter setup.now (K.content keeper.old) run) }
    ensures same { K.is_trusted keeper.new → K.content keeper.new ≡ K.content keeper.old }
    ensures setup { K.setup keeper.new ≡ K.setup keeper.old }
    ensures before { K.is_trusted keeper.new → K.is_trusted keeper.old }
    ensures legible { K.is_trusted keeper.new → K.is_legible keeper.old → K.is_legible keeper.new }
    ensures lasts { StaysTrusted K.Keeper keeper.old keeper.new (is_ok result) }
    ensures counted { Counted (K.refusals keeper.old) (K.refusals keeper.new) result }
{
    let finished = keeper.finished()?;
    if is_finished(run, finished) {
        made_up_to(alloc, setup, keeper, run)
    } else {
        Ok(None)
    }
}

/// An office in memory as it was before a finished run of a store. With the same setup, it took all mail that the store
/// keeps, and finished exactly the runs before this one. There is none if the run isn't finished, nor if the store
/// isn't what an office with its mail leaves and no office can take that mail and finish that many runs. The store
/// stays as it is.
///
/// It fails only if memory runs out or the store fails.
pub fn office_before<K: Keeper>(
    alloc: Global,
    setup: &Setup,
    keeper: &mut K,
    run: u32,
) -> Result<Option<Office<Bounded>>, StoreFault>
    // An office keeps only mail of senders of its setup.
    ensures earlier { K.is_trusted keeper.new → AreOfSenders setup.now (K.content keeper.old).kept → IfOk result (IsBefore setup.now (K.content keeper.old) run) }
    ensures same { K.is_trusted keeper.new → K.content keeper.new ≡ K.content keeper.old }
    ensures setup { K.setup keeper.new ≡ K.setup keeper.old }
    ensures before { K.is_trusted keeper.new → K.is_trusted keeper.old }
    ensures legible { K.is_trusted keeper.new → K.is_legible keeper.old → K.is_legible keeper.new }
    ensures lasts { StaysTrusted K.Keeper keeper.old keeper.new (is_ok result) }
    ensures counted { Counted (K.refusals keeper.old) (K.refusals keeper.new) result }
{
    let finished = keeper.finished()?;
    if is_finished(run, finished) {
        let earlier = run.saturating_sub(1);
        made_up_to(alloc, setup, keeper, earlier)
    } else {
        Ok(None)
    }
}

/// Why a source is where a run left it, from an office with that as its last finished run. Any other office reports
/// nothing, nor does one without a finished run. So ask the store itself about its last run, and the result of
/// `office_after` about an earlier one.
///
/// It fails only if memory runs out or the store fails.
pub fn why_of_run<K: Keeper>(
    office: &mut Office<K>,
    run: u32,
    source: &str,
) -> Result<Option<WhyText>, StoreFault>
    ensures why { Holds K.Keeper office.old office.new → IfOk result (IsToldOfRun (K.setup office.old) (K.content office.old).kept (state_of K.Keeper office.old).finished run source.now) }
    ensures asks { AsksOffice K.Keeper office.old office.new result }
{
    let finished = office.finished()?;
    if finished == run {
        office.why_text(source)
    } else {
        Ok(None)
    }
}

/// If an office is as a run left it, its report on a source for that run is why the source is where that run left it.
pub fn told_after_run()
    ensures { (setup : Lists) (content : Content) (run : ℕ) (office : Bounded) (source : List ℕ) (why : Option WhyText) → IsAfter setup content run (Some office) →
        IsToldOfRun office.plain.setup (content_of office.plain).kept (length (content_of office.plain).reports) run source why → IsToldAfter setup content.kept run source why }
{}
