//! The facts of a run's covered messages: those of the run before, with further messages from the store.
#![tactic(auto, using(office_core_store::proofs::LastFacts::lasting))]

ghost use Rattle.std.specs.Prelude.{◌≡◌, ◌≢◌, ℕ, ◌<◌, ◌≤◌, [], Some, IsTrue, IfOk, IfSome, OnOk, length, slice_index};
ghost use Rattle.testing_rules_model.specs.FactLists.{no_facts};
ghost use Rattle.testing_rules_model.specs.FactRows.{rows_of};
ghost use Rattle.testing_rules_model.specs.StandsFor.{StandsFor, StandsForNone};
ghost use Rattle.testing_rules_facts.specs.Uploads.{AreByMessage};
ghost use Rattle.testing_rules_model.specs.Suite.{Suite};
ghost use Rattle.office_mail.specs.Runs.{cover_of};
ghost use Rattle.office_store_keeper.specs.Content.{Content};
ghost use Rattle.office_store_keeper.specs.FactSet.{rows_in};
ghost use Rattle.office_core_facts.specs.Known.{AreKnown, AreUnderWay, said_all};
ghost use Rattle.office_core_store.specs.ReadsStore.{ReadsStore};
ghost use Rattle.office_core_facts.specs.steps.Taking.{HavePutBack};
ghost use Rattle.office_core_facts.specs.steps.Walk.{said_within};
ghost use Rattle.office_core_facts.specs.steps.Stands.{AreCovered, AreFound, OfFinished, OfNext, StandUpTo};

use crate::choice::Choice;
use crate::restored::put_back;
use crate::taken::cover_of;
use crate::walk::{Stretch, take_stretch};
use deb_control::NoMemory;
use office_core_orders::orders::make_room;
use office_core_store::{StoreFault, stored};
use office_mail::{RunOrder, Setup};
use office_store_keeper::Keeper;
use std::alloc::Global;
use testing_rules_facts::Facts;
use testing_rules_model::FactRow;

/// Facts of what each sender says up to a number, and these numbers: 0 for a sender that has none.
#[derive(Drop)]
pub struct KnownFacts {
    pub facts: Facts,
    pub taken: Vec<u32>,
}

/// The facts of the messages that these orders cover. They begin with what was known before, or else with what the
/// store keeps, so that each message is taken once and not at each run.
pub fn facts<K: Keeper>(
    alloc: Global,
    setup: &Setup,
    keeper: &mut K,
    before: Option<KnownFacts>,
    orders: &[RunOrder],
) -> Result<KnownFacts, StoreFault>
    requires known { K.is_trusted keeper.old → IfSome before (λ known. AreKnown setup.now (K.content keeper.old) known) }
    ensures taken { IfOk result (λ known. (s : ℕ) → s < length setup.now.senders → slice_index known.taken.items s ≡ cover_of orders.now s) }
    ensures way { K.is_trusted keeper.new → IfOk result (λ known. AreUnderWay setup.now (K.content keeper.old) known.facts) }
    ensures stand { K.is_trusted keeper.new → OfNext setup.now (K.content keeper.old) orders.now
        (IfOk result (λ known. StandUpTo setup.now (K.content keeper.old) (cover_of orders.now) known.facts)) }
    ensures looks { ReadsStore K.Keeper keeper.old keeper.new result }
{
    let mut known = known_before(alloc, setup, keeper, before, orders)?;
    'senders: for sender in 0..setup.senders().len() {
        let cover = cover_of(orders, sender);
        take_on(alloc, setup, keeper, &mut known, sender as u32, cover)?;
    }
    Ok(known)
}

/// What is known of the finished runs: that of the run before, if it goes no further than these orders cover, and else
/// what the store keeps.
fn known_before<K: Keeper>(
    alloc: Global,
    setup: &Setup,
    keeper: &mut K,
    before: Option<KnownFacts>,
    orders: &[RunOrder],
) -> Result<KnownFacts, StoreFault>
    requires known { K.is_trusted keeper.old → IfSome before (λ known. AreKnown setup.now (K.content keeper.old) known) }
    ensures within { IfOk result (λ known. AreCovered orders.now known.taken.items) }
    ensures found { K.is_trusted keeper.new → IfOk result (AreFound setup.now (K.content keeper.old) (OfNext setup.now (K.content keeper.old) orders.now)) }
    ensures looks { ReadsStore K.Keeper keeper.old keeper.new result }
{
    match known_within(before, orders) {
        Some(known) => Ok(known),
        None => begin(alloc, setup, keeper, orders),
    }
}

/// What is known, if it goes no further than these orders cover. That holds from one run to the next, which covers
/// more.
fn known_within(before: Option<KnownFacts>, orders: &[RunOrder]) -> Option<KnownFacts>
    ensures same { IfSome result (λ known. before ≡ Some known) }
    ensures within { IfSome result (λ known. AreCovered orders.now known.taken.items) }
{
    let known = before?;
    if is_covered(&known.taken, orders) {
        Some(known)
    } else {
        drop(known);
        None
    }
}

/// What the store keeps of the finished runs, whose orders are all but the last of these. If its rows aren't what kept
/// mail says, nothing is known.
fn begin<K: Keeper>(
    alloc: Global,
    setup: &Setup,
    keeper: &mut K,
    orders: &[RunOrder],
) -> Result<KnownFacts, StoreFault>
    ensures within { IfOk result (λ known. AreCovered orders.now known.taken.items) }
    ensures found { K.is_trusted keeper.new → IfOk result (AreFound setup.now (K.content keeper.old) (OfNext setup.now (K.content keeper.old) orders.now)) }
    ensures looks { ReadsStore K.Keeper keeper.old keeper.new result }
{
    finished_facts(
        alloc,
        setup,
        keeper,
        &orders[..orders.len().saturating_sub(1)],
    )
}

/// What is known of the finished runs, given their orders: the facts whose rows the store keeps. If these aren't what
/// kept mail says, nothing is known.
pub(crate) fn finished_facts<K: Keeper>(
    alloc: Global,
    setup: &Setup,
    keeper: &mut K,
    orders: &[RunOrder],
) -> Result<KnownFacts, StoreFault>
    ensures within { IfOk result (λ known. AreCovered orders.now known.taken.items) }
    ensures found { K.is_trusted keeper.new → IfOk result (AreFound setup.now (K.content keeper.old) (OfFinished setup.now (K.content keeper.old) orders.now)) }
    ensures looks { ReadsStore K.Keeper keeper.old keeper.new result }
{
    let rows = stored::facts(keeper)?;
    let facts = put_back(alloc, setup, keeper, rows.as_slice())?;
    Ok(known_by(alloc, setup, orders, rows.as_slice(), facts)?)
}

/// What is known from rows of facts that were put back: the facts, if they have all of these rows. Otherwise nothing is
/// known, and all of the rows have left.
fn known_by(
    alloc: Global,
    setup: &Setup,
    orders: &[RunOrder],
    rows: &[FactRow],
    facts: Facts,
) -> Result<KnownFacts, NoMemory>
    ensures within { IfOk result (λ known. AreCovered orders.now known.taken.items) }
    ensures found { IfOk result (λ known. (content : Content) → rows.now ≡ rows_in content.facts → HavePutBack (said_all setup.now content.kept) rows.now no_facts facts
        → AreFound setup.now content (OfFinished setup.now content orders.now) known) }
{
    if has_all(&facts, rows) {
        Ok(known_at(alloc, setup, orders, facts)?)
    } else {
        drop(facts);
        Ok(known_without(alloc, rows)?)
    }
}

/// Facts that are known of the runs of these orders.
pub(crate) fn known_at(
    alloc: Global,
    setup: &Setup,
    orders: &[RunOrder],
    facts: Facts,
) -> Result<KnownFacts, NoMemory>
    ensures same { IfOk result (λ known. known.facts ≡ facts) }
    ensures by_message { IfOk result (λ known. AreByMessage known.facts.uploads) }
    ensures taken { IfOk result (λ known. (s : ℕ) → s < length setup.now.senders → slice_index known.taken.items s ≡ cover_of orders.now s) }
    ensures within { IfOk result (λ known. AreCovered orders.now known.taken.items) }
{
    let _ = facts.uploads();
    match covers(alloc, setup, orders) {
        Ok(taken) => Ok(KnownFacts { facts, taken }),
        Err(fault) => {
            drop(facts);
            Err(fault)
        }
    }
}

/// Whether the facts have as many rows as these.
pub fn has_all(facts: &Facts, rows: &[FactRow]) -> bool
    ensures { IsTrue result → length (rows_of facts.now) ≡ length rows.now }
{
    facts.count() == rows.len() as u128
}

/// The covers of these orders, sender by sender.
pub(crate) fn covers(
    alloc: Global,
    setup: &Setup,
    orders: &[RunOrder],
) -> Result<Vec<u32>, NoMemory>
    ensures covers { IfOk result (λ taken. (s : ℕ) → s < length setup.now.senders → slice_index taken.items s ≡ cover_of orders.now s) }
    ensures within { IfOk result (λ taken. AreCovered orders.now taken.items) }
{
    let mut taken = Vec::new(alloc);
    'senders: for sender in 0..setup.senders().len() {
        taken.push(cover_of(orders, sender))?;
    }
    Ok(taken)
}

/// Nothing is known, and all of these rows have left.
pub fn known_without(alloc: Global, rows: &[FactRow]) -> Result<KnownFacts, NoMemory>
    ensures facts { IfOk result (λ known. known.facts ≡ record no_facts { left = rows.now }) }
    ensures none { IfOk result (λ known. StandsForNone known.facts) }
    ensures by_message { IfOk result (λ known. AreByMessage known.facts.uploads) }
    ensures taken { IfOk result (λ known. known.taken.items ≡ []) }
{
    let facts = Facts::without(alloc, rows)?;
    let _ = facts.uploads();
    Ok(KnownFacts {
        facts,
        taken: Vec::new(alloc),
    })
}

/// Whether none of these numbers is greater than what the orders cover of its sender.
pub(crate) fn is_covered(taken: &[u32], orders: &[RunOrder]) -> bool
    ensures { IsTrue result → AreCovered orders.now taken.now }
{
    'senders: for sender in 0..taken.len() {
        if taken[sender] > cover_of(orders, sender) {
            return false;
        }
    }
    true
}

/// Takes what a sender says on up to its cover.
pub fn take_on<K: Keeper>(
    alloc: Global,
    setup: &Setup,
    keeper: &mut K,
    known: &mut KnownFacts,
    sender: u32,
    cover: u32,
) -> Result<(), StoreFault>
    requires within { slice_index known.old.taken.items sender ≤ cover }
    ensures stand { K.is_trusted keeper.new → OnOk result ((t : Suite) → let kept = (K.content keeper.old).kept in let n = length setup.now.senders in
        sender < n → StandsFor known.old.facts (said_within setup.now kept (slice_index known.old.taken.items) n) t → StandsFor known.new.facts (said_within setup.now kept (slice_index known.new.taken.items) n) t) }
    ensures way { K.is_trusted keeper.new → OnOk result (AreUnderWay setup.now (K.content keeper.old) known.old.facts → AreUnderWay setup.now (K.content keeper.old) known.new.facts) }
    ensures taken { OnOk result (slice_index known.new.taken.items sender ≡ cover) }
    ensures others { (s : ℕ) → s ≢ sender → slice_index known.new.taken.items s ≡ slice_index known.old.taken.items s }
    ensures looks { ReadsStore K.Keeper keeper.old keeper.new result }
{
    make_room(&mut known.taken, sender)?;
    let place = sender as usize;
    let taken = known.taken[place];
    let stretch = Stretch {
        sender,
        done: taken,
        end: cover,
    };
    take_stretch(alloc, setup, keeper, &mut known.facts, stretch, Choice::All)?;
    known.taken[place] = cover;
    Ok(())
}
