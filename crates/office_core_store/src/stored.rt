//! Calls of a store, with its faults in the office's words.
#![tactic(auto, using(crate::proofs::LastFacts::lasting))]

ghost use Rattle.std.specs.Prelude.{is_ok, ◌≡◌, ◌+◌, ◌<◌, ◌≤◌, ◌++◌, ◌∷◌, [], None, IfOk, OnOk, OnErr, length};
ghost use Rattle.std.specs.FinMap.{get, insert};
ghost use Rattle.office_store_keeper.specs.Content.{with_text, with_run, reports_in, item_from_one, letters_within, IsNextNumber};
ghost use Rattle.office_store_keeper.specs.FactSet.{AreHoldable, facts_after, rows_in};
ghost use Rattle.office_store_keeper.specs.Provenance.{IsGiven, KnowsArchs};
ghost use Rattle.office_core_store.specs.Counted.{Counted};
ghost use Rattle.office_core_store.specs.StaysTrusted.{StaysTrusted};
ghost use Rattle.office_core_store.specs.ReadsStore.{ReadsStore};

use crate::faults::StoreFault;
use office_store_keeper::{Finished, Keeper, Letter, MailText, Reports};
use testing_rules_model::FactRows;
use testing_rules_suites::Testing;

/// The most numbers of a sender that are loaded at once. That many texts of the greatest size need 17 MB.
pub const BLOCK: u32 = 256;

/// The end of a block of `size` numbers after a number, at most the last one.
pub fn block_end(number: u32, size: u32, last: u32) -> u32
    requires some { 0 < size }
    requires ahead { number < last }
    ensures on { number < result }
    ensures size { result ≤ number + size }
    ensures within { result ≤ last }
{
    if last - number > size {
        number + size
    } else {
        last
    }
}

/// The kept text, or none.
pub fn find<K: Keeper>(
    keeper: &mut K,
    sender: u32,
    number: u32,
) -> Result<Option<MailText>, StoreFault>
    ensures found { K.is_trusted keeper.new → IfOk result (λ text. text ≡ get (K.content keeper.old).kept (sender, number)) }
    ensures looks { ReadsStore K.Keeper keeper.old keeper.new result }
{
    Ok(keeper.find(sender, number)?)
}

/// The kept numbers of a sender from one to another with their texts, by number: at most a block of them.
pub fn load<K: Keeper>(
    keeper: &mut K,
    sender: u32,
    from: u32,
    to: u32,
) -> Result<Vec<Letter>, StoreFault>
    requires block { to < from + 256 }
    ensures loaded { K.is_trusted keeper.new → IfOk result (λ letters. letters.items ≡ letters_within (K.content keeper.old).kept sender from to) }
    ensures looks { ReadsStore K.Keeper keeper.old keeper.new result }
{
    Ok(keeper.load(sender, from, to)?)
}

/// The least kept number of a sender from one number on, or none.
pub fn next_number<K: Keeper>(
    keeper: &mut K,
    sender: u32,
    from: u32,
) -> Result<Option<u32>, StoreFault>
    ensures next { K.is_trusted keeper.new → IfOk result (λ number. IsNextNumber (K.content keeper.old).kept sender from number) }
    ensures looks { ReadsStore K.Keeper keeper.old keeper.new result }
{
    Ok(keeper.next_number(sender, from)?)
}

/// Keeps a text under a free number.
pub fn keep<K: Keeper>(
    keeper: &mut K,
    sender: u32,
    number: u32,
    text: &MailText,
) -> Result<(), StoreFault>
    requires free { K.is_trusted keeper.old → get (K.content keeper.old).kept (sender, number) ≡ None }
    ensures kept { K.is_trusted keeper.new → K.is_legible keeper.old → OnOk result (K.content keeper.new ≡ with_text (K.content keeper.old) sender number text.now) }
    ensures mail { K.is_trusted keeper.new → OnOk result ((K.content keeper.new).kept ≡ insert (K.content keeper.old).kept (sender, number) text.now) }
    ensures reports { K.is_trusted keeper.new → (K.content keeper.new).reports ≡ (K.content keeper.old).reports }
    ensures facts { K.is_trusted keeper.new → (K.content keeper.new).facts ≡ (K.content keeper.old).facts }
    ensures err { K.is_trusted keeper.new → OnErr result (K.content keeper.new ≡ K.content keeper.old) }
    ensures setup { K.setup keeper.new ≡ K.setup keeper.old }
    ensures before { K.is_trusted keeper.new → K.is_trusted keeper.old }
    ensures legible { K.is_trusted keeper.new → K.is_legible keeper.old → K.is_legible keeper.new }
    ensures lasts { StaysTrusted K.Keeper keeper.old keeper.new (is_ok result) }
    ensures counted { Counted (K.refusals keeper.old) (K.refusals keeper.new) result }
{
    keeper.keep(sender, number, text)?;
    Ok(())
}

/// How many runs are finished.
pub fn finished<K: Keeper>(keeper: &mut K) -> Result<u32, StoreFault>
    ensures value { K.is_trusted keeper.new → IfOk result (λ n. n ≡ length (K.content keeper.old).reports) }
    ensures looks { ReadsStore K.Keeper keeper.old keeper.new result }
{
    Ok(keeper.finished()?)
}

/// Makes the next run finished, and changes the rows of facts as it says.
pub fn finish<K: Keeper>(keeper: &mut K, run: u32, done: Finished) -> Result<(), StoreFault>
    requires next { K.is_trusted keeper.old → run ≡ length (K.content keeper.old).reports + 1 }
    requires known { K.is_trusted keeper.old → KnowsArchs (K.setup keeper.old).archs done.testing.rows }
    ensures done { K.is_trusted keeper.new → K.is_legible keeper.old → IsGiven (K.setup keeper.old) (K.content keeper.old) done.testing → AreHoldable (K.setup keeper.old) (facts_after done.facts (K.content keeper.old).facts) → OnOk result (K.content keeper.new ≡ with_run (K.content keeper.old) done) }
    ensures mail { K.is_trusted keeper.new → (K.content keeper.new).kept ≡ (K.content keeper.old).kept }
    ensures reports { K.is_trusted keeper.new → OnOk result ((K.content keeper.new).reports ≡ (K.content keeper.old).reports ++ reports_in done ∷ []) }
    ensures facts { K.is_trusted keeper.new → AreHoldable (K.setup keeper.old) (facts_after done.facts (K.content keeper.old).facts) → OnOk result ((K.content keeper.new).facts ≡ facts_after done.facts (K.content keeper.old).facts) }
    ensures err { K.is_trusted keeper.new → OnErr result (K.content keeper.new ≡ K.content keeper.old) }
    ensures setup { K.setup keeper.new ≡ K.setup keeper.old }
    ensures before { K.is_trusted keeper.new → K.is_trusted keeper.old }
    ensures legible { K.is_trusted keeper.new → K.is_legible keeper.old → IsGiven (K.setup keeper.old) (K.content keeper.old) done.testing → AreHoldable (K.setup keeper.old) (facts_after done.facts (K.content keeper.old).facts) → K.is_legible keeper.new }
    ensures lasts { StaysTrusted K.Keeper keeper.old keeper.new (is_ok result) }
    ensures counted { Counted (K.refusals keeper.old) (K.refusals keeper.new) result }
{
    keeper.take_finished(run, done)?;
    Ok(())
}

/// The two reports of a finished run; none of another.
pub fn reports<K: Keeper>(keeper: &mut K, run: u32) -> Result<Option<Reports>, StoreFault>
    ensures value { K.is_trusted keeper.new → IfOk result (λ reports. reports ≡ item_from_one run (K.content keeper.old).reports) }
    ensures looks { ReadsStore K.Keeper keeper.old keeper.new result }
{
    Ok(keeper.reports(run)?)
}

/// Testing as the last finished run left it, with what speeds the next run.
pub fn next_testing<K: Keeper>(keeper: &mut K) -> Result<Testing, StoreFault>
    ensures value { K.is_trusted keeper.new → K.is_legible keeper.new → IfOk result (λ testing. testing ≡ (K.content keeper.old).testing) }
    ensures archs { IfOk result (λ testing. KnowsArchs (K.setup keeper.new).archs testing.rows) }
    ensures looks { ReadsStore K.Keeper keeper.old keeper.new result }
{
    Ok(keeper.next_testing()?)
}

/// The rows of the facts of the mail that the finished runs cover.
pub fn facts<K: Keeper>(keeper: &mut K) -> Result<FactRows, StoreFault>
    ensures value { K.is_trusted keeper.new → IfOk result (λ rows. rows ≡ rows_in (K.content keeper.old).facts) }
    ensures looks { ReadsStore K.Keeper keeper.old keeper.new result }
{
    Ok(keeper.facts()?)
}
