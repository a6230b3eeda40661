//! What a store of the office does.
ghost use Rattle.std.specs.Prelude.{◌≡◌, ◌≤◌, ◌+◌, ◌↔◌, ◌++◌, ◌∷◌, [], ℕ, None, length, if◌then◌else◌, IsTrue, IfOk, OnOk, OnErr};
ghost use Rattle.std.specs.FinMap.{get, insert, len};
ghost use Rattle.office_mail.specs.Lists.{Lists};
ghost use Rattle.office_store_keeper.specs.Content.{Content, reports_in, with_text, with_run, item_from_one, letters_within, IsNextNumber};
ghost use Rattle.office_store_keeper.specs.FactSet.{AreHoldable, facts_after, rows_in};
ghost use Rattle.office_store_keeper.specs.Provenance.{IsGiven, KnowsArchs};
ghost use Rattle.office_store_keeper.specs.Keeping.{Keeps, OnlyReads};
ghost use Rattle.office_store_keeper.specs.NewMail.{AreFree, with_letters, with_mail};

use crate::faults::KeepFault;
use crate::values::{Finished, Letter, MailText, NewLetter, Reports};
use testing_rules_model::FactRows;
use testing_rules_suites::Testing;

/// A store of the office: kept mail, the reports of finished runs, testing, and the rows of its facts. The effect of
/// its calls is known while `is_trusted` holds: no other program writes the store, it is read back as it was written,
/// and no fault has closed it. A call reports a fault of the store only if the store's count of refusals rises.
pub trait Keeper {
    // No other program writes the store, and it is read back as it was written.
    ghost is_clean: { Self → Type 0 };

    // The same, and no fault has closed the store.
    ghost is_trusted: { Self → Type 0 };

    // The lists of the setup that the store was made for.
    ghost setup: { Self → Lists };

    // The kept content. It is known only for a trusted store.
    ghost content: { Self → Content };

    // The kept content is what an office writes.
    ghost is_legible: { Self → Type 0 };

    // How often the store refused. The count saturates.
    ghost refusals: { Self → ℕ };

    // How often the disk failed. The count saturates.
    ghost disk_faults: { Self → ℕ };

    /// The kept text, or none.
    fn find(&mut self, sender: u32, number: u32) -> Result<Option<MailText>, KeepFault>
        ensures found { is_trusted self.new → IfOk result (λ text. text ≡ get (content self.old).kept (sender, number)) }
        ensures reads { OnlyReads is_clean is_trusted is_legible setup content refusals disk_faults self.old self.new result };

    /// Keeps a text under a free number. A store in memory shares its bytes, if possible.
    fn keep(&mut self, sender: u32, number: u32, text: &MailText) -> Result<(), KeepFault>
        requires free { is_trusted self.old → get (content self.old).kept (sender, number) ≡ None }
        ensures kept { is_trusted self.new → is_legible self.old → OnOk result (content self.new ≡ with_text (content self.old) sender number text.now) }
        ensures mail { is_trusted self.new → OnOk result ((content self.new).kept ≡ insert (content self.old).kept (sender, number) text.now) }
        ensures reports { is_trusted self.new → (content self.new).reports ≡ (content self.old).reports }
        ensures facts { is_trusted self.new → (content self.new).facts ≡ (content self.old).facts }
        ensures err { is_trusted self.new → OnErr result (content self.new ≡ content self.old) }
        ensures legible { is_trusted self.new → is_legible self.old → is_legible self.new }
        ensures keeps { Keeps is_clean is_trusted is_legible setup content refusals disk_faults self.old self.new result };

    /// The best number of texts to keep together.
    fn keeps_together(&self) -> usize {
        1
    }

    /// Keeps these texts under free numbers, all or none, and says whether it did. A store that works best with single
    /// texts keeps none.
    fn keep_all(&mut self, letters: &[NewLetter]) -> Result<bool, KeepFault>
        requires free { is_trusted self.old → AreFree (content self.old).kept letters.now }
        ensures kept { is_trusted self.new → is_legible self.old → IfOk result (λ all. content self.new ≡ (if all then with_mail (content self.old) letters.now else content self.old)) }
        ensures mail { is_trusted self.new → IfOk result (λ all. (content self.new).kept ≡ (if all then with_letters (content self.old).kept letters.now else (content self.old).kept)) }
        ensures reports { is_trusted self.new → (content self.new).reports ≡ (content self.old).reports }
        ensures facts { is_trusted self.new → (content self.new).facts ≡ (content self.old).facts }
        ensures err { is_trusted self.new → OnErr result (content self.new ≡ content self.old) }
        ensures legible { is_trusted self.new → is_legible self.old → is_legible self.new }
        ensures keeps { Keeps is_clean is_trusted is_legible setup content refusals disk_faults self.old self.new result }
    {
        Ok(false)
    }

    /// The number of finished runs.
    fn finished(&mut self) -> Result<u32, KeepFault>
        ensures value { is_trusted self.new → IfOk result (λ n. n ≡ length (content self.old).reports) }
        ensures reads { OnlyReads is_clean is_trusted is_legible setup content refusals disk_faults self.old self.new result };

    /// The kept numbers of a sender from `from` to `to` with their texts, by number; none where `from` is above `to`.
    fn load(&mut self, sender: u32, from: u32, to: u32) -> Result<Vec<Letter>, KeepFault>
        ensures loaded { is_trusted self.new → IfOk result (λ letters. letters.items ≡ letters_within (content self.old).kept sender from to) }
        ensures reads { OnlyReads is_clean is_trusted is_legible setup content refusals disk_faults self.old self.new result };

    /// The least kept number of a sender from `from` on, or none.
    fn next_number(&mut self, sender: u32, from: u32) -> Result<Option<u32>, KeepFault>
        ensures next { is_trusted self.new → IfOk result (λ number. IsNextNumber (content self.old).kept sender from number) }
        ensures reads { OnlyReads is_clean is_trusted is_legible setup content refusals disk_faults self.old self.new result };

    /// Finishes the next run, with its reports, its testing and the changes to the rows of facts, all at once. Testing
    /// is kept as given if a kept message gives each entry that the kept one hasn't; the rows of facts are kept if a
    /// store has a place for them.
    fn finish(&mut self, run: u32, done: &Finished) -> Result<(), KeepFault>
        requires next { is_trusted self.old → run ≡ length (content self.old).reports + 1 }
        requires known { is_trusted self.old → KnowsArchs (setup self.old).archs done.now.testing.rows }
        ensures done { is_trusted self.new → is_legible self.old → IsGiven (setup self.old) (content self.old) done.now.testing → AreHoldable (setup self.old) (facts_after done.now.facts (content self.old).facts) → OnOk result (content self.new ≡ with_run (content self.old) done.now) }
        ensures mail { is_trusted self.new → (content self.new).kept ≡ (content self.old).kept }
        ensures reports { is_trusted self.new → OnOk result ((content self.new).reports ≡ (content self.old).reports ++ reports_in done.now ∷ []) }
        ensures facts { is_trusted self.new → AreHoldable (setup self.old) (facts_after done.now.facts (content self.old).facts) → OnOk result ((content self.new).facts ≡ facts_after done.now.facts (content self.old).facts) }
        ensures err { is_trusted self.new → OnErr result (content self.new ≡ content self.old) }
        ensures legible { is_trusted self.new → is_legible self.old → IsGiven (setup self.old) (content self.old) done.now.testing → AreHoldable (setup self.old) (facts_after done.now.facts (content self.old).facts) → is_legible self.new }
        ensures keeps { Keeps is_clean is_trusted is_legible setup content refusals disk_faults self.old self.new result };

    /// The two reports of a finished run, or none for another run.
    fn reports(&mut self, run: u32) -> Result<Option<Reports>, KeepFault>
        ensures value { is_trusted self.new → IfOk result (λ reports. reports ≡ item_from_one run (content self.old).reports) }
        ensures reads { OnlyReads is_clean is_trusted is_legible setup content refusals disk_faults self.old self.new result };

    /// The testing suite after the last finished run. Even in an untrusted store it has only architectures of the setup
    /// and `all`.
    fn testing(&mut self) -> Result<Testing, KeepFault>
        ensures value { is_trusted self.new → IfOk result (λ testing. testing ≡ (content self.old).testing) }
        ensures archs { IfOk result (λ testing. KnowsArchs (setup self.new).archs testing.rows) }
        ensures reads { OnlyReads is_clean is_trusted is_legible setup content refusals disk_faults self.old self.new result };

    /// The rows of the facts in the mail covered by the finished runs, by kind, sender, number and place.
    fn facts(&mut self) -> Result<FactRows, KeepFault>
        ensures value { is_trusted self.new → IfOk result (λ rows. rows ≡ rows_in (content self.old).facts) }
        ensures reads { OnlyReads is_clean is_trusted is_legible setup content refusals disk_faults self.old self.new result };

    /// Whether the content is what an office writes, with this many kept texts. If more are named than are kept, the
    /// answer means nothing.
    fn is_whole(&mut self, texts: u64) -> Result<bool, KeepFault>
        ensures whole { is_trusted self.new → texts ≤ len (content self.old).kept → IfOk result (λ whole. IsTrue whole ↔ (is_legible self.new × (len (content self.old).kept ≡ texts))) }
        ensures reads { OnlyReads is_clean is_trusted is_legible setup content refusals disk_faults self.old self.new result };

    /// Finishes the next run like `finish`, taking its result by value. A store that only needs the value itself copies
    /// nothing.
    fn take_finished(&mut self, run: u32, done: Finished) -> Result<(), KeepFault>
        requires next { is_trusted self.old → run ≡ length (content self.old).reports + 1 }
        requires known { is_trusted self.old → KnowsArchs (setup self.old).archs done.testing.rows }
        ensures done { is_trusted self.new → is_legible self.old → IsGiven (setup self.old) (content self.old) done.testing → AreHoldable (setup self.old) (facts_after done.facts (content self.old).facts) → OnOk result (content self.new ≡ with_run (content self.old) done) }
        ensures mail { is_trusted self.new → (content self.new).kept ≡ (content self.old).kept }
        ensures reports { is_trusted self.new → OnOk result ((content self.new).reports ≡ (content self.old).reports ++ reports_in done ∷ []) }
        ensures facts { is_trusted self.new → AreHoldable (setup self.old) (facts_after done.facts (content self.old).facts) → OnOk result ((content self.new).facts ≡ facts_after done.facts (content self.old).facts) }
        ensures err { is_trusted self.new → OnErr result (content self.new ≡ content self.old) }
        ensures legible { is_trusted self.new → is_legible self.old → IsGiven (setup self.old) (content self.old) done.testing → AreHoldable (setup self.old) (facts_after done.facts (content self.old).facts) → is_legible self.new }
        ensures keeps { Keeps is_clean is_trusted is_legible setup content refusals disk_faults self.old self.new result }
    {
        let finished = self.finish(run, &done);
        drop(done);
        finished
    }

    /// The testing suite for the next run, like `testing`: a store that keeps what speeds up that run passes it on too.
    fn next_testing(&mut self) -> Result<Testing, KeepFault>
        ensures value { is_trusted self.new → is_legible self.new → IfOk result (λ testing. testing ≡ (content self.old).testing) }
        ensures archs { IfOk result (λ testing. KnowsArchs (setup self.new).archs testing.rows) }
        ensures reads { OnlyReads is_clean is_trusted is_legible setup content refusals disk_faults self.old self.new result }
    {
        self.testing()
    }

    /// Takes back a testing from `next_testing` that no run changed: a store that keeps what speeds up the next run has
    /// it again. Nothing else changes.
    fn give_back(&mut self, testing: Testing)
        requires same { is_trusted self.old → is_legible self.old → testing ≡ (content self.old).testing }
        ensures same { is_trusted self.new → content self.new ≡ content self.old }
        ensures setup { setup self.new ≡ setup self.old }
        ensures clean { is_clean self.new → is_clean self.old }
        ensures faults { disk_faults self.new ≡ disk_faults self.old }
        ensures before { is_trusted self.new → is_trusted self.old }
        ensures stays { is_trusted self.old → is_trusted self.new }
        ensures legible { is_trusted self.new → is_legible self.old → is_legible self.new }
        ensures counted { refusals self.new ≡ refusals self.old }
    {
        drop(testing);
    }
}
