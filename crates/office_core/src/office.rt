//! The office: what it accepts, finishes and reports.
#![tactic(auto, using(office_core_store::proofs::LastFacts::lasting))]

ghost use Rattle.std.specs.Prelude.{is_none, is_ok, ◌≡◌, ◌+◌, ◌-◌, ◌≤◌, ◌<◌, ◌∷◌, [], None, IfOk, IfSome, OnOk, length, slice_index};
ghost use Rattle.std.specs.FinMap.{get};
ghost use Rattle.std.specs.Option.{option_map};
ghost use Rattle.testing_rules_laws.specs.Watched.{AllWatchedWork};
ghost use Rattle.office_mail.specs.Kept.{kept_from};
ghost use Rattle.office_mail.specs.Runs.{IsReady, IsReadyCount, latest_day, order_at, orders_to};
ghost use Rattle.office_store_keeper.specs.Content.{IsNextNumber};
ghost use Rattle.office_store_keeper.specs.Provenance.{AreOwnTexts};
ghost use Rattle.office_core_replies.specs.Answered.{CountedDelivery};
ghost use Rattle.office_core.specs.History.{Leads, deliveries, delivery, settling};
ghost use Rattle.office_core.specs.Laws.{RunsStand};
ghost use Rattle.office_core.specs.Preserves.{Asks, AsksOffice, ChangesOffice, Holds, LeavesRuns, Preserves};
ghost use Rattle.office_core.specs.Together.{AreHeldHere, answers_to};
ghost use Rattle.office_core.specs.Unbroken.{AreUnbroken};
ghost use Rattle.office_core_store.specs.StaysTrusted.{StaysTrusted};
ghost use Rattle.office_core_facts.specs.Outcome.{testing_after, testing_text};
ghost use Rattle.office_core_facts.specs.State.{IsSound, KeepsFacts, state_of, answer_to, AnswersDelivery, reports_at};
ghost use Rattle.office_core_orders.specs.Waiting.{Awaits, AwaitsSome};
ghost use Rattle.office_core_breaks.specs.Told.{IsBreaks};
ghost use Rattle.office_core_why.specs.Hints.{IsHintsText};
ghost use Rattle.office_core_why.specs.UnstableText.{IsUnstableText};
ghost use Rattle.office_core_why.specs.Why.{IsWhy};
ghost use Rattle.office_core_outcome.specs.Proposal.{IsProposed};
ghost use Rattle.office_core_outcome.specs.HintTold.{IsHintTold};
ghost use Rattle.office_core_outcome.specs.Trial.{IsTrial, trial_date};

use crate::answers::answer;
use crate::batch::{Reply, keep_texts};
use crate::counts::{count_replies, count_reply};
use crate::delivery::deliver_text;
use crate::runs::settle;
use crate::texts::kept_testing_text;
use crate::unbroken::unbroken_counts;
use deb_control::Text;
use office_core_breaks::{BreaksText, Question, breaks_text};
use office_core_facts::covered::KnownFacts;
use office_core_orders::ready::ready_count;
use office_core_orders::waits::waiting;
use office_core_orders::{Progress, Waiting};
use office_core_outcome::{HintText, Proposal, Trial, TrialOptions, hint_told, propose, try_hints};
use office_core_replies::{DeliverFault, Held};
use office_core_store::{StoreFault, stored};
use office_core_why::{WhyText, hints_text, unstable_text, why_text};
use office_mail::{RunOrder, Setup};
use office_store_keeper::{Keeper, MailText, Reports};
use std::alloc::Global;
use std::marker::Model;

/// An office over a store, which its contracts describe. With it go the number of each sender's numbers known to be
/// kept, the run orders read so far, and the facts of the mail that the last run covered.
#[derive(Drop)]
pub struct Office<K: Keeper> {
    alloc: Global,
    setup: Setup,
    keeper: K,
    counts: Vec<u32>,
    orders: Vec<RunOrder>,
    known: Option<KnownFacts>,
}

impl<K: Keeper> Model for Office<K> {
    ghost use Rattle.std.specs.Prelude.{◌≡◌, IfSome};
    ghost use Rattle.office_core_facts.specs.Known.{AreKnown};
    ghost use Rattle.office_core_orders.specs.steps.Ready.{IsCounted};

    ghost Value = { K };

    ghost view = { λ a. a.keeper };

    ghost invariant = { λ a. (K.setup a.keeper ≡ a.setup)
        × (K.is_trusted a.keeper → IsCounted a.setup (K.content a.keeper) a.counts.items a.orders.items)
        × (K.is_trusted a.keeper → IfSome a.known (λ known. AreKnown a.setup (K.content a.keeper) known)) };
}

impl<K: Keeper> Office<K> {
    /// An office with this setup, over a store that was made for its lists. It allocates nothing.
    pub fn new(alloc: Global, setup: Setup, keeper: K) -> Office<K>
        requires lists { K.setup keeper ≡ setup }
        ensures { result ≡ keeper }
    {
        Office {
            alloc,
            setup,
            keeper,
            counts: Vec::new(alloc),
            orders: Vec::new(alloc),
            known: None,
        }
    }

    /// The store, unchanged.
    pub fn into_keeper(self) -> K
        ensures { result ≡ self }
    {
        let Office {
            alloc: _,
            setup: _,
            keeper,
            counts: _,
            orders: _,
            known,
        } = self;
        drop(known);
        keeper
    }

    /// The setup.
    pub fn setup(&self) -> &Setup
        ensures setup { result.now ≡ K.setup self.now }
        ensures own_texts { IsSound K.Keeper self.now → AreOwnTexts (K.setup self.now) (K.content self.now).kept }
    {
        &self.setup
    }

    /// The allocator that the office was made with.
    pub fn alloc(&self) -> Global {
        self.alloc
    }

    /// The number of finished runs. It fails only if memory runs out or the store fails.
    pub fn finished(&mut self) -> Result<u32, StoreFault>
        ensures finished { Holds K.Keeper self.old self.new → IfOk result (λ n. n ≡ (state_of K.Keeper self.old).finished) }
        ensures ready { Holds K.Keeper self.old self.new → IsReady (K.setup self.old) (K.content self.old).kept (state_of K.Keeper self.old).finished }
        ensures asks { AsksOffice K.Keeper self.old self.new result }
    {
        stored::finished(&mut self.keeper)
    }

    /// Takes a text, and keeps it if it is a message and its sender's number is free. The kept text again has the same
    /// answer and changes nothing.
    ///
    /// Refuses a text that is no message, for the first cause that applies, and with `OtherText` a message if another
    /// text is kept under its sender and number. Neither uses up a number, and nothing changes, also if memory runs out
    /// or the store fails.
    pub fn deliver(&mut self, text: &[u8]) -> Result<Held, DeliverFault>
        // The answer is a function of the text and of what is kept, unless memory ran out or the store failed.
        ensures step { Holds K.Keeper self.old self.new → Leads (K.setup self.old) (K.content self.old) (delivery text.now result ∷ []) (K.content self.new) }
        ensures answer { Holds K.Keeper self.old self.new → AnswersDelivery result (answer_to (K.setup self.old) (K.content self.old).kept text.now) }
        ensures kept { Holds K.Keeper self.old self.new → OnOk result ((K.content self.new).kept ≡ kept_from (K.setup self.old) (K.content self.old).kept (text.now ∷ [])) }
        // No delivery changes testing or a report.
        ensures runs { LeavesRuns K.Keeper self.old self.new result }
        ensures place { IfOk result (λ held. held.sender < length (K.setup self.old).senders) }
        ensures carries { Preserves K.Keeper self.old self.new }
        ensures lasts { StaysTrusted K.Keeper self.old self.new (is_ok result) }
        ensures counted { CountedDelivery (K.refusals self.old) (K.refusals self.new) result }
    {
        let reply = deliver_text(self.alloc, &self.setup, &mut self.keeper, text);
        count_reply(&mut self.counts, &reply);
        reply
    }

    /// What `deliver` would answer to a text now. Nothing is kept.
    pub fn answer(&mut self, text: &[u8]) -> Result<Held, DeliverFault>
        ensures answer { Holds K.Keeper self.old self.new → AnswersDelivery result (answer_to (K.setup self.old) (K.content self.old).kept text.now) }
        ensures place { IfOk result (λ held. held.sender < length (K.setup self.old).senders) }
        ensures asks { Asks K.Keeper self.old self.new }
        ensures lasts { StaysTrusted K.Keeper self.old self.new (is_ok result) }
        ensures counted { CountedDelivery (K.refusals self.old) (K.refusals self.new) result }
    {
        answer(self.alloc, &self.setup, &mut self.keeper, text)
    }

    /// How many texts the store keeps best together.
    pub fn keeps_together(&self) -> usize {
        self.keeper.keeps_together()
    }

    /// Takes texts in order, like `deliver`, keeps them together, and answers each. There is no answer if the store
    /// keeps them best one by one. Nothing changes then, nor if memory runs out or the store fails.
    pub fn deliver_together(&mut self, texts: &[MailText]) -> Result<Option<Vec<Reply>>, StoreFault>
        ensures steps { Holds K.Keeper self.old self.new → IfOk result (λ replies. IfSome replies (λ rs. Leads (K.setup self.old) (K.content self.old) (deliveries texts.now rs.items) (K.content self.new))) }
        ensures answers { Holds K.Keeper self.old self.new → IfOk result (λ replies. IfSome replies (λ rs. rs.items ≡ answers_to (K.setup self.old) (K.content self.old).kept texts.now)) }
        ensures kept { Holds K.Keeper self.old self.new → IfOk result (λ replies. IfSome replies (λ rs. (K.content self.new).kept ≡ kept_from (K.setup self.old) (K.content self.old).kept texts.now)) }
        ensures none { Holds K.Keeper self.old self.new → IfOk result (λ replies. replies ≡ None → K.content self.new ≡ K.content self.old) }
        ensures runs { LeavesRuns K.Keeper self.old self.new result }
        ensures facts { Holds K.Keeper self.old self.new → (K.content self.new).facts ≡ (K.content self.old).facts }
        ensures each { IfOk result (λ replies. IfSome replies (λ rs. length rs.items ≡ length texts.now)) }
        ensures places { IfOk result (λ replies. IfSome replies (λ rs. AreHeldHere (K.setup self.old) rs.items)) }
        ensures changes { ChangesOffice K.Keeper self.old self.new result }
    {
        let replies = keep_texts(self.alloc, &self.setup, &mut self.keeper, texts);
        count_replies(&mut self.counts, &replies);
        replies
    }

    /// Finishes the ready runs, in order. `Ok` means that none is left. It fails only if memory runs out or the store
    /// fails.
    pub fn settle(&mut self) -> Result<Progress, StoreFault>
        ensures steps { Holds K.Keeper self.old self.new → Leads (K.setup self.old) (K.content self.old) (settling (length (K.content self.new).reports - length (K.content self.old).reports) result) (K.content self.new) }
        ensures ready { Holds K.Keeper self.old self.new → IfOk result (λ progress. IsReadyCount (K.setup self.old) (K.content self.old).kept progress.ready) }
        ensures finished { Holds K.Keeper self.old self.new → IfOk result (λ progress. (progress.finished ≡ progress.ready) × ((state_of K.Keeper self.new).finished ≡ progress.ready)) }

        // On a fault some of the ready runs, the first ones, may have finished.
        ensures kept { Holds K.Keeper self.old self.new → (K.content self.new).kept ≡ (K.content self.old).kept }
        ensures grows { Holds K.Keeper self.old self.new → (state_of K.Keeper self.old).finished ≤ (state_of K.Keeper self.new).finished }
        ensures only_ready { Holds K.Keeper self.old self.new → IsReady (K.setup self.old) (K.content self.old).kept (state_of K.Keeper self.new).finished }
        // Finished runs stay, also on a fault: their reports, and testing unless another run finished.
        ensures runs { Holds K.Keeper self.old self.new → RunsStand (K.content self.old) (K.content self.new) }
        // In every state all watched rows of testing are installable.
        ensures watched { Holds K.Keeper self.old self.new → AllWatchedWork (K.setup self.new).archs (testing_after (K.setup self.new) (K.content self.new).kept (state_of K.Keeper self.new).finished).rows }
        // Also on a fault the kept rows of facts represent the cover of the last finished run, with exactly the uploads
        // that count in the testing left by it.
        ensures facts { Holds K.Keeper self.old self.new → KeepsFacts (K.setup self.new) (K.content self.new) }
        ensures changes { ChangesOffice K.Keeper self.old self.new result }
    {
        let finished = settle(
            self.alloc,
            &self.setup,
            &mut self.keeper,
            &mut self.counts,
            &mut self.orders,
            &mut self.known,
        )?;
        Ok(Progress {
            ready: finished,
            finished,
        })
    }

    /// How many runs are ready, and how many are finished. It fails only if memory runs out or the store fails.
    pub fn status(&mut self) -> Result<Progress, StoreFault>
        ensures ready { Holds K.Keeper self.old self.new → IfOk result (λ progress. IsReadyCount (K.setup self.old) (K.content self.old).kept progress.ready) }
        ensures finished { Holds K.Keeper self.old self.new → IfOk result (λ progress. progress.finished ≡ (state_of K.Keeper self.old).finished) }
        ensures asks { AsksOffice K.Keeper self.old self.new result }
    {
        let finished = stored::finished(&mut self.keeper)?;
        let ready = ready_count(
            self.alloc,
            &self.setup,
            &mut self.keeper,
            &mut self.counts,
            finished,
        )?;
        Ok(Progress { ready, finished })
    }

    /// How many runs are ready and finished, and what the first run that isn't ready waits for. It fails only if memory
    /// runs out or the store fails.
    pub fn waiting(&mut self) -> Result<Waiting, StoreFault>
        ensures ready { Holds K.Keeper self.old self.new → IfOk result (λ waiting. IsReadyCount (K.setup self.old) (K.content self.old).kept waiting.progress.ready) }
        ensures finished { Holds K.Keeper self.old self.new → IfOk result (λ waiting. waiting.progress.finished ≡ (state_of K.Keeper self.old).finished) }
        ensures awaited { Holds K.Keeper self.old self.new → IfOk result (λ waiting. Awaits (K.setup self.old) (K.content self.old).kept (waiting.progress.ready + 1) waiting.awaited) }
        // If the order is kept, some sender's mail is missing: a run that waits for nothing is ready.
        ensures some { Holds K.Keeper self.old self.new → IfOk result (λ waiting. AwaitsSome waiting.awaited) }
        ensures asks { AsksOffice K.Keeper self.old self.new result }
    {
        waiting(self.alloc, &self.setup, &mut self.keeper, &mut self.counts)
    }

    /// What the next run makes of the release team's hint of this number, over all kept mail that the run covers. The
    /// text has the lines of its update on the hint, or the hint's state, and the lines on why it is refused. The
    /// result is none exactly if the run's order hasn't come. Nothing is kept, and no run is finished.
    ///
    /// It fails only if memory runs out or the store fails.
    pub fn hint_told(&mut self, number: u32) -> Result<Option<HintText>, StoreFault>
        ensures told { Holds K.Keeper self.old self.new → IfOk result (λ found. IfSome found (IsHintTold (K.setup self.old) (K.content self.old).kept (state_of K.Keeper self.old).finished number)) }
        ensures ordered { Holds K.Keeper self.old self.new
            → IfOk result (λ found. is_none found ≡ is_none (order_at (K.setup self.old) (K.content self.old).kept ((state_of K.Keeper self.old).finished + 1))) }
        ensures asks { AsksOffice K.Keeper self.old self.new result }
    {
        let before = self.known.take();
        hint_told(self.alloc, &self.setup, &mut self.keeper, before, number)
    }

    /// What the next run would decide if these hints were covered too, and what it would decide without them. Nothing
    /// is kept, and no run is finished. It fails only if memory runs out or the store fails.
    pub fn try_hints(&mut self, hints: &[Text], terms: TrialOptions) -> Result<Trial, StoreFault>
        ensures tried { Holds K.Keeper self.old self.new → IfOk result (IsTrial (K.setup self.old) (K.content self.old).kept (state_of K.Keeper self.old).finished terms hints.now) }
        ensures asks { AsksOffice K.Keeper self.old self.new result }
    {
        try_hints(
            self.alloc,
            &self.setup,
            &mut self.keeper,
            &mut self.known,
            hints,
            terms,
        )
    }

    /// `easy` hints that the next run would do if they were covered too: those that free these sources, or all that the
    /// search finds if no source is named. Without a date there is no proposal. An empty list is a proposal too.
    /// Nothing is kept, and no run is finished. It fails only if memory runs out or the store fails.
    pub fn propose(
        &mut self,
        terms: TrialOptions,
        sources: &[Text],
    ) -> Result<Option<Proposal>, StoreFault>
        ensures proposed { Holds K.Keeper self.old self.new → IfOk result (λ proposal. IfSome proposal (IsProposed (K.setup self.old) (K.content self.old).kept (state_of K.Keeper self.old).finished terms sources.now)) }
        ensures dated { Holds K.Keeper self.old self.new
            → IfOk result (λ proposal. is_none proposal ≡ is_none (trial_date (latest_day (orders_to (K.setup self.old) (K.content self.old).kept (state_of K.Keeper self.old).finished)) terms.day)) }
        ensures asks { AsksOffice K.Keeper self.old self.new result }
    {
        propose(
            self.alloc,
            &self.setup,
            &mut self.keeper,
            &mut self.known,
            terms,
            sources,
        )
    }

    /// The text of testing, as the last finished run left it. It fails only if memory runs out or the store fails.
    pub fn testing_text(&mut self) -> Result<Text, StoreFault>
        ensures text { Holds K.Keeper self.old self.new → IfOk result (λ text. text ≡ testing_text (K.setup self.old) (state_of K.Keeper self.old).finished (testing_after (K.setup self.old) (K.content self.old).kept (state_of K.Keeper self.old).finished)) }
        ensures asks { AsksOffice K.Keeper self.old self.new result }
    {
        let finished = stored::finished(&mut self.keeper)?;
        kept_testing_text(self.alloc, &self.setup, &mut self.keeper, finished)
    }

    /// The excuses of a run, none if it isn't finished. It fails only if memory runs out or the store fails.
    pub fn excuses_text(&mut self, run: u32) -> Result<Option<Text>, StoreFault>
        ensures text { Holds K.Keeper self.old self.new → IfOk result (λ text. text ≡ option_map (λ reports. reports.excuses) (reports_at (state_of K.Keeper self.old) run)) }
        ensures asks { AsksOffice K.Keeper self.old self.new result }
    {
        let reports = stored::reports(&mut self.keeper, run)?;
        Ok(excuses_in(reports))
    }

    /// The update of a run, none if it isn't finished. It fails only if memory runs out or the store fails.
    pub fn update_text(&mut self, run: u32) -> Result<Option<Text>, StoreFault>
        ensures text { Holds K.Keeper self.old self.new → IfOk result (λ text. text ≡ option_map (λ reports. reports.updates) (reports_at (state_of K.Keeper self.old) run)) }
        ensures asks { AsksOffice K.Keeper self.old self.new result }
    {
        let reports = stored::reports(&mut self.keeper, run)?;
        Ok(update_in(reports))
    }

    /// The hints in force over all mail without a gap. Each item of a hint has a line, with the number of the hint's
    /// message, whether a finished run covers it, and the state of the item. Nothing is kept. It fails only if memory
    /// runs out or the store fails.
    pub fn hints_text(&mut self) -> Result<Text, StoreFault>
        ensures text { Holds K.Keeper self.old self.new → IfOk result (IsHintsText (K.setup self.old) (K.content self.old).kept (state_of K.Keeper self.old).finished) }
        ensures asks { AsksOffice K.Keeper self.old self.new result }
    {
        hints_text(self.alloc, &self.setup, &mut self.keeper, &mut self.known)
    }

    /// Unstable over all mail without a gap: its sources and its rows, in the lines of the text of testing. Nothing is
    /// kept. It fails only if memory runs out or the store fails.
    pub fn unstable_text(&mut self) -> Result<Text, StoreFault>
        ensures text { Holds K.Keeper self.old self.new → IfOk result (IsUnstableText (K.setup self.old) (K.content self.old).kept (state_of K.Keeper self.old).finished) }
        ensures asks { AsksOffice K.Keeper self.old self.new result }
    {
        unstable_text(self.alloc, &self.setup, &mut self.keeper, &mut self.known)
    }

    /// Why a source is where the last finished run left it, and whether unstable has it; none if no run is finished. It
    /// fails only if memory runs out or the store fails.
    pub fn why_text(&mut self, source: &str) -> Result<Option<WhyText>, StoreFault>
        ensures why { Holds K.Keeper self.old self.new → IfOk result (IsWhy (K.setup self.old) (K.content self.old).kept (state_of K.Keeper self.old).finished source.now) }
        ensures asks { AsksOffice K.Keeper self.old self.new result }
    {
        why_text(
            self.alloc,
            &self.setup,
            &mut self.keeper,
            &mut self.known,
            source,
        )
    }

    /// Which rows a change would break where the last finished run left testing, and whether all that is asked for can
    /// change; none if no run is finished. It fails only if memory runs out or the store fails.
    pub fn breaks_text(&mut self, question: &Question) -> Result<Option<BreaksText>, StoreFault>
        ensures breaks { Holds K.Keeper self.old self.new → IfOk result (IsBreaks (K.setup self.old) (K.content self.old).kept (state_of K.Keeper self.old).finished question.now) }
        ensures asks { AsksOffice K.Keeper self.old self.new result }
    {
        breaks_text(
            self.alloc,
            &self.setup,
            &mut self.keeper,
            &mut self.known,
            question,
        )
    }

    /// Up to which number each sender's mail is kept without a gap, in the setup's order, 0 where number 1 isn't kept.
    /// It fails only if memory runs out or the store fails.
    pub fn unbroken(&mut self) -> Result<Vec<u32>, StoreFault>
        ensures unbroken { Holds K.Keeper self.old self.new → IfOk result (λ unbroken. AreUnbroken (K.content self.old).kept (slice_index unbroken.items)) }
        ensures asks { AsksOffice K.Keeper self.old self.new result }
    {
        unbroken_counts(self.alloc, &self.setup, &mut self.keeper, &mut self.counts)
    }

    /// The least kept number of a sender from `from` on, or none. `sender` is its place in the setup. It fails only if
    /// memory runs out or the store fails.
    pub fn next_number(&mut self, sender: u32, from: u32) -> Result<Option<u32>, StoreFault>
        ensures next { K.is_trusted self.new → IfOk result (λ number. IsNextNumber (K.content self.old).kept sender from number) }
        ensures asks { AsksOffice K.Keeper self.old self.new result }
    {
        stored::next_number(&mut self.keeper, sender, from)
    }

    /// The kept text of a sender's number, or none. `sender` is its place in the setup. It fails only if memory runs
    /// out or the store fails.
    pub fn kept_text(&mut self, sender: u32, number: u32) -> Result<Option<MailText>, StoreFault>
        ensures text { K.is_trusted self.new → IfOk result (λ text. text ≡ get (K.content self.old).kept (sender, number)) }
        ensures asks { AsksOffice K.Keeper self.old self.new result }
    {
        stored::find(&mut self.keeper, sender, number)
    }
}

/// The excuses of two reports.
fn excuses_in(reports: Option<Reports>) -> Option<Text>
    ensures { result ≡ option_map (λ reports. reports.excuses) reports }
{
    match reports {
        Some(reports) => Some(reports.excuses),
        None => None,
    }
}

/// The update of two reports.
fn update_in(reports: Option<Reports>) -> Option<Text>
    ensures { result ≡ option_map (λ reports. reports.updates) reports }
{
    match reports {
        Some(reports) => Some(reports.updates),
        None => None,
    }
}
