//! Facts: what a run needs to know about the covered messages.

ghost use Rattle.std.specs.Prelude.{◌≡◌, ◌==◌, ◌∷◌, ℕ, [], Some, Contains, IfOk, OnOk, OnErr, find, length, ◌≤◌, vec_len, vec_capacity};
ghost use Rattle.testing_rules_model.specs.Boxed.{unboxed};
ghost use Rattle.testing_rules_model.specs.Covered.{Covered, CoveredItem, upload_of, drop_of, bug_of, hint_of, unhint_of, delays_of, builds_of};
ghost use Rattle.testing_rules_facts.specs.steps.Entries.{entry_of, with_entry, noted};
ghost use Rattle.testing_rules_facts.specs.Restored.{said, put_given, last_given, restored};
ghost use Rattle.testing_rules_facts.specs.steps.ElementShifts.{shift_builds};
ghost use Rattle.testing_rules_fact_order.specs.Uploads.{AreByMessage, with_kept};
ghost use Rattle.testing_rules_fact_order.specs.declared.entry.FactUpdate.TheVariants.{Upload, Dropped, Bug, Hint as AHint, Unhint, Delays};
ghost use Rattle.testing_rules_model.specs.FactDifference.{IsChangedFrom, IsDifference};
ghost use Rattle.testing_rules_model.specs.KeptFacts.{trimmed};
ghost use Rattle.testing_rules_model.specs.declared.fact_row.FactRow.{FactRow as ARow};
ghost use Rattle.testing_rules_model.specs.FactOrder.{AreBySource, AreByPair};
ghost use Rattle.testing_rules_model.specs.FactLists.{no_facts};
ghost use Rattle.testing_rules_model.specs.FactRows.{rows_of, times};
ghost use Rattle.testing_rules_model.specs.StandsFor.{StandsFor};
ghost use Rattle.testing_rules_model.specs.Suite.{Suite};
ghost use Rattle.testing_rules_model.specs.Tells.{Tells};
ghost use Rattle.testing_rules_model.specs.WithMessage.{with_upload, with_build, with_builds, with_greatest, with_bug, with_hint, with_unhint};
ghost use Rattle.testing_rules_model.specs.steps.WithMessage.{stands_beside};
ghost use Rattle.testing_rules_model.specs.declared.facts.UploadIn.{UploadIn as AnUpload};

use crate::build_blocks::BuildBlocks;
use crate::copies::{copy_all, copy_boxed, copy_log, copy_said};
use crate::shared_clauses::LastClauses;
use crate::shifts::{hint_left, last_row, unhint_left};
use crate::taken::{put_bug, put_drop, put_hint, put_kept, put_unhint, put_upload};
use deb_version::NoMemory;
use std::alloc::Global;
use std::marker::Model;
use testing_rules_fact_order::{
    FactUpdate, Log, Sent, Shifted, changes, entry_of, hint_row, later_delays, said_bug,
    said_build, said_delays, said_drop, said_hint, said_unhint, said_upload, trim_uploads,
    unhint_row,
};
use testing_rules_items::{Hint, Item};
use testing_rules_model::{
    BugIn, BuildIn, DelaysIn, DropIn, FactChanges, FactKind, FactRow, HasSources, HintIn, UnhintIn,
    UploadIn,
};

/// The facts of a set of messages.
pub struct Facts {
    alloc: Global,
    sources: Vec<Box<UploadIn>>,
    uploads: Vec<UploadIn>,
    rows: BuildBlocks,
    drops: Vec<Box<DropIn>>,
    bugs: Vec<Box<BugIn>>,
    hints: Vec<HintIn>,
    unhints: Vec<UnhintIn>,
    delays: Option<DelaysIn>,
    log: Log,
    clauses: LastClauses,
}

impl Drop for Facts {
    fn drop(self) {
        let Facts {
            alloc: _,
            sources: _,
            uploads: _,
            rows: _,
            drops: _,
            bugs: _,
            hints: _,
            unhints: _,
            delays: _,
            log: _,
            clauses: _,
        } = self;
    }
}

impl Model for Facts {
    ghost use Rattle.testing_rules_fact_order.specs.Uploads.{AreByMessage};
    ghost use Rattle.testing_rules_facts.specs.steps.HintOrder.{AreHintsByNumber, AreUnhintsByNumber};
    ghost use Rattle.testing_rules_model.specs.Boxed.{unboxed};
    ghost use Rattle.testing_rules_model.specs.FactLists.{FactLists};
    ghost use Rattle.testing_rules_model.specs.steps.FactOrder.{IsFactOrder};
    ghost use Rattle.std.specs.Prelude.{◌+◌, ◌≤◌, vec_len, vec_capacity};

    ghost Value = { FactLists };

    ghost view = { λ a. record {
      sources = unboxed a.sources.items;
      uploads = a.uploads.items;
      rows = a.rows;
      drops = unboxed a.drops.items;
      bugs = unboxed a.bugs.items;
      hints = a.hints.items;
      unhints = a.unhints.items;
      delays = a.delays;
      came = a.log.came.items;
      left = a.log.left.items;
    } };

    ghost invariant = { λ a. IsFactOrder (unboxed a.sources.items) a.rows (unboxed a.drops.items) (unboxed a.bugs.items)
        × (vec_len a.log.left + vec_len a.uploads ≤ vec_capacity a.log.left)
        × AreByMessage a.uploads.items
        × AreHintsByNumber a.hints.items
        × AreUnhintsByNumber a.unhints.items };
}

/// An upload for the sources, and an equal one for the uploads.
#[derive(Drop)]
struct SourceAndUpload {
    source: Box<UploadIn>,
    kept: UploadIn,
}

/// The upload, and a copy of it.
fn copied_upload(alloc: Global, upload: UploadIn) -> Result<SourceAndUpload, NoMemory>
    ensures source { IfOk result (λ two. two.source.value ≡ upload) }
    ensures kept { IfOk result (λ two. two.kept ≡ upload) }
{
    let kept = upload.copy(alloc)?;
    let source = Box::new(alloc, upload)?;
    Ok(SourceAndUpload { source, kept })
}

impl Facts {
    ghost use Rattle.testing_rules_model.specs.StandsFor.{StandsForNone};

    /// The facts of no message.
    pub fn new(alloc: Global) -> Facts
        ensures is { result ≡ no_facts }
        ensures none { StandsForNone result }
    {
        Facts::of_log(alloc, Log::new(alloc))
    }

    /// The facts of no message, noting that all of these rows have left. NoMemory if memory runs out.
    pub fn without(alloc: Global, rows: &[FactRow]) -> Result<Facts, NoMemory>
        ensures is { IfOk result (λ f. f ≡ record no_facts { left = rows.now }) }
        ensures none { IfOk result (λ f. StandsForNone f) }
        ensures tells { IfOk result (λ f. Tells f []) }
        ensures changed { IfOk result (λ f. IsChangedFrom (λ r. times r rows.now) f) }
    {
        Ok(Facts::of_log(alloc, Log::of_left(alloc, rows)?))
    }

    /// The facts of no message, with this log of rows that came and left.
    fn of_log(alloc: Global, log: Log) -> Facts
        requires room { vec_len log.left ≤ vec_capacity log.left }
        ensures { result ≡ record no_facts { came = log.came.items; left = log.left.items } }
    {
        Facts {
            alloc,
            sources: Vec::new(alloc),
            uploads: Vec::new(alloc),
            rows: BuildBlocks::new(alloc),
            drops: Vec::new(alloc),
            bugs: Vec::new(alloc),
            hints: Vec::new(alloc),
            unhints: Vec::new(alloc),
            delays: None,
            log,
            clauses: LastClauses::new(alloc),
        }
    }

    /// Equal facts, sharing their binaries with these. NoMemory if memory runs out.
    pub fn copy(&self) -> Result<Facts, NoMemory>
        ensures { IfOk result (λ f. f ≡ self.now) }
    {
        let sources = copy_boxed(self.alloc, &self.sources)?;
        let uploads = copy_all(self.alloc, &self.uploads)?;
        let rows = self.rows.copy(self.alloc)?;
        let log = copy_log(self.alloc, &self.log, self.uploads.len())?;
        let said = copy_said(
            self.alloc,
            &self.drops,
            &self.bugs,
            &self.hints,
            &self.unhints,
        )?;
        Ok(Facts {
            alloc: self.alloc,
            sources,
            uploads,
            rows,
            drops: said.drops,
            bugs: said.bugs,
            hints: said.hints,
            unhints: said.unhints,
            delays: self.delays,
            log,
            clauses: LastClauses::new(self.alloc),
        })
    }

    /// Unstable's sources, by name.
    pub fn sources(&self) -> &[Box<UploadIn>]
        ensures sources { unboxed result.now ≡ self.now.sources }
        ensures ordered { AreBySource (unboxed result.now) }
    {
        self.sources.as_slice()
    }

    /// The uploads, including all that count, by sender and number, each once.
    pub fn uploads(&self) -> &[UploadIn]
        ensures uploads { result.now ≡ self.now.uploads }
        ensures ordered { AreByMessage result.now }
    {
        self.uploads.as_slice()
    }

    /// Unstable's rows, by architecture and name.
    pub fn rows(&self) -> &BuildBlocks
        ensures rows { result.now ≡ self.now.rows }
        ensures ordered { AreByPair result.now }
    {
        &self.rows
    }

    /// The states of the bugs, by bug number.
    pub fn bugs(&self) -> &[Box<BugIn>]
        ensures { unboxed result.now ≡ self.now.bugs }
    {
        self.bugs.as_slice()
    }

    /// The hints, by number.
    pub fn hints(&self) -> &[HintIn]
        ensures { result.now ≡ self.now.hints }
    {
        self.hints.as_slice()
    }

    /// The unhints, by number.
    pub fn unhints(&self) -> &[UnhintIn]
        ensures { result.now ≡ self.now.unhints }
    {
        self.unhints.as_slice()
    }

    /// The last message on delays.
    pub fn delays(&self) -> Option<DelaysIn>
        ensures { result ≡ self.now.delays }
    {
        self.delays
    }

    /// The number of rows of the facts. A `usize` might be too small for all lists together.
    pub fn count(&self) -> u128
        ensures { result ≡ length (rows_of self.now) }
    {
        let stand = self.sources.len() as u128 + self.uploads.len() as u128 + self.rows.count();
        let said = self.drops.len() as u128 + self.bugs.len() as u128;
        let asked = self.hints.len() as u128 + self.unhints.len() as u128;
        let last = if self.delays.is_some() { 1 } else { 0 };
        stand + said + asked + last
    }

    /// How the rows changed since the facts were kept: the rows that came but didn't leave, and the other way round.
    /// NoMemory if memory runs out.
    pub fn changes(&self) -> Result<FactChanges, NoMemory>
        ensures { IfOk result (λ c. IsDifference self.now.came self.now.left c.put c.gone) }
    {
        changes(self.alloc, &self.log.came, &self.log.left)
    }

    /// Keeps the facts' rows as they are: nothing has changed since.
    pub fn keep(&mut self)
        ensures { self.new ≡ record self.old { came = []; left = [] } }
    {
        self.log.clear();
    }

    /// Leaves only the uploads that count with the testing. It allocates nothing.
    pub fn trim<T: HasSources>(&mut self, testing: &T)
        ensures { self.new ≡ trimmed (T.suite testing.now) self.old }
    {
        let sources = testing.sources_by_name();
        trim_uploads(&mut self.uploads, &mut self.log.left, sources);
    }

    /// Takes the content of one more message.
    pub fn take(&mut self, sender: u32, number: u32, item: &Item) -> Result<(), NoMemory>
        ensures ok { OnOk result ((s : Covered) (t : Suite) → let m : CoveredItem = record { sender = sender; number = number; item = item.now } in
            StandsFor self.old s t → StandsFor self.new (m ∷ s) t) }
        ensures kept { OnOk result ((u : AnUpload) → Contains self.old.uploads u → Contains self.new.uploads u) }
        ensures there { OnOk result ((u : AnUpload) → let m : CoveredItem = record { sender = sender; number = number; item = item.now } in
            upload_of m ≡ Some u → Contains self.new.uploads u) }
        ensures tells { OnOk result ((s : Covered) → let m : CoveredItem = record { sender = sender; number = number; item = item.now } in Tells self.old s → Tells self.new (m ∷ s)) }
        ensures moved { OnOk result ((count : ARow → ℕ) → IsChangedFrom count self.old → IsChangedFrom count self.new) }
        ensures err { OnErr result (self.new ≡ self.old) }
    {
        let copy = item.copy(self.alloc)?;
        self.take_owned(sender, number, copy)
    }

    /// Takes the content of one more message by value: the facts keep its binaries, and copy none of them.
    pub fn take_owned(&mut self, sender: u32, number: u32, item: Item) -> Result<(), NoMemory>
        ensures ok { OnOk result ((s : Covered) (t : Suite) → let m : CoveredItem = record { sender = sender; number = number; item = item } in
            StandsFor self.old s t → StandsFor self.new (m ∷ s) t) }
        ensures kept { OnOk result ((u : AnUpload) → Contains self.old.uploads u → Contains self.new.uploads u) }
        ensures there { OnOk result ((u : AnUpload) → let m : CoveredItem = record { sender = sender; number = number; item = item } in
            upload_of m ≡ Some u → Contains self.new.uploads u) }
        ensures tells { OnOk result ((s : Covered) → let m : CoveredItem = record { sender = sender; number = number; item = item } in Tells self.old s → Tells self.new (m ∷ s)) }
        ensures moved { OnOk result ((count : ARow → ℕ) → IsChangedFrom count self.old → IsChangedFrom count self.new) }
        ensures err { OnErr result (self.new ≡ self.old) }
    {
        let entry = self.entry(sender, number, item)?;
        self.put(entry)?;
        Ok(())
    }

    /// What a message gives. A build shares the clauses of earlier builds.
    fn entry(&mut self, sender: u32, number: u32, item: Item) -> Result<FactUpdate, NoMemory>
        ensures same { self.new ≡ self.old }
        ensures is { IfOk result (λ e. let m : CoveredItem = record { sender = sender; number = number; item = item } in e ≡ entry_of m) }
    {
        let item = self.clauses.shared(item)?;
        let sent = Sent {
            alloc: self.alloc,
            sender,
            number,
        };
        entry_of(sent, item)
    }

    /// Adds a message to the lists of its kind.
    fn put(&mut self, entry: FactUpdate) -> Result<(), NoMemory>
        ensures ok { OnOk result (self.new ≡ with_entry entry self.old) }
        ensures err { OnErr result (self.new ≡ self.old) }
    {
        match entry {
            FactUpdate::Upload(upload) => self.take_upload(upload),
            FactUpdate::Dropped(drop) => self.take_drop(drop),
            FactUpdate::Build(builds) => self.take_builds(builds.into_vec()),
            FactUpdate::Bug(bug) => self.take_bug(bug),
            FactUpdate::Hint(hint) => self.take_hint(hint),
            FactUpdate::Unhint(unhint) => self.take_unhint(unhint),
            FactUpdate::Delays(delays) => self.take_delays(delays),
            FactUpdate::Nothing => Ok(()),
        }
    }

    /// Adds an upload to the sources, and to the uploads if it is new.
    fn take_upload(&mut self, upload: UploadIn) -> Result<(), NoMemory>
        ensures ok { OnOk result (self.new ≡ with_entry (Upload upload) self.old) }
        ensures err { OnErr result (self.new ≡ self.old) }
    {
        self.uploads.reserve(1)?;
        self.log
            .reserve_with(&mut self.sources, self.uploads.len(), 3)?;
        let SourceAndUpload { source, kept } = copied_upload(self.alloc, upload)?;
        let shifted = put_upload(&mut self.sources, source);
        let came = put_kept(&mut self.uploads, kept);
        self.log.note(shifted);
        self.log.note(Shifted { left: None, came });
        Ok(())
    }

    /// Adds a drop to the greatest drops, and removes its row.
    fn take_drop(&mut self, drop: DropIn) -> Result<(), NoMemory>
        ensures ok { OnOk result (self.new ≡ with_entry (Dropped drop) self.old) }
        ensures err { OnErr result (self.new ≡ self.old) }
    {
        let boxed = Box::new(self.alloc, drop)?;
        self.log
            .reserve_with(&mut self.drops, self.uploads.len(), 2)?;
        let left = self.rows.take(&boxed);
        let shifted = put_drop(&mut self.drops, boxed);
        self.log.note(Shifted { left, came: None });
        self.log.note(shifted);
        Ok(())
    }

    /// Adds a message on a bug to the states of the bugs.
    fn take_bug(&mut self, bug: BugIn) -> Result<(), NoMemory>
        ensures ok { OnOk result (self.new ≡ with_entry (Bug bug) self.old) }
        ensures err { OnErr result (self.new ≡ self.old) }
    {
        let boxed = Box::new(self.alloc, bug)?;
        self.log
            .reserve_with(&mut self.bugs, self.uploads.len(), 1)?;
        let shifted = put_bug(&mut self.bugs, boxed);
        self.log.note(shifted);
        Ok(())
    }

    /// Adds those builds of one message that outlive the drops.
    fn take_builds(&mut self, builds: Vec<BuildIn>) -> Result<(), NoMemory>
        ensures ok { OnOk result (self.new ≡ noted (shift_builds (stands_beside self.old.drops) builds.items self.old.rows)
            (record self.old { rows = with_builds (stands_beside self.old.drops) builds.items self.old.rows })) }
        ensures err { OnErr result (self.new ≡ self.old) }
    {
        self.log.reserve(self.uploads.len(), builds.len())?;
        self.rows
            .put(self.alloc, &self.drops, builds, &mut self.log)?;
        Ok(())
    }

    /// Adds a hint to the hints.
    fn take_hint(&mut self, hint: HintIn) -> Result<(), NoMemory>
        ensures ok { OnOk result (self.new ≡ with_entry (AHint hint) self.old) }
        ensures err { OnErr result (self.new ≡ self.old) }
    {
        let shifted = Shifted {
            left: hint_left(&self.hints, &hint),
            came: Some(hint_row(&hint)),
        };
        self.log
            .reserve_with(&mut self.hints, self.uploads.len(), 1)?;
        put_hint(&mut self.hints, hint);
        self.log.note(shifted);
        Ok(())
    }

    /// Adds an unhint to the unhints.
    fn take_unhint(&mut self, unhint: UnhintIn) -> Result<(), NoMemory>
        ensures ok { OnOk result (self.new ≡ with_entry (Unhint unhint) self.old) }
        ensures err { OnErr result (self.new ≡ self.old) }
    {
        let shifted = Shifted {
            left: unhint_left(&self.unhints, &unhint),
            came: Some(unhint_row(&unhint)),
        };
        self.log
            .reserve_with(&mut self.unhints, self.uploads.len(), 1)?;
        put_unhint(&mut self.unhints, unhint);
        self.log.note(shifted);
        Ok(())
    }

    /// Keeps the later of a message on delays and the last one.
    fn take_delays(&mut self, delays: DelaysIn) -> Result<(), NoMemory>
        ensures ok { OnOk result (self.new ≡ with_entry (Delays delays) self.old) }
        ensures err { OnErr result (self.new ≡ self.old) }
    {
        let last = later_delays(self.delays, delays);
        let shifted = Shifted {
            left: last_row(self.delays),
            came: last_row(last),
        };
        self.log.reserve(self.uploads.len(), 1)?;
        self.delays = last;
        self.log.note(shifted);
        Ok(())
    }

    /// Restores one kept row, with the item of its message. If the item gives no such fact, nothing is restored. The
    /// log is unchanged: a restored row hasn't come since. NoMemory if memory runs out; then nothing changes.
    pub fn restore(&mut self, row: FactRow, item: &Item) -> Result<(), NoMemory>
        ensures ok { OnOk result (self.new ≡ restored (row, item.now) self.old) }
        ensures err { OnErr result (self.new ≡ self.old) }
    {
        let sent = Sent {
            alloc: self.alloc,
            sender: row.sender,
            number: row.number,
        };
        match row.kind {
            FactKind::Build => self.restore_build(sent, item, row.place),
            _ if row.place > 0 => Ok(()),
            FactKind::Source => self.restore_source(sent, item),
            FactKind::Upload => self.restore_upload(sent, item),
            FactKind::Drop => self.restore_drop(sent, item),
            FactKind::Bug => self.restore_bug(sent, item),
            FactKind::Hint => self.restore_hint(sent, item),
            FactKind::Unhint => self.restore_unhint(sent, item),
            FactKind::Delays => self.restore_delays(sent, item),
        }
    }

    /// Restores an upload to unstable's sources.
    fn restore_source(&mut self, sent: Sent, item: &Item) -> Result<(), NoMemory>
        ensures ok { OnOk result (let m = said sent.sender sent.number item.now in self.new ≡ record self.old { sources = put_given with_upload (upload_of m) self.old.sources }) }
        ensures err { OnErr result (self.new ≡ self.old) }
    {
        self.sources.reserve(1)?;
        if let Some(upload) = said_upload(sent, item)? {
            let boxed = Box::new(self.alloc, upload)?;
            let _ = put_upload(&mut self.sources, boxed);
        }
        Ok(())
    }

    /// Restores an upload to the uploads, unless it is already there.
    fn restore_upload(&mut self, sent: Sent, item: &Item) -> Result<(), NoMemory>
        ensures ok { OnOk result (let m = said sent.sender sent.number item.now in self.new ≡ record self.old { uploads = put_given with_kept (upload_of m) self.old.uploads }) }
        ensures err { OnErr result (self.new ≡ self.old) }
    {
        let count = self.uploads.len();
        self.log.reserve_with(&mut self.uploads, count, 1)?;
        if let Some(upload) = said_upload(sent, item)? {
            let _ = put_kept(&mut self.uploads, upload);
        }
        Ok(())
    }

    /// Restores a build to unstable's rows.
    fn restore_build(&mut self, sent: Sent, item: &Item, place: u32) -> Result<(), NoMemory>
        ensures ok { OnOk result (let m = said sent.sender sent.number item.now in self.new ≡ record self.old { rows = put_given with_build (find (λ b. b.place == place) (builds_of m)) self.old.rows }) }
        ensures err { OnErr result (self.new ≡ self.old) }
    {
        if let Some(build) = said_build(sent, item, place)? {
            self.rows.put_one(self.alloc, build)?;
        }
        Ok(())
    }

    /// Restores a drop to the greatest ones. It removes no row.
    fn restore_drop(&mut self, sent: Sent, item: &Item) -> Result<(), NoMemory>
        ensures ok { OnOk result (let m = said sent.sender sent.number item.now in self.new ≡ record self.old { drops = put_given with_greatest (drop_of m) self.old.drops }) }
        ensures err { OnErr result (self.new ≡ self.old) }
    {
        self.drops.reserve(1)?;
        if let Some(drop) = said_drop(sent, item)? {
            let boxed = Box::new(self.alloc, drop)?;
            let _ = put_drop(&mut self.drops, boxed);
        }
        Ok(())
    }

    /// Restores a message on a bug.
    fn restore_bug(&mut self, sent: Sent, item: &Item) -> Result<(), NoMemory>
        ensures ok { OnOk result (let m = said sent.sender sent.number item.now in self.new ≡ record self.old { bugs = put_given with_bug (bug_of m) self.old.bugs }) }
        ensures err { OnErr result (self.new ≡ self.old) }
    {
        self.bugs.reserve(1)?;
        if let Some(bug) = said_bug(sent, item)? {
            let boxed = Box::new(self.alloc, bug)?;
            let _ = put_bug(&mut self.bugs, boxed);
        }
        Ok(())
    }

    /// Restores a hint.
    fn restore_hint(&mut self, sent: Sent, item: &Item) -> Result<(), NoMemory>
        ensures ok { OnOk result (let m = said sent.sender sent.number item.now in self.new ≡ record self.old { hints = put_given with_hint (hint_of m) self.old.hints }) }
        ensures err { OnErr result (self.new ≡ self.old) }
    {
        self.hints.reserve(1)?;
        if let Some(hint) = said_hint(sent, item)? {
            put_hint(&mut self.hints, hint);
        }
        Ok(())
    }

    /// Restores an unhint.
    fn restore_unhint(&mut self, sent: Sent, item: &Item) -> Result<(), NoMemory>
        ensures ok { OnOk result (let m = said sent.sender sent.number item.now in self.new ≡ record self.old { unhints = put_given with_unhint (unhint_of m) self.old.unhints }) }
        ensures err { OnErr result (self.new ≡ self.old) }
    {
        self.unhints.reserve(1)?;
        if let Some(unhint) = said_unhint(sent, item) {
            put_unhint(&mut self.unhints, unhint);
        }
        Ok(())
    }

    /// Restores a message on delays, unless there is a later one.
    fn restore_delays(&mut self, sent: Sent, item: &Item) -> Result<(), NoMemory>
        ensures ok { OnOk result (let m = said sent.sender sent.number item.now in self.new ≡ record self.old { delays = last_given (delays_of m) self.old.delays }) }
        ensures err { OnErr result (self.new ≡ self.old) }
    {
        if let Some(delays) = said_delays(sent, item) {
            self.delays = later_delays(self.delays, delays);
        }
        Ok(())
    }
}
