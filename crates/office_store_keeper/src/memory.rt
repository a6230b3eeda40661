//! A keeper in memory.
ghost use Rattle.std.specs.Prelude.{◌≡◌, ◌≤◌, ◌++◌, ◌∷◌, [], ⊤, map, IfOk, OnOk, OnErr};
ghost use Rattle.std.specs.BTreeMap.{IsOrdered};
ghost use Rattle.std.specs.BTreeMap.Range.{entries_between};
ghost use Rattle.std.specs.declared.ops.Bound.TheVariants.{Included};
ghost use Rattle.office_mail.specs.Kept.{place_cmp};
ghost use Rattle.std.specs.FinMap.{get, len};
ghost use Rattle.std.specs.Option.{option_copied};
ghost use Rattle.office_store_keeper.specs.Content.{letters_within, item_from_one, reports_in, IsNextNumber};
ghost use Rattle.office_store_keeper.specs.FactSet.{facts_after, set_of_rows};
ghost use Rattle.office_store_keeper.specs.MemoryState.{kept_in, content_of};
ghost use Rattle.office_store_keeper.specs.steps.MemoryState.{letter_of};

use crate::fact_rows::{rows_after, rows_in_order};
use crate::faults::KeepFault;
use crate::keeper::Keeper;
use crate::values::{Finished, Letter, MailText, Reports};
use deb_control::NoMemory;
use office_mail::Setup;
use std::alloc::Global;
use std::collections::BTreeMap;
use std::marker::Model;
use std::mem;
use testing_rules_model::{FactRow, FactRows};
use testing_rules_suites::Testing;

/// Kept mail by sender and number, with reports, testing and the rows of facts in any order. It fails only if memory
/// runs out.
pub struct Plain {
    alloc: Global,
    setup: Setup,
    mail: BTreeMap<(u32, u32), MailText>,
    runs: Vec<Reports>,
    testing: Testing,
    facts: Vec<FactRow>,
}

impl Drop for Plain {
    fn drop(self) {
        let Plain {
            alloc: _,
            setup: _,
            mail: _,
            runs: _,
            testing: _,
            facts: _,
        } = self;
    }
}

impl Model for Plain {
    ghost use Rattle.office_store_keeper.specs.MemoryState.{MemoryState};
    ghost use Rattle.office_store_keeper.specs.steps.MemoryState.{IsMemoryState};

    ghost Value = { MemoryState };

    ghost view = { λ a. record { setup = a.setup; mail = a.mail.entries; runs = a.runs.items; testing = a.testing; facts = a.facts.items } };

    ghost invariant = { λ a. IsMemoryState a.setup a.runs.items a.testing };
}

impl Plain {
    /// A keeper for this setup, with no mail, no run and no facts.
    pub fn new(alloc: Global, setup: &Setup) -> Result<Plain, NoMemory>
        ensures { IfOk result (λ plain. plain ≡ record { setup = setup.now; mail = []; runs = []; testing = record { sources = []; rows = [] }; facts = [] }) }
    {
        Ok(Plain {
            alloc,
            setup: setup.copy(alloc)?,
            mail: BTreeMap::new(alloc),
            runs: Vec::new(alloc),
            testing: Testing::new(alloc),
            facts: Vec::new(alloc),
        })
    }

    /// The number of kept texts. It allocates nothing.
    pub fn texts(&self) -> u64
        ensures { result ≡ len (kept_in self.now.mail) }
    {
        count(&self.mail)
    }
}

/// The number of these texts.
fn count(mail: &BTreeMap<(u32, u32), MailText>) -> u64
    ensures { result ≡ len (kept_in mail.now.entries) }
{
    mail.len() as u64
}

/// The text at a place, or none. It is shared if it can be.
fn share_text(
    alloc: Global,
    mail: &BTreeMap<(u32, u32), MailText>,
    sender: u32,
    number: u32,
) -> Result<Option<MailText>, NoMemory>
    ensures { IfOk result (λ text. text ≡ get (kept_in mail.now.entries) (sender, number)) }
{
    match mail.get(&(sender, number)) {
        None => Ok(None),
        Some(text) => Ok(Some(text.share(alloc)?)),
    }
}

/// Room for this many letters is allocated at once. A caller rarely wants more.
const AT_ONCE: u32 = 255;

/// The letters of a sender from one number to another, by number, if the first isn't above the second.
fn letters_between(
    alloc: Global,
    mail: &BTreeMap<(u32, u32), MailText>,
    sender: u32,
    from: u32,
    to: u32,
) -> Result<Vec<Letter>, NoMemory>
    requires { from ≤ to }
    ensures loaded { IfOk result (λ letters. letters.items ≡ map letter_of (entries_between place_cmp (Included (sender, from)) (Included (sender, to)) mail.now.entries)) }
    ensures ordered { IsOrdered place_cmp mail.now }
{
    let entries = mail.range((sender, from)..=(sender, to));
    let mut letters = Vec::with_capacity(alloc, (to - from).min(AT_ONCE) as usize + 1)?;
    'places: for (place, text) in entries {
        letters.push(Letter {
            number: place.1,
            text: text.share(alloc)?,
        })?;
    }
    Ok(letters)
}

/// The letters of a sender from one number to another, by number.
fn letters_of(
    alloc: Global,
    mail: &BTreeMap<(u32, u32), MailText>,
    sender: u32,
    from: u32,
    to: u32,
) -> Result<Vec<Letter>, NoMemory>
    ensures { IfOk result (λ letters. letters.items ≡ letters_within (kept_in mail.now.entries) sender from to) }
{
    if from > to {
        return Ok(Vec::new(alloc));
    }
    letters_between(alloc, mail, sender, from, to)
}

/// The least kept number of a sender from one number on, or none.
fn next_of(mail: &BTreeMap<(u32, u32), MailText>, sender: u32, from: u32) -> Option<u32>
    ensures { IsNextNumber (kept_in mail.now.entries) sender from result }
{
    match mail.range((sender, from)..).next() {
        None => None,
        Some((place, _)) => {
            if place.0 == sender {
                Some(place.1)
            } else {
                None
            }
        }
    }
}

/// The reports of a run counted from 1, or none.
fn reports_of(runs: &[Reports], run: u32) -> Option<&Reports>
    ensures { option_copied result ≡ item_from_one run runs.now }
{
    if run == 0 {
        return None;
    }
    runs.get(run as usize - 1)
}

/// Replaces a value.
fn put<T: Drop>(place: &mut T, value: T)
    ensures { place.new ≡ value }
{
    drop(mem::replace(place, value));
}

/// Keeps the result of one more run, with the new rows of facts, or nothing.
fn put_run(
    runs: &mut Vec<Reports>,
    testing: &mut Testing,
    facts: &mut Vec<FactRow>,
    reports: Reports,
    left: Testing,
    rows: Vec<FactRow>,
) -> Result<(), NoMemory>
    ensures runs { OnOk result (runs.new.items ≡ runs.old.items ++ reports ∷ []) }
    ensures testing { OnOk result (testing.new ≡ left) }
    ensures facts { OnOk result (facts.new.items ≡ rows.items) }
    ensures err { OnErr result ((runs.new.items ≡ runs.old.items) × (testing.new ≡ testing.old) × (facts.new.items ≡ facts.old.items)) }
{
    runs.push(reports)?;
    put(testing, left);
    put(facts, rows);
    Ok(())
}

/// Keeps the result of one more run, or nothing.
fn keep_run(
    alloc: Global,
    runs: &mut Vec<Reports>,
    testing: &mut Testing,
    facts: &mut Vec<FactRow>,
    done: Finished,
) -> Result<(), NoMemory>
    ensures runs { OnOk result (runs.new.items ≡ runs.old.items ++ reports_in done ∷ []) }
    ensures testing { OnOk result (testing.new ≡ done.testing) }
    ensures facts { OnOk result (set_of_rows facts.new.items ≡ facts_after done.facts (set_of_rows facts.old.items)) }
    ensures err { OnErr result ((runs.new.items ≡ runs.old.items) × (testing.new ≡ testing.old) × (facts.new.items ≡ facts.old.items)) }
{
    match rows_after(alloc, facts, &done.facts) {
        Ok(rows) => {
            let Finished {
                testing: left,
                excuses,
                updates,
                facts: changes,
            } = done;
            drop(changes);
            put_run(
                runs,
                testing,
                facts,
                Reports { excuses, updates },
                left,
                rows,
            )
        }
        Err(fault) => {
            drop(done);
            Err(fault)
        }
    }
}

/// Copies of the reports and of the testing in a run's result.
fn copies_of(alloc: Global, done: &Finished) -> Result<(Reports, Testing), NoMemory>
    ensures { IfOk result (λ copies. (copies.0 ≡ reports_in done.now) × (copies.1 ≡ done.now.testing)) }
{
    let reports = done.reports(alloc)?;
    match done.testing.copy() {
        Ok(testing) => Ok((reports, testing)),
        Err(fault) => {
            drop(reports);
            Err(fault)
        }
    }
}

/// Keeps a copy of the result of one more run, or nothing.
fn keep_copy(
    alloc: Global,
    runs: &mut Vec<Reports>,
    testing: &mut Testing,
    facts: &mut Vec<FactRow>,
    done: &Finished,
) -> Result<(), NoMemory>
    ensures runs { OnOk result (runs.new.items ≡ runs.old.items ++ reports_in done.now ∷ []) }
    ensures testing { OnOk result (testing.new ≡ done.now.testing) }
    ensures facts { OnOk result (set_of_rows facts.new.items ≡ facts_after done.now.facts (set_of_rows facts.old.items)) }
    ensures err { OnErr result ((runs.new.items ≡ runs.old.items) × (testing.new ≡ testing.old) × (facts.new.items ≡ facts.old.items)) }
{
    let (reports, left) = copies_of(alloc, done)?;
    match rows_after(alloc, facts, &done.facts) {
        Ok(rows) => put_run(runs, testing, facts, reports, left, rows),
        Err(fault) => {
            drop(reports);
            drop(left);
            Err(fault)
        }
    }
}

impl Keeper for Plain {
    ghost is_clean = { λ _. ⊤ };

    ghost is_trusted = { λ _. ⊤ };

    ghost setup = { λ state. state.setup };

    ghost content = { content_of };

    ghost is_legible = { λ _. ⊤ };

    // It never refuses, so by the clauses on this count it never reports a fault of the store.
    ghost refusals = { λ _. 0 };

    ghost disk_faults = { λ _. 0 };

    fn find(&mut self, sender: u32, number: u32) -> Result<Option<MailText>, KeepFault> {
        Ok(share_text(self.alloc, &self.mail, sender, number)?)
    }

    fn keep(&mut self, sender: u32, number: u32, text: &MailText) -> Result<(), KeepFault> {
        let text = text.share(self.alloc)?;
        self.mail.insert((sender, number), text)?;
        Ok(())
    }

    fn finished(&mut self) -> Result<u32, KeepFault> {
        Ok(self.runs.len() as u32)
    }

    fn load(&mut self, sender: u32, from: u32, to: u32) -> Result<Vec<Letter>, KeepFault> {
        Ok(letters_of(self.alloc, &self.mail, sender, from, to)?)
    }

    fn next_number(&mut self, sender: u32, from: u32) -> Result<Option<u32>, KeepFault> {
        Ok(next_of(&self.mail, sender, from))
    }

    fn finish(&mut self, _run: u32, done: &Finished) -> Result<(), KeepFault> {
        keep_copy(
            self.alloc,
            &mut self.runs,
            &mut self.testing,
            &mut self.facts,
            done,
        )?;
        Ok(())
    }

    fn reports(&mut self, run: u32) -> Result<Option<Reports>, KeepFault> {
        match reports_of(&self.runs, run) {
            None => Ok(None),
            Some(reports) => Ok(Some(reports.copy(self.alloc)?)),
        }
    }

    fn testing(&mut self) -> Result<Testing, KeepFault> {
        Ok(self.testing.copy()?)
    }

    fn facts(&mut self) -> Result<FactRows, KeepFault> {
        Ok(rows_in_order(self.alloc, &self.facts)?)
    }

    fn is_whole(&mut self, texts: u64) -> Result<bool, KeepFault> {
        Ok(count(&self.mail) == texts)
    }

    fn take_finished(&mut self, _run: u32, done: Finished) -> Result<(), KeepFault> {
        keep_run(
            self.alloc,
            &mut self.runs,
            &mut self.testing,
            &mut self.facts,
            done,
        )?;
        Ok(())
    }

    fn next_testing(&mut self) -> Result<Testing, KeepFault> {
        Ok(self.testing.share()?)
    }

    fn give_back(&mut self, testing: Testing) {
        put(&mut self.testing, testing);
    }
}
