//! A keeper over sqlite's tables.
ghost use Rattle.std.specs.Prelude.{◌≡◌, None};
ghost use Rattle.sqlite.specs.Held.{state};
ghost use Rattle.sqlite.specs.State.{HasCleanDisk};
ghost use Rattle.office_store_tables.specs.TableContent.{content_in};
ghost use Rattle.office_store_tables.specs.Tables.{IsTrusted, IsOurs};
ghost use Rattle.office_store_keeper.specs.Keeping.{Counted};
ghost use Rattle.office_store.specs.TablesState.{IsLegibleStore};

use crate::in_memory;
use office_mail::Setup;
use office_store_keeper::{Finished, KeepFault, Keeper, Letter, MailText, NewLetter, Reports};
use office_store_tables::{checks, entries, fact_rows, finished_runs, mail, runs};
use sqlite::{Alter, Connection};
use std::alloc::Global;
use std::marker::Model;
use testing_rules_model::FactRows;
use testing_rules_suites::Testing;

/// The office's tables over a connection. The testing after a run stays in memory for the next run, with its suites,
/// which speed it up. A newly opened store has none in memory, and reads its tables.
pub struct Tables<S: Alter> {
    alloc: Global,
    conn: Connection<S>,
    setup: Setup,
    refusals: u64,
    in_memory: Option<Testing>,
}

impl<S: Alter> Model for Tables<S> {
    ghost use Rattle.sqlite.specs.Held.{Held, held_code, state};
    ghost use Rattle.office_store_tables.specs.Tables.{IsTrusted, IsOurs};
    ghost use Rattle.office_store.specs.TablesState.{TablesState, coded_state};
    ghost use Rattle.office_mail_setup.specs.contracts.setup.Setup as setup_of;
    ghost use Rattle.testing_rules_suites.specs.contracts.suite.Testing as testing_of;

    ghost Value = { TablesState (Held S) };

    ghost coded = { coded_state (held_code S.code) setup_of.the_row.coded testing_of.the_row.coded };

    ghost view = { λ t. record { conn = t.conn; setup = t.setup; refusals = t.refusals; in_memory = t.in_memory } };

    ghost invariant = { λ t. IsTrusted (state S.Store t.conn) → IsOurs (state S.Store t.conn) };
}

/// Counts a refusal of the store.
fn count<T>(refusals: &mut u64, answer: Result<T, KeepFault>) -> Result<T, KeepFault>
    ensures same { result ≡ answer }
    ensures counted { Counted refusals.old refusals.new result }
{
    if let Err(KeepFault::Store(_)) = &answer {
        *refusals = refusals.saturating_add(1);
    }
    answer
}

impl<S: Alter> Tables<S> {
    /// The office's tables over a connection that has exactly these. There is no testing in memory.
    pub(crate) fn over(alloc: Global, conn: Connection<S>, setup: Setup) -> Tables<S>
        requires { IsTrusted (state S.Store conn) → IsOurs (state S.Store conn) }
        ensures { result ≡ record { conn = conn; setup = setup; refusals = 0; in_memory = None } }
    {
        Tables {
            alloc,
            conn,
            setup,
            refusals: 0,
            in_memory: None,
        }
    }

    /// The connection, unchanged.
    pub fn into_connection(self) -> Connection<S>
        ensures same { result ≡ self.conn }
        ensures ours { IsTrusted (state S.Store result) → IsOurs (state S.Store result) }
    {
        let Tables {
            alloc: _,
            conn,
            setup: _,
            refusals: _,
            in_memory: _,
        } = self;
        conn
    }
}

impl<S: Alter> Keeper for Tables<S> {
    ghost is_clean = { λ t. HasCleanDisk (state S.Store t.conn) };

    ghost is_trusted = { λ t. IsTrusted (state S.Store t.conn) };

    ghost setup = { λ t. t.setup };

    // The testing in memory is not part of it.
    ghost content = { λ t. content_in t.setup (state S.Store t.conn).now.trees };

    ghost is_legible = { λ t. IsLegibleStore t.setup (state S.Store t.conn).now.trees t.in_memory };

    ghost refusals = { λ t. t.refusals };

    ghost disk_faults = { λ t. (state S.Store t.conn).faults };

    fn find(&mut self, sender: u32, number: u32) -> Result<Option<MailText>, KeepFault> {
        count(
            &mut self.refusals,
            mail::find(&mut self.conn, sender, number),
        )
    }

    fn keep(&mut self, sender: u32, number: u32, text: &MailText) -> Result<(), KeepFault> {
        count(
            &mut self.refusals,
            mail::keep(&mut self.conn, sender, number, text.as_slice()),
        )
    }

    // One commit keeps them all, with a single wait for the disk. More texts than these would save little.
    fn keeps_together(&self) -> usize {
        64
    }

    fn keep_all(&mut self, letters: &[NewLetter]) -> Result<bool, KeepFault> {
        count(&mut self.refusals, mail::keep_all(&mut self.conn, letters))?;
        Ok(true)
    }

    fn finished(&mut self) -> Result<u32, KeepFault> {
        count(&mut self.refusals, runs::finished(&mut self.conn))
    }

    fn load(&mut self, sender: u32, from: u32, to: u32) -> Result<Vec<Letter>, KeepFault> {
        count(
            &mut self.refusals,
            mail::load(self.alloc, &mut self.conn, sender, from, to),
        )
    }

    fn next_number(&mut self, sender: u32, from: u32) -> Result<Option<u32>, KeepFault> {
        count(
            &mut self.refusals,
            mail::next_number(&mut self.conn, sender, from),
        )
    }

    fn finish(&mut self, run: u32, done: &Finished) -> Result<(), KeepFault> {
        self.in_memory = None;
        count(
            &mut self.refusals,
            finished_runs::finish(&mut self.conn, &self.setup, run, done),
        )
    }

    fn reports(&mut self, run: u32) -> Result<Option<Reports>, KeepFault> {
        count(&mut self.refusals, runs::reports(&mut self.conn, run))
    }

    fn testing(&mut self) -> Result<Testing, KeepFault> {
        count(
            &mut self.refusals,
            entries::testing(self.alloc, &mut self.conn, &self.setup),
        )
    }

    fn facts(&mut self) -> Result<FactRows, KeepFault> {
        count(
            &mut self.refusals,
            fact_rows::facts(self.alloc, &mut self.conn, &self.setup),
        )
    }

    // Drops the testing in memory: only the tables are read.
    fn is_whole(&mut self, texts: u64) -> Result<bool, KeepFault> {
        self.in_memory = None;
        count(
            &mut self.refusals,
            checks::is_whole(self.alloc, &mut self.conn, &self.setup, texts),
        )
    }

    fn take_finished(&mut self, run: u32, done: Finished) -> Result<(), KeepFault> {
        count(
            &mut self.refusals,
            in_memory::finish(&mut self.conn, &self.setup, &mut self.in_memory, run, done),
        )
    }

    fn next_testing(&mut self) -> Result<Testing, KeepFault> {
        count(
            &mut self.refusals,
            in_memory::next_testing(self.alloc, &mut self.conn, &self.setup, &mut self.in_memory),
        )
    }

    fn give_back(&mut self, testing: Testing) {
        self.in_memory = Some(testing);
    }
}
