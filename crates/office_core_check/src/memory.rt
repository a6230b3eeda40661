//! A store in memory that has room for some runs.

ghost use Rattle.std.specs.Prelude.{◌≡◌, IfOk, ⊤};
ghost use Rattle.std.specs.FinMap.{len};
ghost use Rattle.office_store_keeper.specs.Content.{no_content};
ghost use Rattle.office_store_keeper.specs.MemoryState.{content_of};

use deb_control::NoMemory;
use office_mail::Setup;
use office_store_keeper::{Finished, KeepFault, Keeper, Letter, MailText, Plain, Reports};
use std::alloc::Global;
use testing_rules_model::FactRows;
use testing_rules_suites::Testing;

/// A store in memory with room for that many finished runs: one more exhausts it. It fails only if memory runs out.
#[derive(Drop)]
pub struct Bounded {
    plain: Plain,
    most: u32,
}

impl Bounded {
    /// A store for this setup with room for that many runs, with no mail, no run and no facts.
    pub(crate) fn new(alloc: Global, setup: &Setup, most: u32) -> Result<Bounded, NoMemory>
        ensures setup { IfOk result (λ store. store.plain.setup ≡ setup.now) }
        ensures content { IfOk result (λ store. content_of store.plain ≡ no_content) }
    {
        Ok(Bounded {
            plain: Plain::new(alloc, setup)?,
            most,
        })
    }

    /// How many texts are kept.
    pub(crate) fn texts(&self) -> u64
        ensures { result ≡ len (content_of self.now.plain).kept }
    {
        self.plain.texts()
    }
}

impl Keeper for Bounded {
    ghost is_clean = { λ _. ⊤ };

    ghost is_trusted = { λ _. ⊤ };

    ghost setup = { λ store. store.plain.setup };

    ghost content = { λ store. content_of store.plain };

    ghost is_legible = { λ _. ⊤ };

    // It never refuses, so by the clauses on this count it never answers that the store failed.
    ghost refusals = { λ _. 0 };

    ghost disk_faults = { λ _. 0 };

    fn find(&mut self, sender: u32, number: u32) -> Result<Option<MailText>, KeepFault> {
        self.plain.find(sender, number)
    }

    fn keep(&mut self, sender: u32, number: u32, text: &MailText) -> Result<(), KeepFault> {
        self.plain.keep(sender, number, text)
    }

    fn finished(&mut self) -> Result<u32, KeepFault> {
        self.plain.finished()
    }

    fn load(&mut self, sender: u32, from: u32, to: u32) -> Result<Vec<Letter>, KeepFault> {
        self.plain.load(sender, from, to)
    }

    fn next_number(&mut self, sender: u32, from: u32) -> Result<Option<u32>, KeepFault> {
        self.plain.next_number(sender, from)
    }

    fn finish(&mut self, run: u32, done: &Finished) -> Result<(), KeepFault> {
        if run > self.most {
            return Err(KeepFault::NoMemory);
        }
        self.plain.finish(run, done)
    }

    fn reports(&mut self, run: u32) -> Result<Option<Reports>, KeepFault> {
        self.plain.reports(run)
    }

    fn testing(&mut self) -> Result<Testing, KeepFault> {
        self.plain.testing()
    }

    fn facts(&mut self) -> Result<FactRows, KeepFault> {
        self.plain.facts()
    }

    fn is_whole(&mut self, texts: u64) -> Result<bool, KeepFault> {
        self.plain.is_whole(texts)
    }

    fn take_finished(&mut self, run: u32, done: Finished) -> Result<(), KeepFault> {
        if run > self.most {
            return Err(KeepFault::NoMemory);
        }
        self.plain.take_finished(run, done)
    }

    fn next_testing(&mut self) -> Result<Testing, KeepFault> {
        self.plain.next_testing()
    }
}
