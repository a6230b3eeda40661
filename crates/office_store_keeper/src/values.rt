//! The kept values: the texts of mail, the reports of runs, and the testing suite after a run.
ghost use Rattle.std.specs.Prelude.{◌≡◌, IfOk};
ghost use Rattle.office_store_keeper.specs.Content.{reports_in};

use deb_control::{NoMemory, Text};
use std::alloc::{AllocError, Global};
use std::marker::Model;
use std::rc::Rc;
use testing_rules_model::FactChanges;
use testing_rules_suites::Testing;

/// Where the bytes of a text are: in its own vector, or in one shared with equal texts.
#[derive(Drop)]
enum Bytes {
    Own(Vec<u8>),
    Shared(Rc<Vec<u8>>),
}

/// The bytes of a text that came by mail. Contracts see their list.
pub struct MailText {
    bytes: Bytes,
}

impl Drop for MailText {
    fn drop(self) {
        let MailText { bytes: _ } = self;
    }
}

impl Model for MailText {
    ghost use Rattle.std.specs.Prelude.{List, ℕ};
    ghost use Rattle.office_store_keeper.specs.MailBytes.{bytes_of};

    ghost Value = { List ℕ };

    ghost view = { λ a. bytes_of a.bytes };
}

impl MailText {
    /// A text of these bytes. It allocates nothing.
    pub fn of(bytes: Vec<u8>) -> MailText
        ensures { result ≡ bytes.items }
    {
        MailText {
            bytes: Bytes::Own(bytes),
        }
    }

    /// A copy of these bytes that others may share from here on.
    pub fn shared(alloc: Global, bytes: &[u8]) -> Result<MailText, AllocError>
        ensures { IfOk result (λ text. text ≡ bytes.now) }
    {
        let bytes = Rc::new(alloc, Vec::from_slice(alloc, bytes)?)?;
        Ok(MailText {
            bytes: Bytes::Shared(bytes),
        })
    }

    /// An equal text. It shares the bytes if possible, else it copies them.
    pub fn share(&self, alloc: Global) -> Result<MailText, AllocError>
        ensures { IfOk result (λ text. text ≡ self.now) }
    {
        let bytes = match &self.bytes {
            Bytes::Own(bytes) => Bytes::Own(Vec::from_slice(alloc, bytes.as_slice())?),
            Bytes::Shared(bytes) => Bytes::Shared(bytes.clone()?),
        };
        Ok(MailText { bytes })
    }

    /// The bytes. It allocates nothing.
    pub fn as_slice(&self) -> &[u8]
        ensures { result.now ≡ self.now }
    {
        match &self.bytes {
            Bytes::Own(bytes) => bytes.as_slice(),
            Bytes::Shared(bytes) => bytes.as_ref().as_slice(),
        }
    }
}

/// A kept text of one sender, under its number.
#[derive(Drop)]
pub struct Letter {
    pub number: u32,
    pub text: MailText,
}

/// A text to be kept, with its sender's place and its number.
#[derive(Drop)]
pub struct NewLetter {
    pub sender: u32,
    pub number: u32,
    pub text: MailText,
}

/// The two reports of a finished run.
#[derive(Drop)]
pub struct Reports {
    pub excuses: Text,
    pub updates: Text,
}

impl Reports {
    /// Equal reports.
    pub fn copy(&self, alloc: Global) -> Result<Reports, AllocError>
        ensures { IfOk result (λ reports. reports ≡ self.now) }
    {
        Ok(Reports {
            excuses: self.excuses.copy(alloc)?,
            updates: self.updates.copy(alloc)?,
        })
    }
}

/// The result of a finished run: the testing suite, the two reports, and the changes to the rows of facts.
#[derive(Drop)]
pub struct Finished {
    pub testing: Testing,
    pub excuses: Text,
    pub updates: Text,
    pub facts: FactChanges,
}

impl Finished {
    /// Only the reports.
    pub fn reports(&self, alloc: Global) -> Result<Reports, NoMemory>
        ensures { IfOk result (λ reports. reports ≡ reports_in self.now) }
    {
        Ok(Reports {
            excuses: self.excuses.copy(alloc)?,
            updates: self.updates.copy(alloc)?,
        })
    }
}
