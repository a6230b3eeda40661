//! A store that notes which mail it is asked for between the ends of two runs.
ghost use Rattle.std.specs.Prelude.{◌≡◌};

use crate::office_over::REOPEN;
use crate::sessions::{setup_in, take_session};
use office_http::Office;
use office_mail::Setup;
use office_store::{Finished, KeepFault, Keeper, Letter, MailText, Plain, Reports, Tables};
use sqlite::{Alter, Connection};
use std::alloc::{AllocError, Global};
use testing_rules_model::FactRows;
use testing_rules_suites::Testing;

/// The least number of each sender that was asked for: the greatest `u32` if none was.
type Least = [u32; 16];

/// Nothing was asked for.
const NONE: Least = [u32::MAX; 16];

/// What a store was asked for on the way to a run's end: before it was asked for its rows of facts, if it was, and
/// since then.
#[derive(Clone, Copy)]
struct Notes {
    counted: Least,
    asked: Least,
}

/// It was asked for nothing.
const NOTHING: Notes = Notes {
    counted: NONE,
    asked: NONE,
};

/// A store, what it was asked for since a run was finished, and what for on the way to that run's end.
struct Noting<K> {
    keeper: K,
    now: Notes,
    before: Notes,
}

/// Notes a number of a sender.
fn note(least: &mut Least, sender: u32, number: u32) {
    if let Some(known) = least.get_mut(sender as usize) {
        if number < *known {
            *known = number;
        }
    }
}

impl<K: Keeper> Keeper for Noting<K> {
    ghost is_clean = { λ n. K.is_clean n.keeper };

    ghost is_trusted = { λ n. K.is_trusted n.keeper };

    ghost setup = { λ n. K.setup n.keeper };

    ghost content = { λ n. K.content n.keeper };

    ghost is_legible = { λ n. K.is_legible n.keeper };

    ghost refusals = { λ n. K.refusals n.keeper };

    ghost disk_faults = { λ n. K.disk_faults n.keeper };

    fn find(&mut self, sender: u32, number: u32) -> Result<Option<MailText>, KeepFault> {
        note(&mut self.now.asked, sender, number);
        self.keeper.find(sender, number)
    }

    fn keep(&mut self, sender: u32, number: u32, text: &MailText) -> Result<(), KeepFault> {
        self.keeper.keep(sender, number, text)
    }

    fn finished(&mut self) -> Result<u32, KeepFault> {
        self.keeper.finished()
    }

    fn load(&mut self, sender: u32, from: u32, to: u32) -> Result<Vec<Letter>, KeepFault> {
        note(&mut self.now.asked, sender, from);
        self.keeper.load(sender, from, to)
    }

    fn next_number(&mut self, sender: u32, from: u32) -> Result<Option<u32>, KeepFault> {
        note(&mut self.now.asked, sender, from);
        self.keeper.next_number(sender, from)
    }

    fn finish(&mut self, run: u32, done: &Finished) -> Result<(), KeepFault> {
        self.before = self.now;
        self.now = NOTHING;
        self.keeper.finish(run, done)
    }

    fn reports(&mut self, run: u32) -> Result<Option<Reports>, KeepFault> {
        self.keeper.reports(run)
    }

    fn testing(&mut self) -> Result<Testing, KeepFault> {
        self.keeper.testing()
    }

    fn facts(&mut self) -> Result<FactRows, KeepFault> {
        self.now = Notes {
            counted: self.now.asked,
            asked: NONE,
        };
        self.keeper.facts()
    }

    fn is_whole(&mut self, texts: u64) -> Result<bool, KeepFault> {
        self.keeper.is_whole(texts)
    }
}

/// Adds the result of a row in an office in memory, which is rebuilt over its store if the row says so; and then, of
/// each sender that was asked for on the way to the end of the last run, the least number.
pub fn put_noted_in_memory(alloc: Global, row: &str, came: &mut String) -> Result<(), AllocError> {
    match Setup::parse(alloc, setup_in(row).as_bytes()) {
        Ok(setup) => put_noted_in_plain(alloc, setup, row, came),
        Err(_) => Err(AllocError),
    }
}

/// The same over tables of sqlite.
pub fn put_noted_in_tables(alloc: Global, row: &str, came: &mut String) -> Result<(), AllocError> {
    match Setup::parse(alloc, setup_in(row).as_bytes()) {
        Ok(setup) => put_noted_in_file(alloc, setup, row, came),
        Err(_) => Err(AllocError),
    }
}

/// Adds the result of a row in an office in memory with this setup, and what was asked for.
fn put_noted_in_plain(
    alloc: Global,
    setup: Setup,
    row: &str,
    came: &mut String,
) -> Result<(), AllocError> {
    match Plain::new(alloc, &setup) {
        Ok(plain) => {
            let (plain, taken) = take_noted(alloc, setup, plain, row, came);
            drop(plain);
            taken
        }
        Err(_) => {
            drop(setup);
            Err(AllocError)
        }
    }
}

/// Adds the result of a row in an office over new tables with this setup, and what was asked for.
fn put_noted_in_file(
    alloc: Global,
    setup: Setup,
    row: &str,
    came: &mut String,
) -> Result<(), AllocError> {
    match Connection::open_in_memory(alloc) {
        Ok(conn) => {
            let (conn, taken) = take_noted_over(alloc, setup, conn, row, came);
            drop(conn);
            taken
        }
        Err(_) => {
            drop(setup);
            Err(AllocError)
        }
    }
}

/// Adds the result of a row in an office over tables in this connection, which are closed afterwards.
fn take_noted_over<S: Alter + Drop>(
    alloc: Global,
    setup: Setup,
    conn: Connection<S>,
    row: &str,
    came: &mut String,
) -> (Connection<S>, Result<(), AllocError>) {
    match Tables::open(alloc, conn, &setup) {
        Ok(tables) => {
            let (tables, taken) = take_noted(alloc, setup, tables, row, came);
            (tables.into_connection(), taken)
        }
        Err((_, conn)) => {
            drop(setup);
            (conn, Err(AllocError))
        }
    }
}

/// Adds the result of a row in an office over a store, which is returned; and of each sender the least number that was
/// asked for.
fn take_noted<K: Keeper>(
    alloc: Global,
    setup: Setup,
    keeper: K,
    row: &str,
    came: &mut String,
) -> (K, Result<(), AllocError>)
    requires { K.setup keeper ≡ setup }
{
    let noting = Noting {
        keeper,
        now: NOTHING,
        before: NOTHING,
    };
    let (noting, taken) = take_in_turn(alloc, Office::new(alloc, setup, noting), row, came);
    let Noting {
        keeper,
        now: _,
        before,
    } = noting;
    let told = put_notes(&before, came);
    (keeper, taken.and(told))
}

/// Takes the steps of each session in an office that knows nothing yet, each over the store of the one before. The last
/// one's store is returned.
fn take_in_turn<K: Keeper>(
    alloc: Global,
    office: Office<K>,
    row: &str,
    came: &mut String,
) -> (K, Result<(), AllocError>) {
    let mut office = office;
    let mut all = Ok(());
    for session in row.split(REOPEN) {
        let (anew, taken) = take_anew(alloc, office, session, came);
        office = anew;
        all = all.and(taken);
    }
    (office.into_keeper(), all)
}

/// Takes a session's steps in an office that knows nothing yet, over the store of another.
fn take_anew<K: Keeper>(
    alloc: Global,
    office: Office<K>,
    session: &str,
    came: &mut String,
) -> (Office<K>, Result<(), AllocError>) {
    match office.setup().copy(alloc) {
        Ok(setup) => {
            let mut anew = Office::new(alloc, setup, office.into_keeper());
            let taken = take_session(alloc, &mut anew, session, came);
            (anew, taken)
        }
        Err(_) => (office, Err(AllocError)),
    }
}

/// Adds the least number of each sender that was asked for.
fn put_notes(notes: &Notes, came: &mut String) -> Result<(), AllocError> {
    put_least("counted", &notes.counted, came)?;
    put_least("asked", &notes.asked, came)
}

/// Adds the least number of each sender, by its place, after a word.
fn put_least(word: &str, least: &Least, came: &mut String) -> Result<(), AllocError> {
    for (sender, number) in least.iter().enumerate() {
        if *number < u32::MAX {
            write!(came, "{word} sender {sender} from {number}\n")?;
        }
    }
    Ok(())
}
