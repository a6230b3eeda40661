//! What an office over two files has when they are opened again after one of them stopped.

ghost use Rattle.std.specs.Prelude.{◌≡◌};

use crate::faults::{Met, due};
use crate::given::{EXCUSES, LETTERS, TESTING, UPDATES, first_letters};
use crate::offices::{bag_of, opened, replayed, setup_of};
use crate::verdicts::without_refusal;
use deb_version::NoMemory;
use office_http::{DeliverFault, Held, Office, Progress};
use office_mail::{MailFault, Setup};
use office_store::{Keeper, Tables};
use sqlite::{Alter, Connection, FileStore, Files, Options};
use sqlite_disk::{Crash, Disk, Fuse, Memory};
use std::alloc::Global;

/// What a file has, when its machine comes back, of the writes that weren't synced.
#[derive(Clone, Copy)]
pub enum Left {
    Nothing,
    Everything,
}

/// What is done over the files, until one stops.
#[derive(Clone, Copy)]
pub enum Way {
    /// Each letter is delivered, and a settle follows.
    Letters,
    /// The bag of all letters is replayed, which keeps them together.
    Bag,
    /// A store of schema 1 with all letters is opened.
    OldStore,
}

/// What the log and the database have before anything is done.
#[derive(Drop)]
pub struct Start {
    pub log: Vec<u8>,
    pub db: Vec<u8>,
}

/// Two files: the log stops after that many calls, and the database after that many.
#[derive(Clone, Copy)]
pub struct Stop {
    pub way: Way,
    pub log_calls: u64,
    pub db_calls: u64,
    pub left_of_log: Left,
    pub left_of_db: Left,
}

/// What the mail was answered until the stop.
#[derive(Clone, Copy)]
struct Answers {
    /// The letters that were answered held.
    held: [bool; 7],
    /// The letters whose delivery met the stop, if it wasn't a settle: all of them may be kept, or none.
    in_hand: [bool; 7],
    /// The runs that a settle said were finished.
    finished: u32,
    /// Each answer was the one that is due.
    all_due: bool,
    /// An answer was neither the one that is due nor that the store failed or memory ran out.
    wrong: bool,
}

/// Nothing was answered.
const NOTHING: Answers = Answers {
    held: [false; 7],
    in_hand: [false; 7],
    finished: 0,
    all_due: true,
    wrong: false,
};

/// All letters are kept, and both runs are finished.
const ALL_KEPT: Answers = Answers {
    held: [true; 7],
    finished: 2,
    ..NOTHING
};

/// What was answered before anything is done in this way.
fn begun(way: Way) -> Answers {
    match way {
        Way::Letters | Way::Bag => NOTHING,
        Way::OldStore => ALL_KEPT,
    }
}

/// Says of the letter at a place that it is one of these.
fn mark(letters: &mut [bool; 7], place: usize) {
    if let Some(flag) = letters.get_mut(place) {
        *flag = true;
    }
}

/// How many runs are ready once that many of the letters are kept in their order.
fn runs_after(letters: usize) -> u32 {
    match letters {
        0..=2 => 0,
        3..=6 => 1,
        _ => 2,
    }
}

/// Settles after a letter, when that many were held, and notes the answer.
fn settle_and_note<K: Keeper>(office: &mut Office<K>, held: usize, answers: &mut Answers) {
    let runs = runs_after(held);
    let settled = Progress {
        ready: runs,
        finished: runs,
    };
    match office.settle() {
        Ok(progress) => {
            if progress != settled {
                answers.wrong = true;
            }
            answers.finished = progress.finished;
        }
        Err(_) => answers.all_due = false,
    }
}

/// Notes the answer to the delivery of the letter at a place, and whether it is held.
fn note(place: usize, told: Result<Held, DeliverFault>, answers: &mut Answers) -> bool {
    match told {
        Ok(held) => {
            let is_due = LETTERS.get(place).is_some_and(|letter| letter.sender == held.sender
                && letter.number == held.number);
            if !is_due {
                answers.wrong = true;
            }
            mark(&mut answers.held, place);
            true
        }
        Err(DeliverFault::Store) | Err(DeliverFault::Mail(MailFault::NoMemory)) => {
            if answers.all_due {
                mark(&mut answers.in_hand, place);
            }
            answers.all_due = false;
            false
        }
        Err(_) => {
            answers.wrong = true;
            false
        }
    }
}

/// Delivers each letter, settles after it, and notes the answer.
fn deliver_all<K: Keeper>(office: &mut Office<K>) -> Answers {
    let mut answers = NOTHING;
    let mut count = 0usize;
    for (place, letter) in LETTERS.iter().enumerate() {
        let told = office.deliver(letter.text.as_bytes());
        if note(place, told, &mut answers) {
            count = count.saturating_add(1);
            settle_and_note(office, count, &mut answers);
        }
    }
    answers
}

/// What a replay of all letters prints, and its status.
fn printed<K: Keeper>(alloc: Global, office: &mut Office<K>) -> Result<(Vec<u8>, u8), NoMemory> {
    let bag = bag_of(alloc, first_letters(7))?;
    replayed(alloc, office, &bag)
}

/// Replays all letters as one bag, and notes what its lines say.
fn replay_all<K: Keeper>(alloc: Global, office: &mut Office<K>) -> Answers {
    match printed(alloc, office) {
        Ok((output, status)) => told_by(&output, status),
        Err(_) => unopened(Way::Bag),
    }
}

/// What the lines of a replay of all letters say that ended with this status.
fn told_by(output: &[u8], status: u8) -> Answers {
    let mut answers = NOTHING;
    let mut rest = output;
    for (place, letter) in LETTERS.iter().enumerate() {
        if let Some(later) = rest.strip_prefix(letter.reply.as_bytes()) {
            rest = later;
            mark(&mut answers.held, place);
        } else if let Some(later) = without_refusal(rest) {
            rest = later;
            mark(&mut answers.in_hand, place);
        } else {
            answers.wrong = true;
        }
    }
    let settled = rest.starts_with(b"ready 2 finished 2\n");
    answers.finished = if settled { 2 } else { 0 };
    answers.all_due = status == 0;
    if status == 0 && !(settled && rest.ends_with(TESTING[2].as_bytes())) {
        answers.wrong = true;
    }
    answers
}

/// Whether the letter at a place is one of these.
fn has(letters: &[bool; 7], place: usize) -> bool {
    letters.get(place).copied().unwrap_or(false)
}

/// Whether a store keeps the letters answered as held, and no others but those in hand, all or none of them.
fn keeps_what_was_held<K: Keeper>(keeper: &mut K, answers: &Answers) -> bool {
    let mut all = true;
    let mut kept = 0usize;
    let mut lost = 0usize;
    for (place, letter) in LETTERS.iter().enumerate() {
        let held = has(&answers.held, place);
        let in_hand = has(&answers.in_hand, place);
        let is_right = match keeper.find(letter.sender, letter.number) {
            Ok(Some(text)) => {
                kept = kept.saturating_add(if in_hand { 1 } else { 0 });
                (held || in_hand) && text.as_slice() == letter.text.as_bytes()
            }
            Ok(None) => {
                lost = lost.saturating_add(if in_hand { 1 } else { 0 });
                !held
            }
            Err(_) => false,
        };
        all = all && is_right;
    }
    all && (kept == 0 || lost == 0)
}

/// Whether an office returns these reports of a run, or none.
fn tells_run<K: Keeper>(
    office: &mut Office<K>,
    run: u32,
    excuses: Option<&'static str>,
    update: Option<&'static str>,
) -> bool {
    let tells_excuses = match office.excuses_text(run) {
        Ok(Some(text)) => Some(text.as_str()) == excuses,
        Ok(None) => excuses.is_none(),
        Err(_) => false,
    };
    let tells_update = match office.update_text(run) {
        Ok(Some(text)) => Some(text.as_str()) == update,
        Ok(None) => update.is_none(),
        Err(_) => false,
    };
    tells_excuses && tells_update
}

/// Whether an office returns testing and the reports of exactly that many runs.
fn tells_runs<K: Keeper>(office: &mut Office<K>, finished: u32) -> bool {
    let due_testing = TESTING.get(finished as usize).copied();
    let mut all = match office.testing_text() {
        Ok(text) => Some(text.as_str()) == due_testing,
        Err(_) => false,
    };
    for run in 1..=3u32 {
        let place = run.saturating_sub(1) as usize;
        let excuses = EXCUSES.get(place).copied().filter(|_text| run <= finished);
        let update = UPDATES.get(place).copied().filter(|_text| run <= finished);
        let tells = tells_run(office, run, excuses, update);
        all = all && tells;
    }
    all
}

/// What is wrong with an office over files that were opened again, if something is.
fn judge_office<K: Keeper>(
    alloc: Global,
    office: &mut Office<K>,
    finished: u32,
    answers: &Answers,
) -> Result<(), Met> {
    due(
        finished >= answers.finished && finished <= 2,
        "the count of runs",
    )?;
    due(tells_runs(office, finished), "testing or reports")?;
    let bag = bag_of(alloc, first_letters(7))?;
    let (output, status) = replayed(alloc, office, &bag)?;
    due(status == 0, "the bag again is refused")?;
    due(
        output.ends_with(TESTING[2].as_bytes()),
        "testing behind the bag again",
    )?;
    due(tells_runs(office, 2), "reports behind the bag again")
}

/// A connection to files, or the files if they can't be opened.
fn connected<D: Disk + Drop>(
    alloc: Global,
    files: Files<D>,
) -> Result<Connection<FileStore<D>>, Files<D>> {
    if !files.may_be_used() {
        return Err(files);
    }
    match Connection::open_files(alloc, files, Options::new(1)) {
        Ok(conn) => Ok(conn),
        Err((_error, left)) => Err(left.into_files()),
    }
}

/// The files of an office in which this is done until a stop, as they are left, and what was answered.
fn run_until_stop<D: Disk + Drop>(
    alloc: Global,
    setup: Setup,
    files: Files<D>,
    way: Way,
) -> (Answers, Files<D>) {
    match connected(alloc, files) {
        Ok(conn) => {
            let (conn, answers) = answered_over(alloc, setup, conn, way);
            (answers, conn.into_store().close())
        }
        Err(files) => {
            drop(setup);
            (unopened(way), files)
        }
    }
}

/// A connection after what is done in an office over it, and what was answered.
fn answered_over<S: Alter>(
    alloc: Global,
    setup: Setup,
    conn: Connection<S>,
    way: Way,
) -> (Connection<S>, Answers) {
    match opened(alloc, conn, &setup) {
        Ok(tables) => {
            let (tables, answers) = answered_in(alloc, setup, tables, way);
            (tables.into_connection(), answers)
        }
        Err((_met, conn)) => {
            drop(setup);
            (conn, unopened(way))
        }
    }
}

/// A store after what is done in an office over it, and what was answered.
fn answered_in<K: Keeper>(alloc: Global, setup: Setup, keeper: K, way: Way) -> (K, Answers)
    requires { K.setup keeper ≡ setup }
{
    let mut office = Office::new(alloc, setup, keeper);
    let answers = match way {
        Way::Letters => deliver_all(&mut office),
        Way::Bag => replay_all(alloc, &mut office),
        Way::OldStore => begun(way),
    };
    (office.into_keeper(), answers)
}

/// The answers if nothing was opened.
fn unopened(way: Way) -> Answers {
    Answers {
        all_due: false,
        ..begun(way)
    }
}

/// A file as it is when the machine comes back.
fn come_back(alloc: Global, file: Fuse<Memory>, left: Left) -> Result<Fuse<Memory>, Met> {
    match left {
        Left::Nothing => {
            let mut file = file;
            file.crash();
            Ok(file)
        }
        Left::Everything => {
            let written = file_of(alloc, file.inner().bytes(), u64::MAX);
            drop(file);
            written
        }
    }
}

/// A file that has synced these bytes, and stops after that many calls.
fn file_of(alloc: Global, bytes: &[u8], calls: u64) -> Result<Fuse<Memory>, Met> {
    let mut memory = Memory::new(alloc);
    if !bytes.is_empty() && (memory.write_at(0, bytes).is_err() || memory.sync().is_err()) {
        drop(memory);
        return Err(Met::NoMemory);
    }
    Ok(Fuse::new(memory, calls))
}

/// Two files that have these bytes, and each stop after that many calls.
fn files_of(
    alloc: Global,
    start: &Start,
    log_calls: u64,
    db_calls: u64,
) -> Result<Files<Fuse<Memory>>, Met> {
    let log = file_of(alloc, &start.log, log_calls)?;
    match file_of(alloc, &start.db, db_calls) {
        Ok(db) => Ok(Files { log, db }),
        Err(met) => {
            drop(log);
            Err(met)
        }
    }
}

/// No bytes at all.
fn nothing_yet(alloc: Global) -> Start {
    Start {
        log: Vec::new(alloc),
        db: Vec::new(alloc),
    }
}

/// What the files have in which this is to be done.
pub fn start_of(alloc: Global, way: Way) -> Result<Start, Met> {
    match way {
        Way::Letters | Way::Bag => Ok(nothing_yet(alloc)),
        Way::OldStore => old_store(alloc),
    }
}

/// What the files of a store of schema 1 with all letters and both runs finished have.
fn old_store(alloc: Global) -> Result<Start, Met> {
    let setup = setup_of(alloc)?;
    let start = nothing_yet(alloc);
    match files_of(alloc, &start, u64::MAX, u64::MAX) {
        Ok(files) => {
            let (_answers, files) = run_until_stop(alloc, setup, files, Way::Letters);
            bytes_of(alloc, aged(alloc, files))
        }
        Err(met) => {
            drop(setup);
            Err(met)
        }
    }
}

/// Files whose store is made one of schema 1.
fn aged<D: Disk + Drop>(alloc: Global, files: Files<D>) -> Files<D> {
    match connected(alloc, files) {
        Ok(conn) => {
            let mut conn = conn;
            let _dropped = conn.execute("DROP TABLE fact_delays", &[]);
            let _numbered = conn.execute("UPDATE office SET schema = 1", &[]);
            conn.into_store().close()
        }
        Err(files) => files,
    }
}

/// What files have.
fn bytes_of(alloc: Global, files: Files<Fuse<Memory>>) -> Result<Start, Met> {
    let log = Vec::from_slice(alloc, files.log.inner().bytes());
    let db = Vec::from_slice(alloc, files.db.inner().bytes());
    drop(files);
    Ok(Start { log: log?, db: db? })
}

/// Whether neither file has stopped.
fn still_run<D: Disk>(files: &mut Files<D>) -> bool {
    if !files.may_be_used() {
        return false;
    }
    let log_runs = files.log.len().is_ok();
    let db_runs = files.db.len().is_ok();
    log_runs && db_runs
}

/// Whether files are stopped in a run over them; what they have when they are opened again is judged.
pub fn stops(alloc: Global, start: &Start, stop: Stop) -> Result<bool, Met> {
    let setup = setup_of(alloc)?;
    match files_of(alloc, start, stop.log_calls, stop.db_calls) {
        Ok(files) => {
            let (answers, files) = run_until_stop(alloc, setup, files, stop.way);
            judge_stop(alloc, stop, &answers, files)
        }
        Err(met) => {
            drop(setup);
            Err(met)
        }
    }
}

/// Whether these files were stopped in a run that was answered so; what they have is judged.
fn judge_stop(
    alloc: Global,
    stop: Stop,
    answers: &Answers,
    files: Files<Fuse<Memory>>,
) -> Result<bool, Met> {
    let mut files = files;
    let ran_through = still_run(&mut files);
    judge_left(alloc, stop, answers, files.log, files.db)?;
    due(!answers.wrong, "an answer")?;
    due(answers.all_due || !ran_through, "an answer with no stop")?;
    Ok(!ran_through)
}

/// What is wrong with a log and a database once the machine comes back, if something is.
fn judge_left(
    alloc: Global,
    stop: Stop,
    answers: &Answers,
    log: Fuse<Memory>,
    db: Fuse<Memory>,
) -> Result<(), Met> {
    match come_back(alloc, log, stop.left_of_log) {
        Ok(log) => judge_database(alloc, stop, answers, log, db),
        Err(met) => {
            drop(db);
            Err(met)
        }
    }
}

/// What is wrong with a database, with the log that came back, if something is.
fn judge_database(
    alloc: Global,
    stop: Stop,
    answers: &Answers,
    log: Fuse<Memory>,
    db: Fuse<Memory>,
) -> Result<(), Met> {
    match come_back(alloc, db, stop.left_of_db) {
        Ok(db) => judge_files(alloc, Files { log, db }, answers),
        Err(met) => {
            drop(log);
            Err(met)
        }
    }
}

/// What is wrong with files that are opened again, if something is.
fn judge_files<D: Disk + Drop>(
    alloc: Global,
    files: Files<D>,
    answers: &Answers,
) -> Result<(), Met> {
    match connected(alloc, files) {
        Ok(conn) => judge_connection(alloc, conn, answers),
        Err(files) => {
            drop(files);
            Err(Met::Wrong("the files aren't opened again"))
        }
    }
}

/// What is wrong with files that are opened again in this connection, if something is.
fn judge_connection<S: Alter + Drop>(
    alloc: Global,
    conn: Connection<S>,
    answers: &Answers,
) -> Result<(), Met> {
    match setup_of(alloc) {
        Ok(setup) => judge_over(alloc, setup, conn, answers),
        Err(met) => {
            drop(conn);
            Err(met)
        }
    }
}

/// What is wrong with the office over a connection, for a setup, if something is.
fn judge_over<S: Alter + Drop>(
    alloc: Global,
    setup: Setup,
    conn: Connection<S>,
    answers: &Answers,
) -> Result<(), Met> {
    match opened(alloc, conn, &setup) {
        Ok(tables) => judge_kept(alloc, setup, tables, answers),
        Err((met, conn)) => {
            drop(conn);
            drop(setup);
            Err(met)
        }
    }
}

/// What is wrong with tables, if something is: with the mail that they keep, and with the office over them once they
/// are opened once more.
fn judge_kept<S: Alter + Drop>(
    alloc: Global,
    setup: Setup,
    tables: Tables<S>,
    answers: &Answers,
) -> Result<(), Met> {
    let mut tables = tables;
    let keeps = keeps_what_was_held(&mut tables, answers);
    let finished = tables.finished().unwrap_or(9);
    let judged = judge_runs(alloc, setup, tables.into_connection(), finished, answers);
    due(keeps, "the mail").and(judged)
}

/// What is wrong with the office over a connection, by the count of its finished runs, if something is.
fn judge_runs<S: Alter + Drop>(
    alloc: Global,
    setup: Setup,
    conn: Connection<S>,
    finished: u32,
    answers: &Answers,
) -> Result<(), Met> {
    match opened(alloc, conn, &setup) {
        Ok(tables) => {
            let (tables, judged) = judge_in(alloc, setup, tables, finished, answers);
            drop(tables.into_connection());
            judged
        }
        Err((met, conn)) => {
            drop(conn);
            drop(setup);
            Err(met)
        }
    }
}

/// What is wrong with the office over a store, which is returned, if something is.
fn judge_in<K: Keeper>(
    alloc: Global,
    setup: Setup,
    keeper: K,
    finished: u32,
    answers: &Answers,
) -> (K, Result<(), Met>)
    requires { K.setup keeper ≡ setup }
{
    let mut office = Office::new(alloc, setup, keeper);
    let judged = judge_office(alloc, &mut office, finished, answers);
    (office.into_keeper(), judged)
}
