//! What the program's words ask for: a comparison, the version, why sources stand where a run left them, what changes
//! break, a trial of hints, a proposal of some, or a task over a store.

use crate::answers::{print_report, print_version, print_waiting};
use crate::checks::print_check;
use crate::noted::FaultKeepingReader;
use crate::printer::Printer;
use crate::questions::{Question, print_answer};
use crate::reasons::{Ask, ask_for, hints_for, why_for};
use crate::service::{serve, service_status};
use crate::setups::{Detail, detail_of, role_words};
use crate::status::ExitStatus;
use crate::trials::{propose_for, refuse_day, try_for};
use office_cli_words::{Report, Words, compare, refuse_report};
use office_http::{Office, Replayed, WriteFault, replay_status, replay_watched};
use office_mail::{Bag, BagFault, FromRead, Setup, ToWrite};
use office_mail_setup::values::day_in;
use office_store::{
    ConfFault, FileFault, Keeper, Plain, Tables, close_store, conf_status, open_store, read_setup,
    store_status,
};
use sqlite::{File, FileStore, Unknown};
use std::io::{BufWriter, Write};
use std::{fs, io, mem};

/// What is done in an office, once its store is open.
#[derive(Clone, Copy)]
enum Task<'a> {
    /// The bag on standard input is replayed.
    Replay,
    /// So many connections are served on a port, as these hosts.
    Serve {
        port: u32,
        connections: u32,
        hosts: &'a [&'a str],
    },
    /// What the first run that isn't ready waits for is printed.
    Waiting,
    /// Delivers the bag on standard input, and then prints what the first run that isn't ready waits for.
    BagWaiting,
    /// Prints a report.
    Report(Report),
    /// Answers a question.
    Answer(Question),
    /// Prints the refused messages of the bag on standard input.
    Lint,
}

/// Does what words ask for, and returns the exit status.
pub fn run_command(rt: &HostRuntime, words: Words) -> u8 {
    match words {
        Words::Compare { v1, op, v2 } => compare(rt, v1, op, v2),
        Words::Replay { conf, db } => run_for(rt, conf, db, Task::Replay),
        Words::Serve {
            conf,
            port,
            db,
            connections,
            hosts,
        } => serve_for(rt, conf, db, port, connections, &hosts),
        Words::Waiting { conf, db: None } => run_for(rt, conf, None, Task::BagWaiting),
        Words::Waiting { conf, db } => run_for(rt, conf, db, Task::Waiting),
        Words::Report { conf, db, report } => run_for(rt, conf, Some(db), Task::Report(report)),
        Words::UnknownReport { run, report } => refuse_report(rt, run, report),
        Words::Runs { conf, db } => answer_for(rt, conf, db, Question::Runs),
        Words::Mail { conf, db, list } => {
            answer_for(rt, conf, db, Question::Mail { is_list: list })
        }
        Words::Export { conf, db } => answer_for(rt, conf, db, Question::Export),
        Words::Check { conf, db } => check_for(rt, conf, db),
        Words::Why {
            conf,
            db,
            run,
            hint: false,
            sources,
        } => why_for(rt, conf, db, run, &sources),
        Words::Why {
            conf,
            db,
            run,
            hint: true,
            sources: words,
        } => hints_for(rt, conf, db, run, &words),
        Words::Try {
            conf,
            db,
            day,
            all,
            hints,
        } => try_for(rt, conf, db, day, all, &hints),
        Words::Lint { conf } => run_for(rt, conf, None, Task::Lint),
        Words::Order { day, conf, db } => order_for(rt, day, conf, db),
        Words::Hints { conf, db } => answer_for(rt, conf, db, Question::Hints),
        Words::Propose {
            conf,
            db,
            day,
            all,
            sources,
        } => propose_for(rt, conf, db, day, all, &sources),
        Words::Breaks {
            conf,
            db,
            run,
            changes,
        } => ask_for(rt, conf, db, run, Ask::Changes(&changes)),
        Words::Version => print_version(rt),
    }
}

/// Serves on a port, as these hosts, for the setup in a file, over the store in another or in memory.
fn serve_for(
    rt: &HostRuntime,
    conf: &str,
    db: Option<&str>,
    port: u32,
    connections: u32,
    hosts: &[&str],
) -> u8 {
    let task = Task::Serve {
        port,
        connections,
        hosts,
    };
    run_for(rt, conf, db, task)
}

/// Answers a question for the setup in a file, from the store in another.
fn answer_for(rt: &HostRuntime, conf: &str, db: &str, question: Question) -> u8 {
    run_for(rt, conf, Some(db), Task::Answer(question))
}

/// Prints the next order on a day for the setup in a file, from the store in another.
fn order_for(rt: &HostRuntime, day: &str, conf: &str, db: &str) -> u8 {
    match day_in(day) {
        Some(date) => answer_for(rt, conf, db, Question::Order(date)),
        None => refuse_day(rt, day),
    }
}

pub(crate) fn out_of_memory(rt: &HostRuntime) -> u8 {
    let _ = eprintln!(rt; "office: out of memory");
    ExitStatus::Failed.code()
}

/// Does a task for the setup in a file, over the store in a file or in memory.
fn run_for(rt: &HostRuntime, conf: &str, db: Option<&str>, task: Task<'_>) -> u8 {
    match read_setup(rt, conf) {
        Ok(setup) => match db {
            Some(path) => run_stored(rt, path, setup, task),
            None => run_in_memory(rt, setup, task),
        },
        Err(fault) => refuse_setup(rt, conf, &fault),
    }
}

/// Checks the store in a file for the setup in another.
fn check_for(rt: &HostRuntime, conf: &str, db: &str) -> u8 {
    match read_setup(rt, conf) {
        Ok(setup) => check_stored(rt, db, &setup),
        Err(fault) => refuse_setup(rt, conf, &fault),
    }
}

/// Prints on standard error why the setup in a file is refused, and returns the exit status.
pub(crate) fn refuse_setup(rt: &HostRuntime, conf: &str, fault: &ConfFault) -> u8 {
    let detail = match fault {
        ConfFault::Refused(fault) => detail_of(rt, conf, *fault),
        ConfFault::Unreadable(_) => None,
    };
    let _ = match detail {
        Some(Detail::Line(line)) => {
            eprintln!(rt; "office: {conf}: {fault}: see the paragraph at line {line}")
        }
        Some(Detail::Role(place, count)) => {
            let (role, due) = role_words(place);
            eprintln!(rt; "office: {conf}: {fault}: {role} has {count}, and {due} is due")
        }
        None => eprintln!(rt; "office: {conf}: {fault}"),
    };
    conf_status(fault)
}

/// Checks that a file exists.
pub(crate) fn find_file(rt: &HostRuntime, path: &str) -> io::Result<()> {
    fs::open(rt, path).map(drop)
}

/// Looks whether the file is there that a task reads. Only a replay and a service make one.
fn find_store_file(rt: &HostRuntime, path: &str, task: Task<'_>) -> io::Result<()> {
    match task {
        Task::Waiting | Task::Report(_) | Task::Answer(_) => find_file(rt, path),
        Task::Replay | Task::Serve { .. } | Task::BagWaiting | Task::Lint => Ok(()),
    }
}

/// Prints on standard error why a store's file can't be read, and returns the exit status.
pub(crate) fn refuse_unfound(rt: &HostRuntime, path: &str, fault: io::Error) -> u8 {
    let _ = eprintln!(rt; "office: {path}: the file can't be read: {fault}");
    ExitStatus::Failed.code()
}

/// Does a task in an office whose store is in a file.
fn run_stored(rt: &HostRuntime, path: &str, setup: Setup, task: Task<'_>) -> u8 {
    if let Err(fault) = find_store_file(rt, path, task) {
        return refuse_unfound(rt, path, fault);
    }
    match open_store(rt, path, Unknown, &setup) {
        Ok(tables) => {
            let mut office = Office::new(rt.alloc(), setup, tables);
            let status = run_over(rt, &mut office, task);
            end_store(rt, path, office.into_keeper(), status)
        }
        Err(fault) => refuse_store(rt, path, &fault),
    }
}

/// Checks the store in a file.
fn check_stored(rt: &HostRuntime, path: &str, setup: &Setup) -> u8 {
    if let Err(fault) = find_file(rt, path) {
        return refuse_unfound(rt, path, fault);
    }
    match open_store(rt, path, Unknown, setup) {
        Ok(tables) => {
            let mut tables = tables;
            let status = print_check(rt, setup, &mut tables);
            end_store(rt, path, tables, status)
        }
        Err(fault) => refuse_store(rt, path, &fault),
    }
}

/// Closes the store of a task that ended with a status, and returns the exit status.
pub(crate) fn end_store(
    rt: &HostRuntime,
    path: &str,
    tables: Tables<FileStore<File>>,
    status: u8,
) -> u8 {
    match close_store(tables) {
        Ok(()) => status,
        Err(fault) => refuse_store(rt, path, &fault),
    }
}

/// Prints on standard error why a store in a file was refused, and returns the exit status.
pub(crate) fn refuse_store(rt: &HostRuntime, path: &str, fault: &FileFault) -> u8 {
    let _ = eprintln!(rt; "office: {path}: {fault}");
    store_status(fault)
}

/// Does a task in an office whose store is in memory. The process ends behind it, which gives back all memory at once, so
/// the office's values aren't let go one by one.
fn run_in_memory(rt: &HostRuntime, setup: Setup, task: Task<'_>) -> u8 {
    match Plain::new(rt.alloc(), &setup) {
        Ok(plain) => {
            let mut office = Office::new(rt.alloc(), setup, plain);
            let status = run_over(rt, &mut office, task);
            mem::forget(office);
            status
        }
        Err(_) => out_of_memory(rt),
    }
}

/// Does a task in an office.
fn run_over<K: Keeper>(rt: &HostRuntime, office: &mut Office<K>, task: Task<'_>) -> u8 {
    match task {
        Task::Replay => replay_over(rt, office),
        Task::Serve {
            port,
            connections,
            hosts,
        } => serve_over(rt, office, port, connections, hosts),
        Task::Waiting => print_waiting(rt, office),
        Task::BagWaiting => deliver_and_print(rt, office),
        Task::Report(report) => print_report(rt, office, report),
        Task::Answer(question) => print_answer(rt, office, question),
        Task::Lint => lint_over(rt, office),
    }
}

/// Replays the bag on standard input in an office, and prints the results.
fn replay_over<K: Keeper>(rt: &HostRuntime, office: &mut Office<K>) -> u8 {
    let Ok(mut output) = BufWriter::new(rt.alloc(), rt.stdout()) else {
        return out_of_memory(rt);
    };
    replay_to(rt, office, &mut output)
}

/// Delivers the bag on standard input, and prints only its refused messages.
fn lint_over<K: Keeper>(rt: &HostRuntime, office: &mut Office<K>) -> u8 {
    let mut printer = Printer::new(rt);
    match replay_printed(rt, office, &mut io::sink(), &mut printer) {
        0 if printer.has_refused() => ExitStatus::Negative.code(),
        status => status,
    }
}

/// Delivers the bag on standard input, and prints what the first run that isn't ready waits for. If the bag is refused
/// or mail was lost, prints only that.
fn deliver_and_print<K: Keeper>(rt: &HostRuntime, office: &mut Office<K>) -> u8 {
    match replay_to(rt, office, &mut io::sink()) {
        0 => print_waiting(rt, office),
        status => status,
    }
}

/// Replays the bag on standard input in an office, and returns the exit status.
pub(crate) fn replay_to<K: Keeper, W: Write>(
    rt: &HostRuntime,
    office: &mut Office<K>,
    output: &mut W,
) -> u8 {
    replay_printed(rt, office, output, &mut Printer::new(rt))
}

/// Replays the bag on standard input in an office, with reports by this printer, and returns the exit status.
fn replay_printed<K: Keeper, W: Write>(
    rt: &HostRuntime,
    office: &mut Office<K>,
    output: &mut W,
    printer: &mut Printer<'_>,
) -> u8 {
    let mut writer = ToWrite::new(&mut *output);
    let mut input = FaultKeepingReader::new(rt.stdin());
    let mut bag = Bag::new(rt.alloc(), FromRead::new(&mut input));
    let mut replayed = replay_watched(office, &mut bag, &mut writer, printer);
    drop(bag);
    if output.flush().is_err() {
        replayed = Err(WriteFault);
    }
    print_replay_faults(rt, &replayed, input.fault());
    replay_status(&replayed)
}

/// Serves so many connections on a port, as these hosts, over an office.
fn serve_over<K: Keeper>(
    rt: &HostRuntime,
    office: &mut Office<K>,
    port: u32,
    connections: u32,
    hosts: &[&str],
) -> u8 {
    let served = serve(rt, office, port, connections, hosts);
    if let Err(fault) = &served {
        let _ = eprintln!(rt; "office: 127.0.0.1:{port}: {fault}");
    }
    service_status(&served)
}

/// Prints on standard error what was refused, if something was.
fn print_replay_faults(
    rt: &HostRuntime,
    replayed: &Result<Replayed, WriteFault>,
    unread: Option<io::Error>,
) {
    let _ = match replayed {
        Err(_) => eprintln!(rt; "office: standard output: a write failed"),
        Ok(replayed) => {
            if let Some(fault) = replayed.bag {
                print_bag_fault(rt, fault, unread);
            }
            if replayed.lost {
                eprintln!(rt;
                    "office: memory ran out or the store failed, and mail or a text was lost: deliver the same bag again"
                )
            } else {
                Ok(())
            }
        }
    };
}

/// Prints on standard error why a bag was refused, and why a read failed, if one did.
fn print_bag_fault(rt: &HostRuntime, fault: BagFault, unread: Option<io::Error>) {
    let _ = match (fault, unread) {
        (BagFault::ReadFault, Some(unread)) => {
            eprintln!(rt; "office: standard input: the bag is refused: a read failed: {unread}")
        }
        (BagFault::ReadFault, None) => {
            eprintln!(rt;
                "office: standard input: the bag is refused: 1,000,000 reads didn't reach its end"
            )
        }
        _ => eprintln!(rt; "office: standard input: the bag is refused: {fault}"),
    };
}
