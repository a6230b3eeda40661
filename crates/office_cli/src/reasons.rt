//! Why sources stand where a run left them, what a run made of hints, and what changes break; and where an office is
//! made that is asked.

ghost use Rattle.std.specs.Prelude.{◌≡◌, if◌then◌else◌, IfOk};
ghost use Rattle.office_cli.specs.steps.Told.{IsAsked};
ghost use Rattle.office_core.specs.Preserves.{Holds};
ghost use Rattle.office_core_facts.specs.State.{state_of};

use crate::answers::{print_text, refuse, refuse_unfinished};
use crate::status::ExitStatus;
use crate::tasks::{
    end_store, find_file, out_of_memory, refuse_setup, refuse_store, refuse_unfound, replay_to,
};
use crate::trials::{NextAsk, print_next};
use office_core_breaks::question_in;
use office_core_check::{office_after, office_before, why_of_run};
use office_core_replies::{DeliverFault, fault_words};
use office_http::{Office, StoreFault};
use office_mail::{MAX_NUMBER, MailFault, Setup};
use office_store::{Keeper, Plain, open_store, read_setup};
use sqlite::Unknown;
use std::io;

/// What is asked of a run, or of the next one.
#[derive(Clone, Copy)]
pub(crate) enum Ask<'a> {
    /// Why these sources stand where it left them.
    Sources(&'a [&'a str]),
    /// What it made of the hints with these numbers.
    Hints(&'a [u32]),
    /// What changes break that these words name, where it left testing.
    Changes(&'a [&'a str]),
    /// What the next run would do.
    Next(NextAsk<'a>),
}

/// The run that is asked about, by the finished ones.
#[derive(Drop)]
pub enum WhichRun {
    /// The last finished one, also if no run is named.
    Last { run: u32 },
    /// An earlier one.
    Earlier { run: u32 },
    /// One that isn't finished.
    Unfinished,
}

/// Prints why sources are where a run left them, for the setup in a file, over the store in another or over the bag on
/// standard input, and returns the exit status. Without a run it is the last finished one.
pub fn why_for(
    rt: &HostRuntime,
    conf: &str,
    db: Option<&str>,
    run: Option<u32>,
    sources: &[&str],
) -> u8 {
    ask_for(rt, conf, db, run, Ask::Sources(sources))
}

/// Prints what a run made of the hints with these numbers, for the setup in a file, over the store in another or the
/// bag on standard input, and returns the exit status. Without a run it is the last finished one.
pub fn hints_for(
    rt: &HostRuntime,
    conf: &str,
    db: Option<&str>,
    run: Option<u32>,
    words: &[&str],
) -> u8 {
    let mut numbers = Vec::new(rt.alloc());
    for word in words {
        match number_of(word) {
            Some(number) => {
                if numbers.push(number).is_err() {
                    return out_of_memory(rt);
                }
            }
            None => return refuse_number(rt, word),
        }
    }
    ask_for(rt, conf, db, run, Ask::Hints(&numbers))
}

/// The number of a message that a word names.
fn number_of(word: &str) -> Option<u32> {
    match u32::from_str_radix(word, 10) {
        Ok(number) if 1 <= number && number <= MAX_NUMBER => Some(number),
        _ => None,
    }
}

/// Prints on standard error that a word is no number of a hint, and returns the exit status.
fn refuse_number(rt: &HostRuntime, word: &str) -> u8 {
    let _ = eprintln!(rt; "office: '{word}': no number of a hint");
    ExitStatus::Usage.code()
}

/// Asks a run, for the setup in a file, over the store in another or over the bag on standard input.
pub(crate) fn ask_for(
    rt: &HostRuntime,
    conf: &str,
    db: Option<&str>,
    run: Option<u32>,
    ask: Ask<'_>,
) -> u8 {
    match read_setup(rt, conf) {
        Ok(setup) => match db {
            Some(path) => ask_stored(rt, path, setup, run, ask),
            None => ask_in_memory(rt, setup, run, ask),
        },
        Err(fault) => refuse_setup(rt, conf, &fault),
    }
}

/// Asks a run over the store in a file.
fn ask_stored(rt: &HostRuntime, path: &str, setup: Setup, run: Option<u32>, ask: Ask<'_>) -> u8 {
    if let Err(fault) = find_file(rt, path) {
        return refuse_unfound(rt, path, fault);
    }
    let Ok(copy) = setup.copy(rt.alloc()) else {
        return out_of_memory(rt);
    };
    match open_store(rt, path, Unknown, &setup) {
        Ok(tables) => {
            let office = Office::new(rt.alloc(), setup, tables);
            let (tables, status) = print_asked(rt, &copy, office, run, ask);
            end_store(rt, path, tables, status)
        }
        Err(fault) => refuse_store(rt, path, &fault),
    }
}

/// Asks a run over the bag on standard input. If the bag is refused or mail was lost, prints only that.
fn ask_in_memory(rt: &HostRuntime, setup: Setup, run: Option<u32>, ask: Ask<'_>) -> u8 {
    let Ok(copy) = setup.copy(rt.alloc()) else {
        return out_of_memory(rt);
    };
    match Plain::new(rt.alloc(), &setup) {
        Ok(plain) => {
            let mut office = Office::new(rt.alloc(), setup, plain);
            match replay_to(rt, &mut office, &mut io::sink()) {
                0 => {
                    let (_plain, status) = print_asked(rt, &copy, office, run, ask);
                    status
                }
                status => status,
            }
        }
        Err(_) => out_of_memory(rt),
    }
}

/// Prints what is asked of a run of an office, and returns the office's store with the exit status.
fn print_asked<K: Keeper>(
    rt: &HostRuntime,
    setup: &Setup,
    office: Office<K>,
    run: Option<u32>,
    ask: Ask<'_>,
) -> (K, u8) {
    match ask {
        Ask::Sources(_) | Ask::Changes(_) => print_left(rt, setup, office, run, ask),
        Ask::Hints(_) => print_hints(rt, setup, office, run, ask),
        Ask::Next(next) => {
            let mut office = office;
            let status = print_next(rt, &mut office, next);
            (office.into_keeper(), status)
        }
    }
}

/// Prints what is asked of the testing that a run of an office left, and gives the office's store with the exit status.
fn print_left<K: Keeper>(
    rt: &HostRuntime,
    setup: &Setup,
    office: Office<K>,
    run: Option<u32>,
    ask: Ask<'_>,
) -> (K, u8) {
    let mut office = office;
    match asked_run(&mut office, run) {
        Ok(WhichRun::Earlier { run }) => {
            let mut keeper = office.into_keeper();
            let status = print_earlier(rt, setup, &mut keeper, run, ask);
            (keeper, status)
        }
        asked => {
            let status = print_last(rt, &mut office, asked, ask);
            (office.into_keeper(), status)
        }
    }
}

/// Prints what a run of an office made of hints, and returns the office's store with the exit status.
fn print_hints<K: Keeper>(
    rt: &HostRuntime,
    setup: &Setup,
    office: Office<K>,
    run: Option<u32>,
    ask: Ask<'_>,
) -> (K, u8) {
    let mut office = office;
    let asked = asked_run(&mut office, run);
    let mut keeper = office.into_keeper();
    let status = match asked {
        Ok(WhichRun::Earlier { run }) | Ok(WhichRun::Last { run }) if run > 0 => {
            print_hints_of(rt, setup, &mut keeper, run, ask)
        }
        Ok(_) => refuse_unfinished(rt),
        Err(fault) => refuse(rt, fault),
    };
    (keeper, status)
}

/// Prints what a finished run of a store made of hints, over an office in memory as it was before the run, and returns
/// the exit status.
fn print_hints_of<K: Keeper>(
    rt: &HostRuntime,
    setup: &Setup,
    keeper: &mut K,
    run: u32,
    ask: Ask<'_>,
) -> u8 {
    match office_before(rt.alloc(), setup, keeper, run) {
        Ok(Some(office)) => {
            let mut office = office;
            print_each(rt, &mut office, run, ask)
        }
        Ok(None) => refuse_other_mail(rt),
        Err(fault) => refuse(rt, fault),
    }
}

/// How many things are asked for.
fn count_of(ask: Ask<'_>) -> usize {
    match ask {
        Ask::Sources(words) | Ask::Changes(words) => words.len(),
        Ask::Hints(numbers) => numbers.len(),
        Ask::Next(_) => 0,
    }
}

/// Prints what is known of each thing that is asked for, and gives the exit status.
fn print_each<K: Keeper>(rt: &HostRuntime, office: &mut Office<K>, run: u32, ask: Ask<'_>) -> u8 {
    let mut status = 0;
    for place in 0..count_of(ask) {
        match print_one(rt, office, run, ask, place) {
            0 => {}
            code if code == ExitStatus::Negative.code() => status = code,
            failed => return failed,
        }
    }
    status
}

/// Prints what is known of the thing at a place of those that are asked for, and gives the exit status.
fn print_one<K: Keeper>(
    rt: &HostRuntime,
    office: &mut Office<K>,
    run: u32,
    ask: Ask<'_>,
    place: usize,
) -> u8 {
    match ask {
        Ask::Sources(words) => print_source(
            rt,
            office,
            run,
            words.get(place).map_or("", |word| *word),
        ),
        Ask::Changes(words) => print_change(rt, office, words.get(place).map_or("", |word| *word)),
        Ask::Hints(numbers) => print_hint(rt, office, numbers.get(place).map_or(0, |n| *n)),
        Ask::Next(_) => 0,
    }
}

/// Prints what the next run of an office makes of a hint, and gives the exit status.
fn print_hint<K: Keeper>(rt: &HostRuntime, office: &mut Office<K>, number: u32) -> u8 {
    match office.hint_told(number) {
        Ok(Some(told)) => print_text(rt, &told.text, known_status(told.is_known)),
        Ok(None) => ExitStatus::Negative.code(),
        Err(fault) => refuse(rt, fault),
    }
}

/// Prints what a change breaks that words name where the last run of an office left testing, and gives the exit status.
/// Words that name none are refused on standard error.
fn print_change<K: Keeper>(rt: &HostRuntime, office: &mut Office<K>, words: &str) -> u8 {
    match question_in(rt.alloc(), office.setup(), words) {
        Ok(question) => match office.breaks_text(&question) {
            Ok(Some(told)) => print_text(rt, &told.text, known_status(told.is_known)),
            Ok(None) => refuse_unfinished(rt),
            Err(fault) => refuse(rt, fault),
        },
        Err(MailFault::NoMemory) => refuse(rt, StoreFault::NoMemory),
        Err(fault) => {
            let (cause, field) = fault_words(DeliverFault::Mail(fault));
            let _ = eprintln!(rt; "office: '{words}': refused {cause}{field}");
            ExitStatus::Refused.code()
        }
    }
}

/// The exit status for what is printed: 1 where what is asked for isn't known.
fn known_status(is_known: bool) -> u8
    ensures { result ≡ (if is_known then 0 else 1) }
{
    if is_known {
        0
    } else {
        ExitStatus::Negative.code()
    }
}

/// Prints on standard error that the store isn't what its mail gives, and returns the exit status.
fn refuse_other_mail(rt: &HostRuntime) -> u8 {
    let _ = eprintln!(rt; "office: the store isn't what its mail gives: office check shows where");
    ExitStatus::Negative.code()
}

/// The run that is asked about.
fn asked_run<K: Keeper>(office: &mut Office<K>, run: Option<u32>) -> Result<WhichRun, StoreFault>
    ensures asked { Holds K.Keeper office.old office.new → IfOk result (IsAsked (state_of K.Keeper office.old).finished run) }
    // Nothing is finished and nothing else changes.
    ensures same { K.is_trusted office.new → K.content office.new ≡ K.content office.old }
{
    let finished = office.finished()?;
    Ok(asked_of(finished, run))
}

/// The run that is asked about, given the number of finished runs.
fn asked_of(finished: u32, run: Option<u32>) -> WhichRun
    ensures { IsAsked finished run result }
{
    match run {
        Some(run) if run < finished => WhichRun::Earlier { run },
        Some(run) if run > finished => WhichRun::Unfinished,
        _ => WhichRun::Last { run: finished },
    }
}

/// Prints what is asked of the last finished run, and gives the exit status. Nothing is printed for a run that isn't
/// finished.
fn print_last<K: Keeper>(
    rt: &HostRuntime,
    office: &mut Office<K>,
    asked: Result<WhichRun, StoreFault>,
    ask: Ask<'_>,
) -> u8 {
    match asked {
        Ok(WhichRun::Last { run }) => print_each(rt, office, run, ask),
        Ok(_) => refuse_unfinished(rt),
        Err(fault) => refuse(rt, fault),
    }
}

/// Prints what is asked of an earlier run of a store, over an office in memory that is as that run left it, and gives
/// the exit status.
fn print_earlier<K: Keeper>(
    rt: &HostRuntime,
    setup: &Setup,
    keeper: &mut K,
    run: u32,
    ask: Ask<'_>,
) -> u8 {
    match office_after(rt.alloc(), setup, keeper, run) {
        Ok(Some(office)) => {
            let mut office = office;
            print_each(rt, &mut office, run, ask)
        }
        Ok(None) => refuse_other_mail(rt),
        Err(fault) => refuse(rt, fault),
    }
}

/// Prints why a source stands where a run left it, by an office of which that is the last finished run, and gives the
/// exit status. Nothing is printed where no run is finished.
fn print_source<K: Keeper>(rt: &HostRuntime, office: &mut Office<K>, run: u32, source: &str) -> u8 {
    match why_of_run(office, run, source) {
        Ok(Some(why)) => print_text(rt, &why.text, known_status(why.is_known)),
        Ok(None) => ExitStatus::Negative.code(),
        Err(fault) => refuse(rt, fault),
    }
}
