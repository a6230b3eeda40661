//! The steps of a row.

use crate::rules::fault::Fault;
use crate::rules::given::put_given;
use crate::rules::kept::keep;
use crate::rules::mail::{read_mail, take_back, take_on};
use deb_version::NoMemory;
use jiff::civil::Date;
use office_mail::{Message, Setup};
use std::alloc::Global;
use testing_rules::{
    Archs, Excuses, FactRow, Facts, Testing, excuses, excuses_text, migrate, testing_text,
    update_text,
};

/// The state before a step: the mail so far and its facts, testing, how many runs are finished, and what they said. The
/// rows of the facts are kept if these are rebuilt after each run.
#[derive(Drop)]
struct Desk {
    mail: Vec<Message>,
    facts: Facts,
    rows: Option<Vec<FactRow>>,
    testing: Testing,
    runs: u32,
    said: String,
}

impl Desk {
    /// No mail, an empty testing and no run.
    fn new(alloc: Global, is_anew: bool) -> Desk {
        Desk {
            mail: Vec::new(alloc),
            facts: Facts::new(alloc),
            rows: if is_anew { Some(Vec::new(alloc)) } else { None },
            testing: Testing::new(alloc),
            runs: 0,
            said: String::new(alloc),
        }
    }
}

/// What the steps of a row say, over facts that continue or over facts that are rebuilt.
pub fn told(alloc: Global, setup: &Setup, row: &str, is_anew: bool) -> Result<String, Fault> {
    let mut desk = Desk::new(alloc, is_anew);
    take_steps(alloc, setup, &mut desk, row)?;
    Ok(desk.said)
}

/// Takes the steps of a row. The text before the first one is none.
fn take_steps(alloc: Global, setup: &Setup, desk: &mut Desk, row: &str) -> Result<(), Fault> {
    let mut steps = row.split("\n> ");
    let _name = steps.next();
    for step in steps {
        let (what, text) = step.split_once('\n').unwrap_or((step, ""));
        take_step(alloc, setup, desk, what, text)?;
    }
    Ok(())
}

/// Takes one step.
fn take_step(
    alloc: Global,
    setup: &Setup,
    desk: &mut Desk,
    what: &str,
    text: &str,
) -> Result<(), Fault> {
    if what == "mail" {
        take_mail(alloc, setup, desk, text)
    } else if let Some(runs) = what.strip_prefix("given ") {
        desk.runs = runs.parse().unwrap_or(0);
        give(alloc, setup, desk, text)
    } else if let Some(day) = what.strip_prefix("run ") {
        desk.runs = desk.runs.saturating_add(1);
        run(alloc, setup.archs(), desk, day)
    } else {
        Err(Fault::Wrong("no such step"))
    }
}

/// Mail comes, and the facts take it.
fn take_mail(alloc: Global, setup: &Setup, desk: &mut Desk, text: &str) -> Result<(), Fault> {
    let known = desk.mail.len();
    read_mail(alloc, setup, &mut desk.mail, text)?;
    take_news(desk, known)?;
    Ok(())
}

/// The facts take the mail from a place on. Facts that continue take it in order, and then all mail so far again, the
/// last one first. Facts that are rebuilt take only the new mail, the last one first.
fn take_news(desk: &mut Desk, known: usize) -> Result<(), NoMemory> {
    let news = desk.mail.get(known..).unwrap_or(&[]);
    if desk.rows.is_some() {
        return take_back(&mut desk.facts, news);
    }
    take_on(&mut desk.facts, news)?;
    take_back(&mut desk.facts, &desk.mail)
}

/// Builds testing from rows. Facts that are rebuilt continue over its copy.
fn give(alloc: Global, setup: &Setup, desk: &mut Desk, text: &str) -> Result<(), Fault> {
    put_given(alloc, setup, &desk.mail, &mut desk.testing, text)?;
    if desk.rows.is_some() {
        desk.testing = desk.testing.copy()?;
    }
    say_testing(alloc, setup.archs(), desk)?;
    Ok(())
}

/// A run. If facts are kept as rows, they are rebuilt after it.
fn run(alloc: Global, archs: &Archs, desk: &mut Desk, day: &str) -> Result<(), Fault> {
    let Ok(date) = day.parse::<Date>() else {
        return Err(Fault::Wrong("no such day"));
    };
    if desk.rows.is_none() {
        decide(alloc, archs, desk, date)?;
        return Ok(());
    }
    let before = desk.testing.copy()?;
    run_anew(alloc, archs, desk, date, &before)
}

/// A run, after which the facts are kept with its testing, and rebuilt from their rows.
fn run_anew(
    alloc: Global,
    archs: &Archs,
    desk: &mut Desk,
    date: Date,
    before: &Testing,
) -> Result<(), Fault> {
    decide(alloc, archs, desk, date)?;
    match &mut desk.rows {
        Some(rows) => keep(
            alloc,
            &desk.mail,
            &mut desk.facts,
            rows,
            before,
            &desk.testing,
        ),
        None => Ok(()),
    }
}

/// A run's excuses and its moves, and what it says.
fn decide(alloc: Global, archs: &Archs, desk: &mut Desk, date: Date) -> Result<(), NoMemory> {
    let run = desk.runs;
    let excuses = excuses(alloc, archs, &desk.facts, &desk.testing, date)?;
    say(
        &mut desk.said,
        excuses_text(alloc, archs, run, date, &excuses)?,
    )?;
    move_by(alloc, archs, desk, date, &excuses)?;
    say_testing(alloc, archs, desk)
}

/// A run's moves, and what they say.
fn move_by(
    alloc: Global,
    archs: &Archs,
    desk: &mut Desk,
    date: Date,
    excuses: &Excuses,
) -> Result<(), NoMemory> {
    let update = migrate(alloc, archs, &desk.facts, excuses, &mut desk.testing)?;
    say(
        &mut desk.said,
        update_text(alloc, archs, desk.runs, date, &update)?,
    )
}

/// What testing has.
fn say_testing(alloc: Global, archs: &Archs, desk: &mut Desk) -> Result<(), NoMemory> {
    say(
        &mut desk.said,
        testing_text(alloc, archs, desk.runs, &desk.testing)?,
    )
}

/// Appends a text to what was said.
fn say(said: &mut String, text: String) -> Result<(), NoMemory> {
    said.push_str(text.as_str())?;
    Ok(())
}
