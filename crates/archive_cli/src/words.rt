//! The programs' words, as clap reads them.

use crate::pages::{File, Page, Program};
use clap::builder::ValueParser;
use clap::error::ErrorKind;
use clap::{Arg, ArgAction, ArgMatches, Command, Error};
use std::alloc::{AllocError, Global};

const BACK: &str = "Allows packages and sources to go to a lower version";

/// How many may leave at most, whatever is asked for.
const MOST: u64 = 1_000_000_000;

/// What the words ask for.
#[derive(Clone, Copy)]
pub struct Asked<'a> {
    pub first: &'a str,
    pub second: &'a str,
    pub third: &'a str,
    pub gone: usize,
    pub back: bool,
}

/// Why words ask for nothing.
pub enum WordsFault {
    /// clap finds a fault in them, or they ask for help.
    Usage(Error),
    NoMemory,
}

impl From<AllocError> for WordsFault {
    fn from(_error: AllocError) -> WordsFault {
        WordsFault::NoMemory
    }
}

impl From<Error> for WordsFault {
    fn from(error: Error) -> WordsFault {
        match error.kind() {
            ErrorKind::OutOfMemory => WordsFault::NoMemory,
            _ => WordsFault::Usage(error),
        }
    }
}

/// A file that has to be named.
fn named<'a>(alloc: Global, file: File<'a>) -> Arg<'a> {
    Arg::new(alloc, file.id).help(file.help).required(true)
}

/// The words of both programs.
fn common<'a>(alloc: Global, page: Page<'a>) -> Result<Command<'a>, AllocError> {
    let gone = Arg::new(alloc, "gone")
        .long("gone")
        .value_name("N")
        .help(page.gone)
        .value_parser(ValueParser::unsigned(0, MOST))
        .default_value("0");
    Command::new(alloc, page.name)
        .about(page.about)
        .after_help(page.after)
        .arg(named(alloc, page.first))?
        .arg(named(alloc, page.second))?
        .arg(named(alloc, page.third))?
        .arg(gone)
}

/// A program's command.
fn command<'a>(alloc: Global, page: Page<'a>) -> Result<Command<'a>, AllocError> {
    match page.program {
        Program::Plan => {
            let back = Arg::new(alloc, "back")
                .long("back")
                .help(BACK)
                .action(ArgAction::SetTrue);
            common(alloc, page)?.arg(back)
        }
        Program::Sync => common(alloc, page),
    }
}

/// The text given under a name.
fn text_of<'a>(given: &ArgMatches<'a>, name: &str) -> &'a str {
    given.get_str(name).unwrap_or("")
}

/// Whether an option of `office-plan` is given.
fn is_set(given: &ArgMatches<'_>, program: Program, name: &str) -> bool {
    match program {
        Program::Plan => text_of(given, name) == "true",
        Program::Sync => false,
    }
}

/// What the words ask the program of a page for, its name being the first.
pub fn read_words<'a>(
    alloc: Global,
    page: Page<'a>,
    words: &'a [&'a str],
) -> Result<Asked<'a>, WordsFault> {
    let given = command(alloc, page)?.try_get_matches_from(words)?;
    Ok(Asked {
        first: text_of(&given, page.first.id),
        second: text_of(&given, page.second.id),
        third: text_of(&given, page.third.id),
        gone: usize::from_str_radix(text_of(&given, "gone"), 10).unwrap_or(0),
        back: is_set(&given, page.program, "back"),
    })
}
