//! What the programs do.

use crate::pages::{Program, page_of};
use crate::words::{Asked, WordsFault, read_words};
use archive_lists::{
    ListFault, ListedFault, Lists, due_lines, fault_lines, plan_lines, plan_of_lists, sync_of_lists,
};
use office_cli_words::{args_status, as_texts, read_args};
use std::alloc::{AllocError, Global};
use std::fs;

/// The exit status of lines that were printed.
const DONE: u8 = 0;

/// The exit status of words that ask for nothing.
const USAGE: u8 = 2;

/// The exit status of lists of which nothing is decided.
const REFUSED: u8 = 3;

/// The exit status of a failure of memory, a file or the output.
const FAILED: u8 = 4;

/// Why there are no lines.
#[derive(Drop)]
enum LinesFault {
    Listed(ListedFault),
    NoMemory,
}

impl From<ListedFault> for LinesFault {
    fn from(fault: ListedFault) -> LinesFault {
        LinesFault::Listed(fault)
    }
}

impl From<AllocError> for LinesFault {
    fn from(_error: AllocError) -> LinesFault {
        LinesFault::NoMemory
    }
}

/// Does what the arguments ask a program for, and gives the exit status.
pub fn run_program(rt: &HostRuntime, program: Program) -> u8 {
    let name = page_of(program).name;
    let args = match read_args(rt) {
        Ok(args) => args,
        Err(fault) => {
            let _ = eprintln!(rt; "{name}: {fault}");
            return args_status(&fault);
        }
    };
    match as_texts(rt.alloc(), &args) {
        Ok(texts) => run_texts(rt, program, &texts),
        Err(fault) => {
            let _ = eprintln!(rt; "{name}: {fault}");
            args_status(&fault)
        }
    }
}

/// Does what the arguments ask for, and gives the exit status.
fn run_texts(rt: &HostRuntime, program: Program, texts: &[&str]) -> u8 {
    match read_words(rt.alloc(), page_of(program), texts) {
        Ok(asked) => run_asked(rt, program, asked),
        Err(WordsFault::Usage(error)) => {
            let _ = error.print(rt);
            USAGE
        }
        Err(WordsFault::NoMemory) => failed(rt, program),
    }
}

/// Reads the three lists, and prints the lines.
fn run_asked(rt: &HostRuntime, program: Program, asked: Asked<'_>) -> u8 {
    let first = match read_file(rt, program, asked.first) {
        Ok(first) => first,
        Err(status) => return status,
    };
    let second = match read_file(rt, program, asked.second) {
        Ok(second) => second,
        Err(status) => return status,
    };
    let third = match read_file(rt, program, asked.third) {
        Ok(third) => third,
        Err(status) => return status,
    };
    let lists = Lists {
        first: first.as_str(),
        second: second.as_str(),
        third: third.as_str(),
    };
    match lines_of(rt.alloc(), program, asked, lists) {
        Ok(text) => print_text(rt, program, text.as_str(), DONE),
        Err(fault) => refused(rt, program, asked, fault),
    }
}

/// The text of a file, or the exit status after a line on standard error.
fn read_file(rt: &HostRuntime, program: Program, path: &str) -> Result<String, u8> {
    match fs::read_to_string(rt, path) {
        Ok(text) => Ok(text),
        Err(fault) => {
            let name = page_of(program).name;
            let _ = eprintln!(rt; "{name}: {path}: {fault}");
            Err(FAILED)
        }
    }
}

/// The lines that a program prints of lists.
fn lines_of(
    alloc: Global,
    program: Program,
    asked: Asked<'_>,
    lists: Lists<'_>,
) -> Result<String, LinesFault> {
    match program {
        Program::Plan => Ok(plan_lines(
            alloc,
            &plan_of_lists(alloc, lists, asked.gone, asked.back)?,
        )?),
        Program::Sync => Ok(due_lines(alloc, &sync_of_lists(alloc, lists, asked.gone)?)?),
    }
}

/// Says why there are no lines, on standard error or by lines of its own, and gives the exit status.
fn refused(rt: &HostRuntime, program: Program, asked: Asked<'_>, fault: LinesFault) -> u8 {
    match fault {
        LinesFault::Listed(ListedFault::First(fault)) => refused_list(
            rt,
            program,
            asked.first,
            fault,
        ),
        LinesFault::Listed(ListedFault::Second(fault)) => refused_list(
            rt,
            program,
            asked.second,
            fault,
        ),
        LinesFault::Listed(ListedFault::Third(fault)) => refused_list(
            rt,
            program,
            asked.third,
            fault,
        ),
        LinesFault::Listed(ListedFault::Decision(fault)) => match fault_lines(rt.alloc(), &fault) {
            Ok(Some(text)) => print_text(rt, program, text.as_str(), REFUSED),
            Ok(None) | Err(_) => failed(rt, program),
        },
        LinesFault::NoMemory => failed(rt, program),
    }
}

/// Prints a text, and gives the exit status.
fn print_text(rt: &HostRuntime, program: Program, text: &str, status: u8) -> u8 {
    match print!(rt; "{text}") {
        Ok(()) => status,
        Err(fault) => {
            let name = page_of(program).name;
            let _ = eprintln!(rt; "{name}: standard output: {fault}");
            FAILED
        }
    }
}

/// Says on standard error why a file has no list.
fn refused_list(rt: &HostRuntime, program: Program, path: &str, fault: ListFault) -> u8 {
    let name = page_of(program).name;
    let _ = eprintln!(rt; "{name}: {path}: {fault}");
    match fault {
        ListFault::NoMemory => FAILED,
        _ => REFUSED,
    }
}

/// Says on standard error that memory ran out.
fn failed(rt: &HostRuntime, program: Program) -> u8 {
    let name = page_of(program).name;
    let _ = eprintln!(rt; "{name}: out of memory");
    FAILED
}
