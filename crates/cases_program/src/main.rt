//! Rows and parts of the whole office. Worked rows come from standard input, and random ones from a file. The parts
//! follow: those in which one thing fails, which print `right` or what is wrong, and those of the program's own calls.
//! With ample memory each part is right. Whoever runs the program may refuse one growth of memory: a part in which one
//! thing fails is then right too.
//!
//! With words, only the parts with names that begin with one of them are tried, and no row is read.
#![tactic(auto)]

mod client;
mod group_moves;
mod rows;
mod sentences;
mod words;

use cases_faults::{Met, parts, said_of};
use rows::show_rows;
use std::process::ExitCode;
use words::{is_chosen, read_words};

/// A part of the program's own calls.
#[derive(Clone, Copy)]
enum Call {
    Moves,
    StoreFaults,
    MissingSetup,
    Client,
}

/// These parts, in turn.
static CALLS: [(&str, Call); 4] = [
    ("memory, moves", Call::Moves),
    ("commands, the faults of a store", Call::StoreFaults),
    ("commands, a setup that is missing", Call::MissingSetup),
    ("commands, a client on loopback", Call::Client),
];

/// Tries a part of the program's own calls.
fn try_call(rt: &HostRuntime, call: Call) -> Result<(), Met> {
    match call {
        Call::Moves => group_moves::try_moves(rt.alloc()),
        Call::StoreFaults => sentences::try_store_faults(rt.alloc()),
        Call::MissingSetup => sentences::try_missing_setup(rt),
        Call::Client => client::try_client(rt),
    }
}

/// The result of a part of the program's own calls. If it was refused memory in what it needs itself, it is tried once
/// more.
fn said_of_call(rt: &HostRuntime, call: Call) -> &'static str {
    let tried = match try_call(rt, call) {
        Err(Met::NoMemory) => try_call(rt, call),
        tried => tried,
    };
    match tried {
        Ok(()) => "right",
        Err(Met::Wrong(what)) => what,
        Err(Met::NoMemory) => "refused memory",
    }
}

/// Prints the result of a part, and returns whether it isn't right. A line allocates nothing.
fn tell(rt: &HostRuntime, name: &str, said: &str) -> u8 {
    let _ = println!(rt; "{name}: {said}");
    if said == "right" { 0 } else { 1 }
}

/// Tries the parts that these words ask for, and returns how many weren't right.
fn try_parts(rt: &HostRuntime, words: &[String]) -> u8 {
    let mut wrong = 0u8;
    for (name, part) in parts() {
        if is_chosen(words, name) {
            wrong = wrong.saturating_add(tell(rt, name, said_of(rt.alloc(), *part)));
        }
    }
    for (name, call) in &CALLS {
        if is_chosen(words, name) {
            wrong = wrong.saturating_add(tell(rt, name, said_of_call(rt, *call)));
        }
    }
    wrong
}

/// Shows the rows, if no word was given. Returns how often something was wrong.
fn show_without(rt: &HostRuntime, words: &[String]) -> u8 {
    if words.is_empty() && show_rows(rt).is_err() {
        let _ = println!(rt; "the rows can't be read or shown");
        return 1;
    }
    0
}

fn main(rt: HostRuntime) -> ExitCode {
    let read = match read_words(&rt) {
        Err(_) => read_words(&rt),
        read => read,
    };
    match read {
        Ok(words) => {
            let wrong = show_without(&rt, &words);
            ExitCode::from(wrong.saturating_add(try_parts(&rt, &words)))
        }
        Err(_) => {
            let _ = println!(rt; "the words can't be read");
            ExitCode::from(1)
        }
    }
}
