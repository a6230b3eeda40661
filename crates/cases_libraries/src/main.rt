//! Worked rows of the libraries: versions, control data, installable rows, suites, setups, messages, bags, the
//! program's words, and the rules over mail. Rows of the low libraries written by hand come from standard input, whose
//! head explains the notation, and all others from files. For each row the program prints what public calls of the
//! libraries answer.
#![tactic(auto)]

mod bags;
mod controls;
mod failing_pipe;
mod installs;
mod lines;
mod messages;
mod plain;
mod relations;
mod rules;
mod setups;
mod steps;
mod suites;
mod versions;
mod words;

use rules::put_row;
use std::alloc::AllocError;
use std::{fs, io};
use steps::take;
use testing_install::Suite;

/// The file of the drawn rows of the low libraries.
const DRAWN_ROWS: &str = "drawn_rows";

/// The file of the rows of the rules that were written by hand.
const RULE_ROWS: &str = "rule_rows";

/// The file of the random suites over the rules.
const RANDOM_SUITES: &str = "random_suites";

/// What the rows of a text are about.
#[derive(Clone, Copy)]
enum About {
    Libraries,
    Rules,
}

/// Takes the steps of a row, and adds the results. The text before the first step is none.
fn take_all(
    rt: &HostRuntime,
    suite: &mut Suite,
    row: &str,
    came: &mut String,
) -> Result<(), AllocError> {
    let mut steps = row.split("\n> ");
    let _name = steps.next();
    for step in steps {
        take(rt, suite, step, came)?;
    }
    Ok(())
}

/// Takes the steps of a row about low libraries, over a suite of its own.
fn take_steps(rt: &HostRuntime, row: &str, came: &mut String) -> Result<(), AllocError> {
    let mut suite = Suite::new(rt.alloc());
    take_all(rt, &mut suite, row, came)
}

/// Takes a row, and adds the results.
fn take_row(
    rt: &HostRuntime,
    about: About,
    row: &str,
    came: &mut String,
) -> Result<(), AllocError> {
    match about {
        About::Libraries => take_steps(rt, row, came),
        About::Rules => put_row(rt.alloc(), row, came),
    }
}

/// Takes a row, whose first line is its name, and prints the results.
fn show(rt: &HostRuntime, about: About, row: &str) -> io::Result<()> {
    let name = row.lines().next().unwrap_or("");
    let mut came = String::new(rt.alloc());
    match take_row(rt, about, row, &mut came) {
        Ok(()) => print!(rt; "=== {name}\n{came}"),
        Err(_) => Err(io::ErrorKind::OutOfMemory.into()),
    }
}

/// Shows each row of a text. Text before the first row is none.
fn show_all(rt: &HostRuntime, about: About, text: &str) -> io::Result<()> {
    let text = text.strip_suffix('\n').unwrap_or(text);
    let mut rows = text.split("\n=== ");
    let _head = rows.next();
    for row in rows {
        show(rt, about, row)?;
    }
    Ok(())
}

/// Shows each row of a file.
fn show_file(rt: &HostRuntime, about: About, path: &str) -> io::Result<()> {
    let text = fs::read_to_string(rt, path)?;
    show_all(rt, about, text.as_str())
}

fn main(rt: HostRuntime) -> io::Result<()> {
    let text = io::read_to_string(rt.alloc(), rt.stdin())?;
    show_all(&rt, About::Libraries, text.as_str())?;
    show_file(&rt, About::Libraries, DRAWN_ROWS)?;
    show_file(&rt, About::Rules, RULE_ROWS)?;
    show_file(&rt, About::Rules, RANDOM_SUITES)
}
