//! What the rules say of rows: mail, and runs over it. A row is run over facts that continue from run to run, and once
//! more over facts that are rebuilt from their rows after each run; both must say the same.

mod desk;
mod fault;
mod given;
mod kept;
mod mail;

use desk::told;
use fault::Fault;
use office_mail::Setup;
use std::alloc::{AllocError, Global};

/// The setup of all rows: two senders of uploads, and two of builds.
const SETUP: &str = "Architectures: amd64 arm64

Sender: ftp
Role: upload

Sender: sec
Role: upload

Sender: bd
Role: build

Sender: bq
Role: build

Sender: bts
Role: bugs

Sender: rt
Role: release

Sender: clock
Role: runs
";

/// What a row says over facts that continue, and what it says over facts that are rebuilt, if that differs.
fn said(alloc: Global, setup: &Setup, row: &str) -> Result<String, Fault> {
    let mut said = told(alloc, setup, row, false)?;
    let anew = told(alloc, setup, row, true)?;
    if anew.as_str() != said.as_str() {
        said.push_str("over facts made anew:\n")?;
        said.push_str(anew.as_str())?;
    }
    Ok(said)
}

/// Adds what a row says to an office with this setup, or why it says nothing.
fn put_said(alloc: Global, setup: &Setup, row: &str, came: &mut String) -> Result<(), AllocError> {
    match said(alloc, setup, row) {
        Ok(said) => came.push_str(said.as_str()),
        Err(Fault::NoMemory) => Err(AllocError),
        Err(Fault::Wrong(what)) => write!(came, "wrong: {what}\n"),
    }
}

/// Adds what a row says, or why it says nothing.
pub fn put_row(alloc: Global, row: &str, came: &mut String) -> Result<(), AllocError> {
    match Setup::parse(alloc, SETUP.as_bytes()) {
        Ok(setup) => put_said(alloc, &setup, row, came),
        Err(fault) => write!(came, "setup refused, {fault}\n"),
    }
}
