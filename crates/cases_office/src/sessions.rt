//! What an office does between two openings of its store.

use crate::bytes::{plain_bytes, put_text};
use crate::questions::{export_in, list_in};
use crate::replays::{replay_broken, replay_halting, replay_in};
use crate::steps::{deliver_in, serve_in, settle_in, status_in};
use office_http::Office;
use office_store::Keeper;
use std::alloc::{AllocError, Global};

/// The setup of a row that gives none.
const SETUP: &str = "Architectures: amd64 arm64

Sender: ftp
Role: upload

Sender: bd
Role: build

Sender: bts
Role: bugs

Sender: rt
Role: release

Sender: clock
Role: runs
";

/// The setup that the steps of a session give.
pub fn setup_in(session: &str) -> &str {
    match session.split_once("\n> setup\n") {
        Some((_, rest)) => match rest.split_once("\n> ") {
            Some((setup, _)) => setup,
            None => rest,
        },
        None => SETUP,
    }
}

/// Takes the steps of a session in an office, and adds the results. The text before the first step isn't one.
pub fn take_session<K: Keeper>(
    alloc: Global,
    office: &mut Office<K>,
    session: &str,
    came: &mut String,
) -> Result<(), AllocError> {
    let mut steps = session.split("\n> ");
    let _about = steps.next();
    for step in steps {
        let (head, lines) = step.split_once('\n').unwrap_or((step, ""));
        let (what, more) = head.split_once(' ').unwrap_or((head, ""));
        take(alloc, office, what, more, lines, came)?;
    }
    Ok(())
}

/// Takes one step, given its first word, what follows that, and the lines below.
fn take<K: Keeper>(
    alloc: Global,
    office: &mut Office<K>,
    what: &str,
    more: &str,
    lines: &str,
    came: &mut String,
) -> Result<(), AllocError> {
    if what == "bytes" || what == "request" {
        let bytes = plain_bytes(alloc, lines)?;
        return take_with(alloc, office, what, more, &bytes, came);
    }
    let mut text = String::new(alloc);
    put_text(alloc, what, more, lines, &mut text)?;
    take_with(alloc, office, what, more, text.as_bytes(), came)
}

/// Takes one step, given its bytes: mail or a request.
fn take_with<K: Keeper>(
    alloc: Global,
    office: &mut Office<K>,
    what: &str,
    more: &str,
    bytes: &[u8],
    came: &mut String,
) -> Result<(), AllocError> {
    match what {
        "bag" | "bytes" | "chain" => replay_in(alloc, office, bytes, came),
        "request" | "http" => serve_in(alloc, office, bytes, came),
        "fail-read" => replay_broken(alloc, office, more.parse().unwrap_or(0), bytes, came),
        "fail-write" => replay_halting(alloc, office, more.parse().unwrap_or(0), bytes, came),
        _ => take_call(alloc, office, what, bytes, came),
    }
}

/// Takes one step: a single call of the office.
fn take_call<K: Keeper>(
    alloc: Global,
    office: &mut Office<K>,
    what: &str,
    bytes: &[u8],
    came: &mut String,
) -> Result<(), AllocError> {
    match what {
        "deliver" => deliver_in(office, bytes, came),
        "status" => status_in(office, came),
        "settle" => settle_in(office, came),
        "list" => list_in(alloc, office, came),
        "export" => export_in(alloc, office, came),
        _ => put_other(what, came),
    }
}

/// A setup and a statement come before an opening, and a report after the last step is none here.
fn put_other(what: &str, came: &mut String) -> Result<(), AllocError> {
    match what {
        "setup" | "sql" | "facts" | "check" | "asked" => Ok(()),
        _ => came.push_str("unknown step\n"),
    }
}

/// Whether the kept facts are reported after these steps.
pub fn tells_facts(steps: &str) -> bool {
    steps.lines().last() == Some("> facts")
}

/// Whether the store is checked after these steps.
pub fn tells_check(steps: &str) -> bool {
    steps.lines().last() == Some("> check")
}

/// Whether the mail that these steps ask a store for is reported.
pub fn tells_asked(steps: &str) -> bool {
    steps.lines().last() == Some("> asked")
}
