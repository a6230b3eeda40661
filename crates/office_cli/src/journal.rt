//! What the service prints on standard error about the mail that it gets.

use crate::printer::{is_plain, sender_and_number};
use deb_control::Paragraphs;
use std::env;

/// The beginning of a request that delivers mail.
const MAIL: &[u8] = b"POST /mail";

/// The field in which a proxy names its user, with its colon.
const USER: &[u8] = b"x-remote-user:";

/// Which mail is printed.
#[derive(Clone, Copy, Debug, PartialEq, Eq)]
pub enum Level {
    /// Refused mail.
    Refused,
    /// Held mail too.
    Held,
}

/// The level that the environment states by `OFFICE_LOG=held`; without it only refused mail is printed.
pub fn stated_level(rt: &HostRuntime) -> Level {
    match env::var(rt, "OFFICE_LOG") {
        Ok(word) if word.as_str() == "held" => Level::Held,
        _ => Level::Refused,
    }
}

/// Prints on standard error the outcome of a message, from its request and the end of its reply. The line has the
/// sender and number, the sender's path, the proxy's user, and the answer. Other requests print nothing.
pub fn note_mail(rt: &HostRuntime, level: Level, request: &[u8], reply: &[u8]) {
    let Some(behind) = request.strip_prefix(MAIL) else {
        return;
    };
    if !matches!(behind.first(), Some(b' ' | b'/' | b'?')) {
        return;
    }
    let Some(answer) = answer_in(level, reply) else {
        return;
    };
    let mut reader = Paragraphs::new(rt.alloc(), body_of(request));
    let first = reader.next().unwrap_or(None);
    let _ = match first.as_ref().and_then(sender_and_number) {
        Some((sender, number)) => eprint!(rt; "office: {sender} {number}"),
        None => eprint!(rt; "office: a message"),
    };
    if let Some(path) = sender_path(behind) {
        let _ = eprint!(rt; " at /mail{path}");
    }
    if let Some(user) = user_in(request) {
        let _ = eprint!(rt; " by {user}");
    }
    let _ = eprintln!(rt; ": {answer}");
}

/// The last line of a reply, if mail with this answer is printed.
fn answer_in(level: Level, reply: &[u8]) -> Option<&str> {
    let line = reply.rsplit(|byte| *byte == b'\n').nth(1)?;
    let text = str::from_utf8(line).ok()?;
    let is_named = text.starts_with("refused ")
        || level == Level::Held && text.starts_with("held ");
    if is_named { Some(text) } else { None }
}

/// The user that a proxy names in the head, if the name is plain.
fn user_in(request: &[u8]) -> Option<&str> {
    for line in request.split(|byte| *byte == b'\n') {
        if line.trim_ascii().is_empty() {
            return None;
        }
        let name = line.get(..USER.len()).unwrap_or(&[]);
        if name.eq_ignore_ascii_case(USER) {
            let user = str::from_utf8(line.get(USER.len()..)?.trim_ascii()).ok()?;
            return if is_plain(user) { Some(user) } else { None };
        }
    }
    None
}

/// What follows the beginning of a path, up to its end or its query, if it begins with a slash and is plain.
fn sender_path(behind: &[u8]) -> Option<&str> {
    let end = behind.iter().position(|byte| matches!(*byte, b' ' | b'?'))?;
    let text = str::from_utf8(behind.get(..end)?).ok()?;
    if text.starts_with('/') && is_plain(text) {
        Some(text)
    } else {
        None
    }
}

/// What follows the first empty line.
fn body_of(request: &[u8]) -> &[u8] {
    let mut start = 0usize;
    for line in request.split(|byte| *byte == b'\n') {
        start = start.saturating_add(line.len()).saturating_add(1);
        if matches!(line, [] | [b'\r']) {
            return request.get(start..).unwrap_or(&[]);
        }
    }
    &[]
}
