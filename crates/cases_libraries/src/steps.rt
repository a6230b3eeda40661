//! Steps of a row, by what their first lines say.

use crate::bags::{put_bag, put_feed, put_reads, put_sink};
use crate::controls::{put_first_binary, put_paragraphs};
use crate::installs::put_told;
use crate::lines::take_lines;
use crate::messages::put_message;
use crate::plain::bytes_of;
use crate::setups::put_setup;
use crate::suites::{add_rows, put_changes};
use std::alloc::AllocError;
use testing_install::Suite;

/// A step: what is done with its text, a number if one follows that, the text, and the bytes that it means.
#[derive(Clone, Copy)]
struct Step<'a> {
    what: &'a str,
    number: u32,
    text: &'a str,
    bytes: &'a [u8],
}

/// Takes a step, and adds the results. Its first line says what is done with the text below, and may give a number.
pub fn take(
    rt: &HostRuntime,
    suite: &mut Suite,
    step: &str,
    came: &mut String,
) -> Result<(), AllocError> {
    let (head, text) = step.split_once('\n').unwrap_or((step, ""));
    let (what, number) = head.split_once(' ').unwrap_or((head, ""));
    let bytes = bytes_of(rt.alloc(), text)?;
    let step = Step {
        what,
        number: number.parse().unwrap_or(0),
        text,
        bytes: &bytes,
    };
    take_packages(rt, suite, step, came)
}

/// Takes a step about packages in the short notation, or another one.
fn take_packages(
    rt: &HostRuntime,
    suite: &mut Suite,
    step: Step<'_>,
    came: &mut String,
) -> Result<(), AllocError> {
    match step.what {
        "rows" => add_rows(rt.alloc(), suite, step.text),
        "changes" => put_changes(rt.alloc(), suite, step.text, came),
        "install" => put_told(rt.alloc(), None, step.text, came),
        "counted" => put_told(rt.alloc(), Some(step.number), step.text, came),
        _ => take_whole(rt, step, came),
    }
}

/// Takes a step whose text is read as a whole, or another one.
fn take_whole(rt: &HostRuntime, step: Step<'_>, came: &mut String) -> Result<(), AllocError> {
    match step.what {
        "control" => put_paragraphs(rt.alloc(), step.bytes, came),
        "binary" => put_first_binary(rt.alloc(), step.bytes, came),
        "setup" => put_setup(rt.alloc(), step.bytes, came),
        "message" => put_message(rt.alloc(), step.bytes, came),
        _ => take_bytes(rt, step, came),
    }
}

/// Takes a step whose text a reader gives in parts, or a writer takes, or one with lines that are answered one by one.
fn take_bytes(rt: &HostRuntime, step: Step<'_>, came: &mut String) -> Result<(), AllocError> {
    match step.what {
        "bag" => put_bag(rt.alloc(), step.bytes, came),
        "reads" => put_reads(rt.alloc(), step.number, step.bytes, came),
        "feed" => put_feed(step.number, step.bytes, came),
        "sink" => put_sink(step.number, step.bytes, came),
        _ => take_lines(rt, step.what, step.text, came),
    }
}
