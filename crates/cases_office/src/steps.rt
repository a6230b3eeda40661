//! Steps other than replays: a request, and the calls of an office one by one.

use crate::bytes::{put_visible, text_in};
use crate::failures::{Broken, Halting, whole_reader, whole_writer};
use office_http::{Office, Progress, StoreFault, serve_one};
use office_mail::{FromRead, ToWrite};
use office_store::Keeper;
use std::alloc::{AllocError, Global};
use testing_rules_model::FactRow;

/// Serves the request that a reader gives, to a writer. Returns whether it is served.
fn serve_by<K: Keeper>(office: &mut Office<K>, reader: &mut Broken, writer: &mut Halting) -> bool {
    serve_one(
        office,
        &mut FromRead::new(reader),
        &mut ToWrite::new(writer),
    )
    .is_ok()
}

/// Serves a request, and adds how many bytes are replied, and these, each carriage return as `\r`.
pub fn serve_in<K: Keeper>(
    alloc: Global,
    office: &mut Office<K>,
    request: &[u8],
    came: &mut String,
) -> Result<(), AllocError> {
    let mut writer = whole_writer(alloc);
    let is_served = serve_by(office, &mut whole_reader(request), &mut writer);
    put_reply(&writer.taken, is_served, came)
}

/// Adds how many bytes are replied, and these.
fn put_reply(taken: &[u8], is_served: bool, came: &mut String) -> Result<(), AllocError> {
    let word = if is_served { "reply" } else { "failed" };
    write!(came, "{word} of {} bytes\n", taken.len())?;
    put_visible(text_in(taken), came)?;
    came.push_str("\n")
}

/// Delivers a text and settles nothing, and adds the place of its sender and its number, or why it is refused.
pub fn deliver_in<K: Keeper>(
    office: &mut Office<K>,
    text: &[u8],
    came: &mut String,
) -> Result<(), AllocError> {
    match office.deliver(text) {
        Ok(held) => write!(
            came,
            "delivered by {}, number {}\n",
            held.sender, held.number
        ),
        Err(fault) => write!(came, "delivery refused: {fault:?}\n"),
    }
}

/// Adds how many runs are ready and finished.
pub fn status_in<K: Keeper>(office: &mut Office<K>, came: &mut String) -> Result<(), AllocError> {
    let progress = office.status();
    put_progress(progress, came)
}

/// Finishes the runs that are ready, and adds how many are ready and finished.
pub fn settle_in<K: Keeper>(office: &mut Office<K>, came: &mut String) -> Result<(), AllocError> {
    let progress = office.settle();
    put_progress(progress, came)
}

/// Adds how many runs are ready and finished.
fn put_progress(
    progress: Result<Progress, StoreFault>,
    came: &mut String,
) -> Result<(), AllocError> {
    match progress {
        Ok(progress) => {
            write!(
                came,
                "ready {} finished {}\n",
                progress.ready, progress.finished
            )
        }
        Err(fault) => write!(came, "failed: {fault:?}\n"),
    }
}

/// Adds the rows of facts that a store keeps, or why it gives none.
pub fn facts_in<K: Keeper>(keeper: &mut K, came: &mut String) -> Result<(), AllocError> {
    match keeper.facts() {
        Ok(rows) => put_facts(rows.as_slice(), came),
        Err(fault) => write!(came, "facts refused: {fault:?}\n"),
    }
}

/// Adds rows of facts: how many there are, and of each its kind's number, sender, number and place.
fn put_facts(rows: &[FactRow], came: &mut String) -> Result<(), AllocError> {
    write!(came, "facts {}\n", rows.len())?;
    for row in rows {
        write!(
            came,
            "fact {} {} {} {}\n",
            row.kind.number(),
            row.sender,
            row.number,
            row.place
        )?;
    }
    Ok(())
}
