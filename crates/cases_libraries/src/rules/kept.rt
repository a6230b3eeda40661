//! Facts that are kept from run to run only as rows, each naming the message that gives it.

use crate::rules::fault::Fault;
use crate::rules::mail::{item_of, take};
use deb_control::Text;
use deb_version::NoMemory;
use office_mail::{Body, Message};
use std::alloc::Global;
use testing_rules::{FactChanges, FactRow, Facts, Item, Testing, fallen};

/// Whether a name is among these.
fn is_among(names: &[Text], name: &str) -> bool {
    for other in names {
        if other.as_str() == name {
            return true;
        }
    }
    false
}

/// Whether a message is an upload of one of these sources.
fn is_upload_of(message: &Message, names: &[Text]) -> bool {
    match &message.body {
        Body::Item(Item::Upload { source, .. }) => is_among(names, source.as_str()),
        _ => false,
    }
}

/// The facts take all uploads of these sources again.
fn retake(facts: &mut Facts, mail: &[Message], names: &[Text]) -> Result<(), NoMemory> {
    for message in mail {
        if is_upload_of(message, names) {
            take(facts, message)?;
        }
    }
    Ok(())
}

/// The facts take all uploads of the sources again that testing lost, or holds in a lower version then.
fn retake_fallen(
    alloc: Global,
    mail: &[Message],
    facts: &mut Facts,
    before: &Testing,
    after: &Testing,
) -> Result<(), NoMemory> {
    let names = fallen(alloc, before, after)?;
    retake(facts, mail, &names)
}

/// Whether a row is among these.
fn has_row(rows: &[FactRow], row: FactRow) -> bool {
    for other in rows {
        if *other == row {
            return true;
        }
    }
    false
}

/// Removes a row, which must exist.
fn take_out(rows: &mut Vec<FactRow>, row: FactRow) -> Result<(), Fault> {
    if !has_row(rows, row) {
        return Err(Fault::Wrong("a row of facts that left wasn't there"));
    }
    rows.retain(|other| *other != row);
    Ok(())
}

/// Adds a row, which mustn't exist.
fn put_in(rows: &mut Vec<FactRow>, row: FactRow) -> Result<(), Fault> {
    if has_row(rows, row) {
        return Err(Fault::Wrong("a row of facts that came was there"));
    }
    rows.push(row)?;
    Ok(())
}

/// Removes the rows that are gone, and adds those that are put.
fn change(rows: &mut Vec<FactRow>, changes: &FactChanges) -> Result<(), Fault> {
    for row in changes.gone.as_slice() {
        take_out(rows, *row)?;
    }
    for row in changes.put.as_slice() {
        put_in(rows, *row)?;
    }
    Ok(())
}

/// A row comes back, with what the message says that it names.
fn restore(facts: &mut Facts, mail: &[Message], row: FactRow) -> Result<(), Fault> {
    match item_of(mail, row.sender, row.number) {
        Some(item) => Ok(facts.restore(row, item)?),
        None => Err(Fault::Wrong("a row of facts names no message")),
    }
}

/// The facts of these rows.
fn restored(alloc: Global, mail: &[Message], rows: &[FactRow]) -> Result<Facts, Fault> {
    let mut facts = Facts::new(alloc);
    for row in rows {
        restore(&mut facts, mail, *row)?;
    }
    Ok(facts)
}

/// The rows change as the facts did.
fn change_by(facts: &Facts, rows: &mut Vec<FactRow>) -> Result<(), Fault> {
    let changes = facts.changes()?;
    change(rows, &changes)
}

/// The rows change like the facts did with a run's testing, and the facts are rebuilt from them.
pub fn keep(
    alloc: Global,
    mail: &[Message],
    facts: &mut Facts,
    rows: &mut Vec<FactRow>,
    before: &Testing,
    after: &Testing,
) -> Result<(), Fault> {
    retake_fallen(alloc, mail, facts, before, after)?;
    facts.trim(after);
    change_by(facts, rows)?;
    *facts = restored(alloc, mail, rows)?;
    Ok(())
}
