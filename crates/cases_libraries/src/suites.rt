//! Trials and changes of a suite.

use crate::installs::told_binaries;
use std::alloc::{AllocError, Global};
use std::mem;
use testing_install::Suite;

/// Appends packages to the rows of a suite, none of them present yet.
pub fn add_rows(alloc: Global, suite: &mut Suite, text: &str) -> Result<(), AllocError> {
    let rows = told_binaries(alloc, text)?;
    match mem::replace(suite, Suite::new(alloc)).with_rows(alloc, rows) {
        Ok(longer) => {
            *suite = longer;
            Ok(())
        }
        Err(_) => Err(AllocError),
    }
}

/// The sign of a row: `+` for one that is present and installable, `-` for another present one, `.` for one that isn't
/// present.
fn sign_at(suite: &Suite, place: usize) -> &'static str {
    if suite.is_installable(place) {
        "+"
    } else if suite.is_there(place) {
        "-"
    } else {
        "."
    }
}

/// Adds the sign of each row, in brackets.
fn put_signs(suite: &Suite, came: &mut String) -> Result<(), AllocError> {
    came.push_str(" [")?;
    for place in 0..suite.len() {
        came.push_str(sign_at(suite, place))?;
    }
    came.push_str("]")
}

/// Adds the rows that are lost, by their places.
fn put_lost(places: &[usize], came: &mut String) -> Result<(), AllocError> {
    came.push_str("lost")?;
    for place in places {
        write!(came, " {place}")?;
    }
    Ok(())
}

/// A row's place, from a word.
fn place_in(word: Option<&str>) -> usize {
    match word {
        Some(word) => word.parse().unwrap_or(0),
        None => 0,
    }
}

/// Adds the rows that a trial loses, in order.
fn put_sorted(lost: Vec<usize>, came: &mut String) -> Result<(), AllocError> {
    let mut lost = lost;
    lost.sort()?;
    put_lost(&lost, came)
}

/// Tries and makes the change in which one row leaves and then two come. Adds the rows that the trial loses, the signs
/// after it, and the signs after the change.
fn put_change(
    alloc: Global,
    suite: &mut Suite,
    line: &str,
    came: &mut String,
) -> Result<(), AllocError> {
    let count = suite.len();
    if count == 0 {
        return Ok(());
    }
    let mut words = line.split(' ');
    let leaving = [place_in(words.next()) % count];
    let coming = [
        place_in(words.next()) % count,
        place_in(words.next()) % count,
    ];
    match suite.trial(alloc, &leaving, &coming) {
        Ok(lost) => put_sorted(lost, came)?,
        Err(_) => return Err(AllocError),
    }
    put_signs(suite, came)?;
    match suite.change(alloc, &leaving, &coming) {
        Ok(()) => put_signs(suite, came),
        Err(_) => Err(AllocError),
    }
}

/// Adds the results of changes, one after the other.
pub fn put_changes(
    alloc: Global,
    suite: &mut Suite,
    text: &str,
    came: &mut String,
) -> Result<(), AllocError> {
    for line in text.lines() {
        put_change(alloc, suite, line, came)?;
        came.push_str("\n")?;
    }
    Ok(())
}
