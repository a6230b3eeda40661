//! The moves of a group that can't move, which may be refused memory.

use cases_faults::{GROUP_TESTING, GROUP_UPDATE, Met, TESTING, due, letters_of, setup_of};
use jiff::civil::Date;
use office_mail::{Body, MailFault, Message, Setup, read_message};
use std::alloc::Global;
use testing_rules::{
    Archs, Excuses, Facts, Testing, Update, excuses, migrate, testing_text, update_text,
};

/// A group that can't move makes the moves that are due, whether or not they were refused before.
pub fn try_moves(alloc: Global) -> Result<(), Met> {
    let setup = setup_of(alloc)?;
    let tried = try_group(alloc, &setup);
    drop(setup);
    tried
}

/// The moves of the group by a setup.
fn try_group(alloc: Global, setup: &Setup) -> Result<(), Met> {
    let mut facts = Facts::new(alloc);
    let tried = match take_group(alloc, setup, &mut facts) {
        Ok(()) => try_facts(alloc, setup.archs(), &facts),
        Err(met) => Err(met),
    };
    drop(facts);
    tried
}

/// The facts take what the group's mail says.
fn take_group(alloc: Global, setup: &Setup, facts: &mut Facts) -> Result<(), Met> {
    for letter in letters_of(6) {
        take_letter(alloc, setup, facts, letter.text)?;
    }
    Ok(())
}

/// The facts take what the text of a letter says.
fn take_letter(alloc: Global, setup: &Setup, facts: &mut Facts, text: &str) -> Result<(), Met> {
    match read_message(alloc, setup, text.as_bytes()) {
        Ok(message) => {
            let taken = take_message(facts, &message);
            drop(message);
            taken
        }
        Err(MailFault::NoMemory) => Err(Met::NoMemory),
        Err(_) => Err(Met::Wrong("a message is refused")),
    }
}

/// The facts take what a message says.
fn take_message(facts: &mut Facts, message: &Message) -> Result<(), Met> {
    if let Body::Item(item) = &message.body {
        facts.take(message.sender, message.number, item)?;
    }
    Ok(())
}

/// The moves by the group's facts, from a testing that is empty.
fn try_facts(alloc: Global, archs: &Archs, facts: &Facts) -> Result<(), Met> {
    let Ok(date) = Date::new(2025, 3, 6) else {
        return Err(Met::Wrong("no date"));
    };
    let mut testing = Testing::new(alloc);
    let tried = try_testing(alloc, archs, facts, &mut testing, date);
    drop(testing);
    tried
}

/// The moves by the group's facts, from this testing.
fn try_testing(
    alloc: Global,
    archs: &Archs,
    facts: &Facts,
    testing: &mut Testing,
    date: Date,
) -> Result<(), Met> {
    try_excuses(alloc, archs, facts, testing, date)?;
    tells_testing(alloc, archs, 1, testing, GROUP_TESTING)
}

/// The update of the moves by the excuses of a date is the one that is due.
fn try_excuses(
    alloc: Global,
    archs: &Archs,
    facts: &Facts,
    testing: &mut Testing,
    date: Date,
) -> Result<(), Met> {
    match excuses(alloc, archs, facts, testing, date) {
        Ok(excuses) => {
            let tried = try_moves_by(alloc, archs, facts, &excuses, testing, date);
            drop(excuses);
            tried
        }
        Err(_) => Err(Met::NoMemory),
    }
}

/// The update of the moves by these excuses is the one that is due. If they are refused, they are asked for again.
fn try_moves_by(
    alloc: Global,
    archs: &Archs,
    facts: &Facts,
    excuses: &Excuses,
    testing: &mut Testing,
    date: Date,
) -> Result<(), Met> {
    match migrate(alloc, archs, facts, excuses, testing) {
        Ok(update) => tells_update(alloc, archs, update, date),
        Err(_) => try_moves_again(alloc, archs, facts, excuses, testing, date),
    }
}

/// The update of the moves is the due one after refused moves, which left testing as it was.
fn try_moves_again(
    alloc: Global,
    archs: &Archs,
    facts: &Facts,
    excuses: &Excuses,
    testing: &mut Testing,
    date: Date,
) -> Result<(), Met> {
    tells_testing(alloc, archs, 0, testing, TESTING[0])?;
    match migrate(alloc, archs, facts, excuses, testing) {
        Ok(update) => tells_update(alloc, archs, update, date),
        Err(_) => Err(Met::NoMemory),
    }
}

/// The text of an update is the one that is due.
fn tells_update(alloc: Global, archs: &Archs, update: Update, date: Date) -> Result<(), Met> {
    let told = update_text(alloc, archs, 1, date, &update);
    drop(update);
    match told {
        Ok(text) => due(text.as_str() == GROUP_UPDATE, "another update"),
        Err(_) => Err(Met::NoMemory),
    }
}

/// Testing after that many runs is this.
fn tells_testing(
    alloc: Global,
    archs: &Archs,
    runs: u32,
    testing: &Testing,
    text: &str,
) -> Result<(), Met> {
    match testing_text(alloc, archs, runs, testing) {
        Ok(told) => due(told.as_str() == text, "another testing"),
        Err(_) => Err(Met::NoMemory),
    }
}
