//! Hints that are tried before they are mailed, and hints that are proposed.

use crate::answers::{print_text, refuse};
use crate::proposals::print_proposal;
use crate::reasons::{Ask, ask_for};
use crate::status::ExitStatus;
use crate::tasks::out_of_memory;
use deb_control::{NoMemory, Text, is_package_name};
use office_core_outcome::{
    RefusedHint, Trial, TrialOptions, TrialReport, has_changes, release_place, trial_text,
};
use office_core_replies::{DeliverFault, fault_words, name_at};
use office_http::{Office, StoreFault};
use office_mail::Setup;
use office_mail_setup::values::day_in;
use office_store::Keeper;
use std::alloc::Global;

/// What is asked about the next run, and on which terms.
#[derive(Clone, Copy)]
pub(crate) enum NextAsk<'a> {
    /// What these hints would change in it.
    Try(&'a [Text], TrialOptions),
    /// Hints that free these sources in it, or that move groups where none is named.
    Propose(&'a [Text], TrialOptions),
}

/// Tries hints for the setup in a file, over the store in another or over the bag on standard input, and returns the
/// exit status.
pub fn try_for(
    rt: &HostRuntime,
    conf: &str,
    db: Option<&str>,
    day: Option<&str>,
    all: bool,
    hints: &[&str],
) -> u8 {
    let Some(terms) = terms_of(day, all) else {
        return refuse_day(rt, day.unwrap_or(""));
    };
    let Ok(hints) = texts_of(rt.alloc(), hints) else {
        return out_of_memory(rt);
    };
    ask_for(rt, conf, db, None, Ask::Next(NextAsk::Try(&hints, terms)))
}

/// Proposes hints for the setup in a file, over the store in another or the bag on standard input, and returns the exit
/// status.
pub fn propose_for(
    rt: &HostRuntime,
    conf: &str,
    db: Option<&str>,
    day: Option<&str>,
    all: bool,
    sources: &[&str],
) -> u8 {
    let Some(terms) = terms_of(day, all) else {
        return refuse_day(rt, day.unwrap_or(""));
    };
    for source in sources {
        if !is_package_name(source.as_bytes()) {
            return refuse_name(rt, source);
        }
    }
    let Ok(sources) = texts_of(rt.alloc(), sources) else {
        return out_of_memory(rt);
    };
    ask_for(
        rt,
        conf,
        db,
        None,
        Ask::Next(NextAsk::Propose(&sources, terms)),
    )
}

/// The terms of a trial, none if a text is no day.
fn terms_of(day: Option<&str>, all: bool) -> Option<TrialOptions> {
    match day {
        Some(text) => Some(TrialOptions {
            day: Some(day_in(text)?),
            all,
        }),
        None => Some(TrialOptions { day: None, all }),
    }
}

/// Copies of texts.
fn texts_of(alloc: Global, texts: &[&str]) -> Result<Vec<Text>, NoMemory> {
    let mut copies = Vec::new(alloc);
    for text in texts {
        copies.push(Text::from_str(alloc, text)?)?;
    }
    Ok(copies)
}

/// Prints what is asked about the next run of an office, and gives the exit status.
pub(crate) fn print_next<K: Keeper>(
    rt: &HostRuntime,
    office: &mut Office<K>,
    ask: NextAsk<'_>,
) -> u8 {
    match ask {
        NextAsk::Try(hints, terms) => print_trial(rt, office, hints, terms),
        NextAsk::Propose(sources, terms) => print_proposed(rt, office, sources, terms),
    }
}

/// Prints what hints would change in the next run of an office, and returns the exit status.
fn print_trial<K: Keeper>(
    rt: &HostRuntime,
    office: &mut Office<K>,
    hints: &[Text],
    terms: TrialOptions,
) -> u8 {
    match office.try_hints(hints, terms) {
        Ok(Trial::Told(report, reasons)) => {
            print_tried(rt, office.setup(), hints, &report, &reasons)
        }
        Ok(Trial::NoDate) => refuse_dateless(rt),
        Ok(Trial::Refused(refused)) => refuse_hint(rt, hints, refused),
        Err(fault) => refuse(rt, fault),
    }
}

/// Prints the result of a trial, and returns the exit status.
fn print_tried(
    rt: &HostRuntime,
    setup: &Setup,
    hints: &[Text],
    report: &TrialReport,
    reasons: &Text,
) -> u8 {
    let sender = name_at(setup, release_place(setup));
    match trial_text(rt.alloc(), sender, hints, report, reasons) {
        Ok(text) => match has_changes(rt.alloc(), report) {
            Ok(true) => print_text(rt, &text, 0),
            Ok(false) => print_text(rt, &text, ExitStatus::Negative.code()),
            Err(_) => refuse(rt, StoreFault::NoMemory),
        },
        Err(_) => refuse(rt, StoreFault::NoMemory),
    }
}

/// Prints on standard error why a hint is refused, and returns the exit status.
fn refuse_hint(rt: &HostRuntime, hints: &[Text], refused: RefusedHint) -> u8 {
    let (cause, field) = fault_words(DeliverFault::Mail(refused.fault));
    let hint = hints.get(refused.place).map_or("", |hint| hint.as_str());
    let _ = eprintln!(rt; "office: '{hint}': refused {cause}{field}");
    ExitStatus::Refused.code()
}

/// Prints the hints that are proposed for the next run of an office, and returns the exit status.
fn print_proposed<K: Keeper>(
    rt: &HostRuntime,
    office: &mut Office<K>,
    sources: &[Text],
    terms: TrialOptions,
) -> u8 {
    match office.propose(terms, sources) {
        Ok(Some(proposal)) => print_proposal(rt, office.setup(), sources, &proposal),
        Ok(None) => refuse_dateless(rt),
        Err(fault) => refuse(rt, fault),
    }
}

/// Prints on standard error that a text is no name of a source, and returns the exit status.
fn refuse_name(rt: &HostRuntime, name: &str) -> u8 {
    let _ = eprintln!(rt; "office: '{name}': no name of a source");
    ExitStatus::Usage.code()
}

/// Prints on standard error that the run has no day, and returns the exit status.
fn refuse_dateless(rt: &HostRuntime) -> u8 {
    let _ = eprintln!(rt; "office: no run is finished: name the day of the next one by --day");
    ExitStatus::Refused.code()
}

/// Prints on standard error that a text is no day, and returns the exit status.
pub(crate) fn refuse_day(rt: &HostRuntime, day: &str) -> u8 {
    let _ = eprintln!(rt; "office: '{day}': no day: write it as 2025-03-20");
    ExitStatus::Usage.code()
}
