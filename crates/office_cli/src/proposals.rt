//! Hints that are proposed for the next run, and notes on them.

ghost use Rattle.std.specs.Prelude.{◌≡◌, length};
ghost use Rattle.office_cli.specs.steps.Told.{status_of_proposal};

use crate::answers::{print_text, refuse};
use crate::status::ExitStatus;
use deb_control::Text;
use office_core_outcome::{
    AskedSource, LongGroup, Proposal, SearchNotes, SourceEnd, proposal_text, release_place,
};
use office_core_replies::name_at;
use office_http::StoreFault;
use office_mail::Setup;

/// Prints the hints of a proposal, and returns the exit status. Prints the notes of the search on standard error.
pub fn print_proposal(
    rt: &HostRuntime,
    setup: &Setup,
    sources: &[Text],
    proposal: &Proposal,
) -> u8 {
    match proposal_text(rt.alloc(), proposal) {
        Ok(text) => {
            let status = print_text(rt, &text, proposal_status(sources, proposal));
            print_count(rt, setup, proposal);
            print_notes(rt, &proposal.notes);
            status
        }
        Err(_) => refuse(rt, StoreFault::NoMemory),
    }
}

/// The exit status of a proposal: 0 if there is a hint, or if each source that was asked for moves.
fn proposal_status(sources: &[Text], proposal: &Proposal) -> u8
    ensures { result ≡ status_of_proposal (length sources.now) proposal.now }
{
    let is_done = if sources.is_empty() {
        !proposal.hints.is_empty()
    } else {
        proposal.freed.len() == sources.len()
    };
    if is_done {
        0
    } else {
        ExitStatus::Negative.code()
    }
}

/// Prints on standard error how many hints are proposed, under which numbers, and how many sources move.
fn print_count(rt: &HostRuntime, setup: &Setup, proposal: &Proposal) {
    let run = proposal.run;
    let (year, month, day) = (proposal.date.year, proposal.date.month, proposal.date.day);
    let (count, notes) = (proposal.hints.len(), &proposal.notes);
    let (moved, waiting, stuck) = (notes.moved, notes.waiting, notes.dead.len());
    let sender = name_at(setup, release_place(setup));
    let first = proposal.first as usize;
    let last = first.saturating_add(count).saturating_sub(1);
    let _ = match count {
        0 => eprintln!(rt;
            "office: run {run} of {year}-{month:02}-{day:02}: 0 hints; {moved} of {waiting} sources that wait move, {stuck} are stuck"
        ),
        _ => eprintln!(rt;
            "office: run {run} of {year}-{month:02}-{day:02}: {count} hints, {sender} {first} to {last}; {moved} of {waiting} sources that wait move, {stuck} are stuck"
        ),
    };
}

/// Prints on standard error which groups are too long for a hint, how many the run refused, and how the search ended
/// for the sources that were asked for.
fn print_notes(rt: &HostRuntime, notes: &SearchNotes) {
    for group in &notes.long {
        print_long(rt, group);
    }
    let refused = notes.refused;
    if refused > 0 {
        let _ = eprintln!(rt; "office: {refused} groups weren't allowed");
    }
    for asked in &notes.asked {
        print_end(rt, asked);
    }
}

/// Prints on standard error that a group is too long for a hint.
fn print_long(rt: &HostRuntime, group: &LongGroup) {
    let (sources, first, bytes) = (group.sources, group.first.as_str(), group.bytes);
    let _ = eprintln!(rt;
        "office: a group of {sources} sources, the first {first}: no hint: it has {bytes} bytes, and a message at most 65536"
    );
}

/// Prints on standard error how the search ended for a source, unless a hint moves it or standard output has its
/// answer.
fn print_end(rt: &HostRuntime, asked: &AskedSource) {
    let name = asked.name.as_str();
    let _ = match asked.end {
        SourceEnd::Grouped | SourceEnd::Answered => Ok(()),
        SourceEnd::Alone => eprintln!(rt; "office: {name}: it moves without a hint"),
        SourceEnd::Open => eprintln!(rt;
            "office: {name}: no group was found, and nothing shows that there is none"
        ),
    };
}
