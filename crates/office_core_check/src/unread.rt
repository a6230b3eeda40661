//! Which part of a store has a row that doesn't read.
ghost use Rattle.std.specs.Prelude.{◌≡◌, Err, None, IsSome};
ghost use Rattle.office_store_keeper.specs.declared.faults.Cause.TheVariants.{BadRow};
ghost use Rattle.office_store_keeper.specs.declared.faults.KeepFault.TheVariants.{Store};
ghost use Rattle.office_core_check.specs.steps.Unread.{Asks, IsReadable, LooksForPart};

use crate::Part;
use office_mail::MAX_NUMBER;
use office_store_keeper::{Cause, KeepFault, Keeper};

/// The part, where a store answers that a row of it doesn't read.
fn part_of<T: Drop>(part: Part, answer: Result<T, KeepFault>) -> Option<Part>
    ensures { IsSome result → answer ≡ Err (Store BadRow) }
{
    match answer {
        Err(KeepFault::Store(Cause::BadRow)) => Some(part),
        _ => None,
    }
}

/// Whether the row of the office doesn't read.
fn unread_office<K: Keeper>(keeper: &mut K) -> Option<Part>
    ensures { LooksForPart K.Keeper keeper.old keeper.new result }
{
    part_of(Part::Office, keeper.finished())
}

/// Whether a row of a sender's mail doesn't read, as one of a greater number than any message has may not.
fn unread_sender<K: Keeper>(keeper: &mut K, sender: u32) -> Option<Part>
    ensures { LooksForPart K.Keeper keeper.old keeper.new result }
{
    part_of(
        Part::Mail { sender },
        keeper.next_number(sender, MAX_NUMBER),
    )
}

/// Whether the reports of a run are missing or don't read.
fn unread_run<K: Keeper>(keeper: &mut K, run: u32) -> Option<Part>
    ensures { LooksForPart K.Keeper keeper.old keeper.new result }
{
    part_of(Part::Run { run }, keeper.reports(run))
}

/// Whether a row of testing doesn't read.
fn unread_testing<K: Keeper>(keeper: &mut K) -> Option<Part>
    ensures { LooksForPart K.Keeper keeper.old keeper.new result }
{
    part_of(Part::Testing, keeper.testing())
}

/// Whether a row of facts doesn't read.
fn unread_facts<K: Keeper>(keeper: &mut K) -> Option<Part>
    ensures { LooksForPart K.Keeper keeper.old keeper.new result }
{
    part_of(Part::Facts, keeper.facts())
}

/// The first of so many senders of whose mail a row doesn't read.
fn unread_mail<K: Keeper>(keeper: &mut K, senders: u32) -> Option<Part>
    ensures none { K.is_trusted keeper.new → IsReadable K.Keeper keeper.old → result ≡ None }
    ensures asks { Asks K.Keeper keeper.old keeper.new }
{
    'senders: for sender in 0..senders {
        let part = unread_sender(keeper, sender);
        if part.is_some() {
            return part;
        }
    }
    None
}

/// The first of the runs up to this one whose reports don't read.
fn unread_runs<K: Keeper>(keeper: &mut K, runs: u32) -> Option<Part>
    ensures none { K.is_trusted keeper.new → IsReadable K.Keeper keeper.old → result ≡ None }
    ensures asks { Asks K.Keeper keeper.old keeper.new }
{
    'runs: for run in 0..runs {
        let part = unread_run(keeper, run + 1);
        if part.is_some() {
            return part;
        }
    }
    None
}

/// The first run whose reports don't read, of those that a store says are finished.
fn unread_finished<K: Keeper>(keeper: &mut K) -> Option<Part>
    ensures { LooksForPart K.Keeper keeper.old keeper.new result }
{
    let runs = keeper.finished().unwrap_or(0);
    unread_runs(keeper, runs)
}

/// The part of what runs left of which a row doesn't read.
fn unread_left<K: Keeper>(keeper: &mut K) -> Option<Part>
    ensures { LooksForPart K.Keeper keeper.old keeper.new result }
{
    let part = unread_testing(keeper);
    if part.is_some() {
        return part;
    }
    unread_facts(keeper)
}

/// The part of what is kept beside mail of which a row doesn't read.
fn unread_beside<K: Keeper>(keeper: &mut K) -> Option<Part>
    ensures { LooksForPart K.Keeper keeper.old keeper.new result }
{
    let part = unread_finished(keeper);
    if part.is_some() {
        return part;
    }
    unread_left(keeper)
}

/// The part of mail, and of the office's row, of which a row doesn't read.
fn unread_before<K: Keeper>(keeper: &mut K, senders: u32) -> Option<Part>
    ensures { LooksForPart K.Keeper keeper.old keeper.new result }
{
    let part = unread_office(keeper);
    if part.is_some() {
        return part;
    }
    unread_mail(keeper, senders)
}

/// The first part of a store with so many senders that has a row that doesn't read: the office's row, mail, the reports
/// of runs, testing or facts.
pub(crate) fn unread_part<K: Keeper>(keeper: &mut K, senders: u32) -> Option<Part>
    ensures { LooksForPart K.Keeper keeper.old keeper.new result }
{
    let part = unread_before(keeper, senders);
    if part.is_some() {
        return part;
    }
    unread_beside(keeper)
}
