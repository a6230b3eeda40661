//! Hints that are tried until the run does the group of each, and costs no other source its move.

ghost use Rattle.std.specs.Prelude.{◌≡◌, IfOk, IfSome};
ghost use Rattle.std.specs.List.{list_any};
ghost use Rattle.std.specs.Str.{bytes_eq};
ghost use Rattle.testing_rules_model.specs.Covered.{Covered};
ghost use Rattle.testing_rules_model.specs.StandsFor.{StandsFor};
ghost use Rattle.office_core_facts.specs.Seen.{release};
ghost use Rattle.office_core_outcome.specs.Hints.{with_letters};
ghost use Rattle.office_core_outcome.specs.Proposal.{KeepsMoves, decisions_by, freed_by, is_moved};
ghost use Rattle.office_core_outcome.specs.steps.Settled.{IsSettledFor, KeepsMovesFor};

use crate::asked::Asked;
use crate::decisions::take_all;
use crate::grouped::{are_done, is_any_done};
use crate::hints::take_hints;
use crate::kept_moves::keeps_moves;
use crate::rules::decisions_over;
use deb_control::{NoMemory, Text};
use jiff_core::civil::Date;
use office_mail::Setup;
use office_store_keeper::Letter;
use std::alloc::Global;
use testing_rules_facts::Facts;
use testing_rules_model::{Decision, Moved, Update};
use testing_rules_suites::Testing;

/// The most times that hints are tried: each time those whose groups the run doesn't move are left out.
const ROUNDS: u32 = 8;

/// The most parts of hints that are tried, to leave out those that cost other sources their moves.
const PARTS: u32 = 24;

/// Some of the hints, in a row: from this place on, up to that one.
#[derive(Clone, Copy)]
struct Part {
    start: usize,
    end: usize,
}

/// The source is one of those that moved together.
fn is_among(source: &str, items: &[Moved]) -> bool
    ensures { result ≡ list_any (λ m. bytes_eq m.name source.now) items.now }
{
    for item in items {
        if item.name.as_str() == source {
            return true;
        }
    }
    false
}

/// The source moved, in a group or alone.
fn is_moved(source: &str, decision: &Decision) -> bool
    ensures { result ≡ is_moved source.now decision.now }
{
    match decision {
        Decision::EasyDone { hint: _, items } => is_among(source, items.as_slice()),
        Decision::Accept { name, version: _ } => name.as_str() == source,
        Decision::Wait { .. } => false,
        Decision::RemoveDone { .. }
        | Decision::RemoveRefused { .. }
        | Decision::EasyNotCandidate { .. }
        | Decision::EasyRefused { .. } => false,
    }
}

/// The source is one of those that moved.
pub(crate) fn is_any_moved(source: &str, decisions: &[Decision]) -> bool
    ensures { result ≡ list_any (is_moved source.now) decisions.now }
{
    for decision in decisions {
        if is_moved(source, decision) {
            return true;
        }
    }
    false
}

/// Those of the sources that moved.
pub(crate) fn freed_by(
    alloc: Global,
    decisions: &[Decision],
    sources: &[Text],
) -> Result<Vec<Text>, NoMemory>
    ensures { IfOk result (λ freed. freed.items ≡ freed_by decisions.now sources.now) }
{
    let mut freed = Vec::new(alloc);
    for source in sources {
        if is_any_moved(source.as_str(), decisions) {
            freed.push(source.copy(alloc)?)?;
        }
    }
    Ok(freed)
}

/// Those of the hints whose groups moved. Each has its message in the same place.
fn done_hints(
    alloc: Global,
    hints: &[Text],
    letters: &[Letter],
    decisions: &[Decision],
) -> Result<Vec<Text>, NoMemory> {
    let mut done = Vec::new(alloc);
    for (hint, letter) in hints.iter().zip(letters.iter()) {
        if is_any_done(alloc, letter.number, hint.as_str(), decisions)? {
            done.push(hint.copy(alloc)?)?;
        }
    }
    Ok(done)
}

/// The hints but for the one at the place.
fn hints_without(alloc: Global, hints: &[Text], place: usize) -> Result<Vec<Text>, NoMemory> {
    let mut left = Vec::new(alloc);
    for (other, hint) in hints.iter().enumerate() {
        if other != place {
            left.push(hint.copy(alloc)?)?;
        }
    }
    Ok(left)
}

/// The hints of a part, behind others.
fn with_part(
    alloc: Global,
    others: &[Text],
    hints: &[Text],
    part: Part,
) -> Result<Vec<Text>, NoMemory> {
    let mut more = Vec::new(alloc);
    for hint in others {
        more.push(hint.copy(alloc)?)?;
    }
    for (place, hint) in hints.iter().enumerate() {
        if place >= part.start && place < part.end {
            more.push(hint.copy(alloc)?)?;
        }
    }
    Ok(more)
}

/// Adds the halves of a part, the first one last; a single hint has none.
fn push_halves(parts: &mut Vec<Part>, part: Part) -> Result<(), NoMemory> {
    let half = part.end.saturating_sub(part.start) / 2;
    if half == 0 {
        return Ok(());
    }
    let middle = part.start.saturating_add(half);
    parts.push(Part {
        start: middle,
        end: part.end,
    })?;
    Ok(parts.push(Part {
        start: part.start,
        end: middle,
    })?)
}

/// The testing before a run keeps the suites that the run left.
pub(crate) fn keep_suites(before: &mut Testing, after: Testing) -> Result<(), NoMemory>
    ensures { before.new ≡ before.old }
{
    let mut after = after;
    let kept = after.take_kept();
    drop(after);
    match kept {
        Some(suites) => before.keep_suites(suites),
        None => Ok(()),
    }
}

/// What a run decides, before it is written as texts. Testing stays.
pub(crate) fn decisions_beside(
    alloc: Global,
    setup: &Setup,
    date: Date,
    facts: &Facts,
    testing: &mut Testing,
) -> Result<Update, NoMemory>
    ensures same { testing.new ≡ testing.old }
    ensures ok { IfOk result (λ u. (s : Covered) → StandsFor facts.now s testing.old → u ≡ decisions_by setup.now date s testing.old) }
{
    let mut after = testing.share()?;
    let update = decisions_over(alloc, setup, date, facts, &mut after)?;
    keep_suites(testing, after)?;
    Ok(update)
}

/// What a run decides once the facts have what messages of the release team say. Testing and the facts stay.
fn decisions_with(
    alloc: Global,
    setup: &Setup,
    date: Date,
    facts: &Facts,
    letters: &[Letter],
    testing: &mut Testing,
) -> Result<Update, NoMemory>
    ensures same { testing.new ≡ testing.old }
    ensures ok { IfOk result (λ u. (s : Covered) → StandsFor facts.now s testing.old → u ≡ decisions_by setup.now date (with_letters setup.now (release setup.now) letters.now s) testing.old) }
{
    let mut with = facts.copy()?;
    take_all(alloc, setup, &mut with, letters)?;
    let update = decisions_beside(alloc, setup, date, &with, testing)?;
    drop(with);
    Ok(update)
}

/// The hints, and what the run decides with them, if they are accepted and it does the group of each; or else the hints
/// to try instead, with no decisions. Testing and the facts stay.
fn try_once(
    alloc: Global,
    asked: &Asked<'_>,
    testing: &mut Testing,
    hints: Vec<Text>,
) -> Result<(Vec<Text>, Option<Update>), NoMemory>
    ensures same { testing.new ≡ testing.old }
    ensures settled { IfOk result (λ o. IfSome o.1 (IsSettledFor asked.now testing.old o.0.items)) }
{
    let (setup, number, facts) = (asked.setup, asked.number, asked.facts);
    let mut letters = Vec::new(alloc);
    if let Some(refused) = take_hints(alloc, setup, &mut letters, number, &hints)? {
        let left = hints_without(alloc, &hints, refused.place)?;
        return Ok((left, None));
    }
    let update = decisions_with(alloc, setup, asked.date, facts, &letters, testing)?;
    let done = are_done(alloc, number, &hints, update.as_slice())?;
    if done {
        return Ok((hints, Some(update)));
    }
    let left = done_hints(alloc, &hints, &letters, update.as_slice())?;
    drop(update);
    Ok((left, None))
}

/// Those of the hints that are taken one after another and whose groups the run moves with no others, and what it
/// decides then, if that is found in so many times. Testing and the facts stay.
fn settle_groups(
    alloc: Global,
    asked: &Asked<'_>,
    testing: &mut Testing,
    hints: Vec<Text>,
) -> Result<(Vec<Text>, Option<Update>), NoMemory>
    ensures same { testing.new ≡ testing.old }
    ensures settled { IfOk result (λ o. IfSome o.1 (IsSettledFor asked.now testing.old o.0.items)) }
{
    let mut left = hints;
    'rounds: for _round in 0..ROUNDS {
        let (next, update) = try_once(alloc, asked, testing, left)?;
        if let Some(update) = update {
            return Ok((next, Some(update)));
        }
        left = next;
    }
    Ok((left, None))
}

/// The same, with no decisions where the run doesn't move all that these decisions move.
fn settle_kept(
    alloc: Global,
    asked: &Asked<'_>,
    testing: &mut Testing,
    base: &[Decision],
    hints: Vec<Text>,
) -> Result<(Vec<Text>, Option<Update>), NoMemory>
    ensures same { testing.new ≡ testing.old }
    ensures settled { IfOk result (λ o. IfSome o.1 (IsSettledFor asked.now testing.old o.0.items)) }
    ensures keeps { IfOk result (λ o. IfSome o.1 (KeepsMoves base.now)) }
{
    let (left, update) = settle_groups(alloc, asked, testing, hints)?;
    let Some(update) = update else {
        return Ok((left, None));
    };
    let kept = keeps_moves(alloc, base, update.as_slice())?;
    if kept {
        return Ok((left, Some(update)));
    }
    drop(update);
    Ok((left, None))
}

/// The hints that are left of these, if they cost no source its move.
fn kept_hints(
    alloc: Global,
    asked: &Asked<'_>,
    testing: &mut Testing,
    base: &[Decision],
    hints: Vec<Text>,
) -> Result<Option<Vec<Text>>, NoMemory>
    ensures { testing.new ≡ testing.old }
{
    let (left, update) = settle_kept(alloc, asked, testing, base, hints)?;
    match update {
        Some(update) => {
            drop(update);
            Ok(Some(left))
        }
        None => Ok(None),
    }
}

/// Of hints that cost a source its move, together, those that don't: each part of them that does is cut in halves, and
/// a single one is left out.
fn hints_apart(
    alloc: Global,
    asked: &Asked<'_>,
    testing: &mut Testing,
    base: &[Decision],
    hints: &[Text],
) -> Result<Vec<Text>, NoMemory>
    ensures { testing.new ≡ testing.old }
{
    let mut kept = Vec::new(alloc);
    let mut parts = Vec::new(alloc);
    let end = hints.len();
    push_halves(&mut parts, Part { start: 0, end })?;
    'turns: for _turn in 0..PARTS {
        if let Some(part) = parts.pop() {
            let more = with_part(alloc, &kept, hints, part)?;
            match kept_hints(alloc, asked, testing, base, more)? {
                Some(more) => kept = more,
                None => push_halves(&mut parts, part)?,
            }
        }
    }
    Ok(kept)
}

/// The same of hints that cost a source its move, together: of those that don't. Testing and the facts stay.
fn settle_apart(
    alloc: Global,
    asked: &Asked<'_>,
    testing: &mut Testing,
    base: &[Decision],
    hints: &[Text],
) -> Result<(Vec<Text>, Option<Update>), NoMemory>
    ensures same { testing.new ≡ testing.old }
    ensures settled { IfOk result (λ o. IfSome o.1 (IsSettledFor asked.now testing.old o.0.items)) }
    ensures keeps { IfOk result (λ o. IfSome o.1 (KeepsMoves base.now)) }
{
    let apart = hints_apart(alloc, asked, testing, base, hints)?;
    settle_kept(alloc, asked, testing, base, apart)
}

/// Those of the hints that are taken one after another, whose groups the run moves with no others, and with which it
/// moves all that it moves without them; and what it decides then. Without them it decides this. Where no such hints
/// are found after so many times there are none. Testing and the facts stay.
pub(crate) fn settle(
    alloc: Global,
    asked: &Asked<'_>,
    testing: &mut Testing,
    base: Update,
    hints: Vec<Text>,
) -> Result<(Vec<Text>, Update), NoMemory>
    requires base { (s : Covered) → StandsFor asked.now.facts.now s testing.old → base ≡ decisions_by asked.now.setup.now asked.now.date s testing.old }
    ensures same { testing.new ≡ testing.old }
    ensures settled { IfOk result (λ o. IsSettledFor asked.now testing.old o.0.items o.1) }
    ensures keeps { IfOk result (λ o. KeepsMovesFor asked.now testing.old o.1) }
{
    if hints.is_empty() {
        return Ok((Vec::new(alloc), base));
    }
    let (left, first) = settle_kept(alloc, asked, testing, base.as_slice(), hints)?;
    if let Some(update) = first {
        drop(base);
        return Ok((left, update));
    }
    let (apart, second) = settle_apart(alloc, asked, testing, base.as_slice(), &left)?;
    if let Some(update) = second {
        drop(base);
        return Ok((apart, update));
    }
    Ok((Vec::new(alloc), base))
}
