//! Proofs that no group frees a source, and the lines of sources that aren't candidates.

ghost use Rattle.std.specs.Prelude.{IfOk, IfSome};
ghost use Rattle.office_core_outcome.specs.steps.Settled.{AreAnswersBehind, AreAnswersFor, IsAnswerBehind, IsStuckBehind};

use crate::asked::Asked;
use crate::hint_trials::is_any_moved;
use crate::no_candidate::no_candidate_line;
use deb_control::{NoMemory, Text};
use std::alloc::Global;
use testing_rules_excuses::excuses;
use testing_rules_facts::Facts;
use testing_rules_groups::DeadSource;
use testing_rules_items::Archs;
use testing_rules_model::{Decision, Excuse};
use testing_rules_moves::hinted;
use testing_rules_refusals::{BehindHints, Suspect, stuck_text};
use testing_rules_suites::Testing;

/// The basis of blocks of lines: the facts and excuses of a run, and testing after the hints in force. Also what a
/// search considers dead, and what the run decides with the proposed hints.
#[derive(Clone, Copy)]
struct BlockInput<'g> {
    archs: &'g Archs,
    facts: &'g Facts,
    excuses: &'g [Excuse],
    behind: &'g Testing,
    suspects: &'g [Suspect],
    decisions: &'g [Decision],
}

/// What a search considers dead, for the blocks of lines that are to show it.
fn suspects_of(alloc: Global, dead: &[DeadSource]) -> Result<Vec<Suspect>, NoMemory> {
    let mut suspects = Vec::with_capacity(alloc, dead.len())?;
    for source in dead {
        suspects.push(Suspect {
            name: source.name.copy(alloc)?,
            arch: source.arch,
            package: source.package.copy(alloc)?,
            round: source.rank,
        })?;
    }
    Ok(suspects)
}

/// The proof that no group frees a source; none if the run moves it.
fn shown_stuck(
    alloc: Global,
    input: &BlockInput<'_>,
    source: &str,
) -> Result<Option<Text>, NoMemory>
    ensures { IfOk result (λ text. IfSome text (IsStuckBehind input.now.archs.now input.now.facts.now input.now.excuses.now input.now.behind.now input.now.decisions.now source.now)) }
{
    if is_any_moved(source, input.decisions) {
        return Ok(None);
    }
    let behind = BehindHints {
        archs: input.archs,
        facts: input.facts,
        excuses: input.excuses,
        testing: input.behind,
    };
    stuck_text(alloc, &behind, input.suspects, source)
}

/// The line of a source that isn't a candidate; else the proof that no group frees it.
#[tactic(auto, using(crate::proofs::StuckFacts::line_told, crate::proofs::StuckFacts::stuck_told))]
fn source_told(
    alloc: Global,
    input: &BlockInput<'_>,
    source: &str,
) -> Result<Option<Text>, NoMemory>
    ensures { IfOk result (λ text. IsAnswerBehind input.now.archs.now input.now.facts.now input.now.excuses.now input.now.behind.now input.now.decisions.now source.now text) }
{
    let line = no_candidate_line(
        alloc,
        input.archs,
        input.facts,
        input.excuses,
        input.behind,
        source,
    )?;
    match line {
        Some(line) => Ok(Some(line)),
        None => {
            let shown = shown_stuck(alloc, input, source)?;
            Ok(shown)
        }
    }
}

/// The same of each of the sources.
fn each_stuck(
    alloc: Global,
    input: &BlockInput<'_>,
    sources: &[Text],
) -> Result<Vec<Option<Text>>, NoMemory>
    ensures { IfOk result (λ texts. AreAnswersBehind input.now.archs.now input.now.facts.now input.now.excuses.now input.now.behind.now input.now.decisions.now sources.now texts.items) }
{
    let mut texts = Vec::new(alloc);
    for source in sources {
        let text = source_told(alloc, input, source.as_str())?;
        texts.push(text)?;
    }
    Ok(texts)
}

/// For each requested source its line if it isn't a candidate; else the proof that no group frees it, if the search
/// found it dead, the run doesn't move it, and the lines show it. The decisions are those of the run with the proposed
/// hints.
pub(crate) fn stuck_texts(
    alloc: Global,
    asked: &Asked<'_>,
    testing: &Testing,
    dead: &[DeadSource],
    decisions: &[Decision],
) -> Result<Vec<Option<Text>>, NoMemory>
    ensures { IfOk result (λ texts. AreAnswersFor asked.now testing.now decisions.now texts.items) }
{
    let archs = asked.setup.archs();
    let facts = asked.facts;
    let excuses = excuses(alloc, archs, facts, testing, asked.date)?;
    let list = excuses.as_slice();
    let behind = hinted(alloc, archs, facts, list, testing)?;
    let suspects = suspects_of(alloc, dead)?;
    let input = BlockInput {
        archs,
        facts,
        excuses: list,
        behind: &behind,
        suspects: &suspects,
        decisions,
    };
    each_stuck(alloc, &input, asked.sources)
}
