//! Hints that are proposed for the next run.

ghost use Rattle.std.specs.Prelude.{◌≡◌, ◌++◌, ◌∷◌, [], IfOk, OnOk, string_bytes, unwrap_or};
ghost use Rattle.std.specs.List.{flat_map};
ghost use Rattle.office_core_outcome.specs.Proposal.{proposal_text};

use deb_control::{NoMemory, Text};
use jiff_core::civil::Date;
use std::alloc::{AllocError, Global};
use testing_rules_groups::{DeadSource, LongGroup};

/// How the search ended for a source that was asked for.
#[derive(Clone, Copy, Debug, PartialEq, Eq)]
pub enum SourceEnd {
    /// The run moves it in the group of a proposed hint.
    Grouped,
    /// The run moves it alone, or by a hint in force.
    Alone,
    /// The proposal has its answer: it isn't a candidate, or blocks show that no group frees it.
    Answered,
    /// No group was found, and nothing shows that there is none.
    Open,
}

/// A source that was asked for, and how the search ended for it.
#[derive(Drop)]
pub struct AskedSource {
    pub name: Text,
    pub end: SourceEnd,
}

/// Notes on a proposal. No promise speaks of them.
#[derive(Drop)]
pub struct SearchNotes {
    /// How many candidates haven't moved after the hints in force.
    pub waiting: usize,

    /// How many of those the run with the proposed hints moves.
    pub moved: usize,

    /// The candidates that no group frees.
    pub dead: Vec<DeadSource>,

    /// The groups whose hints would be too long.
    pub long: Vec<LongGroup>,

    /// How many of the groups found by the search the run refused.
    pub refused: usize,

    /// Each requested source, in the order of the request.
    pub asked: Vec<AskedSource>,
}

/// The hints proposed for the next run, numbered from `first`. `freed` are the requested sources that the run with the
/// hints moves. `answers` has for each requested source its line if it isn't a candidate; else the blocks of lines
/// which show that no group frees it, if there are any.
#[derive(Drop)]
pub struct Proposal {
    pub run: u32,
    pub date: Date,
    pub first: u32,
    pub hints: Vec<Text>,
    pub freed: Vec<Text>,
    pub answers: Vec<Option<Text>>,
    pub notes: SearchNotes,
}

/// Adds a line.
pub(crate) fn push_line(text: &mut String, line: &str) -> Result<(), AllocError>
    ensures { OnOk result (string_bytes text.new ≡ string_bytes text.old ++ line.now ++ 10 ∷ []) }
{
    writeln!(text, "{line}")
}

/// Adds a line for each hint.
fn push_hints(text: &mut String, hints: &[Text]) -> Result<(), AllocError>
    ensures { OnOk result (string_bytes text.new ≡ string_bytes text.old ++ flat_map (λ hint. hint ++ 10 ∷ []) hints.now) }
{
    'hints: for hint in hints {
        push_line(text, hint.as_str())?;
    }
    Ok(())
}

/// Adds the line or the blocks of a source, if there are any.
fn push_answer(text: &mut String, answer: &Option<Text>) -> Result<(), AllocError>
    ensures { OnOk result (string_bytes text.new ≡ string_bytes text.old ++ unwrap_or answer.now []) }
{
    match answer {
        Some(answer) => text.push_str(answer.as_str()),
        None => Ok(()),
    }
}

/// Adds the line or the blocks of each source that has any.
fn push_answers(text: &mut String, answers: &[Option<Text>]) -> Result<(), AllocError>
    ensures { OnOk result (string_bytes text.new ≡ string_bytes text.old ++ flat_map (λ answer. unwrap_or answer []) answers.now) }
{
    'sources: for answer in answers {
        push_answer(text, answer)?;
    }
    Ok(())
}

/// A proposal as text: a line for each hint, and then for each requested source its line or its blocks.
pub fn proposal_text(alloc: Global, proposal: &Proposal) -> Result<Text, NoMemory>
    ensures { IfOk result (λ text. text ≡ proposal_text proposal.now.hints.items proposal.now.answers.items) }
{
    let mut text = String::new(alloc);
    push_hints(&mut text, &proposal.hints)?;
    push_answers(&mut text, &proposal.answers)?;
    Ok(Text::from_string(text))
}
