//! What is told of a question, by the facts and the testing that a run left.

ghost use Rattle.std.specs.Prelude.{◌≡◌, ◌++◌, [], IfOk};
ghost use Rattle.testing_rules_items.specs.Words.{is_empty};
ghost use Rattle.testing_rules_model.specs.Boxed.{unboxed};
ghost use Rattle.testing_rules_model.specs.Covered.{Covered};
ghost use Rattle.testing_rules_model.specs.FactOrder.{AreBySource};
ghost use Rattle.testing_rules_model.specs.InOrder.{AreByKey};
ghost use Rattle.testing_rules_model.specs.JudgedRows.{lent};
ghost use Rattle.testing_rules_model.specs.StandsFor.{StandsFor};
ghost use Rattle.testing_rules_model.specs.Unstable as unstable_words;
ghost use Rattle.office_core_breaks.specs.Breaks as rules;
ghost use Rattle.office_core_breaks.specs.steps.Grounds.{known_on};
ghost use Rattle.office_core_breaks.specs.Texts as texts;
ghost use Rattle.office_core_breaks.specs.Told.{IsTold, IsToldOf, IsWhyBroken, known_for};

use crate::BreaksText;
use crate::asked::{Change, Question};
use crate::change::{coming, rows_after};
use crate::lines::{push_all, push_head, push_unknown};
use crate::offers::OfferInput;
use deb_control::{NoMemory, Text};
use jiff_core::civil::Date;
use std::alloc::Global;
use testing_rules_excuses::excuses;
use testing_rules_facts::{Facts, Unstable, built_rows};
use testing_rules_items::Archs;
use testing_rules_model::{Excuse, LentRow, UploadIn};
use testing_rules_refusals::group_refusal;
use testing_rules_suites::{Testing, lend_rows};

/// A question that is asked behind a run of this number and date.
#[derive(Clone, Copy)]
pub(crate) struct AskedQuestion<'a> {
    pub run: u32,
    pub date: Date,
    pub question: &'a Question,
}

/// What a question is told by: the architectures, the facts and the excuses of a run.
#[derive(Clone, Copy)]
pub(crate) struct Basis<'g> {
    pub archs: &'g Archs,
    pub facts: &'g Facts,
    pub excuses: &'g [Excuse],
}

/// The rows that a change from the old rows to the new ones breaks, by architecture.
fn all_lines(
    alloc: Global,
    input: &OfferInput,
    old: &[LentRow],
    new: &[LentRow],
) -> Result<Text, NoMemory>
    requires { AreBySource (unboxed input.now.unstable.sources.now) }
    ensures { IfOk result (λ text. text ≡ texts.all_text (known_on input.now) (lent input.now.unstable.rows.now) (lent old.now) (lent new.now)) }
{
    let mut text = String::new(alloc);
    push_all(alloc, &mut text, input, old, new)?;
    Ok(Text::from_string(text))
}

/// The rows that a change breaks by which this group comes in, where testing has these rows and unstable those.
fn broken_over<'a>(
    alloc: Global,
    input: &OfferInput<'_, 'a>,
    testing: &'a Testing,
    old: &[LentRow<'a>],
    change: &Change,
) -> Result<Text, NoMemory>
    requires sources { AreBySource (unboxed input.now.unstable.sources.now) }
    requires order { AreByKey (lent old.now) }
    requires rows { lent old.now ≡ testing.now.rows }
    requires group { input.now.coming.now ≡ rules.coming (unboxed input.now.unstable.sources.now) testing.now change.now }
    ensures { IfOk result (λ text. text ≡ texts.all_text (known_on input.now) (lent input.now.unstable.rows.now) testing.now.rows
        (rules.rows_after (unboxed input.now.unstable.sources.now) (lent input.now.unstable.rows.now) testing.now change.now)) }
{
    let new = rows_after(alloc, input.unstable, testing, old, input.coming, change)?;
    all_lines(alloc, input, old, &new)
}

/// The same over the rows of a testing.
fn broken_there<'a>(
    alloc: Global,
    input: &OfferInput<'_, 'a>,
    testing: &'a Testing,
    change: &Change,
) -> Result<Text, NoMemory>
    requires sources { AreBySource (unboxed input.now.unstable.sources.now) }
    requires group { input.now.coming.now ≡ rules.coming (unboxed input.now.unstable.sources.now) testing.now change.now }
    ensures { IfOk result (λ text. text ≡ texts.all_text (known_on input.now) (lent input.now.unstable.rows.now) testing.now.rows
        (rules.rows_after (unboxed input.now.unstable.sources.now) (lent input.now.unstable.rows.now) testing.now change.now)) }
{
    let there = testing.rows();
    let old = lend_rows(alloc, there)?;
    broken_over(alloc, input, testing, &old, change)
}

/// The same, where unstable has these rows.
fn broken_by(
    alloc: Global,
    basis: &Basis<'_>,
    rows: &[LentRow],
    testing: &Testing,
    group: &[Text],
    change: &Change,
) -> Result<Text, NoMemory>
    requires { group.now ≡ rules.coming basis.now.facts.now.sources testing.now change.now }
    ensures { IfOk result (λ text. text ≡ texts.all_text (known_for basis.now.archs.now basis.now.facts.now.sources basis.now.excuses.now group.now) (lent rows.now) testing.now.rows
        (rules.rows_after basis.now.facts.now.sources (lent rows.now) testing.now change.now)) }
{
    let sources = basis.facts.sources();
    let unstable = Unstable { sources, rows };
    let input = OfferInput {
        archs: basis.archs,
        unstable,
        excuses: basis.excuses,
        coming: group,
    };
    broken_there(alloc, &input, testing, change)
}

/// The rows that a change breaks by which this group comes in.
fn broken_lines(
    alloc: Global,
    basis: &Basis<'_>,
    testing: &Testing,
    group: &[Text],
    change: &Change,
) -> Result<Text, NoMemory>
    requires { group.now ≡ rules.coming basis.now.facts.now.sources testing.now change.now }
    ensures { IfOk result (λ text. text ≡ texts.all_text (known_for basis.now.archs.now basis.now.facts.now.sources basis.now.excuses.now group.now) (unstable_words.built_rows basis.now.archs.now basis.now.facts.now.rows) testing.now.rows
        (rules.rows_after basis.now.facts.now.sources (unstable_words.built_rows basis.now.archs.now basis.now.facts.now.rows) testing.now change.now)) }
{
    let built = basis.facts.rows();
    let rows = built_rows(alloc, basis.archs, built)?;
    broken_by(alloc, basis, &rows, testing, group, change)
}

/// No line.
fn no_lines(alloc: Global) -> Text
    ensures { result ≡ [] }
{
    Text::from_string(String::new(alloc))
}

/// The lines on why the group can't move as one, none where that breaks nothing.
fn shown_lines(
    alloc: Global,
    basis: &Basis<'_>,
    group: &[Text],
    testing: &mut Testing,
) -> Result<Text, NoMemory>
    ensures why { IfOk result (IsWhyBroken basis.now.archs.now basis.now.facts.now.sources (unstable_words.built_rows basis.now.archs.now basis.now.facts.now.rows) basis.now.excuses.now testing.old group.now) }
    ensures same { testing.new ≡ testing.old }
{
    let (archs, facts, excuses) = (basis.archs, basis.facts, basis.excuses);
    match group_refusal(alloc, archs, facts, excuses, group, testing)? {
        Some(text) => Ok(text),
        None => Ok(no_lines(alloc)),
    }
}

/// The lines of what can't change.
fn unknown_lines(
    alloc: Global,
    sources: &[Box<UploadIn>],
    testing: &Testing,
    change: &Change,
) -> Result<Text, NoMemory>
    requires { AreBySource (unboxed sources.now) }
    ensures { IfOk result (λ text. text ≡ texts.unknown_text (unboxed sources.now) testing.now change.now) }
{
    let mut text = String::new(alloc);
    push_unknown(&mut text, sources, testing, change)?;
    Ok(Text::from_string(text))
}

/// Whether there is no line.
fn is_none(lines: &Text) -> bool
    ensures { result ≡ is_empty lines.now }
{
    lines.as_str().is_empty()
}

/// The first line, and behind it these lines.
fn joined(
    alloc: Global,
    run: u32,
    words: &Text,
    unknown: &Text,
    broken: &Text,
    shown: &Text,
) -> Result<Text, NoMemory>
    ensures { IfOk result (λ text. text ≡ texts.head_line run words.now ++ unknown.now ++ broken.now ++ shown.now) }
{
    let mut text = String::new(alloc);
    push_head(&mut text, run, words.as_str())?;
    text.push_str(unknown.as_str())?;
    text.push_str(broken.as_str())?;
    text.push_str(shown.as_str())?;
    Ok(Text::from_string(text))
}

/// What is told of a question, by the excuses of the run.
fn told_by(
    alloc: Global,
    basis: &Basis<'_>,
    testing: &mut Testing,
    run: u32,
    question: &Question,
) -> Result<BreaksText, NoMemory>
    ensures told { IfOk result (IsToldOf basis.now.archs.now basis.now.facts.now.sources (unstable_words.built_rows basis.now.archs.now basis.now.facts.now.rows) basis.now.excuses.now testing.old run question.now) }
    ensures same { testing.new ≡ testing.old }
{
    let sources = basis.facts.sources();
    let change = &question.change;
    let group = coming(alloc, sources, testing, change)?;
    let unknown = unknown_lines(alloc, sources, testing, change)?;
    let broken = broken_lines(alloc, basis, testing, &group, change)?;
    let shown = shown_lines(alloc, basis, &group, testing)?;
    let text = joined(alloc, run, &question.words, &unknown, &broken, &shown)?;
    Ok(BreaksText {
        text,
        is_known: is_none(&unknown),
    })
}

/// What is told of a question behind the run of this number and date, which left this testing, over the messages that
/// the facts stand for.
pub(crate) fn told_after(
    alloc: Global,
    archs: &Archs,
    facts: &Facts,
    testing: &mut Testing,
    asked: &AskedQuestion<'_>,
) -> Result<BreaksText, NoMemory>
    ensures told { IfOk result (λ told. (s : Covered) → StandsFor facts.now s testing.old → IsTold archs.now s testing.old asked.now.run asked.now.date asked.now.question.now told) }
    ensures same { testing.new ≡ testing.old }
{
    let excuses = excuses(alloc, archs, facts, testing, asked.date)?;
    let basis = Basis {
        archs,
        facts,
        excuses: excuses.as_slice(),
    };
    told_by(alloc, &basis, testing, asked.run, asked.question)
}
