//! The lines on the finished runs.

ghost use Rattle.std.specs.Prelude.{◌≡◌, ◌++◌, ◌≤◌, [], IfOk, OnOk, string_bytes, unwrap_or};
ghost use Rattle.office_core_store.specs.Counted.{Counted};
ghost use Rattle.office_core.specs.Preserves.{Asks, Holds};
ghost use Rattle.office_core_facts.specs.State.{state_of};
ghost use Rattle.office_core_queries.specs.RunLines.{word_at, has_word, is_line, count_of, date_of, excuse_counts, update_counts, run_line, line_on, runs_text};

use deb_control::Text;
use office_core::Office;
use office_core_store::StoreFault;
use office_store_keeper::Keeper;
use std::alloc::AllocError;

/// What a line of a run's reports is about.
#[derive(Clone, Copy, Debug, PartialEq, Eq)]
enum LineKind {
    /// The first line of an excuse.
    Excuse,
    /// The last line of a candidate's excuse.
    Candidate,
    /// A single move.
    Accept,
    /// A group that moved.
    Easy,
    /// A removal that was done.
    Remove,
    /// A candidate that waits.
    Wait,
}

/// A line for each finished run, in order: its date, and how many lines of each kind its reports have. It fails only if
/// memory runs out or the store fails.
pub fn runs_text<K: Keeper>(office: &mut Office<K>) -> Result<Text, StoreFault>
    ensures text { Holds K.Keeper office.old office.new → IfOk result (λ text. text ≡ runs_text (state_of K.Keeper office.old)) }
    ensures asks { Asks K.Keeper office.old office.new }
    ensures counted { Counted (K.refusals office.old) (K.refusals office.new) result }
{
    let count = office.finished()?;
    let mut text = String::new(office.alloc());
    push_runs(&mut text, office, count)?;
    Ok(Text::from_string(text))
}

/// The lines on the runs up to the last finished one.
fn push_runs<K: Keeper>(
    text: &mut String,
    office: &mut Office<K>,
    finished: u32,
) -> Result<(), StoreFault>
    ensures text { Holds K.Keeper office.old office.new → finished ≡ (state_of K.Keeper office.old).finished → OnOk result (string_bytes text.new ≡ string_bytes text.old ++ runs_text (state_of K.Keeper office.old)) }
    ensures asks { Asks K.Keeper office.old office.new }
    ensures counted { Counted (K.refusals office.old) (K.refusals office.new) result }
{
    let mut done = 0;
    'runs: while done < finished {
        push_run_line(text, office, done + 1)?;
        done += 1;
    }
    Ok(())
}

/// The line on a finished run.
fn push_run_line<K: Keeper>(
    text: &mut String,
    office: &mut Office<K>,
    run: u32,
) -> Result<(), StoreFault>
    ensures text { Holds K.Keeper office.old office.new → 1 ≤ run → run ≤ (state_of K.Keeper office.old).finished → OnOk result (string_bytes text.new ≡ string_bytes text.old ++ line_on (K.setup office.old) (K.content office.old).kept run) }
    ensures asks { Asks K.Keeper office.old office.new }
    ensures counted { Counted (K.refusals office.old) (K.refusals office.new) result }
{
    let excuses = office.excuses_text(run)?;
    let update = office.update_text(run)?;
    push_run(text, run, text_in(&excuses), text_in(&update))?;
    Ok(())
}

/// The text of a report, empty if there is none.
fn text_in(report: &Option<Text>) -> &str
    ensures { result.now ≡ unwrap_or report.now [] }
{
    match report {
        Some(text) => text.as_str(),
        None => "",
    }
}

/// The line on a finished run, by its two reports.
fn push_run(text: &mut String, run: u32, excuses: &str, update: &str) -> Result<(), AllocError>
    ensures { OnOk result (string_bytes text.new ≡ string_bytes text.old ++ run_line run excuses.now update.now) }
{
    let date = date_of(excuses);
    write!(text, "run {run} {date}")?;
    push_excuse_counts(text, excuses)?;
    push_update_counts(text, update)?;
    text.push('\n')
}

fn push_excuse_counts(text: &mut String, excuses: &str) -> Result<(), AllocError>
    ensures { OnOk result (string_bytes text.new ≡ string_bytes text.old ++ excuse_counts excuses.now) }
{
    let count = count_of(LineKind::Excuse, excuses);
    let candidates = count_of(LineKind::Candidate, excuses);
    write!(text, " excuses {count} candidates {candidates}")
}

fn push_update_counts(text: &mut String, update: &str) -> Result<(), AllocError>
    ensures { OnOk result (string_bytes text.new ≡ string_bytes text.old ++ update_counts update.now) }
{
    let accepted = count_of(LineKind::Accept, update);
    let easy = count_of(LineKind::Easy, update);
    let removed = count_of(LineKind::Remove, update);
    let waiting = count_of(LineKind::Wait, update);
    write!(
        text,
        " accept {accepted} easy {easy} remove {removed} wait {waiting}"
    )
}

/// The date of a report: the third word of its heading.
fn date_of(report: &str) -> &str
    ensures { result.now ≡ date_of report.now }
{
    word_at(2, report.lines().next().unwrap_or(""))
}

/// How many lines of a report after its heading are of a kind.
fn count_of(kind: LineKind, report: &str) -> usize
    ensures { result ≡ count_of kind report.now }
{
    report
        .lines()
        .skip(1)
        .filter(|line| is_line(kind, line))
        .count()
}

/// Whether a line is of a kind.
fn is_line(kind: LineKind, line: &str) -> bool
    ensures { result ≡ is_line kind line.now }
{
    match kind {
        LineKind::Excuse => !line.starts_with(" "),
        LineKind::Candidate => line == " candidate",
        LineKind::Accept => has_word(0, "accept", line),
        LineKind::Easy => has_word(0, "easy", line) && has_word(2, "accept", line),
        LineKind::Remove => has_word(0, "remove", line) && has_word(2, "accept", line),
        LineKind::Wait => has_word(0, "wait", line),
    }
}

/// Whether the word at a place of a line is this one.
fn has_word(place: usize, word: &str, line: &str) -> bool
    ensures { result ≡ has_word place word.now line.now }
{
    word_at(place, line) == word
}

/// The word at a place of a line, counted from 0, empty if there is none. Each space ends a word.
fn word_at(place: usize, line: &str) -> &str
    ensures { result.now ≡ word_at place line.now }
{
    line.split(' ').nth(place).unwrap_or("")
}
