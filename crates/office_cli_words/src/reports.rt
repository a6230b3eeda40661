//! The numbers and the reports that words name.

ghost use Rattle.std.specs.Prelude.{◌≡◌, option_map};
ghost use Rattle.office_cli_words.specs.Asked.{number_in, report_alone, report_of, run_in, run_report};

/// Why words name no report.
const NO_REPORT: &str =
    "no report: name testing or unstable, or the number of a run from 1 on and then excuses or update";

/// A report of an earlier run, testing, or unstable.
#[derive(Clone, Copy, Debug, PartialEq, Eq)]
pub enum Report {
    /// What is in testing.
    Testing,
    /// What is in unstable, by all mail without a gap.
    Unstable,
    /// The excuses of a run.
    Excuses(u32),
    /// The update of a run.
    Update(u32),
}

/// The number of a text of decimal digits.
pub(crate) fn number_in(text: &str) -> Option<u32>
    ensures { result ≡ number_in text.now }
{
    match u32::from_str_radix(text, 10) {
        Ok(number) => Some(number),
        Err(_) => None,
    }
}

/// The number of a run, from 1 on.
fn run_in(text: &str) -> Option<u32>
    ensures { result ≡ run_in text.now }
{
    match number_in(text) {
        Some(0) | None => None,
        Some(run) => Some(run),
    }
}

/// The report of a run that a word names.
fn run_report(word: &str, run: u32) -> Option<Report>
    ensures { result ≡ run_report word.now run }
{
    match word {
        "excuses" => Some(Report::Excuses(run)),
        "update" => Some(Report::Update(run)),
        _ => None,
    }
}

/// The report that one word names.
fn report_alone(word: &str) -> Option<Report>
    ensures { result ≡ report_alone word.now }
{
    match word {
        "testing" => Some(Report::Testing),
        "unstable" => Some(Report::Unstable),
        _ => None,
    }
}

/// The report that two words name: `testing` or `unstable` alone, or a run and one of its two reports.
pub(crate) fn report_of(run: &str, word: Option<&str>) -> Option<Report>
    ensures { result ≡ report_of run.now (option_map (λ text. text.now) word.entry) }
{
    match word {
        None => report_alone(run),
        Some(word) => run_report(word, run_in(run)?),
    }
}

/// Prints on standard error that words name no report, and returns the exit status 2.
pub fn refuse_report(rt: &impl Eprint, run: &str, report: Option<&str>) -> u8
    ensures { result ≡ 2 }
{
    let _ = match report {
        Some(report) => eprintln!(rt; "office: '{run} {report}': {}", NO_REPORT),
        None => eprintln!(rt; "office: '{run}': {}", NO_REPORT),
    };
    2
}
