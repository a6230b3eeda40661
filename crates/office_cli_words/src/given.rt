//! What was given to each command.

ghost use Rattle.std.specs.Prelude.{◌≡◌, map, option_map, IfOk, [], unwrap_or};
ghost use Rattle.clap.specs.Words.{all_of, first_of, found_of, rows_of, subcommand_rows_of};
ghost use Rattle.office_cli_words.specs.Asked.{ToCheck, ToExport, ToTellHints, ToTellRuns, asked, command_in, compare_in, is_set, number_of, replay_in, report_by, serve_in, stored_in};
ghost use Rattle.office_cli_words.specs.steps.AskedSteps.{asked_by, breaks_in, lint_in, mail_in, order_in, propose_in, report_in, try_in, waiting_in, why_in};

use crate::Words;
use crate::reports::{number_in, report_of};
use clap::ArgMatches;
use std::alloc::{AllocError, Global};

/// The text given under a name.
fn text_of<'a>(given: &ArgMatches<'a>, name: &str) -> Option<&'a str>
    ensures { option_map (λ text. text.now) result ≡ first_of name.now (rows_of (found_of given.now)) }
{
    given.get_str(name)
}

/// The texts given under a name.
fn texts_of<'a>(
    alloc: Global,
    given: &ArgMatches<'a>,
    name: &str,
) -> Result<Option<Vec<&'a str>>, AllocError>
    ensures { IfOk result (λ texts. option_map (λ all. map (λ text. text.now) all.items) texts ≡ all_of name.now (rows_of (found_of given.now))) }
{
    match given.get_strs(name) {
        Some(texts) => Ok(Some(copied(alloc, texts)?)),
        None => Ok(None),
    }
}

/// A copy of a list of texts.
fn copied<'a>(alloc: Global, texts: &[&'a str]) -> Result<Vec<&'a str>, AllocError>
    ensures { IfOk result (λ copy. copy.items ≡ texts.now) }
{
    let mut copy = Vec::with_capacity(alloc, texts.len())?;
    copy.extend_from_slice(texts)?;
    Ok(copy)
}

/// The number given under a name.
fn number_of(given: &ArgMatches, name: &str) -> Option<u32>
    ensures { result ≡ number_of name.now (rows_of (found_of given.now)) }
{
    match text_of(given, name) {
        Some(text) => number_in(text),
        None => None,
    }
}

/// Whether a flag is set, which clap marks with the text `true`.
fn is_set(given: &ArgMatches, name: &str) -> bool
    ensures { result ≡ is_set name.now (rows_of (found_of given.now)) }
{
    match text_of(given, name) {
        Some(value) => value == "true",
        None => false,
    }
}

fn compare_words<'a>(given: &ArgMatches<'a>) -> Option<Words<'a>>
    ensures { option_map asked result ≡ compare_in (rows_of (found_of given.now)) }
{
    let v1 = text_of(given, "V1")?;
    let op = text_of(given, "OP")?;
    let v2 = text_of(given, "V2")?;
    Some(Words::Compare { v1, op, v2 })
}

fn replay_words<'a>(given: &ArgMatches<'a>) -> Option<Words<'a>>
    ensures { option_map asked result ≡ replay_in (rows_of (found_of given.now)) }
{
    let conf = text_of(given, "conf")?;
    Some(Words::Replay {
        conf,
        db: text_of(given, "db"),
    })
}

fn serve_words<'a>(alloc: Global, given: &ArgMatches<'a>) -> Result<Option<Words<'a>>, AllocError>
    ensures { IfOk result (λ words. option_map asked words ≡ serve_in (rows_of (found_of given.now))) }
{
    let Some(conf) = text_of(given, "conf") else {
        return Ok(None);
    };
    let Some(port) = number_of(given, "port") else {
        return Ok(None);
    };
    let Some(connections) = number_of(given, "connections") else {
        return Ok(None);
    };
    Ok(Some(Words::Serve {
        conf,
        port,
        db: text_of(given, "db"),
        connections,
        hosts: listed_texts(alloc, given, "host")?,
    }))
}

fn waiting_words<'a>(given: &ArgMatches<'a>) -> Option<Words<'a>>
    ensures { option_map asked result ≡ waiting_in (rows_of (found_of given.now)) }
{
    let conf = text_of(given, "conf")?;
    Some(Words::Waiting {
        conf,
        db: text_of(given, "db"),
    })
}

/// What two words that name a report of the store in a file ask for.
fn asked_report<'a>(conf: &'a str, db: &'a str, run: &'a str, word: Option<&'a str>) -> Words<'a>
    ensures { asked result ≡ report_by run.now (option_map (λ text. text.now) word.entry) conf.now db.now }
{
    match report_of(run, word) {
        Some(report) => Words::Report { conf, db, report },
        None => Words::UnknownReport { run, report: word },
    }
}

fn report_words<'a>(given: &ArgMatches<'a>) -> Option<Words<'a>>
    ensures { option_map asked result ≡ report_in (rows_of (found_of given.now)) }
{
    let run = text_of(given, "RUN")?;
    let conf = text_of(given, "conf")?;
    let db = text_of(given, "db")?;
    Some(asked_report(conf, db, run, text_of(given, "REPORT")))
}

fn runs_words<'a>(given: &ArgMatches<'a>) -> Option<Words<'a>>
    ensures { option_map asked result ≡ stored_in ToTellRuns (rows_of (found_of given.now)) }
{
    let conf = text_of(given, "conf")?;
    let db = text_of(given, "db")?;
    Some(Words::Runs { conf, db })
}

fn mail_words<'a>(given: &ArgMatches<'a>) -> Option<Words<'a>>
    ensures { option_map asked result ≡ mail_in (rows_of (found_of given.now)) }
{
    let conf = text_of(given, "conf")?;
    let db = text_of(given, "db")?;
    Some(Words::Mail {
        conf,
        db,
        list: is_set(given, "list"),
    })
}

fn export_words<'a>(given: &ArgMatches<'a>) -> Option<Words<'a>>
    ensures { option_map asked result ≡ stored_in ToExport (rows_of (found_of given.now)) }
{
    let conf = text_of(given, "conf")?;
    let db = text_of(given, "db")?;
    Some(Words::Export { conf, db })
}

fn check_words<'a>(given: &ArgMatches<'a>) -> Option<Words<'a>>
    ensures { option_map asked result ≡ stored_in ToCheck (rows_of (found_of given.now)) }
{
    let conf = text_of(given, "conf")?;
    let db = text_of(given, "db")?;
    Some(Words::Check { conf, db })
}

fn why_words<'a>(alloc: Global, given: &ArgMatches<'a>) -> Result<Option<Words<'a>>, AllocError>
    ensures { IfOk result (λ words. option_map asked words ≡ why_in (rows_of (found_of given.now))) }
{
    let Some(conf) = text_of(given, "conf") else {
        return Ok(None);
    };
    match texts_of(alloc, given, "SOURCE")? {
        Some(sources) => Ok(Some(Words::Why {
            conf,
            db: text_of(given, "db"),
            run: number_of(given, "run"),
            hint: is_set(given, "hint"),
            sources,
        })),
        None => Ok(None),
    }
}

fn try_words<'a>(alloc: Global, given: &ArgMatches<'a>) -> Result<Option<Words<'a>>, AllocError>
    ensures { IfOk result (λ words. option_map asked words ≡ try_in (rows_of (found_of given.now))) }
{
    let Some(conf) = text_of(given, "conf") else {
        return Ok(None);
    };
    match texts_of(alloc, given, "HINT")? {
        Some(hints) => Ok(Some(Words::Try {
            conf,
            db: text_of(given, "db"),
            day: text_of(given, "day"),
            all: is_set(given, "all"),
            hints,
        })),
        None => Ok(None),
    }
}

fn lint_words<'a>(given: &ArgMatches<'a>) -> Option<Words<'a>>
    ensures { option_map asked result ≡ lint_in (rows_of (found_of given.now)) }
{
    let conf = text_of(given, "conf")?;
    Some(Words::Lint { conf })
}

fn order_words<'a>(given: &ArgMatches<'a>) -> Option<Words<'a>>
    ensures { option_map asked result ≡ order_in (rows_of (found_of given.now)) }
{
    let day = text_of(given, "day")?;
    let conf = text_of(given, "conf")?;
    let db = text_of(given, "db")?;
    Some(Words::Order { day, conf, db })
}

fn hints_words<'a>(given: &ArgMatches<'a>) -> Option<Words<'a>>
    ensures { option_map asked result ≡ stored_in ToTellHints (rows_of (found_of given.now)) }
{
    let conf = text_of(given, "conf")?;
    let db = text_of(given, "db")?;
    Some(Words::Hints { conf, db })
}

/// The texts given under a name, none if the name isn't given.
fn listed_texts<'a>(
    alloc: Global,
    given: &ArgMatches<'a>,
    name: &str,
) -> Result<Vec<&'a str>, AllocError>
    ensures { IfOk result (λ texts. map (λ text. text.now) texts.items ≡ unwrap_or (all_of name.now (rows_of (found_of given.now))) []) }
{
    match texts_of(alloc, given, name)? {
        Some(texts) => Ok(texts),
        None => Ok(Vec::new(alloc)),
    }
}

fn propose_words<'a>(alloc: Global, given: &ArgMatches<'a>) -> Result<Option<Words<'a>>, AllocError>
    ensures { IfOk result (λ words. option_map asked words ≡ propose_in (rows_of (found_of given.now))) }
{
    let Some(conf) = text_of(given, "conf") else {
        return Ok(None);
    };
    Ok(Some(Words::Propose {
        conf,
        db: text_of(given, "db"),
        day: text_of(given, "day"),
        all: is_set(given, "all"),
        sources: listed_texts(alloc, given, "SOURCE")?,
    }))
}

fn breaks_words<'a>(alloc: Global, given: &ArgMatches<'a>) -> Result<Option<Words<'a>>, AllocError>
    ensures { IfOk result (λ words. option_map asked words ≡ breaks_in (rows_of (found_of given.now))) }
{
    let Some(conf) = text_of(given, "conf") else {
        return Ok(None);
    };
    match texts_of(alloc, given, "CHANGE")? {
        Some(changes) => Ok(Some(Words::Breaks {
            conf,
            db: text_of(given, "db"),
            run: number_of(given, "run"),
            changes,
        })),
        None => Ok(None),
    }
}

fn command_words<'a>(
    alloc: Global,
    name: &str,
    given: &ArgMatches<'a>,
) -> Result<Option<Words<'a>>, AllocError>
    ensures { IfOk result (λ words. option_map asked words ≡ command_in name.now (rows_of (found_of given.now))) }
{
    match name {
        "compare" => Ok(compare_words(given)),
        "replay" => Ok(replay_words(given)),
        "serve" => serve_words(alloc, given),
        "waiting" => Ok(waiting_words(given)),
        "report" => Ok(report_words(given)),
        "runs" => Ok(runs_words(given)),
        "mail" => Ok(mail_words(given)),
        "export" => Ok(export_words(given)),
        "check" => Ok(check_words(given)),
        "why" => why_words(alloc, given),
        "try" => try_words(alloc, given),
        "lint" => Ok(lint_words(given)),
        "order" => Ok(order_words(given)),
        "hints" => Ok(hints_words(given)),
        "propose" => propose_words(alloc, given),
        "breaks" => breaks_words(alloc, given),
        _ => Ok(None),
    }
}

/// What is asked by the command that the words name and what they give it.
pub(crate) fn asked_words<'a>(
    alloc: Global,
    matches: &ArgMatches<'a>,
) -> Result<Option<Words<'a>>, AllocError>
    ensures { IfOk result (λ words. option_map asked words ≡ asked_by (subcommand_rows_of matches.now)) }
{
    match matches.subcommand() {
        Some((name, given)) => command_words(alloc, name, given),
        None => Ok(None),
    }
}
