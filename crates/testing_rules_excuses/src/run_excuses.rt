//! The excuses of a run.

ghost use Rattle.std.specs.Prelude.{◌≡◌, IfOk, IsTrue, filter, map, option_copied};
ghost use Rattle.testing_rules_model.specs.Boxed.{unboxed};
ghost use Rattle.testing_rules_excuses.specs.steps.BySource.{excuse_by, excuses_by, ground_at, ground_from, is_among, news_of, part_of, told_of};
ghost use Rattle.testing_rules_model.specs.Covered.{Covered};
ghost use Rattle.testing_rules_model.specs.StandsFor.{StandsFor};
ghost use Rattle.testing_rules_model.specs.Excuses as rules;
ghost use Rattle.testing_rules_model.specs.steps.Grounds as grounds;
ghost use Rattle.testing_rules_model.specs.Unstable as unstable;
ghost use Rattle.testing_rules_model.specs.Unstable.{place_numbers};
ghost use Rattle.testing_rules_items.specs.Words.{Text};

use crate::by_source::{
    Grouped, News, SourceEvidence, bugs_by_source, found_of, rows_by_source, uploads_by_source,
};
use crate::days::{age_of, days_needed, delays_in_force, is_news};
use crate::near::testing_version_near;
use crate::own_hints::hints_by_source;
use crate::reasons::{Known, reasons_of};
use crate::source_filter::sources_of_news;
use deb_version::{NoMemory, Version};
use jiff_core::civil::Date;
use std::alloc::Global;
use testing_rules_facts::{Facts, Unhints, is_in_force, rows_passing};
use testing_rules_items::{Archs, copy_version};
use testing_rules_model::{Excuse, Excuses, HintIn, UnhintIn, UploadIn};
use testing_rules_suites::Testing;

/// The hints that the unhints leave in force.
fn hints_left(alloc: Global, hints: &[HintIn], unhints: &Unhints) -> Result<Vec<HintIn>, NoMemory>
    ensures { IfOk result (λ in_force. in_force.items ≡ filter (unstable.is_in_force unhints.now) hints.now) }
{
    let mut in_force = Vec::new(alloc);
    for hint in hints {
        if is_in_force(unhints, hint) {
            in_force.push(hint.copy(alloc)?)?;
        }
    }
    Ok(in_force)
}

/// The hints that are in force.
pub fn in_force(
    alloc: Global,
    hints: &[HintIn],
    unhints: &[UnhintIn],
) -> Result<Vec<HintIn>, NoMemory>
    ensures { IfOk result (λ in_force. in_force.items ≡ filter (unstable.is_in_force unhints.now) hints.now) }
{
    let unhints = Unhints::of(alloc, unhints)?;
    hints_left(alloc, hints, &unhints)
}

/// The excuse of an unstable source.
fn excuse_on(
    alloc: Global,
    archs: &Archs,
    found: &SourceEvidence,
    testing: Option<&Version>,
    upload: &UploadIn,
) -> Result<Excuse, NoMemory>
    ensures { IfOk result (λ e. e ≡ grounds.excuse_on (place_numbers archs.now) found.now (option_copied testing.entry) upload.now) }
{
    let age = age_of(found.date, upload);
    let needed = days_needed(found.delays, found.hints, found.uploads, testing, upload);
    let known = Known {
        rows: found.rows,
        bugs: found.bugs,
        hints: found.hints,
        testing,
    };
    Ok(Excuse {
        source: upload.source.copy(alloc)?,
        testing: copy_version(alloc, testing)?,
        unstable: upload.version.copy(alloc)?,
        age,
        needed,
        reasons: reasons_of(alloc, archs, &known, age < needed, upload)?,
    })
}

/// The sources that are above testing's version or aren't in testing.
fn news_of<'a>(
    alloc: Global,
    testing: &'a Testing,
    sources: &'a [Box<UploadIn>],
) -> Result<Vec<News<'a>>, NoMemory>
    ensures { IfOk result (λ news. map told_of news.items ≡ news_of testing.now (unboxed sources.now)) }
{
    let mut news = Vec::with_capacity(alloc, sources.len())?;
    let mut next = 0;
    'sources: for upload in sources {
        let (version, after) = testing_version_near(testing, upload.source.as_str(), next);
        next = after;
        if is_news(version, &upload.version) {
            news.push(News {
                upload,
                testing: version,
            })?;
        }
    }
    Ok(news)
}

/// The excuse of a source that is news.
fn excuse_of(
    alloc: Global,
    archs: &Archs,
    grouped: &Grouped,
    source: &News,
) -> Result<Excuse, NoMemory>
    ensures { IfOk result (λ e. e ≡ excuse_by (place_numbers archs.now) (ground_at grouped.now) (told_of source.now)) }
{
    let found = found_of(grouped, source.upload.source.as_str());
    excuse_on(alloc, archs, &found, source.testing, source.upload)
}

/// The excuse of each source that is news.
fn excuses_on(
    alloc: Global,
    archs: &Archs,
    grouped: &Grouped,
    news: &[News],
) -> Result<Vec<Excuse>, NoMemory>
    ensures { IfOk result (λ es. es.items ≡ excuses_by (place_numbers archs.now) (ground_at grouped.now) (map told_of news.now)) }
{
    let mut excuses = Vec::with_capacity(alloc, news.len())?;
    for source in news {
        excuses.push(excuse_of(alloc, archs, grouped, source)?)?;
    }
    Ok(excuses)
}

/// The facts' input for each source that is news.
fn group_facts<'a>(
    alloc: Global,
    archs: &Archs,
    facts: &'a Facts,
    date: Date,
    news: &[News<'a>],
) -> Result<Grouped<'a>, NoMemory>
    ensures { IfOk result (λ g. (name : Text) → IsTrue (is_among news.now name) → ground_at g name ≡ part_of (ground_from archs.now facts.now date) name) }
{
    let passing = sources_of_news(alloc, news)?;
    let rows = rows_passing(alloc, archs, facts.rows(), &passing)?;
    let hints = in_force(alloc, facts.hints(), facts.unhints())?;
    Ok(Grouped {
        rows: rows_by_source(alloc, news, &rows)?,
        bugs: bugs_by_source(alloc, news, facts.bugs())?,
        hints: hints_by_source(alloc, news, &hints)?,
        uploads: uploads_by_source(alloc, news, facts.uploads())?,
        delays: delays_in_force(facts.delays()),
        date,
    })
}

/// The excuses of a run on the given date, over the messages that the facts stand for.
pub fn excuses(
    alloc: Global,
    archs: &Archs,
    facts: &Facts,
    testing: &Testing,
    date: Date,
) -> Result<Excuses, NoMemory>
    ensures { IfOk result (λ es. (s : Covered) → StandsFor facts.now s testing.now → es ≡ rules.excuses_of archs.now s testing.now date) }
{
    let news = news_of(alloc, testing, facts.sources())?;
    let grouped = group_facts(alloc, archs, facts, date, &news)?;
    let excuses = excuses_on(alloc, archs, &grouped, &news)?;
    Ok(Excuses::of(excuses))
}
