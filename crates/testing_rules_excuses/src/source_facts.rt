//! What a run knows about one source.

ghost use Rattle.std.specs.Prelude.{◌≡◌, IfOk, filter, option_copied};
ghost use Rattle.testing_rules_model.specs.Excuses as excuses;
ghost use Rattle.testing_rules_model.specs.JudgedRows.{lent};
ghost use Rattle.testing_rules_model.specs.Unstable as unstable;
ghost use Rattle.testing_rules_excuses.specs.steps.Said as rules_steps;
ghost use Rattle.testing_rules_excuses.specs.steps.Said.{said_lists};

use crate::near::testing_version_near;
use crate::run_excuses::in_force;
use deb_version::{NoMemory, Version};
use std::alloc::{AllocError, Global};
use testing_rules_facts::{Facts, built_rows, is_of_source};
use testing_rules_items::Archs;
use testing_rules_model::{BugIn, HintIn, LentRow, UploadIn};
use testing_rules_suites::Testing;

/// What a run knows about one source besides its unstable upload: unstable's rows that name it, the states of the bugs,
/// the hints in force, and its version in testing.
#[derive(Drop)]
pub struct SourceFacts<'a> {
    pub rows: Vec<LentRow<'a>>,
    pub bugs: &'a [Box<BugIn>],
    pub hints: Vec<HintIn>,
    pub testing: Option<&'a Version>,
}

/// The given rows that name the source.
fn own_rows<'a>(
    alloc: Global,
    rows: &[LentRow<'a>],
    upload: &UploadIn,
) -> Result<Vec<LentRow<'a>>, AllocError>
    ensures { IfOk result (λ own. lent own.items ≡ filter (unstable.is_of_source upload.now) (lent rows.now)) }
{
    let mut own = Vec::new(alloc);
    for row in rows {
        if is_of_source(upload, row) {
            own.push(*row)?;
        }
    }
    Ok(own)
}

/// The rows of unstable that name the source.
fn rows_of<'a>(
    alloc: Global,
    archs: &Archs,
    facts: &'a Facts,
    upload: &UploadIn,
) -> Result<Vec<LentRow<'a>>, NoMemory>
    ensures { IfOk result (λ own. lent own.items ≡ filter (unstable.is_of_source upload.now) (unstable.built_rows archs.now facts.now.rows)) }
{
    let rows = built_rows(alloc, archs, facts.rows())?;
    Ok(own_rows(alloc, &rows, upload)?)
}

/// The version of a name in testing.
fn version_in<'a>(testing: &'a Testing, name: &str) -> Option<&'a Version>
    ensures { option_copied result ≡ excuses.testing_version testing.now name.now }
{
    let (version, _) = testing_version_near(testing, name, 0);
    version
}

/// What the facts and testing say about an unstable source. The only error is running out of memory.
pub fn said_of<'a>(
    alloc: Global,
    archs: &Archs,
    facts: &'a Facts,
    testing: &'a Testing,
    upload: &UploadIn,
) -> Result<SourceFacts<'a>, NoMemory>
    ensures { IfOk result (λ said. said_lists said ≡ rules_steps.said_of archs.now facts.now testing.now upload.now) }
{
    let rows = rows_of(alloc, archs, facts, upload)?;
    let hints = in_force(alloc, facts.hints(), facts.unhints())?;
    Ok(SourceFacts {
        rows,
        bugs: facts.bugs(),
        hints,
        testing: version_in(testing, upload.source.as_str()),
    })
}
