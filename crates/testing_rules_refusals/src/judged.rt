//! Rows of one architecture, all present, judged by a suite.

ghost use Rattle.std.specs.Prelude.{◌≡◌, ℕ, ◌<◌, true, length, IfOk};
ghost use Rattle.std.specs.List.{range_with_len};
ghost use Rattle.testing_install.specs.Closed.{marked};
ghost use Rattle.testing_install.specs.Installable.{are_installable};
ghost use Rattle.testing_install.specs.Rows.{shared};
ghost use Rattle.testing_rules_model.specs.JudgedRows.{lent};
ghost use Rattle.testing_rules_model.specs.Moves as moves;
ghost use Rattle.testing_rules_refusals.specs.Needs.{packages};
ghost use Rattle.testing_rules_refusals.specs.steps.Refusals.{AreAllThere};
ghost use Rattle.testing_rules_suites.specs.steps.JudgedRows.{answers};

use deb_control::Binary;
use deb_version::NoMemory;
use std::alloc::{AllocError, Global};
use std::rc::Rc;
use testing_install::Suite;
use testing_rules_live::with_answers;
use testing_rules_model::LentRow;
use testing_rules_suites::RowAnswer;

/// The packages of the rows, shared.
fn packages(alloc: Global, rows: &[LentRow]) -> Result<Vec<Rc<Binary>>, NoMemory>
    ensures { IfOk result (λ shares. shared shares.items ≡ packages (lent rows.now)) }
{
    let mut shares = Vec::new(alloc);
    for row in rows {
        shares.push(row.binary.package()?)?;
    }
    Ok(shares)
}

/// The places of this many rows.
fn first_places(alloc: Global, count: usize) -> Result<Vec<usize>, AllocError>
    ensures { IfOk result (λ places. places.items ≡ range_with_len 0 count) }
{
    let mut places = Vec::new(alloc);
    for place in 0..count {
        places.push(place)?;
    }
    Ok(places)
}

/// A suite of the rows, all present.
pub fn suite_of(alloc: Global, rows: &[LentRow]) -> Result<Suite, NoMemory>
    ensures { IfOk result (λ suite. AreAllThere (packages (lent rows.now)) suite) }
{
    let shares = packages(alloc, rows)?;
    let mut suite = Suite::new(alloc).with_rows(alloc, shares)?;
    let places = first_places(alloc, suite.len())?;
    suite.change(alloc, &[], &places)?;
    Ok(suite)
}

/// Whether each row of a suite is installable, with all rows present.
fn marks_of(alloc: Global, suite: &Suite) -> Result<Vec<bool>, AllocError>
    requires { (k : ℕ) → k < length suite.now.rows → marked suite.now.there k ≡ true }
    ensures { IfOk result (λ marks. marks.items ≡ are_installable suite.now.rows) }
{
    let mut marks = Vec::new(alloc);
    for place in 0..suite.len() {
        marks.push(suite.is_installable(place))?;
    }
    Ok(marks)
}

/// Each row of a suite with its answer.
pub fn judged_by<'a>(
    alloc: Global,
    suite: &Suite,
    rows: &[LentRow<'a>],
) -> Result<Vec<RowAnswer<'a>>, AllocError>
    requires { AreAllThere (packages (lent rows.now)) suite.now }
    ensures { IfOk result (λ judged. answers judged.items ≡ moves.with_answers (lent rows.now) (are_installable (packages (lent rows.now)))) }
{
    let marks = marks_of(alloc, suite)?;
    with_answers(alloc, rows, &marks)
}

/// Each of the rows with its answer, with all present.
pub fn judged<'a>(alloc: Global, rows: &[LentRow<'a>]) -> Result<Vec<RowAnswer<'a>>, NoMemory>
    ensures { IfOk result (λ judged. answers judged.items ≡ moves.with_answers (lent rows.now) (are_installable (packages (lent rows.now)))) }
{
    let suite = suite_of(alloc, rows)?;
    Ok(judged_by(alloc, &suite, rows)?)
}
