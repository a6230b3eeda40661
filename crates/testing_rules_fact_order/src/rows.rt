//! The row of each fact.

ghost use Rattle.std.specs.Prelude.{◌≡◌};
ghost use Rattle.testing_rules_model.specs.FactRows as rows;
ghost use Rattle.testing_rules_model.specs.steps.FactRows as rows_steps;

use testing_rules_model::{
    BugIn, BuildIn, DelaysIn, DropIn, FactKind, FactRow, HintIn, UnhintIn, UploadIn,
};

/// The row of a kind other than a build.
fn row(kind: FactKind, sender: u32, number: u32) -> FactRow
    ensures { result ≡ record { kind = kind; sender = sender; number = number; place = 0 } }
{
    FactRow {
        kind,
        sender,
        number,
        place: 0,
    }
}

/// The row of an unstable source.
pub fn source_row(upload: &UploadIn) -> FactRow
    ensures { result ≡ rows_steps.source_row upload.now }
{
    row(FactKind::Source, upload.sender, upload.number)
}

/// The row of an upload above testing's version.
pub fn upload_row(upload: &UploadIn) -> FactRow
    ensures { result ≡ rows.upload_row upload.now }
{
    row(FactKind::Upload, upload.sender, upload.number)
}

/// The row of an unstable row.
pub fn build_row(build: &BuildIn) -> FactRow
    ensures { result ≡ rows_steps.build_row build.now }
{
    FactRow {
        kind: FactKind::Build,
        sender: build.sender,
        number: build.number,
        place: build.place,
    }
}

/// The row of a greatest drop.
pub fn drop_row(drop: &DropIn) -> FactRow
    ensures { result ≡ rows_steps.drop_row drop.now }
{
    row(FactKind::Drop, drop.sender, drop.number)
}

/// The row of a bug's last message.
pub fn bug_row(bug: &BugIn) -> FactRow
    ensures { result ≡ rows_steps.bug_row bug.now }
{
    row(FactKind::Bug, bug.sender, bug.number)
}

/// The row of a hint.
pub fn hint_row(hint: &HintIn) -> FactRow
    ensures { result ≡ rows_steps.hint_row hint.now }
{
    row(FactKind::Hint, hint.sender, hint.number)
}

/// The row of an unhint.
pub fn unhint_row(unhint: &UnhintIn) -> FactRow
    ensures { result ≡ rows_steps.unhint_row unhint.now }
{
    row(FactKind::Unhint, unhint.sender, unhint.number)
}

/// The row of the last delays.
pub fn delays_row(delays: &DelaysIn) -> FactRow
    ensures { result ≡ rows_steps.delays_row delays.now }
{
    row(FactKind::Delays, delays.sender, delays.number)
}
