//! Rows on an architecture.

ghost use Rattle.std.specs.Prelude.{◌≡◌};
ghost use Rattle.testing_rules_model.specs.steps.Moves as moves_steps;
ghost use Rattle.testing_rules_model.specs.JudgedRows.{row_of};

use testing_rules_items::ALL;
use testing_rules_model::LentRow;

/// The row is the architecture's own, or one of `all`.
pub fn is_row_on(arch: u32, row: &LentRow) -> bool
    ensures { result ≡ moves_steps.is_row_on arch (row_of row.now) }
{
    row.arch == arch || row.arch == ALL
}

/// A row on an architecture, and whether it is installable there.
#[derive(Clone, Copy)]
pub struct RowAnswer<'a> {
    pub row: LentRow<'a>,
    pub is_installable: bool,
}
