//! Which rows an architecture watches, and which of two names comes first.

ghost use Rattle.std.specs.Prelude.{◌≡◌};
ghost use Rattle.testing_rules_model.specs.Moves as moves;
ghost use Rattle.testing_rules_model.specs.JudgedRows.{row_of};
ghost use Rattle.testing_rules_items.specs.Words.{byte_cmp};
ghost use Rattle.testing_rules_items.specs.steps.Words.{first_of_two};
ghost use Rattle.std.specs.Option.{option_copied};

use testing_rules_items::ALL;
use testing_rules_model::LentRow;

/// The row is watched on the architecture.
pub fn is_watched_on(arch: u32, row: &LentRow) -> bool
    ensures { result ≡ moves.is_watched_on arch (row_of row.now) }
{
    row.arch == arch || (row.arch == ALL && arch == 0)
}

/// The first of two names in byte order, the old one if they are equal.
pub fn first_of_two<'a>(first: Option<&'a str>, name: &'a str) -> &'a str
    ensures { result.now ≡ first_of_two byte_cmp (option_copied first.entry) name.now }
{
    match first {
        Some(first) if name >= first => first,
        _ => name,
    }
}
