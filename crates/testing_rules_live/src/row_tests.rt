//! Whether a row names a source, and whether two rows have the same key.

ghost use Rattle.std.specs.Prelude.{◌≡◌};
ghost use Rattle.std.specs.Str.{bytes_eq};
ghost use Rattle.testing_rules_model.specs.JudgedRows.{row_of};
ghost use Rattle.testing_rules_model.specs.Moves as moves;

use deb_control::Text;
use testing_rules_model::LentRow;

/// The row names the source.
pub fn is_of(row: &LentRow, name: &str) -> bool
    ensures { result ≡ bytes_eq (row_of row.now).binary.source name.now }
{
    row.binary.source.as_str() == name
}

/// The row names a source of the group.
pub fn is_row_of(group: &[Text], row: &LentRow) -> bool
    ensures { result ≡ moves.is_row_of group.now (row_of row.now) }
{
    for name in group {
        if is_of(row, name.as_str()) {
            return true;
        }
    }
    false
}

/// The two rows have the same architecture and name.
pub fn is_same_key(row: &LentRow, other: &LentRow) -> bool
    ensures { result ≡ moves.is_same_key (row_of row.now) (row_of other.now) }
{
    row.arch == other.arch && row.binary.name.as_str() == other.binary.name.as_str()
}
