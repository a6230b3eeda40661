//! The upper half of a full block of rows, which moves to a block of its own.

ghost use Rattle.std.specs.Prelude.{◌≡◌, ◌<◌, ◌≤◌, ◌++◌, [], length, vec_len, vec_capacity};

use testing_rules_model::BuildIn;

/// The number of rows that stay in a split block.
const HALF: usize = 32;

/// Moves the upper half of a full block to the upper rows; the lower half stays. There is room for it.
pub fn move_upper_half(rows: &mut Vec<BuildIn>, upper: &mut Vec<BuildIn>)
    requires full { vec_len rows.old ≡ 64 }
    requires spare { upper.old.items ≡ [] }
    requires room { 64 ≤ vec_capacity upper.old }
    ensures rows { rows.new.items ++ upper.new.items ≡ rows.old.items }
    ensures lower { vec_len rows.new ≡ 32 }
    ensures capacity { vec_capacity rows.new ≡ vec_capacity rows.old }
    ensures upper { 0 < length upper.new.items }
    ensures below { vec_len upper.new < 64 }
    ensures room { 64 ≤ vec_capacity upper.new }
{
    'moved: while rows.len() > HALF {
        if let Some(build) = rows.pop() {
            let _ = upper.push(build);
        }
    }
    upper.reverse();
}
