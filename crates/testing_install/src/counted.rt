ghost use Rattle.std.specs.Prelude.{◌≡◌, ℕ, ◌+◌, ◌-◌, ◌^◌, ◌<◌, ◌≤◌, ◌↔◌, Bool, true, not, length, vec_len, IfOk};
ghost use Rattle.std.specs.List.{count_by};
ghost use Rattle.testing_install.specs.Claims.{clauses_of, pair_count};
ghost use Rattle.testing_install.specs.Closed.{IsClosed, IsInside, IsInstallable, marked};
ghost use Rattle.testing_install.specs.Installable.{are_installable};
ghost use Rattle.testing_install.specs.Rows.{binaries};

use crate::Row;
use crate::claims::claims_of;
use crate::index::index_of;
use crate::work::{Ground, worked};
use deb_version::NoMemory;
use std::alloc::Global;

/// Which rows are installable, and the number of steps needed to find out.
#[derive(Debug, Drop)]
pub struct Counted {
    /// Whether each row is installable.
    pub answers: Vec<bool>,
    /// How often a row was removed from the set.
    pub turns: usize,
    /// How often a clause was checked against the rows of the set; it saturates.
    pub looks: u64,
}

/// Which rows are installable, like `installable`, with the steps counted.
pub fn installable_counted(alloc: Global, rows: &[Row<'_>]) -> Result<Counted, NoMemory>
    ensures length { IfOk result (λ c. vec_len c.answers ≡ length rows.now) }

    // A row is installable exactly if some closed set contains it.
    ensures exact { IfOk result (λ c. (k : ℕ) → k < length rows.now
        → (marked c.answers.items k ≡ true) ↔ IsInstallable (binaries rows.now) k) }
    // So the installable rows are themselves a closed set, the greatest one.
    ensures closed { IfOk result (λ c. IsClosed (binaries rows.now) (marked c.answers.items)) }
    ensures greatest { IfOk result (λ c. (set : ℕ → Bool) → IsClosed (binaries rows.now) set
        → IsInside (binaries rows.now) set (marked c.answers.items)) }
    // The answers are the list that the definition computes.
    ensures computed { IfOk result (λ c. c.answers.items ≡ are_installable (binaries rows.now)) }

    // The steps.
    ensures turns { IfOk result (λ c. c.turns ≡ count_by (λ answer. not answer) c.answers.items) }
    ensures at_most { IfOk result (λ c. c.looks
        ≤ length (clauses_of (binaries rows.now)) + pair_count (binaries rows.now)) }
    ensures at_least { IfOk result (λ c. c.looks < 2 ^ 64 - 1
        → length (clauses_of (binaries rows.now)) ≤ c.looks) }
{
    let ground = Ground {
        rows,
        claims: claims_of(alloc, rows)?,
        providers: index_of(alloc, rows)?,
    };
    let (answers, turns, looks) = worked(alloc, &ground)?.into_parts();
    Ok(Counted {
        answers,
        turns,
        looks,
    })
}

/// Which rows are installable: an answer for each row, in their order. The rows are those of one architecture, its own
/// and the `all` rows. A row needs what its Pre-Depends and Depends say (Debian Policy 7.2), and packages and their
/// provisions meet this (7.1 and 7.5). The only error is running out of memory.
pub fn installable(alloc: Global, rows: &[Row<'_>]) -> Result<Vec<bool>, NoMemory>
    ensures length { IfOk result (λ answers. vec_len answers ≡ length rows.now) }

    // A row is installable exactly if some closed set contains it.
    ensures exact { IfOk result (λ answers. (k : ℕ) → k < length rows.now
        → (marked answers.items k ≡ true) ↔ IsInstallable (binaries rows.now) k) }
    // So the installable rows are themselves a closed set, the greatest one.
    ensures closed { IfOk result (λ answers. IsClosed (binaries rows.now) (marked answers.items)) }
    ensures greatest { IfOk result (λ answers. (set : ℕ → Bool) → IsClosed (binaries rows.now) set
        → IsInside (binaries rows.now) set (marked answers.items)) }
    // The answers are the list that the definition computes.
    ensures computed { IfOk result (λ answers. answers.items ≡ are_installable (binaries rows.now)) }
{
    let counted = installable_counted(alloc, rows)?;
    Ok(counted.answers)
}
