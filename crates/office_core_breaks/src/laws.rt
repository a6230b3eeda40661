//! What holds of the rows that a change breaks.

ghost use Rattle.std.specs.Prelude.{◌≡◌, ◌↔◌, [], ℕ, List, None, map};
ghost use Rattle.testing_rules_items.specs.Words.{Text, byte_cmp, least};
ghost use Rattle.testing_rules_model.specs.declared.suite.RowIn.{RowIn as ARow};
ghost use Rattle.testing_rules_model.specs.Moves.{first_failing, judged_on, offender_on};
ghost use Rattle.office_core_breaks.specs.Breaks.{broken_on};

/// The package that a run names on an architecture where it refuses a change is the first by name of the rows that the
/// change breaks there.
pub fn first_broken_is_offender()
    ensures { (arch : ℕ) (group : List Text) (old new : List ARow)
        → first_failing arch group (judged_on arch old) (judged_on arch new) ≡ least byte_cmp (map (λ r. r.binary.name) (broken_on arch group old new)) }
{}

/// A run has nothing against a change on an architecture exactly where the change breaks no row there.
pub fn allowed_breaks_nothing()
    ensures { (arch : ℕ) (group : List Text) (old new : List ARow) → (offender_on old new group arch ≡ None) ↔ (broken_on arch group old new ≡ []) }
{}
