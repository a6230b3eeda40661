//! What is true of the answers.

ghost use Rattle.std.specs.Prelude.{◌≡◌, ℕ, List, Some};
ghost use Rattle.testing_rules_items.specs.Words.{Text};
ghost use Rattle.testing_rules_model.specs.declared.excuse.Excuse.{Excuse as AnExcuse};
ghost use Rattle.testing_rules_model.specs.declared.facts.UploadIn.{UploadIn as AnUpload};
ghost use Rattle.testing_rules_model.specs.declared.suite.RowIn.{RowIn as ARow};
ghost use Rattle.testing_rules_model.specs.declared.update.Decision.TheVariants.{EasyRefused, RemoveRefused, Wait};
ghost use Rattle.testing_rules_model.specs.Suite.{Suite};
ghost use Rattle.testing_rules_model.specs.Updates.{decide, move_as_one, remove_version, wait_for};
ghost use Rattle.testing_rules_refusals.specs.Alone.{IsToldAlone};
ghost use Rattle.testing_rules_refusals.specs.Stuck.{NoGroupFrees};
ghost use Rattle.testing_rules_refusals.specs.ToldChange.{IsToldMove, IsToldRemoval};

/// If the answer says why a source can't move alone over the testing that a run left, the run's line on the source says
/// that it waits, and names the answer's offender.
pub fn told_as_the_run_says()
    ensures { (archs : List Text) (sources : List AnUpload) (unstable : List ARow) (excuses : List AnExcuse) (t : Suite) (e : AnExcuse) (text : Text)
        → (why : IsToldAlone archs sources unstable excuses t e text) → wait_for archs sources unstable t e ≡ Some (Wait e.source e.unstable why.offender) }
{}

/// If the answer says why a group can't move as one over the testing at its hint's turn, the run refuses the hint, and
/// names the answer's offender.
pub fn group_told_as_the_run_says()
    ensures { (archs : List Text) (sources : List AnUpload) (unstable : List ARow) (excuses : List AnExcuse) (t : Suite) (group : List Text) (text : Text) (number : ℕ)
        → (why : IsToldMove archs sources unstable excuses t group text) → move_as_one archs sources unstable number group t ≡ decide (EasyRefused number why.offender) t }
{}

/// If the answer says why a source can't be removed from the testing at the removal's turn, the run refuses the
/// removal, and names the answer's offender.
pub fn removal_told_as_the_run_says()
    ensures { (archs : List Text) (sources : List AnUpload) (unstable : List ARow) (excuses : List AnExcuse) (t : Suite) (name text : Text) (number : ℕ) (version : Text)
        → (why : IsToldRemoval archs sources unstable excuses t name text) → remove_version archs number name version t ≡ decide (RemoveRefused number name version why.offender) t }
{}

/// A source that blocks show to be stuck over a testing stays at its version, whatever groups are asked for after it,
/// and whatever moves alone after them. So no list of `easy` hints frees it.
pub fn no_group_frees()
    ensures { NoGroupFrees }
{}
