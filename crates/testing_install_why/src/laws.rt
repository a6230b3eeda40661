//! What is true of orders, for any rows.

ghost use Rattle.std.specs.Prelude.{◌≡◌, ℕ, ◌<◌, Bool, true, List, length, Some};
ghost use Rattle.std.specs.List.{slice_get};
ghost use Rattle.deb_control.specs.declared.binary.Binary.{Binary};
ghost use Rattle.testing_install.specs.Among.{IsInstallableAmong};
ghost use Rattle.testing_install.specs.Closed.{marked};
ghost use Rattle.testing_install_why.specs.steps.Chain.{IsChain, IsBreak};
ghost use Rattle.testing_install_why.specs.Order.{IsGroundless, IsWhole, IsNamed};
ghost use Rattle.testing_install_why.specs.declared.Step.{Step};

/// No row of such a list is installable.
pub fn groundless_isnt_installable()
    ensures { (rows : List Binary) (there : ℕ → Bool) (steps : List Step) → IsGroundless rows there steps
        → (n : ℕ) (step : Step) → slice_get steps n ≡ Some step → IsInstallableAmong rows there step.place → ⊥ }
{}

/// Such a list always exists, with every present row that isn't installable.
pub fn each_has_an_order()
    ensures whole { (rows : List Binary) (there : List Bool) → length there ≡ length rows
        → (steps : List Step) × IsWhole rows (marked there) steps }
    ensures each { (rows : List Binary) (there : List Bool) (k : ℕ) → length there ≡ length rows → k < length rows → marked there k ≡ true
        → (IsInstallableAmong rows (marked there) k → ⊥) → (steps : List Step) × IsGroundless rows (marked there) steps × IsNamed steps (length steps) k }
{}

/// Each step of such a list begins a chain to a clause that no row meets.
pub fn each_has_a_chain()
    ensures { (rows : List Binary) (there : List Bool) (order : List Step) → length there ≡ length rows → IsGroundless rows (marked there) order
        → (n : ℕ) (step : Step) → slice_get order n ≡ Some step → (rest : List Step) × IsChain rows (marked there) order step rest }
{}

/// Each row in such a list after a change that was installable before it begins a chain of broken rows to a leaving
/// row.
pub fn each_break_has_a_leaver()
    ensures { (rows : List Binary) (before after : ℕ → Bool) (order : List Step) → IsGroundless rows after order
        → (n : ℕ) (step : Step) → slice_get order n ≡ Some step → IsInstallableAmong rows before step.place
        → (rest : List Step) × IsBreak rows before after order step rest }
{}
