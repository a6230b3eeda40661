//! What is true of the definitions, for any rows.

ghost use Rattle.std.specs.Prelude.{◌≡◌, ℕ, ◌<◌, ◌↔◌, true, Bool, List, length, Some};
ghost use Rattle.std.specs.List.{slice_get};
ghost use Rattle.deb_control.specs.declared.binary.Binary.{Binary};
ghost use Rattle.testing_install.specs.Among.{IsInstallableAmong, IsListOf};
ghost use Rattle.testing_install.specs.Closed.{IsInstallable, marked};
ghost use Rattle.testing_install.specs.Installable.{are_installable};

/// The computed list has a value for each row, which is true exactly if some closed set contains the row.
pub fn computed_is_exact()
    ensures length { (rows : List Binary) → length (are_installable rows) ≡ length rows }
    ensures exact { (rows : List Binary) (k : ℕ) → k < length rows
        → (marked (are_installable rows) k ≡ true) ↔ IsInstallable rows k }
{}

/// A row of a list of the present rows, in any order and with repetitions, is installable in the list exactly if it is
/// installable among the present rows.
pub fn installable_in_any_order()
    ensures { (rows : List Binary) (there : ℕ → Bool) (listed : List Binary) (place_of number_of : ℕ → ℕ) → IsListOf rows there listed place_of number_of
        → (k p : ℕ) (row : Binary) → slice_get listed k ≡ Some row → slice_get rows p ≡ Some row → there p ≡ true
        → IsInstallable listed k ↔ IsInstallableAmong rows there p }
{}

/// So the computed list of the present rows, in any order and with repetitions, says for each whether it is installable
/// among them.
pub fn computed_in_any_order()
    ensures { (rows : List Binary) (there : ℕ → Bool) (listed : List Binary) (place_of number_of : ℕ → ℕ) → IsListOf rows there listed place_of number_of
        → (k p : ℕ) (row : Binary) → slice_get listed k ≡ Some row → slice_get rows p ≡ Some row → there p ≡ true
        → (marked (are_installable listed) k ≡ true) ↔ IsInstallableAmong rows there p }
{}
