//! What is true of all mail that an office keeps without a gap.
ghost use Rattle.std.specs.Prelude.{◌≡◌};
ghost use Rattle.testing_rules_model.specs.Covered.{Covered};
ghost use Rattle.office_mail.specs.Kept.{Kept};
ghost use Rattle.office_mail.specs.Lists.{Lists};
ghost use Rattle.office_core_orders.specs.Ready.{HasPlaces};
ghost use Rattle.office_core_facts.specs.Seen.{IsSeen};

/// What an office keeps determines all mail without a gap, and so its texts of hints and of unstable.
pub fn one_seen()
    ensures { (setup : Lists) (kept : Kept) (x y : Covered) → HasPlaces setup kept → IsSeen setup kept x → IsSeen setup kept y → x ≡ y }
{}
