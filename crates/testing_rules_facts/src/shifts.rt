//! The row that gives way to a hint or an unhint, found before that is put in, and the row of the last delays.

ghost use Rattle.std.specs.Prelude.{◌≡◌, map, option_to_list};
ghost use Rattle.testing_rules_facts.specs.steps.HintOrder.{AreHintsByNumber, AreUnhintsByNumber};
ghost use Rattle.testing_rules_facts.specs.steps.ElementShifts.{put_over};
ghost use Rattle.testing_rules_model.specs.steps.FactRows as rows_steps;
ghost use Rattle.testing_rules_model.specs.Unstable as unstable;

use crate::taken::{place_of_hint, place_of_unhint};
use testing_rules_fact_order::{delays_row, hint_row, unhint_row};
use testing_rules_model::{DelaysIn, FactRow, HintIn, UnhintIn};

/// The row of the hint that gives way to another.
pub fn hint_left(hints: &[HintIn], hint: &HintIn) -> Option<FactRow>
    requires { AreHintsByNumber hints.now }
    ensures { option_to_list result ≡ map rows_steps.hint_row (put_over (λ h. h) unstable.hint_order hint.now hints.now) }
{
    match place_of_hint(hints, hint) {
        Ok(i) => Some(hint_row(&hints[i])),
        Err(_) => None,
    }
}

/// The row of the unhint that gives way to another.
pub fn unhint_left(unhints: &[UnhintIn], unhint: &UnhintIn) -> Option<FactRow>
    requires { AreUnhintsByNumber unhints.now }
    ensures { option_to_list result ≡ map rows_steps.unhint_row (put_over (λ c. c) unstable.unhint_order unhint.now unhints.now) }
{
    match place_of_unhint(unhints, unhint) {
        Ok(i) => Some(unhint_row(&unhints[i])),
        Err(_) => None,
    }
}

/// The row of the last delays, if there are any.
pub fn last_row(last: Option<DelaysIn>) -> Option<FactRow>
    ensures { option_to_list result ≡ map rows_steps.delays_row (option_to_list last) }
{
    match last {
        Some(delays) => Some(delays_row(&delays)),
        None => None,
    }
}
