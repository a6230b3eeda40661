//! Which hints are in force.

ghost use Rattle.std.specs.Prelude.{◌≡◌, ◌==◌, ℕ, IfOk, map};
ghost use Rattle.std.specs.List.{list_any};
ghost use Rattle.testing_rules_model.specs.Unstable as unstable;

use deb_version::NoMemory;
use std::alloc::Global;
use std::collections::HashSet;
use std::marker::Model;
use testing_rules_model::{HintIn, UnhintIn};

/// Unhints, with the set of the numbers that they cancel. So checking a hint takes one look-up, however many unhints
/// there are.
#[derive(Drop)]
pub struct Unhints<'a> {
    unhints: &'a [UnhintIn],
    cancelled: HashSet<u32>,
}

impl<'a> Model for Unhints<'a> {
    ghost use Rattle.std.specs.Prelude.{◌≡◌, ◌==◌, ℕ, List};
    ghost use Rattle.std.specs.List.{list_any};
    ghost use Rattle.testing_rules_model.specs.declared.facts.UnhintIn.{UnhintIn};

    ghost Value = { List UnhintIn };

    ghost view = { λ a. a.unhints.now };

    ghost invariant = { λ a. (number : ℕ) → list_any (λ n. number == n) a.cancelled.keys ≡ list_any (λ c. c.cancels == number) a.unhints.now };
}

/// The numbers that the unhints cancel.
fn numbers_of(alloc: Global, unhints: &[UnhintIn]) -> Result<Vec<u32>, NoMemory>
    ensures { IfOk result (λ numbers. numbers.items ≡ map (λ c. c.cancels) unhints.now) }
{
    let mut numbers = Vec::new(alloc);
    for unhint in unhints {
        numbers.push(unhint.cancels)?;
    }
    Ok(numbers)
}

/// The numbers as a set.
fn number_set(alloc: Global, numbers: &[u32]) -> Result<HashSet<u32>, NoMemory>
    ensures { IfOk result (λ set. (number : ℕ) → list_any (λ n. number == n) set.keys ≡ list_any (λ n. number == n) numbers.now) }
{
    let set = numbers.iter().copied().collect(alloc)?;
    Ok(set)
}

/// The number is one of these.
fn has_number(numbers: &HashSet<u32>, number: u32) -> bool
    ensures { result ≡ list_any (λ n. number == n) numbers.now.keys }
{
    numbers.contains(&number)
}

impl<'a> Unhints<'a> {
    /// These unhints. NoMemory if memory runs out.
    pub fn of(alloc: Global, unhints: &'a [UnhintIn]) -> Result<Unhints<'a>, NoMemory>
        ensures { IfOk result (λ u. u ≡ unhints.now) }
    {
        let numbers = numbers_of(alloc, unhints)?;
        let cancelled = number_set(alloc, &numbers)?;
        Ok(Unhints { unhints, cancelled })
    }

    /// None of them names the hint.
    fn leave(&self, hint: &HintIn) -> bool
        ensures { result ≡ unstable.is_in_force self.now hint.now }
    {
        !has_number(&self.cancelled, hint.number)
    }
}

/// No unhint names the hint.
pub fn is_in_force(unhints: &Unhints, hint: &HintIn) -> bool
    ensures { result ≡ unstable.is_in_force unhints.now hint.now }
{
    unhints.leave(hint)
}
