//! Decisions at their turns, each against testing at that turn.

ghost use Rattle.std.specs.Prelude.{◌≡◌, [], OnOk, IfOk, map, filter};
ghost use Rattle.std.specs.List.{flat_map};
ghost use Rattle.testing_rules_moves.specs.steps.Runs.{go_on};
ghost use Rattle.testing_rules_model.specs.InOrder.{AreByKey};
ghost use Rattle.testing_rules_model.specs.JudgedRows.{lent};
ghost use Rattle.testing_rules_model.specs.Moves.{remove_source};
ghost use Rattle.testing_rules_model.specs.Unstable as unstable;
ghost use Rattle.testing_rules_model.specs.Updates as rules;
ghost use Rattle.testing_rules_model.specs.Updates.{decide, in_turn};
ghost use Rattle.testing_rules_suites.specs.CarriedOver.{AreCarriedOver};

use crate::live::LiveTesting;
use deb_control::Text;
use deb_version::{NoMemory, Version};
use std::alloc::Global;
use std::marker::Model;
use testing_rules_facts::{Facts, Unhints, Unstable, candidates, is_in_force, is_same_version};
use testing_rules_items::{Archs, Hint, HintItem};
use testing_rules_model::{Decision, Excuse, HintIn, LentRow};
use testing_rules_suites::{CarriedSuites, Testing};

/// What stays during a run: the architectures, the facts, the rows built from these, and the excuses. Unstable has the
/// facts' sources and these rows.
#[derive(Clone, Copy)]
pub struct Basis<'u, 'a> {
    pub archs: &'u Archs,
    pub facts: &'a Facts,
    pub rows: &'u [LentRow<'a>],
    pub excuses: &'u [Excuse],
}

/// The decisions so far, and the resulting testing. A move within that testing adds no decision on its own.
#[derive(Drop)]
pub struct Turns<'u, 'a> {
    decisions: Vec<Decision>,
    pub testing: LiveTesting<'u, 'a>,
}

impl<'u, 'a> Model for Turns<'u, 'a> {
    ghost use Rattle.testing_rules_moves.specs.steps.Runs.{Run};

    ghost Value = { Run };

    ghost view = { λ a. record {
      basis = a.testing.basis;
      outcome = record { decisions = a.decisions.items; suite = a.testing.suite };
    } };
}

impl<'u, 'a> Turns<'u, 'a> {
    /// No decision yet.
    fn new(alloc: Global, testing: LiveTesting<'u, 'a>) -> Turns<'u, 'a>
        ensures { result ≡ record { basis = testing.entry.basis; outcome = record { decisions = []; suite = testing.entry.suite } } }
    {
        Turns {
            decisions: Vec::new(alloc),
            testing,
        }
    }

    /// No decision yet, over this testing, with the suites kept for its rows, if any.
    pub fn over(
        alloc: Global,
        basis: &Basis<'u, 'a>,
        testing: &'a Testing,
        kept: Option<CarriedSuites>,
    ) -> Result<Turns<'u, 'a>, NoMemory>
        requires kept { AreCarriedOver kept testing.now.rows }
        requires rows { AreByKey (lent basis.now.rows.now) }
        ensures { IfOk result (λ turns. turns ≡ record {
          basis = record { archs = basis.now.archs.now; sources = basis.now.facts.now.sources; rows = lent basis.now.rows.now };
          outcome = record { decisions = []; suite = testing.now };
        }) }
    {
        let candidates = candidates(alloc, basis.excuses)?;
        let unstable = Unstable {
            sources: basis.facts.sources(),
            rows: basis.rows,
        };
        let live = LiveTesting::new(alloc, basis.archs, unstable, testing, candidates, kept)?;
        let turns = Turns::new(alloc, live);
        Ok(turns)
    }

    /// The decisions, and the resulting testing.
    pub fn into_parts(self, alloc: Global) -> Result<(Vec<Decision>, Testing), NoMemory>
        ensures decisions { IfOk result (λ o. o.0.items ≡ self.entry.outcome.decisions) }
        ensures testing { IfOk result (λ o. o.1 ≡ self.entry.outcome.suite) }
    {
        Ok((self.decisions, self.testing.into_testing(alloc)?))
    }

    /// Makes room for this many more decisions.
    pub fn reserve(&mut self, decisions: usize) -> Result<(), NoMemory>
        ensures { self.new ≡ self.old }
    {
        Ok(self.decisions.reserve(decisions)?)
    }

    /// Adds one decision. Testing is unchanged.
    pub fn add_decision(&mut self, decision: Decision) -> Result<(), NoMemory>
        ensures { OnOk result (self.new ≡ go_on self.old (λ _. decide decision)) }
    {
        Ok(self.decisions.push(decision)?)
    }

    /// Adds the decision that removes a source.
    fn accept_removal(
        &mut self,
        alloc: Global,
        name: &Text,
        decision: Decision,
    ) -> Result<(), NoMemory>
        ensures { OnOk result (self.new ≡ go_on self.old (λ _ t. decide decision (remove_source name.now t))) }
    {
        self.decisions.push(decision)?;
        self.testing.remove(alloc, name)?;
        Ok(())
    }

    /// Removes a version of a source, if nothing breaks.
    fn remove_version(
        &mut self,
        alloc: Global,
        hint: u32,
        name: &Text,
        version: Version,
    ) -> Result<(), NoMemory>
        ensures { OnOk result (self.new ≡ go_on self.old (λ b. rules.remove_version b.archs hint name.now version)) }
    {
        let copy = name.copy(alloc)?;
        match self.testing.broken_by_removal(alloc, name)? {
            None => {
                let decision = Decision::RemoveDone {
                    hint,
                    name: copy,
                    version,
                };
                self.accept_removal(alloc, name, decision)
            }
            Some(offender) => self.add_decision(Decision::RemoveRefused {
                hint,
                name: copy,
                version,
                offender,
            }),
        }
    }

    /// A removal, if testing has the source at its version.
    fn remove_item(&mut self, alloc: Global, hint: u32, item: &HintItem) -> Result<(), NoMemory>
        ensures { OnOk result (self.new ≡ go_on self.old (λ b. rules.remove_item b.archs (hint, item.now))) }
    {
        let version = match self.testing.version_of(item.name.as_str()) {
            Some(version) if is_same_version(version, &item.version) => version.copy(alloc)?,
            _ => return Ok(()),
        };
        self.remove_version(alloc, hint, &item.name, version)
    }

    /// The removals of one hint.
    pub fn remove_items(
        &mut self,
        alloc: Global,
        hint: u32,
        items: &[HintItem],
    ) -> Result<(), NoMemory>
        ensures { OnOk result (self.new ≡ go_on self.old (λ b. in_turn (rules.remove_item b.archs) (map (λ i. (hint, i)) items.now))) }
    {
        for item in items {
            self.remove_item(alloc, hint, item)?;
        }
        Ok(())
    }

    /// The removals asked by a hint, if it asks for any.
    fn remove_hint(&mut self, alloc: Global, hint: &HintIn) -> Result<(), NoMemory>
        ensures { OnOk result (self.new ≡ go_on self.old (λ b. in_turn (rules.remove_item b.archs) (rules.removals_of hint.now))) }
    {
        match &hint.hint {
            Hint::Remove(items) => self.remove_items(alloc, hint.number, items.as_slice()),
            Hint::Block(_)
            | Hint::Unblock(_)
            | Hint::Easy(_)
            | Hint::AgeDays(_, _)
            | Hint::BlockAll => Ok(()),
        }
    }

    /// The removals asked by the hints in force.
    pub fn removals(
        &mut self,
        alloc: Global,
        hints: &[HintIn],
        unhints: &Unhints,
    ) -> Result<(), NoMemory>
        ensures { OnOk result (self.new ≡ go_on self.old (λ b. in_turn (rules.remove_item b.archs) (flat_map rules.removals_of (filter (unstable.is_in_force unhints.now) hints.now)))) }
    {
        for hint in hints {
            if is_in_force(unhints, hint) {
                self.remove_hint(alloc, hint)?;
            }
        }
        Ok(())
    }
}
