//! Single moves: candidates that move alone, one after another, and those that wait.

ghost use Rattle.std.specs.Prelude.{◌≡◌, ◌++◌, ◌+◌, ◌<◌, ◌∷◌, [], List, IfOk, OnOk, true, false, take, drop};
ghost use Rattle.std.specs.VecDeque.{deque_len};
ghost use Rattle.testing_rules_moves.specs.steps.LentItems.{lent_excuses};
ghost use Rattle.testing_rules_model.specs.declared.excuse.Excuse.{Excuse as AnExcuse};
ghost use Rattle.testing_rules_live.specs.steps.Lacks.{arriving};
ghost use Rattle.testing_rules_moves.specs.steps.Refusals.{IsNumbered, AreNumbered, AreRefused, AreWoken, IsTried, IsNext};
ghost use Rattle.testing_rules_moves.specs.steps.Runs.{go_on, moment_of};
ghost use Rattle.testing_rules_model.specs.Updates as rules;
ghost use Rattle.testing_rules_model.specs.steps.Updates as rules_steps;

use crate::groups::{has_no_reason, is_version};
use crate::live::LiveTesting;
use crate::refusals::{Numbered, Refusals, with_numbers};
use crate::turns::Turns;
use deb_version::NoMemory;
use std::alloc::Global;
use std::collections::VecDeque;
use std::slice;
use testing_rules_model::{Decision, Excuse, Offender};

/// Whether the excuse's source is a candidate that hasn't moved, and the place in testing to try for the next source by
/// name. The guessed place is tried first.
fn is_remaining(testing: &LiveTesting, excuse: &Excuse, guess: usize) -> (bool, usize)
    ensures { result.0 ≡ rules.is_remaining testing.now.suite excuse.now }
{
    if !has_no_reason(excuse) {
        return (false, guess);
    }
    let (version, next) = testing.version_near(excuse.source.as_str(), guess);
    (!is_version(version, &excuse.unstable), next)
}

/// The candidates that haven't moved, by name.
fn remaining<'a>(
    alloc: Global,
    testing: &LiveTesting,
    excuses: &'a [Excuse],
) -> Result<Vec<&'a Excuse>, NoMemory>
    ensures { IfOk result (λ es. lent_excuses es.items ≡ rules.remaining excuses.now testing.now.suite) }
{
    let mut candidates = Vec::new(alloc);
    let mut next = 0;
    for excuse in excuses {
        let (remains, after) = is_remaining(testing, excuse, next);
        next = after;
        if remains {
            candidates.push(excuse)?;
        }
    }
    Ok(candidates)
}

/// Removes the candidate at a place from the circle, and continues with the next one after it. The time depends only on
/// the place.
fn go_on_behind(circle: &mut VecDeque<Numbered>, place: usize)
    requires { place < deque_len circle.old }
    ensures fewer { deque_len circle.new + 1 ≡ deque_len circle.old }
    ensures behind { circle.new.items ≡ drop (place + 1) circle.old.items ++ take place circle.old.items }
{
    circle.rotate_left(place);
    circle.pop_front();
}

/// The line of a candidate that moves.
fn accepted(alloc: Global, excuse: &Excuse) -> Result<Decision, NoMemory>
    ensures { IfOk result (λ d. d ≡ rules_steps.accepted excuse.now) }
{
    let name = excuse.source.copy(alloc)?;
    let version = excuse.unstable.copy(alloc)?;
    Ok(Decision::Accept { name, version })
}

/// The line of a candidate that waits.
fn waiting(alloc: Global, excuse: &Excuse, offender: Offender) -> Result<Decision, NoMemory>
    ensures { IfOk result (λ d. d ≡ rules_steps.waiting excuse.now offender) }
{
    let name = excuse.source.copy(alloc)?;
    let version = excuse.unstable.copy(alloc)?;
    Ok(Decision::Wait {
        name,
        version,
        offender,
    })
}

impl<'u, 'a> Turns<'u, 'a> {
    /// Moves the candidate if that breaks nothing, and says whether it moved. Then candidates refused because one of
    /// its rows was missing are to be tried again.
    fn move_alone(
        &mut self,
        alloc: Global,
        excuse: &Excuse,
        refusals: &mut Refusals,
    ) -> Result<bool, NoMemory>
        ensures moved { result ≡ Ok true → rules_steps.is_allowed_alone self.old.basis.archs self.old.basis.sources self.old.basis.rows self.old.outcome.suite excuse.now ≡ true }
        ensures after { result ≡ Ok true → self.new ≡ go_on self.old (λ b t. rules.decide (rules_steps.accepted excuse.now) (rules.moved_alone b.sources b.rows t excuse.now)) }
        ensures stays { result ≡ Ok false → rules_steps.is_allowed_alone self.old.basis.archs self.old.basis.sources self.old.basis.rows self.old.outcome.suite excuse.now ≡ false }
        ensures woken { result ≡ Ok true → AreWoken (arriving self.old.basis.sources self.old.basis.rows (excuse.now.source ∷ [])) refusals.old refusals.new }
        ensures same { result ≡ Ok false → self.new ≡ self.old }
        ensures asleep { result ≡ Ok false → refusals.new ≡ refusals.old }
    {
        let group = slice::from_ref(&excuse.source);
        let offender = self.testing.move_unless_broken(alloc, group, refusals)?;
        if offender.is_some() {
            return Ok(false);
        }
        self.add_decision(accepted(alloc, excuse)?)?;
        Ok(true)
    }

    /// Whether the rows of a candidate have an unmet clause: then it may not move. That is remembered, so the candidate
    /// is skipped until a row has come that may meet the clause.
    fn remember_lack(
        &self,
        alloc: Global,
        candidate: Numbered,
        refusals: &mut Refusals,
    ) -> Result<bool, NoMemory>
        ensures refused { result ≡ Ok true → rules_steps.is_allowed_alone self.now.basis.archs self.now.basis.sources self.now.basis.rows self.now.outcome.suite candidate.entry.excuse.now ≡ false }
        ensures known { OnOk result ((excuses : List AnExcuse) → IsNumbered excuses candidate.entry → AreRefused (moment_of self.now) excuses refusals.old
            → AreRefused (moment_of self.now) excuses refusals.new) }
    {
        let group = slice::from_ref(&candidate.excuse.source);
        match self.testing.lack_by_move(alloc, group)? {
            Some(clause) => {
                refusals.remember(alloc, candidate.number, clause)?;
                Ok(true)
            }
            None => Ok(false),
        }
    }

    /// Tries the candidate, and says whether it moved. Its unmet clause is looked up only after a refusal, so that one
    /// that moves costs no look-up.
    fn try_first(
        &mut self,
        alloc: Global,
        candidate: Numbered,
        refusals: &mut Refusals,
    ) -> Result<bool, NoMemory>
        ensures { IfOk result (λ moved. (excuses : List AnExcuse) → IsNumbered excuses candidate.entry → AreRefused (moment_of self.old) excuses refusals.old
            → IsTried self.old self.new excuses candidate.entry.excuse.now refusals.new moved) }
    {
        if self.move_alone(alloc, candidate.excuse, refusals)? {
            return Ok(true);
        }
        self.remember_lack(alloc, candidate, refusals)?;
        Ok(false)
    }

    /// Looks up an unmet clause of the candidate's rows, tries it if none is found, and says whether it moved. So one
    /// that still has an unmet clause costs no trial.
    fn look_first(
        &mut self,
        alloc: Global,
        candidate: Numbered,
        refusals: &mut Refusals,
    ) -> Result<bool, NoMemory>
        ensures { IfOk result (λ moved. (excuses : List AnExcuse) → IsNumbered excuses candidate.entry → AreRefused (moment_of self.old) excuses refusals.old
            → IsTried self.old self.new excuses candidate.entry.excuse.now refusals.new moved) }
    {
        if self.remember_lack(alloc, candidate, refusals)? {
            return Ok(false);
        }
        self.move_alone(alloc, candidate.excuse, refusals)
    }

    /// Tries the candidate, unless it is known to be refused, and says whether it moved. After one with an unmet clause
    /// the clause is looked up first; after one that moved, the candidate is tried first.
    fn try_alone(
        &mut self,
        alloc: Global,
        candidate: Numbered,
        refusals: &mut Refusals,
    ) -> Result<bool, NoMemory>
        ensures { IfOk result (λ moved. (excuses : List AnExcuse) → IsNumbered excuses candidate.entry → AreRefused (moment_of self.old) excuses refusals.old
            → IsTried self.old self.new excuses candidate.entry.excuse.now refusals.new moved) }
    {
        if refusals.has(candidate.number) {
            return Ok(false);
        }
        self.testing.look_near(candidate.near);
        if refusals.expects_lack {
            return self.look_first(alloc, candidate, refusals);
        }
        self.try_first(alloc, candidate, refusals)
    }

    /// Moves the first candidate of the circle that may move alone, and says whether there was one.
    fn move_next(
        &mut self,
        alloc: Global,
        circle: &mut VecDeque<Numbered>,
        refusals: &mut Refusals,
    ) -> Result<bool, NoMemory>
        ensures fewer { result ≡ Ok true → deque_len circle.new < deque_len circle.old }
        ensures next { IfOk result (λ moved. (excuses : List AnExcuse) → AreNumbered excuses circle.old.items → AreRefused (moment_of self.old) excuses refusals.old
            → IsNext self.old self.new excuses circle.old.items circle.new.items refusals.new moved) }
    {
        for place in 0..circle.len() {
            if self.try_alone(alloc, circle[place], refusals)? {
                go_on_behind(circle, place);
                return Ok(true);
            }
        }
        Ok(false)
    }

    /// The single moves of these candidates, until none may move alone.
    fn move_all(&mut self, alloc: Global, candidates: &[&Excuse]) -> Result<(), NoMemory>
        ensures { OnOk result (self.new ≡ go_on self.old (λ b. rules_steps.move_circle b.archs b.sources b.rows (lent_excuses candidates.now))) }
    {
        let sources = self.testing.unstable_sources();
        let mut circle = VecDeque::from(with_numbers(alloc, candidates, sources)?);
        let mut refusals = self.testing.no_refusals(alloc, candidates.len())?;
        'moves: while self.move_next(alloc, &mut circle, &mut refusals)? {}
        Ok(())
    }

    /// The single moves, until no candidate may move alone.
    pub fn move_singles(&mut self, alloc: Global, excuses: &[Excuse]) -> Result<(), NoMemory>
        ensures { OnOk result (self.new ≡ go_on self.old (λ b. rules.move_singles b.archs b.sources b.rows excuses.now)) }
    {
        let candidates = remaining(alloc, &self.testing, excuses)?;
        self.reserve(candidates.len())?;
        self.move_all(alloc, &candidates)
    }

    /// A candidate waits if its move would break something.
    fn wait(&mut self, alloc: Global, excuse: &Excuse) -> Result<(), NoMemory>
        ensures { OnOk result (self.new ≡ go_on self.old (λ b. rules_steps.wait b.archs b.sources b.rows excuse.now)) }
    {
        let group = slice::from_ref(&excuse.source);
        match self.testing.broken_by_move(alloc, group)? {
            Some(offender) => self.add_decision(waiting(alloc, excuse, offender)?),
            None => Ok(()),
        }
    }

    /// The remaining candidates wait.
    pub fn waits(&mut self, alloc: Global, excuses: &[Excuse]) -> Result<(), NoMemory>
        ensures { OnOk result (self.new ≡ go_on self.old (λ b. rules_steps.wait_all b.archs b.sources b.rows excuses.now)) }
    {
        let candidates = remaining(alloc, &self.testing, excuses)?;
        for excuse in &candidates {
            self.wait(alloc, excuse)?;
        }
        Ok(())
    }
}
