//! Testing while a run moves sources.

ghost use Rattle.std.specs.Prelude.{◌≡◌, false, true, List, IfOk, IfSome, OnOk, is_none, is_some, option_copied};
ghost use Rattle.testing_rules_model.specs.Excuses as excuses;
ghost use Rattle.testing_rules_model.specs.Boxed.{unboxed};
ghost use Rattle.testing_rules_model.specs.FactOrder.{AreBySource};
ghost use Rattle.testing_rules_model.specs.InOrder.{AreByKey};
ghost use Rattle.testing_rules_model.specs.JudgedRows.{lent};
ghost use Rattle.testing_rules_suites.specs.CarriedOver.{AreCarriedOver};
ghost use Rattle.testing_rules_live.specs.steps.Lacks.{arriving};
ghost use Rattle.testing_rules_model.specs.declared.excuse.Excuse.{Excuse as AnExcuse};
ghost use Rattle.testing_rules_moves.specs.steps.Refusals.{AreRefused, AreWoken};
ghost use Rattle.testing_rules_moves.specs.steps.Runs.{after_move, broken_by_move, after_removal, broken_by_removal, IsLacking};

use crate::breaks;
use crate::refusals::{Refusals, no_refusals};
use deb_control::{Clause, Text};
use deb_version::{NoMemory, Version};
use std::alloc::Global;
use std::marker::Model;
use std::mem;
use testing_rules_facts::{Hashes, Unstable, place_of_group};
use testing_rules_items::Archs;
use testing_rules_live::{LiveRows, LiveSources};
use testing_rules_model::{Offender, UploadIn};
use testing_rules_suites::{CarriedSuites, Testing};

/// Testing while a run changes it, with the run's input: the architectures and unstable. The sources are ordered by
/// name. A change is first judged, without changing testing, and then made. The suites judge it by what it touches.
/// There are none after a move of a source whose rows they don't include, and after memory ran out within a change.
#[derive(Drop)]
pub struct LiveTesting<'u, 'a> {
    archs: &'u Archs,
    unstable: Unstable<'u, 'a>,
    sources: LiveSources<'u, 'a>,
    rows: LiveRows,

    /// The place among unstable's of the source tried last. Most sources are tried in the order of their names.
    near: usize,
}

impl<'u, 'a> Model for LiveTesting<'u, 'a> {
    ghost use Rattle.testing_rules_model.specs.Boxed.{unboxed};
    ghost use Rattle.testing_rules_live.specs.steps.Held.{held, IsLiveTesting};
    ghost use Rattle.testing_rules_model.specs.JudgedRows.{lent};
    ghost use Rattle.testing_rules_moves.specs.steps.Runs.{Moment};

    ghost Value = { Moment };

    ghost view = { λ a. record {
      basis = record { archs = a.archs.now; sources = unboxed a.unstable.sources.now; rows = lent a.unstable.rows.now };
      suite = record { sources = a.sources; rows = held a.rows };
    } };

    ghost invariant = { λ a. IsLiveTesting a.rows a.archs.now (unboxed a.unstable.sources.now) (lent a.unstable.rows.now) a.sources };
}

impl<'u, 'a> LiveTesting<'u, 'a> {
    /// Testing before the run, with the sources that may move and the suites kept of testing's rows.
    pub fn new(
        alloc: Global,
        archs: &'u Archs,
        unstable: Unstable<'u, 'a>,
        testing: &'a Testing,
        candidates: Hashes,
        kept: Option<CarriedSuites>,
    ) -> Result<LiveTesting<'u, 'a>, NoMemory>
        requires kept { AreCarriedOver kept testing.now.rows }
        requires sources { AreBySource (unboxed unstable.sources.now) }
        requires rows { AreByKey (lent unstable.rows.now) }
        ensures { IfOk result (λ live. live ≡ record {
          basis = record { archs = archs.now; sources = unboxed unstable.entry.sources.now; rows = lent unstable.entry.rows.now };
          suite = testing.now;
        }) }
    {
        let rows = LiveRows::new(alloc, archs, unstable, testing, candidates, kept)?;
        let sources = LiveSources::new(alloc, unstable.sources, testing.sources())?;
        Ok(LiveTesting {
            archs,
            unstable,
            sources,
            rows,
            near: 0,
        })
    }

    /// The source's version in testing.
    pub fn version_of(&self, name: &str) -> Option<&Version>
        ensures { option_copied result ≡ excuses.testing_version self.now.suite name.now }
    {
        self.sources.version_of(name)
    }

    /// The source's version in testing, and the place to try for the next source by name. The guessed place is tried
    /// first.
    pub fn version_near(&self, name: &str, guess: usize) -> (Option<&Version>, usize)
        ensures { option_copied result.0 ≡ excuses.testing_version self.now.suite name.now }
    {
        self.sources.version_near(name, guess)
    }

    /// Unstable's sources.
    pub fn unstable_sources(&self) -> &'u [Box<UploadIn>]
        ensures sources { unboxed result.now ≡ self.now.basis.sources }
        ensures ordered { AreBySource (unboxed result.now) }
    {
        self.unstable.sources
    }

    /// The next source to try is first looked for near this place of unstable's. No result depends on it.
    pub fn look_near(&mut self, place: usize)
        ensures { self.new ≡ self.old }
    {
        self.near = place;
    }

    /// What the move of a group would break.
    pub fn broken_by_move(
        &mut self,
        alloc: Global,
        group: &[Text],
    ) -> Result<Option<Offender>, NoMemory>
        ensures same { self.new ≡ self.old }
        ensures offender { IfOk result (λ o. o ≡ broken_by_move group.now self.old) }
    {
        let near = place_of_group(self.unstable.sources, group, self.near);
        self.near = near;
        let (offender, _change) = breaks::broken_by_move(
            alloc,
            &mut self.rows,
            self.archs,
            self.unstable,
            near,
            group,
        )?;
        Ok(offender)
    }

    /// A clause for which the move of a group is refused: a coming row has it, and no present or coming row on its
    /// architecture meets it. Without one, the move may still be refused.
    pub fn lack_by_move(&self, alloc: Global, group: &[Text]) -> Result<Option<&Clause>, NoMemory>
        ensures lacks { IfOk result (λ found. IfSome found (λ clause. IsLacking group.now self.now clause.now)) }
        ensures refused { IfOk result (λ found. IfSome found (λ clause. is_none (broken_by_move group.now self.now) ≡ false)) }
    {
        breaks::lack_by_move(alloc, &self.rows, self.unstable, self.near, group)
    }

    /// None of this many candidates was refused so far.
    pub fn no_refusals(&self, alloc: Global, count: usize) -> Result<Refusals, NoMemory>
        ensures { IfOk result (λ refusals. (excuses : List AnExcuse) → AreRefused self.now excuses refusals) }
    {
        // Reading `self` shows that the rows are in order.
        let _rows = &self.rows;
        no_refusals(alloc, count)
    }

    /// Moves a group, unless that breaks something: then testing is unchanged, and the offender is returned. After the
    /// move, candidates refused because one of its rows was missing are to be tried again. The tried change is the one
    /// made.
    pub fn move_unless_broken(
        &mut self,
        alloc: Global,
        group: &[Text],
        refusals: &mut Refusals,
    ) -> Result<Option<Offender>, NoMemory>
        ensures offender { IfOk result (λ o. o ≡ broken_by_move group.now self.old) }
        ensures moved { IfOk result (λ o. is_some o ≡ false → self.new ≡ after_move group.now self.old) }
        ensures woken { IfOk result (λ o. is_some o ≡ false → AreWoken (arriving self.old.basis.sources self.old.basis.rows group.now) refusals.old refusals.new) }
        ensures same { IfOk result (λ o. is_some o ≡ true → self.new ≡ self.old) }
        ensures asleep { IfOk result (λ o. is_some o ≡ true → refusals.new ≡ refusals.old) }
    {
        let near = place_of_group(self.unstable.sources, group, self.near);
        self.near = near;
        let (offender, change) = breaks::broken_by_move(
            alloc,
            &mut self.rows,
            self.archs,
            self.unstable,
            near,
            group,
        )?;
        if offender.is_some() {
            return Ok(offender);
        }
        breaks::wake_by_change(&self.rows, &change, refusals);
        self.sources
            .move_group(alloc, self.unstable.sources, near, group)?;
        let rows = mem::replace(&mut self.rows, LiveRows::Listed(Vec::new(alloc)));
        self.rows = rows.moved(alloc, self.unstable, group, change)?;
        Ok(offender)
    }

    /// What the removal of a source would break.
    pub fn broken_by_removal(
        &mut self,
        alloc: Global,
        name: &Text,
    ) -> Result<Option<Offender>, NoMemory>
        ensures same { self.new ≡ self.old }
        ensures offender { IfOk result (λ o. o ≡ broken_by_removal name.now self.old) }
    {
        breaks::broken_by_removal(alloc, &mut self.rows, self.archs, self.unstable, name)
    }

    /// Removes a source.
    pub fn remove(&mut self, alloc: Global, name: &Text) -> Result<(), NoMemory>
        ensures { OnOk result (self.new ≡ after_removal name.now self.old) }
    {
        let rows = mem::replace(&mut self.rows, LiveRows::Listed(Vec::new(alloc)));
        self.sources.remove(name.as_str());
        self.rows = rows.without(alloc, name)?;
        Ok(())
    }

    /// Testing after the run.
    pub fn into_testing(self, alloc: Global) -> Result<Testing, NoMemory>
        ensures { IfOk result (λ testing. testing ≡ self.entry.suite) }
    {
        let LiveTesting {
            archs: _,
            unstable: _,
            sources,
            rows,
            near: _,
        } = self;
        let sources = sources.copies(alloc)?;
        let (rows, kept) = rows.into_parts(alloc)?;
        Testing::of(alloc, sources, rows, kept)
    }
}
