//! Which rows of a pool are present in testing during a run, and the suite of each architecture.

ghost use Rattle.std.specs.Prelude.{◌≡◌, ℕ, ◌++◌, false, length, replicate, [], IfOk, IfSome, Option};
ghost use Rattle.std.specs.List.{list_all};
ghost use Rattle.testing_install.specs.Among.{after_change};
ghost use Rattle.testing_rules_model.specs.Boxed.{unboxed};
ghost use Rattle.testing_rules_suites.specs.steps.Changes.{IsMoveOf};
ghost use Rattle.testing_rules_model.specs.FactOrder.{AreBySource};
ghost use Rattle.testing_rules_live.specs.steps.Lacks.{IsLackOfMove};
ghost use Rattle.testing_rules_model.specs.JudgedRows.{lent};
ghost use Rattle.testing_rules_suites.specs.steps.PresentSteps.{present_rows};
ghost use Rattle.testing_rules_suites.specs.steps.Tried.{first_told, Tells, IsWithin, IsRemovalOf};
ghost use Rattle.testing_rules_model.specs.steps.SourceFilter.{hash_passes, passing_rows};
ghost use Rattle.testing_rules_items.specs.Words.{Text as Word};

use crate::change::{coming_of, giving_way, push_standing, standing_of_group};
use crate::lack::lack_among;
use deb_control::{Clause, Text};
use deb_version::NoMemory;
use smallvec::SmallVec;
use std::alloc::Global;
use std::marker::Model;
use testing_rules_facts::{Hashes, hashes_pass, passing_rows};
use testing_rules_model::{LentRow, Offender, RowIn, UploadIn};
use testing_rules_suites::{CarriedSuites, Change};

/// The suites over the rows that may be in testing during a run. Unstable's rows, from the first place on, are included
/// if their source is a candidate.
pub struct PoolSuites {
    kept: CarriedSuites,
    candidates: Hashes,
    first: usize,
}

impl Drop for PoolSuites {
    fn drop(self) {
        let PoolSuites {
            kept: _,
            candidates: _,
            first: _,
        } = self;
    }
}

impl Model for PoolSuites {
    ghost use Rattle.testing_rules_suites.specs.steps.PresentSteps.{PoolState};

    ghost Value = { PoolState };

    ghost view = { λ s. record {
      rows = s.kept.rows;
      candidates = s.candidates.keys;
      first = s.first;
      stands = s.kept.stands;
      archs = s.kept.archs;
    } };
}

impl PoolSuites {
    /// The rows of the kept suites, then the rows of unstable that may come, absent at first: those of the candidates.
    pub fn new(
        alloc: Global,
        kept: CarriedSuites,
        candidates: Hashes,
        unstable: &[LentRow],
    ) -> Result<PoolSuites, NoMemory>
        ensures rows { IfOk result (λ s. s.rows ≡ kept.rows ++ passing_rows s.candidates (lent unstable.now)) }
        ensures candidates { IfOk result (λ s. s.candidates ≡ candidates.keys) }
        ensures first { IfOk result (λ s. s.first ≡ length kept.rows) }
        ensures archs { IfOk result (λ s. s.archs ≡ kept.archs) }
        ensures stands { IfOk result (λ s. s.stands ≡ kept.stands ++ replicate (length (passing_rows s.candidates (lent unstable.now))) false) }
        ensures long { length kept.stands ≡ length kept.rows }
    {
        let first = kept.len();
        let wanted = passing_rows(alloc, &candidates, unstable)?;
        let kept = kept.with_rows(alloc, &wanted)?;
        Ok(PoolSuites {
            kept,
            candidates,
            first,
        })
    }

    /// The suites only, which aren't specific to a run.
    pub fn into_kept(self) -> CarriedSuites
        ensures { result ≡ record { rows = self.rows; stands = self.stands; archs = self.archs } }
    {
        let PoolSuites {
            kept,
            candidates: _,
            first: _,
        } = self;
        kept
    }

    /// The present rows, by architecture and name.
    pub fn rows(&self, alloc: Global) -> Result<Vec<LentRow<'_>>, NoMemory>
        ensures { IfOk result (λ rows. lent rows.items ≡ present_rows self.now) }
    {
        self.kept.rows(alloc)
    }

    /// Copies of the present rows, by architecture and name.
    pub fn copies(&self, alloc: Global) -> Result<Vec<RowIn>, NoMemory>
        ensures { IfOk result (λ copies. copies.items ≡ present_rows self.now) }
    {
        self.kept.copies(alloc)
    }

    /// The suites only, which aren't specific to a run.
    pub fn kept(&self) -> &CarriedSuites
        ensures { result.now ≡ record { rows = self.now.rows; stands = self.now.stands; archs = self.now.archs } }
    {
        &self.kept
    }

    /// The rows of each source of the group may come: each is a candidate.
    pub fn offers(&self, group: &[Text]) -> bool
        ensures { result ≡ list_all (hash_passes self.now.candidates) group.now }
    {
        hashes_pass(&self.candidates, group)
    }

    /// The rows that come when the group moves, and those that leave: the present rows of its sources, and those with
    /// the key of a coming one. A source is first looked for near the guessed place.
    pub fn change_by_move(
        &self,
        alloc: Global,
        sources: &[Box<UploadIn>],
        near: usize,
        group: &[Text],
    ) -> Result<Change, NoMemory>
        requires { AreBySource (unboxed sources.now) }
        ensures within { IfOk result (λ change. IsWithin self.now.rows change.leaving.items change.coming.items) }
        ensures moves { IfOk result (λ change. IsMoveOf self.now.rows self.now.stands self.now.first (unboxed sources.now) group.now change.leaving.items change.coming.items) }
    {
        let pool = self.kept.pool();
        let stands = self.kept.stands();
        let coming = coming_of(alloc, pool, self.first, sources, near, group)?;
        let mut leaving = standing_of_group(alloc, pool, stands, group)?;
        let giving_way = giving_way(alloc, pool, stands, &coming)?;
        leaving.extend_from_slice(&giving_way)?;
        Ok(Change { leaving, coming })
    }

    /// The rows that leave when the source is removed: its present rows.
    pub fn change_by_removal(&self, alloc: Global, name: &str) -> Result<Change, NoMemory>
        ensures within { IfOk result (λ change. IsWithin self.now.rows change.leaving.items change.coming.items) }
        ensures removal { IfOk result (λ change. IsRemovalOf self.now.rows self.now.stands name.now change.leaving.items) }
        ensures none { IfOk result (λ change. change.coming.items ≡ []) }
    {
        let pool = self.kept.pool();
        let stands = self.kept.stands();
        let mut leaving = SmallVec::new(alloc);
        push_standing(&mut leaving, pool, stands, name, pool.of_source(name))?;
        Ok(Change {
            leaving,
            coming: SmallVec::new(alloc),
        })
    }

    /// A clause of a row coming with the group that no present or coming row on its architecture meets. Without one,
    /// the move may still break something. A source is first looked for near the guessed place.
    pub fn lack_by_move(
        &self,
        alloc: Global,
        sources: &[Box<UploadIn>],
        near: usize,
        group: &[Text],
    ) -> Result<Option<&Clause>, NoMemory>
        requires { AreBySource (unboxed sources.now) }
        ensures { IfOk result (λ found. IfSome found (λ clause. IsLackOfMove self.now (unboxed sources.now) group.now clause.now)) }
    {
        let coming = coming_of(alloc, self.kept.pool(), self.first, sources, near, group)?;
        Ok(lack_among(&self.kept, &coming))
    }

    /// The first row that the change would lose, by architecture in listed order and then by name.
    pub fn first_lost(
        &mut self,
        alloc: Global,
        change: &Change,
    ) -> Result<Option<Offender>, NoMemory>
        ensures same { self.new ≡ self.old }
        ensures first { IfOk result (λ o. (tells : ℕ → Option Word) → Tells self.old.rows self.old.stands change.now.leaving.items change.now.coming.items tells
            → o ≡ first_told self.old.archs tells) }
    {
        self.kept.first_lost(alloc, change)
    }

    /// The suites after the change.
    pub fn after(self, alloc: Global, change: &Change) -> Result<PoolSuites, NoMemory>
        requires { IsWithin self.rows change.now.leaving.items change.now.coming.items }
        ensures state { IfOk result (λ s. s ≡ record {
          rows = self.rows;
          candidates = self.candidates;
          first = self.first;
          stands = after_change change.now.leaving.items change.now.coming.items self.stands;
          archs = self.archs;
        }) }
        ensures long { length self.stands ≡ length self.rows }
    {
        let PoolSuites {
            kept,
            candidates,
            first,
        } = self;
        let kept = kept.after(alloc, change)?;
        Ok(PoolSuites {
            kept,
            candidates,
            first,
        })
    }
}
