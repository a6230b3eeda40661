//! A pool's rows, which of them are present in testing, and each architecture's suite: all that isn't specific to one
//! run.

ghost use Rattle.std.specs.Prelude.{◌≡◌, ℕ, ◌++◌, ◌-◌, ◌^◌, ◌<◌, ◌≤◌, true, false, Bool, length, take, replicate, filter, [], IfOk, IfSome, List, Option};
ghost use Rattle.std.specs.List.{All, range_with_len};
ghost use Rattle.testing_install.specs.Among.{with_all, after_change};
ghost use Rattle.testing_install.specs.Closed.{marked};
ghost use Rattle.testing_rules_suites.specs.steps.AfterMoves.{with_rows, rows_at};
ghost use Rattle.testing_rules_suites.specs.steps.Changes.{has};
ghost use Rattle.testing_rules_model.specs.InOrder.{AreByKey};
ghost use Rattle.testing_rules_model.specs.JudgedRows.{lent};
ghost use Rattle.testing_rules_model.specs.SameMessages.{SameElements};
ghost use Rattle.testing_rules_suites.specs.Present.{IsShown};
ghost use Rattle.testing_rules_suites.specs.steps.PresentSteps.{AreOver, AreSuites, set_places};
ghost use Rattle.testing_rules_suites.specs.steps.Tried.{first_told, Tells, IsWithin};
ghost use Rattle.testing_rules_items.specs.Words.{Text as Word};
ghost use Rattle.testing_rules_model.specs.declared.suite.RowIn.{RowIn as ARow};

use crate::lent_rows::{copies_by_key, copy_lent, lend_rows, rows_in_order};
use crate::{ArchSuite, Change, Pool, lost_anywhere};
use deb_version::NoMemory;
use smallvec::SmallVec;
use std::alloc::Global;
use std::marker::Model;
use testing_rules_model::{LentRow, Offender, RowIn};

/// Sets the flags at the places.
fn set_flags(flags: &mut Vec<bool>, places: &[usize], flag: bool)
    requires { All (λ k. k < length flags.old.items) places.now }
    ensures { flags.new.items ≡ with_all flag places.now flags.old.items }
{
    for place in places {
        flags[*place] = flag;
    }
}

/// None of the places has its flag set.
fn none_stands(flags: &[bool], places: &[usize]) -> bool
    requires { All (λ k. k < length flags.now) places.now }
    ensures { result ≡ true → (k : ℕ) → has places.now k ≡ true → marked flags.now k ≡ false }
{
    for place in places {
        if flags[*place] {
            return false;
        }
    }
    true
}

/// The first places.
fn first_places(alloc: Global, count: usize) -> Result<SmallVec<usize, 4>, NoMemory>
    ensures { IfOk result (λ places. places.items ≡ range_with_len 0 count) }
{
    let mut places = SmallVec::with_capacity(alloc, count)?;
    for place in 0..count {
        places.push(place)?;
    }
    Ok(places)
}

/// The places whose flags are set.
fn set_places(alloc: Global, flags: &[bool]) -> Result<Vec<usize>, NoMemory>
    ensures { IfOk result (λ places. places.items ≡ set_places flags.now) }
{
    let mut places = Vec::new(alloc);
    for place in 0..flags.len() {
        if flags[place] {
            places.push(place)?;
        }
    }
    Ok(places)
}

/// The places whose flags are set, among these.
fn set_among(alloc: Global, flags: &[bool], places: &[usize]) -> Result<Vec<usize>, NoMemory>
    requires { All (λ k. k < length flags.now) places.now }
    ensures { IfOk result (λ up. up.items ≡ filter (marked flags.now) places.now) }
{
    let mut up = Vec::with_capacity(alloc, places.len())?;
    for place in places {
        if flags[*place] {
            up.push(*place)?;
        }
    }
    Ok(up)
}

/// The suite of each architecture, without rows.
fn empty_suites(alloc: Global, archs: u32) -> Result<Vec<ArchSuite>, NoMemory>
    ensures count { IfOk result (λ suites. length suites.items ≡ archs) }
    ensures each { IfOk result (λ suites. AreSuites [] [] suites.items) }
{
    let mut suites = Vec::new(alloc);
    for _arch in 0..archs {
        suites.push(ArchSuite::new(alloc))?;
    }
    Ok(suites)
}

/// The suites with the pool's rows from a place on, each with those on its architecture, absent at first.
fn extended(
    alloc: Global,
    suites: Vec<ArchSuite>,
    pool: &Pool,
    from: usize,
) -> Result<Vec<ArchSuite>, NoMemory>
    requires from { from ≤ length pool.now }
    requires over { AreOver (take from pool.now) suites.items }
    requires few { length suites.items < 2 ^ 32 }
    ensures count { IfOk result (λ new. length new.items ≡ length suites.items) }
    ensures each { IfOk result (λ new. (stands : List Bool) → length stands ≡ from → AreSuites (take from pool.now) stands suites.items
        → AreSuites pool.now (stands ++ replicate (length pool.now - from) false) new.items) }
{
    let mut extended = Vec::with_capacity(alloc, suites.len())?;
    let mut arch = 0;
    for suite in suites {
        extended.push(suite.with_rows(alloc, arch, pool, from)?)?;
        arch += 1;
    }
    Ok(extended)
}

/// The suites after the change on each architecture.
fn changed(
    alloc: Global,
    archs: u32,
    suites: Vec<ArchSuite>,
    change: &Change,
) -> Result<Vec<ArchSuite>, NoMemory>
    requires { archs ≡ length suites.items }
    ensures count { IfOk result (λ new. length new.items ≡ archs) }
    ensures each { IfOk result (λ new. (pool : List ARow) (stands : List Bool) → length stands ≡ length pool → AreSuites pool stands suites.items
        → AreSuites pool (after_change change.now.leaving.items change.now.coming.items stands) new.items) }
{
    let mut suites = suites;
    for arch in 0..archs {
        let suite = &mut suites[arch as usize];
        suite.change(alloc, &change.leaving, &change.coming)?;
    }
    Ok(suites)
}

/// Rows that may be in testing, which of them are present, and the suite of each architecture. Trying and making a
/// change takes about as long as what it touches.
pub struct CarriedSuites {
    pool: Pool,
    archs: u32,
    stands: Vec<bool>,
    suites: Vec<ArchSuite>,
}

impl Drop for CarriedSuites {
    fn drop(self) {
        let CarriedSuites {
            pool: _,
            archs: _,
            stands: _,
            suites: _,
        } = self;
    }
}

impl Model for CarriedSuites {
    ghost use Rattle.testing_rules_suites.specs.Present.{CarriedState};
    ghost use Rattle.testing_rules_suites.specs.steps.PresentSteps.{IsCarriedState};

    ghost Value = { CarriedState };

    ghost view = { λ s. record { rows = s.pool; stands = s.stands.items; archs = s.archs } };

    ghost invariant = { λ s. IsCarriedState s.pool s.stands.items s.archs s.suites.items };
}

impl CarriedSuites {
    /// The suites without rows.
    pub fn new(alloc: Global, archs: u32) -> Result<CarriedSuites, NoMemory>
        ensures { IfOk result (λ s. s ≡ record { rows = []; stands = []; archs = archs }) }
    {
        let suites = empty_suites(alloc, archs)?;
        Ok(CarriedSuites {
            pool: Pool::new(alloc),
            archs,
            stands: Vec::new(alloc),
            suites,
        })
    }

    /// The suites with more rows after their own, all absent at first. The time depends only on the new rows.
    pub fn with_rows(self, alloc: Global, more: &[LentRow]) -> Result<CarriedSuites, NoMemory>
        ensures { IfOk result (λ s. s ≡ record {
          rows = self.rows ++ lent more.now;
          stands = self.stands ++ replicate (length (lent more.now)) false;
          archs = self.archs;
        }) }
    {
        let CarriedSuites {
            pool,
            archs,
            mut stands,
            suites,
        } = self;
        let from = pool.len();
        let pool = pool.with_rows(alloc, more)?;
        let suites = extended(alloc, suites, &pool, from)?;
        stands.resize(pool.len(), false)?;
        Ok(CarriedSuites {
            pool,
            archs,
            stands,
            suites,
        })
    }

    /// The suites of rows that are all present.
    pub fn of(alloc: Global, archs: u32, rows: &[RowIn]) -> Result<CarriedSuites, NoMemory>
        requires { AreByKey rows.now }
        ensures archs { IfOk result (λ s. s.archs ≡ archs) }
        ensures shown { IfOk result (λ s. IsShown s.rows (marked s.stands) rows.now) }
    {
        let none = CarriedSuites::new(alloc, archs)?;
        let lent = lend_rows(alloc, rows)?;
        let suites = none.with_rows(alloc, &lent)?;
        let change = Change {
            leaving: SmallVec::new(alloc),
            coming: first_places(alloc, rows.len())?,
        };
        suites.after(alloc, &change)
    }

    /// The number of rows of the pool.
    pub fn len(&self) -> usize
        ensures { result ≡ length self.now.rows }
    {
        self.pool.len()
    }

    /// The rows that may be present.
    pub fn pool(&self) -> &Pool
        ensures { result.now ≡ self.now.rows }
    {
        &self.pool
    }

    /// Which rows are present, one flag for each.
    pub fn stands(&self) -> &[bool]
        ensures flags { result.now ≡ self.now.stands }
        ensures long { length self.now.stands ≡ length self.now.rows }
    {
        &self.stands
    }

    /// The number of the architectures.
    pub fn archs(&self) -> u32
        ensures { result ≡ self.now.archs }
    {
        self.archs
    }

    /// The present rows, sorted by architecture and name.
    pub fn rows(&self, alloc: Global) -> Result<Vec<LentRow<'_>>, NoMemory>
        ensures { IfOk result (λ rows. lent rows.items ≡ with_rows (rows_at self.now.rows (set_places self.now.stands)) []) }
    {
        let places = set_places(alloc, &self.stands)?;
        rows_in_order(alloc, &self.pool, &places)
    }

    /// Copies of the present rows in the pool's order, if that is the order of architecture and name.
    fn copies_in_pool_order(&self, alloc: Global) -> Result<Option<Vec<RowIn>>, NoMemory>
        ensures copies { IfOk result (λ found. IfSome found (λ copies. SameElements (rows_at self.now.rows (set_places self.now.stands)) copies.items)) }
        ensures ordered { IfOk result (λ found. IfSome found (λ copies. AreByKey copies.items)) }
    {
        let places = set_among(alloc, &self.stands, self.pool.order())?;
        copies_by_key(alloc, &self.pool, &places)
    }

    /// Copies of the present rows, by architecture and name.
    pub fn copies(&self, alloc: Global) -> Result<Vec<RowIn>, NoMemory>
        ensures { IfOk result (λ copies. copies.items ≡ with_rows (rows_at self.now.rows (set_places self.now.stands)) []) }
    {
        match self.copies_in_pool_order(alloc)? {
            Some(copies) => Ok(copies),
            None => {
                let rows = self.rows(alloc)?;
                copy_lent(alloc, &rows)
            }
        }
    }

    /// None of the coming rows is present already.
    pub fn is_fresh(&self, change: &Change) -> bool
        requires { IsWithin self.now.rows change.now.leaving.items change.now.coming.items }
        ensures { result ≡ true → (k : ℕ) → has change.now.coming.items k ≡ true → marked self.now.stands k ≡ false }
    {
        none_stands(&self.stands, &change.coming)
    }

    /// The first row that the change would lose, by architecture in listed order and then by name.
    pub fn first_lost(
        &mut self,
        alloc: Global,
        change: &Change,
    ) -> Result<Option<Offender>, NoMemory>
        ensures same { self.new ≡ self.old }
        ensures first { IfOk result (λ o. (tells : ℕ → Option Word) → Tells self.old.rows self.old.stands change.now.leaving.items change.now.coming.items tells
            → o ≡ first_told self.old.archs tells) }
    {
        lost_anywhere(alloc, self.archs, &self.pool, &mut self.suites, change)
    }

    /// The suites after the change.
    pub fn after(self, alloc: Global, change: &Change) -> Result<CarriedSuites, NoMemory>
        requires { IsWithin self.rows change.now.leaving.items change.now.coming.items }
        ensures state { IfOk result (λ s. s ≡ record {
          rows = self.rows;
          stands = after_change change.now.leaving.items change.now.coming.items self.stands;
          archs = self.archs;
        }) }
        ensures long { length self.stands ≡ length self.rows }
    {
        let CarriedSuites {
            pool,
            archs,
            mut stands,
            suites,
        } = self;
        let suites = changed(alloc, archs, suites, change)?;
        set_flags(&mut stands, &change.leaving, false);
        set_flags(&mut stands, &change.coming, true);
        Ok(CarriedSuites {
            pool,
            archs,
            stands,
            suites,
        })
    }
}
