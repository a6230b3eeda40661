//! The suite of one architecture, over the pool's rows on it.

ghost use Rattle.std.specs.Prelude.{◌≡◌, ◌<◌, ◌≤◌, ◌-◌, ◌++◌, [], Bool, List, false, length, take, map, filter, replicate, slice_index, Some, IfOk, OnOk, OnErr};
ghost use Rattle.std.specs.List.{All, range_with_len};
ghost use Rattle.std.specs.Ordering.{nat_cmp};
ghost use Rattle.std.specs.Result.{result_ok};
ghost use Rattle.testing_install.specs.Rows.{shared};
ghost use Rattle.testing_rules_suites.specs.steps.ArchRows.{AreAscending, AreNumbers, IsNumberOf, IsAfter, AreLostFrom, package_at};
ghost use Rattle.testing_rules_suites.specs.steps.PresentSteps.{IsOver, IsSuiteOn};
ghost use Rattle.testing_rules_suites.specs.steps.Trials.{is_place_on};

use crate::offender::is_row_on;
use crate::pool::Pool;
use deb_control::Binary;
use deb_version::NoMemory;
use smallvec::SmallVec;
use std::alloc::Global;
use std::cmp::Ordering;
use std::marker::Model;
use std::rc::Rc;
use testing_install::Suite;
use testing_rules_items::{next_place, search_near};

/// The places, from one on, of the pool's rows on the architecture.
fn places_on(
    alloc: Global,
    arch: u32,
    pool: &Pool,
    from: usize,
) -> Result<SmallVec<usize, 4>, NoMemory>
    requires { from ≤ length pool.now }
    ensures { IfOk result (λ places. places.items ≡ filter (is_place_on arch pool.now) (range_with_len from (length pool.now - from))) }
{
    let mut places = SmallVec::new(alloc);
    for place in from..pool.len() {
        let row = pool.row(place);
        if is_row_on(arch, &row) {
            places.push(place)?;
        }
    }
    Ok(places)
}

/// The packages of the rows at the places, shared.
fn packages_at(alloc: Global, pool: &Pool, places: &[usize]) -> Result<Vec<Rc<Binary>>, NoMemory>
    requires { All (λ k. k < length pool.now) places.now }
    ensures { IfOk result (λ packages. map (λ b. Some b) (shared packages.items) ≡ map (package_at pool.now) places.now) }
{
    let mut packages = Vec::with_capacity(alloc, places.len())?;
    for place in places {
        packages.push(pool.package(*place)?)?;
    }
    Ok(packages)
}

/// The number of the place among the ascending ones, or the number that it would have. The guessed number is tried
/// first, then the next one.
fn number_near(places: &[usize], place: usize, guess: usize) -> Result<usize, usize>
    requires { AreAscending places.now }
    ensures { IsNumberOf places.now place (result_ok result) }
{
    search_near(
        places,
        guess,
        |other: &usize| -> Ordering
            ensures { result ≡ nat_cmp other.now place }
        { other.cmp(&place) },
    )
}

/// The numbers of the places among the ascending ones; others are left out. Rows that come or leave together are
/// adjacent on each architecture, so the number after the last one is a good guess.
fn numbers_of(
    alloc: Global,
    own: &[usize],
    places: &[usize],
) -> Result<SmallVec<usize, 4>, NoMemory>
    requires { AreAscending own.now }
    ensures { IfOk result (λ numbers. AreNumbers own.now places.now numbers.items) }
{
    let mut numbers = SmallVec::new(alloc);
    let mut guess = 0;
    for place in places {
        let found = number_near(own, *place, guess);
        guess = next_place(found);
        if let Some(number) = found.ok() {
            numbers.push(number)?;
        }
    }
    Ok(numbers)
}

/// The places of the numbers.
fn places_of(
    alloc: Global,
    own: &[usize],
    numbers: &[usize],
) -> Result<SmallVec<usize, 4>, NoMemory>
    requires { All (λ i. i < length own.now) numbers.now }
    ensures { IfOk result (λ places. places.items ≡ map (slice_index own.now) numbers.now) }
{
    let mut places = SmallVec::new(alloc);
    for number in numbers {
        places.push(own[*number])?;
    }
    Ok(places)
}

/// A suite of the pool's rows on one architecture, with their places in the pool as its interface. Its cost depends on
/// these rows, not on the pool.
pub struct ArchSuite {
    places: Vec<usize>,
    suite: Suite,
}

impl Drop for ArchSuite {
    fn drop(self) {
        let ArchSuite {
            places: _,
            suite: _,
        } = self;
    }
}

impl Model for ArchSuite {
    ghost use Rattle.testing_rules_suites.specs.steps.ArchRows.{ArchRows, IsArchRows};

    ghost Value = { ArchRows };

    ghost view = { λ s. record { places = s.places.items; suite = s.suite } };

    ghost invariant = { λ s. IsArchRows s.places.items s.suite };
}

impl ArchSuite {
    /// The suite without rows.
    pub fn new(alloc: Global) -> ArchSuite
        ensures { result ≡ record { places = []; suite = record { rows = []; there = [] } } }
    {
        ArchSuite {
            places: Vec::new(alloc),
            suite: Suite::new(alloc),
        }
    }

    /// Adds the pool's rows from a place on that are on the architecture; they are absent at first.
    pub fn with_rows(
        self,
        alloc: Global,
        arch: u32,
        pool: &Pool,
        from: usize,
    ) -> Result<ArchSuite, NoMemory>
        requires from { from ≤ length pool.now }
        requires over { IsOver arch (take from pool.now) self }
        ensures over { IfOk result (λ s. IsOver arch pool.now s) }
        ensures suite { IfOk result (λ s. (stands : List Bool) → length stands ≡ from → IsSuiteOn arch (take from pool.now) stands self
            → IsSuiteOn arch pool.now (stands ++ replicate (length pool.now - from) false) s) }
    {
        let ArchSuite { mut places, suite } = self;
        let more = places_on(alloc, arch, pool, from)?;
        let packages = packages_at(alloc, pool, &more)?;
        let suite = suite.with_rows(alloc, packages)?;
        places.extend_from_slice(&more)?;
        Ok(ArchSuite { places, suite })
    }

    /// The places of the rows that would be lost if the rows at some places left and then others came. The suite is
    /// unchanged.
    pub fn trial(
        &mut self,
        alloc: Global,
        leaving: &[usize],
        coming: &[usize],
    ) -> Result<SmallVec<usize, 4>, NoMemory>
        ensures same { self.new ≡ self.old }
        ensures lost { IfOk result (λ lost. AreLostFrom self.old leaving.now coming.now lost.items) }
    {
        let left = numbers_of(alloc, &self.places, leaving)?;
        let came = numbers_of(alloc, &self.places, coming)?;
        let lost = self.suite.trial(alloc, &left, &came)?;
        places_of(alloc, &self.places, &lost)
    }

    /// The rows at some places leave, and then others come. On an error the suite is unchanged.
    pub fn change(
        &mut self,
        alloc: Global,
        leaving: &[usize],
        coming: &[usize],
    ) -> Result<(), NoMemory>
        ensures places { self.new.places ≡ self.old.places }
        ensures rows { self.new.suite.rows ≡ self.old.suite.rows }
        ensures there { OnOk result (IsAfter self.old leaving.now coming.now self.new.suite.there) }
        ensures err { OnErr result (self.new ≡ self.old) }
    {
        let left = numbers_of(alloc, &self.places, leaving)?;
        let came = numbers_of(alloc, &self.places, coming)?;
        self.suite.change(alloc, &left, &came)
    }
}
