//! The testing suite.

ghost use Rattle.std.specs.Prelude.{◌≡◌, [], length, IfOk, OnOk, OnErr};
ghost use Rattle.std.specs.List.Sorted.{IsBinarySearchResult, IsSearchInRange};
ghost use Rattle.testing_rules_model.specs.Moves as moves;
ghost use Rattle.testing_rules_model.specs.InOrder.{AreByName, AreByKey};
ghost use Rattle.testing_rules_suites.specs.CarriedOver.{AreCarriedOver};
ghost use Rattle.testing_rules_model.specs.steps.Places.{IsPlaceFor};
ghost use Rattle.testing_rules_items.specs.Words.{byte_cmp};

use crate::carried_suites::CarriedSuites;
use crate::lent_suites::over_rows;
use crate::order_rows;
use deb_version::NoMemory;
use std::alloc::{AllocError, Global};
use std::cmp::Ordering;
use std::marker::Model;
use std::rc::Rc;
use testing_rules_model::{HasSources, RowIn, SourceIn};

/// The sources by name, and the rows by architecture and name.
#[derive(Drop)]
struct SuiteEntries {
    sources: Vec<SourceIn>,
    rows: Vec<RowIn>,
}

impl Model for SuiteEntries {
    ghost use Rattle.testing_rules_model.specs.Suite.{Suite};
    ghost use Rattle.testing_rules_model.specs.steps.InOrder.{IsInOrder};

    ghost Value = { Suite };

    ghost view = { λ a. record { sources = a.sources.items; rows = a.rows.items } };

    ghost invariant = { λ a. IsInOrder a.sources.items a.rows.items };
}

/// The sources by name, and the rows by architecture and name. Copies share them; if a changed one shares them, it
/// first gets its own. The empty suite has none. Next to them are the suites that a run left for the next one: they
/// save time but have no part in contracts, copies don't have them, and a change of testing drops them.
pub struct Testing {
    alloc: Global,
    entries: Option<Rc<SuiteEntries>>,
    kept: Option<CarriedSuites>,
}

impl Drop for Testing {
    fn drop(self) {
        let Testing {
            alloc: _,
            entries: _,
            kept: _,
        } = self;
    }
}

impl Model for Testing {
    ghost use Rattle.testing_rules_suites.specs.CarriedOver.{AreCarriedOver};
    ghost use Rattle.testing_rules_model.specs.Suite.{Suite, suite_of};

    ghost Value = { Suite };

    ghost view = { λ a. suite_of a.entries };

    ghost invariant = { λ a. AreCarriedOver a.kept (suite_of a.entries).rows };
}

/// The place of the name among the sources, or where it belongs.
pub fn place_of_name(sources: &[SourceIn], name: &str) -> Result<usize, usize>
    ensures bound { IsSearchInRange result (length sources.now) }
    ensures found { IsBinarySearchResult (λ s. byte_cmp s.name name.now) sources.now result }
{
    sources.binary_search_by(
        |source: &SourceIn| -> Ordering
            ensures { result ≡ byte_cmp source.now.name name.entry.now }
        { source.name.as_str().cmp(name) },
    )
}

/// Where a source belongs: at the entry with its name, or before the first one above it.
fn place_of_source(sources: &[SourceIn], source: &SourceIn) -> Result<usize, usize>
    requires { AreByName sources.now }
    ensures { IsPlaceFor sources.now source.now (moves.put_source source.now sources.now) result }
{
    place_of_name(sources, source.name.as_str())
}

/// The place of the row's key among the rows, or where it belongs.
fn place_of_key(rows: &[RowIn], row: &RowIn) -> Result<usize, usize>
    ensures bound { IsSearchInRange result (length rows.now) }
    ensures found { IsBinarySearchResult (λ r. moves.row_cmp (moves.row_key r) (moves.row_key row.now)) rows.now result }
{
    rows.binary_search_by(
        |other: &RowIn| -> Ordering
            ensures { result ≡ moves.row_cmp (moves.row_key other.now) (moves.row_key row.entry.now) }
        { order_rows(other, row) },
    )
}

/// Where a row belongs: at the entry with its key, or before the first one above it.
fn place_of_row(rows: &[RowIn], row: &RowIn) -> Result<usize, usize>
    requires { AreByKey rows.now }
    ensures { IsPlaceFor rows.now row.now (moves.put_row row.now rows.now) result }
{
    place_of_key(rows, row)
}

/// Puts a source at its name.
fn put_source(sources: &mut Vec<SourceIn>, source: SourceIn) -> Result<(), AllocError>
    requires { AreByName sources.old.items }
    ensures ok { OnOk result (sources.new.items ≡ moves.put_source source sources.old.items) }
    ensures err { OnErr result (sources.new.items ≡ sources.old.items) }
{
    match place_of_source(sources, &source) {
        Ok(place) => sources[place] = source,
        Err(place) => sources.insert(place, source)?,
    }
    Ok(())
}

/// Puts a row at its key.
fn put_row(rows: &mut Vec<RowIn>, row: RowIn) -> Result<(), AllocError>
    requires { AreByKey rows.old.items }
    ensures ok { OnOk result (rows.new.items ≡ moves.put_row row rows.old.items) }
    ensures err { OnErr result (rows.new.items ≡ rows.old.items) }
{
    match place_of_row(rows, &row) {
        Ok(place) => rows[place] = row,
        Err(place) => rows.insert(place, row)?,
    }
    Ok(())
}

fn copy_sources(alloc: Global, sources: &[SourceIn]) -> Result<Vec<SourceIn>, NoMemory>
    ensures { IfOk result (λ copies. copies.items ≡ sources.now) }
{
    let mut copies = Vec::with_capacity(alloc, sources.len())?;
    for source in sources {
        copies.push(source.copy(alloc)?)?;
    }
    Ok(copies)
}

fn copy_rows(alloc: Global, rows: &[RowIn]) -> Result<Vec<RowIn>, NoMemory>
    ensures { IfOk result (λ copies. copies.items ≡ rows.now) }
{
    let mut copies = Vec::with_capacity(alloc, rows.len())?;
    for row in rows {
        copies.push(row.copy()?)?;
    }
    Ok(copies)
}

impl SuiteEntries {
    /// No entries.
    fn new(alloc: Global) -> SuiteEntries
        ensures { result ≡ record { sources = []; rows = [] } }
    {
        SuiteEntries {
            sources: Vec::new(alloc),
            rows: Vec::new(alloc),
        }
    }

    fn sources(&self) -> &[SourceIn]
        ensures entries { result.now ≡ self.now.sources }
        ensures ordered { AreByName result.now }
    {
        self.sources.as_slice()
    }

    fn rows(&self) -> &[RowIn]
        ensures entries { result.now ≡ self.now.rows }
        ensures ordered { AreByKey result.now }
    {
        self.rows.as_slice()
    }

    /// Puts a source at its name; the rest is unchanged.
    fn set_source(&mut self, source: SourceIn) -> Result<(), NoMemory>
        ensures ok { OnOk result (self.new ≡ record { sources = moves.put_source source self.old.sources; rows = self.old.rows }) }
        ensures err { OnErr result (self.new ≡ self.old) }
    {
        Ok(put_source(&mut self.sources, source)?)
    }

    /// Puts a row at its architecture and name; the rest is unchanged.
    fn set_row(&mut self, row: RowIn) -> Result<(), NoMemory>
        ensures ok { OnOk result (self.new ≡ record { sources = self.old.sources; rows = moves.put_row row self.old.rows }) }
        ensures err { OnErr result (self.new ≡ self.old) }
    {
        Ok(put_row(&mut self.rows, row)?)
    }

    /// Equal entries.
    fn copy(&self, alloc: Global) -> Result<SuiteEntries, NoMemory>
        ensures { IfOk result (λ copies. copies ≡ self.now) }
    {
        let sources = copy_sources(alloc, &self.sources)?;
        let rows = copy_rows(alloc, &self.rows)?;
        Ok(SuiteEntries { sources, rows })
    }
}

/// Entries with one source.
fn first_source(alloc: Global, source: SourceIn) -> Result<Rc<SuiteEntries>, NoMemory>
    ensures { IfOk result (λ entries. entries.value ≡ record { sources = moves.put_source source []; rows = [] }) }
{
    let mut entries = SuiteEntries::new(alloc);
    entries.set_source(source)?;
    let shared = Rc::new(alloc, entries)?;
    Ok(shared)
}

/// Entries with one row.
fn first_row(alloc: Global, row: RowIn) -> Result<Rc<SuiteEntries>, NoMemory>
    ensures { IfOk result (λ entries. entries.value ≡ record { sources = []; rows = moves.put_row row [] }) }
{
    let mut entries = SuiteEntries::new(alloc);
    entries.set_row(row)?;
    let shared = Rc::new(alloc, entries)?;
    Ok(shared)
}

/// Puts a source at its name, in a copy of the entries if others share them.
fn put_shared_source(
    alloc: Global,
    entries: &mut Rc<SuiteEntries>,
    source: SourceIn,
) -> Result<(), NoMemory>
    ensures ok { OnOk result (entries.new.value ≡ record { sources = moves.put_source source entries.old.value.sources; rows = entries.old.value.rows }) }
    ensures err { OnErr result (entries.new.value ≡ entries.old.value) }
{
    match Rc::get_mut(entries) {
        Some(own) => own.set_source(source),
        None => {
            let mut own = entries.copy(alloc)?;
            own.set_source(source)?;
            *entries = Rc::new(alloc, own)?;
            Ok(())
        }
    }
}

/// Puts a row at its architecture and name, in a copy of the entries if others share them.
fn put_shared_row(alloc: Global, entries: &mut Rc<SuiteEntries>, row: RowIn) -> Result<(), NoMemory>
    ensures ok { OnOk result (entries.new.value ≡ record { sources = entries.old.value.sources; rows = moves.put_row row entries.old.value.rows }) }
    ensures err { OnErr result (entries.new.value ≡ entries.old.value) }
{
    match Rc::get_mut(entries) {
        Some(own) => own.set_row(row),
        None => {
            let mut own = entries.copy(alloc)?;
            own.set_row(row)?;
            *entries = Rc::new(alloc, own)?;
            Ok(())
        }
    }
}

impl HasSources for Testing {
    ghost suite = { λ t. t };

    fn sources_by_name(&self) -> &[SourceIn] {
        self.sources()
    }
}

impl Testing {
    /// The suite of these entries, which are in order, and the kept suites of its rows.
    pub fn of(
        alloc: Global,
        sources: Vec<SourceIn>,
        rows: Vec<RowIn>,
        kept: Option<CarriedSuites>,
    ) -> Result<Testing, NoMemory>
        requires sources { AreByName sources.items }
        requires rows { AreByKey rows.items }
        requires kept { AreCarriedOver kept rows.items }
        ensures { IfOk result (λ testing. testing ≡ record { sources = sources.items; rows = rows.items }) }
    {
        let entries = Rc::new(alloc, SuiteEntries { sources, rows })?;
        Ok(Testing {
            alloc,
            entries: Some(entries),
            kept,
        })
    }

    /// The kept suites of its rows, which it gives up.
    pub fn take_kept(&mut self) -> Option<CarriedSuites>
        ensures same { self.new ≡ self.old }
        ensures kept { AreCarriedOver result self.old.rows }
    {
        self.kept.take()
    }

    /// Keeps suites of its rows, made from suites with other rows present: from the ones that the run left, those
    /// before it. NoMemory if memory runs out.
    pub fn keep_suites(&mut self, suites: CarriedSuites) -> Result<(), NoMemory>
        ensures { self.new ≡ self.old }
    {
        let kept = over_rows(self.alloc, suites, self.rows())?;
        self.kept = Some(kept);
        Ok(())
    }

    /// The empty suite.
    pub fn new(alloc: Global) -> Testing
        ensures { result ≡ record { sources = []; rows = [] } }
    {
        Testing {
            alloc,
            entries: None,
            kept: None,
        }
    }

    /// The sources in byte order of their names, each name once.
    pub fn sources(&self) -> &[SourceIn]
        ensures entries { result.now ≡ self.now.sources }
        ensures ordered { AreByName result.now }
    {
        match &self.entries {
            Some(entries) => entries.as_ref().sources(),
            None => &[],
        }
    }

    /// The rows by the place of the architecture, with `all` last, and then in byte order of their names, each pair
    /// once.
    pub fn rows(&self) -> &[RowIn]
        ensures entries { result.now ≡ self.now.rows }
        ensures ordered { AreByKey result.now }
    {
        match &self.entries {
            Some(entries) => entries.as_ref().rows(),
            None => &[],
        }
    }

    /// Puts a source at its name; the rest is unchanged.
    pub fn set_source(&mut self, source: SourceIn) -> Result<(), NoMemory>
        ensures ok { OnOk result (self.new ≡ record { sources = moves.put_source source self.old.sources; rows = self.old.rows }) }
        ensures err { OnErr result (self.new ≡ self.old) }
    {
        self.kept = None;
        match &mut self.entries {
            Some(entries) => put_shared_source(self.alloc, entries, source),
            None => {
                self.entries = Some(first_source(self.alloc, source)?);
                Ok(())
            }
        }
    }

    /// Puts a row at its architecture and name; the rest is unchanged.
    pub fn set_row(&mut self, row: RowIn) -> Result<(), NoMemory>
        ensures ok { OnOk result (self.new ≡ record { sources = self.old.sources; rows = moves.put_row row self.old.rows }) }
        ensures err { OnErr result (self.new ≡ self.old) }
    {
        self.kept = None;
        match &mut self.entries {
            Some(entries) => put_shared_row(self.alloc, entries, row),
            None => {
                self.entries = Some(first_row(self.alloc, row)?);
                Ok(())
            }
        }
    }

    /// An equal suite that shares the entries.
    pub fn copy(&self) -> Result<Testing, NoMemory>
        ensures { IfOk result (λ t. t ≡ self.now) }
    {
        let entries = match &self.entries {
            Some(entries) => Some(entries.clone()?),
            None => None,
        };
        Ok(Testing {
            alloc: self.alloc,
            entries,
            kept: None,
        })
    }

    /// An equal suite for the next run that shares the entries, and takes the suites that the previous run left.
    pub fn share(&mut self) -> Result<Testing, NoMemory>
        ensures same { self.new ≡ self.old }
        ensures shared { IfOk result (λ t. t ≡ self.old) }
    {
        let mut shared = self.copy()?;
        shared.kept = self.kept.take();
        Ok(shared)
    }
}
