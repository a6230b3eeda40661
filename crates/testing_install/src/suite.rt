ghost use Rattle.std.specs.Prelude.{◌≡◌, ℕ, ◌<◌, ◌↔◌, true, false, [], ◌++◌, length, replicate, Some, IfOk, OnOk, OnErr, Contains};
ghost use Rattle.std.specs.List.{All, slice_get};
ghost use Rattle.deb_control.specs.declared.binary.Binary.{Binary as TheBinary};
ghost use Rattle.testing_install.specs.Among.{IsInstallableAmong, IsLost, after_change};
ghost use Rattle.testing_install.specs.Closed.{marked};
ghost use Rattle.testing_install.specs.Index.{provides_name};
ghost use Rattle.testing_install.specs.Dependents.{needs_name};
ghost use Rattle.testing_install.specs.Rows.{shared};

use crate::graph::{Graph, empty_graph, with_rows};
use crate::marks::Marks;
use crate::trials::{Exchange, LastTrial, make_change, nothing_tried, try_change};
use deb_control::Binary;
use deb_version::NoMemory;
use std::alloc::Global;
use std::marker::Model;
use std::rc::Rc;

/// The rows of one architecture that may be in a suite, those that are present, and which of these are installable
/// among them (Debian Policy 7.1, 7.2 and 7.5).
///
/// The rows are named by their places, which don't change when more rows are added; a change says which leave and which
/// come. Its cost is what it touches: the leaving and coming rows, those with a clause that names one of these, and so
/// on from each row whose answer changes. The size of the suite doesn't matter.
pub struct Suite {
    graph: Graph,
    there: Marks,
    installable: Marks,
    tried: LastTrial,
}

impl Drop for Suite {
    fn drop(self) {
        let Suite {
            graph: _,
            there: _,
            installable: _,
            tried: _,
        } = self;
    }
}

impl Model for Suite {
    ghost use Rattle.testing_install.specs.Rows.{shared};
    ghost use Rattle.testing_install.specs.Suite.{SuiteState};
    ghost use Rattle.testing_install.specs.steps.Trials.{IsReady};

    ghost Value = { SuiteState };

    ghost view = { λ s. record { rows = shared s.graph.rows.items; there = s.there.current } };

    ghost invariant = { λ s. IsReady (shared s.graph.rows.items) s.graph.providers s.graph.dependents s.there s.installable s.tried };
}

impl Suite {
    /// A suite of no rows.
    pub fn new(alloc: Global) -> Suite
        ensures { result ≡ record { rows = []; there = [] } }
    {
        Suite {
            graph: empty_graph(alloc),
            there: Marks::empty(alloc),
            installable: Marks::empty(alloc),
            tried: nothing_tried(alloc),
        }
    }

    /// The suite with more rows after its own, all absent at first. The time depends only on the new rows. The only
    /// error is running out of memory.
    pub fn with_rows(self, alloc: Global, rows: Vec<Rc<Binary>>) -> Result<Suite, NoMemory>
        ensures rows { IfOk result (λ s. s.rows ≡ self.rows ++ shared rows.items) }
        ensures there { IfOk result (λ s. s.there ≡ self.there ++ replicate (length rows.items) false) }
    {
        let Suite {
            graph,
            there,
            installable,
            tried,
        } = self;
        drop(tried);
        let graph = with_rows(alloc, graph, rows)?;
        let there = there.longer(graph.rows.len())?;
        let installable = installable.longer(graph.rows.len())?;
        Ok(Suite {
            graph,
            there,
            installable,
            tried: nothing_tried(alloc),
        })
    }

    /// The number of rows that may be present.
    pub fn len(&self) -> usize
        ensures { result ≡ length self.now.rows }
    {
        self.graph.rows.len()
    }

    /// The package of the row at the place.
    pub fn binary(&self, place: usize) -> &Binary
        requires { place < length self.now.rows }
        ensures { slice_get self.now.rows place ≡ Some result.now }
    {
        self.graph.rows[place].as_ref()
    }

    /// The places of the rows that provide the name, present or absent. They may include places of other rows.
    pub fn providers(&self, name: &str) -> &[usize]
        ensures within { All (λ k. k < length self.now.rows) result.now }
        ensures complete { (k : ℕ) (row : TheBinary) → slice_get self.now.rows k ≡ Some row → provides_name row name.now ≡ true → Contains result.now k }
    {
        self.graph.providers.places(name)
    }

    /// The places of the rows with a clause that has the name, present or absent. They may include places of other
    /// rows.
    pub fn dependents(&self, name: &str) -> &[usize]
        ensures within { All (λ k. k < length self.now.rows) result.now }
        ensures complete { (k : ℕ) (row : TheBinary) → slice_get self.now.rows k ≡ Some row → needs_name row name.now ≡ true → Contains result.now k }
    {
        self.graph.dependents.places(name)
    }

    /// Which rows are present, by their places.
    pub fn there(&self) -> &[bool]
        ensures is { result.now ≡ self.now.there }
        ensures long { length result.now ≡ length self.now.rows }
    {
        self.there.current()
    }

    /// Whether the row at the place is present.
    pub fn is_there(&self, place: usize) -> bool
        ensures { result ≡ marked self.now.there place }
    {
        self.there.is_marked(place)
    }

    /// Whether the row at the place is installable: some closed set of present rows contains it.
    pub fn is_installable(&self, place: usize) -> bool
        ensures { (result ≡ true) ↔ IsInstallableAmong self.now.rows (marked self.now.there) place }
    {
        self.installable.is_marked(place)
    }

    /// The rows that would be lost, by their places, if some rows left and then some came: those that would be present
    /// and not installable, but are now installable or absent. The suite stays unchanged. The only error is running out
    /// of memory.
    pub fn trial(
        &mut self,
        alloc: Global,
        leaving: &[usize],
        coming: &[usize],
    ) -> Result<Vec<usize>, NoMemory>
        requires leaving { All (λ k. k < length self.old.rows) leaving.now }
        requires coming { All (λ k. k < length self.old.rows) coming.now }
        ensures same { self.new ≡ self.old }
        ensures lost { IfOk result (λ lost. (k : ℕ) → Contains lost.items k
            ↔ IsLost self.old.rows (marked self.old.there) (marked (after_change leaving.now coming.now self.old.there)) k) }
    {
        let lost = try_change(
            alloc,
            &self.graph,
            &mut self.there,
            &mut self.installable,
            &mut self.tried,
            Exchange { leaving, coming },
        );
        self.there.undo();
        self.installable.undo();
        lost
    }

    /// Some rows leave, and then some come. On an error (out of memory), the suite stays unchanged.
    ///
    /// If the last tried change that loses nothing is the same as this one, only the marks that change cost time.
    pub fn change(
        &mut self,
        alloc: Global,
        leaving: &[usize],
        coming: &[usize],
    ) -> Result<(), NoMemory>
        requires leaving { All (λ k. k < length self.old.rows) leaving.now }
        requires coming { All (λ k. k < length self.old.rows) coming.now }
        ensures rows { self.new.rows ≡ self.old.rows }
        ensures there { OnOk result (self.new.there ≡ after_change leaving.now coming.now self.old.there) }
        ensures err { OnErr result (self.new ≡ self.old) }
    {
        match make_change(
            alloc,
            &self.graph,
            &mut self.there,
            &mut self.installable,
            &self.tried,
            Exchange { leaving, coming },
        ) {
            Ok(()) => {
                self.there.keep();
                self.installable.keep();
                self.tried = nothing_tried(alloc);
                Ok(())
            }
            Err(fault) => {
                self.there.undo();
                self.installable.undo();
                Err(fault)
            }
        }
    }
}
