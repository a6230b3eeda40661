//! Rows that may be in testing, by place.

ghost use Rattle.std.specs.Prelude.{◌≡◌, ℕ, ◌∷◌, ◌++◌, [], ◌<◌, true, length, Some, Contains, OnOk, IfOk};
ghost use Rattle.std.specs.List.{All, slice_get};
ghost use Rattle.testing_install.specs.Index.{provides_name};
ghost use Rattle.testing_rules_model.specs.declared.suite.RowIn.{RowIn as ARow};
ghost use Rattle.testing_rules_model.specs.JudgedRows.{lent, row_of};
ghost use Rattle.testing_rules_suites.specs.steps.Pools.{IsPool, HasPlaces};

use crate::row_order::merged;
use deb_control::Binary;
use deb_version::NoMemory;
use std::alloc::Global;
use std::marker::Model;
use std::rc::Rc;
use testing_install::{NameIndex, note_row};
use testing_rules_model::{LentRow, RowIn};

/// The rows, with their places by the source that they name, by the names that the package provides, and in the order
/// of their keys.
pub struct Pool {
    rows: Vec<RowIn>,
    by_source: NameIndex,
    by_name: NameIndex,
    order: Vec<usize>,
}

impl Drop for Pool {
    fn drop(self) {
        let Pool {
            rows: _,
            by_source: _,
            by_name: _,
            order: _,
        } = self;
    }
}

impl Model for Pool {
    ghost use Rattle.std.specs.Prelude.{List};
    ghost use Rattle.testing_rules_model.specs.declared.suite.RowIn.{RowIn};
    ghost use Rattle.testing_rules_suites.specs.steps.Pools.{IsOrderedPool};

    ghost Value = { List RowIn };

    ghost view = { λ p. p.rows.items };

    ghost invariant = { λ p. IsOrderedPool p.rows.items p.by_source p.by_name p.order.items };
}

/// Adds a row at the end, and its place to both indexes.
fn add_row(
    alloc: Global,
    rows: &mut Vec<RowIn>,
    by_source: &mut NameIndex,
    by_name: &mut NameIndex,
    row: &LentRow,
) -> Result<(), NoMemory>
    requires { IsPool rows.old.items by_source.old by_name.old }
    ensures rows { OnOk result (rows.new.items ≡ rows.old.items ++ row_of row.now ∷ []) }
    ensures indexes { OnOk result (IsPool rows.new.items by_source.new by_name.new) }
{
    let place = rows.len();
    by_source.note(alloc, row.binary.source.as_str(), place)?;
    note_row(alloc, by_name, row.binary, place)?;
    rows.push(row.copy()?)?;
    Ok(())
}

impl Pool {
    /// No rows yet.
    pub fn new(alloc: Global) -> Pool
        ensures { result ≡ [] }
    {
        Pool {
            rows: Vec::new(alloc),
            by_source: NameIndex::new(alloc),
            by_name: NameIndex::new(alloc),
            order: Vec::new(alloc),
        }
    }

    /// The pool with more rows after its own.
    pub fn with_rows(self, alloc: Global, more: &[LentRow]) -> Result<Pool, NoMemory>
        ensures { IfOk result (λ pool. pool ≡ self ++ lent more.now) }
    {
        let Pool {
            mut rows,
            mut by_source,
            mut by_name,
            order,
        } = self;
        let from = rows.len();
        rows.reserve(more.len())?;
        for row in more {
            add_row(alloc, &mut rows, &mut by_source, &mut by_name, row)?;
        }
        let order = merged(alloc, &rows, &order, from)?;
        Ok(Pool {
            rows,
            by_source,
            by_name,
            order,
        })
    }

    /// The number of rows.
    pub fn len(&self) -> usize
        ensures { result ≡ length self.now }
    {
        self.rows.len()
    }

    /// The places in the order of their rows' keys, as far as that is known.
    pub fn order(&self) -> &[usize]
        ensures { HasPlaces (length self.now) result.now }
    {
        self.order.as_slice()
    }

    /// The row at the place.
    pub fn row(&self, place: usize) -> LentRow<'_>
        requires { place < length self.now }
        ensures { slice_get self.now place ≡ Some (row_of result) }
    {
        self.rows[place].lend()
    }

    /// The package of the row at the place, shared.
    pub fn package(&self, place: usize) -> Result<Rc<Binary>, NoMemory>
        requires { place < length self.now }
        ensures { IfOk result (λ binary. (r : ARow) → slice_get self.now place ≡ Some r → binary.value ≡ r.binary) }
    {
        self.rows[place].binary.package()
    }

    /// The places of the rows that name the source, perhaps with others.
    pub fn of_source(&self, name: &str) -> &[usize]
        ensures within { All (λ k. k < length self.now) result.now }
        ensures complete { (k : ℕ) (r : ARow) → slice_get self.now k ≡ Some r → r.binary.source ≡ name.now → Contains result.now k }
    {
        self.by_source.places(name)
    }

    /// The places of the rows whose package provides the name, its own included. They may include other places.
    pub fn of_name(&self, name: &str) -> &[usize]
        ensures within { All (λ k. k < length self.now) result.now }
        ensures complete { (k : ℕ) (r : ARow) → slice_get self.now k ≡ Some r → provides_name r.binary name.now ≡ true → Contains result.now k }
    {
        self.by_name.places(name)
    }
}
