ghost use Rattle.std.specs.Prelude.{◌≡◌, ◌<◌, ◌≤◌, ◌&&◌, not, filter, false, [], length, OnOk, OnErr, IfOk, slice_set};
ghost use Rattle.testing_install.specs.Among.{with_all};
ghost use Rattle.testing_install.specs.Closed.{marked};
ghost use Rattle.testing_install.specs.Tracked.{Tracked};
ghost use Rattle.testing_install.specs.steps.Tracked.{undone, confirmed, longer};
ghost use Rattle.testing_install.specs.steps.Trials.{IsDifference};
ghost use Rattle.std.specs.List.{All};

use deb_version::NoMemory;
use smallvec::SmallVec;
use std::alloc::Global;
use std::marker::Model;

/// A set of rows by their places: as it is, and as it was when last kept.
#[derive(Drop)]
pub struct Marks {
    current: Vec<bool>,
    kept: Vec<bool>,
    touched: Vec<usize>,
}

impl Model for Marks {
    ghost use Rattle.testing_install.specs.Tracked.{Tracked};
    ghost use Rattle.testing_install.specs.steps.Tracked.{IsTracked};

    ghost Value = { Tracked };

    ghost view = { λ m. record { current = m.current.items; kept = m.kept.items } };

    ghost invariant = { λ m. IsTracked m.current.items m.kept.items m.touched.items };
}

impl Marks {
    /// Marks of no rows.
    pub fn empty(alloc: Global) -> Marks
        ensures { result ≡ record { current = []; kept = [] } }
    {
        Marks {
            current: Vec::new(alloc),
            kept: Vec::new(alloc),
            touched: Vec::new(alloc),
        }
    }

    /// The marks of more rows, this many in all; the new ones have no mark. If nothing was left to keep or undo,
    /// nothing is.
    pub fn longer(self, rows: usize) -> Result<Marks, NoMemory>
        requires { length self.current ≤ rows }
        ensures { IfOk result (λ m. m ≡ longer rows self) }
    {
        let Marks {
            mut current,
            mut kept,
            touched,
        } = self;
        current.resize(rows, false)?;
        kept.resize(rows, false)?;
        Ok(Marks {
            current,
            kept,
            touched,
        })
    }

    /// The marks as they are.
    pub fn current(&self) -> &[bool]
        ensures { result.now ≡ self.now.current }
    {
        self.current.as_slice()
    }

    /// Whether the row at the place is marked.
    pub fn is_marked(&self, place: usize) -> bool
        ensures { result ≡ marked self.now.current place }
    {
        has_mark(&self.current, place)
    }

    /// Whether the row at the place was marked when the marks were last kept.
    pub fn was_marked(&self, place: usize) -> bool
        ensures { result ≡ marked self.now.kept place }
    {
        has_mark(&self.kept, place)
    }

    /// Sets or removes the mark of the row at the place.
    pub fn set(&mut self, place: usize, mark: bool) -> Result<(), NoMemory>
        requires { place < length self.old.current }
        ensures ok { OnOk result (self.new ≡ record { current = slice_set self.old.current place mark; kept = self.old.kept }) }
        ensures err { OnErr result (self.new ≡ self.old) }
    {
        self.touched.push(place)?;
        self.current[place] = mark;
        Ok(())
    }

    /// The places that lost their mark since the marks were last kept.
    pub fn falling(&self, alloc: Global) -> Result<SmallVec<usize, 4>, NoMemory>
        ensures { IfOk result (λ list. IsDifference self.now.kept self.now.current list.items) }
    {
        let list = difference(alloc, &self.kept, &self.current, &self.touched)?;
        Ok(list)
    }

    /// The places that got a mark since the marks were last kept.
    pub fn rising(&self, alloc: Global) -> Result<SmallVec<usize, 4>, NoMemory>
        ensures { IfOk result (λ list. IsDifference self.now.current self.now.kept list.items) }
    {
        let list = difference(alloc, &self.current, &self.kept, &self.touched)?;
        Ok(list)
    }

    /// Goes back to the last kept marks.
    pub fn undo(&mut self)
        ensures { self.new ≡ undone self.old }
    {
        while let Some(place) = self.touched.pop() {
            self.current[place] = self.kept[place];
        }
    }

    /// Keeps the marks as they are.
    pub fn keep(&mut self)
        ensures { self.new ≡ confirmed self.old }
    {
        while let Some(place) = self.touched.pop() {
            self.kept[place] = self.current[place];
        }
    }
}

// Whether the place has a mark.
fn has_mark(marks: &[bool], place: usize) -> bool
    ensures { result ≡ marked marks.now place }
{
    match marks.get(place) {
        Some(mark) => *mark,
        None => false,
    }
}

// Whether the place has a mark in the first list and none in the second.
fn is_in_difference(first: &[bool], second: &[bool], place: usize) -> bool
    ensures { result ≡ (marked first.now place && not (marked second.now place)) }
{
    has_mark(first, place) && !has_mark(second, place)
}

// The places that have a mark in the first list and none in the second.
fn difference(
    alloc: Global,
    first: &[bool],
    second: &[bool],
    places: &[usize],
) -> Result<SmallVec<usize, 4>, NoMemory>
    ensures { IfOk result (λ list. list.items ≡ filter (λ k. marked first.now k && not (marked second.now k)) places.now) }
{
    let mut list = SmallVec::new(alloc);
    for place in places {
        if is_in_difference(first, second, *place) {
            list.push(*place)?;
        }
    }
    Ok(list)
}

/// Sets or removes the marks of the rows at the places.
pub fn set_all(marks: &mut Marks, places: &[usize], mark: bool) -> Result<(), NoMemory>
    requires { All (λ k. k < length marks.old.current) places.now }
    ensures kept { marks.new.kept ≡ marks.old.kept }
    ensures set { OnOk result (marks.new.current ≡ with_all mark places.now marks.old.current) }
{
    for place in places {
        marks.set(*place, mark)?;
    }
    Ok(())
}
