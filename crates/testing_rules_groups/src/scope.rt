//! The rows that may be present, their owners, and which of them work on each architecture.

use crate::candidates::number_of;
use crate::flags::{flags_of, is_set_for, set_all};
use deb_control::{Clause, NoMemory};
use smallvec::SmallVec;
use std::alloc::Global;
use testing_install::meets;
use testing_rules_model::{Excuse, LentRow};
use testing_rules_suites::{ArchSuite, Pool, is_row_on};

/// The input of a search: the candidates by name, testing's rows, and after these, from the place `first` on, the rows
/// that the candidates bring. `owners` has for each row the number of the candidate whose source it names.
#[derive(Drop)]
pub struct Scope<'a> {
    pub candidates: Vec<&'a Excuse>,
    pub pool: Pool,
    pub first: usize,
    pub owners: Vec<Option<usize>>,
    pub archs: u32,
}

/// The two rows have the same architecture and name.
pub fn is_same_key(row: &LentRow, other: &LentRow) -> bool {
    row.arch == other.arch && row.binary.name.as_str() == other.binary.name.as_str()
}

/// The owner of each row.
fn owners_of(
    alloc: Global,
    candidates: &[&Excuse],
    pool: &Pool,
) -> Result<Vec<Option<usize>>, NoMemory> {
    let mut owners = Vec::with_capacity(alloc, pool.len())?;
    for place in 0..pool.len() {
        let row = pool.row(place);
        owners.push(number_of(candidates, row.binary.source.as_str()))?;
    }
    Ok(owners)
}

/// Adds the places below a first one.
fn push_below(places: &mut Vec<usize>, others: &[usize], first: usize) -> Result<(), NoMemory> {
    for place in others {
        if *place < first {
            places.push(*place)?;
        }
    }
    Ok(())
}

impl<'a> Scope<'a> {
    /// Testing's rows, and after them those that the candidates bring.
    pub fn new(
        alloc: Global,
        archs: u32,
        candidates: Vec<&'a Excuse>,
        rows: &[LentRow],
        brought: &[LentRow],
    ) -> Result<Scope<'a>, NoMemory> {
        let pool = Pool::new(alloc);
        let pool = pool.with_rows(alloc, rows)?;
        let pool = pool.with_rows(alloc, brought)?;
        let owners = owners_of(alloc, &candidates, &pool)?;
        Ok(Scope {
            candidates,
            pool,
            first: rows.len(),
            owners,
            archs,
        })
    }

    /// The row at the place.
    pub fn row(&self, place: usize) -> Option<LentRow<'_>> {
        if place < self.pool.len() {
            Some(self.pool.row(place))
        } else {
            None
        }
    }

    /// The number of the candidate whose source the row names.
    pub fn owner(&self, place: usize) -> Option<usize> {
        match self.owners.get(place) {
            Some(owner) => *owner,
            None => None,
        }
    }

    /// The row is brought by a candidate, and its owner's flag is set.
    pub fn is_brought_by(&self, flags: &[bool], place: usize) -> bool {
        place >= self.first && is_set_for(flags, self.owner(place))
    }

    /// The row at the place is on the architecture and meets the clause.
    fn is_provider(&self, arch: u32, clause: &Clause, place: usize) -> bool {
        match self.row(place) {
            Some(row) => is_row_on(arch, &row) && meets(row.binary, clause),
            None => false,
        }
    }

    /// Adds the places whose rows are on the architecture and meet the clause.
    fn push_providers(
        &self,
        providers: &mut Vec<usize>,
        arch: u32,
        clause: &Clause,
        places: &[usize],
    ) -> Result<(), NoMemory> {
        for place in places {
            if self.is_provider(arch, clause, *place) {
                providers.push(*place)?;
            }
        }
        Ok(())
    }

    /// The places of the rows that are on the architecture and meet the clause.
    pub fn providers(
        &self,
        alloc: Global,
        arch: u32,
        clause: &Clause,
    ) -> Result<Vec<usize>, NoMemory> {
        let mut providers = Vec::new(alloc);
        for alternative in clause.as_slice() {
            let places = self.pool.of_name(alternative.name.as_str());
            self.push_providers(&mut providers, arch, clause, places)?;
        }
        Ok(providers)
    }

    /// The row at the other place has this row's key.
    fn is_rival(&self, row: &LentRow, other: usize) -> bool {
        match self.row(other) {
            Some(other) => is_same_key(row, &other),
            None => false,
        }
    }

    /// The places of the rows with this row's key, including its own.
    pub fn rivals(&self, alloc: Global, row: &LentRow) -> Result<Vec<usize>, NoMemory> {
        let mut rivals = Vec::new(alloc);
        for place in self.pool.of_name(row.binary.name.as_str()) {
            if self.is_rival(row, *place) {
                rivals.push(*place)?;
            }
        }
        Ok(rivals)
    }

    /// The flagged candidates that take a row of testing away by a move: its own, and each that brings a row with its
    /// key.
    pub fn takers(
        &self,
        alloc: Global,
        flags: &[bool],
        place: usize,
    ) -> Result<Vec<usize>, NoMemory> {
        let mut takers = Vec::new(alloc);
        if let Some(owner) = self.owner(place) {
            if is_set_for(flags, Some(owner)) {
                takers.push(owner)?;
            }
        }
        if let Some(row) = self.row(place) {
            let rivals = self.rivals(alloc, &row)?;
            self.push_bringers(&mut takers, flags, &rivals)?;
        }
        Ok(takers)
    }

    /// Adds the owners of those brought rows whose flags are set.
    fn push_bringers(
        &self,
        bringers: &mut Vec<usize>,
        flags: &[bool],
        places: &[usize],
    ) -> Result<(), NoMemory> {
        for place in places {
            if self.is_brought_by(flags, *place) {
                if let Some(owner) = self.owner(*place) {
                    bringers.push(owner)?;
                }
            }
        }
        Ok(())
    }

    /// The places of testing's rows of a candidate.
    pub fn own_rows(&self, alloc: Global, number: usize) -> Result<Vec<usize>, NoMemory> {
        let mut places = Vec::new(alloc);
        if let Some(candidate) = self.candidates.get(number) {
            let named = self.pool.of_source(candidate.source.as_str());
            let mut own = Vec::new(alloc);
            for place in named {
                if self.owner(*place) == Some(number) {
                    own.push(*place)?;
                }
            }
            push_below(&mut places, &own, self.first)?;
        }
        Ok(places)
    }

    /// Adds the places of testing's rows of others that have the key of the candidate's row at this place.
    fn push_replaced(
        &self,
        alloc: Global,
        places: &mut Vec<usize>,
        number: usize,
        place: usize,
    ) -> Result<(), NoMemory> {
        if let Some(row) = self.row(place) {
            for rival in &self.rivals(alloc, &row)? {
                if *rival < self.first && self.owner(*rival) != Some(number) {
                    places.push(*rival)?;
                }
            }
        }
        Ok(())
    }

    /// The places of testing's rows that leave once a candidate has moved: its own, and those whose keys its rows take.
    pub fn leaving_rows(&self, alloc: Global, number: usize) -> Result<Vec<usize>, NoMemory> {
        let mut places = self.own_rows(alloc, number)?;
        if let Some(candidate) = self.candidates.get(number) {
            for place in self.pool.of_source(candidate.source.as_str()) {
                if *place >= self.first && self.owner(*place) == Some(number) {
                    self.push_replaced(alloc, &mut places, number, *place)?;
                }
            }
        }
        Ok(places)
    }
}

/// The present rows of an architecture, and which of them work. Flags of rows that aren't on it mean nothing.
#[derive(Drop)]
pub struct ArchRows {
    suite: ArchSuite,
    pub up: Vec<bool>,
}

impl ArchRows {
    /// The rows of an architecture, all absent at first.
    fn new(alloc: Global, arch: u32, pool: &Pool) -> Result<ArchRows, NoMemory> {
        let suite = ArchSuite::new(alloc).with_rows(alloc, arch, pool, 0)?;
        let up = flags_of(alloc, pool.len(), false)?;
        Ok(ArchRows { suite, up })
    }

    /// The places of the rows that stop working once those at some places have left; the rows are unchanged.
    pub fn lost_without(
        &mut self,
        alloc: Global,
        leaving: &[usize],
    ) -> Result<SmallVec<usize, 4>, NoMemory> {
        self.suite.trial(alloc, leaving, &[])
    }

    /// The rows at some places come. Returns those that don't work.
    pub fn add(&mut self, alloc: Global, coming: &[usize]) -> Result<SmallVec<usize, 4>, NoMemory> {
        let lost = self.suite.trial(alloc, &[], coming)?;
        self.suite.change(alloc, &[], coming)?;
        set_all(&mut self.up, coming, true);
        set_all(&mut self.up, &lost, false);
        Ok(lost)
    }

    /// The rows at some places leave. Returns those that stop working.
    pub fn remove(
        &mut self,
        alloc: Global,
        leaving: &[usize],
    ) -> Result<SmallVec<usize, 4>, NoMemory> {
        let lost = self.suite.trial(alloc, leaving, &[])?;
        self.suite.change(alloc, leaving, &[])?;
        set_all(&mut self.up, leaving, false);
        set_all(&mut self.up, &lost, false);
        Ok(lost)
    }
}

/// The first places, from one on.
fn places_between(alloc: Global, from: usize, to: usize) -> Result<Vec<usize>, NoMemory> {
    let mut places = Vec::new(alloc);
    for place in from..to {
        places.push(place)?;
    }
    Ok(places)
}

/// The rows of each architecture, with those of testing present.
pub fn arch_rows(alloc: Global, scope: &Scope) -> Result<Vec<ArchRows>, NoMemory> {
    let standing = places_between(alloc, 0, scope.first)?;
    let mut all = Vec::new(alloc);
    for arch in 0..scope.archs {
        let mut rows = ArchRows::new(alloc, arch, &scope.pool)?;
        rows.add(alloc, &standing)?;
        all.push(rows)?;
    }
    Ok(all)
}

/// The places of the rows that candidates bring.
pub fn brought_places(alloc: Global, scope: &Scope) -> Result<Vec<usize>, NoMemory> {
    places_between(alloc, scope.first, scope.pool.len())
}
