//! Candidates refused for a clause that no row met. They aren't tried again until a row comes that provides a name in
//! the clause.

ghost use Rattle.std.specs.Prelude.{◌≡◌, true, false, [], OnOk, IfOk, replicate, slice_set};
ghost use Rattle.testing_install.specs.Among.{with_all};
ghost use Rattle.testing_install.specs.Closed.{marked};
ghost use Rattle.testing_install.specs.Index.{places_at};
ghost use Rattle.testing_install.specs.Dependents.{IsNotedAt, names};
ghost use Rattle.testing_rules_moves.specs.steps.LentItems.{lent_excuses};
ghost use Rattle.testing_rules_moves.specs.steps.Refusals.{excuses_of, AreNumbered, woken_by};

use deb_control::{Binary, Clause};
use deb_version::NoMemory;
use std::alloc::Global;
use std::slice;
use testing_install::{NameIndex, note_clause};
use testing_rules_facts::place_of_group;
use testing_rules_model::{Excuse, UploadIn};

/// A candidate with its number among those of a run. `near` is a guess for its source's place among unstable's.
#[derive(Clone, Copy)]
pub struct Numbered<'a> {
    pub number: usize,
    pub excuse: &'a Excuse,
    pub near: usize,
}

/// Whether each candidate, by its number, was refused for a clause that no row has met since; and, at each name in such
/// a clause, the numbers of these candidates. Whether one was refused since a row last came in is a hint: then the next
/// candidate usually has an unmet clause too.
#[derive(Drop)]
pub struct Refusals {
    pub flags: Vec<bool>,
    pub noted: NameIndex,
    pub expects_lack: bool,
}

/// The candidates with their numbers, ordered by name like unstable's sources.
pub fn with_numbers<'a>(
    alloc: Global,
    candidates: &[&'a Excuse],
    sources: &[Box<UploadIn>],
) -> Result<Vec<Numbered<'a>>, NoMemory>
    ensures excuses { IfOk result (λ circle. excuses_of circle.items ≡ lent_excuses candidates.now) }
    ensures numbers { IfOk result (λ circle. AreNumbered (lent_excuses candidates.now) circle.items) }
{
    let mut circle = Vec::with_capacity(alloc, candidates.len())?;
    let mut near = 0;
    for number in 0..candidates.len() {
        let excuse = candidates[number];
        near = place_of_group(sources, slice::from_ref(&excuse.source), near);
        circle.push(Numbered {
            number,
            excuse,
            near,
        })?;
    }
    Ok(circle)
}

/// None of this many candidates was refused.
pub fn no_refusals(alloc: Global, count: usize) -> Result<Refusals, NoMemory>
    ensures { IfOk result (λ refusals. refusals.flags.items ≡ replicate count false) }
{
    let flags = vec![in alloc; false; count]?;
    Ok(Refusals {
        flags,
        noted: NameIndex::new(alloc),
        expects_lack: false,
    })
}

/// Sets the flag at the place, if there is one.
fn set_flag(flags: &mut Vec<bool>, place: usize, flag: bool)
    ensures { flags.new.items ≡ slice_set flags.old.items place flag }
{
    if place < flags.len() {
        flags[place] = flag;
    }
}

/// Clears the flags at the places.
fn clear_flags(flags: &mut Vec<bool>, places: &[usize])
    ensures { flags.new.items ≡ with_all false places.now flags.old.items }
{
    for place in places {
        set_flag(flags, *place, false);
    }
}

/// Clears the flags that are noted at the name.
fn wake_at(flags: &mut Vec<bool>, noted: &NameIndex, name: &str)
    ensures { flags.new.items ≡ with_all false (places_at noted.now name.now) flags.old.items }
{
    clear_flags(flags, noted.places(name));
}

/// Clears the flags noted at a name that the package provides.
fn wake_by(flags: &mut Vec<bool>, noted: &NameIndex, binary: &Binary)
    ensures { flags.new.items ≡ woken_by noted.now binary.now flags.old.items }
{
    wake_at(flags, noted, binary.name.as_str());
    for provision in binary.provides.as_slice() {
        wake_at(flags, noted, provision.name.as_str());
    }
}

impl Refusals {
    /// The candidate was refused and needs no trial.
    pub fn has(&self, number: usize) -> bool
        ensures { result ≡ marked self.now.flags.items number }
    {
        number < self.flags.len() && self.flags[number]
    }

    /// The candidate was refused for the clause.
    pub fn remember(
        &mut self,
        alloc: Global,
        number: usize,
        clause: &Clause,
    ) -> Result<(), NoMemory>
        ensures flags { OnOk result (self.new.flags.items ≡ slice_set self.old.flags.items number true) }
        ensures noted { OnOk result (IsNotedAt (names clause.now) self.old.noted self.new.noted number) }
        ensures expects { OnOk result (self.new.expects_lack ≡ true) }
    {
        note_clause(alloc, &mut self.noted, clause, number)?;
        set_flag(&mut self.flags, number, true);
        self.expects_lack = true;
        Ok(())
    }

    /// A row of the package came in: the candidates refused for a clause with one of its names are to be tried again.
    pub fn wake(&mut self, binary: &Binary)
        ensures flags { self.new.flags.items ≡ woken_by self.old.noted binary.now self.old.flags.items }
        ensures noted { self.new.noted ≡ self.old.noted }
        ensures expects { self.new.expects_lack ≡ false }
    {
        wake_by(&mut self.flags, &self.noted, binary);
        self.expects_lack = false;
    }

    /// All candidates are to be tried again, and none is remembered.
    pub fn forget(&mut self)
        ensures flags { self.new.flags.items ≡ [] }
        ensures noted { self.new.noted ≡ self.old.noted }
    {
        self.flags.clear();
    }
}
