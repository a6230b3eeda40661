//! Testing's sources during a run. They are in slots by name, one for each source of testing or unstable, so that a
//! move changes a slot and shifts none. Unmoved ones are borrowed: a run copies each source once, when it ends.

ghost use Rattle.std.specs.Prelude.{◌≡◌, ◌<◌, [], length, not, filter, find, option_map, option_copied, OnOk, OnErr, IfOk};
ghost use Rattle.std.specs.List.Sorted.{IsBinarySearchResult, IsSearchInRange};
ghost use Rattle.std.specs.Str.{bytes_eq};
ghost use Rattle.testing_rules_suites.specs.steps.AfterMoves.{sources_after};
ghost use Rattle.testing_rules_model.specs.Boxed.{unboxed};
ghost use Rattle.testing_rules_model.specs.FactOrder.{AreBySource};
ghost use Rattle.testing_rules_model.specs.InOrder.{AreByName};
ghost use Rattle.testing_rules_live.specs.steps.LiveSources.{name_of, source_of, sources_of, AreSlots, put_slot};
ghost use Rattle.testing_rules_items.specs.Words.{byte_cmp};

use deb_control::Text;
use deb_version::{NoMemory, Version};
use std::alloc::Global;
use std::cmp::Ordering;
use std::marker::Model;
use testing_rules_facts::{as_source, source_near};
use testing_rules_items::{next_place, search_near};
use testing_rules_model::{SourceIn, UploadIn};

/// A source during a run: it isn't in testing, it is as before (borrowed), or a move has put it.
#[derive(Drop)]
enum Slot<'u, 'a> {
    Absent(&'u UploadIn),
    Stays(&'a SourceIn),
    Moved(Box<SourceIn>),
}

impl Slot<'_, '_> {
    /// The source's name.
    fn name(&self) -> &str
        ensures { result.now ≡ name_of self.now }
    {
        match self {
            Slot::Absent(upload) => upload.source.as_str(),
            Slot::Stays(source) => source.name.as_str(),
            Slot::Moved(source) => source.name.as_str(),
        }
    }

    /// The source, if testing has it.
    fn source(&self) -> Option<&SourceIn>
        ensures { option_copied result ≡ source_of self.now }
    {
        match self {
            Slot::Absent(_) => None,
            Slot::Stays(source) => Some(source),
            Slot::Moved(source) => Some(source),
        }
    }
}

/// The place of the name among the slots, or where it belongs.
fn place_of_name(slots: &[Slot], name: &str) -> Result<usize, usize>
    ensures bound { IsSearchInRange result (length slots.now) }
    ensures found { IsBinarySearchResult (λ s. byte_cmp (name_of s) name.now) slots.now result }
{
    slots.binary_search_by(
        |slot: &Slot| -> Ordering
            ensures { result ≡ byte_cmp (name_of slot.now) name.entry.now }
        { slot.name().cmp(name) },
    )
}

/// The place of the name among the slots, or where it belongs. The guessed place is tried first, then the next one.
fn place_near(slots: &[Slot], name: &str, guess: usize) -> Result<usize, usize>
    ensures bound { IsSearchInRange result (length slots.now) }
    ensures found { IsBinarySearchResult (λ s. byte_cmp (name_of s) name.now) slots.now result }
{
    search_near(
        slots,
        guess,
        |slot: &Slot| -> Ordering
            ensures { result ≡ byte_cmp (name_of slot.now) name.entry.now }
        { slot.name().cmp(name) },
    )
}

/// Puts a slot at its name, and returns its place. The guessed one is tried first.
fn put_slot<'u, 'a>(
    slots: &mut Vec<Slot<'u, 'a>>,
    slot: Slot<'u, 'a>,
    guess: usize,
) -> Result<usize, NoMemory>
    requires { AreSlots slots.old.items }
    ensures ok { OnOk result (slots.new.items ≡ put_slot slot.entry slots.old.items) }
    ensures place { IfOk result (λ place. place < length slots.new.items) }
    ensures err { OnErr result (slots.new.items ≡ slots.old.items) }
    ensures ordered { AreSlots slots.new.items }
{
    match place_near(slots, slot.name(), guess) {
        Ok(place) => {
            slots[place] = slot;
            Ok(place)
        }
        Err(place) => {
            slots.insert(place, slot)?;
            Ok(place)
        }
    }
}

/// A slot for each of unstable's sources, as if none were in testing.
fn absent_sources<'u, 'a>(
    alloc: Global,
    unstable: &'u [Box<UploadIn>],
) -> Result<Vec<Slot<'u, 'a>>, NoMemory>
    requires { AreBySource (unboxed unstable.now) }
    ensures none { IfOk result (λ slots. sources_of slots.items ≡ []) }
    ensures ordered { IfOk result (λ slots. AreSlots slots.items) }
{
    let mut slots = Vec::with_capacity(alloc, unstable.len())?;
    for upload in unstable {
        slots.push(Slot::Absent(upload))?;
    }
    Ok(slots)
}

/// Borrows testing's sources in their slots.
fn lend_sources<'u, 'a>(
    slots: &mut Vec<Slot<'u, 'a>>,
    testing: &'a [SourceIn],
) -> Result<(), NoMemory>
    requires none { sources_of slots.old.items ≡ [] }
    requires slots { AreSlots slots.old.items }
    requires order { AreByName testing.now }
    ensures ok { OnOk result (sources_of slots.new.items ≡ testing.now) }
    ensures ordered { AreSlots slots.new.items }
{
    let mut guess = 0;
    for source in testing {
        guess = put_slot(slots, Slot::Stays(source), guess)? + 1;
    }
    Ok(())
}

/// Gives the sources of a group their unstable versions. The guessed place is tried first, among unstable's sources and
/// among the slots: usually these are the same sources.
fn move_sources<'u, 'a>(
    alloc: Global,
    slots: &mut Vec<Slot<'u, 'a>>,
    unstable: &[Box<UploadIn>],
    near: usize,
    group: &[Text],
) -> Result<(), NoMemory>
    requires unstable { AreBySource (unboxed unstable.now) }
    requires slots { AreSlots slots.old.items }
    ensures ok { OnOk result (sources_of slots.new.items ≡ sources_after (unboxed unstable.now) group.now (sources_of slots.old.items)) }
    ensures ordered { AreSlots slots.new.items }
{
    let mut guess = near;
    for name in group {
        if let Some(upload) = source_near(unstable, name.as_str(), guess) {
            let source = Box::new(alloc, as_source(alloc, upload)?)?;
            guess = put_slot(slots, Slot::Moved(source), guess)? + 1;
        }
    }
    Ok(())
}

/// Takes out the slot of a name.
fn take_slot(slots: &mut Vec<Slot>, name: &str)
    requires { AreSlots slots.old.items }
    ensures slots { slots.new.items ≡ filter (λ s. not (bytes_eq (name_of s) name.now)) slots.old.items }
    ensures ordered { AreSlots slots.new.items }
{
    if let Ok(place) = place_of_name(slots, name) {
        slots.remove(place);
    }
}

/// The version of the source of a name, from the place where the name was found among the slots, or belongs.
fn version_found<'s>(
    slots: &'s [Slot],
    name: &str,
    place: Result<usize, usize>,
) -> Option<&'s Version>
    requires slots { AreSlots slots.now }
    requires bound { IsSearchInRange place (length slots.now) }
    requires found { IsBinarySearchResult (λ s. byte_cmp (name_of s) name.now) slots.now place }
    ensures { option_copied result ≡ option_map (λ s. s.version) (find (λ s. bytes_eq s.name name.now) (sources_of slots.now)) }
{
    match place {
        Ok(place) => {
            let source = slots[place].source()?;
            Some(&source.version)
        }
        Err(_) => None,
    }
}

/// Copies of testing's sources.
fn copy_sources(alloc: Global, slots: &[Slot]) -> Result<Vec<SourceIn>, NoMemory>
    ensures { IfOk result (λ sources. sources.items ≡ sources_of slots.now) }
{
    let mut sources = Vec::with_capacity(alloc, slots.len())?;
    for slot in slots {
        if let Some(source) = slot.source() {
            sources.push(source.copy(alloc)?)?;
        }
    }
    Ok(sources)
}

/// Testing's sources during a run, by name.
#[derive(Drop)]
pub struct LiveSources<'u, 'a> {
    slots: Vec<Slot<'u, 'a>>,
}

impl<'u, 'a> Model for LiveSources<'u, 'a> {
    ghost use Rattle.std.specs.Prelude.{List};
    ghost use Rattle.testing_rules_live.specs.steps.LiveSources.{sources_of, AreSlots};
    ghost use Rattle.testing_rules_model.specs.declared.suite.SourceIn.{SourceIn};

    ghost Value = { List SourceIn };

    ghost view = { λ a. sources_of a.slots.items };

    ghost invariant = { λ a. AreSlots a.slots.items };
}

impl<'u, 'a> LiveSources<'u, 'a> {
    /// Testing's sources before the run, with unstable's, which may come.
    pub fn new(
        alloc: Global,
        unstable: &'u [Box<UploadIn>],
        testing: &'a [SourceIn],
    ) -> Result<LiveSources<'u, 'a>, NoMemory>
        requires unstable { AreBySource (unboxed unstable.now) }
        requires testing { AreByName testing.now }
        ensures { IfOk result (λ sources. sources ≡ testing.now) }
    {
        let mut slots = absent_sources(alloc, unstable)?;
        lend_sources(&mut slots, testing)?;
        Ok(LiveSources { slots })
    }

    /// The version of the source of a name.
    pub fn version_of(&self, name: &str) -> Option<&Version>
        ensures { option_copied result ≡ option_map (λ s. s.version) (find (λ s. bytes_eq s.name name.now) self.now) }
    {
        let slots = self.slots.as_slice();
        version_found(slots, name, place_of_name(slots, name))
    }

    /// The version of the source of a name, and the place to try for the next name. The guessed place is tried first.
    pub fn version_near(&self, name: &str, guess: usize) -> (Option<&Version>, usize)
        ensures { option_copied result.0 ≡ option_map (λ s. s.version) (find (λ s. bytes_eq s.name name.now) self.now) }
    {
        let slots = self.slots.as_slice();
        let place = place_near(slots, name, guess);
        let version = version_found(slots, name, place);
        (version, next_place(place))
    }

    /// Gives the sources of a group their unstable versions. The guessed place is tried first.
    pub fn move_group(
        &mut self,
        alloc: Global,
        unstable: &[Box<UploadIn>],
        near: usize,
        group: &[Text],
    ) -> Result<(), NoMemory>
        requires { AreBySource (unboxed unstable.now) }
        ensures ok { OnOk result (self.new ≡ sources_after (unboxed unstable.now) group.now self.old) }
        ensures ordered { AreByName self.new }
    {
        move_sources(alloc, &mut self.slots, unstable, near, group)
    }

    /// Takes out the source of a name.
    pub fn remove(&mut self, name: &str)
        ensures sources { self.new ≡ filter (λ x. not (bytes_eq x.name name.now)) self.old }
        ensures ordered { AreByName self.new }
    {
        take_slot(&mut self.slots, name);
    }

    /// Copies of the sources.
    pub fn copies(&self, alloc: Global) -> Result<Vec<SourceIn>, NoMemory>
        ensures { IfOk result (λ sources. sources.items ≡ self.now) }
    {
        copy_sources(alloc, &self.slots)
    }
}
