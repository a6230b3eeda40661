//! Groups asked by easy hints.

ghost use Rattle.std.specs.Prelude.{◌≡◌, true, false, length, ◌∷◌, [], ◌++◌, ◌&&◌, not, IfOk, OnOk, option_copied, map, filter, find};
ghost use Rattle.std.specs.List.Sorted.{IsSearchInRange};
ghost use Rattle.std.specs.Option.{option_map_or};
ghost use Rattle.std.specs.Str.{bytes_eq};
ghost use Rattle.testing_rules_model.specs.Boxed.{unboxed};
ghost use Rattle.testing_rules_model.specs.FactOrder.{AreBySource};
ghost use Rattle.testing_rules_items.specs.Words as words;
ghost use Rattle.testing_rules_items.specs.Words.{byte_cmp};
ghost use Rattle.testing_rules_model.specs.Moves.{group_sources};
ghost use Rattle.testing_rules_model.specs.Unstable as unstable_words;
ghost use Rattle.testing_rules_model.specs.Updates as rules;
ghost use Rattle.testing_rules_moves.specs.steps.Runs.{go_on};
ghost use Rattle.testing_rules_model.specs.Updates.{in_turn};
ghost use Rattle.testing_rules_moves.specs.steps.LentItems.{items_of};
ghost use Rattle.testing_rules_model.specs.steps.LentItems.{as_moved};

use crate::live::LiveTesting;
use crate::turns::Turns;
use deb_control::Text;
use deb_version::{NoMemory, Version};
use std::alloc::Global;
use std::cmp::Ordering;
use testing_rules_facts::{Unhints, is_in_force, is_same_version, source_in};
use testing_rules_items::{Hint, HintItem};
use testing_rules_model::{Decision, Excuse, HintIn, Moved, MovedItems, UploadIn};

/// No reason keeps the source out.
pub fn has_no_reason(excuse: &Excuse) -> bool
    ensures { result ≡ words.is_empty excuse.now.reasons }
{
    excuse.reasons.as_slice().is_empty()
}

/// The excuse is the source's, and makes it a candidate at the version.
fn allows(excuse: &Excuse, name: &str, version: &Version) -> bool
    ensures { result ≡ (bytes_eq excuse.now.source name.now && words.is_empty excuse.now.reasons && words.is_same_version excuse.now.unstable version.now) }
{
    excuse.source.as_str() == name
        && has_no_reason(excuse)
        && is_same_version(&excuse.unstable, version)
}

/// The place of the name among the excuses, if they are in order.
fn place_of_name(excuses: &[Excuse], name: &str) -> Result<usize, usize>
    ensures { IsSearchInRange result (length excuses.now) }
{
    excuses.binary_search_by(
        |excuse: &Excuse| -> Ordering
            ensures { result ≡ byte_cmp excuse.now.source name.entry.now }
        { excuse.source.as_str().cmp(name) },
    )
}

/// The excuse of the name, found by binary search, makes its source a candidate at the version.
fn is_found(excuses: &[Excuse], name: &str, version: &Version) -> bool
    ensures { result ≡ true → rules.is_candidate excuses.now name.now version.now ≡ true }
{
    match place_of_name(excuses, name) {
        Ok(place) => allows(&excuses[place], name, version),
        Err(_) => false,
    }
}

/// Some excuse makes the source a candidate at the version.
fn is_among(excuses: &[Excuse], name: &str, version: &Version) -> bool
    ensures { result ≡ rules.is_candidate excuses.now name.now version.now }
{
    for excuse in excuses {
        if allows(excuse, name, version) {
            return true;
        }
    }
    false
}

/// The source is a candidate at the version. All excuses are read only if a binary search doesn't find this.
pub fn is_candidate(excuses: &[Excuse], name: &str, version: &Version) -> bool
    ensures { result ≡ rules.is_candidate excuses.now name.now version.now }
{
    is_found(excuses, name, version) || is_among(excuses, name, version)
}

/// What testing has of a source, if anything, is the version.
pub fn is_version(there: Option<&Version>, version: &Version) -> bool
    ensures { result ≡ option_map_or (words.is_same_version version.now) (option_copied there.entry) false }
{
    match there {
        Some(there) => is_same_version(version, there),
        None => false,
    }
}

/// Testing has the source at the version.
pub fn is_in_testing(testing: &LiveTesting, name: &str, version: &Version) -> bool
    ensures { result ≡ rules.is_in_testing testing.now.suite name.now version.now }
{
    is_version(testing.version_of(name), version)
}

/// The items that aren't in testing yet.
fn items_left<'a>(
    alloc: Global,
    testing: &LiveTesting,
    items: &'a [HintItem],
) -> Result<Vec<&'a HintItem>, NoMemory>
    ensures { IfOk result (λ left. items_of left.items ≡ filter (λ i. not (rules.is_in_testing testing.now.suite i.name i.version)) items.now) }
{
    let mut left = Vec::new(alloc);
    for item in items {
        if !is_in_testing(testing, item.name.as_str(), &item.version) {
            left.push(item)?;
        }
    }
    Ok(left)
}

/// The first item that isn't a candidate.
fn first_other<'a>(excuses: &[Excuse], items: &[&'a HintItem]) -> Option<&'a HintItem>
    ensures { option_copied result ≡ find (λ j. not (rules.is_candidate excuses.now j.name j.version)) (items_of items.now) }
{
    for item in items {
        if !is_candidate(excuses, item.name.as_str(), &item.version) {
            return Some(*item);
        }
    }
    None
}

/// The names of the items.
fn names_of(alloc: Global, items: &[&HintItem]) -> Result<Vec<Text>, NoMemory>
    ensures { IfOk result (λ names. names.items ≡ map (λ j. j.name) (items_of items.now)) }
{
    let mut names = Vec::new(alloc);
    for item in items {
        names.push(item.name.copy(alloc)?)?;
    }
    Ok(names)
}

/// A source as it moved.
fn as_moved(alloc: Global, upload: &UploadIn) -> Result<Moved, NoMemory>
    ensures { IfOk result (λ m. m ≡ as_moved upload.now) }
{
    let name = upload.source.copy(alloc)?;
    let version = upload.version.copy(alloc)?;
    Ok(Moved { name, version })
}

fn push_moved(alloc: Global, items: &mut Vec<Moved>, upload: &UploadIn) -> Result<(), NoMemory>
    ensures { OnOk result (items.new.items ≡ items.old.items ++ as_moved upload.now ∷ []) }
{
    items.push(as_moved(alloc, upload)?)?;
    Ok(())
}

/// The sources of a group as they moved.
fn moved_items(
    alloc: Global,
    sources: &[Box<UploadIn>],
    group: &[Text],
) -> Result<Vec<Moved>, NoMemory>
    requires { AreBySource (unboxed sources.now) }
    ensures { IfOk result (λ items. items.items ≡ map as_moved (group_sources (unboxed sources.now) group.now)) }
{
    let mut items = Vec::new(alloc);
    for name in group {
        if let Some(upload) = source_in(sources, name.as_str()) {
            push_moved(alloc, &mut items, upload)?;
        }
    }
    Ok(items)
}

impl<'u, 'a> Turns<'u, 'a> {
    /// Moves a group as one, if nothing breaks.
    fn move_as_one(&mut self, alloc: Global, hint: u32, group: &[Text]) -> Result<(), NoMemory>
        ensures { OnOk result (self.new ≡ go_on self.old (λ b. rules.move_as_one b.archs b.sources b.rows hint group.now)) }
    {
        // No candidate was tried alone so far.
        let mut refused = self.testing.no_refusals(alloc, 0)?;
        match self.testing.move_unless_broken(alloc, group, &mut refused)? {
            None => {
                let sources = self.testing.unstable_sources();
                let items = MovedItems::of(moved_items(alloc, sources, group)?);
                self.add_decision(Decision::EasyDone { hint, items })
            }
            Some(offender) => self.add_decision(Decision::EasyRefused { hint, offender }),
        }
    }

    /// Moves a group if its items are candidates.
    fn move_items(
        &mut self,
        alloc: Global,
        excuses: &[Excuse],
        hint: u32,
        items: &[&HintItem],
    ) -> Result<(), NoMemory>
        ensures { OnOk result (self.new ≡ go_on self.old (λ b. rules.move_items b.archs b.sources b.rows excuses.now hint (items_of items.now))) }
    {
        if items.is_empty() {
            return Ok(());
        }
        if let Some(item) = first_other(excuses, items) {
            let name = item.name.copy(alloc)?;
            let version = item.version.copy(alloc)?;
            return self.add_decision(Decision::EasyNotCandidate {
                hint,
                name,
                version,
            });
        }
        let group = names_of(alloc, items)?;
        self.move_as_one(alloc, hint, &group)
    }

    /// Moves the group of a hint, if it asks for one.
    fn move_easy(
        &mut self,
        alloc: Global,
        excuses: &[Excuse],
        hint: &HintIn,
    ) -> Result<(), NoMemory>
        ensures { OnOk result (self.new ≡ go_on self.old (λ b. rules.move_easy b.archs b.sources b.rows excuses.now hint.now)) }
    {
        match &hint.hint {
            Hint::Easy(items) => {
                let left = items_left(alloc, &self.testing, items.as_slice())?;
                self.move_items(alloc, excuses, hint.number, &left)
            }
            Hint::Block(_)
            | Hint::Unblock(_)
            | Hint::AgeDays(_, _)
            | Hint::Remove(_)
            | Hint::BlockAll => Ok(()),
        }
    }

    /// Moves the groups asked by the hints in force.
    pub fn groups(
        &mut self,
        alloc: Global,
        excuses: &[Excuse],
        hints: &[HintIn],
        unhints: &Unhints,
    ) -> Result<(), NoMemory>
        ensures { OnOk result (self.new ≡ go_on self.old (λ b. in_turn (rules.move_easy b.archs b.sources b.rows excuses.now) (filter (unstable_words.is_in_force unhints.now) hints.now))) }
    {
        for hint in hints {
            if is_in_force(unhints, hint) {
                self.move_easy(alloc, excuses, hint)?;
            }
        }
        Ok(())
    }
}
