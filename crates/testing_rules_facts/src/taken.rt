//! One more message, in the lists of facts.

ghost use Rattle.std.specs.Prelude.{◌≡◌, ◌<◌, ◌≤◌, ◌+◌, None, filter, length, map, not, option_to_list, vec_len, vec_capacity};
ghost use Rattle.std.specs.Ordering.{nat_cmp};
ghost use Rattle.std.specs.List.{HoldsAt};
ghost use Rattle.std.specs.List.Sorted.{IsBinarySearchResult, IsSearchInRange};
ghost use Rattle.std.specs.declared.cmp.Ordering.TheVariants.{Greater};
ghost use Rattle.testing_rules_model.specs.Boxed.{unboxed};
ghost use Rattle.testing_rules_model.specs.FactOrder.{AreBySource, AreByPair};
ghost use Rattle.testing_rules_model.specs.steps.FactOrder.{AreDropsByPair, AreByNumber};
ghost use Rattle.testing_rules_model.specs.Unstable as unstable;
ghost use Rattle.testing_rules_model.specs.Unstable.{pair_order, pair_of, drop_pair, hint_order, unhint_order};
ghost use Rattle.testing_rules_facts.specs.steps.HintOrder.{AreHintsByNumber, AreUnhintsByNumber};
ghost use Rattle.testing_rules_facts.specs.steps.ElementShifts.{come_in, IsShift};
ghost use Rattle.testing_rules_facts.specs.steps.Slots.{IsSlotFor, IsSlotIn, IsStep, slotted};
ghost use Rattle.testing_rules_fact_order.specs.Uploads.{message_order, AreByMessage, first_stays, with_kept};
ghost use Rattle.testing_rules_model.specs.FactRows as fact_rows;
ghost use Rattle.testing_rules_model.specs.steps.FactRows as fact_rows_steps;
ghost use Rattle.testing_rules_model.specs.WithMessage as taken;
ghost use Rattle.testing_rules_model.specs.steps.WithMessage as taken_steps;
ghost use Rattle.testing_rules_items.specs.Words.{byte_cmp};

use deb_control::Binary;
use std::cmp::Ordering;
use testing_rules_fact_order::{
    Shifted, bug_order, bug_row, build_order, build_row, drop_order, drop_row, hint_order,
    outlives, place_of_kept, source_row, unhint_order, upload_order, upload_row,
};
use testing_rules_model::{BugIn, BuildIn, DropIn, FactRow, HintIn, UnhintIn, UploadIn};

/// The number of rows tried from a guess on, before all are searched.
const TRIES: usize = 4;

/// Where a list takes an element: in place of the one at a place, before it, or nowhere.
#[derive(Clone, Copy)]
pub enum Slot {
    Over(usize),
    Before(usize),
    Nowhere,
}

/// The slot of an element in a list, and its effect on the rows of the facts.
#[derive(Clone, Copy)]
pub struct Placement {
    pub slot: Slot,
    pub shifted: Shifted,
}

/// The list and the rows are unchanged.
fn no_step() -> Placement
    ensures slot { result.slot ≡ Slot.Nowhere }
    ensures left { result.shifted.left ≡ None }
    ensures came { result.shifted.came ≡ None }
{
    Placement {
        slot: Slot::Nowhere,
        shifted: Shifted {
            left: None,
            came: None,
        },
    }
}

/// Puts an element in a list at its slot. There is room for it.
fn put_at<T: Drop>(list: &mut Vec<T>, slot: Slot, element: T)
    requires slot { IsSlotIn list.old.items slot }
    requires room { vec_len list.old < vec_capacity list.old }
    ensures items { list.new.items ≡ slotted list.old.items element slot }
    ensures len { vec_len list.new ≤ vec_len list.old + 1 }
    ensures capacity { vec_capacity list.old ≤ vec_capacity list.new }
{
    match slot {
        Slot::Over(i) => list[i] = element,
        Slot::Before(i) => {
            let _ = list.insert(i, element);
        }
        Slot::Nowhere => {}
    }
}

/// The place of the name among the sources, or where it belongs.
pub fn place_of_upload(sources: &[Box<UploadIn>], name: &str) -> Result<usize, usize>
    ensures bound { IsSearchInRange result (length (unboxed sources.now)) }
    ensures found { IsBinarySearchResult (λ u. byte_cmp u.source name.now) (unboxed sources.now) result }
{
    sources.binary_search_by(
        |upload: &Box<UploadIn>| -> Ordering
            ensures { result ≡ byte_cmp upload.now.value.source name.entry.now }
        { upload.source.as_str().cmp(name) },
    )
}

/// The upload's slot among the sources, and its effect on the rows.
fn step_of_upload(sources: &[Box<UploadIn>], upload: &UploadIn) -> Placement
    requires { AreBySource (unboxed sources.now) }
    ensures { IsStep (λ u. u.source) byte_cmp unstable.upload_order fact_rows_steps.source_row upload.now (unboxed sources.now) result }
{
    let came = Some(source_row(upload));
    match place_of_upload(sources, upload.source.as_str()) {
        Ok(i) => {
            let other: &UploadIn = &sources[i];
            if upload_order(other, upload).is_lt() {
                return no_step();
            }
            let left = Some(source_row(other));
            Placement {
                slot: Slot::Over(i),
                shifted: Shifted { left, came },
            }
        }
        Err(i) => Placement {
            slot: Slot::Before(i),
            shifted: Shifted { left: None, came },
        },
    }
}

/// Adds an upload to unstable's sources, if its source has no earlier one, and returns the effect on the rows. There is
/// room for it.
pub fn put_upload(sources: &mut Vec<Box<UploadIn>>, upload: Box<UploadIn>) -> Shifted
    requires order { AreBySource (unboxed sources.old.items) }
    requires room { vec_len sources.old < vec_capacity sources.old }
    ensures items { unboxed sources.new.items ≡ taken.with_upload upload.value (unboxed sources.old.items) }
    ensures shift { IsShift (λ u. u.source) byte_cmp unstable.upload_order fact_rows_steps.source_row upload.value (unboxed sources.old.items) result }
{
    let step = step_of_upload(sources, &upload);
    put_at(sources, step.slot, upload);
    step.shifted
}

/// Adds an upload to the uploads and returns its row, unless it is already there. There is room for it.
pub fn put_kept(uploads: &mut Vec<UploadIn>, upload: UploadIn) -> Option<FactRow>
    requires order { AreByMessage uploads.old.items }
    requires room { vec_len uploads.old < vec_capacity uploads.old }
    ensures items { uploads.new.items ≡ with_kept upload uploads.old.items }
    ensures came { option_to_list result ≡ map fact_rows.upload_row (come_in (λ u. u) message_order first_stays upload uploads.old.items) }
    ensures len { vec_len uploads.new ≤ vec_len uploads.old + 1 }
{
    match place_of_kept(uploads, &upload) {
        Ok(_place) => None,
        Err(place) => {
            let row = upload_row(&upload);
            let _ = uploads.insert(place, upload);
            Some(row)
        }
    }
}

/// How a drop's architecture and name compare with these.
fn order_drop(drop: &DropIn, arch: &str, name: &str) -> Ordering
    ensures { result ≡ pair_order (drop_pair drop.now) (arch.now, name.now) }
{
    match drop.arch.as_str().cmp(arch) {
        Ordering::Equal => drop.name.as_str().cmp(name),
        other => other,
    }
}

/// The place of the architecture and the name among the drops, or where these belong.
pub fn place_of_drop(drops: &[Box<DropIn>], arch: &str, name: &str) -> Result<usize, usize>
    ensures bound { IsSearchInRange result (length (unboxed drops.now)) }
    ensures found { IsBinarySearchResult (λ d. pair_order (drop_pair d) (arch.now, name.now)) (unboxed drops.now) result }
{
    drops.binary_search_by(
        |drop: &Box<DropIn>| -> Ordering
            ensures { result ≡ pair_order (drop_pair drop.now.value) (arch.entry.now, name.entry.now) }
        { order_drop(drop, arch, name) },
    )
}

/// The drop's slot among the drops, and its effect on the rows.
fn step_of_drop(drops: &[Box<DropIn>], drop: &DropIn) -> Placement
    requires { AreDropsByPair (unboxed drops.now) }
    ensures { IsStep unstable.drop_pair unstable.pair_order unstable.drop_order fact_rows_steps.drop_row drop.now (unboxed drops.now) result }
{
    let came = Some(drop_row(drop));
    match place_of_drop(drops, drop.arch.as_str(), drop.name.as_str()) {
        Ok(i) => {
            let other: &DropIn = &drops[i];
            if drop_order(other, drop).is_lt() {
                return no_step();
            }
            let left = Some(drop_row(other));
            Placement {
                slot: Slot::Over(i),
                shifted: Shifted { left, came },
            }
        }
        Err(i) => Placement {
            slot: Slot::Before(i),
            shifted: Shifted { left: None, came },
        },
    }
}

/// Adds a drop to the greatest ones, if its architecture and name have no earlier one, and returns the effect on the
/// rows. There is room for it.
pub fn put_drop(drops: &mut Vec<Box<DropIn>>, drop: Box<DropIn>) -> Shifted
    requires order { AreDropsByPair (unboxed drops.old.items) }
    requires room { vec_len drops.old < vec_capacity drops.old }
    ensures items { unboxed drops.new.items ≡ taken.with_greatest drop.value (unboxed drops.old.items) }
    ensures shift { IsShift unstable.drop_pair unstable.pair_order unstable.drop_order fact_rows_steps.drop_row drop.value (unboxed drops.old.items) result }
{
    let step = step_of_drop(drops, &drop);
    put_at(drops, step.slot, drop);
    step.shifted
}

/// The place of the number among the bugs, or where it belongs.
pub fn place_of_bug(bugs: &[Box<BugIn>], bug: u32) -> Result<usize, usize>
    ensures bound { IsSearchInRange result (length (unboxed bugs.now)) }
    ensures found { IsBinarySearchResult (λ b. nat_cmp b.bug bug) (unboxed bugs.now) result }
{
    bugs.binary_search_by(
        |other: &Box<BugIn>| -> Ordering
            ensures { result ≡ nat_cmp other.now.value.bug bug }
        { other.bug.cmp(&bug) },
    )
}

/// The slot of the message among the states of bugs, and its effect on the rows.
fn step_of_bug(bugs: &[Box<BugIn>], bug: &BugIn) -> Placement
    requires { AreByNumber (unboxed bugs.now) }
    ensures { IsStep (λ b. b.bug) nat_cmp unstable.bug_order fact_rows_steps.bug_row bug.now (unboxed bugs.now) result }
{
    let came = Some(bug_row(bug));
    match place_of_bug(bugs, bug.bug) {
        Ok(i) => {
            let other: &BugIn = &bugs[i];
            if bug_order(other, bug).is_lt() {
                return no_step();
            }
            let left = Some(bug_row(other));
            Placement {
                slot: Slot::Over(i),
                shifted: Shifted { left, came },
            }
        }
        Err(i) => Placement {
            slot: Slot::Before(i),
            shifted: Shifted { left: None, came },
        },
    }
}

/// Adds a message on a bug to the states, if the bug has no later one, and returns the effect on the rows. There is
/// room for it.
pub fn put_bug(bugs: &mut Vec<Box<BugIn>>, bug: Box<BugIn>) -> Shifted
    requires order { AreByNumber (unboxed bugs.old.items) }
    requires room { vec_len bugs.old < vec_capacity bugs.old }
    ensures items { unboxed bugs.new.items ≡ taken.with_bug bug.value (unboxed bugs.old.items) }
    ensures shift { IsShift (λ b. b.bug) nat_cmp unstable.bug_order fact_rows_steps.bug_row bug.value (unboxed bugs.old.items) result }
{
    let step = step_of_bug(bugs, &bug);
    put_at(bugs, step.slot, bug);
    step.shifted
}

/// How a build's architecture and name compare with these.
pub fn order_pair(build: &BuildIn, arch: &str, name: &str) -> Ordering
    ensures { result ≡ pair_order (pair_of build.now) (arch.now, name.now) }
{
    match build.binary.architecture.as_str().cmp(arch) {
        Ordering::Equal => build.binary.name.as_str().cmp(name),
        other => other,
    }
}

/// The place of the architecture and the name among the rows, or where these belong.
pub fn place_of_pair(rows: &[BuildIn], arch: &str, name: &str) -> Result<usize, usize>
    ensures bound { IsSearchInRange result (length rows.now) }
    ensures found { IsBinarySearchResult (λ b. pair_order (pair_of b) (arch.now, name.now)) rows.now result }
{
    rows.binary_search_by(
        |build: &BuildIn| -> Ordering
            ensures { result ≡ pair_order (pair_of build.now) (arch.entry.now, name.entry.now) }
        { order_pair(build, arch, name) },
    )
}

/// The place of the architecture and the name among the rows, or where these belong, if the row at this place is above
/// them. The row before it is tried first.
fn place_below(rows: &[BuildIn], arch: &str, name: &str, place: usize) -> Result<usize, usize>
    requires within { place < length rows.now }
    requires above { HoldsAt (λ b. pair_order (pair_of b) (arch.now, name.now) ≡ Greater) rows.now place }
    ensures bound { IsSearchInRange result (length rows.now) }
    ensures found { IsBinarySearchResult (λ b. pair_order (pair_of b) (arch.now, name.now)) rows.now result }
{
    if place == 0 {
        return Err(place);
    }
    match order_pair(&rows[place - 1], arch, name) {
        Ordering::Less => Err(place),
        Ordering::Equal => Ok(place - 1),
        Ordering::Greater => place_of_pair(rows, arch, name),
    }
}

/// The place of the architecture and the name among the rows, or where these belong. Some rows from the guess on are
/// tried first, and the row before it.
fn place_from(rows: &[BuildIn], arch: &str, name: &str, guess: usize) -> Result<usize, usize>
    ensures bound { IsSearchInRange result (length rows.now) }
    ensures found { IsBinarySearchResult (λ b. pair_order (pair_of b) (arch.now, name.now)) rows.now result }
{
    let mut place = guess;
    'tries: while place < rows.len() && place - guess < TRIES {
        match order_pair(&rows[place], arch, name) {
            Ordering::Less => place += 1,
            Ordering::Equal => return Ok(place),
            Ordering::Greater => {
                if guess < place {
                    return Err(place);
                }
                return place_below(rows, arch, name, place);
            }
        }
    }
    if guess < place && place == rows.len() {
        return Err(place);
    }
    place_of_pair(rows, arch, name)
}

/// The build's slot among the rows, and its effect on the rows of the facts. Its place is the next guess.
fn step_of_build(rows: &[BuildIn], build: &BuildIn, guess: &mut usize) -> Placement
    requires { AreByPair rows.now }
    ensures { IsStep unstable.pair_of unstable.pair_order unstable.build_order fact_rows_steps.build_row build.now rows.now result }
{
    let came = Some(build_row(build));
    let binary: &Binary = &build.binary;
    let found = place_from(
        rows,
        binary.architecture.as_str(),
        binary.name.as_str(),
        *guess,
    );
    match found {
        Ok(i) => {
            *guess = i;
            let other = &rows[i];
            if build_order(other, build).is_lt() {
                return no_step();
            }
            let left = Some(build_row(other));
            Placement {
                slot: Slot::Over(i),
                shifted: Shifted { left, came },
            }
        }
        Err(i) => {
            *guess = i;
            Placement {
                slot: Slot::Before(i),
                shifted: Shifted { left: None, came },
            }
        }
    }
}

/// Adds a build to the rows, if no row of its own comes before it, and returns the effect on the rows of the facts.
/// There is room for it. Its place is searched from the guess on, and is the next guess.
pub fn put_build(rows: &mut Vec<BuildIn>, guess: &mut usize, build: BuildIn) -> Shifted
    requires order { AreByPair rows.old.items }
    requires room { vec_len rows.old < vec_capacity rows.old }
    ensures items { rows.new.items ≡ taken.with_build build rows.old.items }
    ensures shift { IsShift unstable.pair_of unstable.pair_order unstable.build_order fact_rows_steps.build_row build rows.old.items result }
    ensures len { vec_len rows.new ≤ vec_len rows.old + 1 }
    ensures capacity { vec_capacity rows.old ≤ vec_capacity rows.new }
{
    let step = step_of_build(rows, &build, guess);
    put_at(rows, step.slot, build);
    step.shifted
}

/// The build outlives all of the drops.
pub fn stands_beside(drops: &[Box<DropIn>], build: &BuildIn) -> bool
    requires { AreDropsByPair (unboxed drops.now) }
    ensures { result ≡ taken_steps.stands_beside (unboxed drops.now) build.now }
{
    let binary: &Binary = &build.binary;
    match place_of_drop(drops, binary.architecture.as_str(), binary.name.as_str()) {
        Ok(i) => outlives(&drops[i], build),
        Err(_) => true,
    }
}

/// Removes the row that the drop takes, if there is one, and returns its row of the facts.
pub fn remove_dropped(rows: &mut Vec<BuildIn>, drop: &DropIn) -> Option<FactRow>
    requires { AreByPair rows.old.items }
    ensures items { rows.new.items ≡ taken.with_drop drop.now rows.old.items }
    ensures gone { option_to_list result ≡ map fact_rows_steps.build_row (filter (λ b. not (taken.outlives drop.now b)) rows.old.items) }
    ensures len { vec_len rows.new ≤ vec_len rows.old }
    ensures capacity { vec_capacity rows.new ≡ vec_capacity rows.old }
{
    match place_of_pair(rows, drop.arch.as_str(), drop.name.as_str()) {
        Ok(i) => {
            let other = &rows[i];
            if outlives(drop, other) {
                return None;
            }
            let row = build_row(other);
            rows.remove(i);
            Some(row)
        }
        Err(_) => None,
    }
}

/// The place of the hint with this number and sender, or where it belongs.
pub fn place_of_hint(hints: &[HintIn], hint: &HintIn) -> Result<usize, usize>
    ensures bound { IsSearchInRange result (length hints.now) }
    ensures found { IsBinarySearchResult (λ h. hint_order h hint.now) hints.now result }
{
    hints.binary_search_by(
        |other: &HintIn| -> Ordering
            ensures { result ≡ hint_order other.now hint.entry.now }
        { hint_order(other, hint) },
    )
}

/// The hint's slot in the list.
fn slot_of_hint(hints: &[HintIn], hint: &HintIn) -> Slot
    requires { AreHintsByNumber hints.now }
    ensures { IsSlotFor hints.now hint.now (taken.with_hint hint.now hints.now) result }
{
    match place_of_hint(hints, hint) {
        Ok(i) => Slot::Over(i),
        Err(i) => Slot::Before(i),
    }
}

/// Adds a hint to the hints. There is room for it.
pub fn put_hint(hints: &mut Vec<HintIn>, hint: HintIn)
    requires order { AreHintsByNumber hints.old.items }
    requires room { vec_len hints.old < vec_capacity hints.old }
    ensures { hints.new.items ≡ taken.with_hint hint hints.old.items }
{
    let slot = slot_of_hint(hints, &hint);
    put_at(hints, slot, hint);
}

/// The place of the unhint with this number and sender, or where it belongs.
pub fn place_of_unhint(unhints: &[UnhintIn], unhint: &UnhintIn) -> Result<usize, usize>
    ensures bound { IsSearchInRange result (length unhints.now) }
    ensures found { IsBinarySearchResult (λ c. unhint_order c unhint.now) unhints.now result }
{
    unhints.binary_search_by(
        |other: &UnhintIn| -> Ordering
            ensures { result ≡ unhint_order other.now unhint.entry.now }
        { unhint_order(other, unhint) },
    )
}

/// The unhint's slot in the list.
fn slot_of_unhint(unhints: &[UnhintIn], unhint: &UnhintIn) -> Slot
    requires { AreUnhintsByNumber unhints.now }
    ensures { IsSlotFor unhints.now unhint.now (taken.with_unhint unhint.now unhints.now) result }
{
    match place_of_unhint(unhints, unhint) {
        Ok(i) => Slot::Over(i),
        Err(i) => Slot::Before(i),
    }
}

/// Adds an unhint to the unhints. There is room for it.
pub fn put_unhint(unhints: &mut Vec<UnhintIn>, unhint: UnhintIn)
    requires order { AreUnhintsByNumber unhints.old.items }
    requires room { vec_len unhints.old < vec_capacity unhints.old }
    ensures { unhints.new.items ≡ taken.with_unhint unhint unhints.old.items }
{
    let slot = slot_of_unhint(unhints, &unhint);
    put_at(unhints, slot, unhint);
}
