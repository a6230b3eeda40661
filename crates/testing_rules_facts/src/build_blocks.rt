//! Unstable's rows in blocks: a row that comes or goes shifts only those of its own block.

ghost use Rattle.std.specs.Prelude.{◌≡◌, ◌==◌, ◌<◌, ◌≤◌, ◌+◌, ◌*◌, ◌^◌, ℕ, [], ◌++◌, IfOk, OnOk, OnErr, IsTrue, IsFalse, filter, length, map, not, option_to_list, slice_index_or, true, false, vec_len, vec_capacity};
ghost use Rattle.std.specs.Option.{IfSome};
ghost use Rattle.testing_rules_facts.specs.Blocks.{joined};
ghost use Rattle.testing_rules_facts.specs.steps.Blocks.{upper_rows, HasRows, AreBlocks, begins_above, IsBlockFor};
ghost use Rattle.testing_rules_facts.specs.steps.ElementShifts.{shift_builds, IsShift};
ghost use Rattle.testing_rules_model.specs.Boxed.{unboxed};
ghost use Rattle.testing_rules_model.specs.FactOrder.{AreByPair};
ghost use Rattle.testing_rules_model.specs.steps.FactOrder.{AreDropsByPair};
ghost use Rattle.testing_rules_model.specs.steps.FactRows.{build_row};
ghost use Rattle.testing_rules_model.specs.Unstable as unstable;
ghost use Rattle.testing_rules_model.specs.WithMessage as taken;
ghost use Rattle.testing_rules_model.specs.steps.WithMessage as taken_steps;

use crate::taken::{order_pair, put_build, remove_dropped, stands_beside};
use deb_control::Binary;
use deb_version::NoMemory;
use std::alloc::Global;
use std::marker::Model;
use testing_rules_fact_order::{Log, Shifted, move_upper_half};
use testing_rules_model::{BuildIn, DropIn, FactRow};

/// The number of rows in a full block, which is then split.
const FULL: usize = 64;

/// Some of the rows, with room for one more, and the place of the last added one. The next one may belong there.
#[derive(Drop)]
pub struct BuildBlock {
    rows: Vec<BuildIn>,
    guess: usize,
}

impl Model for BuildBlock {
    ghost use Rattle.std.specs.Prelude.{List, vec_len, vec_capacity};
    ghost use Rattle.testing_rules_model.specs.declared.facts.BuildIn.{BuildIn};
    ghost use Rattle.testing_rules_facts.specs.steps.Blocks.{IsRoomy};

    ghost Value = { List BuildIn };

    ghost view = { λ a. a.rows.items };

    ghost invariant = { λ a. IsRoomy (vec_len a.rows) (vec_capacity a.rows) };
}

/// Memory for the rows of a block, still without rows.
#[derive(Drop)]
struct Spare {
    rows: Vec<BuildIn>,
}

impl Model for Spare {
    ghost use Rattle.std.specs.Prelude.{List, vec_capacity};
    ghost use Rattle.testing_rules_model.specs.declared.facts.BuildIn.{BuildIn};
    ghost use Rattle.testing_rules_facts.specs.steps.Blocks.{IsSpare};

    ghost Value = { List BuildIn };

    ghost view = { λ a. a.rows.items };

    ghost invariant = { λ a. IsSpare a.rows.items (vec_capacity a.rows) };
}

impl Spare {
    /// Memory for the rows of a full block.
    fn new(alloc: Global) -> Result<Spare, NoMemory> {
        let rows = Vec::with_capacity(alloc, FULL)?;
        Ok(Spare { rows })
    }
}

/// The effect of a build that joined a block on the rows of the facts, and the block of the upper half, if the block
/// was full.
#[derive(Drop)]
struct Entered {
    shifted: Shifted,
    upper: Option<BuildBlock>,
}

impl BuildBlock {
    /// A block of no rows.
    fn new(alloc: Global) -> Result<BuildBlock, NoMemory>
        ensures { IfOk result (λ block. block ≡ []) }
    {
        let rows = Vec::with_capacity(alloc, FULL)?;
        Ok(BuildBlock { rows, guess: 0 })
    }

    /// The rows, in order.
    pub fn rows(&self) -> &[BuildIn]
        ensures { result.now ≡ self.now }
    {
        self.rows.as_slice()
    }

    /// The number of rows.
    fn len(&self) -> usize
        ensures len { result ≡ length self.now }
        ensures below { result < 64 }
    {
        self.rows.len()
    }

    /// An equal block, which shares the binaries.
    fn copy(&self, alloc: Global) -> Result<BuildBlock, NoMemory>
        ensures { IfOk result (λ block. block ≡ self.now) }
    {
        let rows = copy_rows(alloc, &self.rows)?;
        Ok(BuildBlock {
            rows,
            guess: self.guess,
        })
    }

    /// Adds a build to the rows. If it fills the block, one of the spares takes the upper half.
    fn put(&mut self, build: BuildIn, spares: &mut Vec<Spare>) -> Entered
        requires order { AreByPair self.old }
        requires spares { 0 < vec_len spares.old }
        ensures rows { self.new ++ upper_rows result.upper ≡ taken.with_build build self.old }
        ensures shift { IsShift unstable.pair_of unstable.pair_order unstable.build_order build_row build self.old result.shifted }
        ensures lower { HasRows self.new }
        ensures upper { IfSome result.upper HasRows }
        ensures spares { vec_len spares.old ≤ vec_len spares.new + 1 }
    {
        let shifted = put_build(&mut self.rows, &mut self.guess, build);
        if self.rows.len() < FULL {
            return Entered {
                shifted,
                upper: None,
            };
        }
        let last = spares.len() - 1;
        let upper = Some(upper_half(&mut self.rows, self.guess, spares.remove(last)));
        Entered { shifted, upper }
    }

    /// Removes the row that the drop takes, if there is one, and returns its row of the facts.
    fn take(&mut self, drop: &DropIn) -> Option<FactRow>
        requires { AreByPair self.old }
        ensures rows { self.new ≡ taken.with_drop drop.now self.old }
        ensures gone { option_to_list result ≡ map build_row (filter (λ b. not (taken.outlives drop.now b)) self.old) }
    {
        remove_dropped(&mut self.rows, drop)
    }
}

/// The first of the rows is above the architecture and the name.
fn begin_above(rows: &[BuildIn], arch: &str, name: &str) -> bool
    ensures { result ≡ begins_above (arch.now, name.now) rows.now }
{
    match rows.first() {
        Some(build) => order_pair(build, arch, name).is_gt(),
        None => false,
    }
}

/// Moves the upper half of a full block to a new block.
fn upper_half(rows: &mut Vec<BuildIn>, guess: usize, spare: Spare) -> BuildBlock
    requires { vec_len rows.old ≡ 64 }
    ensures rows { rows.new.items ++ result ≡ rows.old.items }
    ensures lower { vec_len rows.new ≡ 32 }
    ensures upper { HasRows result }
    ensures capacity { vec_capacity rows.new ≡ vec_capacity rows.old }
{
    let mut upper = spare.rows;
    move_upper_half(rows, &mut upper);
    BuildBlock {
        rows: upper,
        guess: guess.saturating_sub(rows.len()),
    }
}

/// The place of the block for the architecture and the name.
fn block_for(blocks: &[BuildBlock], arch: &str, name: &str) -> usize
    requires { 0 < length blocks.now }
    ensures { IsBlockFor (arch.now, name.now) blocks.now result }
{
    let mut low = 0;
    let mut high = blocks.len();
    'search: while low + 1 < high {
        let middle = low + (high - low) / 2;
        if begin_above(blocks[middle].rows(), arch, name) {
            high = middle;
        } else {
            low = middle;
        }
    }
    low
}

/// Two places of blocks, one of them likely: the block last put into, and an earlier one.
#[derive(Clone, Copy)]
struct Near {
    last: usize,
    other: usize,
}

/// No block was put into yet.
fn nowhere() -> Near {
    Near { last: 0, other: 0 }
}

/// A block was put into. One next to the last one takes its place.
fn nearer(near: Near, place: usize) -> Near {
    if place == near.last || place == near.last.saturating_add(1) {
        return Near {
            last: place,
            other: near.other,
        };
    }
    Near {
        last: place,
        other: near.last,
    }
}

/// There is a block at the place: the first, or one that doesn't begin above the architecture and the name.
fn may_hold(blocks: &[BuildBlock], arch: &str, name: &str, place: usize) -> bool
    ensures within { IsTrue result → place < length blocks.now }
    ensures begins { IsTrue result → 0 < place → begins_above (arch.now, name.now) (slice_index_or blocks.now place []) ≡ false }
    ensures above { IsFalse result → place < length blocks.now → begins_above (arch.now, name.now) (slice_index_or blocks.now place []) ≡ true }
{
    match blocks.get(place) {
        Some(block) => place == 0 || !begin_above(block.rows(), arch, name),
        None => false,
    }
}

/// The place or the next one, if one of them is the block's for the architecture and the name.
fn block_at(blocks: &[BuildBlock], arch: &str, name: &str, place: usize) -> Option<usize>
    ensures { IfSome result (λ place. IsBlockFor (arch.now, name.now) blocks.now place) }
{
    if !may_hold(blocks, arch, name, place) {
        return None;
    }
    if !may_hold(blocks, arch, name, place + 1) {
        return Some(place);
    }
    if !may_hold(blocks, arch, name, place + 2) {
        return Some(place + 1);
    }
    None
}

/// The place of the block for the architecture and the name. The near places are tried first.
fn place_near(blocks: &[BuildBlock], arch: &str, name: &str, near: Near) -> usize
    requires { 0 < length blocks.now }
    ensures { IsBlockFor (arch.now, name.now) blocks.now result }
{
    if let Some(place) = block_at(blocks, arch, name, near.last) {
        return place;
    }
    if let Some(place) = block_at(blocks, arch, name, near.other) {
        return place;
    }
    block_for(blocks, arch, name)
}

/// The place of the block for the architecture and the name, noted as near for the next search.
fn block_near(blocks: &[BuildBlock], arch: &str, name: &str, near: &mut Near) -> usize
    requires { 0 < length blocks.now }
    ensures { IsBlockFor (arch.now, name.now) blocks.now result }
{
    let place = place_near(blocks, arch, name, *near);
    *near = nearer(*near, place);
    place
}

/// The number of rows in the blocks.
fn count_rows(held: &[BuildBlock]) -> u128
    ensures rows { result ≡ length (joined held.now) }
    ensures below { result ≤ 64 * (2 ^ 64) }
{
    let mut count = 0;
    'counted: for block in held {
        count += block.len() as u128;
    }
    count
}

/// An equal build, which shares the binary.
fn copy_build(build: &BuildIn) -> Result<BuildIn, NoMemory>
    ensures { IfOk result (λ copy. copy ≡ build.now) }
{
    Ok(BuildIn {
        binary: build.binary.share()?,
        sender: build.sender,
        number: build.number,
        place: build.place,
    })
}

/// Equal rows, with memory for a full block.
fn copy_rows(alloc: Global, rows: &[BuildIn]) -> Result<Vec<BuildIn>, NoMemory>
    ensures rows { IfOk result (λ copies. copies.items ≡ rows.now) }
    ensures room { IfOk result (λ copies. 64 ≤ vec_capacity copies) }
{
    let mut copies = Vec::with_capacity(alloc, FULL)?;
    for build in rows {
        copies.push(copy_build(build)?)?;
    }
    Ok(copies)
}

/// Equal blocks.
fn copy_blocks(alloc: Global, blocks: &[BuildBlock]) -> Result<Vec<BuildBlock>, NoMemory>
    ensures { IfOk result (λ copies. copies.items ≡ blocks.now) }
{
    let mut copies = Vec::with_capacity(alloc, blocks.len())?;
    for block in blocks {
        copies.push(block.copy(alloc)?)?;
    }
    Ok(copies)
}

/// Adds spares, up to this many.
fn top_up(alloc: Global, spares: &mut Vec<Spare>, count: usize) -> Result<(), NoMemory>
    ensures { OnOk result (count ≤ vec_len spares.new) }
{
    'spares: while spares.len() < count {
        spares.push(Spare::new(alloc)?)?;
    }
    Ok(())
}

/// Makes room for this many more blocks. Afterwards there is a block.
fn make_room(alloc: Global, blocks: &mut Vec<BuildBlock>, count: usize) -> Result<(), NoMemory>
    ensures rows { joined blocks.new.items ≡ joined blocks.old.items }
    ensures filled { AreBlocks blocks.old.items → AreBlocks blocks.new.items }
    ensures some { OnOk result (0 < vec_len blocks.new) }
    ensures room { OnOk result (vec_len blocks.new + count ≤ vec_capacity blocks.new) }
{
    if blocks.is_empty() {
        let first = BuildBlock::new(alloc)?;
        blocks.push(first)?;
    }
    blocks.reserve(count)?;
    Ok(())
}

/// Adds a build to the rows, if no row of its own comes before it, and returns the effect on the rows of the facts.
/// There is room for one more block, and a spare for its rows.
fn put_coming(
    blocks: &mut Vec<BuildBlock>,
    near: &mut Near,
    spares: &mut Vec<Spare>,
    build: BuildIn,
) -> Shifted
    requires order { AreByPair (joined blocks.old.items) }
    requires filled { AreBlocks blocks.old.items }
    requires some { 0 < vec_len blocks.old }
    requires room { vec_len blocks.old < vec_capacity blocks.old }
    requires spares { 0 < vec_len spares.old }
    ensures rows { joined blocks.new.items ≡ taken.with_build build (joined blocks.old.items) }
    ensures shift { IsShift unstable.pair_of unstable.pair_order unstable.build_order build_row build (joined blocks.old.items) result }
    ensures filled { AreBlocks blocks.new.items }
    ensures len { vec_len blocks.new ≤ vec_len blocks.old + 1 }
    ensures some { 0 < vec_len blocks.new }
    ensures capacity { vec_capacity blocks.old ≤ vec_capacity blocks.new }
    ensures spares { vec_len spares.old ≤ vec_len spares.new + 1 }
{
    let binary = &build.binary;
    let place = block_near(
        blocks,
        binary.architecture.as_str(),
        binary.name.as_str(),
        near,
    );
    let block = &mut blocks[place];
    let Entered { shifted, upper } = block.put(build, spares);
    if let Some(upper) = upper {
        let _ = blocks.insert(place + 1, upper);
    }
    shifted
}

/// Adds those builds of one message that outlive the drops, and notes the effect on the rows. There is room for them,
/// and a spare for each.
fn put_builds(
    held: &mut Vec<BuildBlock>,
    near: &mut Near,
    drops: &[Box<DropIn>],
    coming: Vec<BuildIn>,
    spares: &mut Vec<Spare>,
    log: &mut Log,
)
    requires order { AreByPair (joined held.old.items) }
    requires filled { AreBlocks held.old.items }
    requires some { 0 < vec_len held.old }
    requires room { vec_len held.old + vec_len coming ≤ vec_capacity held.old }
    requires spares { vec_len coming ≤ vec_len spares.old }
    requires drops { AreDropsByPair (unboxed drops.now) }
    requires room_came { vec_len log.old.came + vec_len coming ≤ vec_capacity log.old.came }
    requires room_left { vec_len log.old.left + vec_len coming ≤ vec_capacity log.old.left }
    ensures rows { joined held.new.items ≡ taken.with_builds (taken_steps.stands_beside (unboxed drops.now)) coming.items (joined held.old.items) }
    ensures filled { AreBlocks held.new.items }
    ensures came { log.new.came.items ≡ log.old.came.items ++ (shift_builds (taken_steps.stands_beside (unboxed drops.now)) coming.items (joined held.old.items)).came }
    ensures left { log.new.left.items ≡ log.old.left.items ++ (shift_builds (taken_steps.stands_beside (unboxed drops.now)) coming.items (joined held.old.items)).left }
    ensures len { vec_len log.new.left ≤ vec_len log.old.left + vec_len coming }
    ensures capacity { vec_capacity log.old.left ≤ vec_capacity log.new.left }
{
    let mut left = coming;
    'builds: while let Some(next) = left.pop() {
        if stands_beside(drops, &next) {
            let shifted = put_coming(held, near, spares, next);
            log.note(shifted);
        }
    }
}

/// Removes the row that the drop takes, if there is one, and returns its row of the facts.
fn take_from(blocks: &mut Vec<BuildBlock>, drop: &DropIn) -> Option<FactRow>
    requires order { AreByPair (joined blocks.old.items) }
    requires filled { AreBlocks blocks.old.items }
    ensures rows { joined blocks.new.items ≡ taken.with_drop drop.now (joined blocks.old.items) }
    ensures gone { option_to_list result ≡ map build_row (filter (λ b. not (taken.outlives drop.now b)) (joined blocks.old.items)) }
    ensures filled { AreBlocks blocks.new.items }
{
    if blocks.is_empty() {
        return None;
    }
    let place = block_for(blocks, drop.arch.as_str(), drop.name.as_str());
    let block = &mut blocks[place];
    let gone = block.take(drop);
    if place > 0 && blocks[place].rows().is_empty() {
        blocks.remove(place);
    }
    gone
}

/// Unstable's rows, by architecture and name.
pub struct BuildBlocks {
    blocks: Vec<BuildBlock>,
    near: Near,
    spares: Vec<Spare>,
}

impl Drop for BuildBlocks {
    fn drop(self) {
        let BuildBlocks {
            blocks: _,
            near: _,
            spares: _,
        } = self;
    }
}

impl Model for BuildBlocks {
    ghost use Rattle.std.specs.Prelude.{List};
    ghost use Rattle.testing_rules_model.specs.declared.facts.BuildIn.{BuildIn};
    ghost use Rattle.testing_rules_facts.specs.Blocks.{joined};
    ghost use Rattle.testing_rules_facts.specs.steps.Blocks.{AreBlocks};

    ghost Value = { List BuildIn };

    ghost view = { λ a. joined a.blocks.items };

    ghost invariant = { λ a. AreBlocks a.blocks.items };
}

impl BuildBlocks {
    /// No rows.
    pub fn new(alloc: Global) -> BuildBlocks
        ensures { result ≡ [] }
    {
        BuildBlocks {
            blocks: Vec::new(alloc),
            near: nowhere(),
            spares: Vec::new(alloc),
        }
    }

    /// The blocks, in order.
    pub fn blocks(&self) -> &[BuildBlock]
        ensures { joined result.now ≡ self.now }
    {
        self.blocks.as_slice()
    }

    /// The number of rows.
    pub fn count(&self) -> u128
        ensures rows { result ≡ length self.now }
        ensures below { result ≤ 64 * (2 ^ 64) }
    {
        count_rows(&self.blocks)
    }

    /// Equal rows, sharing their binaries with these. NoMemory if memory runs out.
    pub fn copy(&self, alloc: Global) -> Result<BuildBlocks, NoMemory>
        ensures { IfOk result (λ copies. copies ≡ self.now) }
    {
        let blocks = copy_blocks(alloc, &self.blocks)?;
        Ok(BuildBlocks {
            blocks,
            near: self.near,
            spares: Vec::new(alloc),
        })
    }

    /// Adds those builds of one message that outlive the drops, and notes the effect on the rows. The log has room for
    /// them.
    pub fn put(
        &mut self,
        alloc: Global,
        drops: &[Box<DropIn>],
        builds: Vec<BuildIn>,
        log: &mut Log,
    ) -> Result<(), NoMemory>
        requires order { AreByPair self.old }
        requires drops { AreDropsByPair (unboxed drops.now) }
        requires room_came { vec_len log.old.came + vec_len builds ≤ vec_capacity log.old.came }
        requires room_left { vec_len log.old.left + vec_len builds ≤ vec_capacity log.old.left }
        ensures came { OnOk result (log.new.came.items ≡ log.old.came.items ++ (shift_builds (taken_steps.stands_beside (unboxed drops.now)) builds.items self.old).came) }
        ensures left { OnOk result (log.new.left.items ≡ log.old.left.items ++ (shift_builds (taken_steps.stands_beside (unboxed drops.now)) builds.items self.old).left) }
        ensures len { OnOk result (vec_len log.new.left ≤ vec_len log.old.left + vec_len builds) }
        ensures capacity { OnOk result (vec_capacity log.old.left ≤ vec_capacity log.new.left) }
        ensures log { OnErr result (log.new ≡ log.old) }
        ensures ok { OnOk result (self.new ≡ taken.with_builds (taken_steps.stands_beside (unboxed drops.now)) builds.items self.old) }
        ensures err { OnErr result (self.new ≡ self.old) }
    {
        top_up(alloc, &mut self.spares, builds.len())?;
        make_room(alloc, &mut self.blocks, builds.len())?;
        put_builds(
            &mut self.blocks,
            &mut self.near,
            drops,
            builds,
            &mut self.spares,
            log,
        );
        Ok(())
    }

    /// Adds one build to the rows, if no row of its own comes before it.
    pub fn put_one(&mut self, alloc: Global, build: BuildIn) -> Result<(), NoMemory>
        requires { AreByPair self.old }
        ensures ok { OnOk result (self.new ≡ taken.with_build build self.old) }
        ensures err { OnErr result (self.new ≡ self.old) }
    {
        top_up(alloc, &mut self.spares, 1)?;
        make_room(alloc, &mut self.blocks, 1)?;
        let _ = put_coming(&mut self.blocks, &mut self.near, &mut self.spares, build);
        Ok(())
    }

    /// Removes the row that the drop takes, if there is one, and returns its row of the facts.
    pub fn take(&mut self, drop: &DropIn) -> Option<FactRow>
        requires { AreByPair self.old }
        ensures rows { self.new ≡ taken.with_drop drop.now self.old }
        ensures gone { option_to_list result ≡ map build_row (filter (λ b. not (taken.outlives drop.now b)) self.old) }
    {
        take_from(&mut self.blocks, drop)
    }
}
