ghost use Rattle.std.specs.Prelude.{map, ◌≡◌, ◌+◌, ◌-◌, ◌^◌, ◌<◌, true, false, [], ◌∷◌, ◌++◌, length, replicate, min, OnOk, IfOk, IfSome, IfNone, slice_set, slice_index_or};
ghost use Rattle.std.specs.List.{All};
ghost use Rattle.testing_install.specs.steps.Work.{Turn};

use deb_version::NoMemory;
use std::alloc::Global;
use std::marker::Model;
use std::mem;

/// A row that had its turn, and the claims that rested on it.
#[derive(Drop)]
pub struct Lost {
    pub place: usize,
    pub claims: Vec<usize>,
}

/// The progress of the work.
#[derive(Drop)]
pub struct State {
    marks: Vec<bool>,
    resting: Vec<Vec<usize>>,
    waiting: Vec<usize>,
    turns: usize,
    looks: u64,
}

impl Model for State {
    ghost use Rattle.std.specs.Prelude.{map};
    ghost use Rattle.testing_install.specs.steps.Work.{Work};

    ghost Value = { Work };

    ghost view = { λ s. record {
      marks = s.marks.items;
      resting = map (λ v. v.items) s.resting.items;
      waiting = s.waiting.items;
      turns = s.turns;
      looks = s.looks;
    } };
}

// This many empty lists.
fn empty_lists(alloc: Global, n: usize) -> Result<Vec<Vec<usize>>, NoMemory>
    ensures { IfOk result (λ lists. map (λ v. v.items) lists.items ≡ replicate n []) }
{
    let mut lists = Vec::new(alloc);
    for _i in 0..n {
        lists.push(Vec::new(alloc))?;
    }
    Ok(lists)
}

// Adds a number at the end of one of the lists.
fn push_at(lists: &mut Vec<Vec<usize>>, place: usize, number: usize) -> Result<(), NoMemory>
    requires { place < length lists.old.items }
    ensures { OnOk result (map (λ v. v.items) lists.new.items
        ≡ slice_set (map (λ v. v.items) lists.old.items) place (slice_index_or (map (λ v. v.items) lists.old.items) place [] ++ number ∷ [])) }
{
    lists[place].push(number)?;
    Ok(())
}

// Takes one of the lists and leaves an empty one.
fn take_at(alloc: Global, lists: &mut Vec<Vec<usize>>, place: usize) -> Vec<usize>
    requires { place < length lists.old.items }
    ensures taken { result.items ≡ slice_index_or (map (λ v. v.items) lists.old.items) place [] }
    ensures left { map (λ v. v.items) lists.new.items ≡ slice_set (map (λ v. v.items) lists.old.items) place [] }
{
    mem::replace(&mut lists[place], Vec::new(alloc))
}

impl State {
    /// All rows are marked.
    pub fn new(alloc: Global, rows: usize) -> Result<State, NoMemory>
        ensures { IfOk result (λ s. s ≡ record { marks = replicate rows true; resting = replicate rows []; waiting = []; turns = 0; looks = 0 }) }
    {
        let marks = vec![in alloc; true; rows]?;
        let resting = empty_lists(alloc, rows)?;
        Ok(State {
            marks,
            resting,
            waiting: Vec::new(alloc),
            turns: 0,
            looks: 0,
        })
    }

    pub fn marks(&self) -> &[bool]
        ensures { result.now ≡ self.now.marks }
    {
        self.marks.as_slice()
    }

    pub fn count_look(&mut self)
        ensures { self.new ≡ record self.old { looks = min (self.old.looks + 1) (2 ^ 64 - 1) } }
    {
        self.looks = self.looks.saturating_add(1);
    }

    /// The claim rests on the row at the place.
    pub fn rest(&mut self, claim: usize, place: usize) -> Result<(), NoMemory>
        requires { place < length self.old.resting }
        ensures { OnOk result (self.new ≡ record self.old { resting = slice_set self.old.resting place (slice_index_or self.old.resting place [] ++ claim ∷ []) }) }
    {
        push_at(&mut self.resting, place, claim)
    }

    /// The row at the place loses its mark, and waits for its turn.
    pub fn lose(&mut self, place: usize) -> Result<(), NoMemory>
        requires { place < length self.old.marks }
        ensures { OnOk result (self.new ≡ record self.old { marks = slice_set self.old.marks place false; waiting = self.old.waiting ++ place ∷ [] }) }
    {
        self.waiting.push(place)?;
        self.marks[place] = false;
        Ok(())
    }

    /// The turn of a waiting row.
    pub fn next_turn(&mut self, alloc: Global) -> Option<Lost>
        requires waiting { All (λ k. k < length self.old.resting) self.old.waiting }
        requires turns { self.old.turns + length self.old.waiting < 2 ^ 64 }
        ensures some { IfSome result (λ lost. Turn self.old self.new lost.claims.items) }
        ensures none { IfNone result (self.new ≡ self.old) }
        ensures empty { IfNone result (self.old.waiting ≡ []) }
    {
        let place = self.waiting.pop()?;
        let claims = take_at(alloc, &mut self.resting, place);
        self.turns += 1;
        Some(Lost { place, claims })
    }

    /// The marks, the turns and the looks.
    pub fn into_parts(self) -> (Vec<bool>, usize, u64)
        ensures marks { result.0.items ≡ self.marks }
        ensures turns { result.1 ≡ self.turns }
        ensures looks { result.2 ≡ self.looks }
    {
        let State {
            marks,
            resting,
            waiting,
            turns,
            looks,
        } = self;
        drop(resting);
        drop(waiting);
        (marks, turns, looks)
    }
}
