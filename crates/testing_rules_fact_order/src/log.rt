//! The rows that came and left since the facts were kept.

ghost use Rattle.std.specs.Prelude.{◌≡◌, ◌+◌, ◌<◌, ◌≤◌, ◌++◌, [], IfOk, OnOk, option_to_list, vec_len, vec_capacity};

use deb_version::NoMemory;
use std::alloc::Global;
use testing_rules_model::FactRow;

/// Rows that came and rows that left, each in order of time. A row that did both is in both lists.
#[derive(Drop)]
pub struct Log {
    pub came: Vec<FactRow>,
    pub left: Vec<FactRow>,
}

/// The effect of one more element on the rows: the one that gives way to it leaves, and its own comes if it comes in.
#[derive(Clone, Copy)]
pub struct Shifted {
    pub left: Option<FactRow>,
    pub came: Option<FactRow>,
}

/// The sum of two counts.
fn sum(uploads: usize, more: usize) -> Result<usize, NoMemory>
    ensures { IfOk result (λ n. n ≡ uploads + more) }
{
    match uploads.checked_add(more) {
        Some(n) => Ok(n),
        None => Err(NoMemory),
    }
}

/// Adds a row at the end, if there is one. There is room for it.
fn note_row(rows: &mut Vec<FactRow>, row: Option<FactRow>)
    requires room { vec_len rows.old < vec_capacity rows.old }
    ensures items { rows.new.items ≡ rows.old.items ++ option_to_list row }
    ensures len { vec_len rows.new ≤ vec_len rows.old + 1 }
    ensures capacity { vec_capacity rows.old ≤ vec_capacity rows.new }
{
    if let Some(row) = row {
        let _ = rows.push(row);
    }
}

impl Log {
    /// No row came or left.
    pub fn new(alloc: Global) -> Log
        ensures came { result.came.items ≡ [] }
        ensures left { result.left.items ≡ [] }
    {
        Log {
            came: Vec::new(alloc),
            left: Vec::new(alloc),
        }
    }

    /// All of these rows left, and none came. NoMemory if memory runs out.
    pub fn of_left(alloc: Global, rows: &[FactRow]) -> Result<Log, NoMemory>
        ensures came { IfOk result (λ log. log.came.items ≡ []) }
        ensures left { IfOk result (λ log. log.left.items ≡ rows.now) }
        ensures room { IfOk result (λ log. vec_len log.left ≤ vec_capacity log.left) }
    {
        let mut log = Log::new(alloc);
        log.left.extend_from_slice(rows)?;
        log.reserve(0, 0)?;
        Ok(log)
    }

    /// Makes room for this many more rows on each side, and for this many uploads among those that left.
    pub fn reserve(&mut self, uploads: usize, more: usize) -> Result<(), NoMemory>
        ensures came { self.new.came.items ≡ self.old.came.items }
        ensures left { self.new.left.items ≡ self.old.left.items }
        ensures capacity { vec_capacity self.old.left ≤ vec_capacity self.new.left }
        ensures room_came { OnOk result (vec_len self.new.came + more ≤ vec_capacity self.new.came) }
        ensures room_left { OnOk result (vec_len self.new.left + (uploads + more) ≤ vec_capacity self.new.left) }
    {
        let count = sum(uploads, more)?;
        self.came.reserve(more)?;
        self.left.reserve(count)?;
        Ok(())
    }

    /// Makes room for this many more rows and uploads, and for one more element in a list.
    pub fn reserve_with<T>(
        &mut self,
        list: &mut Vec<T>,
        uploads: usize,
        more: usize,
    ) -> Result<(), NoMemory>
        ensures items { list.new.items ≡ list.old.items }
        ensures room { OnOk result (vec_len list.new < vec_capacity list.new) }
        ensures came { self.new.came.items ≡ self.old.came.items }
        ensures left { self.new.left.items ≡ self.old.left.items }
        ensures capacity { vec_capacity self.old.left ≤ vec_capacity self.new.left }
        ensures room_came { OnOk result (vec_len self.new.came + more ≤ vec_capacity self.new.came) }
        ensures room_left { OnOk result (vec_len self.new.left + (uploads + more) ≤ vec_capacity self.new.left) }
    {
        list.reserve(1)?;
        self.reserve(uploads, more)
    }

    /// Notes the effect of one element on the rows. There is room for it.
    pub fn note(&mut self, shifted: Shifted)
        requires came { vec_len self.old.came < vec_capacity self.old.came }
        requires left { vec_len self.old.left < vec_capacity self.old.left }
        ensures came { self.new.came.items ≡ self.old.came.items ++ option_to_list shifted.came }
        ensures left { self.new.left.items ≡ self.old.left.items ++ option_to_list shifted.left }
        ensures len_came { vec_len self.new.came ≤ vec_len self.old.came + 1 }
        ensures len_left { vec_len self.new.left ≤ vec_len self.old.left + 1 }
        ensures capacity_came { vec_capacity self.old.came ≤ vec_capacity self.new.came }
        ensures capacity_left { vec_capacity self.old.left ≤ vec_capacity self.new.left }
    {
        note_row(&mut self.came, shifted.came);
        note_row(&mut self.left, shifted.left);
    }

    /// Forgets the rows that came or left. It allocates nothing, and keeps the memory for leaving rows.
    pub fn clear(&mut self)
        ensures came { self.new.came.items ≡ [] }
        ensures left { self.new.left.items ≡ [] }
        ensures capacity { vec_capacity self.old.left ≤ vec_capacity self.new.left }
    {
        self.came.clear();
        self.left.clear();
    }
}
