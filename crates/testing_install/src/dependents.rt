ghost use Rattle.std.specs.Prelude.{OnOk};
ghost use Rattle.testing_install.specs.Dependents.{IsNotedAt, names, needs_name};

use crate::index::NameIndex;
use deb_control::{Binary, Clause};
use deb_version::NoMemory;
use std::alloc::Global;

/// Adds a place at each name in the clause. The only error is running out of memory.
pub fn note_clause(
    alloc: Global,
    dependents: &mut NameIndex,
    clause: &Clause,
    place: usize,
) -> Result<(), NoMemory>
    ensures { OnOk result (IsNotedAt (names clause.now) dependents.old dependents.new place) }
{
    for alternative in clause.as_slice() {
        dependents.note(alloc, alternative.name.as_str(), place)?;
    }
    Ok(())
}

/// Adds the place of a row at each name in its clauses.
pub fn note_needs(
    alloc: Global,
    dependents: &mut NameIndex,
    binary: &Binary,
    place: usize,
) -> Result<(), NoMemory>
    ensures { OnOk result (IsNotedAt (needs_name binary.now) dependents.old dependents.new place) }
{
    for clause in binary.clauses.as_slice() {
        note_clause(alloc, dependents, clause, place)?;
    }
    Ok(())
}
