//! The content of shown rows of testing's tables.
ghost use Rattle.std.specs.Prelude.{◌≡◌, ◌≢◌, ◌<◌, ◌∷◌, [], List, ℕ, ℤ, Some, pos, length, IfOk};
ghost use Rattle.sqlite.specs.Order.{column};
ghost use Rattle.sqlite.specs.declared.types.Value.TheVariants.{Int, Text as Words};
ghost use Rattle.office_store_testing_tables.specs.Entries.{source_in, entry_in};
ghost use Rattle.office_store_testing_tables.specs.steps.Faults.{IsBad};

use crate::faults::unread;
use office_store_keeper::{Cause, KeepFault};
use sqlite::Row;
use sqlite::types::ValueRef;

/// The characters in a column.
pub fn name_in(row: &Row, at: usize) -> Result<&[u8], KeepFault>
    ensures ok { IfOk result (λ name. column row.now at ≡ Words name.now) }
    ensures bad { IsBad result → at < length row.now → (name : List ℕ) → column row.now at ≢ Words name }
{
    match row.get_ref(at).map_err(unread)? {
        ValueRef::Text(name) => Ok(name),
        _ => Err(KeepFault::Store(Cause::BadRow)),
    }
}

/// The rowid, in the first column.
pub fn rowid_in(row: &Row) -> Result<i64, KeepFault>
    ensures ok { IfOk result (λ id. column row.now 0 ≡ Int id) }
    ensures bad { IsBad result → 0 < length row.now → (id : ℤ) → column row.now 0 ≢ Int id }
{
    Ok(row.get(0).map_err(unread)?)
}

/// The number of 32 bits in a column.
pub fn number_in(row: &Row, at: usize) -> Result<u32, KeepFault>
    ensures ok { IfOk result (λ n. (column row.now at ≡ Int (pos n)) × (n < 4_294_967_296)) }
    ensures bad { IsBad result → at < length row.now → (n : ℕ) → n < 4_294_967_296 → column row.now at ≢ Int (pos n) }
{
    Ok(row.get(at).map_err(unread)?)
}

/// The name in a shown row of testing's sources, and the place of its message.
pub fn source_entry(row: &Row) -> Result<(&[u8], u32, u32), KeepFault>
    ensures ok { IfOk result (λ entry. source_in row.now ≡ Some (entry.0.now, (entry.1, entry.2))) }
    ensures bad { IsBad result → (id : ℤ) (name : List ℕ) (sender number : ℕ) → sender < 4_294_967_296 → number < 4_294_967_296 → row.now ≢ Int id ∷ Words name ∷ Int (pos sender) ∷ Int (pos number) ∷ [] }
{
    let _rowid = rowid_in(row)?;
    let name = name_in(row, 1)?;
    let sender = number_in(row, 2)?;
    let number = number_in(row, 3)?;
    Ok((name, sender, number))
}

/// The content of a shown row of testing's rows.
#[derive(Clone, Copy)]
pub struct RowEntry<'a> {
    pub arch: u32,
    pub name: &'a [u8],
    pub sender: u32,
    pub number: u32,
    pub place: u32,
}

/// The architecture and name in a shown row of testing's rows, and the places of its message and binary.
pub fn row_entry(row: &Row) -> Result<RowEntry<'_>, KeepFault>
    ensures ok { IfOk result (λ e. entry_in row.now ≡ Some ((e.arch, e.name.now), ((e.sender, e.number), e.place))) }
    ensures bad { IsBad result → (id : ℤ) (arch : ℕ) (name : List ℕ) (sender number place : ℕ) → arch < 4_294_967_296 → sender < 4_294_967_296 → number < 4_294_967_296 → place < 4_294_967_296 → row.now ≢ Int id ∷ Int (pos arch) ∷ Words name ∷ Int (pos sender) ∷ Int (pos number) ∷ Int (pos place) ∷ [] }
{
    let _rowid = rowid_in(row)?;
    let arch = number_in(row, 1)?;
    let name = name_in(row, 2)?;
    let sender = number_in(row, 3)?;
    let number = number_in(row, 4)?;
    let place = number_in(row, 5)?;
    Ok(RowEntry {
        arch,
        name,
        sender,
        number,
        place,
    })
}
