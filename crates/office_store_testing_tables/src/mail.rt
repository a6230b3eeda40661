//! Looks up texts in the table of mail.
ghost use Rattle.std.specs.Prelude.{◌≡◌, ◌≢◌, ◌≤◌, ◌<◌, ◌∷◌, [], List, ℕ, true, Some, pos, nat_eq, map, filter, length, IfOk};
ghost use Rattle.std.specs.List.Sorted.{IsPermutation};
ghost use Rattle.office_store_keeper.specs.Content.{letters_within};
ghost use Rattle.std.specs.FinMap.{get};
ghost use Rattle.sqlite.specs.Order.{column};
ghost use Rattle.sqlite.specs.declared.types.Value.TheVariants.{Int, Blob};
ghost use Rattle.office_store_testing_tables.specs.Tables.{kept_rows};
ghost use Rattle.office_store_testing_tables.specs.steps.Faults.{IsBad};
ghost use Rattle.office_store_testing_tables.specs.steps.TableSteps.{IsCrowded, IsOnly, is_at, is_between, letter_columns, shown_letter, letter_entry, ShowsLetters, rises_from};
ghost use Rattle.office_store_testing_tables.specs.steps.Reads.{LeavesStore, BeginsOurs, Finds, Reads, HoldsOfTables};

use crate::faults::unread;
use office_store_keeper::{Cause, KeepFault, Letter, MailText};
use sqlite::{Alter, Connection, Error, Row, params};
use std::alloc::Global;

/// The text in a row found by its place and number.
fn text_in(row: &Row, sender: u32, number: u32) -> Result<MailText, KeepFault>
    ensures ok { IfOk result (λ text. (column row.now 0 ≡ Int (pos sender)) × (column row.now 1 ≡ Int (pos number)) × (column row.now 2 ≡ Blob text)) }
    ensures bad { IsBad result → (text : List ℕ) → row.now ≢ Int (pos sender) ∷ Int (pos number) ∷ Blob text ∷ [] }
{
    let from: u32 = row.get(0).map_err(unread)?;
    let at: u32 = row.get(1).map_err(unread)?;
    if from != sender || at != number {
        return Err(KeepFault::Store(Cause::BadRow));
    }
    let bytes: Vec<u8> = row.get(2).map_err(unread)?;
    Ok(MailText::of(bytes))
}

/// The text of the only row, if there is one.
fn only_text(rows: &[Row], sender: u32, number: u32) -> Result<Option<MailText>, KeepFault>
    ensures ok { IfOk result (λ text. IsOnly sender number text rows.now) }
    ensures none { IsBad result → rows.now ≢ [] }
    ensures one { IsBad result → (text : List ℕ) → rows.now ≢ (Int (pos sender) ∷ Int (pos number) ∷ Blob text ∷ []) ∷ [] }
{
    match rows {
        [] => Ok(None),
        [row] => Ok(Some(text_in(row, sender, number)?)),
        _ => Err(KeepFault::Store(Cause::BadRow)),
    }
}

/// The rows of mail with this sender's place and number, in any order.
fn letters<S: Alter>(conn: &mut Connection<S>, sender: u32, number: u32) -> Result<Vec<Row>, Error>
    requires { BeginsOurs S.Store conn.old }
    ensures { Reads S.Store conn.old conn.new result (λ db rows. IsPermutation (map letter_columns (filter (is_at sender number) (db 1))) rows.items) }
{
    conn.query_all(
        "SELECT sender, number, body FROM mail WHERE sender = ?1 AND number = ?2",
        params![sender, number],
    )
}

/// The kept text, or none.
pub fn find<S: Alter>(
    conn: &mut Connection<S>,
    sender: u32,
    number: u32,
) -> Result<Option<MailText>, KeepFault>
    requires ours { BeginsOurs S.Store conn.old }
    ensures reads { LeavesStore S.Store conn.old conn.new result }
    ensures found { Finds S.Store conn.new result (λ db text. text ≡ get (kept_rows (db 1)) (sender, number)) }
    ensures bad { HoldsOfTables S.Store conn.new (λ db. IsBad result → IsCrowded (db 1)) }
{
    let rows = letters(conn, sender, number)?;
    only_text(rows.as_slice(), sender, number)
}

/// The rows of mail with this sender's place and a number from one to another, in any order.
fn letters_between<S: Alter>(
    conn: &mut Connection<S>,
    sender: u32,
    from: u32,
    to: u32,
) -> Result<Vec<Row>, Error>
    requires { BeginsOurs S.Store conn.old }
    ensures { Reads S.Store conn.old conn.new result (λ db rows. IsPermutation (map letter_columns (filter (is_between sender from to) (db 1))) rows.items) }
{
    conn.query_all(
        "SELECT sender, number, body FROM mail WHERE sender = ?1 AND number >= ?2 AND number <= ?3",
        params![sender, from, to],
    )
}

/// The letter in a shown row, if it is this sender's.
pub fn letter_in(row: &Row, sender: u32) -> Result<Letter, KeepFault>
    ensures ok { IfOk result (λ letter. (column row.now 0 ≡ Int (pos sender)) × (column row.now 1 ≡ Int (pos letter.number)) × (column row.now 2 ≡ Blob letter.text)) }
    ensures bad { IsBad result → (number : ℕ) (text : List ℕ) → number < 4_294_967_296 → row.now ≢ Int (pos sender) ∷ Int (pos number) ∷ Blob text ∷ [] }
{
    let from: u32 = row.get(0).map_err(unread)?;
    if from != sender {
        return Err(KeepFault::Store(Cause::BadRow));
    }
    let number: u32 = row.get(1).map_err(unread)?;
    let bytes: Vec<u8> = row.get(2).map_err(unread)?;
    Ok(Letter {
        number,
        text: MailText::of(bytes),
    })
}

/// The letters in these rows, in their order.
pub fn letters_in(alloc: Global, rows: &[Row], sender: u32) -> Result<Vec<Letter>, KeepFault>
    ensures ok { IfOk result (λ letters. map shown_letter rows.now ≡ map Some (map (letter_entry sender) letters.items)) }
    ensures bad { IsBad result → ShowsLetters sender rows.now → ⊥ }
{
    let mut letters = Vec::new(alloc);
    'rows: for row in rows {
        let letter = letter_in(row, sender)?;
        letters.push(letter)?;
    }
    Ok(letters)
}

/// Whether each letter's number is above the one before.
fn are_rising(letters: &[Letter]) -> bool
    ensures { result ≡ rises_from 0 letters.now }
{
    let mut least = 0u64;
    'letters: for letter in letters {
        if (letter.number as u64) < least {
            return false;
        }
        least = letter.number as u64 + 1;
    }
    true
}

/// These letters by their numbers. If two have the same number, no office wrote the table.
pub fn by_number(letters: Vec<Letter>) -> Result<Vec<Letter>, KeepFault>
    ensures same { IfOk result (λ sorted. IsPermutation letters.items sorted.items) }
    ensures rising { IfOk result (λ sorted. rises_from 0 sorted.items ≡ true) }
    ensures bad { IsBad result → ((number : ℕ) → length (filter (λ l. nat_eq l.number number) letters.items) ≤ 1) → ⊥ }
{
    let mut sorted = letters;
    sorted.sort_unstable_by_key(|letter| letter.number);
    if !are_rising(sorted.as_slice()) {
        return Err(KeepFault::Store(Cause::BadRow));
    }
    Ok(sorted)
}

/// The kept numbers of a sender from one number to another with their texts, by number, found with one statement.
pub fn load<S: Alter>(
    alloc: Global,
    conn: &mut Connection<S>,
    sender: u32,
    from: u32,
    to: u32,
) -> Result<Vec<Letter>, KeepFault>
    requires ours { BeginsOurs S.Store conn.old }
    ensures reads { LeavesStore S.Store conn.old conn.new result }
    ensures bad { HoldsOfTables S.Store conn.new (λ db. IsBad result → IsCrowded (db 1)) }
    ensures loaded { Finds S.Store conn.new result (λ db letters. letters.items ≡ letters_within (kept_rows (db 1)) sender from to) }
{
    let rows = letters_between(conn, sender, from, to)?;
    let letters = letters_in(alloc, rows.as_slice(), sender)?;
    by_number(letters)
}
