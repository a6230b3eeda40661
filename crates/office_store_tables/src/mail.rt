//! The table of mail.
ghost use Rattle.std.specs.Prelude.{◌≡◌, ◌≢◌, ◌≤◌, ◌<◌, ◌∷◌, [], List, ℕ, pos, map, take, length, IfOk, OnOk, OnErr};
ghost use Rattle.office_store_keeper.specs.Content.{IsNextNumber};
ghost use Rattle.sqlite.specs.declared.types.Value.TheVariants.{Int, Blob};
ghost use Rattle.sqlite.specs.Held.{state};
ghost use Rattle.sqlite.specs.Values.{bound};
ghost use Rattle.sqlite.specs.State.{HasCleanDisk};
ghost use Rattle.office_store_testing_tables.specs.Tables.{IsTrusted, IsOurs, kept_rows};
ghost use Rattle.office_store_testing_tables.specs.steps.Faults.{IsBad, NeverBad};
ghost use Rattle.office_store_testing_tables.specs.steps.Tables.{Lasts};
ghost use Rattle.std.specs.List.Sorted.{IsPermutation};
ghost use Rattle.office_store_testing_tables.specs.steps.TableSteps.{AddsLetter, AddsLetters, letter_parameters, rowid_column, AreSmall, IsCrowded, IsOnlyNumber, ShowsLeast};
ghost use Rattle.office_store_testing_tables.specs.steps.Reads.{LeavesStore, BeginsOurs, Finds, Reads, HoldsOfTables};
ghost use Rattle.office_store_testing_tables.specs.steps.StepsWithin.{BeginsInside, Performs};

use office_store_keeper::{Cause, KeepFault, NewLetter};
use office_store_testing_tables::mail::letter_in;
pub use office_store_testing_tables::mail::{by_number, find, letters_in, load};
use sqlite::types::{ToSql, ValueRef};
use sqlite::{Alter, Connection, Error, Row, Transaction, params};

/// The row of mail with this sender's place and the least number from one on, if there is one.
fn least_from<S: Alter>(conn: &mut Connection<S>, sender: u32, from: u32) -> Result<Vec<Row>, Error>
    requires { BeginsOurs S.Store conn.old }
    ensures { Reads S.Store conn.old conn.new result (λ db rows. ShowsLeast sender from (db 1) rows.items) }
{
    conn.query_all(
        "SELECT sender, number, body FROM mail WHERE sender = ?1 AND number >= ?2 ORDER BY number LIMIT 1",
        params![sender, from],
    )
}

/// The number of the only letter, if there is one.
fn only_number(rows: &[Row], sender: u32) -> Result<Option<u32>, KeepFault>
    ensures ok { IfOk result (λ number. IsOnlyNumber sender number rows.now) }
    ensures none { IsBad result → rows.now ≢ [] }
    ensures one { IsBad result → (number : ℕ) (text : List ℕ) → number < 4_294_967_296 → rows.now ≢ (Int (pos sender) ∷ Int (pos number) ∷ Blob text ∷ []) ∷ [] }
{
    match rows {
        [] => Ok(None),
        [row] => {
            let letter = letter_in(row, sender)?;
            Ok(Some(letter.number))
        }
        _ => Err(KeepFault::Store(Cause::BadRow)),
    }
}

/// The least kept number of a sender from one number on, or none. The whole row is read: without a text it isn't a
/// letter.
pub fn next_number<S: Alter>(
    conn: &mut Connection<S>,
    sender: u32,
    from: u32,
) -> Result<Option<u32>, KeepFault>
    requires ours { BeginsOurs S.Store conn.old }
    ensures reads { LeavesStore S.Store conn.old conn.new result }
    ensures next { Finds S.Store conn.new result (λ db number. IsNextNumber (kept_rows (db 1)) sender from number) }
    ensures bad { HoldsOfTables S.Store conn.new (λ db. IsBad result → AreSmall (kept_rows (db 1)) → IsCrowded (db 1)) }
{
    let rows = least_from(conn, sender, from)?;
    only_number(rows.as_slice(), sender)
}

/// The rowids of mail, in any order.
fn rowids<S: Alter>(conn: &mut Connection<S>) -> Result<Vec<Row>, Error>
    requires { BeginsOurs S.Store conn.old }
    ensures { Reads S.Store conn.old conn.new result (λ db rows. IsPermutation (map rowid_column (db 1)) rows.items) }
{
    conn.query_all("SELECT rowid FROM mail", &[])
}

/// The number of rows of the table, whether they are letters or not.
pub fn count<S: Alter>(conn: &mut Connection<S>) -> Result<u64, KeepFault>
    requires ours { BeginsOurs S.Store conn.old }
    ensures reads { LeavesStore S.Store conn.old conn.new result }
    ensures count { Finds S.Store conn.new result (λ db count. count ≡ length (db 1)) }
    ensures bad { NeverBad result }
{
    let rows = rowids(conn)?;
    Ok(rows.len() as u64)
}

/// Adds one text to the mail.
fn add_letter<S: Alter>(
    tx: &mut Transaction<'_, S>,
    sender: u32,
    number: u32,
    text: &[u8],
) -> Result<usize, Error>
    requires { BeginsInside S.Store tx.old.conn }
    ensures { Performs S.Store tx.old.conn tx.new.conn result (λ db next _. AddsLetter db next sender number text.now) }
{
    tx.execute(
        "INSERT INTO mail (sender, number, body) VALUES (?1, ?2, ?3)",
        params![sender, number, text],
    )
}

/// Keeps one text under a free number.
pub fn keep<S: Alter>(
    conn: &mut Connection<S>,
    sender: u32,
    number: u32,
    text: &[u8],
) -> Result<(), KeepFault>
    requires ours { BeginsOurs S.Store conn.old }
    ensures before { IsTrusted (state S.Store conn.new) → IsTrusted (state S.Store conn.old) }
    ensures lasts { Lasts (state S.Store conn.old) (state S.Store conn.new) }
    ensures open { HasCleanDisk (state S.Store conn.new) → IsTrusted (state S.Store conn.old) → OnOk result (IsTrusted (state S.Store conn.new)) }
    ensures ours { IsTrusted (state S.Store conn.new) → IsOurs (state S.Store conn.new) }
    ensures kept { IsTrusted (state S.Store conn.new) → OnOk result (AddsLetter (state S.Store conn.old).now.trees (state S.Store conn.new).now.trees sender number text.now) }
    ensures err { IsTrusted (state S.Store conn.new) → OnErr result ((state S.Store conn.new).now ≡ (state S.Store conn.old).now) }
    ensures bad { NeverBad result }
{
    if !conn.is_autocommit() {
        return Err(KeepFault::Store(Cause::Sqlite(Error::InvalidQuery)));
    }
    let mut tx = conn.transaction();
    let _added = add_letter(&mut tx, sender, number, text)?;
    tx.commit()?;
    Ok(())
}

/// The values of a letter's columns.
fn values_of(letter: &NewLetter) -> [ValueRef<'_>; 3]
    ensures { bound result ≡ letter_parameters letter.now }
{
    let text = letter.text.as_slice();
    [
        letter.sender.to_sql(),
        letter.number.to_sql(),
        text.to_sql(),
    ]
}

/// The values of eight letters' columns, letter by letter.
fn eight_values(letters: &[NewLetter]) -> [[ValueRef<'_>; 3]; 8]
    requires { length letters.now ≡ 8 }
    ensures { map bound result ≡ map letter_parameters letters.now }
{
    match letters {
        [first, second, third, fourth, fifth, sixth, seventh, eighth] => [
            values_of(first),
            values_of(second),
            values_of(third),
            values_of(fourth),
            values_of(fifth),
            values_of(sixth),
            values_of(seventh),
            values_of(eighth),
        ],
        _ => unreachable!(),
    }
}

/// Adds eight texts to the mail with one statement.
fn add_eight<S: Alter>(tx: &mut Transaction<'_, S>, letters: &[NewLetter]) -> Result<usize, Error>
    requires inside { BeginsInside S.Store tx.old.conn }
    requires eight { length letters.now ≡ 8 }
    ensures { Performs S.Store tx.old.conn tx.new.conn result (λ db next _. AddsLetters db next letters.now) }
{
    let values = eight_values(letters);
    tx.execute(
        "INSERT INTO mail (sender, number, body) VALUES (?1, ?2, ?3), (?4, ?5, ?6), (?7, ?8, ?9), (?10, ?11, ?12), (?13, ?14, ?15), (?16, ?17, ?18), (?19, ?20, ?21), (?22, ?23, ?24)",
        values.as_flattened(),
    )
}

/// Adds the first of these texts to the mail, and says how many: eight with one statement, or one if there are fewer.
fn add_first<S: Alter>(tx: &mut Transaction<'_, S>, letters: &[NewLetter]) -> Result<usize, Error>
    requires inside { BeginsInside S.Store tx.old.conn }
    requires some { 0 < length letters.now }
    ensures does { Performs S.Store tx.old.conn tx.new.conn result (λ db next count. AddsLetters db next (take count letters.now)) }
    ensures count { IfOk result (λ count. (0 < count) × (count ≤ length letters.now)) }
{
    if letters.len() >= 8 {
        add_eight(tx, &letters[..8])?;
        return Ok(8);
    }
    let letter = &letters[0];
    add_letter(tx, letter.sender, letter.number, letter.text.as_slice())?;
    Ok(1)
}

/// Adds these texts to the mail.
fn add_letters<S: Alter>(tx: &mut Transaction<'_, S>, letters: &[NewLetter]) -> Result<(), Error>
    requires { BeginsInside S.Store tx.old.conn }
    ensures { Performs S.Store tx.old.conn tx.new.conn result (λ db next _. AddsLetters db next letters.now) }
{
    let mut at = 0;
    'letters: while at < letters.len() {
        let count = add_first(tx, &letters[at..])?;
        at += count;
    }
    Ok(())
}

/// Keeps these texts under free numbers, in one transaction: all of them, or none.
pub fn keep_all<S: Alter>(conn: &mut Connection<S>, letters: &[NewLetter]) -> Result<(), KeepFault>
    requires ours { BeginsOurs S.Store conn.old }
    ensures before { IsTrusted (state S.Store conn.new) → IsTrusted (state S.Store conn.old) }
    ensures lasts { Lasts (state S.Store conn.old) (state S.Store conn.new) }
    ensures open { HasCleanDisk (state S.Store conn.new) → IsTrusted (state S.Store conn.old) → OnOk result (IsTrusted (state S.Store conn.new)) }
    ensures ours { IsTrusted (state S.Store conn.new) → IsOurs (state S.Store conn.new) }
    ensures kept { IsTrusted (state S.Store conn.new) → OnOk result (AddsLetters (state S.Store conn.old).now.trees (state S.Store conn.new).now.trees letters.now) }
    ensures err { IsTrusted (state S.Store conn.new) → OnErr result ((state S.Store conn.new).now ≡ (state S.Store conn.old).now) }
    ensures bad { NeverBad result }
{
    if !conn.is_autocommit() {
        return Err(KeepFault::Store(Cause::Sqlite(Error::InvalidQuery)));
    }
    let mut tx = conn.transaction();
    add_letters(&mut tx, letters)?;
    tx.commit()?;
    Ok(())
}
