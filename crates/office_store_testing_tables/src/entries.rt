//! Testing, read back: each entry of its tables by the kept message that gave it.
ghost use Rattle.std.specs.Prelude.{◌≡◌, ◌≢◌, ◌⊎◌, [], IsTrue, Ok, Some, None, map, length, IfOk, OnOk, ◌&&◌};
ghost use Rattle.std.specs.Option.{option_copied};
ghost use Rattle.std.specs.Str.{bytes_eq};
ghost use Rattle.testing_rules_items.specs.Words.{arch_name};
ghost use Rattle.std.specs.List.{AllByRecursion};
ghost use Rattle.std.specs.List.Sorted.{IsPermutation};
ghost use Rattle.office_mail.specs.Read.{read};
ghost use Rattle.office_store_keeper.specs.Provenance.{IsArchPlace, KnowsArchs, upload_in, binary_in};
ghost use Rattle.office_store_testing_tables.specs.Tables.{kept_rows};
ghost use Rattle.office_store_testing_tables.specs.steps.Faults.{IsBad, NeverBad};
ghost use Rattle.office_store_testing_tables.specs.steps.TableSteps.{IsCrowded};
ghost use Rattle.office_store_testing_tables.specs.steps.Reads.{LeavesStore, BeginsOurs, Finds, Reads, HoldsOfTables};
ghost use Rattle.office_store_testing_tables.specs.Legible.{IsWhole, AreNamed};
ghost use Rattle.office_store_testing_tables.specs.Entries.{source_map, entry_map};
ghost use Rattle.office_store_testing_tables.specs.steps.EntrySteps.{source_columns, entry_columns};
ghost use Rattle.office_store_testing_tables.specs.steps.Loaded.{AreLoaded};
ghost use Rattle.office_store_testing_tables.specs.steps.Nearby.{IsKeptAt, read_binary, brought, IsKept};
ghost use Rattle.office_store_testing_tables.specs.TableContent.{own_by, message_at as kept_message, source_as, row_as, is_arch_place, suite_in};
ghost use Rattle.office_store_testing_tables.specs.steps.TableContent.{source_of, row_of, ReadsEach, put_all_sources, put_all_rows, IsGathered};

use crate::loaded::{LoadedLetters, loaded_text, no_block};
use crate::mail;
use crate::nearby::{Columns, Listed, bring, message_place};
use crate::shown::{RowEntry, row_entry, source_entry};
use deb_control::{Binary, NoMemory};
use office_mail::{Body, MailFault, Message, Setup, read_message};
use office_store_keeper::{Cause, KeepFault};
use sqlite::{Alter, Connection, Error, Row};
use std::alloc::Global;
use std::cmp::Ordering;
use testing_rules_items::{ALL, Archs, Item};
use testing_rules_model::{RowIn, SharedBinary, SourceIn};
use testing_rules_suites::Testing;

/// The columns of the place of its upload in a shown row of testing's sources.
const UPLOAD: Columns = Columns {
    sender: 2,
    number: 3,
};

/// The columns of the place of its build in a shown row of testing's rows.
const BUILD: Columns = Columns {
    sender: 3,
    number: 4,
};

/// A message, if it has this sender and number.
fn own(message: Message, sender: u32, number: u32) -> Result<Message, KeepFault>
    ensures ok { IfOk result (λ own. own_by sender number (Ok message) ≡ Some own) }
    ensures bad { IsBad result → own_by sender number (Ok message) ≡ None }
{
    if message.sender != sender || message.number != number {
        return Err(KeepFault::Store(Cause::BadRow));
    }
    Ok(message)
}

/// The store's fault for a text that isn't one.
fn unlike(fault: MailFault) -> KeepFault
    ensures { result ≡ KeepFault.Store Cause.BadRow → fault ≢ MailFault.NoMemory }
{
    match fault {
        MailFault::NoMemory => KeepFault::NoMemory,
        _ => KeepFault::Store(Cause::BadRow),
    }
}

/// The message in a text, if it has this sender and number.
pub fn own_message(
    alloc: Global,
    setup: &Setup,
    text: &[u8],
    sender: u32,
    number: u32,
) -> Result<Message, KeepFault>
    ensures ok { IfOk result (λ message. own_by sender number (read setup.now text.now) ≡ Some message) }
    ensures bad { IsBad result → own_by sender number (read setup.now text.now) ≡ None }
{
    match read_message(alloc, setup, text) {
        Ok(message) => own(message, sender, number),
        Err(fault) => Err(unlike(fault)),
    }
}

/// The kept message at a place.
#[tactic(auto, unfolding(crate::specs::TableContent::message_at))]
fn message_at<S: Alter>(
    alloc: Global,
    conn: &mut Connection<S>,
    setup: &Setup,
    sender: u32,
    number: u32,
) -> Result<Message, KeepFault>
    requires ours { BeginsOurs S.Store conn.old }
    ensures reads { LeavesStore S.Store conn.old conn.new result }
    ensures ok { Finds S.Store conn.new result (λ db message. kept_message setup.now (kept_rows (db 1)) sender number ≡ Some message) }
    ensures bad { HoldsOfTables S.Store conn.new (λ db. IsBad result → IsCrowded (db 1) ⊎ (kept_message setup.now (kept_rows (db 1)) sender number ≡ None)) }
{
    match mail::find(conn, sender, number)? {
        None => Err(KeepFault::Store(Cause::BadRow)),
        Some(text) => own_message(alloc, setup, text.as_slice(), sender, number),
    }
}

/// What is needed to read the messages named by shown rows: the setup to read a text, and the rows to know which texts
/// to load together.
#[derive(Clone, Copy)]
struct Reading<'a> {
    alloc: Global,
    setup: &'a Setup,
    listed: Listed<'a>,
}

/// The kept message at a place, from its loaded text if there is one.
#[tactic(auto, unfolding(crate::specs::TableContent::message_at))]
fn message_near<S: Alter>(
    conn: &mut Connection<S>,
    reading: &Reading<'_>,
    block: &mut LoadedLetters,
    sender: u32,
    number: u32,
) -> Result<Message, KeepFault>
    requires ours { BeginsOurs S.Store conn.old }
    requires block { HoldsOfTables S.Store conn.old (λ db. AreLoaded db block.old) }
    ensures reads { LeavesStore S.Store conn.old conn.new result }
    ensures block { Finds S.Store conn.new result (λ db _. AreLoaded db block.new) }
    ensures ok { Finds S.Store conn.new result (λ db message. kept_message reading.now.setup.now (kept_rows (db 1)) sender number ≡ Some message) }
    ensures bad { HoldsOfTables S.Store conn.new (λ db. IsBad result → IsCrowded (db 1) ⊎ (kept_message reading.now.setup.now (kept_rows (db 1)) sender number ≡ None)) }
{
    bring(reading.alloc, conn, block, reading.listed, sender, number)?;
    match loaded_text(block, sender, number) {
        Some(text) => own_message(reading.alloc, reading.setup, text, sender, number),
        None => message_at(reading.alloc, conn, reading.setup, sender, number),
    }
}

/// A message that was read, and its place in the mail.
#[derive(Drop)]
struct KeptAt {
    sender: u32,
    number: u32,
    message: Message,
}

/// Whether the message read last is kept at this place.
fn is_last(last: &Option<KeptAt>, sender: u32, number: u32) -> bool
    ensures { IsTrue result → IsKeptAt sender number last.now }
{
    match last {
        Some(kept) => kept.sender == sender && kept.number == number,
        None => false,
    }
}

/// Keeps a message that was read at a place, replacing the previous one.
fn keep_last(last: &mut Option<KeptAt>, sender: u32, number: u32, message: Message)
    ensures { last.new ≡ Some (record { sender = sender; number = number; message = message }) }
{
    *last = Some(KeptAt {
        sender,
        number,
        message,
    });
}

/// Reads the kept message at a place, unless it is the one read last.
fn read_once<S: Alter>(
    conn: &mut Connection<S>,
    reading: &Reading<'_>,
    block: &mut LoadedLetters,
    last: &mut Option<KeptAt>,
    sender: u32,
    number: u32,
) -> Result<(), KeepFault>
    requires ours { BeginsOurs S.Store conn.old }
    requires block { HoldsOfTables S.Store conn.old (λ db. AreLoaded db block.old) }
    requires last { HoldsOfTables S.Store conn.old (λ db. IsKept reading.now.setup.now db last.old) }
    ensures reads { LeavesStore S.Store conn.old conn.new result }
    ensures block { Finds S.Store conn.new result (λ db _. AreLoaded db block.new) }
    ensures place { OnOk result (IsKeptAt sender number last.new) }
    ensures held { Finds S.Store conn.new result (λ db _. IsKept reading.now.setup.now db last.new) }
    ensures bad { HoldsOfTables S.Store conn.new (λ db. IsBad result → IsCrowded (db 1) ⊎ (kept_message reading.now.setup.now (kept_rows (db 1)) sender number ≡ None)) }
{
    if is_last(last, sender, number) {
        return Ok(());
    }
    let message = message_near(conn, reading, block, sender, number)?;
    keep_last(last, sender, number, message);
    Ok(())
}

/// The source brought by an upload.
fn source_brought(message: Message, sender: u32, number: u32) -> Option<SourceIn>
    ensures { result ≡ brought sender number (upload_in message.body) }
{
    match message.body {
        Body::Item(
            Item::Upload {
                source,
                version,
                ..
            },
        ) => Some(SourceIn {
            name: source,
            version,
            sender,
            number,
        }),
        _ => None,
    }
}

/// The source named by an upload, if it has this name.
fn source_named(message: Message, name: &[u8], sender: u32, number: u32) -> Option<SourceIn>
    ensures { result ≡ source_as name.now sender number (upload_in message.body) }
{
    let source = source_brought(message, sender, number)?;
    if source.name.as_str().as_bytes() == name {
        Some(source)
    } else {
        None
    }
}

/// The source named by a shown row.
fn source_at<S: Alter>(
    conn: &mut Connection<S>,
    reading: &Reading<'_>,
    block: &mut LoadedLetters,
    row: &Row,
) -> Result<SourceIn, KeepFault>
    requires ours { BeginsOurs S.Store conn.old }
    requires block { HoldsOfTables S.Store conn.old (λ db. AreLoaded db block.old) }
    ensures reads { LeavesStore S.Store conn.old conn.new result }
    ensures block { Finds S.Store conn.new result (λ db _. AreLoaded db block.new) }
    ensures ok { Finds S.Store conn.new result (λ db source. source_of reading.now.setup.now (kept_rows (db 1)) row.now ≡ Some source) }
    ensures bad { HoldsOfTables S.Store conn.new (λ db. IsBad result → row.now ≡ source_columns row.now → IsCrowded (db 1) ⊎ (source_of reading.now.setup.now (kept_rows (db 1)) row.now ≡ None)) }
{
    let (name, sender, number) = source_entry(row)?;
    let message = message_near(conn, reading, block, sender, number)?;
    match source_named(message, name, sender, number) {
        Some(source) => Ok(source),
        None => Err(KeepFault::Store(Cause::BadRow)),
    }
}

/// The rows of testing's sources, in any order.
fn source_rows<S: Alter>(conn: &mut Connection<S>) -> Result<Vec<Row>, Error>
    requires { BeginsOurs S.Store conn.old }
    ensures { Reads S.Store conn.old conn.new result (λ db rows. IsPermutation (map source_columns (db 4)) rows.items) }
{
    conn.query_all(
        "SELECT rowid, name, sender, number FROM testing_source",
        &[],
    )
}

/// The sources named by these rows.
fn sources_at<S: Alter>(
    alloc: Global,
    conn: &mut Connection<S>,
    setup: &Setup,
    rows: &[Row],
) -> Result<Vec<SourceIn>, KeepFault>
    requires ours { BeginsOurs S.Store conn.old }
    ensures reads { LeavesStore S.Store conn.old conn.new result }
    ensures ok { Finds S.Store conn.new result (λ db sources. map (source_of setup.now (kept_rows (db 1))) rows.now ≡ map Some sources.items) }
    ensures bad { HoldsOfTables S.Store conn.new (λ db. IsBad result → ReadsEach source_columns (source_of setup.now (kept_rows (db 1))) rows.now → IsCrowded (db 1)) }
{
    let mut sources = Vec::new(alloc);
    let mut block = no_block(alloc);
    let columns = UPLOAD;
    let listed = Listed { rows, columns };
    let reading = Reading {
        alloc,
        setup,
        listed,
    };
    'rows: for row in rows {
        let source = source_at(conn, &reading, &mut block, row)?;
        sources.push(source)?;
    }
    Ok(sources)
}

/// These sources by name, so that each one goes into a suite after the previous ones. Nothing depends on their order.
fn by_name(sources: Vec<SourceIn>) -> Vec<SourceIn>
    ensures { IsPermutation sources.items result.items }
{
    let mut sorted = sources;
    sorted.sort_unstable_by(|source, other| order_sources(source, other));
    sorted
}

/// The order of sources, by name.
fn order_sources(source: &SourceIn, other: &SourceIn) -> Ordering {
    source.name.as_str().cmp(other.name.as_str())
}

/// Puts these sources into a suite, one by one.
fn put_sources(testing: &mut Testing, sources: Vec<SourceIn>) -> Result<(), NoMemory>
    ensures ok { OnOk result (testing.new ≡ record { sources = put_all_sources sources.items testing.old.sources; rows = testing.old.rows }) }
{
    'sources: for source in sources {
        testing.set_source(source)?;
    }
    Ok(())
}

/// The binary of a build at a place, counted from 1.
fn binary_at(message: &Message, place: u32) -> Option<&Binary>
    ensures { option_copied result ≡ binary_in place message.now.body }
{
    match &message.body {
        Body::Item(Item::Build(binaries)) => {
            if place == 0 {
                None
            } else {
                binaries.as_slice().get(place as usize - 1)
            }
        }
        _ => None,
    }
}

/// Whether a binary has this name, and the architecture at this place.
fn is_named(archs: &Archs, arch: u32, binary: &Binary, name: &[u8]) -> bool
    ensures { result ≡ (is_arch_place archs.now arch && (bytes_eq binary.now.name name.now && bytes_eq (arch_name archs.now arch) binary.now.architecture)) }
{
    let listed = arch < archs.len() || arch == ALL;
    listed
        && (binary.name.as_str().as_bytes() == name
            && archs.name(arch) == binary.architecture.as_str())
}

/// The row of an entry's binary, if it has that name and architecture.
fn row_in(
    alloc: Global,
    archs: &Archs,
    binary: Option<&Binary>,
    entry: &RowEntry<'_>,
) -> Result<Option<RowIn>, NoMemory>
    ensures named { IfOk result (λ row. row ≡ row_as archs.now entry.now.arch entry.now.name.now entry.now.sender entry.now.number entry.now.place (option_copied binary.entry)) }
{
    let Some(binary) = binary else {
        return Ok(None);
    };
    if !is_named(archs, entry.arch, binary, entry.name) {
        return Ok(None);
    }
    Ok(Some(RowIn {
        arch: entry.arch,
        binary: SharedBinary::copy_of(alloc, binary)?,
        sender: entry.sender,
        number: entry.number,
        place: entry.place,
    }))
}

/// The binary at a place of the message read last, if that is a build.
fn binary_read(last: &Option<KeptAt>, place: u32) -> Option<&Binary>
    ensures { option_copied result ≡ read_binary place last.now }
{
    match last {
        Some(kept) => binary_at(&kept.message, place),
        None => None,
    }
}

/// The row of an entry from the message read last, if that has a binary with that name and architecture at its place.
fn row_named(
    alloc: Global,
    archs: &Archs,
    last: &Option<KeptAt>,
    entry: &RowEntry<'_>,
) -> Result<Option<RowIn>, NoMemory>
    ensures named { IfOk result (λ row. row ≡ row_as archs.now entry.now.arch entry.now.name.now entry.now.sender entry.now.number entry.now.place (read_binary entry.now.place last.now)) }
{
    row_in(alloc, archs, binary_read(last, entry.place), entry)
}

/// The row of testing named by a shown row. The message read last isn't read again.
fn row_at<S: Alter>(
    conn: &mut Connection<S>,
    reading: &Reading<'_>,
    block: &mut LoadedLetters,
    row: &Row,
    last: &mut Option<KeptAt>,
) -> Result<RowIn, KeepFault>
    requires ours { BeginsOurs S.Store conn.old }
    requires block { HoldsOfTables S.Store conn.old (λ db. AreLoaded db block.old) }
    requires last { HoldsOfTables S.Store conn.old (λ db. IsKept reading.now.setup.now db last.old) }
    ensures reads { LeavesStore S.Store conn.old conn.new result }
    ensures block { Finds S.Store conn.new result (λ db _. AreLoaded db block.new) }
    ensures known { IfOk result (λ given. IsArchPlace reading.now.setup.now.archs given.arch) }
    ensures ok { Finds S.Store conn.new result (λ db given. row_of reading.now.setup.now (kept_rows (db 1)) row.now ≡ Some given) }
    ensures held { Finds S.Store conn.new result (λ db _. IsKept reading.now.setup.now db last.new) }
    ensures bad { HoldsOfTables S.Store conn.new (λ db. IsBad result → row.now ≡ entry_columns row.now → IsCrowded (db 1) ⊎ (row_of reading.now.setup.now (kept_rows (db 1)) row.now ≡ None)) }
{
    let entry = row_entry(row)?;
    let (sender, number) = (entry.sender, entry.number);
    read_once(conn, reading, block, last, sender, number)?;
    match row_named(reading.alloc, reading.setup.archs(), last, &entry)? {
        Some(given) => Ok(given),
        None => Err(KeepFault::Store(Cause::BadRow)),
    }
}

/// The rows of testing's rows, in any order.
fn entry_rows<S: Alter>(conn: &mut Connection<S>) -> Result<Vec<Row>, Error>
    requires { BeginsOurs S.Store conn.old }
    ensures { Reads S.Store conn.old conn.new result (λ db rows. IsPermutation (map entry_columns (db 6)) rows.items) }
{
    conn.query_all(
        "SELECT rowid, arch, name, sender, number, place FROM testing_row",
        &[],
    )
}

/// These rows, with those of one message next to each other. Nothing depends on their order.
fn by_message(rows: Vec<Row>, columns: Columns) -> Vec<Row>
    ensures { IsPermutation rows.items result.items }
{
    let mut sorted = rows;
    sorted.sort_unstable_by_key(|row| message_place(row, columns));
    sorted
}

/// The rows of testing named by these rows of the table, using what was loaded and read before.
fn read_rows<S: Alter>(
    alloc: Global,
    conn: &mut Connection<S>,
    setup: &Setup,
    rows: &[Row],
    block: &mut LoadedLetters,
    last: &mut Option<KeptAt>,
) -> Result<Vec<RowIn>, KeepFault>
    requires ours { BeginsOurs S.Store conn.old }
    requires block { HoldsOfTables S.Store conn.old (λ db. AreLoaded db block.old) }
    requires last { HoldsOfTables S.Store conn.old (λ db. IsKept setup.now db last.old) }
    ensures reads { LeavesStore S.Store conn.old conn.new result }
    ensures known { IfOk result (λ given. AllByRecursion (λ r. IsArchPlace setup.now.archs r.arch) given.items) }
    ensures ok { Finds S.Store conn.new result (λ db given. map (row_of setup.now (kept_rows (db 1))) rows.now ≡ map Some given.items) }
    ensures bad { HoldsOfTables S.Store conn.new (λ db. IsBad result → ReadsEach entry_columns (row_of setup.now (kept_rows (db 1))) rows.now → IsCrowded (db 1)) }
{
    let mut given = Vec::new(alloc);
    let columns = BUILD;
    let listed = Listed { rows, columns };
    let reading = Reading {
        alloc,
        setup,
        listed,
    };
    'rows: for row in rows {
        let one = row_at(conn, &reading, block, row, last)?;
        given.push(one)?;
    }
    Ok(given)
}

/// The rows of testing named by these rows of the table.
fn rows_at<S: Alter>(
    alloc: Global,
    conn: &mut Connection<S>,
    setup: &Setup,
    rows: &[Row],
) -> Result<Vec<RowIn>, KeepFault>
    requires ours { BeginsOurs S.Store conn.old }
    ensures reads { LeavesStore S.Store conn.old conn.new result }
    ensures known { IfOk result (λ given. AllByRecursion (λ r. IsArchPlace setup.now.archs r.arch) given.items) }
    ensures ok { Finds S.Store conn.new result (λ db given. map (row_of setup.now (kept_rows (db 1))) rows.now ≡ map Some given.items) }
    ensures bad { HoldsOfTables S.Store conn.new (λ db. IsBad result → ReadsEach entry_columns (row_of setup.now (kept_rows (db 1))) rows.now → IsCrowded (db 1)) }
{
    let mut block = no_block(alloc);
    let mut last = None;
    read_rows(alloc, conn, setup, rows, &mut block, &mut last)
}

/// These rows by architecture and name, so that each one goes into a suite after the previous ones. Nothing depends on
/// their order.
fn by_key(rows: Vec<RowIn>) -> Vec<RowIn>
    ensures { IsPermutation rows.items result.items }
{
    let mut sorted = rows;
    sorted.sort_unstable_by(|row, other| order_rows(row, other));
    sorted
}

/// The order of rows, by architecture and name.
fn order_rows(row: &RowIn, other: &RowIn) -> Ordering {
    let names = row.binary.name.as_str().cmp(other.binary.name.as_str());
    row.arch.cmp(&other.arch).then(names)
}

/// Puts these rows into a suite, one by one.
fn put_rows(testing: &mut Testing, rows: Vec<RowIn>) -> Result<(), NoMemory>
    ensures ok { OnOk result (testing.new ≡ record { sources = testing.old.sources; rows = put_all_rows rows.items testing.old.rows }) }
{
    'rows: for row in rows {
        testing.set_row(row)?;
    }
    Ok(())
}

/// Puts these sources and rows into a suite. If two of them have the same key, no office wrote the tables.
fn gather(testing: &mut Testing, sources: Vec<SourceIn>, rows: Vec<RowIn>) -> Result<(), KeepFault>
    requires empty { (testing.old.sources ≡ []) × (testing.old.rows ≡ []) }
    ensures ok { OnOk result (IsGathered sources.items rows.items testing.new) }
    ensures bad { IsBad result → length (put_all_sources sources.items []) ≡ length sources.items → length (put_all_rows rows.items []) ≢ length rows.items }
{
    let count = sources.len();
    let more = rows.len();
    put_sources(testing, sources)?;
    put_rows(testing, rows)?;
    if testing.sources().len() != count || testing.rows().len() != more {
        return Err(KeepFault::Store(Cause::BadRow));
    }
    Ok(())
}

/// The suite of these sources and rows.
fn gathered(alloc: Global, sources: Vec<SourceIn>, rows: Vec<RowIn>) -> Result<Testing, KeepFault>
    ensures ok { IfOk result (λ testing. IsGathered sources.items rows.items testing) }
    ensures bad { IsBad result → length (put_all_sources sources.items []) ≡ length sources.items → length (put_all_rows rows.items []) ≢ length rows.items }
{
    let mut testing = Testing::new(alloc);
    gather(&mut testing, sources, rows)?;
    Ok(testing)
}

/// Testing, named by its entries and read from the kept mail.
pub fn testing<S: Alter>(
    alloc: Global,
    conn: &mut Connection<S>,
    setup: &Setup,
) -> Result<Testing, KeepFault>
    requires ours { BeginsOurs S.Store conn.old }
    ensures reads { LeavesStore S.Store conn.old conn.new result }
    ensures bad { HoldsOfTables S.Store conn.new (λ db. IsWhole (kept_rows (db 1)) (db 1) → AreNamed setup.now db → NeverBad result) }
    ensures known { IfOk result (λ testing. KnowsArchs setup.now.archs testing.rows) }
    ensures value { Finds S.Store conn.new result (λ db testing. testing ≡ suite_in setup.now (kept_rows (db 1)) (source_map (db 4)) (entry_map (db 6))) }
    ensures legible { Finds S.Store conn.new result (λ db _. AreNamed setup.now db) }
{
    let named = source_rows(conn)?;
    let uploads = by_message(named, UPLOAD);
    let read = sources_at(alloc, conn, setup, uploads.as_slice())?;
    let sources = by_name(read);
    let found = entry_rows(conn)?;
    let listed = by_message(found, BUILD);
    let given = rows_at(alloc, conn, setup, listed.as_slice())?;
    let rows = by_key(given);
    gathered(alloc, sources, rows)
}
