//! The migration of a store of schema 1: the table of the last delays is made, and filled from the kept mail.
ghost use Rattle.std.specs.Prelude.{◌≡◌, ◌≢◌, ◌+◌, None, Some, Err, max, map, filter, is_some, IfOk, OnOk, OnErr};
ghost use Rattle.std.specs.List.Sorted.{IsPermutation};
ghost use Rattle.sqlite.specs.Order.{column};
ghost use Rattle.sqlite.specs.Held.{state};
ghost use Rattle.sqlite.specs.State.{HasCleanDisk};
ghost use Rattle.office_mail.specs.Lists.{Lists};
ghost use Rattle.office_mail.specs.Runs.{runs, cover, order_in_body};
ghost use Rattle.office_mail.specs.Setup.{IsSetup};
ghost use Rattle.office_store_keeper.specs.Content.{letters_within};
ghost use Rattle.office_store_keeper.specs.LastDelays.{IsLastTold};
ghost use Rattle.office_store_keeper.specs.declared.faults.Cause.TheVariants.{BadRow};
ghost use Rattle.office_store_tables.specs.Layout.{schema_before};
ghost use Rattle.office_store_tables.specs.Tables.{IsTrusted, IsOurs, IsWhole, number_in, kept_rows};
ghost use Rattle.office_store_tables.specs.Faults.{IsBad};
ghost use Rattle.office_store_tables.specs.steps.Tables.{Lasts};
ghost use Rattle.office_store_tables.specs.TableSteps.{IsCrowded, is_between, letter_columns, office_columns};
ghost use Rattle.office_store_tables.specs.StepsWithin.{StepsWithin, BeginsInside, Performs, Looks};
ghost use Rattle.office_store_tables.specs.TableContent.{release_place};
ghost use Rattle.office_store_tables.specs.steps.CreatingSteps.{IsBuilding};
ghost use Rattle.office_store_tables.specs.SetupText.{setup_text as text_of};
ghost use Rattle.office_store_tables.specs.Unchanged.{IsAsItWas};
ghost use Rattle.office_store.specs.Opening.{lists_by, text_before, text_of_one, IsKeptForOther, IsMigrated, IsUnreadable};
ghost use Rattle.office_store.specs.steps.Opening.{shown_office};
ghost use Rattle.office_store.specs.Migrating.{AreMessages};
ghost use Rattle.office_store.specs.steps.MigratingSteps.{HeldBefore, count_by, count_shown, IsJudged, stated_by, next_stated, cover_on, delays_in_body, next_told, told_on, PutsLast, Widens, WritesAnew};

use crate::openings::{OpenFault, judge, number_at};
use office_mail::{Body, Message, RunOrder, Setup};
use office_store_keeper::{Cause, KeepFault, Letter};
use office_store_tables::entries::own_message;
use office_store_tables::fact_changes::add_delays;
use office_store_tables::fact_rows::release_place;
use office_store_tables::mail::{by_number, letters_in};
use office_store_tables::runs::{add_office, clear_office};
use office_store_tables::schema::create_fact_delays;
use office_store_tables::setup_text::setup_text;
use sqlite::{Alter, Connection, Error, Row, Transaction, params};
use std::alloc::Global;
use testing_rules_items::Item;

/// Makes the table of the last delays, in addition to the six.
fn widen<S: Alter>(tx: &mut Transaction<'_, S>) -> Result<usize, Error>
    requires building { IsTrusted (state S.Store tx.old.conn.now) → IsBuilding schema_before (state S.Store tx.old.conn.now) }
    ensures steps { StepsWithin S.Store tx.old.conn tx.new.conn result }
    ensures widened { IsTrusted (state S.Store tx.new.conn.now) → OnOk result (Widens (state S.Store tx.old.conn.now) (state S.Store tx.new.conn.now)) }
{
    let made = create_fact_delays(tx)?;
    Ok(made)
}

/// The rows of the office, in any order.
fn office_rows<S: Alter>(tx: &mut Transaction<'_, S>) -> Result<Vec<Row>, Error>
    requires { BeginsInside S.Store tx.old.conn }
    ensures { Looks S.Store tx.old.conn tx.new.conn result (λ db rows. IsPermutation (map office_columns (db 0)) rows.items) }
{
    tx.query_all("SELECT id, schema, setup, finished FROM office", &[])
}

/// The rows of mail with this sender's place and a number from one to another, in any order.
fn letters_between<S: Alter>(
    tx: &mut Transaction<'_, S>,
    sender: u32,
    from: u32,
    to: u32,
) -> Result<Vec<Row>, Error>
    requires { BeginsInside S.Store tx.old.conn }
    ensures { Looks S.Store tx.old.conn tx.new.conn result (λ db rows. IsPermutation (map letter_columns (filter (is_between sender from to) (db 1))) rows.items) }
{
    tx.query_all(
        "SELECT sender, number, body FROM mail WHERE sender = ?1 AND number >= ?2 AND number <= ?3",
        params![sender, from, to],
    )
}

/// The kept numbers of a sender up to one with their texts, by number.
fn letters_to<S: Alter>(
    alloc: Global,
    tx: &mut Transaction<'_, S>,
    sender: u32,
    to: u32,
) -> Result<Vec<Letter>, KeepFault>
    requires { BeginsInside S.Store tx.old.conn }
    ensures looks { Looks S.Store tx.old.conn tx.new.conn result (λ db letters. letters.items ≡ letters_within (kept_rows (db 1)) sender 1 to) }
    ensures bad { HeldBefore S.Store tx.old.conn tx.new.conn (λ db. IsBad result → IsCrowded (db 1)) }
{
    let rows = letters_between(tx, sender, 1, to)?;
    let letters = letters_in(alloc, rows.as_slice(), sender)?;
    by_number(letters)
}

/// The count of runs in a shown row of the office, or 0 if it isn't a number of 32 bits.
fn count_at(row: &Row) -> u32
    ensures { result ≡ count_by (number_in (column row.now 3)) }
{
    match number_at(row, 3) {
        Some(count) => {
            if count <= 4_294_967_295 {
                count as u32
            } else {
                0
            }
        }
        None => 0,
    }
}

/// The count of runs in the only row, or 0 without one.
fn count_shown(rows: &[Row]) -> u32
    ensures { result ≡ count_shown rows.now }
{
    match rows {
        [row] => count_at(row),
        _ => 0,
    }
}

/// The number of finished runs in the only row of the office, if it has schema 1 and this setup.
fn count_judged(alloc: Global, rows: &[Row], setup: &Setup) -> Result<u32, OpenFault>
    ensures ok { IfOk result (λ finished. (lists_by (text_of_one 1 shown_office rows.now) ≡ Some setup.now) × (finished ≡ count_shown rows.now)) }
    ensures other { result ≡ Err OpenFault.OtherSetup → (kept : Lists) × (lists_by (text_of_one 1 shown_office rows.now) ≡ Some kept) × (kept ≢ setup.now) }
    ensures unknown { result ≡ Err OpenFault.UnknownSchema → lists_by (text_of_one 1 shown_office rows.now) ≡ None }
    ensures bad { result ≢ Err (OpenFault.Store BadRow) }
{
    judge(alloc, rows, 1, setup)?;
    Ok(count_shown(rows))
}

/// The number of finished runs, if the office's only row has schema 1 and this setup.
fn judged<S: Alter>(
    alloc: Global,
    tx: &mut Transaction<'_, S>,
    setup: &Setup,
) -> Result<u32, OpenFault>
    requires { BeginsInside S.Store tx.old.conn }
    ensures looks { Looks S.Store tx.old.conn tx.new.conn result (λ db finished. IsJudged setup.now (db 0) finished) }
    ensures other { HeldBefore S.Store tx.old.conn tx.new.conn (λ db. result ≡ Err OpenFault.OtherSetup → (kept : Lists) × (lists_by (text_before (db 0)) ≡ Some kept) × (kept ≢ setup.now)) }
    ensures unknown { HeldBefore S.Store tx.old.conn tx.new.conn (λ db. result ≡ Err OpenFault.UnknownSchema → lists_by (text_before (db 0)) ≡ None) }
    ensures bad { result ≢ Err (OpenFault.Store BadRow) }
{
    let rows = office_rows(tx)?;
    count_judged(alloc, rows.as_slice(), setup)
}

/// What an order states for the release team, or 0 without an entry.
fn stated_by(order: &RunOrder, release: u32) -> u32
    ensures { Some result ≡ stated_by release (Some order.now) }
{
    order
        .covers
        .as_slice()
        .get(release as usize)
        .copied()
        .unwrap_or(0)
}

/// What the run order in a message states for the release team; another message is refused.
fn stated_in(message: Message, release: u32) -> Result<u32, KeepFault>
    ensures ok { IfOk result (λ stated. stated_by release (order_in_body message.body) ≡ Some stated) }
    ensures bad { IsBad result → stated_by release (order_in_body message.body) ≡ None }
{
    match message.body {
        Body::Run(order) => {
            let stated = stated_by(&order, release);
            drop(order);
            Ok(stated)
        }
        Body::Item(item) => {
            drop(item);
            Err(KeepFault::Store(Cause::BadRow))
        }
    }
}

/// What the letter after this many orders states for the release team.
#[tactic(auto, unfolding(crate::specs::steps::MigratingSteps::next_stated))]
fn next_stated(alloc: Global, setup: &Setup, count: u32, letter: &Letter) -> Result<u32, KeepFault>
    ensures ok { IfOk result (λ stated. next_stated setup.now count letter.now ≡ Some stated) }
    ensures bad { IsBad result → next_stated setup.now count letter.now ≡ None }
    ensures next { OnOk result (letter.now.number ≡ count + 1) }
{
    if letter.number as u64 != count as u64 + 1 {
        return Err(KeepFault::Store(Cause::BadRow));
    }
    let message = own_message(
        alloc,
        setup,
        letter.text.as_slice(),
        setup.runs(),
        letter.number,
    )?;
    stated_in(message, release_place(setup))
}

/// The greater of two numbers.
fn greater(a: u32, b: u32) -> u32
    ensures { result ≡ max a b }
{
    if a < b { b } else { a }
}

/// The greatest number that these orders state for the release team. Each must be an order, and none may be missing.
#[tactic(auto, unfolding(crate::specs::steps::MigratingSteps::cover_on))]
fn cover_of(
    alloc: Global,
    setup: &Setup,
    finished: u32,
    letters: &[Letter],
) -> Result<u32, KeepFault>
    ensures ok { IfOk result (λ cover. cover_on setup.now finished 0 0 letters.now ≡ Some cover) }
    ensures bad { IsBad result → cover_on setup.now finished 0 0 letters.now ≡ None }
{
    let mut count = 0;
    let mut cover = 0;
    'letters: for letter in letters {
        let stated = next_stated(alloc, setup, count, letter)?;
        cover = greater(cover, stated);
        count = letter.number;
    }
    if count == finished {
        Ok(cover)
    } else {
        Err(KeepFault::Store(Cause::BadRow))
    }
}

/// Whether a message sets delays.
fn tells_delays(message: &Message, sender: u32, number: u32) -> bool
    ensures { result ≡ is_some (delays_in_body sender number message.now.body) }
{
    matches!(&message.body, Body::Item(Item::Delays { .. }))
}

/// The number of the last delays after reading a letter of the release team.
#[tactic(auto, unfolding(crate::specs::steps::MigratingSteps::next_told))]
fn next_told(
    alloc: Global,
    setup: &Setup,
    last: Option<u32>,
    letter: &Letter,
) -> Result<Option<u32>, KeepFault>
    ensures ok { IfOk result (λ now. next_told setup.now last letter.now ≡ Some now) }
    ensures bad { IsBad result → next_told setup.now last letter.now ≡ None }
{
    let release = release_place(setup);
    let message = own_message(alloc, setup, letter.text.as_slice(), release, letter.number)?;
    let tells = tells_delays(&message, release, letter.number);
    drop(message);
    if tells {
        Ok(Some(letter.number))
    } else {
        Ok(last)
    }
}

/// The number of the last of these letters that sets delays. Each must be a message of the release team.
#[tactic(auto, unfolding(crate::specs::steps::MigratingSteps::told_on))]
fn last_told(alloc: Global, setup: &Setup, letters: &[Letter]) -> Result<Option<u32>, KeepFault>
    ensures ok { IfOk result (λ last. told_on setup.now None letters.now ≡ Some last) }
    ensures bad { IsBad result → told_on setup.now None letters.now ≡ None }
{
    let mut last = None;
    'letters: for letter in letters {
        last = next_told(alloc, setup, last, letter)?;
    }
    Ok(last)
}

/// What the orders of the finished runs state for the release team.
fn covered<S: Alter>(
    alloc: Global,
    tx: &mut Transaction<'_, S>,
    setup: &Setup,
    finished: u32,
) -> Result<u32, KeepFault>
    requires { BeginsInside S.Store tx.old.conn }
    ensures looks { Looks S.Store tx.old.conn tx.new.conn result (λ db stated. cover_on setup.now finished 0 0 (letters_within (kept_rows (db 1)) (runs setup.now) 1 finished) ≡ Some stated) }
    ensures bad { HeldBefore S.Store tx.old.conn tx.new.conn (λ db. IsBad result → IsWhole (kept_rows (db 1)) (db 1) → cover_on setup.now finished 0 0 (letters_within (kept_rows (db 1)) (runs setup.now) 1 finished) ≡ None) }
{
    let orders = letters_to(alloc, tx, setup.runs(), finished)?;
    cover_of(alloc, setup, finished, orders.as_slice())
}

/// The number of the last delays that the release team set up to a cover.
fn last_delays_number<S: Alter>(
    alloc: Global,
    tx: &mut Transaction<'_, S>,
    setup: &Setup,
    to: u32,
) -> Result<Option<u32>, KeepFault>
    requires { BeginsInside S.Store tx.old.conn }
    ensures looks { Looks S.Store tx.old.conn tx.new.conn result (λ db last. told_on setup.now None (letters_within (kept_rows (db 1)) (release_place setup.now) 1 to) ≡ Some last) }
    ensures bad { HeldBefore S.Store tx.old.conn tx.new.conn (λ db. IsBad result → IsWhole (kept_rows (db 1)) (db 1) → told_on setup.now None (letters_within (kept_rows (db 1)) (release_place setup.now) 1 to) ≡ None) }
{
    let letters = letters_to(alloc, tx, release_place(setup), to)?;
    last_told(alloc, setup, letters.as_slice())
}

/// The number of the last delays covered by the finished runs, if there are any.
fn find_last<S: Alter>(
    alloc: Global,
    tx: &mut Transaction<'_, S>,
    setup: &Setup,
    finished: u32,
) -> Result<Option<u32>, KeepFault>
    requires { BeginsInside S.Store tx.old.conn }
    ensures looks { Looks S.Store tx.old.conn tx.new.conn result (λ db last. AreMessages setup.now (kept_rows (db 1)) finished × IsLastTold setup.now (kept_rows (db 1)) (cover setup.now (kept_rows (db 1)) finished (release_place setup.now)) last) }
    ensures bad { HeldBefore S.Store tx.old.conn tx.new.conn (λ db. IsBad result → IsWhole (kept_rows (db 1)) (db 1) → AreMessages setup.now (kept_rows (db 1)) finished → ⊥) }
{
    let to = covered(alloc, tx, setup, finished)?;
    last_delays_number(alloc, tx, setup, to)
}

/// Adds the number of the last delays, if there is one.
fn put_last<S: Alter>(tx: &mut Transaction<'_, S>, last: Option<u32>) -> Result<(), Error>
    requires { BeginsInside S.Store tx.old.conn }
    ensures { Performs S.Store tx.old.conn tx.new.conn result (λ db next _. PutsLast db next last) }
{
    match last {
        None => Ok(()),
        Some(number) => {
            add_delays(tx, number)?;
            Ok(())
        }
    }
}

/// Writes what schema 2 adds: the number of the last delays, and the schema's number in the office's row.
fn write_anew<S: Alter>(
    tx: &mut Transaction<'_, S>,
    last: Option<u32>,
    setup: &str,
    finished: u32,
) -> Result<usize, Error>
    requires { BeginsInside S.Store tx.old.conn }
    ensures { Performs S.Store tx.old.conn tx.new.conn result (λ db next _. WritesAnew db next last (record { schema = 2; setup = setup.now; finished = finished })) }
{
    put_last(tx, last)?;
    let _old = clear_office(tx)?;
    let added = add_office(tx, 2, setup, finished)?;
    Ok(added)
}

/// The steps of the migration.
fn change_schema<S: Alter>(
    alloc: Global,
    tx: &mut Transaction<'_, S>,
    setup: &Setup,
    text: &str,
) -> Result<usize, OpenFault>
    requires building { IsTrusted (state S.Store tx.old.conn.now) → IsBuilding schema_before (state S.Store tx.old.conn.now) }
    requires text { text.now ≡ text_of setup.now }
    requires valid { IsSetup setup.now }
    ensures steps { StepsWithin S.Store tx.old.conn tx.new.conn result }
    ensures migrated { IsTrusted (state S.Store tx.new.conn.now) → OnOk result (IsMigrated setup.now (state S.Store tx.old.conn.now).now (state S.Store tx.new.conn.now).now) }
    ensures other { IsTrusted (state S.Store tx.new.conn.now) → result ≡ Err OpenFault.OtherSetup → IsKeptForOther setup.now (state S.Store tx.old.conn.now).now }
    ensures unknown { HeldBefore S.Store tx.old.conn tx.new.conn (λ db. result ≡ Err OpenFault.UnknownSchema → lists_by (text_before (db 0)) ≡ None) }
    ensures bad { IsTrusted (state S.Store tx.new.conn.now) → result ≡ Err (OpenFault.Store BadRow) → IsUnreadable setup.now (state S.Store tx.old.conn.now).now }
{
    let _made = widen(tx)?;
    let finished = judged(alloc, tx, setup)?;
    let last = find_last(alloc, tx, setup, finished)?;
    let added = write_anew(tx, last, text, finished)?;
    Ok(added)
}

/// Migrates a store of schema 1, all or nothing. It is refused if it was made for another setup, if it has another
/// schema number, or if one of its orders, or of the release mail up to their cover, isn't a message with its sender
/// and number.
pub(crate) fn migrate<S: Alter>(
    alloc: Global,
    conn: &mut Connection<S>,
    setup: &Setup,
) -> Result<(), OpenFault>
    requires six { IsTrusted (state S.Store conn.old) → (state S.Store conn.old).now.schema ≡ schema_before }
    ensures before { IsTrusted (state S.Store conn.new) → IsTrusted (state S.Store conn.old) }
    ensures lasts { Lasts (state S.Store conn.old) (state S.Store conn.new) }
    ensures open { HasCleanDisk (state S.Store conn.new) → IsTrusted (state S.Store conn.old) → OnOk result (IsTrusted (state S.Store conn.new)) }
    ensures ours { IsTrusted (state S.Store conn.new) → OnOk result (IsOurs (state S.Store conn.new)) }
    ensures migrated { IsTrusted (state S.Store conn.new) → OnOk result (IsMigrated setup.now (state S.Store conn.old).now (state S.Store conn.new).now) }
    ensures err { IsTrusted (state S.Store conn.new) → OnErr result (IsAsItWas (state S.Store conn.old) (state S.Store conn.new)) }
    ensures other { IsTrusted (state S.Store conn.new) → result ≡ Err OpenFault.OtherSetup → IsKeptForOther setup.now (state S.Store conn.old).now }
    ensures unknown { IsTrusted (state S.Store conn.new) → result ≡ Err OpenFault.UnknownSchema → lists_by (text_before ((state S.Store conn.old).now.trees 0)) ≡ None }
    ensures bad { IsTrusted (state S.Store conn.new) → result ≡ Err (OpenFault.Store BadRow) → IsUnreadable setup.now (state S.Store conn.old).now }
{
    if !conn.is_autocommit() {
        return Err(OpenFault::Store(Cause::Sqlite(Error::InvalidQuery)));
    }
    let text = setup_text(alloc, setup)?;
    let mut tx = conn.transaction();
    let _written = change_schema(alloc, &mut tx, setup, text.as_str())?;
    tx.commit()?;
    Ok(())
}
