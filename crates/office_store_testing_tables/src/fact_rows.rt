//! The tables of facts, read back.
ghost use Rattle.std.specs.Prelude.{◌≡◌, ◌≢◌, ◌<◌, ◌∷◌, ◌++◌, [], ℤ, ℕ, true, Some, None, pos, length, map, option_to_list, IfOk};
ghost use Rattle.std.specs.List.Sorted.{IsPermutation};
ghost use Rattle.sqlite.specs.Order.{column};
ghost use Rattle.sqlite.specs.declared.types.Value.TheVariants.{Int};
ghost use Rattle.testing_rules_model.specs.FactRows.{number_of};
ghost use Rattle.testing_rules_model.specs.declared.fact_row.FactKind.{FactKind as AKind};
ghost use Rattle.office_store_keeper.specs.FactSet.{rows_in as rows_in_set, set_of_rows};
ghost use Rattle.office_store_testing_tables.specs.steps.Faults.{IsBad, NeverBad};
ghost use Rattle.office_store_testing_tables.specs.steps.Reads.{LeavesStore, BeginsOurs, Finds, Reads, HoldsOfTables};
ghost use Rattle.office_store_testing_tables.specs.TableContent.{release_place};
ghost use Rattle.office_store_testing_tables.specs.steps.TableContent.{ReadsEach};
ghost use Rattle.office_store_testing_tables.specs.Legible.{AreRead};
ghost use Rattle.office_store_testing_tables.specs.FactTables.{fact_entry, may_stand, fact_in, delays_of, facts_in};
ghost use Rattle.office_store_testing_tables.specs.steps.FactSteps.{fact_columns, delays_columns, shown_delays, IsOnlyDelays};

use crate::shown::{number_in, rowid_in};
use deb_control::NoMemory;
use office_mail::{Role, Setup};
use office_store_keeper::{Cause, KeepFault, rows_in_order};
use sqlite::{Alter, Connection, Error, Row};
use std::alloc::Global;
use testing_rules_model::{FactKind, FactRow, FactRows};

/// The place of the release team.
pub fn release_place(setup: &Setup) -> u32
    ensures { result ≡ release_place setup.now }
{
    let senders = setup.senders();
    let mut place = 0;
    'senders: for sender in senders {
        if matches!(sender.role, Role::Release) {
            return place;
        }
        place += 1;
    }
    place
}

/// Whether the table of facts may have a row of this kind with this place.
fn may_stand(kind: FactKind, place: u32) -> bool
    ensures { result ≡ may_stand kind place }
{
    match kind {
        FactKind::Delays => false,
        FactKind::Build => true,
        _ => place == 0,
    }
}

/// The kind whose number is in the second column of a shown row of facts.
fn kind_in(row: &Row) -> Result<FactKind, KeepFault>
    ensures ok { IfOk result (λ kind. column row.now 1 ≡ Int (pos (number_of kind))) }
    ensures bad { IsBad result → 1 < length row.now → (kind : AKind) → column row.now 1 ≢ Int (pos (number_of kind)) }
{
    let number = number_in(row, 1)?;
    match FactKind::of_number(number) {
        Some(kind) => Ok(kind),
        None => Err(KeepFault::Store(Cause::BadRow)),
    }
}

/// The kind and the three numbers in a shown row of facts.
fn fact_numbers(row: &Row) -> Result<FactRow, KeepFault>
    ensures ok { IfOk result (λ fact. may_stand fact.kind fact.place ≡ true → fact_in row.now ≡ Some (fact_entry fact)) }
    ensures is { IfOk result (λ fact. (column row.now 1 ≡ Int (pos (number_of fact.kind))) × (column row.now 4 ≡ Int (pos fact.place))) }
    ensures bad { IsBad result → (id : ℤ) (kind : AKind) (sender number place : ℕ) → sender < 4_294_967_296 → number < 4_294_967_296 → place < 4_294_967_296 → row.now ≢ Int id ∷ Int (pos (number_of kind)) ∷ Int (pos sender) ∷ Int (pos number) ∷ Int (pos place) ∷ [] }
{
    let _rowid = rowid_in(row)?;
    let kind = kind_in(row)?;
    let sender = number_in(row, 2)?;
    let number = number_in(row, 3)?;
    let place = number_in(row, 4)?;
    Ok(FactRow {
        kind,
        sender,
        number,
        place,
    })
}

/// The content of a shown row of facts.
fn fact_said(row: &Row) -> Result<FactRow, KeepFault>
    ensures ok { IfOk result (λ fact. fact_in row.now ≡ Some (fact_entry fact)) }
    ensures bad { IsBad result → row.now ≡ fact_columns row.now → fact_in row.now ≡ None }
{
    let fact = fact_numbers(row)?;
    if !may_stand(fact.kind, fact.place) {
        return Err(KeepFault::Store(Cause::BadRow));
    }
    Ok(fact)
}

/// The content of these rows of facts, in their order.
fn facts_said(alloc: Global, rows: &[Row]) -> Result<Vec<FactRow>, KeepFault>
    ensures ok { IfOk result (λ facts. map fact_in rows.now ≡ map Some (map fact_entry facts.items)) }
    ensures bad { IsBad result → ReadsEach fact_columns fact_in rows.now → ⊥ }
{
    let mut facts = Vec::new(alloc);
    'rows: for row in rows {
        let fact = fact_said(row)?;
        facts.push(fact)?;
    }
    Ok(facts)
}

/// The number in the shown row of the last delays with the id 1.
fn delays_number(row: &Row) -> Result<u32, KeepFault>
    ensures ok { IfOk result (λ number. (release : ℕ) → shown_delays release row.now ≡ Some (fact_entry (delays_of release number))) }
    ensures bad { IsBad result → (number : ℕ) → number < 4_294_967_296 → row.now ≢ Int (pos 1) ∷ Int (pos number) ∷ [] }
{
    let id = number_in(row, 0)?;
    if id != 1 {
        return Err(KeepFault::Store(Cause::BadRow));
    }
    let number = number_in(row, 1)?;
    Ok(number)
}

/// The fact in the only row of the last delays, if there is one.
fn delays_said(rows: &[Row], release: u32) -> Result<Option<FactRow>, KeepFault>
    ensures ok { IfOk result (λ fact. IsOnlyDelays release fact rows.now) }
    ensures none { IsBad result → rows.now ≢ [] }
    ensures one { IsBad result → (number : ℕ) → number < 4_294_967_296 → rows.now ≢ (Int (pos 1) ∷ Int (pos number) ∷ []) ∷ [] }
{
    match rows {
        [] => Ok(None),
        [row] => Ok(Some(FactRow {
            kind: FactKind::Delays,
            sender: release,
            number: delays_number(row)?,
            place: 0,
        })),
        _ => Err(KeepFault::Store(Cause::BadRow)),
    }
}

/// The rows of facts, in any order.
fn fact_rows<S: Alter>(conn: &mut Connection<S>) -> Result<Vec<Row>, Error>
    requires { BeginsOurs S.Store conn.old }
    ensures { Reads S.Store conn.old conn.new result (λ db rows. IsPermutation (map fact_columns (db 8)) rows.items) }
{
    conn.query_all("SELECT rowid, kind, sender, number, place FROM fact", &[])
}

/// The rows of the last delays, in any order.
fn delays_rows<S: Alter>(conn: &mut Connection<S>) -> Result<Vec<Row>, Error>
    requires { BeginsOurs S.Store conn.old }
    ensures { Reads S.Store conn.old conn.new result (λ db rows. IsPermutation (map delays_columns (db 10)) rows.items) }
{
    conn.query_all("SELECT id, number FROM fact_delays", &[])
}

/// These facts and the delays' one, if there is one, in order and each once.
fn in_order(
    alloc: Global,
    facts: Vec<FactRow>,
    delays: Option<FactRow>,
) -> Result<FactRows, NoMemory>
    ensures { IfOk result (λ rows. rows ≡ rows_in_set (set_of_rows (facts.items ++ option_to_list delays))) }
{
    let mut all = facts;
    if let Some(fact) = delays {
        all.push(fact)?;
    }
    rows_in_order(alloc, all.as_slice())
}

/// The facts in the tables, in order.
pub fn facts<S: Alter>(
    alloc: Global,
    conn: &mut Connection<S>,
    setup: &Setup,
) -> Result<FactRows, KeepFault>
    requires ours { BeginsOurs S.Store conn.old }
    ensures reads { LeavesStore S.Store conn.old conn.new result }
    ensures bad { HoldsOfTables S.Store conn.new (λ db. AreRead (release_place setup.now) (db 8) (db 10) → NeverBad result) }
    ensures value { Finds S.Store conn.new result (λ db rows. rows ≡ rows_in_set (facts_in (release_place setup.now) (db 8) (db 10))) }
    ensures legible { Finds S.Store conn.new result (λ db _. AreRead (release_place setup.now) (db 8) (db 10)) }
{
    let release = release_place(setup);
    let shown = fact_rows(conn)?;
    let facts = facts_said(alloc, shown.as_slice())?;
    let last = delays_rows(conn)?;
    let delays = delays_said(last.as_slice(), release)?;
    let rows = in_order(alloc, facts, delays)?;
    Ok(rows)
}
