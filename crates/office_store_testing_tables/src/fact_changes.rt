//! Changes of the tables of facts.
ghost use Rattle.std.specs.Prelude.{◌≡◌, ◌≤◌, ◌<◌, map, filter, take, length, IfOk};
ghost use Rattle.std.specs.List.{AllByRecursion, list_all};
ghost use Rattle.std.specs.List.Sorted.{IsPermutation};
ghost use Rattle.sqlite.specs.Values.{bound};
ghost use Rattle.office_store_testing_tables.specs.steps.Faults.{NeverBad};
ghost use Rattle.office_store_testing_tables.specs.steps.StepsWithin.{BeginsInside, Performs, PerformsNeverBad, Looks};
ghost use Rattle.office_store_testing_tables.specs.steps.FactSteps.{is_fact, is_delays, id_columns, IsRowidFound, AddsFact, AddsFacts, AddsDelays, fact_parameters, FitsFact, is_no_delays, DropsFact, DropsDelays, DropsOne, AddsOne, DropsEach, AddsEach};

use crate::rowids::{ChangedTable, only_id, take_one};
use office_store_keeper::KeepFault;
use sqlite::types::{ToSql, ValueRef};
use sqlite::{Alter, Error, Row, Transaction, params};
use testing_rules_model::{FactKind, FactRow};

/// The rowids of a fact, in any order.
fn fact_ids<S: Alter>(
    tx: &mut Transaction<'_, S>,
    kind: FactKind,
    sender: u32,
    number: u32,
    place: u32,
) -> Result<Vec<Row>, Error>
    requires { BeginsInside S.Store tx.old.conn }
    ensures { Looks S.Store tx.old.conn tx.new.conn result (λ db rows. IsPermutation (map id_columns (filter (is_fact (record { kind = kind; sender = sender; number = number; place = place })) (db 8))) rows.items) }
{
    let kind = kind.number();
    tx.query_all(
        "SELECT rowid FROM fact WHERE kind = ?1 AND sender = ?2 AND number = ?3 AND place = ?4",
        params![kind, sender, number, place],
    )
}

/// The rowids of the delays under a number, in any order.
fn delays_ids<S: Alter>(tx: &mut Transaction<'_, S>, number: u32) -> Result<Vec<Row>, Error>
    requires { BeginsInside S.Store tx.old.conn }
    ensures { Looks S.Store tx.old.conn tx.new.conn result (λ db rows. IsPermutation (map id_columns (filter (is_delays number) (db 10))) rows.items) }
{
    tx.query_all(
        "SELECT id FROM fact_delays WHERE number = ?1",
        params![number],
    )
}

/// Adds one fact.
fn add_fact<S: Alter>(
    tx: &mut Transaction<'_, S>,
    kind: FactKind,
    sender: u32,
    number: u32,
    place: u32,
) -> Result<usize, Error>
    requires { BeginsInside S.Store tx.old.conn }
    ensures { Performs S.Store tx.old.conn tx.new.conn result (λ db next _. AddsFact db next (record { kind = kind; sender = sender; number = number; place = place })) }
{
    let kind = kind.number();
    tx.execute(
        "INSERT INTO fact (kind, sender, number, place) VALUES (?1, ?2, ?3, ?4)",
        params![kind, sender, number, place],
    )
}

/// Adds the number of the last delays.
pub fn add_delays<S: Alter>(tx: &mut Transaction<'_, S>, number: u32) -> Result<usize, Error>
    requires { BeginsInside S.Store tx.old.conn }
    ensures { Performs S.Store tx.old.conn tx.new.conn result (λ db next _. AddsDelays db next number) }
{
    tx.execute(
        "INSERT INTO fact_delays (id, number) VALUES (1, ?1)",
        params![number],
    )
}

/// The rowid of a fact, if it is in the table.
fn found_fact<S: Alter>(
    tx: &mut Transaction<'_, S>,
    fact: &FactRow,
) -> Result<Option<i64>, KeepFault>
    requires { BeginsInside S.Store tx.old.conn }
    ensures looks { Looks S.Store tx.old.conn tx.new.conn result (λ db id. IsRowidFound (is_fact fact.now) (db 8) id) }
    ensures bad { NeverBad result }
{
    let shown = fact_ids(tx, fact.kind, fact.sender, fact.number, fact.place)?;
    let id = only_id(shown.as_slice())?;
    Ok(id)
}

/// Removes a fact from the table of facts, if it is there.
fn drop_fact<S: Alter>(tx: &mut Transaction<'_, S>, fact: &FactRow) -> Result<(), KeepFault>
    requires { BeginsInside S.Store tx.old.conn }
    ensures { PerformsNeverBad S.Store tx.old.conn tx.new.conn result (λ db next _. DropsFact db next fact.now) }
{
    let found = found_fact(tx, fact)?;
    match found {
        None => Ok(()),
        Some(id) => {
            take_one(tx, ChangedTable::Facts, id)?;
            Ok(())
        }
    }
}

/// The rowid of the delays under a number, if they are in the table.
fn found_delays<S: Alter>(
    tx: &mut Transaction<'_, S>,
    number: u32,
) -> Result<Option<i64>, KeepFault>
    requires { BeginsInside S.Store tx.old.conn }
    ensures looks { Looks S.Store tx.old.conn tx.new.conn result (λ db id. IsRowidFound (is_delays number) (db 10) id) }
    ensures bad { NeverBad result }
{
    let shown = delays_ids(tx, number)?;
    let id = only_id(shown.as_slice())?;
    Ok(id)
}

/// Removes the delays under a number from their table, if they are there.
fn drop_delays<S: Alter>(tx: &mut Transaction<'_, S>, number: u32) -> Result<(), KeepFault>
    requires { BeginsInside S.Store tx.old.conn }
    ensures { PerformsNeverBad S.Store tx.old.conn tx.new.conn result (λ db next _. DropsDelays db next number) }
{
    let found = found_delays(tx, number)?;
    match found {
        None => Ok(()),
        Some(id) => {
            take_one(tx, ChangedTable::Delays, id)?;
            Ok(())
        }
    }
}

/// Whether a fact isn't the last delays.
fn is_no_delays(fact: &FactRow) -> bool
    ensures { result ≡ is_no_delays fact.now }
{
    fact.kind != FactKind::Delays
}

/// Removes a fact from its table, if it is there.
fn drop_one<S: Alter>(
    tx: &mut Transaction<'_, S>,
    release: u32,
    fact: &FactRow,
) -> Result<(), KeepFault>
    requires { BeginsInside S.Store tx.old.conn }
    ensures { PerformsNeverBad S.Store tx.old.conn tx.new.conn result (λ db next _. DropsOne release db next fact.now) }
{
    if is_no_delays(fact) {
        drop_fact(tx, fact)?;
        return Ok(());
    }
    if fact.sender != release {
        return Ok(());
    }
    if fact.place != 0 {
        return Ok(());
    }
    drop_delays(tx, fact.number)?;
    Ok(())
}

/// Puts a fact into its table.
fn add_one<S: Alter>(
    tx: &mut Transaction<'_, S>,
    release: u32,
    fact: &FactRow,
) -> Result<usize, Error>
    requires { BeginsInside S.Store tx.old.conn }
    ensures { Performs S.Store tx.old.conn tx.new.conn result (λ db next _. AddsOne release db next fact.now) }
{
    if is_no_delays(fact) {
        let added = add_fact(tx, fact.kind, fact.sender, fact.number, fact.place)?;
        return Ok(added);
    }
    let put = add_delays(tx, fact.number)?;
    Ok(put)
}

/// Removes these facts from their tables.
pub fn drop_each<S: Alter>(
    tx: &mut Transaction<'_, S>,
    release: u32,
    facts: &[FactRow],
) -> Result<(), KeepFault>
    requires { BeginsInside S.Store tx.old.conn }
    ensures { PerformsNeverBad S.Store tx.old.conn tx.new.conn result (λ db next _. DropsEach release db next facts.now) }
{
    'facts: for fact in facts {
        drop_one(tx, release, fact)?;
    }
    Ok(())
}

/// The values of a fact's columns.
fn values_of(fact: &FactRow) -> [ValueRef<'static>; 4]
    ensures is { bound result ≡ fact_parameters fact.now }
    ensures fits { FitsFact fact.now }
{
    let kind = fact.kind.number();
    [
        kind.to_sql(),
        fact.sender.to_sql(),
        fact.number.to_sql(),
        fact.place.to_sql(),
    ]
}

/// The values of eight facts' columns, fact by fact.
fn eight_values(facts: &[FactRow]) -> [[ValueRef<'static>; 4]; 8]
    requires eight { length facts.now ≡ 8 }
    ensures is { map bound result ≡ map fact_parameters facts.now }
    ensures fits { AllByRecursion FitsFact facts.now }
{
    match facts {
        [first, second, third, fourth, fifth, sixth, seventh, eighth] => [
            values_of(first),
            values_of(second),
            values_of(third),
            values_of(fourth),
            values_of(fifth),
            values_of(sixth),
            values_of(seventh),
            values_of(eighth),
        ],
        _ => unreachable!(),
    }
}

/// Adds eight facts with one statement.
fn add_eight<S: Alter>(tx: &mut Transaction<'_, S>, facts: &[FactRow]) -> Result<usize, Error>
    requires inside { BeginsInside S.Store tx.old.conn }
    requires eight { length facts.now ≡ 8 }
    ensures { Performs S.Store tx.old.conn tx.new.conn result (λ db next _. AddsFacts db next facts.now) }
{
    let values = eight_values(facts);
    tx.execute(
        "INSERT INTO fact (kind, sender, number, place) VALUES (?1, ?2, ?3, ?4), (?5, ?6, ?7, ?8), (?9, ?10, ?11, ?12), (?13, ?14, ?15, ?16), (?17, ?18, ?19, ?20), (?21, ?22, ?23, ?24), (?25, ?26, ?27, ?28), (?29, ?30, ?31, ?32)",
        values.as_flattened(),
    )
}

/// Whether none of these facts are the last delays.
fn are_no_delays(facts: &[FactRow]) -> bool
    ensures { result ≡ list_all is_no_delays facts.now }
{
    facts.iter().all(|fact| fact.kind != FactKind::Delays)
}

/// Adds the first of these facts to their tables, and says how many: eight with one statement if possible, else one.
fn add_first<S: Alter>(
    tx: &mut Transaction<'_, S>,
    release: u32,
    facts: &[FactRow],
) -> Result<usize, Error>
    requires inside { BeginsInside S.Store tx.old.conn }
    requires some { 0 < length facts.now }
    ensures does { Performs S.Store tx.old.conn tx.new.conn result (λ db next count. AddsEach release db next (take count facts.now)) }
    ensures count { IfOk result (λ count. (0 < count) × (count ≤ length facts.now)) }
{
    if facts.len() >= 8 && are_no_delays(&facts[..8]) {
        add_eight(tx, &facts[..8])?;
        return Ok(8);
    }
    add_one(tx, release, &facts[0])?;
    Ok(1)
}

/// Adds these facts to their tables.
pub fn add_each<S: Alter>(
    tx: &mut Transaction<'_, S>,
    release: u32,
    facts: &[FactRow],
) -> Result<(), Error>
    requires { BeginsInside S.Store tx.old.conn }
    ensures { Performs S.Store tx.old.conn tx.new.conn result (λ db next _. AddsEach release db next facts.now) }
{
    let mut at = 0;
    'facts: while at < facts.len() {
        let count = add_first(tx, release, &facts[at..])?;
        at += count;
    }
    Ok(())
}
