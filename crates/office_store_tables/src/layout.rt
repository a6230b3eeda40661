//! Whether a database has exactly the office's tables, and which of them it has if there are others.
ghost use Rattle.std.specs.Prelude.{◌≡◌, ◌↔◌, [], ◌∷◌, codes, IsTrue, IfOk};
ghost use Rattle.std.specs.Option.{option_copied};
ghost use Rattle.office_store_tables.specs.Layout.{column_by, to_mail, office, mail, run, testing_source, testing_row, fact, fact_delays, no_schema, schema_before, office_schema, standing, is_free, has_none, table_by, IsTableFound};
ghost use Rattle.office_store_tables.specs.steps.LayoutSteps.{key_index, IsBare, IsAt, IsNumbered, IsKeyed, office_tables, tables_before, office_indexes, mail_index, testing_source_index, testing_row_index, fact_index};
ghost use Rattle.sqlite_value.specs.Keys.{plain};

use sqlite_items::Items;
use sqlite_schema::code::Terms;
use sqlite_schema::schema::{Action, Column, Index, Kind, Reference, Schema, Table};
use sqlite_value::keys::{Collation, Order};
use sqlite_value::value::{Bytes, Value};
use std::alloc::{AllocError, Global};

/// Whether a column is one of the office's: of one type, without a default.
fn is_column(column: &Column, name: &[u8], kind: Kind, not_null: bool) -> bool
    ensures { IsTrue result ↔ (column.now ≡ column_by name.now kind not_null) }
{
    column.name.as_slice() == name
        && column.kind == kind
        && column.is_strict
        && column.not_null == not_null
        && matches!(&column.default, Value::Null)
        && column.collation == Collation::Binary
}

/// Whether there is no expression.
fn has_no_term(alloc: Global, terms: &Terms) -> Result<bool, AllocError>
    ensures { IfOk result (λ none_there. IsTrue none_there ↔ (terms.now ≡ [])) }
{
    let lent = terms.lend(alloc)?;
    Ok(lent.roots.is_empty())
}

/// Whether a table has nothing but columns, keys and references.
fn is_bare(alloc: Global, table: &Table) -> Result<bool, AllocError>
    ensures { IfOk result (λ bare. IsTrue bare ↔ IsBare table.now) }
{
    let checked = has_no_term(alloc, &table.checks)?;
    let stamped = has_no_term(alloc, &table.stamps.terms)?;
    Ok(
        checked
            && stamped
            && table.computed.is_empty()
            && table.stamps.places.is_empty()
            && table.stamps.formats.is_empty()
            && !table.is_counted,
    )
}

/// Whether a table has this name and tree.
fn is_at(table: &Table, name: &[u8], tree: u32) -> bool
    ensures { IsTrue result ↔ IsAt name.now tree table.now }
{
    table.name.as_slice() == name && table.tree == tree
}

/// Whether a table's key is its first column.
fn is_numbered(table: &Table) -> bool
    ensures { IsTrue result ↔ IsNumbered table.now }
{
    table.key == Some(0)
        && table.primary.as_slice() == [0].as_slice()
        && table.uniques.is_empty()
        && table.orders.is_empty()
}

/// Whether these are the places.
fn are_places(places: &Items<usize>, expected: &[usize]) -> bool
    ensures { IsTrue result ↔ (places.now ≡ expected.now) }
{
    places.as_slice() == expected
}

/// Whether there is exactly one key, the columns at these places.
fn is_only_key(keys: &[Items<usize>], places: &[usize]) -> bool
    ensures { IsTrue result ↔ (keys.now ≡ places.now ∷ []) }
{
    match keys {
        [key] => are_places(key, places),
        _ => false,
    }
}

/// Whether there is exactly one order, by the bytes and ascending.
fn is_only_order(orders: &[Order]) -> bool
    ensures { IsTrue result ↔ (orders.now ≡ plain ∷ []) }
{
    match orders {
        [order] => order.digits == 0,
        _ => false,
    }
}

/// Whether a table's only key is the columns at these places.
fn is_keyed(table: &Table, places: &[usize]) -> bool
    ensures { IsTrue result ↔ IsKeyed places.now table.now }
{
    table.key.is_none()
        && table.primary.as_slice() == places
        && is_only_key(table.uniques.as_slice(), places)
        && is_only_order(table.orders.as_slice())
}

/// Whether a table refers only to the mail, by the columns at these places.
fn refers_to_mail(references: &[Reference], places: &[usize]) -> bool
    ensures { IsTrue result ↔ (references.now ≡ to_mail places.now ∷ []) }
{
    match references {
        [reference] => is_to_mail(reference, places),
        _ => false,
    }
}

/// Whether this is the name.
fn is_named(name: &Bytes, expected: &[u8]) -> bool
    ensures { IsTrue result ↔ (name.now ≡ expected.now) }
{
    name.as_slice() == expected
}

/// Whether these are the columns of mail that name a text.
fn name_mail(columns: &[Bytes]) -> bool
    ensures { IsTrue result ↔ (columns.now ≡ codes "sender" ∷ codes "number" ∷ []) }
{
    match columns {
        [sender, number] => is_named(sender, b"sender") && is_named(number, b"number"),
        _ => false,
    }
}

/// Whether a reference is to the mail, by the columns at these places.
fn is_to_mail(reference: &Reference, places: &[usize]) -> bool
    ensures { IsTrue result ↔ (reference.now ≡ to_mail places.now) }
{
    reference.columns.as_slice() == places
        && is_named(&reference.parent, b"mail")
        && name_mail(reference.parent_columns.as_slice())
        && reference.on_delete == Action::NoAction
        && reference.on_update == Action::NoAction
        && !reference.is_deferred
}

/// Whether these are the columns of the office.
fn are_of_office(columns: &[Column]) -> bool
    ensures { IsTrue result ↔ (columns.now ≡ office.columns) }
{
    match columns {
        [id, schema, setup, finished] => {
            is_column(id, b"id", Kind::Integer, false)
                && is_column(schema, b"schema", Kind::Integer, true)
                && is_column(setup, b"setup", Kind::Text, true)
                && is_column(finished, b"finished", Kind::Integer, true)
        }
        _ => false,
    }
}

/// Whether these are the columns of mail.
fn are_of_mail(columns: &[Column]) -> bool
    ensures { IsTrue result ↔ (columns.now ≡ mail.columns) }
{
    match columns {
        [sender, number, body] => {
            is_column(sender, b"sender", Kind::Integer, true)
                && is_column(number, b"number", Kind::Integer, true)
                && is_column(body, b"body", Kind::Blob, true)
        }
        _ => false,
    }
}

/// Whether these are the columns of finished runs.
fn are_of_run(columns: &[Column]) -> bool
    ensures { IsTrue result ↔ (columns.now ≡ run.columns) }
{
    match columns {
        [number, excuses, updates] => {
            is_column(number, b"number", Kind::Integer, false)
                && is_column(excuses, b"excuses", Kind::Text, true)
                && is_column(updates, b"updates", Kind::Text, true)
        }
        _ => false,
    }
}

/// Whether these are the columns of testing's sources.
fn are_of_testing_source(columns: &[Column]) -> bool
    ensures { IsTrue result ↔ (columns.now ≡ testing_source.columns) }
{
    match columns {
        [name, sender, number] => {
            is_column(name, b"name", Kind::Text, true)
                && is_column(sender, b"sender", Kind::Integer, true)
                && is_column(number, b"number", Kind::Integer, true)
        }
        _ => false,
    }
}

/// Whether these are the columns of testing's rows.
fn are_of_testing_row(columns: &[Column]) -> bool
    ensures { IsTrue result ↔ (columns.now ≡ testing_row.columns) }
{
    match columns {
        [arch, name, sender, number, place] => {
            is_column(arch, b"arch", Kind::Integer, true)
                && is_column(name, b"name", Kind::Text, true)
                && is_column(sender, b"sender", Kind::Integer, true)
                && is_column(number, b"number", Kind::Integer, true)
                && is_column(place, b"place", Kind::Integer, true)
        }
        _ => false,
    }
}

/// Whether these are the columns of facts.
fn are_of_fact(columns: &[Column]) -> bool
    ensures { IsTrue result ↔ (columns.now ≡ fact.columns) }
{
    match columns {
        [kind, sender, number, place] => {
            is_column(kind, b"kind", Kind::Integer, true)
                && is_column(sender, b"sender", Kind::Integer, true)
                && is_column(number, b"number", Kind::Integer, true)
                && is_column(place, b"place", Kind::Integer, true)
        }
        _ => false,
    }
}

/// Whether these are the columns of the number of the last delays.
fn are_of_fact_delays(columns: &[Column]) -> bool
    ensures { IsTrue result ↔ (columns.now ≡ fact_delays.columns) }
{
    match columns {
        [id, number] => {
            is_column(id, b"id", Kind::Integer, false)
                && is_column(number, b"number", Kind::Integer, true)
        }
        _ => false,
    }
}

/// Whether an index is that of the only key of a table.
fn is_key_index(index: &Index, name: &[u8], tree: u32, table: u32, places: &[usize]) -> bool
    ensures { IsTrue result ↔ (index.now ≡ key_index name.now tree table places.now) }
{
    index.name.as_slice() == name
        && index.tree == tree
        && index.table == table
        && index.columns.as_slice() == places
        && index.order.digits == 0
        && index.is_unique
}

/// Whether a table is the office's, in this tree.
fn is_office(alloc: Global, table: &Table, tree: u32) -> Result<bool, AllocError>
    ensures { IfOk result (λ same. IsTrue same ↔ (table.now ≡ standing office tree)) }
{
    Ok(
        is_bare(alloc, table)?
            && is_at(table, b"office", tree)
            && are_of_office(table.columns.as_slice())
            && is_numbered(table)
            && table.references.is_empty(),
    )
}

/// Whether a table is that of mail, in this tree.
fn is_mail(alloc: Global, table: &Table, tree: u32) -> Result<bool, AllocError>
    ensures { IfOk result (λ same. IsTrue same ↔ (table.now ≡ standing mail tree)) }
{
    Ok(
        is_bare(alloc, table)?
            && is_at(table, b"mail", tree)
            && are_of_mail(table.columns.as_slice())
            && is_keyed(table, &[1, 2])
            && table.references.is_empty(),
    )
}

/// Whether a table is that of finished runs, in this tree.
fn is_run(alloc: Global, table: &Table, tree: u32) -> Result<bool, AllocError>
    ensures { IfOk result (λ same. IsTrue same ↔ (table.now ≡ standing run tree)) }
{
    Ok(
        is_bare(alloc, table)?
            && is_at(table, b"run", tree)
            && are_of_run(table.columns.as_slice())
            && is_numbered(table)
            && table.references.is_empty(),
    )
}

/// Whether a table is that of testing's sources, in this tree.
fn is_testing_source(alloc: Global, table: &Table, tree: u32) -> Result<bool, AllocError>
    ensures { IfOk result (λ same. IsTrue same ↔ (table.now ≡ standing testing_source tree)) }
{
    Ok(
        is_bare(alloc, table)?
            && is_at(table, b"testing_source", tree)
            && are_of_testing_source(table.columns.as_slice())
            && is_keyed(table, &[1])
            && refers_to_mail(table.references.as_slice(), &[2, 3]),
    )
}

/// Whether a table is that of testing's rows, in this tree.
fn is_testing_row(alloc: Global, table: &Table, tree: u32) -> Result<bool, AllocError>
    ensures { IfOk result (λ same. IsTrue same ↔ (table.now ≡ standing testing_row tree)) }
{
    Ok(
        is_bare(alloc, table)?
            && is_at(table, b"testing_row", tree)
            && are_of_testing_row(table.columns.as_slice())
            && is_keyed(table, &[1, 2])
            && refers_to_mail(table.references.as_slice(), &[3, 4]),
    )
}

/// Whether a table is that of facts, in this tree.
fn is_fact(alloc: Global, table: &Table, tree: u32) -> Result<bool, AllocError>
    ensures { IfOk result (λ same. IsTrue same ↔ (table.now ≡ standing fact tree)) }
{
    Ok(
        is_bare(alloc, table)?
            && is_at(table, b"fact", tree)
            && are_of_fact(table.columns.as_slice())
            && is_keyed(table, &[1, 2, 3, 4])
            && refers_to_mail(table.references.as_slice(), &[2, 3]),
    )
}

/// Whether a table is that of the number of the last delays, in this tree.
fn is_fact_delays(alloc: Global, table: &Table, tree: u32) -> Result<bool, AllocError>
    ensures { IfOk result (λ same. IsTrue same ↔ (table.now ≡ standing fact_delays tree)) }
{
    Ok(
        is_bare(alloc, table)?
            && is_at(table, b"fact_delays", tree)
            && are_of_fact_delays(table.columns.as_slice())
            && is_numbered(table)
            && table.references.is_empty(),
    )
}

/// Whether two tables are those of facts, in their trees.
fn are_of_facts(alloc: Global, facts: &Table, delays: &Table) -> Result<bool, AllocError>
    ensures { IfOk result (λ same. IsTrue same ↔ ((facts.now ≡ standing fact 8) × (delays.now ≡ standing fact_delays 10))) }
{
    Ok(is_fact(alloc, facts, 8)? && is_fact_delays(alloc, delays, 10)?)
}

/// Whether these are the office's seven tables.
#[tactic(auto, unfolding(crate::specs::steps::LayoutSteps::office_tables))]
fn are_tables(alloc: Global, tables: &[Table]) -> Result<bool, AllocError>
    ensures { IfOk result (λ same. IsTrue same ↔ (tables.now ≡ office_tables)) }
{
    match tables {
        [office, mail, run, source, row, facts, delays] => Ok(
            is_office(alloc, office, 0)?
                && is_mail(alloc, mail, 1)?
                && is_run(alloc, run, 3)?
                && is_testing_source(alloc, source, 4)?
                && is_testing_row(alloc, row, 6)?
                && are_of_facts(alloc, facts, delays)?,
        ),
        _ => Ok(false),
    }
}

/// Whether these are the office's six tables of schema 1.
#[tactic(auto, unfolding(crate::specs::steps::LayoutSteps::tables_before))]
fn are_tables_before(alloc: Global, tables: &[Table]) -> Result<bool, AllocError>
    ensures { IfOk result (λ same. IsTrue same ↔ (tables.now ≡ tables_before)) }
{
    match tables {
        [office, mail, run, source, row, facts] => Ok(
            is_office(alloc, office, 0)?
                && is_mail(alloc, mail, 1)?
                && is_run(alloc, run, 3)?
                && is_testing_source(alloc, source, 4)?
                && is_testing_row(alloc, row, 6)?
                && is_fact(alloc, facts, 8)?,
        ),
        _ => Ok(false),
    }
}

/// Whether an index is that of mail's key.
#[tactic(auto, unfolding(crate::specs::steps::LayoutSteps::mail_index))]
fn is_mail_index(index: &Index) -> bool
    ensures { IsTrue result ↔ (index.now ≡ mail_index) }
{
    is_key_index(index, b"sqlite_autoindex_mail_1", 2, 1, &[1, 2])
}

/// Whether an index is that of the key of testing's sources.
#[tactic(auto, unfolding(crate::specs::steps::LayoutSteps::testing_source_index))]
fn is_testing_source_index(index: &Index) -> bool
    ensures { IsTrue result ↔ (index.now ≡ testing_source_index) }
{
    is_key_index(index, b"sqlite_autoindex_testing_source_1", 5, 4, &[1])
}

/// Whether an index is that of the key of testing's rows.
#[tactic(auto, unfolding(crate::specs::steps::LayoutSteps::testing_row_index))]
fn is_testing_row_index(index: &Index) -> bool
    ensures { IsTrue result ↔ (index.now ≡ testing_row_index) }
{
    is_key_index(index, b"sqlite_autoindex_testing_row_1", 7, 6, &[1, 2])
}

/// Whether an index is that of the key of facts.
#[tactic(auto, unfolding(crate::specs::steps::LayoutSteps::fact_index))]
fn is_fact_index(index: &Index) -> bool
    ensures { IsTrue result ↔ (index.now ≡ fact_index) }
{
    is_key_index(index, b"sqlite_autoindex_fact_1", 9, 8, &[1, 2, 3, 4])
}

/// Whether these are the indexes of their keys.
#[tactic(auto, unfolding(crate::specs::steps::LayoutSteps::office_indexes))]
fn are_indexes(indexes: &[Index]) -> bool
    ensures { IsTrue result ↔ (indexes.now ≡ office_indexes) }
{
    match indexes {
        [mail, source, row, facts] => {
            is_mail_index(mail)
                && is_testing_source_index(source)
                && is_testing_row_index(row)
                && is_fact_index(facts)
        }
        _ => false,
    }
}

/// Whether a database has exactly the office's seven tables with the indexes of their keys.
#[tactic(auto, using(crate::proofs::SchemaLemmas::whole, crate::proofs::SchemaLemmas::parts))]
pub fn has_tables(alloc: Global, schema: &Schema) -> Result<bool, AllocError>
    ensures { IfOk result (λ same. IsTrue same ↔ (schema.now ≡ office_schema)) }
{
    let tables = are_tables(alloc, schema.tables.as_slice())?;
    let indexes = are_indexes(schema.indexes.as_slice());
    Ok(tables && indexes && schema.views.is_empty())
}

/// Whether a database has exactly the office's six tables of schema 1 with the indexes of their keys.
#[tactic(auto, using(crate::proofs::SchemaLemmas::whole_before, crate::proofs::SchemaLemmas::parts_before))]
pub fn has_tables_before(alloc: Global, schema: &Schema) -> Result<bool, AllocError>
    ensures { IfOk result (λ same. IsTrue same ↔ (schema.now ≡ schema_before)) }
{
    let tables = are_tables_before(alloc, schema.tables.as_slice())?;
    let indexes = are_indexes(schema.indexes.as_slice());
    Ok(tables && indexes && schema.views.is_empty())
}

/// Whether a database has no table, no index and no view.
pub fn is_fresh(schema: &Schema) -> bool
    ensures { IsTrue result ↔ (schema.now ≡ no_schema) }
{
    schema.tables.is_empty() && schema.indexes.is_empty() && schema.views.is_empty()
}

/// Whether no table, index or view has a name.
pub fn is_free(schema: &Schema, name: &[u8]) -> bool
    ensures { result ≡ is_free name.now schema.now }
{
    schema.table_named(name).is_none()
        && schema.index_named(name).is_none()
        && schema.view_named(name).is_none()
}

/// Whether no name of the office's seven tables is taken.
pub fn has_none(schema: &Schema) -> bool
    ensures { result ≡ has_none schema.now }
{
    is_free(schema, b"office")
        && is_free(schema, b"mail")
        && is_free(schema, b"run")
        && is_free(schema, b"testing_source")
        && is_free(schema, b"testing_row")
        && is_free(schema, b"fact")
        && is_free(schema, b"fact_delays")
}

/// The table with a name.
fn table_by<'a>(schema: &'a Schema, name: &[u8]) -> Option<&'a Table>
    ensures { option_copied result ≡ table_by name.now schema.now }
{
    let at = schema.table_named(name)?;
    schema.tables.as_slice().get(at)
}

/// Whether the office's table exists, in any tree.
pub fn has_office(alloc: Global, schema: &Schema) -> Result<bool, AllocError>
    ensures { IfOk result (λ has. IsTrue has ↔ IsTableFound office (table_by (codes "office") schema.now)) }
{
    match table_by(schema, b"office") {
        Some(table) => is_office(alloc, table, table.tree),
        None => Ok(false),
    }
}

/// Whether the table of mail exists, in any tree.
pub fn has_mail(alloc: Global, schema: &Schema) -> Result<bool, AllocError>
    ensures { IfOk result (λ has. IsTrue has ↔ IsTableFound mail (table_by (codes "mail") schema.now)) }
{
    match table_by(schema, b"mail") {
        Some(table) => is_mail(alloc, table, table.tree),
        None => Ok(false),
    }
}

/// Whether the table of finished runs exists, in any tree.
pub fn has_run(alloc: Global, schema: &Schema) -> Result<bool, AllocError>
    ensures { IfOk result (λ has. IsTrue has ↔ IsTableFound run (table_by (codes "run") schema.now)) }
{
    match table_by(schema, b"run") {
        Some(table) => is_run(alloc, table, table.tree),
        None => Ok(false),
    }
}

/// Whether the table of testing's sources exists, in any tree.
pub fn has_testing_source(alloc: Global, schema: &Schema) -> Result<bool, AllocError>
    ensures { IfOk result (λ has. IsTrue has ↔ IsTableFound testing_source (table_by (codes "testing_source") schema.now)) }
{
    match table_by(schema, b"testing_source") {
        Some(table) => is_testing_source(alloc, table, table.tree),
        None => Ok(false),
    }
}

/// Whether the table of testing's rows exists, in any tree.
pub fn has_testing_row(alloc: Global, schema: &Schema) -> Result<bool, AllocError>
    ensures { IfOk result (λ has. IsTrue has ↔ IsTableFound testing_row (table_by (codes "testing_row") schema.now)) }
{
    match table_by(schema, b"testing_row") {
        Some(table) => is_testing_row(alloc, table, table.tree),
        None => Ok(false),
    }
}

/// Whether the table of facts exists, in any tree.
pub fn has_fact(alloc: Global, schema: &Schema) -> Result<bool, AllocError>
    ensures { IfOk result (λ has. IsTrue has ↔ IsTableFound fact (table_by (codes "fact") schema.now)) }
{
    match table_by(schema, b"fact") {
        Some(table) => is_fact(alloc, table, table.tree),
        None => Ok(false),
    }
}

/// Whether the table of the number of the last delays exists, in any tree.
pub fn has_fact_delays(alloc: Global, schema: &Schema) -> Result<bool, AllocError>
    ensures { IfOk result (λ has. IsTrue has ↔ IsTableFound fact_delays (table_by (codes "fact_delays") schema.now)) }
{
    match table_by(schema, b"fact_delays") {
        Some(table) => is_fact_delays(alloc, table, table.tree),
        None => Ok(false),
    }
}
