//! Whether a database has each of the office's tables, whatever else it has.
ghost use Rattle.std.specs.Prelude.{◌≡◌, ◌↔◌, ◌==◌, codes, length, option_map, IsTrue, IfOk};
ghost use Rattle.std.specs.List.{filter};
ghost use Rattle.office_store.specs.Opening.{has_indexes, has_own_indexes};
ghost use Rattle.office_store_tables.specs.Layout.{fact, fact_delays, is_free, table_by, IsTableFound, HasEach, HasEachBefore};

use office_store_tables::layout::{
    has_fact, has_fact_delays, has_mail, has_office, has_run, has_testing_row, has_testing_source,
    is_free,
};
use sqlite_schema::schema::{Index, Schema};
use std::alloc::{AllocError, Global};

/// Whether both tables of facts exist.
fn has_facts(alloc: Global, schema: &Schema) -> Result<bool, AllocError>
    ensures { IfOk result (λ both. IsTrue both ↔ (IsTableFound fact (table_by (codes "fact") schema.now) × IsTableFound fact_delays (table_by (codes "fact_delays") schema.now))) }
{
    Ok(has_fact(alloc, schema)? && has_fact_delays(alloc, schema)?)
}

/// Whether each of the office's seven tables exists, with or without others.
pub fn has_each(alloc: Global, schema: &Schema) -> Result<bool, AllocError>
    ensures { IfOk result (λ all. IsTrue all ↔ HasEach schema.now) }
{
    Ok(
        has_office(alloc, schema)?
            && has_mail(alloc, schema)?
            && has_run(alloc, schema)?
            && has_testing_source(alloc, schema)?
            && has_testing_row(alloc, schema)?
            && has_facts(alloc, schema)?,
    )
}

/// Whether the table of facts exists, and nothing has the name of the number of the last delays.
fn has_facts_before(alloc: Global, schema: &Schema) -> Result<bool, AllocError>
    ensures { IfOk result (λ before. IsTrue before ↔ (IsTableFound fact (table_by (codes "fact") schema.now) × IsTrue (is_free (codes "fact_delays") schema.now))) }
{
    Ok(has_fact(alloc, schema)? && is_free(schema, b"fact_delays"))
}

/// Whether each of the office's six tables of schema 1 exists without the seventh, with or without others.
pub fn has_each_before(alloc: Global, schema: &Schema) -> Result<bool, AllocError>
    ensures { IfOk result (λ all. IsTrue all ↔ HasEachBefore schema.now) }
{
    Ok(
        has_office(alloc, schema)?
            && has_mail(alloc, schema)?
            && has_run(alloc, schema)?
            && has_testing_source(alloc, schema)?
            && has_testing_row(alloc, schema)?
            && has_facts_before(alloc, schema)?,
    )
}

/// How many indexes stand on the table in this tree.
fn count_on(indexes: &[Index], tree: u32) -> usize
    ensures { result ≡ length (filter (λ index. index.table == tree) indexes.now) }
{
    indexes.iter().filter(|index| index.table == tree).count()
}

/// The tree of the table of a name.
fn tree_of(schema: &Schema, name: &[u8]) -> Option<u32>
    ensures { result ≡ option_map (λ table. table.tree) (table_by name.now schema.now) }
{
    let at = schema.table_named(name)?;
    let table = schema.tables.as_slice().get(at)?;
    Some(table.tree)
}

/// Whether so many indexes stand on the table of a name.
fn has_indexes(schema: &Schema, name: &[u8], count: usize) -> bool
    ensures { result ≡ has_indexes name.now count schema.now }
{
    match tree_of(schema, name) {
        Some(tree) => count_on(schema.indexes.as_slice(), tree) == count,
        None => count == 0,
    }
}

/// Whether the office's tables have the indexes of their keys, and none that somebody added.
pub fn has_own_indexes(schema: &Schema) -> bool
    ensures { result ≡ has_own_indexes schema.now }
{
    has_indexes(schema, b"office", 0)
        && has_indexes(schema, b"mail", 1)
        && has_indexes(schema, b"run", 0)
        && has_indexes(schema, b"testing_source", 1)
        && has_indexes(schema, b"testing_row", 1)
        && has_indexes(schema, b"fact", 1)
        && has_indexes(schema, b"fact_delays", 0)
}
