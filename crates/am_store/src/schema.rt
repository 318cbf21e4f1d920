//! The tables of a database beside those of a store.

ghost use Rattle.std.specs.Prelude.{◌≡◌, ◌↔◌, [], ◌∷◌, codes, map, IfOk, IsTrue};
ghost use Rattle.sqlite_value.specs.Keys.{plain};
ghost use Rattle.am_store.specs.Tables.{column_of, config, index_of, no_schema, silence, store_schema, table_of};
ghost use Rattle.am_store.specs.Tables.{version};

use sqlite_items::Items;
use sqlite_schema::code::Terms;
use sqlite_schema::schema::{Column, Index, Kind, Schema, Table};
use sqlite_value::keys::{Collation, Order};
use sqlite_value::value::Value;
use std::alloc::{AllocError, Global};

// Whether there is no table, no index and no view.
pub(crate) fn is_blank(schema: &Schema) -> bool
    ensures { IsTrue result ↔ (schema.now ≡ no_schema) }
{
    schema.tables.is_empty() && schema.indexes.is_empty() && schema.views.is_empty()
}

// Whether a column has this name and kind, and has to hold a value or not.
fn is_column(column: &Column, name: &str, kind: Kind, not_null: bool) -> bool
    ensures { IsTrue result ↔ (column.now ≡ column_of name.now kind not_null) }
{
    column.name.as_slice() == name.as_bytes()
        && column.kind == kind
        && !column.is_strict
        && column.not_null == not_null
        && matches!(column.default, Value::Null)
        && column.collation == Collation::Binary
}

// Whether the columns are these.
fn are_columns(columns: &[Column], wanted: &[(&str, Kind, bool)]) -> bool
    ensures { IsTrue result ↔ (columns.now ≡ map (λ w. column_of w.0.now w.1 w.2) wanted.now) }
{
    match (columns, wanted) {
        ([], []) => true,
        ([column, columns @ ..], [(name, kind, not_null), wanted @ ..]) => {
            is_column(column, name, *kind, *not_null) && are_columns(columns, wanted)
        }
        _ => false,
    }
}

// Whether there is no expression.
fn is_bare(alloc: Global, terms: &Terms) -> Result<bool, AllocError>
    ensures { IfOk result (λ is_bare. IsTrue is_bare ↔ (terms.now ≡ [])) }
{
    Ok(terms.lend(alloc)?.roots.is_empty())
}

// Whether a key has these places.
fn is_key(unique: &Items<usize>, key: &[usize]) -> bool
    ensures { IsTrue result ↔ (unique.now ≡ key.now) }
{
    unique.as_slice() == key
}

// Whether the keys are these.
fn are_keys(uniques: &[Items<usize>], keys: &[&[usize]]) -> bool
    ensures { IsTrue result ↔ (uniques.now ≡ map (λ key. key.now) keys.now) }
{
    match (uniques, keys) {
        ([], []) => true,
        ([unique, uniques @ ..], [key, keys @ ..]) => {
            is_key(unique, key) && are_keys(uniques, keys)
        }
        _ => false,
    }
}

// Whether the index of each key ascends by the bytes of its columns.
fn are_plain(orders: &[Order], keys: &[&[usize]]) -> bool
    ensures { IsTrue result ↔ (orders.now ≡ map (λ _. plain) keys.now) }
{
    match (orders, keys) {
        ([], []) => true,
        ([order, orders @ ..], [_, keys @ ..]) => *order == Order::PLAIN && are_plain(orders, keys),
        _ => false,
    }
}

// Whether a table has no rowid of its own, and no rule but its key.
fn is_plain(alloc: Global, table: &Table) -> Result<bool, AllocError>
    ensures { IfOk result (λ is_plain. IsTrue is_plain
        ↔ (table.now ≡ table_of table.now.name table.now.tree table.now.columns table.now.primary table.now.uniques
        table.now.orders)) }
{
    let stamps = &table.stamps;
    if table.key.is_some() || table.is_counted || !table.computed.is_empty() {
        return Ok(false);
    }
    if !table.references.is_empty() || !stamps.places.is_empty() || !stamps.formats.is_empty() {
        return Ok(false);
    }
    Ok(is_bare(alloc, &table.checks)? && is_bare(alloc, &stamps.terms)?)
}

// Whether a table has this name, these columns and this key, and its rows lie in this tree.
fn is_table(
    alloc: Global,
    table: &Table,
    name: &str,
    tree: u32,
    columns: &[(&str, Kind, bool)],
    primary: &[usize],
    keys: &[&[usize]],
) -> Result<bool, AllocError>
    ensures { IfOk result (λ is_table. IsTrue is_table
        ↔ (table.now ≡ table_of name.now tree (map (λ w. column_of w.0.now w.1 w.2) columns.now) primary.now
        (map (λ key. key.now) keys.now) (map (λ _. plain) keys.now))) }
{
    let has_shape = table.name.as_slice() == name.as_bytes()
        && table.tree == tree
        && are_columns(table.columns.as_slice(), columns)
        && table.primary.as_slice() == primary
        && are_keys(table.uniques.as_slice(), keys)
        && are_plain(table.orders.as_slice(), keys);
    if !has_shape {
        return Ok(false);
    }
    is_plain(alloc, table)
}

// Whether an index is that of a key.
fn is_index(index: &Index, name: &str, tree: u32, table: u32, columns: &[usize]) -> bool
    ensures { IsTrue result ↔ (index.now ≡ index_of name.now tree table columns.now) }
{
    index.name.as_slice() == name.as_bytes()
        && index.tree == tree
        && index.table == table
        && index.columns.as_slice() == columns
        && index.order == Order::PLAIN
        && index.is_unique
}

fn is_version(alloc: Global, table: &Table) -> Result<bool, AllocError>
    ensures { IfOk result (λ is_version. IsTrue is_version ↔ (table.now ≡ version 0)) }
{
    is_table(
        alloc,
        table,
        "version",
        0,
        &[("n", Kind::Integer, true)],
        &[],
        &[],
    )
}

fn is_config(alloc: Global, table: &Table) -> Result<bool, AllocError>
    ensures { IfOk result (λ is_config. IsTrue is_config ↔ (table.now ≡ config 1)) }
{
    let columns = [
        ("tenant", Kind::Text, true),
        ("body", Kind::Any, false),
        ("moment", Kind::Integer, true),
        ("instance", Kind::Integer, true),
        ("incarnation", Kind::Integer, true),
        ("count", Kind::Integer, true),
    ];
    is_table(alloc, table, "config", 1, &columns, &[1], &[&[1]])
}

fn is_silence(alloc: Global, table: &Table) -> Result<bool, AllocError>
    ensures { IfOk result (λ is_silence. IsTrue is_silence ↔ (table.now ≡ silence 3)) }
{
    let columns = [
        ("tenant", Kind::Text, true),
        ("id", Kind::Text, true),
        ("starts", Kind::Integer, true),
        ("ends", Kind::Integer, true),
        ("kept", Kind::Integer, true),
        ("author", Kind::Any, true),
        ("comment", Kind::Any, true),
        ("matchers", Kind::Any, true),
        ("moment", Kind::Integer, true),
        ("instance", Kind::Integer, true),
        ("incarnation", Kind::Integer, true),
        ("count", Kind::Integer, true),
    ];
    is_table(alloc, table, "silence", 3, &columns, &[1, 2], &[&[1, 2]])
}

// Whether the tables are those of a store.
fn are_tables(alloc: Global, tables: &[Table]) -> Result<bool, AllocError>
    ensures { IfOk result (λ are_tables. IsTrue are_tables ↔ (tables.now ≡ version 0 ∷ config 1 ∷ silence 3 ∷ [])) }
{
    let [version, config, silence] = tables else {
        return Ok(false);
    };
    Ok(is_version(alloc, version)? && is_config(alloc, config)? && is_silence(alloc, silence)?)
}

// Whether the indexes are those of a store.
fn are_indexes(indexes: &[Index]) -> bool
    ensures { IsTrue result ↔ (indexes.now
        ≡ index_of (codes "sqlite_autoindex_config_1") 2 1 (1 ∷ [])
        ∷ index_of (codes "sqlite_autoindex_silence_1") 4 3 (1 ∷ 2 ∷ []) ∷ []) }
{
    let [config, silence] = indexes else {
        return false;
    };
    is_index(config, "sqlite_autoindex_config_1", 2, 1, &[1])
        && is_index(silence, "sqlite_autoindex_silence_1", 4, 3, &[1, 2])
}

// Whether the tables, with their indexes, are those of a store, and there is no view.
pub(crate) fn is_store(alloc: Global, schema: &Schema) -> Result<bool, AllocError>
    ensures { IfOk result (λ is_store. IsTrue is_store ↔ (schema.now ≡ store_schema)) }
{
    if !schema.views.is_empty() || !are_indexes(schema.indexes.as_slice()) {
        return Ok(false);
    }
    are_tables(alloc, schema.tables.as_slice())
}
