//! The layouts of an office's tables, and the test for them.

ghost use Rattle.std.specs.Prelude.{◌≡◌, ◌≢◌, ◌<◌, ◌↔◌, [], ◌∷◌, map};
ghost use Rattle.std.specs.Prelude.{false, IsTrue, MatchOption};
ghost use Rattle.plan_store.specs.Tables.{filled, keyed_table, meta, published, desks};
ghost use Rattle.plan_store.specs.Tables.{plans, binds, lags, first_schema, store_schema};
ghost use Rattle.plan_store.specs.Layouts.{filled_of, key_index_named, schema_of};
ghost use Rattle.sqlite_value.specs.Keys.{plain};
ghost use Rattle.plan_store.specs.declared.layout.Layout.{Layout as ALayout};

use crate::schema::{
    BIND_COLUMNS, DESK_COLUMNS, LAG_COLUMNS, META_COLUMNS, PLAN_COLUMNS, PUBLISHED_COLUMNS,
};
use sqlite_items::Items;
use sqlite_schema::schema::{Column, Index, Kind, Schema, Table};
use sqlite_value::keys::{Collation, Order};
use sqlite_value::value::Value;

/// A version of the tables. The first has no lags.
#[derive(Debug, Clone, Copy, PartialEq, Eq)]
pub enum Layout {
    First,
    Second,
}

// Returns whether a column has this name and holds a value of this kind, never NULL.
fn is_column(column: &Column, name: &str, kind: Kind) -> bool
    ensures { IsTrue result ↔ (column.now ≡ filled name.now kind) }
{
    column.name.as_slice() == name.as_bytes()
        && column.kind == kind
        && column.is_strict
        && column.not_null
        && matches!(column.default, Value::Null)
        && column.collation == Collation::Binary
}

// Returns whether columns have these names and kinds.
fn are_columns(columns: &[Column], wanted: &[(&str, Kind)]) -> bool
    ensures { IsTrue result ↔ (columns.now ≡ map filled_of wanted.now) }
{
    if columns.len() != wanted.len() {
        return false;
    }
    for (at, (name, kind)) in wanted.iter().enumerate() {
        if !is_column(&columns[at], name, *kind) {
            return false;
        }
    }
    true
}

// Returns whether a table has nothing but columns and keys.
fn is_plain(table: &Table) -> bool
    ensures { IsTrue result ↔ ((table.now.checks ≡ [])
        × (table.now.references ≡ []) × (table.now.computed ≡ [])
        × (table.now.stamps ≡ record { places = []; terms = []; formats = [] })
        × (table.now.is_counted ≡ false)) }
{
    table.checks.roots.is_empty()
        && table.references.is_empty()
        && table.computed.is_empty()
        && table.stamps.places.is_empty()
        && table.stamps.terms.roots.is_empty()
        && table.stamps.formats.is_empty()
        && !table.is_counted
}

// Returns whether these are the same places.
fn are_places(found: &[usize], places: &[usize]) -> bool
    ensures { IsTrue result ↔ (found.now ≡ places.now) }
{
    found == places
}

// Returns whether these places are the only key.
fn is_one_key(keys: &[Items<usize>], places: &[usize]) -> bool
    ensures { IsTrue result ↔ (keys.now ≡ places.now ∷ []) }
{
    keys.len() == 1 && are_places(keys[0].as_slice(), places)
}

// Returns whether there is one order, in which each column ascends by its bytes.
fn is_one_plain(orders: &[Order]) -> bool
    ensures { IsTrue result ↔ (orders.now ≡ plain ∷ []) }
{
    orders.len() == 1 && orders[0] == Order::PLAIN
}

// Returns whether a table has this name and these columns, with the columns at these places as its
// key.
fn is_keyed(
    table: &Table,
    name: &str,
    tree: u32,
    places: &[usize],
    columns: &[(&str, Kind)],
) -> bool
    ensures { IsTrue result
        ↔ (table.now ≡ keyed_table name.now tree places.now (map filled_of columns.now)) }
{
    table.name.as_slice() == name.as_bytes()
        && table.tree == tree
        && are_columns(table.columns.as_slice(), columns)
        && table.key.is_none()
        && are_places(table.primary.as_slice(), places)
        && is_one_key(table.uniques.as_slice(), places)
        && is_one_plain(table.orders.as_slice())
        && is_plain(table)
}

fn is_meta(table: &Table) -> bool
    ensures { IsTrue result ↔ (table.now ≡ meta) }
{
    table.name.as_slice() == b"meta".as_slice()
        && table.tree == 0
        && are_columns(table.columns.as_slice(), &META_COLUMNS)
        && table.key == Some(0)
        && are_places(table.primary.as_slice(), &[0])
        && table.uniques.is_empty()
        && table.orders.is_empty()
        && is_plain(table)
}

fn is_published(table: &Table) -> bool
    ensures { IsTrue result ↔ (table.now ≡ published) }
{
    is_keyed(table, "published", 1, &[1], &PUBLISHED_COLUMNS)
}

fn are_desks(table: &Table) -> bool
    ensures { IsTrue result ↔ (table.now ≡ desks) }
{
    is_keyed(table, "desks", 3, &[1], &DESK_COLUMNS)
}

fn are_plans(table: &Table) -> bool
    ensures { IsTrue result ↔ (table.now ≡ plans) }
{
    is_keyed(table, "plans", 5, &[1, 2], &PLAN_COLUMNS)
}

fn are_binds(table: &Table) -> bool
    ensures { IsTrue result ↔ (table.now ≡ binds) }
{
    is_keyed(table, "binds", 7, &[1, 2, 3], &BIND_COLUMNS)
}

fn are_lags(table: &Table) -> bool
    ensures { IsTrue result ↔ (table.now ≡ lags) }
{
    is_keyed(table, "lags", 9, &[1, 2, 3, 4], &LAG_COLUMNS)
}

// Returns whether an index is that of the key of a table. Its tree follows the table's.
fn is_key_index(index: &Index, name: &str, tree: u32, places: &[usize]) -> bool
    requires { tree < 65536 }
    ensures { IsTrue result ↔ (index.now ≡ key_index_named name.now tree places.now) }
{
    index.name.as_slice() == name.as_bytes()
        && index.tree == tree + 1
        && index.table == tree
        && are_places(index.columns.as_slice(), places)
        && index.order == Order::PLAIN
        && index.is_unique
}

// Returns whether these are the tables of the first version.
fn are_first_tables(tables: &[Table]) -> bool
    ensures { IsTrue result ↔ (tables.now ≡ first_schema.tables) }
{
    tables.len() == 5
        && is_meta(&tables[0])
        && is_published(&tables[1])
        && are_desks(&tables[2])
        && are_plans(&tables[3])
        && are_binds(&tables[4])
}

// Returns whether these are the indexes of the first version.
fn are_first_indexes(indexes: &[Index]) -> bool
    ensures { IsTrue result ↔ (indexes.now ≡ first_schema.indexes) }
{
    indexes.len() == 4
        && is_key_index(&indexes[0], "sqlite_autoindex_published_1", 1, &[1])
        && is_key_index(&indexes[1], "sqlite_autoindex_desks_1", 3, &[1])
        && is_key_index(&indexes[2], "sqlite_autoindex_plans_1", 5, &[1, 2])
        && is_key_index(&indexes[3], "sqlite_autoindex_binds_1", 7, &[1, 2, 3])
}

// Returns whether these are the tables of the second version: those of the first and the lags.
fn are_second_tables(tables: &[Table]) -> bool
    ensures { IsTrue result ↔ (tables.now ≡ store_schema.tables) }
{
    tables.len() == 6 && are_first_tables(&tables[..5]) && are_lags(&tables[5])
}

// Returns whether these are the indexes of the second version: those of the first and of the lags.
fn are_second_indexes(indexes: &[Index]) -> bool
    ensures { IsTrue result ↔ (indexes.now ≡ store_schema.indexes) }
{
    indexes.len() == 5
        && are_first_indexes(&indexes[..4])
        && is_key_index(&indexes[4], "sqlite_autoindex_lags_1", 9, &[1, 2, 3, 4])
}

fn is_first(schema: &Schema) -> bool
    ensures { IsTrue result ↔ (schema.now ≡ first_schema) }
{
    are_first_tables(schema.tables.as_slice())
        && are_first_indexes(schema.indexes.as_slice())
        && schema.views.is_empty()
}

fn is_second(schema: &Schema) -> bool
    ensures { IsTrue result ↔ (schema.now ≡ store_schema) }
{
    are_second_tables(schema.tables.as_slice())
        && are_second_indexes(schema.indexes.as_slice())
        && schema.views.is_empty()
}

/// Returns the layout of a database that has the tables of an office and no other table, index or
/// view.
pub fn layout_of(schema: &Schema) -> Option<Layout>
    ensures { MatchOption result ((layout : ALayout) → schema.now ≢ schema_of layout)
        (λ layout. schema.now ≡ schema_of layout) }
{
    if is_second(schema) {
        Some(Layout::Second)
    } else if is_first(schema) {
        Some(Layout::First)
    } else {
        None
    }
}
