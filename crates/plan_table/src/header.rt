//! The header of a table.

ghost use Rattle.std.specs.Prelude.{◌≡◌, ◌≤◌, [], length, map, IfOk};
ghost use Rattle.plan_table.specs.Header as spec;
ghost use Rattle.plan_table.specs.Reading.{Gives};

use crate::cells::{name, same, word_fault};
use crate::fault::{ReadError, TableCode};
use plan_psplib::trim;
use std::alloc::{AllocError, Global};

/// The most columns with other headers than the known ones.
const MOST_OTHERS: usize = 100;

/// The kind of a column. A note has a header and is ignored, `Nothing` has no header.
#[derive(Clone, Copy)]
pub enum Column {
    Duration,
    Id,
    Name,
    Predecessors,
    Resource,
    Note,
    Nothing,
}

/// A column: its kind, its header in lower case, and its header as the name of a resource.
#[derive(Drop)]
pub struct Head {
    pub column: Column,
    pub key: Vec<u8>,
    pub name: String,
}

/// A header in lower case, without the blanks at its ends.
pub fn key_of(alloc: Global, cell: &[u8]) -> Result<Vec<u8>, AllocError>
    ensures { IfOk result (λ v. v.items ≡ spec.key_of cell.now) }
{
    let mut key = Vec::new(alloc);
    for byte in trim(cell) {
        key.push(byte.to_ascii_lowercase())?;
    }
    Ok(key)
}

// Whether a header is that of the column of names.
fn is_name_key(key: &[u8]) -> bool
    ensures { result ≡ spec.is_name_key key.now }
{
    same(key, b"name") || same(key, b"task")
}

// Whether a header is that of the column of predecessors.
fn is_predecessors_key(key: &[u8]) -> bool
    ensures { result ≡ spec.is_predecessors_key key.now }
{
    same(key, b"predecessors") || same(key, b"after") || same(key, b"depends on")
}

// The kind of a column by its header alone.
fn column_of(key: &[u8]) -> Column
    ensures { result ≡ spec.column_of key.now }
{
    if key.is_empty() {
        Column::Nothing
    } else if same(key, b"duration") {
        Column::Duration
    } else if same(key, b"id") {
        Column::Id
    } else if is_name_key(key) {
        Column::Name
    } else if is_predecessors_key(key) {
        Column::Predecessors
    } else {
        Column::Resource
    }
}

// Whether two headers are those of one column.
fn same_column(a: &[u8], b: &[u8]) -> bool
    ensures { result ≡ spec.same_column a.now b.now }
{
    same(a, b)
        || is_name_key(a) && is_name_key(b)
        || is_predecessors_key(a) && is_predecessors_key(b)
}

// Whether a column has this header, or another word for it.
fn has_column(heads: &[Head], key: &[u8]) -> bool
    ensures { result ≡ spec.has_column key.now (map spec.head_of heads.now) }
{
    for head in heads {
        if same_column(&head.key, key) {
            return true;
        }
    }
    false
}

// The number of a kind.
fn kind_number(column: Column) -> u8
    ensures { result ≡ spec.kind_number column }
{
    match column {
        Column::Duration => 0,
        Column::Id => 1,
        Column::Name => 2,
        Column::Predecessors => 3,
        Column::Resource => 4,
        Column::Note => 5,
        Column::Nothing => 6,
    }
}

/// Whether two kinds are the same.
pub fn same_kind(a: Column, b: Column) -> bool
    ensures { result ≡ spec.same_kind a b }
{
    kind_number(a) == kind_number(b)
}

/// Whether one of the columns is of a kind.
pub fn has_kind(heads: &[Head], kind: Column) -> bool
    ensures { result ≡ spec.has_kind kind (map spec.head_of heads.now) }
{
    for head in heads {
        if same_kind(kind, head.column) {
            return true;
        }
    }
    false
}

// 1 for a resource.
fn resource_count(column: Column) -> usize
    ensures value { result ≡ spec.resource_count column }
    ensures limit { result ≤ 1 }
{
    match column {
        Column::Resource => 1,
        _ => 0,
    }
}

// How many columns are resources.
fn resources_in(heads: &[Head]) -> usize
    ensures value { result ≡ spec.resources_in (map spec.head_of heads.now) }
    ensures limit { result ≤ length heads.now }
{
    let mut count = 0;
    for head in heads {
        count += resource_count(head.column);
    }
    count
}

// A column with a header comes once, by whatever word.
fn check_once(alloc: Global, before: &[Head], key: &[u8], cell: &[u8]) -> Result<(), ReadError>
    requires { key.now ≡ spec.key_of cell.now }
    ensures { Gives (λ u. u) result (spec.once (map spec.head_of before.now) cell.now) }
{
    if key.is_empty() || !has_column(before, key) {
        return Ok(());
    }
    Err(word_fault(alloc, TableCode::ColumnTwice, 0, trim(cell)))
}

// A column behind others.
#[tactic(auto, unfolding(crate::specs::Header::head_read))]
fn read_head(alloc: Global, line: u64, before: &[Head], cell: &[u8]) -> Result<Head, ReadError>
    ensures { Gives spec.head_of result (spec.head_read line
        (map spec.head_of before.now) cell.now) }
{
    let key = key_of(alloc, cell)?;
    check_once(alloc, before, &key, cell)?;
    let column = column_of(&key);
    if resources_in(before) + resource_count(column) > MOST_OTHERS {
        return Err(word_fault(alloc, TableCode::Limit, line, b""));
    }
    let name = name(alloc, line, trim(cell))?;
    Ok(Head { column, key, name })
}

/// The columns of a header, each of the kind that its header says. Any unknown header is that of a
/// resource.
#[tactic(auto, unfolding(crate::specs::Header::heads_at))]
pub fn read_heads(alloc: Global, line: u64, cells: &[Vec<u8>]) -> Result<Vec<Head>, ReadError>
    ensures { Gives (λ v. map spec.head_of v.items) result (spec.heads_at line []
        (map (λ cell. cell.items) cells.now)) }
{
    let mut heads = Vec::new(alloc);
    for cell in cells {
        let head = read_head(alloc, line, &heads, cell)?;
        heads.push(head)?;
    }
    Ok(heads)
}

/// Checks settled columns: at most 16 are resources, and one has the durations.
#[tactic(auto, unfolding(crate::specs::Header::heads_checked))]
pub fn check_heads(alloc: Global, line: u64, heads: &[Head]) -> Result<(), ReadError>
    ensures { Gives (λ u. u) result (spec.heads_checked line (map spec.head_of heads.now)) }
{
    if resources_in(heads) > 16 {
        return Err(word_fault(alloc, TableCode::Limit, line, b""));
    }
    if !has_kind(heads, Column::Duration) {
        return Err(word_fault(alloc, TableCode::NoDuration, 0, b""));
    }
    Ok(())
}
