//! The kinds of the columns of a list: the cells of a column settle an unknown header.

ghost use Rattle.std.specs.Prelude.{◌≡◌, ◌&&◌, [], map, not, IfOk};
ghost use Rattle.std.specs.List.{list_any};
ghost use Rattle.plan_table.specs.Csv.{row_of};
ghost use Rattle.plan_table.specs.Header.{head_of};
ghost use Rattle.plan_table.specs.Overrides.{override_of};
ghost use Rattle.plan_table.specs.Reading.{Gives};
ghost use Rattle.plan_table.specs.Settlement as spec;

use crate::cells::word_fault;
use crate::entries::{cell_at, id_place};
use crate::fault::{ReadError, TableCode};
use crate::header::{Column, Head, check_heads, has_kind, read_heads, same_kind};
use crate::overrides::{Override, given};
use crate::records::Row;
use crate::synonyms::{is_capacity_word, is_note_word, is_successor_word, synonym_kind};
use plan_psplib::trim;
use std::alloc::{AllocError, Global};

/// The facts that settle columns: the given capacities, the rows, and the place of the ids.
#[derive(Clone, Copy)]
pub struct Body<'a> {
    pub overrides: &'a [Override<'a>],
    pub rows: &'a [Row],
    pub place: Option<usize>,
}

/// The cell of column `k` in a row, without the blanks at its ends.
pub fn cell_of(row: &Row, k: usize) -> &[u8]
    ensures { result.now ≡ spec.cell_of k (row_of row.now) }
{
    trim(cell_at(&row.cells, k))
}

/// Whether a row is that of the capacities.
pub fn is_capacities(place: Option<usize>, row: &Row) -> bool
    ensures { result ≡ spec.is_capacities place (row_of row.now) }
{
    match place {
        Some(place) => is_capacity_word(cell_of(row, place)),
        None => false,
    }
}

/// Whether a row is that of the capacities, and has one for column `k`.
pub fn gives_capacity(place: Option<usize>, row: &Row, k: usize) -> bool
    ensures { result ≡ spec.gives_capacity place k (row_of row.now) }
{
    !cell_of(row, k).is_empty() && is_capacities(place, row)
}

// Whether one of the rows gives a capacity for column `k`.
fn any_capacity(rows: &[Row], place: Option<usize>, k: usize) -> bool
    ensures { result ≡ list_any (spec.gives_capacity place k) (map row_of rows.now) }
{
    for row in rows {
        if gives_capacity(place, row, k) {
            return true;
        }
    }
    false
}

// Whether the ids are in column `k`.
fn is_place(place: Option<usize>, k: usize) -> bool
    ensures { result ≡ spec.is_place place k }
{
    match place {
        Some(place) => place == k,
        None => false,
    }
}

// Whether a capacity is given for a column.
fn is_given(overrides: &[Override<'_>], head: &Head) -> bool
    ensures { result ≡ spec.is_given (map override_of overrides.now) (head_of head.now) }
{
    given(overrides, head.name.as_bytes()).is_some()
}

/// Whether column `k` has a capacity.
pub fn has_capacity(body: &Body<'_>, k: usize, head: &Head) -> bool
    ensures { result ≡ spec.has_capacity (spec.body_of body.now) k (head_of head.now) }
{
    is_given(body.overrides, head)
        || !is_place(body.place, k) && any_capacity(body.rows, body.place, k)
}

// Whether a column's header is a synonym for `id`, and no capacity is given for it.
fn can_have_ids(overrides: &[Override<'_>], head: &Head) -> bool
    ensures { result ≡ spec.can_have_ids (map override_of overrides.now) (head_of head.now) }
{
    match synonym_kind(&head.key) {
        Some(kind) => same_kind(Column::Id, kind) && !is_given(overrides, head),
        None => false,
    }
}

// The first column that can have the ids.
fn ids_from(overrides: &[Override<'_>], heads: &[Head]) -> Option<usize>
    ensures { result ≡ spec.ids_from (map override_of overrides.now) 0 (map head_of heads.now) }
{
    for (k, head) in heads.iter().enumerate() {
        if can_have_ids(overrides, head) {
            return Some(k);
        }
    }
    None
}

/// Returns the place of the ids: the column `id`, or else the first one that can have them.
pub fn ids_place(overrides: &[Override<'_>], heads: &[Head]) -> Option<usize>
    ensures { result ≡ spec.ids_place (map override_of overrides.now) (map head_of heads.now) }
{
    match id_place(heads) {
        Some(place) => Some(place),
        None => ids_from(overrides, heads),
    }
}

// Returns the kind of a column without a capacity and without another kind.
fn note_or_resource(key: &[u8]) -> Column
    ensures { result ≡ spec.note_or_resource key.now }
{
    if is_note_word(key) {
        Column::Note
    } else {
        Column::Resource
    }
}

// Whether no other column is of a kind: none before it, and none behind it.
fn is_new(kind: Column, before: &[Head], behind: &[Head]) -> bool
    ensures { result ≡ spec.is_new kind (map head_of before.now) (map head_of behind.now) }
{
    !(has_kind(before, kind) || has_kind(behind, kind))
}

// Returns the kind of column `k` between others if its header isn't a known one.
#[tactic(auto, unfolding(crate::specs::Settlement::other_column))]
fn other_column(body: &Body<'_>, before: &[Head], k: usize, head: &Head, behind: &[Head]) -> Column
    ensures { result ≡ spec.other_column (spec.body_of body.now) (map head_of before.now) k
        (head_of head.now) (map head_of behind.now) }
{
    if has_capacity(body, k, head) {
        return Column::Resource;
    }
    match synonym_kind(&head.key) {
        Some(kind) if is_new(kind, before, behind) => kind,
        _ => note_or_resource(&head.key),
    }
}

// Column `k` between others: a known header alone says what it is.
fn settle_head(
    alloc: Global,
    body: &Body<'_>,
    before: &[Head],
    k: usize,
    head: &Head,
    behind: &[Head],
) -> Result<Head, AllocError>
    ensures { IfOk result (λ h. head_of h ≡ spec.settled_head (spec.body_of body.now)
        (map head_of before.now) k (head_of head.now) (map head_of behind.now)) }
{
    let column = match head.column {
        Column::Resource => other_column(body, before, k, head, behind),
        known => known,
    };
    Ok(Head {
        column,
        key: Vec::from_slice(alloc, &head.key)?,
        name: String::from_str(alloc, head.name.as_str())?,
    })
}

// All columns.
#[tactic(auto, unfolding(crate::specs::Settlement::settled_at))]
fn settle_heads(alloc: Global, body: &Body<'_>, heads: &[Head]) -> Result<Vec<Head>, AllocError>
    ensures { IfOk result (λ v. map head_of v.items ≡ spec.settled_at (spec.body_of body.now) [] 0
        (map head_of heads.now)) }
{
    let mut settled = Vec::new(alloc);
    for (k, head) in heads.iter().enumerate() {
        let next = settle_head(alloc, body, &settled, k, head, &heads[k + 1..])?;
        settled.push(next)?;
    }
    Ok(settled)
}

/// The columns of rows, with given capacities.
pub fn settle(
    alloc: Global,
    overrides: &[Override<'_>],
    rows: &[Row],
    heads: &[Head],
) -> Result<Vec<Head>, AllocError>
    ensures { IfOk result (λ v. map head_of v.items ≡ spec.settled (map override_of overrides.now)
        (map row_of rows.now) (map head_of heads.now)) }
{
    let body = Body {
        overrides,
        rows,
        place: ids_place(overrides, heads),
    };
    settle_heads(alloc, &body, heads)
}

/// Whether column `k` is one of successors, without a capacity.
pub fn gives_successors(body: &Body<'_>, k: usize, head: &Head) -> bool
    ensures { result ≡ spec.gives_successors (spec.body_of body.now) k (head_of head.now) }
{
    match head.column {
        Column::Resource => is_successor_word(&head.key) && !has_capacity(body, k, head),
        _ => false,
    }
}

// Checks that no column is one of successors.
#[tactic(auto, unfolding(crate::specs::Settlement::successors_from))]
fn check_columns(alloc: Global, body: &Body<'_>, heads: &[Head]) -> Result<(), ReadError>
    ensures { Gives (λ u. u) result (spec.successors_from (spec.body_of body.now) 0
        (map head_of heads.now)) }
{
    for (k, head) in heads.iter().enumerate() {
        if gives_successors(body, k, head) {
            return Err(word_fault(alloc, TableCode::Successors, 0, head.name.as_bytes()));
        }
    }
    Ok(())
}

// Checks that no column of rows is one of successors, with given capacities.
fn check_successors(
    alloc: Global,
    overrides: &[Override<'_>],
    rows: &[Row],
    heads: &[Head],
) -> Result<(), ReadError>
    ensures { Gives (λ u. u) result (spec.successors_checked (map override_of overrides.now)
        (map row_of rows.now) (map head_of heads.now)) }
{
    let body = Body {
        overrides,
        rows,
        place: ids_place(overrides, heads),
    };
    check_columns(alloc, &body, heads)
}

/// Reads the columns of a list, whose header is the first of its rows.
///
/// The headers of durations, ids, names and predecessors are known. Another column with a capacity,
/// in its row or given, is a resource. One without a capacity is what its header is a synonym for if
/// no other column is that; otherwise it is a note if its header is a word for one. All others are
/// resources. A column of successors without a capacity is T16.
#[tactic(auto, unfolding(crate::specs::Settlement::header))]
pub fn read_header(
    alloc: Global,
    overrides: &[Override<'_>],
    first: &Row,
    rows: &[Row],
) -> Result<Vec<Head>, ReadError>
    ensures { Gives (λ v. map head_of v.items) result (spec.header (map override_of overrides.now)
        (row_of first.now) (map row_of rows.now)) }
{
    let heads = read_heads(alloc, first.line, &first.cells)?;
    let settled = settle(alloc, overrides, rows, &heads)?;
    check_heads(alloc, first.line, &settled)?;
    check_successors(alloc, overrides, rows, &heads)?;
    Ok(settled)
}
