//! Groups: rows with deeper rows below them, which stand for these rows and are no activities.

ghost use Rattle.std.specs.Prelude.{◌≡◌, [], Ok, map, IfOk, OnOk};
ghost use Rattle.plan_table.specs.Csv.{row_of};
ghost use Rattle.plan_table.specs.Header.{head_of};
ghost use Rattle.plan_table.specs.Overrides.{override_of};
ghost use Rattle.plan_table.specs.Settlement.{body_of};
ghost use Rattle.plan_spreadsheet.specs.Groups as spec;
ghost use Rattle.std.specs.Option.{option_map};

use crate::rows::{all_emptied, copy_row, copy_rows, with_first};
use plan_psplib::number;
use plan_table::{
    Body, Column, Head, Override, ReadError, Row, cell_of, has_capacity, ids_place, read_heads,
    same_kind, same_name, settle,
};
use std::alloc::{AllocError, Global};

/// A column that tells how deep the rows are: by levels, or by numbers such as 1.2.
#[derive(Clone, Copy)]
pub struct Outline {
    pub place: usize,
    pub levels: bool,
}

// Whether a header is a word for a column of levels.
fn is_level_word(key: &[u8]) -> bool
    ensures { result ≡ spec.is_level_word key.now }
{
    same_name(b"outline level", key) || same_name(b"gliederungsebene", key)
}

// Whether a header is a word for a column of numbers such as 1.2.
fn is_outline_word(key: &[u8]) -> bool
    ensures { result ≡ spec.is_outline_word key.now }
{
    same_name(b"outline number", key)
        || same_name(b"gliederungsnummer", key)
        || same_name(b"wbs", key)
        || same_name(b"psp-code", key)
}

// Whether column `k` tells how deep the rows are.
fn is_outline(body: &Body<'_>, k: usize, head: &Head) -> bool
    ensures { result ≡ spec.is_outline (body_of body.now) k (head_of head.now) }
{
    same_kind(Column::Resource, head.column)
        && (is_level_word(&head.key) || is_outline_word(&head.key))
        && !has_capacity(body, k, head)
}

// Puts the number of column `k` behind others, if it tells how deep the rows are.
fn push_outline(
    body: &Body<'_>,
    places: &mut Vec<usize>,
    k: usize,
    head: &Head,
) -> Result<(), AllocError>
    ensures { OnOk result (places.new.items
        ≡ spec.with_outline (body_of body.now) places.old.items k (head_of head.now)) }
{
    if is_outline(body, k, head) {
        places.push(k)?;
    }
    Ok(())
}

// The numbers of the columns that tell how deep the rows are.
#[tactic(auto, unfolding(crate::specs::Groups::outlines_from))]
fn outlines(alloc: Global, body: &Body<'_>, heads: &[Head]) -> Result<Vec<usize>, AllocError>
    ensures { IfOk result (λ v. v.items
        ≡ spec.outlines_from (body_of body.now) [] 0 (map head_of heads.now)) }
{
    let mut places = Vec::new(alloc);
    for (k, head) in heads.iter().enumerate() {
        push_outline(body, &mut places, k, head)?;
    }
    Ok(places)
}

// The first column that tells how deep the rows are.
#[tactic(auto, unfolding(crate::specs::Groups::outline_from))]
fn first_outline(body: &Body<'_>, heads: &[Head]) -> Option<Outline>
    ensures { option_map spec.outline_of result
        ≡ spec.outline_from (body_of body.now) 0 (map head_of heads.now) }
{
    for (k, head) in heads.iter().enumerate() {
        if is_outline(body, k, head) {
            return Some(Outline {
                place: k,
                levels: is_level_word(&head.key),
            });
        }
    }
    None
}

// How many parts an outline number has.
fn parts_of(cell: &[u8]) -> Option<u64>
    ensures { result ≡ spec.parts_of cell.now }
{
    if cell.is_empty() {
        return None;
    }
    Some(cell.iter().filter(|&&byte| byte == b'.').count() as u64)
}

// How deep a row is.
fn depth(outline: Outline, row: &Row) -> Option<u64>
    ensures { result ≡ spec.depth (spec.outline_of outline) (row_of row.now) }
{
    let cell = cell_of(row, outline.place);
    if outline.levels {
        number(cell)
    } else {
        parts_of(cell)
    }
}

// How deep the next row is.
fn next_depth(outline: Outline, rows: &[Row]) -> Option<u64>
    ensures { result ≡ spec.next_depth (spec.outline_of outline) (map row_of rows.now) }
{
    match rows {
        [row, ..] => depth(outline, row),
        [] => None,
    }
}

// Whether a depth is below depth `n`.
fn is_deeper(n: u64, next: Option<u64>) -> bool
    ensures { result ≡ spec.deeper_than n next }
{
    match next {
        Some(m) => n < m,
        None => false,
    }
}

// Whether a row is a group.
fn is_group(outline: Outline, row: &Row, behind: &[Row]) -> bool
    ensures { result ≡ spec.is_group (spec.outline_of outline) (row_of row.now)
        (map row_of behind.now) }
{
    match depth(outline, row) {
        Some(n) => is_deeper(n, next_depth(outline, behind)),
        None => false,
    }
}

// Puts a copy of a row behind others, if it is no group.
fn push_row(
    alloc: Global,
    outline: Outline,
    kept: &mut Vec<Row>,
    row: &Row,
    behind: &[Row],
) -> Result<(), AllocError>
    ensures { OnOk result (map row_of kept.new.items
        ≡ spec.with_row (spec.outline_of outline) (map row_of kept.old.items) (row_of row.now)
        (map row_of behind.now)) }
{
    if is_group(outline, row, behind) {
        return Ok(());
    }
    let copy = copy_row(alloc, row)?;
    kept.push(copy)?;
    Ok(())
}

// The rows without groups.
#[tactic(auto, unfolding(crate::specs::Groups::ungrouped))]
fn ungrouped(alloc: Global, outline: Outline, rows: &[Row]) -> Result<Vec<Row>, AllocError>
    ensures { IfOk result (λ v. map row_of v.items
        ≡ spec.ungrouped (spec.outline_of outline) [] (map row_of rows.now)) }
{
    let mut kept = Vec::new(alloc);
    for (k, row) in rows.iter().enumerate() {
        push_row(alloc, outline, &mut kept, row, &rows[k + 1..])?;
    }
    Ok(kept)
}

// The rows behind the header without groups.
fn ungrouped_under(alloc: Global, body: &Body<'_>, heads: &[Head]) -> Result<Vec<Row>, AllocError>
    ensures { IfOk result (λ v. map row_of v.items
        ≡ spec.ungrouped_under (body_of body.now) (map head_of heads.now)) }
{
    if body.place.is_none() {
        return copy_rows(alloc, body.rows);
    }
    match first_outline(body, heads) {
        Some(outline) => ungrouped(alloc, outline, body.rows),
        None => copy_rows(alloc, body.rows),
    }
}

// A list without groups, and without the columns that tell which they are.
fn without_groups_under(
    alloc: Global,
    body: &Body<'_>,
    heads: &[Head],
    first: &Row,
) -> Result<Vec<Row>, AllocError>
    ensures { IfOk result (λ v. map row_of v.items
        ≡ spec.under (body_of body.now) (map head_of heads.now) (row_of first.now)) }
{
    let places = outlines(alloc, body, heads)?;
    let kept = ungrouped_under(alloc, body, heads)?;
    let rows = with_first(alloc, first, kept)?;
    all_emptied(alloc, &places, &rows)
}

// A list without groups under these columns, before they are settled.
fn under(
    alloc: Global,
    overrides: &[Override<'_>],
    heads: &[Head],
    first: &Row,
    rows: &[Row],
) -> Result<Vec<Row>, AllocError>
    ensures { IfOk result (λ v. map row_of v.items
        ≡ spec.under_if (map override_of overrides.now) (row_of first.now) (map row_of rows.now)
        (Ok (map head_of heads.now))) }
{
    let settled = settle(alloc, overrides, rows, heads)?;
    let body = Body {
        overrides,
        rows,
        place: ids_place(overrides, heads),
    };
    without_groups_under(alloc, &body, &settled, first)
}

// A list without groups: its header, and the rows behind it.
fn without_groups_behind(
    alloc: Global,
    overrides: &[Override<'_>],
    first: &Row,
    rows: &[Row],
) -> Result<Vec<Row>, AllocError>
    ensures { IfOk result (λ v. map row_of v.items
        ≡ spec.without_groups_behind (map override_of overrides.now) (row_of first.now)
        (map row_of rows.now)) }
{
    match read_heads(alloc, first.line, &first.cells) {
        Ok(heads) => {
            let list = under(alloc, overrides, &heads, first, rows)?;
            Ok(list)
        }
        Err(ReadError::Memory) => Err(AllocError),
        Err(ReadError::Fault(_)) => {
            let copies = copy_rows(alloc, rows)?;
            with_first(alloc, first, copies)
        }
    }
}

/// Returns a list without its groups and the columns that tell which they are. The first row is the
/// header.
pub fn without_groups(
    alloc: Global,
    overrides: &[Override<'_>],
    rows: &[Row],
) -> Result<Vec<Row>, AllocError>
    ensures { IfOk result (λ v. map row_of v.items
        ≡ spec.without_groups (map override_of overrides.now) (map row_of rows.now)) }
{
    match rows {
        [first, rest @ ..] => without_groups_behind(alloc, overrides, first, rest),
        [] => Ok(Vec::new(alloc)),
    }
}
