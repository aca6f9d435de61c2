//! Notes: columns that a plan doesn't use.

ghost use Rattle.std.specs.Prelude.{◌≡◌, [], map, IfOk, OnOk};
ghost use Rattle.plan_table.specs.Csv.{row_of};
ghost use Rattle.plan_table.specs.Header.{head_of};
ghost use Rattle.plan_table.specs.Overrides.{override_of};
ghost use Rattle.plan_table.specs.Settlement.{body_of};
ghost use Rattle.std.specs.String.{string_bytes};
ghost use Rattle.std.specs.Str.Lossy.{utf8_lossy};
ghost use Rattle.plan_spreadsheet.specs.Notes as spec;

use crate::assignments::is_assignment_word;
use plan_psplib::number;
use plan_table::{
    Body, Column, Head, Override, ReadError, Row, cell_of, gives_successors, has_capacity,
    ids_place, read_heads, same_kind, same_name, settle,
};
use std::alloc::{AllocError, Global};

// Whether a cell contains text: it is neither empty nor a number.
fn is_text(cell: &[u8]) -> bool
    ensures { result ≡ spec.is_text cell.now }
{
    !cell.is_empty() && number(cell).is_none()
}

// Whether column `k` contains text.
fn has_text(rows: &[Row], k: usize) -> bool
    ensures { result ≡ spec.has_text (map row_of rows.now) k }
{
    for row in rows {
        if is_text(cell_of(row, k)) {
            return true;
        }
    }
    false
}

// Whether column `k` has no entry.
fn is_vacant(rows: &[Row], k: usize) -> bool
    ensures { result ≡ spec.is_vacant (map row_of rows.now) k }
{
    for row in rows {
        if !cell_of(row, k).is_empty() {
            return false;
        }
    }
    true
}

// Whether a column with a word for names of resources names none.
fn names_none(body: &Body<'_>, k: usize, head: &Head) -> bool
    ensures { result ≡ spec.names_none (body_of body.now) k (head_of head.now) }
{
    is_assignment_word(&head.key) && is_vacant(body.rows, k)
}

// Whether a header is that of the slack of activities.
fn is_slack_word(key: &[u8]) -> bool
    ensures { result ≡ spec.is_slack_word key.now }
{
    same_name(b"slack", key)
}

// Whether column `k` is a note.
fn is_note(body: &Body<'_>, k: usize, head: &Head) -> bool
    ensures { result ≡ spec.is_note (body_of body.now) k (head_of head.now) }
{
    same_kind(Column::Resource, head.column)
        && !has_capacity(body, k, head)
        && !gives_successors(body, k, head)
        && (has_text(body.rows, k) || is_slack_word(&head.key) || names_none(body, k, head))
}

// Puts the number of column `k` behind others, if it is a note.
fn push_note(
    body: &Body<'_>,
    places: &mut Vec<usize>,
    k: usize,
    head: &Head,
) -> Result<(), AllocError>
    ensures { OnOk result (places.new.items
        ≡ spec.with_note (body_of body.now) places.old.items k (head_of head.now)) }
{
    if is_note(body, k, head) {
        places.push(k)?;
    }
    Ok(())
}

// The numbers of the columns that are notes.
#[tactic(auto, unfolding(crate::specs::Notes::notes_from))]
fn note_places(alloc: Global, body: &Body<'_>, heads: &[Head]) -> Result<Vec<usize>, AllocError>
    ensures { IfOk result (λ v. v.items
        ≡ spec.notes_from (body_of body.now) [] 0 (map head_of heads.now)) }
{
    let mut places = Vec::new(alloc);
    for (k, head) in heads.iter().enumerate() {
        push_note(body, &mut places, k, head)?;
    }
    Ok(places)
}

// The notes of a list with these columns.
fn notes_under(
    alloc: Global,
    overrides: &[Override<'_>],
    rows: &[Row],
    heads: &[Head],
) -> Result<Vec<usize>, AllocError>
    ensures { IfOk result (λ v. v.items ≡ spec.notes_under (map override_of overrides.now)
        (map row_of rows.now) (map head_of heads.now)) }
{
    let settled = settle(alloc, overrides, rows, heads)?;
    let body = Body {
        overrides,
        rows,
        place: ids_place(overrides, heads),
    };
    note_places(alloc, &body, &settled)
}

/// Returns the numbers of the columns that are notes: they would be resources by their headers
/// alone, but contain text and have no capacity. So are columns of slack, and columns for names of
/// resources without entries. Columns of successors aren't notes.
pub fn notes(
    alloc: Global,
    overrides: &[Override<'_>],
    first: &Row,
    rows: &[Row],
) -> Result<Vec<usize>, AllocError>
    ensures { IfOk result (λ v. v.items ≡ spec.notes (map override_of overrides.now)
        (row_of first.now) (map row_of rows.now)) }
{
    match read_heads(alloc, first.line, &first.cells) {
        Ok(heads) => {
            let places = notes_under(alloc, overrides, rows, &heads)?;
            Ok(places)
        }
        Err(ReadError::Memory) => Err(AllocError),
        Err(ReadError::Fault(_)) => Ok(Vec::new(alloc)),
    }
}

/// Returns the headers of columns.
pub fn headers(alloc: Global, first: &Row, places: &[usize]) -> Result<Vec<String>, AllocError>
    ensures { IfOk result (λ v. map string_bytes v.items
        ≡ map utf8_lossy (spec.headers (row_of first.now) places.now)) }
{
    let mut headers = Vec::new(alloc);
    for &place in places {
        let header = String::from_utf8_lossy(alloc, cell_of(first, place))?;
        headers.push(header)?;
    }
    Ok(headers)
}
