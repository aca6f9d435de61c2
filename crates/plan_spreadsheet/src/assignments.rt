//! Assignments: cells such as `crew[2],digger` become a column for each resource that they name.

ghost use Rattle.std.specs.Prelude.{◌≡◌, ◌<◌, ◌++◌, ◌∷◌, [], Ok, length, map, IfOk, OnOk};
ghost use Rattle.std.specs.List.{list_any};
ghost use Rattle.plan_table.specs.Cells as cells;
ghost use Rattle.plan_table.specs.Csv.{row_of};
ghost use Rattle.plan_table.specs.Header.{head_of};
ghost use Rattle.plan_table.specs.Overrides.{override_of};
ghost use Rattle.plan_table.specs.Settlement.{body_of, gives_capacity as gives};
ghost use Rattle.plan_spreadsheet.specs.Assignments as spec;

use crate::parts::{amount_of, name_of, parts};
use crate::rows::{copy_row, copy_rows, with_first};
use plan_psplib::number;
use plan_table::{
    Body, Column, Head, Override, ReadError, Row, cell_of, given, gives_capacity, ids_place,
    is_capacities, read_heads, same_kind, same_name, settle,
};
use std::alloc::{AllocError, Global};

// Whether one of some names is this one.
fn has_name(names: &[Vec<u8>], name: &[u8]) -> bool
    ensures { result ≡ list_any (λ other. cells.same_name other name.now)
        (map (λ other. other.items) names.now) }
{
    for other in names {
        if same_name(other, name) {
            return true;
        }
    }
    false
}

// Adds a name, if it is a new one.
fn push_name(alloc: Global, names: &mut Vec<Vec<u8>>, name: &[u8]) -> Result<(), AllocError>
    ensures { OnOk result (map (λ other. other.items) names.new.items
        ≡ spec.with_name (map (λ other. other.items) names.old.items) name.now) }
{
    if has_name(names, name) {
        return Ok(());
    }
    let copy = Vec::from_slice(alloc, name)?;
    names.push(copy)?;
    Ok(())
}

/// Returns names, and those of parts behind them.
#[tactic(auto, unfolding(crate::specs::Assignments::names_in))]
pub fn with_names(
    alloc: Global,
    names: Vec<Vec<u8>>,
    parts: &[Vec<u8>],
) -> Result<Vec<Vec<u8>>, AllocError>
    ensures { IfOk result (λ v. map (λ name. name.items) v.items
        ≡ spec.names_in (map (λ name. name.items) names.items)
        (map (λ part. part.items) parts.now)) }
{
    let mut all = names;
    for part in parts {
        let name = name_of(part);
        push_name(alloc, &mut all, name)?;
    }
    Ok(all)
}

// The names in a column.
#[tactic(auto, unfolding(crate::specs::Assignments::names_from))]
fn names_of(alloc: Global, k: usize, rows: &[Row]) -> Result<Vec<Vec<u8>>, AllocError>
    ensures { IfOk result (λ v. map (λ name. name.items) v.items
        ≡ spec.names_from k [] (map row_of rows.now)) }
{
    let mut names = Vec::new(alloc);
    for row in rows {
        let found = parts(alloc, cell_of(row, k))?;
        names = with_names(alloc, names, &found)?;
    }
    Ok(names)
}

// Adds the amount of a part that names a resource.
fn push_amount(text: &mut Vec<u8>, name: &[u8], part: &[u8]) -> Result<(), AllocError>
    ensures { OnOk result (text.new.items ≡ spec.with_amount name.now text.old.items part.now) }
{
    if !same_name(name_of(part), name) {
        return Ok(());
    }
    text.extend_from_slice(amount_of(part))?;
    text.push(b' ')?;
    Ok(())
}

/// Returns all amounts of a resource in parts, each with a blank behind it.
#[tactic(auto, unfolding(crate::specs::Assignments::amounts_from))]
pub fn amounts_of(alloc: Global, name: &[u8], parts: &[Vec<u8>]) -> Result<Vec<u8>, AllocError>
    ensures { IfOk result (λ v. v.items ≡ spec.amounts_from name.now []
        (map (λ part. part.items) parts.now)) }
{
    let mut text = Vec::new(alloc);
    for part in parts {
        push_amount(&mut text, name, part)?;
    }
    Ok(text)
}

// The amounts of resources in parts.
fn amounts(alloc: Global, names: &[Vec<u8>], parts: &[Vec<u8>]) -> Result<Vec<Vec<u8>>, AllocError>
    ensures { IfOk result (λ v. map (λ cell. cell.items) v.items ≡ spec.amounts
        (map (λ name. name.items) names.now) (map (λ part. part.items) parts.now)) }
{
    let mut cells = Vec::new(alloc);
    for name in names {
        let cell = amounts_of(alloc, name, parts)?;
        cells.push(cell)?;
    }
    Ok(cells)
}

// Adds copies of cells to others.
fn push_cells(alloc: Global, before: &mut Vec<Vec<u8>>, cells: &[Vec<u8>]) -> Result<(), AllocError>
    ensures { OnOk result (map (λ cell. cell.items) before.new.items
        ≡ map (λ cell. cell.items) before.old.items ++ map (λ cell. cell.items) cells.now) }
{
    for cell in cells {
        let copy = Vec::from_slice(alloc, cell)?;
        before.push(copy)?;
    }
    Ok(())
}

// Cells with others in the place of cell `k`.
fn spliced(
    alloc: Global,
    k: usize,
    new: &[Vec<u8>],
    cells: &[Vec<u8>],
) -> Result<Vec<Vec<u8>>, AllocError>
    requires { k < length cells.now }
    ensures { IfOk result (λ v. map (λ cell. cell.items) v.items ≡ spec.spliced k
        (map (λ cell. cell.items) new.now) (map (λ cell. cell.items) cells.now)) }
{
    let mut all = Vec::new(alloc);
    push_cells(alloc, &mut all, &cells[..k])?;
    push_cells(alloc, &mut all, new)?;
    push_cells(alloc, &mut all, &cells[k + 1..])?;
    Ok(all)
}

// A row with other cells in the place of column `k`, if it has one there.
fn row_with(alloc: Global, k: usize, new: &[Vec<u8>], row: &Row) -> Result<Row, AllocError>
    ensures { IfOk result (λ r. row_of r
        ≡ spec.row_with k (map (λ cell. cell.items) new.now) (row_of row.now)) }
{
    if k >= row.cells.len() {
        return copy_row(alloc, row);
    }
    Ok(Row {
        line: row.line,
        cells: spliced(alloc, k, new, &row.cells)?,
    })
}

// A row with its amounts of resources in the place of column `k`.
fn assigned(alloc: Global, k: usize, names: &[Vec<u8>], row: &Row) -> Result<Row, AllocError>
    ensures { IfOk result (λ r. row_of r
        ≡ spec.assigned k (map (λ name. name.items) names.now) (row_of row.now)) }
{
    let found = parts(alloc, cell_of(row, k))?;
    let cells = amounts(alloc, names, &found)?;
    row_with(alloc, k, &cells, row)
}

// Rows with their amounts of resources in the place of column `k`.
fn all_assigned(
    alloc: Global,
    k: usize,
    names: &[Vec<u8>],
    rows: &[Row],
) -> Result<Vec<Row>, AllocError>
    ensures { IfOk result (λ v. map row_of v.items
        ≡ map (spec.assigned k (map (λ name. name.items) names.now)) (map row_of rows.now)) }
{
    let mut all = Vec::new(alloc);
    for row in rows {
        let copy = assigned(alloc, k, names, row)?;
        all.push(copy)?;
    }
    Ok(all)
}

/// Whether a header is a word for a column with names of resources.
pub fn is_assignment_word(key: &[u8]) -> bool
    ensures { result ≡ spec.is_assignment_word key.now }
{
    same_name(b"resource names", key)
        || same_name(b"resources", key)
        || same_name(b"ressourcennamen", key)
        || same_name(b"noms ressources", key)
        || same_name(b"nombres de los recursos", key)
}

// Whether a number is the capacity of column `k`, in one of the rows.
fn any_number(rows: &[Row], place: Option<usize>, k: usize) -> bool
    ensures { result ≡ list_any (spec.gives_number place k) (map row_of rows.now) }
{
    for row in rows {
        if number(cell_of(row, k)).is_some() && is_capacities(place, row) {
            return true;
        }
    }
    false
}

// Whether column `k` has names of resources.
fn is_assignments(body: &Body<'_>, k: usize, head: &Head) -> bool
    ensures { result ≡ spec.is_assignments (body_of body.now) k (head_of head.now) }
{
    same_kind(Column::Resource, head.column)
        && is_assignment_word(&head.key)
        && given(body.overrides, head.name.as_bytes()).is_none()
        && !any_number(body.rows, body.place, k)
}

/// Returns the first column that has names of resources. The columns are settled.
#[tactic(auto, unfolding(crate::specs::Assignments::place_from))]
pub fn place_of(body: &Body<'_>, heads: &[Head]) -> Option<usize>
    ensures { result ≡ spec.place_from (body_of body.now) 0 (map head_of heads.now) }
{
    for (k, head) in heads.iter().enumerate() {
        if is_assignments(body, k, head) {
            return Some(k);
        }
    }
    None
}

// Whether a column has a name.
fn has_column(heads: &[Head], name: &[u8]) -> bool
    ensures { result ≡ list_any (λ head. cells.same_name head.name name.now)
        (map head_of heads.now) }
{
    for head in heads {
        if same_name(head.name.as_bytes(), name) {
            return true;
        }
    }
    false
}

// Whether a capacity is given for a name that no column has.
fn is_limited(overrides: &[Override<'_>], heads: &[Head], name: &[u8]) -> bool
    ensures { result ≡ spec.is_limited (map override_of overrides.now) (map head_of heads.now)
        name.now }
{
    given(overrides, name).is_some() && !has_column(heads, name)
}

// The same for one of the names.
fn any_limited(overrides: &[Override<'_>], heads: &[Head], names: &[Vec<u8>]) -> bool
    ensures { result ≡ list_any (spec.is_limited (map override_of overrides.now)
        (map head_of heads.now)) (map (λ name. name.items) names.now) }
{
    for name in names {
        if is_limited(overrides, heads, name) {
            return true;
        }
    }
    false
}

// Whether one of the rows has capacities for column `k`.
fn any_capacity(rows: &[Row], place: Option<usize>, k: usize) -> bool
    ensures { result ≡ list_any (gives place k) (map row_of rows.now) }
{
    for row in rows {
        if gives_capacity(place, row, k) {
            return true;
        }
    }
    false
}

// Whether one of the names in column `k` has a capacity.
fn has_limits(body: &Body<'_>, heads: &[Head], k: usize, names: &[Vec<u8>]) -> bool
    ensures { result ≡ spec.has_limits (body_of body.now) (map head_of heads.now) k
        (map (λ name. name.items) names.now) }
{
    any_capacity(body.rows, body.place, k) || any_limited(body.overrides, heads, names)
}

// A list behind a copy of its header, which stay.
fn unassigned(alloc: Global, first: &Row, rows: &[Row]) -> Result<Vec<Row>, AllocError>
    ensures { IfOk result (λ v. map row_of v.items ≡ row_of first.now ∷ map row_of rows.now) }
{
    let copies = copy_rows(alloc, rows)?;
    with_first(alloc, first, copies)
}

// A list with a column for each name in the place of column `k`, if one of them has a capacity.
fn assigned_if(
    alloc: Global,
    body: &Body<'_>,
    heads: &[Head],
    first: &Row,
    k: usize,
) -> Result<Vec<Row>, AllocError>
    ensures { IfOk result (λ v. map row_of v.items ≡ spec.assigned_if (body_of body.now)
        (map head_of heads.now) (row_of first.now) k
        (spec.names_from k [] (body_of body.now).rows)) }
{
    let names = names_of(alloc, k, body.rows)?;
    if !has_limits(body, heads, k, &names) {
        return unassigned(alloc, first, body.rows);
    }
    let header = row_with(alloc, k, &names, first)?;
    let rows = all_assigned(alloc, k, &names, body.rows)?;
    with_first(alloc, &header, rows)
}

// A list under these columns, before they are settled.
fn assigned_under(
    alloc: Global,
    overrides: &[Override<'_>],
    heads: &[Head],
    first: &Row,
    rows: &[Row],
) -> Result<Vec<Row>, AllocError>
    ensures { IfOk result (λ v. map row_of v.items
        ≡ spec.assigned_by (map override_of overrides.now) (row_of first.now) (map row_of rows.now)
        (Ok (map head_of heads.now))) }
{
    let settled = settle(alloc, overrides, rows, heads)?;
    let body = Body {
        overrides,
        rows,
        place: ids_place(overrides, heads),
    };
    match place_of(&body, &settled) {
        Some(k) => assigned_if(alloc, &body, &settled, first, k),
        None => unassigned(alloc, first, rows),
    }
}

// A list with columns in place of the names of resources: its header, and the rows behind it.
fn assigned_behind(
    alloc: Global,
    overrides: &[Override<'_>],
    first: &Row,
    rows: &[Row],
) -> Result<Vec<Row>, AllocError>
    ensures { IfOk result (λ v. map row_of v.items
        ≡ spec.assigned_behind (map override_of overrides.now) (row_of first.now)
        (map row_of rows.now)) }
{
    match read_heads(alloc, first.line, &first.cells) {
        Ok(heads) => assigned_under(alloc, overrides, &heads, first, rows),
        Err(ReadError::Memory) => Err(AllocError),
        Err(ReadError::Fault(_)) => unassigned(alloc, first, rows),
    }
}

/// Returns a list with a column for each name of a resource, in place of the column of these names.
/// The first row is the header. A list in which no such name has a capacity stays.
pub fn with_assignments(
    alloc: Global,
    overrides: &[Override<'_>],
    rows: &[Row],
) -> Result<Vec<Row>, AllocError>
    ensures { IfOk result (λ v. map row_of v.items
        ≡ spec.with_assignments (map override_of overrides.now) (map row_of rows.now)) }
{
    match rows {
        [first, rest @ ..] => assigned_behind(alloc, overrides, first, rest),
        [] => Ok(Vec::new(alloc)),
    }
}
