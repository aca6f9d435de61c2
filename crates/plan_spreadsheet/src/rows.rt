//! Rows of a list.

ghost use Rattle.std.specs.Prelude.{◌≡◌, [], ◌∷◌, map, IfOk, OnOk};
ghost use Rattle.plan_table.specs.Csv.{row_of};
ghost use Rattle.plan_spreadsheet.specs.Rows as spec;

use plan_table::{Row, is_blank_row};
use std::alloc::{AllocError, Global};

// Whether column `k` is one of some.
fn is_among(places: &[usize], k: usize) -> bool
    ensures { result ≡ spec.is_among places.now k }
{
    for &place in places {
        if place == k {
            return true;
        }
    }
    false
}

// A cell, or an empty one in its place.
fn cell_or_empty(alloc: Global, empty: bool, cell: &[u8]) -> Result<Vec<u8>, AllocError>
    ensures { IfOk result (λ v. v.items ≡ spec.cell_or_empty empty cell.now) }
{
    if empty {
        return Ok(Vec::new(alloc));
    }
    Vec::from_slice(alloc, cell)
}

// Cells, of which those in some columns are empty.
#[tactic(auto, unfolding(crate::specs::Rows::emptied_from))]
fn emptied_cells(
    alloc: Global,
    places: &[usize],
    cells: &[Vec<u8>],
) -> Result<Vec<Vec<u8>>, AllocError>
    ensures { IfOk result (λ v. map (λ cell. cell.items) v.items
        ≡ spec.emptied_from places.now [] 0 (map (λ cell. cell.items) cells.now)) }
{
    let mut copies = Vec::new(alloc);
    for (k, cell) in cells.iter().enumerate() {
        let copy = cell_or_empty(alloc, is_among(places, k), cell)?;
        copies.push(copy)?;
    }
    Ok(copies)
}

// A row with empty cells in some columns.
fn emptied(alloc: Global, places: &[usize], row: &Row) -> Result<Row, AllocError>
    ensures { IfOk result (λ r. row_of r ≡ spec.emptied places.now (row_of row.now)) }
{
    Ok(Row {
        line: row.line,
        cells: emptied_cells(alloc, places, &row.cells)?,
    })
}

/// Rows with empty cells in some columns.
pub fn all_emptied(alloc: Global, places: &[usize], rows: &[Row]) -> Result<Vec<Row>, AllocError>
    ensures { IfOk result (λ v. map row_of v.items
        ≡ map (spec.emptied places.now) (map row_of rows.now)) }
{
    let mut copies = Vec::new(alloc);
    for row in rows {
        let copy = emptied(alloc, places, row)?;
        copies.push(copy)?;
    }
    Ok(copies)
}

// A copy of cells.
fn copy_cells(alloc: Global, cells: &[Vec<u8>]) -> Result<Vec<Vec<u8>>, AllocError>
    ensures { IfOk result (λ v. map (λ cell. cell.items) v.items
        ≡ map (λ cell. cell.items) cells.now) }
{
    let mut copies = Vec::new(alloc);
    for cell in cells {
        let copy = Vec::from_slice(alloc, cell)?;
        copies.push(copy)?;
    }
    Ok(copies)
}

/// A copy of a row.
pub fn copy_row(alloc: Global, row: &Row) -> Result<Row, AllocError>
    ensures { IfOk result (λ r. row_of r ≡ row_of row.now) }
{
    Ok(Row {
        line: row.line,
        cells: copy_cells(alloc, &row.cells)?,
    })
}

/// Copies of rows.
pub fn copy_rows(alloc: Global, rows: &[Row]) -> Result<Vec<Row>, AllocError>
    ensures { IfOk result (λ v. map row_of v.items ≡ map row_of rows.now) }
{
    let mut copies = Vec::new(alloc);
    for row in rows {
        let copy = copy_row(alloc, row)?;
        copies.push(copy)?;
    }
    Ok(copies)
}

/// Rows behind a copy of another one.
pub fn with_first(alloc: Global, first: &Row, rows: Vec<Row>) -> Result<Vec<Row>, AllocError>
    ensures { IfOk result (λ v. map row_of v.items ≡ row_of first.now ∷ map row_of rows.items) }
{
    let mut all = rows;
    let copy = copy_row(alloc, first)?;
    all.insert(0, copy)?;
    Ok(all)
}

// Puts a copy of a row behind others, if the row has content.
fn push_filled(alloc: Global, rows: &mut Vec<Row>, row: &Row) -> Result<(), AllocError>
    ensures { OnOk result (map row_of rows.new.items
        ≡ spec.with_filled (map row_of rows.old.items) (row_of row.now)) }
{
    if is_blank_row(&row.cells) {
        return Ok(());
    }
    let copy = copy_row(alloc, row)?;
    rows.push(copy)?;
    Ok(())
}

/// Copies of the rows with content.
pub fn filled(alloc: Global, rows: &[Row]) -> Result<Vec<Row>, AllocError>
    ensures { IfOk result (λ v. map row_of v.items ≡ spec.filled (map row_of rows.now)) }
{
    let mut copies = Vec::new(alloc);
    for row in rows {
        push_filled(alloc, &mut copies, row)?;
    }
    Ok(copies)
}

// Whether cells are the same.
#[tactic(auto, unfolding(crate::specs::Rows::same_cells))]
fn same_cells(a: &[Vec<u8>], b: &[Vec<u8>]) -> bool
    ensures { result ≡ spec.same_cells (map (λ cell. cell.items) a.now)
        (map (λ cell. cell.items) b.now) }
{
    let mut rest = b;
    for cell in a {
        match rest {
            [other, others @ ..] => {
                if cell.as_slice() != other.as_slice() {
                    return false;
                }
                rest = others;
            }
            [] => return false,
        }
    }
    match rest {
        [] => true,
        [_, ..] => false,
    }
}

// Whether two rows are the same.
fn same_row(a: &Row, b: &Row) -> bool
    ensures { result ≡ spec.same_row (row_of a.now) (row_of b.now) }
{
    a.line == b.line && same_cells(&a.cells, &b.cells)
}

/// Whether rows are the same.
#[tactic(auto, unfolding(crate::specs::Rows::same_rows))]
pub fn same_rows(a: &[Row], b: &[Row]) -> bool
    ensures { result ≡ spec.same_rows (map row_of a.now) (map row_of b.now) }
{
    let mut rest = b;
    for row in a {
        match rest {
            [other, others @ ..] => {
                if !same_row(row, other) {
                    return false;
                }
                rest = others;
            }
            [] => return false,
        }
    }
    match rest {
        [] => true,
        [_, ..] => false,
    }
}
