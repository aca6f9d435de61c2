//! The plain list of a list with dates: its rows without dates and absences.

ghost use Rattle.std.specs.Prelude.{◌≡◌, [], map, IfOk};
ghost use Rattle.std.specs.List.{list_any};
ghost use Rattle.plan_table.specs.Csv.{row_of};
ghost use Rattle.plan_weeklist.specs.Columns as dated;
ghost use Rattle.plan_weeklist.specs.PlainRows as spec;

use crate::columns::{Columns, has_dates, is_absence, is_undated};
use plan_table::Row;
use std::alloc::{AllocError, Global};

// Whether one of the rows is an absence.
fn any_absence(columns: &Columns, rows: &[Row]) -> bool
    ensures { result ≡ list_any (dated.is_absence columns.now.ids) (map row_of rows.now) }
{
    for row in rows {
        if is_absence(columns, row) {
            return true;
        }
    }
    false
}

/// Whether a list has no dates.
pub fn has_no_dates(columns: &Columns, rows: &[Row]) -> bool
    ensures { result ≡ spec.has_no_dates columns.now (map row_of rows.now) }
{
    is_undated(columns) && !any_absence(columns, rows)
}

// The cell in column `k` of the plain list.
fn plain_cell(
    alloc: Global,
    columns: &Columns,
    absent: bool,
    k: usize,
    cell: &[u8],
) -> Result<Vec<u8>, AllocError>
    ensures { IfOk result (λ v. v.items ≡ spec.plain_cell columns.now absent k cell.now) }
{
    if absent || has_dates(columns, k) {
        return Ok(Vec::new(alloc));
    }
    Vec::from_slice(alloc, cell)
}

// The cells of a row of the plain list.
#[tactic(auto, unfolding(crate::specs::PlainRows::plain_cells))]
fn plain_cells(
    alloc: Global,
    columns: &Columns,
    absent: bool,
    cells: &[Vec<u8>],
) -> Result<Vec<Vec<u8>>, AllocError>
    ensures { IfOk result (λ v. map (λ cell. cell.items) v.items
        ≡ spec.plain_cells columns.now absent [] 0 (map (λ cell. cell.items) cells.now)) }
{
    let mut plain = Vec::new(alloc);
    for (k, cell) in cells.iter().enumerate() {
        let next = plain_cell(alloc, columns, absent, k, cell)?;
        plain.push(next)?;
    }
    Ok(plain)
}

// A row of the plain list.
fn plain_row(alloc: Global, columns: &Columns, row: &Row) -> Result<Row, AllocError>
    ensures { IfOk result (λ r. row_of r ≡ spec.plain_row columns.now (row_of row.now)) }
{
    let absent = is_absence(columns, row);
    Ok(Row {
        line: row.line,
        cells: plain_cells(alloc, columns, absent, &row.cells)?,
    })
}

/// Returns the rows of the plain list.
pub fn plain_rows(alloc: Global, columns: &Columns, rows: &[Row]) -> Result<Vec<Row>, AllocError>
    ensures { IfOk result (λ v. map row_of v.items
        ≡ map (spec.plain_row columns.now) (map row_of rows.now)) }
{
    let mut plain = Vec::new(alloc);
    for row in rows {
        let next = plain_row(alloc, columns, row)?;
        plain.push(next)?;
    }
    Ok(plain)
}
