//! The rows of a list with dates.

ghost use Rattle.std.specs.Prelude.{◌≡◌, None, map, slice_index_or, IfErr, IfOk};
ghost use Rattle.plan_table.specs.Csv.{row_of};
ghost use Rattle.plan_weekdates.specs.DatedCells.{Fails};
ghost use Rattle.plan_weekdates.specs.DatedRows as spec;

use crate::calendar::InstantCalendar;
use crate::cells::dated_cell;
use crate::columns::DateColumn;
use crate::fault::DateError;
use plan_table::Row;
use std::alloc::Global;

// Returns column `k`, if it is one of dates.
fn column_of(columns: &[Option<DateColumn>], k: usize) -> Option<DateColumn>
    ensures { result ≡ slice_index_or columns.now k None }
{
    match columns.get(k) {
        Some(column) => *column,
        None => None,
    }
}

// Returns what the cells of a row in a line become.
fn dated_cells(
    alloc: Global,
    calendar: &InstantCalendar,
    columns: &[Option<DateColumn>],
    line: u64,
    cells: &[Vec<u8>],
) -> Result<Vec<Vec<u8>>, DateError>
    ensures made { IfOk result (λ made. spec.AreDatedCells calendar.now columns.now
        (map (λ cell. cell.items) cells.now) (map (λ cell. cell.items) made.items)) }
    ensures refused { IfErr result (Fails (spec.RefusesCells calendar.now columns.now line
        (map (λ cell. cell.items) cells.now))) }
{
    let mut made = Vec::new(alloc);
    for (k, cell) in cells.iter().enumerate() {
        let new = dated_cell(alloc, calendar, line, column_of(columns, k), cell)?;
        made.push(new)?;
    }
    Ok(made)
}

// Returns what a row becomes.
fn dated_row(
    alloc: Global,
    calendar: &InstantCalendar,
    columns: &[Option<DateColumn>],
    row: &Row,
) -> Result<Row, DateError>
    ensures made { IfOk result (λ made.
        spec.IsDatedRow calendar.now columns.now (row_of row.now) (row_of made)) }
    ensures refused { IfErr result
        (Fails (spec.RefusesRow calendar.now columns.now (row_of row.now))) }
{
    let cells = dated_cells(alloc, calendar, columns, row.line, &row.cells)?;
    Ok(Row {
        line: row.line,
        cells,
    })
}

/// Returns what rows become.
pub fn dated_rows(
    alloc: Global,
    calendar: &InstantCalendar,
    columns: &[Option<DateColumn>],
    rows: &[Row],
) -> Result<Vec<Row>, DateError>
    ensures made { IfOk result (λ made. spec.AreDatedRows calendar.now columns.now
        (map row_of rows.now) (map row_of made.items)) }
    ensures refused { IfErr result
        (Fails (spec.RefusesRows calendar.now columns.now (map row_of rows.now))) }
{
    let mut made = Vec::new(alloc);
    for row in rows {
        let new = dated_row(alloc, calendar, columns, row)?;
        made.push(new)?;
    }
    Ok(made)
}
