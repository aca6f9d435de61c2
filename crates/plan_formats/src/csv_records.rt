//! Tables as CSV.

ghost use Rattle.std.specs.Prelude.{◌≡◌, ◌++◌, ◌∷◌, [], codes, map, decimal, IfOk, OnOk};
ghost use Rattle.csv.specs.Records.{fields_of, partial_of};
ghost use Rattle.csv.specs.Writing.{default_writer, row_text};
ghost use Rattle.plan_formats.specs.Cells as cells;
ghost use Rattle.plan_formats.specs.Cells.{cell_of, field_of};
ghost use Rattle.plan_formats.specs.Columns.{column_of, has_field as with_field};
ghost use Rattle.plan_formats.specs.Tables.{cells_of, rows_of, table_of};
ghost use Rattle.plan_formats.specs.CsvText as spec;

use crate::cell::Cell;
use crate::column::{Column, Layout};
use crate::day_text::day_text;
use crate::table::Table;
use csv::{ByteRecord, Error, WriterBuilder};
use std::alloc::{AllocError, Global};

// Returns the text of a record.
fn record_text(alloc: Global, row: &ByteRecord) -> Result<Vec<u8>, Error>
    ensures { IfOk result (λ text. text.items ≡ row_text default_writer (fields_of row.now)) }
{
    let mut writer = WriterBuilder::new().from_writer(Vec::new(alloc));
    writer.write_byte_record(row)?;
    match writer.into_inner() {
        Ok(text) => Ok(text),
        Err(e) => Err(e.into_error()),
    }
}

// Appends a record. Writing to memory fails only if memory runs out.
fn push_record(alloc: Global, text: &mut Vec<u8>, row: &ByteRecord) -> Result<(), AllocError>
    ensures { OnOk result (text.new.items
        ≡ text.old.items ++ row_text default_writer (fields_of row.now)) }
{
    let Ok(bytes) = record_text(alloc, row) else {
        return Err(AllocError);
    };
    text.extend_from_slice(&bytes)
}

// Appends a number as a field.
fn push_number(alloc: Global, row: &mut ByteRecord, n: u64) -> Result<(), AllocError>
    requires { partial_of row.old ≡ [] }
    ensures fields { OnOk result (fields_of row.new ≡ fields_of row.old ++ decimal n ∷ []) }
    ensures whole { OnOk result (partial_of row.new ≡ []) }
{
    let text = format!(in alloc; "{n}")?;
    row.push_field(text.as_bytes())
}

// Appends a number below 0 as a field.
fn push_below(alloc: Global, row: &mut ByteRecord, n: u32) -> Result<(), AllocError>
    requires { partial_of row.old ≡ [] }
    ensures fields { OnOk result (fields_of row.new
        ≡ fields_of row.old ++ (codes "-" ++ decimal n) ∷ []) }
    ensures whole { OnOk result (partial_of row.new ≡ []) }
{
    let text = format!(in alloc; "-{n}")?;
    row.push_field(text.as_bytes())
}

// Appends a date as a field.
fn push_day(
    alloc: Global,
    row: &mut ByteRecord,
    year: i16,
    month: u8,
    day: u8,
) -> Result<(), AllocError>
    requires { partial_of row.old ≡ [] }
    ensures fields { OnOk result (fields_of row.new
        ≡ fields_of row.old ++ cells.day_text year month day ∷ []) }
    ensures whole { OnOk result (partial_of row.new ≡ []) }
{
    let text = day_text(alloc, year, month, day)?;
    row.push_field(&text)
}

// Appends a cell as a field.
fn push_cell(alloc: Global, row: &mut ByteRecord, cell: &Cell<'_>) -> Result<(), AllocError>
    requires { partial_of row.old ≡ [] }
    ensures fields { OnOk result (fields_of row.new
        ≡ fields_of row.old ++ field_of (cell_of cell.now) ∷ []) }
    ensures whole { OnOk result (partial_of row.new ≡ []) }
{
    match cell {
        Cell::Number(n) => push_number(alloc, row, *n),
        Cell::Above(n) => push_number(alloc, row, u64::from(*n)),
        Cell::Below(n) => push_below(alloc, row, *n),
        Cell::Day { year, month, day } => push_day(alloc, row, *year, *month, *day),
        Cell::Text(text) => row.push_field(text),
        Cell::Flag(true) => row.push_field(b"true"),
        Cell::Flag(false) => row.push_field(b"false"),
        Cell::Empty => row.push_field(b""),
    }
}

// Whether CSV has a column.
fn has_field(layout: Layout) -> bool
    ensures { result ≡ with_field layout }
{
    !matches!(layout, Layout::Member)
}

// Appends a cell as the field in its column, if CSV has the column.
fn push_field(
    alloc: Global,
    row: &mut ByteRecord,
    column: &Column,
    cell: &Cell<'_>,
) -> Result<(), AllocError>
    requires { partial_of row.old ≡ [] }
    ensures fields { OnOk result (fields_of row.new ≡ fields_of row.old
        ++ spec.field_in (column_of column.now) (field_of (cell_of cell.now))) }
    ensures whole { OnOk result (partial_of row.new ≡ []) }
{
    if has_field(column.layout) {
        return push_cell(alloc, row, cell);
    }
    Ok(())
}

// Returns the record of a row.
fn row_record(
    alloc: Global,
    columns: &[Column],
    cells: &[Cell<'_>],
) -> Result<ByteRecord, AllocError>
    ensures { IfOk result (λ row. fields_of row
        ≡ spec.row_record (map column_of columns.now) (cells_of cells.now)) }
{
    let mut row = ByteRecord::new(alloc);
    let mut left = columns;
    for cell in cells {
        let [column, rest @ ..] = left else {
            return Ok(row);
        };
        push_field(alloc, &mut row, column, cell)?;
        left = rest;
    }
    Ok(row)
}

// Appends the heading of a column, if CSV has the column.
fn push_heading(row: &mut ByteRecord, column: &Column) -> Result<(), AllocError>
    requires { partial_of row.old ≡ [] }
    ensures fields { OnOk result (fields_of row.new ≡ fields_of row.old
        ++ spec.field_in (column_of column.now) column.now.heading.now) }
    ensures whole { OnOk result (partial_of row.new ≡ []) }
{
    if has_field(column.layout) {
        return row.push_field(column.heading.as_bytes());
    }
    Ok(())
}

// Returns the record with the headings of columns.
fn heading_record(alloc: Global, columns: &[Column]) -> Result<ByteRecord, AllocError>
    ensures { IfOk result (λ row.
        fields_of row ≡ spec.heading_record (map column_of columns.now)) }
{
    let mut row = ByteRecord::new(alloc);
    for column in columns {
        push_heading(&mut row, column)?;
    }
    Ok(row)
}

// Appends the record of a row.
fn push_row(
    alloc: Global,
    text: &mut Vec<u8>,
    columns: &[Column],
    cells: &[Cell<'_>],
) -> Result<(), AllocError>
    ensures { OnOk result (text.new.items ≡ text.old.items ++ row_text default_writer
        (spec.row_record (map column_of columns.now) (cells_of cells.now))) }
{
    let row = row_record(alloc, columns, cells)?;
    push_record(alloc, text, &row)
}

// Appends the records of rows.
fn push_rows(
    alloc: Global,
    text: &mut Vec<u8>,
    columns: &[Column],
    rows: &[Vec<Cell<'_>>],
) -> Result<(), AllocError>
    ensures { OnOk result (text.new.items ≡ text.old.items ++ spec.csv_text_of
        (spec.records_of_rows (map column_of columns.now) (rows_of rows.now))) }
{
    for row in rows {
        push_row(alloc, text, columns, row)?;
    }
    Ok(())
}

// Returns the text of the records of a table.
fn records_text(alloc: Global, table: &Table<'_>) -> Result<Vec<u8>, AllocError>
    ensures { IfOk result (λ text.
        text.items ≡ spec.csv_text_of (spec.records_of (table_of table.now))) }
{
    let mut text = Vec::new(alloc);
    let headings = heading_record(alloc, &table.columns)?;
    push_record(alloc, &mut text, &headings)?;
    push_rows(alloc, &mut text, &table.columns, &table.rows)?;
    Ok(text)
}

/// Returns a table as CSV (RFC 4180, with LF): a record with the headings, then one for each row.
/// The lines above and below the rows and the columns for JSON alone are left out. A number is its
/// digits, a flag `true` or `false`, and an empty cell an empty field.
pub fn csv_text(alloc: Global, table: &Table<'_>) -> Result<Vec<u8>, AllocError>
    ensures text { IfOk result (λ text.
        text.items ≡ spec.csv_text_of (spec.records_of (table_of table.now))) }
    ensures reads { IfOk result (λ text. spec.HaveFields (spec.records_of (table_of table.now))
        → spec.ReadsAs text.items (spec.records_of (table_of table.now))) }
{
    records_text(alloc, table)
}
