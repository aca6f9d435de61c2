//! The text of rows: a CSV table with tabs, which plan_table reads as these rows.

ghost use Rattle.std.specs.Prelude.{◌≡◌, Ok, map, IfErr, IfOk, IsTrue};
ghost use Rattle.plan_table.specs.Csv.{row_of};
ghost use Rattle.plan_table.specs.Listing.{rows_read};
ghost use Rattle.plan_weeklist.specs.Lists.{IsWant};

use crate::fault::{WeekCode, WeekError};
use crate::numbers::word_fault;
use csv::{QuoteStyle, Terminator, Writer, WriterBuilder};
use plan_table::{ReadError, Row, read_rows_of};
use std::alloc::{AllocError, Global};

// A writer of one row: its cells in quotes, with tabs between them and a carriage return behind.
fn row_writer(alloc: Global) -> Writer<Vec<u8>> {
    let mut builder = WriterBuilder::new();
    builder.delimiter(b'\t');
    builder.quote_style(QuoteStyle::Always);
    builder.terminator(Terminator::Any(b'\r'));
    builder.from_writer(Vec::new(alloc))
}

// The text of a row. Writing to memory fails only if memory runs out.
fn row_text(alloc: Global, row: &Row) -> Result<Vec<u8>, AllocError> {
    let mut writer = row_writer(alloc);
    for cell in &row.cells {
        if writer.write_field(cell).is_err() {
            return Err(AllocError);
        }
    }
    if writer.end_record().is_err() {
        return Err(AllocError);
    }
    match writer.into_inner() {
        Ok(text) => Ok(text),
        Err(_) => Err(AllocError),
    }
}

// How many line feeds a text contains.
fn feeds_in(text: &[u8]) -> u64 {
    text.iter().filter(|&&byte| byte == b'\n').count() as u64
}

// Appends line feeds from one line to another.
fn push_feeds(alloc: Global, text: &mut Vec<u8>, from: u64, to: u64) -> Result<(), AllocError> {
    let feeds = vec![in alloc; b'\n'; to.saturating_sub(from) as usize]?;
    text.extend_from_slice(&feeds)
}

// The text of rows, each in its line.
fn text_of(alloc: Global, rows: &[Row]) -> Result<Vec<u8>, AllocError> {
    let mut text = Vec::new(alloc);
    let mut line: u64 = 1;
    for row in rows {
        push_feeds(alloc, &mut text, line, row.line)?;
        let next = row_text(alloc, row)?;
        text.extend_from_slice(&next)?;
        line = row.line.saturating_add(feeds_in(&next));
    }
    Ok(text)
}

// Whether two cells are the same.
fn same_cell(a: &[u8], b: &[u8]) -> bool
    ensures { IsTrue result → a.now ≡ b.now }
{
    a == b
}

// Whether two rows have the same cells.
fn same_cells(a: &[Vec<u8>], b: &[Vec<u8>]) -> bool
    ensures { IsTrue result → map (λ cell. cell.items) a.now ≡ map (λ cell. cell.items) b.now }
{
    let mut rest = b;
    for cell in a {
        match rest {
            [other, others @ ..] => {
                if !same_cell(cell, other) {
                    return false;
                }
                rest = others;
            }
            [] => return false,
        }
    }
    rest.is_empty()
}

// Whether two rows are the same, in the same line.
fn same_row(a: &Row, b: &Row) -> bool
    ensures { IsTrue result → row_of a.now ≡ row_of b.now }
{
    a.line == b.line && same_cells(&a.cells, &b.cells)
}

// Whether rows are the same.
fn same_rows(a: &[Row], b: &[Row]) -> bool
    ensures { IsTrue result → map row_of a.now ≡ map row_of b.now }
{
    let mut rest = b;
    for row in a {
        match rest {
            [other, others @ ..] => {
                if !same_row(row, other) {
                    return false;
                }
                rest = others;
            }
            [] => return false,
        }
    }
    rest.is_empty()
}

// Whether a text is read as these rows.
fn is_read_as(alloc: Global, text: &[u8], rows: &[Row]) -> Result<bool, AllocError>
    ensures { IfOk result (λ is. IsTrue is → rows_read text.now ≡ Ok (map row_of rows.now)) }
{
    match read_rows_of(alloc, text) {
        Ok(found) => Ok(same_rows(&found, rows)),
        Err(ReadError::Memory) => Err(AllocError),
        Err(ReadError::Fault(_)) => Ok(false),
    }
}

/// Writes rows as a text. The text is read again before it is returned.
pub fn write_rows(alloc: Global, rows: &[Row]) -> Result<Vec<u8>, WeekError>
    ensures text { IfOk result (λ text. rows_read text.items ≡ Ok (map row_of rows.now)) }
    ensures errors { IfErr result IsWant }
{
    let text = text_of(alloc, rows)?;
    let right = is_read_as(alloc, &text, rows)?;
    if !right {
        return Err(word_fault(alloc, WeekCode::TooLong, 0, b""));
    }
    Ok(text)
}
