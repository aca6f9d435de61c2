//! The text of rows: a CSV table with tabs, which plan_table reads as these rows.

ghost use Rattle.std.specs.Prelude.{◌≡◌, ◌++◌, map, replicate, IfErr, IfOk, IsFalse, IsTrue, OnOk};
ghost use Rattle.plan_table.specs.Csv.{row_of};
ghost use Rattle.plan_spreadsheet.specs.PlainLists.{IsUnwritten};
ghost use Rattle.plan_spreadsheet.specs.Rows.{Spells};
ghost use Rattle.plan_spreadsheet.specs.Spelling as spec;

use crate::fault::SpreadsheetFault;
use crate::rows::{filled, same_rows};
use plan_table::{ReadError, Row, read_rows_of};
use std::alloc::{AllocError, Global};

// Appends a byte of a cell between quotes.
fn push_byte(text: &mut Vec<u8>, byte: u8) -> Result<(), AllocError>
    ensures { OnOk result (text.new.items ≡ text.old.items ++ spec.quoted_byte byte) }
{
    if byte == b'"' {
        text.push(b'"')?;
    }
    text.push(byte)?;
    Ok(())
}

// Appends a cell between quotes.
#[tactic(auto, unfolding(crate::specs::Spelling::quoted_from))]
fn push_cell(text: &mut Vec<u8>, cell: &[u8]) -> Result<(), AllocError>
    ensures { OnOk result (text.new.items ≡ spec.with_cell text.old.items cell.now) }
{
    text.push(b'"')?;
    for &byte in cell {
        push_byte(text, byte)?;
    }
    text.push(b'"')?;
    Ok(())
}

// Appends a tab, unless the next cell is the first one of its row.
fn push_tab(text: &mut Vec<u8>, k: usize) -> Result<(), AllocError>
    ensures { OnOk result (text.new.items ≡ spec.with_tab k text.old.items) }
{
    if k == 0 {
        return Ok(());
    }
    text.push(b'\t')?;
    Ok(())
}

// Appends the cells of a row.
#[tactic(auto, unfolding(crate::specs::Spelling::cells_from))]
fn push_cells(text: &mut Vec<u8>, cells: &[Vec<u8>]) -> Result<(), AllocError>
    ensures { OnOk result (text.new.items ≡ spec.cells_from text.old.items 0
        (map (λ cell. cell.items) cells.now)) }
{
    for (k, cell) in cells.iter().enumerate() {
        push_tab(text, k)?;
        push_cell(text, cell)?;
    }
    Ok(())
}

// How many line feeds a cell contains.
fn feeds_in(cell: &[u8]) -> u64
    ensures { result ≡ spec.feeds_in cell.now }
{
    cell.iter().filter(|&&byte| byte == b'\n').count() as u64
}

// How many line feeds are between a row and the line of the next one.
fn gap(before: &Row, line: u64) -> u64
    ensures { result ≡ spec.gap (row_of before.now) line }
{
    let mut left = line.saturating_sub(before.line);
    for cell in &before.cells {
        left = left.saturating_sub(feeds_in(cell));
    }
    left
}

// Appends line feeds.
fn push_feeds(text: &mut Vec<u8>, count: u64) -> Result<(), AllocError>
    ensures { OnOk result (text.new.items ≡ text.old.items ++ replicate count 10) }
{
    for _feed in 0..count {
        text.push(b'\n')?;
    }
    Ok(())
}

// Appends a row, in its line.
fn push_row(text: &mut Vec<u8>, before: &Row, row: &Row) -> Result<(), AllocError>
    ensures { OnOk result (text.new.items ≡ spec.with_row text.old.items (row_of before.now)
        (row_of row.now)) }
{
    push_feeds(text, gap(before, row.line))?;
    push_cells(text, &row.cells)?;
    text.push(b'\r')?;
    Ok(())
}

// Appends rows, each in its line, behind another one.
#[tactic(auto, unfolding(crate::specs::Spelling::rows_from))]
fn push_rows<'a>(text: &mut Vec<u8>, first: &'a Row, rows: &'a [Row]) -> Result<(), AllocError>
    ensures { OnOk result (text.new.items ≡ spec.rows_from text.old.items (row_of first.now)
        (map row_of rows.now)) }
{
    let mut before = first;
    for row in rows {
        push_row(text, before, row)?;
        before = row;
    }
    Ok(())
}

// The text of rows, each in its line. It begins with a row without content, whose tab is the
// separator of the text: the header may have no tab in its first line.
fn text_of(alloc: Global, rows: &[Row]) -> Result<Vec<u8>, AllocError>
    ensures { IfOk result (λ text. text.items ≡ spec.spelling (map row_of rows.now)) }
{
    let first = Row {
        line: 1,
        cells: Vec::new(alloc),
    };
    let mut text = Vec::from_slice(alloc, b"\"\"\t\r")?;
    push_rows(&mut text, &first, rows)?;
    Ok(text)
}

/// Whether a text is read as these rows, apart from rows without content.
#[tactic(auto, using(crate::proofs::SpellingLemmas::unread))]
pub fn spells(alloc: Global, text: &[u8], rows: &[Row]) -> Result<bool, AllocError>
    ensures yes { IfOk result (λ is. IsTrue is → Spells text.now (map row_of rows.now)) }
    ensures no { IfOk result (λ is. IsFalse is → Spells text.now (map row_of rows.now) → ⊥) }
{
    match read_rows_of(alloc, text) {
        Ok(found) => {
            let found = filled(alloc, &found)?;
            Ok(same_rows(&found, rows))
        }
        Err(ReadError::Memory) => Err(AllocError),
        Err(ReadError::Fault(_)) => Ok(false),
    }
}

/// Writes rows as a text. The text is read again before it is returned. It is read as these rows
/// unless it is too long.
pub fn write_rows(alloc: Global, rows: &[Row]) -> Result<Vec<u8>, SpreadsheetFault>
    ensures text { IfOk result (λ text. Spells text.items (map row_of rows.now)) }
    ensures errors { IfErr result (IsUnwritten (map row_of rows.now)) }
{
    let text = text_of(alloc, rows)?;
    let right = spells(alloc, &text, rows)?;
    if !right {
        return Err(SpreadsheetFault::TooLong);
    }
    Ok(text)
}
