//! The text of rows in the layout of their list (RFC 4180).

ghost use Rattle.std.specs.Prelude.{◌≡◌, ◌<◌, ◌++◌, ◌∷◌, length, map, replicate, IfOk, OnOk};
ghost use Rattle.std.specs.List.{position};
ghost use Rattle.plan_psplib.specs.Lines.{is_line_feed, raw_lines};
ghost use Rattle.plan_spreadsheet.specs.Spelling as spelling;
ghost use Rattle.plan_table.specs.Csv as csv;
ghost use Rattle.plan_table.specs.Csv.{row_of};
ghost use Rattle.plan_list_back.specs.Texts as spec;

use plan_psplib::trim;
use plan_table::Row;
use std::alloc::{AllocError, Global};

// ---- the separator

// Returns the separator of a header line.
fn delimiter_of(line: &[u8]) -> u8
    ensures { result ≡ csv.delimiter_of line.now }
{
    if line.contains(&b'\t') {
        b'\t'
    } else if line.contains(&b';') {
        b';'
    } else {
        b','
    }
}

// Returns where the first line ends.
fn first_line_end(text: &[u8]) -> Option<usize>
    ensures { result ≡ position is_line_feed text.now }
{
    text.iter().position(|&byte| byte == b'\n')
}

// Splits a nonempty text into its first line and the text behind it.
#[tactic(auto, using(plan_table::proofs::HeaderLineLemmas::first_line, plan_table::proofs::HeaderLineLemmas::only_line))]
fn cut_line(text: &[u8]) -> (&[u8], &[u8])
    requires { 0 < length text.now }
    ensures line { raw_lines text.now ≡ result.0.now ∷ raw_lines result.1.now }
    ensures shorter { length result.1.now < length text.now }
{
    match first_line_end(text) {
        Some(end) => (&text[..end], &text[end + 1..]),
        None => (text, &[]),
    }
}

// Returns the first line with content.
fn header_line(text: &[u8]) -> &[u8]
    ensures { result.now ≡ csv.header_line text.now }
{
    let mut rest = text;
    while !rest.is_empty() {
        let (line, others) = cut_line(rest);
        if !trim(line).is_empty() {
            return line;
        }
        rest = others;
    }
    b""
}

// Returns a text without a byte-order mark at its start.
fn without_mark(text: &[u8]) -> &[u8]
    ensures { result.now ≡ csv.without_mark text.now }
{
    if text.starts_with(b"\xef\xbb\xbf") {
        &text[3..]
    } else {
        text
    }
}

// Returns the separator of a list.
fn separator_of(text: &[u8]) -> u8
    ensures { result ≡ spec.separator_of text.now }
{
    delimiter_of(header_line(without_mark(text)))
}

// ---- cells

// Whether a cell with this byte is written between quotes.
fn needs_quotes(separator: u8, byte: u8) -> bool
    ensures { result ≡ spec.needs_quotes separator byte }
{
    byte == separator || byte == b'"' || byte == b'\r' || byte == b'\n'
}

// Whether a cell is written between quotes.
fn is_quoted(separator: u8, cell: &[u8]) -> bool
    ensures { result ≡ spec.is_quoted separator cell.now }
{
    for &byte in cell {
        if needs_quotes(separator, byte) {
            return true;
        }
    }
    false
}

// Appends a byte of a cell between quotes.
fn push_byte(text: &mut Vec<u8>, byte: u8) -> Result<(), AllocError>
    ensures { OnOk result (text.new.items ≡ text.old.items ++ spelling.quoted_byte byte) }
{
    if byte == b'"' {
        text.push(b'"')?;
    }
    text.push(byte)?;
    Ok(())
}

// Appends a cell between quotes.
#[tactic(auto, unfolding(plan_spreadsheet::specs::Spelling::quoted_from))]
fn push_quoted(text: &mut Vec<u8>, cell: &[u8]) -> Result<(), AllocError>
    ensures { OnOk result (text.new.items ≡ spelling.with_cell text.old.items cell.now) }
{
    text.push(b'"')?;
    for &byte in cell {
        push_byte(text, byte)?;
    }
    text.push(b'"')?;
    Ok(())
}

// Appends a cell.
fn push_cell(text: &mut Vec<u8>, separator: u8, cell: &[u8]) -> Result<(), AllocError>
    ensures { OnOk result (text.new.items
        ≡ spec.with_text separator text.old.items cell.now) }
{
    if is_quoted(separator, cell) {
        return push_quoted(text, cell);
    }
    text.extend_from_slice(cell)?;
    Ok(())
}

// Appends a separator, unless the next cell is the first one of its row.
fn push_separator(text: &mut Vec<u8>, separator: u8, k: usize) -> Result<(), AllocError>
    ensures { OnOk result (text.new.items
        ≡ spec.with_separator separator k text.old.items) }
{
    if k == 0 {
        return Ok(());
    }
    text.push(separator)?;
    Ok(())
}

// Appends the cells of a row.
#[tactic(auto, unfolding(crate::specs::Texts::cells_from))]
fn push_cells(text: &mut Vec<u8>, separator: u8, cells: &[Vec<u8>]) -> Result<(), AllocError>
    ensures { OnOk result (text.new.items ≡ spec.cells_from separator text.old.items 0
        (map (λ cell. cell.items) cells.now)) }
{
    for (k, cell) in cells.iter().enumerate() {
        push_separator(text, separator, k)?;
        push_cell(text, separator, cell)?;
    }
    Ok(())
}

// ---- rows

// Returns how many line feeds a cell contains.
fn feeds_in(cell: &[u8]) -> u64
    ensures { result ≡ spelling.feeds_in cell.now }
{
    cell.iter().filter(|&&byte| byte == b'\n').count() as u64
}

// Returns how many line feeds are between a row and the line of the next one.
fn gap(before: &Row, line: u64) -> u64
    ensures { result ≡ spelling.gap (row_of before.now) line }
{
    let mut left = line.saturating_sub(before.line);
    for cell in &before.cells {
        left = left.saturating_sub(feeds_in(cell));
    }
    left
}

// Appends line feeds.
fn push_feeds(text: &mut Vec<u8>, count: u64) -> Result<(), AllocError>
    ensures { OnOk result (text.new.items ≡ text.old.items ++ replicate count 10) }
{
    for _feed in 0..count {
        text.push(b'\n')?;
    }
    Ok(())
}

// Appends a row, in its line.
fn push_row(text: &mut Vec<u8>, separator: u8, before: &Row, row: &Row) -> Result<(), AllocError>
    ensures { OnOk result (text.new.items ≡ spec.with_row separator text.old.items
        (row_of before.now) (row_of row.now)) }
{
    push_feeds(text, gap(before, row.line))?;
    push_cells(text, separator, &row.cells)?;
    text.push(b'\r')?;
    Ok(())
}

// Appends rows, each in its line, behind another one.
#[tactic(auto, unfolding(crate::specs::Texts::rows_from))]
fn push_lines<'a>(
    text: &mut Vec<u8>,
    separator: u8,
    first: &'a Row,
    rows: &'a [Row],
) -> Result<(), AllocError>
    ensures { OnOk result (text.new.items ≡ spec.rows_from separator text.old.items
        (row_of first.now) (map row_of rows.now)) }
{
    let mut before = first;
    for row in rows {
        push_row(text, separator, before, row)?;
        before = row;
    }
    Ok(())
}

// Whether bytes begin with a byte-order mark.
fn is_marked(bytes: &[u8]) -> bool
    ensures { result ≡ spec.is_marked bytes.now }
{
    bytes.starts_with(b"\xef\xbb\xbf")
        || bytes.starts_with(b"\xff\xfe")
        || bytes.starts_with(b"\xfe\xff")
}

// Returns the mark of the text for a file with these bytes.
fn mark_of(bytes: &[u8]) -> &'static [u8]
    ensures { result.now ≡ spec.mark_of bytes.now }
{
    if is_marked(bytes) {
        b"\xef\xbb\xbf"
    } else {
        b""
    }
}

/// Returns the text of rows for a file with these bytes, which is `text` in UTF-8: with its
/// separator and its byte-order mark, and with each row in its line.
pub fn text_with(
    alloc: Global,
    bytes: &[u8],
    text: &[u8],
    rows: &[Row],
) -> Result<Vec<u8>, AllocError>
    ensures { IfOk result (λ made. made.items
        ≡ spec.text_with bytes.now text.now (map row_of rows.now)) }
{
    let first = Row {
        line: 1,
        cells: Vec::new(alloc),
    };
    let mut made = Vec::from_slice(alloc, mark_of(bytes))?;
    push_lines(&mut made, separator_of(text), &first, rows)?;
    made.push(b'\n')?;
    Ok(made)
}
