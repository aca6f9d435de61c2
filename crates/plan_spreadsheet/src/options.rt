//! Options of a list: new words for headers, columns to leave out, and the unit of durations.

ghost use Rattle.std.specs.Prelude.{◌≡◌, [], ◌∷◌, map, IfOk};
ghost use Rattle.std.specs.List.{list_any};
ghost use Rattle.plan_table.specs.Csv.{row_of};
ghost use Rattle.plan_table.specs.Overrides.{override_of};
ghost use Rattle.plan_spreadsheet.specs.Options as spec;

use crate::rows::{copy_rows, filled, with_first};
use crate::scaling::scaled;
use crate::units::decimal;
use plan_psplib::trim;
use plan_table::{Override, Row, same_name};
use std::alloc::{AllocError, Global};

/// A header of the list, and the word that stands in its place, such as `duration`. The case of
/// ASCII letters and blanks around the header don't matter.
#[derive(Clone, Copy, Debug, Drop)]
pub struct Rename<'a> {
    pub header: &'a [u8],
    pub word: &'a [u8],
}

/// How a list is read. With empty lists and `None` it is read as it is.
#[derive(Clone, Copy, Debug, Drop)]
pub struct Options<'a> {
    /// New words for headers.
    pub renames: &'a [Rename<'a>],
    /// The headers of the columns that are left out.
    pub ignored: &'a [&'a [u8]],
    /// The unit of durations and lags, in thousandths of a day (`unit_of`); `None` or 0 for days.
    pub unit: Option<u64>,
}

/// Returns the unit that a text gives, in thousandths of a day: a decimal number above 0 with at
/// most three digits behind its point or comma.
pub fn unit_of(text: &[u8]) -> Option<u64>
    ensures { result ≡ spec.unit_in text.now }
{
    match decimal(3, text) {
        Some(unit) if unit != 0 => Some(unit),
        _ => None,
    }
}

/// Whether nothing is given.
pub fn are_none(options: &Options<'_>) -> bool
    ensures { result ≡ spec.are_none (spec.options_of options.now) }
{
    options.renames.is_empty() && options.ignored.is_empty() && options.unit.is_none()
}

// Whether a cell of the header is this header.
fn is_header(name: &[u8], cell: &[u8]) -> bool
    ensures { result ≡ spec.is_header name.now cell.now }
{
    same_name(name, trim(cell))
}

// The word for a header.
#[tactic(auto, unfolding(crate::specs::Options::renamed))]
fn renamed<'a>(renames: &[Rename<'a>], cell: &'a [u8]) -> &'a [u8]
    ensures { result.now ≡ spec.renamed (map spec.rename_of renames.now) cell.now }
{
    for rename in renames {
        if is_header(rename.header, cell) {
            return rename.word;
        }
    }
    cell
}

// Whether one of some headers is that of a cell.
fn is_left_out(ignored: &[&[u8]], cell: &[u8]) -> bool
    ensures { result ≡ spec.is_left_out (map (λ name. name.now) ignored.now) cell.now }
{
    for name in ignored {
        if is_header(name, cell) {
            return true;
        }
    }
    false
}

// A header as it is read.
fn header_cell(alloc: Global, options: &Options<'_>, cell: &[u8]) -> Result<Vec<u8>, AllocError>
    ensures { IfOk result (λ v. v.items
        ≡ spec.header_cell (spec.options_of options.now) cell.now) }
{
    if is_left_out(options.ignored, cell) {
        return Ok(Vec::new(alloc));
    }
    Vec::from_slice(alloc, renamed(options.renames, cell))
}

// The row of the header as it is read.
fn header_row(alloc: Global, options: &Options<'_>, row: &Row) -> Result<Row, AllocError>
    ensures { IfOk result (λ r. row_of r
        ≡ spec.header_row (spec.options_of options.now) (row_of row.now)) }
{
    let mut cells = Vec::new(alloc);
    for cell in &row.cells {
        let copy = header_cell(alloc, options, cell)?;
        cells.push(copy)?;
    }
    Ok(Row {
        line: row.line,
        cells,
    })
}

// Whether no cell of the header is this header.
fn is_missing(cells: &[Vec<u8>], name: &[u8]) -> bool
    ensures { result ≡ spec.is_missing (map (λ cell. cell.items) cells.now) name.now }
{
    for cell in cells {
        if is_header(name, cell) {
            return false;
        }
    }
    true
}

/// Returns the number of the first header to rename that no column has.
#[tactic(auto, unfolding(crate::specs::Options::missing_rename))]
pub fn missing_rename(rows: &[Row], renames: &[Rename<'_>]) -> Option<usize>
    ensures { result ≡ spec.missing_rename (spec.header_cells (map row_of rows.now)) 0
        (map spec.rename_of renames.now) }
{
    let cells = header_cells(rows);
    for (k, rename) in renames.iter().enumerate() {
        if is_missing(cells, rename.header) {
            return Some(k);
        }
    }
    None
}

/// Returns the number of the first header to leave out that no column has.
#[tactic(auto, unfolding(crate::specs::Options::missing_ignored))]
pub fn missing_ignored(rows: &[Row], ignored: &[&[u8]]) -> Option<usize>
    ensures { result ≡ spec.missing_ignored (spec.header_cells (map row_of rows.now)) 0
        (map (λ name. name.now) ignored.now) }
{
    let cells = header_cells(rows);
    for (k, name) in ignored.iter().enumerate() {
        if is_missing(cells, name) {
            return Some(k);
        }
    }
    None
}

// The cells of the header.
fn header_cells(rows: &[Row]) -> &[Vec<u8>]
    ensures { map (λ cell. cell.items) result.now ≡ spec.header_cells (map row_of rows.now) }
{
    match rows {
        [first, ..] => &first.cells,
        [] => &[],
    }
}

// The rows behind a header in a unit.
fn in_unit(
    alloc: Global,
    unit: Option<u64>,
    overrides: &[Override<'_>],
    first: &Row,
    rows: &[Row],
) -> Result<Vec<Row>, AllocError>
    ensures { IfOk result (λ v. map row_of v.items ≡ spec.in_unit unit
        (map override_of overrides.now) (row_of first.now) (map row_of rows.now)) }
{
    match unit {
        Some(unit) if unit != 0 => scaled(alloc, unit, overrides, first, rows),
        _ => copy_rows(alloc, rows),
    }
}

/// Returns the rows with content as the options say. The first of the given rows is the header.
pub fn prepared(
    alloc: Global,
    options: &Options<'_>,
    overrides: &[Override<'_>],
    rows: &[Row],
) -> Result<Vec<Row>, AllocError>
    ensures { IfOk result (λ v. map row_of v.items ≡ spec.prepared (spec.options_of options.now)
        (map override_of overrides.now) (map row_of rows.now)) }
{
    match rows {
        [first, rest @ ..] => {
            let header = header_row(alloc, options, first)?;
            let behind = in_unit(alloc, options.unit, overrides, &header, rest)?;
            let all = with_first(alloc, &header, behind)?;
            filled(alloc, &all)
        }
        [] => Ok(Vec::new(alloc)),
    }
}
