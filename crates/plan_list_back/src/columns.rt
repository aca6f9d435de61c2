//! Columns of times behind those of a list, or in their place.

ghost use Rattle.std.specs.Prelude.{◌≡◌, ◌≤◌, ◌<◌, ◌++◌, [], length, map, replicate, IfOk, OnOk};
ghost use Rattle.plan_table.specs.Csv.{row_of};
ghost use Rattle.plan_list_back.specs.ListBack as spec;

use crate::times::{Field, Times, text_for, word_of};
use plan_psplib::trim;
use plan_table::{Row, same_name};
use std::alloc::{AllocError, Global};

/// Returns where the first column with a header is.
#[tactic(auto, unfolding(crate::specs::ListBack::place_from))]
pub fn place_in(word: &[u8], cells: &[Vec<u8>]) -> Option<usize>
    ensures { result ≡ spec.place_in word.now (map (λ cell. cell.items) cells.now) }
{
    for (k, cell) in cells.iter().enumerate() {
        if same_name(word, trim(cell)) {
            return Some(k);
        }
    }
    None
}

// Adds copies of cells to others.
fn push_cells(alloc: Global, all: &mut Vec<Vec<u8>>, cells: &[Vec<u8>]) -> Result<(), AllocError>
    ensures { OnOk result (map (λ cell. cell.items) all.new.items
        ≡ map (λ cell. cell.items) all.old.items ++ map (λ cell. cell.items) cells.now) }
{
    for cell in cells {
        let copy = Vec::from_slice(alloc, cell)?;
        all.push(copy)?;
    }
    Ok(())
}

// Adds empty cells to others.
fn push_empty(alloc: Global, all: &mut Vec<Vec<u8>>, count: usize) -> Result<(), AllocError>
    ensures { OnOk result (map (λ cell. cell.items) all.new.items
        ≡ map (λ cell. cell.items) all.old.items ++ replicate count []) }
{
    for _done in 0..count {
        all.push(Vec::new(alloc))?;
    }
    Ok(())
}

// Cells with a text in the place of another one.
fn put_within(
    alloc: Global,
    k: usize,
    text: Vec<u8>,
    cells: &[Vec<u8>],
) -> Result<Vec<Vec<u8>>, AllocError>
    requires { k < length cells.now }
    ensures { IfOk result (λ v. map (λ cell. cell.items) v.items
        ≡ spec.put k text.items (map (λ cell. cell.items) cells.now)) }
{
    let mut all = Vec::new(alloc);
    push_cells(alloc, &mut all, &cells[..k])?;
    all.push(text)?;
    push_cells(alloc, &mut all, &cells[k + 1..])?;
    Ok(all)
}

// Cells with a text behind them, in column `k`.
#[tactic(auto, using(crate::proofs::ListBackLemmas::put_behind))]
fn put_behind(
    alloc: Global,
    k: usize,
    text: Vec<u8>,
    cells: &[Vec<u8>],
) -> Result<Vec<Vec<u8>>, AllocError>
    requires { length cells.now ≤ k }
    ensures { IfOk result (λ v. map (λ cell. cell.items) v.items
        ≡ spec.put k text.items (map (λ cell. cell.items) cells.now)) }
{
    let mut all = Vec::new(alloc);
    push_cells(alloc, &mut all, cells)?;
    push_empty(alloc, &mut all, k - cells.len())?;
    all.push(text)?;
    Ok(all)
}

/// Returns cells with a text in column `k`.
pub fn put(
    alloc: Global,
    k: usize,
    text: &[u8],
    cells: &[Vec<u8>],
) -> Result<Vec<Vec<u8>>, AllocError>
    ensures { IfOk result (λ v. map (λ cell. cell.items) v.items
        ≡ spec.put k text.now (map (λ cell. cell.items) cells.now)) }
{
    let text = Vec::from_slice(alloc, text)?;
    if k < cells.len() {
        put_within(alloc, k, text, cells)
    } else {
        put_behind(alloc, k, text, cells)
    }
}

/// Returns a header with a word behind its cells, unless it has it already.
pub fn header_with(alloc: Global, word: &[u8], row: &Row) -> Result<Row, AllocError>
    ensures { IfOk result (λ r. row_of r ≡ spec.header_with word.now (row_of row.now)) }
{
    let mut cells = Vec::new(alloc);
    push_cells(alloc, &mut cells, &row.cells)?;
    if place_in(word, &row.cells).is_none() {
        let text = Vec::from_slice(alloc, word)?;
        cells.push(text)?;
    }
    Ok(Row {
        line: row.line,
        cells,
    })
}

// Returns the place of the column of a field under a header.
fn place_of(field: Field, first: &Row) -> usize
    ensures { result ≡ spec.place_of field (row_of first.now) }
{
    match place_in(word_of(field), &first.cells) {
        Some(k) => k,
        None => first.cells.len(),
    }
}

// A row with its text in column `k`.
fn row_with(
    alloc: Global,
    field: Field,
    times: &[Times<'_>],
    k: usize,
    row: &Row,
) -> Result<Row, AllocError>
    ensures { IfOk result (λ r. row_of r
        ≡ spec.row_with field (map spec.times_of times.now) k (row_of row.now)) }
{
    let cells = put(alloc, k, text_for(field, times, row), &row.cells)?;
    Ok(Row {
        line: row.line,
        cells,
    })
}

// Adds rows with their texts in column `k`.
fn push_rows(
    alloc: Global,
    field: Field,
    times: &[Times<'_>],
    k: usize,
    all: &mut Vec<Row>,
    rows: &[Row],
) -> Result<(), AllocError>
    ensures { OnOk result (map row_of all.new.items ≡ map row_of all.old.items
        ++ map (spec.row_with field (map spec.times_of times.now) k) (map row_of rows.now)) }
{
    for row in rows {
        let new = row_with(alloc, field, times, k, row)?;
        all.push(new)?;
    }
    Ok(())
}

// Rows with a column of times. The first row is the header.
fn with_column(
    alloc: Global,
    field: Field,
    times: &[Times<'_>],
    rows: &[Row],
) -> Result<Vec<Row>, AllocError>
    ensures { IfOk result (λ v. map row_of v.items
        ≡ spec.with_column field (map spec.times_of times.now) (map row_of rows.now)) }
{
    let mut all = Vec::new(alloc);
    if let [first, rest @ ..] = rows {
        let header = header_with(alloc, word_of(field), first)?;
        all.push(header)?;
        push_rows(alloc, field, times, place_of(field, first), &mut all, rest)?;
    }
    Ok(all)
}

/// Returns rows with the columns of times. The first row is the header.
pub fn with_times(alloc: Global, times: &[Times<'_>], rows: &[Row]) -> Result<Vec<Row>, AllocError>
    ensures { IfOk result (λ v. map row_of v.items
        ≡ spec.with_times (map spec.times_of times.now) (map row_of rows.now)) }
{
    let started = with_column(alloc, Field::Start, times, rows)?;
    let finished = with_column(alloc, Field::Finish, times, &started)?;
    with_column(alloc, Field::Slack, times, &finished)
}
