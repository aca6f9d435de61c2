//! Sheets of starts: rows of cells, from a printed table or its CSV.

ghost use Rattle.std.specs.Prelude.{◌≡◌, ◌≤◌, [], All, IfOk, map, drop, length};
ghost use Rattle.plan_psplib.specs.Numbers.{number as spells};
ghost use Rattle.plan_psplib.specs.Tokens.{Gives, Reads};
ghost use Rattle.plan_report.specs.Sheet as spec;

use crate::start_numbers::LATEST_START;
use plan_psplib::{Fault, FileCode, ReadError, number};
use std::alloc::Global;

/// Whether a sheet may lack the row of an entry, and the start of the entry without a row.
#[derive(Clone, Copy, Debug, PartialEq, Eq)]
pub enum Absence {
    /// The sheet has the row.
    Never,
    /// Without a row the entry starts at 0.
    AtZero,
    /// Without a row the entry starts at the end of the entry before it.
    AtEnd,
}

/// The numbers of a row before its start. The last of them is the duration.
#[derive(Drop)]
pub struct Entry {
    pub keys: Vec<u64>,
    pub duration: u64,
    pub absence: Absence,
}

/// An activity by its id: its row without the id, up to the start.
#[derive(Drop)]
pub struct IdEntry<'a> {
    pub id: &'a [u8],
    pub entry: Entry,
}

/// The names of the columns, and an entry for each row. If activities have ids, their entries by
/// these, and for each wait behind them the place of the one that the wait is behind.
#[derive(Drop)]
pub struct Sheet<'a> {
    pub columns: &'a [&'a str],
    pub entries: Vec<Entry>,
    pub by_id: Vec<IdEntry<'a>>,
    pub waits: Vec<usize>,
}

/// A row: the number of its line, and its cells.
#[derive(Drop)]
pub struct Row<'a> {
    pub line: u64,
    pub cells: Vec<&'a [u8]>,
}

// Returns the number in a cell.
fn cell_number(line: u64, cell: &[u8]) -> Result<u64, Fault>
    ensures { Reads (λ n. n) result (spec.as_number line (spells cell.now)) }
{
    match number(cell) {
        Some(n) => Ok(n),
        None => Err(Fault::new(FileCode::BadNumber, line)),
    }
}

// Checks that a cell is the number `wanted`.
#[tactic(auto, unfolding(crate::specs::Sheet::cell_is))]
fn check_cell(line: u64, wanted: u64, cell: &[u8]) -> Result<(), Fault>
    ensures { Reads (λ _. tt) result (spec.cell_is line wanted cell.now) }
{
    let n = cell_number(line, cell)?;
    if n != wanted {
        return Err(Fault::new(FileCode::JobOrder, line));
    }
    Ok(())
}

/// Returns the cells behind the next ones, which must be the numbers `wanted`.
#[tactic(auto, unfolding(crate::specs::Sheet::expect_all))]
pub(crate) fn expect_all<'a, 'b>(
    line: u64,
    wanted: &[u64],
    cells: &'a [&'b [u8]],
) -> Result<&'a [&'b [u8]], Fault>
    ensures { Reads (λ rest. spec.cells_of rest.now) result
        (spec.expect_all line wanted.now (spec.cells_of cells.now)) }
{
    let mut rest = cells;
    for &n in wanted {
        let [cell, others @ ..] = rest else {
            return Err(Fault::new(FileCode::Count, line));
        };
        check_cell(line, n, cell)?;
        rest = others;
    }
    Ok(rest)
}

// Returns the start in the next cell, and the cells behind it.
#[tactic(auto, unfolding(crate::specs::Sheet::start_at))]
fn start_at<'a, 'b>(line: u64, cells: &'a [&'b [u8]]) -> Result<(u64, &'a [&'b [u8]]), Fault>
    ensures start { Reads (λ next. (next.0, spec.cells_of next.1.now)) result
        (spec.start_at line (spec.cells_of cells.now)) }
    ensures early { IfOk result (λ next. next.0 ≤ LATEST_START) }
{
    let [cell, rest @ ..] = cells else {
        return Err(Fault::new(FileCode::Count, line));
    };
    let start = cell_number(line, cell)?;
    if start > LATEST_START {
        return Err(Fault::new(FileCode::Limit, line));
    }
    Ok((start, rest))
}

/// Returns the start in the cells of a line.
#[tactic(auto, unfolding(crate::specs::Sheet::start_in))]
pub(crate) fn start_in_cells(entry: &Entry, line: u64, cells: &[&[u8]]) -> Result<u64, Fault>
    requires { entry.now.duration ≤ 10000 }
    ensures start { Reads (λ n. n) result (spec.start_in (spec.entry_of entry.now)
        (record { line = line; cells = spec.cells_of cells.now })) }
    ensures early { IfOk result (λ start. start ≤ LATEST_START) }
{
    let rest = expect_all(line, &entry.keys, cells)?;
    let (start, rest) = start_at(line, rest)?;
    expect_all(line, &[start + entry.duration], rest)?;
    Ok(start)
}

// Returns the start in a row.
fn start_in(entry: &Entry, row: &Row<'_>) -> Result<u64, Fault>
    requires { entry.now.duration ≤ 10000 }
    ensures start { Reads (λ n. n) result
        (spec.start_in (spec.entry_of entry.now) (spec.row_of row.now)) }
    ensures early { IfOk result (λ start. start ≤ LATEST_START) }
{
    start_in_cells(entry, row.line, &row.cells)
}

// Tests whether the next row is that of an entry.
fn is_next(entry: &Entry, rows: &[Row<'_>]) -> bool
    ensures { result ≡ spec.is_next (spec.entry_of entry.now) (map spec.row_of rows.now) }
{
    match rows {
        [] => false,
        [row, ..] => expect_all(row.line, &entry.keys, &row.cells).is_ok(),
    }
}

// Returns the start of an entry without a row, behind an entry with this end, if the row may be
// missing.
fn absent_start(absence: Absence, end: u64) -> Option<u64>
    ensures { result ≡ spec.absent_start absence end }
{
    match absence {
        Absence::Never => None,
        Absence::AtZero => Some(0),
        Absence::AtEnd => Some(end),
    }
}

// Returns the start of an entry without a row. `last` is the line before it.
fn early_start(last: u64, start: u64) -> Result<u64, Fault>
    ensures start { Reads (λ n. n) result (spec.early_start last start) }
    ensures early { IfOk result (λ start. start ≤ LATEST_START) }
{
    if start > LATEST_START {
        return Err(Fault::new(FileCode::Limit, last));
    }
    Ok(start)
}

// Returns the start in the next row, its line, and how many rows were read, which is 1.
#[tactic(auto, unfolding(crate::specs::Sheet::row_start))]
fn row_start(entry: &Entry, last: u64, rows: &[Row<'_>]) -> Result<(u64, u64, usize), Fault>
    requires { entry.now.duration ≤ 10000 }
    ensures read { Reads (λ read. (read.0, read.1, drop read.2 (map spec.row_of rows.now))) result
        (spec.row_start last (spec.entry_of entry.now) (map spec.row_of rows.now)) }
    ensures early { IfOk result (λ read. read.0 ≤ LATEST_START) }
    ensures within { IfOk result (λ read. read.2 ≤ length rows.now) }
{
    let [row, ..] = rows else {
        return Err(Fault::new(FileCode::Count, last));
    };
    let start = start_in(entry, row)?;
    Ok((start, row.line, 1))
}

// Returns the start of the next entry, the line of its row, and how many rows were read. Without a
// row the line is `last`, the one before it. The entry before it has this end.
#[tactic(auto, unfolding(crate::specs::Sheet::next_start))]
fn next_start(
    entry: &Entry,
    last: u64,
    end: u64,
    rows: &[Row<'_>],
) -> Result<(u64, u64, usize), Fault>
    requires { entry.now.duration ≤ 10000 }
    ensures read { Reads (λ read. (read.0, read.1, drop read.2 (map spec.row_of rows.now))) result
        (spec.next_start last end (spec.entry_of entry.now) (map spec.row_of rows.now)) }
    ensures early { IfOk result (λ read. read.0 ≤ LATEST_START) }
    ensures within { IfOk result (λ read. read.2 ≤ length rows.now) }
{
    let Some(start) = absent_start(entry.absence, end) else {
        return row_start(entry, last, rows);
    };
    if is_next(entry, rows) {
        return row_start(entry, last, rows);
    }
    Ok((early_start(last, start)?, last, 0))
}

// Returns the starts in the next rows, and the rows behind them. `last` is the line before them.
#[tactic(auto, unfolding(crate::specs::Sheet::starts_after))]
fn starts_after<'a, 'b>(
    alloc: Global,
    entries: &[Entry],
    last: u64,
    rows: &'a [Row<'b>],
) -> Result<(Vec<u64>, &'a [Row<'b>]), ReadError>
    requires { All (λ entry. entry.duration ≤ 10000) entries.now }
    ensures { Gives (λ read. (read.0.items, map spec.row_of read.1.now)) result
        (spec.starts_after [] last 0 (map spec.entry_of entries.now) (map spec.row_of rows.now)) }
{
    let mut starts = Vec::new(alloc);
    let mut line = last;
    let mut end = 0;
    let mut at = 0;
    for entry in entries {
        let (start, row_line, read) = next_start(entry, line, end, &rows[at..])?;
        starts.push(start)?;
        line = row_line;
        end = start + entry.duration;
        at += read;
    }
    Ok((starts, &rows[at..]))
}

/// Tests whether the first cells are these names.
#[tactic(auto, unfolding(crate::specs::Sheet::has_columns))]
pub(crate) fn has_columns(columns: &[&str], cells: &[&[u8]]) -> bool
    ensures { result ≡
        spec.has_columns (map (λ name. name.now) columns.now) (spec.cells_of cells.now) }
{
    let mut rest = cells;
    for name in columns {
        let [cell, others @ ..] = rest else {
            return false;
        };
        if *cell != name.as_bytes() {
            return false;
        }
        rest = others;
    }
    true
}

/// Returns the starts in a sheet, and the rows behind it.
#[tactic(auto, unfolding(crate::specs::Sheet::sheet_at))]
pub(crate) fn read_sheet<'a, 'b>(
    alloc: Global,
    sheet: &Sheet<'_>,
    rows: &'a [Row<'b>],
) -> Result<(Vec<u64>, &'a [Row<'b>]), ReadError>
    requires { All (λ entry. entry.duration ≤ 10000) sheet.now.entries.items }
    ensures { Gives (λ read. (read.0.items, map spec.row_of read.1.now)) result
        (spec.sheet_at (spec.sheet_of sheet.now) (map spec.row_of rows.now)) }
{
    let [head, rest @ ..] = rows else {
        return Err(ReadError::Fault(Fault::new(FileCode::MissingHead, 0)));
    };
    if !has_columns(sheet.columns, &head.cells) {
        return Err(ReadError::Fault(Fault::new(FileCode::MissingHead, head.line)));
    }
    starts_after(alloc, &sheet.entries, head.line, rest)
}

/// Tests whether cells begin with `makespan`.
pub(crate) fn begins_with_makespan(cells: &[&[u8]]) -> bool
    ensures { result ≡ spec.begins_with_makespan (spec.cells_of cells.now) }
{
    match cells {
        [cell, ..] => *cell == b"makespan".as_slice(),
        [] => false,
    }
}

/// Checks that no row is left.
pub(crate) fn check_end(rows: &[Row<'_>]) -> Result<(), Fault>
    ensures { Reads (λ _. tt) result (spec.nothing_left (map spec.row_of rows.now)) }
{
    match rows {
        [] => Ok(()),
        [row, ..] => Err(Fault::new(FileCode::Count, row.line)),
    }
}
