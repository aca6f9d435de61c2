//! Tables with ids: rows in any order, each with the id of its activity in the first cell.

ghost use Rattle.std.specs.Prelude.{◌≡◌, ◌≤◌, ◌++◌, ◌∷◌, [], All, IfOk, OnOk, drop, map, length};
ghost use Rattle.std.specs.List.{flat_map};
ghost use Rattle.plan_psplib.specs.Tokens.{Gives, Reads};
ghost use Rattle.plan_report.specs.IdRows as spec;
ghost use Rattle.plan_report.specs.Sheet as sheets;

use crate::sheet::{
    IdEntry, Row, Sheet, begins_with_makespan, has_columns, read_sheet, start_in_cells,
};
use crate::start_numbers::LATEST_START;
use crate::starts::Form;
use plan_psplib::{Fault, FileCode, ReadError};
use std::alloc::{AllocError, Global};

/// The names of the columns of a table with ids.
pub(crate) const ID_COLUMNS: &[&str] = &["id", "d", "start", "end"];

// Appends an id, each quote in it twice.
fn push_doubled(text: &mut Vec<u8>, id: &[u8]) -> Result<(), AllocError>
    ensures { OnOk result (text.new.items ≡ text.old.items ++ flat_map spec.doubled id.now) }
{
    for &byte in id {
        if byte == b'"' {
            text.push(byte)?;
        }
        text.push(byte)?;
    }
    Ok(())
}

// Returns an id in quotes.
fn quoted(alloc: Global, id: &[u8]) -> Result<Vec<u8>, AllocError>
    ensures { IfOk result (λ text. text.items ≡ spec.quoted id.now) }
{
    let mut text = Vec::new(alloc);
    text.push(b'"')?;
    push_doubled(&mut text, id)?;
    text.push(b'"')?;
    Ok(text)
}

// Tests whether a cell of CSV is an id.
fn is_field(alloc: Global, id: &[u8], cell: &[u8]) -> Result<bool, AllocError>
    ensures { IfOk result (λ is. is ≡ spec.is_field id.now cell.now) }
{
    if cell.starts_with(b"\"") {
        Ok(cell == quoted(alloc, id)?.as_slice())
    } else {
        Ok(cell == id)
    }
}

// Tests whether a cell is an id.
fn is_id(alloc: Global, form: Form, id: &[u8], cell: &[u8]) -> Result<bool, AllocError>
    ensures { IfOk result (λ is. is ≡ spec.is_id form id.now cell.now) }
{
    match form {
        Form::Csv => is_field(alloc, id, cell),
        Form::Numbers | Form::Table | Form::Json => Ok(cell == id),
    }
}

// Tests whether the first cell is an id.
fn has_id(alloc: Global, form: Form, id: &[u8], cells: &[&[u8]]) -> Result<bool, AllocError>
    ensures { IfOk result (λ has. has ≡ spec.has_id form id.now (sheets.cells_of cells.now)) }
{
    match cells {
        [cell, ..] => is_id(alloc, form, id, cell),
        [] => Ok(false),
    }
}

// Returns the rows from the first one with an id on.
fn from_first<'a, 'b>(
    alloc: Global,
    form: Form,
    id: &[u8],
    rows: &'a [Row<'b>],
) -> Result<&'a [Row<'b>], AllocError>
    ensures { IfOk result (λ rest. spec.IsFromFirst form id.now
        (map sheets.row_of rows.now) (map sheets.row_of rest.now)) }
{
    for i in 0..rows.len() {
        if has_id(alloc, form, id, &rows[i].cells)? {
            return Ok(&rows[i..]);
        }
    }
    Ok(&rows[rows.len()..])
}

// Counts the activities with the id of a row.
fn count_entries(
    alloc: Global,
    form: Form,
    entries: &[IdEntry<'_>],
    row: &Row<'_>,
) -> Result<usize, AllocError>
    ensures { IfOk result (λ count. count ≡ length
        (spec.entries_with form (map sheets.id_entry_of entries.now) (sheets.row_of row.now))) }
{
    let mut count = 0;
    for entry in entries {
        if has_id(alloc, form, entry.id, &row.cells)? {
            count += 1;
        }
    }
    Ok(count)
}

// Returns the error of a row whose id isn't that of one activity.
fn unknown_code(cells: &[&[u8]]) -> FileCode
    ensures { result ≡ spec.unknown_code (sheets.cells_of cells.now) }
{
    if begins_with_makespan(cells) {
        FileCode::Count
    } else {
        FileCode::JobOrder
    }
}

// Checks that a row has the id of exactly one activity.
#[tactic(auto, unfolding(crate::specs::IdRows::known_at))]
fn check_known(
    alloc: Global,
    form: Form,
    entries: &[IdEntry<'_>],
    row: &Row<'_>,
) -> Result<(), ReadError>
    ensures { Gives (λ _. tt) result (spec.known_at form
        (map sheets.id_entry_of entries.now) (sheets.row_of row.now)) }
{
    if count_entries(alloc, form, entries, row)? != 1 {
        return Err(ReadError::Fault(Fault::new(unknown_code(&row.cells), row.line)));
    }
    Ok(())
}

// Checks that each row has the id of exactly one activity.
#[tactic(auto, unfolding(crate::specs::IdRows::all_known))]
fn check_all_known(
    alloc: Global,
    form: Form,
    entries: &[IdEntry<'_>],
    rows: &[Row<'_>],
) -> Result<(), ReadError>
    ensures { Gives (λ _. tt) result (spec.all_known form
        (map sheets.id_entry_of entries.now) (map sheets.row_of rows.now)) }
{
    for row in rows {
        check_known(alloc, form, entries, row)?;
    }
    Ok(())
}

// Returns the cells behind the first one.
fn behind_first<'a, 'b>(cells: &'a [&'b [u8]]) -> &'a [&'b [u8]]
    ensures { sheets.cells_of result.now ≡ drop 1 (sheets.cells_of cells.now) }
{
    match cells {
        [_, rest @ ..] => rest,
        [] => cells,
    }
}

// Returns the start in a row behind its id.
fn start_behind(entry: &IdEntry<'_>, row: &Row<'_>) -> Result<u64, Fault>
    requires { entry.now.entry.duration ≤ 10000 }
    ensures start { Reads (λ n. n) result (sheets.start_in (sheets.id_entry_of entry.now).entry
        (spec.behind_id (sheets.row_of row.now))) }
    ensures early { IfOk result (λ start. start ≤ LATEST_START) }
{
    start_in_cells(&entry.entry, row.line, behind_first(&row.cells))
}

// Returns the start in a row with the id of an activity. No other row behind it has this id.
fn only_start(
    alloc: Global,
    form: Form,
    row: &Row<'_>,
    others: &[Row<'_>],
    entry: &IdEntry<'_>,
) -> Result<u64, ReadError>
    requires { entry.now.entry.duration ≤ 10000 }
    ensures start { Gives (λ n. n) result (spec.start_of row.now.line
        (sheets.row_of row.now
        ∷ spec.rows_with form entry.now.id.now (map sheets.row_of others.now))
        (sheets.id_entry_of entry.now)) }
    ensures early { IfOk result (λ start. start ≤ LATEST_START) }
{
    match from_first(alloc, form, entry.id, others)? {
        [] => Ok(start_behind(entry, row)?),
        [again, ..] => Err(ReadError::Fault(Fault::new(FileCode::JobOrder, again.line))),
    }
}

// Returns the start of an activity. `last` is the last line.
fn start_by_id(
    alloc: Global,
    form: Form,
    last: u64,
    rows: &[Row<'_>],
    entry: &IdEntry<'_>,
) -> Result<u64, ReadError>
    requires { entry.now.entry.duration ≤ 10000 }
    ensures start { Gives (λ n. n) result (spec.start_by_id form last
        (map sheets.row_of rows.now) (sheets.id_entry_of entry.now)) }
    ensures early { IfOk result (λ start. start ≤ LATEST_START) }
{
    match from_first(alloc, form, entry.id, rows)? {
        [] => Err(ReadError::Fault(Fault::new(FileCode::Count, last))),
        [row, others @ ..] => only_start(alloc, form, row, others, entry),
    }
}

// Returns the starts of the activities with ids.
#[tactic(auto, unfolding(crate::specs::IdRows::starts_by_id))]
fn starts_by_id(
    alloc: Global,
    form: Form,
    last: u64,
    rows: &[Row<'_>],
    entries: &[IdEntry<'_>],
) -> Result<Vec<u64>, ReadError>
    requires { All (λ entry. entry.entry.duration ≤ 10000) entries.now }
    ensures starts { Gives (λ v. v.items) result (spec.starts_by_id form last
        (map sheets.row_of rows.now) [] (map sheets.id_entry_of entries.now)) }
    ensures early { IfOk result (λ starts. All (λ t. t ≤ LATEST_START) starts.items) }
    ensures whole { IfOk result (λ starts. length starts.items ≡ length entries.now) }
{
    let mut starts = Vec::new(alloc);
    for entry in entries {
        starts.push(start_by_id(alloc, form, last, rows, entry)?)?;
    }
    Ok(starts)
}

// Returns the end of the activity at a place, 0 if there is none.
fn end_at(entries: &[IdEntry<'_>], starts: &[u64], k: usize) -> u64
    requires short { All (λ entry. entry.entry.duration ≤ 10000) entries.now }
    requires early { All (λ t. t ≤ LATEST_START) starts.now }
    requires whole { length starts.now ≡ length entries.now }
    ensures { result ≡ spec.end_at (map sheets.id_entry_of entries.now) starts.now k }
{
    if k < entries.len() {
        starts[k] + entries[k].entry.duration
    } else {
        0
    }
}

// Returns the greatest end of the activities with ids.
fn greatest_end(entries: &[IdEntry<'_>], starts: &[u64]) -> u64
    requires short { All (λ entry. entry.entry.duration ≤ 10000) entries.now }
    requires early { All (λ t. t ≤ LATEST_START) starts.now }
    requires whole { length starts.now ≡ length entries.now }
    ensures { result ≡ spec.greatest_end (map sheets.id_entry_of entries.now) starts.now }
{
    let mut latest = 0;
    for i in 0..entries.len() {
        latest = latest.max(end_at(entries, starts, i));
    }
    latest
}

// Appends the starts of waits: each starts at the end of the activity that it is behind.
fn push_waits(
    all: &mut Vec<u64>,
    entries: &[IdEntry<'_>],
    starts: &[u64],
    waits: &[usize],
) -> Result<(), AllocError>
    requires short { All (λ entry. entry.entry.duration ≤ 10000) entries.now }
    requires early { All (λ t. t ≤ LATEST_START) starts.now }
    requires whole { length starts.now ≡ length entries.now }
    ensures { OnOk result (all.new.items ≡ all.old.items
        ++ map (spec.end_at (map sheets.id_entry_of entries.now) starts.now) waits.now) }
{
    for &place in waits {
        all.push(end_at(entries, starts, place))?;
    }
    Ok(())
}

// Returns the starts of all activities: the first starts at 0, each wait at the end of the activity
// that it is behind, and the last activity at `end`.
fn with_others(
    alloc: Global,
    entries: &[IdEntry<'_>],
    inner: &[u64],
    waits: &[usize],
    end: u64,
) -> Result<Vec<u64>, AllocError>
    requires short { All (λ entry. entry.entry.duration ≤ 10000) entries.now }
    requires early { All (λ t. t ≤ LATEST_START) inner.now }
    requires whole { length inner.now ≡ length entries.now }
    ensures { IfOk result (λ starts. starts.items ≡ 0 ∷ (inner.now
        ++ map (spec.end_at (map sheets.id_entry_of entries.now) inner.now) waits.now)
        ++ end ∷ []) }
{
    let mut starts = Vec::new(alloc);
    starts.push(0)?;
    starts.extend_from_slice(inner)?;
    push_waits(&mut starts, entries, inner, waits)?;
    starts.push(end)?;
    Ok(starts)
}

// Returns the starts of all activities.
#[tactic(auto, unfolding(crate::specs::IdRows::starts_of_body))]
fn starts_of_body(
    alloc: Global,
    form: Form,
    last: u64,
    entries: &[IdEntry<'_>],
    waits: &[usize],
    rows: &[Row<'_>],
) -> Result<Vec<u64>, ReadError>
    requires { All (λ entry. entry.entry.duration ≤ 10000) entries.now }
    ensures { Gives (λ v. v.items) result (spec.starts_of_body form last
        (map sheets.id_entry_of entries.now) waits.now (map sheets.row_of rows.now)) }
{
    check_all_known(alloc, form, entries, rows)?;
    let inner = starts_by_id(alloc, form, last, rows, entries)?;
    let end = greatest_end(entries, &inner);
    if end > LATEST_START {
        return Err(ReadError::Fault(Fault::new(FileCode::Limit, last)));
    }
    Ok(with_others(alloc, entries, &inner, waits, end)?)
}

// Returns the line of the last row, or `line` if there is none.
fn last_line(line: u64, rows: &[Row<'_>]) -> u64
    ensures { result ≡ spec.last_line line (map sheets.row_of rows.now) }
{
    let mut last = line;
    for row in rows {
        last = row.line;
    }
    last
}

// Returns the next rows, and those behind them.
#[tactic(auto, unfolding(crate::specs::IdRows::rows_before))]
fn rows_before<'a, 'b>(
    line: u64,
    count: usize,
    rows: &'a [Row<'b>],
) -> Result<(&'a [Row<'b>], &'a [Row<'b>]), Fault>
    ensures { Reads (λ split. (map sheets.row_of split.0.now, map sheets.row_of split.1.now)) result
        (spec.rows_before line count (map sheets.row_of rows.now)) }
{
    if rows.len() < count {
        return Err(Fault::new(FileCode::Count, last_line(line, rows)));
    }
    Ok(rows.split_at(count))
}

// Returns the starts in a table with ids, and the rows behind it.
#[tactic(auto, unfolding(crate::specs::IdRows::id_rows_at))]
fn read_id_rows<'a, 'b>(
    alloc: Global,
    form: Form,
    sheet: &Sheet<'_>,
    rows: &'a [Row<'b>],
) -> Result<(Vec<u64>, &'a [Row<'b>]), ReadError>
    requires { All (λ entry. entry.entry.duration ≤ 10000) sheet.now.by_id.items }
    ensures { Gives (λ read. (read.0.items, map sheets.row_of read.1.now)) result
        (spec.id_rows_at form (sheets.sheet_of sheet.now) (map sheets.row_of rows.now)) }
{
    let [head, rest @ ..] = rows else {
        return Err(ReadError::Fault(Fault::new(FileCode::MissingHead, 0)));
    };
    if !has_columns(ID_COLUMNS, &head.cells) {
        return Err(ReadError::Fault(Fault::new(FileCode::MissingHead, head.line)));
    }
    let (body, behind) = rows_before(head.line, sheet.by_id.len(), rest)?;
    let last = last_line(head.line, body);
    let starts = starts_of_body(alloc, form, last, &sheet.by_id, &sheet.waits, body)?;
    Ok((starts, behind))
}

// Tests whether the first cell is the name of the column of ids.
fn is_id_head(cells: &[&[u8]]) -> bool
    ensures { result ≡ spec.is_id_head (sheets.cells_of cells.now) }
{
    match cells {
        [cell, ..] => *cell == b"id".as_slice(),
        [] => false,
    }
}

/// Tests whether a sheet has ids.
pub(crate) fn has_ids(sheet: &Sheet<'_>) -> bool
    ensures { result ≡ spec.has_ids (sheets.sheet_of sheet.now) }
{
    sheet.by_id.len() > 0
}

// Tests whether rows begin with the names of the columns of ids, and the sheet has ids.
fn begins_with_id(sheet: &Sheet<'_>, rows: &[Row<'_>]) -> bool
    ensures { result ≡ spec.begins_with_id (sheets.sheet_of sheet.now)
        (map sheets.row_of rows.now) }
{
    match rows {
        [row, ..] => has_ids(sheet) && is_id_head(&row.cells),
        [] => false,
    }
}

/// Returns the starts in rows, by ids or by numbers, and the rows behind them.
#[tactic(auto, unfolding(crate::specs::IdRows::rows_at))]
pub(crate) fn read_rows<'a, 'b>(
    alloc: Global,
    form: Form,
    sheet: &Sheet<'_>,
    rows: &'a [Row<'b>],
) -> Result<(Vec<u64>, &'a [Row<'b>]), ReadError>
    requires entries { All (λ entry. entry.duration ≤ 10000) sheet.now.entries.items }
    requires ids { All (λ entry. entry.entry.duration ≤ 10000) sheet.now.by_id.items }
    ensures { Gives (λ read. (read.0.items, map sheets.row_of read.1.now)) result
        (spec.rows_at form (sheets.sheet_of sheet.now) (map sheets.row_of rows.now)) }
{
    if begins_with_id(sheet, rows) {
        read_id_rows(alloc, form, sheet, rows)
    } else {
        read_sheet(alloc, sheet, rows)
    }
}
