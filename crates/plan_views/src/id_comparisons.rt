//! The comparison of two schedules by the ids of their activities.

ghost use Rattle.std.specs.Prelude.{◌≡◌, ◌≤◌, ◌++◌, All, map, length, IfOk, IfSome, OnOk};
ghost use Rattle.std.specs.Option.{option_map};
ghost use Rattle.plan_profile.specs.Usage.{IsInTime};
ghost use Rattle.plan_gantt.specs.Limits.{latest_start};
ghost use Rattle.plan_table.specs.Names.{name_of, first_name as named};
ghost use Rattle.plan_formats.specs.Columns.{column_of};
ghost use Rattle.plan_formats.specs.TableLines.{line_of};
ghost use Rattle.plan_formats.specs.Tables.{cells_of, rows_of, table_of};
ghost use Rattle.plan_views.specs.IdComparisons as spec;

use crate::comparisons::shift;
use crate::headings::right;
use plan_formats::{Cell, Column, Line, Table};
use plan_table::{NameLine, first_name};
use std::alloc::{AllocError, Global};

/// A schedule of a project whose activities have ids: an activity has the first id of its number,
/// and index `k` of the starts is activity `k + 1`.
#[derive(Clone, Copy)]
pub struct IdSchedule<'a> {
    pub ids: &'a [NameLine<'a>],
    pub starts: &'a [u64],
}

/// An id, and the start of its activity.
#[derive(Clone, Copy)]
pub struct IdStart<'a> {
    pub id: &'a [u8],
    pub start: u64,
}

// Appends an activity with its start, if it has an id.
fn push_start<'a>(
    list: &mut Vec<IdStart<'a>>,
    id: Option<&'a [u8]>,
    start: u64,
) -> Result<(), AllocError>
    requires start { start ≤ latest_start }
    requires limit { All (λ s. s.start ≤ latest_start) list.old.items }
    ensures list { OnOk result (map spec.id_start_of list.new.items
        ≡ map spec.id_start_of list.old.items
        ++ spec.started (option_map (λ id. id.now) id.entry) start) }
    ensures limit { OnOk result (All (λ s. s.start ≤ latest_start) list.new.items) }
{
    if let Some(id) = id {
        list.push(IdStart { id, start })?;
    }
    Ok(())
}

// Returns the activities with an id.
fn id_starts<'a>(
    alloc: Global,
    ids: &'a [NameLine<'a>],
    starts: &[u64],
) -> Result<Vec<IdStart<'a>>, AllocError>
    requires { All IsInTime starts.now }
    ensures list { IfOk result (λ list. map spec.id_start_of list.items
        ≡ spec.id_starts (map name_of ids.now) starts.now) }
    ensures limit { IfOk result (λ list. All (λ s. s.start ≤ latest_start) list.items) }
{
    let mut list = Vec::new(alloc);
    for k in 0..starts.len() {
        let id = first_name(ids, k as u64 + 1);
        push_start(&mut list, id, starts[k])?;
    }
    Ok(list)
}

// Returns the start of an id.
fn start_of(list: &[IdStart<'_>], id: &[u8]) -> Option<u64>
    requires { All (λ s. s.start ≤ latest_start) list.now }
    ensures start { result ≡ spec.start_of (map spec.id_start_of list.now) id.now }
    ensures limit { IfSome result (λ start. start ≤ latest_start) }
{
    for s in list {
        if s.id == id {
            return Some(s.start);
        }
    }
    None
}

// Returns the row of an activity of the new list with its old start.
fn row_with<'a>(
    alloc: Global,
    before: Option<u64>,
    s: IdStart<'a>,
) -> Result<Vec<Cell<'a>>, AllocError>
    requires before { IfSome before (λ start. start ≤ latest_start) }
    requires after { s.start ≤ latest_start }
    ensures { IfOk result (λ row. cells_of row.items
        ≡ spec.row_with before (spec.id_start_of s.entry)) }
{
    match before {
        Some(start) => Ok(Vec::from_array(
            alloc,
            [
                Cell::Text(s.id),
                Cell::Number(start),
                Cell::Number(s.start),
                shift(start, s.start),
            ],
        )?),
        None => Ok(Vec::from_array(
            alloc,
            [
                Cell::Text(s.id),
                Cell::Empty,
                Cell::Number(s.start),
                Cell::Empty,
            ],
        )?),
    }
}

// Returns the row of an activity of the new list.
fn new_row<'a>(
    alloc: Global,
    before: &[IdStart<'_>],
    s: IdStart<'a>,
) -> Result<Vec<Cell<'a>>, AllocError>
    requires before { All (λ s. s.start ≤ latest_start) before.now }
    requires after { s.start ≤ latest_start }
    ensures { IfOk result (λ row. cells_of row.items
        ≡ spec.new_row (map spec.id_start_of before.now) (spec.id_start_of s.entry)) }
{
    let start = start_of(before, s.id);
    row_with(alloc, start, s)
}

// Returns the row of an activity that was removed.
fn removed_row<'a>(alloc: Global, s: IdStart<'a>) -> Result<Vec<Cell<'a>>, AllocError>
    ensures { IfOk result (λ row. cells_of row.items ≡ spec.removed_row (spec.id_start_of s.entry)) }
{
    Ok(Vec::from_array(
        alloc,
        [
            Cell::Text(s.id),
            Cell::Number(s.start),
            Cell::Empty,
            Cell::Empty,
        ],
    )?)
}

// Appends the rows of the new list.
fn push_new_rows<'a>(
    alloc: Global,
    rows: &mut Vec<Vec<Cell<'a>>>,
    before: &[IdStart<'_>],
    after: &[IdStart<'a>],
) -> Result<(), AllocError>
    requires before { All (λ s. s.start ≤ latest_start) before.now }
    requires after { All (λ s. s.start ≤ latest_start) after.now }
    ensures { OnOk result (rows_of rows.new.items ≡ rows_of rows.old.items
        ++ map (spec.new_row (map spec.id_start_of before.now)) (map spec.id_start_of after.now)) }
{
    for s in after {
        rows.push(new_row(alloc, before, *s)?)?;
    }
    Ok(())
}

// Appends the rows of the activities that were removed.
fn push_removed_rows<'a>(
    alloc: Global,
    rows: &mut Vec<Vec<Cell<'a>>>,
    removed: &[IdStart<'a>],
) -> Result<(), AllocError>
    ensures { OnOk result (rows_of rows.new.items ≡ rows_of rows.old.items
        ++ map spec.removed_row (map spec.id_start_of removed.now)) }
{
    for s in removed {
        rows.push(removed_row(alloc, *s)?)?;
    }
    Ok(())
}

// Returns the activities whose id isn't in the other list.
fn without<'a>(
    alloc: Global,
    other: &[IdStart<'_>],
    list: &[IdStart<'a>],
) -> Result<Vec<IdStart<'a>>, AllocError>
    requires { All (λ s. s.start ≤ latest_start) other.now }
    ensures { IfOk result (λ found. map spec.id_start_of found.items
        ≡ spec.without (map spec.id_start_of other.now) (map spec.id_start_of list.now)) }
{
    let mut found = Vec::new(alloc);
    for s in list {
        if start_of(other, s.id).is_none() {
            found.push(*s)?;
        }
    }
    Ok(found)
}

// Tests whether an activity has an old start and another new one.
fn is_moved(before: Option<u64>, after: u64) -> bool
    ensures { result ≡ spec.is_moved before after }
{
    match before {
        Some(start) => start != after,
        None => false,
    }
}

// Counts the activities that have an old start and another new one.
fn count_moved(before: &[IdStart<'_>], after: &[IdStart<'_>]) -> u64
    requires { All (λ s. s.start ≤ latest_start) before.now }
    ensures { result ≡ spec.count_moved
        (map spec.id_start_of before.now) (map spec.id_start_of after.now) }
{
    let mut count = 0;
    for s in after {
        if is_moved(start_of(before, s.id), s.start) {
            count += 1;
        }
    }
    count
}

// Counts the activities in both lists.
fn count_common(before: &[IdStart<'_>], after: &[IdStart<'_>]) -> u64
    requires { All (λ s. s.start ≤ latest_start) before.now }
    ensures { result ≡ spec.count_common
        (map spec.id_start_of before.now) (map spec.id_start_of after.now) }
{
    let mut count = 0;
    for s in after {
        if start_of(before, s.id).is_some() {
            count += 1;
        }
    }
    count
}

// Returns an id as a word.
fn word_of(alloc: Global, s: IdStart<'_>) -> Result<Vec<u8>, AllocError>
    ensures { IfOk result (λ word. word.items ≡ (spec.id_start_of s.entry).id) }
{
    let mut word = Vec::new(alloc);
    word.extend_from_slice(s.id)?;
    Ok(word)
}

// Returns the ids of activities.
fn ids_of(alloc: Global, list: &[IdStart<'_>]) -> Result<Vec<Vec<u8>>, AllocError>
    ensures { IfOk result (λ ids. map (λ id. id.items) ids.items
        ≡ spec.ids_of (map spec.id_start_of list.now)) }
{
    let mut ids = Vec::new(alloc);
    for s in list {
        ids.push(word_of(alloc, *s)?)?;
    }
    Ok(ids)
}

// Returns the length of the longest id, or `most` if that is more.
fn longest(most: usize, list: &[IdStart<'_>]) -> usize
    ensures { result ≡ spec.longest most (map spec.id_start_of list.now) }
{
    let mut longest = most;
    for s in list {
        longest = longest.max(s.id.len());
    }
    longest
}

// Returns the columns.
fn columns(alloc: Global, places: usize) -> Result<Vec<Column>, AllocError>
    ensures { IfOk result (λ columns.
        map column_of columns.items ≡ spec.id_comparison_columns places) }
{
    let mut columns = Vec::new(alloc);
    columns.push(right("id", "id", places))?;
    columns.push(right("old", "old", 8))?;
    columns.push(right("new", "new", 8))?;
    columns.push(right("shift", "shift", 8))?;
    Ok(columns)
}

// Returns the lines below the rows.
fn lines(
    alloc: Global,
    before: &[IdStart<'_>],
    after: &[IdStart<'_>],
    added: &[IdStart<'_>],
    removed: &[IdStart<'_>],
) -> Result<Vec<Line>, AllocError>
    requires limit { All (λ s. s.start ≤ latest_start) before.now }
    requires added { map spec.id_start_of added.now
        ≡ spec.without (map spec.id_start_of before.now) (map spec.id_start_of after.now) }
    requires removed { map spec.id_start_of removed.now
        ≡ spec.without (map spec.id_start_of after.now) (map spec.id_start_of before.now) }
    ensures { IfOk result (λ lines. map line_of lines.items ≡ spec.id_comparison_lines
        (map spec.id_start_of before.now) (map spec.id_start_of after.now)) }
{
    let mut lines = Vec::new(alloc);
    lines.push(Line::Moved(count_moved(before, after), count_common(before, after)))?;
    lines.push(Line::Ids("added", ids_of(alloc, added)?))?;
    lines.push(Line::Ids("removed", ids_of(alloc, removed)?))?;
    Ok(lines)
}

// Returns the comparison of the activities of two lists.
fn comparison<'a>(
    alloc: Global,
    before: &[IdStart<'a>],
    after: &[IdStart<'a>],
) -> Result<Table<'a>, AllocError>
    requires before { All (λ s. s.start ≤ latest_start) before.now }
    requires after { All (λ s. s.start ≤ latest_start) after.now }
    ensures { IfOk result (λ table. table_of table ≡ spec.id_comparison_of
        (map spec.id_start_of before.now) (map spec.id_start_of after.now)) }
{
    let added = without(alloc, before, after)?;
    let removed = without(alloc, after, before)?;
    let mut rows = Vec::new(alloc);
    push_new_rows(alloc, &mut rows, before, after)?;
    push_removed_rows(alloc, &mut rows, &removed)?;
    Ok(Table {
        above: Vec::new(alloc),
        columns: columns(alloc, longest(longest(4, before), after))?,
        rows,
        below: lines(alloc, before, after, &added, &removed)?,
    })
}

/// Returns the comparison of two schedules of two lists by the ids of their activities. A row has
/// the id, the old start, the new start and the shift: first the activities of the new list in their
/// order, then those that were removed. The cells of an activity that is in one list only are empty
/// where it has no start. Below are the number of activities that moved and the number of those in
/// both lists, the ids that were added, and those that were removed. Activities without an id are
/// left out. Times are whole time units.
pub fn id_comparison_view<'a>(
    alloc: Global,
    before: IdSchedule<'a>,
    after: IdSchedule<'a>,
) -> Result<Table<'a>, AllocError>
    requires before { All IsInTime before.starts.now }
    requires after { All IsInTime after.starts.now }
    ensures { IfOk result (λ table. table_of table ≡ spec.id_comparison_of
        (spec.id_starts (map name_of before.entry.ids.now) before.entry.starts.now)
        (spec.id_starts (map name_of after.entry.ids.now) after.entry.starts.now)) }
{
    let first = id_starts(alloc, before.ids, before.starts)?;
    let second = id_starts(alloc, after.ids, after.starts)?;
    comparison(alloc, &first, &second)
}
