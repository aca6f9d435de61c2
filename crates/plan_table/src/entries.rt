//! The rows of a table: its activities, and the row of the capacities.

ghost use Rattle.std.specs.Prelude.{◌≡◌, ◌≤◌, ◌+◌, [], length, map, drop, take, IfOk, OnOk};
ghost use Rattle.std.specs.Fmt.{decimal};
ghost use Rattle.plan_table.specs.Csv.{row_of};
ghost use Rattle.plan_table.specs.Entries as spec;
ghost use Rattle.plan_table.specs.Header.{head_of};
ghost use Rattle.plan_table.specs.Limits.{most_rows};
ghost use Rattle.plan_table.specs.Predecessors.{label_of};
ghost use Rattle.plan_table.specs.Reading.{Gives};
ghost use Rattle.plan_table.specs.Rows.{first_cell};
ghost use Rattle.plan_table.specs.Table.{activity_of};

use crate::cells::{amount, word_fault};
use crate::fault::{ReadError, TableCode};
use crate::header::{Column, Head, same_kind};
use crate::predecessors::Label;
use crate::records::Row;
use crate::rows::{Ids, read_activity, split_first};
use crate::synonyms::is_capacity_word;
use crate::table::Activity;
use plan_psplib::trim;
use std::alloc::{AllocError, Global};

/// The most activities of a table.
const MOST_ROWS: usize = 500;

/// The entries of the rows so far.
#[derive(Drop)]
pub struct Entries {
    pub activities: Vec<Activity>,
    pub capacities: Option<Vec<Option<u32>>>,
    pub total: u32,
}

/// Whether nothing stands in a row.
pub fn is_blank_row(cells: &[Vec<u8>]) -> bool
    ensures { result ≡ spec.is_blank_row (map (λ cell. cell.items) cells.now) }
{
    for cell in cells {
        if !trim(cell).is_empty() {
            return false;
        }
    }
    true
}

/// The rows from the first one in which something stands.
pub fn filled_from(rows: &[Row]) -> &[Row]
    ensures { map row_of result.now ≡ spec.filled_from (map row_of rows.now) }
{
    for (k, row) in rows.iter().enumerate() {
        if !is_blank_row(&row.cells) {
            return &rows[k..];
        }
    }
    &[]
}

// Whether a row is that of the capacities.
fn is_capacity(place: Option<usize>, id: &[u8]) -> bool
    ensures { result ≡ spec.is_capacity place id.now }
{
    place.is_some() && is_capacity_word(id)
}

/// The cell at a place, an empty one if there is none.
#[tactic(auto, using(crate::proofs::ReadLemmas::cell_dropped, crate::proofs::ReadLemmas::no_cell))]
pub fn cell_at(cells: &[Vec<u8>], place: usize) -> &[u8]
    ensures { result.now ≡ first_cell (drop place (map (λ cell. cell.items) cells.now)) }
{
    if place < cells.len() {
        split_first(&cells[place..]).0
    } else {
        b""
    }
}

// The first column of a kind.
fn place_of(heads: &[Head], kind: Column) -> Option<usize>
    ensures { result ≡ spec.place_from kind 0 (map head_of heads.now) }
{
    for (k, head) in heads.iter().enumerate() {
        if same_kind(kind, head.column) {
            return Some(k);
        }
    }
    None
}

/// The column of the ids.
pub fn id_place(heads: &[Head]) -> Option<usize>
    ensures { result ≡ spec.id_place (map head_of heads.now) }
{
    place_of(heads, Column::Id)
}

// The column of the names.
fn name_place(heads: &[Head]) -> Option<usize>
    ensures { result ≡ spec.name_place (map head_of heads.now) }
{
    place_of(heads, Column::Name)
}

// The digits of a number.
fn digits(alloc: Global, number: usize) -> Result<Vec<u8>, AllocError>
    ensures { IfOk result (λ v. v.items ≡ decimal number) }
{
    let text = format!(in alloc; "{number}")?;
    Vec::from_slice(alloc, text.as_bytes())
}

// The id of the row behind so many activities.
fn id_of(
    alloc: Global,
    place: Option<usize>,
    count: usize,
    cells: &[Vec<u8>],
) -> Result<Vec<u8>, AllocError>
    requires { count ≤ most_rows }
    ensures { IfOk result (λ v. v.items ≡ spec.id_of place count
        (map (λ cell. cell.items) cells.now)) }
{
    match place {
        None => digits(alloc, count + 1),
        Some(place) => Vec::from_slice(alloc, trim(cell_at(cells, place))),
    }
}

// The name in a row.
fn name_of(place: Option<usize>, cells: &[Vec<u8>]) -> &[u8]
    ensures { result.now ≡ spec.name_of place (map (λ cell. cell.items) cells.now) }
{
    match place {
        Some(place) => trim(cell_at(cells, place)),
        None => b"",
    }
}

// Whether a row with this id is that of an activity.
fn is_activity(place: Option<usize>, id: &[u8], cells: &[Vec<u8>]) -> bool
    ensures { result ≡ spec.is_activity place id.now (map (λ cell. cell.items) cells.now) }
{
    !is_blank_row(cells) && !is_capacity(place, id)
}

// The ids and names with those of a row.
#[tactic(auto, unfolding(crate::specs::Entries::one_more))]
fn push_id(
    alloc: Global,
    place: Option<usize>,
    names: Option<usize>,
    ids: &mut Vec<Label>,
    row: &Row,
) -> Result<(), ReadError>
    requires { length ids.old.items ≤ most_rows }
    ensures ids { Gives (λ _. map label_of ids.new.items) result (spec.with_id place names
        (map label_of ids.old.items) (row_of row.now)) }
    ensures few { OnOk result (length ids.new.items ≤ most_rows) }
{
    let count = ids.as_slice().len();
    let id = id_of(alloc, place, count, &row.cells)?;
    if !is_activity(place, &id, &row.cells) {
        return Ok(());
    }
    if count >= MOST_ROWS {
        return Err(word_fault(alloc, TableCode::Limit, row.line, b""));
    }
    let name = Vec::from_slice(alloc, name_of(names, &row.cells))?;
    ids.push(Label { id, name })?;
    Ok(())
}

// With one activity more.
#[tactic(auto, unfolding(crate::specs::Entries::added))]
fn add(alloc: Global, entries: &mut Entries, line: u64, activity: Activity) -> Result<(), ReadError>
    ensures exact { Gives (λ _. spec.entries_of entries.new) result (spec.added line
        (spec.entries_of entries.old) (activity_of activity)) }
    ensures one { OnOk result (length entries.new.activities.items
        ≡ length entries.old.activities.items + 1) }
{
    let total = u64::from(entries.total) + u64::from(activity.duration);
    if total > 1_000_000 {
        return Err(word_fault(alloc, TableCode::Limit, line, b""));
    }
    entries.total = total as u32;
    entries.activities.push(activity)?;
    Ok(())
}

// The capacity in a cell, if it has one.
fn capacity_in(
    alloc: Global,
    line: u64,
    resource: &[u8],
    cell: &[u8],
) -> Result<Option<u32>, ReadError>
    ensures { Gives (λ c. c) result (spec.capacity_in line resource.now cell.now) }
{
    if cell.is_empty() {
        return Ok(None);
    }
    let n = amount(alloc, TableCode::BadNeed, line, resource, cell)?;
    Ok(Some(n))
}

// The capacities with that of a column.
#[tactic(auto, unfolding(crate::specs::Entries::capacity_read))]
fn read_capacity(
    alloc: Global,
    line: u64,
    before: &mut Vec<Option<u32>>,
    head: &Head,
    cell: &[u8],
) -> Result<(), ReadError>
    ensures { Gives (λ _. before.new.items) result (spec.capacity_read line before.old.items
        (head_of head.now).column (head_of head.now).name cell.now) }
{
    match head.column {
        Column::Resource => {
            let capacity = capacity_in(alloc, line, head.name.as_bytes(), cell)?;
            before.push(capacity)?;
        }
        _ => {}
    }
    Ok(())
}

// The capacities in a row.
#[tactic(auto, unfolding(crate::specs::Entries::capacities_read))]
fn read_capacities(
    alloc: Global,
    line: u64,
    heads: &[Head],
    cells: &[Vec<u8>],
) -> Result<Vec<Option<u32>>, ReadError>
    ensures { Gives (λ v. v.items) result (spec.capacities_read line [] (map head_of heads.now)
        (map (λ cell. cell.items) cells.now)) }
{
    let mut capacities = Vec::new(alloc);
    let mut rest = cells;
    for head in heads {
        let (cell, others) = split_first(rest);
        rest = others;
        read_capacity(alloc, line, &mut capacities, head, trim(cell))?;
    }
    Ok(capacities)
}

// The ids and names of the activities.
#[tactic(auto, unfolding(crate::specs::Entries::ids_at))]
fn read_ids(
    alloc: Global,
    place: Option<usize>,
    names: Option<usize>,
    rows: &[Row],
) -> Result<Vec<Label>, ReadError>
    ensures ids { Gives (λ v. map label_of v.items) result (spec.ids_at place names []
        (map row_of rows.now)) }
    ensures few { IfOk result (λ v. length v.items ≤ most_rows) }
{
    let mut ids = Vec::new(alloc);
    for row in rows {
        push_id(alloc, place, names, &mut ids, row)?;
    }
    Ok(ids)
}

// The row of the capacities.
#[tactic(auto, unfolding(crate::specs::Entries::capacity_row))]
fn read_capacity_row(
    alloc: Global,
    heads: &[Head],
    entries: &mut Entries,
    line: u64,
    cells: &[Vec<u8>],
) -> Result<(), ReadError>
    ensures exact { Gives (λ _. spec.entries_of entries.new) result (spec.capacity_row
        (map head_of heads.now) (spec.entries_of entries.old) line
        (map (λ cell. cell.items) cells.now)) }
    ensures activities { OnOk result (entries.new.activities ≡ entries.old.activities) }
{
    if entries.capacities.is_some() {
        return Err(word_fault(alloc, TableCode::IdTwice, line, b"capacity"));
    }
    let found = read_capacities(alloc, line, heads, cells)?;
    if cells.len() > heads.len() {
        return Err(word_fault(alloc, TableCode::Cells, line, b""));
    }
    entries.capacities = Some(found);
    Ok(())
}

// The first ids.
#[tactic(auto, using(crate::proofs::ReadLemmas::ids_taken, crate::proofs::ReadLemmas::all_taken))]
fn first_ids(ids: &[Label], count: usize) -> &[Label]
    ensures { map label_of result.now ≡ take count (map label_of ids.now) }
{
    if count < ids.len() {
        &ids[..count]
    } else {
        ids
    }
}

// The row of an activity.
#[tactic(auto, unfolding(crate::specs::Entries::activity_row))]
fn read_activity_row(
    alloc: Global,
    heads: &[Head],
    ids: &[Label],
    entries: &mut Entries,
    line: u64,
    id: &[u8],
    cells: &[Vec<u8>],
) -> Result<(), ReadError>
    requires { length ids.now ≤ most_rows }
    ensures exact { Gives (λ _. spec.entries_of entries.new) result (spec.activity_row
        (map head_of heads.now) (map label_of ids.now) (spec.entries_of entries.old)
        line id.now (map (λ cell. cell.items) cells.now)) }
    ensures few { OnOk result (length entries.new.activities.items ≤ most_rows) }
{
    let count = entries.activities.as_slice().len();
    if count >= MOST_ROWS {
        return Err(word_fault(alloc, TableCode::Limit, line, b""));
    }
    let known = Ids {
        all: ids,
        before: first_ids(ids, count),
    };
    let activity = read_activity(alloc, &known, line, id, heads, cells)?;
    add(alloc, entries, line, activity)
}

// Reads the entry of a row.
#[tactic(auto, unfolding(crate::specs::Entries::entry_read))]
fn read_entry(
    alloc: Global,
    heads: &[Head],
    place: Option<usize>,
    ids: &[Label],
    entries: &mut Entries,
    row: &Row,
) -> Result<(), ReadError>
    requires ids { length ids.now ≤ most_rows }
    requires few { length entries.old.activities.items ≤ most_rows }
    ensures exact { Gives (λ _. spec.entries_of entries.new) result (spec.entry_read
        (map head_of heads.now) place (map label_of ids.now)
        (spec.entries_of entries.old) (row_of row.now)) }
    ensures few { OnOk result (length entries.new.activities.items ≤ most_rows) }
{
    if is_blank_row(&row.cells) {
        return Ok(());
    }
    let count = entries.activities.as_slice().len();
    let id = id_of(alloc, place, count, &row.cells)?;
    if is_capacity(place, &id) {
        return read_capacity_row(alloc, heads, entries, row.line, &row.cells);
    }
    read_activity_row(alloc, heads, ids, entries, row.line, &id, &row.cells)
}

// Reads the entries of rows, with these ids of all activities.
#[tactic(auto, unfolding(crate::specs::Entries::entries_at))]
fn read_all(
    alloc: Global,
    heads: &[Head],
    place: Option<usize>,
    ids: &[Label],
    rows: &[Row],
) -> Result<Entries, ReadError>
    requires { length ids.now ≤ most_rows }
    ensures { Gives spec.entries_of result (spec.entries_at (map head_of heads.now) place
        (map label_of ids.now) spec.no_entries (map row_of rows.now)) }
{
    let mut entries = Entries {
        activities: Vec::new(alloc),
        capacities: None,
        total: 0,
    };
    for row in rows {
        read_entry(alloc, heads, place, ids, &mut entries, row)?;
    }
    Ok(entries)
}

/// Reads the rows of a table. T12 (the line of the row) if there are more than 500 activities
/// comes before any other error of a row; T12 (line 0) if there is none comes last.
#[tactic(auto, unfolding(crate::specs::Entries::entries_in))]
pub fn read_entries(alloc: Global, heads: &[Head], rows: &[Row]) -> Result<Entries, ReadError>
    ensures { Gives spec.entries_of result (spec.entries_in (map head_of heads.now)
        (map row_of rows.now)) }
{
    let place = id_place(heads);
    let ids = read_ids(alloc, place, name_place(heads), rows)?;
    let entries = read_all(alloc, heads, place, &ids, rows)?;
    if entries.activities.is_empty() {
        return Err(word_fault(alloc, TableCode::Limit, 0, b""));
    }
    Ok(entries)
}
