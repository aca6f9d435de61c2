//! The rows of a table: activities.

ghost use Rattle.std.specs.Prelude.{◌≡◌, ◌≤◌, ◌++◌, length, map, drop, IfOk, OnOk};
ghost use Rattle.std.specs.List.{list_all, list_any};
ghost use Rattle.plan_psplib.specs.Lines as lines;
ghost use Rattle.plan_table.specs.Header.{head_of};
ghost use Rattle.plan_table.specs.Limits.{most_rows};
ghost use Rattle.plan_table.specs.Predecessors.{has_id, label_of};
ghost use Rattle.plan_table.specs.Reading.{Gives};
ghost use Rattle.plan_table.specs.Rows as spec;
ghost use Rattle.plan_table.specs.Table.{activity_of};

use crate::cells::{amount, is_printable, name, same, word_fault};
use crate::durations::duration;
use crate::fault::{ReadError, TableCode};
use crate::header::{Column, Head};
use crate::predecessors::{Label, predecessors};
use crate::table::Activity;
use plan_psplib::trim;
use std::alloc::{AllocError, Global};

// 1 for the first byte of a character.
fn lead(byte: u8) -> usize
    ensures value { result ≡ spec.lead byte }
    ensures limit { result ≤ 1 }
{
    if byte >= 128 && byte < 192 { 0 } else { 1 }
}

// How many characters a text has.
fn characters(text: &[u8]) -> usize
    ensures { result ≡ spec.characters text.now }
{
    let mut count = 0;
    for &byte in text {
        count += lead(byte);
    }
    count
}

// Whether a byte can stand in an id.
fn is_id_byte(byte: u8) -> bool
    ensures { result ≡ spec.is_id_byte byte }
{
    byte > b' ' && !(byte == b',' || byte == b';' || byte == b'\n')
}

// Whether each byte can stand in an id.
fn all_id_bytes(cell: &[u8]) -> bool
    ensures { result ≡ list_all spec.is_id_byte cell.now }
{
    cell.iter().all(|&byte| is_id_byte(byte))
}

// Whether a cell is an id.
fn is_id(cell: &[u8]) -> bool
    ensures { result ≡ spec.is_id cell.now }
{
    !cell.is_empty() && characters(cell) <= 32 && all_id_bytes(cell) && is_printable(cell)
}

// Whether an id is among others.
fn is_among(ids: &[Label], id: &[u8]) -> bool
    ensures { result ≡ list_any (has_id id.now) (map label_of ids.now) }
{
    for other in ids {
        if same(&other.id, id) {
            return true;
        }
    }
    false
}

// An id that no earlier activity has.
#[tactic(auto, unfolding(crate::specs::Rows::id_read))]
fn check_id(alloc: Global, before: &[Label], line: u64, cell: &[u8]) -> Result<(), ReadError>
    ensures { Gives (λ u. u) result (spec.id_read (map label_of before.now)
        line cell.now) }
{
    if !is_id(cell) {
        return Err(word_fault(alloc, TableCode::BadId, line, b""));
    }
    if is_among(before, cell) {
        return Err(word_fault(alloc, TableCode::IdTwice, line, cell));
    }
    Ok(())
}

// A need.
fn need(alloc: Global, line: u64, resource: &[u8], cell: &[u8]) -> Result<u32, ReadError>
    ensures exact { Gives (λ n. n) result (spec.need line resource.now cell.now) }
    ensures fits { IfOk result (λ n. n ≤ 10000) }
{
    if cell.is_empty() {
        return Ok(0);
    }
    amount(alloc, TableCode::BadNeed, line, resource, cell)
}

// Puts numbers behind others.
fn append(numbers: &mut Vec<u32>, more: &[u32]) -> Result<(), AllocError>
    ensures { OnOk result (numbers.new.items ≡ numbers.old.items ++ more.now) }
{
    numbers.extend_from_slice(more)
}

/// The ids and names of all activities, and of those before the one that is read.
#[derive(Clone, Copy)]
pub struct Ids<'a> {
    pub all: &'a [Label],
    pub before: &'a [Label],
}

// Reads the cell of a column of an activity.
#[tactic(auto, unfolding(crate::specs::Rows::cell_read))]
fn read_cell(
    alloc: Global,
    ids: &Ids<'_>,
    line: u64,
    activity: &mut Activity,
    head: &Head,
    cell: &[u8],
) -> Result<(), ReadError>
    requires { length ids.now.all.now ≤ most_rows }
    ensures { Gives (λ _. activity_of activity.new) result (spec.cell_read
        (map label_of ids.now.all.now)
        (map label_of ids.now.before.now) line (activity_of activity.old)
        (head_of head.now).column (head_of head.now).name cell.now) }
{
    match head.column {
        Column::Duration => {
            activity.duration = duration(alloc, line, cell)?;
        }
        Column::Id => check_id(alloc, ids.before, line, cell)?,
        Column::Name => activity.name = name(alloc, line, cell)?,
        Column::Predecessors => {
            let numbers = predecessors(alloc, ids.all, line, cell)?;
            append(&mut activity.predecessors, &numbers)?;
        }
        Column::Resource => {
            let amount = need(alloc, line, head.name.as_bytes(), cell)?;
            activity.needs.push(amount)?;
        }
        Column::Note | Column::Nothing => {}
    }
    Ok(())
}

/// The first cell of those that are left, an empty one if there is none, and the others.
pub fn split_first(cells: &[Vec<u8>]) -> (&[u8], &[Vec<u8>])
    ensures cell { result.0.now ≡ spec.first_cell (map (λ cell. cell.items) cells.now) }
    ensures rest { map (λ cell. cell.items) result.1.now
        ≡ drop 1 (map (λ cell. cell.items) cells.now) }
{
    match cells {
        [first, rest @ ..] => (first, rest),
        [] => (b"", cells),
    }
}

// An activity of which only the line and the id are known.
fn fresh(alloc: Global, line: u64, id: &[u8]) -> Result<Activity, AllocError>
    ensures { IfOk result (λ a. activity_of a ≡ spec.fresh_activity line id.now) }
{
    Ok(Activity {
        line,
        id: String::from_utf8_lossy(alloc, id)?,
        name: String::new(alloc),
        duration: 0,
        predecessors: Vec::new(alloc),
        needs: Vec::new(alloc),
    })
}

// An activity with what the cells of columns say.
#[tactic(auto, unfolding(crate::specs::Rows::row_read))]
fn read_row(
    alloc: Global,
    ids: &Ids<'_>,
    line: u64,
    id: &[u8],
    heads: &[Head],
    cells: &[Vec<u8>],
) -> Result<Activity, ReadError>
    requires { length ids.now.all.now ≤ most_rows }
    ensures { Gives activity_of result (spec.row_read
        (map label_of ids.now.all.now)
        (map label_of ids.now.before.now) line (spec.fresh_activity line id.now)
        (map head_of heads.now) (map (λ cell. cell.items) cells.now)) }
{
    let mut activity = fresh(alloc, line, id)?;
    let mut rest = cells;
    for head in heads {
        let (cell, others) = split_first(rest);
        rest = others;
        read_cell(alloc, ids, line, &mut activity, head, trim(cell))?;
    }
    Ok(activity)
}

/// The activity of a row.
#[tactic(auto, unfolding(crate::specs::Rows::activity_read))]
pub fn read_activity(
    alloc: Global,
    ids: &Ids<'_>,
    line: u64,
    id: &[u8],
    heads: &[Head],
    cells: &[Vec<u8>],
) -> Result<Activity, ReadError>
    requires { length ids.now.all.now ≤ most_rows }
    ensures { Gives activity_of result (spec.activity_read
        (map label_of ids.now.all.now)
        (map label_of ids.now.before.now) line id.now
        (map head_of heads.now) (map (λ cell. cell.items) cells.now)) }
{
    let activity = read_row(alloc, ids, line, id, heads, cells)?;
    if cells.len() > heads.len() {
        return Err(word_fault(alloc, TableCode::Cells, line, b""));
    }
    Ok(activity)
}
