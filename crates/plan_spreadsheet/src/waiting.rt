//! Waiting rows: each stands between two activities, for the lag between them.

ghost use Rattle.std.specs.Prelude.{◌≡◌, ◌≤◌, ◌==◌, [], Ok, length, map, count_by, IfOk, OnOk};
ghost use Rattle.std.specs.List.{list_any};
ghost use Rattle.plan_table.specs.Csv.{row_of};
ghost use Rattle.plan_table.specs.Entries.{place_from};
ghost use Rattle.plan_table.specs.Header.{head_of};
ghost use Rattle.plan_table.specs.Limits.{most_rows};
ghost use Rattle.plan_table.specs.Overrides.{override_of};
ghost use Rattle.plan_table.specs.Predecessors.{label_of};
ghost use Rattle.plan_spreadsheet.specs.Waits as spec;

use crate::rows::{copy_row, copy_rows, with_first};
use crate::waits::{Links, Wait, link_cell, wait_id};
use plan_table::{
    Column, Head, Label, Override, ReadError, Row, cell_of, is_capacities, read_heads, same_kind,
    settle,
};
use std::alloc::{AllocError, Global};

/// Rows, and their waits.
#[derive(Drop)]
pub struct Linked {
    pub rows: Vec<Row>,
    pub waits: Vec<Wait>,
}

/// The first column of a kind.
pub fn place_of(heads: &[Head], kind: Column) -> Option<usize>
    ensures { result ≡ place_from kind 0 (map head_of heads.now) }
{
    for (k, head) in heads.iter().enumerate() {
        if same_kind(kind, head.column) {
            return Some(k);
        }
    }
    None
}

// The name in a row.
fn name_in(names: Option<usize>, row: &Row) -> &[u8]
    ensures { result.now ≡ spec.name_in names (row_of row.now) }
{
    match names {
        Some(k) => cell_of(row, k),
        None => b"",
    }
}

// Adds the label of a row, if it is one of an activity.
fn push_label(
    alloc: Global,
    ids: usize,
    names: Option<usize>,
    labels: &mut Vec<Label>,
    row: &Row,
) -> Result<(), AllocError>
    ensures { OnOk result (map label_of labels.new.items
        ≡ spec.with_label ids names (map label_of labels.old.items) (row_of row.now)) }
{
    if is_capacities(Some(ids), row) {
        return Ok(());
    }
    let id = Vec::from_slice(alloc, cell_of(row, ids))?;
    let name = Vec::from_slice(alloc, name_in(names, row))?;
    labels.push(Label { id, name })?;
    Ok(())
}

/// The labels of the activities.
#[tactic(auto, unfolding(crate::specs::Waits::labels_from))]
pub fn labels_of(
    alloc: Global,
    ids: usize,
    names: Option<usize>,
    rows: &[Row],
) -> Result<Vec<Label>, AllocError>
    ensures { IfOk result (λ v. map label_of v.items
        ≡ spec.labels_from ids names [] (map row_of rows.now)) }
{
    let mut labels = Vec::new(alloc);
    for row in rows {
        push_label(alloc, ids, names, &mut labels, row)?;
    }
    Ok(labels)
}

// Whether an activity has an id or a name that could be that of a waiting row.
fn is_taken(label: &Label) -> bool
    ensures { result ≡ spec.is_taken (label_of label.now) }
{
    label.id.starts_with(b"wait+") || label.name.starts_with(b"wait+")
}

// The same for one of the activities.
fn any_taken(labels: &[Label]) -> bool
    ensures { result ≡ list_any spec.is_taken (map label_of labels.now) }
{
    for label in labels {
        if is_taken(label) {
            return true;
        }
    }
    false
}

// Whether a list with these activities can get waiting rows.
fn can_wait(labels: &[Label]) -> bool
    ensures { result ≡ spec.can_wait (map label_of labels.now) }
{
    labels.len() <= 500 && !any_taken(labels)
}

// A cell, or a text in its place.
fn cell_or_text(
    alloc: Global,
    place: usize,
    text: &[u8],
    k: usize,
    cell: &[u8],
) -> Result<Vec<u8>, AllocError>
    ensures { IfOk result (λ v. v.items ≡ spec.cell_or_text place text.now k cell.now) }
{
    if place == k {
        Vec::from_slice(alloc, text)
    } else {
        Vec::from_slice(alloc, cell)
    }
}

// Cells, with a text in one column.
#[tactic(auto, unfolding(crate::specs::Waits::replaced_from))]
fn replaced_cells(
    alloc: Global,
    place: usize,
    text: &[u8],
    cells: &[Vec<u8>],
) -> Result<Vec<Vec<u8>>, AllocError>
    ensures { IfOk result (λ v. map (λ cell. cell.items) v.items
        ≡ spec.replaced_from place text.now [] 0 (map (λ cell. cell.items) cells.now)) }
{
    let mut copies = Vec::new(alloc);
    for (k, cell) in cells.iter().enumerate() {
        let copy = cell_or_text(alloc, place, text, k, cell)?;
        copies.push(copy)?;
    }
    Ok(copies)
}

// A row whose cell names waiting rows, if it has waits.
fn row_with(
    alloc: Global,
    after: usize,
    before: usize,
    links: &Links,
    row: &Row,
) -> Result<Row, AllocError>
    ensures { IfOk result (λ r. row_of r
        ≡ spec.row_with after before (spec.links_of links.now) (row_of row.now)) }
{
    if before == links.waits.len() {
        return copy_row(alloc, row);
    }
    Ok(Row {
        line: row.line,
        cells: replaced_cells(alloc, after, &links.text, &row.cells)?,
    })
}

// The predecessors in a row; that of the capacities has none.
fn predecessors_in(ids: usize, after: usize, row: &Row) -> &[u8]
    ensures { result.now ≡ spec.predecessors_in ids after (row_of row.now) }
{
    if is_capacities(Some(ids), row) {
        b""
    } else {
        cell_of(row, after)
    }
}

// Rows with one more, whose words are these.
fn with_links(
    alloc: Global,
    after: usize,
    before: usize,
    rows: Vec<Row>,
    links: Links,
    row: &Row,
) -> Result<Linked, AllocError>
    ensures { IfOk result (λ l. spec.linked_of l ≡ spec.with_links after before
        (map row_of rows.items) (row_of row.now) (spec.links_of links)) }
{
    let copy = row_with(alloc, after, before, &links, row)?;
    let mut rows = rows;
    rows.push(copy)?;
    Ok(Linked {
        rows,
        waits: links.waits,
    })
}

// Rows with one more.
fn with_row(
    alloc: Global,
    ids: usize,
    after: usize,
    labels: &[Label],
    linked: Linked,
    row: &Row,
) -> Result<Linked, AllocError>
    requires { length labels.now ≤ most_rows }
    ensures { IfOk result (λ l. spec.linked_of l ≡ spec.with_row ids after
        (map label_of labels.now) (spec.linked_of linked) (row_of row.now)) }
{
    let Linked { rows, waits } = linked;
    let before = waits.len();
    let links = link_cell(alloc, labels, waits, predecessors_in(ids, after, row))?;
    with_links(alloc, after, before, rows, links, row)
}

// The rows of activities, whose cells name waiting rows.
#[tactic(auto, unfolding(crate::specs::Waits::linked_from))]
fn linked_rows(
    alloc: Global,
    ids: usize,
    after: usize,
    labels: &[Label],
    rows: &[Row],
) -> Result<Linked, AllocError>
    requires { length labels.now ≤ most_rows }
    ensures { IfOk result (λ l. spec.linked_of l ≡ spec.linked_from ids after
        (map label_of labels.now) spec.no_rows (map row_of rows.now)) }
{
    let mut linked = Linked {
        rows: Vec::new(alloc),
        waits: Vec::new(alloc),
    };
    for row in rows {
        linked = with_row(alloc, ids, after, labels, linked, row)?;
    }
    Ok(linked)
}

// The cell of a waiting row in a column.
fn waiting_cell(alloc: Global, k: usize, wait: &Wait, column: Column) -> Result<Vec<u8>, AllocError>
    ensures { IfOk result (λ v. v.items ≡ spec.waiting_cell k (spec.wait_of wait.now) column) }
{
    match column {
        Column::Duration => Vec::from_slice(alloc, &wait.lag),
        Column::Id => wait_id(alloc, k),
        Column::Predecessors => Vec::from_slice(alloc, &wait.predecessor),
        _ => Ok(Vec::new(alloc)),
    }
}

// The cells of a waiting row.
fn waiting_cells(
    alloc: Global,
    heads: &[Head],
    k: usize,
    wait: &Wait,
) -> Result<Vec<Vec<u8>>, AllocError>
    ensures { IfOk result (λ v. map (λ cell. cell.items) v.items
        ≡ spec.waiting_cells k (spec.wait_of wait.now) (map head_of heads.now)) }
{
    let mut cells = Vec::new(alloc);
    for head in heads {
        let cell = waiting_cell(alloc, k, wait, head.column)?;
        cells.push(cell)?;
    }
    Ok(cells)
}

// Adds waiting rows to others, all in one line.
#[tactic(auto, unfolding(crate::specs::Waits::waiting_from))]
fn with_waiting(
    alloc: Global,
    heads: &[Head],
    line: u64,
    rows: Vec<Row>,
    waits: &[Wait],
) -> Result<Vec<Row>, AllocError>
    ensures { IfOk result (λ v. map row_of v.items ≡ spec.waiting_from (map head_of heads.now)
        line (map row_of rows.items) 0 (map spec.wait_of waits.now)) }
{
    let mut all = rows;
    for (k, wait) in waits.iter().enumerate() {
        let cells = waiting_cells(alloc, heads, k, wait)?;
        all.push(Row { line, cells })?;
    }
    Ok(all)
}

// How many line feeds a cell contains.
fn feeds_in(cell: &[u8]) -> u64
    ensures { result ≡ count_by (λ byte. byte == 10) cell.now }
{
    cell.iter().filter(|&&byte| byte == b'\n').count() as u64
}

// The line that is so many behind another one.
fn lines_behind(line: u64, n: u64) -> u64
    ensures { result ≡ spec.lines_behind line n }
{
    line.saturating_add(n)
}

// The line in which cells end that begin in a line.
#[tactic(auto, unfolding(crate::specs::Waits::line_behind))]
fn line_behind(line: u64, cells: &[Vec<u8>]) -> u64
    ensures { result ≡ spec.line_behind line (map (λ cell. cell.items) cells.now) }
{
    let mut last = line;
    for cell in cells {
        last = lines_behind(last, feeds_in(cell));
    }
    last
}

// The line in which the last row ends.
#[tactic(auto, unfolding(crate::specs::Waits::last_line))]
fn last_line(rows: &[Row]) -> u64
    ensures { result ≡ spec.last_line 1 (map row_of rows.now) }
{
    let mut last: u64 = 1;
    for row in rows {
        last = line_behind(row.line, &row.cells);
    }
    last
}

// The rows behind the header with waiting rows, if the activities have these labels.
fn waiting_if(
    alloc: Global,
    heads: &[Head],
    ids: usize,
    after: usize,
    labels: &[Label],
    rows: &[Row],
) -> Result<Vec<Row>, AllocError>
    ensures { IfOk result (λ v. map row_of v.items ≡ spec.waiting_if (map head_of heads.now)
        ids after (map label_of labels.now) (map row_of rows.now)) }
{
    if !can_wait(labels) {
        return copy_rows(alloc, rows);
    }
    let linked = linked_rows(alloc, ids, after, labels, rows)?;
    let Linked { rows: kept, waits } = linked;
    with_waiting(alloc, heads, last_line(rows), kept, &waits)
}

// The rows behind the header with waiting rows, if there are ids and predecessors.
fn waiting_at(
    alloc: Global,
    heads: &[Head],
    ids: Option<usize>,
    after: Option<usize>,
    rows: &[Row],
) -> Result<Vec<Row>, AllocError>
    ensures { IfOk result (λ v. map row_of v.items ≡ spec.waiting_at (map head_of heads.now)
        ids after (map row_of rows.now)) }
{
    match (ids, after) {
        (Some(ids), Some(after)) => {
            let labels = labels_of(alloc, ids, place_of(heads, Column::Name), rows)?;
            waiting_if(alloc, heads, ids, after, &labels, rows)
        }
        _ => copy_rows(alloc, rows),
    }
}

// The rows behind the header with waiting rows, under these columns before they are settled.
fn waiting_under(
    alloc: Global,
    overrides: &[Override<'_>],
    heads: &[Head],
    rows: &[Row],
) -> Result<Vec<Row>, AllocError>
    ensures { IfOk result (λ v. map row_of v.items ≡ spec.waiting_by
        (map override_of overrides.now) (map row_of rows.now) (Ok (map head_of heads.now))) }
{
    let settled = settle(alloc, overrides, rows, heads)?;
    let ids = place_of(&settled, Column::Id);
    let after = place_of(&settled, Column::Predecessors);
    waiting_at(alloc, &settled, ids, after, rows)
}

// The rows behind the header with waiting rows.
fn waiting_behind(
    alloc: Global,
    overrides: &[Override<'_>],
    first: &Row,
    rows: &[Row],
) -> Result<Vec<Row>, AllocError>
    ensures { IfOk result (λ v. map row_of v.items ≡ spec.waiting_behind
        (map override_of overrides.now) (row_of first.now) (map row_of rows.now)) }
{
    match read_heads(alloc, first.line, &first.cells) {
        Ok(heads) => waiting_under(alloc, overrides, &heads, rows),
        Err(ReadError::Memory) => Err(AllocError),
        Err(ReadError::Fault(_)) => copy_rows(alloc, rows),
    }
}

/// Returns a list with a waiting row for each wait, at its end. The first row is the header.
pub fn with_waits(
    alloc: Global,
    overrides: &[Override<'_>],
    rows: &[Row],
) -> Result<Vec<Row>, AllocError>
    ensures { IfOk result (λ v. map row_of v.items
        ≡ spec.with_waits (map override_of overrides.now) (map row_of rows.now)) }
{
    match rows {
        [first, rest @ ..] => {
            let all = waiting_behind(alloc, overrides, first, rest)?;
            with_first(alloc, first, all)
        }
        [] => Ok(Vec::new(alloc)),
    }
}
