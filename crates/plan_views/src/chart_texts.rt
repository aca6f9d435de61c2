//! The texts of Gantt charts.

ghost use Rattle.std.specs.Prelude.{◌≡◌, ◌≤◌, ◌+◌, All, map, IfOk, string_bytes};
ghost use Rattle.plan_gantt.specs.Limits.{latest_end};
ghost use Rattle.plan_gantt.specs.Chart.{unit_line};
ghost use Rattle.plan_table.specs.Names.{name_of};
ghost use Rattle.plan_formats.specs.Columns.{column_of};
ghost use Rattle.plan_formats.specs.Tables.{rows_of, cells_of, table_of};
ghost use Rattle.plan_views.specs.Bars.{bar_of, intervals_of, row_of};
ghost use Rattle.plan_views.specs.Charts as spec;

use crate::bars::{Bar, ChartRow};
use crate::chart::{Chart, Owner};
use crate::headings::{line, right};
use crate::rows::row_of;
use plan_formats::{Cell, Column, Table, table_text, with_ids, with_names};
use plan_gantt::{Interval, push_cells, push_unit};
use plan_table::NameLine;
use std::alloc::{AllocError, Global};

// A row of a chart: its number, and its cells as text.
#[derive(Drop)]
struct DrawnRow {
    number: u32,
    line: String,
}

/// Returns the word of an owner.
pub(crate) fn word_of(owner: Owner) -> &'static str
    ensures { result.now ≡ spec.word_of owner }
{
    match owner {
        Owner::Activity => "activity",
        Owner::Machine => "machine",
    }
}

// Returns the intervals of bars.
fn intervals(alloc: Global, bars: &[Bar]) -> Result<Vec<Interval>, AllocError>
    ensures intervals { IfOk result (λ made. made.items ≡ intervals_of (map bar_of bars.now)) }
    ensures ends { IfOk result (λ made. All (λ v. v.start + v.duration ≤ latest_end) made.items) }
{
    let mut made = Vec::new(alloc);
    for bar in bars {
        made.push(Interval {
            start: bar.start,
            duration: bar.end - bar.start,
        })?;
    }
    Ok(made)
}

// Returns the cells of a row between bars, behind a blank.
fn cells_line(alloc: Global, makespan: u64, row: &ChartRow) -> Result<String, AllocError>
    requires { makespan ≤ latest_end }
    ensures { IfOk result (λ line. string_bytes line ≡ spec.cells_line makespan (row_of row.now)) }
{
    let intervals = intervals(alloc, &row.bars)?;
    let mut line = String::new(alloc);
    line.push_str(" |")?;
    push_cells(&mut line, makespan, &intervals)?;
    line.push_str("|")?;
    Ok(line)
}

// Returns the rows with their cells.
fn drawn_rows(alloc: Global, chart: &Chart) -> Result<Vec<DrawnRow>, AllocError>
    ensures { IfOk result (λ rows. map spec.drawn_cells rows.items
        ≡ map (spec.cells_row chart.now.makespan) (map row_of chart.now.rows.items)) }
{
    let mut rows = Vec::new(alloc);
    for row in &chart.rows {
        let number = row.number;
        let line = cells_line(alloc, chart.makespan, row)?;
        rows.push(DrawnRow { number, line })?;
    }
    Ok(rows)
}

// Returns the cells of a row.
fn cells<'a>(alloc: Global, row: &'a DrawnRow) -> Result<Vec<Cell<'a>>, AllocError>
    ensures { IfOk result (λ cells. cells_of cells.items ≡ spec.drawn_cells row.now) }
{
    let line = row.line.as_bytes();
    row_of(alloc, &[Cell::Number(row.number as u64), Cell::Text(line)])
}

// Returns the cells of all rows.
fn rows<'a>(alloc: Global, drawn: &'a [DrawnRow]) -> Result<Vec<Vec<Cell<'a>>>, AllocError>
    ensures { IfOk result (λ rows. rows_of rows.items ≡ map spec.drawn_cells drawn.now) }
{
    let mut rows = Vec::new(alloc);
    for row in drawn {
        rows.push(cells(alloc, row)?)?;
    }
    Ok(rows)
}

// Returns the columns of the lines of a chart.
fn columns(alloc: Global, owner: Owner) -> Result<Vec<Column>, AllocError>
    ensures { IfOk result (λ columns. map column_of columns.items ≡ spec.line_columns owner) }
{
    let word = word_of(owner);
    Ok(Vec::from_array(alloc, [right(word, word, 4), line("cells")])?)
}

// Returns the lines of a chart as a table.
fn lines<'a>(alloc: Global, chart: &Chart, drawn: &'a [DrawnRow]) -> Result<Table<'a>, AllocError>
    requires { map spec.drawn_cells drawn.now
        ≡ map (spec.cells_row chart.now.makespan) (map row_of chart.now.rows.items) }
    ensures { IfOk result (λ table. table_of table ≡ spec.lines_of (spec.chart_of chart.now)) }
{
    Ok(Table {
        above: Vec::new(alloc),
        columns: columns(alloc, chart.owner)?,
        rows: rows(alloc, drawn)?,
        below: Vec::new(alloc),
    })
}

// Returns the first line of a chart.
fn unit(alloc: Global, makespan: u64) -> Result<Vec<u8>, AllocError>
    requires { makespan ≤ latest_end }
    ensures { IfOk result (λ text. text.items ≡ unit_line makespan) }
{
    let mut text = String::new(alloc);
    push_unit(&mut text, makespan)?;
    Ok(text.into_bytes())
}

/// Returns the text of a chart as `chart_text` does, with the ids of the activities in the place of
/// their numbers. Activities without an id have no line. A chart of machines has no ids, and
/// without ids all lines have numbers.
pub fn chart_text_with_ids(
    alloc: Global,
    chart: &Chart,
    ids: &[NameLine<'_>],
    names: &[NameLine<'_>],
) -> Result<Vec<u8>, AllocError>
    ensures { IfOk result (λ text. text.items
        ≡ spec.id_text_of (map name_of ids.now) (map name_of names.now) (spec.chart_of chart.now)) }
{
    let drawn = drawn_rows(alloc, chart)?;
    let table = lines(alloc, chart, &drawn)?;
    let named = with_names(alloc, table, names)?;
    let shown = with_ids(alloc, named, ids)?;
    let mut text = unit(alloc, chart.makespan)?;
    text.extend_from_slice(&table_text(alloc, &shown)?)?;
    Ok(text)
}

/// Returns the text of a chart: the number of instants in a cell, and a line of cells for each row.
/// A cell is `#` if one of its instants is in a bar of the row, else `.`. Behind each row stands
/// the first name of its number, if it has one.
pub fn chart_text(
    alloc: Global,
    chart: &Chart,
    names: &[NameLine<'_>],
) -> Result<Vec<u8>, AllocError>
    ensures { IfOk result (λ text. text.items
        ≡ spec.named_text_of (map name_of names.now) (spec.chart_of chart.now)) }
{
    chart_text_with_ids(alloc, chart, &[], names)
}
