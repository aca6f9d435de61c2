//! The table of a plan of a week.

ghost use Rattle.std.specs.Prelude.{◌≡◌, ◌≤◌, ◌<◌, ◌^◌, map, slice_index, IfOk};
ghost use Rattle.plan_formats.specs.Cells.{cell_of};
ghost use Rattle.plan_formats.specs.Columns.{column_of};
ghost use Rattle.plan_formats.specs.TableLines.{line_of};
ghost use Rattle.plan_formats.specs.Tables.{cells_of, rows_of, table_of};
ghost use Rattle.plan_weeks.specs.WeekTables as spec;

use crate::planning::{Lateness, WeekPlan};
use plan_formats::{Cell, Column, Layout, Line, Table};
use plan_week::{State, Week, end_of, state_of, tardiness_of};
use std::alloc::{AllocError, Global};

// Returns the number at a place, 0 if there is none.
fn at(list: &[u32], place: usize) -> u32
    ensures { result ≡ slice_index list.now place }
{
    if place < list.len() { list[place] } else { 0 }
}

// Returns the cell of a start.
fn start_cell<'a>(state: State, start: u32) -> Cell<'a>
    ensures { cell_of result ≡ spec.start_cell state start }
{
    match state {
        State::Open { .. } => Cell::Number(start as u64),
        State::Begun { began, .. } => Cell::Number(began as u64),
        State::Done { .. } => Cell::Empty,
    }
}

// Returns the row of activity `k`.
#[tactic(auto, unfolding(crate::specs::WeekTables::week_row))]
fn row<'a>(
    alloc: Global,
    week: &Week,
    starts: &[u32],
    lateness: Option<Lateness>,
    k: usize,
) -> Result<Vec<Cell<'a>>, AllocError>
    requires { k < 2 ^ 32 }
    ensures { IfOk result (λ cells.
        cells_of cells.items ≡ spec.week_row week.now starts.now lateness k) }
{
    let start = start_cell(state_of(week, k), at(starts, k));
    let mut row = Vec::new(alloc);
    row.push(Cell::Number(k as u64 + 2))?;
    row.push(Cell::Number(at(&week.durations, k) as u64))?;
    row.push(start)?;
    row.push(Cell::Number(end_of(week, starts, k)))?;
    if lateness.is_some() {
        row.push(Cell::Number(tardiness_of(week, starts, k)))?;
    }
    Ok(row)
}

// Returns the rows of all activities.
#[tactic(auto, using(crate::proofs::ViewLemmas::rows_more))]
fn rows<'a>(alloc: Global, week: &Week, plan: &WeekPlan) -> Result<Vec<Vec<Cell<'a>>>, AllocError>
    ensures { IfOk result (λ rows. rows_of rows.items ≡ spec.week_rows week.now plan.now) }
{
    let mut rows = Vec::new(alloc);
    for k in 0..week.durations.len() {
        rows.push(row(alloc, week, &plan.starts, plan.lateness, k)?)?;
    }
    Ok(rows)
}

// Returns a column that is aligned right.
fn right(heading: &'static str, word: &'static str, places: usize) -> Column
    ensures { column_of result ≡ spec.right_column heading.now word.now places }
{
    Column {
        heading,
        word,
        layout: Layout::Right(places),
    }
}

// Returns the columns.
fn columns(alloc: Global, lateness: Option<Lateness>) -> Result<Vec<Column>, AllocError>
    ensures { IfOk result (λ v. map column_of v.items ≡ spec.week_columns lateness) }
{
    let mut columns = Vec::new(alloc);
    columns.push(right("act", "activity", 4))?;
    columns.push(right("d", "duration", 8))?;
    columns.push(right("start", "start", 8))?;
    columns.push(right("end", "end", 8))?;
    if lateness.is_some() {
        columns.push(right("late", "late", 8))?;
    }
    Ok(columns)
}

// Returns the line of a lower bound and a makespan.
fn bound_line(lower: u64, makespan: u64) -> Line
    ensures { line_of result ≡ spec.bound_line lower makespan }
{
    if lower < makespan {
        Line::Between(lower, makespan)
    } else {
        Line::Optimal(makespan)
    }
}

// Returns the lines above the rows.
fn above(alloc: Global, plan: &WeekPlan) -> Result<Vec<Line>, AllocError>
    ensures { IfOk result (λ v. map line_of v.items
        ≡ spec.lines_above plan.now plan.now.lateness) }
{
    let mut lines = Vec::new(alloc);
    if let Some(lateness) = plan.lateness {
        lines.push(Line::Tardiness(lateness.least as u64, lateness.late as u64))?;
    }
    lines.push(bound_line(plan.lower, plan.makespan))?;
    Ok(lines)
}

// Returns how many activities are late.
#[tactic(auto, using(crate::proofs::ViewLemmas::late_more, crate::proofs::ViewLemmas::late_same))]
fn late_count(week: &Week, starts: &[u32]) -> u64
    ensures { result ≡ spec.late_count week.now starts.now }
{
    let mut count: u64 = 0;
    for k in 0..week.durations.len() {
        if tardiness_of(week, starts, k) > 0 {
            count += 1;
        }
    }
    count
}

// Returns the lines below the rows.
fn below(alloc: Global, week: &Week, plan: &WeekPlan) -> Result<Vec<Line>, AllocError>
    ensures { IfOk result (λ v. map line_of v.items
        ≡ spec.lines_below week.now plan.now plan.now.lateness) }
{
    let mut lines = Vec::new(alloc);
    lines.push(Line::Makespan(plan.makespan))?;
    if plan.lateness.is_some() {
        let late = late_count(week, &plan.starts);
        lines.push(Line::Late(late, week.durations.len() as u64))?;
    }
    Ok(lines)
}

/// Returns the table of a plan of a week: a row for each activity with its number (from 2 on), its
/// duration, its start or the instant at which it began, and its end. For the least tardy plan a
/// row also has the tardiness. The start of a done activity is unknown.
#[tactic(auto, unfolding(crate::specs::WeekTables::week_view))]
pub fn week_view<'a>(alloc: Global, week: &Week, plan: &WeekPlan) -> Result<Table<'a>, AllocError>
    ensures { IfOk result (λ table. table_of table ≡ spec.week_view week.now plan.now) }
{
    Ok(Table {
        above: above(alloc, plan)?,
        columns: columns(alloc, plan.lateness)?,
        rows: rows(alloc, week, plan)?,
        below: below(alloc, week, plan)?,
    })
}
