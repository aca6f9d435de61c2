//! The bars of a Gantt chart as a table.

ghost use Rattle.std.specs.Prelude.{◌≡◌, ◌++◌, map, IfOk, OnOk};
ghost use Rattle.plan_formats.specs.Columns.{column_of};
ghost use Rattle.plan_formats.specs.Tables.{cells_of, rows_of, table_of};
ghost use Rattle.plan_views.specs.Bars.{bar_of, row_of, step_of};
ghost use Rattle.plan_views.specs.Charts.{chart_of};
ghost use Rattle.plan_views.specs.ChartData as spec;

use crate::bars::{Bar, ChartRow, StepNumber};
use crate::chart::{Chart, Owner};
use crate::headings::{end, job, right, start, step};
use plan_formats::{Cell, Column, Table};
use std::alloc::{AllocError, Global};

// Returns the columns of the bars of activities.
fn activity_columns(alloc: Global) -> Result<Vec<Column>, AllocError>
    ensures { IfOk result (λ columns.
        map column_of columns.items ≡ spec.bar_columns Owner.Activity) }
{
    Ok(Vec::from_array(alloc, [right("activity", "activity", 4), start(), end()])?)
}

// Returns the columns of the bars of machines.
fn machine_columns(alloc: Global) -> Result<Vec<Column>, AllocError>
    ensures { IfOk result (λ columns.
        map column_of columns.items ≡ spec.bar_columns Owner.Machine) }
{
    let machine = right("machine", "machine", 4);
    Ok(Vec::from_array(alloc, [machine, job(), step(), start(), end()])?)
}

// Returns the columns of the bars of a chart.
fn columns(alloc: Global, owner: Owner) -> Result<Vec<Column>, AllocError>
    ensures { IfOk result (λ columns. map column_of columns.items ≡ spec.bar_columns owner) }
{
    match owner {
        Owner::Activity => activity_columns(alloc),
        Owner::Machine => machine_columns(alloc),
    }
}

// Appends the numbers of a step, if there is one.
fn push_step(cells: &mut Vec<Cell<'_>>, step: Option<StepNumber>) -> Result<(), AllocError>
    ensures { OnOk result (cells_of cells.new.items
        ≡ cells_of cells.old.items ++ spec.step_cells (step_of step)) }
{
    if let Some(numbers) = step {
        cells.push(Cell::Number(numbers.job as u64))?;
        cells.push(Cell::Number(numbers.step as u64))?;
    }
    Ok(())
}

// Returns the cells of a bar in the row with a number.
fn bar_cells<'a>(alloc: Global, number: u32, bar: &Bar) -> Result<Vec<Cell<'a>>, AllocError>
    ensures { IfOk result (λ cells.
        cells_of cells.items ≡ spec.bar_cells number (bar_of bar.now)) }
{
    let mut cells = Vec::new(alloc);
    cells.push(Cell::Number(number as u64))?;
    push_step(&mut cells, bar.step)?;
    cells.push(Cell::Number(bar.start))?;
    cells.push(Cell::Number(bar.end))?;
    Ok(cells)
}

// Appends the cells of the bars of a row.
fn push_bars(alloc: Global, rows: &mut Vec<Vec<Cell<'_>>>, row: &ChartRow) -> Result<(), AllocError>
    ensures { OnOk result (rows_of rows.new.items
        ≡ rows_of rows.old.items ++ spec.row_bars (row_of row.now)) }
{
    for bar in &row.bars {
        rows.push(bar_cells(alloc, row.number, bar)?)?;
    }
    Ok(())
}

// Returns the cells of the bars of rows.
fn bars<'a>(alloc: Global, rows: &[ChartRow]) -> Result<Vec<Vec<Cell<'a>>>, AllocError>
    ensures { IfOk result (λ bars. rows_of bars.items ≡ spec.rows_bars (map row_of rows.now)) }
{
    let mut bars = Vec::new(alloc);
    for row in rows {
        push_bars(alloc, &mut bars, row)?;
    }
    Ok(bars)
}

/// Returns the bars of a chart as a table: a row for each bar with the number of its activity or
/// machine, the job and the step of a step, its first instant and the instant after its last one.
pub fn chart_bars<'a>(alloc: Global, chart: &Chart) -> Result<Table<'a>, AllocError>
    ensures { IfOk result (λ table. table_of table ≡ spec.bars_of (chart_of chart.now)) }
{
    Ok(Table {
        above: Vec::new(alloc),
        columns: columns(alloc, chart.owner)?,
        rows: bars(alloc, &chart.rows)?,
        below: Vec::new(alloc),
    })
}
