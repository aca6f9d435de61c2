//! The tables of schedules.

ghost use Rattle.std.specs.Prelude.{◌≡◌, ◌≤◌, ◌<◌, map, length, slice_index, EachIndex, IfOk};
ghost use Rattle.plan_gantt.specs.Limits.{latest_start};
ghost use Rattle.plan_formats.specs.Columns.{column_of};
ghost use Rattle.plan_formats.specs.Tables.{cells_of, rows_of, table_of};
ghost use Rattle.plan_formats.specs.TableText.{text_of};
ghost use Rattle.plan_views.specs.Plans.{count_of, plan_of};
ghost use Rattle.plan_views.specs.Rows.{rows_from};
ghost use Rattle.plan_views.specs.ScheduleTables as spec;

use crate::headings::{duration, end, start};
use crate::plans::{PlanRef, count, duration_at, placed_columns, placed_front};
use plan_formats::{Cell, Column, Line, Table};
use std::alloc::{AllocError, Global};

// Returns the columns.
fn columns(alloc: Global, plan: PlanRef<'_>) -> Result<Vec<Column>, AllocError>
    ensures { IfOk result (λ columns.
        map column_of columns.items ≡ spec.schedule_columns (plan_of plan.entry)) }
{
    let mut columns = placed_columns(alloc, plan)?;
    columns.push(duration())?;
    columns.push(start())?;
    columns.push(end())?;
    Ok(columns)
}

// Returns row `k`.
#[tactic(auto, unfolding(crate::specs::ScheduleTables::schedule_row))]
fn row<'a>(
    alloc: Global,
    plan: PlanRef<'_>,
    starts: &[u64],
    k: u32,
) -> Result<Vec<Cell<'a>>, AllocError>
    requires row { k < count_of (plan_of plan) }
    requires starts { length starts.now ≡ count_of (plan_of plan) }
    requires limit { EachIndex starts.now (λ k. slice_index starts.now k ≤ latest_start) }
    ensures { IfOk result (λ cells.
        cells_of cells.items ≡ spec.schedule_row (plan_of plan.entry) starts.now k) }
{
    let duration = duration_at(plan, k);
    let start = starts[k as usize];
    let mut row = placed_front(alloc, plan, k)?;
    row.push(Cell::Number(duration))?;
    row.push(Cell::Number(start))?;
    row.push(Cell::Number(start + duration))?;
    Ok(row)
}

// Returns the rows of all activities or steps.
fn rows<'a>(
    alloc: Global,
    plan: PlanRef<'_>,
    starts: &[u64],
) -> Result<Vec<Vec<Cell<'a>>>, AllocError>
    requires starts { length starts.now ≡ count_of (plan_of plan) }
    requires limit { EachIndex starts.now (λ k. slice_index starts.now k ≤ latest_start) }
    ensures { IfOk result (λ rows. rows_of rows.items ≡ rows_from
        (spec.schedule_row (plan_of plan.entry) starts.now) 0 (count_of (plan_of plan.entry))) }
{
    let mut rows = Vec::new(alloc);
    for k in 0..count(plan) {
        rows.push(row(alloc, plan, starts, k)?)?;
    }
    Ok(rows)
}

/// Returns the table of a schedule: a row for each activity of a project, or for each step of a job
/// shop in flat order, and the makespan below. A row has the activity's number, or the step's job
/// and number in the job (both from 1) and its machine (from 0), then the duration, start and end.
/// Index `k` of `starts` is activity `k + 1` or flat step `k`.
pub fn schedule_view<'a>(
    alloc: Global,
    plan: PlanRef<'_>,
    starts: &[u64],
    makespan: u64,
) -> Result<Table<'a>, AllocError>
    requires starts { length starts.now ≡ count_of (plan_of plan) }
    requires limit { EachIndex starts.now (λ k. slice_index starts.now k ≤ latest_start) }
    ensures value { IfOk result (λ table. table_of table
        ≡ spec.schedule_view_of (plan_of plan.entry) starts.now makespan) }
    ensures text { IfOk result (λ table. text_of (table_of table)
        ≡ spec.schedule_text_of (plan_of plan.entry) starts.now makespan) }
{
    Ok(Table {
        above: Vec::new(alloc),
        columns: columns(alloc, plan)?,
        rows: rows(alloc, plan, starts)?,
        below: Vec::from_array(alloc, [Line::Makespan(makespan)])?,
    })
}
