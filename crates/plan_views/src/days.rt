//! The tables of working days.

ghost use Rattle.std.specs.Prelude.{◌≡◌, ◌+◌, ◌≤◌, ◌<◌, ◌++◌, ◌∷◌, [], map, length};
ghost use Rattle.std.specs.Prelude.{slice_index};
ghost use Rattle.std.specs.Prelude.{EachIndex, IfOk, IfSome, IfNone, IsErrOf};
ghost use Rattle.plan_calendar.specs.WorkingDay.{IsBeyond};
ghost use Rattle.plan_gantt.specs.Limits.{latest_start, latest_end};
ghost use Rattle.plan_gantt.specs.CalendarTable as texts;
ghost use Rattle.plan_formats.specs.Cells.{cell_of};
ghost use Rattle.plan_formats.specs.Columns.{column_of};
ghost use Rattle.plan_formats.specs.Tables.{cells_of, rows_of, table_of};
ghost use Rattle.plan_formats.specs.TableText.{text_of};
ghost use Rattle.plan_views.specs.DayTables as spec;
ghost use Rattle.plan_views.specs.Plans.{count_of, front_of, interval_of, plan_of};

use crate::headings::right;
use crate::plans::{PlanRef, count, duration_at, front, front_columns};
use crate::rows::push_row;
use plan_calendar::Calendar;
use plan_formats::{Cell, Column, Table, day_cell};
use plan_gantt::DaysFault;
use std::alloc::{AllocError, Global};

// Returns the cell of the day of an instant, or `None` if the day would be after 9999-12-31.
fn day<'a>(calendar: &Calendar, t: u64) -> Option<Cell<'a>>
    ensures some { IfSome result (λ cell. spec.IsDayCell calendar.now t (cell_of cell)) }
    ensures none { IfNone result (IsBeyond calendar.now t) }
{
    match calendar.day(t) {
        Ok(date) => Some(day_cell(date)),
        Err(_) => None,
    }
}

// Returns the cells of the days of the first and the last instant of an interval, or `None` if one
// of the days would be after 9999-12-31.
#[tactic(auto, using(crate::proofs::DayLemmas::both_days, crate::proofs::DayLemmas::some_beyond))]
fn days<'a>(calendar: &Calendar, start: u64, duration: u64) -> Option<(Cell<'a>, Cell<'a>)>
    requires { start + duration ≤ latest_end }
    ensures some { IfSome result (λ days. spec.AreDayCells calendar.now start duration
        (cell_of days.0) (cell_of days.1)) }
    ensures none { IfNone result (texts.ShowsBeyond calendar.now start duration) }
{
    if duration == 0 {
        return Some((Cell::Empty, Cell::Empty));
    }
    let first = day(calendar, start)?;
    let last = day(calendar, start + (duration - 1))?;
    Some((first, last))
}

// Returns a row with the cells of two days behind its front.
fn extended<'a>(
    front: Vec<Cell<'a>>,
    first: Cell<'a>,
    last: Cell<'a>,
) -> Result<Vec<Cell<'a>>, AllocError>
    ensures { IfOk result (λ row. cells_of row.items
        ≡ cells_of front.entry.items ++ cell_of first.entry ∷ cell_of last.entry ∷ []) }
{
    let mut row = front;
    row.push(first)?;
    row.push(last)?;
    Ok(row)
}

// Returns row `k`.
fn row<'a>(
    alloc: Global,
    plan: PlanRef<'_>,
    starts: &[u64],
    calendar: &Calendar,
    k: u32,
) -> Result<Vec<Cell<'a>>, DaysFault>
    requires row { k < count_of (plan_of plan) }
    requires starts { length starts.now ≡ count_of (plan_of plan) }
    requires limit { EachIndex starts.now (λ k. slice_index starts.now k ≤ latest_start) }
    ensures row { IfOk result (λ cells. spec.IsDaysRow calendar.now
        (front_of (plan_of plan.entry) k) (interval_of (plan_of plan.entry) starts.now k)
        (cells_of cells.items)) }
    ensures beyond { IsErrOf result DaysFault.BeyondCalendar →
        texts.HasDayBeyond calendar.now (interval_of (plan_of plan.entry) starts.now k) }
{
    let Some((first, last)) = days(calendar, starts[k as usize], duration_at(plan, k)) else {
        return Err(DaysFault::BeyondCalendar);
    };
    let front = front(alloc, plan, k)?;
    let row = extended(front, first, last)?;
    Ok(row)
}

// Returns the rows of all activities or steps.
fn rows<'a>(
    alloc: Global,
    plan: PlanRef<'_>,
    starts: &[u64],
    calendar: &Calendar,
) -> Result<Vec<Vec<Cell<'a>>>, DaysFault>
    requires starts { length starts.now ≡ count_of (plan_of plan) }
    requires limit { EachIndex starts.now (λ k. slice_index starts.now k ≤ latest_start) }
    ensures rows { IfOk result (λ rows. spec.AreDaysRows calendar.now
        (front_of (plan_of plan.entry)) (interval_of (plan_of plan.entry) starts.now)
        (count_of (plan_of plan.entry)) (rows_of rows.items)) }
    ensures beyond { IsErrOf result DaysFault.BeyondCalendar →
        spec.HasRowBeyond calendar.now (plan_of plan.entry) starts.now }
{
    let mut rows = Vec::new(alloc);
    for k in 0..count(plan) {
        let row = row(alloc, plan, starts, calendar, k)?;
        push_row(&mut rows, row)?;
    }
    Ok(rows)
}

// Returns the columns.
fn columns(alloc: Global, plan: PlanRef<'_>) -> Result<Vec<Column>, AllocError>
    ensures { IfOk result (λ columns.
        map column_of columns.items ≡ spec.days_columns (plan_of plan.entry)) }
{
    let mut columns = front_columns(alloc, plan)?;
    columns.push(right("first", "first_day", 12))?;
    columns.push(right("last", "last_day", 12))?;
    Ok(columns)
}

// Returns a table of these columns and rows.
fn plain_table<'a>(alloc: Global, columns: Vec<Column>, rows: Vec<Vec<Cell<'a>>>) -> Table<'a>
    ensures { table_of result
        ≡ spec.plain_view_of (map column_of columns.items) (rows_of rows.entry.items) }
{
    Table {
        above: Vec::new(alloc),
        columns,
        rows,
        below: Vec::new(alloc),
    }
}

/// Returns the table of working days of a schedule: a row for each activity of a project, or for
/// each step of a job shop in flat order. A row has the activity's number, or the step's job and
/// number in the job, and the days of the first and last instants, or empty cells if the duration
/// is 0. Index `k` of `starts` is activity `k + 1` or flat step `k`. Fails with
/// [`DaysFault::BeyondCalendar`] if one of these days would be after 9999-12-31.
#[tactic(auto, using(crate::proofs::DayLemmas::days_beyond))]
pub fn days_view<'a>(
    alloc: Global,
    plan: PlanRef<'_>,
    starts: &[u64],
    calendar: &Calendar,
) -> Result<Table<'a>, DaysFault>
    requires starts { length starts.now ≡ count_of (plan_of plan) }
    requires limit { EachIndex starts.now (λ k. slice_index starts.now k ≤ latest_start) }
    ensures value { IfOk result (λ table.
        spec.IsDaysView calendar.now (plan_of plan.entry) starts.now (table_of table)) }
    ensures text { IfOk result (λ table. spec.IsDaysTable calendar.now (plan_of plan.entry)
        starts.now (text_of (table_of table))) }
    ensures beyond { IsErrOf result DaysFault.BeyondCalendar →
        spec.HasDayBeyond calendar.now (plan_of plan.entry) starts.now }
{
    let rows = rows(alloc, plan, starts, calendar)?;
    Ok(plain_table(alloc, columns(alloc, plan)?, rows))
}
