//! The rows of the table of a plan's working days.

ghost use Rattle.std.specs.Prelude.{◌≡◌, ◌++◌, ◌∷◌, [], ◌<◌, ◌^◌, IfOk, IsErrOf, OnOk};
ghost use Rattle.std.specs.Prelude.{length, slice_index};
ghost use Rattle.plan_formats.specs.Cells.{cell_of};
ghost use Rattle.plan_formats.specs.Tables.{cells_of, rows_of};
ghost use Rattle.plan_weekview.specs.WeekDays as spec;

use crate::cells::{begin_of, first_day, last_day};
use plan_calendar::Calendar;
use plan_formats::Cell;
use plan_gantt::DaysFault;
use plan_week::{Week, end_of, state_of, tardiness_of};
use plan_weeks::WeekPlan;
use std::alloc::{AllocError, Global};

// Returns the number at a place, 0 if there is none.
fn at(list: &[u32], place: usize) -> u32
    ensures { result ≡ slice_index list.now place }
{
    if place < list.len() { list[place] } else { 0 }
}

// Returns the cells of a row; a number of instants if the activity can be late.
fn cells<'a>(
    alloc: Global,
    number: u64,
    first: Cell<'a>,
    last: Cell<'a>,
    late: Option<u64>,
) -> Result<Vec<Cell<'a>>, AllocError>
    ensures { IfOk result (λ row. cells_of row.items
        ≡ spec.row_cells number (cell_of first.entry) (cell_of last.entry) late) }
{
    let mut row = Vec::new(alloc);
    row.push(Cell::Number(number))?;
    row.push(first)?;
    row.push(last)?;
    if let Some(late) = late {
        row.push(Cell::Number(late))?;
    }
    Ok(row)
}

// Returns how late activity `k` is, in a plan of the least tardy.
fn late_in(week: &Week, plan: &WeekPlan, k: usize) -> Option<u64>
    ensures { result ≡ spec.late_in week.now plan.now.starts.items k plan.now.lateness }
{
    match plan.lateness {
        Some(_) => Some(tardiness_of(week, &plan.starts, k)),
        None => None,
    }
}

// Returns the row of activity `k`.
fn row<'a>(
    alloc: Global,
    week: &Week,
    plan: &WeekPlan,
    calendar: &Calendar,
    k: usize,
) -> Result<Vec<Cell<'a>>, DaysFault>
    requires { k < 2 ^ 32 }
    ensures row { IfOk result (λ cells.
        spec.IsDayRow calendar.now week.now plan.now k (cells_of cells.items)) }
    ensures beyond { IsErrOf result DaysFault.BeyondCalendar →
        spec.IsRowBeyond calendar.now week.now plan.now k }
{
    let begin = begin_of(state_of(week, k), at(&plan.starts, k));
    let ends = end_of(week, &plan.starts, k);
    let first = first_day(calendar, begin, ends)?;
    let last = last_day(calendar, begin, ends)?;
    let row = cells(alloc, k as u64 + 2, first, last, late_in(week, plan, k))?;
    Ok(row)
}

// Appends a row.
fn push_row<'a>(rows: &mut Vec<Vec<Cell<'a>>>, row: Vec<Cell<'a>>) -> Result<(), AllocError>
    ensures { OnOk result (rows.new.items ≡ rows.old.items ++ row.entry ∷ []) }
{
    rows.push(row)?;
    Ok(())
}

/// Returns the rows of all activities.
pub(crate) fn rows<'a>(
    alloc: Global,
    week: &Week,
    plan: &WeekPlan,
    calendar: &Calendar,
) -> Result<Vec<Vec<Cell<'a>>>, DaysFault>
    ensures rows { IfOk result (λ rows. spec.AreDayRows calendar.now week.now plan.now
        (length week.now.durations.items) (rows_of rows.items)) }
    ensures beyond { IsErrOf result DaysFault.BeyondCalendar →
        spec.HasWeekDayBeyond calendar.now week.now plan.now }
{
    let mut rows = Vec::new(alloc);
    for k in 0..week.durations.len() {
        let row = row(alloc, week, plan, calendar, k)?;
        push_row(&mut rows, row)?;
    }
    Ok(rows)
}
