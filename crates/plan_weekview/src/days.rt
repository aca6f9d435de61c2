//! The table of the working days of a plan of a week.

ghost use Rattle.std.specs.Prelude.{◌≡◌, IfOk, IsErrOf, map};
ghost use Rattle.plan_formats.specs.Columns.{column_of};
ghost use Rattle.plan_formats.specs.Tables.{table_of};
ghost use Rattle.plan_weeks.specs.WeekTables.{right_column};
ghost use Rattle.plan_weekview.specs.WeekDays as spec;

use crate::rows::rows;
use plan_calendar::Calendar;
use plan_formats::{Column, Layout, Table};
use plan_gantt::DaysFault;
use plan_week::Week;
use plan_weeks::{Lateness, WeekPlan};
use std::alloc::{AllocError, Global};

// Returns a column that is aligned right.
fn right(heading: &'static str, word: &'static str, places: usize) -> Column
    ensures { column_of result ≡ right_column heading.now word.now places }
{
    Column {
        heading,
        word,
        layout: Layout::Right(places),
    }
}

// Returns the columns.
fn columns(alloc: Global, lateness: Option<Lateness>) -> Result<Vec<Column>, AllocError>
    ensures { IfOk result (λ v. map column_of v.items ≡ spec.week_day_columns lateness) }
{
    let mut columns = Vec::new(alloc);
    columns.push(right("act", "activity", 4))?;
    columns.push(right("first", "first_day", 12))?;
    columns.push(right("last", "last_day", 12))?;
    if lateness.is_some() {
        columns.push(right("late", "late", 8))?;
    }
    Ok(columns)
}

/// Returns the table of the working days of a plan: a row for each activity with its number (from 2
/// on) and the days of its first and last instants. They are empty if it takes no time. For the
/// least tardy plan a row also has how late the activity is, in instants. For a done activity only
/// the last day is known. Fails with [`DaysFault::BeyondCalendar`] if a day would be after
/// 9999-12-31.
pub fn week_days<'a>(
    alloc: Global,
    week: &Week,
    plan: &WeekPlan,
    calendar: &Calendar,
) -> Result<Table<'a>, DaysFault>
    ensures days { IfOk result (λ table.
        spec.AreWeekDays calendar.now week.now plan.now (table_of table)) }
    ensures beyond { IsErrOf result DaysFault.BeyondCalendar →
        spec.HasWeekDayBeyond calendar.now week.now plan.now }
{
    let rows = rows(alloc, week, plan, calendar)?;
    Ok(Table {
        above: Vec::new(alloc),
        columns: columns(alloc, plan.lateness)?,
        rows,
        below: Vec::new(alloc),
    })
}
