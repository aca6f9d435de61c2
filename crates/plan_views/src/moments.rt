//! The tables of working days with weekdays and times of day.

ghost use Rattle.std.specs.Prelude.{◌≡◌, ◌+◌, ◌++◌, ◌∷◌, [], ◌<◌, ◌≤◌, EachIndex, IfOk, IsErrOf};
ghost use Rattle.std.specs.Prelude.{IfSome, OnOk, length, map, slice_get, slice_index, string_bytes};
ghost use Rattle.std.specs.List.{range_with_len};
ghost use Rattle.plan_calendar.specs.WorkingDay.{IsBeyond, IsWorkingDay};
ghost use Rattle.plan_gantt.specs.Limits.{latest_start, latest_end};
ghost use Rattle.plan_formats.specs.Cells.{cell_of};
ghost use Rattle.plan_formats.specs.Columns.{column_of};
ghost use Rattle.plan_formats.specs.Tables.{cells_of, rows_of, table_of};
ghost use Rattle.plan_views.specs.Moments as spec;
ghost use Rattle.plan_views.specs.Plans.{count_of, front_columns as front_columns_of, interval_of};
ghost use Rattle.plan_views.specs.Plans.{plan_of};

use crate::headings::right;
use crate::plans::{PlanRef, count, duration_at, front, front_columns};
use crate::rows::push_row;
use jiff::civil::Date;
use plan_calendar::{Calendar, Hours, shown_moment};
use plan_formats::{Cell, Column, Table};
use plan_gantt::DaysFault;
use std::alloc::{AllocError, Global};

/// How the moments of a plan are shown.
#[derive(Clone, Copy, Debug)]
pub struct MomentStyle {
    /// Whether the weekday precedes the date, as in `Mon 2026-11-30`.
    pub weekdays: bool,
    /// The hours of a working day, if a time unit is an hour. Then the time of day follows the date,
    /// as in `2026-11-30 09:00`.
    pub hours: Option<Hours>,
}

/// The moments at which an activity or step begins and ends, as they are shown. Both are empty if
/// its duration is 0.
#[derive(Drop)]
pub struct MomentTexts {
    pub first: String,
    pub last: String,
}

// Returns the working day of a time unit.
fn day_of(style: &MomentStyle, unit: u64) -> u64
    ensures { result ≡ spec.day_of style.now.hours unit }
{
    match style.hours {
        Some(hours) => hours.working_day(unit),
        None => unit,
    }
}

// Returns the date of a working day.
fn date_of(calendar: &Calendar, day: u64) -> Result<Date, DaysFault>
    ensures day { IfOk result (IsWorkingDay calendar.now day) }
    ensures beyond { IsErrOf result DaysFault.BeyondCalendar → IsBeyond calendar.now day }
{
    let Ok(date) = calendar.day(day) else {
        return Err(DaysFault::BeyondCalendar);
    };
    Ok(date)
}

// Returns the minute of the day at which a time unit begins.
fn begin_minute(style: &MomentStyle, unit: u64) -> Option<u32>
    ensures minute { result ≡ spec.begin_minute style.now.hours unit }
    ensures limit { IfSome result (λ m. m ≤ 1440) }
{
    match style.hours {
        Some(hours) => Some(hours.begin(unit)),
        None => None,
    }
}

// Returns the minute of the day at which a time unit ends.
fn end_minute(style: &MomentStyle, unit: u64) -> Option<u32>
    ensures minute { result ≡ spec.end_minute style.now.hours unit }
    ensures limit { IfSome result (λ m. m ≤ 1440) }
{
    match style.hours {
        Some(hours) => Some(hours.end(unit)),
        None => None,
    }
}

// Returns the text of the moment at which a time unit begins.
fn begin_text(
    alloc: Global,
    calendar: &Calendar,
    style: &MomentStyle,
    unit: u64,
) -> Result<String, DaysFault>
    ensures text { IfOk result (λ text.
        spec.IsBeginText calendar.now style.now unit (string_bytes text)) }
    ensures beyond { IsErrOf result DaysFault.BeyondCalendar →
        IsBeyond calendar.now (spec.day_of style.now.hours unit) }
{
    let date = date_of(calendar, day_of(style, unit))?;
    let minute = begin_minute(style, unit);
    let text = shown_moment(alloc, style.weekdays, date, minute)?;
    Ok(text)
}

// Returns the text of the moment at which a time unit ends.
fn end_text(
    alloc: Global,
    calendar: &Calendar,
    style: &MomentStyle,
    unit: u64,
) -> Result<String, DaysFault>
    ensures text { IfOk result (λ text.
        spec.IsEndText calendar.now style.now unit (string_bytes text)) }
    ensures beyond { IsErrOf result DaysFault.BeyondCalendar →
        IsBeyond calendar.now (spec.day_of style.now.hours unit) }
{
    let date = date_of(calendar, day_of(style, unit))?;
    let minute = end_minute(style, unit);
    let text = shown_moment(alloc, style.weekdays, date, minute)?;
    Ok(text)
}

// Returns the moments of so many time units from a start on.
#[tactic(auto, using(crate::proofs::MomentLemmas::both_moments, crate::proofs::MomentLemmas::some_hidden))]
fn moments_of(
    alloc: Global,
    calendar: &Calendar,
    style: &MomentStyle,
    start: u64,
    duration: u64,
) -> Result<MomentTexts, DaysFault>
    requires { start + duration ≤ latest_end }
    ensures moments { IfOk result (λ m.
        spec.AreMoments calendar.now style.now start duration (spec.pair_of m)) }
    ensures beyond { IsErrOf result DaysFault.BeyondCalendar →
        spec.HidesMoment calendar.now style.now start duration }
{
    if duration == 0 {
        return Ok(MomentTexts {
            first: String::new(alloc),
            last: String::new(alloc),
        });
    }
    let first = begin_text(alloc, calendar, style, start)?;
    let last = end_text(alloc, calendar, style, start + (duration - 1))?;
    Ok(MomentTexts { first, last })
}

// Returns the moments of row `k`.
fn row_moments(
    alloc: Global,
    plan: PlanRef<'_>,
    starts: &[u64],
    calendar: &Calendar,
    style: &MomentStyle,
    k: u32,
) -> Result<MomentTexts, DaysFault>
    requires row { k < count_of (plan_of plan) }
    requires starts { length starts.now ≡ count_of (plan_of plan) }
    requires limit { EachIndex starts.now (λ k. slice_index starts.now k ≤ latest_start) }
    ensures moments { IfOk result (λ m. spec.AreMomentsOf calendar.now style.now
        (interval_of (plan_of plan.entry) starts.now k) m) }
    ensures beyond { IsErrOf result DaysFault.BeyondCalendar → spec.HidesMomentOf calendar.now style.now
        (interval_of (plan_of plan.entry) starts.now k) }
{
    let duration = duration_at(plan, k);
    moments_of(alloc, calendar, style, starts[k as usize], duration)
}

// Appends the moments of a row.
fn push_moments(rows: &mut Vec<MomentTexts>, row: MomentTexts) -> Result<(), AllocError>
    ensures { OnOk result (rows.new.items ≡ rows.old.items ++ row ∷ []) }
{
    rows.push(row)?;
    Ok(())
}

/// Returns the moments of the activities of a project, or of the steps of a job shop in flat order.
/// Index `k` of `starts` is activity `k + 1` or flat step `k`. Fails with
/// [`DaysFault::BeyondCalendar`] if one of the days would be after 9999-12-31.
pub fn plan_moments(
    alloc: Global,
    plan: PlanRef<'_>,
    starts: &[u64],
    calendar: &Calendar,
    style: &MomentStyle,
) -> Result<Vec<MomentTexts>, DaysFault>
    requires starts { length starts.now ≡ count_of (plan_of plan) }
    requires limit { EachIndex starts.now (λ k. slice_index starts.now k ≤ latest_start) }
    ensures rows { IfOk result (λ rows. spec.AreAllMoments calendar.now style.now
        (plan_of plan.entry) starts.now rows.items) }
    ensures beyond { IsErrOf result DaysFault.BeyondCalendar →
        spec.HasMomentBeyond calendar.now style.now (plan_of plan.entry) starts.now }
{
    let mut rows = Vec::new(alloc);
    for k in 0..count(plan) {
        let row = row_moments(alloc, plan, starts, calendar, style, k)?;
        push_moments(&mut rows, row)?;
    }
    Ok(rows)
}

// Returns the width of a column.
fn places(style: &MomentStyle) -> usize
    ensures { result ≡ spec.moment_places style.now }
{
    let weekday = if style.weekdays { 4 } else { 0 };
    let clock = match style.hours {
        Some(_) => 6,
        None => 0,
    };
    12 + weekday + clock
}

// Returns the columns.
fn columns(alloc: Global, plan: PlanRef<'_>, style: &MomentStyle) -> Result<Vec<Column>, AllocError>
    ensures { IfOk result (λ columns. map column_of columns.items
        ≡ front_columns_of (plan_of plan.entry) ++ spec.moment_columns style.now) }
{
    let mut columns = front_columns(alloc, plan)?;
    columns.push(right("first", "first_day", places(style)))?;
    columns.push(right("last", "last_day", places(style)))?;
    Ok(columns)
}

// Returns the cell of a text, or an empty one for no text.
fn moment_cell<'a>(text: &'a str) -> Cell<'a>
    ensures { cell_of result ≡ spec.moment_cell text.now }
{
    if text.len() < 1 {
        return Cell::Empty;
    }
    Cell::Text(text.as_bytes())
}

// Returns the first text at an index, or an empty one if there is none.
#[tactic(auto, using(crate::proofs::MomentLemmas::first_there, crate::proofs::MomentLemmas::first_absent))]
fn first_text<'a>(moments: &'a [MomentTexts], k: u32) -> &'a str
    ensures { result.now ≡ spec.first_of (slice_get (map spec.pair_of moments.now) k) }
{
    match moments.get(k as usize) {
        Some(own) => &own.first,
        None => "",
    }
}

// Returns the last text at an index, or an empty one if there is none.
#[tactic(auto, using(crate::proofs::MomentLemmas::last_there, crate::proofs::MomentLemmas::last_absent))]
fn last_text<'a>(moments: &'a [MomentTexts], k: u32) -> &'a str
    ensures { result.now ≡ spec.last_of (slice_get (map spec.pair_of moments.now) k) }
{
    match moments.get(k as usize) {
        Some(own) => &own.last,
        None => "",
    }
}

// Returns row `k`.
fn moment_row<'a>(
    alloc: Global,
    plan: PlanRef<'_>,
    moments: &'a [MomentTexts],
    k: u32,
) -> Result<Vec<Cell<'a>>, AllocError>
    requires { k < count_of (plan_of plan) }
    ensures { IfOk result (λ row. cells_of row.items
        ≡ spec.moment_row (plan_of plan.entry) (map spec.pair_of moments.now) k) }
{
    let first = moment_cell(first_text(moments, k));
    let last = moment_cell(last_text(moments, k));
    let mut row = front(alloc, plan, k)?;
    row.push(first)?;
    row.push(last)?;
    Ok(row)
}

// Returns the rows.
fn moment_rows<'a>(
    alloc: Global,
    plan: PlanRef<'_>,
    moments: &'a [MomentTexts],
) -> Result<Vec<Vec<Cell<'a>>>, AllocError>
    ensures { IfOk result (λ rows. rows_of rows.items
        ≡ map (spec.moment_row (plan_of plan.entry) (map spec.pair_of moments.now))
        (range_with_len 0 (count_of (plan_of plan.entry)))) }
{
    let mut rows = Vec::new(alloc);
    for k in 0..count(plan) {
        let row = moment_row(alloc, plan, moments, k)?;
        push_row(&mut rows, row)?;
    }
    Ok(rows)
}

/// Returns the table of the moments of a plan: a row for each activity of a project, or for each
/// step of a job shop in flat order. A row has the activity's number, or the step's job and number
/// in the job, and the two texts, or empty cells if they are empty.
pub fn moments_view<'a>(
    alloc: Global,
    plan: PlanRef<'_>,
    style: &MomentStyle,
    moments: &'a [MomentTexts],
) -> Result<Table<'a>, AllocError>
    ensures { IfOk result (λ table. table_of table
        ≡ spec.moments_view (plan_of plan.entry) style.now (map spec.pair_of moments.now)) }
{
    let rows = moment_rows(alloc, plan, moments)?;
    Ok(Table {
        above: Vec::new(alloc),
        columns: columns(alloc, plan, style)?,
        rows,
        below: Vec::new(alloc),
    })
}
