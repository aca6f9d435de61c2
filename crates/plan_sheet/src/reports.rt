//! The reports of projects and job shops.

ghost use Rattle.std.specs.Prelude.{◌≡◌, ◌≤◌, [], length, map, slice_index, EachIndex};
ghost use Rattle.std.specs.Prelude.{IfOk, IsErrOf, string_bytes};
ghost use Rattle.plan_gantt.specs.Limits.{latest_start};
ghost use Rattle.plan_table.specs.Names.{name_of};
ghost use Rattle.plan_sheet.specs.Chart.{chart_of};
ghost use Rattle.plan_sheet.specs.Escape.{markup_of};
ghost use Rattle.plan_sheet.specs.Bars.{greatest_end};
ghost use Rattle.plan_sheet.specs.Layouts.{bars_of, count_of, layout_of, lines_of, shown_bars};
ghost use Rattle.plan_sheet.specs.Names.{bare, names_of};
ghost use Rattle.plan_sheet.specs.Reports as spec;

use crate::axis::axis_to;
use crate::bars::{Bar, last_end};
use crate::chart::Chart;
use crate::days::working_days;
use crate::layouts::{
    Layout, bar_ids, bar_names, bars_of, has_machines, lines_of, machine_names, row_names,
    shown_bars,
};
use crate::moments::{day_count, per_day_of};
use crate::names::{SheetNames, has_ids};
use crate::page::{Heading, page};
use crate::table::Table;
use crate::usage::use_section;
use jiff::civil::Date;
use plan_calendar::{Calendar, Hours};
use plan_gantt::DaysFault;
use plan_table::NameLine;
use std::alloc::{AllocError, Global};

/// The floats and the slacks of activities: index `k` is activity `k + 1`. An empty list leaves out
/// its column.
#[derive(Clone, Copy, Drop)]
pub struct Margins<'a> {
    pub floats: &'a [u64],
    pub slacks: &'a [u64],
}

/// How the days of a schedule are shown. [`DayStyle::plain`] is a date for each time unit.
#[derive(Clone, Copy, Debug, PartialEq, Eq)]
pub struct DayStyle {
    /// Whether the weekday precedes the date, as in `Mon 2026-11-30`.
    pub weekdays: bool,
    /// The hours of a working day, if a time unit is an hour. Then the time of day follows the date,
    /// as in `2026-11-30 09:00`. `None`: a time unit is a working day.
    pub hours: Option<Hours>,
}

impl DayStyle {
    /// Returns the style of a date for each time unit.
    pub fn plain() -> DayStyle
        ensures { result ≡ spec.plain_style }
    {
        DayStyle {
            weekdays: false,
            hours: None,
        }
    }
}

// The calendar of a report, and how its days are shown.
#[derive(Clone, Copy)]
pub struct Calendared<'a> {
    pub dated: bool,
    pub style: &'a DayStyle,
    pub days: &'a [Date],
}

// The contents of a chart: its bars, the numbers of its lines, and the makespan.
#[derive(Drop)]
struct Drawn {
    bars: Vec<Bar>,
    lines: Vec<u32>,
    makespan: u32,
}

// Returns what the chart of a schedule shows.
fn draw(
    alloc: Global,
    layout: Layout<'_>,
    names: &SheetNames<'_>,
    starts: &[u64],
) -> Result<Drawn, AllocError>
    requires starts { length starts.now ≡ count_of (layout_of layout) }
    requires limit { EachIndex starts.now (λ k. slice_index starts.now k ≤ latest_start) }
    ensures bars { IfOk result (λ drawn. drawn.bars.items ≡ shown_bars (layout_of layout.entry)
        (names_of names.now).ids (bars_of (layout_of layout.entry) starts.now)) }
    ensures lines { IfOk result (λ drawn. drawn.lines.items
        ≡ lines_of (layout_of layout.entry) (names_of names.now).ids) }
    ensures makespan { IfOk result (λ drawn. drawn.makespan
        ≡ greatest_end (bars_of (layout_of layout.entry) starts.now)) }
{
    let all = bars_of(alloc, layout, starts)?;
    let bars = shown_bars(alloc, layout, names.ids, &all)?;
    let lines = lines_of(alloc, layout, names)?;
    let makespan = last_end(&all);
    Ok(Drawn {
        bars,
        lines,
        makespan,
    })
}

// Returns the section of a project's resources, with these names; a job shop has none.
fn section_of(
    alloc: Global,
    layout: Layout<'_>,
    chart: &Chart<'_>,
    legend: &[NameLine<'_>],
    starts: &[u64],
    makespan: u32,
) -> Result<String, AllocError>
    requires starts { length starts.now ≡ count_of (layout_of layout) }
    requires limit { EachIndex starts.now (λ k. slice_index starts.now k ≤ latest_start) }
    ensures { IfOk result (λ text. string_bytes text ≡ spec.section_of (layout_of layout.entry)
        (chart_of chart.now) (map name_of legend.now) starts.now makespan) }
{
    match layout {
        Layout::Activities(instance) => {
            use_section(alloc, chart, legend, instance, starts, makespan)
        }
        Layout::Steps { .. } => Ok(String::new(alloc)),
    }
}

// Returns the report of a schedule on its days.
#[tactic(auto, unfolding(crate::specs::Reports::layout_page))]
fn layout_page(
    alloc: Global,
    heading: Heading<'_>,
    names: &SheetNames<'_>,
    layout: Layout<'_>,
    starts: &[u64],
    margins: &Margins<'_>,
    on: Calendared<'_>,
) -> Result<String, AllocError>
    requires starts { length starts.now ≡ count_of (layout_of layout) }
    requires limit { EachIndex starts.now (λ k. slice_index starts.now k ≤ latest_start) }
    ensures text { IfOk result (λ text. string_bytes text
        ≡ spec.layout_page heading.entry.title.now heading.entry.lower (names_of names.now)
        (layout_of layout.entry) starts.now (spec.calendared_of on.entry)
        (spec.margins_of margins.now)) }
{
    let drawn = draw(alloc, layout, names, starts)?;
    let chart = Chart {
        span: axis_to(on.days, day_count(on.style.hours, drawn.makespan) as u32),
        days: on.days,
        per_day: per_day_of(on.style.hours),
        lines: &drawn.lines,
        ids: bar_ids(layout, names),
        rows: row_names(layout, names),
        names: bar_names(layout, names),
        bars: &drawn.bars,
        slacks: margins.slacks,
    };
    let makespan = drawn.makespan;
    let section = section_of(alloc, layout, &chart, names.legend, starts, makespan)?;
    let table = Table {
        chart: &chart,
        dated: on.dated,
        style: on.style,
        listed: has_ids(bar_ids(layout, names)),
        shop: has_machines(layout),
        machines: machine_names(layout, names),
        floats: margins.floats,
        resources: names.resources,
        predecessors: names.predecessors,
    };
    page(alloc, heading, makespan, &table, &section)
}

/// Returns the report of a schedule without a calendar, as one HTML page with a title: its Gantt
/// chart, the use of a project's resources, and a table of its activities or steps. Times are whole
/// time units. If there are ids, activities without an id are left out, and the table has columns
/// for resources and predecessors. The only error is out of memory.
pub fn report(
    alloc: Global,
    heading: Heading<'_>,
    names: &SheetNames<'_>,
    layout: Layout<'_>,
    starts: &[u64],
    margins: &Margins<'_>,
) -> Result<String, AllocError>
    requires starts { length starts.now ≡ count_of (layout_of layout) }
    requires limit { EachIndex starts.now (λ k. slice_index starts.now k ≤ latest_start) }
    ensures text { IfOk result (λ text. string_bytes text
        ≡ spec.layout_page heading.entry.title.now heading.entry.lower (names_of names.now)
        (layout_of layout.entry) starts.now spec.undated (spec.margins_of margins.now)) }
    // Its markup is the same whatever the title, the names and the texts of ids and columns are.
    ensures safe { IfOk result (λ text. markup_of (string_bytes text)
        ≡ markup_of (spec.layout_page [] heading.entry.lower (bare (names_of names.now))
        (layout_of layout.entry) starts.now spec.undated (spec.margins_of margins.now))) }
{
    let style = DayStyle::plain();
    let on = Calendared {
        dated: false,
        style: &style,
        days: &[],
    };
    let text = layout_page(alloc, heading, names, layout, starts, margins, on)?;
    Ok(text)
}

// Returns the working days of a schedule by a calendar.
fn schedule_days(
    alloc: Global,
    style: &DayStyle,
    layout: Layout<'_>,
    starts: &[u64],
    calendar: &Calendar,
) -> Result<Vec<Date>, DaysFault>
    requires starts { length starts.now ≡ count_of (layout_of layout) }
    requires limit { EachIndex starts.now (λ k. slice_index starts.now k ≤ latest_start) }
    ensures days { IfOk result (λ days. spec.AreReportDays style.now.hours
        (layout_of layout.entry) starts.now calendar.now days.items) }
    ensures beyond { IsErrOf result DaysFault.BeyondCalendar →
        spec.IsReportBeyond style.now.hours (layout_of layout.entry) starts.now calendar.now }
{
    let bars = bars_of(alloc, layout, starts)?;
    working_days(alloc, calendar, day_count(style.hours, last_end(&bars)))
}

/// Returns the report of a schedule by a calendar, as [`report`] does without one: the axis is one
/// of calendar days, and the table has the first and the last day of each activity or step that
/// takes time. With ids, floats and slacks are in days.
///
/// Fails with [`DaysFault::BeyondCalendar`] if the day of an instant before the greatest end would
/// be after 9999-12-31.
pub fn dated_report(
    alloc: Global,
    heading: Heading<'_>,
    names: &SheetNames<'_>,
    layout: Layout<'_>,
    starts: &[u64],
    margins: &Margins<'_>,
    style: &DayStyle,
    calendar: &Calendar,
) -> Result<String, DaysFault>
    requires starts { length starts.now ≡ count_of (layout_of layout) }
    requires limit { EachIndex starts.now (λ k. slice_index starts.now k ≤ latest_start) }
    ensures text { IfOk result (λ text.
        spec.IsDatedReport heading.entry.title.now heading.entry.lower (names_of names.now)
        (layout_of layout.entry) starts.now (spec.margins_of margins.now) style.now calendar.now
        (string_bytes text)) }
    // Its markup is that of such a report without a title and without names.
    ensures safe { IfOk result (λ text. spec.HasMarkupOf (string_bytes text)
        (spec.IsDatedReport [] heading.entry.lower (bare (names_of names.now))
        (layout_of layout.entry) starts.now (spec.margins_of margins.now) style.now calendar.now)) }
    ensures beyond { IsErrOf result DaysFault.BeyondCalendar →
        spec.IsReportBeyond style.now.hours (layout_of layout.entry) starts.now calendar.now }
{
    let days = schedule_days(alloc, style, layout, starts, calendar)?;
    let on = Calendared {
        dated: true,
        style,
        days: &days,
    };
    let text = layout_page(alloc, heading, names, layout, starts, margins, on)?;
    Ok(text)
}
