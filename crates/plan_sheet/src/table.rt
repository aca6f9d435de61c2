//! The table of a report.

ghost use Rattle.std.specs.Prelude.{◌≡◌, ◌++◌, IfOk, OnOk, map, string_bytes};
ghost use Rattle.plan_table.specs.Names.{name_of};
ghost use Rattle.plan_sheet.specs.Escape as escape;
ghost use Rattle.plan_sheet.specs.Names as named;
ghost use Rattle.plan_sheet.specs.Table as spec;

use crate::axis::units_of;
use crate::bars::Bar;
use crate::chart::Chart;
use crate::escape::escaped;
use crate::moments::{begin_text, end_text};
use crate::names::{id_text, name_text, shown_label};
use crate::reports::DayStyle;
use crate::styles::{
    DAY_HEADS, FIRST_HEADS, FLOAT_HEAD, HEADS_TO, ID_HEADS, LINK_HEADS, MACHINE_HEAD, NAME_CELL,
    ROW_NAME, ROW_NUMBER, SLACK_HEAD, TABLE_FROM, TABLE_TO, TIME_HEADS,
};
use jiff::civil::Date;
use plan_table::NameLine;
use std::alloc::{AllocError, Global};
use std::fmt::Write;

/// The contents of a table.
#[derive(Drop)]
pub struct Table<'a> {
    pub chart: &'a Chart<'a>,
    /// Whether it has columns for the first and the last day.
    pub dated: bool,
    /// How these days are shown.
    pub style: &'a DayStyle,
    /// Whether it is that of a list, with ids, resources and predecessors. On a calendar its floats
    /// and slacks are in days.
    pub listed: bool,
    /// Whether it has a column for the machines of steps.
    pub shop: bool,
    /// The names of machines.
    pub machines: &'a [NameLine<'a>],
    /// The floats of activities, from activity 1 on; empty without a column for them.
    pub floats: &'a [u64],
    /// The resources of activities.
    pub resources: &'a [NameLine<'a>],
    /// The predecessors of activities.
    pub predecessors: &'a [NameLine<'a>],
}

/// Appends a text, if a list that it stands for has an element.
pub(crate) fn push_if(text: &mut String, count: usize, part: &str) -> Result<(), AllocError>
    ensures { OnOk result
        (string_bytes text.new ≡ string_bytes text.old ++ spec.text_if count part.now) }
{
    if count < 1 {
        return Ok(());
    }
    text.push_str(part)
}

// Appends a text, if it is wanted.
fn push_for(text: &mut String, wanted: bool, part: &str) -> Result<(), AllocError>
    ensures { OnOk result
        (string_bytes text.new ≡ string_bytes text.old ++ spec.text_for wanted part.now) }
{
    if wanted { text.push_str(part) } else { Ok(()) }
}

// Appends the heads of the columns behind the times.
#[tactic(auto, unfolding(crate::specs::Table::last_heads))]
fn push_last_heads(text: &mut String, table: &Table<'_>) -> Result<(), AllocError>
    ensures { OnOk result (string_bytes text.new
        ≡ string_bytes text.old ++ spec.last_heads (spec.table_of table.now)) }
{
    push_for(text, table.dated, DAY_HEADS)?;
    push_if(text, table.floats.len(), FLOAT_HEAD)?;
    push_if(text, table.chart.slacks.len(), SLACK_HEAD)?;
    push_for(text, table.listed, LINK_HEADS)
}

// Returns the heads of the first columns.
fn first_heads(listed: bool) -> &'static str
    ensures { result.now ≡ spec.first_heads listed }
{
    if listed { ID_HEADS } else { FIRST_HEADS }
}

// Appends the first row.
#[tactic(auto, unfolding(crate::specs::Table::heads))]
fn push_heads(text: &mut String, table: &Table<'_>) -> Result<(), AllocError>
    ensures { OnOk result (string_bytes text.new
        ≡ string_bytes text.old ++ spec.heads (spec.table_of table.now)) }
{
    text.push_str(first_heads(table.listed))?;
    push_for(text, table.shop, MACHINE_HEAD)?;
    text.push_str(TIME_HEADS)?;
    push_last_heads(text, table)?;
    text.push_str(HEADS_TO)
}

// Appends the number of a step behind a dot, or nothing for an activity.
fn push_step_dot(text: &mut String, step: u32) -> Result<(), AllocError>
    ensures { OnOk result (string_bytes text.new ≡ string_bytes text.old ++ spec.step_dot step) }
{
    if step < 1 {
        return Ok(());
    }
    write!(text, ".{step}")
}

// Returns the id or the number of an activity, or the numbers of a job and a step.
#[tactic(auto, unfolding(crate::specs::Table::number_text))]
fn number_text(alloc: Global, ids: &[NameLine<'_>], bar: Bar) -> Result<String, AllocError>
    ensures { IfOk result (λ text.
        string_bytes text ≡ spec.number_text (map name_of ids.now) bar) }
{
    let mut text = id_text(alloc, ids, bar.number)?;
    push_step_dot(&mut text, bar.step)?;
    Ok(text)
}

// Returns the same, escaped.
fn shown_number(alloc: Global, ids: &[NameLine<'_>], bar: Bar) -> Result<String, AllocError>
    ensures { IfOk result (λ text. string_bytes text
        ≡ escape.escaped (spec.number_text (map name_of ids.now) bar)) }
{
    let number = number_text(alloc, ids, bar)?;
    escaped(alloc, &number)
}

// Returns the name of a number, escaped.
fn shown_name(alloc: Global, names: &[NameLine<'_>], n: u32) -> Result<String, AllocError>
    ensures { IfOk result (λ text. string_bytes text
        ≡ escape.escaped (named.name_text (map name_of names.now) n)) }
{
    let name = name_text(alloc, names, n)?;
    escaped(alloc, &name)
}

// Appends a number and a name, which are escaped.
#[tactic(auto, unfolding(crate::specs::Table::first_cells))]
fn push_first_cells(text: &mut String, number: &str, name: &str) -> Result<(), AllocError>
    ensures { OnOk result
        (string_bytes text.new ≡ string_bytes text.old ++ spec.first_cells number.now name.now) }
{
    text.push_str(ROW_NUMBER)?;
    text.push_str(number)?;
    text.push_str(ROW_NAME)?;
    text.push_str(name)?;
    text.push_str("</td>")
}

// Appends a cell with a name, which is escaped.
#[tactic(auto, unfolding(crate::specs::Table::name_cell))]
fn push_name_cell(text: &mut String, name: &str) -> Result<(), AllocError>
    ensures { OnOk result
        (string_bytes text.new ≡ string_bytes text.old ++ spec.name_cell name.now) }
{
    text.push_str(NAME_CELL)?;
    text.push_str(name)?;
    text.push_str("</td>")
}

// Appends the machine of a step, if the table has a column for it.
fn push_machine_cell(
    alloc: Global,
    text: &mut String,
    table: &Table<'_>,
    bar: Bar,
) -> Result<(), AllocError>
    ensures { OnOk result (string_bytes text.new
        ≡ string_bytes text.old ++ spec.machine_cell (spec.table_of table.now) bar) }
{
    if table.shop {
        let label = shown_label(alloc, table.machines, bar.machine)?;
        push_name_cell(text, &label)
    } else {
        Ok(())
    }
}

// Appends a cell with a number.
#[tactic(auto, unfolding(crate::specs::Table::number_cell))]
fn push_number_cell(text: &mut String, n: u64) -> Result<(), AllocError>
    ensures { OnOk result (string_bytes text.new ≡ string_bytes text.old ++ spec.number_cell n) }
{
    write!(text, "<td>{n}</td>")
}

// Appends duration, start and end.
#[tactic(auto, unfolding(crate::specs::Table::time_cells))]
fn push_time_cells(text: &mut String, bar: Bar) -> Result<(), AllocError>
    ensures { OnOk result (string_bytes text.new ≡ string_bytes text.old ++ spec.time_cells bar) }
{
    push_number_cell(text, u64::from(bar.to.saturating_sub(bar.from)))?;
    push_number_cell(text, u64::from(bar.from))?;
    push_number_cell(text, u64::from(bar.to))
}

// Appends cells with two days.
#[tactic(auto, unfolding(crate::specs::Table::two_days))]
fn push_two_days(text: &mut String, first: &str, last: &str) -> Result<(), AllocError>
    ensures { OnOk result
        (string_bytes text.new ≡ string_bytes text.old ++ spec.two_days first.now last.now) }
{
    text.push_str("<td>")?;
    text.push_str(first)?;
    text.push_str("</td><td>")?;
    text.push_str(last)?;
    text.push_str("</td>")
}

// Appends the days of the first and the last time unit, or hyphens for a bar that takes no time.
#[tactic(auto, unfolding(crate::specs::Table::both_days))]
fn push_both_days(
    alloc: Global,
    text: &mut String,
    style: &DayStyle,
    days: &[Date],
    bar: Bar,
) -> Result<(), AllocError>
    ensures { OnOk result (string_bytes text.new ≡ string_bytes text.old
        ++ spec.both_days style.now.weekdays style.now.hours days.now bar) }
{
    if bar.from < bar.to {
        let first = begin_text(alloc, style.weekdays, style.hours, days, bar.from)?;
        let last = end_text(alloc, style.weekdays, style.hours, days, bar.to - 1)?;
        push_two_days(text, &first, &last)
    } else {
        text.push_str("<td>-</td><td>-</td>")
    }
}

// Appends the same, if the table has columns for days.
fn push_day_cells(
    alloc: Global,
    text: &mut String,
    table: &Table<'_>,
    bar: Bar,
) -> Result<(), AllocError>
    ensures { OnOk result (string_bytes text.new
        ≡ string_bytes text.old ++ spec.day_cells (spec.table_of table.now) bar) }
{
    if table.dated {
        push_both_days(alloc, text, table.style, table.chart.days, bar)
    } else {
        Ok(())
    }
}

// Appends the start of a cell with a number of days.
#[tactic(auto, unfolding(crate::specs::Table::day_part))]
fn push_day_part(text: &mut String, n: u64) -> Result<(), AllocError>
    ensures { OnOk result (string_bytes text.new ≡ string_bytes text.old ++ spec.day_part n) }
{
    write!(text, "<td>{n} d")
}

// Appends a number of hours.
#[tactic(auto, unfolding(crate::specs::Table::hour_part))]
fn push_hour_part(text: &mut String, n: u64) -> Result<(), AllocError>
    ensures { OnOk result (string_bytes text.new ≡ string_bytes text.old ++ spec.hour_part n) }
{
    write!(text, " {n} h")
}

// Returns whether floats and slacks are in days: for a list on a calendar.
fn in_days(table: &Table<'_>) -> bool
    ensures { result ≡ spec.in_days (spec.table_of table.now) }
{
    if table.dated { table.listed } else { false }
}

// Appends a cell with a number of time units in days, with hours in days and hours.
fn push_days_cell(text: &mut String, timed: bool, per_day: u32, n: u64) -> Result<(), AllocError>
    ensures { OnOk result
        (string_bytes text.new ≡ string_bytes text.old ++ spec.days_cell timed per_day n) }
{
    let units = u64::from(units_of(per_day));
    if timed {
        push_day_part(text, n / units)?;
        push_hour_part(text, n % units)?;
        return text.push_str("</td>");
    }
    push_day_part(text, n)?;
    text.push_str("</td>")
}

// Appends a cell with a number of time units, or with a number of days.
fn push_margin_cell(text: &mut String, table: &Table<'_>, n: u64) -> Result<(), AllocError>
    ensures { OnOk result (string_bytes text.new
        ≡ string_bytes text.old ++ spec.margin_cell (spec.table_of table.now) n) }
{
    if in_days(table) {
        push_days_cell(text, table.style.hours.is_some(), table.chart.per_day, n)
    } else {
        push_number_cell(text, n)
    }
}

// Appends a cell with the number of an activity in a list of numbers, if the list has one.
fn push_cell_at(
    text: &mut String,
    table: &Table<'_>,
    numbers: &[u64],
    number: u32,
) -> Result<(), AllocError>
    ensures { OnOk result (string_bytes text.new
        ≡ string_bytes text.old ++ spec.cell_at (spec.table_of table.now) numbers.now number) }
{
    match numbers.get(number.saturating_sub(1) as usize) {
        Some(&n) => push_margin_cell(text, table, n),
        None => Ok(()),
    }
}

// Appends the cells behind the times.
#[tactic(auto, unfolding(crate::specs::Table::last_cells))]
fn push_last_cells(
    alloc: Global,
    text: &mut String,
    table: &Table<'_>,
    bar: Bar,
) -> Result<(), AllocError>
    ensures { OnOk result (string_bytes text.new
        ≡ string_bytes text.old ++ spec.last_cells (spec.table_of table.now) bar) }
{
    push_day_cells(alloc, text, table, bar)?;
    push_cell_at(text, table, table.floats, bar.number)?;
    push_cell_at(text, table, table.chart.slacks, bar.number)
}

// Appends the resources and the predecessors of an activity, if the table has columns for them.
#[tactic(auto, unfolding(crate::specs::Table::link_cells))]
fn push_link_cells(
    alloc: Global,
    text: &mut String,
    table: &Table<'_>,
    bar: Bar,
) -> Result<(), AllocError>
    ensures { OnOk result (string_bytes text.new
        ≡ string_bytes text.old ++ spec.link_cells (spec.table_of table.now) bar) }
{
    if !table.listed {
        return Ok(());
    }
    let resources = shown_name(alloc, table.resources, bar.number)?;
    let predecessors = shown_name(alloc, table.predecessors, bar.number)?;
    push_name_cell(text, &resources)?;
    push_name_cell(text, &predecessors)
}

// Appends the front of a row: number, name and machine.
#[tactic(auto, unfolding(crate::specs::Table::row_front))]
fn push_row_front(
    alloc: Global,
    text: &mut String,
    table: &Table<'_>,
    bar: Bar,
) -> Result<(), AllocError>
    ensures { OnOk result (string_bytes text.new
        ≡ string_bytes text.old ++ spec.row_front (spec.table_of table.now) bar) }
{
    let number = shown_number(alloc, table.chart.ids, bar)?;
    let name = shown_name(alloc, table.chart.names, bar.number)?;
    push_first_cells(text, &number, &name)?;
    push_machine_cell(alloc, text, table, bar)
}

// Appends a row.
#[tactic(auto, unfolding(crate::specs::Table::row_of))]
fn push_row(alloc: Global, text: &mut String, table: &Table<'_>, bar: Bar) -> Result<(), AllocError>
    ensures { OnOk result (string_bytes text.new
        ≡ string_bytes text.old ++ spec.row_of (spec.table_of table.now) bar) }
{
    push_row_front(alloc, text, table, bar)?;
    push_time_cells(text, bar)?;
    push_last_cells(alloc, text, table, bar)?;
    push_link_cells(alloc, text, table, bar)?;
    text.push_str("</tr>\n")
}

// Appends the rows of all bars.
fn push_rows(alloc: Global, text: &mut String, table: &Table<'_>) -> Result<(), AllocError>
    ensures { OnOk result (string_bytes text.new
        ≡ string_bytes text.old ++ spec.rows_of (spec.table_of table.now)) }
{
    let bars = table.chart.bars;
    for &bar in bars {
        push_row(alloc, text, table, bar)?;
    }
    Ok(())
}

/// Appends the table: its first row, and a row for each bar.
#[tactic(auto, unfolding(crate::specs::Table::table_text))]
pub(crate) fn push_table(
    alloc: Global,
    text: &mut String,
    table: &Table<'_>,
) -> Result<(), AllocError>
    ensures { OnOk result (string_bytes text.new
        ≡ string_bytes text.old ++ spec.table_text (spec.table_of table.now)) }
{
    text.push_str(TABLE_FROM)?;
    push_heads(text, table)?;
    push_rows(alloc, text, table)?;
    text.push_str(TABLE_TO)
}
