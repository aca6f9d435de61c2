//! The page of a report.

ghost use Rattle.std.specs.Prelude.{◌≡◌, ◌++◌, ◌≤◌, IfOk, OnOk, string_bytes};
ghost use Rattle.plan_sheet.specs.Chart.{chart_of};
ghost use Rattle.plan_sheet.specs.Table.{table_of};
ghost use Rattle.plan_sheet.specs.Page as spec;

use crate::axis::units_of;
use crate::chart::{Chart, line_count, push_chart};
use crate::days::day_text;
use crate::escape::escaped;
use crate::styles::{
    CHART_STYLE, COLOURS, HEAD, LEGEND, NOTE_TO, PAGE_STYLE, PAGE_TO, STYLES_FROM, STYLES_TO,
    TABLE_TITLE, TITLE_TO,
};
use crate::table::{Table, push_if, push_table};
use jiff::civil::Date;
use std::alloc::{AllocError, Global};
use std::fmt::Write;

/// The heading of a report.
#[derive(Clone, Copy, Debug, Drop)]
pub struct Heading<'a> {
    pub title: &'a str,
    /// A lower bound of the makespans of all feasible schedules, if a search has found one. The note
    /// below the title gives it, or says that the makespan is the least.
    pub lower: Option<u64>,
}

// Appends the first and the last day of a plan, or nothing without a calendar.
#[tactic(auto, unfolding(crate::specs::Page::dates_part))]
fn push_dates(
    alloc: Global,
    text: &mut String,
    days: &[Date],
    per_day: u32,
    makespan: u32,
) -> Result<(), AllocError>
    ensures { OnOk result
        (string_bytes text.new ≡ string_bytes text.old ++ spec.dates_part days.now per_day makespan) }
{
    if days.len() < 1 {
        return Ok(());
    }
    let first = day_text(alloc, days, 0)?;
    let last = day_text(alloc, days, makespan.saturating_sub(1) / units_of(per_day))?;
    text.push_str(", ")?;
    text.push_str(&first)?;
    text.push_str(" to ")?;
    text.push_str(&last)
}

// Appends what a search has found out about the makespan, or nothing without a search.
#[tactic(auto, unfolding(crate::specs::Page::bound_part))]
fn push_bound(text: &mut String, lower: Option<u64>, makespan: u32) -> Result<(), AllocError>
    ensures { OnOk result
        (string_bytes text.new ≡ string_bytes text.old ++ spec.bound_part lower makespan) }
{
    let Some(lower) = lower else {
        return Ok(());
    };
    if lower < u64::from(makespan) {
        write!(text, ", between {lower} {makespan}")
    } else {
        write!(text, ", optimal {makespan}")
    }
}

// Returns the note below the title: the makespan, the first and the last day, and what a search has
// found out.
#[tactic(auto, unfolding(crate::specs::Page::note_of))]
fn note_of(
    alloc: Global,
    lower: Option<u64>,
    days: &[Date],
    per_day: u32,
    makespan: u32,
) -> Result<String, AllocError>
    ensures { IfOk result (λ text.
        string_bytes text ≡ spec.note_of lower days.now per_day makespan) }
{
    let mut text = format!(in alloc; "Makespan {makespan}")?;
    push_dates(alloc, &mut text, days, per_day, makespan)?;
    push_bound(&mut text, lower, makespan)?;
    Ok(text)
}

// Appends the styles of a page.
#[tactic(auto, unfolding(crate::specs::Page::styles))]
fn push_styles(text: &mut String) -> Result<(), AllocError>
    ensures { OnOk result (string_bytes text.new ≡ string_bytes text.old ++ spec.styles) }
{
    text.push_str(STYLES_FROM)?;
    text.push_str(COLOURS)?;
    text.push_str(CHART_STYLE)?;
    text.push_str(PAGE_STYLE)
}

// Appends the title, which is escaped, and the note.
#[tactic(auto, unfolding(crate::specs::Page::headings))]
fn push_headings(text: &mut String, title: &str, note: &str) -> Result<(), AllocError>
    ensures { OnOk result
        (string_bytes text.new ≡ string_bytes text.old ++ spec.headings title.now note.now) }
{
    text.push_str(STYLES_TO)?;
    text.push_str(title)?;
    text.push_str(TITLE_TO)?;
    text.push_str(note)?;
    text.push_str(NOTE_TO)
}

// Appends the head of a page, its title, which is escaped, and its note.
#[tactic(auto, unfolding(crate::specs::Page::front))]
fn push_front(text: &mut String, title: &str, note: &str) -> Result<(), AllocError>
    ensures { OnOk result
        (string_bytes text.new ≡ string_bytes text.old ++ spec.front title.now note.now) }
{
    text.push_str(HEAD)?;
    text.push_str(title)?;
    push_styles(text)?;
    push_headings(text, title, note)
}

// Appends image `k` of a chart of `count` lines: its lines from index `40 * k` on, at most 40.
#[tactic(auto, unfolding(crate::specs::Page::figure))]
fn push_figure(
    alloc: Global,
    text: &mut String,
    chart: &Chart<'_>,
    count: u32,
    k: u32,
) -> Result<(), AllocError>
    requires image { k ≤ 20000 }
    ensures { OnOk result (string_bytes text.new
        ≡ string_bytes text.old ++ spec.figure (chart_of chart.now) count k) }
{
    let lines = count.saturating_sub(40 * k).min(40);
    text.push_str("<figure>\n")?;
    push_chart(alloc, text, "", "Gantt chart", chart, 40 * k, lines)?;
    text.push_str("</figure>\n")
}

// Appends the images of all lines, 40 lines in each.
fn push_figures(
    alloc: Global,
    text: &mut String,
    chart: &Chart<'_>,
    count: u32,
) -> Result<(), AllocError>
    requires count { count ≤ 800000 }
    ensures { OnOk result (string_bytes text.new
        ≡ string_bytes text.old ++ spec.figures (chart_of chart.now) count) }
{
    for k in 0..count.div_ceil(40) {
        push_figure(alloc, text, chart, count, k)?;
    }
    Ok(())
}

// Appends the table below its heading, and the end of a page.
#[tactic(auto, unfolding(crate::specs::Page::back))]
fn push_back(alloc: Global, text: &mut String, table: &Table<'_>) -> Result<(), AllocError>
    ensures { OnOk result (string_bytes text.new
        ≡ string_bytes text.old ++ spec.back (table_of table.now)) }
{
    text.push_str(TABLE_TITLE)?;
    push_table(alloc, text, table)?;
    text.push_str(PAGE_TO)
}

/// Returns a report as one HTML page without a script or a link: its title, the chart of its table
/// in images of 40 lines, a section on resources, and the table. It is styled for screens, light
/// and dark, and for A4 paper in landscape.
#[tactic(auto, unfolding(crate::specs::Page::page))]
pub(crate) fn page(
    alloc: Global,
    heading: Heading<'_>,
    makespan: u32,
    table: &Table<'_>,
    section: &str,
) -> Result<String, AllocError>
    ensures text { IfOk result (λ text. string_bytes text
        ≡ spec.page heading.entry.title.now heading.entry.lower makespan (table_of table.now)
        section.now) }
{
    let chart = table.chart;
    let title = escaped(alloc, heading.title)?;
    let note = note_of(alloc, heading.lower, chart.days, chart.per_day, makespan)?;
    let mut text = String::new(alloc);
    push_front(&mut text, &title, &note)?;
    push_if(&mut text, chart.slacks.len(), LEGEND)?;
    push_figures(alloc, &mut text, chart, line_count(chart))?;
    text.push_str(section)?;
    push_back(alloc, &mut text, table)?;
    Ok(text)
}
