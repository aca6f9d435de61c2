//! Gantt charts as SVG.

ghost use Rattle.std.specs.Prelude.{◌≡◌, ◌≤◌, ◌++◌, IfOk, OnOk, map, string_bytes};
ghost use Rattle.plan_table.specs.Names.{name_of};
ghost use Rattle.plan_sheet.specs.Chart as spec;
ghost use Rattle.plan_sheet.specs.Cuts as cuts;
ghost use Rattle.plan_sheet.specs.Escape as escape;

use crate::axis::{begin_place, end_place};
use crate::axis_marks::push_marks;
use crate::bars::Bar;
use crate::cuts::cut;
use crate::escape::escaped;
use crate::names::id_label;
use crate::pieces::push_counted;
use crate::place::extent;
use crate::styles::{
    BAR_LEFT, BAR_TIP, BAR_WIDTH, CHART_STYLE, COLOURS, IMAGE, NARROW_BAR, TIGHT_CLASS, WIDE_BAR,
};
use crate::titles::title_of;
use jiff::civil::Date;
use plan_table::NameLine;
use std::alloc::{AllocError, Global};
use std::fmt::Write;

/// The room of a label beside the axis, in columns of 0.6 em.
const LABEL_ROOM: u32 = 33;

/// A Gantt chart.
#[derive(Drop)]
pub struct Chart<'a> {
    /// The length of the axis, in days of the calendar, or in time units without one.
    pub span: u32,
    /// Its working days; empty without a calendar.
    pub days: &'a [Date],
    /// The time units of a working day.
    pub per_day: u32,
    /// The numbers of its lines.
    pub lines: &'a [u32],
    /// The ids of its lines and bars; empty if they have their numbers.
    pub ids: &'a [NameLine<'a>],
    /// The names of its lines.
    pub rows: &'a [NameLine<'a>],
    /// The names of its bars.
    pub names: &'a [NameLine<'a>],
    pub bars: &'a [Bar],
    /// The slacks of activities, from activity 1 on; empty if they aren't shown.
    pub slacks: &'a [u64],
}

// Returns the place where a bar begins.
#[tactic(auto, unfolding(crate::specs::Chart::left_of))]
fn left_of(chart: &Chart<'_>, bar: Bar) -> u64
    ensures { result ≡ spec.left_of (spec.chart_of chart.now) bar }
{
    begin_place(chart.span, chart.days, chart.per_day, bar.from)
}

// Returns the place where a bar ends.
#[tactic(auto, unfolding(crate::specs::Chart::right_of))]
fn right_of(chart: &Chart<'_>, bar: Bar) -> u64
    ensures { result ≡ spec.right_of (spec.chart_of chart.now) bar }
{
    end_place(chart.span, chart.days, chart.per_day, bar.to)
}

// Returns the description of a bar: its title, its start and its end.
#[tactic(auto, unfolding(crate::specs::Chart::tip_of))]
fn tip_of(
    alloc: Global,
    ids: &[NameLine<'_>],
    names: &[NameLine<'_>],
    bar: Bar,
) -> Result<String, AllocError>
    ensures { IfOk result (λ text. string_bytes text
        ≡ spec.tip_of (map name_of ids.now) (map name_of names.now) bar) }
{
    let mut text = title_of(alloc, ids, names, bar)?;
    let (from, to) = (bar.from, bar.to);
    write!(text, ", {from} to {to}")?;
    Ok(text)
}

// Returns the description of a bar, escaped.
fn shown_tip(alloc: Global, chart: &Chart<'_>, bar: Bar) -> Result<String, AllocError>
    ensures { IfOk result (λ text. string_bytes text ≡ escape.escaped
        (spec.tip_of (spec.chart_of chart.now).ids (spec.chart_of chart.now).names bar)) }
{
    let tip = tip_of(alloc, chart.ids, chart.names, bar)?;
    escaped(alloc, &tip)
}

// Appends a milestone: a diamond around a place, with its description.
#[tactic(auto, unfolding(crate::specs::Chart::diamond))]
fn push_diamond(text: &mut String, x: u64, tip: &str) -> Result<(), AllocError>
    ensures { OnOk result
        (string_bytes text.new ≡ string_bytes text.old ++ spec.diamond x tip.now) }
{
    write!(
        text,
        "<path class=\"bar\" d=\"M{x} 3l7 7-7 7-7-7z\"><title>"
    )?;
    text.push_str(tip)?;
    text.push_str("</title></path>\n")
}

// Returns the slack of a bar, if it is shown, at most 4,294,967,295.
fn slack_of(chart: &Chart<'_>, bar: Bar) -> Option<u32>
    ensures { result ≡ spec.slack_of (spec.chart_of chart.now) bar }
{
    match chart.slacks.get(bar.number.saturating_sub(1) as usize) {
        Some(&slack) => Some(slack.min(4_294_967_295) as u32),
        None => None,
    }
}

// Returns the class of a bar without slack.
fn tight_class(slack: Option<u32>) -> &'static str
    ensures { result.now ≡ spec.tight_class slack }
{
    match slack {
        Some(0) => TIGHT_CLASS,
        _ => "",
    }
}

// Appends a thin line up to where a bar could end, if it has slack.
#[tactic(auto, unfolding(crate::specs::Chart::tail))]
fn push_tail(text: &mut String, from: u64, to: u64) -> Result<(), AllocError>
    ensures { OnOk result (string_bytes text.new ≡ string_bytes text.old ++ spec.tail from to) }
{
    write!(text, "<path class=\"tail\" d=\"M{from} 10H{to}\"/>\n")
}

// Appends the tail of a bar: up to where it could end, if it has slack.
fn push_tail_of(text: &mut String, chart: &Chart<'_>, bar: Bar) -> Result<(), AllocError>
    ensures { OnOk result (string_bytes text.new
        ≡ string_bytes text.old ++ spec.tail_of (spec.chart_of chart.now) bar) }
{
    let slack = slack_of(chart, bar).unwrap_or(0);
    if slack < 1 {
        return Ok(());
    }
    let end = bar.to.saturating_add(slack);
    let to = end_place(chart.span, chart.days, chart.per_day, end);
    push_tail(text, right_of(chart, bar), to)
}

// Returns the class of a rectangle: a narrow one has no stroke.
fn bar_class(width: u64) -> &'static str
    ensures { result.now ≡ spec.bar_class width }
{
    if width < 4 { NARROW_BAR } else { WIDE_BAR }
}

// Appends the start of a rectangle from a place on, up to its description.
#[tactic(auto, unfolding(crate::specs::Chart::rectangle_head))]
fn push_rectangle_head(text: &mut String, tight: &str, x: u64, width: u64) -> Result<(), AllocError>
    ensures { OnOk result (string_bytes text.new
        ≡ string_bytes text.old ++ spec.rectangle_head tight.now x width) }
{
    text.push_str(bar_class(width))?;
    text.push_str(tight)?;
    push_counted(text, BAR_LEFT, x)?;
    push_counted(text, BAR_WIDTH, width)?;
    text.push_str(BAR_TIP)
}

// Appends an activity that takes time: a rectangle from a place on, with its description.
#[tactic(auto, unfolding(crate::specs::Chart::rectangle))]
fn push_rectangle(
    text: &mut String,
    tight: &str,
    x: u64,
    width: u64,
    tip: &str,
) -> Result<(), AllocError>
    ensures { OnOk result (string_bytes text.new
        ≡ string_bytes text.old ++ spec.rectangle tight.now x width tip.now) }
{
    push_rectangle_head(text, tight, x, width)?;
    text.push_str(tip)?;
    text.push_str("</title></rect>\n")
}

// Appends a number inside a bar.
#[tactic(auto, unfolding(crate::specs::Chart::inner_number))]
fn push_inner_number(text: &mut String, x: u64, n: u32) -> Result<(), AllocError>
    ensures { OnOk result
        (string_bytes text.new ≡ string_bytes text.old ++ spec.inner_number x n) }
{
    write!(
        text,
        "<text class=\"on\" x=\"{x}\" y=\"15\" dx=\"3\">{n}</text>\n"
    )
}

// Returns the room of a number inside a bar: 10 units for each digit, and 6 beside them.
fn number_room(n: u32) -> u64
    ensures { result ≡ spec.number_room n }
{
    if n < 10 {
        16
    } else if n < 100 {
        26
    } else if n < 1000 {
        36
    } else {
        106
    }
}

// Appends the number inside a bar, if it is that of a step and has room.
fn push_number(text: &mut String, chart: &Chart<'_>, bar: Bar) -> Result<(), AllocError>
    ensures { OnOk result (string_bytes text.new
        ≡ string_bytes text.old ++ spec.number_of (spec.chart_of chart.now) bar) }
{
    let x = left_of(chart, bar);
    let width = extent(x, right_of(chart, bar));
    if bar.step < 1 {
        return Ok(());
    }
    if width < number_room(bar.inside) {
        return Ok(());
    }
    push_inner_number(text, x, bar.inside)
}

// Appends the diamond of a bar that takes no time, or nothing for a step.
fn push_milestone(
    alloc: Global,
    text: &mut String,
    chart: &Chart<'_>,
    bar: Bar,
) -> Result<(), AllocError>
    ensures { OnOk result (string_bytes text.new
        ≡ string_bytes text.old ++ spec.milestone_of (spec.chart_of chart.now) bar) }
{
    let tip = shown_tip(alloc, chart, bar)?;
    if bar.step < 1 {
        push_diamond(text, right_of(chart, bar), &tip)
    } else {
        Ok(())
    }
}

// Appends the rectangle of a bar that takes time, with its tail and its number.
#[tactic(auto, unfolding(crate::specs::Chart::block_of))]
fn push_block(
    alloc: Global,
    text: &mut String,
    chart: &Chart<'_>,
    bar: Bar,
) -> Result<(), AllocError>
    ensures { OnOk result (string_bytes text.new
        ≡ string_bytes text.old ++ spec.block_of (spec.chart_of chart.now) bar) }
{
    let tip = shown_tip(alloc, chart, bar)?;
    let x = left_of(chart, bar);
    let tight = tight_class(slack_of(chart, bar));
    push_rectangle(text, tight, x, extent(x, right_of(chart, bar)), &tip)?;
    push_tail_of(text, chart, bar)?;
    push_number(text, chart, bar)
}

// Appends a bar: a diamond where it ends if it takes no time, else a rectangle.
#[tactic(auto, unfolding(crate::specs::Chart::bar_of))]
fn push_bar(alloc: Global, text: &mut String, chart: &Chart<'_>, bar: Bar) -> Result<(), AllocError>
    ensures { OnOk result (string_bytes text.new
        ≡ string_bytes text.old ++ spec.bar_of (spec.chart_of chart.now) bar) }
{
    if bar.from == bar.to {
        push_milestone(alloc, text, chart, bar)
    } else {
        push_block(alloc, text, chart, bar)
    }
}

// Appends a bar, if it is in line `n`.
fn push_bar_in(
    alloc: Global,
    text: &mut String,
    chart: &Chart<'_>,
    n: u32,
    bar: Bar,
) -> Result<(), AllocError>
    ensures { OnOk result (string_bytes text.new
        ≡ string_bytes text.old ++ spec.bar_in (spec.chart_of chart.now) n bar) }
{
    if bar.line == n {
        push_bar(alloc, text, chart, bar)
    } else {
        Ok(())
    }
}

// Appends the bars of line `n`.
fn push_bars(alloc: Global, text: &mut String, chart: &Chart<'_>, n: u32) -> Result<(), AllocError>
    ensures { OnOk result (string_bytes text.new
        ≡ string_bytes text.old ++ spec.bars_of (spec.chart_of chart.now) n) }
{
    let bars = chart.bars;
    for &bar in bars {
        push_bar_in(alloc, text, chart, n, bar)?;
    }
    Ok(())
}

// Appends the label of a line at this height, cut before the bars.
#[tactic(auto, unfolding(crate::specs::Chart::line_head))]
fn push_line_head(text: &mut String, y: u32, label: &str) -> Result<(), AllocError>
    ensures { OnOk result
        (string_bytes text.new ≡ string_bytes text.old ++ spec.line_head y label.now) }
{
    write!(
        text,
        "<g transform=\"translate(0,{y})\"><svg width=\"322\" height=\"20\"><text x=\"4\" y=\"15\">"
    )?;
    text.push_str(label)?;
    text.push_str("</text></svg>\n")
}

/// Returns a label, cut to the room beside the axis, and escaped.
pub(crate) fn cut_label(alloc: Global, label: &str, room: u32) -> Result<String, AllocError>
    ensures { IfOk result (λ text.
        string_bytes text ≡ escape.escaped (cuts.cut room label.now)) }
{
    let shown = cut(alloc, label, room)?;
    escaped(alloc, &shown)
}

// Appends line `n`, as the k-th one from above.
#[tactic(auto, unfolding(crate::specs::Chart::line_of))]
fn push_line(
    alloc: Global,
    text: &mut String,
    chart: &Chart<'_>,
    k: u32,
    n: u32,
) -> Result<(), AllocError>
    requires { k ≤ 1000000 }
    ensures { OnOk result (string_bytes text.new
        ≡ string_bytes text.old ++ spec.line_of (spec.chart_of chart.now) k n) }
{
    let full = id_label(alloc, chart.ids, chart.rows, n)?;
    let label = cut_label(alloc, &full, LABEL_ROOM)?;
    push_line_head(text, 20 * k + 22, &label)?;
    push_bars(alloc, text, chart, n)?;
    text.push_str("</g>\n")
}

// Returns the number of the line at an index, 0 if there is none.
fn number_at(chart: &Chart<'_>, index: u32) -> u32
    ensures { result ≡ spec.number_at (spec.chart_of chart.now) index }
{
    match chart.lines.get(index as usize) {
        Some(&n) => n,
        None => 0,
    }
}

/// Returns the number of lines, at most 800,000.
pub(crate) fn line_count(chart: &Chart<'_>) -> u32
    ensures count { result ≡ spec.line_count (spec.chart_of chart.now) }
    ensures limit { result ≤ 800000 }
{
    chart.lines.len().min(800_000) as u32
}

// Appends `count` lines from the one at index `first` on.
fn push_lines(
    alloc: Global,
    text: &mut String,
    chart: &Chart<'_>,
    first: u32,
    count: u32,
) -> Result<(), AllocError>
    requires first { first ≤ 1000000 }
    requires count { count ≤ 1000000 }
    ensures { OnOk result (string_bytes text.new
        ≡ string_bytes text.old ++ spec.lines_of (spec.chart_of chart.now) first count) }
{
    for k in 0..count {
        push_line(alloc, text, chart, k, number_at(chart, first + k))?;
    }
    Ok(())
}

// Appends the tag of an SVG image of this height.
#[tactic(auto, unfolding(crate::specs::Chart::image_tag))]
fn push_image_tag(text: &mut String, height: u32) -> Result<(), AllocError>
    ensures { OnOk result
        (string_bytes text.new ≡ string_bytes text.old ++ spec.image_tag height) }
{
    text.push_str(IMAGE)?;
    write!(text, "{height}\" viewBox=\"0 0 1390 {height}\">\n")
}

/// Appends the start of an SVG image of this height, with an opening and a title, which is escaped.
#[tactic(auto, unfolding(crate::specs::Chart::image_head))]
pub(crate) fn push_image_head(
    text: &mut String,
    height: u32,
    opening: &str,
    title: &str,
) -> Result<(), AllocError>
    ensures { OnOk result (string_bytes text.new ≡ string_bytes text.old
        ++ spec.image_head height opening.now title.now) }
{
    push_image_tag(text, height)?;
    text.push_str(opening)?;
    text.push_str("<title>")?;
    text.push_str(title)?;
    text.push_str("</title>\n")
}

/// Appends a chart of `count` lines from the one at index `first` on, with its opening and its
/// title.
#[tactic(auto, unfolding(crate::specs::Chart::image_of))]
pub(crate) fn push_chart(
    alloc: Global,
    text: &mut String,
    opening: &str,
    title: &str,
    chart: &Chart<'_>,
    first: u32,
    count: u32,
) -> Result<(), AllocError>
    requires first { first ≤ 1000000 }
    requires count { count ≤ 1000000 }
    ensures { OnOk result (string_bytes text.new ≡ string_bytes text.old
        ++ spec.image_of opening.now title.now (spec.chart_of chart.now) first count) }
{
    let title = escaped(alloc, title)?;
    push_image_head(text, 20 * count + 26, opening, &title)?;
    push_marks(alloc, text, chart.span, chart.days, 20 * count + 5)?;
    push_lines(alloc, text, chart, first, count)?;
    text.push_str("</svg>\n")
}

// Returns the opening of a chart alone, with its styles.
fn styled_opening(alloc: Global) -> Result<String, AllocError>
    ensures { IfOk result (λ text. string_bytes text ≡ spec.styled_opening) }
{
    let mut text = String::new(alloc);
    text.push_str("<style>\n")?;
    text.push_str(COLOURS)?;
    text.push_str(CHART_STYLE)?;
    text.push_str("</style>\n")?;
    Ok(text)
}

/// Returns a chart alone, an SVG file (SVG 2): its lines below one axis, in colours for light and
/// dark backgrounds. Lengths are in units of the viewBox: a line has 20, the axis 1,000.
pub(crate) fn svg_chart(alloc: Global, title: &str, chart: &Chart<'_>) -> Result<String, AllocError>
    ensures text { IfOk result (λ text.
        string_bytes text ≡ spec.svg_chart title.now (spec.chart_of chart.now)) }
{
    let opening = styled_opening(alloc)?;
    let mut text = String::new(alloc);
    let count = line_count(chart);
    push_chart(alloc, &mut text, &opening, title, chart, 0, count)?;
    Ok(text)
}
