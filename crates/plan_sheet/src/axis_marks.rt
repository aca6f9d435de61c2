//! The marks of an axis as SVG.

ghost use Rattle.std.specs.Prelude.{◌≡◌, ◌++◌, ◌<◌, OnOk, string_bytes};
ghost use Rattle.std.specs.List.{flat_map, range_with_len};
ghost use Rattle.plan_sheet.specs.Axis.{mark_count, shade_count};
ghost use Rattle.plan_sheet.specs.Marks as spec;

use crate::axis::{
    axis_from, axis_to, day_count, has_label, mark_count, mark_place, shade_count, starts_week,
};
use crate::day_labels::axis_label;
use crate::place::place;
use jiff::civil::Date;
use std::alloc::{AllocError, Global};
use std::fmt::Write;

// Appends the line of a mark at a place, of this height, and the start of its label.
#[tactic(auto, unfolding(crate::specs::Marks::tick_head))]
fn push_tick_head(text: &mut String, height: u32, x: u64) -> Result<(), AllocError>
    ensures { OnOk result
        (string_bytes text.new ≡ string_bytes text.old ++ spec.tick_head height x) }
{
    write!(
        text,
        "<path class=\"tick\" d=\"M{x} 19v{height}\"/><text x=\"{x}\" y=\"14\" dx=\"3\">"
    )
}

// Appends a mark at a place: a line of this height, and its label.
#[tactic(auto, unfolding(crate::specs::Marks::tick))]
fn push_tick(text: &mut String, height: u32, x: u64, label: &str) -> Result<(), AllocError>
    ensures { OnOk result
        (string_bytes text.new ≡ string_bytes text.old ++ spec.tick height x label.now) }
{
    push_tick_head(text, height, x)?;
    text.push_str(label)?;
    text.push_str("</text>\n")
}

// Appends mark `k` of an axis without days.
fn push_unit_tick(
    alloc: Global,
    text: &mut String,
    span: u32,
    height: u32,
    k: u64,
) -> Result<(), AllocError>
    requires { k < mark_count span }
    ensures { OnOk result
        (string_bytes text.new ≡ string_bytes text.old ++ spec.unit_tick span height k) }
{
    let at = mark_place(span, k);
    let label = format!(in alloc; "{at}")?;
    push_tick(text, height, place(span, at), &label)
}

// Appends the marks of an axis without days.
fn push_unit_ticks(
    alloc: Global,
    text: &mut String,
    span: u32,
    height: u32,
) -> Result<(), AllocError>
    ensures { OnOk result
        (string_bytes text.new ≡ string_bytes text.old ++ spec.unit_ticks span height) }
{
    for k in 0..mark_count(span) {
        push_unit_tick(alloc, text, span, height, k)?;
    }
    Ok(())
}

// Appends the area of this height between two places.
#[tactic(auto, unfolding(crate::specs::Marks::area))]
fn push_area(text: &mut String, height: u32, from: u64, to: u64) -> Result<(), AllocError>
    ensures { OnOk result
        (string_bytes text.new ≡ string_bytes text.old ++ spec.area height from to) }
{
    write!(text, "M{from} 19H{to}v{height}H{from}z")
}

// Appends the days without work before that of instant `t`.
fn push_gap(
    text: &mut String,
    span: u32,
    days: &[Date],
    height: u32,
    t: u32,
) -> Result<(), AllocError>
    ensures { OnOk result
        (string_bytes text.new ≡ string_bytes text.old ++ spec.gap_at span days.now height t) }
{
    let from = axis_to(days, t);
    let to = axis_from(days, t);
    if from < to {
        push_area(text, height, place(span, from), place(span, to))
    } else {
        Ok(())
    }
}

// Appends the days without work.
fn push_gap_areas(
    text: &mut String,
    span: u32,
    days: &[Date],
    height: u32,
) -> Result<(), AllocError>
    ensures { OnOk result (string_bytes text.new ≡ string_bytes text.old
        ++ flat_map (spec.gap_at span days.now height) (range_with_len 0 (shade_count days.now))) }
{
    for t in 0..shade_count(days) {
        push_gap(text, span, days, height, t)?;
    }
    Ok(())
}

// Appends the days without work, as one path.
#[tactic(auto, unfolding(crate::specs::Marks::gaps))]
fn push_gaps(text: &mut String, span: u32, days: &[Date], height: u32) -> Result<(), AllocError>
    ensures { OnOk result
        (string_bytes text.new ≡ string_bytes text.old ++ spec.gaps span days.now height) }
{
    text.push_str("<path class=\"off\" d=\"")?;
    push_gap_areas(text, span, days, height)?;
    text.push_str("\"/>\n")
}

// Appends the mark of a week at a place.
#[tactic(auto, unfolding(crate::specs::Marks::week_mark))]
fn push_week_mark(text: &mut String, x: u64) -> Result<(), AllocError>
    ensures { OnOk result (string_bytes text.new ≡ string_bytes text.old ++ spec.week_mark x) }
{
    write!(text, "M{x} 15v4")
}

// Appends the mark of the week that begins at instant `t`, if one does.
fn push_week(text: &mut String, span: u32, days: &[Date], t: u32) -> Result<(), AllocError>
    ensures { OnOk result
        (string_bytes text.new ≡ string_bytes text.old ++ spec.week_at span days.now t) }
{
    if starts_week(days, t) {
        push_week_mark(text, place(span, axis_from(days, t)))
    } else {
        Ok(())
    }
}

// Appends the marks of weeks.
fn push_week_marks(text: &mut String, span: u32, days: &[Date]) -> Result<(), AllocError>
    ensures { OnOk result (string_bytes text.new ≡ string_bytes text.old
        ++ flat_map (spec.week_at span days.now) (range_with_len 0 (shade_count days.now))) }
{
    for t in 0..shade_count(days) {
        push_week(text, span, days, t)?;
    }
    Ok(())
}

// Appends the marks of weeks, as one path.
#[tactic(auto, unfolding(crate::specs::Marks::weeks))]
fn push_weeks(text: &mut String, span: u32, days: &[Date]) -> Result<(), AllocError>
    ensures { OnOk result
        (string_bytes text.new ≡ string_bytes text.old ++ spec.weeks span days.now) }
{
    text.push_str("<path class=\"week\" d=\"")?;
    push_week_marks(text, span, days)?;
    text.push_str("\"/>\n")
}

// Appends the mark of instant `t` with its day, if it has a label.
fn push_day_tick(
    alloc: Global,
    text: &mut String,
    span: u32,
    days: &[Date],
    height: u32,
    t: u32,
) -> Result<(), AllocError>
    ensures { OnOk result
        (string_bytes text.new ≡ string_bytes text.old ++ spec.day_tick span days.now height t) }
{
    if has_label(span, days, t) {
        let label = axis_label(alloc, span, days, t)?;
        push_tick(text, height, place(span, axis_from(days, t)), &label)
    } else {
        Ok(())
    }
}

// Appends the marks of days with labels.
fn push_day_ticks(
    alloc: Global,
    text: &mut String,
    span: u32,
    days: &[Date],
    height: u32,
) -> Result<(), AllocError>
    ensures { OnOk result
        (string_bytes text.new ≡ string_bytes text.old ++ spec.day_ticks span days.now height) }
{
    for t in 0..day_count(days) {
        push_day_tick(alloc, text, span, days, height, t)?;
    }
    Ok(())
}

// Appends the marks of an axis with days.
#[tactic(auto, unfolding(crate::specs::Marks::day_marks))]
fn push_day_marks(
    alloc: Global,
    text: &mut String,
    span: u32,
    days: &[Date],
    height: u32,
) -> Result<(), AllocError>
    ensures { OnOk result
        (string_bytes text.new ≡ string_bytes text.old ++ spec.day_marks span days.now height) }
{
    push_gaps(text, span, days, height)?;
    push_weeks(text, span, days)?;
    push_day_ticks(alloc, text, span, days, height)
}

/// Appends the marks of an axis, of this height: without days those of time units, else days
/// without work, weeks, and some days with their dates.
#[tactic(auto, unfolding(crate::specs::Marks::marks))]
pub(crate) fn push_marks(
    alloc: Global,
    text: &mut String,
    span: u32,
    days: &[Date],
    height: u32,
) -> Result<(), AllocError>
    ensures { OnOk result
        (string_bytes text.new ≡ string_bytes text.old ++ spec.marks span days.now height) }
{
    if days.len() < 1 {
        push_unit_ticks(alloc, text, span, height)
    } else {
        push_day_marks(alloc, text, span, days, height)
    }
}
