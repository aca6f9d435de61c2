//! Places on the axis of a chart, and the distance of its marks.

ghost use Rattle.std.specs.Prelude.{◌≡◌, ◌*◌, ◌<◌, ◌≤◌, slice_get};
ghost use Rattle.plan_sheet.specs.Axis as spec;

use crate::place::{fine_place, place};
use jiff::civil::Date;

// The first distance of which the span has at most 12; a thousand million if there is none.
fn first_wide(span: u64, distances: &[u32]) -> u32
    ensures { result ≡ spec.first_wide span distances.now }
{
    for &distance in distances {
        if span <= 12 * u64::from(distance) {
            return distance;
        }
    }
    1_000_000_000
}

// Returns the distance of the marks without days: the least of 1, 5, 10, 50, 100 and so on of which
// the axis has at most 12.
#[tactic(auto, unfolding(crate::specs::Axis::tick_distance))]
fn tick_distance(span: u32) -> u32
    ensures distance { result ≡ spec.tick_distance span }
    ensures some { 1 ≤ result }
{
    let distances = [
        1, 5, 10, 50, 100, 500, 1_000, 5_000, 10_000, 50_000, 100_000, 500_000, 1_000_000,
    ];
    first_wide(u64::from(span), &distances).max(1)
}

/// Returns the number of marks of an axis without days.
pub(crate) fn mark_count(span: u32) -> u64
    ensures { result ≡ spec.mark_count span }
{
    let distance = tick_distance(span);
    u64::from(span / distance) + 1
}

/// Returns the place of mark `k` on an axis without days.
#[tactic(auto, using(crate::proofs::AxisLemmas::within_span))]
pub(crate) fn mark_place(span: u32, k: u64) -> u32
    requires { k < spec.mark_count span }
    ensures { result ≡ k * spec.tick_distance span }
{
    let distance = tick_distance(span);
    (k * u64::from(distance)) as u32
}

// Returns the number of weeks from one labelled week to the next, so that labels have room.
#[tactic(auto, unfolding(crate::specs::Axis::week_distance))]
fn week_distance(span: u32) -> u32
    ensures weeks { result ≡ spec.week_distance span }
    ensures some { 1 ≤ result }
{
    let distances = [
        7, 14, 28, 56, 91, 182, 364, 728, 1_820, 3_640, 7_280, 18_200, 36_400,
    ];
    let span = u64::from(span);
    (first_wide(span + span / 3, &distances) / 7).max(1)
}

/// Returns the number of a day; that of a Monday is a multiple of 7.
#[tactic(auto, unfolding(crate::specs::Axis::day_number))]
pub(crate) fn day_number(day: Date) -> u32
    ensures value { result ≡ spec.day_number day }
    ensures bound { result ≤ 7304483 }
{
    day.to_plain().days_since_min()
}

// Returns the days from the first one to another.
#[tactic(auto, unfolding(crate::specs::Axis::since_first))]
fn since_first(days: &[Date], day: Date) -> u32
    ensures value { result ≡ spec.since_first days.now day }
    ensures bound { result ≤ 7304483 }
{
    match days.get(0) {
        Some(&first) => day_number(day).saturating_sub(day_number(first)),
        None => 0,
    }
}

/// Returns the place on the axis where the time unit from instant `t` on begins.
#[tactic(auto, unfolding(crate::specs::Axis::axis_from))]
pub(crate) fn axis_from(days: &[Date], t: u32) -> u32
    ensures { result ≡ spec.axis_from days.now t }
{
    match days.get(t as usize) {
        Some(&day) => since_first(days, day),
        None => t,
    }
}

/// Returns the place on the axis where the time unit up to instant `t` ends.
#[tactic(auto, unfolding(crate::specs::Axis::axis_to))]
pub(crate) fn axis_to(days: &[Date], t: u32) -> u32
    ensures { result ≡ spec.axis_to days.now t }
{
    if t < 1 {
        return 0;
    }
    match days.get((t - 1) as usize) {
        Some(&day) => since_first(days, day) + 1,
        None => t,
    }
}

/// Returns the time units of a day of the axis, 1 to 24.
pub(crate) fn units_of(per_day: u32) -> u32
    ensures units { result ≡ spec.units_of per_day }
    ensures some { 1 ≤ result }
    ensures most { result ≤ 24 }
{
    per_day.max(1).min(24)
}

// Returns where the time unit from instant `t` on begins. A day of the axis has as many units as a
// working day.
#[tactic(auto, unfolding(crate::specs::Axis::unit_from), using(crate::proofs::AxisLemmas::fine_product))]
fn unit_from(days: &[Date], per_day: u32, t: u32) -> u64
    ensures place { result ≡ spec.unit_from days.now per_day t }
    ensures most { result ≤ 200000000000 }
{
    let units = units_of(per_day);
    let day = axis_from(days, t / units);
    u64::from(day) * u64::from(units) + u64::from(t % units)
}

// Returns where the time unit up to instant `t` ends.
#[tactic(auto, unfolding(crate::specs::Axis::unit_to))]
fn unit_to(days: &[Date], per_day: u32, t: u32) -> u64
    ensures place { result ≡ spec.unit_to days.now per_day t }
    ensures most { result ≤ 200000000001 }
{
    if t < 1 {
        0
    } else {
        unit_from(days, per_day, t - 1) + 1
    }
}

/// Returns where the time unit from instant `t` on begins on a chart whose axis has so many days.
#[tactic(auto, unfolding(crate::specs::Axis::begin_place))]
pub(crate) fn begin_place(span: u32, days: &[Date], per_day: u32, t: u32) -> u64
    ensures { result ≡ spec.begin_place span days.now per_day t }
{
    fine_place(span, units_of(per_day), unit_from(days, per_day, t))
}

/// Returns where the time unit up to instant `t` ends on a chart whose axis has so many days.
#[tactic(auto, unfolding(crate::specs::Axis::end_place))]
pub(crate) fn end_place(span: u32, days: &[Date], per_day: u32, t: u32) -> u64
    ensures { result ≡ spec.end_place span days.now per_day t }
{
    fine_place(span, units_of(per_day), unit_to(days, per_day, t))
}

// Returns the number of the week of instant `t`, 0 if it has no day.
fn week_at(days: &[Date], t: u32) -> u32
    ensures { result ≡ spec.week_at days.now t }
{
    match days.get(t as usize) {
        Some(&day) => day_number(day) / 7,
        None => 0,
    }
}

/// Returns whether instant `t` is the first one of a week, and not the first one of all.
#[tactic(auto, unfolding(crate::specs::Axis::starts_week))]
pub(crate) fn starts_week(days: &[Date], t: u32) -> bool
    ensures { result ≡ spec.starts_week days.now t }
{
    if t < 1 {
        return false;
    }
    week_at(days, t - 1) != week_at(days, t)
}

// Returns whether the week of instant `t` is labelled.
#[tactic(auto, unfolding(crate::specs::Axis::is_labelled_week))]
fn is_labelled_week(span: u32, days: &[Date], t: u32) -> bool
    ensures { result ≡ spec.is_labelled_week span days.now t }
{
    let distance = week_distance(span);
    week_at(days, t).saturating_sub(week_at(days, 0)) % distance == 0
}

// Returns the weekday of a day, 0 for a Monday.
fn weekday(day: Date) -> u32
    ensures { result ≡ spec.weekday day }
{
    day_number(day) % 7
}

// Returns the first weekday of these days, 7 if there are none.
fn first_weekday(days: &[Date]) -> u32
    ensures { result ≡ spec.first_weekday days.now }
{
    let mut least = 7;
    for &day in days {
        least = least.min(weekday(day));
    }
    least
}

// Returns whether instant `t` has a day on the first weekday of these days.
fn is_on_first(days: &[Date], t: u32) -> bool
    ensures { result ≡ spec.is_on_first days.now (slice_get days.now t) }
{
    match days.get(t as usize) {
        Some(&day) => weekday(day) == first_weekday(days),
        None => false,
    }
}

// Returns whether instant `t` begins a labelled week, on the first weekday.
#[tactic(auto, unfolding(crate::specs::Axis::starts_labelled))]
fn starts_labelled(span: u32, days: &[Date], t: u32) -> bool
    ensures { result ≡ spec.starts_labelled span days.now t }
{
    if !starts_week(days, t) {
        return false;
    }
    if is_labelled_week(span, days, t) {
        is_on_first(days, t)
    } else {
        false
    }
}

/// Returns whether instant `t` has a label, for which there is room on both sides.
#[tactic(auto, unfolding(crate::specs::Axis::has_label))]
pub(crate) fn has_label(span: u32, days: &[Date], t: u32) -> bool
    ensures { result ≡ spec.has_label span days.now t }
{
    if t < 1 {
        return true;
    }
    let x = place(span, axis_from(days, t));
    if x < 436 {
        return false;
    }
    if 1291 < x {
        return false;
    }
    starts_labelled(span, days, t)
}

/// Returns the number of days that have a mark.
pub(crate) fn day_count(days: &[Date]) -> u32
    ensures { result ≡ spec.day_count days.now }
{
    days.len().min(20_000_000) as u32
}

/// Returns the same for weeks and days without work.
pub(crate) fn shade_count(days: &[Date]) -> u32
    ensures { result ≡ spec.shade_count days.now }
{
    if days.len() <= 2000 {
        days.len() as u32
    } else {
        0
    }
}
