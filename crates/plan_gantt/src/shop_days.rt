//! The table of working days of a shop.

ghost use Rattle.std.specs.Prelude.{◌≡◌, ◌++◌, ◌≤◌, ◌<◌, List, ℕ, length, slice_index, EachIndex, IfOk, OnOk, IsErrOf, string_bytes};
ghost use Rattle.plan_shop.specs.Shop.{count_steps};
ghost use Rattle.plan_gantt.specs.Limits.{latest_start};
ghost use Rattle.plan_gantt.specs.CalendarTable.{IsDaysLine, HasDayBeyond};
ghost use Rattle.plan_gantt.specs.ShopCharts as spec;

use crate::column::{push_first, push_number};
use crate::days::{DaysFault, push_days_line};
use crate::shop_charts::step_interval;
use crate::shops::step_count;
use plan_calendar::Calendar;
use plan_shop::Shop;
use std::alloc::{AllocError, Global};

// Appends the part of a line before the days of step `x`: its job, and its number in the job.
fn push_front(text: &mut String, shop: &Shop, x: u32) -> Result<(), AllocError>
    requires { x < count_steps shop.now }
    ensures { OnOk result
        (string_bytes text.new ≡ string_bytes text.old ++ spec.step_front shop.now x) }
{
    let machines = shop.machines();
    push_first(text, x / machines + 1)?;
    push_number(text, (x % machines + 1) as u64)
}

// The line of step `x`.
fn push_line(
    text: &mut String,
    shop: &Shop,
    starts: &[u64],
    calendar: &Calendar,
    x: u32,
) -> Result<(), DaysFault>
    requires step { x < count_steps shop.now }
    requires starts { length starts.now ≡ count_steps shop.now }
    requires limit { EachIndex starts.now (λ k. slice_index starts.now k ≤ latest_start) }
    ensures line { OnOk result ((line : List ℕ) × IsDaysLine calendar.now
        (spec.step_front shop.now x) (spec.step_interval shop.now starts.now x) line
        × (string_bytes text.new ≡ string_bytes text.old ++ line)) }
    ensures beyond { IsErrOf result DaysFault.BeyondCalendar →
        HasDayBeyond calendar.now (spec.step_interval shop.now starts.now x) }
{
    push_front(text, shop, x)?;
    push_days_line(text, calendar, step_interval(shop, starts, x))
}

/// Returns the table of working days of a shop's schedule: a line for each step in flat order. A
/// line contains the job, the step's number in it, and the days of the first and last instants, or
/// hyphens if the time is 0. Index `x` of `starts` is flat step `x`. Fails with
/// [`DaysFault::BeyondCalendar`] if one of these days would be after 9999-12-31.
pub fn shop_calendar_table(
    alloc: Global,
    shop: &Shop,
    starts: &[u64],
    calendar: &Calendar,
) -> Result<String, DaysFault>
    requires starts { length starts.now ≡ count_steps shop.now }
    requires limit { EachIndex starts.now (λ k. slice_index starts.now k ≤ latest_start) }
    ensures text { IfOk result (λ text. spec.IsShopCalendarTable calendar.now shop.now starts.now
        (string_bytes text)) }
    ensures beyond { IsErrOf result DaysFault.BeyondCalendar →
        spec.HasStepBeyond calendar.now shop.now starts.now }
{
    let mut text = String::new(alloc);
    text.push_str(" job    step       first        last\n")?;
    for x in 0..step_count(shop) {
        push_line(&mut text, shop, starts, calendar, x)?;
    }
    Ok(text)
}
