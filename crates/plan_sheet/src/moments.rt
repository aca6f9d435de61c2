//! The moments at which bars begin and end.

ghost use Rattle.std.specs.Prelude.{◌≡◌, ◌++◌, ◌≤◌, IfOk, IfSome, OnOk, string_bytes};
ghost use Rattle.plan_sheet.specs.Days.{compact_day as day_of_index};
ghost use Rattle.plan_sheet.specs.Moments as spec;

use crate::days::compact;
use jiff::civil::Date;
use plan_calendar::{Hours, push_clock, shown_moment};
use std::alloc::{AllocError, Global};

// Returns the working day of a time unit.
fn day_of(hours: Option<Hours>, unit: u32) -> u64
    ensures day { result ≡ spec.day_of hours unit }
    ensures limit { result ≤ unit }
{
    match hours {
        Some(hours) => hours.working_day(u64::from(unit)),
        None => u64::from(unit),
    }
}

/// Returns the time units of a working day.
pub(crate) fn per_day_of(hours: Option<Hours>) -> u32
    ensures { result ≡ spec.per_day_of hours }
{
    match hours {
        Some(hours) => hours.per_day(),
        None => 1,
    }
}

/// Returns the number of working days that so many time units need.
pub(crate) fn day_count(hours: Option<Hours>, units: u32) -> u64
    ensures count { result ≡ spec.day_count hours units }
    ensures limit { result ≤ units }
{
    if units < 1 {
        return 0;
    }
    day_of(hours, units - 1) + 1
}

// Returns the day at an index without hyphens, or an empty text if there is none.
fn compact_at(alloc: Global, days: &[Date], index: u64) -> Result<String, AllocError>
    ensures { IfOk result (λ text. string_bytes text ≡ day_of_index days.now index) }
{
    let day = match days.get(index as usize) {
        Some(day) => day.to_string(alloc)?,
        None => String::new(alloc),
    };
    compact(alloc, &day)
}

// Returns a minute of a working day.
fn moment_stamp(alloc: Global, days: &[Date], day: u64, minute: u32) -> Result<String, AllocError>
    requires limit { minute ≤ 1440 }
    ensures { IfOk result (λ text. string_bytes text ≡ spec.moment_stamp days.now day minute) }
{
    let mut text = compact_at(alloc, days, day)?;
    push_clock(&mut text, minute)?;
    Ok(text)
}

/// Returns the moment at which a time unit begins. Without hours that is its day.
pub(crate) fn begin_stamp(
    alloc: Global,
    hours: Option<Hours>,
    days: &[Date],
    unit: u32,
) -> Result<String, AllocError>
    ensures { IfOk result (λ text. string_bytes text ≡ spec.begin_stamp hours days.now unit) }
{
    let index = u64::from(unit);
    match hours {
        Some(hours) => moment_stamp(alloc, days, hours.working_day(index), hours.begin(index)),
        None => compact_at(alloc, days, index),
    }
}

// Returns the moment at which an hour of a working day ends.
fn end_moment(
    alloc: Global,
    days: &[Date],
    nexts: &[Date],
    day: u64,
    minute: u32,
) -> Result<String, AllocError>
    requires limit { minute ≤ 1440 }
    ensures { IfOk result (λ text.
        string_bytes text ≡ spec.end_moment days.now nexts.now day minute) }
{
    if minute == 1440 {
        moment_stamp(alloc, nexts, day, 0)
    } else {
        moment_stamp(alloc, days, day, minute)
    }
}

/// Returns the moment at which a time unit ends. Without hours that is the day after it.
pub(crate) fn end_stamp(
    alloc: Global,
    hours: Option<Hours>,
    days: &[Date],
    nexts: &[Date],
    unit: u32,
) -> Result<String, AllocError>
    ensures { IfOk result (λ text.
        string_bytes text ≡ spec.end_stamp hours days.now nexts.now unit) }
{
    let index = u64::from(unit);
    match hours {
        Some(hours) => {
            end_moment(
                alloc,
                days,
                nexts,
                hours.working_day(index),
                hours.end(index),
            )
        }
        None => compact_at(alloc, nexts, index),
    }
}

// Returns the moment of a working day, perhaps with its time, or an empty text if there is no such
// day.
fn moment_text(
    alloc: Global,
    weekdays: bool,
    days: &[Date],
    day: u64,
    minute: Option<u32>,
) -> Result<String, AllocError>
    requires limit { IfSome minute (λ m. m ≤ 1440) }
    ensures { IfOk result (λ text.
        string_bytes text ≡ spec.moment_text weekdays days.now day minute) }
{
    match days.get(day as usize) {
        Some(&date) => shown_moment(alloc, weekdays, date, minute),
        None => Ok(String::new(alloc)),
    }
}

/// Returns the moment at which a time unit begins, as it is shown: its day, and with hours its time.
pub(crate) fn begin_text(
    alloc: Global,
    weekdays: bool,
    hours: Option<Hours>,
    days: &[Date],
    unit: u32,
) -> Result<String, AllocError>
    ensures { IfOk result (λ text.
        string_bytes text ≡ spec.begin_text weekdays hours days.now unit) }
{
    let index = u64::from(unit);
    match hours {
        Some(hours) => {
            let minute = Some(hours.begin(index));
            moment_text(alloc, weekdays, days, hours.working_day(index), minute)
        }
        None => moment_text(alloc, weekdays, days, index, None),
    }
}

/// Returns the moment at which a time unit ends, as it is shown: its day, and with hours its time.
pub(crate) fn end_text(
    alloc: Global,
    weekdays: bool,
    hours: Option<Hours>,
    days: &[Date],
    unit: u32,
) -> Result<String, AllocError>
    ensures { IfOk result (λ text.
        string_bytes text ≡ spec.end_text weekdays hours days.now unit) }
{
    let index = u64::from(unit);
    match hours {
        Some(hours) => {
            let minute = Some(hours.end(index));
            moment_text(alloc, weekdays, days, hours.working_day(index), minute)
        }
        None => moment_text(alloc, weekdays, days, index, None),
    }
}
