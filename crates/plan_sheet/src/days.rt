//! The days of a plan.

ghost use Rattle.std.specs.Prelude.{◌≡◌, ◌++◌, ◌∷◌, [], IfOk, OnOk, IsErrOf, string_bytes};
ghost use Rattle.std.specs.List.{AllZip};
ghost use Rattle.plan_calendar.specs.WorkingDay.{IsWorkingDay, IsBeyond};
ghost use Rattle.plan_sheet.specs.Days as spec;

use jiff::civil::Date;
use plan_calendar::Calendar;
use plan_gantt::DaysFault;
use std::alloc::{AllocError, Global};

// Returns the day of an instant.
fn day_at(calendar: &Calendar, t: u64) -> Result<Date, DaysFault>
    ensures day { IfOk result (IsWorkingDay calendar.now t) }
    ensures beyond { IsErrOf result DaysFault.BeyondCalendar → IsBeyond calendar.now t }
{
    let Ok(date) = calendar.day(t) else {
        return Err(DaysFault::BeyondCalendar);
    };
    Ok(date)
}

// Appends a day.
fn push_day(days: &mut Vec<Date>, day: Date) -> Result<(), AllocError>
    ensures { OnOk result (days.new.items ≡ days.old.items ++ day ∷ []) }
{
    days.push(day)?;
    Ok(())
}

/// Returns the days of the first `count` instants. Fails with [`DaysFault::BeyondCalendar`] if one
/// of them would be after 9999-12-31.
pub(crate) fn working_days(
    alloc: Global,
    calendar: &Calendar,
    count: u64,
) -> Result<Vec<Date>, DaysFault>
    ensures days { IfOk result (λ days. spec.AreDays calendar.now count days.items) }
    ensures beyond { IsErrOf result DaysFault.BeyondCalendar →
        spec.HasDayBeyond calendar.now count }
{
    let mut days = Vec::new(alloc);
    for t in 0..count {
        let day = day_at(calendar, t)?;
        push_day(&mut days, day)?;
    }
    Ok(days)
}

/// Returns the day at an index as `YYYY-MM-DD`, or an empty text if there is none.
pub(crate) fn day_text(alloc: Global, days: &[Date], t: u32) -> Result<String, AllocError>
    ensures { IfOk result (λ text. string_bytes text ≡ spec.day_text days.now t) }
{
    match days.get(t as usize) {
        Some(day) => day.to_string(alloc),
        None => Ok(String::new(alloc)),
    }
}

// Appends a character of a date, if it isn't a hyphen.
fn push_digit(text: &mut String, c: char) -> Result<(), AllocError>
    ensures { OnOk result (string_bytes text.new ≡ string_bytes text.old ++ spec.digit_of c) }
{
    if c == '-' { Ok(()) } else { text.push(c) }
}

/// Returns a date without its hyphens.
pub(crate) fn compact(alloc: Global, date: &str) -> Result<String, AllocError>
    ensures { IfOk result (λ text. string_bytes text ≡ spec.compact date.now) }
{
    let mut text = String::new(alloc);
    for c in date.chars() {
        push_digit(&mut text, c)?;
    }
    Ok(text)
}

/// Returns the day at an index without hyphens, or an empty text if there is none.
pub(crate) fn compact_day(alloc: Global, days: &[Date], t: u32) -> Result<String, AllocError>
    ensures { IfOk result (λ text. string_bytes text ≡ spec.compact_day days.now t) }
{
    let day = day_text(alloc, days, t)?;
    compact(alloc, &day)
}

// Returns the day after a day. Fails if that would be after 9999-12-31.
fn day_after(day: Date) -> Result<Date, DaysFault>
    ensures next { IfOk result (spec.IsDayAfter day) }
    ensures beyond { IsErrOf result DaysFault.BeyondCalendar → spec.IsLastDay day }
{
    let Ok(next) = day.tomorrow() else {
        return Err(DaysFault::BeyondCalendar);
    };
    Ok(next)
}

/// Returns the day after each day. Fails with [`DaysFault::BeyondCalendar`] if one of them is
/// 9999-12-31.
pub(crate) fn days_after(alloc: Global, days: &[Date]) -> Result<Vec<Date>, DaysFault>
    ensures nexts { IfOk result (λ nexts. AllZip spec.IsDayAfter days.now nexts.items) }
    ensures beyond { IsErrOf result DaysFault.BeyondCalendar → spec.HasLastDay days.now }
{
    let mut nexts = Vec::new(alloc);
    for &day in days {
        let next = day_after(day)?;
        push_day(&mut nexts, next)?;
    }
    Ok(nexts)
}
