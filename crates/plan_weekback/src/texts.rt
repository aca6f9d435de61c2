//! The texts of a start and of a finish: instants, or days.

ghost use Rattle.std.specs.Prelude.{◌≡◌, ◌-◌, IfOk, IsErrOf, string_bytes};
ghost use Rattle.plan_calendar.specs.WorkingDay.{IsBeyond};
ghost use Rattle.plan_weekback.specs.Entries as spec;
ghost use Rattle.plan_weekview.specs.WeekDays as week_days;

use plan_calendar::Calendar;
use plan_gantt::DaysFault;
use std::alloc::{AllocError, Global};

// Returns the working day of an instant.
fn day_text(alloc: Global, calendar: &Calendar, t: u64) -> Result<String, DaysFault>
    ensures day { IfOk result (λ text. spec.IsDayText calendar.now t (string_bytes text)) }
    ensures beyond { IsErrOf result DaysFault.BeyondCalendar → IsBeyond calendar.now t }
{
    match calendar.day(t) {
        Ok(day) => Ok(day.to_string(alloc)?),
        Err(_) => Err(DaysFault::BeyondCalendar),
    }
}

// Returns the digits of an instant, or an empty text if it isn't known.
fn instant_text(alloc: Global, t: Option<u32>) -> Result<String, AllocError>
    ensures { IfOk result (λ text. string_bytes text ≡ spec.instant_text t) }
{
    match t {
        Some(t) => t.to_string(alloc),
        None => Ok(String::new(alloc)),
    }
}

// Returns the day of a begin, or an empty text if it isn't known or the activity takes no time.
fn first_text(
    alloc: Global,
    calendar: &Calendar,
    begin: Option<u32>,
    ends: u64,
) -> Result<String, DaysFault>
    ensures text { IfOk result (λ text.
        spec.IsFirstText calendar.now begin ends (string_bytes text)) }
    ensures beyond { IsErrOf result DaysFault.BeyondCalendar →
        week_days.IsFirstBeyond calendar.now begin ends }
{
    match begin {
        Some(begin) if (begin as u64) < ends => day_text(alloc, calendar, begin as u64),
        Some(_) | None => Ok(String::new(alloc)),
    }
}

// Whether an activity with this begin takes time before its end.
fn takes_time(begin: Option<u32>, ends: u64) -> bool
    ensures { result ≡ week_days.takes_time begin ends }
{
    match begin {
        Some(begin) => (begin as u64) < ends,
        None => 0 < ends,
    }
}

// Returns the day of the last instant before an end. It is empty if the activity takes no time.
fn last_text(
    alloc: Global,
    calendar: &Calendar,
    begin: Option<u32>,
    ends: u64,
) -> Result<String, DaysFault>
    ensures text { IfOk result (λ text. spec.IsDayTextIf calendar.now
        (week_days.takes_time begin ends) (ends - 1) (string_bytes text)) }
    ensures beyond { IsErrOf result DaysFault.BeyondCalendar →
        week_days.IsLastBeyond calendar.now begin ends }
{
    if takes_time(begin, ends) {
        day_text(alloc, calendar, ends - 1)
    } else {
        Ok(String::new(alloc))
    }
}

/// Returns the text of a start: the instant, or with a calendar its day.
pub fn start_text(
    alloc: Global,
    calendar: Option<&Calendar>,
    begin: Option<u32>,
    ends: u64,
) -> Result<String, DaysFault>
    ensures text { IfOk result (λ text. spec.IsStartText (spec.days_in calendar.entry) begin
        ends (string_bytes text)) }
    ensures beyond { IsErrOf result DaysFault.BeyondCalendar →
        spec.IsStartBeyond (spec.days_in calendar.entry) begin ends }
{
    match calendar {
        Some(calendar) => first_text(alloc, calendar, begin, ends),
        None => Ok(instant_text(alloc, begin)?),
    }
}

/// Returns the text of a finish: the instant, or with a calendar the day of the last instant before
/// it. `begin` is the instant at which the activity begins or began, if the plan gives it.
pub fn finish_text(
    alloc: Global,
    calendar: Option<&Calendar>,
    begin: Option<u32>,
    ends: u64,
) -> Result<String, DaysFault>
    ensures text { IfOk result (λ text. spec.IsFinishText (spec.days_in calendar.entry) begin
        ends (string_bytes text)) }
    ensures beyond { IsErrOf result DaysFault.BeyondCalendar →
        spec.IsFinishBeyond (spec.days_in calendar.entry) begin ends }
{
    match calendar {
        Some(calendar) => last_text(alloc, calendar, begin, ends),
        None => Ok(ends.to_string(alloc)?),
    }
}
