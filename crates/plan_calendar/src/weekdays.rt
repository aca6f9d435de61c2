//! The names of weekdays.

ghost use Rattle.std.specs.Prelude.{◌≡◌, IfOk, string_bytes};
ghost use Rattle.plan_calendar.specs.Weekdays as spec;

use jiff::civil::{Date, Weekday};
use std::alloc::{AllocError, Global};

/// Returns the name of the weekday of a date in three letters, `Mon` to `Sun`.
#[tactic(auto, unfolding(crate::specs::Weekdays::weekday_name))]
pub fn weekday_name(date: Date) -> &'static str
    ensures { result.now ≡ spec.weekday_name date }
{
    match date.weekday() {
        Weekday::Monday => "Mon",
        Weekday::Tuesday => "Tue",
        Weekday::Wednesday => "Wed",
        Weekday::Thursday => "Thu",
        Weekday::Friday => "Fri",
        Weekday::Saturday => "Sat",
        Weekday::Sunday => "Sun",
    }
}

/// Returns a date as `2026-11-30`, or `Mon 2026-11-30` with its weekday.
pub fn shown_date(alloc: Global, weekdays: bool, date: Date) -> Result<String, AllocError>
    ensures { IfOk result (λ text. string_bytes text ≡ spec.shown_date weekdays date) }
{
    if !weekdays {
        return date.to_string(alloc);
    }
    let name = weekday_name(date);
    let day = date.to_string(alloc)?;
    format!(in alloc; "{name} {day}")
}
