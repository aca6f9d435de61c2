//! The days of a range of dates.

ghost use Rattle.std.specs.Prelude.{◌≡◌, ◌≤◌, ◌+ℤ◌, pos, IfOk};
ghost use Rattle.jiff_core.specs.Date.{epoch_day};
ghost use Rattle.plan_holidays.specs.HolidayText as spec;

use crate::entries::Span;
use jiff::civil::Date;
use jiff_core::civil;
use std::alloc::{AllocError, Global};

// Returns the date that is `days` days after -9999-01-01.
fn date_at(days: u32) -> Date
    requires { days ≤ 7304483 }
    ensures { epoch_day result +ℤ pos 4371587 ≡ pos days }
{
    Date::from_plain(civil::Date::from_days_since_min(days))
}

/// Returns the days from the first to the last date.
pub fn days_of(alloc: Global, span: Span) -> Result<Vec<Date>, AllocError>
    requires { spec.AreInOrder span.first span.last }
    ensures { IfOk result (λ days. spec.AreDays span.first span.last days.items) }
{
    let first = span.first.to_plain().days_since_min();
    let last = span.last.to_plain().days_since_min();
    let mut days = Vec::new(alloc);
    for day in first..last + 1 {
        days.push(date_at(day))?;
    }
    Ok(days)
}
