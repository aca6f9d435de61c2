//! The calendar of a list with dates, and the instant of today.

use crate::errors::FileFault;
use crate::weeks::usage;
use plan_calendar::date_in;
use plan_cli::{Dates, calendar_of};
use plan_errors::CliFault;
use plan_orders::Now;
use plan_weekdates::InstantCalendar;

/// Returns the calendar of these dates, which counts the working days before a date.
#[tactic(auto, using(crate::proofs::CalendarLemmas::start_of))]
pub(crate) fn instants_in(rt: &HostRuntime, dates: Dates<'_>) -> Result<InstantCalendar, CliFault> {
    let calendar = calendar_of(rt.alloc(), dates)?;
    Ok(InstantCalendar::new(calendar, dates.start))
}

// Returns the instant at which a date begins.
fn begin_of(rt: &HostRuntime, calendar: &InstantCalendar, date: &str) -> Result<u32, FileFault> {
    match date_in(date.as_bytes()) {
        Some(date) if !calendar.is_too_early(date) => Ok(calendar.instant_before(date)),
        Some(_) | None => Err(usage(rt, "--now is before the first date")?),
    }
}

/// Returns the instant from which the plan starts, if it is given. A date requires a calendar.
pub(crate) fn today_in(
    rt: &HostRuntime,
    now: Option<Now<'_>>,
    calendar: Option<&InstantCalendar>,
) -> Result<Option<u32>, FileFault> {
    match (now, calendar) {
        (None, _) => Ok(None),
        (Some(Now::Instant(instant)), _) => Ok(Some(instant)),
        (Some(Now::Date(date)), Some(calendar)) => Ok(Some(begin_of(rt, calendar, date)?)),
        (Some(Now::Date(_)), None) => {
            Err(usage(rt, "a date after --now requires --start and --days")?)
        }
    }
}
