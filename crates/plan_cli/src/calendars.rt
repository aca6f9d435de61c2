//! The calendar of a command, from its texts.

ghost use Rattle.std.specs.Prelude.{IfOk, IfErr};
ghost use Rattle.plan_errors.specs.Output.{Refuses};
ghost use Rattle.plan_cli.specs.Calendars as spec;

use crate::calendar_refusals::{calendar_refusal, holiday_refusal};
use plan_errors::CliFault;
use plan_gantt::Calendar;
use plan_holidays::{HolidayFault, weekday_digits, with_holidays_in};
use plan_psplib::LONGEST_TEXT;
use std::alloc::Global;

/// The texts of a calendar: its first date, `YYYY-MM-DD` from 1900-01-01 to 2199-12-31; its working
/// weekdays, as seven marks `0` or `1` from Monday on or in words such as `mon-fri`; its holidays,
/// a date or a range of dates in each line. An empty text has no holidays.
#[derive(Clone, Copy, Debug, Drop)]
pub struct Dates<'a> {
    pub start: &'a str,
    pub marks: &'a str,
    pub holidays: &'a [u8],
}

// Returns the calendar of a first date and marks, without holidays.
fn plain_calendar(alloc: Global, dates: Dates<'_>) -> Result<Calendar, CliFault>
    ensures made { IfOk result (spec.IsPlain dates.entry) }
    ensures refused { IfErr result (Refuses (spec.TellsBadDates dates.entry)) }
{
    let digits = weekday_digits(alloc, dates.marks)?;
    Calendar::new(dates.start, digits.as_str()).map_err(|fault| calendar_refusal(alloc, fault))
}

// Returns a calendar with the holidays in a text.
fn with_holidays(alloc: Global, calendar: Calendar, text: &[u8]) -> Result<Calendar, CliFault>
    ensures made { IfOk result (spec.AddsHolidays calendar text.now) }
    ensures refused { IfErr result (Refuses (spec.TellsBadHolidays text.now)) }
{
    if text.len() > LONGEST_TEXT {
        return Err(holiday_refusal(alloc, HolidayFault::TooMany));
    }
    match with_holidays_in(alloc, calendar, text) {
        Ok(calendar) => Ok(calendar),
        Err(fault) => Err(holiday_refusal(alloc, fault)),
    }
}

/// Returns the calendar of these texts. The first error is that of the date, of the marks, or of
/// the holidays.
pub fn calendar_of(alloc: Global, dates: Dates<'_>) -> Result<Calendar, CliFault>
    ensures made { IfOk result (spec.IsDated dates.entry) }
    ensures refused { IfErr result (Refuses (spec.TellsNoCalendar dates.entry)) }
{
    let calendar = plain_calendar(alloc, dates)?;
    with_holidays(alloc, calendar, dates.holidays)
}
