//! A text of holidays, line by line.

ghost use Rattle.std.specs.Prelude.{◌≡◌, ◌≤◌, ◌⊎◌, length, IfOk, IfErr, OnOk};
ghost use Rattle.plan_holidays.specs.HolidayText as spec;
ghost use Rattle.plan_holidays.specs.declared.fault.HolidayFault.TheVariants as fault;

use crate::days::days_of;
use crate::entries::span_of;
use crate::fault::HolidayFault;
use crate::lines::{cut_line, entry_of, without_mark};
use jiff::civil::Date;
use plan_calendar::{Calendar, MOST_HOLIDAYS};
use std::alloc::Global;

// Returns the days that the line with this number names.
fn days_on(alloc: Global, number: u64, line: &[u8]) -> Result<Vec<Date>, HolidayFault>
    ensures ok { IfOk result (λ days. spec.NamesDays line.now days.items) }
    ensures err { IfErr result (λ first. (first ≡ fault.Memory) ⊎
        ((first ≡ fault.BadLine number) × spec.IsBadLine line.now)) }
{
    let entry = entry_of(alloc, line)?;
    if entry.is_empty() {
        return Ok(Vec::new(alloc));
    }
    let Some(span) = span_of(&entry) else {
        return Err(HolidayFault::BadLine(number));
    };
    Ok(days_of(alloc, span)?)
}

// Adds the days that the line with this number names to those of the lines before it.
fn add_line(
    alloc: Global,
    days: &mut Vec<Date>,
    number: u64,
    line: &[u8],
) -> Result<(), HolidayFault>
    requires { length days.old.items ≤ 10000 }
    ensures ok { OnOk result (spec.AddsDays days.old.items line.now days.new.items) }
    ensures err { IfErr result (spec.RefusesLine days.old.items number line.now) }
{
    let mut more = days_on(alloc, number, line)?;
    if days.len() + more.len() > MOST_HOLIDAYS {
        return Err(HolidayFault::TooMany);
    }
    days.append(&mut more)?;
    Ok(())
}

// Returns the days that the lines of a text name.
fn days_in(alloc: Global, text: &[u8]) -> Result<Vec<Date>, HolidayFault>
    ensures named { IfOk result (λ days. spec.AreHolidays (spec.lines text.now) days.items) }
    ensures refused { IfErr result (spec.RefusesLines (spec.lines text.now)) }
{
    let mut days = Vec::new(alloc);
    let mut number = 0;
    let mut rest = Some(text);
    while let Some(left) = rest {
        let (line, others) = cut_line(left);
        number += 1;
        add_line(alloc, &mut days, number, line)?;
        rest = others;
    }
    Ok(days)
}

/// Reads the holidays in a text. A line is a date, a range `DATE..DATE` with its last date, or
/// blank; `#` begins a comment. Spaces, tabs, carriage returns and a byte-order mark at the start
/// are ignored. Dates are written `YYYY-MM-DD`, from 1900-01-01 to 2199-12-31. The days are in the
/// order of the lines; a day may be named again. The error is that of the first line with an error.
pub fn parse_holidays(alloc: Global, text: &[u8]) -> Result<Vec<Date>, HolidayFault>
    // The days of the lines, one line after the other.
    ensures named { IfOk result (λ days. spec.NamesHolidays text.now days.items) }
    // A day is among them exactly if a line of the text names it.
    ensures exact { IfOk result (λ days. spec.AreThoseOf text.now days.items) }
    ensures refused { IfErr result (spec.RefusesText text.now) }
{
    days_in(alloc, without_mark(text))
}

/// Returns the calendar with the holidays in a text instead of its own, as [`parse_holidays`] reads
/// them.
pub fn with_holidays_in(
    alloc: Global,
    calendar: Calendar,
    text: &[u8],
) -> Result<Calendar, HolidayFault>
    ensures made { IfOk result (spec.HasHolidays calendar text.now) }
    ensures refused { IfErr result (spec.RefusesText text.now) }
{
    let days = parse_holidays(alloc, text)?;
    Ok(calendar.with_holidays(alloc, days)?)
}
