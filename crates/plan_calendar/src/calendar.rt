//! A calendar, and the working day of an instant.

ghost use Rattle.std.specs.Prelude.{◌≡◌, ◌+◌, ◌*◌, ◌≤◌, pos, ◌+ℤ◌, vec_len, IfSome, IfNone, IfOk, IfErr};
ghost use Rattle.jiff_core.specs.Calendar.{IsEpochDay};
ghost use Rattle.jiff_core.specs.Date.{epoch_day};
ghost use Rattle.plan_calendar.specs.WorkingDay.{IsWorkingDay, IsBeyond};
ghost use Rattle.plan_calendar.specs.CalendarText.{IsCalendar, RefusesTexts};
ghost use Rattle.plan_calendar.specs.declared.days_off.TheConstants.{MOST_HOLIDAYS};
ghost use Rattle.plan_calendar.specs.declared.weeks.TheConstants.{MOST_DAYS};
ghost use Rattle.plan_calendar.specs.declared.calendar.CalendarFault.TheVariants.{BeyondCalendar};

use crate::days_off::{DaysOff, MOST_HOLIDAYS, shifted, sorted_indices};
use crate::first_date::start_date;
use crate::marks::week_marks;
use crate::weeks::{MOST_DAYS, nth_marked};
use jiff::civil::Date;
use jiff_core::civil;
use std::alloc::{AllocError, Global};
use std::marker::Model;
use thiserror::Error;

/// An error of a calendar or of a working day.
#[derive(Clone, Copy, Debug, PartialEq, Eq, Error)]
pub enum CalendarFault {
    /// The first date isn't written `YYYY-MM-DD`, doesn't exist, or isn't from 1900-01-01 to
    /// 2199-12-31.
    #[error("G1 date")]
    BadDate,
    /// The marks aren't seven digits `0` or `1`, or none of them is `1`.
    #[error("G2 days")]
    BadDays,
    /// The working day would come after 9999-12-31.
    #[error("G3 beyond calendar")]
    BeyondCalendar,
}

/// A first date, the weekdays on which work is done, and the holidays.
#[derive(Debug, Drop)]
pub struct Calendar {
    start: Date,
    marks: [bool; 7],
    off: Option<DaysOff>,
}

// Returns the date `days` days after `start`, if it exists.
fn later(start: Date, days: u64) -> Option<Date>
    requires { days ≤ MOST_DAYS * 14 + 6 }
    ensures some { IfSome result (λ date. epoch_day date ≡ epoch_day start +ℤ pos days) }
    ensures none { IfNone result (IsEpochDay (epoch_day start +ℤ pos days) → ⊥) }
{
    let place = start.to_plain().days_since_min() as u64 + days;
    if place > MOST_DAYS {
        return None;
    }
    Some(Date::from_plain(civil::Date::from_days_since_min(place as u32)))
}

impl Model for Calendar {
    ghost use Rattle.jiff_core.specs.Date.{epoch_day};
    ghost use Rattle.plan_calendar.specs.WorkingDay.{Workdays, IsWeek};
    ghost use Rattle.plan_calendar.specs.DaysOff.{AreDaysOff, holidays_of, indices_of};

    ghost Value = { Workdays };

    ghost view = { λ c. record { start = c.start; marks = c.marks; holidays = holidays_of c.off } };

    ghost invariant = { λ c. IsWeek c.marks × AreDaysOff (epoch_day c.start) c.marks
        (holidays_of c.off) (indices_of c.off) };
}

impl Calendar {
    /// Returns the calendar with a first date and marks of the weekdays. The date is ten bytes
    /// `YYYY-MM-DD`, from 1900-01-01 to 2199-12-31. The marks are a byte `0` or `1` for each
    /// weekday, Monday first, at least one of them `1`. If both are invalid, the error is that of
    /// the date. Allocates nothing.
    pub fn new(start: &str, marks: &str) -> Result<Calendar, CalendarFault>
        ensures ok { IfOk result (IsCalendar start.now marks.now) }
        ensures refused { IfErr result (RefusesTexts start.now marks.now) }
    {
        let Some(start) = start_date(start) else {
            return Err(CalendarFault::BadDate);
        };
        let Some(marks) = week_marks(marks) else {
            return Err(CalendarFault::BadDays);
        };
        Ok(Calendar {
            start,
            marks,
            off: None,
        })
    }

    /// Returns the calendar with these holidays instead of its own. Their order doesn't matter;
    /// a holiday may occur twice, be before the first date or fall on an unmarked weekday. The cost
    /// is that of sorting them.
    pub fn with_holidays(self, alloc: Global, holidays: Vec<Date>) -> Result<Calendar, AllocError>
        requires few { vec_len holidays ≤ MOST_HOLIDAYS }
        ensures ok { IfOk result (λ made. made ≡ record self { holidays = holidays.items }) }
    {
        let indices = sorted_indices(alloc, self.start, &self.marks, &holidays)?;
        let off = Some(DaysOff { holidays, indices });
        Ok(Calendar {
            start: self.start,
            marks: self.marks,
            off,
        })
    }

    /// Returns the date of instant `t`, in working days from 0 on: the working day that has exactly
    /// `t` working days before it, from the first date on. A working day has a marked weekday and
    /// isn't a holiday. The cost is linear in the number of holidays and doesn't depend on `t`.
    /// Allocates nothing.
    pub fn day(&self, t: u64) -> Result<Date, CalendarFault>
        ensures day { IfOk result (IsWorkingDay self.now t) }
        ensures beyond { IfErr result (λ fault. (fault ≡ BeyondCalendar) × IsBeyond self.now t) }
    {
        if t > MOST_DAYS {
            return Err(CalendarFault::BeyondCalendar);
        }
        let weekday = self.start.weekday().index() as u64;
        let index = match &self.off {
            Some(off) => shifted(&off.indices, t),
            None => t,
        };
        let days = nth_marked(&self.marks, weekday, index);
        match later(self.start, days) {
            Some(date) => Ok(date),
            None => Err(CalendarFault::BeyondCalendar),
        }
    }
}
