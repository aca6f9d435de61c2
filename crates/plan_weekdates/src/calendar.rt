//! A calendar, and the instants of its dates.

ghost use Rattle.std.specs.Prelude.{◌≡◌, ◌≤◌, ℤ, pos, nat_lt, ◌+ℤ◌, ◌≤ℤ◌, ◌<ℤ◌};
ghost use Rattle.jiff_core.specs.Date.{epoch_day};
ghost use Rattle.plan_calendar.specs.CalendarText.{IsStartText};
ghost use Rattle.plan_calendar.specs.WorkingDay.{working_days};
ghost use Rattle.std.specs.Bool.{Decides};
ghost use Rattle.plan_weekdates.specs.Instants as spec;

use jiff::civil::Date;
use plan_calendar::{Calendar, date_in};
use std::marker::Model;

/// A calendar that counts the working days before a date.
#[derive(Debug, Drop)]
pub struct InstantCalendar {
    calendar: Calendar,
    start: Date,
}

impl Model for InstantCalendar {
    ghost use Rattle.std.specs.Prelude.{◌≡◌};
    ghost use Rattle.jiff_core.specs.Date.{epoch_day};
    ghost use Rattle.plan_calendar.specs.WorkingDay.{Workdays};

    ghost Value = { Workdays };

    ghost view = { λ c. c.calendar };

    ghost invariant = { λ c. epoch_day c.start ≡ epoch_day c.calendar.start };
}

// Returns the number of a date, counted from -9999-01-01 on.
fn place_of(date: Date) -> u32
    ensures place { epoch_day date +ℤ pos 4371587 ≡ pos result }
    ensures limit { result ≤ 7304483 }
{
    date.to_plain().days_since_min()
}

// Tests whether the working day of an instant is one of the first days.
fn is_within(calendar: &InstantCalendar, days: u32, t: u32) -> bool
    requires { (epoch_day calendar.now.start +ℤ pos days) ≤ℤ pos 2932897 }
    ensures { result ≡ nat_lt t (working_days calendar.now (epoch_day calendar.now.start) days) }
{
    match calendar.calendar.day(t as u64) {
        Ok(date) => place_of(date) < place_of(calendar.start) + days,
        Err(_) => false,
    }
}

// Returns the number of working days among the first days.
#[tactic(auto, using(crate::proofs::CountLemmas::few))]
fn count_within(calendar: &InstantCalendar, days: u32) -> u32
    requires { (epoch_day calendar.now.start +ℤ pos days) ≤ℤ pos 2932897 }
    ensures { result ≡ working_days calendar.now (epoch_day calendar.now.start) days }
{
    let mut low = 0;
    let mut high = days;
    while low < high {
        let middle = low + (high - low) / 2;
        if is_within(calendar, days, middle) {
            low = middle + 1;
        } else {
            high = middle;
        }
    }
    low
}

// Returns the number of working days before a day, which is counted from -9999-01-01 on.
fn count_before(calendar: &InstantCalendar, place: u32) -> u32
    requires { place ≤ 7304484 }
    ensures { (day : ℤ) → day +ℤ pos 4371587 ≡ pos place
        → result ≡ spec.working_before calendar.now day }
{
    count_within(calendar, place.saturating_sub(place_of(calendar.start)))
}

impl InstantCalendar {
    /// Returns a calendar whose dates are counted. `start` is the text of its first date.
    pub fn new(calendar: Calendar, start: &str) -> InstantCalendar
        requires start { IsStartText start.now calendar.start }
        ensures { result ≡ calendar }
    {
        match date_in(start.as_bytes()) {
            Some(start) => InstantCalendar { calendar, start },
            None => unreachable!(),
        }
    }

    /// Returns the calendar.
    pub fn calendar(&self) -> &Calendar
        ensures { result.now ≡ self.now }
    {
        &self.calendar
    }

    /// Returns the instant at which a date begins: the number of working days from the first date
    /// on that are before it.
    pub fn instant_before(&self, date: Date) -> u32
        ensures { result ≡ spec.instant_before self.now date }
    {
        count_before(self, place_of(date))
    }

    /// Returns the instant at which a date ends: the number of working days from the first date on
    /// up to it.
    pub fn instant_behind(&self, date: Date) -> u32
        ensures { result ≡ spec.instant_behind self.now date }
    {
        count_before(self, place_of(date) + 1)
    }

    /// Whether a date is before the first one.
    pub fn is_too_early(&self, date: Date) -> bool
        ensures { Decides result (spec.IsTooEarly self.now date) }
    {
        place_of(date) < place_of(self.start)
    }
}
