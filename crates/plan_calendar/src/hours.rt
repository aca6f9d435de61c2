//! Working days of several time units, an hour each.

ghost use Rattle.std.specs.Prelude.{◌≡◌, ◌≤◌, IfOk, IfErr};
ghost use Rattle.plan_calendar.specs.Hours as spec;
ghost use Rattle.plan_calendar.specs.declared.hours.HoursFault.TheVariants.{BadHours};

use crate::clock::time_in;
use std::marker::Model;
use thiserror::Error;

/// An error of the hours of a working day.
#[derive(Clone, Copy, Debug, PartialEq, Eq, Error)]
pub enum HoursFault {
    /// A working day has no time unit, or its first hour isn't written `HH:MM`, or its last hour
    /// would end after midnight.
    #[error("G7 hours")]
    BadHours,
}

/// The hours of a working day: a number of time units from 1 to 24, each an hour long, and the time
/// of day at which the first one begins. The last one ends by midnight.
#[derive(Clone, Copy, Debug, PartialEq, Eq)]
pub struct Hours {
    per_day: u32,
    opens: u32,
}

impl Model for Hours {
    ghost use Rattle.plan_calendar.specs.Hours.{WorkHours, AreWorkHours};

    ghost Value = { WorkHours };

    ghost view = { λ h. record { per_day = h.per_day; opens = h.opens } };

    ghost inverse = { λ h. record { per_day = h.per_day; opens = h.opens } };

    ghost invariant = { λ h. AreWorkHours (record { per_day = h.per_day; opens = h.opens }) };
}

impl Hours {
    /// Returns the hours of a working day with `per_day` time units. `opens` is the time at which
    /// the first one begins: five bytes `HH:MM`, from 00:00 to 23:59. Allocates nothing.
    pub fn new(per_day: u32, opens: &str) -> Result<Hours, HoursFault>
        ensures ok { IfOk result (spec.IsHoursOf per_day opens.now) }
        ensures refused { IfErr result (λ fault. (fault ≡ BadHours)
            × spec.RefusesHours per_day opens.now) }
    {
        let Some(opens) = time_in(opens.as_bytes()) else {
            return Err(HoursFault::BadHours);
        };
        if per_day < 1 || per_day > 24 || opens + per_day * 60 > 1440 {
            return Err(HoursFault::BadHours);
        }
        Ok(Hours { per_day, opens })
    }

    /// Returns the number of time units of a working day.
    pub fn per_day(self) -> u32
        ensures { result ≡ self.per_day }
    {
        self.per_day
    }

    /// Returns the working day of a time unit. Both are counted from 0.
    pub fn working_day(self, unit: u64) -> u64
        ensures day { result ≡ spec.working_day_of self unit }
        ensures limit { result ≤ unit }
    {
        unit / self.per_day as u64
    }

    /// Returns the minute of the day at which a time unit begins.
    pub fn begin(self, unit: u64) -> u32
        ensures begin { result ≡ spec.begin_of self unit }
        ensures limit { result ≤ 1440 }
    {
        self.opens + (unit % self.per_day as u64) as u32 * 60
    }

    /// Returns the minute of the day at which a time unit ends. 1,440 is the end of the day.
    pub fn end(self, unit: u64) -> u32
        ensures end { result ≡ spec.end_of self unit }
        ensures limit { result ≤ 1440 }
    {
        self.opens + ((unit % self.per_day as u64) as u32 + 1) * 60
    }
}
