//! The table of working days of a project.

ghost use Rattle.std.specs.Prelude.{◌≡◌, ◌+◌, ◌++◌, ◌≤◌, List, [], ℕ, length, slice_index, EachIndex, IfOk, OnOk, IsErrOf, string_bytes};
ghost use Rattle.plan_net.specs.Network.{IsActivity, count_of};
ghost use Rattle.plan_gantt.specs.Limits.{latest_start, latest_end};
ghost use Rattle.plan_gantt.specs.Charts.{activity_interval};
ghost use Rattle.plan_gantt.specs.Column.{number_column};
ghost use Rattle.plan_calendar.specs.WorkingDay.{IsBeyond};
ghost use Rattle.plan_gantt.specs.CalendarTable as spec;
ghost use Rattle.plan_gantt.specs.declared.days.DaysFault.TheVariants.{NoMemory};

use crate::charts::interval_of;
use crate::column::{push_first, push_right};
use crate::interval::Interval;
use plan_calendar::Calendar;
use plan_net::Network;
use std::alloc::{AllocError, Global};
use thiserror::Error;

/// An error of a table of working days.
#[derive(Clone, Copy, Debug, PartialEq, Eq, Error)]
pub enum DaysFault {
    /// Memory ran out.
    #[error("no memory")]
    NoMemory,
    /// The day of the first or of the last instant of some interval would be after 9999-12-31.
    #[error("G3 beyond calendar")]
    BeyondCalendar,
}

impl From<AllocError> for DaysFault {
    ghost from_gives = { λ _ fault. fault ≡ NoMemory };

    fn from(_error: AllocError) -> Self {
        DaysFault::NoMemory
    }
}

// The day of an instant, in its column.
fn push_day(text: &mut String, calendar: &Calendar, t: u64) -> Result<(), DaysFault>
    ensures day { OnOk result ((day : List ℕ) × spec.IsDayText calendar.now t day ×
        (string_bytes text.new ≡ string_bytes text.old ++ day)) }
    ensures beyond { IsErrOf result DaysFault.BeyondCalendar → IsBeyond calendar.now t }
{
    let Ok(date) = calendar.day(t) else {
        return Err(DaysFault::BeyondCalendar);
    };
    let word = date.to_string(*text.allocator())?;
    push_right(text, 12, &word)?;
    Ok(())
}

// The days of the first and the last instant of an interval, in their columns.
fn push_days(text: &mut String, calendar: &Calendar, interval: Interval) -> Result<(), DaysFault>
    requires { interval.start + interval.duration ≤ latest_end }
    ensures days { OnOk result ((days : List ℕ)
        × spec.IsDaysText calendar.now interval.start interval.duration days
        × (string_bytes text.new ≡ string_bytes text.old ++ days)) }
    ensures beyond { IsErrOf result DaysFault.BeyondCalendar →
        spec.HasDayBeyond calendar.now interval }
{
    if interval.duration == 0 {
        push_right(text, 12, "-")?;
        push_right(text, 12, "-")?;
        return Ok(());
    }
    push_day(text, calendar, interval.start)?;
    push_day(text, calendar, interval.start + (interval.duration - 1))
}

// The end of a line: the days of an interval.
pub(crate) fn push_days_line(
    text: &mut String,
    calendar: &Calendar,
    interval: Interval,
) -> Result<(), DaysFault>
    requires { interval.start + interval.duration ≤ latest_end }
    ensures line { OnOk result ((line : List ℕ) × spec.IsDaysLine calendar.now [] interval line ×
        (string_bytes text.new ≡ string_bytes text.old ++ line)) }
    ensures beyond { IsErrOf result DaysFault.BeyondCalendar →
        spec.HasDayBeyond calendar.now interval }
{
    push_days(text, calendar, interval)?;
    text.push_str("\n")?;
    Ok(())
}

// The line of activity `j`.
fn push_line(
    text: &mut String,
    network: &Network,
    starts: &[u64],
    calendar: &Calendar,
    j: u32,
) -> Result<(), DaysFault>
    requires activity { IsActivity network.now j }
    requires starts { length starts.now ≡ count_of network.now }
    requires limit { EachIndex starts.now (λ k. slice_index starts.now k ≤ latest_start) }
    ensures line { OnOk result ((line : List ℕ) × spec.IsDaysLine calendar.now (number_column 4 j)
        (activity_interval network.now starts.now j) line
        × (string_bytes text.new ≡ string_bytes text.old ++ line)) }
    ensures beyond { IsErrOf result DaysFault.BeyondCalendar →
        spec.HasDayBeyond calendar.now (activity_interval network.now starts.now j) }
{
    push_first(text, j)?;
    push_days_line(text, calendar, interval_of(network, starts, j))
}

/// Returns the table of working days of a schedule: a line for each activity with the days of its
/// first and last instants, or hyphens if its duration is 0. Index `k` of `starts` is
/// activity `k + 1`. Fails with [`DaysFault::BeyondCalendar`] if one of these days would be after
/// 9999-12-31.
pub fn calendar_table(
    alloc: Global,
    network: &Network,
    starts: &[u64],
    calendar: &Calendar,
) -> Result<String, DaysFault>
    requires starts { length starts.now ≡ count_of network.now }
    requires limit { EachIndex starts.now (λ k. slice_index starts.now k ≤ latest_start) }
    ensures text { IfOk result (λ text. spec.IsCalendarTable calendar.now network.now starts.now
        (string_bytes text)) }
    ensures beyond { IsErrOf result DaysFault.BeyondCalendar →
        spec.HasActivityBeyond calendar.now network.now starts.now }
{
    let mut text = String::new(alloc);
    text.push_str(" act       first        last\n")?;
    for k in 0..network.len() {
        push_line(&mut text, network, starts, calendar, k as u32 + 1)?;
    }
    Ok(text)
}
