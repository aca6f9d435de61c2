//! The times of the activities of a list in a schedule, as texts.

ghost use Rattle.std.specs.Prelude.{◌≡◌, ◌≤◌, None, get_or, map};
ghost use Rattle.std.specs.Prelude.{EachIndex, IfOk, IsErrOf, slice_index, string_bytes};
ghost use Rattle.plan_calendar.specs.WorkingDay.{IsBeyond};
ghost use Rattle.plan_gantt.specs.CalendarTable.{ShowsBeyond};
ghost use Rattle.plan_gantt.specs.Limits.{latest_start};
ghost use Rattle.plan_list_back.specs.ListBack.{times_of};
ghost use Rattle.plan_table.specs.Table.{activity_of};
ghost use Rattle.plan_cli.specs.ListTimes as spec;

use plan_gantt::{Calendar, DaysFault};
use plan_list_back::Times;
use plan_table::{Activity, Table};
use std::alloc::{AllocError, Global};

// Returns the working day of an instant.
fn day_text(alloc: Global, calendar: &Calendar, t: u64) -> Result<String, DaysFault>
    ensures day { IfOk result (λ text. spec.IsDayText calendar.now t (string_bytes text)) }
    ensures beyond { IsErrOf result DaysFault.BeyondCalendar → IsBeyond calendar.now t }
{
    match calendar.day(t) {
        Ok(day) => Ok(day.to_string(alloc)?),
        Err(_) => Err(DaysFault::BeyondCalendar),
    }
}

// Returns the first and the last working day of so many time units from a start on.
fn day_texts(
    alloc: Global,
    calendar: &Calendar,
    start: u64,
    duration: u32,
) -> Result<(String, String), DaysFault>
    requires { start ≤ latest_start }
    ensures days { IfOk result (λ days. spec.AreDayTexts calendar.now start duration
        (string_bytes days.0) (string_bytes days.1)) }
    ensures beyond { IsErrOf result DaysFault.BeyondCalendar →
        ShowsBeyond calendar.now start duration }
{
    if duration == 0 {
        return Ok((String::new(alloc), String::new(alloc)));
    }
    let first = day_text(alloc, calendar, start)?;
    let last = day_text(alloc, calendar, start + u64::from(duration - 1))?;
    Ok((first, last))
}

// Returns a start and a finish as numbers of time units.
fn unit_texts(alloc: Global, start: u64, duration: u32) -> Result<(String, String), AllocError>
    requires { start ≤ latest_start }
    ensures { IfOk result (λ units. spec.AreTexts None start duration
        (string_bytes units.0) (string_bytes units.1)) }
{
    let first = start.to_string(alloc)?;
    let last = (start + u64::from(duration)).to_string(alloc)?;
    Ok((first, last))
}

// Returns the texts of a start and a finish: with a calendar they are days.
fn texts_of(
    alloc: Global,
    calendar: Option<&Calendar>,
    start: u64,
    duration: u32,
) -> Result<(String, String), DaysFault>
    requires { start ≤ latest_start }
    ensures texts { IfOk result (λ texts. spec.AreTexts (spec.calendar_in calendar.entry) start
        duration (string_bytes texts.0) (string_bytes texts.1)) }
    ensures beyond { IsErrOf result DaysFault.BeyondCalendar →
        spec.IsBeyondIf (spec.calendar_in calendar.entry) start duration }
{
    match calendar {
        Some(calendar) => day_texts(alloc, calendar, start, duration),
        None => Ok(unit_texts(alloc, start, duration)?),
    }
}

// Returns the id of an activity, if the list has ids.
fn id_in<'a>(own_ids: bool, activity: &'a Activity) -> &'a str
    ensures { result.now ≡ spec.id_in own_ids (string_bytes activity.now.id) }
{
    if own_ids { activity.id.as_str() } else { "" }
}

// Returns the times of an activity with a start and a slack.
fn times_of_activity<'a>(
    alloc: Global,
    calendar: Option<&Calendar>,
    own_ids: bool,
    activity: &'a Activity,
    start: u64,
    slack: u64,
) -> Result<Times<'a>, DaysFault>
    requires { start ≤ latest_start }
    ensures times { IfOk result (λ times. spec.AreTimesOf (spec.calendar_in calendar.entry)
        own_ids (activity_of activity.now) start slack (times_of times)) }
    ensures beyond { IsErrOf result DaysFault.BeyondCalendar →
        spec.IsBeyondIf (spec.calendar_in calendar.entry) start activity.now.duration }
{
    let (start, finish) = texts_of(alloc, calendar, start, activity.duration)?;
    Ok(Times {
        line: activity.line,
        id: id_in(own_ids, activity),
        start,
        finish,
        slack: slack.to_string(alloc)?,
    })
}

// Returns the number at an index, or 0 if there is none.
fn number_at(numbers: &[u64], k: usize) -> u64
    ensures { result ≡ get_or numbers.now k 0 }
{
    match numbers.get(k) {
        Some(number) => *number,
        None => 0,
    }
}

/// Returns the times of the activities of a table, with the starts and the slacks of its project:
/// index `k` is that of activity `k + 1` of the project file. With a calendar the starts and the
/// finishes are days.
pub(crate) fn list_times<'a>(
    alloc: Global,
    calendar: Option<&Calendar>,
    table: &'a Table,
    starts: &[u64],
    slacks: &[u64],
) -> Result<Vec<Times<'a>>, DaysFault>
    requires { EachIndex starts.now (λ k. slice_index starts.now k ≤ latest_start) }
    ensures times { IfOk result (λ all. spec.AreTimes (spec.calendar_in calendar.entry) table.now
        starts.now slacks.now (map times_of all.items)) }
    ensures beyond { IsErrOf result DaysFault.BeyondCalendar →
        spec.HasDayBeyond (spec.calendar_in calendar.entry) table.now starts.now }
{
    let mut all = Vec::new(alloc);
    for (k, activity) in table.activities.iter().enumerate() {
        let start = number_at(starts, k + 1);
        let slack = number_at(slacks, k + 1);
        let own = table.own_ids;
        let times = times_of_activity(alloc, calendar, own, activity, start, slack)?;
        all.push(times).map_err(AllocError::from)?;
    }
    Ok(all)
}
