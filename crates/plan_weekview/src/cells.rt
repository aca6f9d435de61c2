//! The cells of the days of an activity.

ghost use Rattle.std.specs.Prelude.{◌≡◌, ◌<◌, ◌-◌, IfOk, IfErr, IsErrOf};
ghost use Rattle.plan_calendar.specs.WorkingDay.{IsBeyond};
ghost use Rattle.plan_formats.specs.Cells.{cell_of};
ghost use Rattle.plan_views.specs.DayTables.{IsDayCell};
ghost use Rattle.plan_weekview.specs.WeekDays as spec;

use plan_calendar::Calendar;
use plan_formats::{Cell, day_cell};
use plan_gantt::DaysFault;
use plan_week::State;

/// Returns the instant at which an activity begins or began, if it is known. `start` is its start
/// in a plan.
pub(crate) fn begin_of(state: State, start: u32) -> Option<u32>
    ensures { result ≡ spec.begin_of state start }
{
    match state {
        State::Open { .. } => Some(start),
        State::Begun { began, .. } => Some(began),
        State::Done { .. } => None,
    }
}

// Returns the cell of the day of an instant.
fn day<'a>(calendar: &Calendar, t: u64) -> Result<Cell<'a>, DaysFault>
    ensures day { IfOk result (λ cell. IsDayCell calendar.now t (cell_of cell)) }
    ensures beyond { IfErr result (λ fault. IsBeyond calendar.now t) }
{
    match calendar.day(t) {
        Ok(date) => Ok(day_cell(date)),
        Err(_) => Err(DaysFault::BeyondCalendar),
    }
}

// Whether an activity with this begin takes time before its end.
fn takes_time(begin: Option<u32>, ends: u64) -> bool
    ensures { result ≡ spec.takes_time begin ends }
{
    match begin {
        Some(begin) => (begin as u64) < ends,
        None => 0 < ends,
    }
}

/// Returns the cell of the first day of an activity: empty if it takes no time, or if its begin
/// isn't known.
pub(crate) fn first_day<'a>(
    calendar: &Calendar,
    begin: Option<u32>,
    ends: u64,
) -> Result<Cell<'a>, DaysFault>
    ensures day { IfOk result (λ cell. spec.IsFirstDay calendar.now begin ends (cell_of cell)) }
    ensures beyond { IfErr result (λ fault. spec.IsFirstBeyond calendar.now begin ends) }
{
    match begin {
        Some(begin) if (begin as u64) < ends => day(calendar, begin as u64),
        Some(_) | None => Ok(Cell::Empty),
    }
}

/// Returns the cell of the last day of an activity: empty if it takes no time.
pub(crate) fn last_day<'a>(
    calendar: &Calendar,
    begin: Option<u32>,
    ends: u64,
) -> Result<Cell<'a>, DaysFault>
    ensures day { IfOk result (λ cell. spec.IsLastDay calendar.now begin ends (cell_of cell)) }
    ensures beyond { IfErr result (λ fault. spec.IsLastBeyond calendar.now begin ends) }
{
    if takes_time(begin, ends) {
        day(calendar, ends - 1)
    } else {
        Ok(Cell::Empty)
    }
}
