//! The activities of a week that aren't done, with the starts that `plan solve` shows.

ghost use Rattle.std.specs.Prelude.{◌≡◌, IfOk, map, slice_index};
ghost use Rattle.plan_table.specs.Table.{activity_of};
ghost use Rattle.plan_weekcompare.specs.Shown as spec;
ghost use Rattle.plan_weeks.specs.WeekTables.{start_cell};

use crate::schedules::WeekSchedule;
use plan_table::Activity;
use plan_week::{State, Week, state_of};
use plan_weeklist::ListedWeek;
use plan_weeks::planned;
use std::alloc::{AllocError, Global};

// Returns the number at a place, 0 if there is none.
fn at(list: &[u32], place: usize) -> u32
    ensures { result ≡ slice_index list.now place }
{
    if place < list.len() { list[place] } else { 0 }
}

// Returns the start of an activity as `plan solve` shows it. A done activity has none.
fn shown_start(state: State, start: u32) -> Option<u64>
    ensures { result ≡ spec.start_in (start_cell state start) }
{
    match state {
        State::Open { .. } => Some(start as u64),
        State::Begun { began, .. } => Some(began as u64),
        State::Done { .. } => None,
    }
}

// Returns the ones of some activities that aren't done, with the starts that `plan solve` shows.
#[tactic(auto, using(crate::proofs::ShownLemmas::next_shown, crate::proofs::ShownLemmas::next_hidden))]
fn schedule_of<'a>(
    alloc: Global,
    week: &Week,
    activities: &'a [Activity],
    starts: &[u32],
) -> Result<WeekSchedule<'a>, AllocError>
    requires { spec.AreInTime week.now starts.now }
    ensures { IfOk result (λ schedule. spec.rows_of schedule
        ≡ spec.shown_from week.now starts.now 0 (map activity_of activities.now)) }
{
    let mut schedule = WeekSchedule::new(alloc);
    for (k, activity) in activities.iter().enumerate() {
        if let Some(start) = shown_start(state_of(week, k), at(starts, k)) {
            schedule.push(activity.id.as_bytes(), start)?;
        }
    }
    Ok(schedule)
}

/// Returns the activities of a week that aren't done, with the starts that `plan solve` shows: the
/// start of an open activity, and the instant at which begun work began.
pub(crate) fn week_schedule<'a>(
    alloc: Global,
    listed: &'a ListedWeek,
    starts: &[u32],
) -> Result<WeekSchedule<'a>, AllocError>
    requires { spec.AreInTime listed.now.week starts.now }
    ensures { IfOk result (λ schedule.
        spec.rows_of schedule ≡ spec.shown_starts listed.now starts.now) }
{
    schedule_of(alloc, &listed.week, planned(listed), starts)
}
