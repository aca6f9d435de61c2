//! States of activities.

ghost use Rattle.std.specs.Prelude.{◌≡◌, slice_index};
ghost use Rattle.plan_week.specs.Weeks as spec;
ghost use Rattle.plan_week.specs.Inputs.{IsWindowOf};

use crate::week::{State, Week};
use plan_kernel::StartWindow;

/// Returns the state of an activity.
pub fn state_of(week: &Week, activity: usize) -> State
    ensures { result ≡ spec.state_of week.now activity }
{
    if activity < week.states.len() {
        week.states[activity]
    } else {
        State::Open {
            earliest: 0,
            fixed: None,
        }
    }
}

/// Returns how long an activity lasts from today on.
pub fn rest(duration: u32, state: State) -> u32
    ensures { result ≡ spec.rest duration state }
{
    match state {
        State::Open { .. } => duration,
        State::Begun { remaining, .. } => remaining,
        State::Done { .. } => 0,
    }
}

/// Returns the number at a place, 0 if there is none.
pub fn at(list: &[u32], place: usize) -> u32
    ensures { result ≡ slice_index list.now place }
{
    if place < list.len() { list[place] } else { 0 }
}

/// Returns how long an activity lasts from today on.
pub fn rest_of(week: &Week, activity: usize) -> u32
    ensures { result ≡ spec.rest_of week.now activity }
{
    rest(at(&week.durations, activity), state_of(week, activity))
}

/// Returns the end of an activity.
pub fn end_of(week: &Week, starts: &[u32], activity: usize) -> u64
    ensures { result ≡ spec.end_of week.now starts.now activity }
{
    at(starts, activity) as u64 + rest_of(week, activity) as u64
}

/// Returns the greatest end of an activity.
pub fn makespan_of(week: &Week, starts: &[u32]) -> u64
    ensures { result ≡ spec.makespan_of week.now starts.now }
{
    let mut greatest: u64 = 0;
    for place in 0..week.durations.len() {
        greatest = greatest.max(end_of(week, starts, place));
    }
    greatest
}

/// Whether an activity is still to be started.
pub fn is_open(state: State) -> bool
    ensures { result ≡ spec.is_open state }
{
    match state {
        State::Open { .. } => true,
        State::Begun { .. } => false,
        State::Done { .. } => false,
    }
}

/// Returns the window of the starts that a state allows.
pub fn window_of(today: u32, activity: u32, state: State) -> StartWindow
    ensures { IsWindowOf today activity state result }
{
    let (earliest, latest) = match state {
        State::Open {
            earliest,
            fixed: None,
        } => (earliest.max(today), u32::MAX),
        State::Open {
            earliest,
            fixed: Some(fixed),
        } => (earliest.max(today).max(fixed), fixed),
        State::Begun { .. } => (today, today),
        State::Done { ended } => (ended.min(today), ended.min(today)),
    };
    StartWindow {
        activity,
        earliest,
        latest,
    }
}
