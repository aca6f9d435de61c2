//! The starts of all activities of a week.

ghost use Rattle.std.specs.Prelude.{◌≡◌, ◌≤◌, cond, IfOk};
ghost use Rattle.plan_week.specs.Weeks as weeks;
ghost use Rattle.plan_weekverdict.specs.Starts as spec;
ghost use Rattle.plan_weekverdict.specs.Verdicts.{HasSettled};

use crate::state::{at, is_open};
use plan_week::{State, Week, state_of};
use std::alloc::{AllocError, Global};

// Returns the start of an activity with this state: the given one if it is open.
fn start_by(today: u32, given: u32, state: State) -> u32
    ensures { result ≡ spec.start_by today given state }
{
    match state {
        State::Open { .. } => given,
        State::Begun { .. } => today,
        State::Done { ended } => ended.min(today),
    }
}

// Counts an activity with this state if it is open.
fn counted(state: State) -> usize
    ensures value { result ≡ cond (weeks.is_open state) 1 0 }
    ensures small { result ≤ 1 }
{
    if is_open(state) { 1 } else { 0 }
}

/// Returns a start for each activity: for open ones the given starts in order, for begun ones
/// today, and for done ones their end, at most today.
pub fn all_starts(alloc: Global, week: &Week, given: &[u32]) -> Result<Vec<u32>, AllocError>
    ensures all { IfOk result (λ starts. spec.AreAllStarts week.now given.now starts.items) }
    ensures settled { IfOk result (λ starts. HasSettled week.now starts.items) }
{
    let mut starts = Vec::new(alloc);
    let mut next: usize = 0;
    for place in 0..week.durations.len() {
        let state = state_of(week, place);
        starts.push(start_by(week.today, at(given, next), state))?;
        next += counted(state);
    }
    Ok(starts)
}
