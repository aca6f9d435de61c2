//! The limit of a search: an instant by which all can be done.

ghost use Rattle.std.specs.Prelude.{◌≡◌, ◌≤◌, min, sum_by};
ghost use Rattle.plan_sgs.specs.Problem.{total, count};
ghost use Rattle.plan_week.specs.Weeks as weeks;
ghost use Rattle.plan_week.specs.WeekAnswers as spec;

use crate::state::{rest, state_of};
use crate::week::{State, Week};
use plan_solve::LATEST_COST;

// Returns the instant that an activity waits for by itself.
fn awaited_by(state: State) -> u32
    ensures { result ≡ spec.awaited_by state }
{
    match state {
        State::Open {
            earliest,
            fixed: None,
        } => earliest,
        State::Open {
            earliest,
            fixed: Some(fixed),
        } => earliest.max(fixed),
        State::Begun { .. } => 0,
        State::Done { .. } => 0,
    }
}

// Returns the latest instant that the activities wait for.
fn latest_awaited(week: &Week) -> u32
    ensures { result ≡ spec.latest_awaited week.now }
{
    let mut latest = 0;
    for place in 0..week.durations.len() {
        latest = latest.max(awaited_by(state_of(week, place)));
    }
    latest
}

// Returns the latest end of an absence.
fn latest_return(week: &Week) -> u32
    ensures { result ≡ spec.latest_return week.now }
{
    let mut latest = 0;
    for &absence in &week.absences {
        latest = latest.max(absence.until);
    }
    latest
}

// Returns the sum of what is left of all activities, at most the greatest limit.
fn rests(week: &Week) -> u64
    ensures { result ≡ min (total (count (weeks.project_of week.now)) (weeks.rest_of week.now)) LATEST_COST }
{
    let mut sum: u64 = 0;
    for (place, &duration) in week.durations.iter().enumerate() {
        let more = rest(duration, state_of(week, place)) as u64;
        sum = (sum + more).min(LATEST_COST as u64);
    }
    sum
}

// Returns the sum of all lags, at most the greatest limit.
fn lags(week: &Week) -> u64
    ensures { result ≡ min (sum_by (λ arc. arc.lag) week.now.arcs.items) LATEST_COST }
{
    let mut sum: u64 = 0;
    for &arc in &week.arcs {
        sum = (sum + arc.lag as u64).min(LATEST_COST as u64);
    }
    sum
}

/// Returns an instant by which all can be done, at most 1,000,000,000.
pub fn limit_of(week: &Week) -> u32
    ensures { result ≡ min (spec.limit_of week.now) LATEST_COST }
{
    let latest = week
        .today
        .max(latest_awaited(week).max(latest_return(week)));
    let limit = latest as u64 + (rests(week) + lags(week));
    limit.min(LATEST_COST as u64) as u32
}
