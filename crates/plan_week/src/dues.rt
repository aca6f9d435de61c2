//! Due dates.

ghost use Rattle.std.specs.Prelude.{◌≡◌, ◌++◌, IfOk};
ghost use Rattle.plan_week.specs.Tardiness as spec;

use crate::input::numbers_of;
use crate::state::{at, rest, rest_of, state_of};
use crate::week::Week;
use plan_kernel::{Input, StartWindow};
use std::alloc::{AllocError, Global};

// Returns the due date of an activity, if it has one.
fn wish_of(week: &Week, activity: usize) -> Option<u32>
    ensures { result ≡ spec.wish_of week.now activity }
{
    if activity < week.dues.len() {
        week.dues[activity]
    } else {
        None
    }
}

// Returns a date, or another one if there is none.
fn date_or(other: u32, date: Option<u32>) -> u32
    ensures { result ≡ spec.date_or other date }
{
    match date {
        None => other,
        Some(date) => date,
    }
}

/// Returns the latest due date, 0 if there is none.
pub fn latest_due(week: &Week) -> u32
    ensures { result ≡ spec.latest_due week.now }
{
    let mut latest = 0;
    for place in 0..week.durations.len() {
        latest = latest.max(date_or(0, wish_of(week, place)));
    }
    latest
}

/// Returns the tardiness of an activity: its end minus its due date, at least 0. An activity
/// without a due date is due at the latest due date.
pub fn tardiness_of(week: &Week, starts: &[u32], activity: usize) -> u64
    ensures { result ≡ spec.tardiness_of week.now starts.now activity }
{
    let due = date_or(latest_due(week), wish_of(week, activity));
    let end = at(starts, activity) as u64 + rest_of(week, activity) as u64;
    end.saturating_sub(due as u64)
}

/// Returns the greatest tardiness of an activity.
pub fn greatest_tardiness(week: &Week, starts: &[u32]) -> u64
    ensures { result ≡ spec.greatest_tardiness week.now starts.now }
{
    let mut greatest: u64 = 0;
    for place in 0..week.durations.len() {
        greatest = greatest.max(tardiness_of(week, starts, place));
    }
    greatest
}

// Returns the latest due date minus the due date of each activity.
fn tails_of(alloc: Global, week: &Week) -> Result<Vec<u32>, AllocError>
    ensures { IfOk result (λ tails. spec.AreTailsOf week.now tails.items) }
{
    let latest = latest_due(week);
    let mut tails = Vec::new(alloc);
    for place in 0..week.durations.len() {
        tails.push(latest.saturating_sub(date_or(latest, wish_of(week, place))))?;
    }
    Ok(tails)
}

/// Returns the problem whose plans are those of a week, and whose costs minus the latest due date
/// are their greatest tardiness.
pub fn tardiness_input(alloc: Global, week: &Week) -> Result<Input, AllocError>
    ensures { IfOk result (spec.HasTardiness week.now) }
{
    let tails = tails_of(alloc, week)?;
    let input = numbers_of(alloc, week)?;
    Ok(Input { tails, ..input })
}

// Returns the window of the starts with which an activity ends by an instant.
fn window_by(activity: u32, lasts: u32, end: u64) -> StartWindow
    ensures { spec.IsWindowBy activity lasts end result }
{
    if end < lasts as u64 {
        return StartWindow {
            activity,
            earliest: 1,
            latest: 0,
        };
    }
    let latest = end - lasts as u64;
    StartWindow {
        activity,
        earliest: 0,
        latest: latest.min(u32::MAX as u64) as u32,
    }
}

// Returns the windows with which no activity is later than so much.
fn limits_of(alloc: Global, week: &Week, late: u32) -> Result<Vec<StartWindow>, AllocError>
    ensures { IfOk result (λ limits. spec.AreLimitsOf week.now late limits.items) }
{
    let latest = latest_due(week);
    let mut limits = Vec::new(alloc);
    for (place, &duration) in week.durations.iter().enumerate() {
        let end = date_or(latest, wish_of(week, place)) as u64 + late as u64;
        let lasts = rest(duration, state_of(week, place));
        limits.push(window_by(place as u32, lasts, end))?;
    }
    Ok(limits)
}

// Returns two lists of windows, one behind the other.
fn joined(
    alloc: Global,
    one: &[StartWindow],
    other: &[StartWindow],
) -> Result<Vec<StartWindow>, AllocError>
    ensures { IfOk result (λ all. all.items ≡ one.now ++ other.now) }
{
    let mut all = Vec::from_slice(alloc, one)?;
    all.extend_from_slice(other)?;
    Ok(all)
}

/// Returns the problem whose plans are those of a week in which no activity is later than so much,
/// and whose costs are their makespans.
pub fn limited_input(alloc: Global, week: &Week, late: u32) -> Result<Input, AllocError>
    ensures { IfOk result (spec.HasPlansWithin week.now late) }
{
    let limits = limits_of(alloc, week, late)?;
    let input = numbers_of(alloc, week)?;
    let windows = joined(alloc, &input.windows, &limits)?;
    Ok(Input { windows, ..input })
}
