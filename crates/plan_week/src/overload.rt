//! Overloads: what can't be moved and what is absent are more than there is.

ghost use Rattle.std.specs.Prelude.{◌≡◌, ◌≤◌, ◌<◌, ◌+◌, ◌^◌, ℕ, IfSome, IfNone, IsTrue, IsFalse, length};
ghost use Rattle.plan_sgs.specs.Problem as problems;
ghost use Rattle.plan_kernel.specs.Plans as kernels;
ghost use Rattle.plan_week.specs.Weeks as weeks;
ghost use Rattle.plan_week.specs.Overloads as spec;

use crate::state::{at, rest_of, state_of};
use crate::week::{State, Week};
use plan_kernel::Absence;

/// A resource and an instant from today on at which begun work, appointments and absences alone are
/// more than there is.
#[derive(Clone, Copy, Debug, Drop)]
pub struct Overload {
    pub resource: u32,
    pub instant: u32,
}

// Returns the start of an activity that can't be moved.
fn settled_start(today: u32, state: State) -> Option<u32>
    ensures { result ≡ spec.settled_start today state }
{
    match state {
        State::Open { fixed, .. } => fixed,
        State::Begun { .. } => Some(today),
        State::Done { .. } => None,
    }
}

// Returns what an activity needs of a resource.
fn need(week: &Week, activity: usize, resource: usize) -> u32
    ensures { result ≡ problems.need (weeks.project_of week.now) activity resource }
{
    if activity < week.needs.len() {
        at(&week.needs[activity], resource)
    } else {
        0
    }
}

// Returns how much there is of a resource.
fn capacity(week: &Week, resource: usize) -> u64
    ensures { result ≡ problems.capacity (weeks.project_of week.now) resource }
{
    if resource < week.capacities.len() {
        week.capacities[resource]
    } else {
        0
    }
}

// Returns what an activity needs of a resource at an instant if it has this start.
fn held_from(week: &Week, instant: u32, resource: usize, activity: usize, start: Option<u32>) -> u64
    ensures value { result ≡ spec.held_from week.now instant resource activity start }
    ensures small { result < 2 ^ 32 }
{
    match start {
        None => 0,
        Some(start) => {
            let end = start as u64 + rest_of(week, activity) as u64;
            if start <= instant && (instant as u64) < end {
                need(week, activity, resource) as u64
            } else {
                0
            }
        }
    }
}

// Returns what an activity that can't be moved needs of a resource at an instant.
fn held_by(week: &Week, instant: u32, resource: usize, activity: usize) -> u64
    ensures value { result ≡ spec.held_by week.now instant resource activity }
    ensures small { result < 2 ^ 32 }
{
    let start = settled_start(week.today, state_of(week, activity));
    held_from(week, instant, resource, activity, start)
}

// Returns what an absence takes of a resource at an instant.
fn taken(absence: Absence, instant: u32, resource: usize) -> u64
    ensures value { result ≡ kernels.taken_by instant resource absence }
    ensures small { result < 2 ^ 32 }
{
    if absence.resource as usize != resource {
        return 0;
    }
    if absence.from <= instant && instant < absence.until {
        absence.amount as u64
    } else {
        0
    }
}

// Returns what is absent of a resource at an instant, or `None` if it is more than there is.
fn missing(week: &Week, instant: u32, resource: usize) -> Option<u64>
    ensures value { IfSome result (λ sum. sum ≡ weeks.missing week.now instant resource) }
    ensures within { IfSome result (λ sum.
        sum ≤ problems.capacity (weeks.project_of week.now) resource) }
    ensures more { IfNone result (problems.capacity (weeks.project_of week.now) resource
        < weeks.missing week.now instant resource) }
{
    let capacity = capacity(week, resource);
    let mut sum: u64 = 0;
    for &absence in &week.absences {
        let amount = taken(absence, instant, resource);
        if amount > capacity - sum {
            return None;
        }
        sum += amount;
    }
    Some(sum)
}

// Whether what can't be moved and what is absent are more than there is of a resource.
fn is_above(week: &Week, instant: u32, resource: usize) -> bool
    ensures yes { IsTrue result → problems.capacity (weeks.project_of week.now) resource
        < spec.held week.now instant resource + weeks.missing week.now instant resource }
    ensures no { IsFalse result →
        spec.held week.now instant resource + weeks.missing week.now instant resource
        ≤ problems.capacity (weeks.project_of week.now) resource }
{
    let capacity = capacity(week, resource);
    let Some(missing) = missing(week, instant, resource) else {
        return true;
    };
    let mut used: u64 = missing;
    for place in 0..week.durations.len() {
        let amount = held_by(week, instant, resource, place);
        if amount > capacity - used {
            return true;
        }
        used += amount;
    }
    false
}

// Returns the least resource with an overload at an instant from today on.
fn least_at(week: &Week, instant: u32) -> Option<Overload>
    requires { week.now.today ≤ instant }
    ensures { spec.IsFoundOf week.now (λ t. t ≡ instant) result }
{
    for resource in 0..week.capacities.len() {
        if is_above(week, instant, resource) {
            return Some(Overload {
                resource: resource as u32,
                instant,
            });
        }
    }
    None
}

// Returns the overload at an instant, if there is one.
fn overload_at(week: &Week, instant: u32) -> Option<Overload>
    ensures { spec.IsFoundOf week.now (λ t. t ≡ instant) result }
{
    if instant < week.today {
        None
    } else {
        least_at(week, instant)
    }
}

// Returns the earlier one of two overloads.
fn earlier(one: Option<Overload>, other: Option<Overload>) -> Option<Overload>
    ensures { spec.IsEarlier one other result }
{
    match one {
        None => other,
        Some(first) => match other {
            None => Some(first),
            Some(second) => Some(if second.instant < first.instant {
                second
            } else {
                first
            }),
        },
    }
}

// Returns the overload at the start of an activity that can't be moved.
fn overload_of(week: &Week, activity: usize) -> Option<Overload>
    ensures { spec.IsFoundOf week.now (λ t.
        spec.settled_start week.now.today (weeks.state_of week.now activity) ≡ Some t) result }
{
    match settled_start(week.today, state_of(week, activity)) {
        None => None,
        Some(start) => overload_at(week, start),
    }
}

// Returns the first overload at the starts of what can't be moved.
fn first_at_starts(week: &Week) -> Option<Overload>
    ensures { spec.IsFoundOf week.now (spec.IsSettled week.now) result }
{
    let mut first = None;
    for place in 0..week.durations.len() {
        first = earlier(first, overload_of(week, place));
    }
    first
}

// Returns the first overload where an absence begins.
fn first_at_absences(week: &Week) -> Option<Overload>
    ensures { spec.IsFoundOf week.now (spec.IsLeaving week.now) result }
{
    let mut first = None;
    for &absence in &week.absences {
        first = earlier(first, overload_at(week, absence.from));
    }
    first
}

/// Returns the first overload of a week, with its least resource, if there is one.
pub fn first_overload(week: &Week) -> Option<Overload>
    ensures some { IfSome result (spec.IsFirstOverload week.now) }
    ensures none { IfNone result (spec.HasNoOverload week.now) }
{
    let settled = earlier(first_at_starts(week), first_at_absences(week));
    let found = earlier(overload_at(week, week.today), settled);
    found
}
