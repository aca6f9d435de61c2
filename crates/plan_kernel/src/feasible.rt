//! The check of a list of starts.

ghost use Rattle.std.specs.Prelude.{◌≡◌, ◌≤◌, ◌<◌, ◌^◌, ℕ, length, All, IfSome, IfNone, IsTrue, IsFalse};
ghost use Rattle.plan_sgs.specs.Problem as problems;
ghost use Rattle.plan_sgs.specs.Problem.{KeepsArcs};
ghost use Rattle.plan_kernel.specs.Inputs.{problem_of, end_of, amount_at};
ghost use Rattle.plan_kernel.specs.Plans as spec;

use crate::input::{Absence, Input, capacity, need};
use crate::literal::at;

// The end of an activity.
fn end(input: &Input, starts: &[u32], activity: usize) -> u64
    ensures value { result ≡ end_of (problem_of input.now) starts.now activity }
    ensures small { result < 2 ^ 33 }
{
    at(starts, activity) as u64 + at(&input.durations, activity) as u64
}

// Whether all arcs are kept.
fn keeps_arcs(input: &Input, starts: &[u32]) -> bool
    ensures yes { IsTrue result → KeepsArcs (problem_of input.now) starts.now }
    ensures no { IsFalse result → KeepsArcs (problem_of input.now) starts.now → ⊥ }
{
    for arc in &input.arcs {
        if end(input, starts, arc.from as usize) + arc.lag as u64
            > at(starts, arc.to as usize) as u64
        {
            return false;
        }
    }
    true
}

// Whether all windows are kept.
fn keeps_windows(input: &Input, starts: &[u32]) -> bool
    ensures yes { IsTrue result → All (spec.KeepsWindow starts.now) input.now.windows.items }
    ensures no { IsFalse result
        → All (spec.KeepsWindow starts.now) input.now.windows.items → ⊥ }
{
    for window in &input.windows {
        let start = at(starts, window.activity as usize);
        if start < window.earliest {
            return false;
        }
        if window.latest < start {
            return false;
        }
    }
    true
}

// Returns the amount of a resource that an absence takes at an instant.
fn taken(absence: Absence, instant: u32, resource: usize) -> u64
    ensures value { result ≡ spec.taken_by instant resource absence }
    ensures small { result < 2 ^ 32 }
{
    if absence.resource as usize != resource {
        return 0;
    }
    if absence.from <= instant && instant < absence.until {
        absence.amount as u64
    } else {
        0
    }
}

// Returns the absent amount of a resource at an instant, if the sum fits.
fn absent(input: &Input, instant: u32, resource: usize) -> Option<u64>
    ensures value { IfSome result (λ sum. sum ≡ spec.absent input.now instant resource) }
    ensures within { IfSome result (λ sum.
        sum ≤ problems.capacity (problem_of input.now) resource) }
    ensures more { IfNone result (problems.capacity (problem_of input.now) resource
        < spec.absent input.now instant resource) }
{
    let capacity = capacity(input, resource);
    let mut sum: u64 = 0;
    for &absence in &input.absences {
        let amount = taken(absence, instant, resource);
        if amount > capacity - sum {
            return None;
        }
        sum += amount;
    }
    Some(sum)
}

// Returns the amount of a resource that an activity needs at an instant.
fn amount(input: &Input, starts: &[u32], instant: u32, resource: usize, activity: usize) -> u64
    ensures value { result
        ≡ amount_at (problem_of input.now) starts.now instant resource activity }
    ensures small { result < 2 ^ 32 }
{
    if at(starts, activity) <= instant && (instant as u64) < end(input, starts, activity) {
        need(input, activity, resource) as u64
    } else {
        0
    }
}

// Whether the activities that run at an instant need no more of a resource than is present.
fn fits(input: &Input, starts: &[u32], instant: u32, resource: usize) -> bool
    requires { length starts.now ≡ length input.now.durations.items }
    ensures yes { IsTrue result → spec.FitsFor input.now starts.now instant resource }
    ensures no { IsFalse result → spec.FitsFor input.now starts.now instant resource → ⊥ }
{
    let capacity = capacity(input, resource);
    let Some(missing) = absent(input, instant, resource) else {
        return false;
    };
    let mut used: u64 = missing;
    for place in 0..input.durations.len() {
        let amount = amount(input, starts, instant, resource, place);
        if amount > capacity - used {
            return false;
        }
        used += amount;
    }
    true
}

// Whether this is so of each resource.
fn fits_all(input: &Input, starts: &[u32], instant: u32) -> bool
    requires { length starts.now ≡ length input.now.durations.items }
    ensures yes { IsTrue result → spec.FitsAt input.now starts.now instant }
    ensures no { IsFalse result → spec.FitsAt input.now starts.now instant → ⊥ }
{
    for resource in 0..input.capacities.len() {
        if !fits(input, starts, instant, resource) {
            return false;
        }
    }
    true
}

// The greatest end of an activity with its tail.
fn greatest_cost(input: &Input, starts: &[u32]) -> u64
    requires { length starts.now ≡ length input.now.durations.items }
    ensures { result ≡ spec.cost input.now starts.now }
{
    let mut greatest = 0;
    for place in 0..input.durations.len() {
        let tail = at(&input.tails, place) as u64;
        greatest = greatest.max(end(input, starts, place) + tail);
    }
    greatest
}

// Whether the activities at each start need no more of any resource than is present.
fn fits_at_starts(input: &Input, starts: &[u32]) -> bool
    requires { length starts.now ≡ length input.now.durations.items }
    ensures yes { IsTrue result → spec.FitsAtStarts input.now starts.now }
    ensures no { IsFalse result → spec.FitsAlways input.now starts.now → ⊥ }
{
    for &start in starts {
        if !fits_all(input, starts, start) {
            return false;
        }
    }
    true
}

// Whether the same is so where absences begin.
fn fits_at_absences(input: &Input, starts: &[u32]) -> bool
    requires { length starts.now ≡ length input.now.durations.items }
    ensures yes { IsTrue result → spec.FitsAtAbsences input.now starts.now }
    ensures no { IsFalse result → spec.FitsAlways input.now starts.now → ⊥ }
{
    for &absence in &input.absences {
        if !fits_all(input, starts, absence.from) {
            return false;
        }
    }
    true
}

// Whether the activities never need more than is present: what is in use and what is absent grow
// only at starts and where absences begin.
fn fits_always(input: &Input, starts: &[u32]) -> bool
    requires { length starts.now ≡ length input.now.durations.items }
    ensures yes { IsTrue result → spec.FitsAlways input.now starts.now }
    ensures no { IsFalse result → spec.FitsAlways input.now starts.now → ⊥ }
{
    if !fits_at_starts(input, starts) {
        return false;
    }
    fits_at_absences(input, starts)
}

/// The cost of a list of starts, if it is a plan.
pub fn cost_of(input: &Input, starts: &[u32]) -> Option<u64>
    ensures some { IfSome result (spec.IsCostOf input.now starts.now) }
    ensures none { IfNone result (spec.IsPlan input.now starts.now → ⊥) }
{
    if starts.len() != input.durations.len() {
        return None;
    }
    if !keeps_arcs(input, starts) {
        return None;
    }
    if !keeps_windows(input, starts) {
        return None;
    }
    if !fits_always(input, starts) {
        return None;
    }
    Some(greatest_cost(input, starts))
}
