//! The check of starts of a week.

ghost use Rattle.std.specs.Prelude.{◌≡◌, IfNone, IfOk, IfSome};
ghost use Rattle.plan_weekverdict.specs.Verdicts as spec;

use crate::arcs::first_broken;
use crate::dates::first_miss;
use crate::pins::first_over;
use crate::verdict::{Miss, WeekVerdict};
use plan_week::Week;
use std::alloc::{AllocError, Global};

// Returns the verdict on the first activity that misses its dates, or starts before a predecessor
// ends.
fn first_of(miss: Option<(u32, Miss)>, broken: Option<(u32, u32)>) -> Option<WeekVerdict>
    ensures { result ≡ spec.first_of miss broken }
{
    match (miss, broken) {
        (None, None) => None,
        (None, Some((activity, predecessor))) => Some(WeekVerdict::Broken {
            activity,
            predecessor,
        }),
        (Some((activity, miss)), None) => Some(WeekVerdict::Misplaced { activity, miss }),
        (Some((misplaced, miss)), Some((activity, predecessor))) => {
            if activity < misplaced {
                Some(WeekVerdict::Broken {
                    activity,
                    predecessor,
                })
            } else {
                Some(WeekVerdict::Misplaced {
                    activity: misplaced,
                    miss,
                })
            }
        }
    }
}

// Returns the verdict on the first activity that violates its dates or its predecessors, if there is
// one.
fn first_wrong(week: &Week, starts: &[u32]) -> Option<WeekVerdict>
    ensures some { IfSome result (spec.IsWeekVerdict week.now starts.now) }
    ensures dates { IfNone result (spec.HasNoMiss week.now starts.now) }
    ensures arcs { IfNone result (spec.HasNoBroken week.now starts.now) }
{
    first_of(first_miss(week, starts), first_broken(week, starts))
}

/// Returns the first violation of starts of a week, or that they are a plan. `starts` has a start
/// for each activity: today if it has begun, and its end, at most today, if it is done.
/// [`all_starts`](crate::all_starts) returns such starts.
///
/// First comes an activity that misses its dates or starts before a predecessor ends, then an
/// overload of a resource from today on.
#[tactic(auto, using(crate::proofs::VerdictLemmas::without_violation))]
pub fn check_week(alloc: Global, week: &Week, starts: &[u32]) -> Result<WeekVerdict, AllocError>
    requires { spec.HasSettled week.now starts.now }
    ensures { IfOk result (spec.IsWeekVerdict week.now starts.now) }
{
    if let Some(verdict) = first_wrong(week, starts) {
        return Ok(verdict);
    }
    match first_over(alloc, week, starts)? {
        Some(overload) => Ok(WeekVerdict::Over(overload)),
        None => Ok(WeekVerdict::Feasible),
    }
}
