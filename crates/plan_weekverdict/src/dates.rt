//! The first activity that misses its dates.

ghost use Rattle.std.specs.Prelude.{◌≡◌, IfNone, IfSome};
ghost use Rattle.plan_week.specs.declared.week.State.TheVariants.{Open};
ghost use Rattle.plan_weekverdict.specs.Verdicts as spec;
ghost use Rattle.plan_weekverdict.specs.declared.verdict.Miss.{Miss as Reason};

use crate::state::at;
use crate::verdict::Miss;
use plan_week::{State, Week, state_of};

// Returns the miss of an appointment, if the start isn't at it.
fn moved(start: u32, fixed: Option<u32>) -> Option<Miss>
    ensures { spec.IsMoveFrom fixed start result }
{
    match fixed {
        None => None,
        Some(date) => {
            if start == date {
                None
            } else {
                Some(Miss::Moved {
                    instant: start,
                    date,
                })
            }
        }
    }
}

// Returns the way in which an open activity misses its dates, if it does.
fn open_miss(today: u32, start: u32, earliest: u32, fixed: Option<u32>) -> Option<Miss>
    ensures some { IfSome result (spec.Misses today start (Open earliest fixed)) }
    ensures none { IfNone result
        ((miss : Reason) → spec.Misses today start (Open earliest fixed) miss → ⊥) }
{
    if start < today {
        return Some(Miss::Past { day: today });
    }
    if start < earliest {
        return Some(Miss::Early { date: earliest });
    }
    moved(start, fixed)
}

// Returns the way in which an activity with this state misses its dates, if it does.
fn miss_of(today: u32, start: u32, state: State) -> Option<Miss>
    ensures some { IfSome result (spec.Misses today start state) }
    ensures none { IfNone result ((miss : Reason) → spec.Misses today start state miss → ⊥) }
{
    match state {
        State::Open { earliest, fixed } => open_miss(today, start, earliest, fixed),
        State::Begun { .. } => None,
        State::Done { .. } => None,
    }
}

// Returns the first activity that misses its dates, and the way in which it does.
pub(crate) fn first_miss(week: &Week, starts: &[u32]) -> Option<(u32, Miss)>
    ensures some { IfSome result (λ found.
        spec.IsFirstMiss week.now starts.now found.0 found.1) }
    ensures none { IfNone result (spec.HasNoMiss week.now starts.now) }
{
    for place in 0..week.durations.len() {
        if let Some(miss) = miss_of(week.today, at(starts, place), state_of(week, place)) {
            return Some((place as u32, miss));
        }
    }
    None
}
