//! The first overload of starts. If each activity of a week has its start as an appointment, the
//! week has the same needs at each instant. So its first overload is that of the starts.

ghost use Rattle.std.specs.Prelude.{◌≡◌, map, IfErr, IfNone, IfOk, IfSome};
ghost use Rattle.plan_weekverdict.specs.Pins as pins;
ghost use Rattle.plan_weekverdict.specs.Verdicts as spec;

use crate::state::at;
use plan_week::{Overload, State, Week, first_overload, state_of};
use std::alloc::{AllocError, Global};

// Returns a state. An open activity has the start as its appointment.
fn pin(state: State, start: u32) -> State
    ensures { result ≡ pins.pin start state }
{
    match state {
        State::Open { earliest, .. } => State::Open {
            earliest,
            fixed: Some(start),
        },
        State::Begun { began, remaining } => State::Begun { began, remaining },
        State::Done { ended } => State::Done { ended },
    }
}

// Returns the states with the starts as appointments.
fn pinned_states(alloc: Global, week: &Week, starts: &[u32]) -> Result<Vec<State>, AllocError>
    ensures { IfOk result (λ states. pins.ArePinned week.now starts.now states.items) }
{
    let mut states = Vec::new(alloc);
    for place in 0..week.durations.len() {
        states.push(pin(state_of(week, place), at(starts, place)))?;
    }
    Ok(states)
}

// Returns the needs of all activities.
fn needs_of(alloc: Global, week: &Week) -> Result<Vec<Vec<u32>>, AllocError>
    ensures { IfOk result (λ rows.
        map (λ row. row.items) rows.items ≡ map (λ row. row.items) week.now.needs.items) }
{
    let mut rows = Vec::new(alloc);
    for row in &week.needs {
        rows.push(Vec::from_slice(alloc, row)?)?;
    }
    Ok(rows)
}

// Returns a week with the starts as appointments. It has no arcs and no due dates, on which
// overloads don't depend.
fn pinned(alloc: Global, week: &Week, starts: &[u32]) -> Result<Week, AllocError>
    ensures { IfOk result (pins.IsPinned week.now starts.now) }
{
    Ok(Week {
        durations: Vec::from_slice(alloc, &week.durations)?,
        arcs: Vec::new(alloc),
        needs: needs_of(alloc, week)?,
        capacities: Vec::from_slice(alloc, &week.capacities)?,
        states: pinned_states(alloc, week, starts)?,
        dues: Vec::new(alloc),
        absences: Vec::from_slice(alloc, &week.absences)?,
        today: week.today,
    })
}

// Returns the first overload of starts, if there is one.
pub(crate) fn first_over(
    alloc: Global,
    week: &Week,
    starts: &[u32],
) -> Result<Option<Overload>, AllocError>
    requires { spec.HasSettled week.now starts.now }
    ensures some { IfOk result (λ found. IfSome found (spec.IsFirstOver week.now starts.now)) }
    ensures none { IfOk result (λ found. IfNone found (spec.HasNoOver week.now starts.now)) }
{
    let pinned = pinned(alloc, week, starts)?;
    Ok(first_overload(&pinned))
}
