//! The problem of plan_kernel that has the plans of a week.

ghost use Rattle.std.specs.Prelude.{◌≡◌, map, filter, IfOk, []};
ghost use Rattle.plan_week.specs.Inputs as spec;

use crate::state::{is_open, rest, state_of, window_of};
use crate::week::Week;
use plan_kernel::{Absence, Arc, Input, StartWindow};
use std::alloc::{AllocError, Global};

// Returns how long each activity lasts from today on.
fn rests_of(alloc: Global, week: &Week) -> Result<Vec<u32>, AllocError>
    ensures { IfOk result (λ rests. spec.AreRests week.now rests.items) }
{
    let mut rests = Vec::new(alloc);
    for (place, &duration) in week.durations.iter().enumerate() {
        rests.push(rest(duration, state_of(week, place)))?;
    }
    Ok(rests)
}

// Returns the arcs to activities that are still to be started.
fn arcs_of(alloc: Global, week: &Week) -> Result<Vec<Arc>, AllocError>
    ensures { IfOk result (λ arcs. arcs.items ≡ filter (spec.leads_on week.now) week.now.arcs.items) }
{
    let mut arcs = Vec::new(alloc);
    for &arc in &week.arcs {
        if is_open(state_of(week, arc.to as usize)) {
            arcs.push(arc)?;
        }
    }
    Ok(arcs)
}

// Returns the needs of all activities.
fn needs_of(alloc: Global, week: &Week) -> Result<Vec<Vec<u32>>, AllocError>
    ensures { IfOk result (λ rows.
        map (λ row. row.items) rows.items ≡ map (λ row. row.items) week.now.needs.items) }
{
    let mut rows = Vec::new(alloc);
    for row in &week.needs {
        rows.push(Vec::from_slice(alloc, row)?)?;
    }
    Ok(rows)
}

// Returns the windows of the starts that the states allow.
fn windows_of(alloc: Global, week: &Week) -> Result<Vec<StartWindow>, AllocError>
    ensures { IfOk result (λ windows. spec.AreWindowsOf week.now windows.items) }
{
    let mut windows = Vec::new(alloc);
    for place in 0..week.durations.len() {
        windows.push(window_of(week.today, place as u32, state_of(week, place)))?;
    }
    Ok(windows)
}

// Returns what is left of an absence from today on.
fn from_today(today: u32, absence: Absence) -> Absence
    ensures { result ≡ spec.from_today today absence }
{
    Absence {
        from: absence.from.max(today),
        ..absence
    }
}

// Returns what is left of all absences from today on.
fn absences_of(alloc: Global, week: &Week) -> Result<Vec<Absence>, AllocError>
    ensures { IfOk result (λ absences.
        absences.items ≡ map (spec.from_today week.now.today) week.now.absences.items) }
{
    let mut absences = Vec::new(alloc);
    for &absence in &week.absences {
        absences.push(from_today(week.today, absence))?;
    }
    Ok(absences)
}

// Returns the numbers of a week from today on.
pub fn numbers_of(alloc: Global, week: &Week) -> Result<Input, AllocError>
    ensures numbers { IfOk result (spec.IsInputOf week.now) }
    ensures tails { IfOk result (λ input. input.tails.items ≡ []) }
{
    Ok(Input {
        durations: rests_of(alloc, week)?,
        arcs: arcs_of(alloc, week)?,
        needs: needs_of(alloc, week)?,
        capacities: Vec::from_slice(alloc, &week.capacities)?,
        orders: Vec::new(alloc),
        windows: windows_of(alloc, week)?,
        absences: absences_of(alloc, week)?,
        tails: Vec::new(alloc),
    })
}

/// Returns the problem whose plans are those of a week, and whose costs are their makespans.
pub fn input_of(alloc: Global, week: &Week) -> Result<Input, AllocError>
    ensures { IfOk result (spec.HasPlansOf week.now) }
{
    let input = numbers_of(alloc, week)?;
    Ok(input)
}
