//! The activities that make an overload: begun work and appointments.

use plan_table::Activity;
use plan_week::{Overload, State};
use plan_weeklist::ListedWeek;
use std::alloc::{AllocError, Global};

// Whether something that starts at an instant and lasts so long happens at another one.
fn covers(start: u32, lasts: u32, instant: u32) -> bool {
    start <= instant && (instant as u64) < start as u64 + lasts as u64
}

// Returns the number at a place, 0 if there is none.
fn number_at(list: &[u32], place: usize) -> u32 {
    match list.get(place) {
        Some(number) => *number,
        None => 0,
    }
}

// Returns what activity `k` needs of a resource, 0 if nothing.
fn need_of(listed: &ListedWeek, k: usize, resource: usize) -> u32 {
    match listed.week.needs.get(k) {
        Some(needs) => number_at(needs, resource),
        None => 0,
    }
}

// Whether activity `k` can't move, and happens at an instant.
fn is_held(listed: &ListedWeek, k: usize, instant: u32) -> bool {
    match listed.week.states.get(k) {
        Some(State::Begun { remaining, .. }) => covers(listed.week.today, *remaining, instant),
        Some(
            State::Open {
                fixed: Some(start),
                ..
            },
        ) => covers(*start, number_at(&listed.week.durations, k), instant),
        _ => false,
    }
}

// Appends an id behind others.
fn push_id(text: &mut String, activity: &Activity) -> Result<(), AllocError> {
    if !text.is_empty() {
        text.push_str(", ")?;
    }
    text.push_str(activity.id.as_str())
}

// Returns the ids of the activities that can't move, and need a resource at an instant.
fn held_ids(alloc: Global, listed: &ListedWeek, overload: &Overload) -> Result<String, AllocError> {
    let mut ids = String::new(alloc);
    for (k, activity) in listed.table.activities.iter().enumerate() {
        let need = need_of(listed, k, overload.resource as usize);
        if need > 0 && is_held(listed, k, overload.instant) {
            push_id(&mut ids, activity)?;
        }
    }
    Ok(ids)
}

/// Returns the cause of an overload, with the ids of the activities that can't move. `None` if the
/// absences alone are too much.
pub(crate) fn overload_cause(
    alloc: Global,
    listed: &ListedWeek,
    overload: &Overload,
) -> Result<Option<String>, AllocError> {
    let ids = held_ids(alloc, listed, overload)?;
    if ids.is_empty() {
        return Ok(None);
    }
    let mut text = "what can't move exceeds the capacity: ".to_string(alloc)?;
    text.push_str(ids.as_str())?;
    Ok(Some(text))
}
