//! The time table: what the fixed parts of activities leave no room for.

use crate::arrays::{is_marked, row};
use crate::literals::{at_least, at_most};
use crate::model::Model;
use crate::stop::{Cause, Clash, Stop};
use crate::trail::Trail;
use crate::usage::Parts;

// Pushes the start of an activity behind the last instant in its way, if there is one.
fn push_up(
    model: &Model,
    parts: &Parts,
    trail: &mut Trail,
    resource: u32,
    activity: u32,
) -> Result<(), Stop> {
    let room = model.room(activity, resource);
    let first = trail.earliest(activity);
    let end = first.saturating_add(model.duration(activity));
    let behind = end.min(trail.latest(activity));
    trail.work.add_span(first, behind);
    for instant in (first..behind.max(first)).rev() {
        if parts.at(resource, instant) > room && !parts.is_counted(activity, instant) {
            let literal = at_least(activity, instant.saturating_add(1));
            return trail.set(literal, Cause::Full(resource, instant));
        }
    }
    Ok(())
}

// Pushes the end of an activity to the first instant in its way, if there is one.
fn push_down(
    model: &Model,
    parts: &Parts,
    trail: &mut Trail,
    resource: u32,
    activity: u32,
) -> Result<(), Stop> {
    let room = model.room(activity, resource);
    let duration = model.duration(activity);
    let end = trail.earliest(activity).saturating_add(duration);
    let first = end.max(trail.latest(activity));
    let behind = trail.latest(activity).saturating_add(duration);
    trail.work.add_span(first, behind);
    for instant in first..behind.max(first) {
        if parts.at(resource, instant) > room && !parts.is_counted(activity, instant) {
            let literal = at_most(activity, instant, duration);
            return trail.set(literal, Cause::Full(resource, instant));
        }
    }
    Ok(())
}

// Pushes an activity from both sides until nothing is in its way at either end.
fn push_both(
    model: &Model,
    parts: &Parts,
    trail: &mut Trail,
    resource: u32,
    activity: u32,
) -> Result<(), Stop> {
    for _ in 0..u32::MAX {
        let (low, high) = (trail.earliest(activity), trail.latest(activity));
        if low == high {
            break;
        }
        push_up(model, parts, trail, resource, activity)?;
        push_down(model, parts, trail, resource, activity)?;
        if low == trail.earliest(activity) && high == trail.latest(activity) {
            break;
        }
    }
    Ok(())
}

// The first instant from another on at which more is in use than there is, if the most in use is
// more.
fn overload(parts: &Parts, resource: u32, first: u32, behind: u32, capacity: u32) -> Option<u32> {
    let mut instant = first;
    for &used in parts.slice(resource, first, behind) {
        if used > capacity {
            return Some(instant);
        }
        instant = instant.wrapping_add(1);
    }
    None
}

// The most that is in use from an instant to another.
fn peak(parts: &Parts, resource: u32, first: u32, behind: u32) -> u32 {
    let mut most = 0;
    for &used in parts.slice(resource, first, behind) {
        most = most.max(used);
    }
    most
}

// Looks at what counts more of a resource from an instant to another: whether it fits, and what it
// pushes.
fn check_slice(
    model: &Model,
    parts: &Parts,
    trail: &mut Trail,
    resource: u32,
    first: u32,
    behind: u32,
) -> Result<(), Stop> {
    if first >= behind {
        return Ok(());
    }
    let users = row(&model.users, resource);
    trail.work.add_span(first, behind);
    trail.work.add(users.len());
    let (most, capacity) = (
        peak(parts, resource, first, behind),
        model.capacity(resource),
    );
    if most > capacity {
        let instant = overload(parts, resource, first, behind, capacity).unwrap_or(first);
        return Err(Stop::Clash(Clash::Overload(resource, instant)));
    }
    for &activity in users {
        let (low, high) = (trail.earliest(activity), trail.latest(activity));
        let end = high.saturating_add(model.duration(activity));
        let is_tight = model.need(activity, resource).saturating_add(most) > capacity;
        if is_tight && low != high && low < behind && first < end {
            push_both(model, parts, trail, resource, activity)?;
        }
    }
    Ok(())
}

// Looks at what has grown of the part of an activity: from two instants to two others.
fn check_growth(
    model: &Model,
    parts: &Parts,
    trail: &mut Trail,
    resource: u32,
    old: (u32, u32),
    new: (u32, u32),
) -> Result<(), Stop> {
    if old.0 == old.1 {
        check_slice(model, parts, trail, resource, new.0, new.1)
    } else {
        check_slice(model, parts, trail, resource, new.0, old.0)?;
        check_slice(model, parts, trail, resource, old.1, new.1)
    }
}

/// Looks at an activity whose bounds have risen: what its fixed part pushes, and what pushes it.
pub fn propagate(
    model: &Model,
    parts: &mut Parts,
    trail: &mut Trail,
    activity: u32,
) -> Result<(), Stop> {
    let duration = model.duration(activity);
    if duration == 0 {
        return Ok(());
    }
    let (first, behind) = (
        trail.latest(activity),
        trail.earliest(activity).saturating_add(duration),
    );
    let old = (parts.first(activity), parts.behind(activity));
    let has_part = first < behind;
    if has_part {
        trail.work.add_span(first, behind);
        parts.grow(model, activity, first, behind);
    }
    for resource in 0..model.kinds {
        if model.need(activity, resource) > 0 && !is_marked(&model.is_unary, resource) {
            if has_part {
                check_growth(model, parts, trail, resource, old, (first, behind))?;
            }
            push_both(model, parts, trail, resource, activity)?;
        }
    }
    Ok(())
}
