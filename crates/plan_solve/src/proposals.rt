//! Lists of starts for a problem with windows and absences: serial generation, by latest starts or by
//! given keys. They are proposals, which the kernel checks: no clause says that one is a plan.

use crate::arrays::{at, is_marked, mark, put};
use crate::derivation::need;
use crate::usage::MOST_CELLS;
use plan_kernel::Input;
use std::alloc::{AllocError, Global};

/// The earliest and the latest start of each activity.
#[derive(Drop)]
struct Bounds {
    earliest: Vec<u32>,
    latest: Vec<u32>,
}

/// How much of each resource is absent or in use at each instant before a horizon.
#[derive(Drop)]
struct Profile {
    horizon: u32,
    kinds: u32,
    used: Vec<u64>,
}

/// The activities that have a start, and for each activity how many arcs lead to it from others.
#[derive(Drop)]
struct Placement {
    starts: Vec<u32>,
    is_placed: Vec<bool>,
    is_fixed: Vec<bool>,
    waits: Vec<u32>,
}

// Returns a number as one of 32 bits.
fn narrow(number: usize) -> u32 {
    (number & 0xffff_ffff) as u32
}

// Returns how much there is of a resource.
fn capacity(input: &Input, resource: u32) -> u64 {
    match input.capacities.get(resource as usize) {
        Some(capacity) => *capacity,
        None => 0,
    }
}

impl Bounds {
    // Returns the bounds by the horizon.
    fn new(alloc: Global, input: &Input, horizon: u32) -> Result<Bounds, AllocError> {
        let mut latest = Vec::with_capacity(alloc, input.durations.len())?;
        for (place, &duration) in input.durations.iter().enumerate() {
            let tail = at(&input.tails, narrow(place));
            latest.push(horizon.saturating_sub(duration).saturating_sub(tail))?;
        }
        Ok(Bounds {
            earliest: vec![in alloc; 0u32; latest.len()]?,
            latest,
        })
    }

    // Narrows the bounds to the windows.
    fn keep_windows(&mut self, input: &Input) {
        for window in &input.windows {
            let activity = window.activity;
            let earliest = at(&self.earliest, activity).max(window.earliest);
            let latest = at(&self.latest, activity).min(window.latest);
            put(&mut self.earliest, activity, earliest);
            put(&mut self.latest, activity, latest);
        }
    }

    // Narrows the bounds by the arcs. Returns whether one has changed.
    fn keep_arcs(&mut self, input: &Input) -> bool {
        let mut has_changed = false;
        for arc in &input.arcs {
            let weight = at(&input.durations, arc.from).saturating_add(arc.lag);
            let earliest = at(&self.earliest, arc.from).saturating_add(weight);
            let latest = at(&self.latest, arc.to).saturating_sub(weight);
            if earliest > at(&self.earliest, arc.to) {
                put(&mut self.earliest, arc.to, earliest);
                has_changed = true;
            }
            if latest < at(&self.latest, arc.from) {
                put(&mut self.latest, arc.from, latest);
                has_changed = true;
            }
        }
        has_changed
    }
}

// Returns the bounds by windows, arcs and the horizon.
fn bounds_of(alloc: Global, input: &Input, horizon: u32) -> Result<Bounds, AllocError> {
    let mut bounds = Bounds::new(alloc, input, horizon)?;
    bounds.keep_windows(input);
    for _ in 0..input.durations.len() {
        if !bounds.keep_arcs(input) {
            break;
        }
    }
    Ok(bounds)
}

impl Profile {
    // Returns what is absent before a horizon.
    fn new(alloc: Global, input: &Input, horizon: u32) -> Result<Profile, AllocError> {
        let kinds = narrow(input.capacities.len());
        let cells = (horizon as u64).saturating_mul(kinds as u64);
        let cells = if cells <= MOST_CELLS { cells } else { 0 };
        let mut profile = Profile {
            horizon,
            kinds,
            used: vec![in alloc; 0u64; cells as usize]?,
        };
        for absence in &input.absences {
            profile.add(
                absence.resource,
                absence.from,
                absence.until,
                absence.amount,
            );
        }
        Ok(profile)
    }

    // Returns the place of a cell.
    fn place(&self, resource: u32, instant: u32) -> usize {
        (resource as usize)
            .saturating_mul(self.horizon as usize)
            .saturating_add(instant as usize)
    }

    // Adds an amount from an instant to another.
    fn add(&mut self, resource: u32, from: u32, until: u32, amount: u32) {
        let until = until.min(self.horizon);
        for instant in from..until.max(from) {
            let place = self.place(resource, instant);
            if place < self.used.len() {
                self.used[place] = self.used[place].saturating_add(amount as u64);
            }
        }
    }

    // Adds an activity that starts at an instant.
    fn place_activity(&mut self, input: &Input, activity: u32, start: u32) {
        let end = start.saturating_add(at(&input.durations, activity));
        for resource in 0..self.kinds {
            let amount = need(input, activity, resource);
            if amount > 0 {
                self.add(resource, start, end, amount);
            }
        }
    }

    // Returns whether there is room for an activity at an instant.
    fn has_room(&self, input: &Input, activity: u32, instant: u32) -> bool {
        for resource in 0..self.kinds {
            let place = self.place(resource, instant);
            let need = need(input, activity, resource) as u64;
            if need > 0 && place < self.used.len() {
                let sum = self.used[place].saturating_add(need);
                if sum > capacity(input, resource) {
                    return false;
                }
            }
        }
        true
    }

    // Returns the first start from an instant on at which there is room for an activity, the horizon
    // if there is none before it.
    fn first_start(&self, input: &Input, activity: u32, from: u32) -> u32 {
        let duration = at(&input.durations, activity);
        let mut start = from;
        for instant in from..self.horizon.max(from) {
            if instant.saturating_sub(start) >= duration {
                break;
            }
            if !self.has_room(input, activity, instant) {
                start = instant.saturating_add(1);
            }
        }
        start
    }
}

impl Placement {
    // Returns a placement without starts.
    fn new(alloc: Global, input: &Input) -> Result<Placement, AllocError> {
        let count = input.durations.len();
        let mut waits = vec![in alloc; 0u32; count]?;
        for arc in &input.arcs {
            let more = at(&waits, arc.to).saturating_add(1);
            put(&mut waits, arc.to, more);
        }
        Ok(Placement {
            starts: vec![in alloc; 0u32; count]?,
            is_placed: vec![in alloc; false; count]?,
            is_fixed: vec![in alloc; false; count]?,
            waits,
        })
    }

    // Gives the activities that have one start only that start.
    fn fix(&mut self, input: &Input, bounds: &Bounds, profile: &mut Profile) {
        for activity in 0..narrow(input.durations.len()) {
            let start = at(&bounds.earliest, activity);
            if start == at(&bounds.latest, activity) {
                mark(&mut self.is_fixed, activity, true);
                put(&mut self.starts, activity, start);
                profile.place_activity(input, activity, start);
            }
        }
    }

    // Returns the activity without a start that waits for none and has the least key.
    fn next(&self, keys: &[u32]) -> Option<u32> {
        let (mut next, mut least) = (None, u32::MAX);
        for activity in 0..narrow(self.starts.len()) {
            let is_open = !is_marked(&self.is_placed, activity) && at(&self.waits, activity) == 0;
            let key = at(keys, activity);
            if is_open && (next.is_none() || key < least) {
                next = Some(activity);
                least = key;
            }
        }
        next
    }

    // Gives an activity its start.
    fn place(&mut self, input: &Input, bounds: &Bounds, profile: &mut Profile, activity: u32) {
        if !is_marked(&self.is_fixed, activity) {
            let start = profile.first_start(input, activity, at(&bounds.earliest, activity));
            put(&mut self.starts, activity, start);
            profile.place_activity(input, activity, start);
        }
        mark(&mut self.is_placed, activity, true);
    }

    // Tells the successors of an activity that it has a start.
    fn release(&mut self, input: &Input, bounds: &mut Bounds, activity: u32) {
        let end = at(&self.starts, activity).saturating_add(at(&input.durations, activity));
        for arc in &input.arcs {
            if arc.from == activity {
                let earliest = end
                    .saturating_add(arc.lag)
                    .max(at(&bounds.earliest, arc.to));
                put(&mut bounds.earliest, arc.to, earliest);
                let less = at(&self.waits, arc.to).saturating_sub(1);
                put(&mut self.waits, arc.to, less);
            }
        }
    }
}

// Returns a start for each activity of a problem: each in turn as early as it can be, the one with the
// least key first; before them those that have one start only.
fn placed(
    alloc: Global,
    input: &Input,
    horizon: u32,
    mut bounds: Bounds,
    keys: &[u32],
) -> Result<Vec<u32>, AllocError> {
    let mut profile = Profile::new(alloc, input, horizon)?;
    let mut placement = Placement::new(alloc, input)?;
    placement.fix(input, &bounds, &mut profile);
    for _ in 0..input.durations.len() {
        let Some(activity) = placement.next(keys) else {
            break;
        };
        placement.place(input, &bounds, &mut profile, activity);
        placement.release(input, &mut bounds, activity);
    }
    Ok(placement.starts)
}

/// Returns a start for each activity of a problem: each in turn as early as it can be, the one with
/// the least latest start first; before them those that have one start only.
pub fn first_starts(alloc: Global, input: &Input, horizon: u32) -> Result<Vec<u32>, AllocError> {
    let bounds = bounds_of(alloc, input, horizon)?;
    let keys = Vec::from_slice(alloc, &bounds.latest)?;
    placed(alloc, input, horizon, bounds, &keys)
}

/// Returns a start for each activity of a problem as [`first_starts`] does, but the one with the
/// least key first. There is a key for each activity.
pub fn starts_by(
    alloc: Global,
    input: &Input,
    horizon: u32,
    keys: &[u32],
) -> Result<Vec<u32>, AllocError> {
    let bounds = bounds_of(alloc, input, horizon)?;
    placed(alloc, input, horizon, bounds, keys)
}
