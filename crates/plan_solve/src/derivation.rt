//! Bounds that need no search, derived in the kernel, so that a log proves them.

ghost use Rattle.std.specs.Prelude.{◌≡◌};

use crate::arrays::{at, put, row};
use crate::prover::Prover;
use plan_kernel::{Arc, Input, Kernel, LIMIT, Member, Reason};
use std::alloc::{AllocError, Global};

/// No arc.
const NONE: u32 = u32::MAX;

/// For each activity the length of the longest path behind it, and the first arc of that path.
#[derive(Drop)]
struct Tails {
    lengths: Vec<u32>,
    arcs: Vec<u32>,
}

/// A window of time, and the activities that must be in it if the makespan is below a bound.
#[derive(Drop)]
struct Window {
    resource: u32,
    from: u32,
    until: u32,
    members: Vec<Member>,
}

// Returns a number as one of 32 bits.
fn narrow(number: usize) -> u32 {
    (number & 0xffff_ffff) as u32
}

// Returns the earliest start of an activity, or the least makespan, as far as it is known.
fn head(kernel: &Kernel, quantity: u32) -> u32 {
    kernel.fact(quantity.wrapping_mul(2))
}

// Learns the clause of a reason without the literals that are false.
fn learn(alloc: Global, prover: &mut Prover, reason: Reason) -> Result<(), AllocError>
    ensures { prover.new.kernel.known.input ≡ prover.old.kernel.known.input }
{
    if prover.begin(reason)? {
        let _ = prover.keep(alloc)?;
    }
    Ok(())
}

// Returns the arc at a place.
fn arc_at(input: &Input, place: u32) -> Option<Arc> {
    if (place as usize) < input.arcs.len() {
        return Some(input.arcs[place as usize]);
    }
    None
}

// Raises the earliest start at the end of an arc. Returns whether it has risen.
fn raise_head(alloc: Global, prover: &mut Prover, place: u32) -> Result<bool, AllocError>
    ensures { prover.new.kernel.known.input ≡ prover.old.kernel.known.input }
{
    let input = prover.kernel.input();
    let Some(arc) = arc_at(input, place) else {
        return Ok(false);
    };
    let value = head(&prover.kernel, arc.from);
    let end = value.saturating_add(at(&input.durations, arc.from));
    if end.saturating_add(arc.lag) <= head(&prover.kernel, arc.to) {
        return Ok(false);
    }
    learn(alloc, prover, Reason::Arc { arc: place, value })?;
    Ok(true)
}

// Raises the earliest starts at the ends of all arcs. Returns whether some have risen.
fn raise_round(alloc: Global, prover: &mut Prover) -> Result<bool, AllocError>
    ensures { prover.new.kernel.known.input ≡ prover.old.kernel.known.input }
{
    let mut has_risen = false;
    for place in 0..narrow(prover.kernel.input().arcs.len()) {
        has_risen = raise_head(alloc, prover, place)? || has_risen;
    }
    Ok(has_risen)
}

// Raises all earliest starts.
fn raise_heads(alloc: Global, prover: &mut Prover) -> Result<(), AllocError>
    ensures { prover.new.kernel.known.input ≡ prover.old.kernel.known.input }
{
    for _ in 0..prover.kernel.input().durations.len() {
        if !raise_round(alloc, prover)? {
            break;
        }
    }
    Ok(())
}

// Returns the activity that ends last if each starts as early as it can.
fn last_end(kernel: &Kernel) -> u32 {
    let (mut last, mut greatest) = (0, 0);
    for (place, &duration) in kernel.input().durations.iter().enumerate() {
        let end = head(kernel, narrow(place)).saturating_add(duration);
        if end >= greatest {
            last = narrow(place);
            greatest = end;
        }
    }
    last
}

// Raises the least makespan to the length of the longest path.
fn raise_makespan(alloc: Global, prover: &mut Prover) -> Result<(), AllocError>
    ensures { prover.new.kernel.known.input ≡ prover.old.kernel.known.input }
{
    let activity = last_end(&prover.kernel);
    let value = head(&prover.kernel, activity);
    learn(alloc, prover, Reason::End { activity, value })
}

impl Tails {
    // Returns tails without arcs.
    fn new(alloc: Global, count: usize) -> Result<Tails, AllocError> {
        Ok(Tails {
            lengths: vec![in alloc; 0u32; count]?,
            arcs: vec![in alloc; NONE; count]?,
        })
    }

    // Lengthens the tails of activities by their arcs. Returns whether one is longer.
    fn lengthen(&mut self, input: &Input) -> bool {
        let mut is_longer = false;
        for place in (0..narrow(input.arcs.len())).rev() {
            if let Some(arc) = arc_at(input, place) {
                let behind = at(&input.durations, arc.to).saturating_add(at(&self.lengths, arc.to));
                let length = behind.saturating_add(arc.lag);
                if length > at(&self.lengths, arc.from) {
                    put(&mut self.lengths, arc.from, length);
                    put(&mut self.arcs, arc.from, place);
                    is_longer = true;
                }
            }
        }
        is_longer
    }
}

// Returns the longest paths behind all activities.
fn tails_of(alloc: Global, input: &Input) -> Result<Tails, AllocError> {
    let count = input.durations.len();
    let mut tails = Tails::new(alloc, count)?;
    for _ in 0..count {
        if !tails.lengthen(input) {
            break;
        }
    }
    Ok(tails)
}

// Moves the activity at a place forward until its tail isn't longer than that of the one in front.
fn move_forward(users: &mut Vec<u32>, tails: &Tails, from: usize) {
    let mut place = from;
    for _ in 0..from {
        if place == 0 || place >= users.len() {
            break;
        }
        let (one, other) = (users[place], users[place - 1]);
        if at(&tails.lengths, one) <= at(&tails.lengths, other) {
            break;
        }
        users.swap(place - 1, place);
        place -= 1;
    }
}

/// Returns what an activity needs of a resource.
pub fn need(input: &Input, activity: u32, resource: u32) -> u32 {
    if (activity as usize) < input.needs.len() {
        at(&input.needs[activity as usize], resource)
    } else {
        0
    }
}

// Returns the activities that need a resource, by their tails from the longest one on.
fn users_of(
    alloc: Global,
    input: &Input,
    tails: &Tails,
    resource: u32,
) -> Result<Vec<u32>, AllocError> {
    let mut users = Vec::new(alloc);
    for place in 0..narrow(input.durations.len()) {
        if at(&input.durations, place) > 0 && need(input, place, resource) > 0 {
            users.push(place)?;
        }
    }
    for place in 1..users.len() {
        move_forward(&mut users, tails, place);
    }
    Ok(users)
}

// Returns how long a resource is needed by an activity, times the need.
fn energy(input: &Input, activity: u32, resource: u32) -> u64 {
    let time = at(&input.durations, activity) as u64;
    time.saturating_mul(need(input, activity, resource) as u64)
}

// Returns the end of a window that begins at an instant and is too short for the users that start
// in it, if the makespan is below a bound.
fn end_from(
    kernel: &Kernel,
    tails: &Tails,
    users: &[u32],
    resource: u32,
    from: u32,
    bound: u32,
) -> Option<u32> {
    let input = kernel.input();
    let capacity = match input.capacities.get(resource as usize) {
        Some(capacity) => *capacity,
        None => return None,
    };
    let mut sum: u64 = 0;
    for &user in users {
        if head(kernel, user) >= from {
            sum = sum.saturating_add(energy(input, user, resource));
            let until = bound
                .saturating_sub(1)
                .saturating_sub(at(&tails.lengths, user));
            let length = until.saturating_sub(from) as u64;
            if length > 0 && sum > capacity.saturating_mul(length) {
                return Some(until);
            }
        }
    }
    None
}

// Returns whether an activity is in a window if the makespan is below a bound.
fn is_inside(kernel: &Kernel, tails: &Tails, from: u32, end: u32, bound: u32, user: u32) -> bool {
    let latest = bound
        .saturating_sub(1)
        .saturating_sub(at(&tails.lengths, user));
    head(kernel, user) >= from && latest <= end
}

// Returns the users that are in a window, by their numbers.
fn members_of(
    alloc: Global,
    kernel: &Kernel,
    tails: &Tails,
    resource: u32,
    window: (u32, u32),
    bound: u32,
) -> Result<Vec<Member>, AllocError> {
    let input = kernel.input();
    let mut members = Vec::new(alloc);
    for activity in 0..narrow(input.durations.len()) {
        let is_user = energy(input, activity, resource) > 0;
        if is_user && is_inside(kernel, tails, window.0, window.1, bound, activity) {
            let time = at(&input.durations, activity);
            members.push(Member { activity, time })?;
        }
    }
    Ok(members)
}

// Returns a window of a resource that is too short if the makespan is below a bound.
fn window_of(
    alloc: Global,
    kernel: &Kernel,
    tails: &Tails,
    resource: u32,
    bound: u32,
) -> Result<Option<Window>, AllocError> {
    let users = users_of(alloc, kernel.input(), tails, resource)?;
    for &user in &users {
        let from = head(kernel, user);
        if let Some(until) = end_from(kernel, tails, &users, resource, from, bound) {
            let members = members_of(alloc, kernel, tails, resource, (from, until), bound)?;
            return Ok(Some(Window {
                resource,
                from,
                until,
                members,
            }));
        }
    }
    Ok(None)
}

// Replaces the latest start of an activity in the conflict by that of the activity behind it on its
// longest path, or by the makespan. Returns the activity behind it.
fn descend(prover: &mut Prover, tails: &Tails, activity: u32) -> Result<Option<u32>, AllocError>
    ensures { prover.new.kernel.known.input ≡ prover.old.kernel.known.input }
{
    let half = activity.wrapping_mul(2) | 1;
    let left = prover.kernel.conflict(half);
    if left == 0 {
        return Ok(None);
    }
    let value = LIMIT.saturating_add(1).saturating_sub(left);
    let place = if (activity as usize) < tails.arcs.len() {
        tails.arcs[activity as usize]
    } else {
        NONE
    };
    let arc = arc_at(prover.kernel.input(), place);
    let reason = match arc {
        Some(_) => Reason::Arc { arc: place, value },
        None => Reason::End { activity, value },
    };
    let is_resolved = prover.resolve(half, reason)?;
    match arc {
        Some(arc) if is_resolved => Ok(Some(arc.to)),
        _ => Ok(None),
    }
}

// Replaces the latest start of an activity in the conflict by the makespan.
fn descend_all(
    prover: &mut Prover,
    tails: &Tails,
    activity: u32,
    most: usize,
) -> Result<(), AllocError>
    ensures { prover.new.kernel.known.input ≡ prover.old.kernel.known.input }
{
    let mut activity = activity;
    for _ in 0..most {
        match descend(prover, tails, activity)? {
            Some(next) => activity = next,
            None => break,
        }
    }
    Ok(())
}

// Learns that a window is too short, as a bound of the makespan.
fn learn_window(
    alloc: Global,
    prover: &mut Prover,
    tails: &Tails,
    window: &Window,
) -> Result<(), AllocError>
    ensures { prover.new.kernel.known.input ≡ prover.old.kernel.known.input }
{
    let reason = Reason::Energy {
        resource: window.resource,
        from: window.from,
        until: window.until,
        members: window.members.as_slice(),
    };
    if !prover.begin(reason)? {
        return Ok(());
    }
    let most = tails.arcs.len();
    for member in &window.members {
        descend_all(prover, tails, member.activity, most)?;
    }
    let _ = prover.keep(alloc)?;
    Ok(())
}

// Raises the least makespan to a bound by the work of a resource, if that has so much.
fn raise_by_work(
    alloc: Global,
    prover: &mut Prover,
    tails: &Tails,
    resource: u32,
    bound: u32,
) -> Result<(), AllocError>
    ensures { prover.new.kernel.known.input ≡ prover.old.kernel.known.input }
{
    match window_of(alloc, &prover.kernel, tails, resource, bound)? {
        Some(window) => learn_window(alloc, prover, tails, &window),
        None => Ok(()),
    }
}

/// Raises the kernel's lower bound to one that needs no search: the longest path, or the work of a
/// resource between the shortest heads and tails of some of its users.
pub fn derive(alloc: Global, prover: &mut Prover, bound: u64) -> Result<(), AllocError>
    ensures { prover.new.kernel.known.input ≡ prover.old.kernel.known.input }
{
    raise_heads(alloc, prover)?;
    raise_makespan(alloc, prover)?;
    let tails = tails_of(alloc, prover.kernel.input())?;
    let bound = bound.min(LIMIT as u64) as u32;
    for resource in 0..narrow(prover.kernel.input().capacities.len()) {
        if bound <= prover.kernel.lower_bound() {
            break;
        }
        raise_by_work(alloc, prover, &tails, resource, bound)?;
    }
    Ok(())
}
