//! The search for the cycle that an error names: a walk from predecessor to predecessor until an
//! activity recurs.

ghost use Rattle.std.specs.Prelude.{◌≡◌, length, IfOk, Contains, ◌<◌, ◌≤◌, slice_index, EachIndex};
ghost use Rattle.plan_net.specs.Network.{IsLeast, count_of};
ghost use Rattle.plan_net.specs.Cycle.{IsCaught, IsNamedCycle};
ghost use Rattle.plan_net.specs.Placed.{IsStuck};
ghost use Rattle.plan_net.specs.Trails.{IsCaughtOpen, IsTrail};

use super::arcs::Arcs;
use super::order::open_pred;
use std::alloc::{AllocError, Global};

// Returns a walk from `first`, on which each activity is the least open predecessor of the one
// before it, and the first activity that recurs.
fn trail_from(
    alloc: Global,
    arcs: &Arcs,
    placed: &[bool],
    first: u32,
) -> Result<(Vec<u32>, u32), AllocError>
    requires whole { length placed.now ≡ count_of arcs.now }
    requires caught { IsCaughtOpen arcs.now placed.now }
    requires stuck { IsStuck arcs.now placed.now }
    requires first { IsLeast (IsCaught arcs.now) first }
    ensures trail { IfOk result (λ found. IsTrail arcs.now found.0.items found.1) }
    ensures again { IfOk result (λ found. Contains found.0.items found.1) }
{
    let mut trail = Vec::new(alloc);
    let mut met = vec![in alloc; false; arcs.len()]?;
    let mut at = first;
    while !met[at as usize - 1] {
        met[at as usize - 1] = true;
        trail.push(at)?;
        at = match open_pred(arcs, at, placed) {
            Some(i) => i,
            None => unreachable!(),
        };
    }
    Ok((trail, at))
}

// Returns the index of the least member.
fn place_of_least(members: &[u32]) -> usize
    requires { 0 < length members.now }
    ensures within { result < length members.now }
    ensures least { EachIndex members.now (λ k.
        slice_index members.now result ≤ slice_index members.now k) }
{
    let mut place = 0;
    for k in 0..members.len() {
        if members[k] < members[place] {
            place = k;
        }
    }
    place
}

// Returns an index of activity `at` in the trail.
fn place_of_met(trail: &[u32], at: u32) -> usize
    requires { Contains trail.now at }
    ensures within { result < length trail.now }
    ensures found { slice_index trail.now result ≡ at }
{
    let mut place = 0;
    for k in 0..trail.len() {
        if trail[k] == at {
            place = k;
        }
    }
    place
}

/// Returns the named cycle of a network in which every open activity has an open predecessor.
/// `first` is the least open activity.
pub fn named_cycle(
    alloc: Global,
    arcs: &Arcs,
    placed: &[bool],
    first: u32,
) -> Result<Vec<u32>, AllocError>
    requires whole { length placed.now ≡ count_of arcs.now }
    requires caught { IsCaughtOpen arcs.now placed.now }
    requires stuck { IsStuck arcs.now placed.now }
    requires first { IsLeast (IsCaught arcs.now) first }
    ensures { IfOk result (λ members. IsNamedCycle arcs.now members.items) }
{
    let (trail, at) = trail_from(alloc, arcs, placed, first)?;
    let from = place_of_met(&trail, at);
    let mut members = trail[from..].to_vec(alloc)?;
    members.reverse();
    let least = place_of_least(&members);
    members.rotate_left(least);
    Ok(members)
}
