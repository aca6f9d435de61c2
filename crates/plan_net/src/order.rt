//! The least topological order, and the least activity that it leaves open.

ghost use Rattle.std.specs.Prelude.{◌≡◌, ℕ, ◌≤◌, length, IfOk, IfSome, IfNone};
ghost use Rattle.plan_net.specs.Network.{IsActivity, IsArc, IsLeast, count_of};
ghost use Rattle.plan_net.specs.Placed.{IsPlaced, IsOpen, IsReady, IsPlacedOrder, IsStuck, IsStuckBelow, IsStuckBelowBut};

use super::arcs::Arcs;
use super::limits::MOST_ACTIVITIES;
use std::alloc::{AllocError, Global};

/// Returns the least open predecessor of activity `j`, if there is one.
pub fn open_pred(arcs: &Arcs, j: u32, placed: &[bool]) -> Option<u32>
    requires activity { IsActivity arcs.now j }
    requires whole { length placed.now ≡ count_of arcs.now }
    ensures some { IfSome result (IsLeast (λ i. IsArc arcs.now i j × IsOpen placed.now i)) }
    ensures none { IfNone result ((i : ℕ) → IsArc arcs.now i j → IsPlaced placed.now i) }
{
    for &i in arcs.preds(j) {
        if !placed[i as usize - 1] {
            return Some(i);
        }
    }
    None
}

// Returns the least activity that can come, if there is one. No activity below `first` can come.
fn least_ready(arcs: &Arcs, placed: &[bool], first: u32) -> Option<u32>
    requires whole { length placed.now ≡ count_of arcs.now }
    requires first { 1 ≤ first }
    requires below { IsStuckBelow arcs.now placed.now first }
    ensures some { IfSome result (λ j. IsLeast (IsReady arcs.now placed.now) j) }
    ensures below { IfSome result (IsStuckBelow arcs.now placed.now) }
    ensures none { IfNone result (IsStuck arcs.now placed.now) }
{
    let count = arcs.len() as u32;
    for j in first..=count {
        if !placed[j as usize - 1] {
            match open_pred(arcs, j, placed) {
                None => return Some(j),
                Some(_) => {}
            }
        }
    }
    None
}

// Returns the activity at which the search continues after `j`: the least successor below `j` that
// can come now, or else `j + 1`.
fn next_from(arcs: &Arcs, j: u32, placed: &[bool]) -> u32
    requires activity { IsActivity arcs.now j }
    requires whole { length placed.now ≡ count_of arcs.now }
    requires limit { length placed.now ≤ MOST_ACTIVITIES }
    requires placed { IsPlaced placed.now j }
    requires below { IsStuckBelowBut arcs.now placed.now j }
    ensures first { 1 ≤ result }
    ensures below { IsStuckBelow arcs.now placed.now result }
{
    for &k in arcs.succs(j) {
        // so are all successors after it
        if k >= j {
            return j + 1;
        }
        if open_pred(arcs, k, placed).is_none() {
            return k;
        }
    }
    j + 1
}

/// Returns the activities that can come, in the least order, and the marks of all activities.
pub fn least_order(alloc: Global, arcs: &Arcs) -> Result<(Vec<u32>, Vec<bool>), AllocError>
    ensures order { IfOk result (λ found. IsPlacedOrder arcs.now found.0.items found.1.items) }
    ensures stuck { IfOk result (λ found. IsStuck arcs.now found.1.items) }
{
    let mut order = Vec::new(alloc);
    let mut placed = vec![in alloc; false; arcs.len()]?;
    let mut first = 1;
    while let Some(j) = least_ready(arcs, &placed, first) {
        order.push(j)?;
        placed[j as usize - 1] = true;
        first = next_from(arcs, j, &placed);
    }
    Ok((order, placed))
}

/// Returns the least open activity, if there is one.
pub fn first_open(placed: &[bool]) -> Option<u32>
    requires { length placed.now ≤ MOST_ACTIVITIES }
    ensures some { IfSome result (λ j. IsLeast
        (λ h. (1 ≤ h) × (h ≤ length placed.now) × IsOpen placed.now h) j) }
    ensures none { IfNone result ((j : ℕ) → 1 ≤ j → j ≤ length placed.now → IsPlaced placed.now j) }
{
    for (k, &mark) in placed.iter().enumerate() {
        if !mark {
            return Some(k as u32 + 1);
        }
    }
    None
}
