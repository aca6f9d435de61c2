//! The forward pass (earliest finishes) and the backward pass (tails).

ghost use Rattle.std.specs.Prelude.{◌≡◌, ℕ, ◌+◌, ◌-◌, ◌≤◌, ◌⊎◌, length, IfOk, slice_index, EachIndex};
ghost use Rattle.plan_net.specs.Network.{IsActivity, IsArc, count_of, lag_of};
ghost use Rattle.plan_cpm.specs.Lengths.{AreFinishes, AreTails, RaisesBefore};

use plan_net::Network;
use std::alloc::{AllocError, Global};

// A bound on the length of a path, in time units: 502 durations and 502 lags of 10,000 each.
pub(crate) const FARTHEST: u64 = 10_040_000;

// Returns the greatest sum of a predecessor's finish and the lag of its arc, 0 without
// predecessors.
fn last_before(network: &Network, j: u32, finishes: &[u64]) -> u64
    requires activity { IsActivity network.now j }
    requires whole { length finishes.now ≡ count_of network.now }
    requires limit { EachIndex finishes.now (λ k. slice_index finishes.now k ≤ FARTHEST) }
    ensures above { (i : ℕ) → IsArc network.now i j →
        slice_index finishes.now (i - 1) + lag_of network.now i j ≤ result }
    ensures reached { (result ≡ 0) ⊎ ((i : ℕ) × IsArc network.now i j
        × (result ≡ slice_index finishes.now (i - 1) + lag_of network.now i j)) }
{
    let lags = network.lags_into(j);
    let mut latest = 0u64;
    for (k, &i) in network.preds(j).iter().enumerate() {
        let ready = finishes[i as usize - 1] + lags[k];
        latest = latest.max(ready);
    }
    latest
}

// The earliest finish of each activity: the greatest length of a path that ends with it.
pub(crate) fn earliest_finishes(alloc: Global, network: &Network) -> Result<Vec<u64>, AllocError>
    ensures { IfOk result (λ list. AreFinishes network.now list.items) }
{
    let mut finishes = vec![in alloc; 0u64; network.len()]?;
    for &j in network.order() {
        let start = last_before(network, j, &finishes);
        finishes[j as usize - 1] = start + network.duration(j);
    }
    Ok(finishes)
}

// Raises the entry of each predecessor of `j` to at least the lag of its arc plus the tail of `j`.
fn raise_before(network: &Network, j: u32, tail: u64, rests: &mut Vec<u64>)
    requires activity { IsActivity network.now j }
    requires whole { length rests.old.items ≡ count_of network.now }
    requires limit { tail ≤ FARTHEST }
    ensures { RaisesBefore network.now j tail rests.old.items rests.new.items }
{
    let lags = network.lags_into(j);
    for (k, &i) in network.preds(j).iter().enumerate() {
        let place = i as usize - 1;
        let rest = lags[k] + tail;
        rests[place] = rests[place].max(rest);
    }
}

/// The tail of each activity: the greatest length of a path that begins with it.
pub fn tails(alloc: Global, network: &Network) -> Result<Vec<u64>, AllocError>
    ensures { IfOk result (λ list. AreTails network.now list.items) }
{
    let mut tails = vec![in alloc; 0u64; network.len()]?;
    let order = network.order();
    let mut left = order.len();
    while left > 0 {
        left -= 1;
        let j = order[left];
        // so far the entry of `j` excludes its duration
        let tail = network.duration(j) + tails[j as usize - 1];
        tails[j as usize - 1] = tail;
        raise_before(network, j, tail, &mut tails);
    }
    Ok(tails)
}
