//! Eligible activities: those that may be taken next, since all their predecessors are taken.

ghost use Rattle.std.specs.Prelude.{◌≡◌, ℕ, ◌-◌, ◌≤◌, length, slice_index, EachIndex, IfOk, OnOk};
ghost use Rattle.std.specs.BinaryHeap.{heap_items};
ghost use Rattle.plan_net.specs.Network.{IsActivity, IsArc, count_of};
ghost use Rattle.plan_net.specs.Limits.{IsSound};
ghost use Rattle.plan_sgs.specs.Eligibility.{WaitsFor, AreInDegrees, Lowers, IsQueue, QueuesFree};
ghost use Rattle.plan_sgs.specs.Eligibility.{Joins};

use plan_net::Network;
use std::alloc::{AllocError, Global};
use std::cmp::Reverse;
use std::collections::BinaryHeap;

/// Returns the least predecessor of activity `j` that isn't taken.
pub fn open_pred(network: &Network, taken: &[bool], j: u32) -> Option<u32>
    requires activity { IsActivity network.now j }
    requires whole { length taken.now ≡ count_of network.now }
    ensures { WaitsFor network.now taken.now j result }
{
    for &i in network.preds(j) {
        if !taken[i as usize - 1] {
            return Some(i);
        }
    }
    None
}

/// Returns the number of predecessors that each activity waits for while none is taken.
pub fn first_waits(alloc: Global, network: &Network) -> Result<Vec<usize>, AllocError>
    ensures { IfOk result (λ waits.
        AreInDegrees (count_of network.now) network.now.arcs waits.items) }
{
    let mut waits = vec![in alloc; 0; network.len()]?;
    for &(_, j) in network.arcs() {
        waits[j as usize - 1] += 1;
    }
    Ok(waits)
}

/// Counts activity `j` as taken: its successors wait for one predecessor less.
pub fn lower_each(network: &Network, j: u32, waits: &mut Vec<usize>)
    requires sound { IsSound network.now }
    requires activity { IsActivity network.now j }
    requires waits { length waits.old.items ≡ count_of network.now }
    requires waiting { (h : ℕ) → IsArc network.now j h → 1 ≤ slice_index waits.old.items (h - 1) }
    ensures { Lowers network.now j waits.old.items waits.new.items }
{
    for &h in network.succs(j) {
        waits[h as usize - 1] -= 1;
    }
}

/// Counts activity `j` as not taken again: its successors wait for one predecessor more.
pub fn raise_each(network: &Network, j: u32, waits: &mut Vec<usize>)
    requires sound { IsSound network.now }
    requires activity { IsActivity network.now j }
    requires waits { length waits.old.items ≡ count_of network.now }
    requires limit { EachIndex waits.old.items (λ k.
        slice_index waits.old.items k ≤ length network.now.arcs) }
    ensures { Lowers network.now j waits.new.items waits.old.items }
{
    // The proof needs the bound on the number of arcs.
    let _arcs = network.arcs();
    for &h in network.succs(j) {
        waits[h as usize - 1] += 1;
    }
}

/// Returns the queue of the activities that wait for none, ordered by their keys and numbers.
pub fn first_queue(
    alloc: Global,
    network: &Network,
    waits: &[usize],
    keys: &[u64],
) -> Result<BinaryHeap<Reverse<(u64, u32)>>, AllocError>
    requires waits { length waits.now ≡ count_of network.now }
    requires keys { length keys.now ≡ count_of network.now }
    ensures queue { IfOk result (λ queue. IsQueue keys.now (heap_items queue)) }
    ensures free { IfOk result (λ queue. QueuesFree waits.now (heap_items queue)) }
{
    let mut queue = BinaryHeap::new(alloc);
    for i in 0..network.len() {
        if waits[i] == 0 {
            queue.push(Reverse((keys[i], i as u32 + 1)))?;
        }
    }
    Ok(queue)
}

/// Counts activity `j` as taken, and queues its successors that wait for no other predecessor.
pub fn lower_waits(
    network: &Network,
    j: u32,
    waits: &mut Vec<usize>,
    keys: &[u64],
    queue: &mut BinaryHeap<Reverse<(u64, u32)>>,
) -> Result<(), AllocError>
    requires sound { IsSound network.now }
    requires activity { IsActivity network.now j }
    requires waits { length waits.old.items ≡ count_of network.now }
    requires keys { length keys.now ≡ count_of network.now }
    requires waiting { (h : ℕ) → IsArc network.now j h → 1 ≤ slice_index waits.old.items (h - 1) }
    requires queue { IsQueue keys.now (heap_items queue.old) }
    ensures waits { OnOk result (Lowers network.now j waits.old.items waits.new.items) }
    ensures queue { OnOk result (IsQueue keys.now (heap_items queue.new)) }
    ensures joins { OnOk result
        (Joins waits.old.items waits.new.items (heap_items queue.old) (heap_items queue.new)) }
{
    lower_each(network, j, waits);
    for &h in network.succs(j) {
        let i = h as usize - 1;
        if waits[i] == 0 {
            queue.push(Reverse((keys[i], h)))?;
        }
    }
    Ok(())
}
