//! Free floats, and `dates`, which computes all dates.

ghost use Rattle.std.specs.Prelude.{◌≡◌, ℕ, ◌+◌, ◌*◌, ◌-◌, ◌≤◌, ◌<◌, length, sum, IfOk, slice_index, EachIndex, SomeIndex};
ghost use Rattle.plan_net.specs.Network.{IsActivity, IsArc, IsGreatest, count_of, lag_of};
ghost use Rattle.plan_cpm.specs.Lengths.{AreFinishes, HasNoLag, IsLength};
ghost use Rattle.plan_cpm.specs.Dates.{AreDates, AreFreeFloats, AreNextStarts, KeepRecurrences, LeavesTails, LowersBefore};

use super::passes::{earliest_finishes, tails};
use super::table::Dates;
use plan_net::{LONGEST_LAG, Network};
use std::alloc::{AllocError, Global};

// The greatest of the numbers.
fn greatest(values: &[u64]) -> u64
    requires { 0 < length values.now }
    ensures reached { SomeIndex values.now (λ k. slice_index values.now k ≡ result) }
    ensures above { EachIndex values.now (λ k. slice_index values.now k ≤ result) }
{
    let mut most = values[0];
    for k in 1..values.len() {
        if values[k] > most {
            most = values[k];
        }
    }
    most
}

// Lowers the entry of each predecessor of `k` to at most `start`, the start of `k`, less the lag of
// the arc.
fn lower_before(network: &Network, k: u32, start: u64, nexts: &mut Vec<u64>)
    requires activity { IsActivity network.now k }
    requires whole { length nexts.old.items ≡ count_of network.now }
    requires start { (j : ℕ) → IsArc network.now j k → lag_of network.now j k ≤ start }
    ensures { LowersBefore network.now k start nexts.old.items nexts.new.items }
{
    let lags = network.lags_into(k);
    for (m, &j) in network.preds(k).iter().enumerate() {
        let place = j as usize - 1;
        let end = start - lags[m];
        nexts[place] = nexts[place].min(end);
    }
}

// Returns for each activity the least start of a successor less the lag of the arc, at most the
// project duration.
fn next_starts(
    alloc: Global,
    network: &Network,
    finishes: &[u64],
    duration: u64,
) -> Result<Vec<u64>, AllocError>
    requires finishes { AreFinishes network.now finishes.now }
    ensures { IfOk result (λ list. AreNextStarts network.now finishes.now duration list.items) }
{
    let mut nexts = vec![in alloc; duration; network.len()]?;
    for i in 0..network.len() {
        let k = i as u32 + 1;
        let start = finishes[i] - network.duration(k);
        lower_before(network, k, start, &mut nexts);
    }
    Ok(nexts)
}

// The free float of each activity.
fn free_floats(
    alloc: Global,
    network: &Network,
    finishes: &[u64],
    duration: u64,
) -> Result<Vec<u64>, AllocError>
    requires finishes { AreFinishes network.now finishes.now }
    requires duration { IsGreatest (IsLength network.now) duration }
    ensures { IfOk result (λ list. AreFreeFloats network.now finishes.now duration list.items) }
{
    let nexts = next_starts(alloc, network, finishes, duration)?;
    let mut list = Vec::new(alloc);
    for k in 0..network.len() {
        list.push(nexts[k] - finishes[k])?;
    }
    Ok(list)
}

// The durations of the activities.
fn durations_of(alloc: Global, network: &Network) -> Result<Vec<u64>, AllocError>
    ensures { IfOk result (λ list. list.items ≡ network.now.durations) }
{
    let mut list = Vec::new(alloc);
    for k in 0..network.len() {
        list.push(network.duration(k as u32 + 1))?;
    }
    Ok(list)
}

/// Returns the dates of the activities (the critical path method of Kelley and Walker 1959). The
/// only error is out of memory.
pub fn dates(alloc: Global, network: &Network) -> Result<Dates, AllocError>
    ensures dates { IfOk result (AreDates network.now) }
    ensures recurrences { IfOk result (KeepRecurrences network.now) }
    ensures tails { IfOk result (LeavesTails network.now) }
    ensures bound { IfOk result (λ made. made.duration ≤ sum network.now.durations + LONGEST_LAG *
        (count_of network.now - 1)) }
    ensures bound_without_lags { IfOk result (λ made. HasNoLag network.now →
        made.duration ≤ sum network.now.durations) }
{
    // The proof needs the facts of the network, which this call states.
    let _count = network.len();
    let finishes = earliest_finishes(alloc, network)?;
    let after = tails(alloc, network)?;
    let durations = durations_of(alloc, network)?;
    let duration = greatest(&finishes);
    let floats = free_floats(alloc, network, &finishes, duration)?;
    Ok(Dates::from_parts(duration, durations, finishes, after, floats))
}
