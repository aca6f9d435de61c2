//! Keys of the priority rules. The activity with the least key is taken first.

ghost use Rattle.std.specs.Prelude.{IfOk};
ghost use Rattle.plan_cpm.specs.Dates.{AreDates};
ghost use Rattle.plan_cpm.specs.Successors.{AreTotals};
ghost use Rattle.plan_sgs.specs.Keys.{AreKeysOf};

use crate::rule::Rule;
use plan_cpm::{Dates, dates, total_successors};
use plan_net::Network;
use std::alloc::{AllocError, Global};

// Returns the latest finishes.
fn late_finishes(alloc: Global, network: &Network, table: &Dates) -> Result<Vec<u64>, AllocError>
    requires { AreDates network.now table.now }
    ensures { IfOk result (λ keys. AreKeysOf network.now Rule.LatestFinish keys.items) }
{
    let mut keys = Vec::new(alloc);
    for i in 0..network.len() {
        keys.push(table.lf(i as u32 + 1))?;
    }
    Ok(keys)
}

// Returns the total floats.
fn total_floats(alloc: Global, network: &Network, table: &Dates) -> Result<Vec<u64>, AllocError>
    requires { AreDates network.now table.now }
    ensures { IfOk result (λ keys. AreKeysOf network.now Rule.Slack keys.items) }
{
    let mut keys = Vec::new(alloc);
    for i in 0..network.len() {
        keys.push(table.tf(i as u32 + 1))?;
    }
    Ok(keys)
}

// Returns the durations.
fn durations(alloc: Global, network: &Network) -> Result<Vec<u64>, AllocError>
    ensures { IfOk result (λ keys. AreKeysOf network.now Rule.ShortestTime keys.items) }
{
    let mut keys = Vec::new(alloc);
    for i in 0..network.len() {
        keys.push(network.duration(i as u32 + 1))?;
    }
    Ok(keys)
}

// Returns `u32::MAX` minus the number of direct and indirect successors, so that the most come
// first.
fn most_successors_first(
    alloc: Global,
    network: &Network,
    totals: &[u32],
) -> Result<Vec<u64>, AllocError>
    requires { AreTotals network.now totals.now }
    ensures { IfOk result (λ keys. AreKeysOf network.now Rule.MostSuccessors keys.items) }
{
    let mut keys = Vec::new(alloc);
    for i in 0..network.len() {
        keys.push((u32::MAX - totals[i]) as u64)?;
    }
    Ok(keys)
}

// Returns the indices of the activities.
fn numbers(alloc: Global, network: &Network) -> Result<Vec<u64>, AllocError>
    ensures { IfOk result (λ keys. AreKeysOf network.now Rule.Number keys.items) }
{
    let mut keys = Vec::new(alloc);
    for i in 0..network.len() {
        keys.push(i as u64)?;
    }
    Ok(keys)
}

/// Returns the keys of a rule, in the order of the activities.
pub fn keys_of(alloc: Global, network: &Network, rule: Rule) -> Result<Vec<u64>, AllocError>
    ensures { IfOk result (λ keys. AreKeysOf network.now rule keys.items) }
{
    match rule {
        Rule::LatestFinish => late_finishes(alloc, network, &dates(alloc, network)?),
        Rule::Slack => total_floats(alloc, network, &dates(alloc, network)?),
        Rule::ShortestTime => durations(alloc, network),
        Rule::MostSuccessors => {
            most_successors_first(alloc, network, &total_successors(alloc, network)?)
        }
        Rule::Number => numbers(alloc, network),
    }
}
