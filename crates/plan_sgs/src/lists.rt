//! Activity lists: orders of all activities, each after its predecessors.

ghost use Rattle.std.specs.Prelude.{◌≡◌, ◌↔◌, length, slice_index, IsTrue, IfOk};
ghost use Rattle.plan_net.specs.Network.{count_of};
ghost use Rattle.plan_sgs.specs.Problem.{count};
ghost use Rattle.plan_sgs.specs.Instances.{problem_of};
ghost use Rattle.plan_sgs.specs.Rules as spec;
ghost use Rattle.plan_sgs.specs.Placement.{IsTurnList};
ghost use Rattle.plan_sgs.specs.Eligibility.{CanCome};

use crate::eligibility::{first_queue, first_waits, lower_waits, open_pred};
use crate::instance::Instance;
use plan_net::Network;
use std::alloc::{AllocError, Global};
use std::cmp::Reverse;

// Tests whether a number is that of an activity that isn't taken and whose predecessors are taken.
fn can_come(network: &Network, taken: &[bool], j: u32) -> bool
    requires { length taken.now ≡ count_of network.now }
    ensures { IsTrue result ↔ CanCome network.now taken.now j }
{
    if j == 0 || j as usize > network.len() || taken[j as usize - 1] {
        return false;
    }
    open_pred(network, taken, j).is_none()
}

/// Tests whether the numbers are an order of all activities, each after its predecessors.
pub fn is_list(alloc: Global, instance: &Instance, list: &[u32]) -> Result<bool, AllocError>
    ensures { IfOk result (λ is. IsTrue is ↔ IsTurnList (problem_of instance.now) list.now) }
{
    let network = instance.network();
    if list.len() != network.len() {
        return Ok(false);
    }
    let mut taken = vec![in alloc; false; network.len()]?;
    for &j in list {
        if !can_come(network, &taken, j) {
            return Ok(false);
        }
        taken[j as usize - 1] = true;
    }
    Ok(true)
}

/// Returns the list of the rule with these keys, one for each activity.
pub fn rule_list(alloc: Global, instance: &Instance, keys: &[u64]) -> Result<Vec<u32>, AllocError>
    requires { length keys.now ≡ count (problem_of instance.now) }
    ensures list { IfOk result (λ list.
        spec.places list.items
        ≡ spec.rule_list (problem_of instance.now) (slice_index keys.now)) }
    ensures turns { IfOk result (λ list. IsTurnList (problem_of instance.now) list.items) }
{
    let network = instance.network();
    // The proof needs the facts of the network, which this call states.
    let _order = network.order();
    let mut waits = first_waits(alloc, network)?;
    let mut queue = first_queue(alloc, network, &waits, keys)?;
    let mut list = Vec::new(alloc);
    for _turn in 0..network.len() {
        let Some(Reverse((_, j))) = queue.pop() else {
            unreachable!();
        };
        list.push(j)?;
        lower_waits(network, j, &mut waits, keys, &mut queue)?;
    }
    Ok(list)
}
