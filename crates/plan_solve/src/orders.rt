//! Pairs of activities that can't overlap.

use crate::arrays::{is_marked, mark};
use plan_kernel::Order;
use plan_sgs::Instance;
use std::alloc::{AllocError, Global};

/// The most orders.
const MOST_ORDERS: usize = 40_000;

// Whether two activities need more of a resource together than there is.
fn exceed(one: &[u64], other: &[u64], caps: &[u64]) -> bool {
    for ((need, beside), cap) in one.iter().zip(other).zip(caps) {
        if need.saturating_add(*beside) > *cap {
            return true;
        }
    }
    false
}

// Takes what is reached from one activity over to another, and the one itself.
fn reach(reached: &mut Vec<bool>, count: u32, from: u32, to: u32) {
    let (row, other) = (from.wrapping_mul(count), to.wrapping_mul(count));
    for activity in 0..count {
        if activity == to || is_marked(reached, other.wrapping_add(activity)) {
            mark(reached, row.wrapping_add(activity), true);
        }
    }
}

// For each activity, row by row, which ones come behind it.
fn reached(alloc: Global, instance: &Instance) -> Result<Vec<bool>, AllocError> {
    let network = instance.network();
    let count = network.len();
    let mut reached = vec![in alloc; false; count * count]?;
    for &activity in network.order().iter().rev() {
        for &successor in network.succs(activity) {
            reach(&mut reached, count as u32, activity - 1, successor - 1);
        }
    }
    Ok(reached)
}

// Adds the orders of an activity and those of greater numbers.
fn add_orders(
    instance: &Instance,
    reached: &[bool],
    first: u32,
    orders: &mut Vec<Order>,
) -> Result<(), AllocError> {
    let network = instance.network();
    let count = network.len() as u32;
    for second in first.saturating_add(1)..count {
        let is_placed = is_marked(reached, first.wrapping_mul(count).wrapping_add(second))
            || is_marked(reached, second.wrapping_mul(count).wrapping_add(first));
        if !is_placed
            && orders.len() < MOST_ORDERS
            && network.duration(second + 1) > 0
            && exceed(
                instance.needs(first + 1),
                instance.needs(second + 1),
                instance.caps(),
            )
        {
            orders.push(Order { first, second })?;
        }
    }
    Ok(())
}

/// The pairs of activities that last, can't overlap, and are in no order by the arcs.
pub fn orders_of(alloc: Global, instance: &Instance) -> Result<Vec<Order>, AllocError> {
    let reached = reached(alloc, instance)?;
    let network = instance.network();
    let mut orders = Vec::new(alloc);
    for place in 0..network.len() {
        if network.duration(place as u32 + 1) > 0 {
            add_orders(instance, &reached, place as u32, &mut orders)?;
        }
    }
    Ok(orders)
}
