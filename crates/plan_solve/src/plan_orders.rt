//! Pairs of activities that can't overlap, in a problem with windows and absences.

use crate::arrays::at;
use crate::derivation::need;
use plan_kernel::{Input, Order};
use std::alloc::{AllocError, Global};

/// The most orders.
const MOST_ORDERS: usize = 40_000;

// Whether two activities need more of a resource together than there is.
fn exceed(input: &Input, one: u32, other: u32) -> bool {
    for (resource, &capacity) in input.capacities.iter().enumerate() {
        let resource = (resource & 0xffff_ffff) as u32;
        let sum = need(input, one, resource) as u64 + need(input, other, resource) as u64;
        if sum > capacity {
            return true;
        }
    }
    false
}

// Adds the orders of an activity and those of greater numbers.
fn add_orders(input: &Input, first: u32, orders: &mut Vec<Order>) -> Result<(), AllocError> {
    for second in first.saturating_add(1)..(input.durations.len() & 0xffff_ffff) as u32 {
        let is_pair = at(&input.durations, second) > 0 && exceed(input, first, second);
        if is_pair && orders.len() < MOST_ORDERS {
            orders.push(Order { first, second })?;
        }
    }
    Ok(())
}

/// Returns the pairs of activities of a problem that last and need more of a resource together than
/// there is, at most 40,000.
pub fn plan_orders(alloc: Global, input: &Input) -> Result<Vec<Order>, AllocError> {
    let mut orders = Vec::new(alloc);
    for first in 0..(input.durations.len() & 0xffff_ffff) as u32 {
        if at(&input.durations, first) > 0 {
            add_orders(input, first, &mut orders)?;
        }
    }
    Ok(orders)
}
