//! The numbers of a job shop.

ghost use Rattle.std.specs.Prelude.{◌≡◌, ◌<◌, ◌≤◌, map, replicate, IfOk};
ghost use Rattle.plan_shop.specs.Shop as shops;
ghost use Rattle.plan_shop.specs.Docs.{IsSmallShop};
ghost use Rattle.plan_kernel.specs.Inputs as spec;
ghost use Rattle.plan_kernel.specs.Plans.{IsPlain};
ghost use Rattle.plan_kernel.specs.Shops.{next_steps, needs_of_step};

use crate::input::{Arc, Input, Order};
use plan_shop::Shop;
use std::alloc::{AllocError, Global};

// How many steps there are.
fn count(shop: &Shop) -> u32
    ensures value { result ≡ shops.count_steps shop.now }
    ensures few { result ≤ 1000 }
    ensures shop { IsSmallShop shop.now }
{
    shop.jobs() * shop.machines()
}

// The times of all steps.
fn times_of(alloc: Global, shop: &Shop) -> Result<Vec<u32>, AllocError>
    ensures { IfOk result (λ times. times.items ≡ map (λ w. w.time) shop.now.steps) }
{
    let mut times = Vec::new(alloc);
    for x in 0..count(shop) {
        times.push(shop.step(x).time as u32)?;
    }
    Ok(times)
}

// The arcs from each step to the next of its job.
fn arcs_of(alloc: Global, shop: &Shop) -> Result<Vec<Arc>, AllocError>
    ensures { IfOk result (λ arcs.
        map spec.link_of arcs.items ≡ map shops.step_link (next_steps shop.now)) }
{
    let machines = shop.machines();
    let mut arcs = Vec::new(alloc);
    for x in 0..count(shop) {
        if (x + 1) / machines == x / machines {
            arcs.push(Arc {
                from: x,
                to: x + 1,
                lag: 0,
            })?;
        }
    }
    Ok(arcs)
}

// Returns the needs of a step: one of its machine.
fn row_of(alloc: Global, machines: u32, machine: u32) -> Result<Vec<u32>, AllocError>
    requires { machine < machines }
    ensures { IfOk result (λ row. row.items ≡ shops.machine_needs machines machine) }
{
    let mut row = vec![in alloc; 0u32; machines as usize]?;
    row[machine as usize] = 1;
    Ok(row)
}

// Returns the needs of all steps.
fn rows_of(alloc: Global, shop: &Shop) -> Result<Vec<Vec<u32>>, AllocError>
    ensures { IfOk result (λ rows.
        map (λ row. row.items) rows.items ≡ map (needs_of_step shop.now) shop.now.steps) }
{
    let mut rows = Vec::new(alloc);
    for x in 0..count(shop) {
        rows.push(row_of(alloc, shop.machines(), shop.step(x).machine)?)?;
    }
    Ok(rows)
}

// The capacities of all machines.
fn ones(alloc: Global, machines: u32) -> Result<Vec<u64>, AllocError>
    ensures { IfOk result (λ ones. ones.items ≡ replicate machines 1) }
{
    Ok(vec![in alloc; 1u64; machines as usize]?)
}

impl Input {
    /// The numbers of a job shop: its steps by their flat numbers, one after another in their jobs,
    /// and its machines as resources of capacity 1, without windows, absences and tails.
    pub fn of_shop(alloc: Global, shop: &Shop, orders: Vec<Order>) -> Result<Input, AllocError>
        ensures problem { IfOk result (λ input. IsPlain input (shops.problem_of shop.now)) }
        ensures orders { IfOk result (λ input. input.orders ≡ orders) }
    {
        Ok(Input {
            durations: times_of(alloc, shop)?,
            arcs: arcs_of(alloc, shop)?,
            needs: rows_of(alloc, shop)?,
            capacities: ones(alloc, shop.machines())?,
            orders,
            windows: Vec::new(alloc),
            absences: Vec::new(alloc),
            tails: Vec::new(alloc),
        })
    }
}
