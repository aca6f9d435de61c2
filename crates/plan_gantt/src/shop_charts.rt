//! The Gantt chart of a shop.

ghost use Rattle.std.specs.Prelude.{◌≡◌, ◌+◌, ◌≤◌, ◌<◌, All, length, slice_index, EachIndex, IfOk, string_bytes};
ghost use Rattle.plan_shop.specs.Shop.{count_steps, machine_of};
ghost use Rattle.plan_gantt.specs.Limits.{latest_start, latest_end};
ghost use Rattle.plan_gantt.specs.Chart.{chart_text};
ghost use Rattle.plan_gantt.specs.ShopCharts as spec;

use crate::charts::{push_line, push_unit};
use crate::interval::Interval;
use crate::shops::step_count;
use plan_shop::Shop;
use std::alloc::{AllocError, Global};

/// The interval of step `x`.
pub(crate) fn step_interval(shop: &Shop, starts: &[u64], x: u32) -> Interval
    requires step { x < count_steps shop.now }
    requires starts { length starts.now ≡ count_steps shop.now }
    requires limit { EachIndex starts.now (λ k. slice_index starts.now k ≤ latest_start) }
    ensures interval { result ≡ spec.step_interval shop.now starts.now x }
    ensures end { result.start + result.duration ≤ latest_end }
{
    // The proof needs the facts of the shop, which this call states.
    let _machines = shop.machines();
    Interval {
        start: starts[x as usize],
        duration: shop.step(x).time,
    }
}

// The machine of step `x`.
fn machine_at(shop: &Shop, x: u32) -> u32
    requires { x < count_steps shop.now }
    ensures { result ≡ machine_of shop.now x }
{
    shop.step(x).machine
}

// The intervals of the steps on a machine.
fn machine_intervals(
    alloc: Global,
    shop: &Shop,
    starts: &[u64],
    machine: u32,
) -> Result<Vec<Interval>, AllocError>
    requires starts { length starts.now ≡ count_steps shop.now }
    requires limit { EachIndex starts.now (λ k. slice_index starts.now k ≤ latest_start) }
    ensures intervals { IfOk result (λ intervals.
        intervals.items ≡ spec.machine_intervals shop.now starts.now machine) }
    ensures ends { IfOk result (λ intervals. All
        (λ v. v.start + v.duration ≤ latest_end) intervals.items) }
{
    let mut intervals = Vec::new(alloc);
    for x in 0..step_count(shop) {
        if machine_at(shop, x) == machine {
            intervals.push(step_interval(shop, starts, x))?;
        }
    }
    Ok(intervals)
}

/// Returns the Gantt chart of a shop's schedule (Gantt 1910, Clark 1922): the unit, which is the
/// number of instants in a cell, and a line of cells for each machine. A cell is `#` if one of its
/// instants is in the interval of a step on the machine, else `.`. Index `x` of `starts` is
/// flat step `x`.
pub fn shop_chart(
    alloc: Global,
    shop: &Shop,
    starts: &[u64],
    makespan: u64,
) -> Result<String, AllocError>
    requires starts { length starts.now ≡ count_steps shop.now }
    requires limit { EachIndex starts.now (λ k. slice_index starts.now k ≤ latest_start) }
    requires makespan { makespan ≤ latest_end }
    ensures text { IfOk result (λ text. string_bytes text ≡ chart_text makespan
        (spec.machine_intervals shop.now starts.now) 0 shop.now.machines) }
{
    let mut text = String::new(alloc);
    push_unit(&mut text, makespan)?;
    for machine in 0..shop.machines() {
        let intervals = machine_intervals(alloc, shop, starts, machine)?;
        push_line(&mut text, makespan, machine, &intervals)?;
    }
    Ok(text)
}
