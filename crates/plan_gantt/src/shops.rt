//! The table of a shop's schedule.

ghost use Rattle.std.specs.Prelude.{◌≡◌, ◌++◌, ◌≤◌, ◌<◌, length, slice_index, EachIndex, IfOk, OnOk, string_bytes};
ghost use Rattle.plan_shop.specs.Shop.{count_steps};
ghost use Rattle.plan_gantt.specs.Limits.{latest_start};
ghost use Rattle.plan_gantt.specs.ShopTable.{shop_line, shop_table_text};

use crate::column::push_row;
use crate::schedules::push_makespan;
use plan_shop::Shop;
use std::alloc::{AllocError, Global};

// Returns the number of steps of a shop.
pub(crate) fn step_count(shop: &Shop) -> u32
    ensures { result ≡ count_steps shop.now }
{
    shop.jobs() * shop.machines()
}

// The line of step `x`.
fn push_line(text: &mut String, shop: &Shop, starts: &[u64], x: u32) -> Result<(), AllocError>
    requires step { x < count_steps shop.now }
    requires starts { length starts.now ≡ count_steps shop.now }
    requires limit { EachIndex starts.now (λ k. slice_index starts.now k ≤ latest_start) }
    ensures { OnOk result
        (string_bytes text.new ≡ string_bytes text.old ++ shop_line shop.now starts.now x) }
{
    let step = shop.step(x);
    let start = starts[x as usize];
    let machines = shop.machines();
    let others = [
        (x % machines + 1) as u64,
        step.machine as u64,
        step.time,
        start,
        start + step.time,
    ];
    push_row(text, x / machines + 1, &others)
}

// Appends the table of a shop's schedule.
pub(crate) fn push_shop_table(
    text: &mut String,
    shop: &Shop,
    starts: &[u64],
    makespan: u64,
) -> Result<(), AllocError>
    requires starts { length starts.now ≡ count_steps shop.now }
    requires limit { EachIndex starts.now (λ k. slice_index starts.now k ≤ latest_start) }
    ensures { OnOk result
        (string_bytes text.new ≡
        string_bytes text.old ++ shop_table_text shop.now starts.now makespan) }
{
    text.push_str(" job    step    mach       d   start     end\n")?;
    for x in 0..step_count(shop) {
        push_line(text, shop, starts, x)?;
    }
    push_makespan(text, makespan)
}

/// Returns the table of a shop's schedule: a line for each step in flat order, and the makespan in
/// the last line. A line contains the job and the step's number in it (from 1), the machine (from
/// 0), the time, the start and the end. Index `x` of `starts` is flat step `x`.
pub fn shop_table(
    alloc: Global,
    shop: &Shop,
    starts: &[u64],
    makespan: u64,
) -> Result<String, AllocError>
    requires starts { length starts.now ≡ count_steps shop.now }
    requires limit { EachIndex starts.now (λ k. slice_index starts.now k ≤ latest_start) }
    ensures text { IfOk result (λ text.
        string_bytes text ≡ shop_table_text shop.now starts.now makespan) }
{
    let mut text = String::new(alloc);
    push_shop_table(&mut text, shop, starts, makespan)?;
    Ok(text)
}
