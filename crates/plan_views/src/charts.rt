//! The Gantt charts of schedules.

ghost use Rattle.std.specs.Prelude.{◌≡◌, ◌≤◌, ◌<◌, [], map, length, slice_index};
ghost use Rattle.std.specs.Prelude.{EachIndex, IfOk};
ghost use Rattle.std.specs.List.{range_with_len};
ghost use Rattle.plan_net.specs.Network as networks;
ghost use Rattle.plan_shop.specs.Shop.{count_steps};
ghost use Rattle.plan_gantt.specs.Limits.{latest_start, latest_end};
ghost use Rattle.plan_views.specs.Bars.{bar_of, row_of, step_of};
ghost use Rattle.plan_views.specs.Charts as spec;
ghost use Rattle.plan_views.specs.Plans.{count_of, plan_of};

use crate::bars::{Bar, ChartRow, StepNumber};
use crate::chart::{Chart, Owner};
use crate::plans::{PlanRef, activity_at, count, duration_at};
use crate::steps::{machine_at, number_at, step_count};
use plan_sgs::Instance;
use plan_shop::Shop;
use std::alloc::{AllocError, Global};

// Returns the number of the step in row `k` of a table, or `None` for an activity.
fn step_at(plan: PlanRef<'_>, k: u32) -> Option<StepNumber>
    requires { k < count_of (plan_of plan) }
    ensures { step_of result ≡ spec.step_at (plan_of plan.entry) k }
{
    match plan {
        PlanRef::Project(_) => None,
        PlanRef::Shop(shop) => Some(number_at(shop, k)),
    }
}

// Returns the bar of the activity or step in row `k` of a table.
fn bar_at(plan: PlanRef<'_>, starts: &[u64], k: u32) -> Bar
    requires row { k < count_of (plan_of plan) }
    requires starts { length starts.now ≡ count_of (plan_of plan) }
    requires limit { EachIndex starts.now (λ k. slice_index starts.now k ≤ latest_start) }
    ensures { bar_of result ≡ spec.bar_at (plan_of plan.entry) starts.now k }
{
    let start = starts[k as usize];
    let end = start + duration_at(plan, k);
    let step = step_at(plan, k);
    Bar { start, end, step }
}

// Returns the row of activity `k + 1`.
fn activity_row(
    alloc: Global,
    instance: &Instance<'_>,
    starts: &[u64],
    k: u32,
) -> Result<ChartRow, AllocError>
    requires row { k < networks.count_of instance.now.project.network }
    requires starts { length starts.now ≡ networks.count_of instance.now.project.network }
    requires limit { EachIndex starts.now (λ k. slice_index starts.now k ≤ latest_start) }
    ensures { IfOk result (λ row. row_of row ≡ spec.activity_row instance.now starts.now k) }
{
    let number = activity_at(instance, k);
    let mut bars = Vec::new(alloc);
    bars.push(bar_at(PlanRef::Project(instance), starts, k))?;
    Ok(ChartRow { number, bars })
}

// Returns the rows of all activities.
fn activity_rows(
    alloc: Global,
    instance: &Instance<'_>,
    starts: &[u64],
) -> Result<Vec<ChartRow>, AllocError>
    requires starts { length starts.now ≡ networks.count_of instance.now.project.network }
    requires limit { EachIndex starts.now (λ k. slice_index starts.now k ≤ latest_start) }
    ensures { IfOk result (λ rows. map row_of rows.items
        ≡ map (spec.activity_row instance.now starts.now)
        (range_with_len 0 (networks.count_of instance.now.project.network))) }
{
    let mut rows = Vec::new(alloc);
    for k in 0..count(PlanRef::Project(instance)) {
        rows.push(activity_row(alloc, instance, starts, k)?)?;
    }
    Ok(rows)
}

// Returns the row of a machine.
fn machine_row(
    alloc: Global,
    shop: &Shop,
    starts: &[u64],
    machine: u32,
) -> Result<ChartRow, AllocError>
    requires starts { length starts.now ≡ count_steps shop.now }
    requires limit { EachIndex starts.now (λ k. slice_index starts.now k ≤ latest_start) }
    ensures { IfOk result (λ row. row_of row ≡ spec.machine_row shop.now starts.now machine) }
{
    let mut bars = Vec::new(alloc);
    for x in 0..step_count(shop) {
        if machine_at(shop, x) == machine {
            bars.push(bar_at(PlanRef::Shop(shop), starts, x))?;
        }
    }
    Ok(ChartRow {
        number: machine,
        bars,
    })
}

// Returns the rows of all machines.
fn machine_rows(alloc: Global, shop: &Shop, starts: &[u64]) -> Result<Vec<ChartRow>, AllocError>
    requires starts { length starts.now ≡ count_steps shop.now }
    requires limit { EachIndex starts.now (λ k. slice_index starts.now k ≤ latest_start) }
    ensures { IfOk result (λ rows. map row_of rows.items
        ≡ map (spec.machine_row shop.now starts.now) (range_with_len 0 shop.now.machines)) }
{
    let mut rows = Vec::new(alloc);
    for machine in 0..shop.machines() {
        rows.push(machine_row(alloc, shop, starts, machine)?)?;
    }
    Ok(rows)
}

// Returns what the rows belong to.
fn owner_of(plan: PlanRef<'_>) -> Owner
    ensures { result ≡ spec.owner_of (plan_of plan.entry) }
{
    match plan {
        PlanRef::Project(_) => Owner::Activity,
        PlanRef::Shop(_) => Owner::Machine,
    }
}

// Returns the rows.
fn rows(alloc: Global, plan: PlanRef<'_>, starts: &[u64]) -> Result<Vec<ChartRow>, AllocError>
    requires starts { length starts.now ≡ count_of (plan_of plan) }
    requires limit { EachIndex starts.now (λ k. slice_index starts.now k ≤ latest_start) }
    ensures { IfOk result (λ rows.
        map row_of rows.items ≡ spec.chart_rows (plan_of plan.entry) starts.now) }
{
    match plan {
        PlanRef::Project(instance) => activity_rows(alloc, instance, starts),
        PlanRef::Shop(shop) => machine_rows(alloc, shop, starts),
    }
}

/// Returns the Gantt chart of a schedule: a row for each activity of a project with one bar, or for
/// each machine of a job shop with a bar for each of its steps. Index `k` of `starts` is activity
/// `k + 1` or flat step `k`.
pub fn chart_view(
    alloc: Global,
    plan: PlanRef<'_>,
    starts: &[u64],
    makespan: u64,
) -> Result<Chart, AllocError>
    requires starts { length starts.now ≡ count_of (plan_of plan) }
    requires limit { EachIndex starts.now (λ k. slice_index starts.now k ≤ latest_start) }
    requires makespan { makespan ≤ latest_end }
    ensures value { IfOk result (λ chart. spec.chart_of chart
        ≡ spec.chart_view_of (plan_of plan.entry) starts.now makespan) }
    ensures text { IfOk result (λ chart. spec.named_text_of [] (spec.chart_of chart)
        ≡ spec.chart_text_of (plan_of plan.entry) starts.now makespan) }
{
    Ok(Chart {
        makespan,
        owner: owner_of(plan),
        rows: rows(alloc, plan, starts)?,
    })
}
