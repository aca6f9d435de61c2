//! Projects and job shops, with the first cells of the rows of their tables.

ghost use Rattle.std.specs.Prelude.{◌≡◌, ◌+◌, ◌≤◌, ◌<◌, map, IfOk};
ghost use Rattle.plan_net.specs.Network as networks;
ghost use Rattle.plan_gantt.specs.Limits.{latest_start, latest_end};
ghost use Rattle.plan_formats.specs.Columns.{column_of};
ghost use Rattle.plan_formats.specs.Tables.{cells_of};
ghost use Rattle.plan_views.specs.Plans.{count_of, duration_of, plan_of};
ghost use Rattle.plan_views.specs.Plans as spec;

use crate::headings::{activity, job, machine, step};
use crate::rows::row_of;
use crate::steps::{machine_at, number_at, step_count, time_at};
use plan_formats::{Cell, Column};
use plan_sgs::Instance;
use plan_shop::Shop;
use std::alloc::{AllocError, Global};

/// A project or a job shop. Its tables have a row for each activity or step; row `k`, from 0 on, is
/// that of activity `k + 1` or of flat step `k`.
#[derive(Clone, Copy, Drop)]
pub enum PlanRef<'p> {
    Project(&'p Instance<'p>),
    Shop(&'p Shop),
}

/// Returns the number of activities or steps.
pub(crate) fn count(plan: PlanRef<'_>) -> u32
    ensures { result ≡ count_of (plan_of plan.entry) }
{
    match plan {
        PlanRef::Project(instance) => instance.network().len() as u32,
        PlanRef::Shop(shop) => step_count(shop),
    }
}

/// Returns the activity of row `k` of a project.
pub(crate) fn activity_at(instance: &Instance<'_>, k: u32) -> u32
    requires { k < networks.count_of instance.now.project.network }
    ensures { result ≡ k + 1 }
{
    // The proof needs the greatest number of activities, which this call states.
    let _count = instance.network().len();
    k + 1
}

/// Returns the duration in row `k`.
pub(crate) fn duration_at(plan: PlanRef<'_>, k: u32) -> u64
    requires { k < count_of (plan_of plan) }
    ensures value { result ≡ duration_of (plan_of plan.entry) k }
    ensures short { latest_start + result ≤ latest_end }
{
    match plan {
        PlanRef::Project(instance) => instance.network().duration(activity_at(instance, k)),
        PlanRef::Shop(shop) => time_at(shop, k),
    }
}

// Returns the numbers of step `x` as cells.
fn step_cells<'a>(alloc: Global, shop: &Shop, x: u32) -> Result<Vec<Cell<'a>>, AllocError>
    requires { x < spec.count_of (spec.shop shop.now) }
    ensures { IfOk result (λ cells.
        cells_of cells.items ≡ spec.front_of (spec.shop shop.now) x) }
{
    let number = number_at(shop, x);
    let cells = [
        Cell::Number(number.job as u64),
        Cell::Number(number.step as u64),
    ];
    row_of(alloc, &cells)
}

// Returns the same with the machine of the step.
fn placed_step<'a>(alloc: Global, shop: &Shop, x: u32) -> Result<Vec<Cell<'a>>, AllocError>
    requires { x < spec.count_of (spec.shop shop.now) }
    ensures { IfOk result (λ cells.
        cells_of cells.items ≡ spec.placed_front_of (spec.shop shop.now) x) }
{
    let mut cells = step_cells(alloc, shop, x)?;
    cells.push(Cell::Number(machine_at(shop, x) as u64))?;
    Ok(cells)
}

/// Returns the columns that name an activity or a step.
pub(crate) fn front_columns(alloc: Global, plan: PlanRef<'_>) -> Result<Vec<Column>, AllocError>
    ensures { IfOk result (λ columns.
        map column_of columns.items ≡ spec.front_columns (plan_of plan.entry)) }
{
    match plan {
        PlanRef::Project(_) => Ok(Vec::from_array(alloc, [activity()])?),
        PlanRef::Shop(_) => Ok(Vec::from_array(alloc, [job(), step()])?),
    }
}

/// Returns the cells of row `k` in these columns.
pub(crate) fn front<'a>(
    alloc: Global,
    plan: PlanRef<'_>,
    k: u32,
) -> Result<Vec<Cell<'a>>, AllocError>
    requires { k < count_of (plan_of plan) }
    ensures { IfOk result (λ cells.
        cells_of cells.items ≡ spec.front_of (plan_of plan.entry) k) }
{
    match plan {
        PlanRef::Project(_) => row_of(alloc, &[Cell::Number(k as u64 + 1)]),
        PlanRef::Shop(shop) => step_cells(alloc, shop, k),
    }
}

/// Returns the same columns, and that of the machine of a step.
pub(crate) fn placed_columns(alloc: Global, plan: PlanRef<'_>) -> Result<Vec<Column>, AllocError>
    ensures { IfOk result (λ columns.
        map column_of columns.items ≡ spec.placed_columns (plan_of plan.entry)) }
{
    match plan {
        PlanRef::Project(_) => front_columns(alloc, plan),
        PlanRef::Shop(_) => Ok(Vec::from_array(alloc, [job(), step(), machine()])?),
    }
}

/// Returns the cells of row `k` in these columns.
pub(crate) fn placed_front<'a>(
    alloc: Global,
    plan: PlanRef<'_>,
    k: u32,
) -> Result<Vec<Cell<'a>>, AllocError>
    requires { k < count_of (plan_of plan) }
    ensures { IfOk result (λ cells.
        cells_of cells.items ≡ spec.placed_front_of (plan_of plan.entry) k) }
{
    match plan {
        PlanRef::Project(_) => front(alloc, plan, k),
        PlanRef::Shop(shop) => placed_step(alloc, shop, k),
    }
}
