//! The tables of the best schedules that a search within a budget finds.

ghost use Rattle.std.specs.Prelude.{◌≡◌, ◌≤◌, length, slice_index, EachIndex, IfOk};
ghost use Rattle.plan_gantt.specs.Limits.{latest_start};
ghost use Rattle.plan_formats.specs.Tables.{table_of};
ghost use Rattle.plan_formats.specs.TableText.{text_of};
ghost use Rattle.plan_views.specs.Bounds as spec;
ghost use Rattle.plan_views.specs.Plans.{count_of, plan_of};

use crate::bounds::{kind_line, with_line};
use crate::plans::PlanRef;
use crate::schedules::schedule_view;
use plan_exact::Solved;
use plan_formats::Table;
use std::alloc::{AllocError, Global};

/// Returns the table of the best schedule of a project or a job shop, with the least makespan or an
/// upper bound of it above.
pub fn best_view<'a>(
    alloc: Global,
    plan: PlanRef<'_>,
    solved: &Solved,
) -> Result<Table<'a>, AllocError>
    requires starts { length solved.now.schedule.starts.items ≡ count_of (plan_of plan) }
    requires limit { EachIndex solved.now.schedule.starts.items
        (λ k. slice_index solved.now.schedule.starts.items k ≤ latest_start) }
    ensures value { IfOk result (λ table.
        table_of table ≡ spec.best_view_of (plan_of plan.entry) solved.now) }
    ensures text { IfOk result (λ table.
        text_of (table_of table) ≡ spec.best_text_of (plan_of plan.entry) solved.now) }
{
    let schedule = &solved.schedule;
    let makespan = schedule.makespan;
    let table = schedule_view(alloc, plan, &schedule.starts, makespan)?;
    with_line(kind_line(solved.kind, makespan), table)
}
