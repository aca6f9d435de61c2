//! `plan chart`: the Gantt charts of schedules.

ghost use Rattle.std.specs.Prelude.{◌≡◌, IfOk, IfErr};
ghost use Rattle.plan_errors.specs.Output.{Refuses};
ghost use Rattle.plan_views.specs.Charts as charts;
ghost use Rattle.plan_documents.specs.Documents.{count_of};
ghost use Rattle.plan_cli.specs.Scheduled.{CanBeShown, TellsNotMade};
ghost use Rattle.plan_cli.specs.TaskViews as spec;
ghost use Rattle.plan_cli.specs.Views.{IfView};

use crate::origins::Origin;
use crate::plan_refs::plan_ref;
use crate::schedules::schedule_from;
use crate::views::View;
use crate::watchers::{Log, ProofWatcher, SolveWatcher};
use plan_documents::Plan;
use plan_errors::CliFault;
use plan_sgs::Schedule;
use plan_views::{Chart, chart_view};
use std::alloc::{AllocError, Global};

// Returns the chart of a plan's schedule.
fn chart_of(alloc: Global, plan: &Plan<'_>, schedule: &Schedule) -> Result<Chart, AllocError>
    requires { CanBeShown (count_of plan.now) schedule.now }
    ensures { IfOk result (λ chart. charts.chart_of chart
        ≡ spec.chart_of plan.now schedule.now.starts.items schedule.now.makespan) }
{
    chart_view(alloc, plan_ref(plan), &schedule.starts, schedule.makespan)
}

/// Returns the chart of a plan.
pub(crate) fn chart_from<V: ProofWatcher + SolveWatcher, L: Log>(
    alloc: Global,
    origin: Origin<'_>,
    plan: &Plan<'_>,
    watcher: &mut V,
    log: &mut L,
) -> Result<View, CliFault>
    ensures made { IfView result (spec.IsChartViewFrom origin.entry plan.now) }
    ensures refused { IfErr result (Refuses (TellsNotMade origin.entry plan.now)) }
{
    let made = schedule_from(alloc, origin, plan, watcher, log)?;
    Ok(View::Chart(chart_of(alloc, plan, &made.schedule)?))
}
