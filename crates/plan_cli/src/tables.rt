//! `plan cpm`, `plan schedule` and `plan shop`: the tables of dates and of schedules.

ghost use Rattle.std.specs.Prelude.{◌≡◌, IfOk, IfErr};
ghost use Rattle.plan_gantt.specs.FirstFaults.{TellsFirstFailing};
ghost use Rattle.plan_errors.specs.Output.{Refuses};
ghost use Rattle.plan_documents.specs.Documents.{count_of};
ghost use Rattle.plan_cli.specs.Scheduled.{CanBeShown, TellsNoRuleOf};
ghost use Rattle.plan_formats.specs.Tables.{table_of};
ghost use Rattle.plan_cli.specs.TaskViews as spec;
ghost use Rattle.plan_cli.specs.Views.{IfView};

use crate::plan_refs::plan_ref;
use crate::schedules::schedule_by;
use crate::views::View;
use plan_cpm::dates;
use plan_documents::{Plan, read_project};
use plan_errors::CliFault;
use plan_formats::Table;
use plan_sgs::Schedule;
use plan_views::{date_view, schedule_view};
use std::alloc::{AllocError, Global};

/// Returns the table of the dates of the project in a file.
pub(crate) fn dates_of(alloc: Global, file: &[u8]) -> Result<View, CliFault>
    ensures made { IfView result (spec.IsDateView file.now) }
    ensures refused { IfErr result (Refuses (TellsFirstFailing file.now)) }
{
    let project = read_project(alloc, file)?;
    let network = project.network();
    let dates = dates(alloc, network)?;
    Ok(View::Table(date_view(alloc, network, &dates)?))
}

/// Returns the table of a plan's schedule.
pub(crate) fn schedule_table(
    alloc: Global,
    plan: &Plan<'_>,
    schedule: &Schedule,
) -> Result<Table<'static>, AllocError>
    requires { CanBeShown (count_of plan.now) schedule.now }
    ensures { IfOk result (λ table. table_of table
        ≡ spec.schedule_of plan.now schedule.now.starts.items schedule.now.makespan) }
{
    schedule_view(alloc, plan_ref(plan), &schedule.starts, schedule.makespan)
}

/// Returns the table of the schedule of a plan by a rule.
pub(crate) fn schedule_of(alloc: Global, name: &str, plan: &Plan<'_>) -> Result<View, CliFault>
    ensures made { IfView result (spec.IsTableViewBy name.now plan.now) }
    ensures refused { IfErr result (Refuses (TellsNoRuleOf name.now plan.now)) }
{
    let schedule = schedule_by(alloc, name, plan)?;
    Ok(View::Table(schedule_table(alloc, plan, &schedule)?))
}
