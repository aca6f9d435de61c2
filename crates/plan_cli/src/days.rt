//! `plan days`: the working days of schedules.

ghost use Rattle.std.specs.Prelude.{◌≡◌, IfOk, IfErr, IsErrOf, None};
ghost use Rattle.plan_errors.specs.Output.{Refuses};
ghost use Rattle.plan_formats.specs.Tables.{table_of};
ghost use Rattle.plan_cli.specs.DaysRun as days;
ghost use Rattle.plan_documents.specs.Documents.{count_of};
ghost use Rattle.plan_cli.specs.Scheduled.{CanBeShown};
ghost use Rattle.plan_cli.specs.TaskViews as spec;
ghost use Rattle.plan_cli.specs.Views.{IfView};

use crate::calendar_refusals::days_refusal;
use crate::calendars::{Dates, calendar_of};
use crate::moments::moment_days;
use crate::origins::Origin;
use crate::plan_refs::plan_ref;
use crate::schedules::schedule_from;
use crate::views::View;
use crate::watchers::{Log, ProofWatcher, SolveWatcher};
use plan_documents::Plan;
use plan_errors::CliFault;
use plan_formats::Table;
use plan_gantt::{Calendar, DaysFault};
use plan_sgs::Schedule;
use plan_views::{MomentStyle, days_view};
use std::alloc::Global;

// Returns the table of the working days of a plan's schedule, or its error.
fn days_table(
    alloc: Global,
    plan: &Plan<'_>,
    schedule: &Schedule,
    calendar: &Calendar,
) -> Result<Table<'static>, DaysFault>
    requires { CanBeShown (count_of plan.now) schedule.now }
    ensures days { IfOk result (λ table. spec.AreDaysOf None plan.now
        schedule.now.starts.items calendar.now (table_of table)) }
    ensures beyond { IsErrOf result DaysFault.BeyondCalendar →
        days.HasDayBeyond None plan.now schedule.now.starts.items calendar.now }
{
    days_view(alloc, plan_ref(plan), &schedule.starts, calendar)
}

// Returns the working days of a plan's schedule.
fn schedule_days(
    alloc: Global,
    plan: &Plan<'_>,
    schedule: &Schedule,
    calendar: &Calendar,
) -> Result<Table<'static>, CliFault>
    requires { CanBeShown (count_of plan.now) schedule.now }
    ensures made { IfOk result (λ table. spec.AreDaysOf None plan.now
        schedule.now.starts.items calendar.now (table_of table)) }
    ensures refused { IfErr result (Refuses (days.TellsBeyond
        (days.HasDayBeyond None plan.now schedule.now.starts.items calendar.now))) }
{
    days_table(alloc, plan, schedule, calendar).map_err(|fault| days_refusal(alloc, fault))
}

// Returns the working days of a plan's schedule in a style.
fn shown_days(
    alloc: Global,
    plan: &Plan<'_>,
    schedule: &Schedule,
    calendar: &Calendar,
    style: Option<&MomentStyle>,
) -> Result<View, CliFault>
    requires { CanBeShown (count_of plan.now) schedule.now }
    ensures made { IfView result (spec.ShowsDaysOf style.entry plan.now schedule.now.starts.items
        calendar.now) }
    ensures refused { IfErr result (Refuses (days.TellsBeyond
        (days.HasDayBeyond style.entry plan.now schedule.now.starts.items calendar.now))) }
{
    match style {
        Some(style) => moment_days(alloc, plan, schedule, calendar, style),
        None => Ok(View::Table(schedule_days(alloc, plan, schedule, calendar)?)),
    }
}

/// Returns the working days of a plan.
pub(crate) fn days_from<V: ProofWatcher + SolveWatcher, L: Log>(
    alloc: Global,
    origin: Origin<'_>,
    dates: Dates<'_>,
    style: Option<&MomentStyle>,
    plan: &Plan<'_>,
    watcher: &mut V,
    log: &mut L,
) -> Result<View, CliFault>
    ensures made { IfView result (spec.IsDaysViewFrom origin.entry dates.entry style.entry plan.now) }
    ensures refused { IfErr result (Refuses
        (days.TellsNoDaysFrom origin.entry dates.entry style.entry plan.now)) }
{
    let made = schedule_from(alloc, origin, plan, watcher, log)?;
    let calendar = calendar_of(alloc, dates)?;
    shown_days(alloc, plan, &made.schedule, &calendar, style)
}
