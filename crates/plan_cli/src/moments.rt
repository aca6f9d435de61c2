//! The working days of schedules with weekdays and times of day.

ghost use Rattle.std.specs.Prelude.{IfErr, IfOk, IsErrOf};
ghost use Rattle.plan_errors.specs.Output.{Refuses};
ghost use Rattle.plan_documents.specs.Documents.{count_of};
ghost use Rattle.plan_views.specs.Moments.{AreAllMoments, HasMomentBeyond};
ghost use Rattle.plan_cli.specs.DaysRun.{TellsBeyond};
ghost use Rattle.plan_cli.specs.PlanRefs.{viewed};
ghost use Rattle.plan_cli.specs.Scheduled.{CanBeShown};
ghost use Rattle.plan_cli.specs.TaskViews.{ShowsDaysOf};
ghost use Rattle.plan_cli.specs.Views.{IfView};
ghost use Rattle.std.specs.Prelude.{Some};

use crate::calendar_refusals::days_refusal;
use crate::plan_refs::plan_ref;
use crate::views::{View, own_view};
use plan_documents::Plan;
use plan_errors::CliFault;
use plan_gantt::{Calendar, DaysFault};
use plan_sgs::Schedule;
use plan_views::{MomentStyle, MomentTexts, moments_view, plan_moments};
use std::alloc::Global;

// Returns the moments of a plan's schedule, or its error.
fn moments_of(
    alloc: Global,
    plan: &Plan<'_>,
    schedule: &Schedule,
    calendar: &Calendar,
    style: &MomentStyle,
) -> Result<Vec<MomentTexts>, DaysFault>
    requires { CanBeShown (count_of plan.now) schedule.now }
    ensures moments { IfOk result (λ rows. AreAllMoments calendar.now style.now (viewed plan.now)
        schedule.now.starts.items rows.items) }
    ensures beyond { IsErrOf result DaysFault.BeyondCalendar →
        HasMomentBeyond calendar.now style.now (viewed plan.now) schedule.now.starts.items }
{
    plan_moments(alloc, plan_ref(plan), &schedule.starts, calendar, style)
}

// Returns the moments of a plan's schedule.
fn schedule_moments(
    alloc: Global,
    plan: &Plan<'_>,
    schedule: &Schedule,
    calendar: &Calendar,
    style: &MomentStyle,
) -> Result<Vec<MomentTexts>, CliFault>
    requires { CanBeShown (count_of plan.now) schedule.now }
    ensures moments { IfOk result (λ rows. AreAllMoments calendar.now style.now (viewed plan.now)
        schedule.now.starts.items rows.items) }
    ensures refused { IfErr result (Refuses (TellsBeyond
        (HasMomentBeyond calendar.now style.now (viewed plan.now) schedule.now.starts.items))) }
{
    moments_of(alloc, plan, schedule, calendar, style).map_err(|fault| days_refusal(alloc, fault))
}

/// Returns the working days of a plan's schedule with weekdays and times of day.
pub(crate) fn moment_days(
    alloc: Global,
    plan: &Plan<'_>,
    schedule: &Schedule,
    calendar: &Calendar,
    style: &MomentStyle,
) -> Result<View, CliFault>
    requires { CanBeShown (count_of plan.now) schedule.now }
    ensures made { IfView result (ShowsDaysOf (Some style.entry) plan.now schedule.now.starts.items
        calendar.now) }
    ensures refused { IfErr result (Refuses (TellsBeyond
        (HasMomentBeyond calendar.now style.now (viewed plan.now) schedule.now.starts.items))) }
{
    let moments = schedule_moments(alloc, plan, schedule, calendar, style)?;
    let table = moments_view(alloc, plan_ref(plan), style, &moments)?;
    Ok(own_view(alloc, table)?)
}
