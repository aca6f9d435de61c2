//! The reports of schedules.

ghost use Rattle.std.specs.Prelude.{◌≡◌, IfErr};
ghost use Rattle.plan_errors.specs.Output.{Refuses};
ghost use Rattle.plan_sheet.specs.Names.{names_of};
ghost use Rattle.plan_sheet.specs.Reports.{IsDatedReport, margins_of};
ghost use Rattle.plan_documents.specs.Documents.{count_of};
ghost use Rattle.plan_documents.specs.Lines.{IfText};
ghost use Rattle.plan_cli.specs.Scheduled.{CanBeShown};
ghost use Rattle.plan_cli.specs.DaysRun.{ShowsDays, TellsBeyond, TellsNoDays};
ghost use Rattle.plan_print.specs.Layouts as laid;
ghost use Rattle.plan_print.specs.Sheets as spec;

use crate::layouts::layout_of;
use crate::links::{predecessor_lines, resource_lines, row_links};
use crate::names::legend_names;
use crate::slacks::{floats_of, slacks_of};
use plan_cli::{CliFault, Dates, Plan, Subject, calendar_of, days_refusal, names_of_lines};
use plan_documents::ids_of_rows;
use plan_gantt::Calendar;
use plan_sgs::Schedule;
use plan_sheet::{DayStyle, Heading, Margins, SheetNames, dated_report, report};
use std::alloc::Global;

// Returns the report of a plan's schedule without a calendar, with these names.
fn plain_page(
    alloc: Global,
    heading: Heading<'_>,
    names: &SheetNames<'_>,
    by_job: bool,
    listed: bool,
    plan: &Plan<'_>,
    schedule: &Schedule,
) -> Result<String, CliFault>
    requires { CanBeShown (count_of plan.now) schedule.now }
    ensures made { IfText result (spec.IsPlainPage heading.entry (names_of names.now)
        (laid.layout_of plan.now by_job listed) plan.now schedule.now.starts.items) }
    ensures refused { IfErr result (λ e. e ≡ CliFault.Memory) }
{
    let floats = floats_of(alloc, plan)?;
    let slacks = slacks_of(alloc, plan, schedule)?;
    let margins = Margins {
        floats: &floats,
        slacks: &slacks,
    };
    let layout = layout_of(plan, by_job, listed);
    Ok(report(alloc, heading, names, layout, &schedule.starts, &margins)?)
}

// Returns the report of a plan's schedule on a calendar, with these names and margins.
fn page_by(
    alloc: Global,
    heading: Heading<'_>,
    style: &DayStyle,
    names: &SheetNames<'_>,
    by_job: bool,
    listed: bool,
    plan: &Plan<'_>,
    schedule: &Schedule,
    margins: &Margins<'_>,
    calendar: &Calendar,
) -> Result<String, CliFault>
    requires { CanBeShown (count_of plan.now) schedule.now }
    ensures made { IfText result (IsDatedReport heading.entry.title.now heading.entry.lower
        (names_of names.now) (laid.layout_of plan.now by_job listed) schedule.now.starts.items
        (margins_of margins.now) style.now calendar.now) }
    ensures refused { IfErr result (Refuses (TellsBeyond
        (spec.IsPageBeyond style.now by_job plan.now schedule.now.starts.items calendar.now))) }
{
    let layout = layout_of(plan, by_job, listed);
    let starts = &schedule.starts;
    dated_report(
        alloc, heading, names, layout, starts, margins, style, calendar,
    )
    .map_err(|fault| days_refusal(alloc, fault))
}

// Returns the report of a plan's schedule on a calendar, with these names.
fn page_on(
    alloc: Global,
    heading: Heading<'_>,
    style: &DayStyle,
    names: &SheetNames<'_>,
    by_job: bool,
    listed: bool,
    plan: &Plan<'_>,
    schedule: &Schedule,
    calendar: &Calendar,
) -> Result<String, CliFault>
    requires { CanBeShown (count_of plan.now) schedule.now }
    ensures made { IfText result (spec.IsDatedPage heading.entry style.now (names_of names.now)
        (laid.layout_of plan.now by_job listed) plan.now schedule.now.starts.items
        calendar.now) }
    ensures refused { IfErr result (Refuses (TellsBeyond
        (spec.IsPageBeyond style.now by_job plan.now schedule.now.starts.items calendar.now))) }
{
    let floats = floats_of(alloc, plan)?;
    let slacks = slacks_of(alloc, plan, schedule)?;
    let margins = Margins {
        floats: &floats,
        slacks: &slacks,
    };
    page_by(
        alloc, heading, style, names, by_job, listed, plan, schedule, &margins, calendar,
    )
}

// Returns the report of a plan's schedule on dates, with these names.
fn dated_page(
    alloc: Global,
    heading: Heading<'_>,
    dates: Dates<'_>,
    style: &DayStyle,
    names: &SheetNames<'_>,
    by_job: bool,
    listed: bool,
    plan: &Plan<'_>,
    schedule: &Schedule,
) -> Result<String, CliFault>
    requires { CanBeShown (count_of plan.now) schedule.now }
    ensures made { IfText result (ShowsDays dates.entry (spec.IsDatedPage heading.entry style.now
        (names_of names.now) (laid.layout_of plan.now by_job listed) plan.now
        schedule.now.starts.items)) }
    ensures refused { IfErr result (Refuses (TellsNoDays dates.entry
        (spec.IsPageBeyond style.now by_job plan.now schedule.now.starts.items))) }
{
    let calendar = calendar_of(alloc, dates)?;
    page_on(
        alloc, heading, style, names, by_job, listed, plan, schedule, &calendar,
    )
}

// Returns the report of a plan's schedule with these names. With dates it has days.
fn page_text(
    alloc: Global,
    heading: Heading<'_>,
    dates: Option<Dates<'_>>,
    style: &DayStyle,
    names: &SheetNames<'_>,
    by_job: bool,
    listed: bool,
    plan: &Plan<'_>,
    schedule: &Schedule,
) -> Result<String, CliFault>
    requires { CanBeShown (count_of plan.now) schedule.now }
    ensures made { IfText result (spec.IsPage heading.entry dates.entry style.now
        (names_of names.now) (laid.layout_of plan.now by_job listed) plan.now
        schedule.now.starts.items) }
    ensures refused { IfErr result (Refuses (spec.HidesReport dates.entry style.now by_job plan.now
        schedule.now.starts.items)) }
{
    match dates {
        Some(dates) => {
            dated_page(
                alloc, heading, dates, style, names, by_job, listed, plan, schedule,
            )
        }
        None => plain_page(alloc, heading, names, by_job, listed, plan, schedule),
    }
}

/// Returns the report of a plan's schedule, with the names and ids in its file, which may be made of
/// a list. With dates it has days.
pub(crate) fn report_text(
    alloc: Global,
    heading: Heading<'_>,
    dates: Option<Dates<'_>>,
    style: &DayStyle,
    by_job: bool,
    listed: bool,
    subject: Subject<'_>,
    file: &[u8],
    plan: &Plan<'_>,
    schedule: &Schedule,
) -> Result<String, CliFault>
    requires { CanBeShown (count_of plan.now) schedule.now }
    ensures made { IfText result (spec.IsReport heading.entry dates.entry style.now by_job listed
        subject.entry file.now plan.now schedule.now.starts.items) }
    ensures refused { IfErr result (Refuses (spec.HidesReport dates.entry style.now by_job plan.now
        schedule.now.starts.items)) }
{
    let lines = names_of_lines(alloc, subject, file)?;
    let legend = legend_names(alloc, subject, file)?;
    let ids = ids_of_rows(alloc, subject, file)?;
    let links = row_links(alloc, plan, &legend, &ids)?;
    let resources = resource_lines(alloc, &links)?;
    let predecessors = predecessor_lines(alloc, &links)?;
    let names = SheetNames {
        lines: &lines,
        legend: &legend,
        ids: &ids,
        resources: &resources,
        predecessors: &predecessors,
    };
    page_text(
        alloc, heading, dates, style, &names, by_job, listed, plan, schedule,
    )
}
