//! The calendar files of schedules.

ghost use Rattle.std.specs.Prelude.{◌≡◌, IfOk, IfErr, IsErrOf, map, string_bytes};
ghost use Rattle.plan_errors.specs.Output.{Refuses};
ghost use Rattle.plan_table.specs.Names.{name_of};
ghost use Rattle.plan_documents.specs.Documents.{count_of};
ghost use Rattle.plan_documents.specs.Lines.{IfText};
ghost use Rattle.plan_cli.specs.Scheduled.{CanBeShown};
ghost use Rattle.plan_cli.specs.DaysRun.{ShowsDays, TellsBeyond, TellsNoDays};
ghost use Rattle.plan_sheet.specs.Parts.{event_names_of};
ghost use Rattle.plan_print.specs.Sheets as spec;

use crate::digests::{file_digest, instance_digest};
use crate::layouts::layout_of;
use crate::names::legend_names;
use plan_cli::{
    CliFault, Dates, Plan, Subject, calendar_of, days_refusal, names_of_lines, names_of_rows,
};
use plan_documents::ids_of_rows;
use plan_gantt::{Calendar, DaysFault};
use plan_sgs::Schedule;
use plan_sheet::{EventNames, Events, ics_file};
use plan_table::NameLine;
use std::alloc::{AllocError, Global};

// Returns the digest of a project file, or of an instance.
fn digest_of(alloc: Global, subject: Subject<'_>, file: &[u8]) -> Result<String, AllocError>
    ensures { IfOk result (λ text. string_bytes text ≡ spec.digest_of subject.entry file.now) }
{
    match subject {
        Subject::Project(_) => file_digest(alloc, file),
        Subject::Shop(instance) => instance_digest(alloc, file, instance),
    }
}

// Returns the ids of events: those of activities, or the names of the orders in a list.
fn event_ids<'a>(
    alloc: Global,
    listed: bool,
    subject: Subject<'_>,
    file: &'a [u8],
) -> Result<Vec<NameLine<'a>>, AllocError>
    ensures { IfOk result (λ ids.
        map name_of ids.items ≡ spec.event_ids listed subject.entry file.now) }
{
    match subject {
        Subject::Project(_) => ids_of_rows(alloc, subject, file),
        Subject::Shop(_) => {
            if listed {
                names_of_rows(alloc, subject, file)
            } else {
                Ok(Vec::new(alloc))
            }
        }
    }
}

// Returns the names of the resources of a project, or of the machines of a job shop.
fn event_resources<'a>(
    alloc: Global,
    subject: Subject<'_>,
    file: &'a [u8],
) -> Result<Vec<NameLine<'a>>, AllocError>
    ensures { IfOk result (λ names.
        map name_of names.items ≡ spec.event_resources subject.entry file.now) }
{
    match subject {
        Subject::Project(_) => legend_names(alloc, subject, file),
        Subject::Shop(_) => names_of_lines(alloc, subject, file),
    }
}

// Returns the calendar file of a plan's schedule, with this digest and these names.
fn plan_ics(
    alloc: Global,
    digest: &str,
    names: &EventNames<'_>,
    events: &Events<'_>,
    plan: &Plan<'_>,
    schedule: &Schedule,
    calendar: &Calendar,
) -> Result<String, DaysFault>
    requires { CanBeShown (count_of plan.now) schedule.now }
    ensures text { IfOk result (λ text. spec.IsIcs digest.now (event_names_of names.now)
        events.now plan.now schedule.now.starts.items calendar.now (string_bytes text)) }
    ensures beyond { IsErrOf result DaysFault.BeyondCalendar → spec.IsIcsBeyond
        events.now plan.now schedule.now.starts.items calendar.now }
{
    let layout = layout_of(plan, false, false);
    let starts = &schedule.starts;
    ics_file(alloc, digest, names, layout, starts, events, calendar)
}

// Returns the same, or its error as a line.
fn ics_text(
    alloc: Global,
    digest: &str,
    names: &EventNames<'_>,
    events: &Events<'_>,
    plan: &Plan<'_>,
    schedule: &Schedule,
    calendar: &Calendar,
) -> Result<String, CliFault>
    requires { CanBeShown (count_of plan.now) schedule.now }
    ensures made { IfText result (spec.IsIcs digest.now (event_names_of names.now) events.now
        plan.now schedule.now.starts.items calendar.now) }
    ensures refused { IfErr result (Refuses (TellsBeyond
        (spec.IsIcsBeyond events.now plan.now schedule.now.starts.items calendar.now))) }
{
    plan_ics(alloc, digest, names, events, plan, schedule, calendar).map_err(|fault| days_refusal(
        alloc, fault,
    ))
}

// Returns the calendar file of a plan's schedule on a calendar, for the file of the plan.
fn events_on(
    alloc: Global,
    events: &Events<'_>,
    listed: bool,
    subject: Subject<'_>,
    file: &[u8],
    plan: &Plan<'_>,
    schedule: &Schedule,
    calendar: &Calendar,
) -> Result<String, CliFault>
    requires { CanBeShown (count_of plan.now) schedule.now }
    ensures made { IfText result (spec.AreEvents listed subject.entry file.now events.now
        plan.now schedule.now.starts.items calendar.now) }
    ensures refused { IfErr result (Refuses (TellsBeyond
        (spec.IsIcsBeyond events.now plan.now schedule.now.starts.items calendar.now))) }
{
    let digest = digest_of(alloc, subject, file)?;
    let ids = event_ids(alloc, listed, subject, file)?;
    let own = names_of_rows(alloc, subject, file)?;
    let resources = event_resources(alloc, subject, file)?;
    let names = EventNames {
        ids: &ids,
        names: &own,
        resources: &resources,
    };
    ics_text(alloc, &digest, &names, events, plan, schedule, calendar)
}

/// Returns the calendar file of a plan's schedule by a choice of events, for the file of the plan,
/// which may be made of a list.
pub(crate) fn events_text(
    alloc: Global,
    dates: Dates<'_>,
    events: &Events<'_>,
    listed: bool,
    subject: Subject<'_>,
    file: &[u8],
    plan: &Plan<'_>,
    schedule: &Schedule,
) -> Result<String, CliFault>
    requires { CanBeShown (count_of plan.now) schedule.now }
    ensures made { IfText result (ShowsDays dates.entry (spec.AreEvents listed subject.entry
        file.now events.now plan.now schedule.now.starts.items)) }
    ensures refused { IfErr result (Refuses (TellsNoDays dates.entry
        (spec.IsIcsBeyond events.now plan.now schedule.now.starts.items))) }
{
    let calendar = calendar_of(alloc, dates)?;
    events_on(
        alloc, events, listed, subject, file, plan, schedule, &calendar,
    )
}
