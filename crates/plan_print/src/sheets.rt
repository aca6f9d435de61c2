//! The sheets of schedules.

ghost use Rattle.std.specs.Prelude.{◌≡◌, IfErr, IfOk};
ghost use Rattle.plan_errors.specs.Output.{Refuses};
ghost use Rattle.plan_documents.specs.Details.{NamesVerdict};
ghost use Rattle.plan_documents.specs.Documents.{count_of};
ghost use Rattle.plan_documents.specs.Lines.{IfText};
ghost use Rattle.plan_cli.specs.Scheduled.{CanBeShown, IsMadeFrom, TellsNotMade};
ghost use Rattle.plan_print.specs.Prints as prints;
ghost use Rattle.plan_print.specs.Prints.{IsSheet, RefusesSheet};
ghost use Rattle.plan_print.specs.Sheets as spec;

use crate::charts::chart_text;
use crate::events::events_text;
use crate::reports::report_text;
use plan_cli::{
    CliFault, Dates, Origin, Plan, ProofWatcher, Scheduled, SolveWatcher, Subject, Unlogged,
    plan_of, read_document, readable, schedule_from, with_names,
};
use plan_sheet::{DayStyle, Events, Heading};
use std::alloc::Global;

/// A sheet of a schedule. That of a project with ids shows the activities with ids, by their ids.
/// That of a list of orders shows the steps that take time.
#[derive(Clone, Copy, Debug, Drop)]
pub enum Sheet<'a> {
    /// A calendar file (RFC 5545) with an event for each wanted activity or step that takes time.
    /// Without a word of `events` the identifiers have the SHA-256 of the file, for a job shop that
    /// of the file, a zero byte and the name of the instance. Errors: those of `Task::Days`, with
    /// `G3` also if the day after the last one is after 9999-12-31.
    Events {
        dates: Dates<'a>,
        /// `Events::plain()`: all events, by numbers, on whole days.
        events: &'a Events<'a>,
    },
    /// The Gantt chart as an SVG file with this title, in time units: a line for each activity, or
    /// for each machine. Errors: those of `Task::Chart`.
    Chart(&'a str),
    /// A report as one HTML page with a title: the chart, the use of the resources of a project,
    /// and a table. With dates the axis has calendar days, and the table has days.
    Report {
        title: &'a str,
        /// Errors: those of `Task::Days` with dates, else those of `Task::Chart`.
        dates: Option<Dates<'a>>,
        /// How days are shown. `DayStyle::plain()`: a date for each time unit.
        style: &'a DayStyle,
        /// Whether the chart of a job shop has a line for each job, else for each machine.
        by_job: bool,
    },
}

// Returns a sheet of a plan's schedule, for the file of the plan, which may be that of a list.
fn schedule_sheet(
    alloc: Global,
    sheet: Sheet<'_>,
    listed: bool,
    subject: Subject<'_>,
    file: &[u8],
    plan: &Plan<'_>,
    made: &Scheduled,
) -> Result<String, CliFault>
    requires { CanBeShown (count_of plan.now) made.now.schedule }
    ensures made { IfText result (spec.IsSheetOf listed sheet.entry subject.entry file.now
        plan.now made.now.schedule.starts.items made.now.lower) }
    ensures refused { IfErr result (Refuses
        (spec.HidesSheet sheet.entry plan.now made.now.schedule.starts.items)) }
{
    let schedule = &made.schedule;
    match sheet {
        Sheet::Events { dates, events } => {
            events_text(alloc, dates, events, listed, subject, file, plan, schedule)
        }
        Sheet::Chart(title) => chart_text(alloc, title, listed, subject, file, plan, schedule),
        Sheet::Report {
            title,
            dates,
            style,
            by_job,
        } => {
            let lower = made.lower;
            let heading = Heading { title, lower };
            report_text(
                alloc, heading, dates, style, by_job, listed, subject, file, plan, schedule,
            )
        }
    }
}

// Returns the schedule of a plan. Its error has the names in the file of the plan.
#[tactic(auto, using(plan_documents::proofs::SentenceLemmas::detailed_refuses))]
fn named_schedule<V: ProofWatcher + SolveWatcher>(
    alloc: Global,
    subject: Subject<'_>,
    origin: Origin<'_>,
    file: &[u8],
    plan: &Plan<'_>,
    watcher: &mut V,
) -> Result<Scheduled, CliFault>
    ensures made { IfOk result (IsMadeFrom origin.entry plan.now) }
    ensures refused { IfErr result (Refuses (TellsNotMade origin.entry plan.now)) }
    ensures names { IfErr result (NamesVerdict subject.entry file.now) }
{
    match schedule_from(alloc, origin, plan, watcher, &mut Unlogged) {
        Ok(made) => Ok(made),
        Err(fault) => Err(with_names(alloc, subject, file, fault)),
    }
}

// Returns a sheet of a plan, for its file.
fn plan_sheet<V: ProofWatcher + SolveWatcher>(
    alloc: Global,
    sheet: Sheet<'_>,
    listed: bool,
    subject: Subject<'_>,
    origin: Origin<'_>,
    file: &[u8],
    plan: &Plan<'_>,
    watcher: &mut V,
) -> Result<String, CliFault>
    ensures made { IfText result
        (spec.IsSheetFrom listed origin.entry sheet.entry subject.entry file.now plan.now) }
    ensures refused { IfErr result (Refuses
        (spec.TellsNoSheetFrom origin.entry sheet.entry plan.now)) }
{
    let made = named_schedule(alloc, subject, origin, file, plan, watcher)?;
    schedule_sheet(alloc, sheet, listed, subject, file, plan, &made)
}

// Returns a sheet of the project or the job shop in a file, which may be made of a list. The watcher
// is called during a search, and can stop it.
fn sheet_text<V: ProofWatcher + SolveWatcher>(
    alloc: Global,
    sheet: Sheet<'_>,
    listed: bool,
    subject: Subject<'_>,
    origin: Origin<'_>,
    file: &[u8],
    watcher: &mut V,
) -> Result<String, CliFault>
    ensures made { IfText result
        (IsSheet listed sheet.entry subject.entry origin.entry file.now) }
    ensures refused { IfErr result (Refuses
        (RefusesSheet sheet.entry subject.entry origin.entry file.now)) }
{
    let document = read_document(alloc, subject, file)?;
    let plan = plan_of(alloc, &document, file)?;
    plan_sheet(alloc, sheet, listed, subject, origin, file, &plan, watcher)
}

// Returns the default rule for a project or a job shop.
fn default_rule(subject: Subject<'_>) -> &'static str
    ensures { result.now ≡ prints.default_rule subject.entry }
{
    match subject {
        Subject::Project(_) => "lft",
        Subject::Shop(_) => "mwkr",
    }
}

// Returns the origin of the schedule by the default rule.
fn default_origin<'a>(subject: Subject<'_>) -> Origin<'a>
    ensures { prints.IsDefaultOrigin subject.entry result }
{
    Origin::Rule(default_rule(subject))
}

// Returns the origin of a schedule: the given one, or else the default rule.
fn origin_for<'a>(given: Option<Origin<'a>>, subject: Subject<'_>) -> Origin<'a>
    ensures { prints.IsOriginFor given.entry subject.entry result }
{
    match given {
        Some(origin) => origin,
        None => default_origin(subject),
    }
}

// Returns a sheet for what a command reads.
fn sheet_by<V: ProofWatcher + SolveWatcher>(
    alloc: Global,
    sheet: Sheet<'_>,
    listed: bool,
    subject: Subject<'_>,
    given: Option<Origin<'_>>,
    file: &[u8],
    watcher: &mut V,
) -> Result<String, CliFault>
    ensures made { IfText result
        (prints.IsSheetBy listed sheet.entry given.entry subject.entry file.now) }
    ensures refused { IfErr result (Refuses
        (prints.RefusesSheetBy sheet.entry given.entry subject.entry file.now)) }
{
    let origin = origin_for(given, subject);
    sheet_text(alloc, sheet, listed, subject, origin, file, watcher)
}

/// Returns a sheet of the project or the job shop in a file, or in the file that `plan import` makes
/// of a list. Without an origin the schedule is that by the default rule. The watcher is called
/// during a search, and can stop it.
pub(crate) fn read_sheet<V: ProofWatcher + SolveWatcher>(
    alloc: Global,
    sheet: Sheet<'_>,
    subject: Subject<'_>,
    given: Option<Origin<'_>>,
    file: &[u8],
    watcher: &mut V,
) -> Result<String, CliFault>
    ensures made { IfText result
        (prints.IsSheetRead sheet.entry subject.entry given.entry file.now) }
    ensures refused { IfErr result (Refuses
        (prints.RefusesSheetRead sheet.entry subject.entry given.entry file.now)) }
{
    let read = readable(alloc, subject, file)?;
    let listed = read.kind.is_some();
    sheet_by(
        alloc,
        sheet,
        listed,
        read.subject,
        given,
        read.text(file),
        watcher,
    )
}
