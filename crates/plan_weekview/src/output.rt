//! The text of the working days of a plan of a list with dates.

ghost use Rattle.std.specs.Prelude.{◌≡◌, IfErr, IfOk, map};
ghost use Rattle.plan_errors.specs.Output.{Refuses};
ghost use Rattle.plan_formats.specs.Tables.{table_of};
ghost use Rattle.plan_solve.specs.Progress.{HearsNothing};
ghost use Rattle.plan_views.specs.LinkColumns.{links_of};
ghost use Rattle.plan_weekview.specs.DaysOutputs as spec;

use crate::days::week_days;
use plan_calendar::Calendar;
use plan_errors::{About, CliFault, Code, refuse_words};
use plan_formats::{Format, Table, format_table, table_text, with_ids};
use plan_gantt::DaysFault;
use plan_solve::Watcher;
use plan_views::{ActivityLinks, with_links};
use plan_weekfile::{WeekOrder, listed_week, plan_of, week_links};
use plan_weeklist::ListedWeek;
use plan_weeks::{WeekPlan, ids_of, named, planned};
use std::alloc::{AllocError, Global};

// Returns the error of a table of working days.
fn days_refusal(alloc: Global, fault: DaysFault) -> CliFault
    ensures { Refuses (spec.TellsDays fault) result }
{
    match fault {
        DaysFault::NoMemory => CliFault::Memory,
        DaysFault::BeyondCalendar => {
            refuse_words(alloc, Code::BeyondCalendar, About::Plan, "beyond calendar")
        }
    }
}

// Returns the text of a table of working days.
fn plain_text<'a>(
    alloc: Global,
    listed: &'a ListedWeek,
    table: Table<'a>,
) -> Result<Vec<u8>, AllocError>
    ensures { IfOk result (λ text. text.items
        ≡ spec.days_text None listed.now (table_of table.entry)) }
{
    let activities = planned(listed);
    let table = named(alloc, activities, table)?;
    let table = with_ids(alloc, table, &ids_of(alloc, activities)?)?;
    table_text(alloc, &table)
}

// Returns a table of working days with the names, the resources, the predecessors and the ids of
// the activities.
fn linked<'a>(
    alloc: Global,
    listed: &'a ListedWeek,
    table: Table<'a>,
    links: &'a [ActivityLinks],
) -> Result<Table<'a>, AllocError>
    ensures { IfOk result (λ made. table_of made
        ≡ spec.linked (map links_of links.now) listed.now (table_of table.entry)) }
{
    let activities = &listed.table.activities;
    let view = named(alloc, activities, table)?;
    let view = with_links(alloc, view, links)?;
    with_ids(alloc, view, &ids_of(alloc, activities)?)
}

// Returns a table of working days in a format.
fn formatted<'a>(
    alloc: Global,
    format: Format,
    listed: &'a ListedWeek,
    table: Table<'a>,
) -> Result<Vec<u8>, AllocError>
    ensures { IfOk result (λ text. text.items
        ≡ spec.days_text (Some format) listed.now (table_of table.entry)) }
{
    let ids = ids_of(alloc, &listed.table.activities)?;
    let links = week_links(alloc, listed, &ids)?;
    let made = linked(alloc, listed, table, &links)?;
    format_table(alloc, format, &made)
}

// Returns the text of a table of working days: with a format as CSV or JSON.
fn days_text<'a>(
    alloc: Global,
    format: Option<Format>,
    listed: &'a ListedWeek,
    table: Table<'a>,
) -> Result<Vec<u8>, AllocError>
    ensures { IfOk result (λ text. text.items
        ≡ spec.days_text format listed.now (table_of table.entry)) }
{
    match format {
        Some(format) => formatted(alloc, format, listed, table),
        None => plain_text(alloc, listed, table),
    }
}

// Returns the text of the working days of a plan in a format, or the error of a day that is too
// late.
#[tactic(auto, using(crate::proofs::OutputLemmas::beyond_told))]
fn shown_days(
    alloc: Global,
    format: Option<Format>,
    calendar: &Calendar,
    listed: &ListedWeek,
    plan: &WeekPlan,
) -> Result<Vec<u8>, CliFault>
    ensures shown { IfOk result (λ text.
        spec.ShowsTable format calendar.now listed.now plan.now text.items) }
    ensures refused { IfErr result
        (Refuses (spec.TellsBeyond calendar.now listed.now.week plan.now)) }
{
    match week_days(alloc, &listed.week, plan, calendar) {
        Ok(table) => Ok(days_text(alloc, format, listed, table)?),
        Err(fault) => Err(days_refusal(alloc, fault)),
    }
}

/// Returns the text of the working days of a plan of a list with dates. The watcher is called
/// during the searches, and can end them. Errors: those of [`plan_weekfile::week_output`], then
/// `G3` (a day after 9999-12-31).
#[tactic(auto, using(crate::proofs::OutputLemmas::list_refused, crate::proofs::OutputLemmas::plan_refused, crate::proofs::OutputLemmas::days_refused, crate::proofs::OutputLemmas::days_shown))]
pub fn days_output<W: Watcher>(
    alloc: Global,
    order: &WeekOrder<'_>,
    calendar: &Calendar,
    watcher: &mut W,
    text: &[u8],
) -> Result<Vec<u8>, CliFault>
    ensures shown { IfOk result (λ shown.
        spec.ShowsWeekDays order.now calendar.now text.now shown.items) }
    ensures refused { IfErr result
        (Refuses (spec.RefusesWeekDays order.now calendar.now text.now)) }
    ensures told { HearsNothing (W.was_told watcher.old) (W.was_told watcher.new) }
{
    let listed = listed_week(alloc, order.capacities, order.today, text)?;
    let plan = plan_of(alloc, order, &listed, watcher)?;
    let shown = shown_days(alloc, order.format, calendar, &listed, &plan)?;
    Ok(shown)
}
