//! `plan report --solve` for a list with dates: the page of its plan.

ghost use Rattle.std.specs.Prelude.{◌≡◌, IfErr, IfOk, map, string_bytes};
ghost use Rattle.plan_errors.specs.Output.{Refuses};
ghost use Rattle.plan_sheet.specs.Names as named;
ghost use Rattle.plan_solve.specs.Progress.{HearsNothing};
ghost use Rattle.plan_weeksheet.specs.Names.{sheet_names};
ghost use Rattle.plan_weeksheet.specs.Outputs as spec;
ghost use Rattle.plan_weeksheet.specs.Pages as pages;
ghost use Rattle.plan_weeksheet.specs.Rectangles.{rectangle_of};

use crate::names::{ids_of, lines_of, names_of, need_texts, predecessors_of, resource_names};
use crate::page::{PageDays, page_of};
use crate::rectangle::Rectangle;
use crate::rectangles::week_rectangles;
use plan_errors::CliFault;
use plan_sheet::{Heading, SheetNames};
use plan_solve::Watcher;
use plan_weekfile::{WeekOrder, listed_week, plan_of, week_links};
use plan_weeklist::ListedWeek;
use plan_weeks::{WeekPlan, ids_of as ids_in};
use std::alloc::Global;

// Returns the lower bound of the makespans of all plans that a plan proves.
fn bound_of(plan: &WeekPlan) -> Option<u64>
    ensures { result ≡ spec.bound_of plan.now }
{
    match plan.lateness {
        None => Some(plan.lower),
        Some(_) => None,
    }
}

// Returns the page of rectangles of a plan, with their names.
fn named_page(
    alloc: Global,
    heading: Heading<'_>,
    days: Option<PageDays<'_>>,
    listed: &ListedWeek,
    rectangles: &[Rectangle<'_>],
    makespan: u64,
) -> Result<String, CliFault>
    ensures page { IfOk result (λ text.
        pages.IsPageOf heading.entry.title.now heading.entry.lower days.entry
        (sheet_names listed.now.table.resources (map rectangle_of rectangles.now))
        listed.now.week.capacities.items (map rectangle_of rectangles.now) makespan
        (string_bytes text)) }
    ensures refused { IfErr result (Refuses (pages.TellsNoPage days.entry
        listed.now.week.capacities.items (map rectangle_of rectangles.now) makespan)) }
{
    let legend = resource_names(alloc, &listed.table.resources)?;
    let needs = need_texts(alloc, &legend, rectangles)?;
    let ids = ids_of(alloc, rectangles)?;
    let lines = names_of(alloc, rectangles)?;
    let resources = lines_of(alloc, &needs)?;
    let predecessors = predecessors_of(alloc, rectangles)?;
    let names = SheetNames {
        lines: &lines,
        legend: &legend,
        ids: &ids,
        resources: &resources,
        predecessors: &predecessors,
    };
    let capacities = &listed.week.capacities;
    page_of(
        alloc, heading, days, &names, capacities, rectangles, makespan,
    )
}

// Returns the page of a plan of a week.
fn shown_page(
    alloc: Global,
    title: &str,
    days: Option<PageDays<'_>>,
    listed: &ListedWeek,
    plan: &WeekPlan,
) -> Result<String, CliFault>
    ensures shown { IfOk result (λ text.
        spec.ShowsPage title.now days.entry listed.now plan.now (string_bytes text)) }
    ensures refused { IfErr result
        (Refuses (spec.HidesPage days.entry listed.now plan.now)) }
{
    let ids = ids_in(alloc, &listed.table.activities)?;
    let links = week_links(alloc, listed, &ids)?;
    let rectangles = week_rectangles(alloc, listed, &links, plan)?;
    let heading = Heading {
        title,
        lower: bound_of(plan),
    };
    named_page(alloc, heading, days, listed, &rectangles, plan.makespan)
}

/// Returns the page of a plan of a list with dates, as [`plan_sheet::report`] and
/// [`plan_sheet::dated_report`] show a project: the activities that aren't done, and the absences
/// up to the end of the plan. The watcher is called during the searches, and can end them. Errors:
/// those of [`plan_weekfile::week_output`], then `T12` (above a limit of a project file) and `G3`
/// (a day after 9999-12-31).
#[tactic(auto, using(crate::proofs::OutputLemmas::list_refused, crate::proofs::OutputLemmas::plan_refused, crate::proofs::OutputLemmas::page_refused, crate::proofs::OutputLemmas::page_shown))]
pub fn week_report<W: Watcher>(
    alloc: Global,
    order: &WeekOrder<'_>,
    title: &str,
    days: Option<PageDays<'_>>,
    watcher: &mut W,
    text: &[u8],
) -> Result<String, CliFault>
    ensures shown { IfOk result (λ page.
        spec.ShowsReport order.now title.now days.entry text.now (string_bytes page)) }
    ensures refused { IfErr result
        (Refuses (spec.RefusesReport order.now days.entry text.now)) }
    ensures told { HearsNothing (W.was_told watcher.old) (W.was_told watcher.new) }
{
    let listed = listed_week(alloc, order.capacities, order.today, text)?;
    let plan = plan_of(alloc, order, &listed, watcher)?;
    let page = shown_page(alloc, title, days, &listed, &plan)?;
    Ok(page)
}
