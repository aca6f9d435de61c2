//! The queries about a plan: dates, schedules, charts, working days, best schedules.

ghost use Rattle.plan_desk.specs.PageRoutes as routes;
ghost use Rattle.plan_desk.specs.BestRoutes as best;
ghost use Rattle.plan_desk.specs.RulePages.{ByRule};
ghost use Rattle.plan_desk.specs.BookSteps.{Decides};

use crate::change::{Decision, without_change};
use crate::files::Files;
use crate::lookup::{find_bound, find_plan};
use crate::pages::{RulePage, best_page, dates_page, rule_page};
use crate::reply::not_found;
use plan_exact::Memo;
use plan_rows::{Book, BookFault};
use std::alloc::Global;

// Shows the dates of a project.
pub(crate) fn show_dates<B: Book>(
    book: &mut B,
    alloc: Global,
    files: &mut Files,
    desk: &str,
    number: &str,
) -> Result<Decision<'static>, BookFault>
    ensures { Decides B.shelf book.old book.new desk.now desk.now
        (λ v. routes.Dates v number.now) result }
{
    let Some(found) = find_plan(book, desk, number)? else {
        return Ok(without_change(not_found()));
    };
    let reply = dates_page(alloc, files, &found.plan)?;
    Ok(without_change(reply))
}

// Shows a page of a plan's schedule by a rule.
pub(crate) fn show_by_rule<B: Book>(
    book: &mut B,
    alloc: Global,
    files: &mut Files,
    desk: &str,
    number: &str,
    page: RulePage,
    rule: &str,
) -> Result<Decision<'static>, BookFault>
    ensures { Decides B.shelf book.old book.new desk.now desk.now
        (λ v. ByRule page v number.now rule.now) result }
{
    let Some(bound) = find_bound(book, alloc, desk, number)? else {
        return Ok(without_change(not_found()));
    };
    let reply = rule_page(alloc, files, &bound, page, rule)?;
    Ok(without_change(reply))
}

// Shows the best schedule of a plan that a search within a budget finds.
pub(crate) fn show_best<B: Book>(
    book: &mut B,
    alloc: Global,
    memo: &mut Memo,
    files: &mut Files,
    desk: &str,
    number: &str,
    budget: &str,
) -> Result<Decision<'static>, BookFault>
    ensures { Decides B.shelf book.old book.new desk.now desk.now
        (λ v. best.Best v number.now budget.now) result }
{
    let Some(bound) = find_bound(book, alloc, desk, number)? else {
        return Ok(without_change(not_found()));
    };
    let reply = best_page(alloc, memo, files, &bound, budget)?;
    Ok(without_change(reply))
}
