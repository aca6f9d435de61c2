//! `plan best` and `plan best-project`: the best schedules that a search within a budget finds.

ghost use Rattle.std.specs.Prelude.{IfErr, []};
ghost use Rattle.plan_exact.specs.Budgets.{IsBudgetText};
ghost use Rattle.plan_gantt.specs.ShopBestText.{TellsBestRefusal};
ghost use Rattle.plan_gantt.specs.ProjectBestText.{TellsNoBestProject};
ghost use Rattle.plan_errors.specs.Output.{Refuses};
ghost use Rattle.plan_cli.specs.BestRun.{TellsNoBestOf, TellsSolving, TellsSolvingRefusal};
ghost use Rattle.plan_cli.specs.BestProjectRun as projects;
ghost use Rattle.plan_cli.specs.TaskViews as spec;
ghost use Rattle.plan_cli.specs.Views.{IfView};

use crate::views::View;
use plan_documents::Plan;
use plan_errors::{About, CliFault, Code, refuse_words};
use plan_exact::{ExactFault, parse_budget, solve_project, solve_shop};
use plan_sgs::Instance;
use plan_shop::Shop;
use plan_views::{PlanRef, best_view};
use std::alloc::Global;

// Returns the error of a search.
fn exact_refusal(alloc: Global, fault: &ExactFault) -> CliFault
    ensures { Refuses (TellsSolving fault.now) result }
{
    match fault {
        ExactFault::NoMemory => CliFault::Memory,
        ExactFault::TooLarge => refuse_words(alloc, Code::TooLarge, About::Plan, "too large"),
        ExactFault::BadBudget => refuse_words(alloc, Code::BadBudget, About::Limit, "budget"),
    }
}

// Returns a job shop's best schedule.
fn solved_shop(alloc: Global, budget: u64, shop: &Shop) -> Result<View, CliFault>
    ensures made { IfView result (spec.IsBestShopViewBy budget shop.now) }
    ensures refused { IfErr result (Refuses (TellsSolvingRefusal budget shop.now)) }
{
    let solved = solve_shop(alloc, shop, budget).map_err(|fault| exact_refusal(alloc, &fault))?;
    Ok(View::Table(best_view(alloc, PlanRef::Shop(shop), &solved)?))
}

// Returns the same within the budget that an argument spells. An argument that isn't a budget is
// handled like 0, so the shop's size is tested first.
fn best_of_shop(alloc: Global, budget: &str, shop: &Shop) -> Result<View, CliFault>
    ensures made { IfView result (spec.IsBestViewOf budget.now (Plan.Shop shop.now)) }
    ensures refused { IfErr result (Refuses (TellsBestRefusal budget.now shop.now)) }
{
    let budget = parse_budget(budget).unwrap_or(0);
    solved_shop(alloc, budget, shop)
}

// Returns an instance's best schedule.
fn solved_project(alloc: Global, budget: u64, instance: &Instance) -> Result<View, CliFault>
    ensures made { IfView result (spec.IsBestProjectViewBy budget instance.now) }
    ensures refused { IfErr result (Refuses (projects.TellsSearchRefusal budget instance.now)) }
{
    let solved = solve_project(alloc, instance, budget).map_err(|fault| exact_refusal(
        alloc, &fault,
    ))?;
    Ok(View::Table(best_view(alloc, PlanRef::Project(instance), &solved)?))
}

// Returns the same within the budget that an argument spells. An argument that isn't a budget is
// handled like 0, so the project's size is tested first.
fn best_of_project(alloc: Global, budget: &str, instance: &Instance) -> Result<View, CliFault>
    ensures made { IfView result (spec.IsBestViewOf budget.now (Plan.Project instance.now [])) }
    ensures refused { IfErr result (Refuses (TellsNoBestProject budget.now instance.now)) }
{
    let budget = parse_budget(budget).unwrap_or(0);
    solved_project(alloc, budget, instance)
}

/// Returns a plan's best schedule within the budget that an argument spells.
pub(crate) fn best_of(alloc: Global, budget: &str, plan: &Plan<'_>) -> Result<View, CliFault>
    ensures made { IfView result (spec.IsBestViewOf budget.now plan.now) }
    ensures refused { IfErr result (Refuses (TellsNoBestOf budget.now plan.now)) }
{
    match plan {
        Plan::Project(instance, _) => best_of_project(alloc, budget, instance),
        Plan::Shop(shop) => best_of_shop(alloc, budget, shop),
    }
}
