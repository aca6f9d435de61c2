//! `plan solve`: a schedule of a project or a job shop and a lower bound of its least makespan.

ghost use Rattle.std.specs.Prelude.{◌≡◌, IfOk, IfErr, []};
ghost use Rattle.plan_solve.specs.Solutions.{IsConflictLimit};
ghost use Rattle.plan_errors.specs.Output.{Refuses};
ghost use Rattle.plan_formats.specs.Tables.{table_of};
ghost use Rattle.plan_cli.specs.TaskViews as views;
ghost use Rattle.plan_cli.specs.Views.{IfView};
ghost use Rattle.plan_cli.specs.SolveRun as spec;

use crate::tables::schedule_table;
use crate::views::View;
use crate::watchers::{ProofWatcher, SolveWatcher};
use plan_documents::Plan;
use plan_errors::CliFault;
use plan_formats::Table;
use plan_sgs::Instance;
use plan_shop::Shop;
use plan_solve::{Log, MOST_CONFLICTS, SolveFault, Solved, solve_logged};
use plan_turns::search_in_turns;
use plan_views::{bound_line, with_line};
use std::alloc::{AllocError, Global};

// Returns the solution of an instance that a search of at most so many conflicts finds.
fn solved_project<V: SolveWatcher, L: Log>(
    alloc: Global,
    conflicts: u64,
    instance: &Instance,
    watcher: &mut V,
    log: &mut L,
) -> Result<Solved, AllocError>
    requires { IsConflictLimit conflicts }
    ensures { IfOk result (spec.IsSolution (Plan.Project instance.now [])) }
{
    match solve_logged(alloc, instance, conflicts, watcher, log) {
        Ok(solved) => Ok(solved),
        Err(SolveFault::NoMemory) => Err(AllocError),
        Err(SolveFault::BadConflicts) => unreachable!(),
    }
}

// Returns the solution of a job shop that searches in turns find. Each turn has at most so many
// conflicts.
fn solved_shop<V: ProofWatcher + SolveWatcher, L: Log>(
    alloc: Global,
    conflicts: u64,
    shop: &Shop,
    watcher: &mut V,
    log: &mut L,
) -> Result<Solved, AllocError>
    requires { IsConflictLimit conflicts }
    ensures { IfOk result (spec.IsSolution (Plan.Shop shop.now)) }
{
    // The proof needs the shop's invariant, which this call states.
    let _machines = shop.machines();
    let proof = search_in_turns(alloc, shop, conflicts, watcher, log)?;
    Ok(Solved {
        schedule: proof.schedule,
        lower: proof.lower,
        conflicts: 0,
    })
}

// Returns the allowed number of conflicts that is nearest to a number.
fn allowed(conflicts: u64) -> u64
    ensures { IsConflictLimit result }
{
    conflicts.max(1).min(MOST_CONFLICTS)
}

/// Returns the solution of a plan by a search of at most so many conflicts. The watcher is called
/// during the search, and can stop it. The log gets what the search by conflicts proves.
pub(crate) fn solution_of<V: ProofWatcher + SolveWatcher, L: Log>(
    alloc: Global,
    conflicts: u64,
    plan: &Plan<'_>,
    watcher: &mut V,
    log: &mut L,
) -> Result<Solved, AllocError>
    ensures { IfOk result (spec.IsSolution plan.now) }
{
    match plan {
        Plan::Project(instance, _) => {
            solved_project(alloc, allowed(conflicts), instance, watcher, log)
        }
        Plan::Shop(shop) => solved_shop(alloc, allowed(conflicts), shop, watcher, log),
    }
}

// Returns the table of a solution.
fn solution_table(
    alloc: Global,
    plan: &Plan<'_>,
    solved: &Solved,
) -> Result<Table<'static>, AllocError>
    requires { spec.IsSolution plan.now solved.now }
    ensures { IfOk result (λ table. table_of table ≡ views.bounded_of plan.now solved.now.lower
        solved.now.schedule.starts.items solved.now.schedule.makespan) }
{
    let schedule = &solved.schedule;
    let table = schedule_table(alloc, plan, schedule)?;
    with_line(bound_line(solved.lower, schedule.makespan), table)
}

/// Returns a plan's solution.
pub(crate) fn solution_view<V: ProofWatcher + SolveWatcher, L: Log>(
    alloc: Global,
    conflicts: u64,
    plan: &Plan<'_>,
    watcher: &mut V,
    log: &mut L,
) -> Result<View, CliFault>
    ensures made { IfView result (views.IsSolvedViewBy plan.now) }
    ensures refused { IfErr result (Refuses (spec.TellsNoSolution plan.now)) }
{
    let solved = solution_of(alloc, conflicts, plan, watcher, log)?;
    Ok(View::Table(solution_table(alloc, plan, &solved)?))
}
