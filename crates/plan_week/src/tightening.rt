//! The search for the shortest plan of a week in which no activity is later than so much.

ghost use Rattle.std.specs.Prelude.{◌≡◌, ◌≤◌, IfOk, IfErr};
ghost use Rattle.plan_solve.specs.Progress.{HearsNothing};
ghost use Rattle.plan_solve.specs.Solutions.{RefusesSolving};
ghost use Rattle.plan_week.specs.Tardiness.{greatest_tardiness};
ghost use Rattle.plan_week.specs.Tightening as spec;
ghost use Rattle.plan_week.specs.Weeks as weeks;

use crate::dues::limited_input;
use crate::state::makespan_of;
use crate::week::Week;
use plan_solve::{LATEST_COST, PlanAnswer, SolveFault, Watcher, solve_plan_watched};
use std::alloc::{AllocError, Global};

/// A plan with its makespan, a lower bound of the makespans of all plans that are no later, and the
/// number of conflicts that it took.
#[derive(Debug, Drop)]
pub struct Tightened {
    pub starts: Vec<u32>,
    pub makespan: u64,
    pub lower: u64,
    pub conflicts: u64,
}

/// A plan with its cost and a lower bound of all costs, as a search has found it.
#[derive(Drop)]
pub struct Found {
    pub starts: Vec<u32>,
    pub makespan: u32,
    pub lower: u32,
}

// Returns the plan that a search has found, if there is one.
fn found_in(answer: PlanAnswer) -> Option<Found>
    ensures { spec.IsFoundIn answer result }
{
    match answer {
        PlanAnswer::Optimal { starts, cost } => Some(Found {
            starts,
            makespan: cost,
            lower: cost,
        }),
        PlanAnswer::Between {
            starts,
            cost,
            lower,
        } => Some(Found {
            starts,
            makespan: cost,
            lower,
        }),
        PlanAnswer::NoPlan => None,
        PlanAnswer::Unknown { .. } => None,
    }
}

// Returns a plan that is as it was.
fn untightened(
    alloc: Global,
    week: &Week,
    starts: &[u32],
    late: u32,
    conflicts: u64,
) -> Result<Tightened, AllocError>
    requires plan { weeks.IsWeekPlan week.now starts.now }
    requires in_time { greatest_tardiness week.now starts.now ≤ late }
    ensures answer { IfOk result (spec.IsTightenedOf week.now late) }
    ensures conflicts { IfOk result (λ tightened. tightened.conflicts ≡ conflicts) }
{
    let copy = Vec::from_slice(alloc, starts)?;
    let makespan = makespan_of(week, starts);
    Ok(Tightened {
        starts: copy,
        makespan,
        lower: 0,
        conflicts,
    })
}

/// Returns the shortest plan of a week with a tardiness of at most `late` that a search with at
/// most so many conflicts finds, and a lower bound for all such plans. `starts` is such a plan.
///
/// Refused with [`SolveFault::BadConflicts`] if the number of conflicts is not from 1 to
/// 1,000,000,000. Out of memory can replace any result.
pub fn tighten<W: Watcher>(
    alloc: Global,
    week: &Week,
    starts: &[u32],
    late: u32,
    conflicts: u64,
    watcher: &mut W,
) -> Result<Tightened, SolveFault>
    requires plan { weeks.IsWeekPlan week.now starts.now }
    requires in_time { greatest_tardiness week.now starts.now ≤ late }
    ensures answer { IfOk result (spec.IsTightenedOf week.now late) }
    ensures conflicts { IfOk result (λ tightened. tightened.conflicts ≤ conflicts) }
    ensures refused { IfErr result (RefusesSolving conflicts) }
    ensures told { HearsNothing (W.was_told watcher.old) (W.was_told watcher.new) }
{
    let input = limited_input(alloc, week, late)?;
    let horizon = makespan_of(week, starts).min(LATEST_COST as u64) as u32;
    let proposal = Vec::from_slice(alloc, starts)?;
    let solved = solve_plan_watched(alloc, input, horizon, proposal, conflicts, watcher)?;
    let used = solved.conflicts;
    match found_in(solved.answer) {
        Some(found) => Ok(Tightened {
            starts: found.starts,
            makespan: found.makespan as u64,
            lower: found.lower as u64,
            conflicts: used,
        }),
        None => {
            let same = untightened(alloc, week, starts, late, used)?;
            Ok(same)
        }
    }
}
