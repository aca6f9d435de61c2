//! Plans of a week for a goal.

ghost use Rattle.std.specs.Prelude.{◌≡◌, ◌≤◌, ◌-◌, ℕ, min, IfErr, IfOk};
ghost use Rattle.plan_solve.specs.Progress.{HearsNothing};
ghost use Rattle.plan_week.specs.Tardiness.{latest_due as latest};
ghost use Rattle.plan_week.specs.TardinessAnswers.{IsTardyOf};
ghost use Rattle.plan_week.specs.WeekAnswers.{NoneEndsBy, limit_of};
ghost use Rattle.plan_weeks.specs.WeekPlans as spec;
ghost use Rattle.plan_weeks.specs.declared.planning.Goal.TheVariants as goals;

use crate::fault::PlanFault;
use plan_solve::{LATEST_COST, Watcher};
use plan_week::{
    TardyAnswer, Week, WeekAnswer, first_overload, latest_due, limits_are_enough, solve_tardiness,
    solve_week, tighten,
};
use std::alloc::Global;

/// A plan is to be the shortest one, or the shortest one among the least tardy.
#[derive(Clone, Copy, Debug, PartialEq, Eq)]
pub enum Goal {
    Makespan,
    Tardiness,
}

/// An upper bound of the tardiness of each activity of a plan, and a lower bound of the greatest
/// tardiness of all plans.
#[derive(Clone, Copy, Debug, Drop)]
pub struct Lateness {
    pub late: u32,
    pub least: u32,
}

/// A plan with its makespan, and a lower bound of the makespans of all plans. If there is a
/// lateness, it is one of all plans that are no later.
#[derive(Drop)]
pub struct WeekPlan {
    pub starts: Vec<u32>,
    pub makespan: u64,
    pub lower: u64,
    pub lateness: Option<Lateness>,
}

// Returns the error of a week of which no plan ends by a limit. There is no plan at all, unless the
// limit is the greatest one of a search: then a plan can end later.
#[tactic(auto, using(crate::proofs::PlanLemmas::no_plan))]
fn refuted(week: &Week, limit: u32, greatest: u32) -> PlanFault
    requires none { NoneEndsBy week.now limit }
    requires limit { limit ≡ min (limit_of week.now) greatest }
    ensures { (conflicts : ℕ) → spec.IsNoPlan conflicts week.now result }
{
    limits_are_enough();
    if limit < greatest {
        PlanFault::Impossible
    } else {
        PlanFault::NotFound
    }
}

// Returns the shortest plan of a week, as far as a search finds it.
#[tactic(auto, using(crate::proofs::PlanLemmas::refused_search, crate::proofs::PlanLemmas::bounded))]
fn plan_shortest<W: Watcher>(
    alloc: Global,
    week: &Week,
    conflicts: u64,
    watcher: &mut W,
) -> Result<WeekPlan, PlanFault>
    ensures plan { IfOk result (spec.IsPlanned goals.Makespan week.now) }
    ensures refused { IfErr result (spec.IsNoPlan conflicts week.now) }
    ensures told { HearsNothing (W.was_told watcher.old) (W.was_told watcher.new) }
{
    let solved = solve_week(alloc, week, conflicts, watcher)?;
    match solved.answer {
        WeekAnswer::Shortest { starts, makespan } => Ok(WeekPlan {
            starts,
            makespan: makespan as u64,
            lower: makespan as u64,
            lateness: None,
        }),
        WeekAnswer::Bounded {
            starts,
            makespan,
            lower,
        } => Ok(WeekPlan {
            starts,
            makespan: makespan as u64,
            lower: lower as u64,
            lateness: None,
        }),
        WeekAnswer::Impossible => Err(refuted(week, solved.limit, LATEST_COST)),
        WeekAnswer::NotFound { .. } => Err(PlanFault::NotFound),
    }
}

// Returns the shortest plan of a week that is no later than another one.
#[tactic(auto, using(crate::proofs::PlanLemmas::refused_search))]
fn plan_tighter<W: Watcher>(
    alloc: Global,
    week: &Week,
    starts: &[u32],
    lateness: Lateness,
    conflicts: u64,
    watcher: &mut W,
) -> Result<WeekPlan, PlanFault>
    requires plan { IsTardyOf week.now starts.now lateness.late lateness.least }
    ensures plan { IfOk result (spec.IsPlanned goals.Tardiness week.now) }
    ensures refused { IfErr result (spec.IsNoPlan conflicts week.now) }
    ensures told { HearsNothing (W.was_told watcher.old) (W.was_told watcher.new) }
{
    let tightened = tighten(alloc, week, starts, lateness.late, conflicts, watcher)?;
    Ok(WeekPlan {
        starts: tightened.starts,
        makespan: tightened.makespan,
        lower: tightened.lower,
        lateness: Some(lateness),
    })
}

// Returns the shortest plan of a week among the least tardy, as far as a search finds it.
#[tactic(auto, using(crate::proofs::PlanLemmas::refused_search))]
fn plan_timely<W: Watcher>(
    alloc: Global,
    week: &Week,
    conflicts: u64,
    watcher: &mut W,
) -> Result<WeekPlan, PlanFault>
    requires { latest week.now ≤ LATEST_COST }
    ensures plan { IfOk result (spec.IsPlanned goals.Tardiness week.now) }
    ensures refused { IfErr result (spec.IsNoPlan conflicts week.now) }
    ensures told { HearsNothing (W.was_told watcher.old) (W.was_told watcher.new) }
{
    let greatest = LATEST_COST - latest_due(week);
    let solved = solve_tardiness(alloc, week, conflicts, watcher)?;
    match solved.answer {
        TardyAnswer::Tardy {
            starts,
            late,
            least,
        } => {
            let lateness = Lateness { late, least };
            plan_tighter(alloc, week, &starts, lateness, conflicts, watcher)
        }
        TardyAnswer::NotOnTime => Err(refuted(week, solved.limit, greatest)),
        TardyAnswer::NotKnown { .. } => Err(PlanFault::NotFound),
    }
}

// Returns a plan of a week without an overload.
fn plan_for<W: Watcher>(
    alloc: Global,
    goal: Goal,
    week: &Week,
    conflicts: u64,
    watcher: &mut W,
) -> Result<WeekPlan, PlanFault>
    ensures plan { IfOk result (spec.IsPlanned goal week.now) }
    ensures refused { IfErr result (spec.IsNoPlan conflicts week.now) }
    ensures told { HearsNothing (W.was_told watcher.old) (W.was_told watcher.new) }
{
    match goal {
        Goal::Makespan => plan_shortest(alloc, week, conflicts, watcher),
        Goal::Tardiness => {
            if latest_due(week) > LATEST_COST {
                return Err(PlanFault::NotFound);
            }
            plan_timely(alloc, week, conflicts, watcher)
        }
    }
}

/// Returns the plan of a week for a goal that a search with at most so many conflicts finds, and
/// the lower bound that it proves for all plans. For [`Goal::Tardiness`] there are two such
/// searches, and no plan is found if a due date is after 1,000,000,000.
pub fn plan_week<W: Watcher>(
    alloc: Global,
    goal: Goal,
    week: &Week,
    conflicts: u64,
    watcher: &mut W,
) -> Result<WeekPlan, PlanFault>
    ensures plan { IfOk result (spec.IsPlanned goal week.now) }
    ensures refused { IfErr result (spec.IsNoPlan conflicts week.now) }
    ensures told { HearsNothing (W.was_told watcher.old) (W.was_told watcher.new) }
{
    match first_overload(week) {
        Some(overload) => Err(PlanFault::Overload(overload)),
        None => plan_for(alloc, goal, week, conflicts, watcher),
    }
}
