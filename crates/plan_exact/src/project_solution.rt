//! Best schedules of projects.

ghost use Rattle.std.specs.Prelude.{◌≡◌, IfOk, IfErr, IsErrOf};
ghost use Rattle.plan_sgs.specs.Problem.{IsActive, IsShortest, makespan};
ghost use Rattle.plan_sgs.specs.Instances.{IsInstance, problem_of};
ghost use Rattle.plan_sgs.specs.Rules.{IsNumberedList};
ghost use Rattle.plan_exact.specs.Solutions.{IsBudget};
ghost use Rattle.plan_exact.specs.ProjectSolutions as spec;
ghost use Rattle.plan_exact.specs.declared.answer.Kind.TheVariants.{Optimal};

use crate::shop_solution::GREATEST_BUDGET;
use crate::{Answer, CountedProjectTree, ExactFault, Solved, search};
use plan_sgs::{Instance, Rule, Schedule, SgsFault, serial, serial_list};
use std::alloc::{AllocError, Global};

/// The greatest number of activities of a project that is searched.
pub const MOST_SEARCHED_ACTIVITIES: usize = 40;

// Returns the schedule from which the search starts.
fn initial_schedule(alloc: Global, instance: &Instance) -> Result<Schedule, AllocError>
    ensures { IfOk result (spec.IsInitial instance.now) }
{
    let Ok(schedule) = serial(alloc, instance, Rule::LatestFinish) else {
        return Err(AllocError);
    };
    Ok(schedule)
}

// Returns the schedule of a word that places all activities.
fn schedule_by(alloc: Global, instance: &Instance, word: &[u32]) -> Result<Schedule, AllocError>
    requires { IsNumberedList (problem_of instance.now) word.now }
    ensures { IfOk result (spec.IsScheduleBy instance.now word.now) }
{
    match serial_list(alloc, instance, word) {
        Ok(schedule) => Ok(schedule),
        Err(SgsFault::NoMemory) => Err(AllocError),
        Err(_) => unreachable!(),
    }
}

// Searches within a budget. Returns the schedule of the word that the search finds, or the initial
// schedule.
fn solution_of(alloc: Global, instance: &Instance, budget: u64) -> Result<Solved, AllocError>
    requires instance { IsInstance instance.now }
    requires few { spec.HasFewActivities instance.now }
    requires allowed { IsBudget budget }
    ensures { IfOk result (spec.IsProjectSolution instance.now budget) }
{
    let initial = initial_schedule(alloc, instance)?;
    let mut tree = CountedProjectTree::new(alloc, instance)?;
    let Answer {
        kind,
        value: _,
        word,
    } = search(alloc, &mut tree, initial.makespan, budget)?;
    let schedule = match word {
        Some(word) => schedule_by(alloc, instance, &word)?,
        None => initial,
    };
    Ok(Solved { kind, schedule })
}

/// Returns the best schedule of a project that a search finds within a budget of 1–200,000 visited
/// words. The search is branch and bound over the precedence tree (Patterson, Słowiński, Talbot and
/// Węglarz 1989; Sprecher, "Scheduling resource-constrained projects competitively at modest memory
/// requirements", Management Science 46, 2000). Serial generation places each activity of a word.
/// The search is depth-first in the order of the letters and starts from the schedule of the rule
/// `lft`.
///
/// Fails with [`ExactFault::TooLarge`] if the project has more than 40 activities, else with
/// [`ExactFault::BadBudget`] if the budget is not from 1 to 200,000. Any call can fail with
/// [`ExactFault::NoMemory`].
pub fn solve_project(alloc: Global, instance: &Instance, budget: u64) -> Result<Solved, ExactFault>
    ensures solution { IfOk result (spec.IsProjectSolution instance.now budget) }
    // An optimal answer has the least makespan of all feasible lists of starts.
    ensures shortest { IfOk result (λ solved.
        solved.kind ≡ Optimal → IsShortest (problem_of instance.now) solved.schedule.starts.items) }
    ensures active { IfOk result (λ solved.
        IsActive (problem_of instance.now) solved.schedule.starts.items) }
    ensures makespan { IfOk result (λ solved. solved.schedule.makespan
        ≡ makespan (problem_of instance.now) solved.schedule.starts.items) }
    ensures refused { IfErr result (spec.RefusesProject instance.now budget) }
    // An invalid call allocates nothing.
    ensures early { IsErrOf result ExactFault.NoMemory → spec.HasFewActivities instance.now
        × IsBudget budget }
{
    if instance.network().len() > MOST_SEARCHED_ACTIVITIES {
        return Err(ExactFault::TooLarge);
    }
    if budget == 0 || budget > GREATEST_BUDGET {
        return Err(ExactFault::BadBudget);
    }
    Ok(solution_of(alloc, instance, budget)?)
}
