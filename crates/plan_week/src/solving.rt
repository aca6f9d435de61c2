//! The search for the shortest plan of a week.

ghost use Rattle.std.specs.Prelude.{◌≡◌, ◌≤◌, min, IfOk, IfErr};
ghost use Rattle.plan_solve.specs.Progress.{HearsNothing};
ghost use Rattle.plan_solve.specs.Solutions.{RefusesSolving};
ghost use Rattle.plan_week.specs.WeekAnswers as spec;

use crate::answer::{SolvedWeek, week_answer};
use crate::input::input_of;
use crate::limit::limit_of;
use crate::week::Week;
use plan_solve::{LATEST_COST, SolveFault, Watcher, first_starts, solve_plan_watched};
use std::alloc::Global;

/// Returns the shortest plan of a week that a search with at most so many conflicts finds, and what
/// it proves of all plans.
///
/// Refused with [`SolveFault::BadConflicts`] if the number of conflicts is not from 1 to
/// 1,000,000,000. Out of memory can replace any result.
pub fn solve_week<W: Watcher>(
    alloc: Global,
    week: &Week,
    conflicts: u64,
    watcher: &mut W,
) -> Result<SolvedWeek, SolveFault>
    ensures answer { IfOk result (λ solved. spec.IsAnswerOf week.now solved.limit solved.answer) }
    ensures limit { IfOk result (λ solved. solved.limit ≡ min (spec.limit_of week.now) LATEST_COST) }
    ensures conflicts { IfOk result (λ solved. solved.conflicts ≤ conflicts) }
    ensures refused { IfErr result (RefusesSolving conflicts) }
    ensures told { HearsNothing (W.was_told watcher.old) (W.was_told watcher.new) }
{
    let input = input_of(alloc, week)?;
    let limit = limit_of(week);
    let proposal = first_starts(alloc, &input, limit)?;
    let solved = solve_plan_watched(alloc, input, limit, proposal, conflicts, watcher)?;
    Ok(SolvedWeek {
        answer: week_answer(solved.answer),
        limit,
        conflicts: solved.conflicts,
    })
}
