//! The search for the least tardy plan of a week.

ghost use Rattle.std.specs.Prelude.{◌≡◌, ◌≤◌, ◌-◌, min, IfOk, IfErr};
ghost use Rattle.plan_solve.specs.Progress.{HearsNothing};
ghost use Rattle.plan_solve.specs.Solutions.{RefusesSolving};
ghost use Rattle.plan_week.specs.Tardiness as dues;
ghost use Rattle.plan_week.specs.TardinessAnswers as spec;
ghost use Rattle.plan_week.specs.WeekAnswers.{limit_of};

use crate::dues::{latest_due, tardiness_input};
use crate::week::Week;
use plan_solve::{LATEST_COST, PlanAnswer, SolveFault, Watcher, first_starts, solve_plan_watched};
use std::alloc::Global;

/// The result of a search for the least tardy plan of a week.
#[derive(Debug, Drop)]
pub enum TardyAnswer {
    /// A plan with its greatest tardiness, and a lower bound of that of all plans.
    Tardy {
        starts: Vec<u32>,
        late: u32,
        least: u32,
    },
    /// There is no plan that ends by the limit.
    NotOnTime,
    /// No plan was found. A lower bound of the greatest tardiness of all plans.
    NotKnown {
        least: u32,
    },
}

/// An answer, the limit of the search, and the number of conflicts that it took.
#[derive(Debug, Drop)]
pub struct SolvedTardiness {
    pub answer: TardyAnswer,
    pub limit: u32,
    pub conflicts: u64,
}

// Returns the answer of a search over costs as one over tardiness.
fn tardy_answer(latest: u32, answer: PlanAnswer) -> TardyAnswer
    ensures { spec.IsSameTardiness latest answer result }
{
    match answer {
        PlanAnswer::Optimal { starts, cost } => {
            let late = cost.saturating_sub(latest);
            TardyAnswer::Tardy {
                starts,
                late,
                least: late,
            }
        }
        PlanAnswer::Between {
            starts,
            cost,
            lower,
        } => TardyAnswer::Tardy {
            starts,
            late: cost.saturating_sub(latest),
            least: lower.saturating_sub(latest),
        },
        PlanAnswer::NoPlan => TardyAnswer::NotOnTime,
        PlanAnswer::Unknown { lower } => TardyAnswer::NotKnown {
            least: lower.saturating_sub(latest),
        },
    }
}

/// Returns the least tardy plan of a week that a search with at most so many conflicts finds, and
/// the lower bound that it proves for all plans. No due date is after 1,000,000,000.
///
/// Refused with [`SolveFault::BadConflicts`] if the number of conflicts is not from 1 to
/// 1,000,000,000. Out of memory can replace any result.
pub fn solve_tardiness<W: Watcher>(
    alloc: Global,
    week: &Week,
    conflicts: u64,
    watcher: &mut W,
) -> Result<SolvedTardiness, SolveFault>
    requires { dues.latest_due week.now ≤ LATEST_COST }
    ensures answer { IfOk result (λ solved.
        spec.IsTardyAnswerOf week.now solved.limit solved.answer) }
    ensures limit { IfOk result (λ solved. solved.limit
        ≡ min (limit_of week.now) (LATEST_COST - dues.latest_due week.now)) }
    ensures conflicts { IfOk result (λ solved. solved.conflicts ≤ conflicts) }
    ensures refused { IfErr result (RefusesSolving conflicts) }
    ensures told { HearsNothing (W.was_told watcher.old) (W.was_told watcher.new) }
{
    let latest = latest_due(week);
    let limit = crate::limit::limit_of(week).min(LATEST_COST - latest);
    let input = tardiness_input(alloc, week)?;
    let horizon = limit + latest;
    let proposal = first_starts(alloc, &input, horizon)?;
    let solved = solve_plan_watched(alloc, input, horizon, proposal, conflicts, watcher)?;
    Ok(SolvedTardiness {
        answer: tardy_answer(latest, solved.answer),
        limit,
        conflicts: solved.conflicts,
    })
}
