//! The result of a search for the shortest plan of a week.

ghost use Rattle.plan_week.specs.WeekAnswers.{IsSameAnswer};

use plan_solve::PlanAnswer;

/// The result of a search for the shortest plan of a week. A plan has an instant for each activity:
/// the start if it is open, today if it has begun, and the end if it is done.
#[derive(Debug, Drop)]
pub enum WeekAnswer {
    /// No plan is shorter than this one.
    Shortest {
        starts: Vec<u32>,
        makespan: u32,
    },
    /// A plan, and a lower bound of the makespans of all plans.
    Bounded {
        starts: Vec<u32>,
        makespan: u32,
        lower: u32,
    },
    /// There is no plan that ends by the limit.
    Impossible,
    /// No plan was found. A lower bound of the makespans of all plans.
    NotFound {
        lower: u32,
    },
}

/// An answer, the limit of the search, and the number of conflicts that it took.
#[derive(Debug, Drop)]
pub struct SolvedWeek {
    pub answer: WeekAnswer,
    pub limit: u32,
    pub conflicts: u64,
}

/// Returns the answer of a search over the plans of a problem as one of a week.
pub fn week_answer(answer: PlanAnswer) -> WeekAnswer
    ensures { IsSameAnswer answer result }
{
    match answer {
        PlanAnswer::Optimal { starts, cost } => WeekAnswer::Shortest {
            starts,
            makespan: cost,
        },
        PlanAnswer::Between {
            starts,
            cost,
            lower,
        } => WeekAnswer::Bounded {
            starts,
            makespan: cost,
            lower,
        },
        PlanAnswer::NoPlan => WeekAnswer::Impossible,
        PlanAnswer::Unknown { lower } => WeekAnswer::NotFound { lower },
    }
}
