//! Best schedules of job shops.

ghost use Rattle.std.specs.Prelude.{◌≡◌, IfOk, IfErr, IsErrOf};
ghost use Rattle.plan_sgs.specs.Problem.{IsActive, IsShortest, makespan};
ghost use Rattle.plan_shop.specs.Shop.{IsShop, problem_of};
ghost use Rattle.plan_exact.specs.Solutions.{IsSolution, RefusesSolving, HasFewSteps, IsBudget};
ghost use Rattle.plan_exact.specs.Solutions.{IsFullWord, IsScheduleBy, initial_word};
ghost use Rattle.plan_exact.specs.declared.answer.Kind.TheVariants.{Optimal};

use crate::{Answer, CountedTree, ExactFault, Kind, search};
use plan_sgs::Schedule;
use plan_shop::{Shop, ShopRule, ShopTree, giffler};
use std::alloc::{AllocError, Global};

/// The greatest number of steps of a shop that is searched.
pub const MOST_STEPS: u32 = 100;

/// The greatest number of words that a search may visit.
pub const GREATEST_BUDGET: u64 = 200_000;

/// The best schedule of a search, and whether it is known to be a shortest one. For a job shop the
/// starts are in flat order, for a project in the order of the activities.
#[derive(Debug, Drop)]
pub struct Solved {
    pub kind: Kind,
    pub schedule: Schedule,
}

// Returns the schedule from which the search starts.
fn initial_schedule(alloc: Global, shop: &Shop) -> Result<Schedule, AllocError>
    ensures { IfOk result (IsScheduleBy shop.now (initial_word shop.now)) }
{
    let Ok(schedule) = giffler(alloc, shop, ShopRule::MostWorkRemaining) else {
        return Err(AllocError);
    };
    Ok(schedule)
}

// Returns the schedule of a word that places all steps.
fn schedule_by(alloc: Global, shop: &Shop, word: &[u32]) -> Result<Schedule, AllocError>
    requires { IsFullWord shop.now word.now }
    ensures { IfOk result (IsScheduleBy shop.now word.now) }
{
    let mut tree = ShopTree::new(alloc, shop)?;
    for letter in word {
        tree.push(*letter)?;
    }
    tree.schedule(alloc)
}

// Searches within a budget. Returns the schedule of the word that the search finds, or the initial
// schedule.
fn solution_of(alloc: Global, shop: &Shop, budget: u64) -> Result<Solved, AllocError>
    requires shop { IsShop shop.now }
    requires few { HasFewSteps shop.now }
    requires allowed { IsBudget budget }
    ensures { IfOk result (IsSolution shop.now budget) }
{
    let initial = initial_schedule(alloc, shop)?;
    let mut tree = CountedTree::new(alloc, shop)?;
    let Answer {
        kind,
        value: _,
        word,
    } = search(alloc, &mut tree, initial.makespan, budget)?;
    let schedule = match word {
        Some(word) => schedule_by(alloc, shop, &word)?,
        None => initial,
    };
    Ok(Solved { kind, schedule })
}

/// Returns the best schedule of a shop that a search finds within a budget of 1–200,000 visited
/// words. The search is branch and bound over the words that generate active schedules (Giffler and
/// Thompson 1960). Its bounds use the heads and tails of one machine (Brucker, Jurisch and Sievers,
/// "A branch and bound algorithm for the job-shop scheduling problem", Discrete Applied Mathematics
/// 49, 1994). The search is depth-first in the order of the letters and starts from the schedule of
/// the rule `mwkr`.
///
/// Fails with [`ExactFault::TooLarge`] if the shop has more than 100 steps, else with
/// [`ExactFault::BadBudget`] if the budget is not from 1 to 200,000. Any call can fail with
/// [`ExactFault::NoMemory`].
pub fn solve_shop(alloc: Global, shop: &Shop, budget: u64) -> Result<Solved, ExactFault>
    ensures solution { IfOk result (IsSolution shop.now budget) }
    // An optimal answer has the least makespan of all feasible lists of starts.
    ensures shortest { IfOk result (λ solved.
        solved.kind ≡ Optimal → IsShortest (problem_of shop.now) solved.schedule.starts.items) }
    ensures active { IfOk result (λ solved.
        IsActive (problem_of shop.now) solved.schedule.starts.items) }
    ensures makespan { IfOk result (λ solved.
        solved.schedule.makespan ≡ makespan (problem_of shop.now) solved.schedule.starts.items) }
    ensures refused { IfErr result (RefusesSolving shop.now budget) }
    // An invalid call allocates nothing.
    ensures early { IsErrOf result ExactFault.NoMemory → HasFewSteps shop.now × IsBudget budget }
{
    if shop.jobs() * shop.machines() > MOST_STEPS {
        return Err(ExactFault::TooLarge);
    }
    if budget == 0 || budget > GREATEST_BUDGET {
        return Err(ExactFault::BadBudget);
    }
    Ok(solution_of(alloc, shop, budget)?)
}
