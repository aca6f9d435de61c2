//! Plans of least cost for problems with windows, absences and tails.

ghost use Rattle.std.specs.Prelude.{◌≡◌, ◌≤◌, IfOk, IfErr, IsErrOf};
ghost use Rattle.plan_kernel.specs.Plans.{HasSameNumbers};
ghost use Rattle.plan_solve.specs.Progress.{HearsNothing};
ghost use Rattle.plan_solve.specs.PlanAnswers as answers;
ghost use Rattle.plan_solve.specs.Solutions as spec;

use crate::fault::SolveFault;
use crate::plan_orders::plan_orders;
use crate::prover::{Prover, prover_of};
use crate::search::Search;
use crate::sessions::next_clash;
use crate::solutions::check;
use crate::watcher::{Unwatched, Watcher};
use plan_kernel::{Absence, Input, Kernel, LIMIT, Reason, with_orders};
use std::alloc::{AllocError, Global};

/// After how many conflicts the bounds are compared, and a watcher is asked whether the search should
/// end.
const CONFLICTS_BETWEEN: u64 = 64;

/// The greatest horizon.
pub const LATEST_COST: u32 = 1_000_000_000;

/// The outcome of a search for a plan of least cost. A plan has a start for each activity. Its cost
/// is the greatest end of an activity with its tail.
#[derive(Debug, Drop)]
pub enum PlanAnswer {
    /// No plan costs less than this one.
    Optimal {
        starts: Vec<u32>,
        cost: u32,
    },
    /// A plan, and a lower bound of the costs of all plans.
    Between {
        starts: Vec<u32>,
        cost: u32,
        lower: u32,
    },
    /// No plan costs as little as the horizon.
    NoPlan,
    /// No plan was found. A lower bound of the costs of all plans.
    Unknown {
        lower: u32,
    },
}

/// An answer and the number of conflicts that it took.
#[derive(Debug, Drop)]
pub struct SolvedPlan {
    pub answer: PlanAnswer,
    pub conflicts: u64,
}

// Returns the answer of a kernel.
#[tactic(auto, using(crate::proofs::PlanAnswerLemmas::optimal_plan, crate::proofs::PlanAnswerLemmas::bounded_plan, crate::proofs::PlanAnswerLemmas::no_plan))]
fn answer_of(alloc: Global, kernel: &Kernel, horizon: u32) -> Result<PlanAnswer, AllocError>
    ensures { IfOk result (answers.IsAnswerUpTo kernel.now.known.input horizon) }
{
    let (lower, cost) = (kernel.lower_bound(), kernel.upper());
    let Some(best) = kernel.best() else {
        return Ok(if lower > horizon {
            PlanAnswer::NoPlan
        } else {
            PlanAnswer::Unknown { lower }
        });
    };
    let starts = Vec::from_slice(alloc, best)?;
    Ok(if lower >= cost {
        PlanAnswer::Optimal { starts, cost }
    } else {
        PlanAnswer::Between {
            starts,
            cost,
            lower,
        }
    })
}

// Refutes all plans if the bounds of a start exclude each other.
fn refute_start(alloc: Global, prover: &mut Prover, activity: u32) -> Result<(), AllocError>
    ensures { prover.new.kernel.known.input ≡ prover.old.kernel.known.input }
{
    let value = prover.kernel.fact(activity.wrapping_mul(2));
    let left = prover.kernel.fact(activity.wrapping_mul(2).wrapping_add(1));
    if value > LIMIT.saturating_sub(left) && prover.begin(Reason::Start { activity, value })? {
        let _ = prover.keep(alloc)?;
    }
    Ok(())
}

// Refutes all plans if the bounds of some start exclude each other.
fn refute_starts(alloc: Global, prover: &mut Prover) -> Result<(), AllocError>
    ensures { prover.new.kernel.known.input ≡ prover.old.kernel.known.input }
{
    let count = prover.kernel.input().durations.len();
    for activity in 0..(count & 0xffff_ffff) as u32 {
        refute_start(alloc, prover, activity)?;
    }
    Ok(())
}

// Refutes all plans if more of a resource is absent than there is where an absence begins.
fn refute_absence(alloc: Global, prover: &mut Prover, place: usize) -> Result<(), AllocError>
    ensures { prover.new.kernel.known.input ≡ prover.old.kernel.known.input }
{
    let absences = &prover.kernel.input().absences;
    if place >= absences.len() {
        return Ok(());
    }
    let Absence { resource, from, .. } = absences[place];
    let reason = Reason::Energy {
        resource,
        from,
        until: from.saturating_add(1),
        members: &[],
    };
    if prover.begin(reason)? {
        let _ = prover.keep(alloc)?;
    }
    Ok(())
}

// Refutes all plans if more of some resource is absent than there is.
fn refute_absences(alloc: Global, prover: &mut Prover) -> Result<(), AllocError>
    ensures { prover.new.kernel.known.input ≡ prover.old.kernel.known.input }
{
    for place in 0..prover.kernel.input().absences.len() {
        refute_absence(alloc, prover, place)?;
    }
    Ok(())
}

// Whether no plan costs less than the upper bound.
fn is_met(kernel: &Kernel) -> bool {
    kernel.lower_bound() >= kernel.upper()
}

// Returns a search over the plans that cost no more than a horizon, with a first plan if the proposal
// is one.
fn search_of(
    alloc: Global,
    input: Input,
    horizon: u32,
    proposal: Vec<u32>,
) -> Result<Search, AllocError>
    ensures { IfOk result (λ search. HasSameNumbers search.prover.kernel.known.input input) }
{
    let upper = horizon.min(LATEST_COST) + 1;
    let orders = plan_orders(alloc, &input)?;
    let mut kernel = Kernel::below(alloc, with_orders(input, orders), upper)?;
    let _ = kernel.lower(proposal);
    let mut prover = prover_of(alloc, kernel, false)?;
    refute_starts(alloc, &mut prover)?;
    refute_absences(alloc, &mut prover)?;
    Search::new(alloc, prover)
}

// Begins a search. Returns whether there is something to search for.
fn begin(alloc: Global, search: &mut Search) -> Result<bool, AllocError>
    ensures { search.new.prover.kernel.known.input ≡ search.old.prover.kernel.known.input }
{
    if is_met(&search.prover.kernel) || !search.can_search() {
        return Ok(false);
    }
    search.begin(alloc)
}

// Searches until nothing is left, a limit is reached or the watcher ends it. Returns how many
// conflicts there were.
fn search_all<W: Watcher>(
    alloc: Global,
    search: &mut Search,
    conflicts: u64,
    watcher: &mut W,
) -> Result<u64, AllocError>
    ensures input { search.new.prover.kernel.known.input ≡ search.old.prover.kernel.known.input }
    ensures used { IfOk result (λ used. used ≤ conflicts) }
    ensures told { HearsNothing (W.was_told watcher.old) (W.was_told watcher.new) }
{
    if !begin(alloc, search)? {
        return Ok(0);
    }
    for conflict in 0..conflicts {
        let is_asked = conflict % CONFLICTS_BETWEEN == 0;
        if is_asked && (watcher.is_late() || is_met(&search.prover.kernel)) {
            return Ok(conflict);
        }
        let Some(clash) = next_clash(alloc, search, watcher)? else {
            return Ok(conflict);
        };
        if !search.learn(alloc, clash, conflict + 1)? {
            return Ok(conflict + 1);
        }
    }
    Ok(conflicts)
}

// Returns what a search comes to with at most so many conflicts.
#[tactic(auto, using(crate::proofs::PlanAnswerLemmas::same_answer))]
fn solved_plan<W: Watcher>(
    alloc: Global,
    input: Input,
    horizon: u32,
    proposal: Vec<u32>,
    conflicts: u64,
    watcher: &mut W,
) -> Result<SolvedPlan, AllocError>
    ensures answer { IfOk result (λ solved.
        answers.IsAnswerUpTo input horizon solved.answer) }
    ensures conflicts { IfOk result (λ solved. solved.conflicts ≤ conflicts) }
    ensures told { HearsNothing (W.was_told watcher.old) (W.was_told watcher.new) }
{
    let mut search = search_of(alloc, input, horizon, proposal)?;
    let conflicts = search_all(alloc, &mut search, conflicts, watcher)?;
    Ok(SolvedPlan {
        answer: answer_of(alloc, &search.prover.kernel, horizon)?,
        conflicts,
    })
}

/// Returns the plan of least cost that a search with at most so many conflicts finds among those that
/// cost no more than a horizon, and what it proves of all plans.
///
/// `proposal` is a first plan: a start for each activity. If it isn't a plan within the horizon, it
/// is left out. The orders of the input are replaced by those that the search needs. There is no
/// search beyond a cost of 1,000,000,000 or with more than 4,000,000 cells (horizon times
/// resources).
///
/// Refused with [`SolveFault::BadConflicts`] if the number of conflicts is not from 1 to
/// 1,000,000,000. Out of memory can replace any result.
pub fn solve_plan(
    alloc: Global,
    input: Input,
    horizon: u32,
    proposal: Vec<u32>,
    conflicts: u64,
) -> Result<SolvedPlan, SolveFault>
    ensures answer { IfOk result (λ solved.
        answers.IsAnswerUpTo input horizon solved.answer) }
    ensures conflicts { IfOk result (λ solved. solved.conflicts ≤ conflicts) }
    ensures refused { IfErr result (spec.RefusesSolving conflicts) }
    // A refusal takes no memory.
    ensures early { IsErrOf result SolveFault.NoMemory → spec.IsConflictLimit conflicts }
{
    solve_plan_watched(alloc, input, horizon, proposal, conflicts, &mut Unwatched)
}

/// Does the same, and stops if a watcher says that it is late. The watcher isn't told anything.
pub fn solve_plan_watched<W: Watcher>(
    alloc: Global,
    input: Input,
    horizon: u32,
    proposal: Vec<u32>,
    conflicts: u64,
    watcher: &mut W,
) -> Result<SolvedPlan, SolveFault>
    ensures answer { IfOk result (λ solved.
        answers.IsAnswerUpTo input horizon solved.answer) }
    ensures conflicts { IfOk result (λ solved. solved.conflicts ≤ conflicts) }
    ensures refused { IfErr result (spec.RefusesSolving conflicts) }
    // A refusal takes no memory.
    ensures early { IsErrOf result SolveFault.NoMemory → spec.IsConflictLimit conflicts }
    ensures told { HearsNothing (W.was_told watcher.old) (W.was_told watcher.new) }
{
    check(conflicts)?;
    let solved = solved_plan(alloc, input, horizon, proposal, conflicts, watcher);
    watcher.end();
    Ok(solved?)
}
