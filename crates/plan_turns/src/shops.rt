//! Searches of a job shop in turns: by moves (plan_local), by conflicts (plan_solve) and by nodes
//! (plan_prove).

ghost use Rattle.std.specs.Prelude.{◌≡◌, ◌≤◌, ◌<◌, IfOk};
ghost use Rattle.plan_shop.specs.Shop.{problem_of};
ghost use Rattle.plan_prove.specs.Proofs.{IsNodeLimit, IsProofOf};
ghost use Rattle.plan_solve.specs.Sessions.{IsSessionOf};
ghost use Rattle.plan_solve.specs.Solutions.{IsActiveShopSchedule, IsConflictLimit, IsKnown};

use crate::moves::Moves;
use plan_prove::{Course, MOST_NODES, Proof, ProveFault, Watcher as ProofWatcher, prove_from};
use plan_shop::Shop;
use plan_solve::{
    Log, Session, SolveFault, Solved, Watcher as SolveWatcher, rule_solution, shop_session,
    solve_shop_from,
};
use std::alloc::{AllocError, Global};

/// The least number of nodes of a turn.
const TURN_NODES: u64 = 12_000;

/// The least number of nodes for each conflict of a turn. They take about half as long.
const LEAST_NODES: u64 = 3;

/// The square of the number of jobs, divided by the number of nodes for each conflict. They take
/// about half as long, as measured on shops of 20 to 50 jobs.
const SQUARE_PER_NODE: u64 = 120;

// Returns the schedule and the lower bound of a search as a proof.
fn proof_of(solved: Solved) -> Proof
    ensures schedule { result.schedule ≡ solved.schedule }
    ensures lower { result.lower ≡ solved.lower }
{
    Proof {
        schedule: solved.schedule,
        lower: solved.lower,
        nodes: 0,
    }
}

// Continues a search from another proof, with at most so many conflicts.
fn by_conflicts<V: SolveWatcher, L: Log>(
    alloc: Global,
    shop: &Shop,
    known: Proof,
    session: &mut Session,
    conflicts: u64,
    watcher: &mut V,
    log: &mut L,
) -> Result<Proof, AllocError>
    requires known { IsProofOf shop.now known }
    requires session { IsSessionOf (problem_of shop.now) session.old }
    requires conflicts { conflicts ≤ 1000000000 }
    ensures proof { IfOk result (IsProofOf shop.now) }
    ensures session { IsSessionOf (problem_of shop.now) session.new }
{
    if conflicts == 0 {
        return Ok(known);
    }
    let known = Solved {
        schedule: known.schedule,
        lower: known.lower,
        conflicts: 0,
    };
    match solve_shop_from(alloc, shop, known, session, conflicts, watcher, log) {
        Ok(solved) => Ok(proof_of(solved)),
        Err(SolveFault::NoMemory) => Err(AllocError),
        Err(SolveFault::BadConflicts) => unreachable!(),
    }
}

// Continues a search from another proof, with at most so many nodes, unless the search is over.
fn by_nodes<V: ProofWatcher + SolveWatcher>(
    alloc: Global,
    shop: &Shop,
    mut known: Proof,
    course: &mut Course,
    nodes: u64,
    watcher: &mut V,
) -> Result<Proof, AllocError>
    requires known { IsProofOf shop.now known }
    requires nodes { nodes ≤ 1000000000 }
    ensures proof { IfOk result (IsProofOf shop.now) }
    ensures nodes { IfOk result (λ proof. proof.nodes ≤ nodes) }
{
    if nodes == 0 || is_over(&known, nodes, watcher) {
        known.nodes = 0;
        return Ok(known);
    }
    match prove_from(alloc, shop, known, nodes, course, watcher) {
        Ok(proof) => Ok(proof),
        Err(ProveFault::NoMemory) => Err(AllocError),
        Err(ProveFault::BadNodes) => unreachable!(),
    }
}

// Continues a search by moves from another proof, beside a turn of so many conflicts.
fn by_moves<V: SolveWatcher>(
    alloc: Global,
    shop: &Shop,
    known: Proof,
    moves: &mut Moves,
    conflicts: u64,
    watcher: &mut V,
) -> Result<Proof, AllocError>
    requires { IsProofOf shop.now known }
    ensures { IfOk result (IsProofOf shop.now) }
{
    let (lower, work) = (known.lower, moves.work_of_turn(conflicts));
    Ok(Proof {
        schedule: moves.search(alloc, shop, known.schedule, lower, work, watcher)?,
        lower,
        nodes: 0,
    })
}

// Returns the number of nodes for each conflict.
fn nodes_per_conflict(shop: &Shop) -> u64
    ensures { 0 < result }
{
    let jobs = shop.jobs() as u64;
    LEAST_NODES.max(jobs.saturating_mul(jobs) / SQUARE_PER_NODE)
}

// Returns the number of nodes for so many conflicts.
fn nodes_for(conflicts: u64, ratio: u64) -> u64
    ensures { result ≤ 1000000000 }
{
    conflicts.saturating_mul(ratio).min(MOST_NODES)
}

// Returns the number of nodes after which a turn ends. The last turn takes all that are left.
fn nodes_of_turn(turn: u64, ratio: u64, conflicts: u64) -> u64 {
    if conflicts == 0 {
        u64::MAX
    } else {
        nodes_for(turn, ratio)
    }
}

// Whether nothing is left of the limits, the schedule is a shortest one, or the watcher ends the
// search.
fn is_over<V: SolveWatcher>(proof: &Proof, left: u64, watcher: &mut V) -> bool {
    left == 0 || proof.lower >= proof.schedule.makespan || watcher.is_late()
}

// Searches a shop in turns from a known schedule and lower bound.
fn search_from<V: ProofWatcher + SolveWatcher, L: Log>(
    alloc: Global,
    shop: &Shop,
    known: Solved,
    moves: &mut Moves,
    most: u64,
    watcher: &mut V,
    log: &mut L,
) -> Result<Proof, AllocError>
    requires known { IsKnown (problem_of shop.now) (IsActiveShopSchedule shop.now) known }
    requires most { IsConflictLimit most }
    ensures { IfOk result (IsProofOf shop.now) }
{
    let mut session = shop_session(alloc, shop, &known, log.is_wanted())?;
    let mut course = Course::new(alloc);
    let mut best = proof_of(known);
    let ratio = nodes_per_conflict(shop);
    let (mut conflicts, mut nodes, mut turn) = (most, nodes_for(most, ratio), TURN_NODES / ratio);
    for _turn in 0..most {
        if is_over(&best, conflicts + nodes, watcher) {
            break;
        }
        let part = turn.max(1).min(conflicts);
        best = by_conflicts(alloc, shop, best, &mut session, part, watcher, log)?;
        conflicts -= part;
        course.turn = nodes_of_turn(turn, ratio, conflicts);
        best = by_nodes(alloc, shop, best, &mut course, nodes, watcher)?;
        nodes -= best.nodes;
        turn = TURN_NODES.max(best.nodes) / ratio;
        best = by_moves(alloc, shop, best, moves, turn, watcher)?;
    }
    session.end_log(alloc, &best.schedule, log)?;
    Ok(best)
}

/// Searches a shop in turns, by moves, by conflicts and by nodes. Each search continues where it
/// stopped, from the schedule and the lower bound of the other ones. The search by moves comes
/// first. `most` is the greatest number of conflicts of all turns. The log gets what the search by
/// conflicts proves, and the schedule.
pub fn search_in_turns<V: ProofWatcher + SolveWatcher, L: Log>(
    alloc: Global,
    shop: &Shop,
    most: u64,
    watcher: &mut V,
    log: &mut L,
) -> Result<Proof, AllocError>
    requires { IsConflictLimit most }
    ensures { IfOk result (IsProofOf shop.now) }
{
    let known = rule_solution(alloc, shop)?;
    let mut moves = Moves::new(alloc, shop)?;
    let (lower, work) = (known.lower, moves.first_work());
    let schedule = moves.search(alloc, shop, known.schedule, lower, work, watcher)?;
    let known = Solved {
        schedule,
        lower,
        conflicts: 0,
    };
    if lower >= known.schedule.makespan && !log.is_wanted() {
        return Ok(proof_of(known));
    }
    search_from(alloc, shop, known, &mut moves, most, watcher, log)
}
