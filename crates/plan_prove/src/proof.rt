//! Proofs of optima: a schedule and a lower bound, as close as the number of nodes allows.

ghost use Rattle.std.specs.Prelude.{◌≡◌, ◌≤◌, ◌⊎◌, All, IfOk, IfSome, IfErr, IsErrOf};
ghost use Rattle.plan_sgs.specs.Problem.{IsActive, IsShortest, makespan};
ghost use Rattle.plan_shop.specs.Shop.{problem_of};
ghost use Rattle.plan_prove.specs.Progress.{HearsTruth};
ghost use Rattle.plan_prove.specs.Proofs as spec;

use crate::course::Course;
use crate::fault::ProveFault;
use crate::search::Search;
use crate::watcher::{Unwatched, Watcher};
use plan_active::shop_bound;
use plan_exact::{ExactFault, GREATEST_BUDGET, solve_shop};
use plan_sgs::Schedule;
use plan_shop::{Shop, ShopRule, giffler};
use std::alloc::{AllocError, Global};
use std::mem;

/// The greatest number of nodes of a search.
pub const MOST_NODES: u64 = 1_000_000_000;

/// A schedule of a job shop and a lower bound of all makespans. If its makespan is the lower bound,
/// the schedule is proved to be a shortest one.
#[derive(Debug, Drop)]
pub struct Proof {
    /// Starts in flat order.
    pub schedule: Schedule,
    /// A lower bound: no feasible schedule has a smaller makespan.
    pub lower: u64,
    /// The number of visited nodes.
    pub nodes: u64,
}

// Returns the schedule of a rule.
fn by_rule(alloc: Global, shop: &Shop, rule: ShopRule) -> Result<Schedule, AllocError>
    ensures { IfOk result (spec.IsActiveSchedule shop.now) }
{
    let Ok(schedule) = giffler(alloc, shop, rule) else {
        return Err(AllocError);
    };
    Ok(schedule)
}

// Returns the shorter one of two schedules.
fn shorter(one: Schedule, other: Schedule) -> Schedule
    ensures { (result ≡ one) ⊎ (result ≡ other) }
{
    if other.makespan < one.makespan {
        other
    } else {
        one
    }
}

// Returns the shortest schedule of the rules.
fn by_rules(alloc: Global, shop: &Shop) -> Result<Schedule, AllocError>
    ensures { IfOk result (spec.IsActiveSchedule shop.now) }
{
    let most_work = by_rule(alloc, shop, ShopRule::MostWorkRemaining)?;
    let first_come = by_rule(alloc, shop, ShopRule::FirstCome)?;
    let shortest_time = by_rule(alloc, shop, ShopRule::ShortestTime)?;
    Ok(shorter(shorter(most_work, first_come), shortest_time))
}

// Returns the schedule of a search of words, or `None` if the shop is too large for it. Only the
// schedule is used, not what that search proves.
fn by_words(alloc: Global, shop: &Shop) -> Result<Option<Schedule>, AllocError>
    ensures { IfOk result (λ found. IfSome found (spec.IsActiveSchedule shop.now)) }
{
    match solve_shop(alloc, shop, GREATEST_BUDGET) {
        Ok(solved) => Ok(Some(solved.schedule)),
        Err(ExactFault::NoMemory) => Err(AllocError),
        Err(_) => Ok(None),
    }
}

// Returns the schedule before the search: the shortest of the rules and of a search of words.
fn initial(alloc: Global, shop: &Shop) -> Result<Schedule, AllocError>
    ensures { IfOk result (spec.IsActiveSchedule shop.now) }
{
    let schedule = by_rules(alloc, shop)?;
    match by_words(alloc, shop)? {
        Some(found) => Ok(shorter(found, schedule)),
        None => Ok(schedule),
    }
}

// Returns the proof before the search: that schedule, and 0 as the lower bound.
fn first_proof(alloc: Global, shop: &Shop) -> Result<Proof, AllocError>
    ensures { IfOk result (spec.IsProofOf shop.now) }
{
    Ok(Proof {
        schedule: initial(alloc, shop)?,
        lower: 0,
        nodes: 0,
    })
}

// Fails if a number of nodes isn't valid.
fn check(nodes: u64) -> Result<(), ProveFault>
    ensures allowed { IfOk result (λ _. spec.IsNodeLimit nodes) }
    ensures refused { IfErr result (λ fault.
        (fault ≡ ProveFault.BadNodes) × (spec.IsNodeLimit nodes → ⊥)) }
{
    if nodes == 0 || nodes > MOST_NODES {
        return Err(ProveFault::BadNodes);
    }
    Ok(())
}

/// Searches at most `nodes` nodes. Returns the shortest schedule of the shop that the search finds
/// and the greatest lower bound of all makespans that it proves.
///
/// Fails with [`ProveFault::BadNodes`] if the number of nodes is not from 1 to 1,000,000,000. Any
/// call can fail with [`ProveFault::NoMemory`].
pub fn prove(alloc: Global, shop: &Shop, nodes: u64) -> Result<Proof, ProveFault>
    ensures active { IfOk result (λ proof.
        IsActive (problem_of shop.now) proof.schedule.starts.items) }
    ensures makespan { IfOk result (λ proof.
        proof.schedule.makespan ≡ makespan (problem_of shop.now) proof.schedule.starts.items) }
    // No feasible schedule has a smaller makespan.
    ensures lower { IfOk result (λ proof. spec.IsLowerBound shop.now proof.lower) }
    ensures below { IfOk result (λ proof. proof.lower ≤ proof.schedule.makespan) }
    // No start is after 10,000,000, so all starts can be printed.
    ensures within { IfOk result (λ proof. All (λ t. t ≤ 10000000) proof.schedule.starts.items) }
    ensures proved { IfOk result (λ proof. proof.lower ≡ proof.schedule.makespan
        → IsShortest (problem_of shop.now) proof.schedule.starts.items) }
    ensures nodes { IfOk result (λ proof. proof.nodes ≤ nodes) }
    ensures allowed { IfOk result (λ _. spec.IsNodeLimit nodes) }
    ensures refused { IfErr result (spec.RefusesProving nodes) }
    // An invalid call allocates nothing.
    ensures early { IsErrOf result ProveFault.NoMemory → spec.IsNodeLimit nodes }
{
    prove_watched(alloc, shop, nodes, &mut Unwatched)
}

/// Does the same as [`prove`], and reports its progress to a watcher every 1,000 nodes. The watcher
/// can end the search.
pub fn prove_watched<W: Watcher>(
    alloc: Global,
    shop: &Shop,
    nodes: u64,
    watcher: &mut W,
) -> Result<Proof, ProveFault>
    ensures active { IfOk result (λ proof.
        IsActive (problem_of shop.now) proof.schedule.starts.items) }
    ensures makespan { IfOk result (λ proof.
        proof.schedule.makespan ≡ makespan (problem_of shop.now) proof.schedule.starts.items) }
    // No feasible schedule has a smaller makespan.
    ensures lower { IfOk result (λ proof. spec.IsLowerBound shop.now proof.lower) }
    ensures below { IfOk result (λ proof. proof.lower ≤ proof.schedule.makespan) }
    // No start is after 10,000,000, so all starts can be printed.
    ensures within { IfOk result (λ proof. All (λ t. t ≤ 10000000) proof.schedule.starts.items) }
    ensures proved { IfOk result (λ proof. proof.lower ≡ proof.schedule.makespan
        → IsShortest (problem_of shop.now) proof.schedule.starts.items) }
    ensures nodes { IfOk result (λ proof. proof.nodes ≤ nodes) }
    ensures allowed { IfOk result (λ _. spec.IsNodeLimit nodes) }
    ensures refused { IfErr result (spec.RefusesProving nodes) }
    // An invalid call allocates nothing.
    ensures early { IsErrOf result ProveFault.NoMemory → spec.IsNodeLimit nodes }
    // All reports to the watcher are true of the shop, even if the search fails.
    ensures told { HearsTruth shop.now nodes (W.was_told watcher.old) (W.was_told watcher.new) }
{
    check(nodes)?;
    let found = proof_by_rules(alloc, shop, nodes, watcher);
    watcher.end();
    Ok(found?)
}

/// Does the same as [`prove_watched`], and starts from the schedule and the lower bound of a proof
/// instead of those of the priority rules. It continues the course of earlier calls, and stores how
/// far it comes.
pub fn prove_from<W: Watcher>(
    alloc: Global,
    shop: &Shop,
    known: Proof,
    nodes: u64,
    course: &mut Course,
    watcher: &mut W,
) -> Result<Proof, ProveFault>
    requires { spec.IsProofOf shop.now known }
    ensures active { IfOk result (λ proof.
        IsActive (problem_of shop.now) proof.schedule.starts.items) }
    ensures makespan { IfOk result (λ proof.
        proof.schedule.makespan ≡ makespan (problem_of shop.now) proof.schedule.starts.items) }
    // No feasible schedule has a smaller makespan.
    ensures lower { IfOk result (λ proof. spec.IsLowerBound shop.now proof.lower) }
    ensures below { IfOk result (λ proof. proof.lower ≤ proof.schedule.makespan) }
    // No start is after 10,000,000, so all starts can be printed.
    ensures within { IfOk result (λ proof. All (λ t. t ≤ 10000000) proof.schedule.starts.items) }
    ensures proved { IfOk result (λ proof. proof.lower ≡ proof.schedule.makespan
        → IsShortest (problem_of shop.now) proof.schedule.starts.items) }
    ensures nodes { IfOk result (λ proof. proof.nodes ≤ nodes) }
    ensures allowed { IfOk result (λ _. spec.IsNodeLimit nodes) }
    ensures refused { IfErr result (spec.RefusesProving nodes) }
    // An invalid call allocates nothing.
    ensures early { IsErrOf result ProveFault.NoMemory → spec.IsNodeLimit nodes }
    // It is no worse than the known proof.
    ensures no_worse { IfOk result (spec.IsNoWorse known) }
    // All reports to the watcher are true of the shop, even if the search fails.
    ensures told { HearsTruth shop.now nodes (W.was_told watcher.old) (W.was_told watcher.new) }
{
    check(nodes)?;
    let found = proof_of(alloc, shop, known, nodes, course, watcher);
    watcher.end();
    Ok(found?)
}

// Returns the proof of a search of at most `nodes` nodes that starts from the priority rules. Its
// lower bound is at least the one that needs no search.
fn proof_by_rules<W: Watcher>(
    alloc: Global,
    shop: &Shop,
    nodes: u64,
    watcher: &mut W,
) -> Result<Proof, AllocError>
    ensures proof { IfOk result (spec.IsProofOf shop.now) }
    ensures nodes { IfOk result (λ proof. proof.nodes ≤ nodes) }
    ensures told { HearsTruth shop.now nodes (W.was_told watcher.old) (W.was_told watcher.new) }
{
    let simple = shop_bound(alloc, shop)?;
    let first = first_proof(alloc, shop)?;
    let mut proof = proof_of(alloc, shop, first, nodes, &mut Course::new(alloc), watcher)?;
    proof.lower = proof.lower.max(simple);
    Ok(proof)
}

// Returns the proof of a search of at most `nodes` nodes that starts from a proof and continues a
// course.
fn proof_of<W: Watcher>(
    alloc: Global,
    shop: &Shop,
    known: Proof,
    nodes: u64,
    course: &mut Course,
    watcher: &mut W,
) -> Result<Proof, AllocError>
    requires { spec.IsProofOf shop.now known }
    ensures proof { IfOk result (spec.IsProofOf shop.now) }
    ensures no_worse { IfOk result (spec.IsNoWorse known) }
    ensures nodes { IfOk result (λ proof. proof.nodes ≤ nodes) }
    ensures told { HearsTruth shop.now nodes (W.was_told watcher.old) (W.was_told watcher.new) }
{
    let taken = mem::replace(course, Course::new(alloc));
    let mut search = Search::new(alloc, shop, known, nodes, taken)?;
    search.run(alloc, shop, watcher)?;
    search.course.weights = mem::replace(&mut search.queue.weights, Vec::new(alloc));
    *course = mem::replace(&mut search.course, Course::new(alloc));
    let mut proof = search.proof;
    proof.nodes = search.most - search.left;
    Ok(proof)
}
