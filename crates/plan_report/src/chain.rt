//! A chain of activities without slack through a schedule.

ghost use Rattle.std.specs.Prelude.{◌≡◌, ◌≢◌, ℕ, ◌+◌, ◌-◌, ◌≤◌, ◌<◌, ◌↔◌, ◌++◌, ◌∷◌, [], List};
ghost use Rattle.std.specs.Prelude.{length, get_or, set, All, IfOk, OnOk, IfSome, IfNone};
ghost use Rattle.std.specs.Prelude.{IsTrue, true};
ghost use Rattle.plan_net.specs.Network.{IsActivity, count_of};
ghost use Rattle.plan_profile.specs.Usage.{IsInTime};
ghost use Rattle.plan_sgs.specs.Instances.{problem_of};
ghost use Rattle.plan_sgs.specs.Problem as problem;
ghost use Rattle.plan_sgs.specs.Problem.{Problem, count};
ghost use Rattle.plan_report.specs.Chain.{AllMarked, AreAllReached, IsChain, IsClosed};
ghost use Rattle.plan_report.specs.Chain.{IsLinked, IsNext};
ghost use Rattle.plan_report.specs.Chain.{IsSearch, IsTightArc, Keeps, Leads, NoChain, TakesOver};
ghost use Rattle.plan_report.specs.Chain.{ShareResource, target_at};
ghost use Rattle.plan_report.specs.Chain as spec;

use crate::makespans::makespan_of;
use plan_sgs::Instance;
use std::alloc::{AllocError, Global};

// Tests whether two activities need a resource.
fn share_resource(instance: &Instance, i: u32, j: u32) -> bool
    requires before { IsActivity instance.now.project.network i }
    requires after { IsActivity instance.now.project.network j }
    ensures { IsTrue result ↔ ShareResource (problem_of instance.now) (i - 1) (j - 1) }
{
    let before = instance.needs(i);
    let after = instance.needs(j);
    for k in 0..before.len() {
        if before[k] > 0 && after[k] > 0 {
            return true;
        }
    }
    false
}

// Tests whether activity `j` starts as early as an arc from `i` lets it.
fn is_tight(instance: &Instance, starts: &[u64], i: u32, j: u32) -> bool
    requires whole { length starts.now ≡ count_of instance.now.project.network }
    requires limit { All IsInTime starts.now }
    requires before { IsActivity instance.now.project.network i }
    requires after { IsActivity instance.now.project.network j }
    ensures { IsTrue result ↔ IsTightArc (problem_of instance.now) starts.now (i - 1) (j - 1) }
{
    let network = instance.network();
    let end = starts[i as usize - 1] + network.duration(i);
    match network.lag(i, j) {
        Some(lag) => end + lag == starts[j as usize - 1],
        None => false,
    }
}

// Tests whether activity `j` starts at the end of `i`, both take time, and both need a resource.
fn takes_over(instance: &Instance, starts: &[u64], i: u32, j: u32) -> bool
    requires whole { length starts.now ≡ count_of instance.now.project.network }
    requires limit { All IsInTime starts.now }
    requires before { IsActivity instance.now.project.network i }
    requires after { IsActivity instance.now.project.network j }
    ensures { IsTrue result ↔ TakesOver (problem_of instance.now) starts.now (i - 1) (j - 1) }
{
    let network = instance.network();
    let first = network.duration(i);
    let second = network.duration(j);
    let end = starts[i as usize - 1] + first;
    if first > 0 && second > 0 && end == starts[j as usize - 1] {
        return share_resource(instance, i, j);
    }
    false
}

// Tests whether activity `j` starts when `i` lets it, by an arc or by a resource.
fn is_linked(instance: &Instance, starts: &[u64], i: u32, j: u32) -> bool
    requires whole { length starts.now ≡ count_of instance.now.project.network }
    requires limit { All IsInTime starts.now }
    requires before { IsActivity instance.now.project.network i }
    requires after { IsActivity instance.now.project.network j }
    ensures { IsTrue result ↔ IsLinked (problem_of instance.now) starts.now (i - 1) (j - 1) }
{
    if is_tight(instance, starts, i, j) {
        return true;
    }
    takes_over(instance, starts, i, j)
}

// Tests whether activity `j` lets the target start, or ends the schedule if there is no target.
fn leads(instance: &Instance, starts: &[u64], makespan: u64, target: Option<u32>, j: u32) -> bool
    requires whole { length starts.now ≡ count_of instance.now.project.network }
    requires limit { All IsInTime starts.now }
    requires makespan { makespan ≡ problem.makespan (problem_of instance.now) starts.now }
    requires target { IfSome target (IsActivity instance.now.project.network) }
    requires activity { IsActivity instance.now.project.network j }
    ensures { IsTrue result ↔ Leads (problem_of instance.now) starts.now target (j - 1) }
{
    match target {
        Some(next) => is_linked(instance, starts, j, next),
        None => starts[j as usize - 1] + instance.network().duration(j) == makespan,
    }
}

// Tests whether activity `j` has no mark and no slack, and leads to the target.
fn is_next(
    instance: &Instance,
    starts: &[u64],
    slacks: &[u64],
    makespan: u64,
    marks: &[bool],
    target: Option<u32>,
    j: u32,
) -> bool
    requires whole { length starts.now ≡ count_of instance.now.project.network }
    requires limit { All IsInTime starts.now }
    requires slacks { length slacks.now ≡ count_of instance.now.project.network }
    requires makespan { makespan ≡ problem.makespan (problem_of instance.now) starts.now }
    requires marks { length marks.now ≡ count_of instance.now.project.network }
    requires target { IfSome target (IsActivity instance.now.project.network) }
    requires activity { IsActivity instance.now.project.network j }
    ensures { IsTrue result ↔
        IsNext (problem_of instance.now) starts.now slacks.now marks.now target (j - 1) }
{
    !marks[j as usize - 1]
        && slacks[j as usize - 1] == 0
        && leads(instance, starts, makespan, target, j)
}

// Adds an activity, with the index of its next one, to those that were reached.
fn push_reached(
    marks: &mut Vec<bool>,
    reached: &mut Vec<u32>,
    nexts: &mut Vec<usize>,
    j: u32,
    next: usize,
) -> Result<(), AllocError>
    requires activity { 1 ≤ j }
    requires marks { j - 1 < length marks.old.items }
    ensures marks { OnOk result (marks.new.items ≡ set marks.old.items (j - 1) true) }
    ensures reached { OnOk result (reached.new.items ≡ reached.old.items ++ j ∷ []) }
    ensures nexts { OnOk result (nexts.new.items ≡ nexts.old.items ++ next ∷ []) }
{
    reached.push(j)?;
    nexts.push(next)?;
    marks[j as usize - 1] = true;
    Ok(())
}

// Returns the activity that was reached at an index, if there is an index.
fn target_of(reached: &[u32], at: Option<usize>) -> Option<u32>
    requires { IfSome at (λ m. m < length reached.now) }
    ensures { result ≡ target_at reached.now at }
{
    match at {
        Some(m) => Some(reached[m]),
        None => None,
    }
}

// Returns an index, or else `n`.
fn index_or(at: Option<usize>, n: usize) -> usize
    ensures { result ≡ spec.index_or at n }
{
    match at {
        Some(m) => m,
        None => n,
    }
}

// Adds all activities without slack that end the schedule, or that lead to the activity that was
// reached at an index.
fn reach(
    instance: &Instance,
    starts: &[u64],
    slacks: &[u64],
    at: Option<usize>,
    marks: &mut Vec<bool>,
    reached: &mut Vec<u32>,
    nexts: &mut Vec<usize>,
) -> Result<(), AllocError>
    requires whole { length starts.now ≡ count_of instance.now.project.network }
    requires limit { All IsInTime starts.now }
    requires slacks { length slacks.now ≡ count_of instance.now.project.network }
    requires at { IfSome at (λ m. m < length reached.old.items) }
    requires search { IsSearch (problem_of instance.now) starts.now slacks.now
        marks.old.items reached.old.items nexts.old.items }
    ensures search { OnOk result (IsSearch (problem_of instance.now) starts.now slacks.now
        marks.new.items reached.new.items nexts.new.items) }
    ensures kept { OnOk result
        (Keeps marks.old.items marks.new.items reached.old.items reached.new.items) }
    ensures all { OnOk result (AllMarked (problem_of instance.now) starts.now slacks.now
        marks.new.items (target_at reached.old.items at) (count (problem_of instance.now))) }
{
    let makespan = makespan_of(instance, starts);
    let target = target_of(reached, at);
    for k in 0..instance.network().len() {
        let j = k as u32 + 1;
        if is_next(instance, starts, slacks, makespan, marks, target, j) {
            let next = index_or(at, reached.len());
            push_reached(marks, reached, nexts, j, next)?;
        }
    }
    Ok(())
}

// Returns the marks after the search for the activities that end the schedule.
fn reach_ends(
    alloc: Global,
    instance: &Instance,
    starts: &[u64],
    slacks: &[u64],
    reached: &mut Vec<u32>,
    nexts: &mut Vec<usize>,
) -> Result<Vec<bool>, AllocError>
    requires whole { length starts.now ≡ count_of instance.now.project.network }
    requires limit { All IsInTime starts.now }
    requires slacks { length slacks.now ≡ count_of instance.now.project.network }
    requires none { reached.old.items ≡ [] }
    requires no_nexts { nexts.old.items ≡ [] }
    ensures { IfOk result (λ marks. IsClosed (problem_of instance.now) starts.now slacks.now
        marks.items reached.new.items nexts.new.items 0) }
{
    let mut marks = vec![in alloc; false; instance.network().len()]?;
    reach(instance, starts, slacks, None, &mut marks, reached, nexts)?;
    Ok(marks)
}

// Returns the activities without slack from which a chain leads to the end, each with the index of
// its next one.
fn reach_all(
    alloc: Global,
    instance: &Instance,
    starts: &[u64],
    slacks: &[u64],
) -> Result<(Vec<u32>, Vec<usize>), AllocError>
    requires whole { length starts.now ≡ count_of instance.now.project.network }
    requires limit { All IsInTime starts.now }
    requires slacks { length slacks.now ≡ count_of instance.now.project.network }
    ensures { IfOk result (λ found. AreAllReached (problem_of instance.now) starts.now slacks.now
        found.0.items found.1.items) }
{
    let mut reached = Vec::new(alloc);
    let mut nexts = Vec::new(alloc);
    let mut marks = reach_ends(alloc, instance, starts, slacks, &mut reached, &mut nexts)?;
    for m in 0..instance.network().len() {
        if m >= reached.len() {
            return Ok((reached, nexts));
        }
        reach(
            instance,
            starts,
            slacks,
            Some(m),
            &mut marks,
            &mut reached,
            &mut nexts,
        )?;
    }
    Ok((reached, nexts))
}

// Returns the index of the first of these activities that starts at 0.
fn first_at_zero(reached: &[u32], starts: &[u64]) -> Option<usize>
    requires { All (λ j. (1 ≤ j) × (j ≤ length starts.now)) reached.now }
    ensures some { IfSome result (λ m. (m < length reached.now)
        × (get_or starts.now (get_or reached.now m 0 - 1) 0 ≡ 0)) }
    ensures none { IfNone result ((m : ℕ) → m < length reached.now
        → get_or starts.now (get_or reached.now m 0 - 1) 0 ≡ 0 → ⊥) }
{
    for (m, &j) in reached.iter().enumerate() {
        if starts[j as usize - 1] == 0 {
            return Some(m);
        }
    }
    None
}

// Returns the chain from the activity at an index to the end.
fn chain_from(
    alloc: Global,
    reached: &[u32],
    nexts: &[usize],
    first: usize,
) -> Result<Vec<u32>, AllocError>
    requires inside { first < length reached.now }
    requires paired { length nexts.now ≡ length reached.now }
    ensures { IfOk result (λ chain. (p : Problem) (s slacks : List ℕ)
        → AreAllReached p s slacks reached.now nexts.now
        → get_or s (get_or reached.now first 0 - 1) 0 ≡ 0 → IsChain p s slacks chain.items) }
{
    let mut chain = Vec::new(alloc);
    let mut at = first;
    while nexts[at] < at {
        chain.push(reached[at])?;
        at = nexts[at];
    }
    chain.push(reached[at])?;
    Ok(chain)
}

/// Returns a chain of activities without slack from the start of a schedule to its end, by their
/// numbers, or `None` if there is none. The first one starts at 0 and the last one ends at the
/// makespan. Each of them starts exactly when the one before it lets it: by an arc and its lag, or
/// because that one ends then and both need a resource. `slacks` are those of [`schedule_slack`].
pub fn tight_chain(
    alloc: Global,
    instance: &Instance,
    starts: &[u64],
    slacks: &[u64],
) -> Result<Option<Vec<u32>>, AllocError>
    requires whole { length starts.now ≡ count_of instance.now.project.network }
    requires limit { All IsInTime starts.now }
    requires slacks { length slacks.now ≡ count_of instance.now.project.network }
    ensures chain { IfOk result (λ found. IfSome found (λ chain.
        IsChain (problem_of instance.now) starts.now slacks.now chain.items)) }
    ensures none { IfOk result (λ found. IfNone found
        (NoChain (problem_of instance.now) starts.now slacks.now)) }
{
    let (reached, nexts) = reach_all(alloc, instance, starts, slacks)?;
    match first_at_zero(&reached, starts) {
        Some(first) => Ok(Some(chain_from(alloc, &reached, &nexts, first)?)),
        None => Ok(None),
    }
}
