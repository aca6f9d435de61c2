//! Active schedules of job shops.

ghost use Rattle.std.specs.Prelude.{◌≡◌, ◌-◌, ◌≤◌, ◌<◌, [], Contains, get_or, length, IfOk};
ghost use Rattle.plan_sgs.specs.Problem.{IsFeasible, makespan};
ghost use Rattle.plan_shop.specs.Shop.{problem_of};
ghost use Rattle.plan_shop.specs.Trees.{placed};
ghost use Rattle.plan_shop.specs.Words.{next_step, next_end};
ghost use Rattle.plan_active.specs.Ranks as spec;
ghost use Rattle.plan_active.specs.Shifts.{StartsNoLater, IsActiveInTime};

use plan_sgs::Schedule;
use plan_shop::{Shop, ShopTree};
use std::alloc::{AllocError, Global};

// Returns the number at an index of a list, 0 if there is none.
fn at(list: &[u32], index: u32) -> u32
    ensures { result ≡ get_or list.now index 0 }
{
    if (index as usize) < list.len() {
        list[index as usize]
    } else {
        0
    }
}

// Returns the lesser one of a start and an end, in halves. If both are at one instant the end is
// less.
fn lesser(start: u32, end: u64) -> u64
    requires { end ≤ 10010000 }
    ensures { result ≡ spec.lesser start end }
{
    if (start as u64) < end {
        2 * start as u64 + 1
    } else {
        2 * end
    }
}

// Returns the flat number of the first step of each job.
fn first_steps(alloc: Global, shop: &Shop) -> Result<Vec<u32>, AllocError>
    ensures { IfOk result (λ next. spec.AreNextSteps shop.now [] next.items) }
{
    let mut next = Vec::new(alloc);
    for job in 0..shop.jobs() {
        next.push(job * shop.machines())?;
    }
    Ok(next)
}

// Returns the end of the next step of a job if it is placed now.
fn end(tree: &mut ShopTree, shop: &Shop, letter: u32, step: u32) -> Result<u64, AllocError>
    requires shop { shop.now ≡ tree.old.shop }
    requires word { spec.IsAtWord tree.old }
    requires letter { Contains (spec.letters_of tree.old) letter }
    requires step { step ≡ next_step tree.old.shop (placed tree.old) (letter - 1) }
    ensures same { tree.new ≡ tree.old }
    ensures end { IfOk result (λ end. end ≡ next_end tree.old.shop (placed tree.old) (letter - 1)) }
    ensures within { IfOk result (λ end. end ≤ 10010000) }
{
    tree.push(letter)?;
    let end = tree.start(step) + shop.step(step).time;
    tree.pop();
    Ok(end)
}

// Returns the rank of a letter.
fn rank(
    tree: &mut ShopTree,
    shop: &Shop,
    letter: u32,
    next: &[u32],
    starts: &[u32],
) -> Result<u64, AllocError>
    requires shop { shop.now ≡ tree.old.shop }
    requires word { spec.IsAtWord tree.old }
    requires letter { Contains (spec.letters_of tree.old) letter }
    requires next { spec.AreNextSteps tree.old.shop (placed tree.old) next.now }
    ensures same { tree.new ≡ tree.old }
    ensures rank { IfOk result (λ rank. rank ≡ spec.rank_by tree.old starts.now letter) }
{
    let step = next[letter as usize - 1];
    let end = end(tree, shop, letter, step)?;
    Ok(lesser(at(starts, step), end))
}

// Returns a letter of least rank.
fn choice(
    tree: &mut ShopTree,
    shop: &Shop,
    letters: &[u32],
    next: &[u32],
    starts: &[u32],
) -> Result<u32, AllocError>
    requires shop { shop.now ≡ tree.old.shop }
    requires word { spec.IsAtWord tree.old }
    requires letters { letters.now ≡ spec.letters_of tree.old }
    requires some { 0 < length letters.now }
    requires next { spec.AreNextSteps tree.old.shop (placed tree.old) next.now }
    ensures same { tree.new ≡ tree.old }
    ensures least { IfOk result (spec.IsLeastLetter tree.old starts.now) }
{
    let mut best = letters[0];
    let mut least = rank(tree, shop, best, next, starts)?;
    for &letter in letters {
        let rank = rank(tree, shop, letter, next, starts)?;
        if rank < least {
            best = letter;
            least = rank;
        }
    }
    Ok(best)
}

/// Returns an active schedule of a shop (Giffler and Thompson 1960). If the starts, in flat order,
/// are feasible, no step starts later.
///
/// In each turn it places the competing step that starts first in the list, unless another one can
/// end before that start; then it places the one that can end first.
pub fn active_shop_schedule(
    alloc: Global,
    shop: &Shop,
    starts: &[u32],
) -> Result<Schedule, AllocError>
    ensures active { IfOk result (IsActiveInTime (problem_of shop.now)) }
    ensures no_later { IfOk result (λ schedule. IsFeasible (problem_of shop.now) starts.now
        → StartsNoLater starts.now schedule.starts.items) }
    ensures no_longer { IfOk result (λ schedule. IsFeasible (problem_of shop.now) starts.now
        → schedule.makespan ≤ makespan (problem_of shop.now) starts.now) }
{
    let mut tree = ShopTree::new(alloc, shop)?;
    let mut next = first_steps(alloc, shop)?;
    let mut letters = Vec::new(alloc);
    for _turn in 0..shop.jobs() * shop.machines() {
        letters.clear();
        tree.letters(&mut letters)?;
        let letter = choice(&mut tree, shop, &letters, &next, starts)?;
        tree.push(letter)?;
        next[letter as usize - 1] += 1;
    }
    Ok(tree.schedule(alloc)?)
}
