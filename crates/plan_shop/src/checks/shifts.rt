//! The first step that can start earlier.

ghost use Rattle.std.specs.Prelude.{◌≡◌, ℕ, ◌<◌, ◌↔◌, length, All, IfSome, IfNone, IsTrue};
ghost use Rattle.plan_profile.specs.Usage.{IsInTime};
ghost use Rattle.plan_sgs.specs.Problem.{IsFeasible};
ghost use Rattle.plan_sgs.specs.Verdicts.{HasShift};
ghost use Rattle.plan_sgs.specs.Checks.{IsShiftAnswer};
ghost use Rattle.plan_shop.specs.Shop.{count_steps, problem_of};
ghost use Rattle.plan_shop.specs.Docs.{IsSmallShop};
ghost use Rattle.plan_shop.specs.Checks.{IsReleaseOf, IsInTheWay, IsEndInTheWay};

use super::{count, end_at, machine_at, time_at};
use crate::shop::Shop;

// Returns the end of the predecessor of a step in its job, or 0 if it is the first one.
fn release_of(shop: &Shop, starts: &[u64], x: u32) -> u64
    requires step { x < count_steps shop.now }
    requires whole { length starts.now ≡ count_steps shop.now }
    requires limit { All IsInTime starts.now }
    ensures { IsReleaseOf shop.now starts.now x result }
{
    let machines = shop.machines();
    if x > 0 && x / machines == (x - 1) / machines {
        end_at(shop, starts, x - 1)
    } else {
        0
    }
}

// Tests whether step `y` is in the way of step `x` if `x` starts at the instant `at`.
fn is_in_the_way(shop: &Shop, starts: &[u64], x: u32, at: u64, y: u32) -> bool
    requires step { x < count_steps shop.now }
    requires other { y < count_steps shop.now }
    requires whole { length starts.now ≡ count_steps shop.now }
    requires limit { All IsInTime starts.now }
    requires early { IsInTime at }
    ensures { IsTrue result ↔ IsInTheWay shop.now starts.now x at y }
{
    let time = time_at(shop, x);
    let start = starts[y as usize];
    machine_at(shop, y) == machine_at(shop, x)
        && time > 0
        && time_at(shop, y) > 0
        && start < starts[x as usize]
        && start < at + time
        && at < end_at(shop, starts, y)
}

// Returns the end of a step that is in the way of step `x` if `x` starts at the instant `at`.
fn end_in_the_way(shop: &Shop, starts: &[u64], x: u32, at: u64) -> Option<u64>
    requires step { x < count_steps shop.now }
    requires whole { length starts.now ≡ count_steps shop.now }
    requires limit { All IsInTime starts.now }
    requires early { IsInTime at }
    ensures some { IfSome result (IsEndInTheWay shop.now starts.now x at) }
    ensures none { IfNone result ((y : ℕ) → y < count_steps shop.now
        → IsInTheWay shop.now starts.now x at y → ⊥) }
{
    for y in 0..count(shop) {
        if is_in_the_way(shop, starts, x, at, y) {
            return Some(end_at(shop, starts, y));
        }
    }
    None
}

// Tests whether step `x` can start earlier while all others keep their starts. From the end of its
// predecessor on, it moves to the end of each step that is in its way.
fn can_shift(shop: &Shop, starts: &[u64], x: u32) -> bool
    requires step { x < count_steps shop.now }
    requires shop { IsSmallShop shop.now }
    requires limit { All IsInTime starts.now }
    requires feasible { IsFeasible (problem_of shop.now) starts.now }
    ensures { IsTrue result ↔ HasShift (problem_of shop.now) starts.now x }
{
    let start = starts[x as usize];
    let mut at = release_of(shop, starts, x);
    while at < start {
        match end_in_the_way(shop, starts, x, at) {
            Some(end) => at = end,
            None => return true,
        }
    }
    false
}

// Returns the first step that can start earlier while all others keep their starts.
pub(super) fn first_shift(shop: &Shop, starts: &[u64]) -> Option<u32>
    requires limit { All IsInTime starts.now }
    requires feasible { IsFeasible (problem_of shop.now) starts.now }
    ensures { IsShiftAnswer (problem_of shop.now) starts.now result }
{
    for x in 0..count(shop) {
        if can_shift(shop, starts, x) {
            return Some(x + 1);
        }
    }
    None
}
