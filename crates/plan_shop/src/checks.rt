//! Check of any list of starts of a shop.

ghost use Rattle.std.specs.Prelude.{◌≡◌, ◌+◌, ◌≤◌, ◌<◌, ◌↔◌, length, All, slice_index};
ghost use Rattle.plan_profile.specs.Usage.{IsInTime};
ghost use Rattle.plan_sgs.specs.Problem.{IsActive};
ghost use Rattle.plan_sgs.specs.Verdicts.{IsFirstVerdict};
ghost use Rattle.plan_sgs.specs.declared.verdict.Verdict.TheVariants.{Active};
ghost use Rattle.plan_shop.specs.Shop.{count_steps, time_of, machine_of, problem_of};
ghost use Rattle.plan_shop.specs.Docs.{IsSmallShop};

use self::broken::first_broken;
use self::overloads::first_over;
use self::shifts::first_shift;
use crate::shop::Shop;
use plan_sgs::Verdict;

mod broken;
mod overloads;
mod shifts;

// Returns the number of steps.
fn count(shop: &Shop) -> u32
    ensures value { result ≡ count_steps shop.now }
    ensures few { result ≤ 1000 }
    ensures shop { IsSmallShop shop.now }
{
    shop.jobs() * shop.machines()
}

// Returns the machine of a step.
fn machine_at(shop: &Shop, x: u32) -> u32
    requires { x < count_steps shop.now }
    ensures { result ≡ machine_of shop.now x }
{
    shop.step(x).machine
}

// Returns the time of a step.
fn time_at(shop: &Shop, x: u32) -> u64
    requires { x < count_steps shop.now }
    ensures value { result ≡ time_of shop.now x }
    ensures short { result ≤ 10000 }
{
    shop.step(x).time
}

// Returns the end of a step.
fn end_at(shop: &Shop, starts: &[u64], x: u32) -> u64
    requires step { x < count_steps shop.now }
    requires whole { length starts.now ≡ count_steps shop.now }
    requires limit { All IsInTime starts.now }
    ensures value { result ≡ slice_index starts.now x + time_of shop.now x }
{
    starts[x as usize] + time_at(shop, x)
}

/// Returns the first fault of a list of starts, or that the list is active. The list has a start
/// for each step in flat order, in whole time units up to 10,000,000. Allocates nothing.
///
/// The faults, in this order: a step starts before the end of its predecessor in the job; two steps
/// of positive time overlap on a machine; a step can start earlier while all others keep their
/// starts. In the verdict, activities are the steps by their flat numbers and resources are the
/// machines, both numbered from 1. Active schedules are those of Giffler and Thompson (1960).
pub fn check(shop: &Shop, starts: &[u64]) -> Verdict
    requires whole { length starts.now ≡ count_steps shop.now }
    requires limit { All IsInTime starts.now }
    ensures verdict { IsFirstVerdict (problem_of shop.now) starts.now result }
    ensures active { (result ≡ Active) ↔ IsActive (problem_of shop.now) starts.now }
{
    if let Some((i, j)) = first_broken(shop, starts) {
        return Verdict::Arc(i, j);
    }
    if let Some((t, k)) = first_over(shop, starts) {
        return Verdict::Over(t, k);
    }
    match first_shift(shop, starts) {
        Some(j) => Verdict::Shift(j),
        None => Verdict::Active,
    }
}
