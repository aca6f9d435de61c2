//! The first overload.

ghost use Rattle.std.specs.Prelude.{◌≡◌, ℕ, ◌<◌, ◌↔◌, length, All, IfSome, IfNone, IsTrue};
ghost use Rattle.plan_profile.specs.Usage.{IsInTime};
ghost use Rattle.plan_sgs.specs.Problem.{KeepsArcs, usage, all_placed};
ghost use Rattle.plan_sgs.specs.Verdicts.{IsOver};
ghost use Rattle.plan_sgs.specs.Checks.{IsBefore, IsOverAnswer};
ghost use Rattle.plan_shop.specs.Shop.{count_steps, problem_of};
ghost use Rattle.plan_shop.specs.Checks.{IsUnderWayAt, IsLeastOver};

use super::{count, end_at, machine_at};
use crate::shop::Shop;

// Tests whether a step is under way on a machine at an instant.
fn is_under_way(shop: &Shop, starts: &[u64], t: u64, machine: u32, x: u32) -> bool
    requires step { x < count_steps shop.now }
    requires whole { length starts.now ≡ count_steps shop.now }
    requires limit { All IsInTime starts.now }
    ensures { IsTrue result ↔ IsUnderWayAt shop.now starts.now t machine x }
{
    machine_at(shop, x) == machine && starts[x as usize] <= t && t < end_at(shop, starts, x)
}

// Returns the number of steps that are under way on a machine at an instant.
fn usage_at(shop: &Shop, starts: &[u64], t: u64, machine: u32) -> u32
    requires whole { length starts.now ≡ count_steps shop.now }
    requires limit { All IsInTime starts.now }
    ensures { result ≡ usage (problem_of shop.now) (all_placed starts.now) t machine }
{
    let mut used = 0u32;
    for x in 0..count(shop) {
        if is_under_way(shop, starts, t, machine, x) {
            used += 1;
        }
    }
    used
}

// Returns the least machine on which several steps are under way at an instant.
fn first_overloaded(shop: &Shop, starts: &[u64], t: u64) -> Option<u32>
    requires whole { length starts.now ≡ count_steps shop.now }
    requires limit { All IsInTime starts.now }
    ensures some { IfSome result (λ m. (m < 1000) × IsLeastOver shop.now starts.now t m) }
    ensures none { IfNone result ((l : ℕ) → IsOver (problem_of shop.now) starts.now t l → ⊥) }
{
    for machine in 0..shop.machines() {
        if usage_at(shop, starts, t, machine) > 1 {
            return Some(machine);
        }
    }
    None
}

// Tests whether an instant is before an overload, or there is none.
fn is_before(t: u64, over: Option<(u64, u32)>) -> bool
    ensures { IsTrue result ↔ IsBefore t over }
{
    match over {
        Some((instant, _)) => t < instant,
        None => true,
    }
}

// Returns the least overloaded instant and the least machine that is overloaded then. Usage rises
// only at starts, so only starts are tested.
pub(super) fn first_over(shop: &Shop, starts: &[u64]) -> Option<(u64, u32)>
    requires whole { length starts.now ≡ count_steps shop.now }
    requires limit { All IsInTime starts.now }
    requires arcs { KeepsArcs (problem_of shop.now) starts.now }
    ensures { IsOverAnswer (problem_of shop.now) starts.now result }
{
    let mut least = None;
    for i in 0..starts.len() {
        let t = starts[i];
        if is_before(t, least) {
            if let Some(machine) = first_overloaded(shop, starts, t) {
                least = Some((t, machine + 1));
            }
        }
    }
    least
}
