//! The first broken arc.

ghost use Rattle.std.specs.Prelude.{◌≡◌, ◌<◌, ◌↔◌, length, All, IsTrue};
ghost use Rattle.plan_profile.specs.Usage.{IsInTime};
ghost use Rattle.plan_sgs.specs.Checks.{IsBrokenAnswer};
ghost use Rattle.plan_shop.specs.Shop.{count_steps, problem_of};
ghost use Rattle.plan_shop.specs.Checks.{IsBrokenAfter};

use super::{count, end_at};
use crate::shop::Shop;

// Tests whether the next step belongs to the same job and starts too soon.
fn is_broken_after(shop: &Shop, starts: &[u64], x: u32) -> bool
    requires step { x < count_steps shop.now }
    requires whole { length starts.now ≡ count_steps shop.now }
    requires limit { All IsInTime starts.now }
    ensures { IsTrue result ↔ IsBrokenAfter shop.now starts.now x }
{
    let machines = shop.machines();
    (x + 1) / machines == x / machines && starts[x as usize + 1] < end_at(shop, starts, x)
}

// Returns the first broken arc: a step and its successor in the job.
pub(super) fn first_broken(shop: &Shop, starts: &[u64]) -> Option<(u32, u32)>
    requires whole { length starts.now ≡ count_steps shop.now }
    requires limit { All IsInTime starts.now }
    ensures { IsBrokenAnswer (problem_of shop.now) starts.now result }
{
    for x in 0..count(shop) {
        if is_broken_after(shop, starts, x) {
            return Some((x + 1, x + 2));
        }
    }
    None
}
