//! The makespans of schedules that are given by their starts.

ghost use Rattle.std.specs.Prelude.{◌≡◌, ◌≤◌, All, length};
ghost use Rattle.plan_net.specs.Network.{count_of};
ghost use Rattle.plan_profile.specs.Usage.{IsInTime};
ghost use Rattle.plan_sgs.specs.Instances.{problem_of};
ghost use Rattle.plan_sgs.specs.Placement.{greatest_end};
ghost use Rattle.plan_sgs.specs.Problem.{makespan};
ghost use Rattle.plan_shop.specs.Shop.{count_steps};
ghost use Rattle.plan_shop.specs.Shop as shops;
ghost use Rattle.plan_gantt.specs.Limits.{latest_end};

use plan_sgs::Instance;
use plan_shop::Shop;

/// Returns the makespan of a list of starts: the greatest end of an activity, in whole time units.
/// Index `k` of the list is activity `k + 1`.
pub fn makespan_of(instance: &Instance, starts: &[u64]) -> u64
    requires whole { length starts.now ≡ count_of instance.now.project.network }
    requires limit { All IsInTime starts.now }
    ensures value { result ≡ makespan (problem_of instance.now) starts.now }
    ensures ends { result ≤ greatest_end }
{
    let network = instance.network();
    let mut latest = 0u64;
    for i in 0..network.len() {
        let end = starts[i] + network.duration(i as u32 + 1);
        latest = latest.max(end);
    }
    latest
}

/// Returns the makespan of a list of starts of a job shop: the greatest end of a step, in whole
/// time units. Index `x` of the list is flat step `x`.
pub fn shop_makespan_of(shop: &Shop, starts: &[u64]) -> u64
    requires whole { length starts.now ≡ count_steps shop.now }
    requires limit { All IsInTime starts.now }
    ensures value { result ≡ makespan (shops.problem_of shop.now) starts.now }
    ensures ends { result ≤ latest_end }
{
    let mut latest = 0u64;
    for x in 0..shop.jobs() * shop.machines() {
        latest = latest.max(starts[x as usize] + shop.step(x).time);
    }
    latest
}
