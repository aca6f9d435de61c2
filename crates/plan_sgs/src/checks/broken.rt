//! The first broken arc.

ghost use Rattle.std.specs.Prelude.{◌≡◌, ℕ, length, All, IfSome, IfNone};
ghost use Rattle.plan_net.specs.Network.{IsActivity, IsArc, IsLeast, count_of};
ghost use Rattle.plan_profile.specs.Usage.{IsInTime};
ghost use Rattle.plan_sgs.specs.Instances.{problem_of};
ghost use Rattle.plan_sgs.specs.Checks.{IsBrokenAnswer, IsTooSoon};

use crate::instance::Instance;
use plan_net::Network;

// Returns the least successor of activity `i` that starts too soon after it.
fn first_too_soon(network: &Network, starts: &[u64], i: u32) -> Option<u32>
    requires activity { IsActivity network.now i }
    requires whole { length starts.now ≡ count_of network.now }
    requires limit { All IsInTime starts.now }
    ensures some { IfSome result (IsLeast (λ j.
        IsArc network.now i j × IsTooSoon network.now starts.now i j)) }
    ensures none { IfNone result ((j : ℕ) → IsArc network.now i j
        → IsTooSoon network.now starts.now i j → ⊥) }
{
    let end = starts[i as usize - 1] + network.duration(i);
    for &j in network.succs(i) {
        if starts[j as usize - 1] < end + network.lag_between(i, j) {
            return Some(j);
        }
    }
    None
}

// Returns the first broken arc, ordered by its first and then by its second activity.
pub(super) fn first_broken(instance: &Instance, starts: &[u64]) -> Option<(u32, u32)>
    requires whole { length starts.now ≡ count_of instance.now.project.network }
    requires limit { All IsInTime starts.now }
    ensures { IsBrokenAnswer (problem_of instance.now) starts.now result }
{
    let network = instance.network();
    for k in 0..network.len() {
        let i = k as u32 + 1;
        if let Some(j) = first_too_soon(network, starts, i) {
            return Some((i, j));
        }
    }
    None
}
