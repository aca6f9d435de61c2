//! The first overload.

ghost use Rattle.std.specs.Prelude.{◌≡◌, ℕ, ◌+◌, ◌^◌, ◌<◌, ◌↔◌, length, All, EachIndex, IfOk};
ghost use Rattle.std.specs.Prelude.{IsTrue, slice_index};
ghost use Rattle.plan_net.specs.Network.{count_of};
ghost use Rattle.plan_profile.specs.Usage.{IsInTime};
ghost use Rattle.plan_sgs.specs.Instances.{problem_of};
ghost use Rattle.plan_sgs.specs.Problem.{KeepsArcs};
ghost use Rattle.plan_sgs.specs.Checks.{AreNeedsAt, IsBefore, IsOverAnswer};

use crate::instance::{Instance, first_above};
use std::alloc::{AllocError, Global};

// Adds the needs of one activity to sums of needs.
fn add_needs(sums: &mut Vec<u64>, needs: &[u64])
    requires wide { length sums.old.items ≡ length needs.now }
    requires small { EachIndex needs.now (λ k.
        slice_index sums.old.items k + slice_index needs.now k < 2 ^ 64) }
    ensures wide { length sums.new.items ≡ length needs.now }
    ensures each { (k : ℕ) → slice_index sums.new.items k
        ≡ slice_index sums.old.items k + slice_index needs.now k }
{
    for (k, &need) in needs.iter().enumerate() {
        sums[k] += need;
    }
}

// Returns the usage of each resource at instant `t`.
fn needs_at(
    alloc: Global,
    instance: &Instance,
    starts: &[u64],
    t: u64,
) -> Result<Vec<u64>, AllocError>
    requires whole { length starts.now ≡ count_of instance.now.project.network }
    requires limit { All IsInTime starts.now }
    ensures { IfOk result (λ needs.
        AreNeedsAt (problem_of instance.now) starts.now t needs.items) }
{
    let network = instance.network();
    let mut sums = vec![in alloc; 0u64; instance.caps().len()]?;
    for k in 0..network.len() {
        let j = k as u32 + 1;
        if starts[k] <= t && t < starts[k] + network.duration(j) {
            add_needs(&mut sums, instance.needs(j));
        }
    }
    Ok(sums)
}

// Tests whether an instant is before an overload, or there is none.
fn is_before(t: u64, over: Option<(u64, u32)>) -> bool
    ensures { IsTrue result ↔ IsBefore t over }
{
    match over {
        Some((instant, _)) => t < instant,
        None => true,
    }
}

// Returns the least overloaded instant and the least resource that is overloaded then. Usage rises
// only at starts, so only starts are tested.
pub(super) fn first_over(
    alloc: Global,
    instance: &Instance,
    starts: &[u64],
) -> Result<Option<(u64, u32)>, AllocError>
    requires whole { length starts.now ≡ count_of instance.now.project.network }
    requires limit { All IsInTime starts.now }
    requires arcs { KeepsArcs (problem_of instance.now) starts.now }
    ensures { IfOk result (IsOverAnswer (problem_of instance.now) starts.now) }
{
    let mut least = None;
    for i in 0..instance.network().len() {
        let t = starts[i];
        if is_before(t, least) {
            let needs = needs_at(alloc, instance, starts, t)?;
            if let Some(k) = first_above(&needs, instance.caps()) {
                least = Some((t, k as u32 + 1));
            }
        }
    }
    Ok(least)
}
