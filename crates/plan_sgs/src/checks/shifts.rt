//! The first activity that can start earlier.

ghost use Rattle.std.specs.Prelude.{◌≡◌, ◌-◌, ◌↔◌, length, All, IfOk, IsTrue};
ghost use Rattle.plan_net.specs.Network.{IsActivity, count_of};
ghost use Rattle.plan_profile.specs.Usage.{IsInTime};
ghost use Rattle.plan_sgs.specs.Instances.{problem_of};
ghost use Rattle.plan_sgs.specs.Problem.{IsFeasible, KeepsCapacities, all_placed};
ghost use Rattle.plan_sgs.specs.Verdicts.{HasShift};
ghost use Rattle.plan_sgs.specs.Checks.{HoldsBefore, IsShiftAnswer};

use crate::instance::Instance;
use crate::placement::release_of;
use plan_profile::{END, Profile};
use std::alloc::{AllocError, Global};

// Returns a profile of all activities at their starts, cut off at the end of its time.
fn profile_of(alloc: Global, instance: &Instance, starts: &[u64]) -> Result<Profile, AllocError>
    requires whole { length starts.now ≡ count_of instance.now.project.network }
    requires limit { All IsInTime starts.now }
    requires kept { KeepsCapacities (problem_of instance.now) (all_placed starts.now) }
    ensures { IfOk result (HoldsBefore END (problem_of instance.now) starts.now) }
{
    let network = instance.network();
    let caps = Vec::from_slice(alloc, instance.caps())?;
    let mut profile = Profile::new(alloc, caps)?;
    for k in 0..network.len() {
        let j = k as u32 + 1;
        let d = network.duration(j).min(END - starts[k]);
        profile.place(starts[k], d, instance.needs(j))?;
    }
    Ok(profile)
}

// Returns the starts as a schedule in which all activities are placed.
fn placed_at(alloc: Global, starts: &[u64]) -> Result<Vec<Option<u64>>, AllocError>
    ensures { IfOk result (λ placed. placed.items ≡ all_placed starts.now) }
{
    let mut placed = Vec::with_capacity(alloc, starts.len())?;
    for &start in starts {
        placed.push(Some(start))?;
    }
    Ok(placed)
}

// Tests whether activity `j` can start earlier while all others keep their starts. A shifted
// interval that ends after the old start covers the last instant before it, so there the activity
// must fit by itself.
fn can_shift(
    instance: &Instance,
    profile: &Profile,
    starts: &[u64],
    placed: &[Option<u64>],
    j: u32,
) -> bool
    requires activity { IsActivity instance.now.project.network j }
    requires limit { All IsInTime starts.now }
    requires placed { placed.now ≡ all_placed starts.now }
    requires feasible { IsFeasible (problem_of instance.now) starts.now }
    requires holds { HoldsBefore END (problem_of instance.now) starts.now profile.now }
    ensures { IsTrue result ↔ HasShift (problem_of instance.now) starts.now (j - 1) }
{
    let network = instance.network();
    let needs = instance.needs(j);
    let start = starts[j as usize - 1];
    let release = release_of(instance, placed, j);
    if start <= release {
        return false;
    }
    let d = network.duration(j);
    profile.earliest(release, d, needs) + d <= start || profile.fits(start - 1, 1, needs)
}

// Returns the first activity that can start earlier while all others keep their starts.
pub(super) fn first_shift(
    alloc: Global,
    instance: &Instance,
    starts: &[u64],
) -> Result<Option<u32>, AllocError>
    requires limit { All IsInTime starts.now }
    requires feasible { IsFeasible (problem_of instance.now) starts.now }
    ensures { IfOk result (IsShiftAnswer (problem_of instance.now) starts.now) }
{
    let profile = profile_of(alloc, instance, starts)?;
    let placed = placed_at(alloc, starts)?;
    for k in 0..instance.network().len() {
        let j = k as u32 + 1;
        if can_shift(instance, &profile, starts, &placed, j) {
            return Ok(Some(j));
        }
    }
    Ok(None)
}
