//! Placement of activities one after another, each at its earliest start.

ghost use Rattle.std.specs.Prelude.{◌≡◌, ◌+◌, ◌-◌, ◌≤◌, length, get_or, set, map, None, Some};
ghost use Rattle.std.specs.Prelude.{IfOk, OnOk};
ghost use Rattle.plan_net.specs.Network.{IsActivity};
ghost use Rattle.plan_profile.specs.InUse.{capacities, in_use};
ghost use Rattle.plan_profile.specs.Usage.{IsInTime};
ghost use Rattle.plan_sgs.specs.Problem as problem;
ghost use Rattle.plan_sgs.specs.Serial as spec;
ghost use Rattle.plan_sgs.specs.Instances.{IsInstance, problem_of};
ghost use Rattle.plan_sgs.specs.Placement.{IsPartialSchedule, EndsBy, AllEndBy, Holds};
ghost use Rattle.plan_sgs.specs.Placement.{IsTurnList, greatest_end, latest_end};
ghost use Rattle.plan_sgs.specs.Rules.{places};

use crate::instance::Instance;
use crate::schedule::Schedule;
use plan_profile::Profile;
use std::alloc::{AllocError, Global};

// Returns the end of an activity, or 0 if it isn't placed.
fn end_of(instance: &Instance, placed: &[Option<u64>], j: u32) -> u64
    requires activity { IsActivity instance.now.project.network j }
    requires partial { IsPartialSchedule instance.now placed.now greatest_end }
    ensures value { result ≡ spec.end_of (problem_of instance.now) placed.now (j - 1) }
    ensures limit { result ≤ greatest_end }
{
    match placed[j as usize - 1] {
        Some(start) => start + instance.network().duration(j),
        None => 0,
    }
}

// Returns the least start that the predecessors of an activity and the lags allow.
pub(crate) fn release_of(instance: &Instance, placed: &[Option<u64>], j: u32) -> u64
    requires activity { IsActivity instance.now.project.network j }
    requires partial { IsPartialSchedule instance.now placed.now greatest_end }
    ensures { result ≡ spec.release (problem_of instance.now) placed.now (j - 1) }
{
    let network = instance.network();
    let lags = network.lags_into(j);
    let mut from = 0u64;
    for (k, &i) in network.preds(j).iter().enumerate() {
        let ready = end_of(instance, placed, i) + lags[k];
        from = from.max(ready);
    }
    from
}

// Returns the earliest start of an activity beside the activities of a profile.
pub(crate) fn earliest_start(
    instance: &Instance,
    profile: &Profile,
    placed: &[Option<u64>],
    j: u32,
) -> u64
    requires activity { IsActivity instance.now.project.network j }
    requires partial { IsPartialSchedule instance.now placed.now latest_end }
    requires holds { Holds profile.now (problem_of instance.now) placed.now }
    ensures start { result ≡ spec.earliest (problem_of instance.now) placed.now (j - 1) }
    ensures in_time { IsInTime result }
{
    let needs = instance.needs(j);
    let duration = instance.network().duration(j);
    let from = release_of(instance, placed, j);
    profile.earliest(from, duration, needs)
}

// Places an activity at its earliest start.
fn place_next(
    instance: &Instance,
    profile: &mut Profile,
    placed: &mut Vec<Option<u64>>,
    j: u32,
) -> Result<(), AllocError>
    requires activity { IsActivity instance.now.project.network j }
    requires partial { IsPartialSchedule instance.now placed.old.items latest_end }
    requires open { get_or placed.old.items (j - 1) None ≡ None }
    requires holds { Holds profile.old (problem_of instance.now) placed.old.items }
    ensures ok { OnOk result (placed.new.items ≡ set placed.old.items (j - 1)
        (Some (spec.earliest (problem_of instance.now) placed.old.items (j - 1)))) }
    ensures holds { OnOk result (Holds profile.new (problem_of instance.now) placed.new.items) }
{
    let start = earliest_start(instance, profile, placed, j);
    profile.place(start, instance.network().duration(j), instance.needs(j))?;
    placed[j as usize - 1] = Some(start);
    Ok(())
}

// Returns a copy of a profile, in the memory of a spare one if there is one.
fn copy_of(profile: &Profile, spare: Option<Profile>) -> Result<Profile, AllocError>
    ensures caps { IfOk result (λ p. capacities p ≡ capacities profile.now) }
    ensures same { IfOk result (λ p. in_use p ≡ in_use profile.now) }
{
    match spare {
        Some(spare) => profile.copy_into(spare),
        None => profile.copy(),
    }
}

// Returns the profile of all placed activities, made from that of all but the last placed one, in
// the memory of a spare profile if there is one.
pub(crate) fn profile_with(
    instance: &Instance,
    profile: &Profile,
    spare: Option<Profile>,
    placed: &[Option<u64>],
    j: u32,
) -> Result<Profile, AllocError>
    requires activity { IsActivity instance.now.project.network j }
    requires partial { IsPartialSchedule instance.now placed.now latest_end }
    requires last { get_or placed.now (j - 1) None
        ≡ Some (spec.earliest (problem_of instance.now) (set placed.now (j - 1) None) (j - 1)) }
    requires holds { Holds profile.now (problem_of instance.now) (set placed.now (j - 1) None) }
    ensures { IfOk result (λ made. Holds made (problem_of instance.now) placed.now) }
{
    let Some(start) = placed[j as usize - 1] else {
        unreachable!()
    };
    let needs = instance.needs(j);
    let duration = instance.network().duration(j);
    let mut made = copy_of(profile, spare)?;
    made.place(start, duration, needs)?;
    Ok(made)
}

// Places the activities of a list, one after another.
fn place_all(
    instance: &Instance,
    profile: &mut Profile,
    placed: &mut Vec<Option<u64>>,
    list: &[u32],
) -> Result<(), AllocError>
    requires instance { IsInstance instance.now }
    requires list { IsTurnList (problem_of instance.now) list.now }
    requires none { placed.old.items ≡ spec.unplaced (problem.count (problem_of instance.now)) }
    requires holds { Holds profile.old (problem_of instance.now) placed.old.items }
    ensures ok { OnOk result (placed.new.items
        ≡ spec.serial_from (problem_of instance.now) placed.old.items (places list.now)) }
    ensures ends { OnOk result (EndsBy (problem_of instance.now) placed.new.items latest_end) }
{
    for &j in list {
        place_next(instance, profile, placed, j)?;
    }
    Ok(())
}

// Returns the starts of the placed activities, 0 for the others.
pub(crate) fn starts_of(alloc: Global, placed: &[Option<u64>]) -> Result<Vec<u64>, AllocError>
    ensures { IfOk result (λ starts. starts.items ≡ map spec.start_or_zero placed.now) }
{
    let mut starts = Vec::with_capacity(alloc, placed.len())?;
    for start in placed {
        let time = match start {
            Some(t) => *t,
            None => 0,
        };
        starts.push(time)?;
    }
    Ok(starts)
}

// Returns the greatest end of an activity.
fn makespan_of(instance: &Instance, starts: &[u64]) -> u64
    requires size { length starts.now ≡ problem.count (problem_of instance.now) }
    requires ends { AllEndBy (problem_of instance.now) starts.now latest_end }
    ensures value { result ≡ problem.makespan (problem_of instance.now) starts.now }
    ensures limit { result ≤ latest_end }
{
    let network = instance.network();
    let mut latest = 0u64;
    for i in 0..network.len() {
        let end = starts[i] + network.duration(i as u32 + 1);
        latest = latest.max(end);
    }
    latest
}

/// Returns the serial schedule of a list of all activities, each after its predecessors.
pub fn schedule_of(alloc: Global, instance: &Instance, list: &[u32]) -> Result<Schedule, AllocError>
    requires { IsTurnList (problem_of instance.now) list.now }
    ensures starts { IfOk result (λ s.
        s.starts.items ≡ spec.serial (problem_of instance.now) (places list.now)) }
    ensures active { IfOk result (λ s. problem.IsActive (problem_of instance.now) s.starts.items) }
    ensures makespan { IfOk result (λ s.
        s.makespan ≡ problem.makespan (problem_of instance.now) s.starts.items) }
    ensures ends { IfOk result (λ s. AllEndBy (problem_of instance.now) s.starts.items latest_end) }
    ensures limit { IfOk result (λ s. s.makespan ≤ latest_end) }
{
    let caps = Vec::from_slice(alloc, instance.caps())?;
    let mut profile = Profile::new(alloc, caps)?;
    let mut placed = vec![in alloc; None; instance.network().len()]?;
    place_all(instance, &mut profile, &mut placed, list)?;
    let starts = starts_of(alloc, &placed)?;
    let makespan = makespan_of(instance, &starts);
    Ok(Schedule { starts, makespan })
}
