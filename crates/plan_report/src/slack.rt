//! The slack of activities in a schedule.

ghost use Rattle.std.specs.Prelude.{◌≡◌, ◌-◌, ◌≤◌, length, All, IfOk, IfErr};
ghost use Rattle.plan_net.specs.Network.{IsActivity, IsGreatest, count_of};
ghost use Rattle.plan_profile.specs.InUse.{capacities, in_use};
ghost use Rattle.plan_profile.specs.Usage.{IsInTime};
ghost use Rattle.plan_sgs.specs.Checks.{HoldsBefore};
ghost use Rattle.plan_sgs.specs.Instances.{problem_of};
ghost use Rattle.plan_sgs.specs.Problem as problem;
ghost use Rattle.plan_sgs.specs.Problem.{IsFeasible, KeepsCapacities, all_placed};
ghost use Rattle.plan_report.specs.Slack.{AreSlacks, FitsFor, IsDue, IsSlack, RefusesSlack};

use crate::makespans::makespan_of;
use plan_profile::{END, Profile};
use plan_sgs::{Instance, Verdict, check};
use std::alloc::{AllocError, AllocFailed, Global};
use thiserror::Error;

/// Why a list of starts has no slack.
#[derive(Debug, Drop, Error)]
pub enum SlackFault {
    /// Memory ran out.
    #[error("no memory")]
    NoMemory,
    /// The starts aren't feasible. The verdict is `Arc` or `Over`.
    #[error("the schedule isn't feasible")]
    NotFeasible(Verdict),
    /// The schedule ends after 10,000,000.
    #[error("the schedule ends after 10000000")]
    Late,
}

impl From<AllocError> for SlackFault {
    ghost use Rattle.std.specs.Prelude.{◌≡◌};
    ghost use Rattle.plan_report.specs.declared.slack.SlackFault.TheVariants.{NoMemory};

    ghost from_gives = { λ _ fault. fault ≡ NoMemory };

    fn from(_error: AllocError) -> Self {
        SlackFault::NoMemory
    }
}

impl<T: Drop> From<AllocFailed<T>> for SlackFault {
    ghost use Rattle.std.specs.Prelude.{◌≡◌};
    ghost use Rattle.plan_report.specs.declared.slack.SlackFault.TheVariants.{NoMemory};

    ghost from_gives = { λ _ fault. fault ≡ NoMemory };

    fn from(_error: AllocFailed<T>) -> Self {
        SlackFault::NoMemory
    }
}

// Fails if a list of starts isn't feasible.
fn check_feasible(alloc: Global, instance: &Instance, starts: &[u64]) -> Result<(), SlackFault>
    requires whole { length starts.now ≡ count_of instance.now.project.network }
    requires limit { All IsInTime starts.now }
    ensures ok { IfOk result (λ _. IsFeasible (problem_of instance.now) starts.now) }
    ensures refused { IfErr result (RefusesSlack (problem_of instance.now) starts.now) }
{
    let Ok(verdict) = check(alloc, instance, starts) else {
        return Err(SlackFault::NoMemory);
    };
    match verdict {
        Verdict::Arc(_, _) => Err(SlackFault::NotFeasible(verdict)),
        Verdict::Over(_, _) => Err(SlackFault::NotFeasible(verdict)),
        Verdict::Shift(_) => Ok(()),
        Verdict::Active => Ok(()),
    }
}

// Returns a profile of all activities at their starts.
fn profile_of(alloc: Global, instance: &Instance, starts: &[u64]) -> Result<Profile, AllocError>
    requires whole { length starts.now ≡ count_of instance.now.project.network }
    requires ends { problem.makespan (problem_of instance.now) starts.now ≤ END }
    requires kept { KeepsCapacities (problem_of instance.now) (all_placed starts.now) }
    ensures { IfOk result (HoldsBefore END (problem_of instance.now) starts.now) }
{
    let network = instance.network();
    let caps = Vec::from_slice(alloc, instance.caps())?;
    let mut profile = Profile::new(alloc, caps)?;
    for k in 0..network.len() {
        let j = k as u32 + 1;
        let d = network.duration(j);
        profile.place(starts[k], d, instance.needs(j))?;
    }
    Ok(profile)
}

// Returns the latest end of activity `j` that its successors and the makespan allow.
fn due_of(instance: &Instance, starts: &[u64], makespan: u64, j: u32) -> u64
    requires whole { length starts.now ≡ count_of instance.now.project.network }
    requires activity { IsActivity instance.now.project.network j }
    requires feasible { IsFeasible (problem_of instance.now) starts.now }
    requires makespan { makespan ≡ problem.makespan (problem_of instance.now) starts.now }
    ensures { IsDue (problem_of instance.now) starts.now (j - 1) result }
{
    let network = instance.network();
    let mut due = makespan;
    for &h in network.succs(j) {
        due = due.min(starts[h as usize - 1] - network.lag_between(j, h));
    }
    due
}

// Returns the number of instants from `from` on at which needs fit before the first one at which
// they don't, at most `limit`. The usage is constant between two changes.
fn longest_fit(profile: &Profile, from: u64, limit: u64, needs: &[u64]) -> u64
    requires { length needs.now ≡ length (capacities profile.now) }
    ensures { IsGreatest
        (FitsFor (capacities profile.now) (in_use profile.now) from limit needs.now) result }
{
    if !profile.fits(from, 1, needs) {
        return 0;
    }
    for &change in profile.changes() {
        if from < change && !profile.fits(change, 1, needs) {
            return limit.min(change - from);
        }
    }
    limit
}

// Returns the slack of activity `j`: the room behind its end, up to the latest end. An activity that
// takes no time needs no room.
fn slack_of(instance: &Instance, profile: &Profile, starts: &[u64], makespan: u64, j: u32) -> u64
    requires whole { length starts.now ≡ count_of instance.now.project.network }
    requires activity { IsActivity instance.now.project.network j }
    requires feasible { IsFeasible (problem_of instance.now) starts.now }
    requires holds { HoldsBefore END (problem_of instance.now) starts.now profile.now }
    requires makespan { makespan ≡ problem.makespan (problem_of instance.now) starts.now }
    requires ends { makespan ≤ END }
    ensures { IsSlack (problem_of instance.now) starts.now (j - 1) result }
{
    let network = instance.network();
    let due = due_of(instance, starts, makespan, j);
    let d = network.duration(j);
    let end = starts[j as usize - 1] + d;
    if d == 0 {
        return due - end;
    }
    longest_fit(profile, end, due - end, instance.needs(j))
}

/// Returns the slack of each activity of a schedule: the greatest delay such that each delay up to
/// it leaves the schedule feasible and no longer, while all others keep their starts. Index `k` is
/// activity `k + 1`; times are whole time units.
///
/// Fails with [`SlackFault::NotFeasible`] and the verdict if the starts break an arc or overload a
/// resource, else with [`SlackFault::Late`] if the schedule ends after 10,000,000. Any call can
/// fail with [`SlackFault::NoMemory`].
pub fn schedule_slack(
    alloc: Global,
    instance: &Instance,
    starts: &[u64],
) -> Result<Vec<u64>, SlackFault>
    requires whole { length starts.now ≡ count_of instance.now.project.network }
    requires limit { All IsInTime starts.now }
    ensures feasible { IfOk result (λ _. IsFeasible (problem_of instance.now) starts.now) }
    ensures slacks { IfOk result (λ slacks.
        AreSlacks (problem_of instance.now) starts.now slacks.items) }
    ensures refused { IfErr result (RefusesSlack (problem_of instance.now) starts.now) }
{
    check_feasible(alloc, instance, starts)?;
    let makespan = makespan_of(instance, starts);
    if makespan > END {
        return Err(SlackFault::Late);
    }
    let profile = profile_of(alloc, instance, starts)?;
    let mut slacks = Vec::with_capacity(alloc, starts.len())?;
    for k in 0..instance.network().len() {
        slacks.push(slack_of(instance, &profile, starts, makespan, k as u32 + 1))?;
    }
    Ok(slacks)
}
