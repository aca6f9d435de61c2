//! The floats and the slacks that a report shows.

ghost use Rattle.std.specs.Prelude.{◌≡◌, IfOk, IfErr};
ghost use Rattle.plan_net.specs.Network as networks;
ghost use Rattle.plan_cpm.specs.Dates.{AreDates};
ghost use Rattle.plan_sgs.specs.Instances.{problem_of};
ghost use Rattle.plan_documents.specs.Documents.{count_of};
ghost use Rattle.plan_cli.specs.Scheduled.{CanBeShown};
ghost use Rattle.plan_print.specs.Margins as spec;

use plan_cli::{CliFault, Plan};
use plan_cpm::{Dates, dates};
use plan_net::Network;
use plan_report::{SlackFault, schedule_slack};
use plan_sgs::{Instance, Schedule};
use std::alloc::{AllocError, Global};

// Returns the total floats of dates, in the order of the activities.
fn floats_in(alloc: Global, network: &Network, dates: &Dates) -> Result<Vec<u64>, AllocError>
    requires { AreDates network.now dates.now }
    ensures { IfOk result (λ floats. floats.items
        ≡ spec.floats_in dates.now (networks.count_of network.now)) }
{
    let mut floats = Vec::new(alloc);
    for k in 0..network.len() {
        let float = dates.tf(k as u32 + 1);
        floats.push(float)?;
    }
    Ok(floats)
}

// Returns the total float of each activity of a project.
fn total_floats(alloc: Global, network: &Network) -> Result<Vec<u64>, AllocError>
    ensures { IfOk result (λ floats. spec.AreFloats network.now floats.items) }
{
    let dates = dates(alloc, network)?;
    floats_in(alloc, network, &dates)
}

// Returns the slack of each activity of a schedule; no slacks if it ends after 10,000,000.
fn shown_slacks(
    alloc: Global,
    instance: &Instance<'_>,
    schedule: &Schedule,
) -> Result<Vec<u64>, CliFault>
    requires { CanBeShown (networks.count_of instance.now.project.network) schedule.now }
    ensures shown { IfOk result (λ slacks. spec.AreShownSlacks (problem_of instance.now)
        schedule.now.starts.items slacks.items) }
    ensures refused { IfErr result (λ e. e ≡ CliFault.Memory) }
{
    match schedule_slack(alloc, instance, &schedule.starts) {
        Ok(slacks) => Ok(slacks),
        Err(SlackFault::Late) => Ok(Vec::new(alloc)),
        Err(_) => Err(CliFault::Memory),
    }
}

/// Returns the total float of each activity of a plan; none for a job shop.
pub(crate) fn floats_of(alloc: Global, plan: &Plan<'_>) -> Result<Vec<u64>, AllocError>
    ensures { IfOk result (λ floats. spec.HasFloats plan.now floats.items) }
{
    match plan {
        Plan::Project(instance, _) => total_floats(alloc, instance.network()),
        Plan::Shop(_) => Ok(Vec::new(alloc)),
    }
}

/// Returns the slack of each activity of a plan's schedule; none for a job shop.
pub(crate) fn slacks_of(
    alloc: Global,
    plan: &Plan<'_>,
    schedule: &Schedule,
) -> Result<Vec<u64>, CliFault>
    requires { CanBeShown (count_of plan.now) schedule.now }
    ensures shown { IfOk result (λ slacks.
        spec.HasSlacks plan.now schedule.now.starts.items slacks.items) }
    ensures refused { IfErr result (λ e. e ≡ CliFault.Memory) }
{
    match plan {
        Plan::Project(instance, _) => shown_slacks(alloc, instance, schedule),
        Plan::Shop(_) => Ok(Vec::new(alloc)),
    }
}
