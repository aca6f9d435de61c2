//! The schedules of projects and job shops.

ghost use Rattle.std.specs.Prelude.{◌≡◌, ◌≤◌, All, IfOk, IfErr, length};
ghost use Rattle.plan_gantt.specs.Limits.{latest_end};
ghost use Rattle.plan_profile.specs.Usage.{IsInTime};
ghost use Rattle.plan_sgs.specs.Problem.{makespan};
ghost use Rattle.plan_errors.specs.Output.{Refuses};
ghost use Rattle.plan_documents.specs.Documents.{count_of, problem_of};
ghost use Rattle.plan_cli.specs.Scheduled as spec;

use crate::origins::Origin;
use crate::rules::{project_schedule_by, shop_schedule_by};
use crate::solver::solution_of;
use crate::verdicts::check_feasible;
use crate::watchers::{Log, ProofWatcher, SolveWatcher};
use plan_documents::{Plan, starts_of};
use plan_errors::CliFault;
use plan_report::{makespan_of, shop_makespan_of};
use plan_sgs::Schedule;
use std::alloc::Global;

/// A schedule of a plan.
#[derive(Debug, Drop)]
pub struct Scheduled {
    pub schedule: Schedule,
    /// A lower bound of the makespans of all feasible schedules, if a search has found the
    /// schedule.
    pub lower: Option<u64>,
}

/// Returns the schedule of a plan by the rule with this name.
pub(crate) fn schedule_by(alloc: Global, name: &str, plan: &Plan<'_>) -> Result<Schedule, CliFault>
    ensures starts { IfOk result (λ made. spec.IsByRule name.now plan.now made.starts.items) }
    ensures showable { IfOk result (spec.IsShowable plan.now) }
    ensures refused { IfErr result (Refuses (spec.TellsNoRuleOf name.now plan.now)) }
{
    match plan {
        Plan::Project(instance, _) => project_schedule_by(alloc, name, instance),
        Plan::Shop(shop) => shop_schedule_by(alloc, name, shop),
    }
}

// Returns the makespan of a plan's starts.
fn plan_makespan(plan: &Plan<'_>, starts: &[u64]) -> u64
    requires whole { length starts.now ≡ count_of plan.now }
    requires limit { All IsInTime starts.now }
    ensures value { result ≡ makespan (problem_of plan.now) starts.now }
    ensures ends { result ≤ latest_end }
{
    match plan {
        Plan::Project(instance, _) => makespan_of(instance, starts),
        Plan::Shop(shop) => shop_makespan_of(shop, starts),
    }
}

// Returns the schedule with the starts in a text.
fn listed_schedule(alloc: Global, listed: &[u8], plan: &Plan<'_>) -> Result<Schedule, CliFault>
    ensures listed { IfOk result (λ made. spec.IsListed listed.now plan.now made.starts.items) }
    ensures showable { IfOk result (spec.IsShowable plan.now) }
    ensures refused { IfErr result (Refuses (spec.TellsNotListed listed.now plan.now)) }
{
    let starts = starts_of(alloc, plan, listed)?;
    check_feasible(alloc, plan, &starts)?;
    let makespan = plan_makespan(plan, &starts);
    Ok(Schedule { starts, makespan })
}

// Returns the schedule of a plan by the rule with this name, without a lower bound.
fn ruled_schedule(alloc: Global, name: &str, plan: &Plan<'_>) -> Result<Scheduled, CliFault>
    ensures made { IfOk result (spec.IsMadeFrom (Origin.Rule name.entry) plan.now) }
    ensures refused { IfErr result (Refuses (spec.TellsNoRuleOf name.now plan.now)) }
{
    let schedule = schedule_by(alloc, name, plan)?;
    Ok(Scheduled {
        schedule,
        lower: None,
    })
}

// Returns the schedule with the starts in a text, without a lower bound.
fn given_schedule(alloc: Global, listed: &[u8], plan: &Plan<'_>) -> Result<Scheduled, CliFault>
    ensures made { IfOk result (spec.IsMadeFrom (Origin.Starts listed.entry) plan.now) }
    ensures refused { IfErr result (Refuses (spec.TellsNotListed listed.now plan.now)) }
{
    let schedule = listed_schedule(alloc, listed, plan)?;
    Ok(Scheduled {
        schedule,
        lower: None,
    })
}

// Returns the schedule that a search of at most so many conflicts finds, with its lower bound.
fn solved_schedule<V: ProofWatcher + SolveWatcher, L: Log>(
    alloc: Global,
    conflicts: u64,
    plan: &Plan<'_>,
    watcher: &mut V,
    log: &mut L,
) -> Result<Scheduled, CliFault>
    ensures made { IfOk result (spec.IsMadeFrom (Origin.Solved conflicts) plan.now) }
    ensures refused { IfErr result (λ e. e ≡ CliFault.Memory) }
{
    let solved = solution_of(alloc, conflicts, plan, watcher, log)?;
    Ok(Scheduled {
        schedule: solved.schedule,
        lower: Some(solved.lower),
    })
}

/// Returns the schedule of a plan. The watcher is called during a search, and can stop it. The log
/// gets what the search proves for a project.
pub fn schedule_from<V: ProofWatcher + SolveWatcher, L: Log>(
    alloc: Global,
    origin: Origin<'_>,
    plan: &Plan<'_>,
    watcher: &mut V,
    log: &mut L,
) -> Result<Scheduled, CliFault>
    ensures made { IfOk result (spec.IsMadeFrom origin.entry plan.now) }
    ensures refused { IfErr result (Refuses (spec.TellsNotMade origin.entry plan.now)) }
{
    match origin {
        Origin::Rule(name) => ruled_schedule(alloc, name, plan),
        Origin::Starts(listed) => given_schedule(alloc, listed, plan),
        Origin::Solved { conflicts } => solved_schedule(alloc, conflicts, plan, watcher, log),
    }
}
