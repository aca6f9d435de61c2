//! Serial schedule generation.

ghost use Rattle.std.specs.Prelude.{◌≡◌, ◌≤◌, IfOk, IfErr};
ghost use Rattle.plan_sgs.specs.Problem.{IsActive, makespan};
ghost use Rattle.plan_sgs.specs.Serial as spec;
ghost use Rattle.plan_sgs.specs.Rules.{places, IsNumberedList, RefusesList};
ghost use Rattle.plan_sgs.specs.Keys.{IsRuleSchedule};
ghost use Rattle.plan_sgs.specs.Instances.{problem_of};
ghost use Rattle.plan_sgs.specs.Placement.{AllEndBy, latest_end};

use crate::fault::SgsFault;
use crate::instance::Instance;
use crate::keys::keys_of;
use crate::lists::{is_list, rule_list};
use crate::placement::schedule_of;
use crate::rule::Rule;
use crate::schedule::Schedule;
use std::alloc::Global;

/// Returns the serial schedule of a list of activities, numbered from 1. Each activity of the list
/// in turn starts as early as its predecessors, the lags and the capacities allow beside the
/// activities before it (Kelley 1963).
///
/// Fails with [`SgsFault::NotAList`] if the list does not contain all activities, each once and
/// after its predecessors. Any call can fail with [`SgsFault::NoMemory`].
pub fn serial_list(alloc: Global, instance: &Instance, list: &[u32]) -> Result<Schedule, SgsFault>
    ensures list { IfOk result (λ _. IsNumberedList (problem_of instance.now) list.now) }
    ensures starts { IfOk result (λ s.
        s.starts.items ≡ spec.serial (problem_of instance.now) (places list.now)) }
    ensures active { IfOk result (λ s. IsActive (problem_of instance.now) s.starts.items) }
    ensures makespan { IfOk result (λ s.
        s.makespan ≡ makespan (problem_of instance.now) s.starts.items) }
    ensures ends { IfOk result (λ s. AllEndBy (problem_of instance.now) s.starts.items latest_end) }
    ensures limit { IfOk result (λ s. s.makespan ≤ latest_end) }
    ensures refused { IfErr result (RefusesList (problem_of instance.now) list.now) }
{
    // The proof needs the facts of the instance, which this call states.
    let _network = instance.network();
    if !is_list(alloc, instance, list)? {
        return Err(SgsFault::NotAList);
    }
    Ok(schedule_of(alloc, instance, list)?)
}

/// Returns the serial schedule of the list that a priority rule makes (Kolisch 1996). In each turn
/// the rule takes one of the activities whose predecessors are all taken. Ties go to the least
/// number. The only error is [`SgsFault::NoMemory`].
pub fn serial(alloc: Global, instance: &Instance, rule: Rule) -> Result<Schedule, SgsFault>
    ensures list { IfOk result (λ s. IsRuleSchedule instance.now rule s.starts.items) }
    ensures active { IfOk result (λ s. IsActive (problem_of instance.now) s.starts.items) }
    ensures makespan { IfOk result (λ s.
        s.makespan ≡ makespan (problem_of instance.now) s.starts.items) }
    ensures ends { IfOk result (λ s. AllEndBy (problem_of instance.now) s.starts.items latest_end) }
    ensures limit { IfOk result (λ s. s.makespan ≤ latest_end) }
    ensures err { IfErr result (λ fault. fault ≡ SgsFault.NoMemory) }
{
    let keys = keys_of(alloc, instance.network(), rule)?;
    let list = rule_list(alloc, instance, &keys)?;
    Ok(schedule_of(alloc, instance, &list)?)
}
