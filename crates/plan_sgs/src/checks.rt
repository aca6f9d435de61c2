//! Check of any list of starts.

ghost use Rattle.std.specs.Prelude.{◌≡◌, ◌↔◌, length, All, IfOk, IfErr};
ghost use Rattle.plan_net.specs.Network.{count_of};
ghost use Rattle.plan_profile.specs.Usage.{IsInTime};
ghost use Rattle.plan_sgs.specs.Instances.{problem_of};
ghost use Rattle.plan_sgs.specs.Problem.{IsActive};
ghost use Rattle.plan_sgs.specs.Verdicts.{IsFirstVerdict};
ghost use Rattle.plan_sgs.specs.declared.fault.SgsFault.TheVariants.{NoMemory};
ghost use Rattle.plan_sgs.specs.declared.verdict.Verdict.TheVariants.{Active};

use self::broken::first_broken;
use self::overloads::first_over;
use self::shifts::first_shift;
use crate::fault::SgsFault;
use crate::instance::Instance;
use crate::verdict::Verdict;
use std::alloc::Global;

mod broken;
mod overloads;
mod shifts;

/// Returns the first fault of a list of starts, or that the list is active. The list has a start
/// for each activity, in whole time units up to 10,000,000.
///
/// The faults, in this order: an arc is broken; a resource is overloaded at an instant; an activity
/// can start earlier while all others keep their starts. Feasible and active schedules are those of
/// Kolisch and Hartmann (1999). The only error is [`SgsFault::NoMemory`].
pub fn check(alloc: Global, instance: &Instance, starts: &[u64]) -> Result<Verdict, SgsFault>
    requires whole { length starts.now ≡ count_of instance.now.project.network }
    requires limit { All IsInTime starts.now }
    ensures verdict { IfOk result (IsFirstVerdict (problem_of instance.now) starts.now) }
    ensures active { IfOk result (λ v.
        (v ≡ Active) ↔ IsActive (problem_of instance.now) starts.now) }
    ensures err { IfErr result (λ fault. fault ≡ NoMemory) }
{
    if let Some((i, j)) = first_broken(instance, starts) {
        return Ok(Verdict::Arc(i, j));
    }
    if let Some((t, k)) = first_over(alloc, instance, starts)? {
        return Ok(Verdict::Over(t, k));
    }
    match first_shift(alloc, instance, starts)? {
        Some(j) => Ok(Verdict::Shift(j)),
        None => Ok(Verdict::Active),
    }
}
