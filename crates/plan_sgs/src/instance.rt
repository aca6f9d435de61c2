//! Instances: a project and its capacities.

ghost use Rattle.std.specs.Prelude.{◌≡◌, ◌-◌, ◌≤◌, Some, length, slice_get, slice_index, EachIndex};
ghost use Rattle.std.specs.Prelude.{IfOk, IfErr, IfSome, IfNone};
ghost use Rattle.plan_net.specs.Network.{IsActivity};
ghost use Rattle.plan_psplib.specs.Project.{AreAmounts, IsProject};
ghost use Rattle.plan_sgs.specs.Instances as spec;
ghost use Rattle.plan_sgs.specs.Problem.{NeedsFit, IsFirstTooMuch};

use crate::fault::SgsFault;
use plan_net::Network;
use plan_psplib::ProjectDoc;
use std::marker::Model;

/// A project and a capacity for each of its resources. No activity of positive duration needs more
/// of a resource than its capacity. Activities and resources are numbered from 1.
#[derive(Drop)]
pub struct Instance<'a> {
    project: &'a ProjectDoc,
    caps: &'a [u64],
}

impl<'a> Model for Instance<'a> {
    ghost use Rattle.plan_sgs.specs.Instances.{Planned, IsInstance};

    ghost Value = { Planned };

    ghost view = { λ i. record { project = i.project.now; capacities = i.caps.now } };

    ghost invariant = { λ i.
        IsInstance (record { project = i.project.now; capacities = i.caps.now }) };
}

// Returns the index of the first resource whose need exceeds its capacity.
pub(crate) fn first_above(needs: &[u64], caps: &[u64]) -> Option<usize>
    requires { length needs.now ≡ length caps.now }
    ensures some { IfSome result (spec.IsFirstAbove needs.now caps.now) }
    ensures none { IfNone result (EachIndex caps.now (λ k.
        slice_index needs.now k ≤ slice_index caps.now k)) }
{
    for k in 0..caps.len() {
        if needs[k] > caps[k] {
            return Some(k);
        }
    }
    None
}

// Returns the first activity of positive duration that needs more than a capacity, with the first
// such resource.
fn first_too_much(project: &ProjectDoc, caps: &[u64]) -> Option<(u32, u32)>
    requires { length caps.now ≡ length project.now.available }
    ensures some { IfSome result (λ found.
        IsFirstTooMuch (spec.problem_of (spec.planned project.now caps.now)) found.0 found.1) }
    ensures none { IfNone result (NeedsFit (spec.problem_of (spec.planned project.now caps.now))) }
    ensures project { IsProject project.now }
{
    let network = project.network();
    for i in 0..network.len() {
        let activity = i as u32 + 1;
        if network.duration(activity) > 0 {
            if let Some(k) = first_above(project.needs(activity), caps) {
                return Some((activity, k as u32 + 1));
            }
        }
    }
    None
}

impl<'a> Instance<'a> {
    /// Returns the instance of a project and a capacity for each of its resources. Allocates
    /// nothing.
    ///
    /// Fails with [`SgsFault::NeedsTooMuch`] if an activity of positive duration needs more of a
    /// resource than its capacity. It names the least such activity and its least such resource.
    pub fn of_project(project: &'a ProjectDoc, caps: &'a [u64]) -> Result<Instance<'a>, SgsFault>
        requires { length caps.now ≡ length project.now.available }
        ensures ok { IfOk result (λ i. i ≡ spec.planned project.now caps.now) }
        ensures refused { IfErr result (spec.RefusesInstance (spec.planned project.now caps.now)) }
    {
        match first_too_much(project, caps) {
            Some((act, res)) => Err(SgsFault::NeedsTooMuch { act, res }),
            None => Ok(Instance { project, caps }),
        }
    }

    /// Returns the network of the activities.
    pub fn network(&self) -> &Network
        ensures network { result.now ≡ self.now.project.network }
        ensures instance { spec.IsInstance self.now }
    {
        self.project.network()
    }

    /// Returns the need of activity `j` for each resource.
    pub fn needs(&self, j: u32) -> &[u64]
        requires { IsActivity self.now.project.network j }
        ensures row { slice_get self.now.project.needs (j - 1) ≡ Some result.now }
        ensures amounts { AreAmounts (length self.now.capacities) result.now }
    {
        self.project.needs(j)
    }

    /// Returns the capacity of each resource.
    pub fn caps(&self) -> &[u64]
        ensures { result.now ≡ self.now.capacities }
    {
        self.caps
    }
}
