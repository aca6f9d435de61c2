//! Job shops in flat order.

ghost use Rattle.std.specs.Prelude.{◌≡◌, ◌≤◌, ◌<◌, ◌↔◌, Some, length, slice_get, IfOk, IfErr};
ghost use Rattle.std.specs.Prelude.{IfSome, IfNone, IsTrue};
ghost use Rattle.plan_shop.specs.Docs as spec;

use crate::fault::ShopFault;
use plan_orlib::{ShopDoc, Step};
use std::alloc::{AllocError, Global};
use std::marker::Model;

/// A job shop: the numbers of its machines and jobs, and its steps in flat order, one job after the
/// other. Each job has one step for each machine. Jobs are numbered from 1, machines and flat steps
/// from 0.
#[derive(Drop)]
pub struct Shop {
    machines: u32,
    jobs: u32,
    steps: Vec<Step>,
}

impl Model for Shop {
    ghost use Rattle.plan_shop.specs.Shop.{JobShop};
    ghost use Rattle.plan_shop.specs.Docs.{IsSmallShop};

    ghost Value = { JobShop };

    ghost view = { λ s. record { machines = s.machines; jobs = s.jobs; steps = s.steps.items } };

    ghost invariant = { λ s.
        IsSmallShop (record { machines = s.machines; jobs = s.jobs; steps = s.steps.items }) };
}

// Returns the steps of all jobs, one job after the other.
fn flat_steps(alloc: Global, doc: &ShopDoc) -> Result<Vec<Step>, AllocError>
    ensures { IfOk result (λ steps. steps.items ≡ spec.flat_steps doc.now.jobs) }
{
    let mut steps = Vec::new(alloc);
    for place in 0..doc.jobs() {
        steps.extend_from_slice(doc.steps(place + 1))?;
    }
    Ok(steps)
}

// Tests whether a step of positive time is on a machine.
fn is_in_use(steps: &[Step], machine: u32) -> bool
    ensures { IsTrue result ↔ spec.IsInUse steps.now machine }
{
    steps
        .iter()
        .any(|step| step.machine == machine && step.time > 0)
}

// Returns the first machine that is in use although it is closed.
fn first_closed(steps: &[Step], usable: &[bool]) -> Option<usize>
    requires { length usable.now ≤ 20 }
    ensures some { IfSome result (spec.IsFirstClosed steps.now usable.now) }
    ensures none { IfNone result (spec.NoneIsClosed steps.now usable.now) }
{
    for machine in 0..usable.len() {
        if !usable[machine] && is_in_use(steps, machine as u32) {
            return Some(machine);
        }
    }
    None
}

impl Shop {
    /// Returns the shop of a file. `usable` states for each machine, from 0 on, whether it may be
    /// used.
    ///
    /// Fails with [`ShopFault::MachineClosed`] if a step of positive time is on a machine that may
    /// not be used. It names the least such machine. Any call can fail with
    /// [`ShopFault::NoMemory`].
    pub fn of_doc(alloc: Global, doc: &ShopDoc, usable: &[bool]) -> Result<Shop, ShopFault>
        requires { length usable.now ≡ doc.now.machines }
        ensures ok { IfOk result (λ shop. shop ≡ spec.shop_of doc.now) }
        ensures open { IfOk result (λ _.
            spec.NoneIsClosed (spec.flat_steps doc.now.jobs) usable.now) }
        ensures refused { IfErr result
            (spec.RefusesSteps (spec.flat_steps doc.now.jobs) usable.now) }
    {
        let machines = doc.machines();
        let steps = flat_steps(alloc, doc)?;
        match first_closed(&steps, usable) {
            Some(machine) => Err(ShopFault::MachineClosed(machine as u32)),
            None => Ok(Shop {
                machines,
                jobs: doc.jobs(),
                steps,
            }),
        }
    }

    /// Returns the number of machines.
    pub fn machines(&self) -> u32
        ensures value { result ≡ self.now.machines }
        ensures shop { spec.IsSmallShop self.now }
    {
        self.machines
    }

    /// Returns the number of jobs.
    pub fn jobs(&self) -> u32
        ensures value { result ≡ self.now.jobs }
        ensures shop { spec.IsSmallShop self.now }
    {
        self.jobs
    }

    /// Returns the step of a flat number. Allocates nothing.
    pub fn step(&self, i: u32) -> Step
        requires { i < length self.now.steps }
        ensures value { slice_get self.now.steps i ≡ Some result }
        ensures on { result.machine < self.now.machines }
        ensures short { result.time ≤ 10000 }
    {
        self.steps[i as usize]
    }
}
