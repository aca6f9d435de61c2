//! The numbers of a scheduling problem.

ghost use Rattle.std.specs.Prelude.{◌≡◌, ◌<◌, ◌^◌, All, map, IfOk};
ghost use Rattle.plan_sgs.specs.Instances as instances;
ghost use Rattle.plan_sgs.specs.Problem as problems;
ghost use Rattle.plan_kernel.specs.Inputs as spec;
ghost use Rattle.plan_kernel.specs.Plans.{IsPlain, HasSameNumbers};

use crate::literal::at;
use plan_sgs::Instance;
use std::alloc::{AllocError, Global};

/// Activity `to` starts no earlier than `lag` after the end of activity `from`. Activities are
/// numbered from 0.
#[derive(Clone, Copy, Drop)]
pub struct Arc {
    pub from: u32,
    pub to: u32,
    pub lag: u32,
}

/// Two activities of which one may end before the other starts. Its quantity is 1 if the first ends
/// before the second starts, else 0.
#[derive(Clone, Copy, Drop)]
pub struct Order {
    pub first: u32,
    pub second: u32,
}

/// The activity starts at `earliest` or later, and at `latest` or earlier. An appointment is a window
/// of one instant.
#[derive(Clone, Copy, Drop)]
pub struct StartWindow {
    pub activity: u32,
    pub earliest: u32,
    pub latest: u32,
}

/// So much of a resource is missing from instant `from` on, before instant `until`.
#[derive(Clone, Copy, Drop)]
pub struct Absence {
    pub resource: u32,
    pub from: u32,
    pub until: u32,
    pub amount: u32,
}

/// The numbers of a scheduling problem, and the orders that clauses may speak of. Activities and
/// resources are numbered from 0.
#[derive(Drop)]
pub struct Input {
    /// How long each activity lasts.
    pub durations: Vec<u32>,
    pub arcs: Vec<Arc>,
    /// For each activity its need of each resource.
    pub needs: Vec<Vec<u32>>,
    /// How much there is of each resource.
    pub capacities: Vec<u64>,
    /// Any two activities; only the clauses of orders depend on them.
    pub orders: Vec<Order>,
    /// Bounds of starts. An activity may have none, or several.
    pub windows: Vec<StartWindow>,
    /// Missing amounts of resources. Absences of one resource add up.
    pub absences: Vec<Absence>,
    /// For each activity what its end adds to the cost of a plan beyond the end itself, 0 where the
    /// list is shorter.
    pub tails: Vec<u32>,
}

/// Returns the need of an activity for a resource, 0 if there is no such activity or resource.
pub fn need(input: &Input, activity: usize, resource: usize) -> u32
    ensures { result ≡ problems.need (spec.problem_of input.now) activity resource }
{
    if activity < input.needs.len() {
        at(&input.needs[activity], resource)
    } else {
        0
    }
}

/// How much there is of a resource, 0 if there is no such resource.
pub fn capacity(input: &Input, resource: usize) -> u64
    ensures { result ≡ problems.capacity (spec.problem_of input.now) resource }
{
    if resource < input.capacities.len() {
        input.capacities[resource]
    } else {
        0
    }
}

/// The same problem with other orders.
pub fn with_orders(input: Input, orders: Vec<Order>) -> Input
    ensures same { HasSameNumbers result input }
    ensures orders { result.orders ≡ orders }
{
    Input { orders, ..input }
}

// The numbers of a list, of which none is above 2^32 - 1.
fn narrow(alloc: Global, list: &[u64]) -> Result<Vec<u32>, AllocError>
    requires { All (λ x. x < 2 ^ 32) list.now }
    ensures { IfOk result (λ narrowed. narrowed.items ≡ list.now) }
{
    let mut narrowed = Vec::new(alloc);
    for &number in list {
        narrowed.push(number as u32)?;
    }
    Ok(narrowed)
}

// The durations of all activities.
fn durations_of(alloc: Global, instance: &Instance) -> Result<Vec<u32>, AllocError>
    ensures { IfOk result (λ list. list.items ≡ instance.now.project.network.durations) }
{
    let network = instance.network();
    let mut durations = Vec::new(alloc);
    for place in 0..network.len() {
        durations.push(network.duration(place as u32 + 1) as u32)?;
    }
    Ok(durations)
}

// The arcs with their lags.
fn arcs_of(alloc: Global, instance: &Instance) -> Result<Vec<Arc>, AllocError>
    ensures { IfOk result (λ list. map spec.link_of list.items
        ≡ map (instances.link_of instance.now.project.network) instance.now.project.network.arcs) }
{
    let network = instance.network();
    let mut arcs = Vec::new(alloc);
    for &(from, to) in network.arcs() {
        arcs.push(Arc {
            from: from - 1,
            to: to - 1,
            lag: network.lag_between(from, to) as u32,
        })?;
    }
    Ok(arcs)
}

// The needs of all activities.
fn needs_of(alloc: Global, instance: &Instance) -> Result<Vec<Vec<u32>>, AllocError>
    ensures { IfOk result (λ rows. map (λ row. row.items) rows.items ≡ instance.now.project.needs) }
{
    let mut needs = Vec::new(alloc);
    for place in 0..instance.network().len() {
        needs.push(narrow(alloc, instance.needs(place as u32 + 1))?)?;
    }
    Ok(needs)
}

impl Input {
    /// The numbers of a project and its capacities, without windows, absences and tails.
    pub fn of_instance(
        alloc: Global,
        instance: &Instance,
        orders: Vec<Order>,
    ) -> Result<Input, AllocError>
        ensures problem { IfOk result (λ input. IsPlain input (instances.problem_of instance.now)) }
        ensures orders { IfOk result (λ input. input.orders ≡ orders) }
    {
        Ok(Input {
            durations: durations_of(alloc, instance)?,
            arcs: arcs_of(alloc, instance)?,
            needs: needs_of(alloc, instance)?,
            capacities: Vec::from_slice(alloc, instance.caps())?,
            orders,
            windows: Vec::new(alloc),
            absences: Vec::new(alloc),
            tails: Vec::new(alloc),
        })
    }
}
