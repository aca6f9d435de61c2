//! The capacities of the resources of a plan, and its open machines.

ghost use Rattle.std.specs.Prelude.{◌≡◌, IfOk};
ghost use Rattle.plan_desk.specs.PlanValues as values;

use crate::bound::BoundPlace;
use std::alloc::{AllocError, Global};

// The published capacity of the code that is bound to a place.
fn capacity_at(places: &[BoundPlace], place: u64) -> Option<u64>
    ensures { result ≡ values.capacity_at places.now place }
{
    for bound in places {
        if bound.place == place {
            return bound.capacity;
        }
    }
    None
}

// The capacities of a project's resources, whose places count from 1: the published capacity of the
// bound code, else the capacity in the file.
pub(crate) fn capacities(
    alloc: Global,
    places: &[BoundPlace],
    available: &[u64],
) -> Result<Vec<u64>, AllocError>
    ensures { IfOk result
        (λ caps. caps.items ≡ values.capacities_in places.now 1 available.now) }
{
    let mut caps = Vec::with_capacity(alloc, available.len())?;
    for (k, &there) in available.iter().enumerate() {
        caps.push(capacity_at(places, k as u64 + 1).unwrap_or(there))?;
    }
    Ok(caps)
}

// Whether a machine is open: it is closed if its bound code has capacity 0.
fn is_open(capacity: Option<u64>) -> bool
    ensures { result ≡ values.is_open_at capacity }
{
    capacity != Some(0)
}

// Which machines of a shop are open. Their places count from 0.
pub(crate) fn open_machines(
    alloc: Global,
    places: &[BoundPlace],
    machines: u32,
) -> Result<Vec<bool>, AllocError>
    ensures { IfOk result (λ usable. usable.items ≡ values.machines_in places.now machines) }
{
    let mut usable = Vec::with_capacity(alloc, machines as usize)?;
    for machine in 0..machines {
        usable.push(is_open(capacity_at(places, machine as u64)))?;
    }
    Ok(usable)
}
