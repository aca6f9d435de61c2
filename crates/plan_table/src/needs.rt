//! Needs above the capacities of a table.

ghost use Rattle.std.specs.Prelude.{◌≡◌, map, IfOk, slice_index_or};
ghost use Rattle.plan_table.specs.declared.fault.TableCode.TheVariants as code;
ghost use Rattle.plan_table.specs.Needs as spec;
ghost use Rattle.plan_table.specs.Reading.{Fails, Gives, fault};
ghost use Rattle.plan_table.specs.Table.{activity_of, resource_of};

use crate::cells::word_fault;
use crate::fault::{ReadError, TableCode};
use crate::table::{Activity, Resource, Table};
use std::alloc::{AllocError, Global};

// The words of the error: a resource, and its capacity.
fn above(alloc: Global, resource: &Resource) -> Result<Vec<u8>, AllocError>
    ensures { IfOk result (λ v. v.items ≡ spec.above (resource_of resource.now)) }
{
    let capacity = resource.capacity;
    let digits = format!(in alloc; "{capacity}")?;
    let mut word = Vec::from_slice(alloc, resource.name.as_bytes())?;
    word.extend_from_slice(b" above ")?;
    word.extend_from_slice(digits.as_bytes())?;
    Ok(word)
}

// The error of a need above the capacity of a resource.
fn need_fault(alloc: Global, line: u64, resource: &Resource) -> ReadError
    ensures { Fails result (fault {A = Unit {0}} code.NeedAbove line
        (spec.above (resource_of resource.now))) }
{
    match above(alloc, resource) {
        Ok(word) => word_fault(alloc, TableCode::NeedAbove, line, &word),
        Err(_) => ReadError::Memory,
    }
}

// The need at a place, 0 if there is none.
fn need_at(needs: &[u32], k: usize) -> u32
    ensures { result ≡ slice_index_or needs.now k 0 }
{
    if k < needs.len() { needs[k] } else { 0 }
}

// Checks that the needs of a row are at most the capacities.
#[tactic(auto, unfolding(crate::specs::Needs::needs_fit))]
fn check_row(
    alloc: Global,
    line: u64,
    needs: &[u32],
    resources: &[Resource],
) -> Result<(), ReadError>
    ensures { Gives (λ u. u) result (spec.needs_fit line needs.now 0
        (map resource_of resources.now)) }
{
    for (k, resource) in resources.iter().enumerate() {
        if need_at(needs, k) > resource.capacity {
            return Err(need_fault(alloc, line, resource));
        }
    }
    Ok(())
}

// Checks that the needs of an activity that takes time are at most the capacities.
fn check_activity(
    alloc: Global,
    resources: &[Resource],
    activity: &Activity,
) -> Result<(), ReadError>
    ensures { Gives (λ u. u) result (spec.activity_fits (map resource_of resources.now)
        (activity_of activity.now)) }
{
    if activity.duration == 0 {
        return Ok(());
    }
    check_row(alloc, activity.line, &activity.needs, resources)
}

// Checks that the needs of activities are at most the capacities.
#[tactic(auto, unfolding(crate::specs::Needs::activities_fit))]
fn check_activities(
    alloc: Global,
    resources: &[Resource],
    activities: &[Activity],
) -> Result<(), ReadError>
    ensures { Gives (λ u. u) result (spec.activities_fit (map resource_of resources.now)
        (map activity_of activities.now)) }
{
    for activity in activities {
        check_activity(alloc, resources, activity)?;
    }
    Ok(())
}

/// Checks that the needs of a table are at most the capacities of its resources. The error (T19) names
/// the line of the row, the resource and its capacity.
pub fn check_needs(alloc: Global, table: &Table) -> Result<(), ReadError>
    ensures { Gives (λ u. u) result (spec.table_fits table.now) }
{
    check_activities(alloc, &table.resources, &table.activities)
}
