//! The needs of activities, and the missing amounts of absences.

ghost use Rattle.std.specs.Prelude.{◌≡◌, IfOk};
ghost use Rattle.plan_weekfile.specs.Links.{needs_at as needed};
ghost use Rattle.plan_weeksheet.specs.WeekRectangles as spec;

use plan_kernel::Absence;
use plan_week::Week;
use std::alloc::{AllocError, Global};

// Returns amounts as 64-bit numbers.
fn wide(alloc: Global, needs: &[u32]) -> Result<Vec<u64>, AllocError>
    ensures { IfOk result (λ list. list.items ≡ needs.now) }
{
    let mut list = Vec::new(alloc);
    for &need in needs {
        list.push(need as u64)?;
    }
    Ok(list)
}

/// Returns the needs of activity `k`, one for each resource.
pub(crate) fn needs_at(alloc: Global, week: &Week, k: usize) -> Result<Vec<u64>, AllocError>
    ensures { IfOk result (λ list. list.items ≡ needed week.now k) }
{
    match week.needs.get(k) {
        Some(needs) => wide(alloc, needs),
        None => Ok(Vec::new(alloc)),
    }
}

// Returns the amount that an absence takes of resource `k`.
fn missing_amount(absence: &Absence, k: usize) -> u64
    ensures { result ≡ spec.missing_amount absence.now k }
{
    if k == absence.resource as usize {
        absence.amount as u64
    } else {
        0
    }
}

/// Returns the amount that an absence takes of each of `count` resources.
pub(crate) fn missing_amounts(
    alloc: Global,
    count: usize,
    absence: &Absence,
) -> Result<Vec<u64>, AllocError>
    ensures { IfOk result (λ list. list.items ≡ spec.missing_amounts count absence.now) }
{
    let mut list = Vec::new(alloc);
    for k in 0..count {
        list.push(missing_amount(absence, k))?;
    }
    Ok(list)
}
