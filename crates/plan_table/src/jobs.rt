//! The jobs of a table, with a dummy before them and one behind them.

ghost use Rattle.std.specs.Prelude.{◌≡◌, ◌≤◌, ◌++◌, [], ◌∷◌, if◌then◌else◌, length, map, IfOk, OnOk};
ghost use Rattle.plan_table.specs.Table as table;
ghost use Rattle.plan_table.specs.Jobs as spec;
ghost use Rattle.plan_table.specs.Limits.{most_rows};

use crate::table::{Activity, Resource};
use std::alloc::{AllocError, Global};

/// A job of a project file: its duration, its successors, and what it needs of each resource.
#[derive(Drop)]
pub struct Job {
    pub duration: u32,
    pub successors: Vec<u32>,
    pub needs: Vec<u32>,
}

// Puts a number at the end if it passes.
fn push_if(numbers: &mut Vec<u32>, passes: bool, j: u32) -> Result<(), AllocError>
    ensures { OnOk result (numbers.new.items ≡ numbers.old.items
        ++ (if passes then j ∷ [] else [])) }
{
    if passes {
        numbers.push(j)?;
    }
    Ok(())
}

// The activities without predecessors.
fn first_activities(alloc: Global, activities: &[Activity]) -> Result<Vec<u32>, AllocError>
    requires { length activities.now ≤ most_rows }
    ensures { IfOk result (λ v. v.items ≡ spec.numbers_where spec.is_first
        (map table.activity_of activities.now)) }
{
    let mut numbers = Vec::new(alloc);
    for (k, activity) in activities.iter().enumerate() {
        let passes = activity.predecessors.as_slice().is_empty();
        push_if(&mut numbers, passes, k as u32 + 2)?;
    }
    Ok(numbers)
}

// The activities of which `j` is a predecessor.
fn followers(alloc: Global, activities: &[Activity], j: u32) -> Result<Vec<u32>, AllocError>
    requires { length activities.now ≤ most_rows }
    ensures { IfOk result (λ v. v.items ≡ spec.numbers_where (spec.follows j)
        (map table.activity_of activities.now)) }
{
    let mut numbers = Vec::new(alloc);
    for (k, activity) in activities.iter().enumerate() {
        let passes = activity.predecessors.as_slice().contains(&j);
        push_if(&mut numbers, passes, k as u32 + 2)?;
    }
    Ok(numbers)
}

// The successors of activity `j`: the last job if no activity follows.
fn successors(alloc: Global, activities: &[Activity], j: u32) -> Result<Vec<u32>, AllocError>
    requires { length activities.now ≤ most_rows }
    ensures { IfOk result (λ v. v.items ≡ spec.successors_of
        (map table.activity_of activities.now) j) }
{
    let mut found = followers(alloc, activities, j)?;
    if found.as_slice().is_empty() {
        found.push(activities.len() as u32 + 2)?;
    }
    Ok(found)
}

// These amounts; a single 0 in place of none.
fn or_zero(alloc: Global, amounts: &[u32]) -> Result<Vec<u32>, AllocError>
    ensures { IfOk result (λ v. v.items ≡ spec.or_zero amounts.now) }
{
    if amounts.is_empty() {
        return vec![in alloc; 0; 1];
    }
    Vec::from_slice(alloc, amounts)
}

/// How much there is of each resource.
pub fn capacities(alloc: Global, resources: &[Resource]) -> Result<Vec<u32>, AllocError>
    ensures { IfOk result (λ v. v.items ≡ spec.capacities_of
        (map table.resource_of resources.now)) }
{
    let mut capacities = Vec::new(alloc);
    for resource in resources {
        capacities.push(resource.capacity)?;
    }
    or_zero(alloc, &capacities)
}

// A job that takes no time and needs nothing.
fn dummy(alloc: Global, successors: Vec<u32>, resources: usize) -> Result<Job, AllocError>
    ensures { IfOk result (λ j. spec.job_in j ≡ spec.dummy successors.items resources) }
{
    Ok(Job {
        duration: 0,
        successors,
        needs: vec![in alloc; 0; resources]?,
    })
}

// The job of activity `j`.
fn activity_job(
    alloc: Global,
    activities: &[Activity],
    j: u32,
    activity: &Activity,
) -> Result<Job, AllocError>
    requires { length activities.now ≤ most_rows }
    ensures { IfOk result (λ made. spec.job_in made ≡ spec.job_of
        (map table.activity_of activities.now) j (table.activity_of activity.now)) }
{
    Ok(Job {
        duration: activity.duration,
        successors: successors(alloc, activities, j)?,
        needs: or_zero(alloc, &activity.needs)?,
    })
}

/// The jobs of a table: a dummy, the activities, and a dummy.
pub fn jobs(
    alloc: Global,
    activities: &[Activity],
    resources: usize,
) -> Result<Vec<Job>, AllocError>
    requires { length activities.now ≤ most_rows }
    ensures { IfOk result (λ made. map spec.job_in made.items ≡ spec.jobs_of
        (map table.activity_of activities.now) resources) }
{
    let first = dummy(alloc, first_activities(alloc, activities)?, resources)?;
    let mut made = vec![in alloc; first]?;
    for (k, activity) in activities.iter().enumerate() {
        let next = activity_job(alloc, activities, k as u32 + 2, activity)?;
        made.push(next)?;
    }
    made.push(dummy(alloc, Vec::new(alloc), resources)?)?;
    Ok(made)
}
