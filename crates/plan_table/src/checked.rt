//! Tables whose activities have no cycle.

ghost use Rattle.std.specs.Prelude.{◌≡◌, ◌≤◌, length, map, All, IfOk, IfErr, OnOk};
ghost use Rattle.plan_net.specs.Limits.{IsSound};
ghost use Rattle.plan_net.specs.Refusals.{IsCycleOrMemory, IsFirstFault};
ghost use Rattle.plan_net.specs.Successors.{rows_in};
ghost use Rattle.plan_table.specs.Jobs.{durations_of, job_in, network_of, rows_of, table_jobs};
ghost use Rattle.plan_table.specs.Limits.{IsWithinLimits, most_rows};
ghost use Rattle.plan_table.specs.Listing.{listing_of};

use crate::jobs::{Job, capacities, jobs};
use crate::listing::Listing;
use plan_net::{NetFault, Network};
use std::alloc::{AllocError, Global};

// The durations of jobs.
fn durations(alloc: Global, jobs: &[Job]) -> Result<Vec<u64>, AllocError>
    ensures { IfOk result (λ v. v.items ≡ durations_of (map job_in jobs.now)) }
{
    let mut durations = Vec::new(alloc);
    for job in jobs {
        durations.push(u64::from(job.duration))?;
    }
    Ok(durations)
}

// The successors of jobs.
fn rows(alloc: Global, jobs: &[Job]) -> Result<Vec<Vec<u32>>, AllocError>
    ensures { IfOk result (λ v. rows_in v.items ≡ rows_of (map job_in jobs.now)) }
{
    let mut rows = Vec::new(alloc);
    for job in jobs {
        let row = Vec::from_slice(alloc, &job.successors)?;
        rows.push(row)?;
    }
    Ok(rows)
}

// The jobs of a table.
fn all_jobs(alloc: Global, listing: &Listing) -> Result<Vec<Job>, AllocError>
    requires { length listing.now.activities.items ≤ most_rows }
    ensures { IfOk result (λ v. map job_in v.items ≡ table_jobs (listing_of listing.now)) }
{
    let capacities = capacities(alloc, &listing.resources)?;
    jobs(alloc, &listing.activities, capacities.as_slice().len())
}

/// Whether the activities of a table within the limits have no cycle.
pub fn check(alloc: Global, listing: &Listing) -> Result<(), NetFault>
    requires { IsWithinLimits (listing_of listing.now) }
    ensures sound { OnOk result (IsSound (network_of (table_jobs (listing_of listing.now)))) }
    ensures refused { IfErr result (IsFirstFault
        (network_of (table_jobs (listing_of listing.now)))) }
    ensures only { IfErr result IsCycleOrMemory }
{
    let jobs = all_jobs(alloc, listing)?;
    let durations = durations(alloc, &jobs)?;
    let rows = rows(alloc, &jobs)?;
    Network::of_rows(alloc, durations, rows)?;
    Ok(())
}
