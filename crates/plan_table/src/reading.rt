//! Tables out of texts.

ghost use Rattle.std.specs.Prelude.{◌≡◌, ◌++◌, ◌∷◌, Ok, map, IfOk, IfErr, OnOk};
ghost use Rattle.plan_net.specs.Limits.{IsSound};
ghost use Rattle.plan_table.specs.Jobs.{network_of, table_jobs};
ghost use Rattle.plan_table.specs.Limits.{IsWithinLimits};
ghost use Rattle.plan_table.specs.Listing.{listing_of, table_read, table_read_with};
ghost use Rattle.plan_table.specs.Needs.{table_fits};
ghost use Rattle.plan_table.specs.Overrides.{override_of};
ghost use Rattle.plan_table.specs.Refused as spec;
ghost use Rattle.plan_table.specs.Table.{activity_of};

use crate::checked::check;
use crate::fault::{ReadError, TableCode, TableFault};
use crate::listing::{Listing, read_listing};
use crate::needs::check_needs;
use crate::overrides::Override;
use crate::table::{Activity, Table};
use plan_net::NetFault;
use std::alloc::{AllocError, Global};

// The id of activity `j`.
#[tactic(auto, using(crate::proofs::CycleLemmas::id_there, crate::proofs::CycleLemmas::no_id))]
fn id_at(activities: &[Activity], j: u32) -> &str
    ensures { result.now ≡ spec.id_at (map activity_of activities.now) j }
{
    let place = (j as usize).saturating_sub(2);
    if place < activities.len() {
        activities[place].id.as_str()
    } else {
        ""
    }
}

// Puts an id behind others, and a space before it.
fn push_id(word: &mut Vec<u8>, id: &[u8]) -> Result<(), AllocError>
    ensures { OnOk result (word.new.items ≡ word.old.items ++ (32 ∷ id.now)) }
{
    word.push(b' ')?;
    word.extend_from_slice(id)
}

// The ids of activities, a space before each.
fn spaced_ids(
    alloc: Global,
    activities: &[Activity],
    numbers: &[u32],
) -> Result<Vec<u8>, AllocError>
    ensures { IfOk result (λ v. v.items ≡ spec.spaced_ids (map activity_of activities.now)
        numbers.now) }
{
    let mut word = Vec::new(alloc);
    for &j in numbers {
        push_id(&mut word, id_at(activities, j).as_bytes())?;
    }
    Ok(word)
}

// The fault of a table whose activities have a cycle.
fn cycle_fault(alloc: Global, activities: &[Activity], members: &[u32]) -> ReadError
    ensures { spec.IsCycleFault (map activity_of activities.now) members.now result }
{
    match spaced_ids(alloc, activities, members) {
        Ok(word) => ReadError::Fault(TableFault {
            code: TableCode::Cycle,
            line: 0,
            word,
        }),
        Err(_) => ReadError::Memory,
    }
}

// Checks that the activities of a table have no cycle.
fn check_cycle(alloc: Global, listing: &Listing) -> Result<(), ReadError>
    requires { IsWithinLimits (listing_of listing.now) }
    ensures sound { OnOk result (IsSound (network_of (table_jobs (listing_of listing.now)))) }
    ensures cycle { IfErr result (spec.IsCyclic (listing_of listing.now)) }
{
    match check(alloc, listing) {
        Ok(()) => Ok(()),
        Err(NetFault::Cycle(members)) => Err(cycle_fault(alloc, &listing.activities, &members)),
        Err(_) => Err(ReadError::Memory),
    }
}

/// Reads a table: its activities, resources and capacities, or the first check that it fails.
///
/// Only activities without a cycle make a table; otherwise the fault names the cycle by its ids (T11).
/// Behind all other checks a need above its capacity is T19, unless the activity takes no time.
pub fn read_table(alloc: Global, text: &[u8]) -> Result<Table, ReadError>
    // The table is the one that the text says.
    ensures found { IfOk result (λ t. table_read text.now ≡ Ok t) }
    // Its needs are at most its capacities.
    ensures fits { IfOk result (λ t. table_fits t ≡ Ok tt) }
    // Which check is the first that fails, or which cycle there is, or which need is too high.
    ensures refused { IfErr result (spec.IsRefused text.now) }
{
    read_table_with(alloc, &[], text)
}

/// Reads a table with given capacities, as [`read_table_with`] does, but its needs may be above its
/// capacities: a caller that replaces capacities checks them later.
#[tactic(auto, using(crate::proofs::CycleLemmas::unsound_first, crate::proofs::CycleLemmas::unsound_cycle))]
pub fn read_sound_table(
    alloc: Global,
    overrides: &[Override<'_>],
    text: &[u8],
) -> Result<Table, ReadError>
    // The table is the one that the text says with these capacities.
    ensures found { IfOk result (λ t. table_read_with (map override_of overrides.now) text.now
        ≡ Ok t) }
    // Which check is the first that fails, or which cycle there is.
    ensures refused { IfErr result (spec.IsUnsoundWith (map override_of overrides.now) text.now) }
{
    let listing = read_listing(alloc, overrides, text)?;
    check_cycle(alloc, &listing)?;
    Ok(Table {
        own_ids: listing.own_ids,
        activities: listing.activities,
        resources: listing.resources,
    })
}

/// Reads a table with given capacities, which override those in the table. If a resource is given
/// more than once, then its last capacity counts. A resource needs a capacity in the table or in
/// `overrides` (T10).
///
/// Overrides are checked behind all rows: T14 if the table doesn't have the resource, T12 (line 0)
/// if the capacity is above 10,000.
#[tactic(auto, using(crate::proofs::CycleLemmas::refused_unsound, crate::proofs::CycleLemmas::refused_need))]
pub fn read_table_with(
    alloc: Global,
    overrides: &[Override<'_>],
    text: &[u8],
) -> Result<Table, ReadError>
    // The table is the one that the text says with these capacities.
    ensures found { IfOk result (λ t. table_read_with (map override_of overrides.now) text.now
        ≡ Ok t) }
    // Its needs are at most its capacities.
    ensures fits { IfOk result (λ t. table_fits t ≡ Ok tt) }
    // Which check is the first that fails, or which cycle there is, or which need is too high.
    ensures refused { IfErr result (spec.IsRefusedWith (map override_of overrides.now) text.now) }
{
    let table = read_sound_table(alloc, overrides, text)?;
    check_needs(alloc, &table)?;
    Ok(table)
}
