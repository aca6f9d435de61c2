//! The sheet of a project's starts whose activities have ids.

ghost use Rattle.std.specs.Prelude.{◌≡◌, ◌≤◌, ◌-◌, All, IfOk, map};
ghost use Rattle.plan_net.specs.Network.{IsActivity, count_of};
ghost use Rattle.plan_table.specs.Names.{name_of};
ghost use Rattle.plan_report.specs.Sheet as sheets;
ghost use Rattle.plan_report.specs.IdSheets as spec;

use crate::sheet::{Absence, Entry, IdEntry, Sheet};
use crate::starts::{ACTIVITY_COLUMNS, activity_entries};
use crate::waits::{is_wait, place_before};
use plan_net::Network;
use plan_table::{NameLine, first_name};
use std::alloc::{AllocError, Global};

// Tests whether an activity has an id.
fn is_named(ids: &[NameLine<'_>], j: u64) -> bool
    ensures { result ≡ spec.is_named (map name_of ids.now) j }
{
    first_name(ids, j).is_some()
}

/// Returns the number of the first activity behind the rows of a table. The rows are the activities
/// from 2 on, as many as have an id.
#[tactic(auto, unfolding(crate::specs::IdSheets::first_behind))]
pub fn first_behind(ids: &[NameLine<'_>], network: &Network) -> usize
    ensures number { result ≡ spec.first_behind (map name_of ids.now) network.now }
    ensures low { 2 ≤ result }
    ensures within { result - 2 ≤ count_of network.now - 2 }
{
    let mut behind = 2;
    for j in 2..network.len() {
        if is_named(ids, j as u64) {
            behind += 1;
        }
    }
    behind
}

// Tests whether an activity before `behind` has an id, or another one is a wait.
fn is_placed(ids: &[NameLine<'_>], network: &Network, behind: usize, j: u32) -> bool
    ensures { result ≡ spec.is_placed (map name_of ids.now) network.now behind j }
{
    if (j as usize) < behind {
        is_named(ids, u64::from(j))
    } else {
        is_wait(behind, network, j)
    }
}

// Tests whether all activities between the first and the last have an id or are waits, from
// `behind` on.
fn are_inner_placed(ids: &[NameLine<'_>], network: &Network, behind: usize) -> bool
    requires { behind ≡ spec.first_behind (map name_of ids.now) network.now }
    ensures { result ≡ spec.are_inner_placed (map name_of ids.now) network.now }
{
    for j in 2..network.len() {
        if !is_placed(ids, network, behind, j as u32) {
            return false;
        }
    }
    true
}

// Tests whether all activities but the first and the last have an id or are waits, from `behind`
// on.
fn are_complete(ids: &[NameLine<'_>], network: &Network, behind: usize) -> bool
    requires { behind ≡ spec.first_behind (map name_of ids.now) network.now }
    ensures { result ≡ spec.are_complete (map name_of ids.now) network.now }
{
    !is_named(ids, 1)
        && !is_named(ids, network.len() as u64)
        && are_inner_placed(ids, network, behind)
}

// Returns the id of an activity, empty if it has none.
fn id_of<'a>(ids: &[NameLine<'a>], j: u32) -> &'a [u8]
    ensures { result.now ≡ spec.id_of (map name_of ids.now) j }
{
    match first_name(ids, u64::from(j)) {
        Some(id) => id,
        None => &[],
    }
}

// Returns an activity by its id.
fn id_entry<'a>(
    alloc: Global,
    ids: &[NameLine<'a>],
    network: &Network,
    j: u32,
) -> Result<IdEntry<'a>, AllocError>
    requires { IsActivity network.now j }
    ensures entry { IfOk result (λ entry. sheets.id_entry_of entry
        ≡ spec.id_entry (map name_of ids.now) network.now j) }
    ensures short { IfOk result (λ entry. entry.entry.duration ≤ 10000) }
{
    let duration = network.duration(j);
    let keys = Vec::from_array(alloc, [duration])?;
    Ok(IdEntry {
        id: id_of(ids, j),
        entry: Entry {
            keys,
            duration,
            absence: Absence::Never,
        },
    })
}

// Returns the activities before `behind` by their ids.
fn row_entries<'a>(
    alloc: Global,
    ids: &[NameLine<'a>],
    network: &Network,
    behind: usize,
) -> Result<Vec<IdEntry<'a>>, AllocError>
    requires behind { behind ≡ spec.first_behind (map name_of ids.now) network.now }
    requires low { 2 ≤ behind }
    requires within { behind - 2 ≤ count_of network.now - 2 }
    ensures entries { IfOk result (λ entries. map sheets.id_entry_of entries.items
        ≡ spec.row_entries (map name_of ids.now) network.now) }
    ensures short { IfOk result (λ entries.
        All (λ entry. entry.entry.duration ≤ 10000) entries.items) }
{
    // The proof needs the network's limits, which this call states.
    let _count = network.len();
    let mut entries = Vec::new(alloc);
    for j in 2..behind {
        let entry = id_entry(alloc, ids, network, j as u32)?;
        entries.push(entry)?;
    }
    Ok(entries)
}

// Returns for each wait, from `behind` on, the place of the activity that it is behind.
fn places_from(alloc: Global, network: &Network, behind: usize) -> Result<Vec<usize>, AllocError>
    ensures { IfOk result (λ places. places.items ≡ spec.places_from network.now behind) }
{
    let mut places = Vec::new(alloc);
    for j in behind..network.len() {
        places.push(place_before(network, j as u32))?;
    }
    Ok(places)
}

/// Returns the sheet of a project's starts, with the ids of its activities.
#[tactic(auto, unfolding(crate::specs::IdSheets::id_sheet))]
pub(crate) fn id_sheet<'a>(
    alloc: Global,
    network: &Network,
    ids: &[NameLine<'a>],
) -> Result<Sheet<'a>, AllocError>
    ensures sheet { IfOk result (λ sheet. sheets.sheet_of sheet
        ≡ spec.id_sheet (map name_of ids.now) network.now) }
    ensures short { IfOk result (λ sheet.
        All (λ entry. entry.duration ≤ 10000) sheet.entries.items) }
    ensures ids { IfOk result (λ sheet.
        All (λ entry. entry.entry.duration ≤ 10000) sheet.by_id.items) }
{
    let behind = first_behind(ids, network);
    let mut by_id = Vec::new(alloc);
    let mut waits = Vec::new(alloc);
    if are_complete(ids, network, behind) {
        by_id = row_entries(alloc, ids, network, behind)?;
        waits = places_from(alloc, network, behind)?;
    }
    Ok(Sheet {
        columns: ACTIVITY_COLUMNS,
        entries: activity_entries(alloc, network)?,
        by_id,
        waits,
    })
}
