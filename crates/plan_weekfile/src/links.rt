//! The resources and the predecessors of the activities of a week.

ghost use Rattle.std.specs.Prelude.{◌≡◌, IfOk, map};
ghost use Rattle.plan_table.specs.Names.{name_of};
ghost use Rattle.plan_views.specs.LinkColumns.{links_of};
ghost use Rattle.plan_weekfile.specs.Links as spec;

use crate::listed::resource_lines;
use plan_kernel::Arc;
use plan_table::NameLine;
use plan_views::{ActivityLinks, needs_text, predecessors_text};
use plan_week::Week;
use plan_weeklist::ListedWeek;
use std::alloc::{AllocError, Global};

// The number of the first activity, as in a project file.
const FIRST: u32 = 2;

// Returns amounts as wider numbers.
fn wide(alloc: Global, needs: &[u32]) -> Result<Vec<u64>, AllocError>
    ensures { IfOk result (λ list. list.items ≡ needs.now) }
{
    let mut list = Vec::new(alloc);
    for &need in needs {
        list.push(need as u64)?;
    }
    Ok(list)
}

// Returns arcs between the numbers of activities.
fn numbered(alloc: Global, arcs: &[Arc]) -> Result<Vec<(u32, u32)>, AllocError>
    ensures { IfOk result (λ list. list.items ≡ map spec.numbered arcs.now) }
{
    let mut list = Vec::new(alloc);
    for arc in arcs {
        list.push((arc.from.saturating_add(FIRST), arc.to.saturating_add(FIRST)))?;
    }
    Ok(list)
}

// Returns what activity `k` needs.
fn needs_at(week: &Week, k: usize) -> &[u32]
    ensures { result.now ≡ spec.needs_at week.now k }
{
    match week.needs.get(k) {
        Some(needs) => needs,
        None => &[],
    }
}

// Returns the resources and the predecessors of activity `k`.
fn links_at(
    alloc: Global,
    week: &Week,
    resources: &[NameLine<'_>],
    ids: &[NameLine<'_>],
    arcs: &[(u32, u32)],
    k: u32,
) -> Result<ActivityLinks, AllocError>
    ensures { IfOk result (λ links. links_of links ≡ spec.links_at (map name_of resources.now)
        (map name_of ids.now) arcs.now week.now k) }
{
    let number = k.saturating_add(FIRST);
    let needs = wide(alloc, needs_at(week, k as usize))?;
    Ok(ActivityLinks {
        number: number as u64,
        resources: needs_text(alloc, resources, &needs)?,
        predecessors: predecessors_text(alloc, ids, number, arcs)?,
    })
}

/// Returns the resources and the predecessors of each activity of a week as texts, by the names of
/// the resources and the ids of the activities.
pub fn week_links(
    alloc: Global,
    listed: &ListedWeek,
    ids: &[NameLine<'_>],
) -> Result<Vec<ActivityLinks>, AllocError>
    ensures { IfOk result (λ links. map links_of links.items
        ≡ spec.week_links listed.now.table.resources (map name_of ids.now) listed.now.week) }
{
    let resources = resource_lines(alloc, &listed.table.resources)?;
    let arcs = numbered(alloc, &listed.week.arcs)?;
    let mut links = Vec::new(alloc);
    for k in 0..listed.week.durations.len() {
        links.push(links_at(alloc, &listed.week, &resources, ids, &arcs, k as u32)?)?;
    }
    Ok(links)
}
