//! The resources and the predecessors of activities, for two columns of a report.

ghost use Rattle.std.specs.Prelude.{◌≡◌, IfOk, map};
ghost use Rattle.plan_table.specs.Names.{name_of};
ghost use Rattle.plan_views.specs.LinkColumns.{links_of, predecessor_line, resource_line};
ghost use Rattle.plan_print.specs.Links as spec;

use plan_documents::Plan;
use plan_table::NameLine;
use plan_views::{ActivityLinks, project_links};
use std::alloc::{AllocError, Global};

// Returns the resources and the predecessors of the activities of a plan, by the names of its
// resources and the ids of its activities. A job shop has none.
fn plan_links(
    alloc: Global,
    plan: &Plan<'_>,
    resources: &[NameLine<'_>],
    ids: &[NameLine<'_>],
) -> Result<Vec<ActivityLinks>, AllocError>
    ensures { IfOk result (λ links. map links_of links.items ≡ spec.plan_links plan.now
        (map name_of resources.now) (map name_of ids.now)) }
{
    match plan {
        Plan::Project(instance, _) => project_links(alloc, instance, resources, ids),
        Plan::Shop(_) => Ok(Vec::new(alloc)),
    }
}

/// Returns the same if there are ids, and nothing without ids.
pub(crate) fn row_links(
    alloc: Global,
    plan: &Plan<'_>,
    resources: &[NameLine<'_>],
    ids: &[NameLine<'_>],
) -> Result<Vec<ActivityLinks>, AllocError>
    ensures { IfOk result (λ links. map links_of links.items ≡ spec.row_links plan.now
        (map name_of resources.now) (map name_of ids.now)) }
{
    if ids.is_empty() {
        return Ok(Vec::new(alloc));
    }
    plan_links(alloc, plan, resources, ids)
}

/// Returns the resources by the numbers of the activities.
pub(crate) fn resource_lines<'a>(
    alloc: Global,
    links: &'a [ActivityLinks],
) -> Result<Vec<NameLine<'a>>, AllocError>
    ensures { IfOk result (λ lines. map name_of lines.items
        ≡ map resource_line (map links_of links.now)) }
{
    let mut lines = Vec::new(alloc);
    for link in links {
        lines.push(NameLine {
            number: link.number,
            name: &link.resources,
        })?;
    }
    Ok(lines)
}

/// Returns the predecessors by the numbers of the activities.
pub(crate) fn predecessor_lines<'a>(
    alloc: Global,
    links: &'a [ActivityLinks],
) -> Result<Vec<NameLine<'a>>, AllocError>
    ensures { IfOk result (λ lines. map name_of lines.items
        ≡ map predecessor_line (map links_of links.now)) }
{
    let mut lines = Vec::new(alloc);
    for link in links {
        lines.push(NameLine {
            number: link.number,
            name: &link.predecessors,
        })?;
    }
    Ok(lines)
}
