//! The resources and the predecessors of the activities in a project file.

ghost use Rattle.std.specs.Prelude.{map, IfOk};
ghost use Rattle.plan_table.specs.Names.{name_of};
ghost use Rattle.plan_views.specs.LinkColumns.{links_of};
ghost use Rattle.plan_cli.specs.Links as spec;

use plan_documents::{Capacity, Subject, instance_with, read_project, replaced};
use plan_errors::CliFault;
use plan_table::{NameLine, resource_names};
use plan_views::{ActivityLinks, project_links};
use std::alloc::{AllocError, Global};

// Returns the resources and the predecessors of the activities in a project file, with the given
// capacities in place of those of the file.
#[tactic(auto, using(crate::proofs::LinkLemmas::links_are))]
fn file_links(
    alloc: Global,
    given: &[Capacity<'_>],
    ids: &[NameLine<'_>],
    file: &[u8],
) -> Result<Vec<ActivityLinks>, CliFault>
    ensures { IfOk result (λ links. spec.AreFileLinks (map name_of ids.now) given.now file.now
        (map links_of links.items)) }
{
    let project = read_project(alloc, file)?;
    let names = resource_names(alloc, file)?;
    let capacities = replaced(alloc, &names, given, project.avail())?;
    let instance = instance_with(alloc, &project, &capacities, file)?;
    Ok(project_links(alloc, &instance, &names, ids)?)
}

/// Returns the resources and the predecessors of the activities in a project file, if they have
/// ids. The file must have been read with these capacities before, so that only memory can run out.
pub(crate) fn project_links_in(
    alloc: Global,
    given: &[Capacity<'_>],
    ids: &[NameLine<'_>],
    file: &[u8],
) -> Result<Vec<ActivityLinks>, AllocError>
    ensures { IfOk result (λ links. spec.AreProjectLinks (map name_of ids.now) given.now file.now
        (map links_of links.items)) }
{
    if ids.is_empty() {
        return Ok(Vec::new(alloc));
    }
    file_links(alloc, given, ids, file).map_err(|_| AllocError)
}

/// Returns the same for a project. Job shops have none.
pub(crate) fn subject_links(
    alloc: Global,
    subject: Subject<'_>,
    ids: &[NameLine<'_>],
    file: &[u8],
) -> Result<Vec<ActivityLinks>, AllocError>
    ensures { IfOk result (λ links. spec.AreSubjectLinks (map name_of ids.now) subject.entry
        file.now (map links_of links.items)) }
{
    match subject {
        Subject::Project(given) => project_links_in(alloc, given, ids, file),
        Subject::Shop(_) => Ok(Vec::new(alloc)),
    }
}
