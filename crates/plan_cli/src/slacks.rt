//! `plan slack`: the slack of each activity in a given schedule.

ghost use Rattle.std.specs.Prelude.{◌≡◌, map, IfErr, length};
ghost use Rattle.plan_table.specs.Names.{name_of};
ghost use Rattle.plan_sgs.specs.Instances.{planned};
ghost use Rattle.plan_errors.specs.Output.{Refuses};
ghost use Rattle.plan_cli.specs.TaskViews.{IsSlackViewOf};
ghost use Rattle.plan_cli.specs.Views.{IfView, view_of};
ghost use Rattle.plan_documents.specs.Plans.{IsOfProject, PlannedWith, RefusesFile, RefusesWith};
ghost use Rattle.plan_documents.specs.Details.{NamesVerdict};
ghost use Rattle.plan_documents.specs.Documents.{ids_in};
ghost use Rattle.plan_cli.specs.SlackRun as spec;

use crate::views::View;
use plan_documents::{
    Capacity, Subject, ids_of, infeasible_refusal, instance_with, read_project, read_starts,
    replaced, with_names,
};
use plan_errors::{About, CliFault, Code, refuse_words};
use plan_psplib::ProjectDoc;
use plan_report::SlackFault;
use plan_sgs::Instance;
use plan_table::{NameLine, resource_names};
use plan_views::slack_view;
use std::alloc::Global;

/// Returns the error of starts that have no slack.
pub(crate) fn slack_refusal(alloc: Global, fault: SlackFault) -> CliFault
    ensures { Refuses (spec.TellsSlackFault fault) result }
{
    match fault {
        SlackFault::NoMemory => CliFault::Memory,
        SlackFault::NotFeasible(verdict) => infeasible_refusal(alloc, verdict),
        SlackFault::Late => refuse_words(alloc, Code::LateEnd, About::Starts, "late"),
    }
}

// Returns the table of slacks for the starts in a text, for an instance with the ids in a file.
fn instance_slacks(
    alloc: Global,
    listed: &[u8],
    instance: &Instance,
    file: &[u8],
) -> Result<View, CliFault>
    ensures made { IfView result (IsSlackViewOf (ids_in file.now) listed.now instance.now) }
    ensures refused { IfErr result (Refuses (spec.TellsBadSlack (ids_in file.now) listed.now instance.now)) }
{
    let ids = ids_of(alloc, file)?;
    let starts = read_starts(alloc, instance.network(), &ids, listed)?;
    match slack_view(alloc, instance, &starts) {
        Ok(table) => Ok(View::Table(table)),
        Err(fault) => Err(slack_refusal(alloc, fault)),
    }
}

// Returns the table of slacks for the starts in a text, for an instance. Its error has the names in
// the file of the instance.
#[tactic(auto, using(plan_documents::proofs::SentenceLemmas::detailed_refuses))]
fn named_slacks(
    alloc: Global,
    listed: &[u8],
    instance: &Instance,
    subject: Subject<'_>,
    file: &[u8],
) -> Result<View, CliFault>
    ensures made { IfView result (IsSlackViewOf (ids_in file.now) listed.now instance.now) }
    ensures refused { IfErr result (Refuses (spec.TellsBadSlack (ids_in file.now) listed.now instance.now)) }
    ensures names { IfErr result (NamesVerdict subject.entry file.now) }
{
    match instance_slacks(alloc, listed, instance, file) {
        Ok(view) => Ok(view),
        Err(fault) => Err(with_names(alloc, subject, file, fault)),
    }
}

// Returns the table of slacks for the starts in a text, for a project with these capacities.
fn planned_slacks(
    alloc: Global,
    listed: &[u8],
    project: &ProjectDoc,
    capacities: &[u64],
    file: &[u8],
) -> Result<View, CliFault>
    requires { length capacities.now ≡ length project.now.available }
    ensures made { IfView result
        (IsSlackViewOf (ids_in file.now) listed.now (planned project.now capacities.now)) }
    ensures refused { IfErr result (Refuses
        (spec.TellsNoSlack (ids_in file.now) listed.now (planned project.now capacities.now))) }
{
    let instance = instance_with(alloc, project, capacities, file)?;
    named_slacks(alloc, listed, &instance, Subject::Project(&[]), file)
}

// Returns the table of slacks for a project with some capacities replaced.
fn project_slacks(
    alloc: Global,
    listed: &[u8],
    names: &[NameLine<'_>],
    given: &[Capacity<'_>],
    project: &ProjectDoc,
    file: &[u8],
) -> Result<View, CliFault>
    ensures made { IfView result (λ view. PlannedWith (map name_of names.now) given.now project.now
        (λ i. IsSlackViewOf (ids_in file.now) listed.now i view)) }
    ensures refused { IfErr result (Refuses
        (RefusesWith (map name_of names.now) given.now project.now
        (spec.TellsNoSlack (ids_in file.now) listed.now))) }
{
    let capacities = replaced(alloc, names, given, project.avail())?;
    planned_slacks(alloc, listed, project, &capacities, file)
}

/// Returns the table of slacks for the starts in one text and the project in another, with the
/// given capacities in place of those of the file.
pub(crate) fn slacks_of(
    alloc: Global,
    listed: &[u8],
    given: &[Capacity<'_>],
    file: &[u8],
) -> Result<View, CliFault>
    ensures made { IfView result (IsOfProject given.now (IsSlackViewOf (ids_in file.now) listed.now) file.now) }
    ensures refused { IfErr result (Refuses
        (RefusesFile given.now (spec.TellsNoSlack (ids_in file.now) listed.now) file.now)) }
{
    let project = read_project(alloc, file)?;
    let names = resource_names(alloc, file)?;
    project_slacks(alloc, listed, &names, given, &project, file)
}
