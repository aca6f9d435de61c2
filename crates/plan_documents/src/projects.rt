//! Projects that are read from files.

ghost use Rattle.std.specs.Prelude.{◌≡◌, IfOk, IfErr, length};
ghost use Rattle.plan_psplib.specs.Project.{SaysProject};
ghost use Rattle.plan_sgs.specs.Instances.{planned};
ghost use Rattle.plan_gantt.specs.FirstFaults.{TellsFirstFailing};
ghost use Rattle.plan_errors.specs.Output.{Refuses};
ghost use Rattle.plan_documents.specs.Details.{NamesNeed};
ghost use Rattle.plan_documents.specs.ScheduleRun.{TellsNeed};

use crate::details::need_fault;
use crate::refusals::file_refusal;
use plan_errors::CliFault;
use plan_psplib::{ProjectDoc, read_sm};
use plan_sgs::{Instance, SgsFault};
use std::alloc::Global;

/// Reads the project in a file.
pub fn read_project(alloc: Global, file: &[u8]) -> Result<ProjectDoc, CliFault>
    ensures said { IfOk result (SaysProject file.now) }
    ensures refused { IfErr result (Refuses (TellsFirstFailing file.now)) }
{
    read_sm(alloc, file).map_err(|fault| file_refusal(alloc, &fault, file))
}

/// Returns the instance of the project in a file, with these capacities.
pub fn instance_with<'a>(
    alloc: Global,
    project: &'a ProjectDoc,
    capacities: &'a [u64],
    file: &[u8],
) -> Result<Instance<'a>, CliFault>
    requires { length capacities.now ≡ length project.now.available }
    ensures ok { IfOk result (λ instance. instance ≡ planned project.now capacities.now) }
    ensures refused { IfErr result (Refuses (TellsNeed (planned project.now capacities.now))) }
    ensures detail { IfErr result (NamesNeed file.now (planned project.now capacities.now)) }
{
    match Instance::of_project(project, capacities) {
        Ok(instance) => Ok(instance),
        Err(SgsFault::NeedsTooMuch { act, res }) => {
            Err(need_fault(alloc, file, project, capacities, act, res))
        }
        Err(_) => unreachable!(),
    }
}
