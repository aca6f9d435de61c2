//! The errors of a list with dates and of its plan.

ghost use Rattle.std.specs.Prelude.{◌≡◌, ◌++◌, IfOk, codes, map};
ghost use Rattle.plan_errors.specs.Codes.{name_of};
ghost use Rattle.plan_errors.specs.Output.{Refuses};
ghost use Rattle.plan_errors.specs.Parts.{parts_text};
ghost use Rattle.plan_table.specs.Table.{resource_of};
ghost use Rattle.plan_weekfile.specs.Lines as spec;

use crate::cells::dates_refusal;
use crate::clashes::overload_cause;
use plan_documents::{spreadsheet_refusal, table_refusal};
use plan_errors::{About, CliFault, Code, Key, Part, refuse, refuse_words};
use plan_table::Resource;
use plan_week::Overload;
use plan_weeklist::{ListFault, ListedWeek};
use plan_weeks::PlanFault;
use std::alloc::{AllocError, Global};

/// Returns the error of a list with dates. `file` are the bytes that were read.
pub(crate) fn list_refusal(alloc: Global, fault: ListFault, file: &[u8]) -> CliFault
    ensures { Refuses (spec.TellsList fault) result }
{
    match fault {
        ListFault::Memory => CliFault::Memory,
        ListFault::Dates(fault) => dates_refusal(alloc, &fault),
        ListFault::Spreadsheet(fault) => spreadsheet_refusal(alloc, fault),
        ListFault::Table(fault) => table_refusal(alloc, &fault, file),
    }
}

// Returns the name of a resource, an empty one if there is none.
fn resource_name(resources: &[Resource], place: usize) -> &str
    ensures { result.now ≡ spec.name_at (map resource_of resources.now) place }
{
    match resources.get(place) {
        Some(resource) => resource.name.as_str(),
        None => "",
    }
}

// Returns the name of a resource and an instant.
fn overload_parts(
    alloc: Global,
    resources: &[Resource],
    overload: &Overload,
) -> Result<Vec<Part>, AllocError>
    ensures { IfOk result (λ list. name_of Code.Overload ++ parts_text list.items
        ≡ spec.overload_line (map resource_of resources.now) overload.now) }
{
    let name = resource_name(resources, overload.resource as usize);
    let name = Part::Text(name.to_string(alloc)?);
    let instant = Part::Bare(Key::Time, overload.instant as u64);
    Ok(Vec::from_array(alloc, [name, instant])?)
}

// Returns the error of an overload, without a detail.
fn plain_overload(alloc: Global, resources: &[Resource], overload: &Overload) -> CliFault
    ensures { Refuses
        (spec.TellsOverload (map resource_of resources.now) overload.now) result }
{
    refuse(
        Code::Overload,
        About::List,
        overload_parts(alloc, resources, overload),
    )
}

// Returns the error of an overload. Its detail names the activities that can't move.
#[tactic(auto, using(plan_documents::proofs::RefusalLemmas::detailed_refused))]
fn overload_refusal(alloc: Global, listed: &ListedWeek, overload: &Overload) -> CliFault
    ensures { Refuses
        (spec.TellsOverload listed.now.table.resources overload.now) result }
{
    match overload_cause(alloc, listed, overload) {
        Ok(detail) => {
            plain_overload(alloc, &listed.table.resources, overload).with_detail(detail)
        }
        Err(_) => CliFault::Memory,
    }
}

/// Returns the error of a plan: `S11`, `S12` or `S13`. The conflict limit of a search is always
/// allowed here.
pub(crate) fn plan_refusal(alloc: Global, listed: &ListedWeek, fault: PlanFault) -> CliFault
    requires { spec.IsLimited fault }
    ensures { Refuses (spec.TellsPlan listed.now.table.resources fault) result }
{
    match fault {
        PlanFault::Memory => CliFault::Memory,
        PlanFault::BadConflicts => unreachable!(),
        PlanFault::Overload(overload) => overload_refusal(alloc, listed, &overload),
        PlanFault::Impossible => refuse_words(alloc, Code::NoPlan, About::List, "no plan"),
        PlanFault::NotFound => refuse_words(alloc, Code::NoneFound, About::List, "none found"),
    }
}
