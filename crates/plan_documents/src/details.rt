//! The causes of errors with the names in a file.

ghost use Rattle.std.specs.Prelude.{◌≡◌, ◌++◌, IfOk, IfSome, codes, map, string_bytes};
ghost use Rattle.std.specs.Fmt.{decimal};
ghost use Rattle.plan_gantt.specs.ScheduleFaultText as lines;
ghost use Rattle.plan_errors.specs.Output.{Refuses};
ghost use Rattle.plan_sgs.specs.Instances.{planned, problem_of};
ghost use Rattle.plan_sgs.specs.Problem.{IsFirstTooMuch};
ghost use Rattle.plan_table.specs.Names.{name_of};
ghost use Rattle.plan_documents.specs.Details as spec;

use crate::labels::{id_label, push_activity};
use crate::refusals::need_refusal;
use plan_errors::CliFault;
use plan_psplib::ProjectDoc;
use plan_table::{NameLine, activity_ids, activity_names, first_name, resource_names};
use std::alloc::{AllocError, Global};
use std::fmt::Write;

// Returns a word and a number.
fn numbered(alloc: Global, word: &str, n: u32) -> Result<String, AllocError>
    ensures { IfOk result (λ text. string_bytes text ≡ word.now ++ codes " " ++ decimal n) }
{
    let mut text = word.to_string(alloc)?;
    write!(text, " {n}")?;
    Ok(text)
}

// Returns the first name of a number among names, or else a word and the number.
fn label(alloc: Global, names: &[NameLine<'_>], word: &str, n: u32) -> Result<String, AllocError>
    ensures { IfOk result (λ text.
        string_bytes text ≡ spec.label word.now (map name_of names.now) n) }
{
    match first_name(names, n as u64) {
        Some(name) => String::from_utf8_lossy(alloc, name),
        None => numbered(alloc, word, n),
    }
}

// Returns an activity of a project file by its id and its name, or by the one that it has.
fn activity_label(alloc: Global, file: &[u8], n: u32) -> Result<String, AllocError>
    ensures { IfOk result (λ text. string_bytes text ≡ spec.activity_label file.now n) }
{
    let ids = activity_ids(alloc, file)?;
    let names = activity_names(alloc, file)?;
    let called = id_label(alloc, &ids, &names, n)?;
    let mut text = String::new(alloc);
    push_activity(&mut text, n, &called)?;
    Ok(text)
}

// Returns a resource of a project file by its name, if it has one.
fn resource_label(alloc: Global, file: &[u8], n: u32) -> Result<String, AllocError>
    ensures { IfOk result (λ text. string_bytes text ≡ spec.resource_label file.now n) }
{
    let names = resource_names(alloc, file)?;
    label(alloc, &names, "resource", n)
}

// Returns the sentence that an activity needs more of a resource than its capacity.
fn need_sentence(
    alloc: Global,
    activity: &str,
    resource: &str,
    need: u64,
    capacity: u64,
) -> Result<String, AllocError>
    ensures { IfOk result (λ text. string_bytes text
        ≡ spec.need_detail activity.now resource.now need capacity) }
{
    let mut text = activity.to_string(alloc)?;
    write!(text, " needs {need} of {resource}, which has {capacity}")?;
    Ok(text)
}

// Returns the sentence that an activity of a project file needs more of a resource than its
// capacity, with their names.
fn need_detail(
    alloc: Global,
    file: &[u8],
    activity: u32,
    resource: u32,
    need: u64,
    capacity: u64,
) -> Result<String, AllocError>
    ensures { IfOk result (λ text. string_bytes text ≡ spec.need_detail
        (spec.activity_label file.now activity) (spec.resource_label file.now resource)
        need capacity) }
{
    let activity = activity_label(alloc, file, activity)?;
    let resource = resource_label(alloc, file, resource)?;
    need_sentence(alloc, activity.as_str(), resource.as_str(), need, capacity)
}

// Returns the need of an activity for a resource, and the capacity of the resource.
fn amounts(
    project: &ProjectDoc,
    capacities: &[u64],
    activity: u32,
    resource: u32,
) -> Option<(u64, u64)>
    requires { IsFirstTooMuch
        (problem_of (planned project.now capacities.now)) activity resource }
    ensures need { IfSome result (λ found. found.0
        ≡ spec.need_of (planned project.now capacities.now) activity resource) }
    ensures capacity { IfSome result (λ found. found.1
        ≡ spec.capacity_of (planned project.now capacities.now) resource) }
{
    let k = (resource as usize).saturating_sub(1);
    let need = *project.needs(activity).get(k)?;
    let capacity = *capacities.get(k)?;
    Some((need, capacity))
}

// Returns the sentence that an activity of a project needs more of a resource than its capacity.
fn need_text(
    alloc: Global,
    file: &[u8],
    project: &ProjectDoc,
    capacities: &[u64],
    activity: u32,
    resource: u32,
) -> Result<Option<String>, AllocError>
    requires { IsFirstTooMuch
        (problem_of (planned project.now capacities.now)) activity resource }
    ensures { IfOk result (λ made. IfSome made (λ text. string_bytes text ≡ spec.need_text
        file.now (planned project.now capacities.now) activity resource)) }
{
    let Some((need, capacity)) = amounts(project, capacities, activity, resource) else {
        return Ok(None);
    };
    Ok(Some(need_detail(alloc, file, activity, resource, need, capacity)?))
}

/// Returns the error of a project in a file whose first need above a capacity is that of this
/// activity for this resource.
#[tactic(auto, using(crate::proofs::DetailLemmas::need_told))]
pub fn need_fault(
    alloc: Global,
    file: &[u8],
    project: &ProjectDoc,
    capacities: &[u64],
    activity: u32,
    resource: u32,
) -> CliFault
    requires { IsFirstTooMuch
        (problem_of (planned project.now capacities.now)) activity resource }
    ensures told { Refuses (λ line. line ≡ lines.need_text activity resource) result }
    ensures detail { spec.NamesNeed file.now (planned project.now capacities.now) result }
{
    match need_text(alloc, file, project, capacities, activity, resource) {
        Ok(detail) => need_refusal(alloc, activity, resource).with_detail(detail),
        Err(_) => CliFault::Memory,
    }
}
