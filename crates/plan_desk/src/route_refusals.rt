//! The refusals of the routes, each in its order.

ghost use Rattle.std.specs.Prelude.{◌≡◌, ◌⊎◌, ◌+◌, ◌≤◌, IfOk, IfNone, IfSome, IsOk, option_map};
ghost use Rattle.plan_psplib.specs.Faults.{IsWantOfMemory};
ghost use Rattle.plan_gantt.specs.FaultText.{file_fault_text_of};
ghost use Rattle.plan_rows.specs.Plans as plans;
ghost use Rattle.plan_desk.specs.BodyViews.{lag_body_in};
ghost use Rattle.plan_desk.specs.Replies.{reply_of};
ghost use Rattle.plan_desk.specs.RouteRefusals as spec;

use crate::bodies::LagBody;
use crate::document_refs::ProjectRef;
use crate::reply::{
    Reply, bad_body, bad_file, kind_differs, many_plans, numbers_spent, other_kind, unpublished,
};
use plan_gantt::file_fault_text;
use plan_net::Network;
use plan_orlib::read_shop;
use plan_psplib::{FileCode, FileFault, read_sm};
use plan_rows::{GREATEST_NUMBER, Kind, MOST_PLANS, PlanKind};
use std::alloc::{AllocError, Global};

// The first check that a file fails, if it fails one.
fn file_fault(alloc: Global, kind: PlanKind, name: &str, body: &[u8]) -> Option<FileFault>
    ensures read { IfNone result (spec.IsRead kind name.now body.now) }
    ensures fault { IfSome result (λ fault. IsWantOfMemory fault
        ⊎ spec.TellsFileFault kind name.now body.now (file_fault_text_of fault)) }
{
    match kind {
        PlanKind::Project => match read_sm(alloc, body) {
            Ok(_) => None,
            Err(fault) => Some(fault),
        },
        PlanKind::Shop => match read_shop(alloc, body, name.as_bytes()) {
            Ok(_) => None,
            Err(fault) => Some(fault),
        },
    }
}

// The refusal of a file, if it fails a check.
fn file_refusal(
    alloc: Global,
    kind: PlanKind,
    name: &str,
    body: &[u8],
) -> Result<Option<Reply>, AllocError>
    ensures { IfOk result (λ refusal.
        spec.IsFileRefusal kind name.now body.now (option_map reply_of refusal)) }
{
    let Some(fault) = file_fault(alloc, kind, name, body) else {
        return Ok(None);
    };
    if fault.code == FileCode::Memory {
        return Err(AllocError);
    }
    let text = file_fault_text(alloc, &fault)?;
    Ok(Some(bad_file(alloc, text.as_str())?))
}

// The refusal of an import, if there is one, by the number of plans that the desk has and the
// number of its next plan.
pub(crate) fn import_refusal(
    alloc: Global,
    held: usize,
    next: u64,
    kind: PlanKind,
    name: &str,
    body: &[u8],
) -> Result<Option<Reply>, AllocError>
    ensures told { IfOk result (λ refusal.
        spec.IsImportRefusal held next kind name.now body.now (option_map reply_of refusal)) }
    // A refusal before the file is read needs no memory.
    ensures early { (MOST_PLANS ≤ held) ⊎ (GREATEST_NUMBER + 1 ≤ next) → IsOk result }
{
    if held >= MOST_PLANS {
        return Ok(Some(many_plans()));
    }
    if next > GREATEST_NUMBER {
        return Ok(Some(numbers_spent()));
    }
    file_refusal(alloc, kind, name, body)
}

// The refusal of a bind, if there is one, by the kind of the published code and the kind of code
// that the plan takes.
pub(crate) fn bind_refusal(published: Option<Kind>, takes: Kind) -> Option<Reply>
    ensures { option_map reply_of result ≡ spec.bind_refusal_of published takes }
{
    match published {
        None => Some(unpublished()),
        Some(kind) if kind != takes => Some(kind_differs()),
        Some(_) => None,
    }
}

fn has_arc(network: &Network, from: u32, to: u32) -> bool
    ensures { result ≡ plans.has_arc network.now from to }
{
    network
        .arcs()
        .iter()
        .any(|arc| arc.0 == from && arc.1 == to)
}

// The refusal of a lag, if there is one, by its body and the project of the plan: None for a shop.
pub(crate) fn lag_refusal(body: LagBody, project: Option<&ProjectRef<'_>>) -> Option<Reply>
    ensures { option_map reply_of result
        ≡ spec.lag_refusal_of (lag_body_in body) (option_map (λ p. p.now) project.entry) }
{
    let Some(project) = project else {
        return Some(other_kind());
    };
    if has_arc(project.network(), body.from, body.to) {
        None
    } else {
        Some(bad_body())
    }
}
