//! Texts of starts, and their errors.

ghost use Rattle.std.specs.Prelude.{◌≡◌, ◌++◌, All, IfOk, IfErr, codes, length};
ghost use Rattle.plan_net.specs.Network.{count_of};
ghost use Rattle.plan_profile.specs.Usage.{IsInTime};
ghost use Rattle.plan_shop.specs.Shop.{count_steps};
ghost use Rattle.plan_report.specs.IdSheets.{id_sheet};
ghost use Rattle.plan_report.specs.StartsText.{SaysStarts, step_sheet};
ghost use Rattle.plan_errors.specs.Faults.{IsAbout};
ghost use Rattle.plan_errors.specs.Output.{Refuses};
ghost use Rattle.plan_errors.specs.Parts.{parts_text};
ghost use Rattle.plan_documents.specs.Documents.{count_of as plan_count, sheet_of};
ghost use Rattle.plan_documents.specs.Refusals.{place_of};
ghost use Rattle.plan_documents.specs.Starts as spec;

use crate::documents::{Ids, Plan};
use crate::refusals::{file_code, place_parts};
use plan_errors::{About, CliFault, Part, refuse};
use plan_net::Network;
use plan_psplib::{FileCode, FileFault, ReadError};
use plan_report::{read_id_starts_text, read_shop_starts_text};
use plan_shop::Shop;
use std::alloc::{AllocError, Global};

// Returns the place of an error in a text of starts.
fn starts_parts(alloc: Global, fault: &FileFault) -> Result<Vec<Part>, AllocError>
    ensures { IfOk result (λ list.
        parts_text list.items ≡ place_of fault.now ++ codes " of the starts") }
{
    let mut parts = place_parts(alloc, fault)?;
    parts.push(Part::Words("of the starts"))?;
    Ok(parts)
}

// Returns the error of a text of starts.
fn starts_refusal(alloc: Global, fault: &FileFault) -> CliFault
    ensures told { Refuses (spec.TellsStarts fault.now) result }
    ensures about { IsAbout About.Starts result }
{
    if fault.code == FileCode::Memory {
        return CliFault::Memory;
    }
    refuse(
        file_code(fault.code),
        About::Starts,
        starts_parts(alloc, fault),
    )
}

// Returns the error of a text of starts that can't be read.
fn read_refusal(alloc: Global, error: ReadError) -> CliFault
    ensures told { spec.IsStartsError error result }
{
    starts_refusal(alloc, &FileFault::of(alloc, error))
}

/// Reads the starts of a project's activities, which may have ids.
pub fn read_starts(
    alloc: Global,
    network: &Network,
    ids: &Ids<'_>,
    text: &[u8],
) -> Result<Vec<u64>, CliFault>
    ensures said { IfOk result (λ starts.
        SaysStarts (id_sheet ids.now network.now) text.now starts.items) }
    ensures whole { IfOk result (λ starts. length starts.items ≡ count_of network.now) }
    ensures in_time { IfOk result (λ starts. All IsInTime starts.items) }
    ensures refused { IfErr result (Refuses
        (spec.TellsNoStarts (id_sheet ids.now network.now) text.now)) }
{
    read_id_starts_text(alloc, network, ids.lines(), text).map_err(|error| read_refusal(
        alloc, error,
    ))
}

// Reads the starts of a job shop's steps, in flat order.
fn read_shop_starts(alloc: Global, shop: &Shop, text: &[u8]) -> Result<Vec<u64>, CliFault>
    ensures said { IfOk result (λ starts.
        SaysStarts (step_sheet shop.now) text.now starts.items) }
    ensures whole { IfOk result (λ starts. length starts.items ≡ count_steps shop.now) }
    ensures in_time { IfOk result (λ starts. All IsInTime starts.items) }
    ensures refused { IfErr result (Refuses (spec.TellsNoStarts (step_sheet shop.now) text.now)) }
{
    read_shop_starts_text(alloc, shop, text).map_err(|error| read_refusal(alloc, error))
}

/// Reads the starts of a plan's activities or steps.
pub fn starts_of(alloc: Global, plan: &Plan<'_>, text: &[u8]) -> Result<Vec<u64>, CliFault>
    ensures said { IfOk result (λ starts.
        SaysStarts (sheet_of plan.now) text.now starts.items) }
    ensures whole { IfOk result (λ starts. length starts.items ≡ plan_count plan.now) }
    ensures in_time { IfOk result (λ starts. All IsInTime starts.items) }
    ensures refused { IfErr result (Refuses (spec.TellsNoStarts (sheet_of plan.now) text.now)) }
{
    match plan {
        Plan::Project(instance, ids) => read_starts(alloc, instance.network(), ids, text),
        Plan::Shop(shop) => read_shop_starts(alloc, shop, text),
    }
}
