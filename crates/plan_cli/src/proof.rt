//! `plan prove`: a schedule of a job shop and a lower bound of its least makespan.

ghost use Rattle.std.specs.Prelude.{◌≡◌, ◌≤◌, IfOk, IfErr, codes, length, slice_index};
ghost use Rattle.std.specs.Prelude.{EachIndex};
ghost use Rattle.plan_shop.specs.Shop.{count_steps};
ghost use Rattle.plan_shop.specs.Docs.{shop_of};
ghost use Rattle.plan_prove.specs.Proofs.{IsNodeLimit};
ghost use Rattle.plan_gantt.specs.Limits.{latest_start};
ghost use Rattle.plan_errors.specs.Output.{Refuses};
ghost use Rattle.plan_formats.specs.Tables.{table_of};
ghost use Rattle.plan_cli.specs.ProveRun as spec;
ghost use Rattle.plan_cli.specs.TaskViews as views;
ghost use Rattle.plan_cli.specs.Views.{IfView};

use crate::views::View;
use plan_documents::{Plan, open_shop, read_instance};
use plan_errors::{About, CliFault, Code, refuse_words};
use plan_formats::Table;
use plan_orlib::ShopDoc;
use plan_prove::{Proof, ProveFault, Watcher, parse_nodes, prove_watched};
use plan_shop::Shop;
use plan_views::{PlanRef, bound_line, schedule_view, with_line};
use std::alloc::{AllocError, Global};

// Returns the table of a proof.
fn proof_table(alloc: Global, shop: &Shop, proof: &Proof) -> Result<Table<'static>, AllocError>
    requires starts { length proof.now.schedule.starts.items ≡ count_steps shop.now }
    requires limit { EachIndex proof.now.schedule.starts.items (λ k.
        slice_index proof.now.schedule.starts.items k ≤ latest_start) }
    ensures { IfOk result (λ table. table_of table ≡ views.bounded_of (Plan.Shop shop.now)
        proof.now.lower proof.now.schedule.starts.items proof.now.schedule.makespan) }
{
    let schedule = &proof.schedule;
    let plan = PlanRef::Shop(shop);
    let table = schedule_view(alloc, plan, &schedule.starts, schedule.makespan)?;
    with_line(bound_line(proof.lower, schedule.makespan), table)
}

// Returns the proof for a job shop, found by a search of at most `nodes` nodes.
fn proved<V: Watcher>(
    alloc: Global,
    nodes: u64,
    shop: &Shop,
    watcher: &mut V,
) -> Result<View, CliFault>
    requires { IsNodeLimit nodes }
    ensures made { IfView result (views.IsProvedViewOf nodes shop.now) }
    ensures refused { IfErr result (λ e. e ≡ CliFault.Memory) }
{
    match prove_watched(alloc, shop, nodes, watcher) {
        Ok(proof) => Ok(View::Table(proof_table(alloc, shop, &proof)?)),
        Err(ProveFault::NoMemory) => Err(CliFault::Memory),
        Err(ProveFault::BadNodes) => unreachable!(),
    }
}

// Returns the error of a text that spells no number of nodes.
fn no_nodes(alloc: Global) -> CliFault
    ensures { Refuses (λ line. line ≡ codes "S7 nodes") result }
{
    refuse_words(alloc, Code::BadNodes, About::Limit, "nodes")
}

// Returns the proof for a file's job shop.
fn doc_proof<V: Watcher>(
    alloc: Global,
    nodes: &str,
    doc: &ShopDoc,
    watcher: &mut V,
) -> Result<View, CliFault>
    ensures made { IfView result (views.IsProofViewBy nodes.now (shop_of doc.now)) }
    ensures refused { IfErr result (Refuses (spec.TellsNoNodes nodes.now)) }
{
    let shop = open_shop(alloc, doc)?;
    let nodes = parse_nodes(nodes).map_err(|_| no_nodes(alloc))?;
    proved(alloc, nodes, &shop, watcher)
}

/// Returns the proof for an instance in a job shop file. The watcher is called during the search.
pub(crate) fn proof_view<V: Watcher>(
    alloc: Global,
    nodes: &str,
    instance: &str,
    file: &[u8],
    watcher: &mut V,
) -> Result<View, CliFault>
    ensures made { IfView result (views.IsProofViewOf nodes.now instance.now file.now) }
    ensures refused { IfErr result (Refuses
        (spec.TellsWhyNoProof nodes.now instance.now file.now)) }
{
    let doc = read_instance(alloc, instance, file)?;
    doc_proof(alloc, nodes, &doc, watcher)
}
