//! `plan verify`: what a log shows of the problem in a file.

ghost use Rattle.std.specs.Prelude.{◌≡◌, IfOk, IfErr, string_bytes};
ghost use Rattle.plan_psplib.specs.Project.{SaysProject};
ghost use Rattle.plan_sgs.specs.Instances as instances;
ghost use Rattle.plan_shop.specs.Shop as shops;
ghost use Rattle.plan_shop.specs.Docs.{shop_of};
ghost use Rattle.plan_verify.specs.Verdicts as spec;

use crate::fault::{LogFault, VerifyFault};
use crate::verdict::verdict_text;
use crate::verifier::verify;
use plan_io::Source;
use plan_kernel::Input;
use plan_orlib::{ShopDoc, read_shop};
use plan_psplib::{ProjectDoc, read_sm};
use plan_sgs::Instance;
use plan_shop::{Shop, ShopFault};
use std::alloc::{AllocError, Global};

// Returns the line of what a log shows of a project.
#[tactic(auto, using(crate::proofs::VerdictLemmas::plain_verdict))]
fn project_text<R: Source>(
    alloc: Global,
    instance: &Instance,
    log: &mut R,
) -> Result<String, LogFault>
    ensures { IfOk result (λ text.
        spec.IsTrueLine (instances.problem_of instance.now) (string_bytes text)) }
{
    let input = Input::of_instance(alloc, instance, Vec::new(alloc))?;
    let verdict = verify(alloc, input, log)?;
    Ok(verdict_text(alloc, verdict)?)
}

// Returns the instance of a project with the capacities of its file.
fn instance_of(project: &ProjectDoc) -> Result<Instance<'_>, VerifyFault>
    ensures ok { IfOk result (λ instance. instance ≡ spec.as_available project.now) }
    ensures refused { IfErr result (spec.IsOfInstance (spec.as_available project.now)) }
{
    Instance::of_project(project, project.avail()).map_err(VerifyFault::Project)
}

// Returns the line of what a log shows of a project with the capacities of its file.
fn doc_text<R: Source>(
    alloc: Global,
    project: &ProjectDoc,
    log: &mut R,
) -> Result<String, VerifyFault>
    ensures shown { IfOk result (λ text. spec.IsTrueLine
        (instances.problem_of (spec.as_available project.now)) (string_bytes text)) }
    ensures refused { IfErr result (spec.IsOfInstance (spec.as_available project.now)) }
{
    let instance = instance_of(project)?;
    Ok(project_text(alloc, &instance, log)?)
}

// Reads the project in a file.
fn read_project(alloc: Global, file: &[u8]) -> Result<ProjectDoc, VerifyFault>
    ensures said { IfOk result (SaysProject file.now) }
    ensures refused { IfErr result (spec.IsOfFile file.now) }
{
    read_sm(alloc, file).map_err(VerifyFault::File)
}

/// Returns the line of what a log shows of the project in a file: `verified 92` or `verified at
/// least 96`.
pub fn verify_text<R: Source>(
    alloc: Global,
    file: &[u8],
    log: &mut R,
) -> Result<String, VerifyFault>
    ensures shown { IfOk result (λ text. spec.IsTrueLineFor file.now (string_bytes text)) }
    ensures refused { IfErr result (spec.RefusesFile file.now) }
{
    let project = read_project(alloc, file)?;
    doc_text(alloc, &project, log)
}

// Returns the job shop of a file with all machines open.
fn open_shop(alloc: Global, doc: &ShopDoc) -> Result<Shop, AllocError>
    ensures { IfOk result (λ shop. shop ≡ shop_of doc.now) }
{
    let usable = vec![in alloc; true; doc.machines() as usize]?;
    match Shop::of_doc(alloc, doc, &usable) {
        Ok(shop) => Ok(shop),
        Err(ShopFault::NoMemory) => Err(AllocError),
        Err(_) => unreachable!(),
    }
}

// Returns the line of what a log shows of a job shop.
#[tactic(auto, using(crate::proofs::VerdictLemmas::plain_verdict))]
fn shop_text<R: Source>(alloc: Global, doc: &ShopDoc, log: &mut R) -> Result<String, LogFault>
    ensures { IfOk result (λ text.
        spec.IsTrueLine (shops.problem_of (shop_of doc.now)) (string_bytes text)) }
{
    let shop = open_shop(alloc, doc)?;
    let input = Input::of_shop(alloc, &shop, Vec::new(alloc))?;
    let verdict = verify(alloc, input, log)?;
    Ok(verdict_text(alloc, verdict)?)
}

/// Does the same for an instance in a job shop file.
pub fn verify_shop_text<R: Source>(
    alloc: Global,
    file: &[u8],
    instance: &str,
    log: &mut R,
) -> Result<String, VerifyFault>
    ensures shown { IfOk result (λ text.
        spec.IsTrueLineForShop instance.now file.now (string_bytes text)) }
    ensures refused { IfErr result (spec.RefusesShopFile instance.now file.now) }
{
    let doc = read_shop(alloc, file, instance.as_bytes()).map_err(VerifyFault::File)?;
    Ok(shop_text(alloc, &doc, log)?)
}
