//! The errors of starts that aren't feasible.

ghost use Rattle.std.specs.Prelude.{◌≡◌, ◌++◌, IfOk, codes};
ghost use Rattle.std.specs.Fmt.{decimal};
ghost use Rattle.plan_report.specs.VerdictText as sentences;
ghost use Rattle.plan_errors.specs.Faults.{IsAbout};
ghost use Rattle.plan_errors.specs.Output.{Refuses};
ghost use Rattle.plan_errors.specs.Parts.{parts_text};
ghost use Rattle.plan_documents.specs.VerdictText.{infeasible_line};

use plan_errors::{About, CliFault, Code, Key, Part, refuse};
use plan_sgs::Verdict;
use plan_shop::Shop;
use std::alloc::{AllocError, Global};

// Returns an activity that starts before its predecessor ends.
fn broken_parts(alloc: Global, activity: u32, predecessor: u32) -> Result<Vec<Part>, AllocError>
    ensures { IfOk result (λ list. codes "S10" ++ parts_text list.items
        ≡ infeasible_line (sentences.broken_text activity predecessor)) }
{
    Ok(Vec::from_array(
        alloc,
        [
            Part::Number(Key::Activity, activity as u64),
            Part::Words("starts before"),
            Part::Bare(Key::Predecessor, predecessor as u64),
            Part::Words("ends"),
        ],
    )?)
}

// Returns a time at which more of a resource is in use than its capacity.
fn over_parts(alloc: Global, t: u64, resource: u32) -> Result<Vec<Part>, AllocError>
    ensures { IfOk result (λ list. codes "S10" ++ parts_text list.items
        ≡ infeasible_line (sentences.over_text t resource)) }
{
    Ok(Vec::from_array(
        alloc,
        [
            Part::Words("at"),
            Part::Number(Key::Time, t),
            Part::Words("more of"),
            Part::Number(Key::Resource, resource as u64),
            Part::Words("is needed than there is"),
        ],
    )?)
}

// Returns an activity that can start earlier.
fn shift_parts(alloc: Global, activity: u32) -> Result<Vec<Part>, AllocError>
    ensures { IfOk result (λ list. codes "S10" ++ parts_text list.items
        ≡ infeasible_line (codes "activity " ++ decimal activity ++ codes " can start earlier")) }
{
    let activity = Part::Number(Key::Activity, activity as u64);
    Ok(Vec::from_array(alloc, [activity, Part::Words("can start earlier")])?)
}

// Returns the word of a verdict without a fault.
fn active_parts(alloc: Global) -> Result<Vec<Part>, AllocError>
    ensures { IfOk result (λ list. codes "S10" ++ parts_text list.items
        ≡ infeasible_line (codes "active")) }
{
    Ok(Vec::from_array(alloc, [Part::Words("active")])?)
}

// Returns a verdict on the starts of a project.
fn verdict_parts(alloc: Global, verdict: Verdict) -> Result<Vec<Part>, AllocError>
    ensures { IfOk result (λ list. codes "S10" ++ parts_text list.items
        ≡ infeasible_line (sentences.sentence_of verdict)) }
{
    match verdict {
        Verdict::Arc(i, j) => broken_parts(alloc, j, i),
        Verdict::Over(t, k) => over_parts(alloc, t, k),
        Verdict::Shift(j) => shift_parts(alloc, j),
        Verdict::Active => active_parts(alloc),
    }
}

/// Returns the error of infeasible starts of a project, for their verdict.
pub fn infeasible_refusal(alloc: Global, verdict: Verdict) -> CliFault
    ensures told { Refuses
        (λ line. line ≡ infeasible_line (sentences.sentence_of verdict)) result }
    ensures about { IsAbout About.Starts result }
{
    refuse(
        Code::Infeasible,
        About::Starts,
        verdict_parts(alloc, verdict),
    )
}

/// Returns the number of a step in its job, both from 1.
pub(crate) fn place_number(shop: &Shop, x: u32) -> u32
    ensures { result ≡ sentences.place_number shop.now x }
{
    x.saturating_sub(1) % shop.machines() + 1
}

/// Returns the number of a step's job, both from 1.
pub(crate) fn job_number(shop: &Shop, x: u32) -> u32
    ensures { result ≡ sentences.job_number shop.now x }
{
    x.saturating_sub(1) / shop.machines() + 1
}

// Returns a step that starts before its predecessor in the job ends.
fn broken_job_parts(
    alloc: Global,
    shop: &Shop,
    predecessor: u32,
    step: u32,
) -> Result<Vec<Part>, AllocError>
    ensures { IfOk result (λ list. codes "S10" ++ parts_text list.items
        ≡ infeasible_line (sentences.broken_job_text shop.now predecessor step)) }
{
    Ok(Vec::from_array(
        alloc,
        [
            Part::Number(Key::Step, place_number(shop, step) as u64),
            Part::Words("of"),
            Part::Number(Key::Job, job_number(shop, step) as u64),
            Part::Words("starts before step"),
            Part::Bare(Key::Predecessor, place_number(shop, predecessor) as u64),
            Part::Words("ends"),
        ],
    )?)
}

// Returns a time at which more than one step is on a machine.
fn crowded_parts(alloc: Global, t: u64, k: u32) -> Result<Vec<Part>, AllocError>
    ensures { IfOk result (λ list. codes "S10" ++ parts_text list.items
        ≡ infeasible_line (sentences.crowded_text t k)) }
{
    Ok(Vec::from_array(
        alloc,
        [
            Part::Words("at"),
            Part::Number(Key::Time, t),
            Part::Words("more than one step is on"),
            Part::Number(Key::Machine, k.saturating_sub(1) as u64),
        ],
    )?)
}

// Returns a step that can start earlier.
fn early_parts(alloc: Global, shop: &Shop, step: u32) -> Result<Vec<Part>, AllocError>
    ensures { IfOk result (λ list. codes "S10" ++ parts_text list.items
        ≡ infeasible_line (sentences.step_text shop.now step ++ codes " can start earlier")) }
{
    Ok(Vec::from_array(
        alloc,
        [
            Part::Number(Key::Step, place_number(shop, step) as u64),
            Part::Words("of"),
            Part::Number(Key::Job, job_number(shop, step) as u64),
            Part::Words("can start earlier"),
        ],
    )?)
}

// Returns a verdict on the starts of a job shop.
fn shop_verdict_parts(alloc: Global, shop: &Shop, verdict: Verdict) -> Result<Vec<Part>, AllocError>
    ensures { IfOk result (λ list. codes "S10" ++ parts_text list.items
        ≡ infeasible_line (sentences.shop_sentence_of shop.now verdict)) }
{
    match verdict {
        Verdict::Arc(i, j) => broken_job_parts(alloc, shop, i, j),
        Verdict::Over(t, k) => crowded_parts(alloc, t, k),
        Verdict::Shift(j) => early_parts(alloc, shop, j),
        Verdict::Active => active_parts(alloc),
    }
}

/// Returns the error of infeasible starts of a job shop, for their verdict.
pub fn shop_infeasible_refusal(alloc: Global, shop: &Shop, verdict: Verdict) -> CliFault
    ensures told { Refuses
        (λ line. line ≡ infeasible_line (sentences.shop_sentence_of shop.now verdict)) result }
    ensures about { IsAbout About.Starts result }
{
    refuse(
        Code::Infeasible,
        About::Starts,
        shop_verdict_parts(alloc, shop, verdict),
    )
}
