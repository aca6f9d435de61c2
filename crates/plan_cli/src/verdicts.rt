//! `plan check`: the first fault in a list of starts, or that they are active.

ghost use Rattle.std.specs.Prelude.{◌≡◌, ◌++◌, All, IfOk, IfErr, OnOk, length};
ghost use Rattle.std.specs.Prelude.{string_bytes};
ghost use Rattle.plan_profile.specs.Usage.{IsInTime};
ghost use Rattle.plan_sgs.specs.Problem.{IsFeasible};
ghost use Rattle.plan_sgs.specs.Verdicts.{IsFirstVerdict};
ghost use Rattle.plan_errors.specs.Output.{Refuses};
ghost use Rattle.plan_cli.specs.TaskViews.{IsVerdictView};
ghost use Rattle.plan_cli.specs.Views.{IfView, table, view_of};
ghost use Rattle.plan_views.specs.LineLists.{verdict_view_of};
ghost use Rattle.plan_documents.specs.Documents.{count_of, problem_of};
ghost use Rattle.plan_report.specs.VerdictText.{sentence_of, shop_sentence_of};
ghost use Rattle.plan_documents.specs.VerdictText.{infeasible_line};
ghost use Rattle.plan_cli.specs.CheckRun as spec;

use crate::views::View;
use plan_documents::{Plan, infeasible_refusal, shop_infeasible_refusal, starts_of};
use plan_errors::CliFault;
use plan_report::{push_sentence, push_shop_sentence};
use plan_sgs::{Verdict, check};
use plan_shop::{self, Shop};
use std::alloc::{AllocError, Global};

// Returns the error of infeasible starts of a plan, for their verdict.
fn plan_infeasible(alloc: Global, plan: &Plan<'_>, verdict: Verdict) -> CliFault
    ensures told { Refuses
        (λ line. line ≡ infeasible_line (spec.sentence_of plan.now verdict)) result }
{
    match plan {
        Plan::Project(_, _) => infeasible_refusal(alloc, verdict),
        Plan::Shop(shop) => shop_infeasible_refusal(alloc, shop, verdict),
    }
}

// Appends the sentence of a verdict on the starts of a plan.
fn push_verdict(text: &mut String, plan: &Plan<'_>, verdict: Verdict) -> Result<(), AllocError>
    ensures { OnOk result (string_bytes text.new
        ≡ string_bytes text.old ++ spec.sentence_of plan.now verdict) }
{
    match plan {
        Plan::Project(_, _) => push_sentence(text, verdict),
        Plan::Shop(shop) => push_shop_sentence(text, shop, verdict),
    }
}

// Returns the sentence of a verdict.
fn sentence(alloc: Global, plan: &Plan<'_>, verdict: Verdict) -> Result<String, AllocError>
    ensures { IfOk result (λ text. string_bytes text ≡ spec.sentence_of plan.now verdict) }
{
    let mut text = String::new(alloc);
    push_verdict(&mut text, plan, verdict)?;
    Ok(text)
}

// Returns the first verdict on the starts of a plan.
fn first_verdict(alloc: Global, plan: &Plan<'_>, starts: &[u64]) -> Result<Verdict, CliFault>
    requires whole { length starts.now ≡ count_of plan.now }
    requires limit { All IsInTime starts.now }
    ensures first { IfOk result (IsFirstVerdict (problem_of plan.now) starts.now) }
    ensures refused { IfErr result (λ e. e ≡ CliFault.Memory) }
{
    match plan {
        Plan::Project(instance, _) => {
            check(alloc, instance, starts).map_err(|_| CliFault::Memory)
        }
        Plan::Shop(shop) => Ok(plan_shop::check(shop, starts)),
    }
}

/// Refuses a list of starts that isn't feasible, with its first verdict.
pub(crate) fn check_feasible(alloc: Global, plan: &Plan<'_>, starts: &[u64]) -> Result<(), CliFault>
    requires whole { length starts.now ≡ count_of plan.now }
    requires limit { All IsInTime starts.now }
    ensures ok { IfOk result (λ _. IsFeasible (problem_of plan.now) starts.now) }
    ensures refused { IfErr result (Refuses (spec.TellsWhyInfeasible plan.now starts.now)) }
{
    let verdict = first_verdict(alloc, plan, starts)?;
    match verdict {
        Verdict::Arc(_, _) | Verdict::Over(_, _) => Err(plan_infeasible(alloc, plan, verdict)),
        Verdict::Shift(_) | Verdict::Active => Ok(()),
    }
}

/// Returns the first verdict on the starts in a text.
pub(crate) fn verdict_of(alloc: Global, listed: &[u8], plan: &Plan<'_>) -> Result<Verdict, CliFault>
    ensures made { IfOk result (spec.IsVerdictOn listed.now plan.now) }
    ensures refused { IfErr result (Refuses (spec.TellsBadStarts listed.now plan.now)) }
{
    let starts = starts_of(alloc, plan, listed)?;
    first_verdict(alloc, plan, &starts)
}

/// Returns what `check` shows for a verdict on the starts of a plan.
pub(crate) fn shown_verdict(
    alloc: Global,
    plan: &Plan<'_>,
    verdict: Verdict,
) -> Result<View, AllocError>
    ensures { IfOk result (λ view.
        view_of view ≡ table (verdict_view_of (spec.sentence_of plan.now verdict))) }
{
    Ok(View::Verdict(sentence(alloc, plan, verdict)?))
}

/// Returns what `check` shows for the starts in a text.
#[tactic(auto, using(crate::proofs::CheckLemmas::verdict_shown))]
pub(crate) fn verdict_on(alloc: Global, listed: &[u8], plan: &Plan<'_>) -> Result<View, CliFault>
    ensures made { IfView result (IsVerdictView listed.now plan.now) }
    ensures refused { IfErr result (Refuses (spec.TellsBadStarts listed.now plan.now)) }
{
    let verdict = verdict_of(alloc, listed, plan)?;
    Ok(shown_verdict(alloc, plan, verdict)?)
}
