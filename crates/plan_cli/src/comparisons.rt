//! `plan compare`: two schedules of a project or of a job shop.

ghost use Rattle.std.specs.Prelude.{◌≡◌, All, IfOk, IfErr, length, string_bytes};
ghost use Rattle.plan_profile.specs.Usage.{IsInTime};
ghost use Rattle.plan_report.specs.StartsText.{SaysStarts};
ghost use Rattle.plan_errors.specs.Faults.{IsAbout, refusal_line};
ghost use Rattle.plan_errors.specs.Output.{Refuses};
ghost use Rattle.plan_formats.specs.Tables.{table_of};
ghost use Rattle.plan_cli.specs.TaskViews as views;
ghost use Rattle.plan_cli.specs.Views.{IfView};
ghost use Rattle.plan_documents.specs.Documents.{count_of, sheet_of};
ghost use Rattle.plan_cli.specs.CompareRun as spec;

use crate::plan_refs::plan_ref;
use crate::views::View;
use plan_documents::{Plan, starts_of};
use plan_errors::{About, CliFault, Part, Refusal};
use plan_formats::Table;
use plan_views::comparison_view;
use std::alloc::{AllocError, Global};

/// The texts of the starts of two schedules, A and B.
#[derive(Clone, Copy, Debug, Drop)]
pub struct Pair<'a> {
    pub a: &'a [u8],
    pub b: &'a [u8],
}

// Returns the argument with the starts of a schedule, or no argument for another name.
fn subject_of(name: &str) -> About
    ensures { result ≡ spec.subject_of name.now }
{
    if name == "A" {
        About::StartsA
    } else if name == "B" {
        About::StartsB
    } else {
        About::Other
    }
}

// Returns the error of a text of starts with the name of its schedule.
#[tactic(auto, using(crate::proofs::CompareLemmas::named_parts))]
fn named_refusal(mut refusal: Refusal, name: &'static str) -> CliFault
    ensures told { Refuses
        (λ told. told ≡ spec.named_line name.now (refusal_line refusal)) result }
    ensures about { IsAbout (spec.subject_of name.now) result }
{
    if refusal.parts.push(Part::Words(name)).is_err() {
        return CliFault::Memory;
    }
    refusal.about = subject_of(name);
    CliFault::Refused(refusal)
}

/// Returns an error with a name behind its line: that of the schedule of starts, or other words.
pub(crate) fn named_fault(fault: CliFault, name: &'static str) -> CliFault
    ensures { spec.IsNamedFault name.now fault result }
{
    match fault {
        CliFault::Refused(refusal) => named_refusal(refusal, name),
        CliFault::Memory => CliFault::Memory,
        CliFault::Input(unread) => CliFault::Input(unread),
        CliFault::Output => CliFault::Output,
    }
}

/// Reads the starts of the schedule with this name.
pub(crate) fn named_starts(
    alloc: Global,
    plan: &Plan<'_>,
    text: &[u8],
    name: &'static str,
) -> Result<Vec<u64>, CliFault>
    ensures said { IfOk result (λ starts.
        SaysStarts (sheet_of plan.now) text.now starts.items) }
    ensures whole { IfOk result (λ starts. length starts.items ≡ count_of plan.now) }
    ensures in_time { IfOk result (λ starts. All IsInTime starts.items) }
    ensures refused { IfErr result (Refuses
        (spec.TellsNoStartsOf name.now (sheet_of plan.now) text.now)) }
{
    starts_of(alloc, plan, text).map_err(|fault| named_fault(fault, name))
}

// Returns the comparison of two schedules of a plan.
fn compared(
    alloc: Global,
    plan: &Plan<'_>,
    a: &[u64],
    b: &[u64],
) -> Result<Table<'static>, AllocError>
    requires whole_a { length a.now ≡ count_of plan.now }
    requires limit_a { All IsInTime a.now }
    requires whole_b { length b.now ≡ count_of plan.now }
    requires limit_b { All IsInTime b.now }
    ensures { IfOk result (λ table. views.ComparesIn plan.now a.now b.now (table_of table)) }
{
    comparison_view(alloc, plan_ref(plan), a, b)
}

/// Returns the comparison of the schedules with the starts in two texts.
pub(crate) fn comparison_of(
    alloc: Global,
    pair: Pair<'_>,
    plan: &Plan<'_>,
) -> Result<View, CliFault>
    ensures made { IfView result
        (views.IsComparedView pair.entry.a.now pair.entry.b.now plan.now) }
    ensures refused { IfErr result (Refuses
        (spec.TellsNotCompared pair.entry.a.now pair.entry.b.now plan.now)) }
{
    let a = named_starts(alloc, plan, pair.a, "A")?;
    let b = named_starts(alloc, plan, pair.b, "B")?;
    Ok(View::Table(compared(alloc, plan, &a, &b)?))
}
