//! The commands on a project or a job shop.

ghost use Rattle.std.specs.Prelude.{IfOk, IfErr};
ghost use Rattle.plan_errors.specs.Output.{Refuses};
ghost use Rattle.plan_documents.specs.Documents.{IsOfSubject, RefusesSubject, HasFit};
ghost use Rattle.plan_cli.specs.Commands as spec;
ghost use Rattle.plan_documents.specs.Details.{NamesVerdict};
ghost use Rattle.plan_cli.specs.Views.{IfView};

use crate::calendars::Dates;
use crate::charts::chart_from;
use crate::comparisons::{Pair, comparison_of};
use crate::days::days_from;
use crate::list_comparisons::list_comparison_of;
use crate::origins::Origin;
use crate::solutions::best_of;
use crate::solver::solution_view;
use crate::tables::schedule_of;
use crate::verdicts::verdict_on;
use crate::views::View;
use crate::watchers::{Log, ProofWatcher, SolveWatcher};
use plan_documents::{Plan, Subject, plan_of, read_document, with_names};
use plan_errors::CliFault;
use plan_views::MomentStyle;
use std::alloc::Global;

/// A command on a project or a job shop, as the task of the same name.
#[derive(Clone, Copy, Debug, Drop)]
pub(crate) enum Command<'a> {
    Schedule(&'a str),
    Chart(Origin<'a>),
    Days(Origin<'a>, Dates<'a>, Option<&'a MomentStyle>),
    Check(&'a [u8]),
    Compare(Pair<'a>),
    /// The subject and the bytes of the old file, and the starts.
    CompareLists(Subject<'a>, &'a [u8], Pair<'a>),
    Best(&'a str),
    Solve(u64),
}

// Returns what a command shows for a plan.
fn plan_view<V: ProofWatcher + SolveWatcher, L: Log>(
    alloc: Global,
    command: Command<'_>,
    plan: &Plan<'_>,
    watcher: &mut V,
    log: &mut L,
) -> Result<View, CliFault>
    ensures made { IfView result (spec.IsPlanView command.entry plan.now) }
    ensures refused { IfErr result (Refuses (spec.IsPlanLine command.entry plan.now)) }
{
    match command {
        Command::Schedule(rule) => schedule_of(alloc, rule, plan),
        Command::Chart(origin) => chart_from(alloc, origin, plan, watcher, log),
        Command::Days(origin, dates, style) => {
            days_from(alloc, origin, dates, style, plan, watcher, log)
        }
        Command::Check(starts) => verdict_on(alloc, starts, plan),
        Command::Compare(starts) => comparison_of(alloc, starts, plan),
        Command::CompareLists(subject, old, starts) => {
            list_comparison_of(alloc, subject, old, starts, plan)
        }
        Command::Best(budget) => best_of(alloc, budget, plan),
        Command::Solve(conflicts) => solution_view(alloc, conflicts, plan, watcher, log),
    }
}

// Returns what a command shows for a plan. Its error has the names in the file of the plan.
#[tactic(auto, using(plan_documents::proofs::SentenceLemmas::detailed_refuses))]
fn named_view<V: ProofWatcher + SolveWatcher, L: Log>(
    alloc: Global,
    command: Command<'_>,
    subject: Subject<'_>,
    file: &[u8],
    plan: &Plan<'_>,
    watcher: &mut V,
    log: &mut L,
) -> Result<View, CliFault>
    ensures made { IfView result (spec.IsPlanView command.entry plan.now) }
    ensures refused { IfErr result (Refuses (spec.IsPlanLine command.entry plan.now)) }
    ensures names { IfErr result (NamesVerdict subject.entry file.now) }
{
    match plan_view(alloc, command, plan, watcher, log) {
        Ok(view) => Ok(view),
        Err(fault) => Err(with_names(alloc, subject, file, fault)),
    }
}

/// Returns what a command shows for the project or the job shop in a file.
pub(crate) fn subject_view<V: ProofWatcher + SolveWatcher, L: Log>(
    alloc: Global,
    command: Command<'_>,
    subject: Subject<'_>,
    file: &[u8],
    watcher: &mut V,
    log: &mut L,
) -> Result<View, CliFault>
    ensures made { IfView result
        (IsOfSubject subject.entry (spec.IsPlanView command.entry) file.now) }
    ensures refused { IfErr result (Refuses
        (RefusesSubject subject.entry (spec.IsPlanLine command.entry) file.now)) }
{
    let document = read_document(alloc, subject, file)?;
    let plan = plan_of(alloc, &document, file)?;
    named_view(alloc, command, subject, file, &plan, watcher, log)
}
