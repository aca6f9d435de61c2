//! `plan compare` with an old list: the comparison of schedules of two lists by their ids.

ghost use Rattle.std.specs.Prelude.{◌≡◌, All, IfOk, IfErr, map, true};
ghost use Rattle.plan_profile.specs.Usage.{IsInTime};
ghost use Rattle.plan_table.specs.Names.{name_of};
ghost use Rattle.plan_errors.specs.Output.{Refuses};
ghost use Rattle.plan_documents.specs.Documents.{IsOfSubject};
ghost use Rattle.plan_documents.specs.Documents as documents;
ghost use Rattle.plan_documents.specs.Lists.{IsReadAs, RefusesReading, text_of};
ghost use Rattle.plan_cli.specs.ListComparisons as spec;
ghost use Rattle.plan_cli.specs.Views.{IfView, listing, view_of};

use crate::comparisons::{Pair, named_fault, named_starts};
use crate::views::{View, listed_view};
use plan_documents::{Document, Plan, Reading, Subject, plan_of, read_document, readable};
use plan_errors::{About, CliFault, Code, refuse_words};
use plan_table::NameLine;
use plan_views::{IdSchedule, id_comparison_view};
use std::alloc::{AllocError, Global};

// Returns the ids of a plan's activities.
fn ids_of<'p>(plan: &'p Plan<'p>) -> &'p [NameLine<'p>]
    ensures { map name_of result.now ≡ spec.ids_of plan.now }
{
    match plan {
        Plan::Project(_, ids) => ids.lines(),
        Plan::Shop(_) => &[],
    }
}

// Tests whether there are ids.
fn are_some(ids: &[NameLine<'_>]) -> bool
    ensures { result ≡ spec.are_some (map name_of ids.now) }
{
    match ids {
        [] => false,
        [_, ..] => true,
    }
}

// Tests whether a plan has ids.
fn has_ids(plan: &Plan<'_>) -> bool
    ensures { result ≡ spec.are_some (spec.ids_of plan.now) }
{
    are_some(ids_of(plan))
}

// Refuses a plan without ids. The words are those of the error line.
fn check_ids(alloc: Global, plan: &Plan<'_>, words: &'static str) -> Result<(), CliFault>
    ensures ok { IfOk result (λ _. spec.are_some (spec.ids_of plan.now) ≡ true) }
    ensures refused { IfErr result (Refuses (spec.TellsNoIds words.now plan.now)) }
{
    if !has_ids(plan) {
        return Err(refuse_words(alloc, Code::NoDurations, About::Other, words));
    }
    Ok(())
}

// Returns the comparison of the schedules of two plans, the old one first.
fn compared(
    alloc: Global,
    before: &Plan<'_>,
    after: &Plan<'_>,
    a: &[u64],
    b: &[u64],
) -> Result<View, AllocError>
    requires limit_a { All IsInTime a.now }
    requires limit_b { All IsInTime b.now }
    ensures { IfOk result (λ view.
        view_of view ≡ listing (spec.list_comparison before.now after.now a.now b.now)) }
{
    let old = IdSchedule {
        ids: ids_of(before),
        starts: a,
    };
    let new = IdSchedule {
        ids: ids_of(after),
        starts: b,
    };
    let table = id_comparison_view(alloc, old, new)?;
    listed_view(alloc, table)
}

// Returns the comparison of the schedules of two plans with the starts in two texts.
#[tactic(auto, using(crate::proofs::ListComparisonLemmas::no_old_ids, crate::proofs::ListComparisonLemmas::no_old_starts, crate::proofs::ListComparisonLemmas::no_new_starts))]
fn compared_plans(
    alloc: Global,
    pair: Pair<'_>,
    before: &Plan<'_>,
    after: &Plan<'_>,
) -> Result<View, CliFault>
    requires { spec.are_some (spec.ids_of after.now) ≡ true }
    ensures made { IfView result
        (spec.IsPlansView pair.entry.a.now pair.entry.b.now after.now before.now) }
    ensures refused { IfErr result (Refuses
        (spec.TellsNoPlans pair.entry.a.now pair.entry.b.now after.now before.now)) }
{
    check_ids(alloc, before, "no column id of the old list")?;
    let a = named_starts(alloc, before, pair.a, "A")?;
    let b = named_starts(alloc, after, pair.b, "B")?;
    Ok(compared(alloc, before, after, &a, &b)?)
}

// Reads the project or the job shop in the old file.
fn old_document(alloc: Global, subject: Subject<'_>, text: &[u8]) -> Result<Document, CliFault>
    ensures read { IfOk result (documents.IsDocumentOf subject.entry text.now) }
    ensures whole { IfOk result documents.IsWhole }
    ensures refused { IfErr result (Refuses
        (spec.IsOldLine (documents.TellsNoDocument subject.entry text.now))) }
{
    match read_document(alloc, subject, text) {
        Ok(document) => Ok(document),
        Err(fault) => Err(named_fault(fault, "of the old list")),
    }
}

// Returns the plan of the document in the old file.
fn old_plan<'a>(alloc: Global, document: &'a Document, text: &'a [u8]) -> Result<Plan<'a>, CliFault>
    requires { documents.IsWhole document.now }
    ensures plan { IfOk result (λ plan.
        plan ≡ documents.plan_in document.now (documents.ids_in text.now)) }
    ensures fit { IfOk result documents.HasFit }
    ensures refused { IfErr result (Refuses
        (spec.IsOldLine (documents.TellsNoPlan document.now))) }
{
    match plan_of(alloc, document, text) {
        Ok(plan) => Ok(plan),
        Err(fault) => Err(named_fault(fault, "of the old list")),
    }
}

// Returns the comparison of the plan in the text of the old file and a new plan.
fn compared_text(
    alloc: Global,
    subject: Subject<'_>,
    text: &[u8],
    pair: Pair<'_>,
    after: &Plan<'_>,
) -> Result<View, CliFault>
    requires { spec.are_some (spec.ids_of after.now) ≡ true }
    ensures made { IfView result (IsOfSubject subject.entry
        (spec.IsPlansView pair.entry.a.now pair.entry.b.now after.now) text.now) }
    ensures refused { IfErr result (Refuses (spec.TellsNoOld subject.entry text.now
        pair.entry.a.now pair.entry.b.now after.now)) }
{
    let document = old_document(alloc, subject, text)?;
    let before = old_plan(alloc, &document, text)?;
    compared_plans(alloc, pair, &before, after)
}

// Reads the old file, which may be a list.
fn old_reading<'a>(alloc: Global, subject: Subject<'a>, old: &[u8]) -> Result<Reading<'a>, CliFault>
    ensures read { IfOk result (λ read. IsReadAs subject.entry old.now read.kind
        read.subject (text_of read.made old.now)) }
    ensures refused { IfErr result (Refuses
        (spec.IsOldLine (RefusesReading subject.entry old.now))) }
{
    match readable(alloc, subject, old) {
        Ok(read) => Ok(read),
        Err(fault) => Err(named_fault(fault, "of the old list")),
    }
}

/// Returns the comparison of the schedules of an old list and of a plan, by the ids of their
/// activities.
pub(crate) fn list_comparison_of(
    alloc: Global,
    subject: Subject<'_>,
    old: &[u8],
    pair: Pair<'_>,
    plan: &Plan<'_>,
) -> Result<View, CliFault>
    ensures made { IfView result (spec.IsListsView subject.entry old.now
        pair.entry.a.now pair.entry.b.now plan.now) }
    ensures refused { IfErr result (Refuses (spec.TellsNoLists subject.entry old.now
        pair.entry.a.now pair.entry.b.now plan.now)) }
{
    check_ids(alloc, plan, "no column id")?;
    let read = old_reading(alloc, subject, old)?;
    compared_text(alloc, read.subject, read.text(old), pair, plan)
}
