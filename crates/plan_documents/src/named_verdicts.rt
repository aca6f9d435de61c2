//! Verdicts on starts in sentences with the ids and the names in a file.

ghost use Rattle.std.specs.Prelude.{◌≡◌, ◌++◌, ◌-◌, IfOk, OnOk, codes, map, option_map};
ghost use Rattle.std.specs.Prelude.{string_bytes};
ghost use Rattle.plan_table.specs.Names.{name_of};
ghost use Rattle.plan_documents.specs.Labels.{activity_called};
ghost use Rattle.plan_documents.specs.NamedVerdicts as spec;

use crate::documents::{Plan, Subject};
use crate::infeasible::{job_number, place_number};
use crate::labels::{id_label, push_activity};
use crate::sentences::{names_under, push_called};
use plan_errors::Key;
use plan_sgs::Verdict;
use plan_shop::Shop;
use plan_table::{NameLine, activity_ids, first_name};
use std::alloc::{AllocError, Global};
use std::fmt::Write;

// Appends the number of a predecessor without a label, behind an activity with this label.
fn push_number(text: &mut String, activity: &Option<String>, n: u32) -> Result<(), AllocError>
    ensures { OnOk result (string_bytes text.new ≡ string_bytes text.old
        ++ spec.number_behind (option_map string_bytes activity.now) n) }
{
    match activity {
        Some(_) => write!(text, "activity {n}"),
        None => write!(text, "{n}"),
    }
}

// Appends a predecessor by its label, or else by its number, behind an activity with this label.
fn push_predecessor(
    text: &mut String,
    activity: &Option<String>,
    n: u32,
    label: &Option<String>,
) -> Result<(), AllocError>
    ensures { OnOk result (string_bytes text.new ≡ string_bytes text.old
        ++ spec.predecessor_called (option_map string_bytes activity.now) n
        (option_map string_bytes label.now)) }
{
    match label {
        Some(label) => text.push_str(label.as_str()),
        None => push_number(text, activity, n),
    }
}

// Returns the sentence that an activity starts before its predecessor ends, both with their labels.
fn labelled_broken(
    alloc: Global,
    activity: u32,
    label: &Option<String>,
    predecessor: u32,
    before: &Option<String>,
) -> Result<String, AllocError>
    ensures { IfOk result (λ text. string_bytes text
        ≡ spec.labelled_broken_text activity (option_map string_bytes label.now)
        predecessor (option_map string_bytes before.now)) }
{
    let mut text = String::new(alloc);
    push_activity(&mut text, activity, label)?;
    text.push_str(" starts before ")?;
    push_predecessor(&mut text, label, predecessor, before)?;
    text.push_str(" ends")?;
    Ok(text)
}

// Returns the sentence that an activity starts before its predecessor ends.
fn named_broken(
    alloc: Global,
    ids: &[NameLine<'_>],
    names: &[NameLine<'_>],
    activity: u32,
    predecessor: u32,
) -> Result<String, AllocError>
    ensures { IfOk result (λ text. string_bytes text ≡ spec.named_broken_text
        (map name_of ids.now) (map name_of names.now) activity predecessor) }
{
    let label = id_label(alloc, ids, names, activity)?;
    let before = id_label(alloc, ids, names, predecessor)?;
    labelled_broken(alloc, activity, &label, predecessor, &before)
}

// Returns the sentence that more of resource k is in use at time t than its capacity.
fn named_over(
    alloc: Global,
    resources: &[NameLine<'_>],
    t: u64,
    k: u32,
) -> Result<String, AllocError>
    ensures { IfOk result (λ text. string_bytes text
        ≡ spec.named_over_text (map name_of resources.now) t k) }
{
    let mut text = String::new(alloc);
    write!(text, "at time {t} more of ")?;
    let name = first_name(resources, k as u64);
    push_called(alloc, &mut text, "resource", k as u64, name)?;
    text.push_str(" is needed than there is")?;
    Ok(text)
}

// Returns the sentence that an activity can start earlier.
fn named_early(
    alloc: Global,
    ids: &[NameLine<'_>],
    names: &[NameLine<'_>],
    activity: u32,
) -> Result<String, AllocError>
    ensures { IfOk result (λ text. string_bytes text
        ≡ spec.named_early_text (map name_of ids.now) (map name_of names.now) activity) }
{
    let label = id_label(alloc, ids, names, activity)?;
    let mut text = String::new(alloc);
    push_activity(&mut text, activity, &label)?;
    text.push_str(" can start earlier")?;
    Ok(text)
}

// Returns the sentence of a verdict on the starts of a project, whose activities have these ids and
// names.
fn project_sentence(
    alloc: Global,
    ids: &[NameLine<'_>],
    names: &[NameLine<'_>],
    resources: &[NameLine<'_>],
    verdict: Verdict,
) -> Result<String, AllocError>
    ensures { IfOk result (λ text. string_bytes text ≡ spec.project_sentence
        (map name_of ids.now) (map name_of names.now) (map name_of resources.now) verdict) }
{
    match verdict {
        Verdict::Arc(i, j) => named_broken(alloc, ids, names, j, i),
        Verdict::Over(t, k) => named_over(alloc, resources, t, k),
        Verdict::Shift(j) => named_early(alloc, ids, names, j),
        Verdict::Active => "active".to_string(alloc),
    }
}

// Appends a step by its number in the job and by the name of the job.
fn push_step(
    alloc: Global,
    text: &mut String,
    jobs: &[NameLine<'_>],
    shop: &Shop,
    x: u32,
) -> Result<(), AllocError>
    ensures { OnOk result (string_bytes text.new ≡ string_bytes text.old
        ++ spec.named_step_text (map name_of jobs.now) shop.now x) }
{
    let place = place_number(shop, x);
    let job = job_number(shop, x) as u64;
    write!(text, "step {place} of ")?;
    push_called(alloc, text, "job", job, first_name(jobs, job))
}

// Returns the sentence that a step starts before its predecessor in the job ends.
fn named_broken_job(
    alloc: Global,
    jobs: &[NameLine<'_>],
    shop: &Shop,
    predecessor: u32,
    step: u32,
) -> Result<String, AllocError>
    ensures { IfOk result (λ text. string_bytes text ≡ spec.named_broken_job_text
        (map name_of jobs.now) shop.now predecessor step) }
{
    let mut text = String::new(alloc);
    push_step(alloc, &mut text, jobs, shop, step)?;
    let before = place_number(shop, predecessor);
    write!(text, " starts before step {before}")?;
    text.push_str(" ends")?;
    Ok(text)
}

// Returns the sentence that two steps are on a machine at time t.
fn named_crowded(
    alloc: Global,
    machines: &[NameLine<'_>],
    t: u64,
    k: u32,
) -> Result<String, AllocError>
    ensures { IfOk result (λ text. string_bytes text
        ≡ spec.named_crowded_text (map name_of machines.now) t k) }
{
    let machine = k.saturating_sub(1) as u64;
    let mut text = String::new(alloc);
    write!(text, "at time {t} more than one step is on ")?;
    let name = first_name(machines, machine);
    push_called(alloc, &mut text, "machine", machine, name)?;
    Ok(text)
}

// Returns the sentence that a step can start earlier.
fn named_early_step(
    alloc: Global,
    jobs: &[NameLine<'_>],
    shop: &Shop,
    step: u32,
) -> Result<String, AllocError>
    ensures { IfOk result (λ text. string_bytes text ≡ spec.named_step_text
        (map name_of jobs.now) shop.now step ++ codes " can start earlier") }
{
    let mut text = String::new(alloc);
    push_step(alloc, &mut text, jobs, shop, step)?;
    text.push_str(" can start earlier")?;
    Ok(text)
}

// Returns the sentence of a verdict on the starts of a job shop, whose jobs and machines have these
// names.
fn shop_sentence(
    alloc: Global,
    jobs: &[NameLine<'_>],
    machines: &[NameLine<'_>],
    shop: &Shop,
    verdict: Verdict,
) -> Result<String, AllocError>
    ensures { IfOk result (λ text. string_bytes text ≡ spec.shop_sentence
        (map name_of jobs.now) (map name_of machines.now) shop.now verdict) }
{
    match verdict {
        Verdict::Arc(i, j) => named_broken_job(alloc, jobs, shop, i, j),
        Verdict::Over(t, k) => named_crowded(alloc, machines, t, k),
        Verdict::Shift(j) => named_early_step(alloc, jobs, shop, j),
        Verdict::Active => "active".to_string(alloc),
    }
}

/// Returns the sentence of a verdict on the starts of the plan of a file. Activities have their ids
/// and names, also waits; resources, jobs and machines have their names. All else has its number.
pub fn verdict_sentence(
    alloc: Global,
    subject: Subject<'_>,
    file: &[u8],
    plan: &Plan<'_>,
    verdict: Verdict,
) -> Result<String, AllocError>
    ensures { IfOk result (λ text. string_bytes text
        ≡ spec.verdict_sentence subject.entry file.now plan.now verdict) }
{
    match plan {
        Plan::Project(_, _) => {
            let ids = activity_ids(alloc, file)?;
            let names = names_under(alloc, subject, file, Key::Activity)?;
            let resources = names_under(alloc, subject, file, Key::Resource)?;
            project_sentence(alloc, &ids, &names, &resources, verdict)
        }
        Plan::Shop(shop) => {
            let jobs = names_under(alloc, subject, file, Key::Job)?;
            let machines = names_under(alloc, subject, file, Key::Machine)?;
            shop_sentence(alloc, &jobs, &machines, shop, verdict)
        }
    }
}
