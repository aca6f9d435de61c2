//! Verdicts on starts in a sentence.

ghost use Rattle.std.specs.Prelude.{◌≡◌, ◌≤◌, ◌++◌, OnOk, codes, string_bytes};
ghost use Rattle.plan_report.specs.VerdictText as spec;

use plan_sgs::Verdict;
use plan_shop::Shop;
use std::alloc::AllocError;
use std::fmt::Write;

// Appends the sentence that an activity starts before its predecessor ends.
fn push_broken(text: &mut String, activity: u32, predecessor: u32) -> Result<(), AllocError>
    ensures { OnOk result (string_bytes text.new
        ≡ string_bytes text.old ++ spec.broken_text activity predecessor) }
{
    write!(text, "activity {activity}")?;
    write!(text, " starts before {predecessor}")?;
    text.push_str(" ends")
}

// Appends the sentence that more of resource k is in use at time t than its capacity.
fn push_over(text: &mut String, t: u64, k: u32) -> Result<(), AllocError>
    ensures { OnOk result (string_bytes text.new ≡ string_bytes text.old ++ spec.over_text t k) }
{
    write!(
        text,
        "at time {t} more of resource {k} is needed than there is"
    )
}

/// Appends the sentence of a verdict on the starts of a project.
pub fn push_sentence(text: &mut String, verdict: Verdict) -> Result<(), AllocError>
    ensures { OnOk result
        (string_bytes text.new ≡ string_bytes text.old ++ spec.sentence_of verdict) }
{
    match verdict {
        Verdict::Arc(i, j) => push_broken(text, j, i),
        Verdict::Over(t, k) => push_over(text, t, k),
        Verdict::Shift(j) => write!(text, "activity {j} can start earlier"),
        Verdict::Active => text.push_str("active"),
    }
}

// Returns the number of a step in its job, both from 1.
fn place_number(shop: &Shop, x: u32) -> u32
    ensures { result ≡ spec.place_number shop.now x }
{
    x.saturating_sub(1) % shop.machines() + 1
}

// Returns the number of a step's job, both from 1.
fn job_number(shop: &Shop, x: u32) -> u32
    ensures { result ≡ spec.job_number shop.now x }
{
    x.saturating_sub(1) / shop.machines() + 1
}

// Appends a step, by its number in the job and by the job.
fn push_step(text: &mut String, shop: &Shop, x: u32) -> Result<(), AllocError>
    ensures { OnOk result
        (string_bytes text.new ≡ string_bytes text.old ++ spec.step_text shop.now x) }
{
    let place = place_number(shop, x);
    let job = job_number(shop, x);
    write!(text, "step {place} of job {job}")
}

// Appends the sentence that a step starts before its predecessor in the job ends.
fn push_broken_job(
    text: &mut String,
    shop: &Shop,
    predecessor: u32,
    step: u32,
) -> Result<(), AllocError>
    ensures { OnOk result (string_bytes text.new
        ≡ string_bytes text.old ++ spec.broken_job_text shop.now predecessor step) }
{
    push_step(text, shop, step)?;
    let before = place_number(shop, predecessor);
    write!(text, " starts before step {before}")?;
    text.push_str(" ends")
}

// Appends the sentence that two steps are on a machine at time t.
fn push_crowded(text: &mut String, t: u64, k: u32) -> Result<(), AllocError>
    ensures { OnOk result (string_bytes text.new ≡ string_bytes text.old ++ spec.crowded_text t k) }
{
    let machine = k.saturating_sub(1);
    write!(text, "at time {t}")?;
    write!(text, " more than one step is on machine {machine}")
}

// Appends the sentence that a step can start earlier.
fn push_shift(text: &mut String, shop: &Shop, x: u32) -> Result<(), AllocError>
    ensures { OnOk result (string_bytes text.new
        ≡ string_bytes text.old ++ spec.step_text shop.now x ++ codes " can start earlier") }
{
    push_step(text, shop, x)?;
    text.push_str(" can start earlier")
}

/// Appends the sentence of a verdict on the starts of a job shop.
pub fn push_shop_sentence(
    text: &mut String,
    shop: &Shop,
    verdict: Verdict,
) -> Result<(), AllocError>
    ensures { OnOk result (string_bytes text.new
        ≡ string_bytes text.old ++ spec.shop_sentence_of shop.now verdict) }
{
    match verdict {
        Verdict::Arc(i, j) => push_broken_job(text, shop, i, j),
        Verdict::Over(t, k) => push_crowded(text, t, k),
        Verdict::Shift(j) => push_shift(text, shop, j),
        Verdict::Active => text.push_str("active"),
    }
}
