//! The use of resources over time, as SVG.

ghost use Rattle.std.specs.Prelude.{◌≡◌, ◌++◌, ◌<◌, ◌≤◌, length, slice_index, EachIndex};
ghost use Rattle.std.specs.Prelude.{IfOk, OnOk, map, string_bytes};
ghost use Rattle.plan_net.specs.Network.{count_of};
ghost use Rattle.plan_gantt.specs.Limits.{latest_start};
ghost use Rattle.plan_table.specs.Names.{name_of};
ghost use Rattle.plan_sheet.specs.Chart.{chart_of};
ghost use Rattle.plan_sheet.specs.Usage as spec;

use crate::axis::begin_place;
use crate::axis_marks::push_marks;
use crate::changes::next_change;
use crate::chart::{Chart, cut_label, push_image_head};
use crate::escape::escaped;
use crate::names::label;
use crate::pieces::push_counted;
use crate::styles::{CAPACITY_LINE, USE_FROM, USE_NAME, USE_TO};
use crate::uses::{Use, used_at, used_before, uses_of};
use jiff::civil::Date;
use plan_sgs::Instance;
use plan_table::NameLine;
use std::alloc::{AllocError, Global};
use std::fmt::Write;

/// The room of a resource's label, in columns of 0.6 em.
const USE_ROOM: u32 = 27;

// Returns the height of an amount: 108 for none, 28 for the capacity.
#[tactic(auto, unfolding(crate::specs::Usage::level))]
fn level(capacity: u64, amount: u32) -> u64
    ensures { result ≡ spec.level capacity amount }
{
    108_u64.saturating_sub(u64::from(amount) * 80 / capacity.max(1))
}

// Appends a step: along to its place, then to its height.
#[tactic(auto, unfolding(crate::specs::Usage::step))]
fn push_step(text: &mut String, x: u64, y: u64) -> Result<(), AllocError>
    ensures { OnOk result (string_bytes text.new ≡ string_bytes text.old ++ spec.step x y) }
{
    write!(text, "H{x}V{y}")
}

// Appends the step at instant `t`, or nothing if the use stays as it was.
fn push_step_at(
    text: &mut String,
    span: u32,
    days: &[Date],
    per_day: u32,
    capacity: u64,
    uses: &[Use],
    t: u32,
) -> Result<(), AllocError>
    ensures { OnOk result (string_bytes text.new
        ≡ string_bytes text.old ++ spec.step_at span days.now per_day capacity uses.now t) }
{
    let used = used_at(uses, t);
    let before = used_before(uses, t);
    if used == before {
        Ok(())
    } else {
        let x = begin_place(span, days, per_day, t);
        push_step(text, x, level(capacity, used))
    }
}

// Appends the steps of the instants before the makespan. The use is constant between two changes.
fn push_steps(
    text: &mut String,
    span: u32,
    days: &[Date],
    per_day: u32,
    capacity: u64,
    uses: &[Use],
    makespan: u32,
) -> Result<(), AllocError>
    ensures { OnOk result (string_bytes text.new
        ≡ string_bytes text.old ++ spec.steps_of span days.now per_day capacity uses.now makespan) }
{
    let mut t = 0;
    while t < makespan {
        push_step_at(text, span, days, per_day, capacity, uses, t)?;
        t = next_change(uses, t, makespan);
    }
    Ok(())
}

// Appends the area below the steps.
#[tactic(auto, unfolding(crate::specs::Usage::use_area))]
fn push_use_area(
    text: &mut String,
    span: u32,
    days: &[Date],
    per_day: u32,
    capacity: u64,
    uses: &[Use],
    makespan: u32,
) -> Result<(), AllocError>
    ensures { OnOk result (string_bytes text.new
        ≡ string_bytes text.old ++ spec.use_area span days.now per_day capacity uses.now makespan) }
{
    text.push_str(USE_FROM)?;
    push_steps(text, span, days, per_day, capacity, uses, makespan)?;
    text.push_str(USE_TO)
}

// Appends the line of the capacity, and the name of the resource beside the steps.
#[tactic(auto, unfolding(crate::specs::Usage::use_labels))]
fn push_use_labels(text: &mut String, capacity: u64, name: &str) -> Result<(), AllocError>
    ensures { OnOk result
        (string_bytes text.new ≡ string_bytes text.old ++ spec.use_labels capacity name.now) }
{
    push_counted(text, CAPACITY_LINE, capacity)?;
    text.push_str(USE_NAME)?;
    text.push_str(name)?;
    text.push_str("</text></svg>\n")
}

// Appends the image of a resource with this label and its short form, which are escaped.
#[tactic(auto, unfolding(crate::specs::Usage::use_image))]
fn push_use_image(
    alloc: Global,
    text: &mut String,
    chart: &Chart<'_>,
    name: &str,
    short: &str,
    capacity: u64,
    uses: &[Use],
    makespan: u32,
) -> Result<(), AllocError>
    ensures { OnOk result (string_bytes text.new ≡ string_bytes text.old ++ spec.use_image
        chart.now.span chart.now.days.now chart.now.per_day name.now short.now capacity uses.now
        makespan) }
{
    push_image_head(text, 112, "", name)?;
    push_use_area(
        text,
        chart.span,
        chart.days,
        chart.per_day,
        capacity,
        uses,
        makespan,
    )?;
    push_marks(alloc, text, chart.span, chart.days, 89)?;
    push_use_labels(text, capacity, short)?;
    text.push_str("</svg>\n")
}

// Appends the image of resource `k + 1`.
#[tactic(auto, unfolding(crate::specs::Usage::use_figure))]
fn push_use_figure(
    alloc: Global,
    text: &mut String,
    chart: &Chart<'_>,
    resources: &[NameLine<'_>],
    instance: &Instance<'_>,
    starts: &[u64],
    makespan: u32,
    k: u32,
) -> Result<(), AllocError>
    requires resource { k < length instance.now.capacities }
    requires few { k < 1000 }
    requires starts { length starts.now ≡ count_of instance.now.project.network }
    requires limit { EachIndex starts.now (λ k. slice_index starts.now k ≤ latest_start) }
    ensures { OnOk result (string_bytes text.new ≡ string_bytes text.old
        ++ spec.use_figure (chart_of chart.now) (map name_of resources.now) instance.now starts.now
        makespan k) }
{
    let full = label(alloc, resources, k + 1)?;
    let name = escaped(alloc, &full)?;
    let short = cut_label(alloc, &full, USE_ROOM)?;
    let uses = uses_of(alloc, instance, starts, k + 1)?;
    let capacity = instance.caps()[k as usize];
    text.push_str("<figure>\n")?;
    push_use_image(alloc, text, chart, &name, &short, capacity, &uses, makespan)?;
    text.push_str("</figure>\n")
}

// Returns the number of resources that are shown.
fn resource_count(capacities: &[u64]) -> u32
    ensures { result ≡ spec.resource_count capacities.now }
{
    capacities.len().min(1000) as u32
}

// Appends the images of all resources.
fn push_use_figures(
    alloc: Global,
    text: &mut String,
    chart: &Chart<'_>,
    resources: &[NameLine<'_>],
    instance: &Instance<'_>,
    starts: &[u64],
    makespan: u32,
) -> Result<(), AllocError>
    requires starts { length starts.now ≡ count_of instance.now.project.network }
    requires limit { EachIndex starts.now (λ k. slice_index starts.now k ≤ latest_start) }
    ensures { OnOk result (string_bytes text.new ≡ string_bytes text.old
        ++ spec.use_figures (chart_of chart.now) (map name_of resources.now) instance.now
        starts.now makespan) }
{
    for k in 0..resource_count(instance.caps()) {
        push_use_figure(alloc, text, chart, resources, instance, starts, makespan, k)?;
    }
    Ok(())
}

/// Returns the section of the resources: their use over time, below a heading. It is empty without
/// resources, and for a makespan of more than 100,000 time units.
#[tactic(auto, unfolding(crate::specs::Usage::use_section))]
pub(crate) fn use_section(
    alloc: Global,
    chart: &Chart<'_>,
    resources: &[NameLine<'_>],
    instance: &Instance<'_>,
    starts: &[u64],
    makespan: u32,
) -> Result<String, AllocError>
    requires starts { length starts.now ≡ count_of instance.now.project.network }
    requires limit { EachIndex starts.now (λ k. slice_index starts.now k ≤ latest_start) }
    ensures { IfOk result (λ text. string_bytes text
        ≡ spec.use_section (chart_of chart.now) (map name_of resources.now) instance.now starts.now
        makespan) }
{
    let mut text = String::new(alloc);
    if resource_count(instance.caps()) < 1 {
        return Ok(text);
    }
    if 100_000 < makespan {
        return Ok(text);
    }
    text.push_str("<h2>Resource use</h2>\n")?;
    push_use_figures(
        alloc, &mut text, chart, resources, instance, starts, makespan,
    )?;
    Ok(text)
}
