//! The contents of a sheet and their lines.

ghost use Rattle.std.specs.Prelude.{◌≡◌, ◌+◌, ◌++◌, ◌≤◌, ◌<◌, length, map, slice_index};
ghost use Rattle.std.specs.Prelude.{EachIndex, IfOk, OnOk};
ghost use Rattle.plan_net.specs.Network as networks;
ghost use Rattle.plan_gantt.specs.Limits.{latest_start};
ghost use Rattle.plan_table.specs.Names.{name_of};
ghost use Rattle.plan_sheet.specs.Layouts.{count_of, layout_of};
ghost use Rattle.plan_sheet.specs.Layouts as spec;

use crate::bars::{Bar, activity_bar, step_bar, step_count};
use crate::names::{SheetNames, is_shown};
use plan_sgs::Instance;
use plan_shop::Shop;
use plan_table::NameLine;
use std::alloc::{AllocError, Global};

/// The contents of a sheet and their lines. Index `k` of a list of starts is activity `k + 1` or
/// flat step `k`.
#[derive(Clone, Copy, Drop)]
pub enum Layout<'p> {
    /// The activities of a project, each in the line of its number, from 1 on.
    Activities(&'p Instance<'p>),
    /// The steps of a job shop: a line for each job, from 1 on, or for each machine, from 0 on.
    Steps {
        shop: &'p Shop,
        by_job: bool,
        /// Whether steps that take no time are left out.
        brief: bool,
    },
}

// Returns the number of activities or steps.
fn count(layout: Layout<'_>) -> u32
    ensures { result ≡ count_of (layout_of layout.entry) }
{
    match layout {
        Layout::Activities(instance) => instance.network().len() as u32,
        Layout::Steps { shop, .. } => step_count(shop),
    }
}

// Returns the number of the activity at index `k`.
fn activity_at(instance: &Instance<'_>, k: u32) -> u32
    requires { k < networks.count_of instance.now.project.network }
    ensures { result ≡ k + 1 }
{
    // The proof needs the greatest number of activities, which this call states.
    let _count = instance.network().len();
    k + 1
}

// Returns the bar at index `k`.
fn bar_at(layout: Layout<'_>, starts: &[u64], k: u32) -> Bar
    requires index { k < count_of (layout_of layout) }
    requires starts { length starts.now ≡ count_of (layout_of layout) }
    requires limit { EachIndex starts.now (λ k. slice_index starts.now k ≤ latest_start) }
    ensures { result ≡ spec.bar_at (layout_of layout.entry) starts.now k }
{
    match layout {
        Layout::Activities(instance) => {
            activity_bar(instance.network(), starts, activity_at(instance, k))
        }
        Layout::Steps { shop, by_job, .. } => step_bar(shop, starts, by_job, k),
    }
}

/// Returns the bars of a schedule, in the order of the activities or steps.
pub(crate) fn bars_of(
    alloc: Global,
    layout: Layout<'_>,
    starts: &[u64],
) -> Result<Vec<Bar>, AllocError>
    requires starts { length starts.now ≡ count_of (layout_of layout) }
    requires limit { EachIndex starts.now (λ k. slice_index starts.now k ≤ latest_start) }
    ensures { IfOk result (λ bars. bars.items ≡ spec.bars_of (layout_of layout.entry) starts.now) }
{
    let mut bars = Vec::new(alloc);
    for k in 0..count(layout) {
        let bar = bar_at(layout, starts, k);
        bars.push(bar)?;
    }
    Ok(bars)
}

/// Returns the ids of the bars: those of activities; steps have none.
pub(crate) fn bar_ids<'a>(layout: Layout<'_>, names: &SheetNames<'a>) -> &'a [NameLine<'a>]
    ensures { map name_of result.now
        ≡ spec.bar_ids (layout_of layout.entry) (map name_of names.now.ids.now) }
{
    match layout {
        Layout::Activities(_) => names.ids,
        Layout::Steps { .. } => &[],
    }
}

// Returns whether a bar is shown.
fn shows(layout: Layout<'_>, ids: &[NameLine<'_>], bar: Bar) -> bool
    ensures { result ≡ spec.shows (layout_of layout.entry) (map name_of ids.now) bar }
{
    match layout {
        Layout::Activities(_) => is_shown(ids, bar.number),
        Layout::Steps { brief, .. } => { if brief { bar.from < bar.to } else { true } }
    }
}

// Appends a bar, if it is shown.
fn push_shown(
    shown: &mut Vec<Bar>,
    layout: Layout<'_>,
    ids: &[NameLine<'_>],
    bar: Bar,
) -> Result<(), AllocError>
    ensures { OnOk result (shown.new.items ≡ shown.old.items
        ++ spec.shown_bar (layout_of layout.entry) (map name_of ids.now) bar) }
{
    if shows(layout, ids, bar) {
        shown.push(bar)?;
    }
    Ok(())
}

/// Returns the bars that are shown. If there are ids, the bar of an activity without an id isn't.
pub(crate) fn shown_bars(
    alloc: Global,
    layout: Layout<'_>,
    ids: &[NameLine<'_>],
    bars: &[Bar],
) -> Result<Vec<Bar>, AllocError>
    ensures { IfOk result (λ shown. shown.items
        ≡ spec.shown_bars (layout_of layout.entry) (map name_of ids.now) bars.now) }
{
    let mut shown = Vec::new(alloc);
    for &bar in bars {
        push_shown(&mut shown, layout, ids, bar)?;
    }
    Ok(shown)
}

// Returns the number of the first line, and the number of lines.
fn all_lines(layout: Layout<'_>) -> (u32, u32)
    ensures lines { result ≡ spec.all_lines (layout_of layout.entry) }
    ensures first { result.0 ≤ 1 }
    ensures count { result.1 ≤ 800000 }
{
    match layout {
        Layout::Activities(instance) => (1, instance.network().len() as u32),
        Layout::Steps { shop, by_job, .. } => {
            if by_job {
                (1, shop.jobs())
            } else {
                (0, shop.machines())
            }
        }
    }
}

// Appends the number of line `k` from a first one on, if it is shown.
fn push_line(
    lines: &mut Vec<u32>,
    ids: &[NameLine<'_>],
    first: u32,
    k: u32,
) -> Result<(), AllocError>
    requires first { first ≤ 1 }
    requires line { k < 800000 }
    ensures { OnOk result (lines.new.items
        ≡ lines.old.items ++ spec.shown_line (map name_of ids.now) first k) }
{
    let n = first + k;
    if is_shown(ids, n) {
        lines.push(n)?;
    }
    Ok(())
}

/// Returns the numbers of the lines that are shown. If there are ids, a line without an id isn't.
pub(crate) fn lines_of(
    alloc: Global,
    layout: Layout<'_>,
    names: &SheetNames<'_>,
) -> Result<Vec<u32>, AllocError>
    ensures { IfOk result (λ lines. lines.items
        ≡ spec.lines_of (layout_of layout.entry) (map name_of names.now.ids.now)) }
{
    let ids = bar_ids(layout, names);
    let (first, count) = all_lines(layout);
    let mut lines = Vec::new(alloc);
    for k in 0..count {
        push_line(&mut lines, ids, first, k)?;
    }
    Ok(lines)
}

/// Returns the names of the lines.
pub(crate) fn row_names<'a>(layout: Layout<'_>, names: &SheetNames<'a>) -> &'a [NameLine<'a>]
    ensures { map name_of result.now ≡ spec.row_names (layout_of layout.entry)
        (map name_of names.now.lines.now) (map name_of names.now.legend.now) }
{
    match layout {
        Layout::Activities(_) => names.lines,
        Layout::Steps { by_job, .. } => { if by_job { names.legend } else { names.lines } }
    }
}

/// Returns the names of the bars.
pub(crate) fn bar_names<'a>(layout: Layout<'_>, names: &SheetNames<'a>) -> &'a [NameLine<'a>]
    ensures { map name_of result.now ≡ spec.bar_names (layout_of layout.entry)
        (map name_of names.now.lines.now) (map name_of names.now.legend.now) }
{
    match layout {
        Layout::Activities(_) => names.lines,
        Layout::Steps { .. } => names.legend,
    }
}

/// Returns the names of the machines, or no names for a project.
pub(crate) fn machine_names<'a>(layout: Layout<'_>, names: &SheetNames<'a>) -> &'a [NameLine<'a>]
    ensures { map name_of result.now
        ≡ spec.machine_names (layout_of layout.entry) (map name_of names.now.lines.now) }
{
    match layout {
        Layout::Activities(_) => &[],
        Layout::Steps { .. } => names.lines,
    }
}

/// Returns whether the bars are those of steps, which have machines.
pub(crate) fn has_machines(layout: Layout<'_>) -> bool
    ensures { result ≡ spec.has_machines (layout_of layout.entry) }
{
    match layout {
        Layout::Activities(_) => false,
        Layout::Steps { .. } => true,
    }
}
