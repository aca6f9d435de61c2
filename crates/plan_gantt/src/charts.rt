//! The Gantt chart of a project.

ghost use Rattle.std.specs.Prelude.{◌≡◌, ◌+◌, ◌*◌, ◌++◌, ◌≤◌, All, length, slice_index, EachIndex, IfOk, OnOk, string_bytes};
ghost use Rattle.plan_net.specs.Network.{IsActivity, count_of};
ghost use Rattle.plan_gantt.specs.Limits.{latest_start, latest_end};
ghost use Rattle.plan_gantt.specs.Chart as spec;
ghost use Rattle.plan_gantt.specs.Charts.{activity_interval, activity_intervals};

use crate::column::push_first;
use crate::interval::{Interval, is_marked};
use plan_net::{Network, index_of};
use std::alloc::{AllocError, Global};
use std::fmt::Write;

/// Returns the number of instants in a cell.
pub fn chart_unit(makespan: u64) -> u64
    requires { makespan ≤ latest_end }
    ensures unit { result ≡ spec.chart_unit makespan }
    ensures some { 1 ≤ result }
    ensures few { result ≤ latest_end }
{
    if makespan <= 60 {
        1
    } else {
        makespan.div_ceil(60)
    }
}

// Returns the number of cells in a line.
fn chart_cells(makespan: u64) -> u64
    requires { makespan ≤ latest_end }
    ensures cells { result ≡ spec.chart_cells makespan }
    ensures end { result * spec.chart_unit makespan ≤ 2 * latest_end }
{
    makespan.div_ceil(chart_unit(makespan))
}

// A cell.
#[tactic(auto, unfolding(crate::specs::Chart::cell_text))]
fn cell_text(unit: u64, intervals: &[Interval], cell: u64) -> &'static str
    requires instants { cell * unit + unit ≤ 2 * latest_end }
    requires ends { All (λ v. v.start + v.duration ≤ latest_end) intervals.now }
    ensures { result.now ≡ spec.cell_text unit intervals.now cell }
{
    if is_marked(unit, intervals, cell) {
        "#"
    } else {
        "."
    }
}

/// Appends the cells of a line.
pub fn push_cells(
    text: &mut String,
    makespan: u64,
    intervals: &[Interval],
) -> Result<(), AllocError>
    requires makespan { makespan ≤ latest_end }
    requires ends { All (λ v. v.start + v.duration ≤ latest_end) intervals.now }
    ensures { OnOk result (string_bytes text.new ≡ string_bytes text.old ++ spec.cell_texts
        (spec.chart_unit makespan) intervals.now (spec.chart_cells makespan)) }
{
    let unit = chart_unit(makespan);
    for cell in 0..chart_cells(makespan) {
        text.push_str(cell_text(unit, intervals, cell))?;
    }
    Ok(())
}

// Appends a line: its number, and the cells between bars.
#[tactic(auto, unfolding(crate::specs::Chart::chart_line))]
pub(crate) fn push_line(
    text: &mut String,
    makespan: u64,
    number: u32,
    intervals: &[Interval],
) -> Result<(), AllocError>
    requires makespan { makespan ≤ latest_end }
    requires ends { All (λ v. v.start + v.duration ≤ latest_end) intervals.now }
    ensures { OnOk result
        (string_bytes text.new ≡
        string_bytes text.old ++ spec.chart_line makespan number intervals.now) }
{
    push_first(text, number)?;
    text.push_str(" |")?;
    push_cells(text, makespan, intervals)?;
    text.push_str("|\n")
}

/// Appends the first line: the number of instants in a cell.
pub fn push_unit(text: &mut String, makespan: u64) -> Result<(), AllocError>
    requires { makespan ≤ latest_end }
    ensures { OnOk result
        (string_bytes text.new ≡ string_bytes text.old ++ spec.unit_line makespan) }
{
    let unit = chart_unit(makespan);
    writeln!(text, "unit {unit}")
}

/// The interval of activity `j`.
pub(crate) fn interval_of(network: &Network, starts: &[u64], j: u32) -> Interval
    requires activity { IsActivity network.now j }
    requires starts { length starts.now ≡ count_of network.now }
    requires limit { EachIndex starts.now (λ k. slice_index starts.now k ≤ latest_start) }
    ensures interval { result ≡ activity_interval network.now starts.now j }
    ensures end { result.start + result.duration ≤ latest_end }
{
    Interval {
        start: starts[index_of(j)],
        duration: network.duration(j),
    }
}

// The line of activity `j`.
fn push_activity(
    text: &mut String,
    network: &Network,
    starts: &[u64],
    makespan: u64,
    j: u32,
) -> Result<(), AllocError>
    requires activity { IsActivity network.now j }
    requires starts { length starts.now ≡ count_of network.now }
    requires limit { EachIndex starts.now (λ k. slice_index starts.now k ≤ latest_start) }
    requires makespan { makespan ≤ latest_end }
    ensures { OnOk result
        (string_bytes text.new ≡ string_bytes text.old ++ spec.chart_line makespan j
        (activity_intervals network.now starts.now j)) }
{
    push_line(text, makespan, j, &[interval_of(network, starts, j)])
}

/// Returns the Gantt chart of a schedule (Gantt 1910, Clark 1922): the unit, which is the number of
/// instants in a cell, and a line of cells for each activity. A cell is `#` if one of its instants
/// is in the interval of the activity, else `.`. Index `k` of `starts` is activity `k + 1`.
pub fn chart(
    alloc: Global,
    network: &Network,
    starts: &[u64],
    makespan: u64,
) -> Result<String, AllocError>
    requires starts { length starts.now ≡ count_of network.now }
    requires limit { EachIndex starts.now (λ k. slice_index starts.now k ≤ latest_start) }
    requires makespan { makespan ≤ latest_end }
    ensures text { IfOk result (λ text. string_bytes text ≡ spec.chart_text makespan
        (activity_intervals network.now starts.now) 1 (count_of network.now)) }
{
    let mut text = String::new(alloc);
    push_unit(&mut text, makespan)?;
    for k in 0..network.len() {
        push_activity(&mut text, network, starts, makespan, k as u32 + 1)?;
    }
    Ok(text)
}
