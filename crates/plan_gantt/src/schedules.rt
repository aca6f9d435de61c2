//! The table of a schedule.

ghost use Rattle.std.specs.Prelude.{◌≡◌, ◌++◌, ◌≤◌, length, slice_index, EachIndex, IfOk, OnOk, string_bytes};
ghost use Rattle.plan_net.specs.Network.{IsActivity, count_of};
ghost use Rattle.plan_gantt.specs.Limits.{latest_start};
ghost use Rattle.plan_gantt.specs.ScheduleTable.{makespan_line, schedule_line, schedule_table_text};

use crate::column::push_row;
use plan_net::{Network, index_of};
use std::alloc::{AllocError, Global};
use std::fmt::Write;

// The line of activity `j`.
#[tactic(auto, unfolding(crate::specs::ScheduleTable::schedule_line))]
fn push_line(text: &mut String, network: &Network, starts: &[u64], j: u32) -> Result<(), AllocError>
    requires activity { IsActivity network.now j }
    requires starts { length starts.now ≡ count_of network.now }
    requires limit { EachIndex starts.now (λ k. slice_index starts.now k ≤ latest_start) }
    ensures { OnOk result
        (string_bytes text.new ≡ string_bytes text.old ++ schedule_line network.now starts.now j) }
{
    let duration = network.duration(j);
    let start = starts[index_of(j)];
    push_row(text, j, &[duration, start, start + duration])
}

// The last line.
pub(crate) fn push_makespan(text: &mut String, makespan: u64) -> Result<(), AllocError>
    ensures { OnOk result
        (string_bytes text.new ≡ string_bytes text.old ++ makespan_line makespan) }
{
    writeln!(text, "makespan {makespan}")
}

// Appends the table of a schedule.
pub(crate) fn push_schedule_table(
    text: &mut String,
    network: &Network,
    starts: &[u64],
    makespan: u64,
) -> Result<(), AllocError>
    requires starts { length starts.now ≡ count_of network.now }
    requires limit { EachIndex starts.now (λ k. slice_index starts.now k ≤ latest_start) }
    ensures { OnOk result
        (string_bytes text.new ≡
        string_bytes text.old ++ schedule_table_text network.now starts.now makespan) }
{
    text.push_str(" act       d   start     end\n")?;
    for k in 0..network.len() {
        push_line(text, network, starts, k as u32 + 1)?;
    }
    push_makespan(text, makespan)
}

/// Returns the table of a schedule: a line for each activity with its duration, start and end, and
/// the makespan in the last line. Index `k` of `starts` is activity `k + 1`.
pub fn schedule_table(
    alloc: Global,
    network: &Network,
    starts: &[u64],
    makespan: u64,
) -> Result<String, AllocError>
    requires starts { length starts.now ≡ count_of network.now }
    requires limit { EachIndex starts.now (λ k. slice_index starts.now k ≤ latest_start) }
    ensures text { IfOk result (λ text.
        string_bytes text ≡ schedule_table_text network.now starts.now makespan) }
{
    let mut text = String::new(alloc);
    push_schedule_table(&mut text, network, starts, makespan)?;
    Ok(text)
}
