//! The date table.

ghost use Rattle.std.specs.Prelude.{◌≡◌, ◌++◌, length, IfOk, OnOk, string_bytes};
ghost use Rattle.plan_net.specs.Network.{IsActivity, count_of};
ghost use Rattle.plan_gantt.specs.Column.{number_columns};
ghost use Rattle.plan_gantt.specs.DateTable.{dates_of, line_end, date_line, date_table_text};

use crate::column::{push_first, push_numbers};
use plan_cpm::Dates;
use plan_net::Network;
use std::alloc::{AllocError, Global};
use std::fmt::Write;

// The duration, the dates and the floats of activity `j`.
fn push_dates(text: &mut String, network: &Network, dates: &Dates, j: u32) -> Result<(), AllocError>
    requires activity { IsActivity network.now j }
    requires dated { length dates.now.durations ≡ count_of network.now }
    ensures { OnOk result (string_bytes text.new ≡ string_bytes text.old ++ number_columns
        (dates_of network.now dates.now j)) }
{
    let numbers = [
        network.duration(j),
        dates.es(j),
        dates.ef(j),
        dates.ls(j),
        dates.lf(j),
        dates.tf(j),
        dates.ff(j),
    ];
    push_numbers(text, &numbers)
}

// The end of a line.
fn push_end(text: &mut String, critical: bool) -> Result<(), AllocError>
    ensures { OnOk result (string_bytes text.new ≡ string_bytes text.old ++ line_end critical) }
{
    text.push_str(if critical { " *\n" } else { "\n" })
}

// The line of activity `j`.
#[tactic(auto, unfolding(crate::specs::DateTable::date_line))]
fn push_line(text: &mut String, network: &Network, dates: &Dates, j: u32) -> Result<(), AllocError>
    requires activity { IsActivity network.now j }
    requires dated { length dates.now.durations ≡ count_of network.now }
    ensures { OnOk result
        (string_bytes text.new ≡ string_bytes text.old ++ date_line network.now dates.now j) }
{
    push_first(text, j)?;
    push_dates(text, network, dates, j)?;
    push_end(text, dates.tf(j) == 0)
}

/// Returns the date table: a line for each activity with its duration, ES, EF, LS, LF, TF and FF,
/// and the project duration in the last line. Critical activities have a star. The dates may be
/// those of another network with as many activities.
pub fn date_table(alloc: Global, network: &Network, dates: &Dates) -> Result<String, AllocError>
    requires dated { length dates.now.durations ≡ count_of network.now }
    ensures text { IfOk result (λ text. string_bytes text ≡ date_table_text network.now dates.now) }
{
    let mut text = String::new(alloc);
    text.push_str(" act       d      ES      EF      LS      LF      TF      FF\n")?;
    for k in 0..network.len() {
        push_line(&mut text, network, dates, k as u32 + 1)?;
    }
    let duration = dates.duration();
    writeln!(text, "T {duration}")?;
    Ok(text)
}
