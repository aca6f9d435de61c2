//! The table of slacks.

ghost use Rattle.std.specs.Prelude.{◌≡◌, ◌≤◌, ◌∷◌, [], All, map, length, IfOk, IfErr};
ghost use Rattle.plan_net.specs.Network.{IsActivity, count_of};
ghost use Rattle.plan_profile.specs.Usage.{IsInTime};
ghost use Rattle.plan_sgs.specs.Instances.{problem_of};
ghost use Rattle.plan_report.specs.Slack.{RefusesSlack};
ghost use Rattle.plan_report.specs.SlackText.{IsSlackText};
ghost use Rattle.plan_formats.specs.Columns.{column_of};
ghost use Rattle.plan_formats.specs.TableLines.{chain_of};
ghost use Rattle.plan_formats.specs.Tables.{cells_of, rows_of, table_of};
ghost use Rattle.plan_formats.specs.TableText.{text_of};
ghost use Rattle.plan_views.specs.Rows.{rows_from};
ghost use Rattle.plan_views.specs.SlackTables as spec;

use crate::headings::{activity, duration, end, mark, right, start};
use crate::rows::row_of;
use plan_formats::{Cell, Column, Line, Table};
use plan_net::{Network, index_of};
use plan_report::{SlackFault, schedule_slack, tight_chain};
use plan_sgs::Instance;
use std::alloc::{AllocError, Global};

// Returns the columns.
fn columns(alloc: Global) -> Result<Vec<Column>, AllocError>
    ensures { IfOk result (λ columns. map column_of columns.items ≡ spec.slack_columns) }
{
    let slack = right("slack", "slack", 8);
    Ok(Vec::from_array(
        alloc,
        [activity(), duration(), start(), end(), slack, mark()],
    )?)
}

// Returns the row of activity `j`.
#[tactic(auto, unfolding(crate::specs::SlackTables::slack_row))]
fn row<'a>(
    alloc: Global,
    network: &Network,
    starts: &[u64],
    slacks: &[u64],
    j: u32,
) -> Result<Vec<Cell<'a>>, AllocError>
    requires activity { IsActivity network.now j }
    requires starts { length starts.now ≡ count_of network.now }
    requires limit { All IsInTime starts.now }
    requires slacks { length slacks.now ≡ count_of network.now }
    ensures { IfOk result (λ cells.
        cells_of cells.items ≡ spec.slack_row network.now starts.now slacks.now j) }
{
    let duration = network.duration(j);
    let start = starts[index_of(j)];
    let slack = slacks[index_of(j)];
    let cells = [
        Cell::Number(j as u64),
        Cell::Number(duration),
        Cell::Number(start),
        Cell::Number(start + duration),
        Cell::Number(slack),
        Cell::Flag(slack == 0),
    ];
    row_of(alloc, &cells)
}

// Returns the rows of all activities.
fn rows<'a>(
    alloc: Global,
    network: &Network,
    starts: &[u64],
    slacks: &[u64],
) -> Result<Vec<Vec<Cell<'a>>>, AllocError>
    requires starts { length starts.now ≡ count_of network.now }
    requires limit { All IsInTime starts.now }
    requires slacks { length slacks.now ≡ count_of network.now }
    ensures { IfOk result (λ rows. rows_of rows.items
        ≡ rows_from (spec.slack_row network.now starts.now slacks.now) 1 (count_of network.now)) }
{
    let mut rows = Vec::new(alloc);
    for k in 0..network.len() {
        rows.push(row(alloc, network, starts, slacks, k as u32 + 1)?)?;
    }
    Ok(rows)
}

// Returns the table of these slacks and this chain.
fn table<'a>(
    alloc: Global,
    network: &Network,
    starts: &[u64],
    slacks: &[u64],
    chain: Option<Vec<u32>>,
) -> Result<Table<'a>, AllocError>
    requires starts { length starts.now ≡ count_of network.now }
    requires limit { All IsInTime starts.now }
    requires slacks { length slacks.now ≡ count_of network.now }
    ensures { IfOk result (λ table. table_of table
        ≡ spec.slack_view_of network.now starts.now slacks.now (chain_of chain)) }
{
    Ok(Table {
        above: Vec::new(alloc),
        columns: columns(alloc)?,
        rows: rows(alloc, network, starts, slacks)?,
        below: Vec::from_array(alloc, [Line::Chain(chain)])?,
    })
}

/// Returns the table of the slacks of a schedule: a row for each activity with its duration, start,
/// end and slack, marked if it has none, and below a chain of activities without slack from the
/// start to the end ([`tight_chain`]), if there is one. Index `k` of `starts` is activity `k + 1`.
/// Fails as [`schedule_slack`] does.
pub fn slack_view<'a>(
    alloc: Global,
    instance: &Instance,
    starts: &[u64],
) -> Result<Table<'a>, SlackFault>
    requires whole { length starts.now ≡ count_of instance.now.project.network }
    requires limit { All IsInTime starts.now }
    ensures value { IfOk result (λ table.
        spec.IsSlackView instance.now starts.now (table_of table)) }
    ensures text { IfOk result (λ table.
        IsSlackText instance.now starts.now (text_of (table_of table))) }
    ensures refused { IfErr result (RefusesSlack (problem_of instance.now) starts.now) }
{
    let slacks = schedule_slack(alloc, instance, starts)?;
    let chain = tight_chain(alloc, instance, starts, &slacks)?;
    let table = table(alloc, instance.network(), starts, &slacks, chain)?;
    Ok(table)
}
