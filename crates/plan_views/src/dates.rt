//! The date table.

ghost use Rattle.std.specs.Prelude.{◌≡◌, map, length, IfOk};
ghost use Rattle.plan_net.specs.Network.{IsActivity, count_of};
ghost use Rattle.plan_gantt.specs.DateTable.{date_table_text};
ghost use Rattle.plan_formats.specs.Columns.{column_of};
ghost use Rattle.plan_formats.specs.Tables.{cells_of, rows_of, table_of};
ghost use Rattle.plan_formats.specs.TableText.{text_of};
ghost use Rattle.plan_views.specs.Rows.{rows_from};
ghost use Rattle.plan_views.specs.DateTables as spec;

use crate::headings::{activity, duration, mark, right};
use crate::rows::row_of;
use plan_cpm::Dates;
use plan_formats::{Cell, Column, Line, Table};
use plan_net::Network;
use std::alloc::{AllocError, Global};

// Returns the columns.
fn columns(alloc: Global) -> Result<Vec<Column>, AllocError>
    ensures { IfOk result (λ columns. map column_of columns.items ≡ spec.date_columns) }
{
    Ok(Vec::from_array(
        alloc,
        [
            activity(),
            duration(),
            right("ES", "earliest_start", 8),
            right("EF", "earliest_finish", 8),
            right("LS", "latest_start", 8),
            right("LF", "latest_finish", 8),
            right("TF", "total_float", 8),
            right("FF", "free_float", 8),
            mark(),
        ],
    )?)
}

// Returns the row of activity `j`.
#[tactic(auto, unfolding(crate::specs::DateTables::date_row))]
fn row<'a>(
    alloc: Global,
    network: &Network,
    dates: &Dates,
    j: u32,
) -> Result<Vec<Cell<'a>>, AllocError>
    requires activity { IsActivity network.now j }
    requires dated { length dates.now.durations ≡ count_of network.now }
    ensures { IfOk result (λ cells. cells_of cells.items ≡ spec.date_row network.now dates.now j) }
{
    let tf = dates.tf(j);
    let cells = [
        Cell::Number(j as u64),
        Cell::Number(network.duration(j)),
        Cell::Number(dates.es(j)),
        Cell::Number(dates.ef(j)),
        Cell::Number(dates.ls(j)),
        Cell::Number(dates.lf(j)),
        Cell::Number(tf),
        Cell::Number(dates.ff(j)),
        Cell::Flag(tf == 0),
    ];
    row_of(alloc, &cells)
}

// Returns the rows of all activities.
fn rows<'a>(
    alloc: Global,
    network: &Network,
    dates: &Dates,
) -> Result<Vec<Vec<Cell<'a>>>, AllocError>
    requires dated { length dates.now.durations ≡ count_of network.now }
    ensures { IfOk result (λ rows. rows_of rows.items
        ≡ rows_from (spec.date_row network.now dates.now) 1 (count_of network.now)) }
{
    let mut rows = Vec::new(alloc);
    for k in 0..network.len() {
        rows.push(row(alloc, network, dates, k as u32 + 1)?)?;
    }
    Ok(rows)
}

/// Returns the date table: a row for each activity with its duration, ES, EF, LS, LF, TF, FF and
/// whether it is critical, and the project duration below. The dates may be those of another
/// network with as many activities.
pub fn date_view<'a>(
    alloc: Global,
    network: &Network,
    dates: &Dates,
) -> Result<Table<'a>, AllocError>
    requires dated { length dates.now.durations ≡ count_of network.now }
    ensures value { IfOk result (λ table.
        table_of table ≡ spec.date_view_of network.now dates.now) }
    ensures text { IfOk result (λ table.
        text_of (table_of table) ≡ date_table_text network.now dates.now) }
{
    Ok(Table {
        above: Vec::new(alloc),
        columns: columns(alloc)?,
        rows: rows(alloc, network, dates)?,
        below: Vec::from_array(alloc, [Line::Duration(dates.duration())])?,
    })
}
