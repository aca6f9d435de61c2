//! Tables and charts of a list of orders: without the steps that take no time, and with machines by
//! name.

ghost use Rattle.std.specs.Prelude.{◌≡◌, ◌++◌, map, filter, IfOk, OnOk};
ghost use Rattle.plan_table.specs.Names.{name_of};
ghost use Rattle.plan_formats.specs.Cells.{cell_of};
ghost use Rattle.plan_formats.specs.NameColumns.{name_cell};
ghost use Rattle.plan_formats.specs.Tables.{cells_of, rows_of, table_of};
ghost use Rattle.plan_views.specs.Bars.{bar_of, row_of};
ghost use Rattle.plan_views.specs.Charts.{chart_of};
ghost use Rattle.plan_cli.specs.OrderTables as spec;
ghost use Rattle.plan_cli.specs.Tasks as tasks;
ghost use Rattle.plan_cli.specs.Views.{view_of};
ghost use Rattle.plan_cli.specs.Views as views;

use crate::own_tables::whole_table;
use crate::tasks::{Rows, rows_text};
use crate::views::{View, named_text, plain_text, text_in};
use plan_documents::{Subject, open_shop, read_instance};
use plan_errors::CliFault;
use plan_formats::{Cell, Table, format_table, table_text, with_names};
use plan_orlib::Step;
use plan_shop::Shop;
use plan_table::{NameLine, first_name};
use plan_views::{Bar, Chart, ChartRow, name_view, texts_column, verdict_view};
use std::alloc::{AllocError, Global};

// Reads the job shop of an instance in a file.
fn shop_in_file(alloc: Global, instance: &str, file: &[u8]) -> Result<Shop, CliFault>
    ensures { IfOk result (spec.IsShopInFile instance.now file.now) }
{
    let doc = read_instance(alloc, instance, file)?;
    open_shop(alloc, &doc)
}

/// Returns the job shop of a subject, if it is one. The file must have been read before, so that
/// only memory can run out.
pub(crate) fn subject_shop(
    alloc: Global,
    subject: Subject<'_>,
    file: &[u8],
) -> Result<Option<Shop>, AllocError>
    ensures { IfOk result (spec.IsShopOf subject.entry file.now) }
{
    match subject {
        Subject::Project(_) => Ok(None),
        Subject::Shop(instance) => match shop_in_file(alloc, instance, file) {
            Ok(shop) => Ok(Some(shop)),
            Err(_) => Err(AllocError),
        },
    }
}

// Returns the cell with the name of a machine.
fn machine_cell<'a>(names: &[NameLine<'a>], machine: u64) -> Cell<'a>
    ensures { cell_of result ≡ name_cell (map name_of names.now) machine }
{
    match first_name(names, machine) {
        Some(name) => Cell::Text(name),
        None => Cell::Empty,
    }
}

// Returns the row of a step with the name of its machine.
fn step_row<'a>(
    alloc: Global,
    names: &[NameLine<'a>],
    machine: u64,
    row: &[Cell<'a>],
) -> Result<Vec<Cell<'a>>, AllocError>
    ensures { IfOk result (λ made. cells_of made.items
        ≡ spec.with_machine (map name_of names.now) machine (cells_of row.now)) }
{
    let mut cells = Vec::new(alloc);
    cells.extend_from_slice(row)?;
    cells.push(machine_cell(names, machine))?;
    Ok(cells)
}

// Appends the row of a step with the name of its machine, if the step takes time.
fn push_timed<'a>(
    alloc: Global,
    names: &[NameLine<'a>],
    step: Step,
    row: &[Cell<'a>],
    made: &mut Vec<Vec<Cell<'a>>>,
) -> Result<(), AllocError>
    ensures { OnOk result (rows_of made.new.items ≡ rows_of made.old.items
        ++ spec.timed_row (map name_of names.now) step (cells_of row.now)) }
{
    if step.time != 0 {
        made.push(step_row(alloc, names, step.machine as u64, row)?)?;
    }
    Ok(())
}

// Returns the rows of the steps that take time, each with the name of its machine. Row `k` is that
// of the step with flat number `k`; rows behind the last step are left out.
fn timed_rows<'a>(
    alloc: Global,
    shop: &Shop,
    names: &[NameLine<'a>],
    rows: &[Vec<Cell<'a>>],
) -> Result<Vec<Vec<Cell<'a>>>, AllocError>
    ensures { IfOk result (λ made. rows_of made.items
        ≡ spec.timed_rows (map name_of names.now) shop.now.steps (rows_of rows.now)) }
{
    let machines = shop.machines();
    let mut made = Vec::new(alloc);
    for x in 0..shop.jobs() * machines {
        let Some(row) = rows.get(x as usize) else {
            return Ok(made);
        };
        push_timed(alloc, names, shop.step(x), row, &mut made)?;
    }
    Ok(made)
}

// Returns a table of steps without those that take no time, with the machines by name.
fn timed_table<'a>(
    alloc: Global,
    shop: &Shop,
    names: &[NameLine<'a>],
    table: Table<'a>,
) -> Result<Table<'a>, AllocError>
    ensures { IfOk result (λ made. table_of made
        ≡ spec.timed_table shop.now (map name_of names.now) (table_of table.entry)) }
{
    let rows = timed_rows(alloc, shop, names, &table.rows)?;
    let mut columns = table.columns;
    columns.push(texts_column("resources", names))?;
    Ok(Table {
        above: table.above,
        columns,
        rows,
        below: table.below,
    })
}

// Returns a table of steps of a list of orders: with the names of the orders and the machines, and
// without the steps that take no time.
fn order_table<'a>(
    alloc: Global,
    shop: &Shop,
    orders: &[NameLine<'a>],
    machines: &[NameLine<'a>],
    table: Table<'a>,
) -> Result<Table<'a>, AllocError>
    ensures { IfOk result (λ made. table_of made ≡ spec.order_table shop.now
        (map name_of orders.now) (map name_of machines.now) (table_of table.entry)) }
{
    let named = with_names(alloc, table, orders)?;
    timed_table(alloc, shop, machines, named)
}

// Returns the text of a table with these rows.
fn rows_of_table(alloc: Global, rows: Rows, table: &Table<'_>) -> Result<Vec<u8>, AllocError>
    ensures { IfOk result (λ text. text.items
        ≡ tasks.rows_text rows (views.table (table_of table.now))) }
{
    match rows {
        Rows::In(format) => format_table(alloc, format, table),
        Rows::Plain | Rows::Named | Rows::Listed => table_text(alloc, table),
    }
}

// Returns the text of a table of steps of a list of orders.
fn order_rows<'a>(
    alloc: Global,
    rows: Rows,
    shop: &Shop,
    orders: &[NameLine<'a>],
    machines: &[NameLine<'a>],
    table: Table<'a>,
) -> Result<Vec<u8>, AllocError>
    ensures { IfOk result (λ text. text.items ≡ tasks.rows_text rows (spec.order_view shop.now
        (map name_of orders.now) (map name_of machines.now) (views.table (table_of table.entry)))) }
{
    let shown = order_table(alloc, shop, orders, machines, table)?;
    rows_of_table(alloc, rows, &shown)
}

// Returns the bars that take time.
fn timed_bars(alloc: Global, bars: &[Bar]) -> Result<Vec<Bar>, AllocError>
    ensures { IfOk result (λ made.
        map bar_of made.items ≡ filter spec.takes_time (map bar_of bars.now)) }
{
    let mut made = Vec::new(alloc);
    for bar in bars {
        if bar.start < bar.end {
            made.push(Bar {
                start: bar.start,
                end: bar.end,
                step: bar.step,
            })?;
        }
    }
    Ok(made)
}

// Returns the rows of a chart with the bars that take time.
fn timed_lines(alloc: Global, rows: &[ChartRow]) -> Result<Vec<ChartRow>, AllocError>
    ensures { IfOk result (λ made.
        map row_of made.items ≡ map spec.timed_bars (map row_of rows.now)) }
{
    let mut made = Vec::new(alloc);
    for row in rows {
        let bars = timed_bars(alloc, &row.bars)?;
        made.push(ChartRow {
            number: row.number,
            bars,
        })?;
    }
    Ok(made)
}

// Returns a chart with the bars that take time.
fn timed_chart(alloc: Global, chart: &Chart) -> Result<Chart, AllocError>
    ensures { IfOk result (λ made. chart_of made ≡ spec.timed_chart (chart_of chart.now)) }
{
    Ok(Chart {
        makespan: chart.makespan,
        owner: chart.owner,
        rows: timed_lines(alloc, &chart.rows)?,
    })
}

// Returns the text of a chart with these rows, which have these names.
fn chart_rows_text(
    alloc: Global,
    rows: Rows,
    names: &[NameLine<'_>],
    chart: Chart,
) -> Result<Vec<u8>, AllocError>
    ensures { IfOk result (λ text. text.items
        ≡ tasks.chart_rows_text rows (map name_of names.now) (chart_of chart)) }
{
    let view = View::Chart(chart);
    match rows {
        Rows::Plain => plain_text(alloc, view),
        Rows::Named | Rows::Listed => named_text(alloc, view, &[], names, &[]),
        Rows::In(format) => text_in(alloc, format, view, &[], names, &[]),
    }
}

/// Returns the text of a value for a list of orders. The rows of a chart have the names of the
/// machines.
pub(crate) fn order_rows_text(
    alloc: Global,
    rows: Rows,
    machines: &[NameLine<'_>],
    view: View,
) -> Result<Vec<u8>, AllocError>
    ensures { IfOk result (λ text. text.items
        ≡ tasks.order_rows_text rows (map name_of machines.now) (view_of view)) }
{
    match view {
        View::Chart(chart) => chart_rows_text(alloc, rows, machines, chart),
        other => rows_text(alloc, rows, other),
    }
}

// Returns the text of a chart of a list of orders.
fn order_chart(
    alloc: Global,
    rows: Rows,
    machines: &[NameLine<'_>],
    chart: &Chart,
) -> Result<Vec<u8>, AllocError>
    ensures { IfOk result (λ text. text.items ≡ tasks.chart_rows_text rows
        (map name_of machines.now) (spec.timed_chart (chart_of chart.now))) }
{
    let shown = timed_chart(alloc, chart)?;
    chart_rows_text(alloc, rows, machines, shown)
}

/// Returns the text of a value for a list of orders, without the steps that take no time.
pub(crate) fn order_text(
    alloc: Global,
    rows: Rows,
    shop: &Shop,
    orders: &[NameLine<'_>],
    machines: &[NameLine<'_>],
    view: View,
) -> Result<Vec<u8>, AllocError>
    ensures { IfOk result (λ text. text.items ≡ tasks.order_rows_text rows
        (map name_of machines.now) (spec.order_view shop.now
        (map name_of orders.now) (map name_of machines.now) (view_of view))) }
{
    match view {
        View::Table(table) => order_rows(alloc, rows, shop, orders, machines, table),
        View::Own(table, own) => {
            let table = whole_table(alloc, table, &own)?;
            order_rows(alloc, rows, shop, orders, machines, table)
        }
        View::Verdict(sentence) => {
            let table = verdict_view(alloc, &sentence)?;
            order_rows(alloc, rows, shop, orders, machines, table)
        }
        View::Names(names) => {
            let table = name_view(alloc, &names)?;
            order_rows(alloc, rows, shop, orders, machines, table)
        }
        View::Listed(table, own) => rows_text(alloc, rows, View::Listed(table, own)),
        View::Chart(chart) => order_chart(alloc, rows, machines, &chart),
        View::Text(text) => Ok(text),
    }
}
