//! The values of tasks, and their texts.

ghost use Rattle.std.specs.Prelude.{◌≡◌, [], map, IfOk};
ghost use Rattle.plan_table.specs.Names.{name_of};
ghost use Rattle.plan_formats.specs.TableFormats.{format_text};
ghost use Rattle.plan_formats.specs.TableText.{text_of};
ghost use Rattle.plan_formats.specs.Tables.{table_of};
ghost use Rattle.plan_views.specs.Charts.{chart_of};
ghost use Rattle.plan_views.specs.LinkColumns.{links_of};
ghost use Rattle.plan_cli.specs.Views as spec;

use crate::own_tables::{OwnCell, own_rows, whole_table, with_rows};
use plan_formats::{Format, Table, csv_text, format_table, table_text, with_ids, with_names};
use plan_table::NameLine;
use plan_views::{
    ActivityLinks, Chart, chart_bars, chart_json_with_ids, chart_text, chart_text_with_ids,
    name_view, verdict_view, with_links,
};
use std::alloc::{AllocError, Global};

/// The value of a task.
#[derive(Drop)]
pub(crate) enum View {
    Table(Table<'static>),
    /// A table without its rows, and its rows, which own their texts.
    Own(Table<'static>, Vec<Vec<OwnCell>>),
    /// The same if the rows have no numbers, and so no names.
    Listed(Table<'static>, Vec<Vec<OwnCell>>),
    Chart(Chart),
    /// The sentence of a verdict.
    Verdict(String),
    /// The names of instances.
    Names(Vec<Vec<u8>>),
    /// A text that has no other format.
    Text(Vec<u8>),
}

// Returns a table with the names of its rows, if there are names.
fn with_any_names<'a>(
    alloc: Global,
    table: Table<'a>,
    names: &[NameLine<'a>],
) -> Result<Table<'a>, AllocError>
    ensures { IfOk result (λ made. table_of made
        ≡ spec.with_any_names (map name_of names.now) (table_of table.entry)) }
{
    if names.is_empty() {
        return Ok(table);
    }
    with_names(alloc, table, names)
}

// Returns a table with the resources and the predecessors of its activities, if they are given.
fn with_any_links<'a>(
    alloc: Global,
    table: Table<'a>,
    links: &'a [ActivityLinks],
) -> Result<Table<'a>, AllocError>
    ensures { IfOk result (λ made. table_of made
        ≡ spec.with_any_links (map links_of links.now) (table_of table.entry)) }
{
    if links.is_empty() {
        return Ok(table);
    }
    with_links(alloc, table, links)
}

// Returns the text of a table, each row with its name, activities with their ids, and with their
// resources and predecessors if these are given.
fn named_table<'a>(
    alloc: Global,
    table: Table<'a>,
    ids: &[NameLine<'a>],
    names: &[NameLine<'a>],
    links: &'a [ActivityLinks],
) -> Result<Vec<u8>, AllocError>
    ensures { IfOk result (λ text. text.items ≡ text_of (spec.named_table (map name_of ids.now)
        (map name_of names.now) (map links_of links.now) (table_of table.entry))) }
{
    let named = with_names(alloc, table, names)?;
    let linked = with_any_links(alloc, named, links)?;
    let shown = with_ids(alloc, linked, ids)?;
    table_text(alloc, &shown)
}

// Returns a table in a format, with the texts of its rows.
fn table_in<'a>(
    alloc: Global,
    format: Format,
    table: Table<'a>,
    ids: &[NameLine<'a>],
    names: &[NameLine<'a>],
    links: &'a [ActivityLinks],
) -> Result<Vec<u8>, AllocError>
    ensures { IfOk result (λ text. text.items ≡ format_text format
        (spec.full_table (map name_of ids.now) (map name_of names.now) (map links_of links.now)
        (table_of table.entry))) }
{
    let named = with_any_names(alloc, table, names)?;
    let linked = with_any_links(alloc, named, links)?;
    let shown = with_ids(alloc, linked, ids)?;
    format_table(alloc, format, &shown)
}

// Returns the bars of a chart as CSV, with the ids and the names of the rows.
fn bars_csv(
    alloc: Global,
    chart: &Chart,
    ids: &[NameLine<'_>],
    names: &[NameLine<'_>],
) -> Result<Vec<u8>, AllocError>
    ensures { IfOk result (λ text. text.items
        ≡ spec.bars_text (map name_of ids.now) (map name_of names.now) (chart_of chart.now)) }
{
    let bars = with_any_names(alloc, chart_bars(alloc, chart)?, names)?;
    let shown = with_ids(alloc, bars, ids)?;
    csv_text(alloc, &shown)
}

// Returns a chart in a format, with the ids and the names of its rows.
fn chart_in(
    alloc: Global,
    format: Format,
    chart: &Chart,
    ids: &[NameLine<'_>],
    names: &[NameLine<'_>],
) -> Result<Vec<u8>, AllocError>
    ensures { IfOk result (λ text. text.items ≡ spec.chart_text format
        (map name_of ids.now) (map name_of names.now) (chart_of chart.now)) }
{
    match format {
        Format::Csv => bars_csv(alloc, chart, ids, names),
        Format::Json => chart_json_with_ids(alloc, chart, ids, names),
    }
}

/// Returns the value of a table, which owns its texts.
pub(crate) fn own_view(alloc: Global, table: Table<'_>) -> Result<View, AllocError>
    ensures { IfOk result (λ view. spec.view_of view ≡ spec.table (table_of table.entry)) }
{
    let rows = own_rows(alloc, &table.rows)?;
    Ok(View::Own(with_rows(table, Vec::new(alloc)), rows))
}

/// Returns the value of a table whose rows have no numbers. It owns its texts.
pub(crate) fn listed_view(alloc: Global, table: Table<'_>) -> Result<View, AllocError>
    ensures { IfOk result (λ view. spec.view_of view ≡ spec.listing (table_of table.entry)) }
{
    let rows = own_rows(alloc, &table.rows)?;
    Ok(View::Listed(with_rows(table, Vec::new(alloc)), rows))
}

/// Returns the text of a value, without names.
pub(crate) fn plain_text(alloc: Global, view: View) -> Result<Vec<u8>, AllocError>
    ensures { IfOk result (λ text. text.items ≡ spec.plain_text (spec.view_of view)) }
{
    match view {
        View::Table(table) => table_text(alloc, &table),
        View::Own(table, rows) => {
            let table = whole_table(alloc, table, &rows)?;
            table_text(alloc, &table)
        }
        View::Listed(table, rows) => {
            let table = whole_table(alloc, table, &rows)?;
            table_text(alloc, &table)
        }
        View::Chart(chart) => chart_text(alloc, &chart, &[]),
        View::Verdict(sentence) => {
            let table = verdict_view(alloc, &sentence)?;
            table_text(alloc, &table)
        }
        View::Names(names) => {
            let table = name_view(alloc, &names)?;
            table_text(alloc, &table)
        }
        View::Text(text) => Ok(text),
    }
}

/// Returns the text of a value, each row with its name, activities with their ids in the place of
/// their numbers, and with their resources and predecessors if these are given.
pub(crate) fn named_text(
    alloc: Global,
    view: View,
    ids: &[NameLine<'_>],
    names: &[NameLine<'_>],
    links: &[ActivityLinks],
) -> Result<Vec<u8>, AllocError>
    ensures { IfOk result (λ text. text.items ≡ spec.named_text (map name_of ids.now)
        (map name_of names.now) (map links_of links.now) (spec.view_of view)) }
{
    match view {
        View::Table(table) => named_table(alloc, table, ids, names, links),
        View::Own(table, rows) => {
            let table = whole_table(alloc, table, &rows)?;
            named_table(alloc, table, ids, names, links)
        }
        View::Listed(table, rows) => {
            let table = whole_table(alloc, table, &rows)?;
            table_text(alloc, &table)
        }
        View::Chart(chart) => chart_text_with_ids(alloc, &chart, ids, names),
        View::Verdict(sentence) => {
            let table = verdict_view(alloc, &sentence)?;
            named_table(alloc, table, ids, names, links)
        }
        View::Names(lines) => named_table(alloc, name_view(alloc, &lines)?, ids, names, links),
        View::Text(text) => Ok(text),
    }
}

/// Returns the text of a value in a format, with the names of the rows, the resources and the
/// predecessors of activities if they are given, and the ids of activities.
pub(crate) fn text_in(
    alloc: Global,
    format: Format,
    view: View,
    ids: &[NameLine<'_>],
    names: &[NameLine<'_>],
    links: &[ActivityLinks],
) -> Result<Vec<u8>, AllocError>
    ensures { IfOk result (λ text. text.items ≡ spec.text_in format
        (map name_of ids.now) (map name_of names.now) (map links_of links.now)
        (spec.view_of view)) }
{
    match view {
        View::Table(table) => table_in(alloc, format, table, ids, names, links),
        View::Own(table, rows) => {
            let table = whole_table(alloc, table, &rows)?;
            table_in(alloc, format, table, ids, names, links)
        }
        View::Listed(table, rows) => {
            let table = whole_table(alloc, table, &rows)?;
            format_table(alloc, format, &table)
        }
        View::Chart(chart) => chart_in(alloc, format, &chart, ids, names),
        View::Verdict(sentence) => {
            let table = verdict_view(alloc, &sentence)?;
            table_in(alloc, format, table, ids, names, links)
        }
        View::Names(lines) => {
            let table = name_view(alloc, &lines)?;
            table_in(alloc, format, table, ids, names, links)
        }
        View::Text(text) => Ok(text),
    }
}
