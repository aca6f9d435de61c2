//! Gantt charts as JSON.

ghost use Rattle.std.specs.Prelude.{◌≡◌, ◌++◌, map, IfOk, OnOk};
ghost use Rattle.serde_json.specs.View.{view, members_view};
ghost use Rattle.plan_table.specs.Names.{name_of};
ghost use Rattle.plan_formats.specs.Cells.{value_of};
ghost use Rattle.plan_formats.specs.JsonData.{with_number};
ghost use Rattle.plan_formats.specs.JsonText.{json_text_of, IsLineOf};
ghost use Rattle.plan_formats.specs.NameColumns.{name_cell};
ghost use Rattle.plan_views.specs.Bars.{bar_of, row_of, step_of};
ghost use Rattle.plan_views.specs.Charts.{chart_of};
ghost use Rattle.plan_views.specs.ChartData as spec;

use crate::bars::{Bar, ChartRow, StepNumber};
use crate::chart::{Chart, Owner};
use crate::chart_texts::word_of;
use plan_formats::value_line;
use plan_gantt::chart_unit;
use plan_table::{NameLine, first_name};
use serde_json::{Map, Value, put};
use std::alloc::{AllocError, Global};

// Sets a member to a number.
fn put_number(
    alloc: Global,
    object: &mut Map<String, Value>,
    name: &str,
    n: u64,
) -> Result<(), AllocError>
    ensures { OnOk result (members_view object.new.entries
        ≡ with_number name.now n (members_view object.old.entries)) }
{
    put(object, alloc, name, Value::from(n))
}

// Sets the numbers of a step, if there is one.
fn put_step(
    alloc: Global,
    object: &mut Map<String, Value>,
    step: Option<StepNumber>,
) -> Result<(), AllocError>
    ensures { OnOk result (members_view object.new.entries
        ≡ spec.with_step (step_of step) (members_view object.old.entries)) }
{
    match step {
        None => Ok(()),
        Some(numbers) => {
            put_number(alloc, object, "job", numbers.job as u64)?;
            put_number(alloc, object, "step", numbers.step as u64)
        }
    }
}

// Returns a bar as an object.
fn bar_value(alloc: Global, bar: &Bar) -> Result<Value, AllocError>
    ensures { IfOk result (λ value. view value ≡ spec.bar_data (bar_of bar.now)) }
{
    let mut object = Map::new(alloc);
    put_number(alloc, &mut object, "start", bar.start)?;
    put_number(alloc, &mut object, "end", bar.end)?;
    put_step(alloc, &mut object, bar.step)?;
    Ok(Value::Object(object))
}

// Returns bars as an array.
fn bars_value(alloc: Global, bars: &[Bar]) -> Result<Value, AllocError>
    ensures { IfOk result (λ value. view value ≡ spec.bars_data (map bar_of bars.now)) }
{
    let mut list = Vec::new(alloc);
    for bar in bars {
        list.push(bar_value(alloc, bar)?)?;
    }
    Ok(Value::Array(list))
}

// Returns the text of a number, or `null`.
fn text_value(alloc: Global, texts: &[NameLine<'_>], number: u64) -> Result<Value, AllocError>
    ensures { IfOk result (λ value.
        view value ≡ value_of (name_cell (map name_of texts.now) number)) }
{
    match first_name(texts, number) {
        Some(text) => Ok(Value::String(String::from_utf8_lossy(alloc, text)?)),
        None => Ok(Value::Null),
    }
}

// Sets a member to the text of a number, if there are texts.
fn put_text(
    alloc: Global,
    object: &mut Map<String, Value>,
    word: &str,
    texts: &[NameLine<'_>],
    number: u64,
) -> Result<(), AllocError>
    ensures { OnOk result (members_view object.new.entries ≡ spec.with_text word.now
        (map name_of texts.now) number (members_view object.old.entries)) }
{
    if texts.is_empty() {
        return Ok(());
    }
    put(object, alloc, word, text_value(alloc, texts, number)?)
}

// The ids and the names of the rows.
#[derive(Clone, Copy)]
struct RowTexts<'a> {
    ids: &'a [NameLine<'a>],
    names: &'a [NameLine<'a>],
}

// Returns a row as an object.
fn row_value(
    alloc: Global,
    owner: Owner,
    texts: RowTexts<'_>,
    row: &ChartRow,
) -> Result<Value, AllocError>
    ensures { IfOk result (λ value. view value ≡ spec.row_data owner
        (map name_of texts.entry.ids.now) (map name_of texts.entry.names.now) (row_of row.now)) }
{
    let number = row.number as u64;
    let mut object = Map::new(alloc);
    put_number(alloc, &mut object, word_of(owner), number)?;
    put(&mut object, alloc, "bars", bars_value(alloc, &row.bars)?)?;
    put_text(alloc, &mut object, "name", texts.names, number)?;
    put_text(alloc, &mut object, "id", texts.ids, number)?;
    Ok(Value::Object(object))
}

// Whether a number has a row: it has an id, or there are no ids.
fn has_row(ids: &[NameLine<'_>], number: u64) -> bool
    ensures { result ≡ spec.has_row (map name_of ids.now) number }
{
    if ids.is_empty() {
        return true;
    }
    matches!(first_name(ids, number), Some(_))
}

// Appends a row as an object, if its number has one.
fn push_row(
    alloc: Global,
    list: &mut Vec<Value>,
    owner: Owner,
    texts: RowTexts<'_>,
    row: &ChartRow,
) -> Result<(), AllocError>
    ensures { OnOk result (map view list.new.items ≡ map view list.old.items
        ++ spec.row_objects owner (map name_of texts.entry.ids.now)
        (map name_of texts.entry.names.now) (row_of row.now)) }
{
    if has_row(texts.ids, row.number as u64) {
        list.push(row_value(alloc, owner, texts, row)?)?;
    }
    Ok(())
}

// Returns rows as an array.
fn rows_value(
    alloc: Global,
    owner: Owner,
    texts: RowTexts<'_>,
    rows: &[ChartRow],
) -> Result<Value, AllocError>
    ensures { IfOk result (λ value. view value ≡ spec.rows_data owner
        (map name_of texts.entry.ids.now) (map name_of texts.entry.names.now)
        (map row_of rows.now)) }
{
    let mut list = Vec::new(alloc);
    for row in rows {
        push_row(alloc, &mut list, owner, texts, row)?;
    }
    Ok(Value::Array(list))
}

// Returns the ids of the rows: machines have none.
fn row_ids<'a>(owner: Owner, ids: &'a [NameLine<'a>]) -> &'a [NameLine<'a>]
    ensures { map name_of result.now ≡ spec.row_ids owner (map name_of ids.now) }
{
    match owner {
        Owner::Activity => ids,
        Owner::Machine => &[],
    }
}

// Returns a chart as an object.
fn chart_value<'a>(
    alloc: Global,
    chart: &Chart,
    ids: &'a [NameLine<'a>],
    names: &'a [NameLine<'a>],
) -> Result<Value, AllocError>
    ensures { IfOk result (λ value. view value ≡ spec.id_chart_data (map name_of ids.now)
        (map name_of names.now) (chart_of chart.now)) }
{
    let ids = row_ids(chart.owner, ids);
    let unit = chart_unit(chart.makespan);
    let mut object = Map::new(alloc);
    put_number(alloc, &mut object, "makespan", chart.makespan)?;
    put_number(alloc, &mut object, "unit", unit)?;
    let rows = rows_value(alloc, chart.owner, RowTexts { ids, names }, &chart.rows)?;
    put(&mut object, alloc, "rows", rows)?;
    Ok(Value::Object(object))
}

/// Returns a chart as a line of JSON as `chart_json` does, each row with its id under `id` beside
/// `activity`. Activities without an id have no row. A chart of machines has no ids, and without
/// ids it is that of `chart_json`.
pub fn chart_json_with_ids<'a>(
    alloc: Global,
    chart: &Chart,
    ids: &'a [NameLine<'a>],
    names: &'a [NameLine<'a>],
) -> Result<Vec<u8>, AllocError>
    ensures text { IfOk result (λ text. text.items ≡ json_text_of (spec.id_chart_data
        (map name_of ids.now) (map name_of names.now) (chart_of chart.now))) }
    ensures reads { IfOk result (λ text. IsLineOf text.items (spec.id_chart_data
        (map name_of ids.now) (map name_of names.now) (chart_of chart.now))) }
{
    let value = chart_value(alloc, chart, ids, names)?;
    value_line(alloc, &value)
}

/// Returns a chart as a line of JSON (RFC 8259): an object with the makespan, the number of
/// instants in a cell of its text, and the array `rows`. A row is an object with its number under
/// `activity` or `machine`, the array `bars`, and its name if there are names. A bar is an object
/// with its first instant, the instant after its last one, and the job and the step of a step.
pub fn chart_json(
    alloc: Global,
    chart: &Chart,
    names: &[NameLine<'_>],
) -> Result<Vec<u8>, AllocError>
    ensures text { IfOk result (λ text. text.items
        ≡ json_text_of (spec.chart_data (map name_of names.now) (chart_of chart.now))) }
    ensures reads { IfOk result (λ text. IsLineOf text.items
        (spec.chart_data (map name_of names.now) (chart_of chart.now))) }
{
    chart_json_with_ids(alloc, chart, &[], names)
}
