//! Tables as JSON values.

ghost use Rattle.std.specs.Prelude.{◌≡◌, map, IfOk, OnOk, Some};
ghost use Rattle.serde_json.specs.View.{view, members_view};
ghost use Rattle.plan_formats.specs.Cells.{cell_of, value_of};
ghost use Rattle.plan_formats.specs.Columns.{column_of};
ghost use Rattle.plan_formats.specs.Tables.{cells_of, rows_of, table_of};
ghost use Rattle.plan_formats.specs.TableLines.{line_of, chain_of, budget, duration};
ghost use Rattle.plan_formats.specs.JsonData as spec;

use crate::cell::Cell;
use crate::column::Column;
use crate::day_text::day_text;
use crate::line::Line;
use crate::table::Table;
use serde_json::{Map, Value, put};
use std::alloc::{AllocError, Global};

// Returns a cell as JSON.
fn cell_value(alloc: Global, cell: &Cell<'_>) -> Result<Value, AllocError>
    ensures { IfOk result (λ value. view value ≡ value_of (cell_of cell.now)) }
{
    Ok(match cell {
        Cell::Number(n) => Value::from(*n),
        Cell::Above(n) => Value::from(u64::from(*n)),
        Cell::Below(n) => Value::from(-i64::from(*n)),
        Cell::Day { year, month, day } => {
            let text = day_text(alloc, *year, *month, *day)?;
            Value::String(String::from_utf8_lossy(alloc, &text)?)
        }
        Cell::Text(text) => Value::String(String::from_utf8_lossy(alloc, text)?),
        Cell::Flag(flag) => Value::Bool(*flag),
        Cell::Empty => Value::Null,
    })
}

// Sets two members of an object to the cell of a column.
fn put_cell(
    alloc: Global,
    object: &mut Map<String, Value>,
    column: &Column,
    cell: &Cell<'_>,
) -> Result<(), AllocError>
    ensures { OnOk result (members_view object.new.entries ≡ spec.with_cell
        (members_view object.old.entries) (column_of column.now) (cell_of cell.now)) }
{
    let first = cell_value(alloc, cell)?;
    let second = cell_value(alloc, cell)?;
    put(object, alloc, column.heading, first)?;
    put(object, alloc, column.word, second)
}

// Returns a row as an object.
fn row_value(alloc: Global, columns: &[Column], cells: &[Cell<'_>]) -> Result<Value, AllocError>
    ensures { IfOk result (λ value. view value
        ≡ spec.row_data (map column_of columns.now) (cells_of cells.now)) }
{
    let mut object = Map::new(alloc);
    let mut left = columns;
    for cell in cells {
        let [column, rest @ ..] = left else {
            return Ok(Value::Object(object));
        };
        put_cell(alloc, &mut object, column, cell)?;
        left = rest;
    }
    Ok(Value::Object(object))
}

// Returns the rows as an array of objects.
fn rows_value(
    alloc: Global,
    columns: &[Column],
    rows: &[Vec<Cell<'_>>],
) -> Result<Value, AllocError>
    ensures { IfOk result (λ value. view value
        ≡ spec.rows_data (map column_of columns.now) (rows_of rows.now)) }
{
    let mut list = Vec::new(alloc);
    for row in rows {
        list.push(row_value(alloc, columns, row)?)?;
    }
    Ok(Value::Array(list))
}

// Sets a member to a number.
fn put_number(
    alloc: Global,
    object: &mut Map<String, Value>,
    name: &str,
    n: u64,
) -> Result<(), AllocError>
    ensures { OnOk result (members_view object.new.entries
        ≡ spec.with_number name.now n (members_view object.old.entries)) }
{
    put(object, alloc, name, Value::from(n))
}

// Sets the status.
fn put_status(
    alloc: Global,
    object: &mut Map<String, Value>,
    status: &str,
) -> Result<(), AllocError>
    ensures { OnOk result (members_view object.new.entries
        ≡ spec.with_status status.now (members_view object.old.entries)) }
{
    put(object, alloc, "status", Value::try_from_str(alloc, status)?)
}

// Sets the status and both bounds of the least makespan.
fn put_bounds(
    alloc: Global,
    object: &mut Map<String, Value>,
    status: &str,
    lower: u64,
    upper: u64,
) -> Result<(), AllocError>
    ensures { OnOk result (members_view object.new.entries ≡ spec.with_bounds lower upper
        (spec.with_status status.now (members_view object.old.entries))) }
{
    put_status(alloc, object, status)?;
    put_number(alloc, object, "lower_bound", lower)?;
    put_number(alloc, object, "upper_bound", upper)
}

// Sets the status and the upper bound of the least makespan.
fn put_budget(alloc: Global, object: &mut Map<String, Value>, upper: u64) -> Result<(), AllocError>
    ensures { OnOk result (members_view object.new.entries
        ≡ spec.with_line (members_view object.old.entries) (budget upper)) }
{
    put_status(alloc, object, "budget")?;
    put_number(alloc, object, "upper_bound", upper)
}

// Sets the length of the project.
fn put_duration(alloc: Global, object: &mut Map<String, Value>, n: u64) -> Result<(), AllocError>
    ensures { OnOk result (members_view object.new.entries
        ≡ spec.with_line (members_view object.old.entries) (duration n)) }
{
    put_number(alloc, object, "T", n)?;
    put_number(alloc, object, "project_duration", n)
}

// Returns numbers as an array.
fn numbers_value(alloc: Global, numbers: &[u32]) -> Result<Value, AllocError>
    ensures { IfOk result (λ value. view value ≡ spec.chain_data (Some numbers.now)) }
{
    let mut list = Vec::new(alloc);
    for n in numbers {
        list.push(Value::from(u64::from(*n)))?;
    }
    Ok(Value::Array(list))
}

// Returns a chain, or `null`.
fn chain_value(alloc: Global, chain: &Option<Vec<u32>>) -> Result<Value, AllocError>
    ensures { IfOk result (λ value. view value ≡ spec.chain_data (chain_of chain.now)) }
{
    match chain {
        Some(numbers) => numbers_value(alloc, numbers),
        None => Ok(Value::Null),
    }
}

// Returns words as an array.
fn words_value(alloc: Global, words: &[Vec<u8>]) -> Result<Value, AllocError>
    ensures { IfOk result (λ value.
        view value ≡ spec.words_data (map (λ word. word.items) words.now)) }
{
    let mut list = Vec::new(alloc);
    for word in words {
        list.push(Value::String(String::from_utf8_lossy(alloc, word)?))?;
    }
    Ok(Value::Array(list))
}

// Sets a chain and the ids of its activities.
fn put_id_chain(
    alloc: Global,
    object: &mut Map<String, Value>,
    numbers: &[u32],
    ids: &[Vec<u8>],
) -> Result<(), AllocError>
    ensures { OnOk result (members_view object.new.entries ≡ spec.with_id_chain numbers.now
        (map (λ id. id.items) ids.now) (members_view object.old.entries)) }
{
    put(object, alloc, "chain", numbers_value(alloc, numbers)?)?;
    put(object, alloc, "chain_ids", words_value(alloc, ids)?)
}

// Sets the numbers of activities that moved and that were compared.
fn put_moved(
    alloc: Global,
    object: &mut Map<String, Value>,
    moved: u64,
    count: u64,
) -> Result<(), AllocError>
    ensures { OnOk result (members_view object.new.entries
        ≡ spec.with_moved moved count (members_view object.old.entries)) }
{
    put_number(alloc, object, "moved", moved)?;
    put_number(alloc, object, "compared", count)
}

// Sets both bounds of the least greatest tardiness.
fn put_tardiness(
    alloc: Global,
    object: &mut Map<String, Value>,
    lower: u64,
    upper: u64,
) -> Result<(), AllocError>
    ensures { OnOk result (members_view object.new.entries
        ≡ spec.with_tardiness lower upper (members_view object.old.entries)) }
{
    put_number(alloc, object, "tardiness_lower_bound", lower)?;
    put_number(alloc, object, "tardiness_upper_bound", upper)
}

// Sets the numbers of late activities and of all.
fn put_late(
    alloc: Global,
    object: &mut Map<String, Value>,
    late: u64,
    count: u64,
) -> Result<(), AllocError>
    ensures { OnOk result (members_view object.new.entries
        ≡ spec.with_late late count (members_view object.old.entries)) }
{
    put_number(alloc, object, "late", late)?;
    put_number(alloc, object, "activities", count)
}

// Sets the makespan and the verdict of a schedule.
fn put_summary(
    alloc: Global,
    object: &mut Map<String, Value>,
    name: &str,
    makespan: u64,
    verdict: &str,
) -> Result<(), AllocError>
    ensures { OnOk result (members_view object.new.entries ≡ spec.with_summary name.now makespan
        verdict.now (members_view object.old.entries)) }
{
    let length = format!(in alloc; "makespan_{name}")?;
    put_number(alloc, object, &length, makespan)?;
    let answer = format!(in alloc; "verdict_{name}")?;
    put(object, alloc, &answer, Value::try_from_str(alloc, verdict)?)
}

// Sets the values of a line.
fn put_line(alloc: Global, object: &mut Map<String, Value>, line: &Line) -> Result<(), AllocError>
    ensures { OnOk result (members_view object.new.entries
        ≡ spec.with_line (members_view object.old.entries) (line_of line.now)) }
{
    match line {
        Line::Optimal(n) => put_bounds(alloc, object, "optimal", *n, *n),
        Line::Between(lower, upper) => put_bounds(alloc, object, "between", *lower, *upper),
        Line::Budget(n) => put_budget(alloc, object, *n),
        Line::Duration(n) => put_duration(alloc, object, *n),
        Line::Makespan(n) => put_number(alloc, object, "makespan", *n),
        Line::Chain(chain) => put(object, alloc, "chain", chain_value(alloc, chain)?),
        Line::IdChain(numbers, ids) => put_id_chain(alloc, object, numbers, ids),
        Line::Moved(moved, count) => put_moved(alloc, object, *moved, *count),
        Line::Tardiness(lower, upper) => put_tardiness(alloc, object, *lower, *upper),
        Line::Late(late, count) => put_late(alloc, object, *late, *count),
        Line::Ids(word, ids) => put(object, alloc, word, words_value(alloc, ids)?),
        Line::Summary {
            name,
            makespan,
            verdict,
        } => put_summary(alloc, object, name, *makespan, verdict),
    }
}

// Sets the values of lines.
fn put_lines(
    alloc: Global,
    object: &mut Map<String, Value>,
    lines: &[Line],
) -> Result<(), AllocError>
    ensures { OnOk result (members_view object.new.entries
        ≡ spec.with_lines (members_view object.old.entries) (map line_of lines.now)) }
{
    for line in lines {
        put_line(alloc, object, line)?;
    }
    Ok(())
}

/// Returns a table as an object: the values of its lines, and the array `rows` of its rows.
pub(crate) fn table_value(alloc: Global, table: &Table<'_>) -> Result<Value, AllocError>
    ensures { IfOk result (λ value. view value ≡ spec.data_of (table_of table.now)) }
{
    let mut object = Map::new(alloc);
    put_lines(alloc, &mut object, &table.above)?;
    put_lines(alloc, &mut object, &table.below)?;
    let rows = rows_value(alloc, &table.columns, &table.rows)?;
    put(&mut object, alloc, "rows", rows)?;
    Ok(Value::Object(object))
}
