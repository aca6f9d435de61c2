//! A JSON document of a schedule as a table: its rows as lines of CSV.

ghost use Rattle.std.specs.Prelude.{◌≡◌, ◌++◌, IfOk, OnOk, codes, map, option_map, string_bytes};
ghost use Rattle.std.specs.List.{flat_map, list_any};
ghost use Rattle.serde_json.specs.View.{items_view, view};
ghost use Rattle.plan_psplib.specs.Tokens.{Gives};
ghost use Rattle.plan_report.specs.JsonTable as spec;

use crate::id_rows::ID_COLUMNS;
use plan_psplib::{Fault, FileCode, ReadError, is_blank};
use serde_json::Value;
use std::alloc::{AllocError, Global};
use std::fmt::Write;

// Returns the value of a text, or None if the text isn't JSON.
fn value_in(alloc: Global, text: &[u8]) -> Result<Option<Value>, AllocError>
    ensures { IfOk result (λ value. option_map view value ≡ spec.value_in text.now) }
{
    match Value::from_slice(alloc, text) {
        Ok(value) => Ok(Some(value)),
        Err(error) => {
            if error.is_memory() {
                Err(AllocError)
            } else {
                Ok(None)
            }
        }
    }
}

// Returns the whole number of a row in a column.
fn number_at(row: &Value, column: &str) -> Option<u64>
    ensures { result ≡ spec.number_at (view row.now) column.now }
{
    row.get(column).and_then(Value::as_u64)
}

// Appends a cell, empty if there is no number.
fn push_cell(text: &mut String, number: Option<u64>) -> Result<(), AllocError>
    ensures { OnOk result
        (string_bytes text.new ≡ string_bytes text.old ++ spec.cell_text number) }
{
    match number {
        Some(n) => write!(text, "{n},"),
        None => text.push_str(","),
    }
}

// Appends the cells of a row.
fn push_cells(text: &mut String, columns: &[&str], row: &Value) -> Result<(), AllocError>
    ensures { OnOk result (string_bytes text.new ≡ string_bytes text.old
        ++ flat_map (λ column. spec.cell_text (spec.number_at (view row.now) column.now))
        columns.now) }
{
    for &column in columns {
        push_cell(text, number_at(row, column))?;
    }
    Ok(())
}

// Appends the line of a row.
fn push_row(text: &mut String, columns: &[&str], row: &Value) -> Result<(), AllocError>
    ensures { OnOk result (string_bytes text.new ≡ string_bytes text.old
        ++ spec.row_text (map (λ name. name.now) columns.now) (view row.now)) }
{
    push_cells(text, columns, row)?;
    text.push_str("\n")
}

// Appends the lines of rows.
fn push_rows(text: &mut String, columns: &[&str], rows: &[Value]) -> Result<(), AllocError>
    ensures { OnOk result (string_bytes text.new ≡ string_bytes text.old
        ++ flat_map (λ row. spec.row_text (map (λ name. name.now) columns.now) (view row))
        rows.now) }
{
    for row in rows {
        push_row(text, columns, row)?;
    }
    Ok(())
}

// Appends the name of a column as a cell.
fn push_name(text: &mut String, column: &str) -> Result<(), AllocError>
    ensures { OnOk result
        (string_bytes text.new ≡ string_bytes text.old ++ (column.now ++ codes ",")) }
{
    text.push_str(column)?;
    text.push_str(",")
}

// Appends the names of the columns.
fn push_names(text: &mut String, columns: &[&str]) -> Result<(), AllocError>
    ensures { OnOk result (string_bytes text.new ≡ string_bytes text.old
        ++ flat_map (λ column. column.now ++ codes ",") columns.now) }
{
    for &column in columns {
        push_name(text, column)?;
    }
    Ok(())
}

// Appends the line with the names of the columns.
fn push_head(text: &mut String, columns: &[&str]) -> Result<(), AllocError>
    ensures { OnOk result (string_bytes text.new
        ≡ string_bytes text.old ++ spec.head_text (map (λ name. name.now) columns.now)) }
{
    push_names(text, columns)?;
    text.push_str("\n")
}

// Returns the rows of a document, none if it has no array `rows`.
fn rows_in(value: &Value) -> &[Value]
    ensures { items_view result.now ≡ spec.rows_in (view value.now) }
{
    match value.get("rows").and_then(Value::as_array) {
        Some(rows) => rows,
        None => &[],
    }
}

// Returns the table of a document.
#[tactic(auto, using(crate::proofs::JsonLemmas::rows_text_of_values), unfolding(crate::specs::JsonTable::table_text))]
fn table_of(alloc: Global, columns: &[&str], value: &Value) -> Result<String, AllocError>
    ensures { IfOk result (λ table. string_bytes table
        ≡ spec.table_text (map (λ name. name.now) columns.now) (view value.now)) }
{
    let mut table = String::new(alloc);
    push_head(&mut table, columns)?;
    push_rows(&mut table, columns, rows_in(value))?;
    Ok(table)
}

// Returns the id of a row.
fn id_in(row: &Value) -> Option<&str>
    ensures { option_map (λ id. id.now) result ≡ spec.id_in (view row.now) }
{
    row.get("id").and_then(Value::as_str)
}

// Tests whether a byte isn't part of a cell.
fn ends_cell(byte: u8) -> bool
    ensures { result ≡ spec.ends_cell byte }
{
    is_blank(byte) || byte == b',' || byte == b';' || byte == b'\n'
}

// Tests whether an id is no cell.
fn is_no_cell(id: &str) -> bool
    ensures { result ≡ list_any spec.ends_cell id.now }
{
    for &byte in id.as_bytes() {
        if ends_cell(byte) {
            return true;
        }
    }
    false
}

// Returns an id that is a cell, otherwise an empty text.
fn id_text(id: &str) -> &str
    ensures { result.now ≡ spec.id_text id.now }
{
    if is_no_cell(id) { "" } else { id }
}

// Appends a cell with an id, empty if there is none or if it is no cell.
fn push_id(text: &mut String, id: Option<&str>) -> Result<(), AllocError>
    ensures { OnOk result (string_bytes text.new
        ≡ string_bytes text.old ++ spec.id_cell (option_map (λ id. id.now) id.entry)) }
{
    if let Some(id) = id {
        text.push_str(id_text(id))?;
    }
    text.push_str(",")
}

// Appends the line of a row behind its id.
#[tactic(auto, unfolding(crate::specs::JsonTable::id_row_text))]
fn push_id_row(text: &mut String, row: &Value) -> Result<(), AllocError>
    ensures { OnOk result (string_bytes text.new
        ≡ string_bytes text.old ++ spec.id_row_text (view row.now)) }
{
    push_id(text, id_in(row))?;
    push_row(text, &ID_COLUMNS[1..], row)
}

// Appends the lines of rows behind their ids.
fn push_id_rows(text: &mut String, rows: &[Value]) -> Result<(), AllocError>
    ensures { OnOk result (string_bytes text.new ≡ string_bytes text.old
        ++ flat_map (λ row. spec.id_row_text (view row)) rows.now) }
{
    for row in rows {
        push_id_row(text, row)?;
    }
    Ok(())
}

// Returns the table of a document with ids.
#[tactic(auto, using(crate::proofs::JsonLemmas::id_rows_text_of_values), unfolding(crate::specs::JsonTable::id_table_text))]
fn id_table_of(alloc: Global, value: &Value) -> Result<String, AllocError>
    ensures { IfOk result (λ table. string_bytes table ≡ spec.id_table_text (view value.now)) }
{
    let mut table = String::new(alloc);
    push_head(&mut table, ID_COLUMNS)?;
    push_id_rows(&mut table, rows_in(value))?;
    Ok(table)
}

// Tests whether the first row has an id.
fn first_has_id(rows: &[Value]) -> bool
    ensures { result ≡ spec.first_has_id (items_view rows.now) }
{
    match rows {
        [row, ..] => id_in(row).is_some(),
        [] => false,
    }
}

// Returns the table of a document, with ids if they are wanted and the first row has one.
fn table_with(
    alloc: Global,
    ids: bool,
    columns: &[&str],
    value: &Value,
) -> Result<String, AllocError>
    ensures { IfOk result (λ table. string_bytes table
        ≡ spec.table_with ids (map (λ name. name.now) columns.now) (view value.now)) }
{
    if ids && first_has_id(rows_in(value)) {
        id_table_of(alloc, value)
    } else {
        table_of(alloc, columns, value)
    }
}

/// Returns the table of a JSON document with these columns: a line with their names, and a line for
/// each object in its array `rows`. A cell is empty if it is no whole number. If ids are wanted and
/// the first row has one, the first column is `id` in place of the number. Fails with `MissingHead`
/// (F3) at line 1 if the text isn't JSON.
#[tactic(auto, unfolding(crate::specs::JsonTable::table_in))]
pub(crate) fn table_of_json(
    alloc: Global,
    ids: bool,
    columns: &[&str],
    text: &[u8],
) -> Result<String, ReadError>
    ensures { Gives (λ table. string_bytes table) result
        (spec.table_in ids (map (λ name. name.now) columns.now) text.now) }
{
    let Some(value) = value_in(alloc, text)? else {
        return Err(ReadError::Fault(Fault::new(FileCode::MissingHead, 1)));
    };
    let table = table_with(alloc, ids, columns, &value)?;
    Ok(table)
}
