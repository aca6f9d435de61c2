//! `plan explain` as JSON or CSV.

ghost use Rattle.std.specs.Prelude.{◌≡◌, ◌⊎◌, ◌+◌, ◌≤◌, map, IfErr, IfOk, IsErrOf, OnOk};
ghost use Rattle.plan_io.specs.Devices.{most_calls};
ghost use Rattle.plan_formats.specs.Columns.{column_of};
ghost use Rattle.plan_formats.specs.Tables.{cells_of, rows_of, table_of};
ghost use Rattle.plan_views.specs.Headings.{line_column};
ghost use Rattle.plan_errors.specs.ExplainRun.{TellsNoCode};
ghost use Rattle.plan_errors.specs.Output.{HasSinkFailed, Refuses, Writes};
ghost use Rattle.plan_cli.specs.ExplainedText as spec;
ghost use Rattle.plan_cli.specs.ExplainedText.{ExplainsIn};

use plan_errors::{CliFault, Code, explained, write_text};
use plan_formats::{Cell, Column, Format, Layout, Table, format_table};
use plan_io::Sink;
use std::alloc::{AllocError, Global};

// Returns the column with this name.
fn column(name: &'static str) -> Column
    ensures { column_of result ≡ line_column name.now }
{
    Column {
        heading: name,
        word: name,
        layout: Layout::Line,
    }
}

// Returns the columns of an explanation.
fn columns(alloc: Global) -> Result<Vec<Column>, AllocError>
    ensures { IfOk result (λ columns. map column_of columns.items ≡ spec.explained_columns) }
{
    Ok(Vec::from_array(alloc, [column("code"), column("meaning"), column("remedy")])?)
}

// Returns the row of a code.
fn row(alloc: Global, code: Code) -> Result<Vec<Cell<'static>>, AllocError>
    ensures { IfOk result (λ cells. cells_of cells.items ≡ spec.explained_row code) }
{
    let form = Cell::Text(code.form().as_bytes());
    let meaning = Cell::Text(code.meaning().as_bytes());
    let remedy = Cell::Text(code.remedy().as_bytes());
    Ok(Vec::from_array(alloc, [form, meaning, remedy])?)
}

// Returns the row of a code, and that of the error that its line carries.
fn rows(
    alloc: Global,
    code: Code,
    carried: Option<Code>,
) -> Result<Vec<Vec<Cell<'static>>>, AllocError>
    ensures { IfOk result (λ rows. rows_of rows.items ≡ spec.explained_rows code carried) }
{
    let mut rows = Vec::new(alloc);
    rows.push(row(alloc, code)?)?;
    if let Some(carried) = carried {
        rows.push(row(alloc, carried)?)?;
    }
    Ok(rows)
}

// Returns the table that explains a code and the error that its line carries.
fn explanation(
    alloc: Global,
    code: Code,
    carried: Option<Code>,
) -> Result<Table<'static>, AllocError>
    ensures { IfOk result (λ table. table_of table ≡ spec.explanation_view_of code carried) }
{
    Ok(Table {
        above: Vec::new(alloc),
        columns: columns(alloc)?,
        rows: rows(alloc, code, carried)?,
        below: Vec::new(alloc),
    })
}

// Returns the explanation of an error line in a format.
fn text_in(alloc: Global, line: &str, format: Format) -> Result<Vec<u8>, CliFault>
    ensures text { IfOk result (λ text. ExplainsIn format line.now text.items) }
    ensures refused { IfErr result (Refuses (TellsNoCode line.now)) }
{
    let (code, carried) = explained(alloc, line)?;
    let table = explanation(alloc, code, carried)?;
    Ok(format_table(alloc, format, &table)?)
}

/// Writes the explanation of an error line as JSON or CSV: a row for each entry with `code`, the
/// form of the line, `meaning` and `remedy`. Otherwise like [`plan_errors::explain_run`].
pub fn explain_run_in<W: Sink>(
    alloc: Global,
    line: &str,
    format: Format,
    writer: &mut W,
) -> Result<(), CliFault>
    ensures writes { W.calls writer.new ≤ W.calls writer.old + most_calls }
    // The explanation if there is one, else nothing; a part of it if the output fails.
    ensures text { Writes (ExplainsIn format line.now) (TellsNoCode line.now)
        (W.taken writer.old) (W.taken writer.new) result }
    // With any other error than that of the output, nothing is written.
    ensures quiet { IfErr result (λ e. (e ≡ CliFault.Output) ⊎ (writer.new ≡ writer.old)) }
    ensures fine { OnOk result (W.faults writer.new ≡ W.faults writer.old) }
    ensures output { IsErrOf result CliFault.Output → HasSinkFailed W.Sink writer.old writer.new }
{
    let text = text_in(alloc, line, format)?;
    write_text(writer, &text)
}
