//! Tables of whole lines.

ghost use Rattle.std.specs.Prelude.{◌≡◌, ◌++◌, ◌∷◌, [], map, codes, IfOk};
ghost use Rattle.plan_formats.specs.Columns.{column_of};
ghost use Rattle.plan_formats.specs.Tables.{cells_of, rows_of, table_of};
ghost use Rattle.plan_formats.specs.TableText.{text_of};
ghost use Rattle.plan_views.specs.Headings.{line_column};
ghost use Rattle.plan_views.specs.LineLists as spec;

use crate::headings::line;
use crate::rows::row_of;
use plan_formats::{Cell, Column, Table};
use std::alloc::{AllocError, Global};

// Returns the only column of a table of whole lines.
fn columns(alloc: Global, word: &'static str) -> Result<Vec<Column>, AllocError>
    ensures { IfOk result (λ columns. map column_of columns.items ≡ line_column word.now ∷ []) }
{
    Ok(Vec::from_array(alloc, [line(word)])?)
}

// Returns the row of a line.
fn row<'a>(alloc: Global, text: &'a [u8]) -> Result<Vec<Cell<'a>>, AllocError>
    ensures { IfOk result (λ cells. cells_of cells.items ≡ spec.line_row text.now) }
{
    row_of(alloc, &[Cell::Text(text)])
}

// Returns a row for each name.
fn rows<'a>(alloc: Global, names: &'a [Vec<u8>]) -> Result<Vec<Vec<Cell<'a>>>, AllocError>
    ensures { IfOk result (λ rows.
        rows_of rows.items ≡ map spec.line_row (map (λ name. name.items) names.now)) }
{
    let mut rows = Vec::new(alloc);
    for name in names {
        rows.push(row(alloc, name)?)?;
    }
    Ok(rows)
}

/// Returns the table of the names of instances: a row for each name.
#[tactic(auto, using(crate::proofs::TextLemmas::lines_text_of))]
pub fn name_view<'a>(alloc: Global, names: &'a [Vec<u8>]) -> Result<Table<'a>, AllocError>
    ensures value { IfOk result (λ table.
        table_of table ≡ spec.name_view_of (map (λ name. name.items) names.now)) }
    ensures text { IfOk result (λ table.
        text_of (table_of table) ≡ spec.text_of_lines (map (λ name. name.items) names.now)) }
{
    Ok(Table {
        above: Vec::new(alloc),
        columns: columns(alloc, "name")?,
        rows: rows(alloc, names)?,
        below: Vec::new(alloc),
    })
}

/// Returns the table of a verdict, which is its only row.
#[tactic(auto, using(crate::proofs::TextLemmas::lines_text_of))]
pub fn verdict_view<'a>(alloc: Global, sentence: &'a str) -> Result<Table<'a>, AllocError>
    ensures value { IfOk result (λ table. table_of table ≡ spec.verdict_view_of sentence.now) }
    ensures text { IfOk result (λ table.
        text_of (table_of table) ≡ sentence.now ++ codes "\n") }
{
    let mut rows = Vec::new(alloc);
    rows.push(row(alloc, sentence.as_bytes())?)?;
    Ok(Table {
        above: Vec::new(alloc),
        columns: columns(alloc, "verdict")?,
        rows,
        below: Vec::new(alloc),
    })
}
