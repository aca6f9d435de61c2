//! Tables with a column of names.

ghost use Rattle.std.specs.Prelude.{◌≡◌, map, IfOk};
ghost use Rattle.plan_table.specs.Names.{name_of};
ghost use Rattle.plan_formats.specs.Columns.{column_of};
ghost use Rattle.plan_formats.specs.Tables.{cells_of, rows_of, table_of};
ghost use Rattle.plan_formats.specs.NamedTables as spec;

use crate::cell::Cell;
use crate::column::{Column, Layout};
use crate::name_columns::name_of_cell;
use crate::table::Table;
use plan_table::NameLine;
use std::alloc::{AllocError, Global};

// Returns a row with the name of the number in its first cell.
fn named_row<'a>(
    alloc: Global,
    names: &[NameLine<'a>],
    row: &[Cell<'a>],
) -> Result<Vec<Cell<'a>>, AllocError>
    ensures { IfOk result (λ made. cells_of made.items
        ≡ spec.with_name (map name_of names.now) (cells_of row.now)) }
{
    let mut cells = Vec::new(alloc);
    cells.extend_from_slice(row)?;
    cells.push(name_of_cell(names, row.first()))?;
    Ok(cells)
}

// Returns rows, each with the name of the number in its first cell.
fn named_rows<'a>(
    alloc: Global,
    names: &[NameLine<'a>],
    rows: &[Vec<Cell<'a>>],
) -> Result<Vec<Vec<Cell<'a>>>, AllocError>
    ensures { IfOk result (λ made. rows_of made.items
        ≡ map (spec.with_name (map name_of names.now)) (rows_of rows.now)) }
{
    let mut made = Vec::new(alloc);
    for row in rows {
        made.push(named_row(alloc, names, row)?)?;
    }
    Ok(made)
}

/// Returns a table with one more column: for each row the first text of the number in its first
/// cell, or an empty cell if it has none.
pub fn with_column<'a>(
    alloc: Global,
    table: Table<'a>,
    column: Column,
    texts: &[NameLine<'a>],
) -> Result<Table<'a>, AllocError>
    ensures { IfOk result (λ made. table_of made
        ≡ spec.with_column (column_of column) (map name_of texts.now) (table_of table.entry)) }
{
    let rows = named_rows(alloc, texts, &table.rows)?;
    let mut columns = table.columns;
    columns.push(column)?;
    Ok(Table {
        above: table.above,
        columns,
        rows,
        below: table.below,
    })
}

/// Returns a table with one more column, `name`: for each row the first name of the number in its
/// first cell, or an empty cell if it has none. In the text the names follow the rows.
pub fn with_names<'a>(
    alloc: Global,
    table: Table<'a>,
    names: &[NameLine<'a>],
) -> Result<Table<'a>, AllocError>
    ensures { IfOk result (λ made. table_of made
        ≡ spec.with_names (map name_of names.now) (table_of table.entry)) }
{
    let column = Column {
        heading: "name",
        word: "name",
        layout: Layout::Label,
    };
    with_column(alloc, table, column, names)
}
