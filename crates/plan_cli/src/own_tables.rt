//! Rows of tables that own the texts of their cells.

ghost use Rattle.std.specs.Prelude.{◌≡◌, map, IfOk};
ghost use Rattle.plan_formats.specs.Cells.{cell_of};
ghost use Rattle.plan_formats.specs.Tables.{cells_of, rows_of, table_of};
ghost use Rattle.plan_cli.specs.OwnTables as spec;

use plan_formats::{Cell, Table};
use std::alloc::{AllocError, Global};

/// A cell that owns its text.
#[derive(Drop)]
pub(crate) enum OwnCell {
    Text(Vec<u8>),
    /// A cell without a text.
    Plain(Cell<'static>),
}

// Returns a text of its own.
fn own_text(alloc: Global, text: &[u8]) -> Result<OwnCell, AllocError>
    ensures { IfOk result (λ own. spec.own_cell_of own ≡ spec.text_cell text.now) }
{
    let mut bytes = Vec::new(alloc);
    bytes.extend_from_slice(text)?;
    Ok(OwnCell::Text(bytes))
}

// Returns a cell that owns its text.
fn own_cell(alloc: Global, cell: &Cell<'_>) -> Result<OwnCell, AllocError>
    ensures { IfOk result (λ own. spec.own_cell_of own ≡ cell_of cell.now) }
{
    match *cell {
        Cell::Text(text) => own_text(alloc, text),
        Cell::Number(n) => Ok(OwnCell::Plain(Cell::Number(n))),
        Cell::Above(n) => Ok(OwnCell::Plain(Cell::Above(n))),
        Cell::Below(n) => Ok(OwnCell::Plain(Cell::Below(n))),
        Cell::Day { year, month, day } => Ok(OwnCell::Plain(Cell::Day { year, month, day })),
        Cell::Flag(flag) => Ok(OwnCell::Plain(Cell::Flag(flag))),
        Cell::Empty => Ok(OwnCell::Plain(Cell::Empty)),
    }
}

// Returns a row that owns its texts.
fn own_row(alloc: Global, row: &[Cell<'_>]) -> Result<Vec<OwnCell>, AllocError>
    ensures { IfOk result (λ own. map spec.own_cell_of own.items ≡ cells_of row.now) }
{
    let mut own = Vec::new(alloc);
    for cell in row {
        own.push(own_cell(alloc, cell)?)?;
    }
    Ok(own)
}

/// Returns rows that own their texts.
pub(crate) fn own_rows(
    alloc: Global,
    rows: &[Vec<Cell<'_>>],
) -> Result<Vec<Vec<OwnCell>>, AllocError>
    ensures { IfOk result (λ own. spec.own_rows_of own.items ≡ rows_of rows.now) }
{
    let mut own = Vec::new(alloc);
    for row in rows {
        own.push(own_row(alloc, row)?)?;
    }
    Ok(own)
}

/// Returns a table with other rows.
pub(crate) fn with_rows<'a>(table: Table<'_>, rows: Vec<Vec<Cell<'a>>>) -> Table<'a>
    ensures { table_of result ≡ spec.with_rows (table_of table.entry) (rows_of rows.entry.items) }
{
    Table {
        above: table.above,
        columns: table.columns,
        rows,
        below: table.below,
    }
}

// Returns a cell with its text.
fn shown_cell<'a>(own: &'a OwnCell) -> Cell<'a>
    ensures { cell_of result ≡ spec.own_cell_of own.now }
{
    match own {
        OwnCell::Text(text) => Cell::Text(text),
        OwnCell::Plain(cell) => *cell,
    }
}

// Returns a row with its texts.
fn shown_row<'a>(alloc: Global, own: &'a [OwnCell]) -> Result<Vec<Cell<'a>>, AllocError>
    ensures { IfOk result (λ row. cells_of row.items ≡ map spec.own_cell_of own.now) }
{
    let mut row = Vec::new(alloc);
    for cell in own {
        row.push(shown_cell(cell))?;
    }
    Ok(row)
}

// Returns rows with their texts.
fn shown_rows<'a>(alloc: Global, own: &'a [Vec<OwnCell>]) -> Result<Vec<Vec<Cell<'a>>>, AllocError>
    ensures { IfOk result (λ rows. rows_of rows.items ≡ spec.own_rows_of own.now) }
{
    let mut rows = Vec::new(alloc);
    for row in own {
        rows.push(shown_row(alloc, row)?)?;
    }
    Ok(rows)
}

/// Returns a table with these rows and their texts.
pub(crate) fn whole_table<'a>(
    alloc: Global,
    table: Table<'static>,
    own: &'a [Vec<OwnCell>],
) -> Result<Table<'a>, AllocError>
    ensures { IfOk result (λ whole. table_of whole
        ≡ spec.with_rows (table_of table.entry) (spec.own_rows_of own.now)) }
{
    let rows = shown_rows(alloc, own)?;
    Ok(with_rows(table, rows))
}
