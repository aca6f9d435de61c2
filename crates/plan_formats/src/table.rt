//! A table of cells.

use crate::cell::Cell;
use crate::column::Column;
use crate::line::Line;

/// A table: lines above the rows, the columns, the rows, and lines below them. A row has one cell
/// for each column; the texts leave out a cell without a column and a column without a cell.
#[derive(Drop)]
pub struct Table<'a> {
    pub above: Vec<Line>,
    pub columns: Vec<Column>,
    pub rows: Vec<Vec<Cell<'a>>>,
    pub below: Vec<Line>,
}
