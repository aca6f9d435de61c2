//! Rows of a table.

ghost use Rattle.std.specs.Prelude.{◌≡◌, ◌++◌, ◌∷◌, [], IfOk, OnOk};

use plan_formats::Cell;
use std::alloc::{AllocError, Global};

/// Returns a row of these cells.
pub(crate) fn row_of<'a>(alloc: Global, cells: &[Cell<'a>]) -> Result<Vec<Cell<'a>>, AllocError>
    ensures { IfOk result (λ row. row.items ≡ cells.now) }
{
    cells.iter().copied().collect(alloc)
}

/// Appends a row.
pub(crate) fn push_row<'a>(
    rows: &mut Vec<Vec<Cell<'a>>>,
    row: Vec<Cell<'a>>,
) -> Result<(), AllocError>
    ensures { OnOk result (rows.new.items ≡ rows.old.items ++ row.entry ∷ []) }
{
    rows.push(row)?;
    Ok(())
}
