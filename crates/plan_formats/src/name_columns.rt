//! Cells with the names of activities, orders or machines.

ghost use Rattle.std.specs.Prelude.{◌≡◌, map};
ghost use Rattle.std.specs.Option.{option_map};
ghost use Rattle.plan_table.specs.Names.{name_of};
ghost use Rattle.plan_formats.specs.Cells.{cell_of};
ghost use Rattle.plan_formats.specs.NameColumns as spec;

use crate::cell::Cell;
use plan_table::{NameLine, first_name};

// Returns the cell with the name of a number.
fn name_cell<'a>(names: &[NameLine<'a>], number: u64) -> Cell<'a>
    ensures { cell_of result ≡ spec.name_cell (map name_of names.now) number }
{
    match first_name(names, number) {
        Some(name) => Cell::Text(name),
        None => Cell::Empty,
    }
}

/// Returns the cell with the name of the number in a cell. It is empty if there is none.
pub(crate) fn name_of_cell<'a>(names: &[NameLine<'a>], cell: Option<&Cell<'_>>) -> Cell<'a>
    ensures { cell_of result ≡ spec.name_of_cell (map name_of names.now)
        (option_map (λ cell. cell_of cell.now) cell.entry) }
{
    match cell {
        Some(Cell::Number(n)) => name_cell(names, *n),
        _ => Cell::Empty,
    }
}
