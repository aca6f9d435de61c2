//! Cells of a table.

ghost use Rattle.std.specs.Prelude.{◌≡◌};
ghost use Rattle.jiff.specs.Words.{date_text};
ghost use Rattle.plan_formats.specs.Cells as spec;

use jiff::civil::Date;

/// A cell of a table.
#[derive(Clone, Copy)]
pub enum Cell<'a> {
    Number(u64),
    /// A number above 0 that has its sign in the text: `+3`. In CSV and JSON it has none.
    Above(u32),
    /// A number below 0, without its sign.
    Below(u32),
    /// A date, `2026-11-30`.
    Day { year: i16, month: u8, day: u8 },
    /// Any bytes.
    Text(&'a [u8]),
    Flag(bool),
    /// `-` in the text, an empty field in CSV, `null` in JSON.
    Empty,
}

/// Returns the cell of a date.
pub fn day_cell<'a>(date: Date) -> Cell<'a>
    ensures { spec.cell_of result ≡ spec.text (date_text date) }
{
    let plain = date.to_plain();
    Cell::Day {
        year: plain.year,
        month: plain.month,
        day: plain.day,
    }
}

/// Whether a cell is empty.
pub(crate) fn is_empty(cell: &Cell<'_>) -> bool
    ensures { result ≡ spec.is_empty (spec.cell_of cell.now) }
{
    matches!(cell, Cell::Empty)
}
