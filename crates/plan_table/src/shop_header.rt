//! The header of a list of orders: `order`, and then pairs of `machine` and `time`. Columns without a
//! header may follow.

ghost use Rattle.std.specs.Prelude.{◌≡◌, map};
ghost use Rattle.plan_table.specs.Reading.{Gives};
ghost use Rattle.plan_table.specs.ShopReading as spec;

use crate::cells::{same, word_fault};
use crate::entries::is_blank_row;
use crate::fault::{ReadError, TableCode};
use crate::header::key_of;
use std::alloc::Global;

/// A column.
#[derive(Clone, Copy)]
pub enum ShopColumn {
    Order,
    FirstMachine,
    Time,
    Machine,
}

// The header of a column.
fn header_of(column: ShopColumn) -> &'static [u8]
    ensures { result.now ≡ spec.header_of column }
{
    match column {
        ShopColumn::Order => b"order",
        ShopColumn::FirstMachine => b"machine",
        ShopColumn::Time => b"time",
        ShopColumn::Machine => b"machine",
    }
}

// The column behind one.
fn next_column(column: ShopColumn) -> ShopColumn
    ensures { result ≡ spec.next_column column }
{
    match column {
        ShopColumn::Order => ShopColumn::FirstMachine,
        ShopColumn::FirstMachine => ShopColumn::Time,
        ShopColumn::Time => ShopColumn::Machine,
        ShopColumn::Machine => ShopColumn::Time,
    }
}

// Whether a header can end before a column.
fn can_end(column: ShopColumn) -> bool
    ensures { result ≡ spec.can_end column }
{
    matches!(column, ShopColumn::Machine)
}

// Whether the header ends before a column: no other header stands in these cells.
fn ends_before(column: ShopColumn, cells: &[Vec<u8>]) -> bool
    ensures { result ≡ spec.ends_before column (map (λ cell. cell.items) cells.now) }
{
    can_end(column) && is_blank_row(cells)
}

// A test of the header of a column.
fn check_column(alloc: Global, holds: bool, column: ShopColumn) -> Result<(), ReadError>
    ensures { Gives (λ u. u) result (spec.column_holds holds column) }
{
    if holds {
        return Ok(());
    }
    Err(word_fault(alloc, TableCode::NoDuration, 0, header_of(column)))
}

/// Reads the header of a list of orders: T3 names the first column that isn't there.
#[tactic(auto, unfolding(crate::specs::ShopReading::shop_header))]
pub fn read_shop_header(alloc: Global, cells: &[Vec<u8>]) -> Result<(), ReadError>
    ensures { Gives (λ u. u) result (spec.shop_header ShopColumn.Order
        (map (λ cell. cell.items) cells.now)) }
{
    let mut column = ShopColumn::Order;
    for (k, cell) in cells.iter().enumerate() {
        if ends_before(column, &cells[k..]) {
            return Ok(());
        }
        let key = key_of(alloc, cell)?;
        check_column(alloc, same(&key, header_of(column)), column)?;
        column = next_column(column);
    }
    check_column(alloc, can_end(column), column)
}
