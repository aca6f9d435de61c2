//! The errors of the dates in a list.

ghost use Rattle.std.specs.Prelude.{◌≡◌};
ghost use Rattle.plan_weekdates.specs.declared.fault.DateError.TheVariants.{Memory};

use crate::columns::DateColumn;
use std::alloc::{AllocError, AllocFailed};

/// An error of a date in a cell.
#[derive(Clone, Copy, Debug, PartialEq, Eq)]
pub enum CellCode {
    /// T20: it isn't a date from 1900-01-01 to 2199-12-31.
    NoDate,
    /// T21: in `begun` or `done`, it is before the first date of the calendar.
    TooEarly,
}

/// An error of a date in a cell: its line, its column, and its text.
#[derive(Drop, Debug)]
pub struct CellFault {
    pub code: CellCode,
    pub line: u64,
    pub column: DateColumn,
    pub word: Vec<u8>,
}

/// The error of a list with dates.
#[derive(Drop, Debug)]
pub enum DateError {
    /// E90: memory ran out.
    Memory,
    /// T1: the list with instants has more bytes than plan_table reads.
    TooLong,
    /// The first cell with an error.
    Cell(CellFault),
}

impl From<AllocError> for DateError {
    ghost from_gives = { λ _ e. e ≡ Memory };

    fn from(_error: AllocError) -> DateError {
        DateError::Memory
    }
}

impl<T: Drop> From<AllocFailed<T>> for DateError {
    ghost from_gives = { λ _ e. e ≡ Memory };

    fn from(_error: AllocFailed<T>) -> DateError {
        DateError::Memory
    }
}
