//! The errors of the dates in a list.

ghost use Rattle.std.specs.Prelude.{◌≡◌, ℕ, List, Option};
ghost use Rattle.plan_weeklist.specs.Faults.{Fails, fault};
ghost use Rattle.plan_weeklist.specs.declared.fault.WeekError.TheVariants.{Memory};

use std::alloc::{AllocError, AllocFailed, Global};

/// The check that the dates of a list fail.
#[derive(Clone, Copy, Debug, PartialEq, Eq)]
pub enum WeekCode {
    /// T1: the plain list has more bytes than plan_table reads.
    TooLong,
    /// T14: an absence of something that is no resource of the list; the word is its header or name.
    NoResource,
    /// T17: something has begun or is done, and it isn't known what is today.
    NoToday,
    /// T20: no whole number of at most 10,000,000.
    BadNumber,
    /// T21: an appointment before its earliest start or before today, or a remaining duration of an
    /// activity that hasn't begun.
    Contradiction,
}

/// A check that the dates of a list fail: its line, and the cell.
#[derive(Drop, Debug)]
pub struct WeekFault {
    pub code: WeekCode,
    pub line: u64,
    pub word: Vec<u8>,
}

/// The error of a part of a list.
#[derive(Drop, Debug)]
pub enum WeekError {
    Memory,
    Fault(WeekFault),
}

impl From<AllocError> for WeekError {
    ghost from_gives = { λ _ e. e ≡ Memory };

    fn from(_error: AllocError) -> WeekError {
        WeekError::Memory
    }
}

impl<T: Drop> From<AllocFailed<T>> for WeekError {
    ghost from_gives = { λ _ e. e ≡ Memory };

    fn from(_error: AllocFailed<T>) -> WeekError {
        WeekError::Memory
    }
}
