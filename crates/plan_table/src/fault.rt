//! The errors of a table and of its text.

ghost use Rattle.std.specs.Prelude.{◌≡◌};

use std::alloc::{AllocError, AllocFailed};
use thiserror::Error;

/// Why there is no text.
#[derive(Clone, Copy, Debug, PartialEq, Eq, Error)]
pub enum TextFault {
    /// Memory ran out.
    #[error("E90 memory")]
    Memory,
    /// The text has more bytes than a reader takes.
    #[error("T1 too long")]
    TooLong,
}

impl From<AllocError> for TextFault {
    ghost use Rattle.plan_table.specs.declared.fault.TextFault.TheVariants.{Memory};

    ghost from_gives = { λ _ fault. fault ≡ Memory };

    fn from(_error: AllocError) -> TextFault {
        TextFault::Memory
    }
}

/// The check that a table fails.
#[derive(Clone, Copy, Debug, PartialEq, Eq)]
pub enum TableCode {
    /// T1: more than 1,048,576 bytes.
    TooLong,
    /// T2: not UTF-8, or a control character in a name or a predecessor.
    NotText,
    /// T3: no column of durations; in a list of orders the word is the missing header.
    NoDuration,
    /// T4: a column twice, by whatever word.
    ColumnTwice,
    /// T5: an invalid duration; the word is its cell without the blanks at its ends.
    BadDuration,
    /// T6: an invalid id.
    BadId,
    /// T7: an id twice.
    IdTwice,
    /// T8: a predecessor that no row has as its id.
    NoSuchId,
    /// T9: a need that is no number.
    BadNeed,
    /// T10: a resource without a capacity.
    NoCapacity,
    /// T11: a cycle.
    Cycle,
    /// T12: above a limit.
    Limit,
    /// T13: more cells than headers, or a quote that isn't closed.
    Cells,
    /// T14: a given capacity of a resource that the table doesn't have.
    NoResource,
    /// T15: an order with more steps than there are machines.
    TooManySteps,
    /// T16: a column of successors without a capacity.
    Successors,
    /// T19: a need above the capacity of its resource; the word is the resource and its capacity.
    NeedAbove,
}

/// A check that a table fails: its line, 0 if it has none, and the word that it names.
#[derive(Drop, Debug)]
pub struct TableFault {
    pub code: TableCode,
    pub line: u64,
    pub word: Vec<u8>,
}

/// The error of a part of a table.
#[derive(Drop, Debug)]
pub enum ReadError {
    Memory,
    Fault(TableFault),
}

impl From<AllocError> for ReadError {
    ghost use Rattle.plan_table.specs.declared.fault.ReadError.TheVariants.{Memory};

    ghost from_gives = { λ _ e. e ≡ Memory };

    fn from(_error: AllocError) -> ReadError {
        ReadError::Memory
    }
}

impl<T: Drop> From<AllocFailed<T>> for ReadError {
    ghost use Rattle.plan_table.specs.declared.fault.ReadError.TheVariants.{Memory};

    ghost from_gives = { λ _ e. e ≡ Memory };

    fn from(_error: AllocFailed<T>) -> ReadError {
        ReadError::Memory
    }
}
