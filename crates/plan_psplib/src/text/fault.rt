//! The errors of a file.

ghost use Rattle.std.specs.Prelude.{◌≡◌};
ghost use Rattle.plan_psplib.specs.declared.text.fault.ReadError.TheVariants.{Memory, Fault};

use std::alloc::{AllocError, AllocFailed, Global};
use thiserror::Error;

/// The check that a file fails in the `.sm` reader or in the job shop reader. Each variant is
/// listed with its code in messages.
#[derive(Clone, Copy, Debug, PartialEq, Eq)]
pub enum FileCode {
    /// F1: more than 1,048,576 bytes.
    TooLong,
    /// F2: a zero byte.
    NotText,
    /// F3: a key of the head isn't found.
    MissingHead,
    /// F4: a kind of project that isn't read.
    Unsupported,
    /// F5: the title of a section isn't found.
    MissingSection,
    /// F6: a token is not a number, although one was expected.
    BadNumber,
    /// F7: a job number that isn't the expected one, or isn't that of a job.
    JobOrder,
    /// F8: a number of modes, or a mode, other than 1.
    Modes,
    /// F9: a section has a word too few or too many.
    Count,
    /// F10: a number beyond its limit.
    Limit,
    /// F11: a successor that its row has named before.
    Double,
    /// F12: the arcs have a cycle.
    Cycle,
    /// F13: no instance has the name that was asked for.
    NoInstance,
    /// F14: a machine that the shop doesn't have.
    BadMachine,
    /// Out of memory, which is not an error of the file.
    Memory,
}

/// The error of a file: the first check that fails, and its line.
#[derive(Debug, Drop, Error)]
#[error("{code:?} in line {line}")]
pub struct FileFault {
    pub code: FileCode,
    /// Counted from 1; 0 for a file that is too long, for one without lines, and if memory ran out.
    pub line: u64,
    /// The activities of a cycle along its arcs, from the least on; empty unless the code is
    /// `Cycle`.
    pub cycle: Vec<u32>,
}

impl FileFault {
    ghost use Rattle.plan_psplib.specs.Faults.{TellsError};

    /// Converts the error of a part into the error of the file. Allocates nothing.
    pub fn of(alloc: Global, error: ReadError) -> FileFault
        ensures { TellsError error result }
    {
        let (code, line) = match error {
            ReadError::Memory => (FileCode::Memory, 0),
            ReadError::Fault(fault) => (fault.code, fault.line),
        };
        FileFault {
            code,
            line,
            cycle: Vec::new(alloc),
        }
    }
}

/// A check that fails, and the line at which it fails.
#[derive(Clone, Copy, Debug, PartialEq, Eq)]
pub struct Fault {
    pub code: FileCode,
    pub line: u64,
}

impl Fault {
    /// A check that fails, at a line.
    pub fn new(code: FileCode, line: u64) -> Fault
        ensures { result ≡ record { code = code; line = line } }
    {
        Fault { code, line }
    }
}

/// The error of a part of a file.
#[derive(Clone, Copy, Debug, PartialEq, Eq, Error)]
pub enum ReadError {
    #[error("out of memory")]
    Memory,
    #[error("{0:?}")]
    Fault(Fault),
}

impl From<Fault> for ReadError {
    ghost from_gives = { λ fault e. e ≡ Fault fault };

    fn from(fault: Fault) -> ReadError {
        ReadError::Fault(fault)
    }
}

impl From<AllocError> for ReadError {
    ghost from_gives = { λ _ e. e ≡ Memory };

    fn from(_e: AllocError) -> ReadError {
        ReadError::Memory
    }
}

impl<T: Drop> From<AllocFailed<T>> for ReadError {
    ghost from_gives = { λ _ e. e ≡ Memory };

    fn from(_e: AllocFailed<T>) -> ReadError {
        ReadError::Memory
    }
}
