//! Errors of this crate.

ghost use Rattle.std.specs.Prelude.{◌≡◌};

use plan_psplib::{DeviceFault, FileFault};
use plan_sgs::SgsFault;
use std::alloc::{AllocError, AllocFailed};
use thiserror::Error;

/// The error of a line of a log.
#[derive(Clone, Copy, Debug, PartialEq, Eq)]
pub enum LineFault {
    /// Memory ran out.
    NoMemory,
    /// The line doesn't follow from the problem and the lines above it.
    DoesNotFollow,
    /// The line isn't one of the lines of a log.
    Unreadable,
}

impl From<AllocError> for LineFault {
    fn from(_error: AllocError) -> Self {
        LineFault::NoMemory
    }
}

impl<T: Drop> From<AllocFailed<T>> for LineFault {
    fn from(_error: AllocFailed<T>) -> Self {
        LineFault::NoMemory
    }
}

/// The error of a log. Lines are numbered from 1.
#[derive(Clone, Copy, Debug, PartialEq, Eq, Error)]
pub enum LogFault {
    /// Memory ran out.
    #[error("no memory")]
    NoMemory,
    /// The log can't be read.
    #[error("the log can't be read")]
    Device,
    /// The line doesn't follow from the problem and the lines above it.
    #[error("V1 line {line}")]
    DoesNotFollow { line: u64 },
    /// The line isn't one of the lines of a log.
    #[error("V2 line {line}")]
    Unreadable { line: u64 },
}

impl LogFault {
    /// Returns the error of a log whose line of this number has an error.
    pub(crate) fn at(fault: LineFault, line: u64) -> LogFault {
        match fault {
            LineFault::NoMemory => LogFault::NoMemory,
            LineFault::DoesNotFollow => LogFault::DoesNotFollow { line },
            LineFault::Unreadable => LogFault::Unreadable { line },
        }
    }
}

impl From<AllocError> for LogFault {
    fn from(_error: AllocError) -> Self {
        LogFault::NoMemory
    }
}

impl<T: Drop> From<AllocFailed<T>> for LogFault {
    fn from(_error: AllocFailed<T>) -> Self {
        LogFault::NoMemory
    }
}

impl From<DeviceFault> for LogFault {
    fn from(_error: DeviceFault) -> Self {
        LogFault::Device
    }
}

/// The reason why a log shows nothing of the problem in a file.
#[derive(Debug, Drop, Error)]
pub enum VerifyFault {
    /// The file says no problem.
    #[error("{0}")]
    File(FileFault),
    /// The project needs more than a capacity.
    #[error("{0}")]
    Project(SgsFault),
    /// The log has an error, or memory ran out.
    #[error("{0}")]
    Log(LogFault),
}

impl From<LogFault> for VerifyFault {
    ghost use Rattle.std.specs.Prelude.{◌≡◌};
    ghost use Rattle.plan_verify.specs.declared.fault.VerifyFault.TheVariants.{Log};

    ghost from_gives = { λ log fault. fault ≡ Log log };

    fn from(fault: LogFault) -> Self {
        VerifyFault::Log(fault)
    }
}

impl From<AllocError> for VerifyFault {
    ghost use Rattle.std.specs.Prelude.{◌≡◌};
    ghost use Rattle.plan_verify.specs.declared.fault.VerifyFault.TheVariants.{Log};
    ghost use Rattle.plan_verify.specs.declared.fault.LogFault.TheVariants.{NoMemory};

    ghost from_gives = { λ _ fault. fault ≡ Log NoMemory };

    fn from(_error: AllocError) -> Self {
        VerifyFault::Log(LogFault::NoMemory)
    }
}
