//! The error of a copy of a database and its log.

ghost use Rattle.std.specs.Prelude.{◌≡◌, ◌⊎◌, ◌↔◌};
ghost use Rattle.plan_copies.specs.declared.fault.PairFault.TheVariants.{Memory};

use plan_io::InputError;
use std::alloc::AllocError;
use thiserror::Error;

/// The error of a copy of a database and its log.
#[derive(Clone, Copy, Debug, Drop, PartialEq, Eq, Error)]
pub enum PairFault {
    /// Memory ran out.
    #[error("out of memory")]
    Memory,
    /// There is no database of this name.
    #[error("no such database")]
    Missing,
    /// This user may not read the database or its log.
    #[error("permission denied")]
    Denied,
    /// The database or its log can't be read for another cause.
    #[error("the database can't be read")]
    Unread,
    /// The copy can't be written.
    #[error("the copy can't be written")]
    Unwritten,
    /// The log began anew during each copy.
    #[error("the log began anew during each copy")]
    Restless,
}

impl From<AllocError> for PairFault {
    ghost from_gives = { λ _ e. e ≡ Memory };

    fn from(_e: AllocError) -> PairFault {
        PairFault::Memory
    }
}

// Returns the fault of a read.
pub(crate) fn read_fault(fault: InputError) -> PairFault
    ensures which { (result ≡ PairFault.Memory) ⊎ (result ≡ PairFault.Unread) }
    ensures memory { (result ≡ PairFault.Memory) ↔ (fault ≡ InputError.Memory) }
{
    match fault {
        InputError::Memory => PairFault::Memory,
        InputError::Failed => PairFault::Unread,
    }
}
