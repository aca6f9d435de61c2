//! The errors of a book's calls.

ghost use Rattle.std.specs.Prelude.{◌≡◌};
ghost use Rattle.plan_rows.specs.declared.fault.BookFault.TheVariants.{NoMemory};

use std::alloc::{AllocError, AllocFailed};
use thiserror::Error;

/// Why a call of a [`Book`](crate::Book) failed. Its tables are as they were.
#[derive(Debug, Clone, Copy, PartialEq, Eq, Error, Drop)]
pub enum BookFault {
    /// Memory ran out.
    #[error("no memory")]
    NoMemory,
    /// The store failed.
    #[error("the store refused")]
    Store,
}

impl From<AllocError> for BookFault {
    ghost from_gives = { λ _ fault. fault ≡ NoMemory };

    fn from(_error: AllocError) -> Self {
        BookFault::NoMemory
    }
}

impl<T: Drop> From<AllocFailed<T>> for BookFault {
    ghost from_gives = { λ _ fault. fault ≡ NoMemory };

    fn from(_error: AllocFailed<T>) -> Self {
        BookFault::NoMemory
    }
}
