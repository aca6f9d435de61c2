//! The errors of a store, and their relation to the errors of SQLite.

ghost use Rattle.std.specs.Prelude.{◌≡◌, ◌≢◌};
ghost use Rattle.plan_store.specs.declared.fault.StoreFault.TheVariants.{NotOurs, Version};
ghost use Rattle.plan_store.specs.Faults.{book_fault, making_fault};

use plan_rows::BookFault;
use sqlite::{Error, ErrorCode};
use thiserror::Error as Fault;

/// Why a store wasn't created or adopted.
#[derive(Debug, Clone, Copy, PartialEq, Eq, Fault, Drop)]
pub enum StoreFault {
    /// `create_in` found tables, or `adopt` found tables that aren't those of an office.
    #[error("the tables are not those of an office")]
    NotOurs,
    /// The tables have an unknown version.
    #[error("the version of the tables is not known")]
    Version,
    /// Memory ran out.
    #[error("no memory")]
    NoMemory,
    /// SQLite or the disk failed.
    #[error("the store refused")]
    Store,
}

// Returns the fault of a book for an error of its connection.
pub(crate) fn fault_of(error: Error) -> BookFault
    ensures { result ≡ book_fault error }
{
    match error {
        Error::SqliteFailure(ErrorCode::OutOfMemory) => BookFault::NoMemory,
        _ => BookFault::Store,
    }
}

impl From<Error> for StoreFault {
    ghost from_gives = { λ _ fault. (fault ≢ NotOurs) × (fault ≢ Version) };

    fn from(error: Error) -> Self {
        store_fault_of(error)
    }
}

// Returns the fault of a book that is being created or adopted.
pub(crate) fn store_fault_of(error: Error) -> StoreFault
    ensures ours { result ≢ NotOurs }
    ensures known { result ≢ Version }
    ensures told { result ≡ making_fault (book_fault error) }
{
    match error {
        Error::SqliteFailure(ErrorCode::OutOfMemory) => StoreFault::NoMemory,
        _ => StoreFault::Store,
    }
}
