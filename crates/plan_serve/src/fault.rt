//! The faults of commands, from the faults of a store and of a book.

ghost use Rattle.std.specs.Prelude.{◌≡◌, ◌⊎◌, ◌↔◌};
ghost use Rattle.plan_serve.specs.Faults.{fault_of};

use plan_door::ServeFault;
use plan_rows::BookFault;
use plan_store::StoreFault;

/// Returns the fault of a command from the fault of its store.
pub(crate) fn store_fault(fault: StoreFault) -> ServeFault
    ensures { result ≡ fault_of fault }
{
    match fault {
        StoreFault::NotOurs => ServeFault::NotOurs,
        StoreFault::Version => ServeFault::Version,
        StoreFault::NoMemory => ServeFault::Memory,
        StoreFault::Store => ServeFault::Store,
    }
}

/// Returns the fault of a command from the fault of its book.
pub(crate) fn book_fault(fault: BookFault) -> ServeFault
    ensures which { (result ≡ ServeFault.Memory) ⊎ (result ≡ ServeFault.Store) }
    ensures memory { (result ≡ ServeFault.Memory) ↔ (fault ≡ BookFault.NoMemory) }
{
    match fault {
        BookFault::NoMemory => ServeFault::Memory,
        BookFault::Store => ServeFault::Store,
    }
}
