//! The place of a database.

ghost use Rattle.std.specs.Prelude.{◌≡◌, ◌⊎◌, ◌+◌, ℕ, false, Result, IfOk, IfErr};
ghost use Rattle.sqlite.specs.Held.{Held, state};
ghost use Rattle.plan_store.specs.declared.fault.StoreFault.{StoreFault};
ghost use Rattle.plan_store.specs.declared.fault.StoreFault.TheVariants.{NoMemory, Store};

use plan_store::StoreFault;
use sqlite::{Alter, Connection};
use std::alloc::Global;

/// The place of a database.
pub trait Place: Drop {
    /// The store of its connection.
    type Kept: Alter + Drop;

    /// The number of times that the database was to be opened.
    ghost opened: { Self → ℕ };

    /// The possible outcomes of opening it.
    ghost connects: { Self → Self → Result (Held Self.Kept) StoreFault → Type 0 };

    /// Opens a connection, outside a transaction.
    fn connect(&mut self, alloc: Global) -> Result<Connection<Self::Kept>, StoreFault>
        ensures counted { opened self.new ≡ opened self.old + 1 }
        ensures connected { connects self.old self.new result }
        ensures outside { IfOk result
            (λ conn. (state Self.Kept.Store conn).in_transaction ≡ false) }
        ensures which { IfErr result (λ fault. (fault ≡ NoMemory) ⊎ (fault ≡ Store)) };
}
