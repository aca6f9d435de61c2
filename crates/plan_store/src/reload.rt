//! The reload of a database, after which the order of its rows is known.

ghost use Rattle.std.specs.Prelude.{◌≡◌, ◌≢◌, false, IfOk, IfErr};
ghost use Rattle.sqlite.specs.Held.{state};
ghost use Rattle.plan_store.specs.declared.fault.StoreFault.TheVariants.{NotOurs, Version};
ghost use Rattle.plan_store.specs.Reload.{IsReread, IsStoreOf};

use crate::fault::{StoreFault, store_fault_of};
use sqlite::{Alter, Connection};
use std::alloc::Global;

/// Closes a connection and reads its tables again, so that their rows are in the order of their
/// numbers. An `Err` returns the store.
pub fn reload<S: Alter + Drop>(
    alloc: Global,
    conn: Connection<S>,
) -> Result<Connection<S>, (StoreFault, S)>
    requires outside { (state S.Store conn).in_transaction ≡ false }
    ensures again { IfOk result (λ c. IsReread (state S.Store conn) (state S.Store c)) }
    ensures left { IfErr result (λ e. IsStoreOf S.Store (state S.Store conn) e.1) }
    ensures ours { IfErr result (λ e. e.0 ≢ NotOurs) }
    ensures known { IfErr result (λ e. e.0 ≢ Version) }
{
    let _settled = conn.is_autocommit();
    let _schema = conn.schema();
    let store = conn.into_store();
    if store.is_broken() {
        return Err((StoreFault::Store, store));
    }
    match Connection::over(alloc, store) {
        Ok(conn) => Ok(conn),
        Err((error, store)) => Err((store_fault_of(error), store)),
    }
}
