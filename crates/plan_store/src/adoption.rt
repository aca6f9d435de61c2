//! The adoption of existing tables.

ghost use Rattle.std.specs.Prelude.{◌≡◌, false, IfOk, OnOk, IsSome};
ghost use Rattle.sqlite.specs.State.{HasCleanDisk};
ghost use Rattle.sqlite.specs.Held.{state};
ghost use Rattle.plan_store.specs.Reload.{IsInOrder};
ghost use Rattle.plan_store.specs.TableTests.{IsLaid, SaysVersion};
ghost use Rattle.plan_store.specs.KeptPlans.{KeepsPlans};
ghost use Rattle.plan_store.specs.Adoption.{Takes};

use crate::fault::StoreFault;
use crate::kept_plans::KeptPlans;
use crate::layout::{Layout, layout_of};
use crate::migration::migrate;
use crate::version::read_version;
use plan_rows::BookFault;
use sqlite::{Alter, Connection};
use std::alloc::Global;

// Adopts tables if their version is that of their layout.
fn take_version<S: Alter>(
    conn: &mut Connection<S>,
    layout: Layout,
    said: Option<i64>,
) -> Result<(), StoreFault>
    requires outside { (state S.Store conn.old).in_transaction ≡ false }
    requires laid { HasCleanDisk (state S.Store conn.old)
        → IsLaid layout (state S.Store conn.old) }
    requires says { HasCleanDisk (state S.Store conn.old)
        → SaysVersion layout (state S.Store conn.old).now said }
    ensures takes { Takes (state S.Store conn.old) (state S.Store conn.new) result }
    ensures said { OnOk result (IsSome said) }
{
    match (layout, said) {
        (_, None) => Err(StoreFault::NotOurs),
        (Layout::First, Some(1)) => migrate(conn),
        (Layout::Second, Some(2)) => Ok(()),
        (Layout::First, Some(2)) | (Layout::Second, Some(1)) => Err(StoreFault::NotOurs),
        (_, Some(_)) => Err(StoreFault::Version),
    }
}

/// Adopts the tables of a reloaded connection and returns their plans. It migrates those of the
/// first version.
pub fn take_tables<S: Alter>(
    alloc: Global,
    conn: &mut Connection<S>,
) -> Result<KeptPlans, StoreFault>
    requires outside { (state S.Store conn.old).in_transaction ≡ false }
    requires in_order { HasCleanDisk (state S.Store conn.old)
        → IsInOrder (state S.Store conn.old) }
    ensures takes { Takes (state S.Store conn.old) (state S.Store conn.new) result }
    ensures plans { IfOk result (KeepsPlans (state S.Store conn.new)) }
{
    let Some(layout) = layout_of(conn.schema()) else {
        return Err(StoreFault::NotOurs);
    };
    match read_version(alloc, conn, layout) {
        Ok((said, kept)) => match take_version(conn, layout, said) {
            Ok(()) => Ok(kept),
            Err(fault) => Err(fault),
        },
        Err(BookFault::NoMemory) => Err(StoreFault::NoMemory),
        Err(BookFault::Store) => Err(StoreFault::Store),
    }
}
