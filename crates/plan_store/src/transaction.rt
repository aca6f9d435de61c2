//! The transaction that runs several statements.

ghost use Rattle.std.specs.Prelude.{◌≡◌, false, map, IsTrue, OnOk, OnErr};
ghost use Rattle.sqlite.specs.State.{HasCleanDisk, KeepsCommit, Survives};
ghost use Rattle.sqlite.specs.Held.{state};
ghost use Rattle.plan_rows.specs.World.{World};
ghost use Rattle.plan_store.specs.Transactions.{said, RanAll, LeavesAll, MayMake, Makes};
ghost use Rattle.plan_store.specs.BookCalls.{Serves, ChangesOffice};

use crate::fault::fault_of;
use plan_rows::BookFault;
use sqlite::types::ValueRef;
use sqlite::{Alter, Connection, Error, Transaction};

// Runs the statements one after another, until one fails.
fn run_in_turn<S: Alter>(
    tx: &mut Transaction<'_, S>,
    statements: &[(&str, &[ValueRef<'_>])],
) -> Result<(), Error>
    ensures same_reference { tx.new.conn.ghost_name ≡ tx.old.conn.ghost_name }
    ensures ran { HasCleanDisk (state S.Store tx.new.conn.now)
        → IsTrue tx.old.conn.now.in_transaction → OnOk result
        (RanAll S.Store (map said statements.now) tx.old.conn.now tx.new.conn.now
        × IsTrue tx.new.conn.now.in_transaction) }
    ensures kept { HasCleanDisk (state S.Store tx.new.conn.now)
        → IsTrue tx.old.conn.now.in_transaction
        → KeepsCommit (state S.Store tx.old.conn.now) (state S.Store tx.new.conn.now) }
    ensures survives { Survives
        (state S.Store tx.old.conn.now) (state S.Store tx.new.conn.now) (λ _. ⊥) }
{
    for (text, params) in statements {
        tx.execute(text, params)?;
    }
    Ok(())
}

/// Runs all statements in one transaction, or none. A crash leaves tables that it could leave
/// before, or those after all statements.
pub fn run_all<S: Alter>(
    conn: &mut Connection<S>,
    statements: &[(&str, &[ValueRef<'_>])],
) -> Result<(), Error>
    requires outside { (state S.Store conn.old).in_transaction ≡ false }
    ensures outside { (state S.Store conn.new).in_transaction ≡ false }
    ensures made { HasCleanDisk (state S.Store conn.new) → OnOk result
        (IsTrue (state S.Store conn.new).is_open
        × ((state S.Store conn.new).now ≡ (state S.Store conn.new).committed)
        × LeavesAll S.Store (map said statements.now) conn.old (state S.Store conn.new).now) }
    ensures neither { HasCleanDisk (state S.Store conn.new)
        → IsTrue (state S.Store conn.new).is_open → OnErr result
        (IsTrue (state S.Store conn.old).is_open
        × ((state S.Store conn.new).now ≡ (state S.Store conn.old).committed)
        × ((state S.Store conn.new).committed ≡ (state S.Store conn.old).committed)) }
    ensures survives { Survives (state S.Store conn.old) (state S.Store conn.new)
        (MayMake S.Store (map said statements.now) conn.old) }
{
    let mut tx = conn.transaction();
    run_in_turn(&mut tx, statements)?;
    tx.commit()
}

/// Makes the change of the office that these statements make, in one transaction.
pub fn transact<S: Alter>(
    conn: &mut Connection<S>,
    statements: &[(&str, &[ValueRef<'_>])],
) -> Result<(), BookFault>
    requires ready { Serves S.Store conn.old }
    ensures { (change : World → World) → Makes S.Store (map said statements.now) conn.old change
        → ChangesOffice S.Store conn.old conn.new result change }
{
    run_all(conn, statements).map_err(fault_of)
}
