//! The statements of a connection, and the rows of its queries.

ghost use Rattle.std.specs.Prelude.{◌≡◌, [], false, IsTrue};
ghost use Rattle.sqlite.specs.Values.{bound};
ghost use Rattle.sqlite.specs.Given.{IsPlain};
ghost use Rattle.sqlite.specs.Listing.{understood, reads_listing};
ghost use Rattle.sqlite.specs.Effect.{Reads};
ghost use Rattle.sqlite.specs.State.{HasCleanDisk, Shown};
ghost use Rattle.sqlite.specs.Held.{state};
ghost use Rattle.plan_store.specs.Tables.{store_schema};
ghost use Rattle.plan_store.specs.Transactions.{meaning_of};
ghost use Rattle.plan_store.specs.QueryEffect.{meaning_under, IsQueryUnder, IsAtRest, Queries};
ghost use Rattle.plan_store.specs.BookCalls.{Serves, ReadsTables};
ghost use Rattle.plan_store.specs.Layouts.{schema_of};
ghost use Rattle.plan_store.specs.TableTests.{CanRead, Inspects};

use crate::fault::fault_of;
use crate::layout::Layout;
use plan_rows::BookFault;
use sqlite::types::ValueRef;
use sqlite::{Alter, Connection, Row, Statement};

/// Compiles a statement, or returns the compiled one that the connection keeps. Success proves that
/// the connection is open.
pub fn prepare<S: Alter>(conn: &mut Connection<S>, text: &str) -> Result<Statement, BookFault>
    requires rest { IsAtRest (state S.Store conn.old) }
    ensures { Queries (state S.Store conn.old) (state S.Store conn.new) result
        (λ s. s.text ≡ text.now) }
{
    conn.prepare(text).map_err(fault_of)
}

// Returns the rows of a query on an open connection.
fn run<S: Alter>(
    conn: &mut Connection<S>,
    statement: &Statement,
    params: &[ValueRef<'_>],
) -> Result<Vec<Row>, BookFault>
    requires rest { IsAtRest (state S.Store conn.old) }
    requires live { HasCleanDisk (state S.Store conn.old)
        → IsTrue (state S.Store conn.old).is_open }
    requires plain { HasCleanDisk (state S.Store conn.old)
        → IsPlain (understood (state S.Store conn.old).now.schema statement.now.text) }
    ensures { Queries (state S.Store conn.old) (state S.Store conn.new) result
        (λ rows. Shown statement.now.text (bound params.now)
        (state S.Store conn.old) (state S.Store conn.new) rows.items) }
{
    statement.query_all(conn, params).map_err(fault_of)
}

// Returns the rows of a query on any tables.
fn run_query<S: Alter>(
    conn: &mut Connection<S>,
    text: &str,
    params: &[ValueRef<'_>],
) -> Result<Vec<Row>, BookFault>
    requires rest { IsAtRest (state S.Store conn.old) }
    requires query { HasCleanDisk (state S.Store conn.old)
        → IsTrue (state S.Store conn.old).is_open
        → IsQueryUnder (state S.Store conn.old).now.schema text.now }
    ensures { Queries (state S.Store conn.old) (state S.Store conn.new) result
        (λ rows. Reads (meaning_under (state S.Store conn.old).now.schema text.now)
        (state S.Store conn.old).now (bound params.now) rows.items) }
{
    let statement = prepare(conn, text)?;
    run(conn, &statement, params)
}

/// Returns the rows of a query.
pub fn rows_of<S: Alter>(
    conn: &mut Connection<S>,
    text: &str,
    params: &[ValueRef<'_>],
) -> Result<Vec<Row>, BookFault>
    requires ready { Serves S.Store conn.old }
    requires plain { IsPlain (understood store_schema text.now) }
    requires ours { reads_listing store_schema text.now ≡ false }
    ensures { ReadsTables S.Store conn.old conn.new result
        (λ db rows. Reads (meaning_of text.now) db (bound params.now) rows.items) }
{
    run_query(conn, text, params)
}

/// Returns the rows of a query on an untrusted database.
pub fn rows_under<S: Alter>(
    conn: &mut Connection<S>,
    layout: Layout,
    text: &str,
) -> Result<Vec<Row>, BookFault>
    requires ready { CanRead S.Store layout conn.old }
    requires query { IsQueryUnder (schema_of layout) text.now }
    ensures { Inspects S.Store layout conn.old conn.new result
        (λ db rows. Reads (meaning_under (schema_of layout) text.now) db [] rows.items) }
{
    run_query(conn, text, &[])
}
