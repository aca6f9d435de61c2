//! `plan init`: the tables of a new office.

ghost use Rattle.std.specs.Prelude.{◌≡◌, ◌⊎◌, ◌+◌, ◌≤◌, Ok, Err, IfErr};
ghost use Rattle.sqlite.specs.Held.{state};
ghost use Rattle.plan_serve.specs.InitRun.{IsTold, Inits};

use crate::fault::store_fault;
use crate::place::Place;
use plan_door::{ServeFault, read_key};
use plan_io::Source;
use plan_store::{SqlBook, StoreFault, has_office_tables};
use sqlite::{Alter, Connection};
use std::alloc::Global;

// The fault of a command from the fault of its store, if the connection was returned. It
// distinguishes the tables of an office from other tables.
fn init_fault<S: Alter>(fault: StoreFault, conn: &Connection<S>) -> ServeFault
    ensures { IsTold fault (state S.Store conn.now).now result }
{
    if fault == StoreFault::NotOurs && has_office_tables(conn) {
        return ServeFault::Taken;
    }
    store_fault(fault)
}

/// Reads the key of a new office from the first line of a text, and creates its tables in a
/// database without tables. The database is opened once, and only after a valid key was read. If no
/// tables are created, the connection is returned, if one was opened.
pub fn init_run<R: Source, P: Place>(
    alloc: Global,
    reader: &mut R,
    place: &mut P,
) -> Result<SqlBook<P::Kept>, (ServeFault, Option<Connection<P::Kept>>)>
    ensures calls { R.calls reader.new ≤ R.calls reader.old + 66 }
    ensures inits { Inits P.Kept.Store (λ conn. P.connects place.old place.new (Ok conn))
        (λ cause. P.connects place.old place.new (Err cause)) (place.new ≡ place.old)
        (R.remaining reader.old) (R.remaining reader.new) result }
    ensures once { P.opened place.new ≤ P.opened place.old + 1 }
    ensures heard { IfErr result
        (λ e. (e.0 ≡ ServeFault.Input) ⊎ (R.faults reader.new ≡ R.faults reader.old)) }
    ensures input { IfErr result
        (λ e. e.0 ≡ ServeFault.Input → R.faults reader.new ≡ R.faults reader.old + 1) }
{
    let digest = match read_key(alloc, reader) {
        Ok(digest) => digest,
        Err(fault) => return Err((fault, None)),
    };
    let conn = match place.connect(alloc) {
        Ok(conn) => conn,
        Err(fault) => return Err((store_fault(fault), None)),
    };
    match SqlBook::create_in(alloc, conn, &digest) {
        Ok(book) => Ok(book),
        Err((fault, conn)) => Err((init_fault(fault, &conn), Some(conn))),
    }
}
