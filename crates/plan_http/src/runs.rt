//! Runs: connections served one after another.

ghost use Rattle.std.specs.Prelude.{◌≡◌, ◌++◌, ◌∷◌, [], List, length, map, drop, vec_items, MatchResult, IfOk, OnOk, OnErr};
ghost use Rattle.plan_rows.specs.World.{Text};
ghost use Rattle.plan_http.specs.Answers.{Decision, IsOn};
ghost use Rattle.plan_http.specs.Connections.{Moves, Serving, Stops, response_of};
ghost use Rattle.plan_http.specs.Crashes.{Outlasts};
ghost use Rattle.plan_http.specs.Isolated.{IsApart};

use crate::client::Listening;
use crate::connection::{ConnEnd, serve_conn};
use crate::routes::Routes;
use plan_desk::{Book, Office};
use plan_io::{MemSink, MemSource};
use std::alloc::Global;
use thiserror::Error;

/// Memory ran out in a run.
#[derive(Debug, Clone, Copy, PartialEq, Eq, Error, Drop)]
#[error("out of memory")]
pub struct RunFault;

// Serves one connection, and returns its response.
fn response_to<B: Book>(
    alloc: Global,
    routes: &Routes,
    office: &mut Office<B>,
    conn: &[u8],
) -> Result<Vec<u8>, RunFault>
    ensures ok { IfOk result
        (λ response. (d : Decision) × IsOn conn.now d × Moves B.shelf office.old office.new d
        × (response.items ≡ response_of d)) }
    ensures err { OnErr result
        ((d : Decision) × IsOn conn.now d × Moves B.shelf office.old office.new d) }
{
    let mut client = Listening::new(MemSource::new(conn));
    let mut sink = MemSink::new(Vec::new(alloc));
    match serve_conn(alloc, routes, office, &mut client, &mut sink) {
        ConnEnd::Replied(_) => Ok(sink.into_bytes()),
        ConnEnd::ReadFailed => Err(RunFault),
        ConnEnd::WriteFailed { .. } => Err(RunFault),
    }
}

// Adds a response.
fn add(out: &mut Vec<Vec<u8>>, response: Vec<u8>) -> Result<(), RunFault>
    ensures { MatchResult result
        (λ _. map vec_items out.new.items ≡ map vec_items out.old.items ++ response.items ∷ [])
        (λ _. map vec_items out.new.items ≡ map vec_items out.old.items) }
{
    out.push(response).map_err(|_| RunFault)
}

// Serves one connection, and adds its response.
fn serve_next<B: Book>(
    alloc: Global,
    routes: &Routes,
    office: &mut Office<B>,
    conn: &[u8],
    out: &mut Vec<Vec<u8>>,
) -> Result<(), RunFault>
    ensures { MatchResult result
        (λ _. (d : Decision) × IsOn conn.now d × Moves B.shelf office.old office.new d
        × (map vec_items out.new.items ≡ map vec_items out.old.items ++ response_of d ∷ []))
        (λ _. (d : Decision) × IsOn conn.now d × Moves B.shelf office.old office.new d
        × (map vec_items out.new.items ≡ map vec_items out.old.items)) }
{
    let response = response_to(alloc, routes, office, conn)?;
    add(out, response)
}

// Serves connections one after another, and adds the response of each.
fn serve_each<B: Book>(
    alloc: Global,
    office: &mut Office<B>,
    conns: &[Vec<u8>],
    out: &mut Vec<Vec<u8>>,
) -> Result<(), RunFault>
    ensures ok { OnOk result ((decisions : List Decision)
        × Serving B.shelf office.old (map vec_items conns.now) decisions office.new
        × (map vec_items out.new.items
        ≡ map vec_items out.old.items ++ map response_of decisions)) }
    ensures err { OnErr result ((decisions : List Decision)
        × Stops B.shelf office.old office.new (map vec_items conns.now) decisions
        × (map vec_items out.new.items
        ≡ map vec_items out.old.items ++ map response_of decisions)) }
{
    let Ok(routes) = Routes::new(alloc) else {
        return Err(RunFault);
    };
    for conn in conns {
        serve_next(alloc, &routes, office, conn, out)?;
    }
    Ok(())
}

/// Serves connections one after another, and adds the response of each. If memory runs out, `out`
/// has the responses of the first connections. The office is then in the state after these, or
/// after one connection more.
///
/// No accepted command is lost by a crash: it leaves the rows after the last accepted command, or
/// these rows with one refused writing call. Each desk receives the replies of an office that has
/// its rows and no others, and each page shows what it promises. This holds unless a request of its
/// story is refused for lack of memory or by the store. Facts about rows require a disk that
/// returned what was written.
pub fn serve_run<B: Book>(
    alloc: Global,
    office: &mut Office<B>,
    conns: &[Vec<u8>],
    out: &mut Vec<Vec<u8>>,
) -> Result<(), RunFault>
    ensures ok { OnOk result ((decisions : List Decision)
        × Serving B.shelf office.old (map vec_items conns.now) decisions office.new
        × (map vec_items out.new.items
        ≡ map vec_items out.old.items ++ map response_of decisions)) }
    ensures err { OnErr result ((decisions : List Decision)
        × Stops B.shelf office.old office.new (map vec_items conns.now) decisions
        × (map vec_items out.new.items
        ≡ map vec_items out.old.items ++ map response_of decisions)) }
    ensures crash { Outlasts B.shelf office.old office.new (map vec_items conns.now)
        (drop (length out.old.items) (map vec_items out.new.items)) }
    ensures apart { B.shelf.honest office.new → (desk : Text)
        → IsApart B.shelf office.old office.new (map vec_items conns.now)
        (drop (length out.old.items) (map vec_items out.new.items)) desk }
{
    serve_each(alloc, office, conns, out)
}
