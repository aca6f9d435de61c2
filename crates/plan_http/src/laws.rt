//! Laws of connections. Proofs in the crates above cite the contracts.

ghost use Rattle.plan_http.specs.Laws.{OneVerdict, SpellsSomething, ServingIsRun, ServedDesksAreApart};
ghost use Rattle.plan_http.specs.RouteLaws.{RoutesAreThese};

use crate::client::Listening;
use crate::head::{FIELD_LIMIT, HEAD_LIMIT, read_head};
use httparse::spans::EMPTY_HEADER_SPAN;
use plan_desk::Book;
use plan_io::MemSource;

/// The bytes of a connection spell at most one request or failing check.
pub fn one_verdict()
    ensures verdict { OneVerdict }
{}

/// The bytes of a connection spell a request or a failing check. The function only looks for the
/// head.
pub fn some_verdict(bytes: &[u8])
    ensures { SpellsSomething bytes.now }
{
    let mut buf = [0; HEAD_LIMIT];
    let mut headers = [EMPTY_HEADER_SPAN; FIELD_LIMIT];
    let mut client = Listening::new(MemSource::new(bytes));
    read_head(&mut client, &mut buf, 0, &mut headers);
}

/// A target has a route exactly if it is plain and its segments are those of the route's text,
/// where a name in braces stands for any segment but the empty one. The statement doesn't mention
/// the table of routes.
pub fn routes_are_these()
    ensures { RoutesAreThese }
{}

/// The requests that an office handles on any connections are a run of the office. This holds if
/// the tables are readable at the end and the disk returned what was written. So each desk receives
/// the replies of an office that has its rows and no others. This ends with the first refusal of
/// its story for lack of memory or by the store.
pub fn served_desks_are_apart<B: Book>()
    ensures run { ServingIsRun B.shelf }
    ensures apart { ServedDesksAreApart B.shelf }
{}
