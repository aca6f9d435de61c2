//! A request for each route, while one allocation may fail (`tests/refusals/run` lets each fail in
//! turn). The request is answered, or refused for lack of memory; then nothing has changed, and the
//! same request is answered as with ample memory.

use crate::office::{NORTH_KEY, OFFICE_KEY, SIX, office, sent};
use plan_desk::{Body, Book, Office, Reply, Request};
use plan_http::{Asked, Listening, Routes, read_request};
use plan_io::MemSource;
use std::alloc::{AllocError, Global};
use std::process::Abort;
use std::test::Fail;

// Two jobs of two steps on two machines.
const TWO_BY_TWO: &str = "2 2
0 4 1 1
0 1 1 3
";

const CALENDAR: &str = "{\"days\":\"1111100\",\"start\":\"2024-03-01\"}\n";

const DATES: &str = " act       d      ES      EF      LS      LF      TF      FF
   1       0       0       0       0       0       0       0 *
   2       3       0       3       0       3       0       0 *
   3       2       0       2       3       5       3       0
   4       4       5       9       5       9       0       0 *
   5       3       2       5       6       9       4       4
   6       0       9       9       9       9       0       0 *
T 9
";

const TABLE: &str = " act       d   start     end
   1       0       0       0
   2       3       0       3
   3       2       0       2
   4       4       5       9
   5       3       2       5
   6       0       9       9
makespan 9
";

const CHART: &str = "unit 1
   1 |.........|
   2 |###......|
   3 |##.......|
   4 |.....####|
   5 |..###....|
   6 |.........|
";

const DAYS: &str = " act       first        last
   1           -           -
   2  2024-03-01  2024-03-05
   3  2024-03-01  2024-03-04
   4  2024-03-08  2024-03-13
   5  2024-03-05  2024-03-07
   6           -           -
";

const BEST: &str = "optimal 9
 act       d   start     end
   1       0       0       0
   2       3       0       3
   3       2       0       2
   4       4       5       9
   5       3       2       5
   6       0       9       9
makespan 9
";

const BEST_SHOP: &str = "optimal 6
 job    step    mach       d   start     end
   1       1       0       4       1       5
   1       2       1       1       5       6
   2       1       0       1       0       1
   2       2       1       3       1       4
makespan 6
";

// A request and its reply: the method and target, the key, the body; the status, the body.
type Exchange = (&'static str, &'static str, &'static str, u16, &'static str);

// The requests: three with the key of the office, then those of the desk.
const EXCHANGES: [Exchange; 18] = [
    (
        "POST /office/capacities",
        OFFICE_KEY,
        "{\"code\":\"crew-a\",\"kind\":\"crew\",\"capacity\":2}",
        200,
        "{\"capacity\":2,\"code\":\"crew-a\",\"kind\":\"crew\"}\n",
    ),
    (
        "POST /office/desks",
        OFFICE_KEY,
        "{\"desk\":\"north\",\"key\":\"password\"}",
        201,
        "{\"desk\":\"north\"}\n",
    ),
    (
        "POST /office/desks/north/key",
        OFFICE_KEY,
        "{\"key\":\"north-key-1\"}",
        200,
        "{\"desk\":\"north\"}\n",
    ),
    (
        "GET /desks/north/capacities",
        NORTH_KEY,
        "",
        200,
        "{\"capacities\":[{\"capacity\":2,\"code\":\"crew-a\",\"kind\":\"crew\"}]}\n",
    ),
    (
        "GET /desks/north/plans",
        NORTH_KEY,
        "",
        200,
        "{\"plans\":[]}\n",
    ),
    (
        "POST /desks/north/projects",
        NORTH_KEY,
        SIX,
        201,
        "{\"kind\":\"project\",\"n\":1}\n",
    ),
    (
        "POST /desks/north/shops/-",
        NORTH_KEY,
        TWO_BY_TWO,
        201,
        "{\"kind\":\"shop\",\"n\":2}\n",
    ),
    (
        "POST /desks/north/plans/1/bind",
        NORTH_KEY,
        "{\"code\":\"crew-a\",\"place\":1}",
        200,
        "{\"code\":\"crew-a\",\"place\":1}\n",
    ),
    (
        "POST /desks/north/plans/1/calendar",
        NORTH_KEY,
        CALENDAR,
        200,
        CALENDAR,
    ),
    (
        "POST /desks/north/plans/1/lag",
        NORTH_KEY,
        "{\"from\":2,\"to\":4,\"lag\":2}",
        200,
        "{\"from\":2,\"lag\":2,\"to\":4}\n",
    ),
    ("GET /desks/north/plans/1/dates", NORTH_KEY, "", 200, DATES),
    (
        "GET /desks/north/plans/1/schedule/lft",
        NORTH_KEY,
        "",
        200,
        TABLE,
    ),
    (
        "GET /desks/north/plans/1/chart/lft",
        NORTH_KEY,
        "",
        200,
        CHART,
    ),
    (
        "GET /desks/north/plans/1/days/lft",
        NORTH_KEY,
        "",
        200,
        DAYS,
    ),
    (
        "GET /desks/north/plans/1/best/200",
        NORTH_KEY,
        "",
        200,
        BEST,
    ),
    (
        "GET /desks/north/plans/2/best/200",
        NORTH_KEY,
        "",
        200,
        BEST_SHOP,
    ),
    (
        "POST /desks/north/projects",
        NORTH_KEY,
        "",
        422,
        "E10 F3 line 0\n",
    ),
    (
        "DELETE /desks/north/plans/1",
        NORTH_KEY,
        "",
        200,
        "{\"n\":1}\n",
    ),
];

// Returns the request of a connection, or none if memory runs out.
fn read(rt: &impl Abort, alloc: Global, routes: &Routes, conn: &str) -> Option<Request> {
    let mut client = Listening::new(MemSource::new(conn.as_bytes()));
    match read_request(alloc, routes, &mut client) {
        Asked::Request(request) => Some(request),
        Asked::NoMemory => None,
        _ => panic!(rt; "no request: {conn}"),
    }
}

// Returns the body of a reply.
fn body_of(reply: &Reply) -> &str {
    match &reply.body {
        Body::Fixed(text) => text,
        Body::Owned(text) => text.as_str(),
    }
}

// Expects the answer to a request, at its second try if memory runs out at the first.
fn settle<B: Book>(
    rt: &impl Abort,
    office: &mut Office<B>,
    request: &Request,
    status: u16,
    answer: &str,
) {
    let mut reply = office.handle(request);
    if reply.status == 503 {
        assert_eq!(rt; body_of(&reply), "E90 memory\n");
        reply = office.handle(request);
    }
    assert_eq!(rt; body_of(&reply), answer);
    assert_eq!(rt; reply.status, status);
}

// Returns the bytes of a request, at the second try if memory runs out at the first.
fn conn_of(alloc: Global, exchange: &Exchange) -> Result<String, AllocError> {
    let (line, key, body, _, _) = *exchange;
    match sent(alloc, line, key, body) {
        Ok(conn) => Ok(conn),
        Err(_) => sent(alloc, line, key, body),
    }
}

// Returns the request of a connection, at the second try if memory runs out at the first.
fn request_of(rt: &impl Abort, alloc: Global, routes: &Routes, conn: &str) -> Option<Request> {
    match read(rt, alloc, routes, conn) {
        Some(request) => Some(request),
        None => read(rt, alloc, routes, conn),
    }
}

// Expects a request to be read and answered, with a second try for each step.
fn expect_exchange<B: Book>(
    rt: &impl Abort,
    alloc: Global,
    routes: &Routes,
    office: &mut Office<B>,
    exchange: &Exchange,
) -> Result<(), AllocError> {
    let conn = conn_of(alloc, exchange)?;
    match request_of(rt, alloc, routes, conn.as_str()) {
        Some(request) => settle(rt, office, &request, exchange.3, exchange.4),
        None => return Err(AllocError),
    }
    Ok(())
}

fn routes_of(alloc: Global) -> Result<Routes, AllocError> {
    match Routes::new(alloc) {
        Ok(routes) => Ok(routes),
        Err(_) => Routes::new(alloc),
    }
}

fn expect_all<B: Book>(rt: &impl Abort, alloc: Global, office: &mut Office<B>) -> Result<(), Fail> {
    let routes = routes_of(alloc)?;
    for exchange in &EXCHANGES {
        expect_exchange(rt, alloc, &routes, office, exchange)?;
    }
    Ok(())
}

#[test]
fn each_route(rt: HostRuntime) -> Result<(), Fail> {
    let alloc = rt.alloc();
    match office(alloc).or_else(|| office(alloc)) {
        Some(mut office) => expect_all(&rt, alloc, &mut office),
        None => panic!(rt; "no memory"),
    }
}
