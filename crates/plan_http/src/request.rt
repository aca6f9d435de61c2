//! Requests, read from the bytes of a connection.

ghost use Rattle.std.specs.Prelude.{◌≡◌, ℕ, ◌+◌, ◌<◌, ◌≤◌, List, Some, None, bytes_eq, IfOk, option_map, length, take, All, codes};
ghost use Rattle.httparse.specs.Grammar.{RequestHead};
ghost use Rattle.httparse.specs.Spans.{IsWithin, IsHeaderWithin, span_bytes};
ghost use Rattle.httparse.specs.Spans.{IsRequestWithin, IsRequestAt};
ghost use Rattle.plan_io.specs.Devices.{most_calls};
ghost use Rattle.plan_desk.specs.Requests.{request_in};
ghost use Rattle.plan_http.specs.Checks.{longest_body};
ghost use Rattle.plan_http.specs.Fields.{fields_in, values_of, only_of};
ghost use Rattle.plan_http.specs.Head.{BeginsWithHead};
ghost use Rattle.plan_http.specs.Clients.{OfBytes};
ghost use Rattle.plan_http.specs.Pieces.{Reads, IsSplit};
ghost use Rattle.plan_http.specs.Targets as targets;
ghost use Rattle.plan_http.specs.declared.request.Asked.TheVariants as made;
ghost use Rattle.plan_http.specs.Asked.{IsAsked, AskedFaults, IsRequestOr, IsRefused};
ghost use Rattle.plan_http.specs.Asked.{IsPassed, IsOnRoute};

use crate::body::{BodyEnd, read_body, skip_body};
use crate::calls::call_at;
use crate::checks::{Check, check_head};
use crate::client::Client;
use crate::fields::only_value;
use crate::head::{FIELD_LIMIT, HEAD_LIMIT, HeadEnd, Judged, fill, judge_head, read_head};
use crate::routes::{Route, Routes};
use httparse::spans::{EMPTY_HEADER_SPAN, HeaderSpan, RequestSpans};
use plan_desk::Request;
use std::alloc::{AllocError, Global};

/// The result of reading a request.
#[derive(Debug, Drop)]
pub enum Asked {
    /// A request.
    Request(Request),
    /// The first check that the bytes fail.
    Fails {
        check: Check,
        /// The route, if the request has another method than the route.
        route: Option<Route>,
        /// Whether the response ends after its head.
        is_head: bool,
    },
    /// Memory ran out, for a request that passes the checks of its head and its route.
    NoMemory,
    /// The reader failed.
    ReadFailed,
}

// The result for a failed check without a route.
fn fails(check: Check, is_head: bool) -> Asked
    ensures { result ≡ made.Fails check None is_head }
{
    Asked::Fails {
        check,
        route: None,
        is_head,
    }
}

// The key that was sent: the value of the `Desk-Key` field, if there is exactly one.
fn key_in(
    alloc: Global,
    front: &[u8],
    headers: &[HeaderSpan],
) -> Result<Option<Vec<u8>>, AllocError>
    requires { All (IsHeaderWithin (length front.now)) headers.now }
    ensures { IfOk result (λ key. option_map (λ key. key.items) key
        ≡ only_of (values_of (codes "desk-key") (fields_in front.now headers.now))) }
{
    match only_value(front, headers, "desk-key") {
        Some(key) => Ok(Some(Vec::from_slice(alloc, key)?)),
        None => Ok(None),
    }
}

fn request_at(
    alloc: Global,
    front: &[u8],
    headers: &[HeaderSpan],
    route: Route,
    target: &str,
    body: Vec<u8>,
) -> Result<Request, AllocError>
    requires { All (IsHeaderWithin (length front.now)) headers.now }
    ensures { IfOk result (λ request. request_in request ≡ record {
      key = only_of (values_of (codes "desk-key") (fields_in front.now headers.now));
      call = targets.call_at route target.now body.items;
    }) }
{
    Ok(Request {
        key: key_in(alloc, front, headers)?,
        call: call_at(alloc, route, target, body)?,
    })
}

// Returns the request of a route with a complete body.
fn whole_request(
    alloc: Global,
    front: &[u8],
    headers: &[HeaderSpan],
    route: Route,
    target: &str,
    body: Vec<u8>,
) -> Asked
    requires { All (IsHeaderWithin (length front.now)) headers.now }
    ensures faults { AskedFaults 0 0 result }
    ensures made { IsRequestOr (record {
      key = only_of (values_of (codes "desk-key") (fields_in front.now headers.now));
      call = targets.call_at route target.now body.items;
    }) result }
{
    match request_at(alloc, front, headers, route, target, body) {
        Ok(request) => Asked::Request(request),
        Err(_) => Asked::NoMemory,
    }
}

// Reads and discards the body of a request that fails a check of its route. An incomplete body is
// reported first.
fn refuse<R: Client>(
    reader: &mut R,
    got: &[u8],
    count: u32,
    is_head: bool,
    check: Check,
    route: Option<Route>,
) -> Asked
    ensures refused { Reads (R.known reader.old) (R.known reader.new)
        (λ had _. (after : List ℕ) → IsSplit after got.now had
        → IsRefused after count check route is_head result) }
    ensures calls { R.calls reader.new ≤ R.calls reader.old + count }
    ensures faults { AskedFaults (R.faults reader.old) (R.faults reader.new) result }
{
    match skip_body(reader, got, count) {
        Ok(true) => Asked::Fails {
            check,
            route,
            is_head,
        },
        Ok(false) => fails(Check::Message, is_head),
        Err(_) => Asked::ReadFailed,
    }
}

// Reads the body of a request on a route, and returns the request.
fn accept<R: Client>(
    alloc: Global,
    reader: &mut R,
    front: &[u8],
    headers: &[HeaderSpan],
    spans: &RequestSpans,
    count: u32,
    route: Route,
    target: &str,
) -> Asked
    requires within { IsRequestWithin front.now headers.now spans.now }
    ensures asked { Reads (R.known reader.old) (R.known reader.new)
        (λ had _. (bytes : List ℕ) (h : RequestHead) → BeginsWithHead bytes h
        → IsRequestAt front.now headers.now spans.now h → IsSplit bytes front.now had
        → IsOnRoute h count route target.now → IsAsked bytes result) }
    ensures calls { R.calls reader.new ≤ R.calls reader.old + count }
    ensures faults { AskedFaults (R.faults reader.old) (R.faults reader.new) result }
{
    match read_body(alloc, reader, &front[spans.len..], count) {
        BodyEnd::Read(body) => {
            whole_request(alloc, front, &headers[..spans.headers], route, target, body)
        },
        BodyEnd::Short => fails(Check::Message, is_head(front, spans)),
        BodyEnd::NoMemory => Asked::NoMemory,
        BodyEnd::Failed => Asked::ReadFailed,
    }
}

// Whether the method is HEAD.
fn is_head(front: &[u8], spans: &RequestSpans) -> bool
    requires { IsWithin (length front.now) spans.now.method }
    ensures { result ≡ bytes_eq (span_bytes front.now spans.now.method) (codes "HEAD") }
{
    spans.method.of(front) == "HEAD".as_bytes()
}

// The target of a head. It is valid UTF-8 in each head that was parsed.
fn target_of<'a>(front: &'a [u8], headers: &[HeaderSpan], spans: &RequestSpans) -> Option<&'a str>
    requires within { IsRequestWithin front.now headers.now spans.now }
    ensures target { (h : RequestHead) → IsRequestAt front.now headers.now spans.now h
        → option_map (λ text. text.now) result ≡ Some h.target }
{
    match str::from_utf8(spans.path.of(front)) {
        Ok(target) => Some(target),
        Err(_) => None,
    }
}

// Checks the route and its method, and then reads the bytes behind the head.
fn on_target<R: Client>(
    alloc: Global,
    routes: &Routes,
    reader: &mut R,
    front: &[u8],
    headers: &[HeaderSpan],
    spans: &RequestSpans,
    count: u32,
) -> Asked
    requires within { IsRequestWithin front.now headers.now spans.now }
    ensures asked { Reads (R.known reader.old) (R.known reader.new)
        (λ had _. (bytes : List ℕ) (h : RequestHead) → BeginsWithHead bytes h
        → IsRequestAt front.now headers.now spans.now h → IsSplit bytes front.now had
        → IsPassed h count → IsAsked bytes result) }
    ensures calls { R.calls reader.new ≤ R.calls reader.old + count }
    ensures faults { AskedFaults (R.faults reader.old) (R.faults reader.new) result }
{
    let got = &front[spans.len..];
    let is_head = is_head(front, spans);
    let Some(target) = target_of(front, headers, spans) else {
        return refuse(reader, got, count, is_head, Check::Route, None);
    };
    let Some(route) = routes.of(target) else {
        return refuse(reader, got, count, is_head, Check::Route, None);
    };
    if spans.method.of(front) != route.method().as_bytes() {
        return refuse(reader, got, count, is_head, Check::Method, Some(route));
    }
    accept(alloc, reader, front, headers, spans, count, route, target)
}

// Checks the head, and then reads the request. `front` has all bytes that were read so far.
fn behind_head<R: Client>(
    alloc: Global,
    routes: &Routes,
    reader: &mut R,
    front: &[u8],
    headers: &[HeaderSpan],
    spans: &RequestSpans,
) -> Asked
    requires within { IsRequestWithin front.now headers.now spans.now }
    ensures asked { Reads (R.known reader.old) (R.known reader.new)
        (λ had _. (bytes : List ℕ) (h : RequestHead) → BeginsWithHead bytes h
        → IsRequestAt front.now headers.now spans.now h → IsSplit bytes front.now had
        → IsAsked bytes result) }
    ensures calls { R.calls reader.new ≤ R.calls reader.old + longest_body }
    ensures faults { AskedFaults (R.faults reader.old) (R.faults reader.new) result }
{
    match check_head(front, &headers[..spans.headers], spans.version) {
        Ok(count) => on_target(alloc, routes, reader, front, headers, spans, count),
        Err(check) => fails(check, is_head(front, spans)),
    }
}

// The number of bytes of the first read: most requests fit. A buffer is set to zero first.
const FRONT: usize = 1024;

// Copies the first bytes of a head to the buffer for all of them.
fn copy_front(buf: &mut [u8], front: &[u8])
    requires { length front.now ≤ length buf.old }
    ensures same { length buf.new ≡ length buf.old }
    ensures copied { take (length front.now) buf.new ≡ front.now }
{
    buf[..front.len()].copy_from_slice(front);
}

// Reads a head whose first bytes were read, and then the request.
fn behind_front<R: Client>(
    alloc: Global,
    routes: &Routes,
    reader: &mut R,
    front: &[u8],
    headers: &mut [HeaderSpan],
) -> Asked
    requires room { length front.now < 8192 }
    requires fields { length headers.old ≡ 64 }
    ensures asked { Reads (R.known reader.old) (R.known reader.new)
        (λ had _. (bytes : List ℕ) → IsSplit bytes front.now had → IsAsked bytes result) }
    ensures calls { R.calls reader.new ≤ R.calls reader.old + 8193 + longest_body }
    ensures faults { AskedFaults (R.faults reader.old) (R.faults reader.new) result }
{
    let mut buf = [0; HEAD_LIMIT];
    copy_front(&mut buf, front);
    match read_head(reader, &mut buf, front.len(), headers) {
        HeadEnd::Found(spans, filled) => {
            behind_head(alloc, routes, reader, &buf[..filled], headers, &spans)
        }
        HeadEnd::Missing => fails(Check::Message, false),
        HeadEnd::Failed => Asked::ReadFailed,
    }
}

/// Reads the request of a connection, or returns its first failing check. It parses after each
/// read. It reads on only while the head is incomplete, or if the head passes its checks and the
/// body is incomplete. The body of a request without a route is read without memory.
pub fn read_request<R: Client>(alloc: Global, routes: &Routes, reader: &mut R) -> Asked
    ensures asked { OfBytes (R.known reader.old) (R.known reader.new)
        (λ bytes. IsAsked bytes result) }
    ensures calls { R.calls reader.new ≤ R.calls reader.old + most_calls }
    ensures faults { AskedFaults (R.faults reader.old) (R.faults reader.new) result }
{
    let mut front = [0; FRONT];
    let mut headers = [EMPTY_HEADER_SPAN; FIELD_LIMIT];
    let Ok(came) = fill(reader, &mut front, 0) else {
        return Asked::ReadFailed;
    };
    let front = &front[..came];
    match judge_head(front, came == 0, &mut headers) {
        Judged::Whole(spans) => behind_head(alloc, routes, reader, front, &headers, &spans),
        Judged::Hopeless => fails(Check::Message, false),
        Judged::Unfinished => behind_front(alloc, routes, reader, front, &mut headers),
    }
}
