//! Responses: the bytes of a reply.

ghost use Rattle.std.specs.Prelude.{◌≡◌, ◌+◌, ◌<◌, ◌≤◌, ◌++◌, length, take, IfOk, IfErr, OnOk, option_map};
ghost use Rattle.std.specs.Io.KnownBytes.{Appends};
ghost use Rattle.plan_io.specs.Devices.{most_calls, HasFailed};
ghost use Rattle.plan_desk.specs.Replies.{bytes_of, reply_of};
ghost use Rattle.plan_http.specs.Routes.{method_of};
ghost use Rattle.plan_http.specs.Responses as spec;
ghost use Rattle.plan_http.specs.Responses.{response_on};

use crate::line::Line;
use crate::output::send;
use crate::routes::Route;
use http::StatusCode;
use itoa::Buffer;
use plan_desk::{Body, Reply, ReplyKind};
use plan_io::{OutputError, Sink};
use std::alloc::{AllocError, Global};

const LINE_END: &str = "\r\n";

const LAST_LINES: &str = "Connection: close\r\n\r\n";

#[tactic(auto, using(crate::proofs::PhraseLemmas::phrase_short))]
fn phrase(status: u16) -> &'static str
    ensures text { result.now ≡ spec.phrase status }
    ensures short { length result.now ≤ 31 }
{
    match StatusCode::from_u16(status) {
        Ok(status) => status.canonical_reason().unwrap_or(""),
        Err(_) => "",
    }
}

fn media_type(kind: ReplyKind) -> &'static str
    ensures text { result.now ≡ spec.media_type kind }
    ensures short { length result.now ≤ 16 }
{
    match kind {
        ReplyKind::Plain => "text/plain",
        ReplyKind::Json => "application/json",
    }
}

// The first lines of each head.
fn front_lines(status: u16, kind: ReplyKind, count: usize) -> Line
    ensures lines { result ≡ spec.front_lines status kind count }
    ensures short { length result ≤ 200 }
{
    let mut line = Line::new();
    line.push("HTTP/1.1 ");
    line.push(Buffer::new().format(status));
    line.push(" ");
    line.push(phrase(status));
    line.push(LINE_END);
    line.push("Content-Type: ");
    line.push(media_type(kind));
    line.push(LINE_END);
    line.push("Content-Length: ");
    line.push(Buffer::new().format(count));
    line.push(LINE_END);
    line
}

// Appends the line with the method of a route, if there is one.
fn push_route(line: &mut Line, route: Option<Route>)
    requires { length line.old ≤ 200 }
    ensures text { line.new ≡ line.old ++ spec.allow_line (option_map method_of route) }
    ensures len { length line.new ≤ length line.old + 15 }
{
    if let Some(route) = route {
        line.push("Allow: ");
        line.push(route.method());
        line.push(LINE_END);
    }
}

// The head of a response. The route is given if the request had another method.
fn head_of(reply: &Reply, route: Option<Route>) -> Line
    ensures text { result ≡ spec.response_head (reply_of reply.now) (option_map method_of route) }
    ensures short { length result ≤ 256 }
{
    let mut line = front_lines(reply.status, reply.kind, body_of(reply).len());
    push_route(&mut line, route);
    line.push(LAST_LINES);
    line
}

fn body_of(reply: &Reply) -> &[u8]
    ensures { result.now ≡ bytes_of reply.now.body }
{
    match &reply.body {
        Body::Fixed(text) => text.as_bytes(),
        Body::Owned(text) => text.as_bytes(),
    }
}

// The body, unless the response ends after its head.
fn sent_body(is_head: bool, body: &[u8]) -> &[u8]
    ensures { result.now ≡ spec.sent_body is_head body.now }
{
    if is_head { &[] } else { body }
}

/// Writes the response of a reply. Its head has the method of `route`, if one is given. Its body is
/// omitted if `is_head` is set. It needs no memory.
pub fn respond<W: Sink>(
    writer: &mut W,
    reply: &Reply,
    route: Option<Route>,
    is_head: bool,
) -> Result<(), OutputError>
    ensures calls { W.calls writer.new ≤ W.calls writer.old + most_calls }
    ensures written { OnOk result (Appends (W.taken writer.old) (W.taken writer.new)
        (response_on (reply_of reply.now) route is_head)) }
    ensures fine { OnOk result (W.faults writer.new ≡ W.faults writer.old) }
    ensures part { IfErr result (λ e.
        (e.sent < length (response_on (reply_of reply.now) route is_head))
        × Appends (W.taken writer.old) (W.taken writer.new)
        (take e.sent (response_on (reply_of reply.now) route is_head))) }
    ensures failed { IfErr result (λ _.
        HasFailed (W.calls writer.old) (W.calls writer.new)
        (W.faults writer.old) (W.faults writer.new)) }
{
    let head = head_of(reply, route);
    send(writer, head.as_bytes(), sent_body(is_head, body_of(reply)))
}

fn push_allow(bytes: &mut Vec<u8>, allow: Option<&str>) -> Result<(), AllocError>
    ensures { OnOk result (bytes.new.items ≡ bytes.old.items
        ++ spec.allow_line (option_map (λ method. method.now) allow.entry)) }
{
    let Some(method) = allow else {
        return Ok(());
    };
    bytes.extend_from_slice("Allow: ".as_bytes())?;
    bytes.extend_from_slice(method.as_bytes())?;
    bytes.extend_from_slice(LINE_END.as_bytes())
}

/// Returns the bytes of the response of a reply. Its head has the method `allow`, if one is given.
/// Its body is omitted if `is_head` is set.
pub fn response_bytes(
    alloc: Global,
    reply: &Reply,
    allow: Option<&str>,
    is_head: bool,
) -> Result<Vec<u8>, AllocError>
    ensures { IfOk result (λ bytes. bytes.items ≡ spec.response_text
        (reply_of reply.now) (option_map (λ method. method.now) allow.entry) is_head) }
{
    let body = body_of(reply);
    let front = front_lines(reply.status, reply.kind, body.len());
    let mut bytes = Vec::from_slice(alloc, front.as_bytes())?;
    push_allow(&mut bytes, allow)?;
    bytes.extend_from_slice(LAST_LINES.as_bytes())?;
    bytes.extend_from_slice(sent_body(is_head, body))?;
    Ok(bytes)
}
