//! Connections: one request and its response.

ghost use Rattle.std.specs.Prelude.{◌≡◌, ◌+◌, ◌≤◌, Option, option_map};
ghost use Rattle.plan_rows.specs.World.{World};
ghost use Rattle.plan_io.specs.Devices.{most_calls};
ghost use Rattle.plan_desk.specs.declared.reply.ReplyKind.TheVariants.{Plain};
ghost use Rattle.plan_desk.specs.Replies.{reply_of};
ghost use Rattle.plan_http.specs.Routes.{method_of};
ghost use Rattle.plan_http.specs.Answers as spec;
ghost use Rattle.plan_http.specs.Connections.{Responds, ReaderFaults, WriterFaults, Ends};
ghost use Rattle.plan_http.specs.Crashes.{LeavesOne};

use crate::checks::Check;
use crate::client::Client;
use crate::request::{Asked, read_request};
use crate::response::respond;
use crate::routes::{Route, Routes};
use plan_desk::{Body, Book, Office, Reply, ReplyKind};
use plan_io::Sink;
use std::alloc::Global;

/// The end of a connection.
#[derive(Debug, Clone, Copy, PartialEq, Eq, Drop)]
pub enum ConnEnd {
    /// A response with this status was written completely.
    Replied(u16),
    /// The reader failed: nothing was decided or written.
    ReadFailed,
    /// The writer failed after the decision. Only the first bytes of the response were written.
    WriteFailed {
        /// The number of bytes that were written.
        sent: usize,
    },
}

fn refusal(status: u16, line: &'static str) -> Reply
    ensures { reply_of result ≡ record { status = status; kind = Plain; body = line.now } }
{
    Reply {
        status,
        kind: ReplyKind::Plain,
        body: Body::Fixed(line),
    }
}

// The reply to a connection that fails a check.
fn check_reply(check: Check) -> Reply
    ensures { reply_of result ≡ spec.check_reply check }
{
    match check {
        Check::Message => refusal(400, "H1 message\n"),
        Check::TooLarge => refusal(413, "H2 too large\n"),
        Check::Coding => refusal(501, "H3 coding\n"),
        Check::Route => refusal(404, "H4 route\n"),
        Check::Method => refusal(405, "H5 method\n"),
    }
}

fn no_memory() -> Reply
    ensures { reply_of result ≡ spec.no_memory }
{
    refusal(503, "E90 memory\n")
}

// Writes the response of a reply.
#[tactic(auto, unfolding(crate::specs::Answers::text_of))]
fn answer<W: Sink>(writer: &mut W, reply: &Reply, route: Option<Route>, is_head: bool) -> ConnEnd
    ensures responds { Responds (W.taken writer.old) (W.taken writer.new) (record {
      reply = reply_of reply.now;
      allow = option_map method_of route;
      is_head = is_head;
    }) result }
    ensures calls { W.calls writer.new ≤ W.calls writer.old + most_calls }
    ensures faults { WriterFaults (W.calls writer.old) (W.calls writer.new)
        (W.faults writer.old) (W.faults writer.new) result }
{
    match respond(writer, reply, route, is_head) {
        Ok(()) => ConnEnd::Replied(reply.status),
        Err(e) => ConnEnd::WriteFailed { sent: e.sent },
    }
}

/// Serves one connection: reads its request, handles it, and writes the response. A request that
/// fails a check gets the response of the first failing check. If memory runs out before the
/// decision, a request that passes the checks of its head and its route gets a response too.
pub fn serve_conn<R: Client, W: Sink, B: Book>(
    alloc: Global,
    routes: &Routes,
    office: &mut Office<B>,
    reader: &mut R,
    writer: &mut W,
) -> ConnEnd
    ensures ends { Ends B.shelf office.old office.new (R.known reader.old) (R.known reader.new)
        (W.taken writer.old) (W.taken writer.new) result }
    ensures crash { B.shelf.honest office.new → (left : Option World)
        → B.shelf.may_leave office.new left
        → LeavesOne B.shelf office.old office.new (R.known reader.old) (R.known reader.new) left }
    ensures reads { R.calls reader.new ≤ R.calls reader.old + most_calls }
    ensures writes { W.calls writer.new ≤ W.calls writer.old + most_calls }
    ensures reader_faults { ReaderFaults (R.faults reader.old) (R.faults reader.new) result }
    ensures writer_faults { WriterFaults (W.calls writer.old) (W.calls writer.new)
        (W.faults writer.old) (W.faults writer.new) result }
{
    match read_request(alloc, routes, reader) {
        Asked::Request(request) => {
            let reply = office.handle(&request);
            answer(writer, &reply, None, false)
        }
        Asked::Fails {
            check,
            route,
            is_head,
        } => answer(writer, &check_reply(check), route, is_head),
        Asked::NoMemory => answer(writer, &no_memory(), None, false),
        Asked::ReadFailed => ConnEnd::ReadFailed,
    }
}
