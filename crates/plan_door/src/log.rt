//! The log of served connections.

ghost use Rattle.plan_door.specs.Logs.{IsShownMethod, IsShownRoute};

use crate::first_line::FirstLine;
use crate::side::Side;
use plan_http::{ConnEnd, Routes};
use std::alloc::AllocError;
use std::fmt;

// The text for a method or a route that is not logged.
const NONE: &str = "-";

// The end of a connection: the status of its response, or the failed device.
#[derive(Drop)]
struct Ending(ConnEnd);

impl fmt::Display for Ending {
    fn fmt<W: fmt::Write>(&self, f: &mut fmt::Formatter<W>) -> fmt::Result {
        match self.0 {
            ConnEnd::Replied(status) => write!(f, "{status}"),
            ConnEnd::ReadFailed => f.write_str("unread"),
            ConnEnd::WriteFailed { sent: _ } => f.write_str("unsent"),
        }
    }
}

// The method, if it is a method of HTTP.
fn logged_method(method: &str) -> &'static str
    ensures { IsShownMethod result.now }
{
    match method {
        "GET" => "GET",
        "HEAD" => "HEAD",
        "POST" => "POST",
        "PUT" => "PUT",
        "PATCH" => "PATCH",
        "DELETE" => "DELETE",
        "OPTIONS" => "OPTIONS",
        _ => NONE,
    }
}

// The text of the route of a target, if there is one.
fn logged_route(routes: &Routes, target: &str) -> &'static str
    ensures { IsShownRoute result.now }
{
    match routes.of(target) {
        Some(route) => route.text(),
        None => NONE,
    }
}

// The method and the route of a request. No text of a client is logged: it might be a key.
fn logged_request(routes: &Routes, line: &FirstLine) -> (&'static str, &'static str)
    ensures method { IsShownMethod result.0.now }
    ensures route { IsShownRoute result.1.now }
{
    match line.method_and_target() {
        Some((method, target)) => (logged_method(method), logged_route(routes, target)),
        None => (NONE, NONE),
    }
}

/// The log: one line on standard error for each served connection, if it is kept.
#[derive(Drop)]
pub(crate) struct Log<'a> {
    rt: &'a HostRuntime,
    routes: Option<Routes>,
}

impl<'a> Log<'a> {
    /// Returns the log.
    pub(crate) fn new(rt: &HostRuntime, is_kept: bool) -> Result<Log<'_>, AllocError> {
        let routes = if is_kept {
            Some(Routes::new(rt.alloc())?)
        } else {
            None
        };
        Ok(Log { rt, routes })
    }

    /// Writes the line of a connection: method, route, end, bytes read, bytes sent, and the
    /// milliseconds of its turn. A line that can't be written is lost.
    pub(crate) fn write(&self, reader: &Side<'_>, writer: &Side<'_>, end: ConnEnd) {
        let Some(routes) = &self.routes else {
            return;
        };
        let (method, route) = logged_request(routes, reader.line());
        let (ending, time) = (Ending(end), reader.milliseconds());
        let (read, sent) = (reader.bytes(), writer.bytes());
        let rt = self.rt;
        let _ = eprintln!(rt; "{method} {route} {ending} {read} {sent} {time}");
    }
}
