//! Phrases of statuses, and responses to writers that fail.

use crate::devices::Narrow;
use plan_desk::{Body, Reply, ReplyKind};
use plan_http::{respond, response_bytes};
use plan_io::OutputError;
use std::test::Fail;

fn reply(status: u16, kind: ReplyKind, body: &'static str) -> Reply {
    Reply {
        status,
        kind,
        body: Body::Fixed(body),
    }
}

const WRONG_KEY: &str =
    "HTTP/1.1 403 Forbidden\r\nContent-Type: text/plain\r\nContent-Length: 8\r\nConnection: close\r\n\r\nE01 key\n";

#[test]
fn each_status_has_its_phrase(rt: HostRuntime) -> Result<(), Fail> {
    let alloc = rt.alloc();
    for (status, phrase) in [
        (200, "OK"),
        (201, "Created"),
        (400, "Bad Request"),
        (403, "Forbidden"),
        (404, "Not Found"),
        (405, "Method Not Allowed"),
        (409, "Conflict"),
        (413, "Payload Too Large"),
        (422, "Unprocessable Entity"),
        (501, "Not Implemented"),
        (503, "Service Unavailable"),
        (507, "Insufficient Storage"),
    ] {
        let bytes = response_bytes(alloc, &reply(status, ReplyKind::Plain, ""), None, false)?;
        let text = format!(in alloc; "HTTP/1.1 {status} {phrase}\r\nContent-Type: text/plain\r\n")?;
        assert!(&rt; bytes.starts_with(text.as_bytes()), "{status}");
    }
    Ok(())
}

#[test]
fn a_writer_that_fails_took_a_front(rt: HostRuntime) -> Result<(), Fail> {
    let alloc = rt.alloc();
    let reply = reply(403, ReplyKind::Plain, "E01 key\n");
    for room in [0, 1, 10, 89, 90, 91, 97] {
        let mut sink = Narrow::new(Vec::new(alloc), room, true);
        let end = respond(&mut sink, &reply, None, false);
        assert_eq!(&rt; end, Err(OutputError { sent: room }));
        assert_eq!(&rt; sink.taken(), &WRONG_KEY.as_bytes()[..room], "{room}");
    }
    Ok(())
}

#[test]
fn a_writer_that_takes_nothing_is_given_up(rt: HostRuntime) -> Result<(), Fail> {
    let alloc = rt.alloc();
    let reply = reply(403, ReplyKind::Plain, "E01 key\n");
    let mut sink = Narrow::new(Vec::new(alloc), 10, false);
    assert_eq!(&rt;
        respond(&mut sink, &reply, None, false),
        Err(OutputError { sent: 10 })
    );
    Ok(())
}
