//! Connections whose bytes arrive one by one.

use crate::devices::Drip;
use plan_http::{Asked, Check, Listening, Routes, read_request};
use std::test::Fail;

#[test]
fn what_follows_a_request_is_left(rt: HostRuntime) -> Result<(), Fail> {
    let alloc = rt.alloc();
    let routes = Routes::new(alloc)?;
    for bytes in [
        "GET /desks/north/plans HTTP/1.0\r\n\r\nNEXT",
        "POST /office/desks HTTP/1.0\r\nContent-Length: 4\r\n\r\n1234NEXT",
        "DELETE /desks/north/plans/1 HTTP/1.0\r\nContent-Length: 0\r\n\r\nNEXT",
    ] {
        let mut client = Listening::new(Drip::new(bytes.as_bytes(), true));
        let asked = read_request(alloc, &routes, &mut client);
        assert!(&rt; matches!(&asked, Asked::Request(_)), "{bytes}");
        assert_eq!(&rt; client.source().left(), "NEXT".as_bytes(), "{bytes}");
    }
    Ok(())
}

#[test]
fn a_bad_head_is_answered_at_once(rt: HostRuntime) -> Result<(), Fail> {
    let alloc = rt.alloc();
    let routes = Routes::new(alloc)?;
    for (bytes, left, failing) in [
        ("GET\x01 and so on", " and so on", Check::Message),
        ("GET /a HTTP/2.0\r\n\r\n", ".0\r\n\r\n", Check::Message),
        ("GET /a HTTP/1.1\r\n\r\nmore", "more", Check::Message),
        (
            "PUT / HTTP/1.0\r\nContent-Length: x\r\n\r\nmore",
            "more",
            Check::Message,
        ),
        (
            "PUT / HTTP/1.0\r\nContent-Length: 1048577\r\n\r\nmore",
            "more",
            Check::TooLarge,
        ),
        (
            "PUT / HTTP/1.0\r\nTransfer-Encoding: a\r\n\r\nmore",
            "more",
            Check::Coding,
        ),
    ] {
        let mut client = Listening::new(Drip::new(bytes.as_bytes(), true));
        let asked = read_request(alloc, &routes, &mut client);
        let told = match &asked {
            Asked::Fails { check, .. } => Some(*check),
            _ => None,
        };
        assert_eq!(&rt; told, Some(failing), "{bytes}");
        assert_eq!(&rt; client.source().left(), left.as_bytes(), "{bytes}");
    }
    Ok(())
}

#[test]
fn a_reader_that_fails_before_the_end_is_told(rt: HostRuntime) -> Result<(), Fail> {
    let alloc = rt.alloc();
    let routes = Routes::new(alloc)?;
    let whole = "POST /office/desks HTTP/1.0\r\nContent-Length: 4\r\n\r\n1234".as_bytes();
    for len in 0..whole.len() {
        let mut client = Listening::new(Drip::new(&whole[..len], true));
        let asked = read_request(alloc, &routes, &mut client);
        assert!(&rt; matches!(&asked, Asked::ReadFailed), "{len}");
        let mut client = Listening::new(Drip::new(&whole[..len], false));
        let asked = read_request(alloc, &routes, &mut client);
        assert!(&rt;
            matches!(
                &asked,
                Asked::Fails {
                    check: Check::Message,
                    ..
                }
            ),
            "{len}"
        );
    }
    Ok(())
}
