//! Two runs that a desk can't tell apart.

use crate::office::{LISTED, NORTH_KEY, OFFICE_KEY, OPENED, office, sent};
use plan_http::{Run, serve_two_worlds};
use std::alloc::{AllocError, Global};
use std::process::Abort;
use std::test::Fail;

// Returns the bytes of the request that opens a desk.
fn opening(alloc: Global, desk: &str, key: &str) -> Result<String, AllocError> {
    let body = format!(in alloc; "{{\"desk\":\"{desk}\",\"key\":\"{key}\"}}")?;
    sent(alloc, "POST /office/desks", OFFICE_KEY, body.as_str())
}

// Returns the bytes of connections.
fn bytes_of(alloc: Global, texts: &[&str]) -> Result<Vec<Vec<u8>>, AllocError> {
    let mut conns = Vec::new(alloc);
    for text in texts {
        conns.push(Vec::from_slice(alloc, text.as_bytes())?)?;
    }
    Ok(conns)
}

// Expects the last responses of a run that answered this many connections.
fn expect_last(rt: &impl Abort, run: &Run, count: usize) {
    assert_eq!(rt; run.end, Ok(()));
    assert_eq!(rt; run.responses.len(), count);
    let mut last = run.responses.iter().rev();
    for wanted in [LISTED, OPENED] {
        assert_eq!(rt;
            last.next().map(|text| text.as_slice()),
            Some(wanted.as_bytes())
        );
    }
}

#[test]
fn a_desk_receives_the_same_responses_beside_another_desk(rt: HostRuntime) -> Result<(), Fail> {
    let alloc = rt.alloc();
    let (Some(mut first), Some(mut second)) = (office(alloc), office(alloc)) else {
        panic!(rt; "no memory");
    };
    let north = opening(alloc, "north", NORTH_KEY)?;
    let south = opening(alloc, "south", "south-key-1")?;
    let listing = sent(alloc, "GET /desks/north/plans", NORTH_KEY, "")?;
    let conns = bytes_of(alloc, &[north.as_str(), listing.as_str()])?;
    let others = bytes_of(alloc, &[south.as_str(), north.as_str(), listing.as_str()])?;
    let runs = serve_two_worlds(alloc, &mut first, &mut second, &conns, &others);
    expect_last(&rt, &runs.first, 2);
    expect_last(&rt, &runs.second, 3);
    Ok(())
}
