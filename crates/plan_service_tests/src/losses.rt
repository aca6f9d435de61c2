//! Requests that break off, and responses that are lost.

use crate::devices::{Drip, Narrow};
use crate::office::{
    LISTED, LISTING, NORTH_KEY, OPENED, OPENING, SIX, expect_answer, office, response, sent,
};
use plan_desk::{Book, Office};
use plan_http::{ConnEnd, Listening, Routes, serve_conn};
use plan_io::{MemSink, MemSource};
use std::alloc::Global;
use std::process::Abort;
use std::test::Fail;

// Expects that nothing is written if the reader fails before the end of an import.
fn expect_broken_off<B: Book>(
    rt: &impl Abort,
    alloc: Global,
    routes: &Routes,
    office: &mut Office<B>,
    import: &[u8],
) {
    for len in 0..import.len() {
        let mut reader = Listening::new(Drip::new(&import[..len], true));
        let mut writer = MemSink::new(Vec::new(alloc));
        let end = serve_conn(alloc, routes, office, &mut reader, &mut writer);
        assert_eq!(rt; end, ConnEnd::ReadFailed, "{len}");
        assert_eq!(rt; writer.into_bytes().len(), 0, "{len}");
    }
}

// Loses the response to an import: the writer takes `room` bytes, and then fails or takes no more.
fn expect_lost<B: Book>(
    rt: &impl Abort,
    alloc: Global,
    routes: &Routes,
    office: &mut Office<B>,
    import: &[u8],
    loss: (usize, bool),
) {
    let (room, fails) = loss;
    let mut reader = Listening::new(MemSource::new(import));
    let mut writer = Narrow::new(Vec::new(alloc), room, fails);
    let end = serve_conn(alloc, routes, office, &mut reader, &mut writer);
    assert_eq!(rt; end, ConnEnd::WriteFailed { sent: room });
    assert_eq!(rt; writer.taken().len(), room);
}

// Expects the plan with this number to be the only one.
fn expect_listed<B: Book>(
    rt: &impl Abort,
    alloc: Global,
    routes: &Routes,
    office: &mut Office<B>,
    n: usize,
) -> Result<(), Fail> {
    let listing = format!(in alloc; "{{\"plans\":[{{\"kind\":\"project\",\"n\":{n}}}]}}\n")?;
    let wanted = response(alloc, "200 OK", listing.as_str())?;
    expect_answer(rt, alloc, routes, office, LISTING, wanted.as_str());
    Ok(())
}

// Removes the plan with this number.
fn expect_removed<B: Book>(
    rt: &impl Abort,
    alloc: Global,
    routes: &Routes,
    office: &mut Office<B>,
    n: usize,
) -> Result<(), Fail> {
    let line = format!(in alloc; "DELETE /desks/north/plans/{n}")?;
    let removal = sent(alloc, line.as_str(), NORTH_KEY, "")?;
    let removed = format!(in alloc; "{{\"n\":{n}}}\n")?;
    let wanted = response(alloc, "200 OK", removed.as_str())?;
    expect_answer(rt, alloc, routes, office, removal.as_str(), wanted.as_str());
    Ok(())
}

// The length of the response to a first import, in bytes.
const IMPORTED: usize = 120;

// Loses the response after each number of its bytes, and once without an error of the writer. The
// plan is stored each time.
fn expect_each_lost<B: Book>(
    rt: &impl Abort,
    alloc: Global,
    routes: &Routes,
    office: &mut Office<B>,
    import: &[u8],
) -> Result<(), Fail> {
    for turn in 0..=IMPORTED {
        let loss = if turn < IMPORTED {
            (turn, true)
        } else {
            (0, false)
        };
        expect_lost(rt, alloc, routes, office, import, loss);
        expect_listed(rt, alloc, routes, office, turn + 1)?;
        expect_removed(rt, alloc, routes, office, turn + 1)?;
    }
    Ok(())
}

fn expect_losses<B: Book>(
    rt: &impl Abort,
    alloc: Global,
    office: &mut Office<B>,
) -> Result<(), Fail> {
    let routes = Routes::new(alloc)?;
    let import = sent(alloc, "POST /desks/north/projects", NORTH_KEY, SIX)?;
    expect_answer(rt, alloc, &routes, office, OPENING, OPENED);
    expect_broken_off(rt, alloc, &routes, office, import.as_bytes());
    expect_answer(rt, alloc, &routes, office, LISTING, LISTED);
    expect_each_lost(rt, alloc, &routes, office, import.as_bytes())
}

#[test]
fn an_import_that_breaks_off_is_none_and_one_whose_response_is_lost_stands(
    rt: HostRuntime,
) -> Result<(), Fail> {
    match office(rt.alloc()) {
        Some(mut office) => expect_losses(&rt, rt.alloc(), &mut office),
        None => panic!(rt; "no memory"),
    }
}
