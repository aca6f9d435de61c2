//! Connections that fail among others that don't.

ghost use Rattle.std.specs.Prelude.{◌≡◌, ◌+◌, ◌≤◌, [], false, Some, IfOk};
ghost use Rattle.plan_http.specs.Clients.{IsFresh};

use crate::devices::{Drip, Narrow};
use crate::office::{LISTED, LISTING, OPENING, office};
use plan_desk::{Book, Office};
use plan_door::{ServeFault, Visitors, serve_visitors};
use plan_http::{Client, ConnEnd, Listening};
use plan_io::{DeviceFault, Sink, Tally};
use std::alloc::Global;
use std::process::Abort;
use std::test::Fail;

const EXISTS: &str =
    "HTTP/1.1 409 Conflict\r\nContent-Type: text/plain\r\nContent-Length: 16\r\nConnection: close\r\n\r\nE04 desk exists\n";

type Sides = (Listening<Drip<'static>>, Narrow);

/// Five clients: one whose connection isn't accepted, one whose request breaks off, one that closes
/// the connection within the response, and two that are answered.
#[derive(Drop)]
struct Queue {
    alloc: Global,
    turn: usize,
    answers: Vec<u8>,
    ends: [Option<ConnEnd>; 5],
    tally: Tally,
}

// Returns the two sides of a client, by its turn.
fn sides(alloc: Global, turn: usize) -> Result<Sides, DeviceFault>
    ensures untouched { IfOk result (λ both.
        (⟦<Listening<Drip<'static>> as Client>⟧.calls both.0 ≡ 0)
        × (⟦<Narrow as Sink>⟧.calls both.1 ≡ 0)) }
    ensures fresh { IfOk result (λ both.
        IsFresh (⟦<Listening<Drip<'static>> as Client>⟧.known both.0)
        × (⟦<Narrow as Sink>⟧.taken both.1 ≡ Some [])) }
{
    let (text, fails, room) = match turn {
        1 => ("POST /office/desks HTTP/1.0\r\nDesk-Key: off", true, 1000),
        2 => (OPENING, false, 10),
        3 => (OPENING, false, 1000),
        4 => (LISTING, false, 1000),
        _ => return Err(DeviceFault),
    };
    Ok((
        Listening::new(Drip::new(text.as_bytes(), fails)),
        Narrow::new(Vec::new(alloc), room, true),
    ))
}

impl Visitors for Queue {
    type Reader = Listening<Drip<'static>>;

    type Writer = Narrow;

    ghost awaited = { λ queue. queue.tally.calls };

    ghost missed = { λ queue. queue.tally.faults };

    ghost closed = { λ queue. 7 ≤ queue.turn };

    ghost admits = { λ old new _. new.tally.calls ≡ old.tally.calls + 1 };

    ghost dismisses = { λ old new _ _ _. new.tally.calls ≡ old.tally.calls };

    fn admit(&mut self) -> Result<Sides, DeviceFault> {
        let sides = sides(self.alloc, self.turn);
        self.turn = self.turn.saturating_add(1);
        self.tally.count(sides)
    }

    fn dismiss(&mut self, _reader: Listening<Drip<'static>>, writer: Narrow, end: ConnEnd) {
        let _kept = self.answers.extend_from_slice(writer.taken());
        if let Some(place) = self.ends.get_mut(self.turn.saturating_sub(1)) {
            *place = Some(end);
        }
    }

    fn is_closed(&self) -> bool {
        self.turn >= 7
    }
}

// The expected end of each client, in their order.
const ENDS: [Option<ConnEnd>; 5] = [
    None,
    Some(ConnEnd::ReadFailed),
    Some(ConnEnd::WriteFailed { sent: 10 }),
    Some(ConnEnd::Replied(409)),
    Some(ConnEnd::Replied(200)),
];

fn expect_ends<B: Book>(
    rt: &impl Abort,
    alloc: Global,
    office: &mut Office<B>,
) -> Result<(), Fail> {
    let mut queue = Queue {
        alloc,
        turn: 0,
        answers: Vec::new(alloc),
        ends: [None; 5],
        tally: Tally::new(),
    };
    let done = serve_visitors(alloc, office, &mut queue, 5);
    assert_eq!(rt; done, Ok(()));
    assert!(rt; queue.ends == ENDS);
    let answers = format!(in alloc; "HTTP/1.1 2{EXISTS}{LISTED}")?;
    assert_eq!(rt; queue.answers.as_slice(), answers.as_bytes());
    // No other client connects, and after two more turns the queue is closed.
    let done = serve_visitors(alloc, office, &mut queue, 5);
    assert_eq!(rt; done, Err(ServeFault::Socket));
    assert_eq!(rt; queue.turn, 7);
    Ok(())
}

#[test]
fn a_connection_that_fails_ends_alone(rt: HostRuntime) -> Result<(), Fail> {
    match office(rt.alloc()) {
        Some(mut office) => expect_ends(&rt, rt.alloc(), &mut office),
        None => panic!(rt; "no memory"),
    }
}
