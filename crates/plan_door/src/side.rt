//! The two sides of a connection of a socket, each with a deadline.

ghost use Rattle.std.specs.Prelude.{◌≡◌, ◌*◌, ◌≤◌, [], false, IfOk, IfSome};
ghost use Rattle.std.specs.Duration.{as_nanos};
ghost use Rattle.std.specs.Io.{ReadsAtMost, WritesAtMost};

use crate::first_line::FirstLine;
use crate::queue::Next;
use plan_http::{Client, Trace};
use plan_io::{DeviceFault, Sink, Tally};
use std::cell::Cell;
use std::io::{self, ErrorKind, Read, Write};
use std::net::TcpStream;
use std::time::{Duration, Instant};

// The least timeout that is set, in nanoseconds: for the system, 0 means no limit.
const LEAST: u128 = 1_000_000;

// The deadline of one side: `patience` seconds after its start, which is its first call unless
// another one is given.
#[derive(Drop)]
struct Timer<'a> {
    rt: &'a HostRuntime,
    patience: u32,
    start: Option<Instant>,
    // The timeout of the socket for its calls, if it is known.
    set: Option<Duration>,
}

impl<'a> Timer<'a> {
    // The time that is left; less than a millisecond is a timeout.
    fn left(&mut self) -> io::Result<Duration>
        ensures within { IfOk result
            (λ left. as_nanos left ≤ self.old.patience * 1_000_000_000) }
        ensures some { IfOk result (λ left. 1_000_000 ≤ as_nanos left) }
        ensures same { self.new.patience ≡ self.old.patience }
        ensures set { self.new.set ≡ self.old.set }
        ensures begun { IfSome self.old.start (λ start. self.new.start ≡ Some start) }
    {
        let now = Instant::now(self.rt)?;
        let start = self.start.unwrap_or(now);
        self.start = Some(start);
        let patience = Duration::from_secs(u64::from(self.patience));
        let left = patience.saturating_sub(now.duration_since(start));
        if left.as_nanos() < LEAST {
            return Err(io::Error::from(ErrorKind::TimedOut));
        }
        Ok(left)
    }
}

/// The socket of the connection that is served. Both of its sides use it.
pub(crate) type Socket = Cell<Option<TcpStream>>;

/// One side of a connection: the reads from a client, or the writes to it.
#[derive(Drop)]
pub struct Side<'a> {
    socket: &'a Socket,
    timer: Timer<'a>,
    tally: Tally,
    // The bytes that its reads returned, and whether their end was seen.
    received: Trace,
    is_ended: bool,
    // The bytes that its writes accepted.
    sent: Trace,
    bytes: u64,
    line: FirstLine,
    // The beginning of the turn, and the end of the last read.
    turn: Instant,
    heard: Instant,
}

// Reads bytes before the deadline.
fn read_in_time(timer: &mut Timer<'_>, stream: &TcpStream, buf: &mut [u8]) -> io::Result<usize>
    ensures { ReadsAtMost result buf.new }
{
    let left = timer.left()?;
    if timer.set != Some(left) {
        stream.set_read_timeout(Some(left))?;
        timer.set = Some(left);
    }
    let mut reader = stream;
    reader.read(buf)
}

// Writes bytes before the deadline.
fn write_in_time(timer: &mut Timer<'_>, stream: &TcpStream, bytes: &[u8]) -> io::Result<usize>
    ensures { WritesAtMost result bytes.now }
{
    let left = timer.left()?;
    if timer.set != Some(left) {
        stream.set_write_timeout(Some(left))?;
        timer.set = Some(left);
    }
    let mut writer = stream;
    writer.write(bytes)
}

// Reads from the socket before the deadline.
fn read_on(timer: &mut Timer<'_>, socket: &Socket, buf: &mut [u8]) -> io::Result<usize>
    ensures { ReadsAtMost result buf.new }
{
    let Some(stream) = socket.take() else {
        return Err(io::Error::from(ErrorKind::NotConnected));
    };
    let outcome = read_in_time(timer, &stream, buf);
    socket.set(Some(stream));
    outcome
}

// Writes to the socket before the deadline.
fn write_on(timer: &mut Timer<'_>, socket: &Socket, bytes: &[u8]) -> io::Result<usize>
    ensures { WritesAtMost result bytes.now }
{
    let Some(stream) = socket.take() else {
        return Err(io::Error::from(ErrorKind::NotConnected));
    };
    let outcome = write_in_time(timer, &stream, bytes);
    socket.set(Some(stream));
    outcome
}

impl<'a> Client for Side<'a> {
    ghost use Rattle.std.specs.Prelude.{None};
    ghost use Rattle.plan_http.specs.Clients.{Known};

    ghost calls = { λ side. side.tally.calls };

    ghost faults = { λ side. side.tally.faults };

    // The bytes that are left are unknown.
    ghost known = { λ side. record {
      heard = side.received.bytes;
      ended = side.is_ended;
      left = None;
    } };

    fn read(&mut self, buf: &mut [u8]) -> Result<usize, DeviceFault> {
        if self.is_ended {
            return self.tally.count(Ok::<usize, DeviceFault>(0));
        }
        let outcome = read_on(&mut self.timer, self.socket, buf);
        self.heard = Instant::now(self.timer.rt).unwrap_or(self.heard);
        match outcome {
            Ok(count) => {
                self.is_ended = count == 0 && !buf.is_empty();
                self.bytes = self.bytes.saturating_add(count as u64);
                self.line.push(&buf[..count]);
                self.received = self.received.with(&buf[..count]);
                self.tally.count(Ok::<usize, DeviceFault>(count))
            }
            Err(_) => self.tally.count(Err::<usize, DeviceFault>(DeviceFault)),
        }
    }
}

impl<'a> Sink for Side<'a> {
    ghost use Rattle.std.specs.Prelude.{Some};

    ghost calls = { λ side. side.tally.calls };

    ghost faults = { λ side. side.tally.faults };

    // The bytes that were sent are the bytes that its writes accepted.
    ghost taken = { λ side. Some side.sent.bytes };

    fn write(&mut self, bytes: &[u8]) -> Result<usize, DeviceFault> {
        match write_on(&mut self.timer, self.socket, bytes) {
            Ok(count) => {
                self.bytes = self.bytes.saturating_add(count as u64);
                self.sent = self.sent.with(&bytes[..count]);
                self.tally.count(Ok::<usize, DeviceFault>(count))
            }
            Err(_) => self.tally.count(Err::<usize, DeviceFault>(DeviceFault)),
        }
    }
}

/// The terms that all connections share.
#[derive(Clone, Copy)]
pub(crate) struct Terms<'a> {
    pub(crate) rt: &'a HostRuntime,
    pub(crate) socket: &'a Socket,
    /// The timeout that the connections have from the listener, if it could be set.
    pub(crate) set: Option<Duration>,
}

impl<'a> Terms<'a> {
    pub(crate) fn new(rt: &'a HostRuntime, socket: &'a Socket, set: Option<Duration>) -> Terms<'a> {
        Terms { rt, socket, set }
    }
}

fn side_of(terms: Terms<'_>, patience: u32, turn: Instant, start: Option<Instant>) -> Side<'_>
    ensures untouched { result.tally.calls ≡ 0 }
    ensures fresh { (result.received.bytes ≡ []) × (result.is_ended ≡ false)
        × (result.sent.bytes ≡ []) }
    ensures timed { result.timer.patience ≡ patience }
    ensures set { result.timer.set ≡ terms.entry.set }
{
    Side {
        socket: terms.socket,
        timer: Timer {
            rt: terms.rt,
            patience,
            start,
            set: terms.set,
        },
        tally: Tally::new(),
        received: Trace::new(),
        is_ended: false,
        sent: Trace::new(),
        bytes: 0,
        line: FirstLine::new(),
        turn,
        heard: turn,
    }
}

// Returns the two sides of the next connection before their first calls, each with a deadline of
// `patience` seconds: the reader and the writer. The time of the reader may have begun before.
pub(crate) fn both_sides(
    terms: Terms<'_>,
    next: Next,
    patience: u32,
) -> io::Result<(Side<'_>, Side<'_>)>
    ensures untouched { IfOk result
        (λ sides. (sides.0.tally.calls ≡ 0) × (sides.1.tally.calls ≡ 0)) }
    ensures fresh { IfOk result
        (λ sides. (sides.0.received.bytes ≡ []) × (sides.0.is_ended ≡ false)
        × (sides.1.sent.bytes ≡ [])) }
    ensures timed { IfOk result
        (λ sides. (sides.0.timer.patience ≡ patience) × (sides.1.timer.patience ≡ patience)) }
    ensures set { IfOk result
        (λ sides. (sides.0.timer.set ≡ terms.entry.set)
        × (sides.1.timer.set ≡ terms.entry.set)) }
{
    let turn = Instant::now(terms.rt)?;
    let start = next.start(turn, patience);
    terms.socket.set(Some(next.stream));
    Ok((
        side_of(terms, patience, turn, start),
        side_of(terms, patience, turn, None),
    ))
}

impl<'a> Side<'a> {
    // The number of bytes that were read or written.
    pub(crate) fn bytes(&self) -> u64 {
        self.bytes
    }

    // The first line of the bytes that were read.
    pub(crate) fn line(&self) -> &FirstLine {
        &self.line
    }

    // The milliseconds since the beginning of the turn.
    pub(crate) fn milliseconds(&self) -> u128 {
        match self.turn.elapsed(self.timer.rt) {
            Ok(time) => time.as_millis(),
            Err(_) => 0,
        }
    }

    // The time since the end of the last read.
    pub(crate) fn since_heard(&self) -> Duration {
        match self.heard.elapsed(self.timer.rt) {
            Ok(time) => time,
            Err(_) => Duration::from_secs(0),
        }
    }
}
