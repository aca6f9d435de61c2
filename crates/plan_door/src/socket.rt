//! The connections of a socket.

ghost use Rattle.std.specs.Prelude.{◌≡◌, ◌⊎◌, ◌↔◌, ◌+◌, ◌*◌, ◌<◌, ◌≤◌, [], false, List, length, IsTrue, IfOk, IfSome, OnOk, IsErrOf, IfErr};
ghost use Rattle.std.specs.Duration.{as_nanos};
ghost use Rattle.plan_http.specs.Answers.{Decision};
ghost use Rattle.plan_door.specs.Serve.{MovedBy};
ghost use Rattle.plan_door.specs.Turns.{Turn, misses_in, Runs};

use crate::fault::ServeFault;
use crate::log::Log;
use crate::queue::{Next, Queue};
use crate::service::Service;
use crate::side::{Side, Socket, Terms, both_sides};
use crate::visitors::{Visitors, serve_visitors};
use libc::EMFILE;
use plan_desk::{Book, Office};
use plan_http::ConnEnd;
use plan_io::{DeviceFault, Tally};
use std::cell::Cell;
use std::io::{self, ErrorKind};
use std::net::{TcpListener, TcpStream};
use std::os::fd::OwnedFd;
use std::thread;
use std::time::{Duration, Instant};

// The number of consecutive failed accepts after which the server stops.
const MOST_FAILURES: u32 = 100;

// The pause after the first failed accept, in milliseconds, and how often it doubles at most.
const PAUSE: u64 = 1;

const MOST_DOUBLINGS: u32 = 10;

// The listener and the queue, and the number of consecutive failed accepts.
#[derive(Drop)]
struct Acceptor<'a> {
    terms: Terms<'a>,
    listener: &'a TcpListener,
    queue: Queue,
    failures: u32,
}

impl<'a> Acceptor<'a> {
    // Accepts a connection. It returns None if no client connects.
    fn accept(&self) -> io::Result<Option<TcpStream>> {
        match self.listener.accept() {
            Err(error) if error.kind() == ErrorKind::WouldBlock => Ok(None),
            accepted => accepted.map(|(stream, _)| Some(stream)),
        }
    }

    // Whether too many consecutive accepts failed.
    fn is_closed(&self) -> bool
        ensures { IsTrue result ↔ (MOST_FAILURES ≤ self.now.failures) }
    {
        self.failures >= MOST_FAILURES
    }

    // Pauses after a failed accept, longer after each consecutive one.
    fn pause(&mut self)
        ensures counted { self.new.failures ≤ self.old.failures + 1 }
        ensures all { self.old.failures < MOST_FAILURES
            → self.new.failures ≡ self.old.failures + 1 }
    {
        let pause = PAUSE << self.failures.min(MOST_DOUBLINGS);
        thread::sleep(self.terms.rt, Duration::from_millis(pause));
        self.failures = self.failures.saturating_add(1);
    }

    // Queues an accepted connection. It fails if a connection is lost.
    fn enqueue(&mut self, stream: TcpStream) -> io::Result<()>
        ensures again { self.new.failures ≡ 0 }
    {
        self.failures = 0;
        if self.queue.push(self.terms.rt, stream) {
            return Ok(());
        }
        Err(io::Error::from(ErrorKind::TimedOut))
    }

    // Frees a descriptor, if none is left for a new connection. It fails if a connection is lost,
    // or if the accept failed for another cause.
    fn recover(&mut self, error: io::Error) -> io::Result<bool>
        ensures counted { self.new.failures ≤ self.old.failures + 1 }
        ensures accepted { OnOk result (self.new.failures ≤ self.old.failures) }
    {
        if error.raw_os_error() == Some(EMFILE) {
            match self.queue.free() {
                Some(true) => return Ok(true),
                Some(false) => return Err(error),
                None => {}
            }
        }
        self.pause();
        Err(error)
    }

    // Accepts and queues a connection, and returns whether there was one. It fails if one is lost
    // or the accept fails.
    fn admit_one(&mut self) -> io::Result<bool>
        ensures counted { self.new.failures ≤ self.old.failures + 1 }
        ensures accepted { OnOk result (self.new.failures ≤ self.old.failures) }
    {
        match self.accept() {
            Ok(Some(stream)) => {
                self.enqueue(stream)?;
                Ok(true)
            }
            Ok(None) => Ok(false),
            Err(error) => self.recover(error),
        }
    }

    // Waits for an event once: all clients that connect are queued before a turn, so that their
    // time runs; if the queue is full or the last accept failed, after it. It returns None if no
    // connection is ready yet, and fails if one is lost or an accept fails.
    fn poll(&mut self, patience: u32) -> io::Result<Option<Next>>
        ensures counted { self.new.failures ≤ self.old.failures + 1 }
        ensures accepted { OnOk result (self.new.failures ≤ self.old.failures) }
    {
        let is_called = self.queue.wait(self.listener, Instant::now(self.terms.rt)?);
        let is_deferred = self.failures > 0 || self.queue.is_full();
        if is_called && !is_deferred && self.admit_one()? {
            return Ok(None);
        }
        let now = Instant::now(self.terms.rt)?;
        if let Some(next) = self.queue.pop(now, patience) {
            return Ok(Some(next));
        }
        if is_called && is_deferred && self.admit_one()? {
            return Ok(None);
        }
        if let Some(next) = self.queue.pop_late(now, patience) {
            return Ok(Some(next));
        }
        if self.queue.drop_silent(now) {
            return Err(io::Error::from(ErrorKind::TimedOut));
        }
        Ok(None)
    }

    // Returns the next connection to serve. It fails after one failed accept, which counts as a
    // connection.
    fn next(&mut self, patience: u32) -> io::Result<Next>
        ensures counted { self.new.failures ≤ self.old.failures + 1 }
        ensures accepted { OnOk result (self.new.failures ≤ self.old.failures) }
    {
        for _ in 0..u64::MAX {
            if let Some(next) = self.poll(patience)? {
                return Ok(next);
            }
        }
        Err(io::Error::from(ErrorKind::TimedOut))
    }

    // Closes a connection that was served; after a response, once its client has closed it. The
    // time since its last read doesn't count for the queued connections.
    fn release(&mut self, since: Duration, is_answered: bool) -> io::Result<()>
        ensures { self.new.failures ≡ self.old.failures }
    {
        self.queue.forgive(since);
        match self.terms.socket.take() {
            Some(stream) if is_answered => self.queue.close(self.terms.rt, stream),
            _ => Ok(()),
        }
    }

    // Returns the two sides of the next connection, each with a deadline of `patience` seconds.
    fn next_sides(&mut self, patience: u32) -> io::Result<(Side<'a>, Side<'a>)>
        ensures untouched { IfOk result
            (λ sides. (sides.0.tally.calls ≡ 0) × (sides.1.tally.calls ≡ 0)) }
        ensures fresh { IfOk result
            (λ sides. (sides.0.received.bytes ≡ []) × (sides.0.is_ended ≡ false)
            × (sides.1.sent.bytes ≡ [])) }
        ensures timed { IfOk result
            (λ sides. (sides.0.timer.patience ≡ patience)
            × (sides.1.timer.patience ≡ patience)) }
        ensures counted { self.new.failures ≤ self.old.failures + 1 }
        ensures accepted { OnOk result (self.new.failures ≤ self.old.failures) }
    {
        let next = self.next(patience)?;
        both_sides(self.terms, next, patience)
    }
}

// The connections of a socket, and the deadline of each side in seconds.
#[derive(Drop)]
struct SocketVisitors<'a> {
    acceptor: Acceptor<'a>,
    patience: u32,
    log: Log<'a>,
    tally: Tally,
    ended: Tally,
}

impl<'a> Visitors for SocketVisitors<'a> {
    type Reader = Side<'a>;

    type Writer = Side<'a>;

    ghost use Rattle.std.specs.Prelude.{◌≡◌, ◌≤◌, ◌+◌, IfOk, OnOk};
    ghost use Rattle.plan_door.specs.declared.socket.TheConstants.{MOST_FAILURES};
    ghost use Rattle.plan_io.specs.Devices.{IsCounted};

    ghost awaited = { λ visitors. visitors.tally.calls };

    ghost missed = { λ visitors. visitors.tally.faults };

    // Too many consecutive accepts failed.
    ghost closed = { λ visitors. MOST_FAILURES ≤ visitors.acceptor.failures };

    // A connection is awaited, and none is closed. Each has the same deadline. At most one accept
    // failed, and none if a connection came.
    ghost admits = { λ old new result.
        IsCounted old.tally.calls new.tally.calls old.tally.faults new.tally.faults result
        × (new.ended.calls ≡ old.ended.calls) × (new.patience ≡ old.patience)
        × (new.acceptor.failures ≤ old.acceptor.failures + 1)
        × OnOk result (new.acceptor.failures ≤ old.acceptor.failures)
        × IfOk result (λ sides. (sides.0.timer.patience ≡ old.patience)
        × (sides.1.timer.patience ≡ old.patience)) };

    // A connection is closed, and none is awaited.
    ghost dismisses = { λ old new _ _ _. (new.tally.calls ≡ old.tally.calls)
        × (new.ended.calls ≡ old.ended.calls + 1) × (new.patience ≡ old.patience)
        × (new.acceptor.failures ≡ old.acceptor.failures) };

    fn admit(&mut self) -> Result<(Side<'a>, Side<'a>), DeviceFault> {
        let sides = self.acceptor.next_sides(self.patience);
        self.tally.count(sides)
    }

    fn dismiss(&mut self, reader: Side<'a>, writer: Side<'a>, end: ConnEnd) {
        self.log.write(&reader, &writer, end);
        let is_answered = matches!(end, ConnEnd::Replied(_));
        let released = self.acceptor.release(reader.since_heard(), is_answered);
        let _ended = self.ended.count(released);
    }

    fn is_closed(&self) -> bool {
        self.acceptor.is_closed()
    }
}

// Sets the timeouts that each connection has from the listener.
fn set_timeouts(listener: &TcpListener, time: Duration) -> io::Result<()> {
    let socket = TcpStream::from(OwnedFd::from(listener.try_clone()?));
    socket.set_read_timeout(Some(time))?;
    socket.set_write_timeout(Some(time))
}

// Prepares a listener, whose accepts then don't wait. Returns the timeout that each connection has
// from it, if it could be set.
fn prepare(listener: &TcpListener, patience: u32) -> Option<Duration>
    ensures { IfSome result (λ time. as_nanos time ≡ patience * 1_000_000_000) }
{
    let _waits = listener.set_nonblocking(true);
    let time = Duration::from_secs(u64::from(patience));
    match set_timeouts(listener, time) {
        Ok(()) => Some(time),
        Err(_) => None,
    }
}

// The connections of a socket before the first accept, with the service's deadline.
fn socket_visitors<'a>(
    terms: Terms<'a>,
    listener: &'a TcpListener,
    queue: Queue,
    log: Log<'a>,
    service: &Service<'_>,
) -> SocketVisitors<'a>
    ensures timed { result.patience ≡ service.now.patience }
    ensures open { result.acceptor.failures ≡ 0 }
{
    SocketVisitors {
        acceptor: Acceptor {
            terms,
            listener,
            queue,
            failures: 0,
        },
        patience: service.patience,
        log,
        tally: Tally::new(),
        ended: Tally::new(),
    }
}

// Serves the connections of a listener. The socket of each is kept in `socket` during its turn.
fn serve_on<'a, B: Book>(
    rt: &'a HostRuntime,
    office: &mut Office<B>,
    listener: &'a TcpListener,
    socket: &'a Socket,
    queue: Queue,
    service: &Service<'_>,
) -> Result<(), ServeFault>
    ensures turns { OnOk result
        ((turns : List Turn) × (length turns ≡ service.now.count)
        × Runs B.shelf office.old office.new turns) }
    ensures moves { OnOk result
        ((decisions : List Decision) × (length decisions ≤ service.now.count)
        × MovedBy B.shelf office.old decisions office.new) }
    // It fails for one of two causes. Memory runs out before the first connection;
    ensures memory { IsErrOf result ServeFault.Memory → office.new ≡ office.old }
    // or 100 consecutive accepts fail, each in a turn of its own.
    ensures closed { IsErrOf result ServeFault.Socket
        → (turns : List Turn) × (length turns ≤ service.now.count)
        × (MOST_FAILURES ≤ misses_in turns) × Runs B.shelf office.old office.new turns }
    ensures which { IfErr result (λ e. (e ≡ ServeFault.Memory) ⊎ (e ≡ ServeFault.Socket)) }
{
    let Ok(log) = Log::new(rt, service.is_logged) else {
        return Err(ServeFault::Memory);
    };
    let terms = Terms::new(rt, socket, prepare(listener, service.patience));
    let mut visitors = socket_visitors(terms, listener, queue, log, service);
    let served = serve_visitors(rt.alloc(), office, &mut visitors, service.count);
    visitors.acceptor.queue.finish(rt);
    served
}

/// Serves `service.count` connections of a socket, one after another: the oldest queued connection
/// whose request has arrived comes first. A connection that is closed or fails counts too, and ends
/// without an effect on others. So does a failed accept. Each connection has the service's deadline
/// for its request, and again for its response.
pub fn serve_listener<'a, B: Book>(
    rt: &'a HostRuntime,
    office: &mut Office<B>,
    listener: &'a TcpListener,
    service: &Service<'_>,
) -> Result<(), ServeFault>
    ensures turns { OnOk result
        ((turns : List Turn) × (length turns ≡ service.now.count)
        × Runs B.shelf office.old office.new turns) }
    ensures moves { OnOk result
        ((decisions : List Decision) × (length decisions ≤ service.now.count)
        × MovedBy B.shelf office.old decisions office.new) }
    // It fails for one of two causes. Memory runs out before the first connection;
    ensures memory { IsErrOf result ServeFault.Memory → office.new ≡ office.old }
    // or 100 consecutive accepts fail, each in a turn of its own.
    ensures closed { IsErrOf result ServeFault.Socket
        → (turns : List Turn) × (length turns ≤ service.now.count)
        × (MOST_FAILURES ≤ misses_in turns) × Runs B.shelf office.old office.new turns }
    ensures which { IfErr result (λ e. (e ≡ ServeFault.Memory) ⊎ (e ≡ ServeFault.Socket)) }
{
    let Ok(queue) = Queue::new(rt.alloc()) else {
        return Err(ServeFault::Memory);
    };
    let socket = Cell::new(None);
    let served = serve_on(rt, office, listener, &socket, queue, service);
    let _unserved = socket.into_inner();
    served
}
