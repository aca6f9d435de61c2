//! A queued connection, until its request has arrived.

use crate::arrival::{Arrival, arrival_on};
use libc::net::{POLLERR, POLLHUP, POLLIN, POLLRDHUP};
use libc::types::pollfd;
use std::io;
use std::net::TcpStream;
use std::os::fd::{AsRawFd, RawFd};
use std::time::{Duration, Instant};

// How long a connection may send nothing before it is closed, in seconds.
const LONGEST_SILENCE: u64 = 10;

/// How long a wait lasts at most, in milliseconds, if there are connections.
pub(crate) const LONGEST_WAIT: u64 = 100;

// How often a part of a request is looked at again: after a part of the time since its first byte,
// between these times in milliseconds.
const LOOKS: u64 = 8;

const SHORTEST_PAUSE: u64 = 1;

const LONGEST_PAUSE: u64 = 50;

/// The order of queued connections.
#[derive(Clone, Copy, PartialEq, Eq)]
pub(crate) enum Rank {
    Waiting,
    Late,
    Long,
    Whole,
}

/// A queued connection: the time when it was queued, and what has arrived since.
#[derive(Drop)]
pub(crate) struct Pending {
    pub(crate) stream: TcpStream,
    since: Instant,
    pub(crate) arrival: Arrival,
    /// The time when data was first seen.
    pub(crate) begun: Option<Instant>,
    // The time of the last look.
    looked: Instant,
    // Its events: whether a look doesn't wait, and whether its client sends no more.
    is_ready: bool,
    is_ended: bool,
}

// The pause after a look at a part of a request that then began so long ago, in milliseconds.
fn pause(age: Duration) -> u64 {
    match u64::try_from(age.as_millis()) {
        Ok(age) => (age / LOOKS).clamp(SHORTEST_PAUSE, LONGEST_PAUSE),
        Err(_) => LONGEST_PAUSE,
    }
}

impl Pending {
    /// A connection for the queue.
    pub(crate) fn new(rt: &HostRuntime, stream: TcpStream) -> io::Result<Pending> {
        let now = Instant::now(rt)?;
        Ok(Pending {
            stream,
            since: now,
            arrival: Arrival::Nothing,
            begun: None,
            looked: now,
            is_ready: false,
            is_ended: false,
        })
    }

    // Whether enough has arrived.
    fn has_enough(&self) -> bool {
        self.arrival == Arrival::Whole || self.arrival == Arrival::Enough
    }

    /// How long its next look can wait, in milliseconds.
    pub(crate) fn wait(&self, now: Instant) -> u64 {
        let Some(begun) = self.begun else {
            return LONGEST_WAIT;
        };
        if self.has_enough() {
            return 0;
        }
        let pause = Duration::from_millis(pause(self.looked.duration_since(begun)));
        let left = pause.saturating_sub(now.duration_since(self.looked));
        u64::try_from(left.as_micros().div_ceil(1000)).unwrap_or(LONGEST_WAIT)
    }

    // Returns the bytes that have arrived, without taking them.
    fn arrived(&self, room: &mut [u8]) -> Arrival {
        let arrival = arrival_on(&self.stream, room);
        if arrival == Arrival::Part && self.is_ended {
            return Arrival::Whole;
        }
        arrival
    }

    /// Looks at what has arrived, unless it is enough.
    pub(crate) fn look(&mut self, now: Instant, room: &mut [u8]) {
        let is_due = self.begun.is_some() && self.wait(now) == 0;
        if self.has_enough() || !(self.is_ready || is_due) {
            return;
        }
        self.is_ready = false;
        self.looked = now;
        self.arrival = self.arrived(room);
        if self.begun.is_none() && self.arrival != Arrival::Nothing {
            self.begun = Some(now);
        }
    }

    /// Whether it has sent nothing for too long.
    pub(crate) fn is_silent(&self, now: Instant) -> bool {
        self.begun.is_none()
            && now.duration_since(self.since) >= Duration::from_secs(LONGEST_SILENCE)
    }

    // Whether the time of its request is over.
    fn is_late(&self, now: Instant, patience: u32) -> bool {
        match self.begun {
            Some(begun) => now.duration_since(begun) >= Duration::from_secs(u64::from(patience)),
            None => false,
        }
    }

    pub(crate) fn rank(&self, now: Instant, patience: u32) -> Rank {
        if self.arrival == Arrival::Whole {
            return Rank::Whole;
        }
        if self.is_late(now, patience) {
            return Rank::Late;
        }
        if self.arrival == Arrival::Enough {
            return Rank::Long;
        }
        Rank::Waiting
    }

    /// Moves the time when data was first seen.
    pub(crate) fn forgive(&mut self, time: Duration) {
        if let Some(begun) = self.begun {
            self.begun = begun.checked_add(time);
        }
    }

    /// The events to poll for: the first bytes, or the end behind a part.
    pub(crate) fn polled(&self) -> pollfd {
        if self.has_enough() {
            return polled(-1, 0);
        }
        let events = if self.begun.is_none() {
            POLLIN | POLLRDHUP
        } else {
            POLLRDHUP
        };
        polled(self.stream.as_raw_fd(), events)
    }

    /// Notes its events.
    pub(crate) fn note(&mut self, events: i16) {
        self.is_ready = events != 0;
        self.is_ended = events & (POLLRDHUP | POLLHUP | POLLERR) != 0;
    }
}

/// A socket to poll. A negative one is ignored.
pub(crate) fn polled(fd: RawFd, events: i16) -> pollfd {
    pollfd {
        fd,
        events,
        revents: 0,
    }
}
