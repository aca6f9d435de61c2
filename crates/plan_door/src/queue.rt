//! The queue of accepted connections, until their requests have arrived.

use crate::arrival::{Arrival, MOST_AWAITED};
use crate::closing::Closing;
use crate::pending::{LONGEST_WAIT, Pending, Rank, polled};
use libc::net::{POLLIN, poll};
use libc::types::pollfd;
use std::alloc::{AllocError, Global};
use std::io;
use std::net::{TcpListener, TcpStream};
use std::os::fd::{AsRawFd, RawFd};
use std::time::{Duration, Instant};

// The greatest number of queued connections.
const MOST_PENDING: usize = 64;

// A wait without a limit, if there are no connections.
const NO_LIMIT: i32 = -1;

// The number of sockets that are polled: the listener, the queued connections and those after their
// responses.
const MOST_POLLED: usize = 129;

// How long a request may be read that didn't arrive in time, in milliseconds.
const LEAST_LEFT: u64 = 10;

/// The next connection to serve.
#[derive(Drop)]
pub(crate) struct Next {
    pub(crate) stream: TcpStream,
    /// The time when data was first seen, if the request isn't complete.
    begun: Option<Instant>,
}

impl Next {
    /// Returns the start of the time of its request, if it has begun: so that some of this time is
    /// left.
    pub(crate) fn start(&self, now: Instant, patience: u32) -> Option<Instant> {
        let begun = self.begun?;
        let least = Duration::from_millis(LEAST_LEFT);
        let most = Duration::from_secs(u64::from(patience)).saturating_sub(least);
        if now.duration_since(begun) <= most {
            return Some(begun);
        }
        now.checked_sub(most)
    }
}

/// The queued connections, the oldest first, and those after their responses.
#[derive(Drop)]
pub(crate) struct Queue {
    pending: Vec<Pending>,
    closing: Closing,
    // The polled sockets, and the bytes of the last look.
    sockets: Vec<pollfd>,
    room: Vec<u8>,
}

impl Queue {
    /// Returns an empty queue with capacity for all connections.
    pub(crate) fn new(alloc: Global) -> Result<Queue, AllocError> {
        let mut room = Vec::new(alloc);
        room.resize(MOST_AWAITED, 0)?;
        Ok(Queue {
            pending: Vec::with_capacity(alloc, MOST_PENDING)?,
            closing: Closing::new(alloc)?,
            sockets: Vec::with_capacity(alloc, MOST_POLLED)?,
            room,
        })
    }

    // The oldest connection that has sent nothing.
    fn oldest_silent(&self) -> Option<usize> {
        for (place, connection) in self.pending.iter().enumerate() {
            if connection.begun.is_none() {
                return Some(place);
            }
        }
        None
    }

    // Closes the oldest connection that has sent nothing, else the oldest one, and returns whether
    // there was one.
    fn close_oldest(&mut self) -> bool {
        let place = self.oldest_silent().unwrap_or(0);
        self.take(place).is_some()
    }

    /// Frees a descriptor: closes a connection after its response, else one that waits. Returns
    /// None if there is none, else whether none is lost.
    pub(crate) fn free(&mut self) -> Option<bool> {
        if self.closing.close_oldest() {
            return Some(true);
        }
        if self.close_oldest() {
            return Some(false);
        }
        None
    }

    /// Queues a connection, and returns whether no connection was lost. If the queue is full, the
    /// oldest one that has sent nothing is closed, else the oldest one.
    pub(crate) fn push(&mut self, rt: &HostRuntime, stream: TcpStream) -> bool {
        let Ok(connection) = Pending::new(rt, stream) else {
            return false;
        };
        let is_lost = self.is_full() && self.close_oldest();
        self.pending.push(connection).is_ok() && !is_lost
    }

    // Looks at what has arrived on each connection.
    fn look(&mut self, now: Instant) {
        for place in 0..self.pending.len() {
            if let Some(connection) = self.pending.get_mut(place) {
                connection.look(now, &mut self.room);
            }
        }
    }

    // The oldest connection of this rank.
    fn oldest(&self, rank: Rank, now: Instant, patience: u32) -> Option<usize> {
        for (place, connection) in self.pending.iter().enumerate() {
            if connection.rank(now, patience) == rank {
                return Some(place);
            }
        }
        None
    }

    // Removes and returns the connection at this place.
    fn take(&mut self, place: usize) -> Option<Next> {
        if place >= self.pending.len() {
            return None;
        }
        let connection = self.pending.remove(place);
        let begun = if connection.arrival == Arrival::Whole {
            None
        } else {
            connection.begun
        };
        Some(Next {
            stream: connection.stream,
            begun,
        })
    }

    /// Whether no more connections can be queued without closing one.
    pub(crate) fn is_full(&self) -> bool {
        self.pending.len() >= MOST_PENDING
    }

    /// Removes and returns the oldest connection whose request has arrived; if there is none, the
    /// oldest one with the first bytes of a long request. It also reads what clients send after
    /// their responses.
    pub(crate) fn pop(&mut self, now: Instant, patience: u32) -> Option<Next> {
        self.closing.drain(now, &mut self.room);
        self.look(now);
        let place = match self.oldest(Rank::Whole, now, patience) {
            Some(place) => place,
            None => self.oldest(Rank::Long, now, patience)?,
        };
        self.take(place)
    }

    /// Removes and returns the oldest connection whose request didn't arrive in `patience` seconds.
    pub(crate) fn pop_late(&mut self, now: Instant, patience: u32) -> Option<Next> {
        let place = self.oldest(Rank::Late, now, patience)?;
        self.take(place)
    }

    /// Closes the oldest connection that has sent nothing, if it is late, and returns whether it
    /// was.
    pub(crate) fn drop_silent(&mut self, now: Instant) -> bool {
        let Some(place) = self.oldest_silent() else {
            return false;
        };
        let is_late = match self.pending.get(place) {
            Some(connection) => connection.is_silent(now),
            None => false,
        };
        if is_late {
            let _silent = self.take(place);
        }
        is_late
    }

    /// Keeps a connection after its response until its client closes it, for a while.
    pub(crate) fn close(&mut self, rt: &HostRuntime, stream: TcpStream) -> io::Result<()> {
        self.closing.push(rt, stream)
    }

    /// Adds the time of an answer to that of the queued connections, which didn't cause it.
    pub(crate) fn forgive(&mut self, time: Duration) {
        for place in 0..self.pending.len() {
            if let Some(connection) = self.pending.get_mut(place) {
                connection.forgive(time);
            }
        }
    }

    // How long a wait lasts at most, in milliseconds.
    fn longest_wait(&self, now: Instant) -> i32 {
        if self.pending.is_empty() && self.closing.is_empty() {
            return NO_LIMIT;
        }
        let mut wait = LONGEST_WAIT;
        for connection in &self.pending {
            wait = wait.min(connection.wait(now));
        }
        i32::try_from(wait).unwrap_or(0)
    }

    // Lists the sockets to poll: the listener, the queued connections,
    fn list(&mut self, listener: RawFd) -> Result<(), AllocError> {
        self.sockets.clear();
        self.sockets.push(polled(listener, POLLIN))?;
        for connection in &self.pending {
            self.sockets.push(connection.polled())?;
        }
        self.list_closing()
    }

    // and those after their responses.
    fn list_closing(&mut self) -> Result<(), AllocError> {
        for connection in self.closing.list() {
            let socket = polled(connection.stream().as_raw_fd(), POLLIN);
            self.sockets.push(socket)?;
        }
        Ok(())
    }

    // The events of the socket at this place.
    fn events_at(&self, place: usize) -> i16 {
        match self.sockets.get(place) {
            Some(socket) => socket.revents,
            None => 0,
        }
    }

    // Notes the events of the queued connections,
    fn note(&mut self) {
        for place in 0..self.pending.len() {
            let events = self.events_at(place.saturating_add(1));
            if let Some(connection) = self.pending.get_mut(place) {
                connection.note(events);
            }
        }
        let first = self.pending.len().saturating_add(1);
        self.note_closing(first);
    }

    // and of those after their responses, from this place on.
    fn note_closing(&mut self, first: usize) {
        for place in 0..self.closing.len() {
            let events = self.events_at(first.saturating_add(place));
            self.closing.note(place, events != 0);
        }
    }

    // Waits until a socket has an event, for so many milliseconds at most, and notes the events.
    // Returns whether the listener has one.
    fn poll(&mut self, listener: RawFd, wait: i32) -> bool {
        if self.list(listener).is_err() || poll(&mut self.sockets, wait) < 0 {
            return false;
        }
        self.note();
        self.events_at(0) != 0
    }

    /// Waits until a client connects, sends or closes, for a moment at most. Returns whether one
    /// connects.
    pub(crate) fn wait(&mut self, listener: &TcpListener, now: Instant) -> bool {
        let wait = self.longest_wait(now);
        self.poll(listener.as_raw_fd(), wait)
    }

    /// Closes all connections: those after their responses once their clients have closed them, or
    /// after a while.
    pub(crate) fn finish(&mut self, rt: &HostRuntime) {
        self.pending.clear();
        for _ in 0..u32::MAX {
            let Ok(now) = Instant::now(rt) else {
                return;
            };
            self.closing.drain(now, &mut self.room);
            if self.closing.is_empty() {
                return;
            }
            let wait = self.longest_wait(now);
            let _client = self.poll(-1, wait);
        }
    }
}
