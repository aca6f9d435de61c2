//! Connections after their responses, until their clients close them.

use std::alloc::{AllocError, Global};
use std::io::{self, ErrorKind, Read};
use std::net::{Shutdown, TcpStream};
use std::time::{Duration, Instant};

// The greatest number of these connections.
const MOST_CLOSING: usize = 64;

// The limits of each: the silence of its client and the whole time, in seconds, and the number of
// reads.
const LONGEST_SILENCE: u64 = 1;

const LONGEST_TIME: u64 = 5;

const MOST_READS: u32 = 4096;

// The number of bytes of a read.
const PIECE: usize = 8192;

/// A connection after its response. Bytes of its client are read and discarded for a while,
/// because closing a connection with unread bytes could destroy the response.
#[derive(Drop)]
pub(crate) struct Answered {
    stream: TcpStream,
    since: Instant,
    heard: Instant,
    reads: u32,
    // Whether a read doesn't wait.
    is_ready: bool,
}

impl Answered {
    // Ends the response.
    fn new(rt: &HostRuntime, stream: TcpStream) -> io::Result<Answered> {
        stream.shutdown(Shutdown::Write)?;
        let now = Instant::now(rt)?;
        Ok(Answered {
            stream,
            since: now,
            heard: now,
            reads: 0,
            is_ready: false,
        })
    }

    /// Returns the connection.
    pub(crate) fn stream(&self) -> &TcpStream {
        &self.stream
    }

    // Whether a limit is reached.
    fn is_over(&self, now: Instant) -> bool {
        now.duration_since(self.heard) >= Duration::from_secs(LONGEST_SILENCE)
            || now.duration_since(self.since) >= Duration::from_secs(LONGEST_TIME)
            || self.reads >= MOST_READS
    }

    // Reads and discards bytes, and returns whether their end or a limit is reached. `room` is for
    // the bytes.
    fn is_done(&mut self, now: Instant, room: &mut [u8]) -> bool {
        if !self.is_ready {
            return self.is_over(now);
        }
        self.is_ready = false;
        let most = PIECE.min(room.len());
        let mut reader = &self.stream;
        match reader.read(&mut room[..most]) {
            Ok(0) => return true,
            Ok(_) => self.heard = now,
            Err(error) if error.kind() == ErrorKind::WouldBlock => {}
            Err(_) => return true,
        }
        self.reads = self.reads.saturating_add(1);
        self.is_over(now)
    }
}

/// The connections after their responses, the oldest first.
#[derive(Drop)]
pub(crate) struct Closing {
    answered: Vec<Answered>,
}

impl Closing {
    /// Returns an empty list with capacity for all connections.
    pub(crate) fn new(alloc: Global) -> Result<Closing, AllocError> {
        Ok(Closing {
            answered: Vec::with_capacity(alloc, MOST_CLOSING)?,
        })
    }

    pub(crate) fn is_empty(&self) -> bool {
        self.answered.is_empty()
    }

    pub(crate) fn len(&self) -> usize {
        self.answered.len()
    }

    /// Returns the connections.
    pub(crate) fn list(&self) -> &[Answered] {
        &self.answered
    }

    /// Closes the oldest connection, and returns whether there was one.
    pub(crate) fn close_oldest(&mut self) -> bool {
        if self.answered.is_empty() {
            return false;
        }
        let _oldest = self.answered.remove(0);
        true
    }

    /// Ends the response on a connection.
    pub(crate) fn push(&mut self, rt: &HostRuntime, stream: TcpStream) -> io::Result<()> {
        let connection = Answered::new(rt, stream)?;
        if self.answered.len() >= MOST_CLOSING {
            let _oldest = self.answered.remove(0);
        }
        match self.answered.push(connection) {
            Ok(()) => Ok(()),
            Err(_) => Err(io::Error::from(ErrorKind::OutOfMemory)),
        }
    }

    /// Notes whether the connection at this place has an event.
    pub(crate) fn note(&mut self, place: usize, is_ready: bool) {
        if let Some(connection) = self.answered.get_mut(place) {
            connection.is_ready = is_ready;
        }
    }

    // Reads and discards bytes of the connection at this place, and returns whether it stays open.
    fn is_kept(&mut self, place: usize, now: Instant, room: &mut [u8]) -> bool {
        match self.answered.get_mut(place) {
            Some(connection) => !connection.is_done(now, room),
            None => true,
        }
    }

    /// Reads and discards bytes, and closes the connections that are done.
    pub(crate) fn drain(&mut self, now: Instant, room: &mut [u8]) {
        let mut place = 0;
        for _ in 0..self.answered.len() {
            if self.is_kept(place, now, room) {
                place = place.saturating_add(1);
            } else if place < self.answered.len() {
                let _done = self.answered.remove(place);
            }
        }
    }
}
