//! How much of a request has arrived on a connection. Nothing is read.

use plan_http::request_size;
use std::io::{Error, ErrorKind};
use std::net::TcpStream;

// The greatest number of bytes of a head.
const HEAD_LIMIT: usize = 8192;

/// The number of bytes of a longer request that are awaited. The system stores as many for each
/// connection.
pub(crate) const MOST_AWAITED: usize = 49_152;

/// How much of a request has arrived.
#[derive(Clone, Copy, PartialEq, Eq)]
pub(crate) enum Arrival {
    /// Nothing.
    Nothing,
    /// Less than is awaited.
    Part,
    /// The first bytes of a long request.
    Enough,
    /// The whole request, or all that will come of it.
    Whole,
}

// Returns the arrival if a peek fails: no bytes, unless a read would fail too.
fn without_bytes(error: &Error) -> Arrival {
    match error.kind() {
        ErrorKind::WouldBlock | ErrorKind::Interrupted => Arrival::Nothing,
        _ => Arrival::Whole,
    }
}

// Whether this many bytes have arrived.
fn has_arrived(stream: &TcpStream, room: &mut [u8], count: usize) -> bool {
    match stream.peek(room) {
        Ok(arrived) => arrived >= count,
        Err(_) => false,
    }
}

// How much has arrived of a request of this size, if it is known. The first bytes are there.
fn arrival_of(stream: &TcpStream, room: &mut [u8], front: usize, size: Option<usize>) -> Arrival {
    match size {
        Some(size) if size <= front => Arrival::Whole,
        Some(size) if size <= MOST_AWAITED && has_arrived(stream, room, size) => Arrival::Whole,
        Some(size) if size > MOST_AWAITED && has_arrived(stream, room, MOST_AWAITED) => {
            Arrival::Enough
        }
        _ => Arrival::Part,
    }
}

/// Returns how much has arrived on a connection with an event, so that a peek doesn't wait. `room`
/// is for the bytes, and has MOST_AWAITED.
pub(crate) fn arrival_on(stream: &TcpStream, room: &mut [u8]) -> Arrival {
    let most = HEAD_LIMIT.min(room.len());
    match stream.peek(&mut room[..most]) {
        Ok(0) => Arrival::Whole,
        Ok(count) => {
            let size = request_size(&room[..count]);
            arrival_of(stream, room, count, size)
        }
        Err(error) => without_bytes(&error),
    }
}
