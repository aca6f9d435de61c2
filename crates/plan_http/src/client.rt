//! Clients: the sources of requests.

ghost use Rattle.std.specs.Prelude.{◌≡◌, ℕ, ◌≤◌, length, IfOk, if◌then◌else◌, [], false};
ghost use Rattle.plan_io.specs.Devices.{IsCounted};
ghost use Rattle.plan_http.specs.Clients.{Known, Hears};

use crate::trace::Trace;
use plan_io::{DeviceFault, Source};

/// The source of the bytes of a request. Contracts know the bytes that its reads returned, even if
/// the bytes that follow are unknown.
pub trait Client {
    /// The number of its reads.
    ghost calls: { Self → ℕ };

    /// The number of its reads that failed.
    ghost faults: { Self → ℕ };

    /// The bytes that were read, whether their end was seen, and the bytes that are left, if known.
    ghost known: { Self → Known };

    /// Reads bytes to the front of a buffer, and returns their number. 0 for a buffer with room
    /// means the end; later reads then return 0 too.
    fn read(&mut self, buf: &mut [u8]) -> Result<usize, DeviceFault>
        ensures counted { IsCounted (calls self.old) (calls self.new) (faults self.old)
            (faults self.new) result }
        ensures within { IfOk result (λ n. n ≤ length buf.new) }
        ensures heard { Hears (known self.old) (known self.new) result buf.new };
}

// The room for a read: 0 after the end.
fn room_of(is_ended: bool, room: usize) -> usize
    ensures { result ≡ (if is_ended then 0 else room) }
{
    if is_ended { 0 } else { room }
}

/// A source as a client. It adds to the source only the note that its end was seen.
#[derive(Drop)]
pub struct Listening<R: Source + Drop> {
    source: R,
    is_ended: bool,
    trace: Trace,
}

impl<R: Source + Drop> Listening<R> {
    /// Returns a client before its first read.
    pub fn new(source: R) -> Listening<R>
        ensures calls { ⟦<Listening<R> as Client>⟧.calls result ≡ R.calls source }
        ensures faults { ⟦<Listening<R> as Client>⟧.faults result ≡ R.faults source }
        ensures known { ⟦<Listening<R> as Client>⟧.known result
            ≡ record { heard = []; ended = false; left = R.remaining source } }
    {
        Listening {
            source,
            is_ended: false,
            trace: Trace::new(),
        }
    }

    /// Returns the source.
    pub fn source(&self) -> &R
        ensures { result.now ≡ self.now.source }
    {
        &self.source
    }
}

impl<R: Source + Drop> Client for Listening<R> {
    ghost calls = { λ client. R.calls client.source };

    ghost faults = { λ client. R.faults client.source };

    ghost known = { λ client. record {
      heard = client.trace.bytes;
      ended = client.is_ended;
      left = R.remaining client.source;
    } };

    fn read(&mut self, buf: &mut [u8]) -> Result<usize, DeviceFault> {
        let room = room_of(self.is_ended, buf.len());
        let count = self.source.read(&mut buf[..room])?;
        self.is_ended = self.is_ended || (room > 0 && count == 0);
        self.trace = self.trace.with(&buf[..count]);
        Ok(count)
    }
}
