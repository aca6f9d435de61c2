//! The traits of byte sources and byte sinks.

ghost use Rattle.std.specs.Prelude.{ℕ, ◌≤◌, List, Option, length, IfOk};
ghost use Rattle.std.specs.Io.KnownBytes.{ReadConsumes, WriteAppends};
ghost use Rattle.plan_io.specs.Devices.{IsCounted};

use thiserror::Error;

/// A read or a write failed, whatever the cause.
#[derive(Clone, Copy, Debug, PartialEq, Eq, Error)]
#[error("the device failed")]
pub struct DeviceFault;

/// A source of bytes.
pub trait Source {
    /// The number of reads so far.
    ghost calls: { Self → ℕ };

    /// The number of these reads that failed.
    ghost faults: { Self → ℕ };

    /// The bytes that are still to be read, if they are known.
    ghost remaining: { Self → Option (List ℕ) };

    /// Reads bytes to the front of a buffer and returns their number. 0 with a buffer that has room
    /// means the end of the input.
    fn read(&mut self, buf: &mut [u8]) -> Result<usize, DeviceFault>
        ensures counted { IsCounted (calls self.old) (calls self.new) (faults self.old)
            (faults self.new) result }
        ensures within { IfOk result (λ n. n ≤ length buf.new) }
        ensures bytes { ReadConsumes (remaining self.old) (remaining self.new) result buf.new };
}

/// A sink for bytes.
pub trait Sink {
    /// The number of writes so far.
    ghost calls: { Self → ℕ };

    /// The number of these writes that failed.
    ghost faults: { Self → ℕ };

    /// The bytes that it has taken, if they are known.
    ghost taken: { Self → Option (List ℕ) };

    /// Takes bytes from the front of `bytes` and returns their number, which may be 0.
    fn write(&mut self, bytes: &[u8]) -> Result<usize, DeviceFault>
        ensures counted { IsCounted (calls self.old) (calls self.new) (faults self.old)
            (faults self.new) result }
        ensures within { IfOk result (λ n. n ≤ length bytes.now) }
        ensures bytes { WriteAppends (taken self.old) (taken self.new) result bytes.now };
}
