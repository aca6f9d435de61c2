//! Traces: the bytes that went through a device.

ghost use Rattle.std.specs.Prelude.{◌≡◌, ◌++◌, ℕ, List, []};
ghost use Rattle.std.specs.Borrow.{ftrue};

use std::marker::Model;

/// The bytes that went through a device, in order. Only contracts see them: a `Trace` has size 0
/// and stores nothing.
///
/// The owner of a trace may add any bytes. A trace is evidence only if a trait ties it to the
/// results of calls, as [`Client`](crate::Client) does.
#[derive(Drop)]
pub struct Trace {
    pub ghost bytes: { List ℕ },
}

impl Model for Trace {
    ghost also_owns = { λ _. ftrue };
}

impl Trace {
    /// Returns the empty trace.
    pub fn new() -> Trace
        ensures { result.bytes ≡ [] }
    {
        Trace {}
    }

    /// Returns the trace with more bytes at its end.
    pub fn with(&self, _more: &[u8]) -> Trace
        ensures { result.bytes ≡ self.now.bytes ++ _more.now }
    {
        Trace {}
    }
}
