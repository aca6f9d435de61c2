//! Bytes in memory as a source and as a sink.

ghost use Rattle.std.specs.Prelude.{◌≡◌, Some};

use crate::tally::Tally;
use crate::traits::{DeviceFault, Sink, Source};

/// A source over bytes in memory. A read copies as many bytes as fit into its buffer and never
/// fails.
#[derive(Drop)]
pub struct MemSource<'a> {
    rest: &'a [u8],
    tally: Tally,
}

impl<'a> MemSource<'a> {
    pub fn new(bytes: &'a [u8]) -> MemSource<'a>
        ensures calls { ⟦<MemSource<'a> as Source>⟧.calls result ≡ 0 }
        ensures bytes { ⟦<MemSource<'a> as Source>⟧.remaining result ≡ Some bytes.now }
    {
        MemSource {
            rest: bytes,
            tally: Tally::new(),
        }
    }
}

impl<'a> Source for MemSource<'a> {
    ghost calls = { λ source. source.tally.calls };

    ghost faults = { λ _. 0 };

    ghost remaining = { λ source. Some source.rest.now };

    fn read(&mut self, buf: &mut [u8]) -> Result<usize, DeviceFault> {
        let n = buf.len().min(self.rest.len());
        let (front, rest) = self.rest.split_at(n);
        buf[..n].copy_from_slice(front);
        self.rest = rest;
        self.tally.count(Ok::<usize, DeviceFault>(n))
    }
}

/// A sink that keeps all bytes in a `Vec`. It fails if memory runs out.
#[derive(Drop)]
pub struct MemSink {
    bytes: Vec<u8>,
    tally: Tally,
}

impl MemSink {
    /// Returns a sink that appends to these bytes.
    pub fn new(bytes: Vec<u8>) -> MemSink
        ensures calls { ⟦<MemSink as Sink>⟧.calls result ≡ 0 }
        ensures faults { ⟦<MemSink as Sink>⟧.faults result ≡ 0 }
        ensures bytes { ⟦<MemSink as Sink>⟧.taken result ≡ Some bytes.items }
    {
        MemSink {
            bytes,
            tally: Tally::new(),
        }
    }

    /// Returns all bytes of the sink, those from `new` first.
    pub fn into_bytes(self) -> Vec<u8>
        ensures { ⟦<MemSink as Sink>⟧.taken self ≡ Some result.items }
    {
        self.bytes
    }
}

impl Sink for MemSink {
    ghost calls = { λ sink. sink.tally.calls };

    ghost faults = { λ sink. sink.tally.faults };

    ghost taken = { λ sink. Some sink.bytes.items };

    fn write(&mut self, bytes: &[u8]) -> Result<usize, DeviceFault> {
        let kept = self.bytes.extend_from_slice(bytes);
        self.tally.count(kept)?;
        Ok(bytes.len())
    }
}
