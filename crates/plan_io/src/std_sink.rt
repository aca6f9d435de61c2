//! A sink over a writer of std.

ghost use Rattle.std.specs.Prelude.{◌≡◌};

use crate::tally::Tally;
use crate::traits::{DeviceFault, Sink};
use std::io::Write;

/// A sink over a writer of std. Each error of the writer is a fault. A `Sink` isn't flushed, so the
/// writer should not buffer.
#[derive(Drop)]
pub struct StdSink<W: Write + Drop> {
    inner: W,
    tally: Tally,
}

impl<W: Write + Drop> StdSink<W> {
    pub fn new(inner: W) -> StdSink<W>
        ensures calls { ⟦<StdSink<W> as Sink>⟧.calls result ≡ 0 }
        ensures faults { ⟦<StdSink<W> as Sink>⟧.faults result ≡ 0 }
        ensures bytes { ⟦<StdSink<W> as Sink>⟧.taken result ≡ W.contents inner }
    {
        StdSink {
            inner,
            tally: Tally::new(),
        }
    }
}

impl<W: Write + Drop> Sink for StdSink<W> {
    ghost calls = { λ sink. sink.tally.calls };

    ghost faults = { λ sink. sink.tally.faults };

    ghost taken = { λ sink. W.contents sink.inner };

    fn write(&mut self, bytes: &[u8]) -> Result<usize, DeviceFault> {
        let written = self.inner.write(bytes);
        self.tally.count(written)
    }
}
