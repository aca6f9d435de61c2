//! A source over a reader of std.

ghost use Rattle.std.specs.Prelude.{◌≡◌};

use crate::tally::Tally;
use crate::traits::{DeviceFault, Source};
use std::io::Read;

/// A source over a reader of std. Each error of the reader is a fault.
#[derive(Drop)]
pub struct StdSource<R: Read + Drop> {
    inner: R,
    tally: Tally,
}

impl<R: Read + Drop> StdSource<R> {
    pub fn new(inner: R) -> StdSource<R>
        ensures calls { ⟦<StdSource<R> as Source>⟧.calls result ≡ 0 }
        ensures faults { ⟦<StdSource<R> as Source>⟧.faults result ≡ 0 }
        ensures bytes { ⟦<StdSource<R> as Source>⟧.remaining result ≡ R.remaining inner }
    {
        StdSource {
            inner,
            tally: Tally::new(),
        }
    }
}

impl<R: Read + Drop> Source for StdSource<R> {
    ghost calls = { λ source. source.tally.calls };

    ghost faults = { λ source. source.tally.faults };

    ghost remaining = { λ source. R.remaining source.inner };

    fn read(&mut self, buf: &mut [u8]) -> Result<usize, DeviceFault> {
        let read = self.inner.read(buf);
        self.tally.count(read)
    }
}
