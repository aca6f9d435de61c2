//! Logs of proofs.

/// Takes the log of a proof.
pub trait Log {
    /// Whether a log is wanted.
    fn is_wanted(&self) -> bool;

    /// Takes whole lines. Returns whether more are wanted; after `false` it gets no more.
    fn write(&mut self, lines: &str) -> bool;
}

/// A log that wants no lines.
#[derive(Drop)]
pub struct Unlogged;

impl Log for Unlogged {
    fn is_wanted(&self) -> bool {
        false
    }

    fn write(&mut self, _lines: &str) -> bool {
        false
    }
}
