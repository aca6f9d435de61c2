//! Counters of the calls and the failures of a device.

ghost use Rattle.std.specs.Prelude.{◌≡◌, ◌+◌, ℕ, Ok, IsErr, MatchResult, if◌then◌else◌};
ghost use Rattle.std.specs.Borrow.{ftrue};
ghost use Rattle.plan_io.specs.Devices.{IsCounted};

use crate::traits::DeviceFault;
use std::marker::Model;

/// The numbers of calls and of failed calls of one reader or writer. Only contracts see these
/// numbers: a
/// `Tally` takes no bytes at run time, and nothing can overflow.
///
/// They bind code that is generic over a [`Source`](crate::Source) or a [`Sink`](crate::Sink): it
/// can raise them only by calling the device.
#[derive(Drop)]
pub struct Tally {
    pub ghost calls: { ℕ },
    pub ghost faults: { ℕ },
}

impl Model for Tally {
    ghost also_owns = { λ _. ftrue };
}

impl Tally {
    /// Returns the counters of a device before its first call.
    pub fn new() -> Tally
        ensures { (result.calls ≡ 0) × (result.faults ≡ 0) }
    {
        Tally {}
    }

    /// Counts one call by its result: an error is a fault.
    pub fn count<T, E: Drop>(&mut self, answer: Result<T, E>) -> Result<T, DeviceFault>
        ensures counted { IsCounted self.old.calls self.new.calls self.old.faults self.new.faults result }
        ensures answer { MatchResult answer (λ value. result ≡ Ok value) (λ _. IsErr result) }
    {
        *self = self.with_call(answer.is_ok());
        answer.map_err(|_| DeviceFault)
    }

    // Returns the counters after one more call, which failed unless `good`.
    fn with_call(&self, good: bool) -> Tally
        ensures { (result.calls ≡ self.now.calls + 1)
            × (result.faults ≡ (if good then self.now.faults else self.now.faults + 1)) }
    {
        Tally {}
    }
}
