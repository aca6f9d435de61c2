//! The bytes of connections, read from files.

ghost use Rattle.std.specs.Prelude.{◌≡◌, ◌⊎◌, ◌+◌, ◌≤◌, take, IfOk, OnOk, IfErr, IfSome};
ghost use Rattle.plan_io.specs.Devices.{most_calls};
ghost use Rattle.plan_door.specs.ReplayRun.{longest_request};

use crate::fault::ServeFault;
use plan_io::{InputError, Source, read_beyond};
use std::alloc::Global;

// The greatest number of bytes that are read of a file: the longest head and the longest body.
const LONGEST_REQUEST: usize = 1_056_768;

/// Reads the bytes of a connection. Bytes after the longest request change no response, and aren't
/// read.
pub fn read_connection<R: Source>(alloc: Global, reader: &mut R) -> Result<Vec<u8>, ServeFault>
    ensures calls { R.calls reader.new ≤ R.calls reader.old + most_calls }
    ensures bytes { IfOk result
        (λ v. IfSome (R.remaining reader.old) (λ file. v.items ≡ take longest_request file)) }
    ensures fine { OnOk result (R.faults reader.new ≡ R.faults reader.old) }
    ensures refused { IfErr result
        (λ e. ((e ≡ ServeFault.Memory) × (R.faults reader.new ≡ R.faults reader.old))
        ⊎ ((e ≡ ServeFault.Input) × (R.faults reader.new ≡ R.faults reader.old + 1))) }
{
    match read_beyond(alloc, reader, LONGEST_REQUEST - 1) {
        Ok(bytes) => Ok(bytes),
        Err(InputError::Memory) => Err(ServeFault::Memory),
        Err(InputError::Failed) => Err(ServeFault::Input),
    }
}
