//! The bytes of a file in memory: reading them and writing them.

ghost use Rattle.std.specs.Prelude.{◌≡◌, ◌⊎◌, ◌+◌, ◌≤◌, length, take, IfOk, OnOk, IfErr, IfSome};
ghost use Rattle.std.specs.Io.KnownBytes.{Consumes};
ghost use Rattle.plan_io.specs.Devices.{most_calls};
ghost use Rattle.plan_psplib.specs.Plain.{longest_text};
ghost use Rattle.plan_errors.specs.Output.{HasSinkFailed, Sends};

use crate::context::About;
use crate::fault::CliFault;
use plan_io::{InputError, Sink, Source, read_beyond, write_whole};
use plan_psplib::LONGEST_TEXT;
use std::alloc::Global;

/// Reads the bytes of the file that is this argument, at most one more than the longest text has.
pub fn read_file<R: Source>(
    alloc: Global,
    reader: &mut R,
    about: About,
) -> Result<Vec<u8>, CliFault>
    ensures calls { R.calls reader.new ≤ R.calls reader.old + most_calls }
    ensures consumed { IfOk result (λ v.
        Consumes (R.remaining reader.old) (R.remaining reader.new) v.items) }
    ensures bytes { IfOk result (λ v. IfSome (R.remaining reader.old) (λ file.
        v.items ≡ take (longest_text + 1) file)) }
    ensures short { IfOk result (λ v. length v.items ≤ longest_text + 1) }
    ensures fine { OnOk result (R.faults reader.new ≡ R.faults reader.old) }
    ensures refused { IfErr result (λ e.
        ((e ≡ CliFault.Memory) × (R.faults reader.new ≡ R.faults reader.old))
        ⊎ ((e ≡ CliFault.Input about) × (R.faults reader.new ≡ R.faults reader.old + 1))) }
{
    match read_beyond(alloc, reader, LONGEST_TEXT) {
        Ok(bytes) => Ok(bytes),
        Err(InputError::Memory) => Err(CliFault::Memory),
        Err(InputError::Failed) => Err(CliFault::Input(about)),
    }
}

/// Writes a text. The only error is that of the output.
pub fn write_text<W: Sink>(writer: &mut W, text: &[u8]) -> Result<(), CliFault>
    ensures calls { W.calls writer.new ≤ W.calls writer.old + most_calls }
    ensures sent { Sends text.now (W.taken writer.old) (W.taken writer.new) result }
    ensures fine { OnOk result (W.faults writer.new ≡ W.faults writer.old) }
    ensures output { IfErr result (λ e.
        (e ≡ CliFault.Output) × HasSinkFailed W.Sink writer.old writer.new) }
{
    write_whole(writer, text).map_err(|_| CliFault::Output)
}
