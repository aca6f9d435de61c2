//! A copy of all bytes of a source.

ghost use Rattle.std.specs.Prelude.{◌≡◌, ◌+◌, ◌<◌, ◌⊎◌, ℕ, length, IfOk, OnOk, IfErr, IsErrOf};
ghost use Rattle.std.specs.Prelude.{IsTrue};
ghost use Rattle.plan_io.specs.Devices.{HasFailed};
ghost use Rattle.plan_copies.specs.Bytes.{AreCopied, AreMoved, AreMovedInPart, HasMissed};
ghost use Rattle.std.specs.Io.KnownBytes.{IsAtEnd};

use crate::fault::PairFault;
use plan_io::{MOST_CALLS, Sink, Source, write_whole};

// The most bytes that one read asks for.
const CHUNK: usize = 65536;

/// Copies all bytes of a source to a sink, in at most [`MOST_CALLS`] reads.
#[tactic(auto, using(crate::proofs::ByteLemmas::moved_part))]
pub fn copy_all<R: Source, W: Sink>(reader: &mut R, writer: &mut W) -> Result<(), PairFault>
    // The sink takes the bytes that leave the source, and the source has no more.
    ensures copied { OnOk result (AreCopied (R.remaining reader.old) (R.remaining reader.new)
        (W.taken writer.old) (W.taken writer.new)) }
    // If it fails, the sink has the first of these bytes, and no others.
    ensures part { IfErr result (λ _. AreMovedInPart (R.remaining reader.old)
        (R.remaining reader.new) (W.taken writer.old) (W.taken writer.new)) }
    ensures fine { OnOk result ((R.faults reader.new ≡ R.faults reader.old)
        × (W.faults writer.new ≡ W.faults writer.old)) }
    ensures which { IfErr result
        (λ e. (e ≡ PairFault.Unread) ⊎ (e ≡ PairFault.Unwritten)) }
    ensures unread { IsErrOf result PairFault.Unread →
        HasFailed (R.calls reader.old) (R.calls reader.new)
        (R.faults reader.old) (R.faults reader.new) }
    ensures unwritten { IsErrOf result PairFault.Unwritten →
        HasMissed (W.calls writer.new) (W.faults writer.old) (W.faults writer.new) }
{
    let mut chunk = [0; CHUNK];
    for _ in 0..MOST_CALLS {
        if copy_next(reader, writer, &mut chunk)? {
            return Ok(());
        }
    }
    Err(PairFault::Unread)
}

// Copies the bytes of one read. Returns whether there were none left.
#[tactic(auto, using(crate::proofs::ByteLemmas::none_moved))]
fn copy_next<R: Source, W: Sink>(
    reader: &mut R,
    writer: &mut W,
    chunk: &mut [u8],
) -> Result<bool, PairFault>
    requires { 0 < length chunk.old }
    ensures counted { R.calls reader.new ≡ R.calls reader.old + 1 }
    ensures room { length chunk.new ≡ length chunk.old }
    ensures moved { OnOk result (AreMoved (R.remaining reader.old) (R.remaining reader.new)
        (W.taken writer.old) (W.taken writer.new)) }
    ensures end { IfOk result (λ is_end. IsTrue is_end → IsAtEnd (R.remaining reader.new)) }
    ensures part { IfErr result (λ _. AreMovedInPart (R.remaining reader.old)
        (R.remaining reader.new) (W.taken writer.old) (W.taken writer.new)) }
    ensures fine { OnOk result ((R.faults reader.new ≡ R.faults reader.old)
        × (W.faults writer.new ≡ W.faults writer.old)) }
    ensures which { IfErr result
        (λ e. (e ≡ PairFault.Unread) ⊎ (e ≡ PairFault.Unwritten)) }
    ensures unread { IsErrOf result PairFault.Unread →
        R.faults reader.new ≡ R.faults reader.old + 1 }
    ensures unwritten { IsErrOf result PairFault.Unwritten →
        HasMissed (W.calls writer.new) (W.faults writer.old) (W.faults writer.new) }
{
    let Ok(n) = reader.read(chunk) else {
        return Err(PairFault::Unread);
    };
    if n == 0 {
        return Ok(true);
    }
    write_whole(writer, &chunk[..n]).map_err(|_| PairFault::Unwritten)?;
    Ok(false)
}
