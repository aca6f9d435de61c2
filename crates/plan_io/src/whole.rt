//! Whole reads of a source and whole writes to a sink.

ghost use Rattle.std.specs.Prelude.{◌≡◌, ◌+◌, ◌≤◌, ◌<◌, ◌++◌, ℕ, List, length, take, vec_len, IfOk, OnOk, IfErr, IfSome, IsErrOf};
ghost use Rattle.std.specs.Io.KnownBytes.{Consumes, Appends, IsAtEnd};
ghost use Rattle.plan_io.specs.Devices.{most_calls, HasFailed};
ghost use Rattle.plan_io.specs.declared.whole.InputError.TheVariants.{Memory, Failed};

use crate::traits::{DeviceFault, Sink, Source};
use std::alloc::{AllocError, Global};
use thiserror::Error;

/// The most calls that one `read_beyond` or `write_whole` makes.
pub const MOST_CALLS: u32 = 2_113_536;

// The most bytes that one read asks for.
const CHUNK: usize = 4096;

/// The error of `read_beyond`.
#[derive(Clone, Copy, Debug, PartialEq, Eq, Error)]
pub enum InputError {
    #[error("out of memory")]
    Memory,
    /// A read failed, or there were too many reads.
    #[error("the input failed")]
    Failed,
}

impl From<AllocError> for InputError {
    ghost from_gives = { λ _ e. e ≡ Memory };

    fn from(_e: AllocError) -> InputError {
        InputError::Memory
    }
}

impl From<DeviceFault> for InputError {
    ghost from_gives = { λ _ e. e ≡ Failed };

    fn from(_e: DeviceFault) -> InputError {
        InputError::Failed
    }
}

/// The error of `write_whole`: a write failed, or there were too many writes.
#[derive(Clone, Copy, Debug, PartialEq, Eq, Error)]
#[error("the output failed after {sent} bytes")]
pub struct OutputError {
    /// The number of bytes, from the front, that were written.
    pub sent: usize,
}

/// Reads all bytes of a source, but at most `limit + 1`. A result longer than `limit` shows that
/// the input is too long. If `limit + 2` is at most [`MOST_CALLS`], the error `Failed` means that
/// exactly one read failed.
pub fn read_beyond<R: Source>(
    alloc: Global,
    reader: &mut R,
    limit: usize,
) -> Result<Vec<u8>, InputError>
    ensures calls { R.calls reader.new ≤ R.calls reader.old + most_calls }
    ensures consumed { IfOk result (λ v. Consumes (R.remaining reader.old)
        (R.remaining reader.new) v.items) }
    ensures bytes { IfOk result (λ v. IfSome (R.remaining reader.old)
        (λ all. v.items ≡ take (limit + 1) all)) }
    ensures short { IfOk result (λ v. length v.items ≤ limit + 1) }
    ensures fine { OnOk result (R.faults reader.new ≡ R.faults reader.old) }
    ensures memory { IsErrOf result InputError.Memory → R.faults reader.new ≡ R.faults reader.old }
    ensures failed { IsErrOf result InputError.Failed →
        HasFailed (R.calls reader.old) (R.calls reader.new) (R.faults reader.old) (R.faults reader.new) }
    ensures sure { limit + 2 ≤ most_calls → IsErrOf result InputError.Failed →
        R.faults reader.new ≡ R.faults reader.old + 1 }
{
    let mut bytes = Vec::new(alloc);
    let mut chunk = [0; CHUNK];
    for _ in 0..MOST_CALLS {
        if bytes.len() > limit {
            return Ok(bytes);
        }
        let room = (limit - bytes.len()).min(CHUNK - 1) + 1;
        let n = read_more(reader, &mut bytes, &mut chunk[..room])?;
        if n == 0 {
            return Ok(bytes);
        }
    }
    Err(InputError::Failed)
}

// Appends the bytes of one read to `bytes` and returns their number; 0 means the end of the input.
fn read_more<R: Source>(
    reader: &mut R,
    bytes: &mut Vec<u8>,
    chunk: &mut [u8],
) -> Result<usize, InputError>
    requires { 0 < length chunk.old }
    ensures counted { R.calls reader.new ≡ R.calls reader.old + 1 }
    ensures within { IfOk result (λ n. n ≤ length chunk.old) }
    ensures fine { OnOk result (R.faults reader.new ≡ R.faults reader.old) }
    ensures memory { IsErrOf result InputError.Memory → R.faults reader.new ≡ R.faults reader.old }
    ensures failed { IsErrOf result InputError.Failed →
        R.faults reader.new ≡ R.faults reader.old + 1 }
    ensures longer { IfOk result (λ n. vec_len bytes.new ≡ vec_len bytes.old + n) }
    ensures more { IfOk result (λ n. (part : List ℕ) × (bytes.new.items ≡ bytes.old.items ++ part)
        × Consumes (R.remaining reader.old) (R.remaining reader.new) part
        × (n ≡ 0 → IsAtEnd (R.remaining reader.new))) }
    ensures none { IfOk result (λ n. n ≡ 0 → bytes.new.items ≡ bytes.old.items) }
{
    let n = reader.read(chunk)?;
    bytes.extend_from_slice(&chunk[..n])?;
    Ok(n)
}

/// Writes all bytes in at most [`MOST_CALLS`] writes. A write that takes no bytes is repeated.
pub fn write_whole<W: Sink>(writer: &mut W, bytes: &[u8]) -> Result<(), OutputError>
    ensures calls { W.calls writer.new ≤ W.calls writer.old + most_calls }
    ensures written { OnOk result (Appends (W.taken writer.old) (W.taken writer.new) bytes.now) }
    ensures fine { OnOk result (W.faults writer.new ≡ W.faults writer.old) }
    ensures part { IfErr result (λ e. (e.sent < length bytes.now)
        × Appends (W.taken writer.old) (W.taken writer.new) (take e.sent bytes.now)) }
    ensures failed { IfErr result (λ _.
        HasFailed (W.calls writer.old) (W.calls writer.new) (W.faults writer.old) (W.faults writer.new)) }
{
    let mut sent = 0;
    for _ in 0..MOST_CALLS {
        if sent == bytes.len() {
            return Ok(());
        }
        sent += writer
            .write(&bytes[sent..])
            .map_err(|_| OutputError { sent })?;
    }
    if sent == bytes.len() {
        return Ok(());
    }
    Err(OutputError { sent })
}
