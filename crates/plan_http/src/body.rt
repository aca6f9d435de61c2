//! The body of a request. Its first bytes may have been read with the head.

ghost use Rattle.std.specs.Prelude.{◌≡◌, ℕ, ◌+◌, ◌<◌, ◌≤◌, List, length, take, IfOk, MatchResult};
ghost use Rattle.plan_io.specs.Devices.{IsCounted};
ghost use Rattle.plan_http.specs.Pieces.{Reads, IsSplit};
ghost use Rattle.plan_http.specs.BodyPieces.{RestOutcome, BodyOutcome, IfRead, BodyFaults, HasLeft, Skips, IsWhole};

use crate::client::Client;
use crate::head::fill;
use plan_io::DeviceFault;
use std::alloc::{AllocError, Global};

/// The result of reading a body.
#[derive(Drop)]
pub(crate) enum BodyEnd {
    Read(Vec<u8>),
    /// The bytes ended too early.
    Short,
    NoMemory,
    /// The reader failed.
    Failed,
}

// A buffer of `count` bytes that begins with the bytes that were read.
fn with_room(alloc: Global, got: &[u8], count: usize) -> Result<Vec<u8>, AllocError>
    requires { length got.now ≤ count }
    ensures { IfOk result
        (λ body. (take (length got.now) body.items ≡ got.now) × (length body.items ≡ count)) }
{
    let mut body = Vec::with_capacity(alloc, count)?;
    body.extend_from_slice(got)?;
    body.resize(count, 0)?;
    Ok(body)
}

// Reads until a body is full. Returns false if the bytes end too early.
fn fill_up<R: Client>(reader: &mut R, body: &mut [u8], from: usize) -> Result<bool, DeviceFault>
    requires { from ≤ length body.old }
    ensures calls { R.calls reader.new ≤ R.calls reader.old + length body.old }
    ensures faults { MatchResult result (λ _. R.faults reader.new ≡ R.faults reader.old)
        (λ _. R.faults reader.new ≡ R.faults reader.old + 1) }
    ensures bytes { Reads (R.known reader.old) (R.known reader.new)
        (λ had left. (bytes : List ℕ) → IsSplit bytes (take from body.old) had
        → IfOk result (RestOutcome bytes body.new left)) }
{
    let mut filled = from;
    for _ in 0..body.len() {
        if filled == body.len() {
            return Ok(true);
        }
        let came = fill(reader, body, filled)?;
        if came == 0 {
            return Ok(false);
        }
        filled += came;
    }
    Ok(true)
}

// The body that was read with the head.
fn copy_of(alloc: Global, body: &[u8]) -> BodyEnd
    ensures body { IfRead result body.now }
    ensures faults { (faults : ℕ) → BodyFaults faults faults result }
{
    match Vec::from_slice(alloc, body) {
        Ok(body) => BodyEnd::Read(body),
        Err(_) => BodyEnd::NoMemory,
    }
}

/// Reads a body of `count` bytes, whose first bytes were read with the head.
pub(crate) fn read_body<R: Client>(alloc: Global, reader: &mut R, got: &[u8], count: u32) -> BodyEnd
    ensures body { Reads (R.known reader.old) (R.known reader.new)
        (λ had left. (after : List ℕ) → IsSplit after got.now had
        → BodyOutcome after got.now count left result) }
    ensures calls { R.calls reader.new ≤ R.calls reader.old + count }
    ensures faults { BodyFaults (R.faults reader.old) (R.faults reader.new) result }
{
    let count = count as usize;
    if count < got.len() {
        return copy_of(alloc, &got[..count]);
    }
    let Ok(mut body) = with_room(alloc, got, count) else {
        return BodyEnd::NoMemory;
    };
    match fill_up(reader, &mut body, got.len()) {
        Ok(true) => BodyEnd::Read(body),
        Ok(false) => BodyEnd::Short,
        Err(_) => BodyEnd::Failed,
    }
}

// The number of bytes of a discarded body that are read at once.
const PIECE: usize = 4096;

// Reads and discards bytes, and returns their number.
fn skip<R: Client>(reader: &mut R, piece: &mut [u8]) -> Result<usize, DeviceFault>
    requires { 0 < length piece.old }
    ensures counted { IsCounted (R.calls reader.old) (R.calls reader.new)
        (R.faults reader.old) (R.faults reader.new) result }
    ensures within { IfOk result (λ came. came ≤ length piece.new) }
    ensures bytes { Reads (R.known reader.old) (R.known reader.new)
        (λ had left. Skips had left result) }
{
    fill(reader, piece, 0)
}

/// Reads and discards a body of `count` bytes, whose first bytes were read with the head. Returns
/// false if the bytes end too early.
pub(crate) fn skip_body<R: Client>(
    reader: &mut R,
    got: &[u8],
    count: u32,
) -> Result<bool, DeviceFault>
    ensures whole { Reads (R.known reader.old) (R.known reader.new)
        (λ had _. (total : ℕ) → HasLeft total (length got.now) had
        → IfOk result (IsWhole total count)) }
    ensures calls { R.calls reader.new ≤ R.calls reader.old + count }
    ensures faults { MatchResult result (λ _. R.faults reader.new ≡ R.faults reader.old)
        (λ _. R.faults reader.new ≡ R.faults reader.old + 1) }
{
    let count = count as usize;
    let mut piece = [0; PIECE];
    let mut filled = got.len();
    for _ in 0..count {
        if count <= filled {
            return Ok(true);
        }
        let room = (count - filled).min(PIECE);
        let came = skip(reader, &mut piece[..room])?;
        if came == 0 {
            return Ok(false);
        }
        filled += came;
    }
    Ok(true)
}
