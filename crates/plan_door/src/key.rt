//! The key of an office, read from the first line of a text.

ghost use Rattle.std.specs.Prelude.{◌≡◌, ◌⊎◌, ◌+◌, ◌≤◌, ◌∷◌, ◌++◌, [], MatchOption, IfOk, OnOk, IfErr, IsErrOf};
ghost use Rattle.std.specs.Io.KnownBytes.{Consumes, IsAtEnd};
ghost use Rattle.plan_io.specs.Devices.{IsCounted};
ghost use Rattle.std.specs.List.{before_first, position};
ghost use Rattle.plan_psplib.specs.Lines.{is_line_feed};
ghost use Rattle.plan_door.specs.Keys as spec;

use crate::fault::ServeFault;
use plan_desk::key_digest;
use plan_io::{DeviceFault, Source};
use std::alloc::Global;

// The greatest number of bytes that are read: the longest key, a carriage return and a line feed.
const LONGEST_LINE: u32 = 66;

// A line without a carriage return at its end.
fn without_return(line: &[u8]) -> &[u8]
    ensures { result.now ≡ spec.without_return line.now }
{
    match line.strip_suffix(&[b'\r']) {
        Some(front) => front,
        None => line,
    }
}

// The place of the first line feed.
fn line_feed_in(text: &[u8]) -> Option<usize>
    ensures { result ≡ position is_line_feed text.now }
{
    text.iter().position(|&byte| byte == b'\n')
}

// The text before the first line feed.
#[tactic(auto, using(crate::proofs::KeyLemmas::cut_at, crate::proofs::KeyLemmas::uncut))]
fn before_line_feed(text: &[u8]) -> &[u8]
    ensures { result.now ≡ before_first is_line_feed text.now }
{
    match line_feed_in(text) {
        Some(end) => &text[..end],
        None => text,
    }
}

// The first line of a text, without its end.
#[tactic(auto, unfolding(crate::specs::Keys::first_line))]
fn first_line(text: &[u8]) -> &[u8]
    ensures { result.now ≡ spec.first_line text.now }
{
    without_return(before_line_feed(text))
}

// Reads one byte, or none at the end.
fn next_byte<R: Source>(reader: &mut R) -> Result<Option<u8>, DeviceFault>
    ensures counted { IsCounted (R.calls reader.old) (R.calls reader.new)
        (R.faults reader.old) (R.faults reader.new) result }
    ensures byte { IfOk result (λ next. MatchOption next
        (IsAtEnd (R.remaining reader.new)
        × Consumes (R.remaining reader.old) (R.remaining reader.new) [])
        (λ byte. Consumes (R.remaining reader.old) (R.remaining reader.new) (byte ∷ []))) }
{
    let mut bytes = [0];
    if reader.read(&mut bytes)? == 0 {
        return Ok(None);
    }
    Ok(Some(bytes[0]))
}

// Adds a byte.
fn push_byte(line: &mut Vec<u8>, byte: u8) -> Result<(), ServeFault>
    ensures kept { OnOk result (line.new.items ≡ line.old.items ++ byte ∷ []) }
    ensures memory { IfErr result (λ e. e ≡ ServeFault.Memory) }
{
    line.push(byte).map_err(|_| ServeFault::Memory)
}

// Reads bytes up to and including the first line feed, but no more than the longest line has.
fn read_line<R: Source>(alloc: Global, reader: &mut R) -> Result<Vec<u8>, ServeFault>
    ensures calls { R.calls reader.new ≤ R.calls reader.old + 66 }
    ensures front { IfOk result
        (λ line. spec.IsFront (R.remaining reader.old) (R.remaining reader.new) line.items) }
    ensures fine { OnOk result (R.faults reader.new ≡ R.faults reader.old) }
    ensures refused { IfErr result
        (λ e. ((e ≡ ServeFault.Memory) × (R.faults reader.new ≡ R.faults reader.old))
        ⊎ ((e ≡ ServeFault.Input) × (R.faults reader.new ≡ R.faults reader.old + 1))) }
{
    let mut line = Vec::new(alloc);
    for _ in 0..LONGEST_LINE {
        let Ok(next) = next_byte(reader) else {
            return Err(ServeFault::Input);
        };
        let Some(byte) = next else {
            return Ok(line);
        };
        push_byte(&mut line, byte)?;
        if byte == b'\n' {
            return Ok(line);
        }
    }
    Ok(line)
}

/// Reads a key from the first line of a text, without the carriage return and the line feed at its
/// end, and returns its digest. It reads at most 66 bytes, and none after the line feed.
pub fn read_key<R: Source>(alloc: Global, reader: &mut R) -> Result<[u8; 32], ServeFault>
    ensures calls { R.calls reader.new ≤ R.calls reader.old + 66 }
    ensures takes { spec.TakesKey (R.remaining reader.old) (R.remaining reader.new) result }
    ensures fine { OnOk result (R.faults reader.new ≡ R.faults reader.old) }
    // A fault of the reader is reported as a fault of the input.
    ensures heard { IfErr result
        (λ e. (e ≡ ServeFault.Input) ⊎ (R.faults reader.new ≡ R.faults reader.old)) }
    ensures input { IsErrOf result ServeFault.Input
        → R.faults reader.new ≡ R.faults reader.old + 1 }
{
    let line = read_line(alloc, reader)?;
    key_digest(first_line(&line)).ok_or(ServeFault::Key)
}
